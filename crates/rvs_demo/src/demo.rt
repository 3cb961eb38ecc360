// The demonstration.
ghost use Rattle.std.specs.Prelude.{◌≡◌, ◌≤◌, [], ◌∷◌, IfOk, map};
ghost use Rattle.rvs_points.specs.PointView.{label_view};
ghost use Rattle.rvs_demo.specs.Demo as spec;
ghost use Rattle.rvs_demo.specs.Label.{label};

use crate::counting::count_run;
use crate::label::label;
use crate::program::{CORE, image};
use rvs_base::{DemoSize, Items, NoMemory, Text, beside, release};
use rvs_count::new_counter;
use rvs_machine::Machine;
use rvs_points::Groups;
use std::alloc::Global;

/// The report of what the program with so many generated instructions hits of these groups.
fn report_on(alloc: Global, count: u64, groups: &Groups) -> Result<Text, NoMemory>
    requires few { count ≤ 1000000 }
    requires groups { map label_view groups.now ≡ label ∷ [] }
    ensures { IfOk result (λ text. text ≡ spec.report count) }
{
    let machine = Machine::new(image(alloc, count)?, CORE);
    let counter = new_counter(alloc, groups, Items::new(alloc));
    let (mut counter, mut machine) = beside(counter, machine)?;
    count_run(&mut machine, &mut counter, count + 11);
    release(machine);
    counter.finish();
    let report = counter.told().report(alloc);
    release(counter);
    report
}

/// Runs the program with so many generated instructions, and counts its coverage: what is executed
/// is counted as it comes, as the lines of a log would be, and neither a log nor the run is kept.
/// It takes four bytes of memory for each instruction.
///
/// # Errors
///
/// [`NoMemory`].
#[tactic(auto, unfolding(crate::specs::Demo::demo_text))]
pub fn demo_text(alloc: Global, size: DemoSize) -> Result<Text, NoMemory>
    ensures text { IfOk result (λ text. text ≡ spec.demo_text size) }
    ensures whole { spec.IsWhole size }
{
    let count = size.count();
    let label = label(alloc)?;
    let mut groups: Groups = Items::new(alloc);
    let ((), groups) = beside(groups.push(label), groups)?;
    let outcome = report_on(alloc, count, &groups);
    release(groups);
    let report = outcome?;
    Ok(Text::from(format!(in alloc; "demo {count}\n{report}", report = report.as_str())?))
}

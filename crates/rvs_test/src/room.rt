// Whether the regions of a core have room for a test.
ghost use Rattle.std.specs.Prelude.{◌≡◌, ◌≤◌, ◌+◌, IfOk};
ghost use Rattle.rvs_insn.specs.Memory.{HasRoom};
ghost use Rattle.rvs_points.specs.PointView.{label_view};
ghost use Rattle.rvs_points.specs.Limits.{most_points};
ghost use Rattle.rvs_points.specs.Valid.{IsValid};
ghost use Rattle.rvs_solver.specs.Solving.{bound_of_label};
ghost use Rattle.rvs_test.specs.Made as made;
ghost use Rattle.rvs_test.specs.Room.{hold};

use crate::finding::find_cases;
use crate::sizes::code_bytes;
use rvs_base::{NoMemory, release};
use rvs_expr::Steps;
use rvs_insn::IsaSpec;
use rvs_points::Label;
use std::alloc::Global;
use std::sync::ledger::Ledger;

/// Whether the regions hold so many bytes of code and the data of so many cases, behind which there
/// is an address.
fn hold(spec: &IsaSpec, code: u64, cases: usize) -> bool
    requires few { cases ≤ most_points }
    ensures value { result ≡ hold spec.now.memory code cases }
    ensures room { HasRoom spec.now.memory }
{
    let text_limit = u64::from(spec.memory.text_limit());
    let data_limit = u64::from(spec.memory.data_limit());
    let bytes = 32 + 8 * cases as u64;
    let end = u64::from(spec.memory.data_base) + bytes;
    code <= text_limit && bytes <= data_limit && end < 1 << 32
}

/// Whether the regions of the core have room for the test of a label that is valid for it: for the
/// bytes of its code, and for those of its data, behind which there is an address. Where they would
/// hold the greatest cases, one for each point, nothing is solved.
///
/// # Errors
///
/// [`NoMemory`] alone. The bound on evaluations holds then too.
pub fn has_room<L: Ledger>(
    alloc: Global,
    label: &Label,
    spec: &IsaSpec,
    steps: &mut Steps<L>,
) -> Result<bool, NoMemory>
    requires { IsValid spec.now (label_view label.now) }
    ensures room { IfOk result (λ is. is ≡ made.has_room spec.now (label_view label.now)) }
    ensures cost { steps.new ≤ steps.old + bound_of_label spec.now (label_view label.now) }
{
    let points = label.points.as_slice().len();
    if hold(spec, 144 + 2100 * points as u64, points) {
        return Ok(true);
    }
    let found = find_cases(alloc, label, spec, steps)?;
    let cases = found.cases.as_slice();
    let has = hold(spec, code_bytes(spec, cases), cases.len());
    release(found);
    Ok(has)
}

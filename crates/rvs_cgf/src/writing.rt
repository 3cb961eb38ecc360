// Groups that are written out as they are read.
ghost use Rattle.std.specs.Prelude.{◌≡◌};
ghost use Rattle.rvs_tree.specs.TreeView as trees;
ghost use Rattle.rvs_cgf.specs.Groups as spec;
ghost use Rattle.rvs_cgf.specs.Writing.{normal_of, told, told_of};
ghost use Rattle.rvs_cgf.specs.GroupView.{AnswersWith};
ghost use Rattle.rvs_cgf.specs.WrittenView.{written_view};

use crate::entries::is_empty_scalar;
use crate::labelling::label_of;
use crate::limits::{MOST_LABELS, MOST_PAIRS};
use crate::listing::size;
use crate::place::at_label;
use crate::print::push_label;
use crate::refusal::CgfRefusal;
use crate::walk::refusal;
use crate::written::Written;
use rvs_abstract::Families;
use rvs_base::{Fault, Text, release};
use rvs_insn::IsaSpec;
use rvs_points::CgfKind;
use rvs_tree::Tree;
use std::alloc::Global;

/// One entry of the file, written out where it is a label. The sum of points times mnemonics stays
/// at most 65,536.
fn write_step(
    alloc: Global,
    isa: &IsaSpec,
    families: Families,
    name: &str,
    entries: &Tree,
    written: &mut Written,
) -> Result<(), Fault<CgfRefusal>>
    ensures { (listed : spec.Listed) → written_view written.old ≡ told listed
        → AnswersWith (λ _. written_view written.new) result
        (told_of (spec.label_step isa.now families name.now (trees.view entries.now) listed)) }
{
    if name == "datasets" {
        return Ok(());
    }
    if written.count >= MOST_LABELS {
        return Err(refusal(alloc, at_label(name), CgfKind::TooManyLabels));
    }
    let label = label_of(alloc, isa, families, name, entries)?;
    let total = written.total + size(&label);
    if total > MOST_PAIRS {
        release(label);
        return Err(refusal(alloc, at_label(name), CgfKind::TooManyPoints));
    }
    let pushed = push_label(&mut written.text, &label);
    release(label);
    pushed?;
    written.count += 1;
    written.total = total;
    Ok(())
}

/// Reads coverage groups for a core as `read_groups` does, and writes them out as `normal_text`
/// does. It holds the points of one label at a time.
///
/// # Errors
///
/// [`CgfRefusal`], as `read_groups` has it.
#[tactic(auto, unfolding(crate::specs::Groups::groups_of))]
pub fn write_groups(
    alloc: Global,
    tree: &Tree,
    isa: &IsaSpec,
    families: Families,
) -> Result<Text, Fault<CgfRefusal>>
    ensures { AnswersWith (λ text. text) result (normal_of isa.now families (trees.view tree.now)) }
{
    if is_empty_scalar(tree) {
        return Ok(Text::new(alloc));
    }
    if tree.is_map() {
        let mut written = Written {
            text: Text::new(alloc),
            count: 0,
            total: 0,
        };
        for i in 0..tree.len() {
            match write_step(
                alloc,
                isa,
                families,
                tree.key(i),
                tree.item(i),
                &mut written,
            ) {
                Ok(()) => {}
                Err(why) => return Err(why),
            }
        }
        let Written {
            text,
            count: _,
            total: _,
        } = written;
        return Ok(text);
    }
    Err(refusal(alloc, at_label(""), CgfKind::BadShape))
}

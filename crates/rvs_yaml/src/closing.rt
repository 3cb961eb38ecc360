// The value of a text, made of the blocks that are open at its end.
ghost use Rattle.std.specs.Prelude.{◌≡◌, IfOk};
ghost use Rattle.rvs_tree.specs.Value as value_spec;
ghost use Rattle.rvs_tree.specs.ValueView.{value_view};
ghost use Rattle.rvs_yaml_text.specs.Word.{opens_block};
ghost use Rattle.rvs_yaml_text.specs.WordView.{head_view};
ghost use Rattle.rvs_yaml.specs.Front as spec;
ghost use Rattle.rvs_yaml.specs.Gives.{Gives};
ghost use Rattle.rvs_yaml.specs.StackView.{own_view, stack_view};

use crate::open::{Block, Open};
use crate::stack::{closed_value, own_value};
use rvs_base::{Fault, beside, release};
use rvs_tree::{Value, scalar_value};
use rvs_yaml_text::YamlKind;
use std::alloc::Global;

/// The value of these blocks, of which the innermost has this value as its open member.
fn closed_blocks(
    alloc: Global,
    mut blocks: Vec<Open<'_>>,
    mut value: Value,
) -> Result<Value, Fault<YamlKind>>
    ensures { Gives value_view result
        (spec.ends (value_view value) (stack_view blocks.entry.items)) }
{
    while let Some(outer) = blocks.pop() {
        let Open { block, own, .. } = outer;
        release(own);
        let Block { line, done, .. } = block;
        value = closed_value(alloc, line, done, value)?;
    }
    Ok(value)
}

/// The value of these blocks. It takes them, so that nothing is held twice.
pub(crate) fn closed_stack(
    alloc: Global,
    mut blocks: Vec<Open<'_>>,
) -> Result<Value, Fault<YamlKind>>
    ensures { Gives value_view result (spec.front_value (stack_view blocks.entry.items)) }
{
    let Some(top) = blocks.pop() else {
        return Ok(scalar_value(alloc, String::new(alloc), 1)?);
    };
    let Open { block, head, own } = top;
    match own_value(alloc, &head, own) {
        Ok(own) => {
            let Block { line, done, .. } = block;
            let (value, blocks) = beside(closed_value(alloc, line, done, own), blocks)?;
            closed_blocks(alloc, blocks, value)
        }
        Err(_) => {
            release((block, blocks));
            Err(Fault::NoMemory)
        }
    }
}

// Filling in the value of a flow collection once its line is known to keep the number of nodes.
ghost use Rattle.std.specs.Prelude.{◌≡◌, ◌≤◌, ℕ, min, Some, Ok};
ghost use Rattle.rvs_tree.specs.Data.{depth};
ghost use Rattle.rvs_tree.specs.Standin.{standin};
ghost use Rattle.rvs_tree.specs.Value as value_spec;
ghost use Rattle.rvs_tree.specs.ValueView.{value_view};
ghost use Rattle.rvs_yaml_text.specs.Tokens.{tokens_of};
ghost use Rattle.rvs_yaml_text.specs.Word as word_spec;
ghost use Rattle.rvs_yaml_text.specs.WordView.{bracket_view, content_view, shape_view};
ghost use Rattle.rvs_yaml.specs.FillView.{content_parts, shape_parts};
ghost use Rattle.rvs_yaml.specs.Filling as spec;
ghost use Rattle.rvs_yaml.specs.Flow.{flow_value};
ghost use Rattle.rvs_yaml.specs.Front.{ends};
ghost use Rattle.rvs_yaml.specs.Reader.{Passes, Denies, DeniesFront, RefusesFront};
ghost use Rattle.rvs_yaml.specs.StackView.{all_known, stack_view};
ghost use Rattle.rvs_yaml.specs.StackView.{open_blocks};

use crate::flow_text::thin_flow_value;
use crate::front::{MOST_DEPTH, MOST_NODES, sketch_of, sketch_with};
use crate::height::flow_height;
use crate::known::Known;
use crate::open::Open;
use crate::open_blocks::OpenBlocks;
use crate::stack::put;
use rvs_base::{Fault, release};
use rvs_tree::{DEEP, Value};
use rvs_yaml_text::{Bracket, Content, Shape, YamlKind};
use std::alloc::Global;

/// Refuses a line whose front has too many nodes and can't be too deep, where this stands for the
/// value of its last word, which is at most so deep.
fn check_nodes(blocks: &[Open<'_>], thin: &Value, height: u64) -> Result<(), Fault<YamlKind>>
    requires { height ≤ 33 }
    ensures { (v : value_spec.Value) → value_view thin.now ≡ standin v
        → min (depth v.tree) 33 ≤ height → RefusesFront result (ends v (stack_view blocks.now)) }
{
    let sketch = sketch_with(blocks, sketch_of(thin, height))?;
    if sketch.nodes > MOST_NODES && sketch.depth <= MOST_DEPTH {
        Err(Fault::Refused(YamlKind::TooManyNodes))
    } else {
        Ok(())
    }
}

/// Refuses a line that merges what can't be merged, or whose front has too many nodes and can't be
/// too deep, where this stands for the value of its flow collection.
fn check_thin(
    alloc: Global,
    known: &Known<'_, '_>,
    blocks: &[Open<'_>],
    thin: &Value,
    text: &str,
) -> Result<(), Fault<YamlKind>>
    ensures { (line : ℕ) → (b : word_spec.Bracket) → (v : value_spec.Value)
        → flow_value (all_known known.now) line b (tokens_of text.now) ≡ Ok v
        → value_view thin.now ≡ standin v → DeniesFront result (ends v (stack_view blocks.now)) }
{
    let sketch = sketch_with(blocks, sketch_of(thin, DEEP))?;
    if sketch.nodes <= MOST_NODES {
        return Ok(());
    }
    let height = flow_height(alloc, known, text)?;
    check_nodes(blocks, thin, height)
}

/// Refuses a line for its flow collection or its front, as far as small values in the place of
/// those of aliases tell it. Without aliases, which begin with a star, they don't.
fn check_paid(
    alloc: Global,
    stack: &OpenBlocks<'_>,
    bracket: Bracket,
    text: &str,
) -> Result<(), Fault<YamlKind>>
    ensures { Denies result
        (spec.filled (Some (bracket_view bracket, tokens_of text.now)) (open_blocks stack.now)) }
{
    if !text.as_bytes().contains(&b'*') {
        return Ok(());
    }
    let blocks = stack.blocks.as_slice();
    let Some(top) = blocks.last() else {
        return Ok(());
    };
    if top.head.sort.opens_block() {
        return Ok(());
    }
    let known = Known {
        poor: true,
        anchors: &stack.anchors,
    };
    let thin = thin_flow_value(alloc, &known, top.head.line, bracket, text)?;
    let checked = check_thin(alloc, &known, blocks, &thin, text);
    release(thin);
    checked
}

/// Fills in the value of a flow collection as that of the last word. An alias is counted before
/// what it stands for is taken.
pub(crate) fn fill<'a>(
    alloc: Global,
    stack: OpenBlocks<'a>,
    bracket: Bracket,
    text: &'a str,
) -> Result<OpenBlocks<'a>, Fault<YamlKind>>
    ensures { Passes open_blocks result
        (spec.filled (Some (bracket_view bracket, tokens_of text.now)) (open_blocks stack.entry)) }
{
    if let Err(fault) = check_paid(alloc, &stack, bracket, text) {
        release(stack);
        return Err(fault);
    }
    let OpenBlocks {
        mut blocks,
        anchors,
    } = stack;
    let Some(top) = blocks.pop() else {
        return Ok(OpenBlocks { blocks, anchors });
    };
    let Open { block, head, own } = top;
    release(own);
    put(
        alloc,
        blocks,
        anchors,
        block,
        head,
        Content::Flow(bracket, text),
    )
}

/// What stands on a line without its flow collection, and that.
fn hollow_content<'a>(
    alloc: Global,
    content: Content<'a>,
) -> (Content<'a>, Option<(Bracket, &'a str)>)
    ensures { content_parts result
        ≡ (
          spec.hollow_content (content_view content.entry),
          spec.flow_in (content_view content.entry),
        ) }
{
    match content {
        Content::Flow(bracket, text) => (Content::Text(String::new(alloc)), Some((bracket, text))),
        Content::Nothing => (Content::Nothing, None),
        Content::Text(text) => (Content::Text(text), None),
        Content::Alias(name, ended) => (Content::Alias(name, ended), None),
        Content::Faulty(kind) => (Content::Faulty(kind), None),
    }
}

/// What a word is without its flow collection, and that.
pub(crate) fn hollow_shape<'a>(
    alloc: Global,
    shape: Shape<'a>,
) -> (Shape<'a>, Option<(Bracket, &'a str)>)
    ensures { shape_parts result
        ≡ (spec.hollow_shape (shape_view shape.entry), spec.flow_of (shape_view shape.entry)) }
{
    match shape {
        Shape::Key(key, anchor, content) => {
            let (content, flow) = hollow_content(alloc, content);
            (Shape::Key(key, anchor, content), flow)
        }
        Shape::Leaf(content) => {
            let (content, flow) = hollow_content(alloc, content);
            (Shape::Leaf(content), flow)
        }
        Shape::Dash(anchor) => (Shape::Dash(anchor), None),
        Shape::Refused(kind) => (Shape::Refused(kind), None),
    }
}

// Whether a word may begin a block, told without memory.
ghost use Rattle.std.specs.Prelude.{◌≡◌};
ghost use Rattle.rvs_yaml.specs.Gives.{Agrees};
ghost use Rattle.rvs_yaml.specs.StackView.{anchors_view, open_blocks};
ghost use Rattle.rvs_yaml.specs.StepParts as parts;
ghost use Rattle.rvs_yaml_text.specs.WordView.{shape_view, word_view};

use crate::anchor_list::AnchorList;
use crate::anchoring::find_anchor;
use crate::open_blocks::OpenBlocks;
use rvs_yaml_text::{Content, Shape, Word, YamlKind, is_below};

/// Whether an alias with this name stands for something, and nothing but a comment is behind it.
pub(crate) fn check_alias(anchors: &AnchorList<'_>, name: &str, ended: bool) -> Result<(), YamlKind>
    ensures { Agrees (λ u. u) result
        (parts.alias_found (anchors_view anchors.now.anchors.items) name.now ended) }
{
    match find_anchor(name, anchors) {
        Some(_) => {
            if ended {
                Ok(())
            } else {
                Err(YamlKind::BadScalar)
            }
        }
        None => Err(YamlKind::UnknownAlias),
    }
}

/// Whether what is behind a word is in order, as far as the anchors alone tell it.
fn check_shape(anchors: &AnchorList<'_>, shape: &Shape<'_>) -> Result<(), YamlKind>
    ensures { Agrees (λ u. u) result (parts.looked_up (anchors_view anchors.now.anchors.items)
        (parts.own_content (shape_view shape.now))) }
{
    match shape {
        Shape::Key(_, _, content) | Shape::Leaf(content) => match content {
            Content::Alias(name, ended) => check_alias(anchors, name, *ended),
            Content::Faulty(kind) => Err(*kind),
            _ => Ok(()),
        },
        Shape::Refused(kind) => Err(*kind),
        Shape::Dash(_) => Ok(()),
    }
}

/// Whether the word may begin a block, where it is below the last word, as far as the anchors alone
/// tell it.
pub(crate) fn check_placed(stack: &OpenBlocks<'_>, word: &Word<'_>) -> Result<(), YamlKind>
    ensures { Agrees (λ u. u) result (parts.placed (open_blocks stack.now) (word_view word.now)) }
{
    let blocks = stack.blocks.as_slice();
    let Some(top) = blocks.last() else {
        return check_shape(&stack.anchors, &word.shape);
    };
    if !is_below(&top.head, word) {
        return Ok(());
    }
    if !top.head.sort.opens_block() {
        return Err(YamlKind::Unsupported);
    }
    check_shape(&stack.anchors, &word.shape)
}

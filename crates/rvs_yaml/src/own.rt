// What a word is by itself.
ghost use Rattle.rvs_yaml.specs.Block as block_spec;
ghost use Rattle.rvs_yaml.specs.Gives.{Gives, FailsWith};
ghost use Rattle.rvs_yaml.specs.StackView.{anchors_view, own_view};
ghost use Rattle.rvs_yaml.specs.StepParts as parts;
ghost use Rattle.rvs_yaml_text.specs.WordView.{content_view};

use crate::anchor_list::AnchorList;
use crate::beginning::check_alias;
use crate::flow_text::flow_value;
use crate::known::Known;
use crate::taking::boxed;
use rvs_base::Fault;
use rvs_tree::{Value, scalar_value};
use rvs_yaml_text::{Content, YamlKind};
use std::alloc::Global;

/// What the last word of a block is by itself, where something is behind it. Whether an alias
/// stands for something, with at most a comment behind it, is decided before memory is taken.
pub(crate) fn own_of<'a>(
    alloc: Global,
    anchors: &AnchorList<'a>,
    line: u64,
    content: Content<'a>,
) -> Result<Option<Box<Value>>, Fault<YamlKind>>
    ensures given { Gives (own_view line) result (block_spec.content_value
        (anchors_view anchors.now.anchors.items) line (content_view content.entry)) }
    ensures refused { FailsWith result (parts.looked_up (anchors_view anchors.now.anchors.items)
        (content_view content.entry)) }
{
    let known = Known {
        poor: false,
        anchors,
    };
    let own = match content {
        Content::Nothing => return Ok(None),
        Content::Text(text) => scalar_value(alloc, text, line)?,
        Content::Alias(name, ended) => {
            check_alias(anchors, name, ended)?;
            known.alias_value(alloc, name)?
        }
        Content::Flow(bracket, text) => flow_value(alloc, &known, line, bracket, text)?,
        Content::Faulty(kind) => return Err(Fault::Refused(kind)),
    };
    Ok(Some(boxed(alloc, own)?))
}

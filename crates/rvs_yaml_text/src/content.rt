// What stands on a line: keys, inline parts and leaves.
ghost use Rattle.std.specs.Prelude.{◌≡◌, ◌||◌, option_map, IfOk};
ghost use Rattle.rvs_yaml_text.specs.Text as spec;
ghost use Rattle.rvs_yaml_text.specs.Scalar as scalar_spec;
ghost use Rattle.rvs_yaml_text.specs.ScanView.{pair_now, split_now, owned_split};
ghost use Rattle.rvs_yaml_text.specs.KeyView.{key_view};
ghost use Rattle.rvs_yaml_text.specs.WordView.{content_view, shape_view, name_view};
ghost use Rattle.rvs_yaml_text.specs.LineView.{keyed_view, part_view};

use crate::key::Key;
use crate::kind::YamlKind;
use crate::quoted::{behind_first, quoted};
use crate::scan::{
    ends_indicator, key_split, name_split, only_comment, start_fault, starts_quoted, starts_with,
    without_comment,
};
use crate::word::{Bracket, Content, Shape};
use rvs_text::{without_end, without_spaces};
use std::alloc::{AllocError, Global};

/// The content of a quoted scalar with this text, behind which this stands.
fn quoted_ended<'a>(split: Option<(String, &'a str)>) -> Content<'a>
    ensures { content_view result ≡ spec.quoted_ended (owned_split split.entry) }
{
    let Some((text, behind)) = split else {
        return Content::Faulty(YamlKind::BadScalar);
    };
    if only_comment(behind.as_bytes()) {
        Content::Text(text)
    } else {
        Content::Faulty(YamlKind::BadScalar)
    }
}

/// The content of an alias from behind its `*`.
fn alias_content<'a>(text: &'a str) -> Content<'a>
    ensures { content_view result ≡ spec.alias_ended (scalar_spec.name_split text.now) }
{
    let (name, behind) = name_split(text);
    if name.is_empty() {
        Content::Faulty(YamlKind::BadScalar)
    } else {
        Content::Alias(name, only_comment(behind.as_bytes()))
    }
}

/// The content of a plain scalar by itself.
fn plain_content<'a>(alloc: Global, text: &'a str) -> Result<Content<'a>, AllocError>
    ensures { IfOk result
        (λ c. content_view c ≡ spec.plain (scalar_spec.start_fault text.now) text.now) }
{
    if let Some(kind) = start_fault(text.as_bytes()) {
        return Ok(Content::Faulty(kind));
    }
    if key_split(text).is_some() {
        return Ok(Content::Faulty(YamlKind::BadScalar));
    }
    Ok(Content::Text(String::from_str(alloc, without_comment(text))?))
}

/// What a text is from its first character on: a scalar, an alias or a flow collection.
fn content<'a>(alloc: Global, text: &'a str) -> Result<Content<'a>, AllocError>
    ensures { IfOk result (λ c. content_view c ≡ spec.content text.now) }
{
    let bytes = text.as_bytes();
    if starts_quoted(bytes) {
        return Ok(quoted_ended(quoted(alloc, text)?));
    }
    if starts_with(b'*', bytes) {
        return Ok(alias_content(behind_first(text)));
    }
    if starts_with(b'[', bytes) {
        return Ok(Content::Flow(Bracket::Square, behind_first(text)));
    }
    if starts_with(b'{', bytes) {
        return Ok(Content::Flow(Bracket::Curly, behind_first(text)));
    }
    plain_content(alloc, text)
}

/// Whether nothing or a comment comes next.
fn is_nothing(bytes: &[u8]) -> bool
    ensures { result ≡ (scalar_spec.is_empty bytes.now || scalar_spec.starts_with 35 bytes.now) }
{
    match bytes {
        [] => true,
        [first, ..] => *first == b'#',
    }
}

/// What a text is from its first character on, which may begin a comment.
fn content_or_comment<'a>(alloc: Global, text: &'a str) -> Result<Content<'a>, AllocError>
    ensures { IfOk result (λ c. content_view c ≡ spec.content_or_comment text.now) }
{
    if is_nothing(text.as_bytes()) {
        Ok(Content::Nothing)
    } else {
        content(alloc, text)
    }
}

/// The name of an anchor from behind its `&`, and the text behind the name.
fn anchor_split(text: &str) -> Option<(&str, &str)>
    ensures { split_now result ≡ spec.anchor_split text.now }
{
    let (name, behind) = name_split(text);
    if !name.is_empty() && ends_indicator(behind.as_bytes()) {
        Some((name, behind))
    } else {
        None
    }
}

/// The anchor and the content behind a key.
fn inline_part<'a>(
    alloc: Global,
    text: &'a str,
) -> Result<(Option<&'a str>, Content<'a>), AllocError>
    ensures { IfOk result (λ p. part_view p ≡ spec.inline_part text.now) }
{
    if starts_with(b'&', text.as_bytes()) {
        let Some((name, behind)) = anchor_split(behind_first(text)) else {
            return Ok((None, Content::Faulty(YamlKind::BadScalar)));
        };
        let content = content_or_comment(alloc, without_spaces(behind))?;
        return Ok((Some(name), content));
    }
    let content = content_or_comment(alloc, text)?;
    Ok((None, content))
}

/// The key of a plain scalar: `<<` merges.
pub(crate) fn plain_key(alloc: Global, name: &str) -> Result<Key, AllocError>
    ensures { IfOk result (λ k. key_view k ≡ scalar_spec.key_name name.now) }
{
    let merges = name == "<<";
    Ok(Key {
        name: String::from_str(alloc, name)?,
        merges,
    })
}

/// The key of a quoted scalar with this text, behind which this stands.
fn quoted_key<'a>(split: Option<(String, &'a str)>) -> Option<(Key, &'a str)>
    ensures { keyed_view result ≡ spec.quoted_key (owned_split split.entry) }
{
    let (name, behind) = split?;
    let behind = without_spaces(behind);
    if !starts_with(b':', behind.as_bytes()) {
        return None;
    }
    let value = behind_first(behind);
    if ends_indicator(value.as_bytes()) {
        Some((
            Key {
                name,
                merges: false,
            },
            value,
        ))
    } else {
        None
    }
}

/// The key of a text and what is behind its colon, where it has one.
fn key_of<'a>(alloc: Global, text: &'a str) -> Result<Option<(Key, &'a str)>, AllocError>
    ensures { IfOk result (λ k. keyed_view k ≡ spec.key_of text.now) }
{
    if starts_quoted(text.as_bytes()) {
        return Ok(quoted_key(quoted(alloc, text)?));
    }
    if start_fault(text.as_bytes()).is_some() {
        return Ok(None);
    }
    let Some((name, value)) = key_split(text) else {
        return Ok(None);
    };
    let key = plain_key(alloc, without_end(name))?;
    Ok(Some((key, value)))
}

/// What the last word of a line is.
pub fn shape_of<'a>(alloc: Global, text: &'a str) -> Result<Shape<'a>, AllocError>
    ensures { IfOk result (λ s. shape_view s ≡ spec.shape_from text.now (spec.key_of text.now)) }
{
    let Some((key, value)) = key_of(alloc, text)? else {
        let content = content(alloc, text)?;
        return Ok(Shape::Leaf(content));
    };
    let (anchor, content) = inline_part(alloc, without_spaces(value))?;
    Ok(Shape::Key(key, anchor, content))
}

/// The anchor behind the dash of an item, where there is a good one.
pub fn item_name(text: &str) -> Option<&str>
    ensures { name_view result ≡ spec.item_name text.now }
{
    let text = without_spaces(text);
    if !starts_with(b'&', text.as_bytes()) {
        return None;
    }
    let (name, _) = anchor_split(behind_first(text))?;
    Some(name)
}

/// The word behind the `&` of an item, where there is more than the anchor.
pub fn anchored_item<'a>(alloc: Global, text: &'a str) -> Result<Option<Shape<'a>>, AllocError>
    ensures { IfOk result
        (λ o. option_map shape_view o ≡ spec.anchored_shape (spec.anchor_split text.now)) }
{
    let Some((_, behind)) = anchor_split(text) else {
        return Ok(Some(Shape::Leaf(Content::Faulty(YamlKind::BadScalar))));
    };
    let behind = without_spaces(behind);
    if is_nothing(behind.as_bytes()) {
        return Ok(None);
    }
    let content = unkeyed_content(alloc, behind)?;
    Ok(Some(Shape::Leaf(content)))
}

/// Whether the text is a scalar with a colon behind it.
fn begins_entry(alloc: Global, text: &str) -> Result<bool, AllocError>
    ensures { IfOk result (λ b. b ≡ spec.begins_entry text.now) }
{
    if starts_quoted(text.as_bytes()) {
        return match quoted(alloc, text)? {
            Some((_, behind)) => Ok(starts_with(b':', without_spaces(behind).as_bytes())),
            None => Ok(false),
        };
    }
    if start_fault(text.as_bytes()).is_some() {
        return Ok(false);
    }
    Ok(key_split(text).is_some())
}

/// The content of an item with an anchor, which is no entry of a map.
fn unkeyed_content<'a>(alloc: Global, text: &'a str) -> Result<Content<'a>, AllocError>
    ensures { IfOk result
        (λ c. content_view c ≡ spec.unkeyed (spec.begins_entry text.now) (spec.content text.now)) }
{
    if begins_entry(alloc, text)? {
        return Ok(Content::Faulty(YamlKind::Unsupported));
    }
    content(alloc, text)
}

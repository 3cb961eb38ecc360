// The words of a line.
ghost use Rattle.std.specs.Prelude.{◌≡◌, ◌<◌, false, length, option_map};
ghost use Rattle.std.specs.Prelude.{IfOk, IfSome};
ghost use Rattle.rvs_yaml_text.specs.Text as text_spec;
ghost use Rattle.rvs_yaml.specs.Stack as stack_spec;
ghost use Rattle.rvs_yaml.specs.LineParts as parts;
ghost use Rattle.rvs_yaml.specs.Reader.{Passes};
ghost use Rattle.rvs_yaml.specs.StackView.{open_blocks};
ghost use Rattle.rvs_yaml_text.specs.Word as word_spec;
ghost use Rattle.rvs_yaml_text.specs.WordView.{word_view};

use crate::arriving::filled;
use crate::fill::hollow_shape;
use crate::open_blocks::OpenBlocks;
use crate::stack::step;
use rvs_base::{Fault, release};
use rvs_text::without_spaces;
use rvs_yaml_text::{
    Shape, Word, YamlKind, anchored_item, behind_first, ends_indicator, is_blank, item_name,
    only_comment, shape_of, starts_with,
};
use std::alloc::{AllocError, Global};

/// The text behind the dash of an item, where one comes next.
fn behind_dash(text: &str) -> Option<&str>
    ensures split { option_map (λ t. t.now) result ≡ parts.behind_dash text.now }
    ensures shorter { IfSome result (λ t. length t.now < length text.now) }
{
    if !starts_with(b'-', text.as_bytes()) {
        return None;
    }
    let behind = behind_first(text);
    if ends_indicator(behind.as_bytes()) {
        Some(behind)
    } else {
        None
    }
}

/// The last word of a line, which stands at this column, if there is more than a comment. `item`
/// says whether a dash stands before it.
fn last_word<'a>(
    alloc: Global,
    line: u64,
    column: usize,
    item: bool,
    text: &'a str,
) -> Result<Option<Word<'a>>, AllocError>
    ensures { IfOk result (λ o. parts.words_in (option_map word_view o)
        ≡ parts.rest_words line item column text.now) }
{
    if item && starts_with(b'&', text.as_bytes()) {
        return match anchored_item(alloc, behind_first(text))? {
            Some(shape) => Ok(Some(Word {
                line,
                column,
                shape,
            })),
            None => Ok(None),
        };
    }
    if is_blank(true, text.as_bytes()) {
        return Ok(None);
    }
    if starts_with(b'\t', text.as_bytes()) {
        // Behind a dash it is one at its own column.
        let place = if item { column } else { 0 };
        return Ok(Some(refused(line, place, YamlKind::TabIndent)));
    }
    let shape = shape_of(alloc, text)?;
    Ok(Some(Word {
        line,
        column,
        shape,
    }))
}

/// A line or an item that is refused wherever it stands.
fn refused<'a>(line: u64, column: usize, kind: YamlKind) -> Word<'a>
    ensures { word_view result ≡ text_spec.word_at line column (word_spec.refused kind) }
{
    Word {
        line,
        column,
        shape: Shape::Refused(kind),
    }
}

/// Reads the last word of a line, if there is more than a comment.
fn read_last<'a>(
    alloc: Global,
    stack: OpenBlocks<'a>,
    line: u64,
    column: usize,
    item: bool,
    text: &'a str,
) -> Result<OpenBlocks<'a>, Fault<YamlKind>>
    ensures { Passes open_blocks result (stack_spec.steps
        (open_blocks stack.entry) (parts.rest_words line item column text.now)) }
{
    let last = match last_word(alloc, line, column, item, text) {
        Ok(last) => last,
        Err(_) => {
            release(stack);
            return Err(Fault::NoMemory);
        }
    };
    let Some(word) = last else {
        return Ok(stack);
    };
    let Word {
        line: at,
        column,
        shape,
    } = word;
    let (shape, flow) = hollow_shape(alloc, shape);
    let stack = step(
        alloc,
        stack,
        Word {
            line: at,
            column,
            shape,
        },
    )?;
    filled(alloc, stack, flow)
}

/// Reads the words of a line.
fn read_words<'a>(
    alloc: Global,
    mut stack: OpenBlocks<'a>,
    line: u64,
    text: &'a str,
) -> Result<OpenBlocks<'a>, Fault<YamlKind>>
    ensures { Passes open_blocks result (stack_spec.steps
        (open_blocks stack.entry) (text_spec.words_at line false 0 text.now)) }
{
    let mut rest = without_spaces(text);
    let mut item = false;
    while let Some(behind) = behind_dash(rest) {
        let dash = Word {
            line,
            column: text.len() - rest.len(),
            shape: Shape::Dash(item_name(behind)),
        };
        stack = step(alloc, stack, dash)?;
        rest = without_spaces(behind);
        item = true;
    }
    read_last(alloc, stack, line, text.len() - rest.len(), item, rest)
}

/// Whether the line is three of these bytes, with at most a comment behind them.
fn is_mark(byte: u8, line: &[u8]) -> bool
    ensures { result ≡ text_spec.is_mark byte line.now }
{
    match line {
        [first, second, third, behind @ ..] => *first == byte
            && *second == byte
            && *third == byte
            && only_comment(behind),
        _ => false,
    }
}

/// Reads a line. `started` says whether a line before it isn't blank.
pub(crate) fn read_line<'a>(
    alloc: Global,
    stack: OpenBlocks<'a>,
    line: u64,
    started: bool,
    bytes: &'a [u8],
) -> Result<OpenBlocks<'a>, Fault<YamlKind>>
    ensures { Passes open_blocks result (stack_spec.steps
        (open_blocks stack.entry) (text_spec.line_words line started bytes.now)) }
{
    let Ok(text) = str::from_utf8(bytes) else {
        return step(alloc, stack, refused(line, 0, YamlKind::NotUtf8));
    };
    if is_mark(b'-', bytes) {
        return if started {
            step(alloc, stack, refused(line, 0, YamlKind::Unsupported))
        } else {
            Ok(stack)
        };
    }
    if is_mark(b'.', bytes) {
        return step(alloc, stack, refused(line, 0, YamlKind::Unsupported));
    }
    read_words(alloc, stack, line, text)
}

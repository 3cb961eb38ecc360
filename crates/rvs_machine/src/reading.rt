// The image file.
ghost use Rattle.std.specs.Prelude.{◌≡◌, MatchOption, MatchResult, option_and_then};
ghost use Rattle.rvs_base.specs.Answers.{Answers, AnswersWith};
ghost use Rattle.rvs_machine.specs.ImageText.{word_in, count_in, after_name, refusal};
ghost use Rattle.rvs_machine.specs.ImageText.{header, word_line, count_line, word_lines, section};
ghost use Rattle.rvs_machine.specs.ImageText.{address_lines, image_of_bytes, whole};
ghost use Rattle.rvs_machine.specs.ImageNumbers.{image_number};

use crate::image::Image;
use crate::lines::Lines;
use rvs_base::{Bytes, Fault, Items, beside, release, short_number};
use rvs_insn::MemoryMap;
use std::alloc::Global;

/// Why a file is no image.
#[derive(Clone, Copy)]
pub enum ImageKind {
    /// A line isn't as the format wants it there, or is missing.
    BadLine,
    /// The regions break the invariant of [`Image`].
    BadRegion,
    /// A count is above the words that its region has, which are at most 4,194,304 of text and
    /// 262,144 of data.
    TooLarge,
}

impl ImageKind {
    /// The number that stands for the kind in fault lines, from 1 to 3 in the order above.
    pub fn number(self) -> u8
        ensures { result ≡ image_number self }
    {
        match self {
            ImageKind::BadLine => 1,
            ImageKind::BadRegion => 2,
            ImageKind::TooLarge => 3,
        }
    }
}

/// The refusal of a file: its first faulty line, from 1, or 0 where no single line is at fault.
#[derive(Clone, Copy)]
pub struct ImageRefusal {
    pub line: u64,
    pub kind: ImageKind,
}

impl From<ImageRefusal> for Fault<ImageRefusal> {
    ghost use Rattle.rvs_base.specs.declared.fault.Fault.TheVariants.{Refused};

    ghost from_gives = { λ refusal fault. fault ≡ Refused refusal };

    fn from(refusal: ImageRefusal) -> Self {
        Fault::Refused(refusal)
    }
}

/// Reads an image file, for a core with this memory: the lines `rvimage 1`, `text <n>`, n words,
/// `data <n>`, n words, `tohost <word>`, `begin <word>` and `end <word>`, where a word is eight
/// hexadecimal digits and stands on a line of its own, and a count has one to seven decimal digits.
///
/// # Errors
///
/// The first faulty line with its kind, a missing line being the one after the last; `BadRegion`
/// with line 0 where no line is faulty and the regions are out of order; or want of memory.
#[tactic(auto, unfolding(crate::specs::ImageText::image_of_bytes))]
pub fn read_image(
    alloc: Global,
    memory: MemoryMap,
    bytes: &[u8],
) -> Result<Image, Fault<ImageRefusal>>
    ensures { Answers result (image_of_bytes memory bytes.now) }
{
    let mut lines = Lines::new(bytes);
    header(&mut lines)?;
    let text = section(
        alloc,
        &mut lines,
        b"text ",
        u64::from(memory.text_limit()) / 4,
    )?;
    let read = section(
        alloc,
        &mut lines,
        b"data ",
        u64::from(memory.data_limit()) / 4,
    );
    let (data_bytes, text) = beside(read, text)?;
    let (at, (text, data_bytes)) = beside(address_lines(&mut lines), (text, data_bytes))?;
    Ok(whole(alloc, memory, &mut lines, text, data_bytes, at)?)
}

/// Where a run halts, and where the signature begins and ends.
#[derive(Clone, Copy)]
struct Addresses {
    tohost: u32,
    sig_begin: u32,
    sig_end: u32,
}

/// The image of what was read, where no line follows and its regions are in order.
fn whole(
    alloc: Global,
    memory: MemoryMap,
    lines: &mut Lines<'_>,
    text: Vec<u8>,
    data_bytes: Vec<u8>,
    at: Addresses,
) -> Result<Image, ImageRefusal>
    ensures { MatchResult result
        (λ image. whole memory text.items data_bytes.items at lines.old ≡ Ok image)
        (λ e. whole memory text.items data_bytes.items at lines.old ≡ Err e) }
{
    let number = lines.number();
    if lines.take().is_some() {
        release(text);
        release(data_bytes);
        return Err(bad_line(number));
    }
    match Image::new(
        memory,
        Bytes::from(text),
        Bytes::from(data_bytes),
        at.tohost,
        at.sig_begin,
        at.sig_end,
        Items::new(alloc),
    ) {
        Some(image) => Ok(image),
        None => Err(ImageRefusal {
            line: 0,
            kind: ImageKind::BadRegion,
        }),
    }
}

fn bad_line(line: u64) -> ImageRefusal
    ensures { result ≡ refusal line ImageKind.BadLine }
{
    ImageRefusal {
        line,
        kind: ImageKind::BadLine,
    }
}

fn header(lines: &mut Lines<'_>) -> Result<(), ImageRefusal>
    ensures { MatchResult result (λ _. header lines.old ≡ Ok lines.new)
        (λ e. header lines.old ≡ Err e) }
{
    let number = lines.number();
    match lines.take() {
        Some(line) => {
            if line == b"rvimage 1".as_slice() {
                Ok(())
            } else {
                Err(bad_line(number))
            }
        },
        None => Err(bad_line(number)),
    }
}

/// A count and so many words, as bytes.
fn section(
    alloc: Global,
    lines: &mut Lines<'_>,
    name: &[u8],
    limit: u64,
) -> Result<Vec<u8>, Fault<ImageRefusal>>
    ensures { AnswersWith (λ bytes. (bytes.items, lines.new)) result
        (section name.now limit lines.old) }
{
    let count = count_line(lines, name, limit)?;
    word_lines(alloc, lines, count)
}

/// So many lines of one word each, as bytes, the lowest of a word first.
#[tactic(auto, using(crate::proofs::WordLines::words_go, crate::proofs::WordLines::words_stop))]
fn word_lines(
    alloc: Global,
    lines: &mut Lines<'_>,
    count: u64,
) -> Result<Vec<u8>, Fault<ImageRefusal>>
    ensures { AnswersWith (λ bytes. (bytes.items, lines.new)) result (word_lines count lines.old) }
{
    let mut bytes = Vec::new(alloc);
    for _ in 0..count {
        let word = word_line(lines, b"")?;
        bytes.extend_from_slice(&word.to_le_bytes())?;
    }
    Ok(bytes)
}

fn address_lines(lines: &mut Lines<'_>) -> Result<Addresses, ImageRefusal>
    ensures { MatchResult result (λ a. address_lines lines.old ≡ Ok (a, lines.new))
        (λ e. address_lines lines.old ≡ Err e) }
{
    let tohost = word_line(lines, b"tohost ")?;
    let sig_begin = word_line(lines, b"begin ")?;
    let sig_end = word_line(lines, b"end ")?;
    Ok(Addresses {
        tohost,
        sig_begin,
        sig_end,
    })
}

/// A line of a name and a count.
fn count_line(lines: &mut Lines<'_>, name: &[u8], limit: u64) -> Result<u64, ImageRefusal>
    ensures { MatchResult result
        (λ count. count_line name.now limit lines.old ≡ Ok (count, lines.new))
        (λ e. count_line name.now limit lines.old ≡ Err e) }
{
    let number = lines.number();
    match lines.take() {
        Some(line) => match count_after(name, line) {
            Some(count) => {
                if count <= limit {
                    Ok(count)
                } else {
                    Err(ImageRefusal {
                        line: number,
                        kind: ImageKind::TooLarge,
                    })
                }
            },
            None => Err(bad_line(number)),
        },
        None => Err(bad_line(number)),
    }
}

/// A line of a name and a word.
fn word_line(lines: &mut Lines<'_>, name: &[u8]) -> Result<u32, ImageRefusal>
    ensures { MatchResult result (λ word. word_line name.now lines.old ≡ Ok (word, lines.new))
        (λ e. word_line name.now lines.old ≡ Err e) }
{
    let number = lines.number();
    match lines.take() {
        Some(line) => match word_after(name, line) {
            Some(word) => Ok(word),
            None => Err(bad_line(number)),
        },
        None => Err(bad_line(number)),
    }
}

/// The count after a name: one to seven decimal digits.
fn count_after(name: &[u8], line: &[u8]) -> Option<u64>
    ensures { result ≡ option_and_then count_in (after_name name.now line.now) }
{
    match after_name(name, line) {
        Some(text) => short_number(7, 10, text),
        None => None,
    }
}

/// The word after a name: eight hexadecimal digits.
fn word_after(name: &[u8], line: &[u8]) -> Option<u32>
    ensures { result ≡ option_and_then word_in (after_name name.now line.now) }
{
    match after_name(name, line) {
        Some(text) => {
            if text.len() == 8 {
                match short_number(8, 16, text) {
                    Some(word) => Some(word as u32),
                    None => None,
                }
            } else {
                None
            }
        },
        None => None,
    }
}

fn after_name<'a>(name: &[u8], line: &'a [u8]) -> Option<&'a [u8]>
    ensures { MatchOption result (after_name name.now line.now ≡ None)
        (λ text. after_name name.now line.now ≡ Some text.now) }
{
    if line.starts_with(name) {
        Some(&line[name.len()..])
    } else {
        None
    }
}

// The words of a signature file.
ghost use Rattle.std.specs.Prelude.{◌≡◌, ◌≤◌, ◌<◌, [], IfOk, MatchOption, length};
ghost use Rattle.rvs_base.specs.Answers.{Answers};
ghost use Rattle.rvs_sig.specs.Digits.{AreWorths};
ghost use Rattle.rvs_sig.specs.Words.{HasLine, digits_of_line, text_of_words, word_of_line};
ghost use Rattle.rvs_sig.specs.Words.{most_lines, words_of};

use crate::digits::{digits_line, word_digits, worths};
use rvs_base::{Fault, Items, NoMemory, Text, first_line};
use std::alloc::Global;

const MOST_LINES: u32 = 262_144;

/// Why a file is no list of words.
#[derive(Drop, Clone, Copy)]
pub enum SigRefusal {
    /// A line that isn't exactly eight hexadecimal digits.
    BadLine {
        /// The first such line, counted from 1.
        line: u32,
    },
    /// More than 262,144 lines, none of the first so many malformed.
    TooLong,
}

/// Reads the words of a file: one a line, as eight hexadecimal digits of either case. A carriage
/// return may stand before a line feed, and the last line needs no line feed.
///
/// # Errors
///
/// [`SigRefusal`], or want of memory.
pub fn read_words(alloc: Global, bytes: &[u8]) -> Result<Items<u32>, Fault<SigRefusal>>
    ensures { Answers result (words_of bytes.now) }
{
    let worths = worths();
    let mut words = Items::new(alloc);
    let mut left = bytes;
    let mut line = 0;
    while let Some((word, rest)) = next_line(&worths, left) {
        if line == MOST_LINES {
            return Err(Fault::Refused(SigRefusal::TooLong));
        }
        line += 1;
        match word {
            None => return Err(Fault::Refused(SigRefusal::BadLine { line })),
            Some(word) => words.push(word)?,
        }
        left = rest;
    }
    Ok(words)
}

/// Words as text: each in eight lower-case digits, with a line feed.
///
/// # Errors
///
/// [`NoMemory`].
pub fn print_words(alloc: Global, words: &[u32]) -> Result<Text, NoMemory>
    ensures text { IfOk result (λ text. text ≡ text_of_words words.now) }
    ensures read_again { IfOk result
        (λ text. length words.now ≤ most_lines → words_of text ≡ Ok words.now) }
{
    let mut bytes = Vec::new(alloc);
    for word in words {
        bytes.extend_from_slice(&word_digits(*word))?;
        bytes.push(b'\n')?;
    }
    Ok(Text::from(String::from_utf8(bytes).unwrap()))
}

/// The word of the first line, where that is eight digits, and the text after the line; `None`
/// where the text is empty.
#[inline(always)]
fn next_line<'a>(worths: &[u64; 256], text: &'a [u8]) -> Option<(Option<u32>, &'a [u8])>
    requires { AreWorths worths.now }
    ensures line { MatchOption result (text.now ≡ [])
        (λ next. HasLine text.now next.0 next.1.now) }
    ensures shorter { MatchOption result (text.now ≡ [])
        (λ next. length next.1.now < length text.now) }
{
    if let Some((word, rest)) = digits_line(worths, text) {
        return Some((Some(word), rest));
    }
    match first_line(text) {
        Some((line, rest)) => Some((read_line(line), rest)),
        None => None,
    }
}

fn read_line(line: &[u8]) -> Option<u32>
    ensures { result ≡ word_of_line line.now }
{
    let mut bytes = [0; 4];
    match hex::decode_to_slice(without_return(line), &mut bytes) {
        Ok(()) => Some(u32::from_be_bytes(bytes)),
        Err(_) => None,
    }
}

fn without_return(line: &[u8]) -> &[u8]
    ensures { result.now ≡ digits_of_line line.now }
{
    if line.len() == 9 && line[8] == b'\r' {
        &line[..8]
    } else {
        line
    }
}

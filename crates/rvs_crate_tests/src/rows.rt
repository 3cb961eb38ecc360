// What the rows of all kinds have in common.
use rvs_base::{number_below, short_number};
use std::alloc::{AllocError, Global};
use std::test::Fail;

fn letter_of(mark: char) -> char {
    match mark {
        '␊' => '\n',
        '␍' => '\r',
        '␉' => '\t',
        letter => letter,
    }
}

/// The text that a row means: `␊`, `␍` and `␉` stand for a line feed, a carriage return and a tab.
pub fn plain(alloc: Global, marked: &str) -> Result<String, AllocError> {
    let mut text = String::new(alloc);
    for mark in marked.chars() {
        text.push(letter_of(mark))?;
    }
    Ok(text)
}

/// The word that hexadecimal digits spell.
pub fn word(text: &str) -> Result<u32, Fail> {
    match number_below(4_294_967_296, 16, text.as_bytes()) {
        Some(word) => Ok(word as u32),
        None => Err(Fail::new("no word")),
    }
}

/// The words of a row, with a space between them.
pub fn words(alloc: Global, row: &str) -> Result<Vec<u32>, Fail> {
    let mut words = Vec::new(alloc);
    for text in row.split(' ') {
        words.push(word(text)?)?;
    }
    Ok(words)
}

/// Adds the number below 2^32 that hexadecimal digits spell.
pub fn tell_hexadecimal(digits: &str, report: &mut String) -> Result<(), Fail> {
    write!(
        report,
        "{:?}\n",
        number_below(4_294_967_296, 16, digits.as_bytes())
    )?;
    Ok(())
}

/// Adds the number below 2^32 that decimal digits spell.
pub fn tell_decimal(digits: &str, report: &mut String) -> Result<(), Fail> {
    write!(
        report,
        "{:?}\n",
        number_below(4_294_967_296, 10, digits.as_bytes())
    )?;
    Ok(())
}

/// Adds the number that at most seven decimal digits spell.
pub fn tell_seven(digits: &str, report: &mut String) -> Result<(), Fail> {
    write!(report, "{:?}\n", short_number(7, 10, digits.as_bytes()))?;
    Ok(())
}

// What stands before a run, as the lines of a scene say it.
use rvs_base::{Bytes, Items, Text, number_below};
use rvs_memory::{Answer, Files, Leaves, MemoryHost};
use std::alloc::{AllocError, Global};
use std::test::Fail;

fn letter_of(mark: char) -> char {
    match mark {
        '␊' => '\n',
        '␍' => '\r',
        '␉' => '\t',
        letter => letter,
    }
}

/// The text that a row means: `␊`, `␍` and `␉` stand for a line feed, a carriage return and a tab.
pub fn plain(alloc: Global, marked: &str) -> Result<String, AllocError> {
    let mut text = String::new(alloc);
    for mark in marked.chars() {
        text.push(letter_of(mark))?;
    }
    Ok(text)
}

pub fn number(text: &str) -> Result<u64, Fail> {
    match number_below(4_294_967_296, 10, text.as_bytes()) {
        Some(number) => Ok(number),
        None => Err(Fail::new("no number")),
    }
}

/// What is before the first space, and what is behind it.
pub fn first_word(text: &str) -> Result<(&str, &str), Fail> {
    Ok(text.split_once(' ').ok_or("no second word")?)
}

fn add(alloc: Global, files: &mut Files, name: &str, text: &str) -> Result<(), Fail> {
    let bytes: Bytes = Items::from(text.as_bytes().to_vec(alloc)?);
    files.push((Text::from(String::from_str(alloc, name)?), bytes))?;
    Ok(())
}

/// Adds the file of a line `file NAME TEXT`.
fn add_file(alloc: Global, files: &mut Files, row: &str) -> Result<(), Fail> {
    let (name, marked) = first_word(row)?;
    let text = plain(alloc, marked)?;
    add(alloc, files, name, text.as_str())
}

/// The pieces of a line `fill NAME COUNT PIECE END`: a piece so many times, and an end.
fn filled(alloc: Global, row: &str) -> Result<String, Fail> {
    let (count, pieces) = first_word(row)?;
    let (piece, end) = first_word(pieces)?;
    let piece = plain(alloc, piece)?;
    let end = plain(alloc, end)?;
    let mut text = String::new(alloc);
    for _ in 0..number(count)? {
        text.push_str(piece.as_str())?;
    }
    text.push_str(end.as_str())?;
    Ok(text)
}

fn add_filled(alloc: Global, files: &mut Files, row: &str) -> Result<(), Fail> {
    let (name, row) = first_word(row)?;
    let text = filled(alloc, row)?;
    add(alloc, files, name, text.as_str())
}

/// The bytes of hexadecimal digits, two each.
fn bytes_of(alloc: Global, digits: &str) -> Result<Bytes, Fail> {
    let mut bytes = Items::new(alloc);
    for pair in digits.as_bytes().chunks(2) {
        match number_below(256, 16, pair) {
            Some(byte) => bytes.push(byte as u8)?,
            None => return Err(Fail::new("no byte")),
        }
    }
    Ok(bytes)
}

/// Adds the file of a line `bytes NAME DIGITS`.
fn add_bytes(alloc: Global, files: &mut Files, row: &str) -> Result<(), Fail> {
    let (name, digits) = first_word(row)?;
    let bytes = bytes_of(alloc, digits)?;
    files.push((Text::from(String::from_str(alloc, name)?), bytes))?;
    Ok(())
}

fn files_of(alloc: Global, scene: &str) -> Result<Files, Fail> {
    let mut files: Files = Items::new(alloc);
    for line in scene.lines() {
        if let Some(row) = line.strip_prefix("file ") {
            add_file(alloc, &mut files, row)?;
        }
        if let Some(row) = line.strip_prefix("fill ") {
            add_filled(alloc, &mut files, row)?;
        }
        if let Some(row) = line.strip_prefix("bytes ") {
            add_bytes(alloc, &mut files, row)?;
        }
    }
    Ok(files)
}

/// A run of the device that leaves a signature.
fn leaving(alloc: Global, status: i32, marked: &str) -> Result<Answer, Fail> {
    let text = plain(alloc, marked)?;
    let leaves = Leaves::Holds(Items::from(text.as_bytes().to_vec(alloc)?));
    Ok(Answer { status, leaves })
}

/// The device's run of a line `leaves TEXT`, `killed TEXT`, `untouched` or `absent`.
fn answer_of(alloc: Global, line: &str) -> Result<Option<Answer>, Fail> {
    if line == "untouched" {
        let leaves = Leaves::Untouched;
        return Ok(Some(Answer { status: 0, leaves }));
    }
    if line == "absent" {
        let leaves = Leaves::Absent;
        return Ok(Some(Answer { status: -1, leaves }));
    }
    if let Some(marked) = line.strip_prefix("killed ") {
        return Ok(Some(leaving(alloc, -1, marked)?));
    }
    match line.strip_prefix("leaves ") {
        None => Ok(None),
        Some(marked) => Ok(Some(leaving(alloc, 0, marked)?)),
    }
}

fn answers_of(alloc: Global, scene: &str) -> Result<Items<Answer>, Fail> {
    let mut answers = Items::new(alloc);
    for line in scene.lines() {
        if let Some(answer) = answer_of(alloc, line)? {
            answers.push(answer)?;
        }
    }
    Ok(answers)
}

/// The list of one call that fails, or of none.
pub fn list(alloc: Global, call: Option<u64>) -> Result<Items<u64>, Fail> {
    let mut list = Items::new(alloc);
    if let Some(call) = call {
        list.push(call)?;
    }
    Ok(list)
}

/// The host of a scene, of which a call may fail.
pub fn host_of(alloc: Global, scene: &str, fails: Option<u64>) -> Result<MemoryHost, Fail> {
    let files = files_of(alloc, scene)?;
    let answers = answers_of(alloc, scene)?;
    Ok(MemoryHost::new(files, list(alloc, fails)?, answers))
}

// Executables of images, which are edited and read again.
use rvs_base::{Bytes, Fault, Refusal, number_below, release};
use rvs_elf::{ElfRefusal, read_elf, write_elf};
use rvs_insn::USUAL_MEMORY;
use rvs_machine::{Image, read_image};
use std::alloc::Global;
use std::test::Fail;

fn place_of(text: &str) -> Result<usize, Fail> {
    match number_below(4_294_967_296, 10, text.as_bytes()) {
        Some(place) => Ok(place as usize),
        None => Err(Fail::new("no place")),
    }
}

fn byte_of(text: &str) -> Result<u8, Fail> {
    match number_below(256, 16, text.as_bytes()) {
        Some(byte) => Ok(byte as u8),
        None => Err(Fail::new("no byte")),
    }
}

/// Makes an edit: `cut=LENGTH` leaves so many bytes, and `PLACE=BYTE` puts a byte in hexadecimal.
fn edit(bytes: &mut Vec<u8>, edit: &str) -> Result<(), Fail> {
    let (place, value) = edit.split_once('=').ok_or("no edit")?;
    if place == "cut" {
        bytes.truncate(place_of(value)?);
        return Ok(());
    }
    let place = place_of(place)?;
    let value = byte_of(value)?;
    match bytes.get_mut(place) {
        None => Err(Fail::new("no byte")),
        Some(byte) => {
            *byte = value;
            Ok(())
        },
    }
}

/// The bytes of an executable with its edits, which stand between commas.
fn edited(alloc: Global, written: &Bytes, edits: &str) -> Result<Vec<u8>, Fail> {
    let mut bytes = written.as_slice().to_vec(alloc)?;
    for text in edits.split(',').skip(1) {
        edit(&mut bytes, text)?;
    }
    Ok(bytes)
}

fn spell_bytes(bytes: &[u8], report: &mut String) -> Result<(), Fail> {
    for byte in bytes {
        write!(report, "{byte:02x}")?;
    }
    report.push_str(" ")?;
    Ok(())
}

fn spell_image(image: &Image, report: &mut String) -> Result<(), Fail> {
    spell_bytes(image.text.as_slice(), report)?;
    spell_bytes(image.data_bytes.as_slice(), report)?;
    write!(report, "tohost {:08x} ", image.tohost)?;
    write!(report, "begin {:08x} ", image.sig_begin)?;
    write!(report, "end {:08x}\n", image.sig_end)?;
    Ok(())
}

fn spell_refusal(alloc: Global, refusal: &ElfRefusal, report: &mut String) -> Result<(), Fail> {
    let text = refusal.text(alloc).map_err(|_| "no memory")?;
    write!(report, "{text}\n")?;
    Ok(())
}

/// Adds the image of these bytes, or why there is none.
fn tell_read(alloc: Global, bytes: &[u8], report: &mut String) -> Result<(), Fail> {
    write!(report, "{} bytes ", bytes.len())?;
    match read_elf(alloc, USUAL_MEMORY, bytes) {
        Ok(image) => spell_image(&image, report),
        Err(Fault::Refused(refusal)) => spell_refusal(alloc, &refusal, report),
        Err(Fault::NoMemory) => Err(Fail::new("no memory")),
    }
}

fn written(alloc: Global, text: &str) -> Result<Bytes, Fail> {
    match read_image(alloc, USUAL_MEMORY, text.as_bytes()) {
        Ok(image) => write_elf(alloc, &image).map_err(|_| Fail::new("no memory")),
        Err(_) => Err(Fail::new("no image")),
    }
}

/// Adds what the executable of an image is read as, behind edits such as `,cut=200,18=3e`.
pub fn tell_edited(alloc: Global, row: &str, report: &mut String) -> Result<(), Fail> {
    let (edits, text) = row.split_once(' ').ok_or("no image")?;
    let written = written(alloc, text)?;
    let bytes = edited(alloc, &written, edits)?;
    release(written);
    tell_read(alloc, bytes.as_slice(), report)
}

/// Adds the bytes of the executable of an image.
pub fn tell_bytes(alloc: Global, text: &str, report: &mut String) -> Result<(), Fail> {
    let written = written(alloc, text)?;
    spell_bytes(written.as_slice(), report)?;
    report.push_str("\n")?;
    Ok(())
}

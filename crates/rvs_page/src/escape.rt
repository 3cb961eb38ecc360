// Texts as they stand in a page.
ghost use Rattle.std.specs.Prelude.{◌≡◌, ◌++◌, OnOk};
ghost use Rattle.std.specs.List.{flat_map};
ghost use Rattle.rvs_page.specs.Escape as spec;

use rvs_base::NoMemory;

/// Adds bytes as they are.
///
/// # Errors
///
/// [`NoMemory`].
pub(crate) fn push_bytes(page: &mut Vec<u8>, bytes: &[u8]) -> Result<(), NoMemory>
    ensures { OnOk result (page.new.items ≡ page.old.items ++ bytes.now) }
{
    page.extend_from_slice(bytes)?;
    Ok(())
}

/// Adds a byte: a mark by its name, a control character by its number, any other as it is.
fn push_byte(page: &mut Vec<u8>, byte: u8) -> Result<(), NoMemory>
    ensures { OnOk result (page.new.items ≡ page.old.items ++ spec.mark byte) }
{
    match byte {
        b'&' => push_bytes(page, b"&amp;"),
        b'<' => push_bytes(page, b"&lt;"),
        b'>' => push_bytes(page, b"&gt;"),
        b'"' => push_bytes(page, b"&quot;"),
        0..=31 | 127 => {
            let hundreds = b'0' + byte / 100;
            let tens = b'0' + byte / 10 % 10;
            let ones = b'0' + byte % 10;
            push_bytes(page, &[b'&', b'#', hundreds, tens, ones, b';'])
        },
        _ => push_bytes(page, &[byte]),
    }
}

/// Adds a text, so that a reader of the page reads it.
///
/// # Errors
///
/// [`NoMemory`].
pub fn push_escaped(page: &mut Vec<u8>, text: &[u8]) -> Result<(), NoMemory>
    ensures { OnOk result (page.new.items ≡ page.old.items ++ spec.escaped text.now) }
{
    for byte in text {
        push_byte(page, *byte)?;
    }
    Ok(())
}

// The pieces that a page is made of.
ghost use Rattle.std.specs.Prelude.{◌≡◌, ◌++◌, [], ◌∷◌, OnOk, if◌then◌else◌};
ghost use Rattle.rvs_page.specs.Pieces as spec;
ghost use Rattle.rvs_page.specs.declared.pieces.Piece.TheVariants as variant;

use crate::escape::{push_bytes, push_escaped};
use rvs_base::{NoMemory, Text, hex_word};
use std::alloc::Global;
use std::marker::Model;

/// Borrowed bytes. Contracts see them as a list.
#[derive(Drop)]
pub struct Borrowed<'b> {
    bytes: &'b [u8],
}

impl<'b> Model for Borrowed<'b> {
    ghost use Rattle.std.specs.Prelude.{ℕ, List};

    ghost Value = { List ℕ };

    ghost view = { λ b. b.bytes.now };
}

/// A piece of a page.
#[derive(Drop)]
pub enum Piece<'b> {
    /// Text of the page itself, as it stands in the file.
    Html(Borrowed<'b>),
    /// What a reader is to read as it is: whatever comes from files is such a piece.
    Text(Borrowed<'b>),
    /// A number, in decimal digits.
    Number(u64),
    /// A word, in eight hexadecimal digits.
    Word(u32),
}

/// Text of the page itself.
pub fn html(text: &str) -> Piece<'_>
    ensures { result ≡ variant.Html text.now }
{
    Piece::Html(Borrowed {
        bytes: text.as_bytes(),
    })
}

/// One text of the page itself where the condition holds, and else the other.
pub fn either<'b>(condition: bool, text: &'b str, other: &'b str) -> Piece<'b>
    ensures { result ≡ variant.Html (if condition then text.now else other.now) }
{
    if condition { html(text) } else { html(other) }
}

/// What a reader is to read as it is.
pub fn text(text: &Text) -> Piece<'_>
    ensures { result ≡ variant.Text text.now }
{
    read_as(text.as_str().as_bytes())
}

/// The same of bytes.
pub fn read_as(bytes: &[u8]) -> Piece<'_>
    ensures { result ≡ variant.Text bytes.now }
{
    Piece::Text(Borrowed { bytes })
}

#[tactic(auto, unfolding(crate::specs::Pieces::piece_text))]
fn push_piece(alloc: Global, page: &mut Vec<u8>, piece: &Piece<'_>) -> Result<(), NoMemory>
    ensures { OnOk result (page.new.items ≡ page.old.items ++ spec.piece_text piece.now) }
{
    match piece {
        Piece::Html(text) => push_bytes(page, text.bytes),
        Piece::Text(text) => push_escaped(page, text.bytes),
        Piece::Number(number) => {
            let text = format!(in alloc; "{number}")?;
            push_bytes(page, text.as_str().as_bytes())
        },
        Piece::Word(word) => push_bytes(page, &hex_word(*word)),
    }
}

/// Adds pieces.
///
/// # Errors
///
/// [`NoMemory`].
#[tactic(auto, unfolding(crate::specs::Pieces::told))]
pub fn push_pieces(alloc: Global, page: &mut Vec<u8>, pieces: &[Piece<'_>]) -> Result<(), NoMemory>
    ensures { OnOk result (page.new.items ≡ page.old.items ++ spec.told pieces.now) }
{
    for piece in pieces {
        push_piece(alloc, page, piece)?;
    }
    Ok(())
}

/// Adds text of the page itself.
///
/// # Errors
///
/// [`NoMemory`].
#[tactic(auto, unfolding(crate::specs::Pieces::told, crate::specs::Pieces::piece_text))]
pub fn push_html(page: &mut Vec<u8>, text: &str) -> Result<(), NoMemory>
    ensures { OnOk result (page.new.items
        ≡ page.old.items ++ spec.told (variant.Html text.now ∷ [])) }
{
    push_bytes(page, text.as_bytes())
}

// Texts.
ghost use Rattle.std.specs.Prelude.{◌≡◌, [], ◌++◌, OnOk, OnErr, string_bytes, Some};

use crate::NoMemory;
use std::alloc::Global;
use std::fmt;
use std::marker::Model;

/// A growing UTF-8 text. Contracts see it as the list of its bytes.
pub struct Text {
    string: String,
}

impl Drop for Text {
    fn drop(self) {
        let Text { string } = self;
        drop(string);
    }
}

impl Model for Text {
    ghost use Rattle.std.specs.Prelude.{List, ℕ, string_bytes};

    ghost Value = { List ℕ };

    ghost view = { λ t. string_bytes t.string };
}

impl Text {
    /// The empty text. It takes no memory.
    pub fn new(alloc: Global) -> Self
        ensures { result ≡ [] }
    {
        Text {
            string: String::new(alloc),
        }
    }

    /// Adds a piece at the end.
    ///
    /// # Errors
    ///
    /// [`NoMemory`] where the text can't grow; it is then as before.
    pub fn push_str(&mut self, piece: &str) -> Result<(), NoMemory>
        ensures added { OnOk result (self.new ≡ self.old ++ piece.now) }
        ensures unchanged { OnErr result (self.new ≡ self.old) }
    {
        self.string.push_str(piece)?;
        Ok(())
    }

    /// The text as a borrowed one.
    pub fn as_str(&self) -> &str
        ensures { result.now ≡ self.now }
    {
        self.string.as_str()
    }
}

impl From<String> for Text {
    ghost from_gives = { λ s t. t ≡ string_bytes s };

    fn from(string: String) -> Self {
        Text { string }
    }
}

impl fmt::Display for Text {
    ghost output = { λ t. Some t };

    fn fmt<W: fmt::Write>(&self, f: &mut fmt::Formatter<W>) -> fmt::Result {
        f.write_str(self.string.as_str())
    }
}

//! The fields of a label.

ghost use Rattle.std.specs.Prelude.{◌≡◌};
ghost use Rattle.std.specs.String.{string_bytes};

use pls_numbers::FieldKind;
use std::marker::Model;

/// The greatest number of letters of a field's name, 16.
pub const MAX_LETTERS: usize = 16;

/// The name of a field, seen as its letters.
#[derive(Drop)]
pub struct Name {
    text: String,
}

impl Model for Name {
    ghost use Rattle.std.specs.Prelude.{List, ℕ};
    ghost use Rattle.std.specs.String.{string_bytes};

    ghost Value = { List ℕ };

    ghost view = { λ name. string_bytes name.text };
}

impl Name {
    /// The name with this text.
    pub fn of_text(text: String) -> Name
        ensures { result ≡ string_bytes text }
    {
        Name { text }
    }

    /// The letters as a text.
    pub fn as_str(&self) -> &str
        ensures { result.now ≡ self.now }
    {
        self.text.as_str()
    }
}

/// A field of a label: a number that has a name.
#[derive(Drop)]
pub struct Field {
    /// The name by which rules call it.
    pub name: Name,
    /// How it is written.
    pub kind: FieldKind,
}

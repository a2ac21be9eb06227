// Texts that contracts see as their bytes.
ghost use Rattle.std.specs.Prelude.{◌≡◌, List, ℕ, nat_eq, string_bytes};
ghost use Rattle.std.specs.Cmp.{partial_equiv_from_equiv};
ghost use Rattle.std.specs.Cmp.Lexicographic.{pointwise, nat_list_eq_equiv};

use crate::{Duplicate, NoMemory};
use std::alloc::Global;
use std::marker::Model;

/// A text. Contracts see it as the list of its bytes in UTF-8.
#[derive(Debug, Drop)]
pub struct Text {
    text: String,
}

impl Model for Text {
    ghost Value = { List ℕ };

    ghost view = { λ t. string_bytes t.text };
}

impl Text {
    /// The text of a string, without taking memory.
    pub fn of(text: String) -> Text
        ensures value { result ≡ string_bytes text }
    {
        Text { text }
    }

    /// The text as std's.
    pub fn as_str(&self) -> &str
        ensures value { result.now ≡ self.now }
    {
        self.text.as_str()
    }

    /// The bytes of the text in UTF-8.
    pub fn as_bytes(&self) -> &[u8]
        ensures value { result.now ≡ self.now }
    {
        self.text.as_bytes()
    }
}

impl Duplicate for Text {
    fn copy(&self, _alloc: Global) -> Result<Text, NoMemory> {
        Ok(Text {
            text: self.text.clone()?,
        })
    }
}

impl PartialEq for Text {
    ghost eq = { pointwise nat_eq };

    ghost laws = { partial_equiv_from_equiv nat_list_eq_equiv };

    fn eq(&self, other: &Text) -> bool {
        self.text == other.text
    }
}

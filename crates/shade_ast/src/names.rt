//! The names of a text.

ghost use Rattle.std.specs.Prelude.{◌≡◌, ◌<◌, ◌^◌, [], Some, length, slice_get, IfOk, OnOk, OnErr};
ghost use Rattle.shade_ast.specs.Names.{number_in, with_name, IsDistinct};

use crate::name_key::NameKey;
use indexmap::IndexSet;
use std::alloc::{AllocError, Global};
use std::marker::Model;

/// Names, each with its number: 0, 1, 2 and so on, in the order in which they first came.
#[derive(Drop)]
pub struct Names {
    texts: IndexSet<String, NameKey>,
}

impl Model for Names {
    ghost use Rattle.std.specs.Prelude.{List, ℕ, map, string_bytes};
    ghost use Rattle.shade_ast.specs.Names.{IsDistinct};

    ghost Value = { List (List ℕ) };

    ghost view = { λ n. map string_bytes n.texts.keys };

    ghost invariant = { λ n. IsDistinct (map string_bytes n.texts.keys) };
}

impl Names {
    /// Makes a table of no names, whose hashes begin with a key. Takes no memory.
    pub fn new(alloc: Global, key: NameKey) -> Names
        ensures { result ≡ [] }
    {
        Names {
            texts: IndexSet::with_hasher(alloc, key),
        }
    }

    /// How many names there are, which is the number of the next one. Takes no memory.
    pub fn len(&self) -> usize
        ensures { result ≡ length self.now }
    {
        self.texts.len()
    }

    /// The number of a name: a known one keeps its number, a new one gets the next.
    ///
    /// A new name takes memory for its text and its entry; without it the names are as they were. A known name takes
    /// none.
    pub fn number(&mut self, text: &str) -> Result<u32, AllocError>
        requires { length self.old < 2 ^ 32 }
        ensures number { IfOk result (λ n. n ≡ number_in self.old text.now) }
        ensures names { OnOk result (self.new ≡ with_name self.old text.now) }
        ensures distinct { IsDistinct self.new }
        ensures err { OnErr result (self.new ≡ self.old) }
    {
        if let Some(at) = self.texts.get_index_of(text) {
            return Ok(at as u32);
        }
        let owned = String::from_str(*self.texts.allocator(), text)?;
        let (at, _) = self.texts.insert_full(owned)?;
        Ok(at as u32)
    }

    /// The name with a number. Takes no memory.
    pub fn text(&self, number: u32) -> &str
        requires { number < length self.now }
        ensures text { slice_get self.now number ≡ Some result.now }
        ensures distinct { IsDistinct self.now }
    {
        self.texts[number as usize].as_str()
    }
}

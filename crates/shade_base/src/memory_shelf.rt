//! A shelf in memory, which fails as it is told.
ghost use Rattle.std.specs.Prelude.{◌≡◌, [], ◌∷◌, ◌++◌, ◌+◌, ◌<◌, Some, None, IfOk, OnOk, IsErrOf, map};
ghost use Rattle.std.specs.Option.{option_map};
ghost use Rattle.std.specs.String.{string_bytes};
ghost use Rattle.shade_base.specs.MemoryShelf.{text_of};

use crate::{Shelf, ShelfRefusal};
use std::alloc::Global;
use std::collections::BTreeMap;
use std::marker::Model;

/// A shelf of texts in memory, which tells its texts. Its calls are numbered from 0.
#[derive(Drop)]
pub struct MemoryShelf {
    texts: BTreeMap<String, Vec<u8>>,
    failing: Vec<u64>,
    calls: u64,
    failed: Vec<String>,
}

impl Model for MemoryShelf {
    ghost use Rattle.std.specs.Prelude.{map};
    ghost use Rattle.std.specs.String.{string_bytes};
    ghost use Rattle.shade_base.specs.MemoryShelf.{ShelfState, shelf_code};

    ghost Value = { ShelfState };

    ghost coded = { shelf_code };

    ghost view = { λ s. record { texts = map (λ e. (string_bytes e.0, e.1.items)) s.texts.entries; failing = s.failing.items; calls = s.calls; failed = map (λ name. string_bytes name) s.failed.items } };
}

impl MemoryShelf {
    /// A shelf of these texts, in which the calls of these numbers fail. This takes no memory.
    pub fn new(alloc: Global, texts: BTreeMap<String, Vec<u8>>, failing: Vec<u64>) -> MemoryShelf
        ensures { result ≡ record { texts = map (λ e. (string_bytes e.0, e.1.items)) texts.entries; failing = failing.items; calls = 0; failed = [] } }
    {
        MemoryShelf {
            texts,
            failing,
            calls: 0,
            failed: Vec::new(alloc),
        }
    }
}

/// The text of a name.
fn text_in<'a>(texts: &'a BTreeMap<String, Vec<u8>>, name: &str) -> Option<&'a Vec<u8>>
    ensures { option_map (λ text. text.now.items) result ≡ text_of (map (λ e. (string_bytes e.0, e.1.items)) texts.now.entries) name.now }
{
    texts.get(name)
}

impl Shelf for MemoryShelf {
    ghost use Rattle.shade_base.specs.MemoryShelf.{text_of, read_of, after_read, after_failure};
    ghost use Rattle.shade_base.specs.Shelf.{IsFailedBy, front_of};
    ghost use Rattle.shade_base.specs.declared.shelf.ShelfRefusal.TheVariants.{NoMemory, Failed as ReadFailed};

    ghost texts = { λ s. Some (text_of s.texts) };

    ghost failed = { λ s. s.failed };

    /// Fails exactly where the number of the call is among those that are to fail, or the name has no text.
    /// A call that answers `NoMemory` has no number and changes nothing.
    fn read(&mut self, alloc: Global, name: &str, limit: usize) -> Result<Vec<u8>, ShelfRefusal>
        requires { limit < usize.MAX }
        ensures texts { Some (text_of self.new.texts) ≡ Some (text_of self.old.texts) }
        ensures bytes { IfOk result (λ bytes. front_of (text_of self.old.texts) name.now limit ≡ Some bytes.items) }
        ensures cause { IsFailedBy name.now self.old.failed self.new.failed result }
        ensures served { IfOk result (λ bytes. read_of self.old name.now limit ≡ Some bytes.items) }
        ensures after_read { OnOk result (self.new ≡ after_read self.old) }
        ensures fails { IsErrOf result ReadFailed → read_of self.old name.now limit ≡ None }
        ensures after_failure { IsErrOf result ReadFailed → self.new ≡ after_failure self.old name.now }
        ensures unchanged { IsErrOf result NoMemory → self.new ≡ self.old }
    {
        // The place for the name comes first, so that a failure can be kept.
        self.failed.reserve(1)?;
        let kept = String::from_str(alloc, name)?;
        let fails = self.failing.contains(&self.calls);
        match text_in(&self.texts, name) {
            Some(text) if !fails => {
                let count = text.len().min(limit + 1);
                let bytes = Vec::from_slice(alloc, &text[..count])?;
                self.calls = self.calls.saturating_add(1);
                Ok(bytes)
            }
            _ => {
                self.failed.push_reserved(kept);
                self.calls = self.calls.saturating_add(1);
                Err(ShelfRefusal::Failed)
            }
        }
    }
}

//! Shared memory.

ghost use Rattle.std.specs.Prelude.{◌≡◌, ◌<◌, [], length, IfOk, slice_get, Some};
ghost use Rattle.shade_mem.specs.Inputs.{start_words};

use crate::inputs::RootWords;
use shade_core::CoreModule;
use sqlite_items::Items;
use std::alloc::{AllocError, Global};
use std::marker::Model;

/// The memory that the lanes of a workgroup share: the words of each root of a module.
#[derive(Drop)]
pub struct Memory {
    roots: RootWords,
}

impl Model for Memory {
    ghost use Rattle.std.specs.Prelude.{List, ℕ};

    ghost Value = { List (List ℕ) };

    ghost view = { λ m. m.roots };
}

impl Memory {
    /// The memory at the start of a run, of a module without roots. There is one list of words for each root.
    pub fn begin(
        alloc: Global,
        module: &CoreModule,
        words: &RootWords,
    ) -> Result<Memory, AllocError>
        requires rootless { «module».now.roots ≡ [] }
        requires words { length words.now ≡ length «module».now.roots }
        ensures { IfOk result (λ memory. memory ≡ start_words «module».now words.now) }
    {
        let mut roots = Vec::with_capacity(alloc, module.roots.len())?;
        for root in words.as_slice() {
            roots.push(Items::from_slice(alloc, root.as_slice())?)?;
        }
        Ok(Memory {
            roots: Items::from_vec(roots),
        })
    }

    /// The words of the root with this number, from its first to its last. Takes no memory.
    pub fn words(&self, root: u32) -> &[u32]
        requires { root < length self.now }
        ensures { slice_get self.now root ≡ Some result.now }
    {
        self.roots.as_slice()[root as usize].as_slice()
    }
}

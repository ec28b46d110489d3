//! The words of one variable.

ghost use Rattle.std.specs.Prelude.{◌≡◌, ◌+◌, ◌<◌, ◌≤◌, length, slice_index, IfOk};
ghost use Rattle.shade_values.specs.Shape.{shape_of};
ghost use Rattle.shade_values.specs.Sound.{IsSound};
ghost use Rattle.shade_words.specs.Lays.{size, decode, AreFit, IsConcrete};
ghost use Rattle.shade_words.specs.Types.{lay};
ghost use Rattle.shade_spots.specs.Changes.{value_change};
ghost use Rattle.shade_spots.specs.Memory.{changed, first_words};

use shade_core::Root;
use shade_values::{Space, TypeId, TypeTable};
use shade_words::{put_value, word_count};
use std::alloc::{AllocError, Global};
use std::marker::Model;

/// The words of a variable.
#[derive(Drop)]
pub(crate) struct RootMemory {
    words: Vec<u32>,
}

impl Model for RootMemory {
    ghost use Rattle.std.specs.Prelude.{List, ℕ};

    ghost Value = { List ℕ };

    ghost view = { λ r. r.words.items };
}

/// Each table is sound.
fn table_is_sound(types: &TypeTable)
    ensures { IsSound types.now }
{
    let _known = types.count();
}

impl RootMemory {
    /// A variable at the start of a run: a buffer has the words that are handed in.
    pub(crate) fn begin(
        alloc: Global,
        types: &TypeTable,
        root: &Root,
        handed: &[u32],
    ) -> Result<RootMemory, AllocError>
        requires known { root.now.ty.0 < length types.now.types }
        ensures { IfOk result (λ r. r ≡ first_words types.now root.now root.now.space handed.now) }
    {
        let words = match root.space {
            Space::Storage | Space::Uniform => handed.to_vec(alloc)?,
            Space::Workgroup => vec![in alloc; 0; word_count(types, root.ty)]?,
            Space::Private | Space::Function => Vec::new(alloc),
        };
        Ok(RootMemory { words })
    }

    /// The words, from the first to the last.
    pub(crate) fn as_slice(&self) -> &[u32]
        ensures { result.now ≡ self.now }
    {
        self.words.as_slice()
    }

    /// Writes a value of a type, whose words are those from the first one on. Padding stays as it was.
    pub(crate) fn put(&mut self, types: &TypeTable, ty: TypeId, first: usize, from: &[u32])
        requires known { ty.0 < length types.now.types }
        requires concrete { IsConcrete (lay types.now ty) }
        requires inside { first + size (lay types.now ty) ≤ length self.old }
        requires from { size (lay types.now ty) ≤ length from.now }
        requires fit { AreFit (lay types.now ty) (slice_index from.now) 0 }
        ensures { self.new ≡ changed first (size (lay types.now ty)) (value_change (shape_of types.now ty) (decode (lay types.now ty) (slice_index from.now) 0)) self.old }
    {
        table_is_sound(types);
        put_value(types, ty, from, 0, self.words.as_mut_slice(), first);
    }
}

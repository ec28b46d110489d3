//! The memory that the lanes of a workgroup share.

ghost use Rattle.std.specs.Prelude.{◌≡◌, ◌<◌, ◌≤◌, length, slice_index, All, IfOk};
ghost use Rattle.shade_values.specs.Shape.{shape_of};
ghost use Rattle.shade_words.specs.Lays.{size, decode, AreFit, IsConcrete};
ghost use Rattle.shade_words.specs.Types.{lay};
ghost use Rattle.shade_words.specs.Written.{Written};
ghost use Rattle.shade_spots.specs.Changes.{value_change};
ghost use Rattle.shade_spots.specs.Memory.{begin, words_of, written};
ghost use Rattle.shade_spots.specs.Inside.{IsInside, piece_at};

use crate::root_memory::RootMemory;
use shade_core::CoreModule;
use shade_mem::RootWords;
use shade_spots::Spot;
use shade_values::TypeTable;
use shade_words::read_value;
use std::alloc::{AllocError, Global};
use std::marker::Model;

/// The words of each variable of a module; those of a private one are none, as each lane keeps them itself.
///
/// It does not hold the types of its module: the calls that need them take them.
#[derive(Drop)]
pub struct Memory {
    roots: Vec<RootMemory>,
}

impl Model for Memory {
    ghost use Rattle.std.specs.Prelude.{List, ℕ};

    ghost Value = { List (List ℕ) };

    ghost view = { λ m. m.roots.items };
}

impl Memory {
    /// The memory at the start of a run. One list of words is handed in for each variable; a buffer has those, workgroup memory is zero.
    /// Takes the memory that it is made of and no more; an error comes where that is wanting.
    pub fn begin(
        alloc: Global,
        module: &CoreModule,
        handed: &RootWords,
    ) -> Result<Memory, AllocError>
        requires known { All (λ root. root.ty.0 < length «module».now.types.types) «module».now.roots }
        requires handed { length handed.now ≡ length «module».now.roots }
        ensures { IfOk result (λ memory. memory ≡ begin «module».now handed.now) }
    {
        let variables = module.roots.as_slice();
        let handed = handed.as_slice();
        let mut roots = Vec::with_capacity(alloc, variables.len())?;
        'roots: for number in 0..variables.len() {
            let words = handed[number].as_slice();
            let root = RootMemory::begin(alloc, &module.types, &variables[number], words)?;
            roots.push(root)?;
        }
        Ok(Memory { roots })
    }

    /// The words of the variable with this number, from its first to its last. Takes no memory.
    pub fn words(&self, root: u32) -> &[u32]
        requires { root < length self.now }
        ensures { result.now ≡ words_of self.now root }
    {
        self.roots[root as usize].as_slice()
    }

    /// Reads the value at a spot into a row as long as its type; padding there becomes 0. The words are those of a value where those of the spot
    /// are. Takes no memory.
    pub fn read_into(&self, types: &TypeTable, spot: Spot, room: &mut [u32])
        requires spot { IsInside types.now self.now spot }
        requires room { length room.old ≡ size (lay types.now spot.ty) }
        ensures read { Written (lay types.now spot.ty) (decode (lay types.now spot.ty) (slice_index (words_of self.now spot.root)) spot.first) room.old room.new 0 }
        ensures fit { AreFit (lay types.now spot.ty) (slice_index (words_of self.now spot.root)) spot.first → AreFit (lay types.now spot.ty) (slice_index room.new) 0 }
        ensures length { length room.new ≡ length room.old }
    {
        let words = self.words(spot.root);
        read_value(types, spot.ty, words, spot.first as usize, room, 0);
    }

    /// Writes a value to a spot, of which the words are given. Padding stays as it was, and no other word changes. Takes no memory.
    pub fn write_words(&mut self, types: &TypeTable, spot: Spot, words: &[u32])
        requires spot { IsInside types.now self.old spot }
        requires concrete { IsConcrete (lay types.now spot.ty) }
        requires words { size (lay types.now spot.ty) ≤ length words.now }
        requires fit { AreFit (lay types.now spot.ty) (slice_index words.now) 0 }
        ensures { self.new ≡ written self.old (piece_at types.now spot) (value_change (shape_of types.now spot.ty) (decode (lay types.now spot.ty) (slice_index words.now) 0)) }
    {
        let first = spot.first as usize;
        self.roots[spot.root as usize].put(types, spot.ty, first, words);
    }
}

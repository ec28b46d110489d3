//! The words of the calls that are open.

ghost use Rattle.std.specs.Prelude.{ℕ, List, ◌≡◌, ◌+◌, ◌<◌, ◌≤◌, [], ◌∷◌, ◌++◌, Some, length, slice_index};
ghost use Rattle.shade_values.specs.Sound.{IsSound};
ghost use Rattle.shade_words.specs.Lays.{size, decode};
ghost use Rattle.shade_words.specs.Types.{lay};
ghost use Rattle.shade_words.specs.Written.{Written};
ghost use Rattle.shade_slots.specs.declared.layout.FrameLayout.{FrameLayout};
ghost use Rattle.shade_slots.specs.declared.slot.Slot.{Slot};
ghost use Rattle.shade_frames.specs.Control.{Place};
ghost use Rattle.shade_frames.specs.Frames.{Setting};
ghost use Rattle.shade_flat.specs.Flat.{slot_at, lane_of};
ghost use Rattle.shade_flat.specs.Rows.{IsFrameOf, ArePrivates, Stacked, with_value};

use crate::open::Open;
use shade_values::{TypeId, TypeTable};
use shade_words::read_value;

/// The open calls of a lane, and all of their words. It takes its memory when it is made; no call of it takes more.
#[derive(Drop)]
pub struct Row {
    pub(crate) words: Vec<u32>,
    // The entry is first.
    pub(crate) below: Vec<Open>,
    pub(crate) top: Open,
}

impl Row {
    /// Gives a statement of the innermost call a value, of which the words are given. The value of the statement lies from a word of the frame on.
    /// Takes no memory.
    pub fn give(&mut self, types: &TypeTable, ty: TypeId, first: usize, from: &[u32])
        requires sound { IsSound types.now }
        requires known { ty.0 < length types.now.types }
        requires from { size (lay types.now ty) ≤ length from.now }
        requires room { self.old.top.base + first + size (lay types.now ty) ≤ length self.old.words.items }
        ensures lane { (s : Setting) (layouts : ℕ → FrameLayout) (privates : List Slot) (place : Place) (n start : ℕ) → s.shader.types ≡ types.now → ((f : ℕ) → IsFrameOf s f (layouts f)) → slot_at (layouts self.old.top.function).values.items n ≡ record { first = first; ty = Some ty } → ArePrivates s privates start → Stacked layouts start self.old.top.base self.old.below.items → lane_of s layouts privates place (slice_index self.new.words.items) (self.new.below.items ++ self.new.top ∷ []) ≡ with_value n (decode (lay types.now ty) (slice_index from.now) 0) (lane_of s layouts privates place (slice_index self.old.words.items) (self.old.below.items ++ self.old.top ∷ [])) }
        ensures below { self.new.below.items ≡ self.old.below.items }
        ensures top { self.new.top ≡ self.old.top }
        ensures length { length self.new.words.items ≡ length self.old.words.items }
    {
        let to = self.top.base + first;
        self.fill(types, ty, to, from);
    }

    /// Writes a value, of which the words are given, to a place of the row.
    fn fill(&mut self, types: &TypeTable, ty: TypeId, to: usize, from: &[u32])
        requires known { ty.0 < length types.now.types }
        requires from { size (lay types.now ty) ≤ length from.now }
        requires room { to + size (lay types.now ty) ≤ length self.old.words.items }
        ensures written { Written (lay types.now ty) (decode (lay types.now ty) (slice_index from.now) 0) self.old.words.items self.new.words.items to }
        ensures below { self.new.below.items ≡ self.old.below.items }
        ensures top { self.new.top ≡ self.old.top }
        ensures length { length self.new.words.items ≡ length self.old.words.items }
    {
        read_value(types, ty, from, 0, self.words.as_mut_slice(), to);
    }
}

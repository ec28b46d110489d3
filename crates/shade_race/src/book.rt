//! The book of races.

ghost use Rattle.std.specs.Prelude.{◌≡◌, ℕ, ◌+◌, ◌<◌, ◌≤◌, ◌^◌, List, [], ◌∷◌, length, map, IfOk};
ghost use Rattle.shade_race.specs.History.{AllAccesses, accesses, book_of, book_races, epoch_in as epoch_of, Event, noted_book, passed_book, races_of, Size, sizes_of, Stands, Noted, Passed, words_at};
ghost use Rattle.shade_race.specs.Meaning.{AreRaces};
ghost use Rattle.shade_race.specs.Roots.{AreUnnamed, unnamed_prop};

use crate::access::{LaneAccess, Race};
use crate::epochs::{Epochs, epoch_in, raised};
use crate::root::Root;
use shade_values::{Space, Touch};
use std::alloc::{AllocError, Global};

/// How many roots an access can name.
const NAMED_ROOTS: usize = 4_294_967_296;

/// The races of a run, found as its accesses are noted in the order of their steps.
#[derive(Drop)]
pub struct RaceBook {
    pub(crate) roots: Vec<Root>,
    pub(crate) epochs: Epochs,
    ghost unnamed: { AreUnnamed roots.items } by { unnamed_prop roots.items },
}

impl RaceBook {
    ghost use Rattle.shade_race.specs.Seen.{seen};

    /// The book of roots of so many words in these spaces, before any access. Takes 192 bytes a word, and no more later; an error comes
    /// where that memory is wanting.
    pub fn begin(alloc: Global, words: &[u32], spaces: &[Space]) -> Result<RaceBook, AllocError>
        requires { length words.now ≡ length spaces.now }
        ensures model { IfOk result (λ book. seen book ≡ book_of (sizes_of words.now spaces.now) []) }
        ensures stands { IfOk result (λ book. Stands (sizes_of words.now spaces.now) [] (seen book)) }
    {
        let mut roots = Vec::with_capacity(alloc, words.len())?;
        for number in 0..words.len() {
            let root = Root::begin(alloc, spaces[number], words[number])?;
            roots.push(root)?;
        }
        Ok(RaceBook {
            roots,
            epochs: Epochs {
                workgroup: 0,
                storage: 0,
            },
        })
    }

    /// How many roots there are. Takes no memory.
    pub fn roots(&self) -> usize
        ensures { result ≡ length (seen self.now).roots }
    {
        self.roots.len()
    }

    /// How many words the root with this number has, none where there is no such root. Takes no memory.
    pub fn words(&self, root: u32) -> usize
        ensures { result ≡ words_at root (seen self.now).roots }
    {
        let root = root as usize;
        if root < self.roots.len() {
            self.roots[root].cells.len()
        } else {
            0
        }
    }

    /// How often a barrier of a space was passed. Takes no memory.
    pub fn epoch(&self, space: Space) -> u64
        ensures { result ≡ epoch_of space (seen self.now).epochs }
    {
        epoch_in(space, self.epochs)
    }

    /// Notes an access. Takes no memory.
    pub fn note(&mut self, step: u64, lane: u32, touch: Touch)
        requires root { touch.root < length (seen self.old).roots }
        requires words { touch.first + touch.count ≤ words_at touch.root (seen self.old).roots }
        ensures model { seen self.new ≡ noted_book step lane touch (seen self.old) }
        ensures leads { (sizes : List Size) (past : List Event) → Stands sizes past (seen self.old) → AllAccesses (λ y. y.step < step) (accesses sizes past) → Stands sizes (Noted step lane touch ∷ past) (seen self.new) }
    {
        let root = touch.root as usize;
        let epoch = epoch_in(self.roots[root].space, self.epochs);
        self.roots[root].note(
            epoch,
            LaneAccess {
                step,
                lane,
                kind: touch.kind,
            },
            touch,
        );
    }

    /// Begins the next epoch of a space. Takes no memory, nor time for the words.
    pub fn barrier(&mut self, space: Space)
        requires { epoch_of space (seen self.old).epochs < 18446744073709551615 }
        ensures model { seen self.new ≡ passed_book space (seen self.old) }
        ensures leads { (sizes : List Size) (past : List Event) → Stands sizes past (seen self.old) → Stands sizes (Passed space ∷ past) (seen self.new) }
    {
        self.epochs = raised(space, self.epochs);
    }

    /// The races, in the order of roots and words: of each word that any two accesses race at, and of no other, the pair with the least second
    /// step, and of those the one with the least first. Goes over all words. An error comes where memory for the list is wanting.
    pub fn races(&self, alloc: Global) -> Result<Vec<Race>, AllocError>
        ensures model { IfOk result (λ races. races.items ≡ book_races (seen self.now)) }
        ensures tells { (sizes : List Size) (past : List Event) → Stands sizes past (seen self.now) → IfOk result (λ races. races.items ≡ races_of sizes past) }
        ensures least { (sizes : List Size) (past : List Event) → Stands sizes past (seen self.now) → IfOk result (λ races. AreRaces sizes (accesses sizes past) races.items) }
    {
        let mut races = Vec::new(alloc);
        let named = self.roots.len().min(NAMED_ROOTS);
        for number in 0..named {
            self.roots[number].add_races(number as u32, &mut races)?;
        }
        Ok(races)
    }
}

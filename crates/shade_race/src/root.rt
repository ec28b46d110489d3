//! The words of a root.

ghost use Rattle.std.specs.Prelude.{◌≡◌, ◌+◌, ◌<◌, ◌≤◌, ◌++◌, ◌^◌, [], length, OnOk, IfOk};

use crate::access::{LaneAccess, Race};
use crate::cells::{Cells, note_all};
use shade_values::{Space, Touch};
use std::alloc::{AllocError, Global};

/// Where a root stands, and the cells of its words.
#[derive(Drop)]
pub struct Root {
    pub(crate) space: Space,
    pub(crate) cells: Vec<Cells>,
    ghost few: { length cells.items < 2 ^ 32 },
}

impl Root {
    ghost use Rattle.shade_race.specs.History.{noted_root, word_races, row};
    ghost use Rattle.shade_race.specs.Roots.{seen_root};

    /// A root of so many words, none of them touched.
    pub(crate) fn begin(alloc: Global, space: Space, words: u32) -> Result<Root, AllocError>
        ensures { IfOk result (λ root. seen_root root ≡ record { space = space; cells = row [] 0 0 words }) }
    {
        let mut cells = Vec::with_capacity(alloc, words as usize)?;
        for word in 0..words {
            cells.push(Cells::none())?;
        }
        Ok(Root { space, cells })
    }

    /// Notes an access to each word that it touches. Takes no memory.
    pub(crate) fn note(&mut self, epoch: u64, act: LaneAccess, touch: Touch)
        requires { touch.first + touch.count ≤ length self.old.cells.items }
        ensures { seen_root self.new ≡ noted_root epoch act touch (seen_root self.old) }
    {
        let first = touch.first as usize;
        let end = first + touch.count as usize;
        let cells = self.cells.as_mut_slice();
        note_all(epoch, act, &mut cells[first..end]);
    }

    /// Adds the races of the words, by word.
    pub(crate) fn add_races(&self, number: u32, races: &mut Vec<Race>) -> Result<(), AllocError>
        ensures { OnOk result (races.new.items ≡ races.old.items ++ word_races number 0 self.now.cells.items) }
    {
        for (word, cells) in self.cells.as_slice().iter().enumerate() {
            if let Some(found) = cells.race {
                races.push(Race {
                    root: number,
                    word: word as u32,
                    found,
                })?;
            }
        }
        Ok(())
    }
}

//! Whether a lane may step.

ghost use Rattle.std.specs.Prelude.{◌≡◌};

use shade_values::Space;
use std::marker::Model;

/// Where a lane waits: the number of its function, that of the statement, the number of open loops, and their counts,
/// the outermost first.
#[derive(Debug, Drop)]
pub struct Instance {
    words: Vec<u32>,
}

impl Model for Instance {
    ghost use Rattle.std.specs.Prelude.{List, ℕ};

    ghost Value = { List ℕ };

    ghost view = { λ i. i.words.items };
}

impl Instance {
    /// The instance of these words. Takes no memory.
    pub fn from_vec(words: Vec<u32>) -> Instance
        ensures { result ≡ words.items }
    {
        Instance { words }
    }

    /// The words of the instance. Takes no memory.
    pub fn as_slice(&self) -> &[u32]
        ensures { result.now ≡ self.now }
    {
        self.words.as_slice()
    }
}

/// Whether a lane may step, waits at a barrier of a space, or has ended.
#[derive(Debug, Drop)]
pub enum LaneState {
    Able,
    Waiting(Space, Instance),
    Ended,
}

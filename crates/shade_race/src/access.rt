//! Accesses to words, and races.

use shade_values::TouchKind;

/// An access to a word.
#[derive(Clone, Copy, Debug, PartialEq, Eq)]
pub struct LaneAccess {
    pub step: u64,
    pub lane: u32,
    pub kind: TouchKind,
}

/// Two accesses that race.
#[derive(Clone, Copy, Debug, PartialEq, Eq)]
pub struct RacingPair {
    pub first: LaneAccess,
    pub second: LaneAccess,
}

/// The recorded race of a word.
#[derive(Clone, Copy, Debug, PartialEq, Eq)]
pub struct Race {
    pub root: u32,
    pub word: u32,
    pub found: RacingPair,
}

//! What is kept of a word.

ghost use Rattle.std.specs.Prelude.{◌≡◌, ◌++◌, [], map, take, drop};
ghost use Rattle.shade_race.specs.Word.{cells_of, pick, earlier as earlier_of, noted_first, rival as rival_of, fresh as fresh_of, noted as noted_of, kept, raced as raced_of};

use crate::access::{LaneAccess, RacingPair};
use shade_values::TouchKind;

/// Of the accesses of one kind in one epoch the first, and the first by another lane than that one's.
#[derive(Clone, Copy)]
pub struct Firsts {
    pub first: Option<LaneAccess>,
    pub other: Option<LaneAccess>,
}

/// The recorded race of a word, the epoch of the last access, and the firsts of each kind in that epoch.
#[derive(Clone, Copy)]
pub struct Cells {
    pub race: Option<RacingPair>,
    pub epoch: u64,
    pub reads: Firsts,
    pub writes: Firsts,
    pub atomics: Firsts,
}

/// The first access by another lane.
fn pick(act: LaneAccess, firsts: Firsts) -> Option<LaneAccess>
    ensures { result ≡ pick act firsts }
{
    match firsts.first {
        None => None,
        Some(first) => if first.lane == act.lane {
            firsts.other
        } else {
            Some(first)
        },
    }
}

/// The one with the lesser step.
fn earlier(one: Option<LaneAccess>, other: Option<LaneAccess>) -> Option<LaneAccess>
    ensures { result ≡ earlier_of one other }
{
    match one {
        None => other,
        Some(x) => match other {
            None => Some(x),
            Some(y) => if x.step < y.step { Some(x) } else { Some(y) },
        },
    }
}

/// The first of the accesses kept with which one races.
fn rival(act: LaneAccess, cells: Cells) -> Option<LaneAccess>
    ensures { result ≡ rival_of act cells }
{
    match act.kind {
        TouchKind::Read => earlier(pick(act, cells.writes), pick(act, cells.atomics)),
        TouchKind::Write => earlier(
            pick(act, cells.reads),
            earlier(pick(act, cells.writes), pick(act, cells.atomics)),
        ),
        TouchKind::Atomic => earlier(pick(act, cells.reads), pick(act, cells.writes)),
    }
}

/// With an access of that kind.
fn noted_first(act: LaneAccess, firsts: Firsts) -> Firsts
    ensures { result ≡ noted_first act firsts }
{
    match firsts.first {
        None => Firsts {
            first: Some(act),
            other: None,
        },
        Some(first) => if first.lane == act.lane {
            firsts
        } else {
            match firsts.other {
                None => Firsts {
                    first: Some(first),
                    other: Some(act),
                },
                Some(other) => firsts,
            }
        },
    }
}

/// Nothing of an older epoch.
fn fresh(epoch: u64, cells: Cells) -> Cells
    ensures { result ≡ fresh_of epoch cells }
{
    if cells.epoch == epoch {
        cells
    } else {
        let none = Firsts {
            first: None,
            other: None,
        };
        Cells {
            race: cells.race,
            epoch,
            reads: none,
            writes: none,
            atomics: none,
        }
    }
}

/// With an access of its kind.
fn kept(act: LaneAccess, cells: Cells) -> Cells
    ensures { result ≡ kept act cells }
{
    match act.kind {
        TouchKind::Read => Cells {
            reads: noted_first(act, cells.reads),
            ..cells
        },
        TouchKind::Write => Cells {
            writes: noted_first(act, cells.writes),
            ..cells
        },
        TouchKind::Atomic => Cells {
            atomics: noted_first(act, cells.atomics),
            ..cells
        },
    }
}

/// The race of an access with the first that it races with, unless there is one already.
fn raced(act: LaneAccess, cells: Cells) -> Option<RacingPair>
    ensures { result ≡ raced_of act cells }
{
    match cells.race {
        Some(found) => Some(found),
        None => match rival(act, cells) {
            None => None,
            Some(first) => Some(RacingPair { first, second: act }),
        },
    }
}

/// With an access in an epoch.
fn noted(epoch: u64, act: LaneAccess, cells: Cells) -> Cells
    ensures { result ≡ noted_of epoch act cells }
{
    let now = fresh(epoch, cells);
    let race = raced(act, now);
    Cells {
        race,
        ..kept(act, now)
    }
}

/// Notes an access to each of some words.
pub(crate) fn note_all(epoch: u64, act: LaneAccess, words: &mut [Cells])
    ensures { words.new ≡ map (noted_of epoch act) words.old }
{
    for word in words.iter_mut() {
        *word = noted(epoch, act, *word);
    }
}

impl Cells {
    /// Of a word that no access touched.
    pub(crate) fn none() -> Cells
        ensures { result ≡ cells_of [] }
    {
        let none = Firsts {
            first: None,
            other: None,
        };
        Cells {
            race: None,
            epoch: 0,
            reads: none,
            writes: none,
            atomics: none,
        }
    }
}

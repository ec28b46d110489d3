//! Races of the accesses that lanes note.

ghost use Rattle.std.specs.Prelude.{◌+◌, ◌<◌, ◌≤◌, length};

use shade_race::{LaneAccess, Race, RaceBook, RacingPair};
use shade_values::{Space, Touch, TouchKind};
use std::process::Abort;
use std::test::Fail;

/// What a book is told, one thing a step.
#[derive(Clone, Copy)]
enum Told {
    /// A lane touches words of a root: the root's number, the first word, and how many.
    Access(u32, u32, u32, u32, TouchKind),
    /// A barrier of a space is passed.
    Barrier(Space),
}

use Told::{Access, Barrier};
use TouchKind::{Atomic, Read, Write};

/// Runs over a root of three words of workgroup memory and one of two words of storage, each with its races: a root, a word,
/// and of both accesses the step, the lane and the kind.
const RUNS: &[(
    &[Told],
    &[(u32, u32, (u64, u32, TouchKind), (u64, u32, TouchKind))],
)] = &[
    (&[], &[]),
    // One lane by itself, reads alone, atomics alone, other words.
    (&[Access(0, 0, 0, 3, Write), Access(0, 0, 0, 3, Read)], &[]),
    (&[Access(0, 0, 0, 3, Read), Access(1, 0, 0, 3, Read)], &[]),
    (
        &[Access(0, 0, 1, 1, Atomic), Access(1, 0, 1, 1, Atomic)],
        &[],
    ),
    (&[Access(0, 0, 0, 1, Write), Access(1, 0, 1, 2, Write)], &[]),
    (&[Access(0, 0, 0, 1, Write), Access(1, 1, 0, 1, Write)], &[]),
    // Each pair of kinds that races, in both orders.
    (
        &[Access(0, 0, 0, 1, Write), Access(1, 0, 0, 1, Write)],
        &[(0, 0, (0, 0, Write), (1, 1, Write))],
    ),
    (
        &[Access(0, 0, 0, 1, Write), Access(1, 0, 0, 1, Read)],
        &[(0, 0, (0, 0, Write), (1, 1, Read))],
    ),
    (
        &[Access(0, 0, 0, 1, Read), Access(1, 0, 0, 1, Write)],
        &[(0, 0, (0, 0, Read), (1, 1, Write))],
    ),
    (
        &[Access(0, 1, 1, 1, Atomic), Access(1, 1, 0, 2, Read)],
        &[(1, 1, (0, 0, Atomic), (1, 1, Read))],
    ),
    (
        &[Access(0, 1, 1, 1, Write), Access(1, 1, 1, 1, Atomic)],
        &[(1, 1, (0, 0, Write), (1, 1, Atomic))],
    ),
    // The least second step, then the least first one; one race a word.
    (
        &[
            Access(0, 0, 0, 1, Read),
            Access(1, 0, 0, 1, Read),
            Access(2, 0, 0, 1, Write),
            Access(3, 0, 0, 1, Write),
        ],
        &[(0, 0, (0, 0, Read), (2, 2, Write))],
    ),
    (
        &[
            Access(2, 0, 0, 1, Read),
            Access(1, 0, 0, 1, Read),
            Access(2, 0, 0, 1, Write),
        ],
        &[(0, 0, (1, 1, Read), (2, 2, Write))],
    ),
    (
        &[Access(0, 0, 1, 2, Write), Access(1, 0, 0, 3, Write)],
        &[
            (0, 1, (0, 0, Write), (1, 1, Write)),
            (0, 2, (0, 0, Write), (1, 1, Write)),
        ],
    ),
    // A barrier of the root's space parts accesses, one of the other space does not.
    (
        &[
            Access(0, 0, 0, 1, Write),
            Barrier(Space::Workgroup),
            Access(1, 0, 0, 1, Read),
        ],
        &[],
    ),
    (
        &[
            Access(0, 0, 0, 1, Write),
            Barrier(Space::Storage),
            Access(1, 0, 0, 1, Read),
        ],
        &[(0, 0, (0, 0, Write), (2, 1, Read))],
    ),
    (
        &[
            Access(0, 1, 0, 1, Write),
            Barrier(Space::Storage),
            Access(1, 1, 0, 1, Read),
        ],
        &[],
    ),
    (
        &[
            Access(0, 1, 0, 1, Write),
            Barrier(Space::Workgroup),
            Access(1, 1, 0, 1, Read),
        ],
        &[(1, 0, (0, 0, Write), (2, 1, Read))],
    ),
];

/// Tells a book of one step.
fn tell(rt: &impl Abort, book: &mut RaceBook, step: u64, told: Told) {
    match told {
        Access(lane, root, first, count, kind) => {
            assert!(rt; (root as usize) < book.roots());
            assert!(rt; first as usize + count as usize <= book.words(root));
            let touch = Touch {
                root,
                first,
                count,
                kind,
            };
            book.note(step, lane, touch);
        }
        Barrier(space) => {
            assert!(rt; book.epoch(space) < u64::MAX);
            book.barrier(space);
        }
    }
}

/// Whether a race is the one of a row.
fn is_race(race: Race, row: (u32, u32, (u64, u32, TouchKind), (u64, u32, TouchKind))) -> bool {
    let (root, word, first, second) = row;
    race == Race {
        root,
        word,
        found: RacingPair {
            first: access(first),
            second: access(second),
        },
    }
}

fn access(row: (u64, u32, TouchKind)) -> LaneAccess {
    let (step, lane, kind) = row;
    LaneAccess { step, lane, kind }
}

#[test]
fn races(rt: HostRuntime) -> Result<(), Fail> {
    let alloc = rt.alloc();
    for (number, (steps, rows)) in RUNS.iter().enumerate() {
        let mut book = RaceBook::begin(alloc, &[3, 2], &[Space::Workgroup, Space::Storage])?;
        for (step, told) in steps.iter().enumerate() {
            tell(&rt, &mut book, step as u64, *told);
        }
        let races = book.races(alloc)?;
        assert_eq!(rt; races.len(), rows.len(), "{number}");
        for (race, row) in races.as_slice().iter().zip(rows.iter()) {
            assert!(rt; is_race(*race, *row), "{number}");
        }
    }
    Ok(())
}

//! Sums over chains of calls.

ghost use Rattle.std.specs.Prelude.{◌≡◌, ◌<◌, ◌≤◌, ℕ, All, IfOk, Some, length, map, slice_get, slice_index_or};
ghost use Rattle.shade_core.specs.Views.{ValueTypes};
ghost use Rattle.shade_core.specs.declared.module.CoreModule.{CoreModule as AnyModule};
ghost use Rattle.shade_chains.specs.Orders.{IsOrder};
ghost use Rattle.shade_chains.specs.Tops.{CalleesStand, HasEvents, IsTop, Sums, cap as cap_of, event_part, frame as frame_of, greater as greater_of, last_part as last_part_of, meeting_part as meeting_part_of, own_part as own_part_of, summed as summed_of, top_at as top_in, top_by as top_by_of};

use crate::events::{Event, Events};
use std::alloc::{AllocError, Global};

/// What is summed up over a chain of calls.
#[derive(Clone, Copy, Debug, PartialEq, Eq)]
pub enum Measure {
    /// The bytes that a lane keeps.
    Bytes,
    /// The functions of a chain.
    Depth,
    /// The words of an instance of a barrier.
    Words,
}

/// By function, the greatest sum over the chains that begin there, if there is one.
pub type Tops = Vec<Option<u64>>;

fn cap(measure: Measure) -> u64
    ensures { result ≡ cap_of measure }
{
    match measure {
        Measure::Bytes => 4_294_967_295,
        Measure::Depth | Measure::Words => 255,
    }
}

fn frame(loops: u32) -> u64
    ensures { result ≡ frame_of loops }
{
    (3 + u64::from(loops)).min(255)
}

fn own_part(measure: Measure, bytes: u32, loops: u32) -> u64
    ensures { result ≡ own_part_of measure bytes loops }
{
    match measure {
        Measure::Bytes => u64::from(bytes),
        Measure::Depth => 1,
        Measure::Words => frame(loops),
    }
}

fn last_part(measure: Measure, bytes: u32) -> Option<u64>
    ensures { result ≡ last_part_of measure bytes }
{
    match measure {
        Measure::Bytes => Some(u64::from(bytes)),
        Measure::Depth => Some(1),
        Measure::Words => None,
    }
}

fn meeting_part(measure: Measure, loops: u32) -> Option<u64>
    ensures { result ≡ meeting_part_of measure loops }
{
    match measure {
        Measure::Bytes | Measure::Depth => None,
        Measure::Words => Some(frame(loops)),
    }
}

fn summed(most: u64, own: u64, rest: Option<u64>) -> Option<u64>
    ensures { result ≡ summed_of most own rest }
{
    match rest {
        None => None,
        Some(rest) => Some(most.min(own.saturating_add(rest))),
    }
}

pub(crate) fn top_at(tops: &[Option<u64>], number: u32) -> Option<u64>
    ensures { result ≡ top_in tops.now number }
{
    match tops.get(number as usize) {
        Some(top) => *top,
        None => None,
    }
}

fn part_of(measure: Measure, bytes: u32, tops: &[Option<u64>], event: Event) -> Option<u64>
    ensures { result ≡ event_part measure bytes tops.now event }
{
    match event.callee {
        None => meeting_part(measure, event.loops),
        Some(callee) => summed(
            cap(measure),
            own_part(measure, bytes, event.loops),
            top_at(tops, callee),
        ),
    }
}

fn greater(a: Option<u64>, b: Option<u64>) -> Option<u64>
    ensures { result ≡ greater_of a b }
{
    match (a, b) {
        (None, _) => b,
        (Some(_), None) => a,
        (Some(x), Some(y)) => Some(x.max(y)),
    }
}

fn top_by(measure: Measure, bytes: u32, tops: &[Option<u64>], row: &[Event]) -> Option<u64>
    ensures { result ≡ top_by_of measure bytes tops.now row.now }
{
    let mut best = last_part(measure, bytes);
    'events: for event in row {
        best = greater(best, part_of(measure, bytes, tops, *event));
    }
    best
}

/// The greatest sum of each function over the chains of calls that begin there, from an order in which each function stands
/// behind those that it calls.
pub fn tops_of(
    alloc: Global,
    measure: Measure,
    bytes: &[u32],
    rows: &[Events],
    order: &[u32],
) -> Result<Tops, AllocError>
    requires long { length bytes.now ≡ length rows.now }
    requires ordered { IsOrder (map (λ r. r.items) rows.now) order.now }
    requires stand { CalleesStand (map (λ r. r.items) rows.now) }
    ensures { IfOk result (λ tops. (shader : AnyModule) (values : ℕ → ValueTypes) → HasEvents shader values bytes.now (map (λ r. r.items) rows.now) → (k : ℕ) → k < length rows.now → IsTop (cap_of measure) (Sums measure shader values k) (top_in tops.items k)) }
{
    let mut tops = vec![in alloc; None; rows.len()]?;
    'functions: for number in order {
        let place = *number as usize;
        let top = top_by(measure, bytes[place], &tops, &rows[place]);
        tops[place] = top;
    }
    Ok(tops)
}

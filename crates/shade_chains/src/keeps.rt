//! The limits of chains of calls.

ghost use Rattle.std.specs.Prelude.{◌≡◌, ◌<◌, ◌^◌, ◌↔◌, ℕ, IfNone, IfOk, IfSome, IsSome, IsTrue, Some, length, map};
ghost use Rattle.std.specs.List.{list_all};
ghost use Rattle.shade_core.specs.Limits.{AtMost};
ghost use Rattle.shade_core.specs.Views.{ValueTypes};
ghost use Rattle.shade_chains.specs.Orders.{IsOrder};
ghost use Rattle.shade_chains.specs.Keeps.{CallsStand, EntriesKeep, HasBytes, MakeNoCycle, stands_below};
ghost use Rattle.shade_chains.specs.Tops.{CalleesStand, Sums, cap as cap_of, rows_in};

use crate::chains::{Measure, top_at, tops_of};
use crate::events::{Event, Events, events_of};
use crate::order::order_of;
use shade_core::{CoreFunction, CoreModule};
use std::alloc::{AllocError, Global};

/// The greatest number of bytes of a lane.
pub const MOST_LANE_BYTES: u64 = 262_144;
/// The greatest number of functions of a chain of calls.
pub const MOST_DEPTH: u64 = 32;
/// The greatest number of words of an instance.
pub const MOST_WORDS: u64 = 128;

/// The events of each function.
pub fn rows_of(alloc: Global, functions: &[CoreFunction]) -> Result<Vec<Events>, AllocError>
    ensures { IfOk result (λ rows. map (λ r. r.items) rows.items ≡ rows_in functions.now) }
{
    let mut rows = Vec::new(alloc);
    'functions: for function in functions {
        rows.push(events_of(alloc, &function.body)?)?;
    }
    Ok(rows)
}

/// Whether no entry has a greater sum.
fn entries_keep(functions: &[CoreFunction], tops: &[Option<u64>], most: u64) -> bool
    requires { length functions.now < 2 ^ 32 }
    ensures { IsTrue result ↔ EntriesKeep functions.now tops.now most }
{
    let mut number: u32 = 0;
    'functions: for function in functions {
        if exceeds(function, top_at(tops, number), most) {
            return false;
        }
        number += 1;
    }
    true
}

/// Whether a function is an entry of a greater sum.
fn exceeds(function: &CoreFunction, top: Option<u64>, most: u64) -> bool
    ensures { IsTrue result ↔ (IsSome function.now.entry × ((best : ℕ) × (top ≡ Some best) × (most < best))) }
{
    function.entry.is_some() && is_above(top, most)
}

fn is_above(top: Option<u64>, most: u64) -> bool
    ensures { IsTrue result ↔ ((best : ℕ) × (top ≡ Some best) × (most < best)) }
{
    match top {
        None => false,
        Some(best) => best > most,
    }
}

/// The bytes that each function of a module keeps and its events, and an order of its functions.
#[derive(Clone, Copy)]
pub struct Calls<'c> {
    pub bytes: &'c [u32],
    pub rows: &'c [Events],
    pub order: &'c [u32],
}

/// Whether no chain of calls from an entry adds up to more than a limit, for one sum, where each function keeps so many bytes.
pub fn keeps_measure(
    alloc: Global,
    module: &CoreModule,
    calls: Calls,
    measure: Measure,
    most: u64,
) -> Result<bool, AllocError>
    requires few { length module.now.functions < 2 ^ 32 }
    requires small { most < cap_of measure }
    requires long { length calls.bytes.now ≡ length calls.rows.now }
    requires events { map (λ r. r.items) calls.rows.now ≡ rows_in module.now.functions }
    requires ordered { IsOrder (map (λ r. r.items) calls.rows.now) calls.order.now }
    requires stand { CallsStand module.now }
    ensures { IfOk result (λ b. (values : ℕ → ValueTypes) → HasBytes module.now values calls.entry.bytes.now → IsTrue b ↔ AtMost module.now (Sums measure module.now values) most) }
{
    let tops = tops_of(alloc, measure, calls.bytes, calls.rows, calls.order)?;
    Ok(entries_keep(module.functions.as_slice(), &tops, most))
}

/// An order of the functions of a module, each behind those that it calls. None is exactly where calls make a cycle.
pub fn order_of_calls(
    alloc: Global,
    module: &CoreModule,
    rows: &[Events],
) -> Result<Option<Vec<u32>>, AllocError>
    requires few { length module.now.functions < 2 ^ 32 }
    requires events { map (λ r. r.items) rows.now ≡ rows_in module.now.functions }
    ensures cyclic { IfOk result (λ found. IfNone found (¬ MakeNoCycle module.now)) }
    ensures acyclic { IfOk result (λ found. IfSome found (λ order. MakeNoCycle module.now)) }
    ensures ordered { IfOk result (λ found. IfSome found (λ order. IsOrder (map (λ r. r.items) rows.now) order.items)) }
{
    order_of(alloc, rows)
}

fn stands(count: usize, event: Event) -> bool
    ensures { result ≡ stands_below count event }
{
    match event.callee {
        None => true,
        Some(callee) => (callee as usize) < count,
    }
}

fn row_stands(count: usize, row: &[Event]) -> bool
    ensures { result ≡ list_all (stands_below count) row.now }
{
    row.iter().all(|event| stands(count, *event))
}

fn rows_stand(rows: &[Events]) -> bool
    ensures { IsTrue result ↔ CalleesStand (map (λ r. r.items) rows.now) }
{
    'rows: for row in rows {
        if !row_stands(rows.len(), row) {
            return false;
        }
    }
    true
}

/// Whether each call of a module is of a function that is there.
pub fn calls_stand(alloc: Global, module: &CoreModule) -> Result<bool, AllocError>
    ensures { IfOk result (λ b. IsTrue b ↔ CallsStand module.now) }
{
    let rows = rows_of(alloc, module.functions.as_slice())?;
    Ok(rows_stand(&rows))
}

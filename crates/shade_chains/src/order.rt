//! An order of functions in which each stands behind those that it calls.

ghost use Rattle.std.specs.Prelude.{◌≡◌, ◌<◌, ◌^◌, ◌+◌, ◌++◌, ◌∷◌, [], ℕ, All, IfOk, OnOk, false, Some, length, map, replicate, set, slice_get, true};
ghost use Rattle.std.specs.Option.{MatchOption};
ghost use Rattle.shade_chains.specs.Orders.{IsAcyclic, IsOrder, IsPlacing, IsRound, IsReady, event_placed, row_placed};

use crate::events::{Event, Events};
use std::alloc::{AllocError, Global};

/// Whether the function that an event calls is placed, or is not there.
fn is_placed(placed: &[bool], event: Event) -> bool
    ensures { result ≡ event_placed placed.now event }
{
    match event.callee {
        None => true,
        Some(callee) => match placed.get(callee as usize) {
            Some(stands) => *stands,
            None => true,
        },
    }
}

/// Whether all functions that a row calls are placed.
fn are_placed(placed: &[bool], row: &[Event]) -> bool
    ensures { result ≡ row_placed placed.now row.now }
{
    row.iter().all(|event| is_placed(placed, *event))
}

/// Puts a function, whose callees are placed, behind them.
fn place(
    rows: &[Events],
    order: &mut Vec<u32>,
    placed: &mut Vec<bool>,
    number: u32,
) -> Result<(), AllocError>
    requires before { IsPlacing (map (λ r. r.items) rows.now) order.old.items placed.old.items }
    requires known { number < length rows.now }
    requires ready { IsReady (map (λ r. r.items) rows.now) placed.old.items number }
    ensures after { OnOk result (IsPlacing (map (λ r. r.items) rows.now) order.new.items placed.new.items) }
    ensures placed { OnOk result (placed.new.items ≡ set placed.old.items number true) }
    ensures one { OnOk result (length order.new.items ≡ length order.old.items + 1) }
{
    placed[number as usize] = true;
    order.push(number)?;
    Ok(())
}

/// Places those functions of a list whose callees are placed, and gives the others.
fn next_round(
    alloc: Global,
    rows: &[Events],
    order: &mut Vec<u32>,
    placed: &mut Vec<bool>,
    waiting: &[u32],
) -> Result<Vec<u32>, AllocError>
    requires before { IsPlacing (map (λ r. r.items) rows.now) order.old.items placed.old.items }
    requires known { All (λ k. k < length rows.now) waiting.now }
    ensures after { OnOk result (IsPlacing (map (λ r. r.items) rows.now) order.new.items placed.new.items) }
    ensures each { IfOk result (λ next. length order.new.items + length next.items ≡ length order.old.items + length waiting.now) }
    ensures round { IfOk result (λ next. IsRound (map (λ r. r.items) rows.now) placed.old.items placed.new.items waiting.now next.items) }
{
    let mut next = Vec::new(alloc);
    'waiting: for number in waiting {
        if are_placed(placed, &rows[*number as usize]) {
            place(rows, order, placed, *number)?;
        } else {
            next.push(*number)?;
        }
    }
    Ok(next)
}

fn none_placed(alloc: Global, count: usize) -> Result<Vec<bool>, AllocError>
    ensures { IfOk result (λ placed. placed.items ≡ replicate count false) }
{
    let placed = vec![in alloc; false; count]?;
    Ok(placed)
}

fn all_numbers(alloc: Global, count: u32) -> Result<Vec<u32>, AllocError>
    ensures long { IfOk result (λ numbers. length numbers.items ≡ count) }
    ensures each { IfOk result (λ numbers. (k : ℕ) → k < count → slice_get numbers.items k ≡ Some k) }
{
    let mut numbers = Vec::new(alloc);
    for number in 0..count {
        numbers.push(number)?;
    }
    Ok(numbers)
}

/// An order of functions in which each stands behind those that it calls, by the events of each. None is where calls make a cycle.
///
/// Takes a round for each function of the longest chain of calls, over the functions that are not placed yet.
pub fn order_of(alloc: Global, rows: &[Events]) -> Result<Option<Vec<u32>>, AllocError>
    requires { length rows.now < 2 ^ 32 }
    ensures { IfOk result (λ found. MatchOption found (¬ IsAcyclic (map (λ r. r.items) rows.now)) (λ order. IsOrder (map (λ r. r.items) rows.now) order.items)) }
{
    let count = rows.len();
    let mut order = Vec::new(alloc);
    let mut placed = none_placed(alloc, count)?;
    let mut waiting = all_numbers(alloc, count as u32)?;
    'rounds: while !waiting.is_empty() {
        let next = next_round(alloc, rows, &mut order, &mut placed, &waiting)?;
        if next.len() == waiting.len() {
            return Ok(None);
        }
        waiting = next;
    }
    Ok(Some(order))
}

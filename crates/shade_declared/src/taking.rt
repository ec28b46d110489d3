//! The order in which the declarations of a module are taken.

ghost use Rattle.std.specs.Prelude.{◌≡◌, ◌++◌, OnOk, IfOk, [], true, false, get_or, map, replicate, reverse};
ghost use Rattle.shade_declared.specs.Order.{IsOrder, numbers};
ghost use Rattle.shade_declared.specs.Turns.{first_turns, marks_after, taken_by, turns_after, with_mark};
ghost use Rattle.shade_declared.specs.declared.taking.Turn.TheVariants.{Begin};

use sqlite_items::Items;
use std::alloc::{AllocError, Global};

/// What is to be done with a declaration, by its number.
#[derive(Clone, Copy, Debug, PartialEq, Eq)]
pub enum Turn {
    /// It is begun: those that it names are taken, and then it.
    Begin(usize),
    /// Those that it names were taken, and it is taken.
    Take(usize),
}

fn all_false(alloc: Global, count: usize) -> Result<Vec<bool>, AllocError>
    ensures { IfOk result (λ v. v.items ≡ replicate count false) }
{
    let mut made = Vec::with_capacity(alloc, count)?;
    for _number in 0..count {
        made.push(false)?;
    }
    Ok(made)
}

fn all_numbers(alloc: Global, count: usize) -> Result<Vec<usize>, AllocError>
    ensures { IfOk result (λ v. v.items ≡ numbers count) }
{
    let mut made = Vec::with_capacity(alloc, count)?;
    for number in 0..count {
        made.push(number)?;
    }
    Ok(made)
}

/// Puts some declarations in front of the turns, which end with the first.
fn begin_all(turns: &mut Vec<Turn>, wanted: &[usize]) -> Result<(), AllocError>
    ensures { OnOk result (reverse turns.new.items ≡ map Begin wanted.now ++ reverse turns.old.items) }
{
    for i in 0..wanted.len() {
        turns.push(Turn::Begin(wanted[wanted.len() - 1 - i]))?;
    }
    Ok(())
}

/// Begins a declaration, where it is not begun.
fn begin(
    named: &[Items<usize>],
    begun: &mut Vec<bool>,
    turns: &mut Vec<Turn>,
    number: usize,
) -> Result<(), AllocError>
    ensures marks { OnOk result (begun.new.items ≡ with_mark begun.old.items number) }
    ensures turns { OnOk result (reverse turns.new.items ≡ first_turns named.now begun.old.items number ++ reverse turns.old.items) }
{
    if is_begun(begun, number) {
        return Ok(());
    }
    begun[number] = true;
    turns.push(Turn::Take(number))?;
    begin_all(turns, names_of(named, number))
}

/// Whether a declaration is begun; one that is not there counts as begun.
fn is_begun(begun: &[bool], number: usize) -> bool
    ensures { result ≡ get_or begun.now number true }
{
    match begun.get(number) {
        Some(mark) => *mark,
        None => true,
    }
}

fn names_of(named: &[Items<usize>], number: usize) -> &[usize]
    ensures { result.now ≡ get_or named.now number [] }
{
    match named.get(number) {
        Some(names) => names.as_slice(),
        None => &[],
    }
}

/// Does what is next to be done.
fn take_turn(
    named: &[Items<usize>],
    begun: &mut Vec<bool>,
    turns: &mut Vec<Turn>,
    order: &mut Vec<usize>,
    turn: Turn,
) -> Result<(), AllocError>
    ensures marks { OnOk result (begun.new.items ≡ marks_after turn begun.old.items) }
    ensures turns { OnOk result (reverse turns.new.items ≡ turns_after named.now turn begun.old.items ++ reverse turns.old.items) }
    ensures order { OnOk result (order.new.items ≡ order.old.items ++ taken_by turn) }
{
    match turn {
        Turn::Begin(number) => begin(named, begun, turns, number),
        Turn::Take(number) => Ok(order.push(number)?),
    }
}

/// Gives the order in which declarations are taken, of each of which `named` has those that it names, in order of naming, by their
/// numbers: in order of their numbers, each behind those that it names and that were not taken yet. A number of no declaration is
/// passed over.
///
/// Takes time and memory in the order of what is named.
pub fn order(alloc: Global, named: &[Items<usize>]) -> Result<Vec<usize>, AllocError>
    ensures { IfOk result (λ v. IsOrder named.now v.items) }
{
    let mut begun = all_false(alloc, named.len())?;
    let all = all_numbers(alloc, named.len())?;
    let mut turns = Vec::new(alloc);
    begin_all(&mut turns, &all)?;
    let mut order = Vec::new(alloc);
    'turns: while let Some(turn) = turns.pop() {
        take_turn(named, &mut begun, &mut turns, &mut order, turn)?;
    }
    Ok(order)
}

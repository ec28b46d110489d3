//! Aliases among the arguments of calls.

ghost use Rattle.std.specs.Prelude.{◌≡◌, ◌<◌, ◌^◌, Some, length, slice_get};
ghost use Rattle.shade_core.specs.declared.statement.Argument.TheVariants.{Pointer};
ghost use Rattle.shade_rules.specs.Scans.{IsFirstAmong, IsFirstFor, IsFirstLater, Known, conflicts, is_alias as is_alias_of, is_later as is_later_of, own_variable as own_variable_of, same_base as same_base_of, touches as touches_in};
ghost use Rattle.shade_rules.specs.declared.aliasing.AliasFault.TheVariants.{NoMemory};

use crate::usage::{Row, Seen, UsageKind};
use shade_base::Place;
use shade_core::{Argument, Base, View};
use std::alloc::AllocError;
use thiserror::Error;

/// What an argument is an alias of.
#[derive(Clone, Copy, Debug, PartialEq, Eq)]
pub enum AliasOther {
    /// The later argument with this number.
    Argument(u32),
    /// The variable of the module with this number.
    Variable(u32),
}

/// An alias of a call: an argument, and what it is an alias of.
#[derive(Clone, Copy, Debug, PartialEq, Eq)]
pub struct AliasPair {
    pub first: u32,
    pub second: AliasOther,
}

/// Why a call is refused.
#[derive(Clone, Copy, Debug, PartialEq, Eq, Error)]
pub enum AliasFault {
    #[error("the callee writes through an argument what it also uses by another way")]
    Alias {
        place: Place,
        first: u32,
        second: AliasOther,
    },
    #[error("no memory")]
    NoMemory,
}

impl From<AllocError> for AliasFault {
    ghost from_gives = { λ _ e. e ≡ NoMemory };

    fn from(_: AllocError) -> AliasFault {
        AliasFault::NoMemory
    }
}

fn same_base(one: Base, other: Base) -> bool
    ensures { result ≡ same_base_of one other }
{
    match (one, other) {
        (Base::Local(x), Base::Local(y)) => x == y,
        (Base::Module(r), Base::Module(s)) => r == s,
        (Base::Pointee(i), Base::Pointee(j)) => i == j,
        _ => false,
    }
}

fn touches(row: &Row, seen: Seen) -> bool
    ensures { result ≡ touches_in row.now seen }
{
    row.has(UsageKind::Read, seen) || row.has(UsageKind::Write, seen)
}

/// Whether of two things one is written and the other read or written.
fn conflict(row: &Row, one: Seen, two: Seen) -> bool
    ensures { result ≡ conflicts row.now one two }
{
    (row.has(UsageKind::Write, one) && touches(row, two))
        || (touches(row, one) && row.has(UsageKind::Write, two))
}

/// Whether an argument begins at a variable, and the callee conflicts on it and the parameter with a number.
fn is_alias(row: &Row, number: u32, base: Base, at: u32, arg: &Argument) -> bool
    ensures { result ≡ is_alias_of row.now number base at arg.now }
{
    match arg {
        Argument::Pointer(view) => {
            same_base(base, view.base)
                && conflict(row, Seen::Parameter(number), Seen::Parameter(at))
        }
        Argument::Plain(_) => false,
    }
}

/// Whether it is a later argument too.
fn is_later(row: &Row, number: u32, base: Base, at: u32, arg: &Argument) -> bool
    ensures { result ≡ is_later_of row.now number base at arg.now }
{
    at > number && is_alias(row, number, base, at, arg)
}

/// The first later argument that is an alias of one that begins at a variable.
fn first_later(row: &Row, args: &[Argument], number: u32, base: Base) -> Option<u32>
    requires { length args.now < 2 ^ 32 }
    ensures { IsFirstLater row.now args.now number base result }
{
    let mut at = 0;
    'arguments: for arg in args {
        if is_later(row, number, base, at, arg) {
            return Some(at);
        }
        at += 1;
    }
    None
}

/// The variable of the module that an argument begins at, where the callee conflicts on the two.
fn own_variable(row: &Row, number: u32, base: Base) -> Option<AliasOther>
    ensures { result ≡ own_variable_of row.now number base }
{
    match base {
        Base::Module(root) => {
            if conflict(row, Seen::Parameter(number), Seen::Variable(root)) {
                return Some(AliasOther::Variable(root));
            }
            None
        }
        Base::Local(_) | Base::Pointee(_) => None,
    }
}

/// The first alias of an argument that is a pointer.
fn first_for(row: &Row, args: &[Argument], number: u32, view: &View) -> Option<AliasOther>
    requires few { length args.now < 2 ^ 32 }
    requires here { slice_get args.now number ≡ Some (Pointer view.now) }
    ensures { IsFirstFor row.now args.now number result }
{
    match first_later(row, args, number, view.base) {
        Some(later) => Some(AliasOther::Argument(later)),
        None => own_variable(row, number, view.base),
    }
}

/// The first alias of an argument.
fn first_of(row: &Row, args: &[Argument], number: u32, arg: &Argument) -> Option<AliasOther>
    requires few { length args.now < 2 ^ 32 }
    requires here { slice_get args.now number ≡ Some arg.now }
    ensures { IsFirstFor row.now args.now number result }
{
    match arg {
        Argument::Pointer(view) => first_for(row, args, number, view),
        Argument::Plain(_) => None,
    }
}

/// The first alias of a call, by what its callee uses.
pub fn first_alias(row: &Row, args: &[Argument]) -> Option<AliasPair>
    requires { length args.now < 2 ^ 32 }
    ensures { IsFirstAmong (Known row.now) args.now result }
{
    let mut first = 0;
    'arguments: for arg in args {
        if let Some(second) = first_of(row, args, first, arg) {
            return Some(AliasPair { first, second });
        }
        first += 1;
    }
    None
}

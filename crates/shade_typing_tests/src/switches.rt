//! What a `switch` tells of its selector, its case values and its defaults, and which calls may stand as statements.

ghost use Rattle.std.specs.Prelude.{IfOk};
ghost use Rattle.shade_values.specs.Table.{Table};
ghost use Rattle.shade_known.specs.Keeps.{IsFoundOf};

use crate::reading::place;
use shade_evaluate::ConstFault;
use shade_known::{Found, Known, Operand, TypeRule, TypingFault, What, keep, nothing_known};
use shade_overload::Builtin;
use shade_switches::{chosen, dropped, selects, with_case, with_default};
use shade_values::{Leaf, Scalar, ShadeType, Value};
use sqlite_items::Items;
use std::alloc::Global;
use std::test::Fail;

const I: Scalar = Scalar::I32;

const U: Scalar = Scalar::U32;

const B: Scalar = Scalar::Bool;

const A: Scalar = Scalar::Abstract;

/// A number that no scalar has but AbstractInt.
const BIG: i64 = 5_000_000_000;

/// The node of the `switch`, which stands there too.
const SWITCH: u32 = 9;

/// A selector or a case value, constant or not, or a default.
#[derive(Clone, Copy, Drop)]
enum Part {
    One(Scalar, i64),
    Any(Scalar),
    Default,
}

/// What is told, and where.
#[derive(Clone, Copy, Debug, PartialEq, Eq, Drop)]
enum Want {
    Fine,
    /// The rule of switches.
    Refused(u32),
    NotConstant(u32),
    Overflow(u32),
    /// The rule of calls.
    Dropped(u32),
    /// None of these.
    Other,
}

fn told(answer: Result<(), TypingFault>) -> Want {
    match answer {
        Ok(()) => Want::Fine,
        Err(TypingFault::Rule { place, rule }) => match rule {
            TypeRule::Switch => Want::Refused(place.offset),
            TypeRule::Call => Want::Dropped(place.offset),
            _ => Want::Other,
        },
        Err(TypingFault::Constant(ConstFault::NotConstant(place))) => {
            Want::NotConstant(place.offset)
        }
        Err(TypingFault::Constant(ConstFault::Overflow(place))) => Want::Overflow(place.offset),
        Err(_) => Want::Other,
    }
}

fn operand(node: u32) -> Operand {
    Operand {
        node,
        place: place(node),
    }
}

/// Makes a node a value.
fn put(
    known: &mut Known,
    node: u32,
    scalar: Scalar,
    number: Option<i64>,
) -> Result<(), TypingFault> {
    let value = match number {
        Some(number) => Some(Value::One(Leaf { scalar, number })),
        None => None,
    };
    let found = Found::Value {
        ty: ShadeType::Plain(scalar),
        op: None,
        value,
    };
    keep(known, node, place(node), found)
}

/// Makes a node a value, if the part is one.
fn put_part(known: &mut Known, node: u32, part: Part) -> Result<(), TypingFault> {
    match part {
        Part::One(scalar, number) => put(known, node, scalar, Some(number)),
        Part::Any(scalar) => put(known, node, scalar, None),
        Part::Default => Ok(()),
    }
}

fn clause_found(alloc: Global, known: &Known, node: u32, part: Part) -> Result<Found, TypingFault>
    ensures { IfOk result (λ f. IsFoundOf known.now.types f) }
{
    match part {
        Part::Default => with_default(alloc, known, SWITCH),
        _ => with_case(alloc, known, SWITCH, operand(node)),
    }
}

fn clause(alloc: Global, known: &mut Known, node: u32, part: Part) -> Result<(), TypingFault> {
    put_part(known, node, part)?;
    let found = clause_found(alloc, known, node, part)?;
    keep(known, SWITCH, place(node), found)
}

/// A `switch` with the selector at 0 and its clauses at 1, 2 and so on.
fn judged(alloc: Global, selector: Part, clauses: &[Part]) -> Result<(), TypingFault> {
    let mut known = nothing_known(alloc, 10)?;
    put_part(&mut known, 0, selector)?;
    let found = selects(alloc, &known, operand(0))?;
    keep(&mut known, SWITCH, place(SWITCH), found)?;
    let mut node = 0u32;
    for part in clauses {
        node = node.wrapping_add(1);
        clause(alloc, &mut known, node, *part)?;
    }
    match chosen(&known, SWITCH, place(SWITCH)) {
        Ok(_) => Ok(()),
        Err(fault) => Err(fault),
    }
}

/// The selector, the case values and defaults, and what is told.
const SWITCHES: &[(Part, &[Part], Want)] = &[
    (Part::Any(I), &[Part::Default], Want::Fine),
    (
        Part::Any(U),
        &[Part::One(U, 1), Part::One(A, 2), Part::Default],
        Want::Fine,
    ),
    (
        Part::One(A, 1),
        &[Part::One(I, -1), Part::Default],
        Want::Fine,
    ),
    (
        Part::One(A, 1),
        &[Part::One(U, 1), Part::Default],
        Want::Refused(1),
    ),
    (Part::One(A, BIG), &[Part::Default], Want::Overflow(0)),
    (Part::Any(B), &[Part::Default], Want::Refused(0)),
    (Part::Default, &[Part::Default], Want::Refused(0)),
    (
        Part::Any(I),
        &[Part::Any(U), Part::Default],
        Want::Refused(1),
    ),
    (
        Part::Any(I),
        &[Part::Any(I), Part::Default],
        Want::NotConstant(1),
    ),
    (
        Part::Any(U),
        &[Part::Default, Part::One(A, -1)],
        Want::Overflow(2),
    ),
    (
        Part::Any(I),
        &[Part::One(I, 7), Part::Default, Part::One(A, 7)],
        Want::Refused(3),
    ),
    (Part::Any(I), &[Part::One(I, 7)], Want::Refused(SWITCH)),
    (
        Part::Any(I),
        &[Part::Default, Part::Default],
        Want::Refused(SWITCH),
    ),
];

#[test]
fn switches(rt: HostRuntime) -> Result<(), Fail> {
    let alloc = rt.alloc();
    for (selector, clauses, want) in SWITCHES {
        assert_eq!(rt; told(judged(alloc, *selector, clauses)), *want);
    }
    Ok(())
}

/// What is called: a built-in function, or a function of the text, which may be `@must_use`.
#[derive(Clone, Copy, Drop)]
enum Callee {
    Builtin(Builtin),
    Function(bool),
    Type,
}

fn what_of(alloc: Global, called: Callee) -> Found
    ensures { (t : Table) → IsFoundOf t result }
{
    match called {
        Callee::Builtin(builtin) => Found::Known(What::Builtin(builtin)),
        Callee::Function(must_use) => Found::Known(What::Function {
            parameters: Items::new(alloc),
            result: None,
            must_use,
            entry: false,
        }),
        Callee::Type => Found::Type {
            ty: ShadeType::Plain(U),
            bad_access: false,
        },
    }
}

/// A call of node 1, which has a result or none, as a statement at 2.
fn alone(alloc: Global, called: Callee, has_result: bool) -> Result<(), TypingFault> {
    let mut known = nothing_known(alloc, 3)?;
    keep(&mut known, 1, place(1), what_of(alloc, called))?;
    if has_result {
        put(&mut known, 2, U, None)?;
    }
    match dropped(&known, operand(2), operand(1)) {
        Ok(_) => Ok(()),
        Err(fault) => Err(fault),
    }
}

/// What is called, whether it has a result, and what is told.
const CALLS: &[(Callee, bool, Want)] = &[
    (
        Callee::Builtin(Builtin::WorkgroupBarrier),
        false,
        Want::Fine,
    ),
    (Callee::Builtin(Builtin::AtomicAdd), true, Want::Fine),
    (Callee::Builtin(Builtin::Min), true, Want::Dropped(2)),
    (
        Callee::Builtin(Builtin::WorkgroupUniformLoad),
        true,
        Want::Dropped(2),
    ),
    (Callee::Function(false), true, Want::Fine),
    (Callee::Function(true), true, Want::Dropped(2)),
    (Callee::Function(true), false, Want::Fine),
    (Callee::Type, true, Want::Dropped(2)),
];

#[test]
fn calls(rt: HostRuntime) -> Result<(), Fail> {
    let alloc = rt.alloc();
    for (called, has_result, want) in CALLS {
        assert_eq!(rt; told(alone(alloc, *called, *has_result)), *want);
    }
    Ok(())
}

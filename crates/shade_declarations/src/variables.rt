//! What a `var` declares.

ghost use Rattle.std.specs.Prelude.{◌≡◌, Err, IfOk, map, slice_get};
ghost use Rattle.std.specs.Option.{option_copied};
ghost use Rattle.shade_values.specs.Shape.{shape_of, shapes};
ghost use Rattle.shade_shape.specs.Facts.{fact_in, facts_of};
ghost use Rattle.shade_known.specs.Answers.{Answers};
ghost use Rattle.shade_known.specs.Keeps.{IsFoundOf};
ghost use Rattle.shade_declarations.specs.Spaces.{suits};
ghost use Rattle.shade_declarations.specs.Variables.{access_in, begins, broken_rule, Converted, fault_by, is_private, IsVariable, judged, memory_found, memory_of, no_constant, not_constant, OfType, space_in, Typed, unless_broken, unless_constant};

use crate::spaces::{granted, keeps_space, space_of, suits_by, written_access};
use crate::types::breaks;
use shade_ast::Names;
use shade_base::Place;
use shade_evaluate::ConstFault;
use shade_known::{
    Found, Known, Operand, Part, TypeRule, TypingFault, converted, type_by_id, value_at,
};
use shade_shape::TypeFacts;
use shade_steps::{Level, VarParts};
use shade_values::{Access, ShadeType, Space, TypeId, Value};
use std::alloc::Global;

fn space_in(known: &Known, var: &VarParts) -> Option<Space>
    ensures { result ≡ space_in known.now var.now }
{
    space_of(known, var.level, var.space)
}

fn access_in(known: &Known, var: &VarParts) -> Access
    ensures { result ≡ access_in known.now var.now }
{
    granted(space_in(known, var), written_access(known, var.access))
}

// ---- what the variable begins with

fn begins(level: Level, value: Option<Value>) -> Option<Value>
    ensures { result ≡ begins level value }
{
    match level {
        Level::Module => value,
        Level::Function => None,
    }
}

fn memory_found(space: Option<Space>, access: Access, ty: ShadeType, value: Option<Value>) -> Found
    ensures { result ≡ memory_found space access ty value }
{
    match space {
        Some(space) => Found::Reference {
            ty,
            space,
            access,
            part: Part::Whole,
            value,
        },
        None => Found::Nothing,
    }
}

fn memory_of(known: &Known, var: &VarParts, ty: ShadeType, constant: Option<Value>) -> Found
    ensures { result ≡ memory_of known.now var.now ty constant }
{
    memory_found(
        space_in(known, var),
        access_in(known, var),
        ty,
        begins(var.level, constant),
    )
}

// ---- rules

/// What is kept of the type with an id, and what holds of a pointer where none has it.
fn fact_at(facts: &[TypeFacts], id: TypeId) -> TypeFacts
    ensures { result ≡ fact_in facts.now id }
{
    match facts.get(id.0 as usize) {
        Some(fact) => *fact,
        None => OF_POINTER,
    }
}

/// No shader holds a pointer.
const OF_POINTER: TypeFacts = TypeFacts {
    plain: false,
    loadable: false,
    endless: false,
    buffer: false,
    holds_bool: false,
    holds_atomic: false,
};

fn suits(known: &Known, facts: &[TypeFacts], var: &VarParts, of: (TypeId, ShadeType)) -> bool
    requires { facts.now ≡ map facts_of (shapes known.now.types) }
    ensures { result ≡ suits (space_in known.now var.now) (access_in known.now var.now) of.1 (shape_of known.now.types of.0) }
{
    let fact = fact_at(facts, of.0);
    let space = space_in(known, var);
    let access = access_in(known, var);
    suits_by(space, access, of.1, fact.holds_bool, fact.holds_atomic)
}

/// The first rule that the type and the space of a variable break.
fn broken_rule(
    known: &Known,
    facts: &[TypeFacts],
    names: &Names,
    var: &VarParts,
    of: (TypeId, ShadeType),
) -> Option<TypeRule>
    requires { facts.now ≡ map facts_of (shapes known.now.types) }
    ensures { result ≡ broken_rule known.now names.now var.now of.0 of.1 }
{
    if !suits(known, facts, var, of) {
        return Some(TypeRule::Stored);
    }
    if !keeps_space(known, names, var) {
        return Some(TypeRule::Space);
    }
    None
}

/// A rule that a variable breaks, which lets go of its value.
fn refuse<H: Drop>(place: Place, broken: TypeRule, held: H) -> Result<Found, TypingFault>
    ensures { result ≡ Err (TypingFault.Rule place broken) }
{
    Err(breaks(place, broken))
}

fn unless_broken(
    broken: Option<TypeRule>,
    place: Place,
    answer: Result<Found, TypingFault>,
) -> Result<Found, TypingFault>
    ensures { result ≡ unless_broken broken place answer }
{
    match broken {
        Some(broken) => refuse(place, broken, answer),
        None => answer,
    }
}

fn fault_by(
    broken: Option<TypeRule>,
    place: Place,
    fault: TypingFault,
) -> Result<Found, TypingFault>
    ensures { result ≡ fault_by broken place fault }
{
    match fault {
        TypingFault::Rule { place, rule } => Err(breaks(place, rule)),
        TypingFault::OutOfProfile { place: at, word } => {
            unless_broken(
                broken,
                place,
                Err(TypingFault::OutOfProfile { place: at, word }),
            )
        }
        TypingFault::Constant(fault) => {
            unless_broken(broken, place, Err(TypingFault::Constant(fault)))
        }
        TypingFault::NoMemory => Err(TypingFault::NoMemory),
    }
}

fn judged(
    broken: Option<TypeRule>,
    known: &Known,
    var: &VarParts,
    ty: ShadeType,
    becomes: Result<Option<Value>, TypingFault>,
) -> Result<Found, TypingFault>
    ensures { result ≡ judged broken known.now var.now ty becomes }
{
    match becomes {
        Ok(constant) => unless_broken(broken, var.place, Ok(memory_of(known, var, ty, constant))),
        Err(fault) => fault_by(broken, var.place, fault),
    }
}

/// The value of a variable in its type, where it is constant.
fn value_in(
    alloc: Global,
    known: &Known,
    value: Option<Operand>,
    ty: ShadeType,
) -> Result<Option<Value>, TypingFault>
    ensures { Answers (Converted known.now value ty) result }
{
    match value {
        Some(value) => converted(alloc, known, false, value, ty),
        None => Ok(None),
    }
}

fn of_type(
    alloc: Global,
    known: &Known,
    facts: &[TypeFacts],
    names: &Names,
    var: &VarParts,
    id: TypeId,
) -> Result<Found, TypingFault>
    requires { facts.now ≡ map facts_of (shapes known.now.types) }
    ensures answer { Answers (OfType known.now names.now var.now id (slice_get known.now.types.types id.0)) result }
    ensures of { IfOk result (λ f. IsFoundOf known.now.types f) }
{
    match type_by_id(&known.types, id) {
        Some(ty) => {
            let broken = broken_rule(known, facts, names, var, (id, ty));
            let value = value_in(alloc, known, var.value, ty);
            judged(broken, known, var, ty, value)
        }
        None => Err(breaks(var.place, TypeRule::Conversion)),
    }
}

fn typed(
    alloc: Global,
    known: &Known,
    facts: &[TypeFacts],
    names: &Names,
    var: &VarParts,
    id: Option<TypeId>,
) -> Result<Found, TypingFault>
    requires { facts.now ≡ map facts_of (shapes known.now.types) }
    ensures answer { Answers (Typed known.now names.now var.now id) result }
    ensures of { IfOk result (λ f. IsFoundOf known.now.types f) }
{
    match id {
        Some(id) => of_type(alloc, known, facts, names, var, id),
        None => Err(breaks(var.place, TypeRule::Conversion)),
    }
}

// ---- what must be constant

/// What must be constant and is not.
fn not_constant(place: Place) -> Result<Found, TypingFault>
    ensures { result ≡ not_constant place }
{
    Err(TypingFault::Constant(ConstFault::NotConstant(place)))
}

fn is_private(space: Option<Space>) -> bool
    ensures { result ≡ is_private space }
{
    match space {
        Some(Space::Private) => true,
        _ => false,
    }
}

fn unless_constant(asked: bool, value: Option<&Value>, place: Place) -> Option<Place>
    ensures { result ≡ unless_constant asked (option_copied value.entry) place }
{
    if !asked {
        return None;
    }
    match value {
        Some(_) => None,
        None => Some(place),
    }
}

/// The place of the value of a private variable, where it is no constant.
fn no_constant(known: &Known, var: &VarParts) -> Option<Place>
    ensures { result ≡ no_constant known.now var.now var.now.value }
{
    match var.value {
        Some(value) => {
            let asked = is_private(space_in(known, var));
            unless_constant(asked, value_at(&known.facts, value.node), value.place)
        }
        None => None,
    }
}

/// Gives what the name of a `var` is: memory of the type with this id, which is written or inferred, by what holds of each type.
///
/// `NotConstant` at the value of a private variable that is no constant; else `Conversion` at the variable where there is no type, or at the
/// value where it does not convert; else `Stored` at the variable where its type does not suit its space, and `Space` where its space does not go
/// together with where it stands, its access, its value or its attributes; else `Overflow` at the value where it is constant and does not fit.
/// Takes memory for the value.
pub fn variable(
    alloc: Global,
    known: &Known,
    facts: &[TypeFacts],
    names: &Names,
    var: &VarParts,
    id: Option<TypeId>,
) -> Result<Found, TypingFault>
    requires { facts.now ≡ map facts_of (shapes known.now.types) }
    ensures answer { Answers (IsVariable known.now names.now var.now id) result }
    ensures of { IfOk result (λ f. IsFoundOf known.now.types f) }
{
    match no_constant(known, var) {
        Some(place) => not_constant(place),
        None => typed(alloc, known, facts, names, var, id),
    }
}

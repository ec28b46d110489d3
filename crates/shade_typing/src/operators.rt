//! Operators before and between expressions.

ghost use Rattle.std.specs.Prelude.{◌≡◌, ◌∷◌, [], IfOk, slice_get};
ghost use Rattle.shade_known.specs.Answers.{Answers};
ghost use Rattle.shade_known.specs.Keeps.{IsFoundOf};
ghost use Rattle.shade_known.specs.Lookups.{type_of_node, what_in};
ghost use Rattle.shade_known.specs.Operates.{Operates};
ghost use Rattle.shade_typing.specs.Operators.{IsInfix, IsPrefix, address_by, applied, pointee_by, pointer_found};

use crate::builtins::infix_builtin;
use crate::values::reference_found;
use shade_ast::{Infix, Prefix};
use shade_base::Place;
use shade_known::{
    Application, Found, Known, Operand, Part, TypeRule, TypingFault, What, operate, type_at,
    type_by_id, what_at,
};
use shade_overload::Builtin;
use shade_values::{Access, ShadeType, Space, TypeId, TypeTable};
use std::alloc::Global;

/// An operator between two values: which, its place, and whether nobody asks for it.
#[derive(Clone, Copy, Debug, PartialEq, Eq)]
pub struct Between {
    pub operator: Infix,
    pub at: Place,
    pub idle: bool,
}

/// Gives what an operator makes of the values on its sides, as `operate` does. Takes memory for types and values.
pub fn infix(
    alloc: Global,
    known: &Known,
    between: Between,
    left: Operand,
    right: Operand,
) -> Result<Found, TypingFault>
    ensures answer { Answers (IsInfix known.now between.operator between.at between.idle left right) result }
    ensures of { IfOk result (λ f. IsFoundOf known.now.types f) }
{
    let application = Application {
        builtin: infix_builtin(between.operator),
        at: between.at,
        idle: between.idle,
    };
    operate(alloc, known, application, &[left, right])
}

fn no_indirection(place: Place) -> TypingFault
    ensures { result ≡ TypingFault.Rule place TypeRule.Indirection }
{
    TypingFault::Rule {
        place,
        rule: TypeRule::Indirection,
    }
}

/// Gives all of what a pointer points to; the rule of indirections fails at the place where the node is no pointer. Takes no memory.
pub fn pointee(known: &Known, node: u32, place: Place) -> Result<Found, TypingFault>
    ensures answer { result ≡ pointee_by known.now.types (type_of_node known.now node) place }
    ensures of { IfOk result (λ f. IsFoundOf known.now.types f) }
{
    match type_at(known, node) {
        Some(ShadeType::Pointer(space, pointee, access)) => {
            let ty = type_by_id(&known.types, pointee);
            Ok(reference_found(ty, space, access, Part::Whole, None))
        }
        _ => Err(no_indirection(place)),
    }
}

fn pointer_to(types: &TypeTable, space: Space, ty: TypeId, access: Access) -> Found
    ensures answer { result ≡ pointer_found (slice_get types.now.types ty.0) space ty access }
    ensures of { IsFoundOf types.now result }
{
    match type_by_id(types, ty) {
        Some(_) => Found::Value {
            ty: ShadeType::Pointer(space, ty, access),
            op: None,
            value: None,
        },
        None => Found::Nothing,
    }
}

/// Gives a pointer to what a node names; the rule of indirections fails at the place where the node names nothing, or a component of a
/// vector. Takes no memory.
pub fn address_of(known: &Known, node: u32, place: Place) -> Result<Found, TypingFault>
    ensures answer { result ≡ address_by known.now.types (what_in known.now.facts node) place }
    ensures of { IfOk result (λ f. IsFoundOf known.now.types f) }
{
    match what_at(&known.facts, node) {
        Some(
            What::Reference {
                ty,
                space,
                access,
                part: Part::Whole | Part::Addressed(_),
                ..
            },
        ) => Ok(pointer_to(&known.types, *space, *ty, *access)),
        _ => Err(no_indirection(place)),
    }
}

fn applied(builtin: Builtin, at: Place, idle: bool) -> Application
    ensures { result ≡ applied builtin at idle }
{
    Application { builtin, at, idle }
}

fn unary(
    alloc: Global,
    known: &Known,
    application: Application,
    operand: Operand,
) -> Result<Found, TypingFault>
    ensures answer { Answers (Operates known.now application (operand ∷ [])) result }
    ensures of { IfOk result (λ f. IsFoundOf known.now.types f) }
{
    operate(alloc, known, application, &[operand])
}

/// Gives what an operator before an expression makes of it, at the place of both. Takes memory for types and values.
pub fn prefix(
    alloc: Global,
    known: &Known,
    operator: Prefix,
    place: Place,
    idle: bool,
    operand: Operand,
) -> Result<Found, TypingFault>
    ensures answer { Answers (IsPrefix known.now operator place idle operand) result }
    ensures of { IfOk result (λ f. IsFoundOf known.now.types f) }
{
    match operator {
        Prefix::Negate => { unary(alloc, known, applied(Builtin::Negate, place, idle), operand) }
        Prefix::Not => { unary(alloc, known, applied(Builtin::Not, place, idle), operand) }
        Prefix::Complement => {
            unary(
                alloc,
                known,
                applied(Builtin::Complement, place, idle),
                operand,
            )
        }
        Prefix::Deref => pointee(known, operand.node, place),
        Prefix::AddressOf => address_of(known, operand.node, place),
    }
}

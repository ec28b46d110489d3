//! Types of parameters and results.

ghost use Rattle.std.specs.Prelude.{◌≡◌, IfOk, map, slice_get};
ghost use Rattle.std.specs.Option.{option_copied};
ghost use Rattle.shade_values.specs.Layouts.{is_loadable as loadable};
ghost use Rattle.shade_values.specs.Shape.{Shape, shape_of, shapes};
ghost use Rattle.shade_shape.specs.Facts.{fact_in, facts_of};
ghost use Rattle.shade_known.specs.Keeps.{IsFoundOf};
ghost use Rattle.shade_switches.specs.Signatures.{as_result, is_loadable_type, may_hold, parameter_found, parameter_of, pointer_given};

use shade_base::Place;
use shade_known::{
    Found, Known, Operand, TypeRule, TypingFault, What, is_loadable, type_by_id, what_at,
};
use shade_shape::TypeFacts;
use shade_values::{Access, ShadeType, Space, TypeId, TypeTable};

fn is_loadable_type(types: &TypeTable, what: Option<&What>) -> bool
    ensures { result ≡ is_loadable_type types.now (option_copied what.entry) }
{
    match what {
        Some(What::Type { ty, .. }) => is_loadable(types, *ty),
        _ => false,
    }
}

fn breaks(place: Place, rule: TypeRule) -> TypingFault
    ensures { result ≡ TypingFault.Rule place rule }
{
    TypingFault::Rule { place, rule }
}

/// Whether a type is one of a function's result: the rule of signatures fails at its place where a shader cannot load its values. Takes no
/// memory.
pub fn result_type(known: &Known, ty: Operand) -> Result<Found, TypingFault>
    ensures answer { result ≡ as_result known.now ty }
    ensures of { IfOk result (λ f. IsFoundOf known.now.types f) }
{
    if is_loadable_type(&known.types, what_at(&known.facts, ty.node)) {
        return Ok(Found::Nothing);
    }
    Err(breaks(ty.place, TypeRule::Signature))
}

/// No shader holds a pointer.
const OF_POINTER: TypeFacts = TypeFacts {
    plain: false,
    loadable: false,
    endless: false,
    buffer: false,
    holds_bool: false,
    holds_atomic: false,
};

/// What is kept of the type with an id, and what holds of a pointer where no type has it.
fn fact_at(facts: &[TypeFacts], id: TypeId) -> TypeFacts
    ensures { result ≡ fact_in facts.now id }
{
    match facts.get(id.0 as usize) {
        Some(fact) => *fact,
        None => OF_POINTER,
    }
}

/// Whether a variable of a space and an access may have a type of which this holds.
fn may_hold(space: Space, access: Access, facts: TypeFacts) -> bool
    ensures { (shape : Shape) → facts ≡ facts_of shape → result ≡ may_hold space access shape }
{
    match space {
        Space::Function | Space::Private => facts.is_constructible(),
        Space::Workgroup => facts.plain,
        Space::Uniform => facts.is_constructible() && !facts.holds_bool,
        Space::Storage => {
            facts.buffer
                && !facts.holds_bool
                && (access == Access::ReadWrite || !facts.holds_atomic)
        }
    }
}

/// A parameter of this type, of which no operation makes the value.
fn given(ty: ShadeType) -> Found
    ensures { result ≡ Found.Value ty None None }
{
    Found::Value {
        ty,
        op: None,
        value: None,
    }
}

fn pointer_given(bad: bool, held: bool, ty: ShadeType, place: Place) -> Result<Found, TypingFault>
    ensures { result ≡ pointer_given bad held ty place }
{
    if bad || !held {
        return Err(breaks(place, TypeRule::Pointer));
    }
    Ok(given(ty))
}

fn parameter_of(
    types: &TypeTable,
    facts: &[TypeFacts],
    id: TypeId,
    bad: bool,
    place: Place,
) -> Result<Found, TypingFault>
    requires { facts.now ≡ map facts_of (shapes types.now) }
    ensures answer { result ≡ parameter_of types.now id bad (slice_get types.now.types id.0) place }
    ensures of { IfOk result (λ f. IsFoundOf types.now f) }
{
    let Some(ty) = type_by_id(types, id) else {
        return Err(breaks(place, TypeRule::Signature));
    };
    if let ShadeType::Pointer(space, pointee, access) = ty {
        let held = may_hold(space, access, fact_at(facts, pointee));
        return pointer_given(bad, held, ty, place);
    }
    if is_loadable(types, id) {
        return Ok(given(ty));
    }
    Err(breaks(place, TypeRule::Signature))
}

/// Gives what the name of a parameter is, whose first token stands at this place: a value of its type, by what holds of each type.
///
/// The rule of pointers fails at the place where the access of a pointer is none of its space, or no variable of its space and its access may have
/// the type to which it points; the rule of signatures where the type is no pointer and a shader cannot load its values. Takes no memory.
pub fn parameter(
    known: &Known,
    facts: &[TypeFacts],
    ty: Operand,
    place: Place,
) -> Result<Found, TypingFault>
    requires { facts.now ≡ map facts_of (shapes known.now.types) }
    ensures answer { result ≡ parameter_found known.now ty place }
    ensures of { IfOk result (λ f. IsFoundOf known.now.types f) }
{
    match what_at(&known.facts, ty.node) {
        Some(What::Type { ty, bad_access }) => {
            parameter_of(&known.types, facts, *ty, *bad_access, place)
        }
        _ => Err(breaks(place, TypeRule::Signature)),
    }
}

//! Selectors of a `switch`.

ghost use Rattle.std.specs.Prelude.{◌≡◌, IfOk};
ghost use Rattle.std.specs.Option.{option_copied};
ghost use Rattle.shade_values.specs.Table.{Table};
ghost use Rattle.shade_known.specs.Keeps.{IsFoundOf};
ghost use Rattle.shade_switches.specs.Switches.{begun, compared_in, id_in, is_fit, selected, selected_in};

use shade_base::Place;
use shade_evaluate::{ConstFault, fits};
use shade_known::{
    Found, Known, Operand, TypeRule, TypingFault, What, type_by_id, value_at, what_at,
};
use shade_values::{Scalar, ShadeType, TypeId, Value};
use sqlite_items::Items;
use std::alloc::Global;

/// The fault of the rule of switches at a place.
pub(crate) fn breaks(place: Place) -> TypingFault
    ensures { result ≡ TypingFault.Rule place TypeRule.Switch }
{
    TypingFault::Rule {
        place,
        rule: TypeRule::Switch,
    }
}

/// The scalar in which the numbers of a selector of this type are compared.
pub(crate) fn compared_in(ty: Option<ShadeType>) -> Option<Scalar>
    ensures { result ≡ compared_in ty }
{
    match ty {
        Some(ShadeType::Plain(scalar)) => match scalar {
            Scalar::I32 | Scalar::Abstract => Some(Scalar::I32),
            Scalar::U32 => Some(Scalar::U32),
            Scalar::Bool => None,
        },
        _ => None,
    }
}

fn id_in(what: Option<&What>) -> Option<TypeId>
    ensures { result ≡ id_in (option_copied what.entry) }
{
    match what {
        Some(What::Value { ty, .. }) => Some(*ty),
        Some(What::Reference { ty, .. }) => Some(*ty),
        _ => None,
    }
}

fn is_fit(scalar: Scalar, value: Option<&Value>) -> bool
    ensures { result ≡ is_fit scalar (option_copied value.entry) }
{
    match value {
        Some(value) => fits(scalar, value),
        None => true,
    }
}

/// A `switch` without a clause so far.
fn begun(alloc: Global, ty: TypeId) -> Found
    ensures { result ≡ begun ty }
{
    Found::Known(What::Switch {
        ty,
        keys: Items::new(alloc),
        defaults: 0,
    })
}

fn selected_in(
    alloc: Global,
    scalar: Option<Scalar>,
    id: TypeId,
    value: Option<&Value>,
    place: Place,
) -> Result<Found, TypingFault>
    ensures answer { result ≡ selected_in scalar id (option_copied value.entry) place }
    ensures of { (t : Table) → IfOk result (IsFoundOf t) }
{
    let Some(scalar) = scalar else {
        return Err(breaks(place));
    };
    if is_fit(scalar, value) {
        return Ok(begun(alloc, id));
    }
    Err(TypingFault::Constant(ConstFault::Overflow(place)))
}

/// Gives what a `switch` with this selector is before its clauses: one without a key and a default, known by the type of the selector.
///
/// The rule of switches fails at the selector where it is no `i32`, no `u32` and no AbstractInt, which becomes `i32`: one that does not fit is
/// `Overflow` there. Takes no memory.
pub fn selects(alloc: Global, known: &Known, selector: Operand) -> Result<Found, TypingFault>
    ensures answer { result ≡ selected known.now selector }
    ensures of { IfOk result (λ f. IsFoundOf known.now.types f) }
{
    let Some(id) = id_in(what_at(&known.facts, selector.node)) else {
        return Err(breaks(selector.place));
    };
    let scalar = compared_in(type_by_id(&known.types, id));
    let value = value_at(&known.facts, selector.node);
    selected_in(alloc, scalar, id, value, selector.place)
}

//! Case values and defaults of a `switch`.

ghost use Rattle.std.specs.Prelude.{◌≡◌, ◌++◌, ◌∷◌, [], IfOk};
ghost use Rattle.std.specs.Option.{option_copied};
ghost use Rattle.shade_values.specs.Table.{Table};
ghost use Rattle.shade_known.specs.Answers.{Answers};
ghost use Rattle.shade_known.specs.Keeps.{IsFoundOf};
ghost use Rattle.shade_switches.specs.Switches.{all_chosen, case_by, case_found, default_found, has_one_default, is_repeated, keyed, may_become, scalar_in, with_key};

use crate::selectors::{breaks, compared_in};
use shade_base::Place;
use shade_evaluate::{ConstFault, fits, own_leaf};
use shade_known::{
    Found, Known, Operand, TypingFault, What, type_at, type_by_id, value_at, what_at,
};
use shade_values::{Scalar, ShadeType, TypeTable, Value};
use sqlite_items::Items;
use std::alloc::{AllocError, Global};

/// The scalar in which the numbers of a `switch` are compared.
fn scalar_in(types: &TypeTable, switch: Option<&What>) -> Option<Scalar>
    ensures { result ≡ scalar_in types.now (option_copied switch.entry) }
{
    match switch {
        Some(What::Switch { ty, .. }) => compared_in(type_by_id(types, *ty)),
        _ => None,
    }
}

/// Whether a value of this type becomes the scalar of a selector.
fn may_become(scalar: Scalar, ty: Option<ShadeType>) -> bool
    ensures { result ≡ may_become scalar ty }
{
    match (scalar, ty) {
        (_, Some(ShadeType::Plain(Scalar::Abstract))) => true,
        (Scalar::I32, Some(ShadeType::Plain(Scalar::I32))) => true,
        (Scalar::U32, Some(ShadeType::Plain(Scalar::U32))) => true,
        _ => false,
    }
}

fn is_repeated(key: i64, keys: &[i64]) -> bool
    ensures { result ≡ is_repeated key keys.now }
{
    keys.contains(&key)
}

/// A copy of some keys, and one more.
fn one_more(alloc: Global, keys: &[i64], key: i64) -> Result<Items<i64>, AllocError>
    ensures { IfOk result (λ it. it ≡ keys.now ++ key ∷ []) }
{
    let mut made = Items::from_slice(alloc, keys)?;
    made.push(key)?;
    Ok(made)
}

/// A `switch` with one key more, which it does not have.
fn with_key(
    alloc: Global,
    switch: Option<&What>,
    key: i64,
    place: Place,
) -> Result<Found, TypingFault>
    ensures answer { Answers (λ r. r ≡ with_key (option_copied switch.entry) key place) result }
    ensures of { (t : Table) → IfOk result (IsFoundOf t) }
{
    let Some(What::Switch { ty, keys, defaults }) = switch else {
        return Err(breaks(place));
    };
    if is_repeated(key, keys.as_slice()) {
        return Err(breaks(place));
    }
    Ok(Found::Known(What::Switch {
        ty: *ty,
        keys: one_more(alloc, keys.as_slice(), key)?,
        defaults: *defaults,
    }))
}

/// A `switch` with the number of a constant as a key more.
fn keyed(
    alloc: Global,
    scalar: Scalar,
    switch: Option<&What>,
    value: Option<&Value>,
    place: Place,
) -> Result<Found, TypingFault>
    ensures answer { Answers
        (λ r. r ≡ keyed scalar (option_copied switch.entry) (option_copied value.entry) place) result }
    ensures of { (t : Table) → IfOk result (IsFoundOf t) }
{
    let Some(value) = value else {
        return Err(TypingFault::Constant(ConstFault::NotConstant(place)));
    };
    if !fits(scalar, value) {
        return Err(TypingFault::Constant(ConstFault::Overflow(place)));
    }
    with_key(alloc, switch, own_leaf(value).number, place)
}

fn case_by(
    alloc: Global,
    known: &Known,
    switch: Option<&What>,
    value: Operand,
) -> Result<Found, TypingFault>
    ensures answer { Answers (λ r. r ≡ case_by known.now (option_copied switch.entry) value) result }
    ensures of { (t : Table) → IfOk result (IsFoundOf t) }
{
    let Some(scalar) = scalar_in(&known.types, switch) else {
        return Err(breaks(value.place));
    };
    if !may_become(scalar, type_at(known, value.node)) {
        return Err(breaks(value.place));
    }
    let constant = value_at(&known.facts, value.node);
    keyed(alloc, scalar, switch, constant, value.place)
}

/// Gives what the `switch` with this node is behind one case value more: it has the number of the value as a key more.
///
/// The rule of switches fails at the value where it does not become the type of the selector; `NotConstant` is there where it is no constant,
/// and `Overflow` where it does not fit; then the rule of switches fails where a case before it has the same number. Takes memory for the keys,
/// and time in the order of them.
pub fn with_case(
    alloc: Global,
    known: &Known,
    switch: u32,
    value: Operand,
) -> Result<Found, TypingFault>
    ensures answer { Answers (λ r. r ≡ case_found known.now switch value) result }
    ensures of { IfOk result (λ f. IsFoundOf known.now.types f) }
{
    case_by(alloc, known, what_at(&known.facts, switch), value)
}

/// Gives what the `switch` with this node is behind one default more. Takes memory for the keys that it has.
pub fn with_default(alloc: Global, known: &Known, switch: u32) -> Result<Found, TypingFault>
    ensures answer { Answers (λ r. r ≡ default_found known.now switch) result }
    ensures of { IfOk result (λ f. IsFoundOf known.now.types f) }
{
    match what_at(&known.facts, switch) {
        Some(What::Switch { ty, keys, defaults }) => Ok(Found::Known(What::Switch {
            ty: *ty,
            keys: Items::from_slice(alloc, keys.as_slice())?,
            defaults: defaults.saturating_add(1),
        })),
        _ => Ok(Found::Nothing),
    }
}

fn has_one_default(switch: Option<&What>) -> bool
    ensures { result ≡ has_one_default (option_copied switch.entry) }
{
    match switch {
        Some(What::Switch { defaults, .. }) => *defaults == 1,
        _ => false,
    }
}

/// Whether the `switch` with this node, whose clauses were all asked, has one default: the rule of switches fails at its place where it has
/// none or several. Takes no memory.
pub fn chosen(known: &Known, switch: u32, place: Place) -> Result<Found, TypingFault>
    ensures answer { result ≡ all_chosen known.now switch place }
    ensures of { IfOk result (λ f. IsFoundOf known.now.types f) }
{
    if has_one_default(what_at(&known.facts, switch)) {
        return Ok(Found::Nothing);
    }
    Err(breaks(place))
}

//! The row of a pattern that takes some types.

ghost use Rattle.std.specs.Prelude.{◌≡◌, ◌≤◌, ℕ, Option, IfSome, IfNone, OnSome};
ghost use Rattle.shade_overload.specs.Best.{IsChosen};
ghost use Rattle.shade_overload.specs.Conversions.{BecomeAll};
ghost use Rattle.shade_overload.specs.Patterns.{PatternRows, IsAttempt, IsFound, made, Suits, by_distance, BeginsWith, EndsIn};

use crate::conversion::{all_become, form_of};
use crate::overload::Overload;
use crate::pattern::Pattern;
use shade_values::{Op, Scalar, ShadeType};
use std::alloc::Global;

/// The scalars, from the one that AbstractInt rather becomes on.
pub(crate) fn by_distance(first: Scalar) -> [Scalar; 4]
    ensures { result ≡ by_distance first }
{
    match first {
        Scalar::U32 => [Scalar::Abstract, Scalar::U32, Scalar::I32, Scalar::Bool],
        _ => [Scalar::Abstract, Scalar::I32, Scalar::U32, Scalar::Bool],
    }
}

/// The row, if the types become its parameters.
pub(crate) fn taking(row: Overload, types: &[ShadeType]) -> Option<Overload>
    ensures row { IfSome result (λ o. o ≡ row) }
    ensures taken { OnSome result (BecomeAll types.now row.params) }
    ensures refused { IfNone result (¬ BecomeAll types.now row.params) }
{
    if all_become(types, &row.params) {
        Some(row)
    } else {
        None
    }
}

/// The row for one scalar, if the types become its parameters.
fn attempt(
    alloc: Global,
    op: Op,
    pattern: Pattern,
    forms: (Option<u8>, Option<u8>),
    scalar: Scalar,
    types: &[ShadeType],
) -> Option<Overload>
    ensures { IsAttempt (made op pattern forms.0 forms.1) (Suits pattern forms.0 forms.1 types.now) scalar result }
{
    let (first, last) = forms;
    if !pattern.kind().has(scalar) {
        return None;
    }
    let row = Overload {
        op: Some(op),
        params: pattern.params(alloc, first, last, scalar),
        result: Some(pattern.gives(first, last, scalar)),
    };
    taking(row, types)
}

/// The row for the nearest scalar, by the forms of the first and the last argument.
fn nearest(
    alloc: Global,
    op: Op,
    pattern: Pattern,
    forms: (Option<u8>, Option<u8>),
    first: Scalar,
    types: &[ShadeType],
) -> Option<Overload>
    ensures { IsFound (made op pattern forms.0 forms.1) (Suits pattern forms.0 forms.1 types.now) first result }
{
    let scalars = by_distance(first);
    for scalar in &scalars {
        if let Some(found) = attempt(alloc, op, pattern, forms, *scalar, types) {
            return Some(found);
        }
    }
    None
}

/// The forms of the first and the last type.
fn forms_of(types: &[ShadeType]) -> Option<(Option<u8>, Option<u8>)>
    ensures some { IfSome result (λ forms. BeginsWith types.now forms.0 × EndsIn types.now forms.1) }
    ensures none { IfNone result ((f g : Option ℕ) → BeginsWith types.now f → ¬ EndsIn types.now g) }
{
    let [first, ..] = types else {
        return None;
    };
    let [.., last] = types else {
        return None;
    };
    Some((form_of(*first)?, form_of(*last)?))
}

/// The row of a pattern that takes the types. AbstractInt that cannot stay rather becomes `first`.
pub(crate) fn chosen(
    alloc: Global,
    op: Op,
    pattern: Pattern,
    first: Scalar,
    types: &[ShadeType],
) -> Option<Overload>
    ensures { IsChosen (PatternRows op pattern) first types.now result }
{
    let forms = forms_of(types)?;
    if !pattern.allows(forms.0, forms.1) {
        return None;
    }
    nearest(alloc, op, pattern, forms, first, types)
}

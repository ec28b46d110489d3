//! What argument types may be taken as.

ghost use Rattle.std.specs.Prelude.{◌≡◌, ◌≢◌, ◌↔◌, IsTrue, IfSome, IfNone, ℕ, Option, Some, None, slice_get};
ghost use Rattle.shade_values.specs.declared.types.Scalar.{Scalar as AnyScalar};
ghost use Rattle.shade_values.specs.declared.types.ShadeType.{ShadeType as AnyType};
ghost use Rattle.shade_values.specs.Takes.{formed};
ghost use Rattle.shade_overload.specs.Conversions.{ScalarBecomes, Becomes, BecomeAll};

use crate::params::ParamTypes;
use shade_values::{Scalar, ShadeType};

/// Whether a value of one scalar may be taken as another.
pub(crate) fn scalar_becomes(from: Scalar, to: Scalar) -> bool
    ensures { IsTrue result ↔ ScalarBecomes from to }
{
    match (from, to) {
        (Scalar::Abstract, Scalar::Bool) => false,
        (Scalar::Abstract, _) => true,
        _ => from == to,
    }
}

/// Whether a value of one type may be taken as another.
pub(crate) fn becomes(from: ShadeType, to: ShadeType) -> bool
    ensures { IsTrue result ↔ Becomes from to }
{
    match (from, to) {
        (ShadeType::Plain(from), ShadeType::Plain(to)) => scalar_becomes(from, to),
        (ShadeType::Vector(m, from), ShadeType::Vector(n, to)) => {
            m == n && scalar_becomes(from, to)
        }
        _ => from == to,
    }
}

/// Whether a value may be taken as the parameter at a place.
fn becomes_at(from: ShadeType, to: &ParamTypes, place: usize) -> bool
    ensures { IsTrue result ↔ (param : AnyType) × (slice_get to.now place ≡ Some param) × Becomes from param }
{
    match to.get(place) {
        Some(param) => becomes(from, param),
        None => false,
    }
}

/// Whether each argument may be taken as the parameter at its place.
pub(crate) fn all_become(from: &[ShadeType], to: &ParamTypes) -> bool
    ensures { IsTrue result ↔ BecomeAll from.now to.now }
{
    if from.len() != to.len() {
        return false;
    }
    for (place, ty) in from.iter().enumerate() {
        if !becomes_at(*ty, to, place) {
            return false;
        }
    }
    true
}

/// The scalar type, or the vector of so many parts.
pub(crate) fn formed(parts: Option<u8>, scalar: Scalar) -> ShadeType
    ensures { result ≡ formed parts scalar }
{
    match parts {
        None => ShadeType::Plain(scalar),
        Some(count) => ShadeType::Vector(count, scalar),
    }
}

/// The number of parts of a vector, and `None` inside of a scalar. No other type has a form.
pub(crate) fn form_of(ty: ShadeType) -> Option<Option<u8>>
    ensures some { IfSome result (λ f. (s : AnyScalar) × (ty ≡ formed f s)) }
    ensures none { IfNone result ((f : Option ℕ) (s : AnyScalar) → ty ≢ formed f s) }
{
    match ty {
        ShadeType::Plain(_) => Some(None),
        ShadeType::Vector(count, _) => Some(Some(count)),
        _ => None,
    }
}

//! What calls give.

ghost use Rattle.std.specs.Prelude.{◌≡◌};
ghost use Rattle.shade_known.specs.Lookups.{what_in};
ghost use Rattle.shade_calls.specs.Calls.{generator_builtin, row_of, scalar_builtin, type_builtin, vector_builtin};

use shade_known::{Generator, Known, What, type_by_id, what_at};
use shade_overload::Builtin;
use shade_values::{Scalar, ShadeType};

fn vector_builtin(count: u8, written: Option<ShadeType>) -> Option<Builtin>
    ensures { result ≡ vector_builtin count written }
{
    if count == 2 {
        return Some(Builtin::Vec2(written));
    }
    if count == 3 {
        return Some(Builtin::Vec3(written));
    }
    if count == 4 {
        return Some(Builtin::Vec4(written));
    }
    None
}

fn scalar_builtin(scalar: Scalar) -> Option<Builtin>
    ensures { result ≡ scalar_builtin scalar }
{
    match scalar {
        Scalar::Bool => Some(Builtin::Bool),
        Scalar::I32 => Some(Builtin::I32),
        Scalar::U32 => Some(Builtin::U32),
        Scalar::Abstract => None,
    }
}

fn type_builtin(ty: Option<ShadeType>) -> Option<Builtin>
    ensures { result ≡ type_builtin ty }
{
    match ty {
        Some(ShadeType::Plain(scalar)) => scalar_builtin(scalar),
        Some(ShadeType::Vector(count, scalar)) => {
            vector_builtin(count, Some(ShadeType::Plain(scalar)))
        }
        _ => None,
    }
}

fn generator_builtin(generator: Generator) -> Option<Builtin>
    ensures { result ≡ generator_builtin generator }
{
    match generator {
        Generator::Vector(count) => vector_builtin(count, None),
        Generator::Array | Generator::Atomic | Generator::Pointer => None,
    }
}

/// Gives the row of the table that a callee is: that of a built-in function, or of the constructor of a scalar or a vector. Takes no memory.
pub fn row_of(known: &Known, callee: u32) -> Option<Builtin>
    ensures { result ≡ row_of known.now.types (what_in known.now.facts callee) }
{
    match what_at(&known.facts, callee) {
        Some(What::Builtin(builtin)) => Some(*builtin),
        Some(What::Type { ty, .. }) => type_builtin(type_by_id(&known.types, *ty)),
        Some(What::Generator(generator)) => generator_builtin(*generator),
        _ => None,
    }
}

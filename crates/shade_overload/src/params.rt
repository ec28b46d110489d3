//! The types of parameters: at most five, which take no memory.

ghost use Rattle.std.specs.Prelude.{◌≡◌, ◌≤◌, ◌<◌, ◌++◌, ◌∷◌, [], length, slice_get};

use shade_values::{Scalar, ShadeType};
use smallvec::SmallVec;
use std::alloc::Global;
use std::marker::Model;

/// One type, which has a default to fill the places that are not used.
#[derive(Debug, Drop)]
struct ParamType {
    ty: ShadeType,
}

impl Model for ParamType {
    ghost use Rattle.shade_values.specs.declared.types.ShadeType.{ShadeType};

    ghost Value = { ShadeType };

    ghost view = { λ p. p.ty };
}

impl Default for ParamType {
    fn default() -> ParamType {
        ParamType {
            ty: ShadeType::Plain(Scalar::Bool),
        }
    }
}

/// At most five types.
#[derive(Debug, Drop)]
pub struct ParamTypes {
    types: SmallVec<ParamType, 5>,
}

impl Model for ParamTypes {
    ghost use Rattle.std.specs.Prelude.{◌≡◌, ◌≤◌, List, length};
    ghost use Rattle.shade_values.specs.declared.types.ShadeType.{ShadeType};

    ghost Value = { List ShadeType };

    ghost view = { λ p. p.types.items };

    // In their places in the list itself, so that it has no memory of its own.
    ghost invariant = { λ p. (p.types.capacity ≡ 5) × (length p.types.items ≤ 5) };
}

impl ParamTypes {
    /// No types. Takes no memory.
    pub fn new(alloc: Global) -> ParamTypes
        ensures { result ≡ [] }
    {
        ParamTypes {
            types: SmallVec::new(alloc),
        }
    }

    /// These types. Takes no memory.
    pub fn of(alloc: Global, types: &[ShadeType]) -> ParamTypes
        requires { length types.now ≤ 5 }
        ensures { result ≡ types.now }
    {
        let mut params = ParamTypes::new(alloc);
        for ty in types {
            params.add(*ty);
        }
        params
    }

    /// Adds a type, of which there are fewer than five. Takes no memory.
    pub fn add(&mut self, ty: ShadeType)
        requires { length self.old < 5 }
        ensures { self.new ≡ self.old ++ ty ∷ [] }
    {
        self.types.push_reserved(ParamType { ty });
    }

    /// How many types there are.
    pub fn len(&self) -> usize
        ensures count { result ≡ length self.now }
        ensures few { result ≤ 5 }
    {
        self.types.len()
    }

    /// The type at a place, if there is one.
    pub fn get(&self, place: usize) -> Option<ShadeType>
        ensures { result ≡ slice_get self.now place }
    {
        let param = self.types.as_slice().get(place)?;
        Some(param.ty)
    }
}

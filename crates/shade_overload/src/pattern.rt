//! The rows of scalars and vectors: what they take and give.

ghost use Rattle.std.specs.Prelude.{◌≡◌, ◌↔◌, ◌≤◌, IsTrue};
ghost use Rattle.shade_overload.specs.Patterns.{Fits, Allows, kind_of, params_of, gives_of, wider};

use crate::conversion::formed;
use crate::params::ParamTypes;
use shade_values::{Scalar, ShadeType};
use std::alloc::Global;

/// Some of the scalars.
#[derive(Clone, Copy)]
pub enum Kind {
    Any,
    Bool,
    Integer,
    Signed,
    Concrete,
    /// All but AbstractInt.
    Known,
}

impl Kind {
    pub(crate) fn has(self, scalar: Scalar) -> bool
        ensures { IsTrue result ↔ Fits self scalar }
    {
        match self {
            Kind::Any => true,
            Kind::Bool => scalar == Scalar::Bool,
            Kind::Integer => scalar != Scalar::Bool,
            Kind::Signed => scalar == Scalar::I32 || scalar == Scalar::Abstract,
            Kind::Concrete => scalar == Scalar::I32 || scalar == Scalar::U32,
            Kind::Known => scalar != Scalar::Abstract,
        }
    }
}

/// A row, for each scalar that it has, and for scalars and vectors alike.
#[derive(Clone, Copy)]
pub enum Pattern {
    /// Two alike, or a vector and a scalar, to the wider of them.
    Arithmetic,
    Unary(Kind),
    Binary(Kind),
    /// Two alike, to `bool` or its vector.
    Comparison(Kind),
    Ternary,
    /// A value and its amounts.
    Shifted,
    /// Two `bool`.
    Truths,
    /// `bool` or its vector, to `bool`.
    Reduction,
    /// Two values, and the truth that selects.
    Selection,
    /// Two vectors, to a scalar.
    Product,
    /// A value, a place and a count.
    Extraction,
    /// Two values, a place and a count.
    Insertion,
    /// A scalar or a vector of so many parts, whose scalar becomes another.
    Conversion(Option<u8>, Scalar),
    /// A scalar or a vector of so many parts, whose bits are taken as another's.
    Recast(Option<u8>, Scalar),
}

impl Pattern {
    /// The scalars that the pattern has.
    pub(crate) fn kind(self) -> Kind
        ensures { result ≡ kind_of self }
    {
        match self {
            Pattern::Unary(kind) | Pattern::Binary(kind) | Pattern::Comparison(kind) => kind,
            Pattern::Arithmetic | Pattern::Ternary | Pattern::Shifted | Pattern::Product => {
                Kind::Integer
            }
            Pattern::Truths | Pattern::Reduction => Kind::Bool,
            Pattern::Selection => Kind::Any,
            Pattern::Extraction | Pattern::Insertion | Pattern::Recast(_, _) => Kind::Concrete,
            Pattern::Conversion(_, _) => Kind::Known,
        }
    }

    /// Whether the pattern has arguments of which the first and the last have these forms.
    pub(crate) fn allows(self, first: Option<u8>, last: Option<u8>) -> bool
        ensures { IsTrue result ↔ Allows self first last }
    {
        match self {
            Pattern::Arithmetic => first == last || first.is_none() || last.is_none(),
            Pattern::Truths => first.is_none(),
            Pattern::Selection => last.is_none() || last == first,
            Pattern::Product => first.is_some(),
            Pattern::Conversion(parts, _) | Pattern::Recast(parts, _) => first == parts,
            _ => true,
        }
    }

    /// The parameters, by the forms of the first and the last argument.
    pub(crate) fn params(
        self,
        alloc: Global,
        first: Option<u8>,
        last: Option<u8>,
        scalar: Scalar,
    ) -> ParamTypes
        ensures { result ≡ params_of self first last scalar }
    {
        let value = formed(first, scalar);
        let number = ShadeType::Plain(Scalar::U32);
        match self {
            Pattern::Unary(_)
            | Pattern::Reduction
            | Pattern::Conversion(_, _)
            | Pattern::Recast(_, _) => ParamTypes::of(alloc, &[value]),
            Pattern::Binary(_) | Pattern::Comparison(_) | Pattern::Truths | Pattern::Product => {
                ParamTypes::of(alloc, &[value, value])
            }
            Pattern::Ternary => ParamTypes::of(alloc, &[value, value, value]),
            Pattern::Arithmetic => ParamTypes::of(alloc, &[value, formed(last, scalar)]),
            Pattern::Shifted => ParamTypes::of(alloc, &[value, formed(first, Scalar::U32)]),
            Pattern::Selection => {
                ParamTypes::of(alloc, &[value, value, formed(last, Scalar::Bool)])
            }
            Pattern::Extraction => ParamTypes::of(alloc, &[value, number, number]),
            Pattern::Insertion => ParamTypes::of(alloc, &[value, value, number, number]),
        }
    }

    /// The result, by the forms of the first and the last argument.
    pub(crate) fn gives(self, first: Option<u8>, last: Option<u8>, scalar: Scalar) -> ShadeType
        ensures { result ≡ gives_of self first last scalar }
    {
        match self {
            Pattern::Arithmetic => formed(wider(first, last), scalar),
            Pattern::Comparison(_) => formed(first, Scalar::Bool),
            Pattern::Reduction => ShadeType::Plain(Scalar::Bool),
            Pattern::Product => ShadeType::Plain(scalar),
            Pattern::Conversion(_, to) | Pattern::Recast(_, to) => formed(first, to),
            _ => formed(first, scalar),
        }
    }
}

fn wider(first: Option<u8>, last: Option<u8>) -> Option<u8>
    ensures { result ≡ wider first last }
{
    match first {
        Some(_) => first,
        None => last,
    }
}

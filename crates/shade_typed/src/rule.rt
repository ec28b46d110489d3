//! How operations take types.

ghost use Rattle.std.specs.Prelude.{◌≡◌};
ghost use Rattle.shade_typed.specs.Rules.{bitcast_rule as bitcast_rule_of, conversion_rule as conversion_rule_of, function_of, operator_of, other_rule as other_rule_of, rule_of as rule_in, vector_rule as vector_rule_of};

use shade_overload::Builtin;
use shade_values::{Op, Scalar, ShadeType, TypeId};

/// How an operation on values takes types.
#[derive(Clone, Copy, Debug, PartialEq, Eq)]
pub enum Rule {
    /// As the rows of an operator or a built-in function.
    Row(Builtin),
    /// One value for each part of the type with this id.
    Make(TypeId),
    /// One value with this member.
    Member(u32),
    /// A value and an index.
    Index,
    /// One vector, of which so many parts are taken, with these numbers.
    Swizzle(u8, [u8; 4]),
    /// Never.
    Never,
}

fn vector_rule(count: u8, scalar: Scalar) -> Rule
    ensures { result ≡ vector_rule_of count scalar }
{
    let written = Some(ShadeType::Plain(scalar));
    if count == 2 {
        return Rule::Row(Builtin::Vec2(written));
    }
    if count == 3 {
        return Rule::Row(Builtin::Vec3(written));
    }
    if count == 4 {
        return Rule::Row(Builtin::Vec4(written));
    }
    Rule::Never
}

fn bitcast_rule(count: u8, scalar: Scalar) -> Rule
    ensures { result ≡ bitcast_rule_of count scalar }
{
    if count == 1 {
        return Rule::Row(Builtin::Bitcast(Some(ShadeType::Plain(scalar))));
    }
    Rule::Row(Builtin::Bitcast(Some(ShadeType::Vector(count, scalar))))
}

/// The operator that an operation is, if it is one.
fn operator(op: Op) -> Option<Builtin>
    ensures { result ≡ operator_of op }
{
    let builtin = match op {
        Op::Add => Builtin::Add,
        Op::Subtract => Builtin::Subtract,
        Op::Multiply => Builtin::Multiply,
        Op::Divide => Builtin::Divide,
        Op::Remainder => Builtin::Remainder,
        Op::Negate => Builtin::Negate,
        Op::Complement => Builtin::Complement,
        Op::And => Builtin::And,
        Op::Or => Builtin::Or,
        Op::Xor => Builtin::Xor,
        Op::ShiftLeft => Builtin::ShiftLeft,
        Op::ShiftRight => Builtin::ShiftRight,
        Op::Equal => Builtin::Equal,
        Op::NotEqual => Builtin::NotEqual,
        Op::Less => Builtin::Less,
        Op::LessEqual => Builtin::LessEqual,
        Op::Greater => Builtin::Greater,
        Op::GreaterEqual => Builtin::GreaterEqual,
        Op::Not => Builtin::Not,
        Op::LogicalAnd => Builtin::LogicalAnd,
        Op::LogicalOr => Builtin::LogicalOr,
        _ => return None,
    };
    Some(builtin)
}

/// The function of values that an operation is, if it is one.
fn function(op: Op) -> Option<Builtin>
    ensures { result ≡ function_of op }
{
    let builtin = match op {
        Op::All => Builtin::All,
        Op::Any => Builtin::Any,
        Op::Select => Builtin::Select,
        Op::Abs => Builtin::Abs,
        Op::Sign => Builtin::Sign,
        Op::Min => Builtin::Min,
        Op::Max => Builtin::Max,
        Op::Clamp => Builtin::Clamp,
        Op::Dot => Builtin::Dot,
        Op::CountOneBits => Builtin::CountOneBits,
        Op::CountLeadingZeros => Builtin::CountLeadingZeros,
        Op::CountTrailingZeros => Builtin::CountTrailingZeros,
        Op::ReverseBits => Builtin::ReverseBits,
        Op::FirstLeadingBit => Builtin::FirstLeadingBit,
        Op::FirstTrailingBit => Builtin::FirstTrailingBit,
        Op::ExtractBits => Builtin::ExtractBits,
        Op::InsertBits => Builtin::InsertBits,
        _ => return None,
    };
    Some(builtin)
}

fn conversion_rule(scalar: Scalar) -> Rule
    ensures { result ≡ conversion_rule_of scalar }
{
    match scalar {
        Scalar::I32 => Rule::Row(Builtin::I32),
        Scalar::U32 => Rule::Row(Builtin::U32),
        Scalar::Bool => Rule::Row(Builtin::Bool),
        Scalar::Abstract => Rule::Never,
    }
}

/// How an operation takes types that is no operator and no function.
fn other_rule(op: Op) -> Rule
    ensures { result ≡ other_rule_of op }
{
    match op {
        Op::Convert(scalar) => conversion_rule(scalar),
        Op::Vector(count, scalar) => vector_rule(count, scalar),
        Op::Make(id) => Rule::Make(id),
        Op::Bitcast(count, scalar) => bitcast_rule(count, scalar),
        Op::Member(place) => Rule::Member(place),
        Op::Index => Rule::Index,
        Op::Swizzle(count, letters) => Rule::Swizzle(count, letters),
        _ => Rule::Never,
    }
}

/// How an operation takes types. Takes no memory.
pub fn rule_of(op: Op) -> Rule
    ensures { result ≡ rule_in op }
{
    if let Some(builtin) = operator(op) {
        return Rule::Row(builtin);
    }
    if let Some(builtin) = function(op) {
        return Rule::Row(builtin);
    }
    other_rule(op)
}

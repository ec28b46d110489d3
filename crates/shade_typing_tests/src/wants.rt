//! What is seen of a node, and of a fault.

use crate::reading::FRONT;
use shade_evaluate::{ConstFault, own_leaf};
use shade_known::{TypeRule, TypingFault, What, type_by_id};
use shade_values::{Scalar, ShadeType, TypeId, TypeTable, Value};

/// What a node is. Offsets are those behind the variables that stand before it.
#[derive(Clone, Copy, Debug, PartialEq, Eq, Drop)]
pub enum Want {
    /// A constant.
    One(Scalar, i64),
    Two(Scalar, i64, i64),
    /// A value of a type that is no constant, or one of more than two parts.
    Any(ShadeType),
    Pointer,
    /// Memory of a type.
    Memory(ShadeType),
    /// A call that is not asked.
    Left,
    Breaks(TypeRule, u32),
    OutOfProfile(u32),
    Overflow(u32),
    ZeroDivisor(u32),
    ShiftTooLarge(u32),
    NotConstant(u32),
    IndexOutside(u32),
    BadRange(u32),
    AssertFailed(u32),
    /// All steps were taken.
    Accepted,
    /// None of these.
    Other,
}

fn behind(offset: u32) -> u32 {
    offset.wrapping_sub(FRONT.len() as u32)
}

fn seen_constant(fault: ConstFault) -> Want {
    match fault {
        ConstFault::Overflow(at) => Want::Overflow(behind(at.offset)),
        ConstFault::ZeroDivisor(at) => Want::ZeroDivisor(behind(at.offset)),
        ConstFault::ShiftTooLarge(at) => Want::ShiftTooLarge(behind(at.offset)),
        ConstFault::NotConstant(at) => Want::NotConstant(behind(at.offset)),
        ConstFault::IndexOutside(at) => Want::IndexOutside(behind(at.offset)),
        ConstFault::BadRange(at) => Want::BadRange(behind(at.offset)),
        ConstFault::AssertFailed(at) => Want::AssertFailed(behind(at.offset)),
        ConstFault::NoMemory => Want::Other,
    }
}

pub fn seen_fault(fault: &TypingFault) -> Want {
    match fault {
        TypingFault::Rule { place, rule } => Want::Breaks(*rule, behind(place.offset)),
        TypingFault::OutOfProfile { place, .. } => Want::OutOfProfile(behind(place.offset)),
        TypingFault::Constant(fault) => seen_constant(*fault),
        TypingFault::NoMemory => Want::Other,
    }
}

fn seen_type(ty: Option<ShadeType>) -> Want {
    match ty {
        Some(ShadeType::Pointer(_, _, _)) => Want::Pointer,
        Some(ty) => Want::Any(ty),
        None => Want::Other,
    }
}

fn seen_value(ty: Option<ShadeType>, value: &Value) -> Want {
    match value {
        Value::One(leaf) => Want::One(leaf.scalar, leaf.number),
        Value::Many(parts) => match parts.as_slice() {
            [first, second] => {
                let (first, second) = (own_leaf(first), own_leaf(second));
                Want::Two(first.scalar, first.number, second.number)
            }
            _ => seen_type(ty),
        },
    }
}

fn seen_memory(types: &TypeTable, id: TypeId) -> Want {
    match type_by_id(types, id) {
        Some(ty) => Want::Memory(ty),
        None => Want::Other,
    }
}

pub fn seen_what(types: &TypeTable, what: Option<&What>) -> Want {
    match what {
        Some(
            What::Value {
                ty,
                value: Some(value),
                ..
            },
        ) => seen_value(type_by_id(types, *ty), value),
        Some(What::Value { ty, .. }) => seen_type(type_by_id(types, *ty)),
        Some(What::Reference { ty, .. }) => seen_memory(types, *ty),
        _ => Want::Other,
    }
}

//! Literals, parentheses, what is used as a value, conditions and assertions.

ghost use Rattle.std.specs.Prelude.{◌≡◌, IfOk, is_some};
ghost use Rattle.std.specs.Option.{option_copied};
ghost use Rattle.shade_const.specs.Constant.{decided_by, literal, suffix_scalar};
ghost use Rattle.shade_values.specs.Apply.{is_true};
ghost use Rattle.shade_values.specs.Parts.{own_leaf};
ghost use Rattle.shade_values.specs.Table.{Table};
ghost use Rattle.shade_known.specs.Keeps.{IsFoundOf};
ghost use Rattle.shade_typing.specs.Values.{as_assertion, as_condition, as_operand, as_value, constant_scalar, decided_found, decides_by, held, is_bool, is_pointer, is_usable, lazy_op, number_found, reference_found, same_found, truth_found, value_found};

use shade_ast::Infix;
use shade_base::Place;
use shade_evaluate::{ConstFault, own_leaf};
use shade_known::{
    Found, Known, Part, TypeRule, TypingFault, What, is_loadable, type_at, type_by_id, value_at,
    what_at,
};
use shade_lex::Suffix;
use shade_values::{Access, Leaf, Op, Scalar, ShadeType, Space, TypeTable, Value, copy_value};
use std::alloc::{AllocError, Global};

fn constant_scalar(leaf: Leaf) -> Found
    ensures { result ≡ constant_scalar leaf }
{
    Found::Value {
        ty: ShadeType::Plain(leaf.scalar),
        op: None,
        value: Some(Value::One(leaf)),
    }
}

fn suffix_scalar(suffix: Suffix) -> Scalar
    ensures { result ≡ suffix_scalar suffix }
{
    match suffix {
        Suffix::Plain => Scalar::Abstract,
        Suffix::Signed => Scalar::I32,
        Suffix::Unsigned => Scalar::U32,
    }
}

fn literal(number: u64, suffix: Suffix) -> Leaf
    ensures { result ≡ literal number suffix }
{
    let within = number.min(i64::MAX as u64);
    Leaf {
        scalar: suffix_scalar(suffix),
        number: within as i64,
    }
}

/// What a number is: a constant of the scalar that its suffix names, or of AbstractInt. One above 2^63 - 1, which no text has, is taken
/// as that.
pub fn number(number: u64, suffix: Suffix) -> Found
    ensures { result ≡ number_found number suffix }
{
    constant_scalar(literal(number, suffix))
}

/// What `true` and `false` are.
pub fn truth(flag: bool) -> Found
    ensures { result ≡ truth_found flag }
{
    constant_scalar(Leaf {
        scalar: Scalar::Bool,
        number: i64::from(flag),
    })
}

fn copied(alloc: Global, value: &Option<Value>) -> Result<Option<Value>, AllocError>
    ensures { IfOk result (λ o. o ≡ value.now) }
{
    match value {
        Some(value) => Ok(Some(copy_value(alloc, value)?)),
        None => Ok(None),
    }
}

fn value_found(ty: Option<ShadeType>, value: Option<Value>) -> Found
    ensures { result ≡ value_found ty value }
{
    match ty {
        Some(ty) => Found::Value {
            ty,
            op: None,
            value,
        },
        None => Found::Nothing,
    }
}

/// The memory of a type, if there is one.
pub(crate) fn reference_found(
    ty: Option<ShadeType>,
    space: Space,
    access: Access,
    part: Part,
    value: Option<Value>,
) -> Found
    ensures { result ≡ reference_found ty space access part value }
{
    match ty {
        Some(ty) => Found::Reference {
            ty,
            space,
            access,
            part,
            value,
        },
        None => Found::Nothing,
    }
}

/// Gives the value that a node is, or the memory that it names, for another node that is the same. Takes memory for the value.
pub fn same_as(alloc: Global, known: &Known, node: u32) -> Result<Found, AllocError>
    ensures same { IfOk result (λ f. f ≡ same_found known.now node) }
    ensures of { IfOk result (λ f. IsFoundOf known.now.types f) }
{
    match what_at(&known.facts, node) {
        Some(What::Value { ty, value, .. }) => {
            let value = copied(alloc, value)?;
            Ok(value_found(type_by_id(&known.types, *ty), value))
        }
        Some(
            What::Reference {
                ty,
                space,
                access,
                part,
                value,
            },
        ) => {
            let value = copied(alloc, value)?;
            let ty = type_by_id(&known.types, *ty);
            Ok(reference_found(ty, *space, *access, *part, value))
        }
        _ => Ok(Found::Nothing),
    }
}

/// The fault of a rule at a place.
pub(crate) fn breaks(place: Place, rule: TypeRule) -> TypingFault
    ensures { result ≡ TypingFault.Rule place rule }
{
    TypingFault::Rule { place, rule }
}

fn is_pointer(ty: Option<ShadeType>) -> bool
    ensures { result ≡ is_pointer ty }
{
    match ty {
        Some(ShadeType::Pointer(_, _, _)) => true,
        _ => false,
    }
}

fn is_usable(types: &TypeTable, what: Option<&What>) -> bool
    ensures { result ≡ is_usable types.now (option_copied what.entry) }
{
    match what {
        Some(What::Value { ty, .. }) => {
            is_pointer(type_by_id(types, *ty)) || is_loadable(types, *ty)
        }
        Some(What::Reference { ty, .. }) => is_loadable(types, *ty),
        _ => false,
    }
}

/// Whether a node is used as a value: the rule of conversions fails at its place where it is none, or names memory that cannot be loaded.
/// Takes no memory.
pub fn used_as_value(known: &Known, node: u32, place: Place) -> Result<Found, TypingFault>
    ensures answer { result ≡ as_value known.now node place }
    ensures of { IfOk result (λ f. IsFoundOf known.now.types f) }
{
    if is_usable(&known.types, what_at(&known.facts, node)) {
        return Ok(Found::Nothing);
    }
    Err(breaks(place, TypeRule::Conversion))
}

/// Whether a node is a value or names memory: the rule of conversions fails at its place where it does neither. Takes no memory.
pub fn used_as_operand(known: &Known, node: u32, place: Place) -> Result<Found, TypingFault>
    ensures answer { result ≡ as_operand known.now node place }
    ensures of { IfOk result (λ f. IsFoundOf known.now.types f) }
{
    if type_at(known, node).is_some() {
        return Ok(Found::Nothing);
    }
    Err(breaks(place, TypeRule::Conversion))
}

fn is_bool(ty: Option<ShadeType>) -> bool
    ensures { result ≡ is_bool ty }
{
    match ty {
        Some(ShadeType::Plain(Scalar::Bool)) => true,
        _ => false,
    }
}

/// Whether a node is a condition: the rule of conditions fails at its place where it is no bool. Takes no memory.
pub fn condition(known: &Known, node: u32, place: Place) -> Result<Found, TypingFault>
    ensures answer { result ≡ as_condition known.now node place }
    ensures of { IfOk result (λ f. IsFoundOf known.now.types f) }
{
    if is_bool(type_at(known, node)) {
        return Ok(Found::Nothing);
    }
    Err(breaks(place, TypeRule::Condition))
}

fn is_true(value: &Value) -> bool
    ensures { result ≡ is_true (own_leaf value.now) }
{
    let leaf = own_leaf(value);
    leaf.number != 0
}

fn held(value: Option<&Value>, place: Place, keyword: Place) -> Result<Found, TypingFault>
    ensures answer { result ≡ held (option_copied value.entry) place keyword }
    ensures of { (t : Table) → IfOk result (IsFoundOf t) }
{
    let Some(value) = value else {
        return Err(TypingFault::Constant(ConstFault::NotConstant(place)));
    };
    if is_true(value) {
        return Ok(Found::Nothing);
    }
    Err(TypingFault::Constant(ConstFault::AssertFailed(keyword)))
}

/// Whether a node is what a `const_assert` with this keyword asserts: the rule of conditions fails at its place where it is no bool; else
/// `NotConstant` there where it is no constant, and `AssertFailed` at the keyword where it is false. Takes no memory.
pub fn asserted(
    known: &Known,
    node: u32,
    place: Place,
    keyword: Place,
) -> Result<Found, TypingFault>
    ensures answer { result ≡ as_assertion known.now node place keyword }
    ensures of { IfOk result (λ f. IsFoundOf known.now.types f) }
{
    if is_bool(type_at(known, node)) {
        return held(value_at(&known.facts, node), place, keyword);
    }
    Err(breaks(place, TypeRule::Condition))
}

fn lazy_op(operator: Infix) -> Option<Op>
    ensures { result ≡ lazy_op operator }
{
    match operator {
        Infix::And => Some(Op::LogicalAnd),
        Infix::Or => Some(Op::LogicalOr),
        _ => None,
    }
}

fn is_decided(op: Op, left: bool) -> bool
    ensures { result ≡ is_some (decided_by op left) }
{
    match (op, left) {
        (Op::LogicalAnd, false) => true,
        (Op::LogicalOr, true) => true,
        _ => false,
    }
}

fn decides_by(op: Option<Op>, ty: Option<ShadeType>, value: Option<&Value>) -> bool
    ensures { result ≡ decides_by op ty (option_copied value.entry) }
{
    let Some(op) = op else {
        return false;
    };
    let Some(value) = value else {
        return false;
    };
    is_bool(ty) && is_decided(op, is_true(value))
}

/// Gives whether nobody asks for the right side of a `&&` or `||` with this node on its left. Takes no memory.
pub fn decides(known: &Known, idle: bool, operator: Infix, left: u32) -> Found
    ensures { result ≡ decided_found known.now idle operator left }
{
    let ty = type_at(known, left);
    let value = value_at(&known.facts, left);
    let decided = idle || decides_by(lazy_op(operator), ty, value);
    Found::Known(What::Decided(decided))
}

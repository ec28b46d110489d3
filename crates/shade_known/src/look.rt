//! Look-ups of what is known. A node of which nothing is known is no value, and has no type.

ghost use Rattle.std.specs.Prelude.{◌≡◌, IfOk, IfSome, All, slice_get};
ghost use Rattle.std.specs.Option.{option_copied};
ghost use Rattle.shade_values.specs.Layouts.{is_loadable as loadable};
ghost use Rattle.shade_values.specs.Shape.{shape_of};
ghost use Rattle.shade_values.specs.Sound.{IsOf, IsOver};
ghost use Rattle.shade_known.specs.Lookups.{what_in, type_in, type_of_node, value_of_node, first_untyped, types_of, values_of, is_idle};

use crate::known::{Facts, Known, Operand, What};
use shade_base::Place;
use shade_values::{ShadeType, TypeId, TypeTable, Value, copy_value};
use sqlite_items::Items;
use std::alloc::{AllocError, Global};

/// What is known of a node, if something is. Takes no memory.
pub fn what_at(facts: &Facts, node: u32) -> Option<&What>
    ensures { option_copied result ≡ what_in facts.now node }
{
    match facts.get(node as usize) {
        Some(Some(what)) => Some(what),
        _ => None,
    }
}

/// The type with an id, if the table has one. What it is made of has lower ids. Takes no memory.
pub fn type_by_id(table: &TypeTable, id: TypeId) -> Option<ShadeType>
    ensures ty { result ≡ slice_get table.now.types id.0 }
    ensures of { IfSome result (λ ty. IsOf table.now ty) }
    ensures over { IfSome result (λ ty. IsOver id.0 table.now.structs ty) }
{
    if id.0 < table.count() {
        return Some(*table.get(id));
    }
    None
}

/// The type of the value that something is or names.
fn type_in(table: &TypeTable, what: Option<&What>) -> Option<ShadeType>
    ensures ty { result ≡ type_in table.now (option_copied what.entry) }
    ensures of { IfSome result (λ ty. IsOf table.now ty) }
{
    match what {
        Some(What::Value { ty, .. }) => type_by_id(table, *ty),
        Some(What::Reference { ty, .. }) => type_by_id(table, *ty),
        _ => None,
    }
}

/// The type of the value that a node is, or that the memory has which it names. Takes no memory.
pub fn type_at(known: &Known, node: u32) -> Option<ShadeType>
    ensures ty { result ≡ type_of_node known.now node }
    ensures of { IfSome result (λ ty. IsOf known.now.types ty) }
{
    type_in(&known.types, what_at(&known.facts, node))
}

/// The value of a node, if it is constant. Takes no memory.
pub fn value_at(facts: &Facts, node: u32) -> Option<&Value>
    ensures { option_copied result ≡ value_of_node facts.now node }
{
    match what_at(facts, node) {
        Some(
            What::Value {
                value: Some(value),
                ..
            },
        ) => Some(value),
        _ => None,
    }
}

/// Whether a shader may load values of the type with an id: of none where the table lacks it. Takes no memory.
pub fn is_loadable(table: &TypeTable, id: TypeId) -> bool
    ensures { result ≡ loadable (shape_of table.now id) }
{
    if id.0 < table.count() {
        return table.is_loadable(id);
    }
    false
}

/// The place of the first operand that is no value, and names none. Takes no memory.
pub(crate) fn first_untyped(known: &Known, operands: &[Operand]) -> Option<Place>
    ensures { result ≡ first_untyped known.now operands.now }
{
    for operand in operands {
        if type_at(known, operand.node).is_none() {
            return Some(operand.place);
        }
    }
    None
}

/// The types of the operands that are values.
pub fn types_of(
    alloc: Global,
    known: &Known,
    operands: &[Operand],
) -> Result<Vec<ShadeType>, AllocError>
    ensures types { IfOk result (λ v. v.items ≡ types_of known.now operands.now) }
    ensures of { IfOk result (λ v. All (IsOf known.now.types) v.items) }
{
    let mut made = Vec::new(alloc);
    for operand in operands {
        if let Some(ty) = type_at(known, operand.node) {
            made.push(ty)?;
        }
    }
    Ok(made)
}

/// Copies of the values of some operands, if all are constant.
pub fn values_of(
    alloc: Global,
    facts: &Facts,
    operands: &[Operand],
) -> Result<Option<Items<Value>>, AllocError>
    ensures { IfOk result (λ o. o ≡ values_of facts.now operands.now) }
{
    let mut made = Items::new(alloc);
    for operand in operands {
        let Some(value) = value_at(facts, operand.node) else {
            return Ok(None);
        };
        made.push(copy_value(alloc, value)?)?;
    }
    Ok(Some(made))
}

/// Whether nobody asks for what stands in the right side of this `&&` or `||`. Takes no memory.
pub fn is_idle(facts: &Facts, under: Option<u32>) -> bool
    ensures { result ≡ is_idle facts.now under }
{
    let Some(whole) = under else {
        return false;
    };
    match what_at(facts, whole) {
        Some(What::Decided(decided)) => *decided,
        _ => false,
    }
}

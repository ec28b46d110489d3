//! What is found of nodes, kept.

ghost use Rattle.std.specs.Prelude.{◌≡◌, Err, OnOk, OnErr, IfOk, IfErr};
ghost use Rattle.shade_values.specs.Sound.{IsOf};
ghost use Rattle.shade_known.specs.Keeps.{IsIdOf, IsLargeIn, IsFoundLarge, IsFoundOf, IsUnkept, Keeps, with_fact};

use crate::fault::{TypeRule, TypingFault};
use crate::known::{Facts, Found, Known, Part, What};
use shade_base::Place;
use shade_values::{Access, ShadeType, Space, TableFault, TypeId, TypeTable, Value};

/// Replaces what is known of a node. A number of no node changes nothing.
fn put(facts: &mut Facts, node: u32, what: What)
    ensures { facts.new ≡ with_fact facts.old node what }
{
    let at = node as usize;
    if at < facts.len() {
        facts.set(at, Some(what));
    }
}

/// Gives the id of a type, new or not, over the types of a table. `Size` at the place exactly where the type has too many bytes; want of
/// memory also where the table is full. The table is as it was then.
pub fn id_of(table: &mut TypeTable, place: Place, ty: ShadeType) -> Result<TypeId, TypingFault>
    requires { IsOf table.old ty }
    ensures id { IfOk result (IsIdOf table.old table.new ty) }
    ensures small { OnOk result (¬ IsLargeIn table.old ty) }
    ensures refused { IfErr result (IsUnkept place (IsLargeIn table.old ty)) }
    ensures kept { OnErr result (table.new ≡ table.old) }
{
    if table.count() == u32::MAX {
        return Err(TypingFault::NoMemory);
    }
    match table.add(ty) {
        Ok(id) => Ok(id),
        Err(TableFault::TooLarge(_)) => Err(TypingFault::Rule {
            place,
            rule: TypeRule::Size,
        }),
        Err(TableFault::NoMemory) => Err(TypingFault::NoMemory),
    }
}

/// A fault, which lets go of what was to be kept.
fn refuse<H: Drop>(fault: TypingFault, held: H) -> Result<(), TypingFault>
    ensures { result ≡ Err fault }
{
    Err(fault)
}

/// What is known of a node that names memory.
fn reference_of(ty: TypeId, space: Space, access: Access, part: Part, value: Option<Value>) -> What
    ensures { result ≡ What.Reference ty space access part value }
{
    What::Reference {
        ty,
        space,
        access,
        part,
        value,
    }
}

/// Keeps what is found of a node: its type gets an id, new or not, and the node has the fact in place of what was known of it. Where
/// nothing is found, what was known of it stays.
///
/// `Size` at the place exactly where the type has too many bytes; want of memory also where the table is full. All is as it was then.
pub fn keep(known: &mut Known, node: u32, place: Place, found: Found) -> Result<(), TypingFault>
    requires { IsFoundOf known.old.types found }
    ensures kept { OnOk result (Keeps known.old node found known.new) }
    ensures small { OnOk result (¬ IsFoundLarge known.old.types found) }
    ensures refused { IfErr result (IsUnkept place (IsFoundLarge known.old.types found)) }
    ensures same { OnErr result (known.new ≡ known.old) }
{
    match found {
        Found::Value { ty, op, value } => match id_of(&mut known.types, place, ty) {
            Ok(id) => put(&mut known.facts, node, What::Value { ty: id, op, value }),
            Err(fault) => return refuse(fault, value),
        },
        Found::Reference {
            ty,
            space,
            access,
            part,
            value,
        } => match id_of(&mut known.types, place, ty) {
            Ok(id) => put(
                &mut known.facts,
                node,
                reference_of(id, space, access, part, value),
            ),
            Err(fault) => return refuse(fault, value),
        },
        Found::Type { ty, bad_access } => {
            let id = id_of(&mut known.types, place, ty)?;
            put(&mut known.facts, node, What::Type { ty: id, bad_access });
        }
        Found::Known(what) => put(&mut known.facts, node, what),
        Found::Nothing => (),
    }
    Ok(())
}

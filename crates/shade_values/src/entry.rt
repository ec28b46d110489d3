//! What a table keeps of each type and each struct.

ghost use Rattle.std.specs.Prelude.{◌≡◌, ◌<◌, ◌≤◌, ◌++◌, ◌∷◌, [], OnOk, OnErr, IfOk, IfErr};

use crate::name::Name;
use crate::table::TableFault;
use crate::types::{Layout, ShadeType, TypeId};
use std::alloc::{AllocError, Global};
use std::marker::Model;

/// A type, how it lies in memory, and whether it is loadable.
#[derive(Debug, Drop)]
pub(crate) struct Entry {
    pub(crate) ty: ShadeType,
    pub(crate) layout: Layout,
    pub(crate) loadable: bool,
    ghost sized: { layout.size ≤ 4294967295 },
    ghost aligned: { 0 < layout.align },
    ghost near: { layout.align ≤ 16 },
}

/// A struct of a shader: its name, and its members in order.
#[derive(Debug, Drop)]
pub(crate) struct Struct {
    pub(crate) name: Name,
    pub(crate) members: Vec<(Name, TypeId)>,
}

impl Model for Struct {
    ghost use Rattle.shade_values.specs.Table.{StructView};

    ghost Value = { StructView };

    ghost view = { λ s. record { name = s.name; members = s.members.items } };
}

/// Adds an entry at the end.
pub(crate) fn push(entries: &mut Vec<Entry>, entry: Entry) -> Result<(), TableFault>
    ensures pushed { OnOk result (entries.new.items ≡ entries.old.items ++ entry ∷ []) }
    ensures refused { OnErr result (entries.new.items ≡ entries.old.items) }
    ensures cause { IfErr result (λ fault. fault ≡ TableFault.NoMemory) }
{
    entries.push(entry).map_err(|_| TableFault::NoMemory)?;
    Ok(())
}

/// Adds a struct at the end, and the entry of its type.
pub(crate) fn push_struct(
    entries: &mut Vec<Entry>,
    entry: Entry,
    structs: &mut Vec<Struct>,
    known: Struct,
) -> Result<(), TableFault>
    ensures entries { OnOk result (entries.new.items ≡ entries.old.items ++ entry ∷ []) }
    ensures structs { OnOk result (structs.new.items ≡ structs.old.items ++ known ∷ []) }
    ensures no_entry { OnErr result (entries.new.items ≡ entries.old.items) }
    ensures no_struct { OnErr result (structs.new.items ≡ structs.old.items) }
    ensures cause { IfErr result (λ fault. fault ≡ TableFault.NoMemory) }
{
    structs.reserve(1).map_err(|_| TableFault::NoMemory)?;
    push(entries, entry)?;
    structs.push_reserved(known);
    Ok(())
}

/// The struct with this name and these members.
pub(crate) fn copy_struct(
    alloc: Global,
    name: &str,
    members: &[(Name, TypeId)],
) -> Result<Struct, TableFault>
    ensures copy { IfOk result (λ s. s ≡ record { name = name.now; members = members.now }) }
    ensures cause { IfErr result (λ fault. fault ≡ TableFault.NoMemory) }
{
    copied(alloc, name, members).map_err(|_| TableFault::NoMemory)
}

fn copied(alloc: Global, name: &str, members: &[(Name, TypeId)]) -> Result<Struct, AllocError>
    ensures { IfOk result (λ s. s ≡ record { name = name.now; members = members.now }) }
{
    let name = Name::from_text(alloc, name)?;
    let mut copies = Vec::with_capacity(alloc, members.len())?;
    for (member, id) in members {
        copies.push((member.clone()?, *id))?;
    }
    Ok(Struct {
        name,
        members: copies,
    })
}

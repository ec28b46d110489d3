//! What a `struct` declares.

ghost use Rattle.std.specs.Prelude.{◌≡◌, ◌<◌, ◌||◌, ◌++◌, ◌∷◌, [], false, IfErr, IfOk, OnErr, OnOk, length, map, slice_get};
ghost use Rattle.std.specs.List.{list_any};
ghost use Rattle.shade_shape.specs.Depths.{depth_in, depth_of};
ghost use Rattle.shade_values.specs.Kept.{struct_shape};
ghost use Rattle.shade_values.specs.Layouts.{IsLarge};
ghost use Rattle.shade_values.specs.Shape.{shapes};
ghost use Rattle.shade_values.specs.Sound.{AreKnown};
ghost use Rattle.shade_values.specs.Table.{with_struct};
ghost use Rattle.shade_known.specs.Keeps.{IsUnkept, with_fact};
ghost use Rattle.shade_declarations.specs.Depths.{are_deep};
ghost use Rattle.shade_declarations.specs.Structs.{IsDeclared, IsRefused, is_no_struct, is_none, is_pointer_type, member_of, members_of, text_of};

use crate::spaces::is_pointer;
use crate::types::{breaks, written_id};
use shade_ast::Names;
use shade_base::Place;
use shade_events::text_of;
use shade_known::{Facts, Known, Operand, TypeRule, TypingFault, What, type_by_id};
use shade_steps::MemberParts;
use shade_values::{Name, ShadeType, TableFault, TypeId, TypeTable};
use std::alloc::{AllocError, Global};

/// The text of the name with a number, which is empty where there is none.
fn name_text(names: &Names, name: u32) -> &str
    ensures { result.now ≡ text_of names.now name }
{
    match text_of(names, name) {
        Some(text) => text,
        None => "",
    }
}

/// Adds a member with this name and this type.
fn add_typed(
    alloc: Global,
    text: &str,
    id: TypeId,
    made: &mut Vec<(Name, TypeId)>,
) -> Result<(), AllocError>
    ensures { OnOk result (made.new.items ≡ made.old.items ++ (text.now, id) ∷ []) }
{
    let name = Name::from_text(alloc, text)?;
    made.push((name, id))?;
    Ok(())
}

/// Adds a member by the name and the type of it, if it has a type.
fn add_member(
    alloc: Global,
    known: &Known,
    names: &Names,
    member: &MemberParts,
    made: &mut Vec<(Name, TypeId)>,
) -> Result<(), AllocError>
    ensures { OnOk result (made.new.items ≡ made.old.items ++ member_of known.now names.now member.now) }
{
    match written_id(known, member.ty) {
        Some(id) => match type_by_id(&known.types, id) {
            Some(_) => add_typed(alloc, name_text(names, member.name.name), id, made),
            None => Ok(()),
        },
        None => Ok(()),
    }
}

/// The members of a struct: the name and the type of each that has a type.
fn members_of(
    alloc: Global,
    known: &Known,
    names: &Names,
    members: &[MemberParts],
) -> Result<Vec<(Name, TypeId)>, AllocError>
    ensures { IfOk result (λ v. v.items ≡ members_of known.now names.now members.now) }
{
    let mut made = Vec::new(alloc);
    for member in members {
        add_member(alloc, known, names, member, &mut made)?;
    }
    Ok(made)
}

fn is_pointer_type(ty: Option<ShadeType>) -> bool
    ensures { result ≡ is_pointer_type ty }
{
    match ty {
        Some(ty) => is_pointer(ty),
        None => false,
    }
}

fn has_pointer(table: &TypeTable, members: &[(Name, TypeId)]) -> bool
    ensures { result ≡ list_any (λ m. is_pointer_type (slice_get table.now.types m.1.0)) members.now }
{
    members
        .iter()
        .any(|(_, id)| is_pointer_type(type_by_id(table, *id)))
}

/// How deep the type with an id is nested, as is kept of it.
fn depth_at(depths: &[u32], id: TypeId) -> u32
    ensures { result ≡ depth_in depths.now id }
{
    match depths.get(id.0 as usize) {
        Some(depth) => *depth,
        None => 0,
    }
}

/// Arrays and structs are nested at most so deep.
const GREATEST_NESTING: u32 = 255;

fn are_deep(depths: &[u32], members: &[(Name, TypeId)]) -> bool
    ensures { result ≡ are_deep depths.now members.now }
{
    members
        .iter()
        .any(|(_, id)| GREATEST_NESTING <= depth_at(depths, *id))
}

fn either(empty: bool, pointer: bool, deep: bool) -> bool
    ensures { result ≡ (empty || (pointer || deep)) }
{
    empty || (pointer || deep)
}

fn is_empty(members: &[(Name, TypeId)]) -> bool
    ensures { result ≡ is_none members.now }
{
    match members.first() {
        Some(_) => false,
        None => true,
    }
}

fn is_no_struct(table: &TypeTable, depths: &[u32], members: &[(Name, TypeId)]) -> bool
    requires { depths.now ≡ map depth_of (shapes table.now) }
    ensures { result ≡ is_no_struct table.now members.now }
{
    let empty = is_empty(members);
    let pointer = has_pointer(table, members);
    let deep = are_deep(depths, members);
    either(empty, pointer, deep)
}

/// The id of a new struct. `Size` at the place exactly where it has too many bytes; want of memory also where the table is full.
fn struct_id(
    table: &mut TypeTable,
    at: Place,
    name: &str,
    members: &[(Name, TypeId)],
) -> Result<TypeId, TypingFault>
    requires some { 0 < length members.now }
    requires known { AreKnown (length table.old.types) members.now }
    ensures id { IfOk result (λ id. id.0 ≡ length table.old.types) }
    ensures added { OnOk result (table.new ≡ with_struct table.old name.now members.now) }
    ensures small { OnOk result (¬ IsLarge (struct_shape table.old members.now)) }
    ensures refused { IfErr result (IsUnkept at (IsLarge (struct_shape table.old members.now))) }
    ensures kept { OnErr result (table.new ≡ table.old) }
{
    if table.count() == u32::MAX {
        return Err(TypingFault::NoMemory);
    }
    match table.add_struct(name, members) {
        Ok(id) => Ok(id),
        Err(TableFault::TooLarge(_)) => Err(breaks(at, TypeRule::Size)),
        Err(TableFault::NoMemory) => Err(TypingFault::NoMemory),
    }
}

/// Replaces what is known of a node. A number of no node changes nothing.
fn put(facts: &mut Facts, node: u32, what: What)
    ensures { facts.new ≡ with_fact facts.old node what }
{
    let at = node as usize;
    if at < facts.len() {
        facts.set(at, Some(what));
    }
}

/// The name of a struct: its node and place, and its number.
#[derive(Clone, Copy, Debug, PartialEq, Eq)]
pub struct StructName {
    pub own: Operand,
    pub name: u32,
}

/// Declares a struct whose first token stands at a place: a new type of the table, which is what its name is, by how deep each type is
/// nested.
///
/// `Template` at that place where no member has a type, one is a pointer, or they are nested too deep; else `Size` at the name where the struct
/// has too many bytes; want of memory also where the table is full. All is as it was then. Takes memory for names and members.
pub fn declare_struct(
    alloc: Global,
    known: &mut Known,
    depths: &[u32],
    names: &Names,
    place: Place,
    name: StructName,
    members: &[MemberParts],
) -> Result<(), TypingFault>
    requires { depths.now ≡ map depth_of (shapes known.old.types) }
    ensures refused { IfErr result (IsRefused known.old.types (members_of known.old names.now members.now) place name.own.place) }
    ensures declared { OnOk result (IsDeclared known.old known.new (text_of names.now name.name) (members_of known.old names.now members.now) name.own.node) }
    ensures same { OnErr result (known.new ≡ known.old) }
{
    let made = members_of(alloc, known, names, members)?;
    if is_no_struct(&known.types, depths, &made) {
        return Err(breaks(place, TypeRule::Template));
    }
    let text = name_text(names, name.name);
    let id = struct_id(&mut known.types, name.own.place, text, &made)?;
    put(&mut known.facts, name.own.node, struct_type(id));
    Ok(())
}

fn struct_type(ty: TypeId) -> What
    ensures { result ≡ What.Type ty false }
{
    What::Type {
        ty,
        bad_access: false,
    }
}

//! The table of the types of a module.

ghost use Rattle.std.specs.Prelude.{◌≡◌, ◌<◌, ◌≤◌, ◌^◌, ◌-◌, length, slice_get, IsOk, IfOk, IfErr, OnOk, OnErr, Contains};
ghost use Rattle.shade_values.specs.Table.{with_type, with_struct, no_types, members_at};
ghost use Rattle.shade_values.specs.Shape.{shapes, shape_of, spell, member_shapes, structure};
ghost use Rattle.shade_values.specs.Layouts.{layout, is_loadable, greatest_size, IsLarge};
ghost use Rattle.shade_values.specs.Kept.{too_large, struct_shape};
ghost use Rattle.shade_values.specs.Sound.{IsSound, IsOf, AreKnown, Grows};

use crate::entry::{Entry, Struct};
use crate::name::Name;
use crate::types::{Layout, ShadeType, TypeId};
use crate::{entry, layouts};
use std::alloc::Global;
use std::marker::Model;
use thiserror::Error;

/// Why a type was not added.
#[derive(Clone, Copy, Debug, PartialEq, Eq, Error)]
pub enum TableFault {
    /// The type would have this size in bytes, which is above 4,294,967,295.
    #[error("a type of too many bytes")]
    TooLarge(u128),
    #[error("no memory")]
    NoMemory,
}

/// The types of a module, each with its id.
#[derive(Debug, Drop)]
pub struct TypeTable {
    entries: Vec<Entry>,
    structs: Vec<Struct>,
}

impl Model for TypeTable {
    ghost use Rattle.shade_values.specs.Table.{Table};

    ghost Value = { Table };

    ghost use Rattle.shade_values.specs.Kept.{table_of, IsKept};

    ghost view = { λ t. table_of t.entries.items t.structs.items };

    ghost invariant = { λ t. IsKept t.entries.items t.structs.items };
}

impl TypeTable {
    /// The table without types. Takes no memory.
    pub fn new(alloc: Global) -> TypeTable
        ensures { result ≡ no_types }
    {
        TypeTable {
            entries: Vec::new(alloc),
            structs: Vec::new(alloc),
        }
    }

    /// The id of a type: that of a known one, which takes no memory, or the next one for a new one.
    /// `TooLarge` has the size in bytes that the type would have.
    pub fn add(&mut self, ty: ShadeType) -> Result<TypeId, TableFault>
        requires room { length self.old.types < 2 ^ 32 - 1 }
        requires parts { IsOf self.old ty }
        ensures id { IfOk result (λ id. slice_get self.new.types id.0 ≡ Some ty) }
        ensures known { Contains self.old.types ty → IsOk result × (self.new ≡ self.old) }
        ensures new { ¬ Contains self.old.types ty → OnOk result (self.new ≡ with_type self.old ty) }
        ensures grows { Grows self.old self.new }
        ensures large { IsLarge (spell self.old.structs (shapes self.old) ty) → result ≡ too_large (spell self.old.structs (shapes self.old) ty) }
        ensures small { ¬ IsLarge (spell self.old.structs (shapes self.old) ty) → IfErr result (λ fault. fault ≡ TableFault.NoMemory) }
        ensures refused { OnErr result (self.new ≡ self.old) }
    {
        if let Some(place) = layouts::place_of(&self.entries, ty) {
            return Ok(TypeId(place as u32));
        }
        self.add_new(ty)
    }

    fn add_new(&mut self, ty: ShadeType) -> Result<TypeId, TableFault>
        requires room { length self.old.types < 2 ^ 32 - 1 }
        requires parts { IsOf self.old ty }
        requires new { ¬ Contains self.old.types ty }
        ensures id { IfOk result (λ id. id.0 ≡ length self.old.types) }
        ensures added { OnOk result (self.new ≡ with_type self.old ty) }
        ensures large { IsLarge (spell self.old.structs (shapes self.old) ty) → result ≡ too_large (spell self.old.structs (shapes self.old) ty) }
        ensures small { ¬ IsLarge (spell self.old.structs (shapes self.old) ty) → IfErr result (λ fault. fault ≡ TableFault.NoMemory) }
        ensures refused { OnErr result (self.new ≡ self.old) }
    {
        let layout = layouts::layout_of_type(&self.entries, &self.structs, ty)?;
        let loadable = layouts::type_is_loadable(&self.entries, &self.structs, ty);
        let id = TypeId(self.entries.len() as u32);
        entry::push(
            &mut self.entries,
            Entry {
                ty,
                layout,
                loadable,
            },
        )?;
        Ok(id)
    }

    /// The id of a new struct, which is the next one, whatever other structs there are.
    /// `TooLarge` has the size in bytes that the struct would have.
    pub fn add_struct(
        &mut self,
        name: &str,
        members: &[(Name, TypeId)],
    ) -> Result<TypeId, TableFault>
        requires room { length self.old.types < 2 ^ 32 - 1 }
        requires some { 0 < length members.now }
        requires known { AreKnown (length self.old.types) members.now }
        ensures id { IfOk result (λ id. id.0 ≡ length self.old.types) }
        ensures added { OnOk result (self.new ≡ with_struct self.old name.now members.now) }
        ensures large { IsLarge (struct_shape self.old members.now) → result ≡ too_large (struct_shape self.old members.now) }
        ensures small { ¬ IsLarge (struct_shape self.old members.now) → IfErr result (λ fault. fault ≡ TableFault.NoMemory) }
        ensures refused { OnErr result (self.new ≡ self.old) }
    {
        let layout = layouts::layout_of_struct(&self.entries, members)?;
        let loadable = layouts::struct_is_loadable(&self.entries, members);
        let known = entry::copy_struct(*self.structs.allocator(), name, members)?;
        let ty = ShadeType::Struct(self.structs.len() as u32);
        let id = TypeId(self.entries.len() as u32);
        let entry = Entry {
            ty,
            layout,
            loadable,
        };
        entry::push_struct(&mut self.entries, entry, &mut self.structs, known)?;
        Ok(id)
    }

    /// The type with an id. Takes no memory.
    pub fn get(&self, id: TypeId) -> &ShadeType
        requires { id.0 < length self.now.types }
        ensures ty { slice_get self.now.types id.0 ≡ Some result.now }
        ensures sound { IsSound self.now }
    {
        &self.entries[id.0 as usize].ty
    }

    /// How the type with an id lies in memory. Takes no memory.
    pub fn layout_of(&self, id: TypeId) -> Layout
        requires { id.0 < length self.now.types }
        ensures layout { result ≡ layout (shape_of self.now id) }
        ensures sized { result.size ≤ greatest_size }
        ensures aligned { 0 < result.align }
        ensures sound { IsSound self.now }
    {
        let entry = &self.entries[id.0 as usize];
        entry.layout
    }

    /// The members of the struct with a number, each with its name. Takes no memory.
    pub fn members(&self, number: u32) -> &[(Name, TypeId)]
        requires { number < length self.now.structs }
        ensures { result.now ≡ members_at self.now.structs number }
    {
        let known = &self.structs[number as usize];
        known.members.as_slice()
    }

    /// Whether a shader may load values of the type with an id. Takes no memory.
    pub fn is_loadable(&self, id: TypeId) -> bool
        requires { id.0 < length self.now.types }
        ensures { result ≡ is_loadable (shape_of self.now id) }
    {
        let entry = &self.entries[id.0 as usize];
        entry.loadable
    }

    /// How many types there are. Their ids are the numbers below. Takes no memory.
    pub fn count(&self) -> u32
        ensures count { result ≡ length self.now.types }
        ensures sound { IsSound self.now }
    {
        self.entries.len() as u32
    }
}

//! The types of a module, each with what holds of it.

ghost use Rattle.std.specs.Prelude.{◌≡◌, ◌<◌, ◌↔◌, IsTrue, IfOk, length};
ghost use Rattle.shade_core.specs.Types.{NamesHeld, type_at};
ghost use Rattle.shade_shape.specs.Facts.{facts_of};
ghost use Rattle.shade_values.specs.Shape.{shape_of};

use crate::facts::{TypeFacts, fact_at, facts_of_types};
use shade_values::{ShadeType, TypeId, TypeTable};
use std::alloc::{AllocError, Global};
use std::marker::Model;

/// The types of a module, each with what holds of it. Contracts see the table.
#[derive(Drop)]
pub struct Types<'m> {
    table: &'m TypeTable,
    facts: Vec<TypeFacts>,
}

impl<'m> Model for Types<'m> {
    ghost use Rattle.shade_values.specs.Table.{Table};

    ghost Value = { Table };

    ghost use Rattle.shade_shape.specs.Facts.{AreFacts};

    ghost view = { λ t. t.table.now };

    ghost invariant = { λ t. AreFacts t.table.now t.facts.items };
}

impl<'m> Types<'m> {
    /// The types of a table.
    pub fn new(alloc: Global, table: &'m TypeTable) -> Result<Types<'m>, AllocError>
        ensures { IfOk result (λ types. types ≡ table.now) }
    {
        let facts = facts_of_types(alloc, table)?;
        let _sound = table.count();
        Ok(Types { table, facts })
    }

    /// How many types there are. Takes no memory.
    pub fn count(&self) -> u32
        ensures { result ≡ length self.now.types }
    {
        self.table.count()
    }

    /// The table itself. Takes no memory.
    pub fn table(&self) -> &TypeTable
        ensures { result.now ≡ self.now }
    {
        self.table
    }

    /// The type with an id, if there is one. Takes no memory.
    pub fn get(&self, id: TypeId) -> Option<ShadeType>
        ensures { result ≡ type_at self.now id }
    {
        if id.0 < self.table.count() {
            Some(*self.table.get(id))
        } else {
            None
        }
    }

    /// What holds of the type with an id, and of a pointer where no type has it. Takes no memory.
    pub fn facts(&self, id: TypeId) -> TypeFacts
        ensures { result ≡ facts_of (shape_of self.now id) }
    {
        fact_at(&self.facts, id)
    }

    /// Whether an id names a type whose values a shader may hold. Takes no memory.
    pub fn is_held(&self, id: TypeId) -> bool
        ensures { IsTrue result ↔ NamesHeld self.now id }
    {
        let _ = &self.table;
        if id.0 >= self.count() {
            return false;
        }
        self.facts(id).is_constructible()
    }
}

//! The definitions that reach, in order.

ghost use Rattle.std.specs.Prelude.{◌≡◌, IfOk};
ghost use Rattle.shade_flow.specs.Exact.{IsReadOf};

use crate::chunk::Chunk;
use crate::chunks::definitions_before;
use crate::numbers::number_of;
use crate::{Definition, Point};
use shade_core::Base;
use std::alloc::{AllocError, Global};
use std::marker::Model;

/// A list of definitions, each before those of a later statement or argument.
#[derive(Debug, Drop)]
pub struct Definitions {
    items: Vec<Definition>,
}

impl Model for Definitions {
    ghost use Rattle.std.specs.Prelude.{List};
    ghost use Rattle.shade_flow.specs.declared.definition.Definition.{Definition};

    ghost Value = { List Definition };

    ghost view = { λ d. d.items.items };
}

impl Definitions {
    /// The definitions in order. Takes no memory.
    pub fn from_vec(items: Vec<Definition>) -> Definitions
        ensures { result ≡ items.items }
    {
        Definitions { items }
    }

    /// Gives the vector back. Takes no memory.
    pub fn into_vec(self) -> Vec<Definition>
        ensures { result.items ≡ self }
    {
        let Definitions { items } = self;
        items
    }

    /// The definitions in order.
    pub fn as_slice(&self) -> &[Definition]
        ensures { result.now ≡ self.now }
    {
        self.items.as_slice()
    }
}

/// Which definitions reach the statements of a function.
#[derive(Drop)]
pub struct Reaching {
    pub(crate) chunks: Vec<Chunk>,
}

impl Reaching {
    /// Gives the definitions of a tracked variable that reach the point before a statement, in their order, if the statements
    /// of the function are numbered in structure order.
    ///
    /// Takes memory for those definitions alone.
    pub fn before(
        &self,
        alloc: Global,
        statement: u32,
        variable: Base,
    ) -> Result<Definitions, AllocError>
        ensures { IfOk result (IsReadOf self.now statement variable) }
    {
        let point = number_of(Point::At(statement));
        let found = definitions_before(alloc, &self.chunks, point, variable)?;
        Ok(Definitions::from_vec(found))
    }
}

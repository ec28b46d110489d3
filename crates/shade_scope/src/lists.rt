//! What is known of each node of a tree, which contracts see as lists.

ghost use Rattle.std.specs.Prelude.{◌≡◌};

use crate::scoped::Meaning;
use shade_base::Severity;
use std::marker::Model;

/// For each node what its name means, where it is a use of a name.
#[derive(Debug, Drop)]
pub struct Uses {
    items: Vec<Option<Meaning>>,
}

impl Model for Uses {
    ghost use Rattle.std.specs.Prelude.{List, Option};
    ghost use Rattle.shade_scope.specs.declared.scoped.Meaning.{Meaning};

    ghost Value = { List (Option Meaning) };

    ghost view = { λ l. l.items.items };
}

impl Uses {
    /// Makes the list of meanings in the order of their nodes. Takes no memory.
    pub fn from_vec(items: Vec<Option<Meaning>>) -> Uses
        ensures { result ≡ items.items }
    {
        Uses { items }
    }

    /// Gives the vector back. Takes no memory.
    pub fn into_vec(self) -> Vec<Option<Meaning>>
        ensures { result.items ≡ self }
    {
        let Uses { items } = self;
        items
    }

    /// Gives the meanings in the order of their nodes. Takes no memory.
    pub fn as_slice(&self) -> &[Option<Meaning>]
        ensures { result.now ≡ self.now }
    {
        self.items.as_slice()
    }
}

/// For each node how grave a violation is there.
#[derive(Debug, Drop)]
pub struct Filters {
    items: Vec<Severity>,
}

impl Model for Filters {
    ghost use Rattle.std.specs.Prelude.{List};
    ghost use Rattle.shade_base.specs.declared.severity.Severity.{Severity};

    ghost Value = { List Severity };

    ghost view = { λ l. l.items.items };
}

impl Filters {
    /// Makes the list of severities in the order of their nodes. Takes no memory.
    pub fn from_vec(items: Vec<Severity>) -> Filters
        ensures { result ≡ items.items }
    {
        Filters { items }
    }

    /// Gives the vector back. Takes no memory.
    pub fn into_vec(self) -> Vec<Severity>
        ensures { result.items ≡ self }
    {
        let Filters { items } = self;
        items
    }

    /// Gives the severities in the order of their nodes. Takes no memory.
    pub fn as_slice(&self) -> &[Severity]
        ensures { result.now ≡ self.now }
    {
        self.items.as_slice()
    }
}

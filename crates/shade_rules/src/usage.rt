//! What functions read and write of what callers see, as sets.

ghost use Rattle.std.specs.Prelude.{◌≡◌, OnOk};
ghost use Rattle.shade_rules.specs.Gathered.{HasVariable, SeesVariable};
ghost use Rattle.shade_rules.specs.Sets.{Adds, AddsSeen, HasSeen, HasUsage, has as has_in, has_seen};
ghost use Rattle.shade_rules.specs.Usages.{Usage, usage};
ghost use Rattle.shade_rules.specs.declared.usage.Seen.{Seen as AnySeen};

use crate::number_set::NumberSet;
use std::alloc::{AllocError, Global};

/// What a caller sees of a function.
#[derive(Clone, Copy, Debug, PartialEq, Eq)]
pub enum Seen {
    /// What the pointer points to that stands for the parameter with this number.
    Parameter(u32),
    /// The variable of the module with this number.
    Variable(u32),
}

/// What a function does with it.
#[derive(Clone, Copy, Debug, PartialEq, Eq)]
pub enum UsageKind {
    Read,
    Write,
}

/// What is read, or what is written.
#[derive(Drop)]
pub struct SeenSet {
    parameters: NumberSet,
    variables: NumberSet,
}

impl SeenSet {
    fn new(alloc: Global) -> SeenSet
        ensures { (s : AnySeen) → ¬ HasSeen result s }
    {
        SeenSet {
            parameters: NumberSet::new(alloc),
            variables: NumberSet::new(alloc),
        }
    }

    fn contains(&self, seen: Seen) -> bool
        ensures { result ≡ has_seen self.now seen }
    {
        match seen {
            Seen::Parameter(parameter) => self.parameters.contains(parameter),
            Seen::Variable(variable) => self.variables.contains(variable),
        }
    }

    fn insert(&mut self, seen: Seen) -> Result<(), AllocError>
        ensures { OnOk result (AddsSeen self.old self.new (λ s. s ≡ seen)) }
    {
        match seen {
            Seen::Parameter(parameter) => {
                self.parameters.insert(parameter)?;
                Ok(())
            }
            Seen::Variable(variable) => {
                self.variables.insert(variable)?;
                Ok(())
            }
        }
    }

    fn insert_variables(&mut self, other: &SeenSet) -> Result<(), AllocError>
        ensures { OnOk result (AddsSeen self.old self.new (SeesVariable other.now)) }
    {
        self.variables.insert_all(&other.variables)?;
        Ok(())
    }
}

/// What a function reads and writes.
#[derive(Drop)]
pub struct Row {
    read: SeenSet,
    written: SeenSet,
}

impl Row {
    /// Nothing.
    pub fn new(alloc: Global) -> Row
        ensures { (u : Usage) → ¬ HasUsage result u }
    {
        Row {
            read: SeenSet::new(alloc),
            written: SeenSet::new(alloc),
        }
    }

    /// Whether something is read, or written.
    pub fn has(&self, kind: UsageKind, seen: Seen) -> bool
        ensures { result ≡ has_in self.now kind seen }
    {
        match kind {
            UsageKind::Read => self.read.contains(seen),
            UsageKind::Write => self.written.contains(seen),
        }
    }

    /// Adds a read or a write of something.
    pub fn insert(&mut self, kind: UsageKind, seen: Seen) -> Result<(), AllocError>
        ensures { OnOk result (Adds self.old self.new (λ u. u ≡ usage kind seen)) }
    {
        match kind {
            UsageKind::Read => {
                self.read.insert(seen)?;
                Ok(())
            }
            UsageKind::Write => {
                self.written.insert(seen)?;
                Ok(())
            }
        }
    }

    /// Adds what another function does with variables of the module.
    pub fn insert_variables(&mut self, other: &Row) -> Result<(), AllocError>
        ensures { OnOk result (Adds self.old self.new (HasVariable other.now)) }
    {
        self.read.insert_variables(&other.read)?;
        self.written.insert_variables(&other.written)?;
        Ok(())
    }
}

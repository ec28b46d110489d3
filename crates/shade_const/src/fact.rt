//! What is known of the nodes of a tree.

ghost use Rattle.std.specs.Prelude.{◌≡◌, ◌<◌, ◌^◌, length, [], Err, OnOk, OnErr};
ghost use Rattle.std.specs.Option.{option_copied};
ghost use Rattle.shade_const.specs.Facts.{fact_at, AreSame, IsPut};

use shade_values::{Op, Scalar, Value};
use sqlite_items::{Items, at};
use std::alloc::{AllocError, Global};
use std::marker::Model;

/// What the operands of an operation convert to, in their order: an operand where there is nothing stays what it is.
pub type Scalars = Items<Option<Scalar>>;

/// What is known of a node.
#[derive(Debug, Drop)]
pub enum Fact {
    /// Its value.
    Known(Value),
    /// It is an operation on its operands.
    Apply { op: Op, to: Scalars },
}

/// What is known of the nodes of a tree: at most one fact for each number of a node.
#[derive(Debug, Drop)]
pub struct ConstEnv {
    facts: Vec<Option<Fact>>,
}

impl Model for ConstEnv {
    ghost use Rattle.std.specs.Prelude.{List, Option};
    ghost use Rattle.std.specs.Coded.{coded_list, coded_option};
    ghost use Rattle.shade_const.specs.declared.fact.Fact.{Fact};
    ghost use Rattle.shade_const.specs.contracts.fact.Fact as fact;

    ghost Value = { List (Option Fact) };

    ghost coded = { coded_list (coded_option fact.the_row.coded) };

    ghost view = { λ e. e.facts.items };
}

impl ConstEnv {
    /// Makes an environment without facts. Takes no memory.
    pub fn new(alloc: Global) -> ConstEnv
        ensures { result ≡ [] }
    {
        ConstEnv {
            facts: Vec::new(alloc),
        }
    }

    /// Replaces the fact of a node. Takes memory for all nodes up to this one; where there is none, all facts are as they were.
    pub fn put(&mut self, node: u32, fact: Fact) -> Result<(), AllocError>
        ensures put { OnOk result (IsPut node fact self.old self.new) }
        ensures kept { OnErr result (AreSame self.old self.new) }
    {
        let place = node as usize;
        if let Err(fault) = make_room(&mut self.facts, place) {
            return refuse(fault, fact);
        }
        self.facts[place] = Some(fact);
        Ok(())
    }

    /// What is known of a node.
    pub(crate) fn get(&self, node: u32) -> Option<&Fact>
        ensures { option_copied result ≡ fact_at self.now node }
    {
        match at(&self.facts, node as usize) {
            Some(Some(fact)) => Some(fact),
            _ => None,
        }
    }
}

/// Makes a place for a fact, where there is none.
fn make_room(facts: &mut Vec<Option<Fact>>, place: usize) -> Result<(), AllocError>
    requires { place < 2 ^ 32 }
    ensures same { AreSame facts.old.items facts.new.items }
    ensures room { OnOk result (place < length facts.new.items) }
{
    let missing = (place + 1).saturating_sub(facts.len());
    facts.reserve(missing)?;
    for _missing in 0..missing {
        facts.push(None)?;
    }
    Ok(())
}

/// Want of memory, which lets go of what was to be kept.
fn refuse<H: Drop>(fault: AllocError, held: H) -> Result<(), AllocError>
    ensures { result ≡ Err fault }
{
    Err(fault)
}

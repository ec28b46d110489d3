//! What the names of a tree mean, or why they are refused.

ghost use Rattle.std.specs.Prelude.{◌≡◌, IfOk, IsErrAnd};
ghost use Rattle.shade_scope.specs.Faults.{IsLeast};
ghost use Rattle.shade_scope.specs.Ranges.{AreSeverities, IsNumbered};
ghost use Rattle.shade_scope.specs.Resolved.{IsFault, IsResolved, tree_uses};

use crate::conflicts::least_conflict;
use crate::cycles::least_cycle;
use crate::fault::ScopeFault;
use crate::lists::{Filters, Uses};
use crate::naming::{earlier, name_all};
use crate::ranges::grades;
use crate::scoped::Scoped;
use shade_ast::Tree;
use shade_events::events;
use std::alloc::{AllocError, Global};

/// What is found out about a tree.
#[derive(Drop)]
pub struct Examined {
    pub least: Option<ScopeFault>,
    pub uses: Uses,
    pub filters: Filters,
}

fn examine(alloc: Global, tree: &Tree) -> Result<Examined, AllocError>
    requires { IsNumbered tree.now }
    ensures least { IfOk result (λ e. IsLeast (IsFault tree.now) e.least) }
    ensures uses { IfOk result (λ e. e.uses ≡ tree_uses tree.now) }
    ensures filters { IfOk result (λ e. AreSeverities tree.now e.filters) }
{
    let events = events(alloc, tree)?;
    let row = events.as_slice();
    let naming = name_all(alloc, &tree.names, row)?;
    let conflict = least_conflict(alloc, row)?;
    let cycle = least_cycle(alloc, tree.decls.as_slice(), naming.links)?;
    let filters = grades(alloc, &tree.names, row)?;
    Ok(Examined {
        least: earlier(earlier(naming.least, conflict), cycle),
        uses: Uses::from_vec(naming.uses),
        filters: Filters::from_vec(filters),
    })
}

/// A refusal, which lets go of a tree.
fn refuse<H: Drop>(fault: ScopeFault, held: H) -> Result<Scoped, ScopeFault>
    ensures { IsErrAnd result (λ f. f ≡ fault) }
{
    Err(fault)
}

/// Gives the tree with what each use of a name means and how grave violations are at its nodes, or the first of its faults by
/// their places; at one place the earlier kind comes first. The tree is spent in every case.
///
/// The nodes of the tree are to be numbered in postorder, as `parse` gives them. Takes time in the order of the tree, and memory for
/// each node and use; without it the answer is `NoMemory`.
pub fn resolve(alloc: Global, tree: Tree) -> Result<Scoped, ScopeFault>
    requires { IsNumbered tree }
    ensures { IsResolved tree result }
{
    match examine(alloc, &tree) {
        Err(_) => refuse(ScopeFault::NoMemory, tree),
        Ok(examined) => match examined.least {
            Some(fault) => refuse(fault, tree),
            None => Ok(Scoped {
                tree,
                uses: examined.uses,
                filters: examined.filters,
            }),
        },
    }
}

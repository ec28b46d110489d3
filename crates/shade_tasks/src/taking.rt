//! Steps, taken in order.

ghost use Rattle.std.specs.Prelude.{◌≡◌};
ghost use Rattle.shade_tasks.specs.Takes.{Taken, count_place, size_place};

use crate::rules::{is_asked, rule};
use shade_ast::Names;
use shade_base::Place;
use shade_known::{Known, Operand, TypingFault, keep};
use shade_scope::Uses;
use shade_steps::{Step, Task};
use std::alloc::Global;

fn count_place(arguments: &[Operand], place: Place) -> Place
    ensures { result ≡ count_place arguments.now place }
{
    match arguments {
        [_, count] => count.place,
        _ => place,
    }
}

/// Where a type of too many bytes is told: at the count of an array that has one.
fn size_place(task: &Task, place: Place) -> Place
    ensures { result ≡ size_place task.now place }
{
    match task {
        Task::Template { arguments, .. } => count_place(arguments.as_slice(), place),
        _ => place,
    }
}

/// Takes steps in order, keeps what each finds of its node, and gives how many it took: all, or those before the first that is not asked here.
///
/// Gives the fault of the first step whose rule fails; known is then what the steps before it gave. Takes memory for types, for values, and
/// for a word that is told; at want of memory is known what some steps gave, from the first one on.
pub fn take(
    alloc: Global,
    names: &Names,
    uses: &Uses,
    known: &mut Known,
    steps: &[Step],
) -> Result<usize, TypingFault>
    ensures { Taken uses.now names.now steps.now known.old known.new result }
{
    for (taken, step) in steps.iter().enumerate() {
        if !is_asked(known, &step.task) {
            return Ok(taken);
        }
        let found = rule(alloc, names, uses, known, step)?;
        let place = size_place(&step.task, step.place);
        keep(known, step.node, place, found)?;
    }
    Ok(steps.len())
}

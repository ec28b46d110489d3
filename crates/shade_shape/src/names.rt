//! Which statements operands name.

ghost use Rattle.std.specs.Prelude.{◌≡◌};
ghost use Rattle.std.specs.List.{list_all};
ghost use Rattle.shade_core.specs.Scopes.{argument_names as argument_names_of, maybe_names as maybe_names_of, names_one as names_one_of, step_names as step_names_of, view_names as view_names_of};

use crate::seen::Seen;
use shade_core::{Argument, Operand, View, ViewStep};

/// Whether an operand names no statement, or one that is seen. Takes no memory.
pub(crate) fn names_one(seen: &Seen, operand: &Operand) -> bool
    ensures { result ≡ names_one_of seen.now operand.now }
{
    match operand {
        Operand::Constant(_, _) | Operand::Param(_) => true,
        Operand::Temp(number) => seen.sees(*number),
    }
}

/// Whether each operand names no statement, or one that is seen. Takes no memory.
pub(crate) fn names_all(seen: &Seen, operands: &[Operand]) -> bool
    ensures { result ≡ list_all (names_one_of seen.now) operands.now }
{
    operands.iter().all(|operand| names_one(seen, operand))
}

/// Whether an operand, if there is one, names no statement, or one that is seen. Takes no memory.
pub(crate) fn maybe_names(seen: &Seen, operand: &Option<Operand>) -> bool
    ensures { result ≡ maybe_names_of seen.now operand.now }
{
    match operand {
        Some(operand) => names_one(seen, operand),
        None => true,
    }
}

fn step_names(seen: &Seen, step: &ViewStep) -> bool
    ensures { result ≡ step_names_of seen.now step.now }
{
    match step {
        ViewStep::Member(_) => true,
        ViewStep::Index(at) => names_one(seen, at),
    }
}

/// Whether each index of a view names no statement, or one that is seen. Takes no memory.
pub(crate) fn view_names(seen: &Seen, view: &View) -> bool
    ensures { result ≡ view_names_of seen.now view.now }
{
    view.steps
        .as_slice()
        .iter()
        .all(|step| step_names(seen, step))
}

fn argument_names(seen: &Seen, argument: &Argument) -> bool
    ensures { result ≡ argument_names_of seen.now argument.now }
{
    match argument {
        Argument::Plain(operand) => names_one(seen, operand),
        Argument::Pointer(view) => view_names(seen, view),
    }
}

/// Whether the operands of arguments name no statement, or one that is seen. Takes no memory.
pub(crate) fn arguments_name(seen: &Seen, arguments: &[Argument]) -> bool
    ensures { result ≡ list_all (argument_names_of seen.now) arguments.now }
{
    arguments
        .iter()
        .all(|argument| argument_names(seen, argument))
}

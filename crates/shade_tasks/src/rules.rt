//! The rule of each step.

ghost use Rattle.std.specs.Prelude.{◌≡◌, IfOk, true};
ghost use Rattle.shade_known.specs.Answers.{Answers};
ghost use Rattle.shade_known.specs.Keeps.{IsFoundOf};
ghost use Rattle.shade_known.specs.Lookups.{what_in};
ghost use Rattle.shade_values.specs.Table.{Table};
ghost use Rattle.shade_calls.specs.Calls.{row_of};
ghost use Rattle.shade_tasks.specs.Rules.{DeclaredOf, IsCall, NamedOf, OperationOf, ProfileOf, Rule, StatementOf, is_asked};

use crate::arguments::listed;
use crate::compounds::compound;
use crate::declared::{alias, constant, returned, used_as_result, used_as_type};
use crate::profile::{enabled, required};
use shade_ast::Names;
use shade_base::Place;
use shade_calls::{generator_of, name, out_of_profile, row_of, template};
use shade_known::{Application, Found, Known, Operand, TypingFault, is_idle, operate};
use shade_scope::Uses;
use shade_steps::{Step, Task};
use shade_typing::{
    Between, Subscript, asserted, assigned, condition, decides, element, infix, member, number,
    prefix, same_as, stepped, target, truth, used_as_operand, used_as_value,
};
use std::alloc::Global;

/// Tells whether a task is asked here: of an expression, but for calls of arrays, structs and functions of the text; of a condition, an
/// assertion, a target or what changes it, or a `return`; of a type, an alias, the type of a result or a constant; or what is out of the profile. Takes no memory.
pub fn is_asked(known: &Known, task: &Task) -> bool
    ensures { result ≡ is_asked known.now task.now }
{
    match task {
        Task::IsValue
        | Task::IsOperand
        | Task::Decides { .. }
        | Task::Number { .. }
        | Task::Truth(_)
        | Task::Name(_)
        | Task::Template { .. }
        | Task::Argument { .. }
        | Task::Paren(_)
        | Task::Prefix { .. }
        | Task::Infix { .. }
        | Task::Member { .. }
        | Task::Index { .. }
        | Task::Condition
        | Task::Asserts { .. }
        | Task::Target
        | Task::Assigns { .. }
        | Task::Compound { .. }
        | Task::Increment { .. }
        | Task::Decrement { .. }
        | Task::IsType(_)
        | Task::Alias(_)
        | Task::Result
        | Task::Constant { .. }
        | Task::Returns { .. }
        | Task::Discards
        | Task::Override
        | Task::Requires(_)
        | Task::Enables(_) => true,
        Task::Call { callee, .. } => row_of(known, callee.node).is_some(),
        _ => false,
    }
}

/// A call of a row of the table.
fn call(
    alloc: Global,
    known: &Known,
    idle: bool,
    callee: Operand,
    arguments: &[Operand],
    place: Place,
) -> Result<Found, TypingFault>
    ensures answer { Answers (IsCall (row_of known.now.types (what_in known.now.facts callee.node)) known.now idle arguments.now place) result }
    ensures of { IfOk result (λ f. IsFoundOf known.now.types f) }
{
    match row_of(known, callee.node) {
        Some(builtin) => {
            let application = Application {
                builtin,
                at: place,
                idle,
            };
            operate(alloc, known, application, arguments)
        }
        None => Err(TypingFault::NoMemory),
    }
}

/// What an operator, an access or a call finds.
fn operation_rule(
    alloc: Global,
    names: &Names,
    known: &Known,
    step: &Step,
    idle: bool,
) -> Result<Found, TypingFault>
    ensures answer { Answers (OperationOf names.now known.now step.now.place idle step.now.task) result }
    ensures of { IfOk result (λ f. IsFoundOf known.now.types f) }
{
    let place = step.place;
    match &step.task {
        Task::Prefix { operator, operand } => {
            prefix(alloc, known, *operator, place, idle, *operand)
        }
        Task::Infix {
            left,
            operator,
            at,
            right,
        } => {
            let between = Between {
                operator: *operator,
                at: *at,
                idle,
            };
            infix(alloc, known, between, *left, *right)
        }
        Task::Member {
            whole,
            member: named,
            ..
        } => member(alloc, names, known, *whole, *named, place),
        Task::Index {
            whole,
            bracket,
            index,
        } => {
            let subscript = Subscript {
                whole: *whole,
                bracket: *bracket,
                index: *index,
            };
            element(alloc, known, idle, subscript, place)
        }
        Task::Call { callee, arguments } => {
            call(alloc, known, idle, *callee, arguments.as_slice(), place)
        }
        _ => Err(TypingFault::NoMemory),
    }
}

/// What a name finds, with or without a template list, and what is told of an argument of one.
fn name_rule(
    alloc: Global,
    names: &Names,
    uses: &Uses,
    known: &Known,
    step: &Step,
) -> Result<Found, TypingFault>
    ensures answer { Answers (NamedOf uses.now names.now known.now step.now.node step.now.place step.now.task) result }
    ensures of { IfOk result (λ f. IsFoundOf known.now.types f) }
{
    let own = Operand {
        node: step.node,
        place: step.place,
    };
    match &step.task {
        Task::Name(used) => name(alloc, names, uses, known, own, *used),
        Task::Template {
            name: used,
            arguments,
        } => template(alloc, names, uses, known, own, *used, arguments.as_slice()),
        Task::Argument {
            list,
            name: used,
            slot,
        } => {
            let word = generator_of(names, uses, *list, *used);
            listed(word, known, *slot, own)
        }
        _ => Err(TypingFault::NoMemory),
    }
}

/// What a condition, an assertion, a target or what changes it finds.
fn statement_rule(alloc: Global, known: &Known, step: &Step) -> Result<Found, TypingFault>
    ensures answer { Answers (StatementOf known.now step.now.node step.now.place step.now.task) result }
    ensures of { IfOk result (λ f. IsFoundOf known.now.types f) }
{
    let own = Operand {
        node: step.node,
        place: step.place,
    };
    match &step.task {
        Task::Condition => condition(known, step.node, step.place),
        Task::Asserts { keyword } => asserted(known, step.node, step.place, *keyword),
        Task::Target => target(known, own),
        Task::Assigns { value } => assigned(alloc, known, own, *value),
        Task::Compound {
            operator,
            at,
            value,
        } => compound(alloc, known, *operator, *at, own, *value),
        Task::Increment { at } => stepped(known, own, *at),
        Task::Decrement { at } => stepped(known, own, *at),
        _ => Err(TypingFault::NoMemory),
    }
}

/// What a type, an alias, the type of a result, a constant or a `return` finds.
fn declared_rule(alloc: Global, known: &Known, step: &Step) -> Result<Found, TypingFault>
    ensures answer { Answers (DeclaredOf known.now step.now.node step.now.place step.now.task) result }
    ensures of { IfOk result (λ f. IsFoundOf known.now.types f) }
{
    match &step.task {
        Task::IsType(role) => used_as_type(known, *role, step.node, step.place),
        Task::Alias(ty) => alias(alloc, known, *ty),
        Task::Result => used_as_result(known, step.node, step.place),
        Task::Constant { ty, value } => constant(alloc, known, *ty, *value),
        Task::Returns { function, value } => {
            returned(alloc, known, *function, *value, step.place)
        }
        _ => Err(TypingFault::NoMemory),
    }
}

/// What is out of the profile.
fn profile_rule(alloc: Global, names: &Names, step: &Step) -> Result<Found, TypingFault>
    ensures answer { Answers (ProfileOf names.now step.now.place step.now.task) result }
    ensures of { (t : Table) → IfOk result (IsFoundOf t) }
{
    match &step.task {
        Task::Discards => Err(out_of_profile(alloc, "discard", step.place)?),
        Task::Override => Err(out_of_profile(alloc, "override", step.place)?),
        Task::Requires(name) => required(alloc, names, *name, step.place),
        Task::Enables(first) => enabled(alloc, names, *first, step.place),
        _ => Err(TypingFault::NoMemory),
    }
}

/// Gives what a step that is asked here finds of its node, or why it is refused. Takes memory for types, for values and for a word that is
/// told.
pub fn rule(
    alloc: Global,
    names: &Names,
    uses: &Uses,
    known: &Known,
    step: &Step,
) -> Result<Found, TypingFault>
    requires { is_asked known.now step.now.task ≡ true }
    ensures answer { Answers (Rule uses.now names.now known.now step.now) result }
    ensures of { IfOk result (λ f. IsFoundOf known.now.types f) }
{
    let idle = is_idle(&known.facts, step.under);
    match &step.task {
        Task::IsValue => used_as_value(known, step.node, step.place),
        Task::IsOperand => used_as_operand(known, step.node, step.place),
        Task::Decides { operator, left } => Ok(decides(known, idle, *operator, left.node)),
        Task::Number { value, suffix } => Ok(number(*value, *suffix)),
        Task::Truth(flag) => Ok(truth(*flag)),
        Task::Paren(inner) => Ok(same_as(alloc, known, inner.node)?),
        Task::Name(_) | Task::Template { .. } | Task::Argument { .. } => {
            name_rule(alloc, names, uses, known, step)
        }
        Task::Condition | Task::Asserts { .. } | Task::Target => {
            statement_rule(alloc, known, step)
        }
        Task::Assigns { .. } | Task::Compound { .. } => statement_rule(alloc, known, step),
        Task::Increment { .. } | Task::Decrement { .. } => statement_rule(alloc, known, step),
        Task::Prefix { .. } | Task::Infix { .. } | Task::Member { .. } => {
            operation_rule(alloc, names, known, step, idle)
        }
        Task::Index { .. } | Task::Call { .. } => {
            operation_rule(alloc, names, known, step, idle)
        }
        Task::IsType(_) | Task::Alias(_) | Task::Result => declared_rule(alloc, known, step),
        Task::Constant { .. } | Task::Returns { .. } => declared_rule(alloc, known, step),
        Task::Discards | Task::Override => profile_rule(alloc, names, step),
        Task::Requires(_) | Task::Enables(_) => profile_rule(alloc, names, step),
        _ => Err(TypingFault::NoMemory),
    }
}

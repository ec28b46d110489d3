//! What the statements of a function write.

ghost use Rattle.std.specs.Prelude.{◌≡◌, ◌<◌, ◌^◌, ◌++◌, ◌∷◌, [], length, drop, map, true, IfOk};
ghost use Rattle.shade_core.specs.Code.{code_of, part_code, parts_from};
ghost use Rattle.shade_core.specs.declared.statement.Act.{out-Act};
ghost use Rattle.shade_flow.specs.Counted.{are_counted, layer_counted};
ghost use Rattle.shade_flow.specs.Flow.{is_whole};
ghost use Rattle.shade_flow.specs.Writes.{write, writes_through, call_writes, writes_of, layer_writes};

use crate::{Defined, Definition, Write};
use shade_core::{Act, Argument, Base, CoreStatement, SwitchPart, View};
use sqlite_items::Items;
use std::alloc::{AllocError, Global};

/// What a whole function writes, in structure order.
pub fn function_writes(alloc: Global, body: &Items<CoreStatement>) -> Result<Vec<Write>, AllocError>
    requires { are_counted (code_of body.now) ≡ true }
    ensures { IfOk result (λ writes. writes.items ≡ writes_of (code_of body.now)) }
{
    let mut writes = Vec::new(alloc);
    add_list(body, &mut writes)?;
    Ok(writes)
}

/// Adds a write to a variable.
fn add_write(
    variable: Base,
    by: Definition,
    whole: bool,
    writes: &mut Vec<Write>,
) -> Result<(), AllocError>
    ensures { IfOk result (λ _. writes.new.items ≡ writes.old.items ++ write variable by whole ∷ []) }
{
    writes.push(Write {
        defined: Defined { variable, by },
        whole,
    })?;
    Ok(())
}

/// Adds a write through a view.
fn add_view(view: &View, by: Definition, writes: &mut Vec<Write>) -> Result<(), AllocError>
    ensures { IfOk result (λ _. writes.new.items ≡ writes.old.items ++ write view.now.base by (is_whole view.now.steps) ∷ []) }
{
    let whole = view.steps.as_slice().is_empty();
    add_write(view.base, by, whole, writes)
}

/// Adds what a call writes through one argument.
fn add_argument(
    argument: &Argument,
    by: Definition,
    writes: &mut Vec<Write>,
) -> Result<(), AllocError>
    ensures { IfOk result (λ _. writes.new.items ≡ writes.old.items ++ writes_through by argument.now) }
{
    match argument {
        Argument::Plain(_) => Ok(()),
        Argument::Pointer(view) => add_view(view, by, writes),
    }
}

/// Adds what a call writes through its arguments.
fn add_arguments(
    number: u32,
    arguments: &[Argument],
    writes: &mut Vec<Write>,
) -> Result<(), AllocError>
    requires { length arguments.now < 2 ^ 32 }
    ensures { IfOk result (λ _. writes.new.items ≡ writes.old.items ++ call_writes number 0 arguments.now) }
{
    let mut place = 0;
    'arguments: for argument in arguments {
        add_argument(argument, Definition::Argument(number, place), writes)?;
        place += 1;
    }
    Ok(())
}

/// Adds what a statement writes, and the statements in it.
#[cycle(writes)]
fn add_statement(statement: &CoreStatement, writes: &mut Vec<Write>) -> Result<(), AllocError>
    requires { layer_counted (out-Act statement.now.act) ≡ true }
    ensures { IfOk result (λ _. writes.new.items ≡ writes.old.items ++ layer_writes statement.now.number (out-Act statement.now.act)) }
{
    let by = Definition::At(statement.number);
    match &statement.act {
        Act::Declare { local, .. } => add_write(Base::Local(*local), by, true, writes),
        Act::Store { view, .. } => add_view(view, by, writes),
        Act::Call { args, .. } => add_arguments(statement.number, args.as_slice(), writes),
        Act::If { yes, no, .. } => {
            add_list(yes, writes)?;
            add_list(no, writes)
        }
        Act::Switch { parts, .. } => add_parts(parts, statement.number, writes),
        Act::Loop {
            body,
            continuing,
            ..
        } => {
            add_list(body, writes)?;
            add_list(continuing, writes)
        }
        _ => Ok(()),
    }
}

/// Adds what the statements of a list write.
#[cycle(writes)]
fn add_list(statements: &Items<CoreStatement>, writes: &mut Vec<Write>) -> Result<(), AllocError>
    requires { are_counted (code_of statements.now) ≡ true }
    ensures { IfOk result (λ _. writes.new.items ≡ writes.old.items ++ writes_of (code_of statements.now)) }
{
    'statements: for statement in statements.as_slice() {
        add_statement(statement, writes)?;
    }
    Ok(())
}

/// Adds what the parts of a switch write.
#[cycle(writes)]
fn add_parts(
    parts: &Items<SwitchPart>,
    number: u32,
    writes: &mut Vec<Write>,
) -> Result<(), AllocError>
    requires { are_counted (parts_from 0 0 (map part_code parts.now)) ≡ true }
    ensures { IfOk result (λ _. writes.new.items ≡ writes.old.items ++ writes_of (parts_from number 0 (map part_code parts.now))) }
{
    'parts: for part in parts.as_slice() {
        add_list(&part.body, writes)?;
    }
    Ok(())
}

//! Whether the points, parameters and arguments of a function have numbers of 32 bits.

ghost use Rattle.std.specs.Prelude.{◌≡◌, ◌&&◌, map};
ghost use Rattle.shade_core.specs.Code.{code_of, part_code, parts_from};
ghost use Rattle.shade_core.specs.declared.statement.Act.{out-Act};
ghost use Rattle.shade_flow.specs.Counted.{is_counted as is_counted_of, are_counted, are_few, is_small, layer_counted};

use shade_core::{Act, Argument, CoreFunction, CoreParam, CoreStatement, SwitchPart};
use sqlite_items::Items;

/// Whether each statement of a function has a number below 2^31 - 1, and each of its calls and itself fewer than 2^32 arguments and
/// parameters, as is asked of it by `reaching`. Takes no memory.
pub fn is_counted(function: &CoreFunction) -> bool
    ensures { result ≡ is_counted_of function.now }
{
    few_params(function.params.as_slice()) && list_is_counted(&function.body)
}

fn few_params(params: &[CoreParam]) -> bool
    ensures { result ≡ are_few params.now }
{
    params.len() <= u32::MAX as usize
}

fn few_arguments(arguments: &[Argument]) -> bool
    ensures { result ≡ are_few arguments.now }
{
    arguments.len() <= u32::MAX as usize
}

/// Whether both points of the statement with a number have numbers of 32 bits.
fn has_points(number: u32) -> bool
    ensures { result ≡ is_small number }
{
    number <= 2_147_483_646
}

#[cycle(counted)]
fn list_is_counted(statements: &Items<CoreStatement>) -> bool
    ensures { result ≡ are_counted (code_of statements.now) }
{
    'statements: for statement in statements.as_slice() {
        if !statement_is_counted(statement) {
            return false;
        }
    }
    true
}

#[cycle(counted)]
fn statement_is_counted(statement: &CoreStatement) -> bool
    ensures { result ≡ (is_small statement.now.number && layer_counted (out-Act statement.now.act)) }
{
    has_points(statement.number) && act_is_counted(&statement.act)
}

#[cycle(counted)]
fn act_is_counted(act: &Act) -> bool
    ensures { result ≡ layer_counted (out-Act act.now) }
{
    match act {
        Act::Call { args, .. } => few_arguments(args.as_slice()),
        Act::If { yes, no, .. } => list_is_counted(yes) && list_is_counted(no),
        Act::Switch { parts, .. } => parts_are_counted(parts),
        Act::Loop {
            body,
            continuing,
            ..
        } => list_is_counted(body) && list_is_counted(continuing),
        _ => true,
    }
}

#[cycle(counted)]
fn parts_are_counted(parts: &Items<SwitchPart>) -> bool
    ensures { result ≡ are_counted (parts_from 0 0 (map part_code parts.now)) }
{
    'parts: for part in parts.as_slice() {
        if !list_is_counted(&part.body) {
            return false;
        }
    }
    true
}

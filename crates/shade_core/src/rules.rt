//! What has rules.

ghost use Rattle.std.specs.Prelude.{◌≡◌};
ghost use Rattle.std.specs.List.{list_any};
ghost use Rattle.shade_core.specs.Atomics.{is_atomic as is_atomic_of};
ghost use Rattle.shade_core.specs.Code.{act_code, code_of, done};
ghost use Rattle.shade_core.specs.Rules.{all_have_rules as all_have_rules_of, has_rules as has_rules_of, have_rules as have_rules_of, is_pointer as is_pointer_of};

use crate::module::{CoreFunction, CoreModule, CoreParam};
use crate::statement::{Act, CoreStatement};
use shade_values::Op;
use sqlite_items::Items;

/// Whether each function of a module has rules in the graph, the verdict and the machine. Takes no memory.
pub fn all_have_rules(checked: &CoreModule) -> bool
    ensures { result ≡ all_have_rules_of checked.now.functions }
{
    checked
        .functions
        .as_slice()
        .iter()
        .all(|function| has_rules(function))
}

/// Whether a function has rules there: its statements, with those of their parts, are Set of an operation on values,
/// Barrier, If and Return, and no parameter is a pointer. Takes no memory.
pub fn has_rules(function: &CoreFunction) -> bool
    ensures { result ≡ has_rules_of function.now }
{
    !takes_pointer(function.params.as_slice()) && have_rules(&function.body)
}

/// Whether some parameter is a pointer.
fn takes_pointer(params: &[CoreParam]) -> bool
    ensures { result ≡ list_any is_pointer_of params.now }
{
    params.iter().any(|param| is_pointer(*param))
}

fn is_pointer(param: CoreParam) -> bool
    ensures { result ≡ is_pointer_of param }
{
    matches!(param, CoreParam::Pointer(_, _))
}

/// Whether each statement of a list, and of the parts of its statements, has rules.
#[cycle(rules)]
fn have_rules(statements: &Items<CoreStatement>) -> bool
    ensures { result ≡ have_rules_of (code_of statements.now) }
{
    'statements: for statement in statements.as_slice() {
        if !act_has_rules(&statement.act) {
            return false;
        }
    }
    true
}

/// Whether an act has rules, and each statement of its parts.
#[cycle(rules)]
fn act_has_rules(act: &Act) -> bool
    ensures { result ≡ have_rules_of (act_code act.now 0 done) }
{
    match act {
        Act::Set { op, .. } => !is_atomic(*op),
        Act::Barrier { .. } | Act::Return { .. } => true,
        Act::If { yes, no, .. } => have_rules(yes) && have_rules(no),
        _ => false,
    }
}

/// Whether an operation is one on an atomic in memory.
fn is_atomic(op: Op) -> bool
    ensures { result ≡ is_atomic_of op }
{
    matches!(
        op,
        Op::AtomicLoad
            | Op::AtomicStore
            | Op::AtomicAdd
            | Op::AtomicSub
            | Op::AtomicMax
            | Op::AtomicMin
            | Op::AtomicAnd
            | Op::AtomicOr
            | Op::AtomicXor
            | Op::AtomicExchange
            | Op::AtomicCompareExchangeWeak
    )
}

//! Calls as statements.

ghost use Rattle.std.specs.Prelude.{◌≡◌, IfOk, is_some};
ghost use Rattle.std.specs.Option.{option_copied};
ghost use Rattle.shade_overload.specs.Patterns.{atomic};
ghost use Rattle.shade_known.specs.Keeps.{IsFoundOf};
ghost use Rattle.shade_switches.specs.Calls.{dropped_call, may_be_dropped};

use shade_known::{Found, Known, Operand, TypeRule, TypingFault, What, type_at, what_at};
use shade_overload::Builtin;

fn is_atomic(builtin: Builtin) -> bool
    ensures { result ≡ is_some (atomic builtin) }
{
    match builtin {
        Builtin::AtomicLoad
        | Builtin::AtomicStore
        | Builtin::AtomicAdd
        | Builtin::AtomicSub
        | Builtin::AtomicMax
        | Builtin::AtomicMin
        | Builtin::AtomicAnd
        | Builtin::AtomicOr
        | Builtin::AtomicXor
        | Builtin::AtomicExchange
        | Builtin::AtomicCompareExchangeWeak => true,
        _ => false,
    }
}

/// Whether the result of what is called may be dropped.
fn may_be_dropped(callee: Option<&What>) -> bool
    ensures { result ≡ may_be_dropped (option_copied callee.entry) }
{
    match callee {
        Some(What::Builtin(builtin)) => is_atomic(*builtin),
        Some(What::Function { must_use, .. }) => !*must_use,
        _ => false,
    }
}

/// Whether a call of this callee may stand by itself as a statement: the rule of calls fails at its place where it drops the result of a built-in
/// function that is none of atomics, of a constructor, or of a function that is `@must_use`. Takes no memory.
pub fn dropped(known: &Known, call: Operand, callee: Operand) -> Result<Found, TypingFault>
    ensures answer { result ≡ dropped_call known.now call callee }
    ensures of { IfOk result (λ f. IsFoundOf known.now.types f) }
{
    let has_result = type_at(known, call.node).is_some();
    if has_result && !may_be_dropped(what_at(&known.facts, callee.node)) {
        return Err(TypingFault::Rule {
            place: call.place,
            rule: TypeRule::Call,
        });
    }
    Ok(Found::Nothing)
}

//! What the statements of a function read and write, by what is known of the functions that they call.

ghost use Rattle.std.specs.Prelude.{◌≡◌, ◌<◌, ◌^◌, true, map, length, Contains, IfOk, OnOk};
ghost use Rattle.std.specs.List.{list_all};
ghost use Rattle.shade_core.specs.Code.{code_of};
ghost use Rattle.shade_core.specs.Standing.{by_itself, head_of, statements};
ghost use Rattle.shade_rules.specs.Few.{calls_take_few, takes_few};
ghost use Rattle.shade_rules.specs.Gathered.{ByArgument, ByAllArguments, CallGives, HasAt, HeadGives, IsHanded, IsHandedAs, IsRowOf};
ghost use Rattle.shade_rules.specs.Sets.{Adds, HasUsage};
ghost use Rattle.shade_rules.specs.Usages.{atomic_usages, both_usages, seen_of as seen_at, usage_at};

use crate::usage::{Row, Seen, UsageKind};
use shade_core::{Act, Argument, Base, CoreFunction, CoreStatement};
use shade_shape::statements_of;
use shade_values::Op;
use std::alloc::{AllocError, Global};

fn seen_of(base: Base) -> Option<Seen>
    ensures { result ≡ seen_at base }
{
    match base {
        Base::Local(_) => None,
        Base::Module(root) => Some(Seen::Variable(root)),
        Base::Pointee(parameter) => Some(Seen::Parameter(parameter)),
    }
}

fn add(out: &mut Row, kind: UsageKind, base: Base) -> Result<(), AllocError>
    ensures { OnOk result (Adds out.old out.new (Contains (usage_at kind base))) }
{
    if let Some(target) = seen_of(base) {
        out.insert(kind, target)?;
    }
    Ok(())
}

fn add_both(out: &mut Row, base: Base) -> Result<(), AllocError>
    ensures { OnOk result (Adds out.old out.new (Contains (both_usages base))) }
{
    add(out, UsageKind::Read, base)?;
    add(out, UsageKind::Write, base)?;
    Ok(())
}

fn add_atomic(out: &mut Row, op: Op, base: Base) -> Result<(), AllocError>
    ensures { OnOk result (Adds out.old out.new (Contains (atomic_usages op base))) }
{
    match op {
        Op::AtomicLoad => add(out, UsageKind::Read, base),
        Op::AtomicStore => add(out, UsageKind::Write, base),
        _ => add_both(out, base),
    }
}

/// Adds a read or a write through a parameter, at the variable that is handed over for it.
fn add_handed_as(
    out: &mut Row,
    callee: &Row,
    kind: UsageKind,
    number: u32,
    base: Base,
) -> Result<(), AllocError>
    ensures { OnOk result (Adds out.old out.new (IsHandedAs callee.now kind number base)) }
{
    if callee.has(kind, Seen::Parameter(number)) {
        add(out, kind, base)?;
    }
    Ok(())
}

/// Adds what is used through a parameter, at the variable that is handed over for it.
fn add_handed(out: &mut Row, callee: &Row, number: u32, base: Base) -> Result<(), AllocError>
    ensures { OnOk result (Adds out.old out.new (IsHanded (HasUsage callee.now) number base)) }
{
    add_handed_as(out, callee, UsageKind::Read, number, base)?;
    add_handed_as(out, callee, UsageKind::Write, number, base)?;
    Ok(())
}

fn add_argument(out: &mut Row, callee: &Row, number: u32, arg: &Argument) -> Result<(), AllocError>
    ensures { OnOk result (Adds out.old out.new (ByArgument (HasUsage callee.now) number arg.now)) }
{
    match arg {
        Argument::Pointer(view) => add_handed(out, callee, number, view.base),
        Argument::Plain(_) => Ok(()),
    }
}

fn add_arguments(out: &mut Row, callee: &Row, args: &[Argument]) -> Result<(), AllocError>
    requires { length args.now < 2 ^ 32 }
    ensures { OnOk result (Adds out.old out.new (ByAllArguments (HasUsage callee.now) args.now)) }
{
    let mut number: u32 = 0;
    'arguments: for arg in args {
        add_argument(out, callee, number, arg)?;
        number += 1;
    }
    Ok(())
}

/// Adds what a call uses, of which nothing is known where its callee is not there.
fn add_call(out: &mut Row, rows: &[Row], function: u32, args: &[Argument]) -> Result<(), AllocError>
    requires { length args.now < 2 ^ 32 }
    ensures { OnOk result (Adds out.old out.new (CallGives (HasAt rows.now function) args.now)) }
{
    let Some(callee) = rows.get(function as usize) else {
        return Ok(());
    };
    add_arguments(out, callee, args)?;
    out.insert_variables(callee)?;
    Ok(())
}

fn add_act(out: &mut Row, rows: &[Row], act: &Act) -> Result<(), AllocError>
    requires { takes_few (head_of act.now) ≡ true }
    ensures { OnOk result (Adds out.old out.new (HeadGives (HasAt rows.now) (head_of act.now))) }
{
    match act {
        Act::Load { view } => add(out, UsageKind::Read, view.base),
        Act::UniformLoad { view, .. } => add(out, UsageKind::Read, view.base),
        Act::Store { view, .. } => add(out, UsageKind::Write, view.base),
        Act::Atomic { op, view, .. } => add_atomic(out, *op, view.base),
        Act::Call { function, args } => add_call(out, rows, *function, args.as_slice()),
        _ => Ok(()),
    }
}

fn gather(alloc: Global, rows: &[Row], listed: &[&CoreStatement]) -> Result<Row, AllocError>
    requires { list_all (λ s. takes_few s.head) (map (λ s. by_itself s.now) listed.now) ≡ true }
    ensures { IfOk result (IsRowOf rows.now (map (λ s. by_itself s.now) listed.now)) }
{
    let mut row = Row::new(alloc);
    'listed: for statement in listed {
        add_act(&mut row, rows, &statement.act)?;
    }
    Ok(row)
}

/// What a function uses, by what is known of those that it calls.
pub fn row_of_function(
    alloc: Global,
    rows: &[Row],
    function: &CoreFunction,
) -> Result<Row, AllocError>
    requires { calls_take_few function.now ≡ true }
    ensures { IfOk result (IsRowOf rows.now (statements (code_of function.now.body))) }
{
    let listed = statements_of(alloc, &function.body)?;
    gather(alloc, rows, &listed)
}

//! Where the values of statements are named.

ghost use Rattle.std.specs.Prelude.{◌≡◌, ◌++◌, List, [], map, take, length, true, false, IfOk, OnOk};
ghost use Rattle.shade_core.specs.Code.{act_code, code_of, done, part_code, parts_from};
ghost use Rattle.shade_core.specs.Scopes.{argument_names as argument_names_of, continues, in_scope, listed, maybe_names as maybe_names_of, names_one as names_one_of, step_names as step_names_of, unskipped, view_names as view_names_of};
ghost use Rattle.shade_shape.specs.Within.{act_in_scope as act_in_scope_of};

use crate::names::{arguments_name, maybe_names, names_all, names_one, view_names};
use crate::seen::Seen;
use shade_core::{Act, CoreStatement, SwitchPart};
use sqlite_items::Items;
use std::alloc::{AllocError, Global};

/// Whether a Continue of the loop around an act stands in its parts. Takes no memory.
#[cycle(continues)]
fn act_continues(act: &Act) -> bool
    ensures { result ≡ continues (act_code act.now 0 done) }
{
    match act {
        Act::Continue => true,
        Act::If { yes, no, .. } => list_continues(yes) || list_continues(no),
        Act::Switch { parts, .. } => parts_continue(parts),
        _ => false,
    }
}

/// Whether a Continue of the loop around some statements stands among them or in their parts. Takes no memory.
#[cycle(continues)]
fn list_continues(list: &Items<CoreStatement>) -> bool
    ensures { result ≡ continues (code_of list.now) }
{
    'statements: for statement in list.as_slice() {
        if act_continues(&statement.act) {
            return true;
        }
    }
    false
}

#[cycle(continues)]
fn parts_continue(parts: &Items<SwitchPart>) -> bool
    ensures { result ≡ continues (parts_from 0 0 (map part_code parts.now)) }
{
    'parts: for part in parts.as_slice() {
        if list_continues(&part.body) {
            return true;
        }
    }
    false
}

/// Adds the statements of a loop's body before which no Continue of the loop stands.
fn add_unskipped(seen: &mut Seen, body: &Items<CoreStatement>) -> Result<(), AllocError>
    ensures { OnOk result (seen.new ≡ seen.old ++ unskipped (code_of body.now)) }
{
    'statements: for statement in body.as_slice() {
        seen.push(statement.number)?;
        let skips = act_continues(&statement.act);
        if skips {
            return Ok(());
        }
    }
    Ok(())
}

/// Adds the statements that stand directly in a list.
fn add_listed(seen: &mut Seen, list: &Items<CoreStatement>) -> Result<(), AllocError>
    ensures { OnOk result (seen.new ≡ seen.old ++ listed (code_of list.now)) }
{
    'statements: for statement in list.as_slice() {
        seen.push(statement.number)?;
    }
    Ok(())
}

/// Whether the operands of an act and of its parts name statements that they may. `seen` is then as before.
#[cycle(scopes)]
fn act_in_scope(seen: &mut Seen, act: &Act) -> Result<bool, AllocError>
    ensures tells { IfOk result (λ b. b ≡ act_in_scope_of seen.old (act_code act.now 0 done)) }
    ensures kept { IfOk result (λ b. b ≡ true → seen.new ≡ seen.old) }
{
    match act {
        Act::Set { args, .. } => Ok(names_all(seen, args.as_slice())),
        Act::Load { view } | Act::UniformLoad { view, .. } | Act::Length { view } => {
            Ok(view_names(seen, view))
        }
        Act::Declare { value, .. } | Act::Return { value } => Ok(maybe_names(seen, value)),
        Act::Store { view, value } => Ok(view_names(seen, view) && names_one(seen, value)),
        Act::Atomic { view, args, .. } => {
            Ok(view_names(seen, view) && names_all(seen, args.as_slice()))
        }
        Act::Call { args, .. } => Ok(arguments_name(seen, args.as_slice())),
        Act::If { cond, yes, no } => {
            if !names_one(seen, cond) || !list_in_scope(seen, yes)? {
                return Ok(false);
            }
            list_in_scope(seen, no)
        }
        Act::Switch { selector, parts } => {
            if !names_one(seen, selector) {
                return Ok(false);
            }
            parts_in_scope(seen, parts)
        }
        Act::Loop {
            body,
            continuing,
            leave,
        } => {
            if !list_in_scope(seen, body)? {
                return Ok(false);
            }
            let count = seen.count();
            add_unskipped(seen, body)?;
            if !list_in_scope(seen, continuing)? {
                return Ok(false);
            }
            add_listed(seen, continuing)?;
            let named = maybe_names(seen, leave);
            seen.truncate(count);
            Ok(named)
        }
        Act::Barrier { .. } | Act::Break | Act::Continue => Ok(true),
    }
}

/// Whether the operands of a list name statements that they may. `seen` is then as before.
#[cycle(scopes)]
fn list_in_scope(seen: &mut Seen, list: &Items<CoreStatement>) -> Result<bool, AllocError>
    ensures tells { IfOk result (λ b. b ≡ in_scope seen.old (code_of list.now)) }
    ensures kept { IfOk result (λ b. b ≡ true → seen.new ≡ seen.old) }
{
    let count = seen.count();
    'statements: for statement in list.as_slice() {
        if !act_in_scope(seen, &statement.act)? {
            return Ok(false);
        }
        seen.push(statement.number)?;
    }
    seen.truncate(count);
    Ok(true)
}

/// Whether the operands of the parts of a switch name statements that they may. `seen` is then as before.
#[cycle(scopes)]
fn parts_in_scope(seen: &mut Seen, parts: &Items<SwitchPart>) -> Result<bool, AllocError>
    ensures tells { IfOk result (λ b. b ≡ in_scope seen.old (parts_from 0 0 (map part_code parts.now))) }
    ensures kept { IfOk result (λ b. b ≡ true → seen.new ≡ seen.old) }
{
    'parts: for part in parts.as_slice() {
        if !list_in_scope(seen, &part.body)? {
            return Ok(false);
        }
    }
    Ok(true)
}

/// Whether each operand of a body names a statement that stands earlier in a list that holds the user or a statement around it, or in
/// the body of a loop where no Continue skips it.
///
/// Takes time in the order of the body, and for each operand that of the logarithm of the statements that it may name, where statements
/// are numbered in structure order; in other bodies that of these statements themselves.
/// Takes memory for the numbers of the statements that may be named at one place; an error is want of it.
pub fn is_in_scope(alloc: Global, body: &Items<CoreStatement>) -> Result<bool, AllocError>
    ensures { IfOk result (λ b. b ≡ in_scope [] (code_of body.now)) }
{
    let mut seen = Seen::new(alloc);
    list_in_scope(&mut seen, body)
}

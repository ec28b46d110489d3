//! The statements of a function in structure order.

ghost use Rattle.std.specs.Prelude.{◌≡◌, ◌++◌, map, IfOk, OnOk};
ghost use Rattle.shade_core.specs.Code.{act_code, code_of, done, part_code, parts_from};
ghost use Rattle.shade_core.specs.Standing.{by_itself, statements};
ghost use Rattle.shade_shape.specs.Within.{within};

use shade_core::{Act, CoreStatement, SwitchPart};
use sqlite_items::Items;
use std::alloc::{AllocError, Global};

/// Statements that stand in a module.
pub type Listed<'m> = Vec<&'m CoreStatement>;

/// Adds the statements of the parts of an act.
#[cycle(standing)]
fn add_parts_of<'m>(out: &mut Listed<'m>, act: &'m Act) -> Result<(), AllocError>
    ensures { OnOk result (map (λ s. by_itself s.now) out.new.items ≡ map (λ s. by_itself s.now) out.old.items ++ within (act_code act.now 0 done)) }
{
    match act {
        Act::If { yes, no, .. } => {
            add_list(out, yes)?;
            add_list(out, no)
        }
        Act::Switch { parts, .. } => add_parts(out, parts),
        Act::Loop {
            body,
            continuing,
            ..
        } => {
            add_list(out, body)?;
            add_list(out, continuing)
        }
        _ => Ok(()),
    }
}

/// Adds the statements of a list.
#[cycle(standing)]
fn add_list<'m>(out: &mut Listed<'m>, list: &'m Items<CoreStatement>) -> Result<(), AllocError>
    ensures { OnOk result (map (λ s. by_itself s.now) out.new.items ≡ map (λ s. by_itself s.now) out.old.items ++ statements (code_of list.now)) }
{
    'statements: for statement in list.as_slice() {
        out.push(statement)?;
        add_parts_of(out, &statement.act)?;
    }
    Ok(())
}

/// Adds the statements of the parts of a switch.
#[cycle(standing)]
fn add_parts<'m>(out: &mut Listed<'m>, parts: &'m Items<SwitchPart>) -> Result<(), AllocError>
    ensures { OnOk result (map (λ s. by_itself s.now) out.new.items ≡ map (λ s. by_itself s.now) out.old.items ++ statements (parts_from 0 0 (map part_code parts.now))) }
{
    'parts: for part in parts.as_slice() {
        add_list(out, &part.body)?;
    }
    Ok(())
}

/// The statements of a list and of the parts of its statements, in structure order.
pub fn statements_of<'m>(
    alloc: Global,
    list: &'m Items<CoreStatement>,
) -> Result<Listed<'m>, AllocError>
    ensures { IfOk result (λ listed. map (λ s. by_itself s.now) listed.items ≡ statements (code_of list.now)) }
{
    let mut listed = Vec::new(alloc);
    add_list(&mut listed, list)?;
    Ok(listed)
}

//! What a report tells of a statement.

ghost use Rattle.std.specs.Prelude.{◌≡◌, ◌++◌, ◌∷◌, [], map, IfOk};
ghost use Rattle.shade_report.specs.Sources.{act_told, list_sources, all_of, part_sources};

use shade_base::Place;
use shade_core::{Act, CoreStatement, SwitchPart};
use shade_values::Space;
use sqlite_items::Items;
use std::alloc::{AllocError, Global};

/// What stands where a header names the function that a statement calls.
#[derive(Clone, Copy, Debug, PartialEq, Eq)]
pub enum Callee {
    /// The barrier that orders this space.
    Barrier(Space),
    /// The uniform load of workgroup memory.
    UniformLoad,
    /// The function of the module with this number.
    Function(u32),
    /// No function: no header names this statement.
    Nothing,
}

/// A statement's place, and the function that it calls.
#[derive(Clone, Copy, Debug, PartialEq, Eq)]
pub struct Source {
    pub place: Place,
    pub callee: Callee,
}

/// The function that a statement calls.
fn callee_of(act: &Act) -> Callee
    ensures { result ≡ (act_told act.now).0 }
{
    match act {
        Act::Call { function, .. } => Callee::Function(*function),
        Act::Barrier { space, .. } => Callee::Barrier(*space),
        Act::UniformLoad { .. } => Callee::UniformLoad,
        _ => Callee::Nothing,
    }
}

/// Adds what stands inside a statement.
#[cycle(sources)]
fn add_inside(act: &Act, out: &mut Vec<Source>) -> Result<(), AllocError>
    ensures { IfOk result (λ _. out.new.items ≡ out.old.items ++ (act_told act.now).1) }
{
    match act {
        Act::If { yes, no, .. } => {
            add_list(yes, out)?;
            add_list(no, out)?;
        }
        Act::Switch { parts, .. } => add_parts(parts, out)?,
        Act::Loop {
            body,
            continuing,
            ..
        } => {
            add_list(body, out)?;
            add_list(continuing, out)?;
        }
        _ => {}
    }
    Ok(())
}

/// Adds the statements of a list.
#[cycle(sources)]
fn add_list(list: &Items<CoreStatement>, out: &mut Vec<Source>) -> Result<(), AllocError>
    ensures { IfOk result (λ _. out.new.items ≡ out.old.items ++ list_sources list.now) }
{
    for statement in list.as_slice() {
        out.push(Source {
            place: statement.place,
            callee: callee_of(&statement.act),
        })?;
        add_inside(&statement.act, out)?;
    }
    Ok(())
}

/// Adds the statements of the parts of a switch.
#[cycle(sources)]
fn add_parts(parts: &Items<SwitchPart>, out: &mut Vec<Source>) -> Result<(), AllocError>
    ensures { IfOk result (λ _. out.new.items ≡ out.old.items ++ all_of (map part_sources parts.now)) }
{
    for part in parts.as_slice() {
        add_list(&part.body, out)?;
    }
    Ok(())
}

/// What is told of the statements of a body, in structure order: of the statement with number n at place n.
pub fn sources_of(alloc: Global, body: &Items<CoreStatement>) -> Result<Vec<Source>, AllocError>
    ensures { IfOk result (λ sources. sources.items ≡ list_sources body.now) }
{
    let mut out = Vec::new(alloc);
    add_list(body, &mut out)?;
    Ok(out)
}

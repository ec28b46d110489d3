//! The calls of a function, and the statements at which all lanes meet.

ghost use Rattle.std.specs.Prelude.{◌≡◌, ◌++◌, ◌∷◌, [], map, IfOk, OnOk};
ghost use Rattle.shade_core.specs.Code.{act_code, code_of, done, part_code, parts_from};
ghost use Rattle.shade_chains.specs.Events.{deeper as deeper_of, event, events, first_events};

use shade_core::{Act, CoreStatement, SwitchPart};
use sqlite_items::Items;
use std::alloc::{AllocError, Global};

/// A call, or a statement at which all lanes meet.
#[derive(Clone, Copy, Debug, PartialEq, Eq)]
pub struct Event {
    /// How many loops stand around it, and 255 for more.
    pub loops: u32,
    /// The number of the function that is called. None is where all lanes meet.
    pub callee: Option<u32>,
}

/// A list of events.
pub type Events = Vec<Event>;

/// Loops from this one on are not counted.
const MOST_LOOPS: u32 = 255;

fn deeper(loops: u32) -> u32
    ensures { result ≡ deeper_of loops }
{
    if loops < MOST_LOOPS {
        loops + 1
    } else {
        MOST_LOOPS
    }
}

fn add_event(out: &mut Events, loops: u32, callee: Option<u32>) -> Result<(), AllocError>
    ensures { OnOk result (out.new.items ≡ out.old.items ++ event loops callee ∷ []) }
{
    out.push(Event { loops, callee })?;
    Ok(())
}

/// Adds the events of an act and of its parts.
#[cycle(events)]
fn add_of_act(out: &mut Events, loops: u32, act: &Act) -> Result<(), AllocError>
    ensures { OnOk result (out.new.items ≡ out.old.items ++ first_events loops (act_code act.now 0 done)) }
{
    match act {
        Act::Barrier { .. } | Act::UniformLoad { .. } => add_event(out, loops, None),
        Act::Call { function, .. } => add_event(out, loops, Some(*function)),
        Act::If { yes, no, .. } => {
            add_of_list(out, loops, yes)?;
            add_of_list(out, loops, no)
        }
        Act::Switch { parts, .. } => add_of_parts(out, loops, parts),
        Act::Loop {
            body,
            continuing,
            ..
        } => {
            add_of_list(out, deeper(loops), body)?;
            add_of_list(out, deeper(loops), continuing)
        }
        _ => Ok(()),
    }
}

/// Adds the events of a list.
#[cycle(events)]
fn add_of_list(out: &mut Events, loops: u32, list: &Items<CoreStatement>) -> Result<(), AllocError>
    ensures { OnOk result (out.new.items ≡ out.old.items ++ events loops (code_of list.now)) }
{
    'statements: for statement in list.as_slice() {
        add_of_act(out, loops, &statement.act)?;
    }
    Ok(())
}

/// Adds the events of the parts of a switch.
#[cycle(events)]
fn add_of_parts(out: &mut Events, loops: u32, parts: &Items<SwitchPart>) -> Result<(), AllocError>
    ensures { OnOk result (out.new.items ≡ out.old.items ++ events loops (parts_from 0 0 (map part_code parts.now))) }
{
    'parts: for part in parts.as_slice() {
        add_of_list(out, loops, &part.body)?;
    }
    Ok(())
}

/// The calls of a body, and its statements at which all lanes meet, in structure order.
pub fn events_of(alloc: Global, body: &Items<CoreStatement>) -> Result<Events, AllocError>
    ensures { IfOk result (λ found. found.items ≡ events 0 (code_of body.now)) }
{
    let mut found = Vec::new(alloc);
    add_of_list(&mut found, 0, body)?;
    Ok(found)
}

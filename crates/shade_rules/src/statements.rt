//! What is found of the statements of a function, in structure order.

ghost use Rattle.std.specs.Prelude.{◌≡◌, ◌++◌, ◌∷◌, true, None, Some, if◌then◌else◌, map, IfOk, OnOk};
ghost use Rattle.shade_core.specs.Behaviour.{after_loop, behaviour, joined};
ghost use Rattle.shade_core.specs.Code.{act_code, code_of, done, part_code, parts_from};
ghost use Rattle.shade_core.specs.Control.{is_empty, leaves, loop_fault};
ghost use Rattle.shade_core.specs.Places.{all_of, list_places, part_places, places_in};
ghost use Rattle.shade_core.specs.declared.control.ControlFault.TheVariants.{Escapes};
ghost use Rattle.shade_rules.specs.Findings.{findings, first_told, inside, place_of, told, told_of};

use shade_base::Place;
use shade_core::{Act, Behaviour, ControlFault, CoreStatement, SwitchPart};
use sqlite_items::Items;
use std::alloc::AllocError;

/// How control goes on after a statement, and what is wrong with that.
#[derive(Clone, Copy, Debug, PartialEq, Eq)]
pub struct Told {
    pub set: Behaviour,
    pub fault: Option<ControlFault>,
}

/// What is found of a statement at its place.
#[derive(Clone, Copy, Debug, PartialEq, Eq)]
pub struct Finding {
    pub told: Told,
    pub place: Place,
}

/// What stands around a list of statements.
#[derive(Clone, Copy, Debug, PartialEq, Eq)]
pub struct Around {
    /// A loop or a switch.
    pub breaks: bool,
    /// A loop.
    pub continues: bool,
}

impl Around {
    pub const NOTHING: Around = Around {
        breaks: false,
        continues: false,
    };

    pub const LOOP: Around = Around {
        breaks: true,
        continues: true,
    };
}

/// A statement whose behaviour is never wrong.
fn sound(set: Behaviour) -> Told
    ensures { result ≡ told set None }
{
    Told { set, fault: None }
}

/// A jump, where what it asks for stands around it or not.
fn jump(set: Behaviour, stands: bool) -> Told
    ensures { result ≡ told set (if stands then None else Some Escapes) }
{
    if stands {
        return sound(set);
    }
    Told {
        set,
        fault: Some(ControlFault::Escapes),
    }
}

fn leaves_by_more(set: Behaviour) -> bool
    ensures { result ≡ leaves set }
{
    set.breaks || (set.continues || set.returns)
}

fn goes_nowhere(set: Behaviour) -> bool
    ensures { result ≡ is_empty set }
{
    !(set.next || leaves_by_more(set))
}

fn fault_of_loop(whole: Behaviour, continuing: Behaviour) -> Option<ControlFault>
    ensures { result ≡ loop_fault whole continuing }
{
    if goes_nowhere(whole) {
        Some(ControlFault::Empty)
    } else if leaves_by_more(continuing) {
        Some(ControlFault::ContinuingLeaves)
    } else {
        None
    }
}

/// A loop, by the behaviours of its parts.
fn of_loop(body: Behaviour, continuing: Behaviour, may_leave: bool) -> Told
    ensures { result ≡ told (after_loop (joined body continuing) may_leave) (loop_fault (after_loop (joined body continuing) may_leave) continuing) }
{
    let set = body.joined(continuing).after_loop(may_leave);
    Told {
        set,
        fault: fault_of_loop(set, continuing),
    }
}

/// Adds what is found of the statements of the parts of an act, and gives what is found of itself.
#[cycle(statements)]
fn add_inside(out: &mut Vec<Finding>, around: Around, act: &Act) -> Result<Told, AllocError>
    ensures told { IfOk result (λ t. t ≡ first_told around.breaks around.continues (act_code act.now 0 done)) }
    ensures inside { OnOk result (map told_of out.new.items ≡ map told_of out.old.items ++ inside around.breaks around.continues (act_code act.now 0 done)) }
    ensures places { OnOk result (map place_of out.new.items ≡ map place_of out.old.items ++ places_in act.now) }
{
    match act {
        Act::If { yes, no, .. } => {
            let first = add_list(out, around, yes)?;
            let second = add_list(out, around, no)?;
            Ok(sound(first.joined(second)))
        }
        Act::Switch { parts, .. } => {
            let all = add_parts(out, around.continues, parts)?;
            Ok(sound(all.after_switch()))
        }
        Act::Loop {
            body,
            continuing,
            leave,
        } => {
            let first = add_list(out, Around::LOOP, body)?;
            let last = add_list(out, Around::LOOP, continuing)?;
            Ok(of_loop(first, last, leave.is_some()))
        }
        Act::Break => Ok(jump(Behaviour::BREAK, around.breaks)),
        Act::Continue => Ok(jump(Behaviour::CONTINUE, around.continues)),
        Act::Return { .. } => Ok(sound(Behaviour::RETURN)),
        _ => Ok(sound(Behaviour::NEXT)),
    }
}

/// Adds what is found of a statement and of those of its parts, and gives its behaviour.
#[cycle(statements)]
fn add_statement(
    out: &mut Vec<Finding>,
    around: Around,
    statement: &CoreStatement,
) -> Result<Behaviour, AllocError>
    ensures set { IfOk result (λ b. b ≡ behaviour (act_code statement.now.act 0 done)) }
    ensures told { OnOk result (map told_of out.new.items ≡ map told_of out.old.items ++ first_told around.breaks around.continues (act_code statement.now.act 0 done) ∷ inside around.breaks around.continues (act_code statement.now.act 0 done)) }
    ensures places { OnOk result (map place_of out.new.items ≡ map place_of out.old.items ++ statement.now.place ∷ places_in statement.now.act) }
{
    let at = out.len();
    out.push(Finding {
        told: sound(Behaviour::NEXT),
        place: statement.place,
    })?;
    let told = add_inside(out, around, &statement.act)?;
    out[at] = Finding {
        told,
        place: statement.place,
    };
    Ok(told.set)
}

/// Adds what is found of the statements of a list, and gives its behaviour.
#[cycle(statements)]
pub fn add_list(
    out: &mut Vec<Finding>,
    around: Around,
    list: &Items<CoreStatement>,
) -> Result<Behaviour, AllocError>
    ensures set { IfOk result (λ b. b ≡ behaviour (code_of list.now)) }
    ensures told { OnOk result (map told_of out.new.items ≡ map told_of out.old.items ++ findings around.breaks around.continues (code_of list.now)) }
    ensures places { OnOk result (map place_of out.new.items ≡ map place_of out.old.items ++ list_places list.now) }
{
    let mut so_far = Behaviour::NEXT;
    'statements: for statement in list.as_slice() {
        let set = add_statement(out, around, statement)?;
        so_far = so_far.then(set);
    }
    Ok(so_far)
}

/// Adds what is found of the statements of the parts of a switch, and gives the union of their behaviours.
#[cycle(statements)]
fn add_parts(
    out: &mut Vec<Finding>,
    continues: bool,
    parts: &Items<SwitchPart>,
) -> Result<Behaviour, AllocError>
    ensures set { IfOk result (λ b. b ≡ behaviour (parts_from 0 0 (map part_code parts.now))) }
    ensures told { OnOk result (map told_of out.new.items ≡ map told_of out.old.items ++ findings true continues (parts_from 0 0 (map part_code parts.now))) }
    ensures places { OnOk result (map place_of out.new.items ≡ map place_of out.old.items ++ all_of (map part_places parts.now)) }
{
    let around = Around {
        breaks: true,
        continues,
    };
    let mut so_far = Behaviour::NONE;
    'parts: for part in parts.as_slice() {
        let set = add_list(out, around, &part.body)?;
        so_far = so_far.joined(set);
    }
    Ok(so_far)
}

//! The behaviours of the statements of a module, or the first fault.

ghost use Rattle.std.specs.Prelude.{◌≡◌, ◌++◌, ◌∷◌, [], All, IfErr, IfNone, IfOk, IfSome, IsSome, OnOk, false, map, true};
ghost use Rattle.shade_core.specs.Behaviour.{behaviour, body_behaviours};
ghost use Rattle.shade_core.specs.Code.{code_of};
ghost use Rattle.shade_core.specs.Control.{HasNoBehaviourFault, body_faults};
ghost use Rattle.shade_core.specs.Places.{list_places};
ghost use Rattle.shade_rules.specs.Faults.{IsFirst, IsFirstIn, IsNone, IsRefused};
ghost use Rattle.shade_rules.specs.Findings.{fault_of, place_of, set_of as set_of_finding};

use crate::fault::{BehaviourFault, told};
use crate::statements::{Around, Finding, add_list};
use shade_core::{Behaviour, Behaviours, CoreFunction, CoreModule};
use sqlite_items::Items;
use std::alloc::{AllocError, Global};

/// The first fault of some statements, if there is one.
fn first_fault(found: &[Finding]) -> Option<BehaviourFault>
    ensures some { IfSome result (IsFirst (map fault_of found.now) (map place_of found.now)) }
    ensures none { IfNone result (All IsNone (map fault_of found.now)) }
{
    'found: for finding in found {
        if let Some(fault) = finding.told.fault {
            return Some(told(fault, finding.place));
        }
    }
    None
}

fn sets_of(alloc: Global, found: &[Finding]) -> Result<Items<Behaviour>, AllocError>
    ensures { IfOk result (λ sets. sets ≡ map set_of_finding found.now) }
{
    let mut sets = Vec::with_capacity(alloc, found.len())?;
    'found: for finding in found {
        sets.push(finding.told.set)?;
    }
    Ok(Items::from_vec(sets))
}

/// What is found of a function.
#[derive(Drop)]
struct Examined {
    sets: Items<Behaviour>,
    fault: Option<BehaviourFault>,
}

/// The fault at the end of a function, where control comes to it though a result is due.
fn end_fault(function: &CoreFunction, next: bool) -> Option<BehaviourFault>
    ensures some { IfSome result (λ fault. (fault ≡ BehaviourFault.NoReturn function.now.place) × IsSome function.now.result × (next ≡ true)) }
    ensures none { IfNone result (IsSome function.now.result → next ≡ false) }
{
    if function.result.is_some() && next {
        Some(BehaviourFault::NoReturn(function.place))
    } else {
        None
    }
}

/// The first fault of a function, by what is found of its statements and of its end.
#[tactic(auto, using(crate::proofs::FaultLaws::statement_fault, crate::proofs::FaultLaws::end_fault, crate::proofs::FaultLaws::no_fault))]
fn fault_in(function: &CoreFunction, found: &[Finding], next: bool) -> Option<BehaviourFault>
    requires faults { map fault_of found.now ≡ body_faults function.now }
    requires places { map place_of found.now ≡ list_places function.now.body }
    requires end { next ≡ (behaviour (code_of function.now.body)).next }
    ensures some { IfSome result (IsFirstIn function.now) }
    ensures none { IfNone result (HasNoBehaviourFault function.now) }
{
    match first_fault(found) {
        Some(fault) => Some(fault),
        None => end_fault(function, next),
    }
}

/// Finds the behaviours of the statements of a function and its first fault.
#[tactic(auto, using(crate::proofs::FindingLaws::found_sets, crate::proofs::FindingLaws::found_faults))]
fn examine(alloc: Global, function: &CoreFunction) -> Result<Examined, AllocError>
    ensures sets { IfOk result (λ e. e.sets ≡ body_behaviours function.now) }
    ensures some { IfOk result (λ e. IfSome e.fault (IsFirstIn function.now)) }
    ensures none { IfOk result (λ e. IfNone e.fault (HasNoBehaviourFault function.now)) }
{
    let mut found = Vec::new(alloc);
    let whole = add_list(&mut found, Around::NOTHING, &function.body)?;
    let sets = sets_of(alloc, &found)?;
    Ok(Examined {
        sets,
        fault: fault_in(function, &found, whole.next),
    })
}

fn add_row(rows: &mut Vec<Items<Behaviour>>, row: Items<Behaviour>) -> Result<(), AllocError>
    ensures { OnOk result (rows.new.items ≡ rows.old.items ++ row ∷ []) }
{
    rows.push(row)?;
    Ok(())
}

/// Gives the behaviour of each statement of a module, or the first fault: functions are taken in the order of the text, and of each
/// its statements in structure order, and then its end; of two faults of one loop that it goes on nowhere comes first.
///
/// Each behaviour is found once, in one walk: this takes time in the order of the statements, and memory for each of them; without
/// it the answer is `NoMemory`.
pub fn behaviours(alloc: Global, checked: &CoreModule) -> Result<Behaviours, BehaviourFault>
    ensures table { IfOk result (λ b. b.functions ≡ map body_behaviours checked.now.functions) }
    ensures accepted { IfOk result (λ b. All HasNoBehaviourFault checked.now.functions) }
    ensures refused { IfErr result (IsRefused checked.now.functions) }
{
    let mut rows = Vec::new(alloc);
    'functions: for function in checked.functions.as_slice() {
        let examined = examine(alloc, function)?;
        if let Some(fault) = examined.fault {
            return Err(fault);
        }
        add_row(&mut rows, examined.sets)?;
    }
    Ok(Behaviours {
        functions: Items::from_vec(rows),
    })
}

//! Filters of one range that give one rule unlike severities.

ghost use Rattle.std.specs.Prelude.{◌≡◌, not, [], IfOk, OnOk};
ghost use Rattle.std.specs.BTreeMap.{get};
ghost use Rattle.shade_scope.specs.Conflicts.{conflicts, rank};
ghost use Rattle.shade_scope.specs.Faults.{least_of};
ghost use Rattle.shade_scope.specs.Given.{Keeps, conflict_by, differs, joined, key, key_cmp};

use crate::fault::ScopeFault;
use crate::naming::earlier;
use shade_base::Severity;
use shade_events::{Event, RuleName};
use std::alloc::{AllocError, Global};
use std::collections::BTreeMap;

/// What the filters of one range give a rule: one severity, or unlike ones.
#[derive(Clone, Copy, Debug, PartialEq, Eq)]
pub enum Given {
    One(Severity),
    Several,
}

fn rank(severity: Severity) -> u8
    ensures { result ≡ rank severity }
{
    match severity {
        Severity::Error => 0,
        Severity::Warning => 1,
        Severity::Info => 2,
        Severity::Off => 3,
    }
}

fn key(rule: RuleName) -> (Option<u32>, u32)
    ensures { result ≡ key rule }
{
    match rule {
        RuleName::Plain(name) => (None, name),
        RuleName::Scoped(scope, name) => (Some(scope), name),
    }
}

/// Whether a filter clashes with one of those of its rule.
fn differs(given: Option<Given>, severity: Severity) -> bool
    ensures { result ≡ differs given severity }
{
    match given {
        None => false,
        Some(Given::One(first)) => rank(first) != rank(severity),
        Some(Given::Several) => true,
    }
}

fn joined(given: Option<Given>, severity: Severity) -> Given
    ensures { result ≡ joined given severity }
{
    match given {
        None => Given::One(severity),
        Some(Given::One(first)) => {
            if rank(first) == rank(severity) {
                Given::One(first)
            } else {
                Given::Several
            }
        }
        Some(Given::Several) => Given::Several,
    }
}

/// What the filters of a rule give it.
fn given_to(rules: &BTreeMap<(Option<u32>, u32), Given>, rule: RuleName) -> Option<Given>
    ensures { result ≡ get key_cmp rules.now (key rule) }
{
    let key = key(rule);
    rules.get(&key).copied()
}

fn conflict_of(rules: &BTreeMap<(Option<u32>, u32), Given>, event: Event) -> Option<ScopeFault>
    ensures { result ≡ least_of (conflict_by rules.now event) }
{
    match event {
        Event::Filters(filter) => {
            if differs(given_to(rules, filter.rule), filter.severity) {
                return Some(ScopeFault::Conflict(filter.place));
            }
            None
        }
        _ => None,
    }
}

/// Keeps what the filters of the range that began last give.
fn keep_filter(
    alloc: Global,
    rules: &mut BTreeMap<(Option<u32>, u32), Given>,
    event: Event,
) -> Result<(), AllocError>
    ensures { OnOk result (Keeps rules.old rules.new event) }
{
    match event {
        Event::Covers => *rules = BTreeMap::new(alloc),
        Event::Filters(filter) => {
            let given = joined(given_to(rules, filter.rule), filter.severity);
            rules.insert(key(filter.rule), given)?;
        }
        _ => (),
    }
    Ok(())
}

/// Gives the first filter that clashes with one before it for the same range. Takes time in the order of the events, but for the look-ups of
/// rules, and memory for the rules of one range.
pub fn least_conflict(alloc: Global, events: &[Event]) -> Result<Option<ScopeFault>, AllocError>
    ensures { IfOk result (λ least. least ≡ least_of (conflicts [] events.now)) }
{
    let mut rules = BTreeMap::new(alloc);
    let mut least = None;
    for event in events {
        least = earlier(least, conflict_of(&rules, *event));
        keep_filter(alloc, &mut rules, *event)?;
    }
    Ok(least)
}

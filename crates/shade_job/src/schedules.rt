//! The schedule of a job.

ghost use Rattle.std.specs.Prelude.{◌≡◌, ◌≤◌, ◌<◌, ◌++◌, ◌∷◌, [], ◌↔◌, map, replicate, IfOk, IsTrue, MatchResult, option_map, codes};
ghost use Rattle.serde_json.specs.View.{view, members_view};
ghost use Rattle.shade_job.specs.Json.{NumbersFail};
ghost use Rattle.shade_job.specs.Pointers.{item_pointer};
ghost use Rattle.shade_job.specs.ByRule.{RefusesBy};
ghost use Rattle.shade_job.specs.Schedules.{form_by_text, form_by_member, form_by_members, form_of, run_of, runs_of, run_ranges, steps_of, step_count, RunFails, RunsAre, RunsFail, by_seed, by_picks, by_list, by_runs, FormIs, FormFails, ScheduleIs, ScheduleFails};
ghost use Rattle.shade_job.specs.Asked.{asked_for};

use crate::MOST_STEPS;
use crate::numbers::{NumberRange, items_between, items_exactly, items_of, number_in, numbers_of};
use crate::policies::{Schedule, StepList};
use crate::refusal::{JobRefusal, JobRule, item_pointer, item_refusal, refusal};
use crate::rules::member;
use serde_json::{Map, Value};
use sqlite_items::Items;
use std::alloc::{AllocError, Global};

/// The greatest number of picks.
const MOST_PICKS: usize = 65_536;

/// What a schedule asks for, with the value that says it.
#[derive(Clone, Copy)]
pub(crate) enum ScheduleForm<'a> {
    Lanes,
    Round,
    Seed(&'a Value),
    Picks(&'a Value),
    List(&'a Value),
    Runs(&'a Value),
}

/// A lane, and how often it steps.
#[derive(Clone, Copy, Debug, PartialEq, Eq)]
pub(crate) struct Run {
    pub(crate) lane: u32,
    pub(crate) count: u32,
}

fn form_by_text<'a>(text: &str) -> Option<ScheduleForm<'a>>
    ensures { option_map asked_for result ≡ form_by_text text.now }
{
    if text == "lanes" {
        Some(ScheduleForm::Lanes)
    } else if text == "round" {
        Some(ScheduleForm::Round)
    } else {
        None
    }
}

fn form_by_member<'a>(name: &str, value: &'a Value, version: u32) -> Option<ScheduleForm<'a>>
    ensures { option_map asked_for result ≡ form_by_member version name.now (view value.now) }
{
    if name == "seed" {
        Some(ScheduleForm::Seed(value))
    } else if name == "picks" {
        Some(ScheduleForm::Picks(value))
    } else if name == "list" {
        Some(ScheduleForm::List(value))
    } else if name == "runs" && version == 2 {
        Some(ScheduleForm::Runs(value))
    } else {
        None
    }
}

fn form_by_members(members: &Map<String, Value>, version: u32) -> Option<ScheduleForm<'_>>
    ensures { option_map asked_for result ≡ form_by_members version (members_view members.now.entries) }
{
    let mut entries = members.iter();
    let (name, value) = entries.next()?;
    if entries.next().is_some() {
        return None;
    }
    form_by_member(name.as_str(), value, version)
}

/// What a value asks for, where it is a schedule's text or an object of one member that a schedule may have.
fn form_of(value: &Value, version: u32) -> Option<ScheduleForm<'_>>
    ensures { option_map asked_for result ≡ form_of version (view value.now) }
{
    if let Some(text) = value.as_str() {
        return form_by_text(text);
    }
    form_by_members(value.as_object()?, version)
}

/// The schedule of a job of this version, of so many lanes.
pub(crate) fn read_schedule(
    alloc: Global,
    job: &Value,
    version: u32,
    lanes: u32,
) -> Result<Schedule, JobRefusal>
    ensures { MatchResult result (ScheduleIs version lanes (view job.now)) (RefusesBy JobRule.Schedule (ScheduleFails version lanes (view job.now))) }
{
    let value = member(alloc, job, "schedule", JobRule::Schedule)?;
    match form_of(value, version) {
        Some(form) => schedule_of(alloc, &form, lanes),
        None => Err(refusal(alloc, JobRule::Schedule, b"/schedule")),
    }
}

fn schedule_of(alloc: Global, form: &ScheduleForm<'_>, lanes: u32) -> Result<Schedule, JobRefusal>
    ensures { MatchResult result (FormIs lanes (asked_for form.now)) (RefusesBy JobRule.Schedule (FormFails lanes (asked_for form.now))) }
{
    match form {
        ScheduleForm::Lanes => Ok(Schedule::Lanes),
        ScheduleForm::Round => Ok(Schedule::Round),
        ScheduleForm::Seed(value) => seeded(alloc, value),
        ScheduleForm::Picks(value) => picked(alloc, value),
        ScheduleForm::List(value) => listed(alloc, value, lanes),
        ScheduleForm::Runs(value) => repeated(alloc, value, lanes),
    }
}

fn seeded(alloc: Global, value: &Value) -> Result<Schedule, JobRefusal>
    ensures { MatchResult result (FormIs 0 (by_seed (view value.now))) (RefusesBy JobRule.Schedule (FormFails 0 (by_seed (view value.now)))) }
{
    match value.as_u64() {
        Some(seed) => Ok(Schedule::Seed(seed)),
        None => Err(refusal(alloc, JobRule::Schedule, b"/schedule/seed")),
    }
}

fn picked(alloc: Global, value: &Value) -> Result<Schedule, JobRefusal>
    ensures { MatchResult result (FormIs 0 (by_picks (view value.now))) (RefusesBy JobRule.Schedule (FormFails 0 (by_picks (view value.now)))) }
{
    let Some(items) = items_between(value, 1, MOST_PICKS) else {
        return Err(refusal(alloc, JobRule::Schedule, b"/schedule/picks"));
    };
    let picks = NumberRange::Between(0, u32::MAX);
    let numbers = numbers_of(alloc, items, picks, JobRule::Schedule, b"/schedule/picks")?;
    Ok(Schedule::Picks(Items::from_vec(numbers)))
}

fn listed(alloc: Global, value: &Value, lanes: u32) -> Result<Schedule, JobRefusal>
    ensures { MatchResult result (FormIs lanes (by_list (view value.now))) (RefusesBy JobRule.Schedule (FormFails lanes (by_list (view value.now)))) }
{
    let Some(items) = items_between(value, 0, MOST_STEPS as usize) else {
        return Err(refusal(alloc, JobRule::Schedule, b"/schedule/list"));
    };
    let steps = NumberRange::Below(lanes);
    let numbers = numbers_of(alloc, items, steps, JobRule::Schedule, b"/schedule/list")?;
    Ok(Schedule::List(Items::from_vec(numbers)))
}

fn repeated(alloc: Global, value: &Value, lanes: u32) -> Result<Schedule, JobRefusal>
    ensures { MatchResult result (FormIs lanes (by_runs (view value.now))) (RefusesBy JobRule.Schedule (FormFails lanes (by_runs (view value.now)))) }
{
    let Some(items) = items_of(value) else {
        return Err(refusal(alloc, JobRule::Schedule, b"/schedule/runs"));
    };
    let steps = read_runs(alloc, items, lanes)?;
    Ok(Schedule::List(steps))
}

/// The steps that runs state.
fn read_runs(alloc: Global, items: &[Value], lanes: u32) -> Result<StepList, JobRefusal>
    ensures { MatchResult result (RunsAre lanes (map view items.now)) (RefusesBy JobRule.Schedule (RunsFail lanes (codes "/schedule/runs") (map view items.now))) }
{
    let runs = runs_of(alloc, items, lanes)?;
    if !are_few(runs.as_slice()) {
        return Err(refusal(alloc, JobRule::Schedule, b"/schedule/runs"));
    }
    let steps = steps_of(alloc, runs.as_slice())?;
    Ok(steps)
}

/// The run that a value states.
fn run_in(value: &Value, lanes: u32) -> Option<Run>
    ensures { result ≡ run_of lanes (view value.now) }
{
    let items = items_exactly(value, 2)?;
    Some(Run {
        lane: number_in(&items[0], NumberRange::Below(lanes))?,
        count: number_in(&items[1], NumberRange::Between(1, MOST_STEPS))?,
    })
}

/// The refusal of an item that states no run.
fn run_refusal(alloc: Global, value: &Value, lanes: u32, index: usize) -> JobRefusal
    requires { run_of lanes (view value.now) ≡ None }
    ensures { RefusesBy JobRule.Schedule (NumbersFail (run_ranges lanes) (item_pointer (codes "/schedule/runs") index) (view value.now)) result }
{
    let Some(items) = items_exactly(value, 2) else {
        return item_refusal(alloc, JobRule::Schedule, b"/schedule/runs", index);
    };
    let wrong = match number_in(&items[0], NumberRange::Below(lanes)) {
        Some(_) => 1,
        None => 0,
    };
    match item_pointer(alloc, b"/schedule/runs", index) {
        Ok(run) => item_refusal(alloc, JobRule::Schedule, &run, wrong),
        Err(_) => JobRefusal::NoMemory,
    }
}

fn add(runs: &mut Vec<Run>, run: Run) -> Result<(), AllocError>
    ensures { IfOk result (λ _. runs.new.items ≡ runs.old.items ++ run ∷ []) }
{
    runs.push(run)?;
    Ok(())
}

/// The runs that items state, or the refusal of the first that states none.
fn runs_of(alloc: Global, items: &[Value], lanes: u32) -> Result<Vec<Run>, JobRefusal>
    ensures { MatchResult result (λ runs. runs_of lanes (map view items.now) ≡ map (λ run. Some run) runs.items) (RefusesBy JobRule.Schedule (RunFails lanes (codes "/schedule/runs") (map view items.now))) }
{
    let mut runs = Vec::new(alloc);
    for (index, item) in items.iter().enumerate() {
        let Some(run) = run_in(item, lanes) else {
            return Err(run_refusal(alloc, item, lanes, index));
        };
        add(&mut runs, run)?;
    }
    Ok(runs)
}

/// Whether the steps of all runs together are few enough.
fn are_few(runs: &[Run]) -> bool
    ensures { IsTrue result ↔ (step_count runs.now ≤ 10000000) }
{
    let mut left = MOST_STEPS;
    for run in runs {
        let Some(rest) = left.checked_sub(run.count) else {
            return false;
        };
        left = rest;
    }
    true
}

fn add_run(steps: &mut Vec<u32>, run: Run) -> Result<(), AllocError>
    ensures { IfOk result (λ _. steps.new.items ≡ steps.old.items ++ replicate run.count run.lane) }
{
    'steps: for _step in 0..run.count {
        steps.push(run.lane)?;
    }
    Ok(())
}

/// The lane of each run as often as the run says.
fn steps_of(alloc: Global, runs: &[Run]) -> Result<StepList, AllocError>
    ensures { IfOk result (λ steps. steps ≡ steps_of runs.now) }
{
    let mut steps = Vec::new(alloc);
    for run in runs {
        add_run(&mut steps, *run)?;
    }
    Ok(Items::from_vec(steps))
}

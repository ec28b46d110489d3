//! JSON jobs.

ghost use Rattle.std.specs.Prelude.{IfOk, MatchResult};
ghost use Rattle.serde_json.specs.View.{view};
ghost use Rattle.shade_mem.specs.Fitting.{IsFitting};
ghost use Rattle.shade_job.specs.JobOf.{IsFault, IsFaultOf, IsJob, IsStated};
ghost use Rattle.shade_job.specs.OneAnswer.{OneAnswer};
ghost use Rattle.shade_job.specs.Refusals.{Refuses};

use crate::buffers::{read_buffers, read_words};
use crate::policies::Schedule;
use crate::refusal::{JobRefusal, JobRule, refusal};
use crate::rules::{
    lanes_at, parse, read_entry, read_group, read_groups, read_limit, read_version, refuse_others,
};
use crate::schedules::read_schedule;
use serde_json::Value;
use shade_core::CoreModule;
use shade_mem::Inputs;
use std::alloc::Global;

/// What a run is handed, which lane takes each step, and how many steps there are at most.
#[derive(Drop)]
pub struct Job {
    pub inputs: Inputs,
    pub schedule: Schedule,
    pub steps: u64,
}

/// Reads the job that a JSON text states for a module: its inputs, its schedule and its greatest number of steps.
///
/// `Rule` comes exactly where a rule fails: it has the first one by number, and a JSON pointer to the first value that breaks it.
/// `NoMemory` may come at any text.
pub fn read_job(alloc: Global, bytes: &[u8], module: &CoreModule) -> Result<Job, JobRefusal>
    ensures read { MatchResult result (IsJob bytes.now «module».now) (Refuses (IsFault bytes.now «module».now)) }
    ensures fits { IfOk result (λ job. IsFitting «module».now job.inputs) }
{
    let value = parse(alloc, bytes)?;
    if !value.is_object() {
        return Err(refusal(alloc, JobRule::Form, b""));
    }
    read_stated(alloc, &value, module)
}

/// The job that a value states.
fn read_stated(alloc: Global, value: &Value, module: &CoreModule) -> Result<Job, JobRefusal>
    ensures { MatchResult result (IsStated «module».now (view value.now)) (Refuses (IsFaultOf «module».now (view value.now))) }
{
    let version = read_version(alloc, value)?;
    let entry = read_entry(alloc, value, module)?;
    let groups = read_groups(alloc, value)?;
    let group = read_group(alloc, value, groups)?;
    let members = read_buffers(alloc, value, module)?;
    let words = read_words(alloc, members, module)?;
    let schedule = read_schedule(alloc, value, version, lanes_at(module, entry))?;
    let steps = read_limit(alloc, value, &schedule)?;
    refuse_others(alloc, value)?;
    Ok(Job {
        inputs: Inputs {
            entry,
            groups,
            group,
            words,
        },
        schedule,
        steps,
    })
}

/// A JSON text states one job for a module at most, or has one first fault, and never both.
pub fn one_answer()
    ensures { OneAnswer }
{}

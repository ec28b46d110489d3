//! The jobs of the runner: JSON texts (`read_job`), which no words reach yet, and texts of lane numbers (`read_steps`): decimals
//! without a leading zero, each below the number of lanes and each followed by a line break.
#![tactic(auto)]

mod buffers;
mod numbers;
mod others;
mod policies;
mod reading;
mod refusal;
mod rules;
mod schedules;

ghost use Rattle.std.specs.Prelude.{◌≡◌, ◌<◌, ◌++◌, ◌∷◌, [], ℕ, List, length, take, drop, ◌+◌, ◌==◌, position, IfOk, MatchResult, MatchOption};
ghost use Rattle.shade_job.specs.declared.JobFault.TheVariants.{NoMemory};
ghost use Rattle.std.specs.Fmt.{decimal};
ghost use Rattle.shade_job.specs.Steps.{States, line, lines};
ghost use Rattle.shade_job.specs.Faults.{Faults};
ghost use Rattle.shade_job.specs.Laws.{OneJob};

pub use policies::{Schedule, StepList, mix, pick_by_list, pick_by_seed, pick_in_turn};
pub use reading::{Job, one_answer, read_job};
pub use refusal::{JobRefusal, JobRule};
use shade_base::decimal_value;
use std::alloc::{AllocError, Global};

/// The greatest number of bytes of a job.
pub const MOST_BYTES: usize = 16_777_216;

/// The greatest number of steps of a run.
pub const MOST_STEPS: u32 = 10_000_000;

/// Why some bytes state no job.
#[derive(Clone, Copy, Debug, PartialEq, Eq)]
pub enum JobFault {
    /// They break the rule on a job's form.
    Form,
    NoMemory,
}

impl From<AllocError> for JobFault {
    ghost from_gives = { λ _ e. e ≡ NoMemory };

    fn from(_: AllocError) -> Self {
        JobFault::NoMemory
    }
}

/// Where the first line break stands.
fn line_end(bytes: &[u8]) -> Option<usize>
    ensures { result ≡ position (λ b. b == 10) bytes.now }
{
    bytes.iter().position(|byte| *byte == b'\n')
}

fn front(bytes: &[u8], end: usize) -> &[u8]
    requires { end < length bytes.now }
    ensures { result.now ≡ take end bytes.now }
{
    &bytes[..end]
}

fn behind(bytes: &[u8], end: usize) -> &[u8]
    requires { end < length bytes.now }
    ensures { result.now ≡ drop (end + 1) bytes.now }
{
    &bytes[end + 1..]
}

/// The number of a lane that digits write.
fn lane_number(text: &[u8], lanes: u32) -> Option<u32>
    ensures { MatchOption result ((n : ℕ) → n < lanes → ¬ (text.now ≡ decimal n)) (λ n. (text.now ≡ decimal n) × (n < lanes)) }
{
    let Some(number) = decimal_value(text) else {
        return None;
    };
    if number < lanes { Some(number) } else { None }
}

/// The number of the first line and what follows that line, where the line is the number of a lane.
fn first_line(bytes: &[u8], lanes: u32) -> Option<(u32, &[u8])>
    ensures { MatchOption result ((n : ℕ) (rest : List ℕ) → n < lanes → ¬ (bytes.now ≡ line n ++ rest)) (λ found. (bytes.now ≡ line found.0 ++ found.1.now) × (found.0 < lanes)) }
{
    let Some(end) = line_end(bytes) else {
        return None;
    };
    match lane_number(front(bytes, end), lanes) {
        Some(number) => Some((number, behind(bytes, end))),
        None => None,
    }
}

fn add(steps: &mut Vec<u32>, step: u32) -> Result<(), AllocError>
    ensures { IfOk result (λ _. steps.new.items ≡ steps.old.items ++ step ∷ []) }
{
    steps.push(step)?;
    Ok(())
}

/// The steps that a job of a workgroup of so many lanes states. Its form is broken where it has more than 16,777,216 bytes, a line is not the
/// number of a lane with a line break behind it, or there are more than 10,000,000 lines; `NoMemory` comes where memory for the steps is wanting.
pub fn read_steps(alloc: Global, bytes: &[u8], lanes: u32) -> Result<Vec<u32>, JobFault>
    ensures { MatchResult result (λ steps. States lanes bytes.now steps.items) (λ fault. Faults lanes bytes.now fault) }
{
    if bytes.len() > MOST_BYTES {
        return Err(JobFault::Form);
    }
    let mut steps = Vec::new(alloc);
    let mut rest = bytes;
    'lines: while rest.len() > 0 {
        let Some((number, after)) = first_line(rest, lanes) else {
            return Err(JobFault::Form);
        };
        if steps.len() == MOST_STEPS as usize {
            return Err(JobFault::Form);
        }
        add(&mut steps, number)?;
        rest = after;
    }
    Ok(steps)
}

/// Some bytes state one job at most.
pub fn one_job()
    ensures { OneJob }
{}

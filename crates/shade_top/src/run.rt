//! The answer to a run of a shader by a job.

ghost use Rattle.std.specs.Prelude.{◌≡◌, ◌<◌, ℕ, List, [], length, slice_get, Some, IfOk};
ghost use Rattle.shade_group.specs.Group.{run};
ghost use Rattle.shade_group.specs.Seen.{machine_of};
ghost use Rattle.shade_files.specs.Changes.{shelf_change};
ghost use Rattle.shade_top.specs.Answer.{inputs as run_inputs, IsRan, outcome, refused_job as refused_job_answer, run_status, Runs};
ghost use Rattle.shade_top.specs.Ready.{IsReady};
ghost use Rattle.shade_top.specs.Report.{answer_of, RunOutcome};
ghost use Rattle.shade_top.specs.Text.{IsModuleOf};

use crate::ready::first_form_is_ready;
use crate::report::{Report, has_error, refused, unread, verdict, violations_in};
use crate::text::{Reading, read_shader};
use shade_base::{Shelf, Status};
use shade_core::CoreModule;
use shade_files::read;
use shade_group::{Group, RunEnd};
use shade_job::{JobFault, MOST_BYTES, read_steps};
use shade_mem::Inputs;
use shade_report::{job_refusal_text, run_text};
use sqlite_items::Items;
use std::alloc::{AllocError, Global};

/// Runs a text by a job, which is read where the text is a shader without an error.
pub fn run_bytes<H: Shelf>(
    alloc: Global,
    bytes: &[u8],
    job: &str,
    shelf: &mut H,
) -> Result<Report, AllocError>
    ensures outcome { RunOutcome (shelf_change H.texts H.failed shelf.old shelf.new) bytes.now job.now result }
    ensures texts { H.texts shelf.new ≡ H.texts shelf.old }
{
    // A law, whose clause the proof uses; it does nothing when it runs.
    first_form_is_ready();
    match read_shader(alloc, bytes) {
        Ok(Reading::Shader(shader)) => run_shader(alloc, &shader, job, shelf),
        Ok(Reading::Refused(refusal)) => refused(alloc, refusal),
        Err(AllocError) => Err(AllocError),
    }
}

/// Runs the module that a text stands for.
fn run_shader<H: Shelf>(
    alloc: Global,
    shader: &CoreModule,
    job: &str,
    shelf: &mut H,
) -> Result<Report, AllocError>
    requires { IsReady shader.now }
    ensures outcome { (bytes : List ℕ) → IsModuleOf bytes shader.now → RunOutcome (shelf_change H.texts H.failed shelf.old shelf.new) bytes job.now result }
    ensures texts { H.texts shelf.new ≡ H.texts shelf.old }
{
    let violations = violations_in(alloc, shader)?;
    if has_error(&violations) {
        return verdict(alloc, shader, &violations);
    }
    run_job_file(alloc, shader, job, shelf)
}

/// Runs a module without an error by the job in a file.
fn run_job_file<H: Shelf>(
    alloc: Global,
    shader: &CoreModule,
    job: &str,
    shelf: &mut H,
) -> Result<Report, AllocError>
    requires { IsReady shader.now }
    ensures outcome { (bytes : List ℕ) → Runs bytes shader.now → RunOutcome (shelf_change H.texts H.failed shelf.old shelf.new) bytes job.now result }
    ensures texts { H.texts shelf.new ≡ H.texts shelf.old }
{
    match read(alloc, job, MOST_BYTES, shelf)? {
        Some(bytes) => run_job(alloc, shader, &bytes),
        None => unread(alloc, job),
    }
}

/// What a run is handed: the first function is its entry, there is one workgroup, and there are no buffers.
fn inputs(alloc: Global) -> Inputs
    ensures { result ≡ run_inputs }
{
    Inputs {
        entry: 0,
        groups: [1, 1, 1],
        group: [0, 0, 0],
        words: Items::from_vec(Vec::new(alloc)),
    }
}

/// Runs a module by the bytes of a job.
fn run_job(alloc: Global, shader: &CoreModule, bytes: &[u8]) -> Result<Report, AllocError>
    requires { IsReady shader.now }
    ensures { IfOk result (λ report. IsRan shader.now bytes.now (answer_of report)) }
{
    let mut group = Group::begin(alloc, shader, &inputs(alloc))?;
    match read_steps(alloc, bytes, group.lanes()) {
        Ok(steps) => run_steps(alloc, shader, &mut group, &steps),
        Err(JobFault::Form) => refused_job(alloc),
        Err(JobFault::NoMemory) => Err(AllocError),
    }
}

/// Says why a job is refused.
fn refused_job(alloc: Global) -> Result<Report, AllocError>
    ensures { IfOk result (λ report. answer_of report ≡ refused_job_answer) }
{
    let text = job_refusal_text(alloc)?;
    Ok(Report {
        status: Status::BAD_JOB,
        text: text.into_bytes(),
    })
}

fn status_of(end: RunEnd) -> Status
    ensures { result.0 ≡ run_status end }
{
    match end {
        RunEnd::Ended => Status::ACCEPTED,
        RunEnd::Diverged(_, _) => Status::DIVERGED,
        RunEnd::Running => Status::SPENT,
    }
}

/// Runs these steps.
fn run_steps(
    alloc: Global,
    shader: &CoreModule,
    group: &mut Group,
    steps: &[u32],
) -> Result<Report, AllocError>
    requires below { (i : ℕ) (n : ℕ) → slice_get steps.now i ≡ Some n → n < length (machine_of group.old).members }
    requires rootless { shader.now.roots ≡ [] }
    ensures { IfOk result (λ report. answer_of report ≡ outcome shader.now (run (machine_of group.old) steps.now)) }
{
    let end = group.run_list(steps)?;
    Ok(Report {
        status: status_of(end),
        text: run_text(alloc, shader, group)?,
    })
}

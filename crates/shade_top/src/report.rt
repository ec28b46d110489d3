//! The answer to a request: reading its files, and what is said of them.

ghost use Rattle.std.specs.Prelude.{◌≡◌, ◌<◌, ◌≤◌, ◌↔◌, ℕ, List, IsTrue, IfOk};
ghost use Rattle.shade_core.specs.Standing.{AreNumbered};
ghost use Rattle.shade_verdict.specs.Violations.{AreViolations};
ghost use Rattle.shade_report.specs.CheckReport.{count_of};
ghost use Rattle.shade_files.specs.Changes.{shelf_change};
ghost use Rattle.shade_top.specs.Ready.{IsReady};
ghost use Rattle.shade_top.specs.Answer.{IsChecked, fault_read, refusal as refusal_answer, verdict as verdict_answer, verdict_status};
ghost use Rattle.shade_top.specs.Report.{answer_of, Outcome, request_seen};
ghost use Rattle.shade_top.specs.Text.{IsModuleOf};

use crate::ready::first_form_is_ready;
use crate::request::Request;
use crate::run::run_bytes;
use crate::text::{Reading, TEXT_LIMIT, read_shader};
use shade_base::{Severity, Shelf, Status};
use shade_core::CoreModule;
use shade_files::read;
use shade_graph::GraphFault;
use shade_report::{Refusal, check_text, count_with, refusal_text};
use shade_verdict::{Violation, violations_of};
use std::alloc::{AllocError, Global};

/// A status and the text that goes with it.
#[derive(Drop)]
pub struct Report {
    pub status: Status,
    pub text: Vec<u8>,
}

/// Does what a request asks for, and says what came of it.
pub fn report_on<H: Shelf>(
    alloc: Global,
    request: Request,
    shelf: &mut H,
) -> Result<Report, AllocError>
    ensures outcome { Outcome (shelf_change H.texts H.failed shelf.old shelf.new) (request_seen request.entry) result }
    ensures texts { H.texts shelf.new ≡ H.texts shelf.old }
{
    match request {
        Request::Check(file) => match read(alloc, file, TEXT_LIMIT, shelf)? {
            Some(bytes) => check(alloc, &bytes),
            None => unread(alloc, file),
        },
        Request::Run(file, job) => match read(alloc, file, TEXT_LIMIT, shelf)? {
            Some(bytes) => run_bytes(alloc, &bytes, job, shelf),
            None => unread(alloc, file),
        },
    }
}

/// Says that a file was not read.
pub fn unread(alloc: Global, name: &str) -> Result<Report, AllocError>
    ensures { IfOk result (λ report. answer_of report ≡ fault_read name.now) }
{
    let text = format!(in alloc; "fault read {name}\n")?;
    Ok(Report {
        status: Status::UNREAD,
        text: text.into_bytes(),
    })
}

/// Says why a text is refused.
pub fn refused(alloc: Global, refusal: Refusal) -> Result<Report, AllocError>
    ensures { IfOk result (λ report. answer_of report ≡ refusal_answer refusal) }
{
    let text = refusal_text(alloc, refusal)?;
    Ok(Report {
        status: Status::REFUSED,
        text: text.into_bytes(),
    })
}

/// Checks a text.
fn check(alloc: Global, bytes: &[u8]) -> Result<Report, AllocError>
    ensures { IfOk result (λ report. IsChecked bytes.now (answer_of report)) }
{
    // A law, whose clause the proof uses; it does nothing when it runs.
    first_form_is_ready();
    match read_shader(alloc, bytes) {
        Ok(Reading::Shader(shader)) => judge(alloc, &shader),
        Ok(Reading::Refused(refusal)) => refused(alloc, refusal),
        Err(AllocError) => Err(AllocError),
    }
}

/// Judges the module that a text stands for.
fn judge(alloc: Global, shader: &CoreModule) -> Result<Report, AllocError>
    requires { IsReady shader.now }
    ensures { (bytes : List ℕ) → IsModuleOf bytes shader.now → IfOk result (λ report. IsChecked bytes (answer_of report)) }
{
    let violations = violations_in(alloc, shader)?;
    verdict(alloc, shader, &violations)
}

/// The violations of a module that is ready. Its functions are small enough for their graphs, so memory alone may be wanting.
pub fn violations_in(alloc: Global, shader: &CoreModule) -> Result<Vec<Violation>, AllocError>
    requires { IsReady shader.now }
    ensures { IfOk result (λ violations. AreViolations shader.now.functions violations.items) }
{
    match violations_of(alloc, shader) {
        Ok(violations) => Ok(violations),
        Err(GraphFault::NoMemory) => Err(AllocError),
        Err(GraphFault::TooManyNodes) => unreachable!(),
    }
}

/// Whether some violation is an error.
pub fn has_error(violations: &[Violation]) -> bool
    ensures { IsTrue result ↔ (1 ≤ count_of Severity.Error violations.now) }
{
    count_with(violations, Severity::Error) > 0
}

fn status_of(violations: &[Violation]) -> Status
    ensures { result.0 ≡ verdict_status violations.now }
{
    if count_with(violations, Severity::Error) == 0 {
        Status::ACCEPTED
    } else {
        Status::REJECTED
    }
}

/// Says how a module is judged whose violations these are.
pub fn verdict(
    alloc: Global,
    shader: &CoreModule,
    violations: &[Violation],
) -> Result<Report, AllocError>
    requires { AreNumbered shader.now.functions }
    ensures { IfOk result (λ report. answer_of report ≡ verdict_answer shader.now.functions violations.now) }
{
    let text = check_text(alloc, shader, violations)?;
    Ok(Report {
        status: status_of(violations),
        text,
    })
}

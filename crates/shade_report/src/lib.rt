//! The texts that the program prints: why a text or a job is refused, and the reports of a checked module and of its run.
//!
//! The bytes are defined in `specs/`: the lines of refusals in `Refusals.antt`, what is told of a statement in `Sources.antt`,
//! the labels of nodes in `Labels.antt`, the report of a check in `CheckReport.antt`, that of a run in `RunReport.antt`.
#![tactic(auto)]

mod check_report;
mod instance;
mod label;
mod refusal;
mod run_report;
mod source;

pub use check_report::{check_text, count_with};
pub use instance::frames_are_read;
pub use refusal::{Refusal, job_refusal_text, refusal_text};
pub use run_report::run_text;

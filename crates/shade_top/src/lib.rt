//! The top call: all that the program does with its words.
//!
//! What the words ask for stands in `specs/Request.antt`, what it answers in `specs/Answer.antt`, why a text is refused in
//! `specs/Text.antt`, what a call reads and writes in `specs/Serves.antt`, and why each status comes in `specs/Causes.antt`.
#![tactic(auto)]

mod law;
mod ready;
mod report;
mod request;
mod run;
mod text;
mod top_call;

pub use law::{answers_are_one, fitting_words_are_answered, jobs_agree, statuses_are_exact};
pub use ready::{clean_without_errors, first_form_is_ready};
pub use shade_first::{FirstFault, first_form};
pub use top_call::serve;

#[cfg(test)]
mod tests;

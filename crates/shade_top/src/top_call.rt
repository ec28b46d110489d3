//! The top call.

ghost use Rattle.std.specs.Prelude.{◌≡◌, ◌≤◌, length};
ghost use Rattle.shade_files.specs.Changes.{shelf_change, sink_change};
ghost use Rattle.shade_top.specs.Request.{texts_of};
ghost use Rattle.shade_top.specs.Serves.{Serves};

use crate::ready::{clean_without_errors, first_form_is_ready};
use crate::report::report_on;
use crate::request::request_of;
use shade_base::{Shelf, Sink, Status};
use shade_files::written;
use shade_sound::clean_never_diverges;
use std::alloc::{AllocError, Global};

/// Answers the words: reads the files that they name, each at most once, and writes one text.
///
/// The words are those after the program's name: `check FILE` or `run FILE JOB`. The status and the text are those of the answer to
/// the words and to what was read, but for two cases. Status 6 is a failed write: a beginning of the text is then written, and the
/// sink's count of faults rose. Status 7 is want of memory: nothing is then written, and only files were read that the answer would have
/// wanted too. It never comes for words that fit no form, for which no memory is taken. Why each status comes is said by `HasCause`.
pub fn serve<H: Shelf, K: Sink>(
    alloc: Global,
    words: &[String],
    shelf: &mut H,
    out: &mut K,
) -> Status
    // what was read, what was written, and why the call ended with this status
    ensures serves { Serves (texts_of words.now) (shelf_change H.texts H.failed shelf.old shelf.new) (sink_change K.taken K.faults out.old out.new) result.0 }
    // no text on the shelf changes
    ensures texts { H.texts shelf.new ≡ H.texts shelf.old }
{
    // Laws, whose clauses the proof uses; they do nothing when they run.
    clean_never_diverges();
    clean_without_errors();
    first_form_is_ready();
    let Some(request) = request_of(words) else {
        return written(out, Status::BAD_WORDS, b"bad words\n");
    };
    match report_on(alloc, request, shelf) {
        Ok(report) => written(out, report.status, &report.text),
        Err(AllocError) => Status::NO_MEMORY,
    }
}

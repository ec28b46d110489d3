//! Laws of the answer and of calls. Their functions do nothing when they run.

ghost use Rattle.shade_top.specs.Laws.{Completeness, ExactStatuses, JobsAgree, OneAnswer};

use crate::ready::first_form_is_ready;
use shade_first::{never_both, one_module, one_place};
use shade_job::one_job;
use shade_lex::law::{templates_are_one, texts_are_read_once};
use shade_orders::orders_agree;
use shade_parse::law::tokens_are_parsed_once;
use shade_verdict::violations_are_one_list;

/// The status and the text of the answer are functions of the words and of what was read.
pub fn answers_are_one()
    ensures { OneAnswer }
{
    one_module();
    one_place();
    never_both();
    violations_are_one_list();
    one_job();
    first_form_is_ready();
    texts_are_read_once();
    templates_are_one();
    tokens_are_parsed_once();
}

/// Each status of an answer comes exactly where its cause holds: 0, 1, 2, 3, 4, 5, 8 and 9.
pub fn statuses_are_exact()
    ensures { ExactStatuses }
{
    one_module();
    one_place();
    never_both();
    violations_are_one_list();
    one_job();
    first_form_is_ready();
    texts_are_read_once();
    templates_are_one();
    tokens_are_parsed_once();
}

/// Words that fit a form are answered where no read and no write fails, the text is not refused and the job is one: the verdict of a
/// check, with 0 or 1, or the outcome of a run, with 0, 1, 8 or 9, is written whole; or memory runs out, and the status is 7.
pub fn fitting_words_are_answered()
    ensures { Completeness }
{}

/// Where the run of an accepted shader ended under the steps of one job, it does not diverge under those of another, and if it ends there
/// too, it has released the same instances in the same order, and left the same words.
pub fn jobs_agree()
    ensures { JobsAgree }
{
    first_form_is_ready();
    orders_agree();
}

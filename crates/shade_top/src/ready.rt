//! What the shaders of the first form are to the layers behind their reader. The functions do nothing when they run.

ghost use Rattle.shade_top.specs.Ready.{CleanWithoutErrors, FirstFormIsReady};

use shade_first::few_statements;

/// Each shader of the first form has rules, is numbered in structure order, has no roots, is run by the machine, and is small
/// enough for its graphs.
pub fn first_form_is_ready()
    ensures { FirstFormIsReady }
{
    // A law, whose clause the proof uses; it does nothing when it runs.
    few_statements();
}

/// A shader of the first form is clean exactly where a check tells no error.
pub fn clean_without_errors()
    ensures { CleanWithoutErrors }
{}

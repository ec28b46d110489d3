//! A law of the machine.

ghost use Rattle.shade_group.specs.Laws.{OverStutters};

/// After a run diverged, or every lane ended, each step is a stutter, which changes nothing but the two counts.
pub fn runs_that_are_over_stutter()
    ensures { OverStutters }
{}

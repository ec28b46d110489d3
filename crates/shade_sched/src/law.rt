//! A law of runs in which a function chooses.

ghost use Rattle.shade_sched.specs.Laws.{ChosenLanesAct};

/// The lanes that a function chooses act: no step of a run that it chooses is a stutter.
pub fn chosen_lanes_act()
    ensures { ChosenLanesAct }
{}

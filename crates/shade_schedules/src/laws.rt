//! The laws of lanes that share memory, each as the contract of a function that does nothing.

ghost use Rattle.shade_schedules.specs.Scripts.{ScriptsAreIndependent, ScriptsCommute, ScriptsLeaveOne, ScriptsTellRaces};

/// Says that no list of steps races or diverges where one ended without a race and without atomic accesses, and that each that ends leaves
/// the same memory and the same released instances.
pub fn schedules_agree()
    ensures { ScriptsCommute }
{}

/// Says the same where the lane-by-lane run is the one that ended.
pub fn lane_by_lane_stands_for_all()
    ensures { ScriptsAreIndependent }
{}

/// Says that two lists of steps whose runs end, one without a race, leave one memory and one list of released instances.
pub fn ends_are_one()
    ensures { ScriptsLeaveOne }
{}

/// Says that a history is free of races exactly where no word that was touched has a recorded race.
pub fn records_tell_races()
    ensures { ScriptsTellRaces }
{}

//! The headline: clean modules converge at their barriers.

ghost use Rattle.shade_sound.specs.Laws.{NeverDiverges, TracesAgree};
ghost use Rattle.shade_sound.specs.Ways.{StepsAreWays};

/// Whichever lanes are stepped, the lanes of a clean module never diverge at a barrier. Its statements are numbered in structure
/// order, and the machine runs its entry.
pub fn clean_never_diverges()
    ensures { NeverDiverges }
{}

/// Of the instances at which two lanes of such a module came to wait, one list is a beginning of the other; where a lane has
/// ended, the other's list is a beginning of its.
pub fn clean_traces_agree()
    ensures { TracesAgree }
{}

/// Each step of a lane goes by a way of control flow of its function, from the point before one statement to the next: the ways
/// over which definitions of variables reach.
pub fn lanes_go_by_flow()
    ensures { StepsAreWays }
{}

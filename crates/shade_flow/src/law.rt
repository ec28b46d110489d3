//! A law of the definitions that reach.

ghost use Rattle.shade_flow.specs.Laws.{ReachesAlike};

/// Reaching by exits: in a body whose statements are numbered in structure order, the definitions that reach a point are the
/// same, whether walks go from point to point, or also stand at each exit of a statement by Next, Break, Continue and Return.
pub fn reaching_by_exits()
    ensures { ReachesAlike }
{}

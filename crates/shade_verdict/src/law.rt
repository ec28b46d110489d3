//! A law of the verdict.

ghost use Rattle.shade_verdict.specs.Laws.{OneVerdict};

/// The violations of a module are one list: two lists with exactly its violations, told as they should be and in their
/// order, are equal.
pub fn violations_are_one_list()
    ensures { OneVerdict }
{}

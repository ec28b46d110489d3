//! Laws. Their functions do nothing when they run.

ghost use Rattle.shade_rules.specs.Laws.{OneAlias, OneFault};

/// A module has one first fault at most, and where it has one not all functions are without a fault.
pub fn one_fault()
    ensures { OneFault }
{}

/// A module has one first alias at most, and where it has one not all functions are free of them.
pub fn one_alias()
    ensures { OneAlias }
{}

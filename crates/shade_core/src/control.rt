//! Faults of behaviour.

/// What is wrong with how control goes on after a statement.
#[derive(Clone, Copy, Debug, PartialEq, Eq)]
pub enum ControlFault {
    /// From a loop control goes on nowhere.
    Empty,
    /// A break has no loop or switch to leave, or a continue no loop to go on with.
    Escapes,
    /// Control leaves the continuing part of a loop otherwise than at its end.
    ContinuingLeaves,
}

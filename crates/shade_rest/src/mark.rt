//! What stands around the statements that a lane has left.

use shade_core::{Argument, CoreStatement, Operand};

/// A loop: its number, the statements of its body and of its continuing part, and what leaves it.
#[derive(Clone, Copy)]
pub struct OpenLoop<'m> {
    pub number: u32,
    pub body: &'m [CoreStatement],
    pub continuing: &'m [CoreStatement],
    pub leave: Option<&'m Operand>,
}

/// One thing that is open.
#[derive(Clone, Copy)]
pub enum Mark<'m> {
    /// A list of statements, from the next one on.
    List(&'m [CoreStatement]),
    /// A loop in its body, with the count of the turn.
    Body(OpenLoop<'m>, u32),
    /// A loop in its continuing part, with the count of the turn.
    Continuing(OpenLoop<'m>, u32),
    /// A part of a switch.
    Switch,
    /// A call: its number, the function called and what was handed over.
    Call(u32, u32, &'m [Argument]),
}

/// Where a lane stands.
#[derive(Clone, Copy)]
pub enum Here<'m> {
    /// Past its entry.
    Over,
    /// Before a statement.
    First(&'m CoreStatement),
    /// At the end of a turn of a loop, with the count of the turn.
    Turning(OpenLoop<'m>, u32),
    /// Past the last statement of a function that was called.
    Falling,
}

//! What a lane has left to run: lists of statements, the loops and switches around them, and the calls that are open.
//!
//! The definitions stand in `shade_frames` (`specs/Control.antt`); `specs/Marks.antt` says what a stack of marks leaves to run.
#![tactic(auto)]

mod mark;
mod marks;

pub use mark::{Here, Mark, OpenLoop};
pub use marks::{Marks, marks_are_depth};

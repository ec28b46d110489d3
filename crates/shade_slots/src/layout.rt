//! The frame of a function.

use crate::slot::Slot;

/// Where the values of a frame lie in its words, by the numbers of parameters, local variables and statements; the first word of the pointers, of
/// which each parameter has one of three words; and how many words the frame has.
#[derive(Drop)]
pub struct FrameLayout {
    pub params: Vec<Slot>,
    pub pointers: usize,
    pub locals: Vec<Slot>,
    pub values: Vec<Slot>,
    pub size: usize,
}

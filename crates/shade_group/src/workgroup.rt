//! A workgroup, also in the midst of a step.

ghost use Rattle.std.specs.Prelude.{◌≤◌, length};

use crate::event::Epochs;
use shade_lane::{Instance, Lane};
use shade_mem::Memory;

/// The lanes of a workgroup with the memory that they share.
#[derive(Drop)]
pub(crate) struct Workgroup<'m> {
    pub(crate) lanes: Vec<Lane<'m>>,
    pub(crate) memory: Memory,
    pub(crate) epochs: Epochs,
    pub(crate) released: Vec<Instance>,
    pub(crate) diverged: Option<(u32, u32)>,
    pub(crate) steps: u64,
    pub(crate) stutters: u64,
    ghost few: { length lanes.items ≤ 256 },
}

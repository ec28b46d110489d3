//! What a step did, and how a run stands.

/// What a step of a workgroup did.
#[derive(Clone, Copy, Debug, PartialEq, Eq)]
pub enum GroupEvent {
    /// The lane could not step, or the run was over.
    Stutter,
    Ran,
    /// All lanes were released; the number of the release, from 0.
    Released(u64),
    /// Two lanes stopped unlike each other, the lesser number first.
    Diverged(u32, u32),
    /// The lane ended, and all others had ended.
    Ended,
}

/// How a run stands.
#[derive(Clone, Copy, Debug, PartialEq, Eq)]
pub enum RunEnd {
    Ended,
    Diverged(u32, u32),
    Running,
}

/// How many barriers of each space were passed.
#[derive(Clone, Copy, Debug, PartialEq, Eq)]
pub struct Epochs {
    pub workgroup: u64,
    pub storage: u64,
}

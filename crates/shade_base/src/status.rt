//! The status of the process.

/// The status that the process ends with.
#[derive(Clone, Copy, Debug, PartialEq, Eq)]
pub struct Status(pub u8);

impl Status {
    /// The shader is accepted; of a run, every lane ended.
    pub const ACCEPTED: Status = Status(0);
    /// A violation is an error.
    pub const REJECTED: Status = Status(1);
    /// The shader's text is refused.
    pub const REFUSED: Status = Status(2);
    /// The words fit no form.
    pub const BAD_WORDS: Status = Status(3);
    /// The job is none.
    pub const BAD_JOB: Status = Status(4);
    /// A file could not be read.
    pub const UNREAD: Status = Status(5);
    /// The output could not be written.
    pub const UNWRITTEN: Status = Status(6);
    /// No memory was left.
    pub const NO_MEMORY: Status = Status(7);
    /// The run diverged at a barrier.
    pub const DIVERGED: Status = Status(8);
    /// The machine still runs after the steps of the job.
    pub const SPENT: Status = Status(9);
}

//! What takes bytes.
ghost use Rattle.std.specs.Prelude.{◌≡◌, ℕ, ◌≤◌, List, Option, length};
ghost use Rattle.shade_base.specs.Sink.{Takes, IsCountedOnErr};

/// A write failed. The sink may have taken a beginning of its bytes.
#[derive(Clone, Copy, Debug, PartialEq, Eq)]
pub struct Failed;

/// Where a program's bytes go.
pub trait Sink {
    /// The bytes taken so far, where the sink tells them.
    ghost taken: { Self → Option (List ℕ) };

    /// The count of faults, a counter of 64 bits.
    ghost faults: { Self → ℕ };

    /// Takes the bytes, of which there is at least one. A write that fails has taken a beginning of them, maybe none,
    /// and raised the count of faults by one; one that succeeds leaves the count. Where the count stands at its end, it stays there.
    fn write(&mut self, bytes: &[u8]) -> Result<(), Failed>
        requires { 1 ≤ length bytes.now }
        ensures bytes { Takes (taken self.old) bytes.now (taken self.new) result }
        ensures cause { IsCountedOnErr (faults self.old) (faults self.new) result };
}

//! A sink in memory, which fails as it is told.
ghost use Rattle.std.specs.Prelude.{◌≡◌, ℕ, ◌+◌, ◌≤◌, [], Some, IfOk, IsOk, ◌↔◌, length};
ghost use Rattle.shade_base.specs.MemorySink.{failing_count};

use crate::{Failed, Sink};
use std::alloc::{AllocError, Global};
use std::marker::Model;

/// A sink in memory, which tells its bytes. Its calls are numbered from 0.
#[derive(Drop)]
pub struct MemorySink {
    bytes: Vec<u8>,
    room: usize,
    failing: Vec<(u64, usize)>,
    calls: u64,
    faults: u64,
}

impl Model for MemorySink {
    ghost use Rattle.std.specs.Prelude.{◌≤◌, vec_len, vec_capacity};
    ghost use Rattle.shade_base.specs.MemorySink.{SinkState};

    ghost Value = { SinkState };

    ghost view = { λ s. record { bytes = s.bytes.items; room = s.room; failing = s.failing.items; calls = s.calls; faults = s.faults } };

    ghost invariant = { λ s. (vec_len s.bytes ≤ s.room) × (s.room ≤ vec_capacity s.bytes) };
}

impl MemorySink {
    /// A sink with room for `room` bytes. The calls numbered in `failing` take the number of bytes beside them, at most
    /// the piece and the free room, and fail; of entries for one call the first counts.
    /// All the memory that the sink ever has is taken here.
    pub fn new(
        alloc: Global,
        room: usize,
        failing: Vec<(u64, usize)>,
    ) -> Result<MemorySink, AllocError>
        ensures { IfOk result (λ sink. sink ≡ record { bytes = []; room = room; failing = failing.items; calls = 0; faults = 0 }) }
    {
        Ok(MemorySink {
            bytes: Vec::with_capacity(alloc, room)?,
            room,
            failing,
            calls: 0,
            faults: 0,
        })
    }

    /// The bytes that were taken.
    pub fn bytes(&self) -> &[u8]
        ensures { result.now ≡ self.now.bytes }
    {
        &self.bytes
    }
}

/// How many bytes the call of this number is to take before it fails, if it is to fail.
fn count_at(failing: &[(u64, usize)], call: u64) -> Option<usize>
    ensures { result ≡ failing_count failing.now call }
{
    let entry = failing.iter().find(|entry| entry.0 == call)?;
    Some(entry.1)
}

impl Sink for MemorySink {
    ghost use Rattle.shade_base.specs.Sink.{Takes, IsCountedOnErr};
    ghost use Rattle.shade_base.specs.MemorySink.{after_write, TakesAll};

    ghost taken = { λ s. Some s.bytes };

    ghost faults = { λ s. s.faults };

    /// Succeeds exactly where the call is not among those that are to fail, and the piece fits the free room.
    /// A piece that does not fit is taken as far as it fits. This takes no memory.
    fn write(&mut self, bytes: &[u8]) -> Result<(), Failed>
        requires { 1 ≤ length bytes.now }
        ensures bytes { Takes (Some self.old.bytes) bytes.now (Some self.new.bytes) result }
        ensures cause { IsCountedOnErr self.old.faults self.new.faults result }
        ensures after { self.new ≡ after_write self.old bytes.now }
        ensures ok { IsOk result ↔ TakesAll self.old bytes.now }
    {
        let free = self.room - self.bytes.len();
        let failing = count_at(&self.failing, self.calls);
        let count = failing.unwrap_or(free).min(free).min(bytes.len());
        let fails = failing.is_some() || count < bytes.len();
        let _ = self.bytes.extend_from_slice(&bytes[..count]);
        self.calls = self.calls.saturating_add(1);
        if fails {
            self.faults = self.faults.saturating_add(1);
            return Err(Failed);
        }
        Ok(())
    }
}

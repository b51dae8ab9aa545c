//! A sink in memory, which fails where it is asked to and where it is full.
ghost use Rattle.std.specs.Prelude.{◌≡◌, ◌<◌, ◌↔◌, Some, IfOk, IsTrue, length};
ghost use Rattle.std.specs.Io.{WritesAtMost};
ghost use Rattle.std.specs.Io.KnownBytes.{WriteAppends};
ghost use Rattle.ppm_ports.specs.Causes.{HasCause};
ghost use Rattle.ppm_ports.specs.Memory.{MemoryWrites, Refuses, new_sink};

use crate::failed::Failed;
use crate::memory_source::is_listed;
use crate::sink::Sink;
use ppm_words::NoMemory;
use std::alloc::Global;
use std::marker::Model;

/// A sink that keeps up to `room` bytes, takes at most `most` in a call, and fails at listed calls
/// and where it is full. Calls count from 0.
#[derive(Debug, Drop)]
pub struct MemorySink {
    bytes: Vec<u8>,
    room: usize,
    most: usize,
    failing: Vec<u64>,
    calls: u64,
    faults: u64,
}

impl Model for MemorySink {
    ghost use Rattle.std.specs.Prelude.{◌≤◌, ◌<◌, length, vec_capacity};
    ghost use Rattle.ppm_ports.specs.Memory.{SinkState};

    ghost Value = { SinkState };

    ghost view = { λ s. record {
      bytes = s.bytes.items;
      room = s.room;
      most = s.most;
      failing = s.failing.items;
      calls = s.calls;
      faults = s.faults;
    } };

    ghost invariant = { λ s. (length s.bytes.items ≤ s.room)
        × (s.room ≤ vec_capacity s.bytes)
        × (0 < s.most) };
}

impl MemorySink {
    /// An empty sink. It takes the memory for `room` bytes at once; `Err` only if that is refused.
    pub fn new(alloc: Global, room: usize, most: usize, failing: Vec<u64>) -> Result<Self, NoMemory>
        requires { 0 < most }
        ensures { IfOk result (λ s. s ≡ new_sink room most failing.items) }
    {
        let bytes = Vec::with_capacity(alloc, room)?;
        Ok(MemorySink {
            bytes,
            room,
            most,
            failing,
            calls: 0,
            faults: 0,
        })
    }

    /// Whether the next call fails, if it is to write this piece.
    fn refuses(&self, piece: &[u8]) -> bool
        ensures { IsTrue result ↔ Refuses self.now piece.now }
    {
        is_listed(&self.failing, self.calls) || (!piece.is_empty() && self.bytes.len() >= self.room)
    }

    /// What was written, the oldest first.
    pub fn bytes(&self) -> &[u8]
        ensures { result.now ≡ self.now.bytes }
    {
        &self.bytes
    }
}

impl Sink for MemorySink {
    ghost written = { λ s. Some s.bytes };

    ghost fault_count = { λ s. s.faults };

    fn faults(&self) -> u64 {
        self.faults
    }

    fn write(&mut self, bytes: &[u8]) -> Result<usize, Failed>
        ensures bound { WritesAtMost result bytes.now }
        ensures progress { 0 < length bytes.now → IfOk result (λ n. 0 < n) }
        ensures bytes { WriteAppends (Some self.old.bytes) (Some self.new.bytes) result bytes.now }
        ensures cause { HasCause self.old.faults self.new.faults result }
        ensures exactly { MemoryWrites self.old self.new result bytes.now }
    {
        let refused = self.refuses(bytes);
        self.calls = self.calls.saturating_add(1);
        if refused {
            self.faults = self.faults.saturating_add(1);
            return Err(Failed);
        }
        let free = self.room - self.bytes.len();
        let count = bytes.len().min(self.most).min(free);
        match self.bytes.extend_from_slice(&bytes[..count]) {
            Ok(()) => Ok(count),
            // The memory for `room` bytes was taken when the sink was made.
            Err(_) => unreachable!(),
        }
    }
}

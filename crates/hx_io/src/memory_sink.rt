ghost use Rattle.std.specs.Prelude.{◌≡◌, ◌≤◌, ◌<◌, ◌↔◌, ◌⊎◌, length, min, Some, IsErr, IfOk};
ghost use Rattle.std.specs.Io.{WritesAtMost};
ghost use Rattle.std.specs.Io.KnownBytes.{WriteAppends};
ghost use Rattle.hx_io.specs.Causes.{HasCause};
ghost use Rattle.hx_io.specs.InMemory.{FailsNext, unwritten, after_write};

use crate::ends::Sink;
use crate::errors::Failed;
use hx_types::Memory;
use std::alloc::Global;
use std::marker::Model;

/// A sink that holds its bytes in memory, takes them in pieces and fails at chosen calls: a
/// stand-in for a file or a socket in tests, and this project's choice.
///
/// A contract sees it as the bytes that it holds, how many more it has room for, the size of a
/// piece, the numbers of the calls that fail, and how many calls and faults there were. Both
/// counts start at 0 and stay at the greatest `u64`.
#[derive(Drop)]
pub struct MemorySink {
    held: Vec<u8>,
    room: usize,
    chunk: usize,
    fails: Vec<u64>,
    calls: u64,
    faults: u64,
}

impl Model for MemorySink {
    ghost use Rattle.std.specs.Prelude.{◌≤◌, ◌+◌, vec_len, vec_capacity};
    ghost use Rattle.hx_io.specs.InMemory.{SinkState};

    ghost Value = { SinkState };

    ghost view = { λ s. record {
      held = s.held.items;
      room = s.room;
      chunk = s.chunk;
      fails = s.fails.items;
      calls = s.calls;
      faults = s.faults;
    } };

    ghost invariant = { λ s. (1 ≤ s.chunk) × (vec_len s.held + s.room ≤ vec_capacity s.held) };
}

impl MemorySink {
    /// An empty sink with room for `room` bytes, which takes at most `chunk` of them in a call,
    /// and fails at the calls of `write` that `fails` names. The first call has the number 1; the
    /// order of the numbers doesn't matter, and 0 names no call.
    ///
    /// # Errors
    ///
    /// `Memory`, where memory for the room was wanting. No other call of a sink takes memory.
    pub fn new(
        alloc: Global,
        room: usize,
        chunk: usize,
        fails: Vec<u64>,
    ) -> Result<MemorySink, Memory>
        requires { 1 ≤ chunk }
        ensures { IfOk result (λ sink. sink ≡ unwritten room chunk fails.items) }
    {
        let held = Vec::with_capacity(alloc, room)?;
        Ok(MemorySink {
            held,
            room,
            chunk,
            fails,
            calls: 0,
            faults: 0,
        })
    }

    /// The bytes that it holds, in the order in which they were written.
    pub fn bytes(&self) -> &[u8]
        ensures { result.now ≡ self.now.held }
    {
        &self.held
    }
}

impl Sink for MemorySink {
    ghost held = { λ s. Some s.held };

    ghost faults = { λ s. s.faults };

    /// Takes as many bytes as there are, a piece has, and there is room for. It fails exactly at
    /// the calls that were named, and where a piece that isn't empty finds no room left; such a
    /// call takes nothing and counts one fault.
    fn write(&mut self, bytes: &[u8]) -> Result<usize, Failed>
        // As any sink.
        ensures bound { WritesAtMost result bytes.now }
        ensures some { IfOk result (λ n. 0 < length bytes.now → 0 < n) }
        ensures bytes { WriteAppends (Some self.old.held) (Some self.new.held) result bytes.now }
        ensures cause { HasCause self.old.faults self.new.faults result }

        // When it fails, how many bytes it takes, and what it is then.
        ensures fails { IsErr result ↔ (FailsNext self.old.fails self.old.calls
            ⊎ ((0 < length bytes.now) × (self.old.room ≡ 0))) }
        ensures count { IfOk result
            (λ n. n ≡ min (min (length bytes.now) self.old.chunk) self.old.room) }
        ensures after { self.new ≡ after_write self.old bytes.now result }
    {
        self.calls = self.calls.saturating_add(1);
        let is_full = self.room == 0 && !bytes.is_empty();
        if is_full || self.fails.contains(&self.calls) {
            self.faults = self.faults.saturating_add(1);
            return Err(Failed);
        }
        let count = bytes.len().min(self.chunk).min(self.room);
        self.held.extend_from_slice(&bytes[..count]).unwrap();
        self.room -= count;
        Ok(count)
    }
}

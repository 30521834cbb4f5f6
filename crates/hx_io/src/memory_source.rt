ghost use Rattle.std.specs.Prelude.{◌≡◌, ◌≤◌, ◌↔◌, ◌++◌, length, min, take, drop, Some, IsErr, IfOk, OnErr};
ghost use Rattle.std.specs.Io.{ReadsAtMost};
ghost use Rattle.std.specs.Io.KnownBytes.{ReadConsumes};
ghost use Rattle.hx_io.specs.Causes.{HasCause};
ghost use Rattle.hx_io.specs.InMemory.{FailsNext, unread, after_read};

use crate::ends::Source;
use crate::errors::Failed;
use std::alloc::Global;
use std::marker::Model;

/// A source over bytes in memory, which gives them in pieces and fails at chosen calls: a stand-in
/// for a file or a socket in tests, and this project's choice.
///
/// A contract sees it as the bytes that are left, the size of a piece, the numbers of the calls
/// that fail, and how many calls and faults there were. Both counts start at 0 and stay at the
/// greatest `u64`.
#[derive(Drop)]
pub struct MemorySource {
    bytes: Vec<u8>,
    given: usize,
    chunk: usize,
    fails: Vec<u64>,
    calls: u64,
    faults: u64,
}

impl Model for MemorySource {
    ghost use Rattle.std.specs.Prelude.{◌≤◌, length, drop};
    ghost use Rattle.hx_io.specs.InMemory.{SourceState};

    ghost Value = { SourceState };

    ghost view = { λ s. record {
      left = drop s.given s.bytes.items;
      chunk = s.chunk;
      fails = s.fails.items;
      calls = s.calls;
      faults = s.faults;
    } };

    ghost invariant = { λ s. (1 ≤ s.chunk) × (s.given ≤ length s.bytes.items) };
}

impl MemorySource {
    /// A source of the bytes, which gives at most `chunk` of them in a call, and fails exactly at
    /// the calls of `read` that `fails` names. The first call has the number 1; the order of the
    /// numbers doesn't matter, and 0 names no call.
    ///
    /// It takes no memory of `_alloc`: like each constructor of a type that holds a collection it
    /// is handed the allocator first.
    pub fn new(_alloc: Global, bytes: Vec<u8>, chunk: usize, fails: Vec<u64>) -> MemorySource
        requires { 1 ≤ chunk }
        ensures { result ≡ unread bytes.items chunk fails.items }
    {
        MemorySource {
            bytes,
            given: 0,
            chunk,
            fails,
            calls: 0,
            faults: 0,
        }
    }
}

impl Source for MemorySource {
    ghost left = { λ s. Some s.left };

    ghost faults = { λ s. s.faults };

    /// Gives as many bytes as the buffer has room for, a piece has, and are left. A call that
    /// fails gives nothing, leaves the buffer as it was, and counts one fault.
    fn read(&mut self, buf: &mut [u8]) -> Result<usize, Failed>
        // As any source.
        ensures bound { ReadsAtMost result buf.new }
        ensures bytes { ReadConsumes (Some self.old.left) (Some self.new.left) result buf.new }
        ensures cause { HasCause self.old.faults self.new.faults result }

        // When it fails, how many bytes it gives, and where they are.
        ensures fails { IsErr result ↔ FailsNext self.old.fails self.old.calls }
        ensures count { IfOk result
            (λ n. n ≡ min (min (length buf.old) self.old.chunk) (length self.old.left)) }
        ensures given { IfOk result (λ n. buf.new ≡ take n self.old.left ++ drop n buf.old) }
        ensures nothing { OnErr result (buf.new ≡ buf.old) }
        ensures after { self.new ≡ after_read self.old result }
    {
        self.calls = self.calls.saturating_add(1);
        if self.fails.contains(&self.calls) {
            self.faults = self.faults.saturating_add(1);
            return Err(Failed);
        }
        let left = &self.bytes[self.given..];
        let count = buf.len().min(self.chunk).min(left.len());
        buf[..count].copy_from_slice(&left[..count]);
        self.given += count;
        Ok(count)
    }
}

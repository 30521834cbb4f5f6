ghost use Rattle.std.specs.Prelude.{◌≡◌, ◌<◌, length, IfOk};
ghost use Rattle.std.specs.Io.{WritesAtMost};
ghost use Rattle.std.specs.Io.KnownBytes.{WriteAppends};
ghost use Rattle.hx_io.specs.Adapting.{adapted};
ghost use Rattle.hx_io.specs.Causes.{HasCause, count_after};

use crate::ends::Sink;
use crate::errors::Failed;
use std::io::Write;
use std::marker::Model;

/// A writer of std as a sink, which counts the errors that it answers.
///
/// It tells what it holds as the writer tells it: a `Vec` does, and standard output doesn't.
/// A write of 0 bytes of a piece that isn't empty is an error too. The count is 0 at first,
/// rises by one at each error, and stays at the greatest `u64`.
#[derive(Drop)]
pub struct StdSink<W> {
    inner: W,
    faults: u64,
}

impl<W> Model for StdSink<W> {
    ghost use Rattle.hx_io.specs.Adapting.{Adapted};

    ghost Value = { Adapted W };

    ghost view = { λ s. record { inner = s.inner; faults = s.faults } };
}

impl<W: Write> StdSink<W> {
    /// A sink over the writer, with no fault yet.
    pub fn new(inner: W) -> Self
        ensures { result ≡ adapted inner }
    {
        StdSink { inner, faults: 0 }
    }
}

impl<W: Write> Sink for StdSink<W> {
    ghost held = { λ s. W.contents s.inner };

    ghost faults = { λ s. s.faults };

    /// One write of the writer. An error of it, or 0 bytes of a piece that isn't empty, is a fault.
    fn write(&mut self, bytes: &[u8]) -> Result<usize, Failed>
        // As any sink.
        ensures bound { WritesAtMost result bytes.now }
        ensures some { IfOk result (λ n. 0 < length bytes.now → 0 < n) }
        ensures bytes { WriteAppends (W.contents self.old.inner) (W.contents self.new.inner)
            result bytes.now }
        ensures cause { HasCause self.old.faults self.new.faults result }

        // The count rises at an error, and only then.
        ensures count { self.new.faults ≡ count_after self.old.faults result }
    {
        match self.inner.write(bytes) {
            Ok(count) if count > 0 || bytes.is_empty() => Ok(count),
            _ => {
                self.faults = self.faults.saturating_add(1);
                Err(Failed)
            }
        }
    }
}

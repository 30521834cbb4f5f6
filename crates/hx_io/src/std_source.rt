ghost use Rattle.std.specs.Prelude.{◌≡◌};
ghost use Rattle.std.specs.Io.{ReadsAtMost};
ghost use Rattle.std.specs.Io.KnownBytes.{ReadConsumes};
ghost use Rattle.hx_io.specs.Adapting.{adapted};
ghost use Rattle.hx_io.specs.Causes.{HasCause, count_after};

use crate::ends::Source;
use crate::errors::Failed;
use std::io::Read;
use std::marker::Model;

/// A reader of std as a source, which counts the errors that it answers.
///
/// It tells what is left as the reader tells it: a slice does, and standard input doesn't.
/// The count is 0 at first, rises by one at each error, and stays at the greatest `u64`.
#[derive(Drop)]
pub struct StdSource<R> {
    inner: R,
    faults: u64,
}

impl<R> Model for StdSource<R> {
    ghost use Rattle.hx_io.specs.Adapting.{Adapted};

    ghost Value = { Adapted R };

    ghost view = { λ s. record { inner = s.inner; faults = s.faults } };
}

impl<R: Read> StdSource<R> {
    /// A source over the reader, with no fault yet.
    pub fn new(inner: R) -> Self
        ensures { result ≡ adapted inner }
    {
        StdSource { inner, faults: 0 }
    }
}

impl<R: Read> Source for StdSource<R> {
    ghost left = { λ s. R.remaining s.inner };

    ghost faults = { λ s. s.faults };

    /// One read of the reader. An error of it, an interruption among them, is a fault.
    fn read(&mut self, buf: &mut [u8]) -> Result<usize, Failed>
        // As any source.
        ensures bound { ReadsAtMost result buf.new }
        ensures bytes { ReadConsumes (R.remaining self.old.inner) (R.remaining self.new.inner)
            result buf.new }
        ensures cause { HasCause self.old.faults self.new.faults result }

        // The count rises at an error, and only then.
        ensures count { self.new.faults ≡ count_after self.old.faults result }
    {
        match self.inner.read(buf) {
            Ok(count) => Ok(count),
            Err(_) => {
                self.faults = self.faults.saturating_add(1);
                Err(Failed)
            }
        }
    }
}

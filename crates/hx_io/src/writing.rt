ghost use Rattle.std.specs.Prelude.{OnOk, OnErr};
ghost use Rattle.std.specs.Io.KnownBytes.{Appends};
ghost use Rattle.hx_io.specs.Causes.{HasCause};
ghost use Rattle.hx_io.specs.Pieces.{AppendsPrefix};

use crate::ends::Sink;
use crate::errors::WriteFault;

/// Appends all the bytes to a sink, in as many writes as it needs. It takes no memory.
///
/// # Errors
///
/// `WriteFault` only where the sink's count of faults rose in this call. A prefix of the bytes
/// has been appended then.
pub fn write_all<K: Sink>(sink: &mut K, bytes: &[u8]) -> Result<(), WriteFault>
    ensures all { OnOk result (Appends (K.held sink.old) (K.held sink.new) bytes.now) }
    ensures prefix { OnErr result (AppendsPrefix (K.held sink.old) (K.held sink.new) bytes.now) }
    ensures cause { HasCause (K.faults sink.old) (K.faults sink.new) result }
{
    let mut written = 0;
    while written < bytes.len() {
        match sink.write(&bytes[written..]) {
            Ok(count) => written += count,
            Err(_) => return Err(WriteFault),
        }
    }
    Ok(())
}

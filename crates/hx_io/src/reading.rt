ghost use Rattle.std.specs.Prelude.{◌≡◌, ◌≤◌, ◌+◌, length, IfOk, IfSome, OnOk, OnErr, IsErrOf};
ghost use Rattle.std.specs.Io.KnownBytes.{Consumes, IsAtEnd};
ghost use Rattle.hx_io.specs.Causes.{HasCause, Rose};
ghost use Rattle.hx_io.specs.Pieces.{ConsumesUpTo, ConsumesExactly, ReadsUpTo, RefusesLarger};

use crate::ends::Source;
use crate::errors::{Failed, ReadError};
use std::alloc::Global;

/// How many bytes `read_all` asks for at a time.
const PIECE: usize = 8192;

/// Reads a source to its end, and gives its bytes: all that was left, at most `limit` of them.
///
/// It takes at most one byte past the limit.
///
/// # Errors
///
/// After each error some prefix of what was left has been taken, at most `limit + 1` bytes.
///
/// - `Memory`: memory for the bytes was wanting.
/// - `ReadFault`: the source failed; it comes only where its count of faults rose in this call.
/// - `TooLarge`: the source gave more than `limit` bytes, and `limit + 1` of them were taken.
///   With memory and without a fault it comes exactly where more bytes than `limit` were left.
pub fn read_all<S: Source>(
    alloc: Global,
    source: &mut S,
    limit: usize,
) -> Result<Vec<u8>, ReadError>
    // All that was left, and no more than the limit.
    ensures all { IfOk result (λ bytes. IfSome (S.left source.old) (λ left. bytes.items ≡ left)) }
    ensures bytes { IfOk result
        (λ bytes. Consumes (S.left source.old) (S.left source.new) bytes.items) }
    ensures end { OnOk result (IsAtEnd (S.left source.new)) }
    ensures small { IfOk result (λ bytes. length bytes.items ≤ limit) }

    // When each error comes, and what was taken then.
    ensures exactly { RefusesLarger (S.left source.old) limit result }
    ensures large { IsErrOf result ReadError.TooLarge →
        ConsumesExactly (S.left source.old) (S.left source.new) (limit + 1) }
    ensures fault { IsErrOf result ReadError.ReadFault →
        Rose (S.faults source.old) (S.faults source.new) }
    ensures prefix { OnErr result
        (ConsumesUpTo (S.left source.old) (S.left source.new) (limit + 1)) }

    // The count of faults never falls.
    ensures later { S.faults source.old ≤ S.faults source.new }
{
    let mut bytes = Vec::new(alloc);
    let mut buf = [0u8; PIECE];
    loop {
        let room = limit - bytes.len();
        let most = room.saturating_add(1).min(PIECE);
        let Ok(count) = read_up_to(source, &mut buf, most) else {
            return Err(ReadError::ReadFault);
        };
        if count == 0 {
            return Ok(bytes);
        }
        if count > room {
            return Err(ReadError::TooLarge);
        }
        bytes.extend_from_slice(&buf[..count])?;
    }
}

/// Reads at most so many bytes into the front of the buffer.
fn read_up_to<S: Source>(source: &mut S, buf: &mut [u8], most: usize) -> Result<usize, Failed>
    requires { most ≤ length buf.old }
    ensures bound { IfOk result (λ n. n ≤ most) }
    ensures bytes { ReadsUpTo (S.left source.old) (S.left source.new) result buf.new most }
    ensures cause { HasCause (S.faults source.old) (S.faults source.new) result }
{
    source.read(&mut buf[..most])
}

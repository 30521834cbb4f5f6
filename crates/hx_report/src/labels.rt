//! Numbers behind words.

ghost use Rattle.std.specs.Prelude.{◌≡◌, ◌++◌, OnOk};
ghost use Rattle.std.specs.Fmt.{decimal};

use hx_print::{put_bytes, put_number};
use hx_types::Memory;

/// Appends a label and a number behind it. It fails for want of memory alone.
#[inline]
pub fn put_labeled(out: &mut Vec<u8>, label: &[u8], number: u64) -> Result<(), Memory>
    ensures { OnOk result (out.new.items ≡ out.old.items ++ label.now ++ decimal number) }
{
    put_bytes(out, label)?;
    put_number(out, number)
}

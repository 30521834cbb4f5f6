//! Objects.

ghost use Rattle.std.specs.Prelude.{◌≡◌, ◌++◌, OnErr, OnOk};
ghost use Rattle.hx_print.specs.Prefixes.{IsPrefix};
ghost use Rattle.hx_report.specs.Reporting.{object_text};

use hx_print::put_named;
use hx_types::{Attributes, Memory, Object};

/// Appends each value of an object after the name of its attribute. It fails for want of memory
/// alone, and then what was there stays in front.
#[tactic(auto, unfolding(crate::specs::Reporting::object_text), using(hx_print::proofs::Prefixes::begun, hx_print::proofs::Prefixes::longer, hx_print::proofs::Prefixes::longer_by))]
pub fn put_object(out: &mut Vec<u8>, attributes: &Attributes, object: &Object) -> Result<(), Memory>
    ensures appends { OnOk result (out.new.items ≡ out.old.items ++ object_text attributes.now object.now) }
    ensures prefix { OnErr result (IsPrefix out.old.items out.new.items) }
{
    let mut declared = attributes.as_slice();
    let mut values = object.as_slice();
    'values: while let Some((attribute, more)) = declared.split_first() {
        let Some((value, rest)) = values.split_first() else {
            return Ok(());
        };
        put_named(out, attribute.name.as_bytes(), value)?;
        declared = more;
        values = rest;
    }
    Ok(())
}

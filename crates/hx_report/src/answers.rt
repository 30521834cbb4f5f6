//! What calls were answered.

ghost use Rattle.std.specs.Prelude.{◌≡◌, ◌++◌, codes, length, OnOk};
ghost use Rattle.std.specs.Fmt.{decimal};
ghost use Rattle.std.specs.List.{flat_map};
ghost use Rattle.hx_report.specs.Reporting.{answer_lines, found_line, in_epoch_line, maybe_answer_lines, region_line, row_line, rows_lines, version_line, version_text};

use crate::labels::put_labeled;
use crate::objects::put_object;
use hx_print::{put_bytes, put_text};
use hx_types::{Answer, Epoch, Memory, Object, RegionId, Row, Rows, Shared, Space, Version};

#[inline]
#[tactic(auto, unfolding(crate::specs::Reporting::version_text))]
fn put_version(out: &mut Vec<u8>, word: &[u8], version: Version) -> Result<(), Memory>
    ensures { OnOk result (out.new.items ≡ out.old.items ++ version_text word.now version) }
{
    put_bytes(out, word)?;
    put_labeled(out, b" version ", version.0)
}

#[tactic(auto, unfolding(crate::specs::Reporting::version_line))]
fn put_version_line(out: &mut Vec<u8>, word: &[u8], version: Version) -> Result<(), Memory>
    ensures { OnOk result (out.new.items ≡ out.old.items ++ version_line word.now version) }
{
    put_version(out, word, version)?;
    put_bytes(out, b"\n")
}

#[tactic(auto, unfolding(crate::specs::Reporting::found_line))]
fn put_found(
    out: &mut Vec<u8>,
    space: &Space,
    version: Version,
    object: &Object,
) -> Result<(), Memory>
    ensures { OnOk result
        (out.new.items ≡ out.old.items ++ found_line space.now version object.now) }
{
    put_version(out, b"found", version)?;
    put_object(out, &space.attributes, object)?;
    put_bytes(out, b"\n")
}

/// Appends the line of a row. It fails for want of memory alone.
#[tactic(auto, unfolding(crate::specs::Reporting::row_line, crate::specs::Reporting::version_text))]
pub fn put_row(out: &mut Vec<u8>, space: &Space, row: &Row) -> Result<(), Memory>
    ensures { OnOk result (out.new.items ≡ out.old.items ++ row_line space.now row.now) }
{
    put_bytes(out, b"row ")?;
    put_text(out, &row.key)?;
    put_labeled(out, b" version ", row.version.0)?;
    put_object(out, &space.attributes, &row.object)?;
    put_bytes(out, b"\n")
}

/// Appends how many rows there are.
pub fn put_rows_head(out: &mut Vec<u8>, rows: &Rows) -> Result<(), Memory>
    ensures { OnOk result (out.new.items ≡ out.old.items ++ codes "rows " ++ decimal (length rows.now) ++ codes "\n") }
{
    put_labeled(out, b"rows ", rows.len() as u64)?;
    put_bytes(out, b"\n")
}

#[tactic(auto, unfolding(crate::specs::Reporting::rows_lines))]
fn put_rows(out: &mut Vec<u8>, space: &Space, rows: &Rows) -> Result<(), Memory>
    ensures { OnOk result (out.new.items ≡ out.old.items ++ rows_lines space.now rows.now) }
{
    put_rows_head(out, rows)?;
    put_each_row(out, space, rows.as_slice())
}

/// Appends the lines of rows.
pub fn put_each_row(out: &mut Vec<u8>, space: &Space, rows: &[Shared<Row>]) -> Result<(), Memory>
    ensures { OnOk result
        (out.new.items ≡ out.old.items ++ flat_map (row_line space.now) rows.now) }
{
    for row in rows {
        put_row(out, space, row.get())?;
    }
    Ok(())
}

#[tactic(auto, unfolding(crate::specs::Reporting::region_line))]
fn put_region_line(
    out: &mut Vec<u8>,
    word: &[u8],
    region: RegionId,
    epoch: Epoch,
) -> Result<(), Memory>
    ensures { OnOk result (out.new.items ≡ out.old.items ++ region_line word.now region epoch) }
{
    put_bytes(out, word)?;
    put_labeled(out, b" region ", u64::from(region.0))?;
    put_labeled(out, b" epoch ", epoch.0)?;
    put_bytes(out, b"\n")
}

#[tactic(auto, unfolding(crate::specs::Reporting::in_epoch_line))]
fn put_in_epoch(out: &mut Vec<u8>, word: &[u8], epoch: Epoch) -> Result<(), Memory>
    ensures { OnOk result (out.new.items ≡ out.old.items ++ in_epoch_line word.now epoch) }
{
    put_bytes(out, word)?;
    put_labeled(out, b" epoch ", epoch.0)?;
    put_bytes(out, b"\n")
}

/// Appends what a call was answered, with the version that its end names.
#[tactic(auto, unfolding(crate::specs::Reporting::answer_lines))]
fn put_answer(
    out: &mut Vec<u8>,
    space: &Space,
    version: Version,
    answer: &Answer,
) -> Result<(), Memory>
    ensures { OnOk result
        (out.new.items ≡ out.old.items ++ answer_lines space.now version answer.now) }
{
    match answer {
        Answer::Done => put_version_line(out, b"done", version),
        Answer::NotFound => put_version_line(out, b"notfound", version),
        Answer::CmpFail => put_version_line(out, b"cmpfail", version),
        Answer::Overflow => put_version_line(out, b"overflow", version),
        Answer::TooLong => put_version_line(out, b"toolong", version),
        Answer::Found(object) => put_found(out, space, version, object),
        Answer::Rows(rows) => put_rows(out, space, rows),
        Answer::Refused { region, epoch } => { put_region_line(out, b"refused", *region, *epoch) }
        Answer::Doubt { region, epoch } => put_region_line(out, b"doubt", *region, *epoch),
        Answer::Issued { epoch } => put_in_epoch(out, b"issued", *epoch),
        Answer::Stopped { epoch } => put_in_epoch(out, b"stopped", *epoch),
        Answer::Member { epoch } => put_in_epoch(out, b"member", *epoch),
        Answer::Joining { epoch } => put_in_epoch(out, b"joining", *epoch),
        Answer::Lost { epoch } => put_in_epoch(out, b"lost", *epoch),
    }
}

/// Appends what a call was answered, if anything, with the version that its end names. It fails for
/// want of memory alone.
#[tactic(auto, unfolding(crate::specs::Reporting::maybe_answer_lines))]
pub fn put_maybe_answer(
    out: &mut Vec<u8>,
    space: &Space,
    version: Version,
    answer: &Option<Answer>,
) -> Result<(), Memory>
    ensures { OnOk result
        (out.new.items ≡ out.old.items ++ maybe_answer_lines space.now version answer.now) }
{
    match answer {
        Some(answer) => put_answer(out, space, version, answer),
        None => put_bytes(out, b"open\n"),
    }
}

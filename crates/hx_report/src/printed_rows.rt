//! The lines of rows that were printed before.

ghost use Rattle.std.specs.Prelude.{◌≡◌, ◌++◌, ◌<◌, ℕ, List, length, IfOk, IsTrue, OnOk};
ghost use Rattle.std.specs.List.{All, flat_map};
ghost use Rattle.hx_model.specs.Types.{Space};
ghost use Rattle.hx_report.specs.declared.printed_rows.PrintedRow.{PrintedRow};
ghost use Rattle.hx_report.specs.PrintedRows.{IsLine, IsPrinted};
ghost use Rattle.hx_report.specs.Reporting.{row_line, rows_lines};

use crate::answers::{put_each_row, put_row, put_rows_head};
use hx_print::put_bytes;
use hx_types::{Memory, Row, Rows, Same, Shared, Space, Text, prefix_of};
use std::alloc::Global;
use std::cmp::Ordering;
use std::mem;

/// A row that was printed, the prefix of its key, and where its line lies in the text of lines.
#[derive(Clone, Copy)]
pub struct PrintedRow<'a> {
    pub row: &'a Row,
    pub prefix: u64,
    pub start: usize,
    pub end: usize,
}

/// The rows that were printed, of each key the last one, in byte order of keys: a search mostly
/// finds what another one found, and a line is copied faster than made.
#[derive(Drop)]
pub struct PrintedRows<'a> {
    pub rows: Vec<PrintedRow<'a>>,
    /// Those of the answer that is being printed whose keys aren't among them yet.
    pub made: Vec<PrintedRow<'a>>,
    /// Room for both, in which nothing is kept from one answer to the next.
    pub both: Vec<PrintedRow<'a>>,
    /// Each line once.
    pub lines: Vec<u8>,
}

/// No row was printed.
pub fn no_printed_rows<'a>(alloc: Global) -> PrintedRows<'a>
    ensures { (space : Space) → IsPrinted space result }
{
    PrintedRows {
        rows: Vec::new(alloc),
        made: Vec::new(alloc),
        both: Vec::new(alloc),
        lines: Vec::new(alloc),
    }
}

/// Whether two rows are equal.
fn is_same(row: &Row, other: &Row) -> bool
    ensures { IsTrue result → row.now ≡ other.now }
{
    row.version == other.version && row.key.same(&other.key) && row.object.same(&other.object)
}

/// Makes the line of a row behind the other lines.
#[tactic(auto, using(crate::proofs::Ranges::line_behind, crate::proofs::Ranges::line_stays))]
fn make_line<'a>(lines: &mut Vec<u8>, space: &Space, row: &'a Row) -> Result<PrintedRow<'a>, Memory>
    ensures line { IfOk result (λ made. IsLine space.now lines.new.items made) }
    ensures row { IfOk result (λ made. made.row.now ≡ row.now) }
    ensures kept { OnOk result ((p : PrintedRow) → IsLine space.now lines.old.items p → IsLine space.now lines.new.items p) }
{
    let prefix = prefix_of(row.key.as_str());
    let start = lines.len();
    put_row(lines, space, row)?;
    let end = lines.len();
    Ok(PrintedRow {
        row,
        prefix,
        start,
        end,
    })
}

/// Makes the line of a row behind the other lines, and appends it.
fn put_made<'a>(
    out: &mut Vec<u8>,
    space: &Space,
    row: &'a Row,
    lines: &mut Vec<u8>,
) -> Result<PrintedRow<'a>, Memory>
    ensures text { OnOk result (out.new.items ≡ out.old.items ++ row_line space.now row.now) }
    ensures line { IfOk result (λ made. IsLine space.now lines.new.items made) }
    ensures kept { OnOk result ((p : PrintedRow) → IsLine space.now lines.old.items p → IsLine space.now lines.new.items p) }
{
    let made = make_line(lines, space, row)?;
    put_bytes(out, &lines[made.start..made.end])?;
    Ok(made)
}

/// Appends the line of a row whose key isn't among those of the printed rows. It has a function of
/// its own, so that a row whose line is copied pays nothing for one that is made.
#[inline(never)]
fn add_row<'a>(
    out: &mut Vec<u8>,
    space: &Space,
    row: &'a Row,
    printed: &mut PrintedRows<'a>,
) -> Result<(), Memory>
    requires { IsPrinted space.now printed.old }
    ensures text { OnOk result (out.new.items ≡ out.old.items ++ row_line space.now row.now) }
    ensures printed { OnOk result (IsPrinted space.now printed.new) }
{
    let made = put_made(out, space, row, &mut printed.lines)?;
    printed.made.push(made)?;
    Ok(())
}

/// Appends the line of a row, which stands in place of the printed row of its key. As [`add_row`],
/// it has a function of its own.
#[inline(never)]
fn replace_row<'a>(
    out: &mut Vec<u8>,
    space: &Space,
    row: &'a Row,
    printed: &mut PrintedRows<'a>,
    place: usize,
) -> Result<(), Memory>
    requires printed { IsPrinted space.now printed.old }
    requires place { place < length printed.old.rows.items }
    ensures text { OnOk result (out.new.items ≡ out.old.items ++ row_line space.now row.now) }
    ensures printed { OnOk result (IsPrinted space.now printed.new) }
{
    printed.rows[place] = put_made(out, space, row, &mut printed.lines)?;
    Ok(())
}

/// Appends the line of a row, copied where it was printed. Looks for it among the printed rows from
/// a place on, and returns the place behind those of lower keys and its own.
fn put_next_row<'a>(
    out: &mut Vec<u8>,
    space: &Space,
    row: &'a Row,
    printed: &mut PrintedRows<'a>,
    from: usize,
) -> Result<usize, Memory>
    requires { IsPrinted space.now printed.old }
    ensures text { OnOk result (out.new.items ≡ out.old.items ++ row_line space.now row.now) }
    ensures printed { OnOk result (IsPrinted space.now printed.new) }
{
    let prefix = prefix_of(row.key.as_str());
    let mut place = from;
    'others: while let Some(other) = printed.rows.get(place) {
        let other = *other;
        if prefix <= other.prefix {
            if is_same(other.row, row) {
                put_bytes(out, &printed.lines[other.start..other.end])?;
                return Ok(place + 1);
            }
            match other.row.key.cmp(&row.key) {
                Ordering::Less => {}
                Ordering::Equal => {
                    replace_row(out, space, row, printed, place)?;
                    return Ok(place + 1);
                }
                Ordering::Greater => break,
            }
        }
        place += 1;
    }
    add_row(out, space, row, printed)?;
    Ok(place)
}

/// Takes over the rows from a place on, up to a key if there is one. Returns the place behind them.
fn take_lower<'a>(
    both: &mut Vec<PrintedRow<'a>>,
    rows: &[PrintedRow<'a>],
    key: Option<&Text>,
    from: usize,
) -> Result<usize, Memory>
    ensures { OnOk result ((space : Space) (lines : List ℕ) → All (IsLine space lines) rows.now
        → All (IsLine space lines) both.old.items → All (IsLine space lines) both.new.items) }
{
    let mut place = from;
    'lower: while let Some(other) = rows.get(place) {
        if let Some(key) = key
            && other.row.key.cmp(key) != Ordering::Less
        {
            break;
        }
        both.push(*other)?;
        place += 1;
    }
    Ok(place)
}

/// Puts the rows of an answer among those that were printed before.
fn keep_made(printed: &mut PrintedRows<'_>) -> Result<(), Memory>
    ensures { OnOk result ((space : Space) → IsPrinted space printed.old → IsPrinted space printed.new) }
{
    if printed.made.is_empty() {
        return Ok(());
    }
    printed.both.clear();
    let mut place = 0;
    let mut next = 0;
    'made: while let Some(made) = printed.made.get(next) {
        let made = *made;
        place = take_lower(&mut printed.both, &printed.rows, Some(&made.row.key), place)?;
        printed.both.push(made)?;
        next += 1;
    }
    take_lower(&mut printed.both, &printed.rows, None, place)?;
    mem::swap(&mut printed.rows, &mut printed.both);
    printed.made.clear();
    Ok(())
}

/// Appends the lines of an answer's rows, beside those printed before.
#[inline(never)]
fn put_beside<'a>(
    out: &mut Vec<u8>,
    space: &Space,
    rows: &'a [Shared<Row>],
    printed: &mut PrintedRows<'a>,
) -> Result<(), Memory>
    requires { IsPrinted space.now printed.old }
    ensures lines { OnOk result (out.new.items ≡ out.old.items ++ flat_map (row_line space.now) rows.now) }
    ensures printed { OnOk result (IsPrinted space.now printed.new) }
{
    let mut place = 0;
    for row in rows {
        place = put_next_row(out, space, row.get(), printed, place)?;
    }
    keep_made(printed)
}

/// Appends how many rows there are, and their lines. A row that was printed before has its line
/// copied where the answer isn't much shorter than what was printed.
#[tactic(auto, unfolding(crate::specs::Reporting::rows_lines))]
pub fn put_rows_again<'a>(
    out: &mut Vec<u8>,
    space: &Space,
    rows: &'a Rows,
    printed: &mut PrintedRows<'a>,
) -> Result<(), Memory>
    requires { IsPrinted space.now printed.old }
    ensures lines { OnOk result (out.new.items ≡ out.old.items ++ rows_lines space.now rows.now) }
    ensures printed { OnOk result (IsPrinted space.now printed.new) }
{
    put_rows_head(out, rows)?;
    if rows.len() < printed.rows.len() / 8 {
        put_each_row(out, space, rows.as_slice())
    } else {
        put_beside(out, space, rows.as_slice(), printed)
    }
}

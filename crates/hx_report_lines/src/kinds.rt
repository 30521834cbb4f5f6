//! Which line a line of a block is, by its first word.

ghost use Rattle.std.specs.Prelude.{◌≡◌};
ghost use Rattle.hx_report_lines.specs.Drafts.{kind_of};

/// The kinds of lines that may stand after those of the space.
#[derive(Clone, Copy)]
pub enum Kind {
    Call,
    Row,
    History,
    Item,
    Epoch,
    /// A line of the trace.
    Raw,
    Driver,
    /// The first line of another space.
    Space,
    End,
}

/// The kind of a line.
pub(crate) fn kind_of(line: &[u8]) -> Option<Kind>
    ensures { result ≡ kind_of line.now }
{
    if line.starts_with(b"call ") {
        Some(Kind::Call)
    } else if line.starts_with(b"row ") {
        Some(Kind::Row)
    } else if line.starts_with(b"history ") {
        Some(Kind::History)
    } else if line.starts_with(b"item ") {
        Some(Kind::Item)
    } else if line.starts_with(b"epoch ") {
        Some(Kind::Epoch)
    } else if line.starts_with(b"entry ") || line.starts_with(b"post ") {
        Some(Kind::Raw)
    } else if line.starts_with(b"driver ") {
        Some(Kind::Driver)
    } else if line.starts_with(b"space ") {
        Some(Kind::Space)
    } else if line.starts_with(b"end") {
        Some(Kind::End)
    } else {
        None
    }
}

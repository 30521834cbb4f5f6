ghost use Rattle.std.specs.Prelude.{◌≡◌, ◌+◌, ◌++◌, ◌≤◌, ◌<◌, length, vec_capacity};
ghost use Rattle.hx_service.specs.Booking.{booked_among, booked_by};
ghost use Rattle.hx_service.specs.Progress.{after_note, after_notes};

use crate::progress::Progress;
use crate::receipts::Booked;
use hx_types::{Caller, Note, SessionId};

/// Books what a note of the session in this entry says. There is room for it.
fn book_note(
    progress: &mut Progress,
    booked: &mut Vec<Booked>,
    session: SessionId,
    entry: u64,
    note: &Note,
)
    requires { length booked.old.items < vec_capacity booked.old }
    ensures progress { progress.new ≡ after_note entry note.now progress.old }
    ensures booked { booked.new.items ≡ booked.old.items ++ booked_by session entry note.now progress.old }
    ensures capacity { vec_capacity booked.new ≡ vec_capacity booked.old }
    ensures one { length booked.new.items ≤ length booked.old.items + 1 }
{
    match note {
        Note::Began { number } => {
            *progress = Progress {
                begun: *number,
                under_way: Some(entry),
            };
        }
        Note::Ended { number, .. } => {
            let caller = Caller {
                session,
                number: *number,
            };
            booked.push_reserved(Booked {
                caller,
                begin: progress.under_way.unwrap_or(0),
                end: entry,
            });
            progress.under_way = None;
        }
        Note::Assigned { .. } | Note::Issued { .. } => {}
    }
}

/// Books what the session's notes in this entry say. There is room for a receipt of each.
pub fn book_notes(
    progress: &mut Progress,
    booked: &mut Vec<Booked>,
    session: SessionId,
    entry: u64,
    notes: &[Note],
)
    requires { length booked.old.items + length notes.now ≤ vec_capacity booked.old }
    ensures progress { progress.new ≡ after_notes entry notes.now progress.old }
    ensures booked { booked.new.items ≡ booked.old.items ++ booked_among session entry notes.now progress.old }
{
    let mut rest = notes;
    'notes: while let Some((note, after)) = rest.split_first() {
        book_note(progress, booked, session, entry, note);
        rest = after;
    }
}

ghost use Rattle.std.specs.Prelude.{◌≡◌, ◌∷◌, ◌++◌, [], map, take, IfOk, OnErr, OnOk, Some, unwrap_or};
ghost use Rattle.hx_types.specs.declared.ids.Actor.TheVariants as an_actor;
ghost use Rattle.hx_types.specs.declared.messages.Message.TheVariants as a_message;
ghost use Rattle.hx_types.specs.declared.traces.Note.TheVariants as a_note;
ghost use Rattle.hx_types.specs.Words.{post, provided};
ghost use Rattle.hx_session.specs.Changes.{adopting_as, afresh, ended_as, kept_as, part_seen, parts_after, unmoved_at};

use crate::parts::{Parts, PartsChange, SearchPart};
use hx_types::{
    Actor, Answer, Config, Entry, Epoch, Memory, Message, Note, Notes, Post, Posts, Sequence,
    SessionId, Shared, Version,
};
use std::alloc::Global;
use std::mem;

/// How far a session is: the number of the last call that began, whether it is under way, and
/// whether it was sent.
#[derive(Clone, Copy)]
pub struct Progress {
    pub begun: u32,
    pub under_way: bool,
    pub sent: bool,
}

/// What a step changes of its session. It was computed in one state of it, and is made in that
/// state by [`Session::make`](crate::Session::make).
pub struct Change {
    /// The configuration that is adopted, if one is.
    pub(crate) config: Option<Shared<Config>>,
    /// How far the session is then.
    pub(crate) progress: Progress,
    pub(crate) parts: PartsChange,
}

impl Drop for Change {
    fn drop(self) {
        let Change {
            config: _,
            progress: _,
            parts: _,
        } = self;
    }
}

impl Change {
    /// The same change where there were no parts before. It takes no memory.
    pub(crate) fn afresh(self, alloc: Global) -> Change
        ensures { result ≡ record { config = self.config; progress = self.progress; parts = afresh self.parts } }
    {
        let Change {
            config,
            progress,
            parts,
        } = self;
        Change {
            config,
            progress,
            parts: parts.afresh(alloc),
        }
    }

    /// The same change, by which a configuration is adopted, too. It takes no memory.
    pub(crate) fn adopting(self, adopted: Shared<Config>) -> Change
        ensures { result ≡ adopting_as adopted self }
    {
        let Change {
            config: _,
            progress,
            parts,
        } = self;
        Change {
            config: Some(adopted),
            progress,
            parts,
        }
    }

    /// Makes the change of a session's configuration and parts. It takes no memory.
    pub(crate) fn apply(self, config: &mut Shared<Config>, parts: &mut Parts)
        ensures config { config.new ≡ unwrap_or self.config config.old }
        ensures parts { map part_seen parts.new ≡ parts_after (map part_seen parts.old) self.parts }
    {
        let Change {
            config: adopted,
            progress: _,
            parts: change,
        } = self;
        adopt(config, adopted);
        change.apply(parts);
    }
}

/// A step that is ready to be made: its entry, and what it changes.
#[derive(Drop)]
pub struct Plan {
    pub entry: Entry,
    pub(crate) change: Change,
}

impl Plan {
    /// The entry of the step.
    pub fn entry(&self) -> &Entry
        ensures { result.now ≡ self.now.entry }
    {
        &self.entry
    }
}

/// Nothing is changed.
pub fn change_nothing(progress: Progress) -> Change
    ensures { result ≡ unmoved_at progress }
{
    Change {
        config: None,
        progress,
        parts: PartsChange::Stay,
    }
}

/// The call under way ends, and the parts are forgotten.
pub fn end_call(
    alloc: Global,
    progress: Progress,
    version: Version,
    answer: Answer,
    notes: &mut Notes,
) -> Result<Change, Memory>
    ensures change { IfOk result (λ change. change ≡ ended_as progress) }
    ensures notes { OnOk result (notes.new ≡ notes.old ++ a_note.Ended progress.begun version answer ∷ []) }
    ensures notes_stay { OnErr result (notes.new ≡ notes.old) }
{
    notes.push(Note::Ended {
        number: progress.begun,
        version,
        answer,
    })?;
    Ok(Change {
        config: None,
        progress: Progress {
            begun: progress.begun,
            under_way: false,
            sent: progress.sent,
        },
        parts: PartsChange::Replace(Parts::new(alloc)),
    })
}

/// Where the call is still under way, the coordinator is asked for its newest configuration.
pub fn poll(id: SessionId, epoch: Epoch, under_way: bool, posts: &mut Posts) -> Result<(), Memory>
    ensures posts { OnOk result (posts.new ≡ posts.old ++ provided under_way (post (an_actor.Session id) an_actor.Coordinator (a_message.Poll epoch) ∷ [])) }
    ensures posts_stay { OnErr result (posts.new ≡ posts.old) }
{
    if under_way {
        posts.push(Post {
            from: Actor::Session(id),
            to: Actor::Coordinator,
            message: Message::Poll { epoch },
        })?;
    }
    Ok(())
}

/// A configuration takes the place of another, where there is one. It takes no memory.
fn adopt(config: &mut Shared<Config>, adopted: Option<Shared<Config>>)
    ensures { config.new ≡ unwrap_or adopted config.old }
{
    if let Some(adopted) = adopted {
        *config = adopted;
    }
}

/// A part takes the place of another.
pub fn change_part(progress: Progress, place: usize, part: SearchPart) -> Change
    ensures { result ≡ kept_as progress place part }
{
    Change {
        config: None,
        progress,
        parts: PartsChange::Put { place, part },
    }
}

/// Cuts a list back to so many items. It takes no memory.
#[cold]
#[inline(never)]
pub fn cut_back<T: Drop>(alloc: Global, list: &mut Sequence<T>, count: usize)
    ensures { list.new ≡ take count list.old }
{
    let mut items = mem::replace(list, Sequence::new(alloc)).into_vec();
    items.truncate(count);
    *list = Sequence::from_vec(items);
}

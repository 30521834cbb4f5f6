use crate::parts::list;
use hx_clock::{Part, Stamped};
use hx_trace::Trace;
use hx_types::{
    Actor, Entry, Epoch, Input, Message, Notes, Post, PostId, Posts, ServerId, SessionId, Stamp,
};
use std::process::Abort;

/// A session's own turn, with a poll of epoch 7.
fn polling<R: Abort + AllocGlobal>(rt: &R) -> Entry {
    let from = Actor::Session(SessionId(1));
    let to = Actor::Server(ServerId(2));
    let message = Message::Poll { epoch: Epoch(7) };
    let outputs: Posts = list(rt, [Post { from, to, message }]);
    Entry {
        actor: from,
        input: Input::Tick,
        outputs,
        notes: Notes::new(rt.alloc()),
    }
}

/// The epoch of the poll that the first entry sent, if it did.
fn polled(trace: &Trace) -> Option<u64> {
    let post = trace.sent(PostId { entry: 1, place: 0 })?;
    match &post.message {
        Message::Poll { epoch } => Some(epoch.0),
        _ => None,
    }
}

/// An entry is kept whole, and its post is found.
#[test]
fn a_trace_keeps_an_entry(rt: HostRuntime) {
    let mut trace = Trace::with_capacity(rt.alloc(), 1).expect(&rt, "memory");
    trace.push(polling(&rt)).expect(&rt, "memory");
    let seen = (trace.len(), polled(&trace));
    drop(trace);
    assert_eq!(&rt; seen, (1, Some(7)));
}

/// An entry is put into a part with its stamp.
#[test]
fn a_part_takes_an_entry(rt: HostRuntime) {
    let mut part = Part::new(rt.alloc());
    let stamp = Stamp(5);
    let entry = polling(&rt);
    part.push(rt.alloc(), Stamped { stamp, entry })
        .expect(&rt, "memory");
    let seen = (part.len(), part.stamp(0).0);
    drop(part);
    assert_eq!(&rt; seen, (1, 5));
}

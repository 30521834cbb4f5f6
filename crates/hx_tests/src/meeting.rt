//! Callers overlap: a gate holds the first calls of two sessions, each until the other is about to
//! be made, which only two callers at once can do.
ghost use Rattle.std.specs.Prelude.{◌≤◌};

use crate::running::{Counts, share_counts};
use hx_driver::Gate;
use hx_types::{Actor, SessionId};
use std::process::Abort;
use std::sync::Wait;
use std::sync::atomic::{AtomicU64, Ordering};
use std::thread;
use std::thread::Threads;

const TWO_SESSIONS: &str =
    "hx 1\nspace g\nkey k 2\nstring v\nservers 2\ntolerate 0\nsession 1\nput \"a\" v=\"x\"\nget \"b\"\nsession 2\nput \"b\" v=\"y\"\nget \"a\"\n";

/// Holds the first call of each of two sessions until that of the other one comes.
#[derive(Drop)]
struct Meeting {
    /// How often a thread looks before it gives up.
    patience: u64,
    first: AtomicU64,
    second: AtomicU64,
    gave_up: AtomicU64,
}

impl Meeting {
    fn new(patience: u64) -> Meeting {
        Meeting {
            patience,
            first: AtomicU64::new(0),
            second: AtomicU64::new(0),
            gave_up: AtomicU64::new(0),
        }
    }

    /// Comes, and at its first coming waits until the other one has come, or notes that it gave up.
    fn meet(&self, own: &AtomicU64, other: &AtomicU64) {
        if own.swap(1, Ordering::SeqCst) == 1 {
            return;
        }
        for _turn in 0..self.patience {
            if other.load(Ordering::SeqCst) == 1 {
                return;
            }
            thread::yield_now();
        }
        self.gave_up.fetch_add(1, Ordering::SeqCst);
    }
}

impl Gate for Meeting {
    fn before(&self, actor: Actor) {
        match actor {
            Actor::Session(SessionId(1)) => self.meet(&self.first, &self.second),
            Actor::Session(SessionId(2)) => self.meet(&self.second, &self.first),
            _ => {}
        }
    }
}

/// So many callers, which are held: what the script counts, and how often a thread gave up.
fn held<R: Abort + AllocGlobal + Threads + Wait + Sync>(
    rt: &R,
    workers: u32,
    patience: u64,
) -> (Option<Counts>, u64)
    requires { (1 ≤ workers) × (workers ≤ 2) }
{
    let meeting = Meeting::new(patience);
    let counts = share_counts(rt, TWO_SESSIONS, workers, &meeting);
    (counts, meeting.gave_up.load(Ordering::SeqCst))
}

#[test]
fn two_callers_meet(rt: HostRuntime) {
    let (counts, gave_up) = held(&rt, 2, 200_000_000);
    assert_eq!(&rt; counts, Some((12, 4)));
    assert_eq!(&rt; gave_up, 0);
}

#[test]
fn one_caller_waits_in_vain(rt: HostRuntime) {
    let (counts, gave_up) = held(&rt, 1, 1_000_000);
    assert_eq!(&rt; counts, Some((12, 4)));
    assert_eq!(&rt; gave_up, 1);
}

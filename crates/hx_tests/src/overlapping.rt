//! Drivers overlap: a gate holds two servers, each until the other's thread has come so far, which
//! only two threads at once can do.
ghost use Rattle.std.specs.Prelude.{◌≤◌};

use crate::running::{Counts, run_counts};
use hx_driver::Gate;
use hx_types::{Actor, ServerId, SessionId};
use std::process::Abort;
use std::sync::Wait;
use std::sync::atomic::{AtomicU64, Ordering};
use std::thread;
use std::thread::Threads;

/// Two servers, of which each leads the key that one session calls.
const APART: &str =
    "hx 1\nspace g\nkey k 2\nstring v\nservers 2\ntolerate 0\nsession 1\nput \"a\" v=\"x\"\nsession 2\nget \"b\"\nget \"b\"\n";

/// Holds each server's first entry until the other thread has come so far.
#[derive(Drop)]
struct Hold {
    /// How often a thread looks before it gives up.
    patience: u64,
    first_reached: AtomicU64,
    second_went: AtomicU64,
    seen: AtomicU64,
    gave_up: AtomicU64,
}

impl Hold {
    fn new(patience: u64) -> Hold {
        Hold {
            patience,
            first_reached: AtomicU64::new(0),
            second_went: AtomicU64::new(0),
            seen: AtomicU64::new(0),
            gave_up: AtomicU64::new(0),
        }
    }

    /// Waits until the word has at least this value, or notes that it gave up.
    fn until(&self, word: &AtomicU64, value: u64) {
        for _turn in 0..self.patience {
            if word.load(Ordering::SeqCst) >= value {
                return;
            }
            thread::yield_now();
        }
        self.gave_up.fetch_add(1, Ordering::SeqCst);
    }

    /// Server 1 goes on once session 2 was seen twice after server 2 went on: its first call was
    /// answered.
    fn hold_first(&self) {
        if self.first_reached.swap(1, Ordering::SeqCst) == 0 {
            self.until(&self.seen, 2);
        }
    }

    /// Server 2 goes on once server 1 has reached its own first entry.
    fn hold_second(&self) {
        if self.second_went.load(Ordering::SeqCst) == 0 {
            self.until(&self.first_reached, 1);
            self.second_went.store(1, Ordering::SeqCst);
        }
    }

    fn see(&self) {
        if self.second_went.load(Ordering::SeqCst) == 1 {
            self.seen.fetch_add(1, Ordering::SeqCst);
        }
    }
}

impl Gate for Hold {
    fn before(&self, actor: Actor) {
        match actor {
            Actor::Server(ServerId(1)) => self.hold_first(),
            Actor::Server(ServerId(2)) => self.hold_second(),
            Actor::Session(SessionId(2)) => self.see(),
            _ => {}
        }
    }
}

/// Runs the script on so many threads, which are held: what it counts, and how often a thread gave
/// up.
fn held<R: Abort + AllocGlobal + Threads + Wait + Sync>(
    rt: &R,
    workers: u32,
    patience: u64,
) -> (Option<Counts>, u64)
    requires { (1 ≤ workers) × (workers ≤ 2) }
{
    let hold = Hold::new(patience);
    let counts = run_counts(rt, APART, workers, 1024, &hold);
    (counts, hold.gave_up.load(Ordering::SeqCst))
}

#[test]
fn two_threads_overlap(rt: HostRuntime) {
    let (counts, gave_up) = held(&rt, 2, 200_000_000);
    assert_eq!(&rt; counts, Some((9, 3)));
    assert_eq!(&rt; gave_up, 0);
}

#[test]
fn one_thread_waits_in_vain(rt: HostRuntime) {
    let (counts, gave_up) = held(&rt, 1, 1_000_000);
    assert_eq!(&rt; counts, Some((9, 3)));
    assert!(&rt; gave_up > 0);
}

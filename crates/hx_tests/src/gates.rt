//! A gate sees each entry of a run, and each call of a share.
use crate::running::{run_counts, share_counts};
use hx_driver::Gate;
use hx_types::Actor;
use std::sync::atomic::{AtomicU64, Ordering};

/// Three sessions that ask one server, whose box has room for one of their calls.
const GETS: &str =
    "hx 1\nspace one\nkey k 1\nstring v\nservers 1\ntolerate 0\nsession 1\nget \"a\"\nsession 2\nget \"a\"\nsession 3\nget \"a\"\n";

/// Holds nobody, and counts what it lets pass.
#[derive(Drop)]
struct Counter {
    passed: AtomicU64,
}

impl Counter {
    fn new() -> Counter {
        Counter {
            passed: AtomicU64::new(0),
        }
    }

    fn count(&self) -> u64 {
        self.passed.load(Ordering::SeqCst)
    }
}

impl Gate for Counter {
    fn before(&self, _actor: Actor) {
        self.passed.fetch_add(1, Ordering::SeqCst);
    }
}

#[test]
fn boxes_of_one_place_lose_nothing_and_the_gate_sees_each_entry(rt: HostRuntime) {
    let gate = Counter::new();
    assert_eq!(&rt; run_counts(&rt, GETS, 1, 1, &gate), Some((9, 3)));
    assert_eq!(&rt; gate.count(), 9);
}

#[test]
fn the_gate_of_a_share_sees_each_call(rt: HostRuntime) {
    let gate = Counter::new();
    assert_eq!(&rt; share_counts(&rt, GETS, 2, &gate), Some((9, 3)));
    assert_eq!(&rt; gate.count(), 3);
}

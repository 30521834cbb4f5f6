//! How drivers tell one another that they find nothing to do. No contract reads it: it decides only
//! when a slice ends.
use std::sync::atomic::{AtomicUsize, Ordering};
use std::thread;

/// In how many rounds one after another a driver finds nothing before it tells that it isn't at
/// work. So a driver that waits for the answer of another doesn't write what all share at each
/// step. The number is this project's choice.
const ROUNDS_BEFORE_LULL: u32 = 16;

/// In how many rounds one after another no driver is at work before a slice ends. So a driver that
/// has just found something has time to tell that it is at work again; where it hasn't told, the
/// slice only ends early. The number is this project's choice.
const PATIENCE: u32 = 16;

/// In how many rounds one after another a driver finds nothing before its slice ends whatever the
/// others do: one of them may not run at all. The number is this project's choice.
const LONGEST_LULL: u32 = 65_536;

/// How many drivers of a slice are at work, as they tell it themselves.
#[derive(Drop)]
pub struct AtWork {
    drivers: usize,
    working: AtomicUsize,
}

impl AtWork {
    /// So many drivers that are about to begin.
    pub fn new(drivers: usize) -> AtWork {
        AtWork {
            drivers,
            working: AtomicUsize::new(drivers),
        }
    }

    fn alone(&self) -> bool {
        self.drivers <= 1
    }

    fn nobody(&self) -> bool {
        self.working.load(Ordering::SeqCst) == 0
    }

    fn enter(&self) {
        self.working.fetch_add(1, Ordering::SeqCst);
    }

    fn leave(&self) {
        self.working.fetch_sub(1, Ordering::SeqCst);
    }
}

/// In how many rounds one after another a driver found nothing to do by now, and in how many of the
/// last of them no driver was at work.
#[derive(Drop)]
pub struct Lull {
    rounds: u32,
    calm: u32,
}

impl Lull {
    /// Of a driver that is at work.
    pub fn new() -> Lull {
        Lull { rounds: 0, calm: 0 }
    }

    /// Whether the slice ends after a round that did something or found nothing. Where it found
    /// nothing and the slice goes on, the processor was offered to other threads.
    pub fn is_over(&mut self, at_work: &AtWork, worked: bool) -> bool {
        if worked {
            self.end(at_work);
            return false;
        }
        self.lengthen(at_work);
        if at_work.alone() || self.calm >= PATIENCE || self.rounds >= LONGEST_LULL {
            return true;
        }
        thread::yield_now();
        false
    }

    /// The driver is at work again.
    fn end(&mut self, at_work: &AtWork) {
        if self.rounds >= ROUNDS_BEFORE_LULL {
            at_work.enter();
        }
        self.rounds = 0;
        self.calm = 0;
    }

    /// The driver found nothing in one round more.
    fn lengthen(&mut self, at_work: &AtWork) {
        self.rounds = self.rounds.saturating_add(1);
        if self.rounds == ROUNDS_BEFORE_LULL {
            at_work.leave();
        }
        if at_work.nobody() {
            self.calm = self.calm.saturating_add(1);
        } else {
            self.calm = 0;
        }
    }
}

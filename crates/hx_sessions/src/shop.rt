//! What a clerk does with the table of sessions.

use hx_service::{Receipt, Service, TextError};
use hx_types::{Answer, Exact, Rows, SessionId};
use std::alloc::Global;
use std::sync::{Mutex, Wait};

/// A customer's session has a token, tells whose it is and in which minute it was used last. Four
/// clerks are callers.
pub const SPACE: &[u8] =
    b"hx 1\nspace sessions\nkey token 2\nstring user\nint seen 0 999\nsubspace seen 4\nservers 4\ntolerate 1\nsession 1\nsession 2\nsession 3\nsession 4\n";

/// In which minutes customers log in.
const LOGINS: [u32; 3] = [10, 300, 90];

/// One of the threads that use the store, with its number as a caller.
#[derive(Drop)]
pub struct Clerk {
    number: u32,
    pub dropped: u32,
}

impl Clerk {
    pub fn new(number: u32) -> Clerk {
        Clerk { number, dropped: 0 }
    }

    /// Logs three customers in, notes that one was there again, and drops all sessions that nobody
    /// used since minute 100, whoever logged them in.
    pub fn work<R: Wait>(&mut self, rt: &R, alloc: Global, store: &Mutex<Service>) {
        for (customer, minute) in LOGINS.iter().enumerate() {
            self.log_in(rt, alloc, store, customer, *minute);
        }
        self.touch(rt, alloc, store);
        if let Some(stale) = self.find_stale(rt, alloc, store) {
            for row in stale.as_slice() {
                self.drop_session(rt, alloc, store, row.key.as_str());
            }
        }
    }

    fn log_in<R: Wait>(
        &self,
        rt: &R,
        alloc: Global,
        store: &Mutex<Service>,
        customer: usize,
        minute: u32,
    ) {
        if let Ok(line) = format!(in alloc;
            "put \"{}-{customer}\" user=\"customer {customer}\" seen={minute}",
            self.number
        ) {
            let _ = self.ask(rt, alloc, store, line.as_str());
        }
    }

    fn touch<R: Wait>(&self, rt: &R, alloc: Global, store: &Mutex<Service>) {
        if let Ok(line) = format!(in alloc; "atomic \"{}-1\" max seen=500", self.number) {
            let _ = self.ask(rt, alloc, store, line.as_str());
        }
    }

    fn find_stale<R: Wait>(&self, rt: &R, alloc: Global, store: &Mutex<Service>) -> Option<Rows> {
        let receipt = self.ask(rt, alloc, store, "search seen=0..99").ok()?;
        match receipt.answer {
            Answer::Rows(ref rows) => rows.copy(alloc).ok(),
            _ => None,
        }
    }

    /// Drops a session, and counts it where nobody else had dropped it before.
    fn drop_session<R: Wait>(
        &mut self,
        rt: &R,
        alloc: Global,
        store: &Mutex<Service>,
        token: &str,
    ) {
        let Ok(line) = format!(in alloc; "del \"{token}\"") else {
            return;
        };
        if let Ok(receipt) = self.ask(rt, alloc, store, line.as_str()) {
            if let Answer::Done = receipt.answer {
                self.dropped = self.dropped.saturating_add(1);
            }
        }
    }

    /// Makes a call, once the lock is had.
    fn ask<R: Wait>(
        &self,
        rt: &R,
        alloc: Global,
        store: &Mutex<Service>,
        line: &str,
    ) -> Result<Receipt, TextError> {
        let session = SessionId(self.number);
        store.lock(rt).call_text(alloc, session, line.as_bytes())
    }
}

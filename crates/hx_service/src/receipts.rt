ghost use Rattle.std.specs.Prelude.{◌≡◌, ℕ, [], IfOk, length, reverse, slice_get, Some, true};
ghost use Rattle.std.specs.Option.{option_map};
ghost use Rattle.hx_model.specs.Histories.{ends_in, note_of_end};
ghost use Rattle.hx_service.specs.Reading.{IsNoted, end_seen, receipt_seen};

use hx_trace::Trace;
use hx_types::{Answer, Caller, Exact, Memory, Note, Version};
use std::alloc::Global;
use std::marker::Model;

/// That a call has ended: which entry of the trace began it, which one noted its end, and how. The
/// version is that of the update or of the object that the answer tells of, or 0.
#[derive(Clone)]
pub struct Receipt {
    pub caller: Caller,
    pub begin: u64,
    pub end: u64,
    pub version: Version,
    pub answer: Answer,
}

impl Drop for Receipt {
    fn drop(self) {
        let Receipt {
            caller: _,
            begin: _,
            end: _,
            version: _,
            answer: _,
        } = self;
    }
}

/// A receipt whose answer lies in the trace.
#[derive(Clone, Copy)]
pub struct ReceiptRef<'a> {
    pub caller: Caller,
    pub begin: u64,
    pub end: u64,
    pub version: Version,
    pub answer: &'a Answer,
}

impl<'a> ReceiptRef<'a> {
    /// The receipt with an answer of its own.
    ///
    /// # Errors
    ///
    /// [`Memory`] alone.
    pub fn copied(&self, alloc: Global) -> Result<Receipt, Memory>
        ensures { IfOk result (λ receipt. receipt ≡ receipt_seen self.now) }
    {
        Ok(Receipt {
            caller: self.caller,
            begin: self.begin,
            end: self.end,
            version: self.version,
            answer: self.answer.copy(alloc)?,
        })
    }
}

/// A receipt as it is booked: the version and the answer lie in the trace.
#[derive(Clone, Copy)]
pub struct Booked {
    pub caller: Caller,
    pub begin: u64,
    pub end: u64,
}

/// How these notes end the call of this number, if they do.
fn ended_in<'a>(notes: &'a [Note], number: u32) -> Option<(Version, &'a Answer)>
    ensures { (entry : ℕ) → option_map (end_seen entry) result ≡ ends_in entry number notes.now }
{
    let mut rest = notes;
    'notes: while let Some((note, after)) = rest.split_first() {
        if let Note::Ended {
            number: ended,
            version,
            answer,
        } = note
        {
            if *ended == number {
                return Some((*version, answer));
            }
        }
        rest = after;
    }
    None
}

/// The receipt that is booked so; its call has ended.
pub fn receipt_in<'a>(trace: &'a Trace, booked: &Booked) -> ReceiptRef<'a>
    requires { IsNoted (reverse trace.now) booked.now }
    ensures caller { result.caller ≡ booked.now.caller }
    ensures begin { result.begin ≡ booked.now.begin }
    ensures end { note_of_end booked.now.caller (reverse trace.now) ≡ Some (record { entry = booked.now.end; version = result.version; answer = result.answer.now }) }
    ensures entry { result.end ≡ booked.now.end }
{
    let Some(entry) = trace.get(booked.end as usize - 1) else {
        // The call has ended in that entry.
        unreachable!()
    };
    let Some((version, answer)) = ended_in(entry.notes, booked.caller.number) else {
        // The call has ended in that entry.
        unreachable!()
    };
    ReceiptRef {
        caller: booked.caller,
        begin: booked.begin,
        end: booked.end,
        version,
        answer,
    }
}

/// The receipts of a trace, in the order in which the calls ended. Contracts see the list of them.
#[derive(Drop)]
pub struct Receipts<'a> {
    pub(crate) booked: &'a [Booked],
    pub(crate) trace: &'a Trace,
}

impl<'a> Model for Receipts<'a> {
    ghost use Rattle.std.specs.Prelude.{List, reverse};
    ghost use Rattle.hx_service.specs.declared.receipts.Receipt.{Receipt};
    ghost use Rattle.hx_service.specs.Reading.{AreReceipts};
    ghost use Rattle.hx_service.specs.Receipts.{receipts_of};

    ghost Value = { List Receipt };

    ghost view = { λ r. receipts_of (reverse r.trace.now) };

    ghost invariant = { λ r. AreReceipts (reverse r.trace.now) r.booked.now };
}

impl<'a> Receipts<'a> {
    /// How many calls have ended.
    pub fn len(&self) -> usize
        ensures { result ≡ length self.now }
    {
        self.booked.len()
    }

    /// Whether no call has ended.
    pub fn is_empty(&self) -> bool
        ensures { result ≡ true → self.now ≡ [] }
    {
        self.booked.is_empty()
    }

    /// The receipt at a place from 0, or `None` past the end.
    pub fn get(&self, place: usize) -> Option<ReceiptRef<'a>>
        ensures { option_map receipt_seen result ≡ slice_get self.now place }
    {
        let trace = self.trace;
        match self.booked.get(place) {
            Some(booked) => Some(receipt_in(trace, booked)),
            None => None,
        }
    }
}

ghost use Rattle.std.specs.Prelude.{◌≡◌, ◌≤◌, length, map, drop, reverse, true, IfNone, IfSome};
ghost use Rattle.hx_types.specs.declared.ids.Actor.TheVariants as an_actor;
ghost use Rattle.hx_types.specs.Spaces.{Fits};
ghost use Rattle.hx_types.specs.Words.{IsIn};
ghost use Rattle.std.specs.List.{find};
ghost use Rattle.std.specs.Option.{option_copied};
ghost use Rattle.hx_model.specs.Runs.{IsRun, is_actor};
ghost use Rattle.hx_service.specs.Booking.{IsServing, booked_as, is_of};
ghost use Rattle.hx_service.specs.Reading.{receipt_seen};
ghost use Rattle.hx_service.specs.Receipts.{IsFree, receipts_of};
ghost use Rattle.hx_service.specs.Services.{Calls, IsDrained};
ghost use Rattle.hx_service.specs.declared.receipts.Receipt.{Receipt};

use crate::advancing::settle;
use crate::counting::is_full;
use crate::errors::ServiceError;
use crate::progress::Progress;
use crate::receipts::{Booked, Receipt, ReceiptRef, receipt_in};
use hx_types::{Caller, Op, SessionId};
use hx_world::World;
use std::alloc::Global;

/// Whether it is booked for the call.
fn is_of(booked: &Booked, caller: Caller) -> bool
    ensures { result ≡ is_of caller booked.now }
{
    booked.caller.session == caller.session && booked.caller.number == caller.number
}

/// The first of these that is booked for the call.
fn booked_for(booked: &[Booked], caller: Caller) -> Option<&Booked>
    ensures { option_copied result ≡ find (is_of caller) booked.now }
{
    let mut rest = booked;
    'booked: while let Some((first, after)) = rest.split_first() {
        if is_of(first, caller) {
            return Some(first);
        }
        rest = after;
    }
    None
}

/// The receipt of a call, if it has ended since so many receipts were booked.
fn receipt_for<'a>(
    world: &'a World,
    booked: &[Booked],
    before: usize,
    caller: Caller,
) -> Option<ReceiptRef<'a>>
    requires booked { booked.now ≡ map booked_as (receipts_of (reverse world.now.trace)) }
    requires before { before ≤ length booked.now }
    ensures run { IsRun world.now.script (reverse world.now.trace) }
    ensures found { IfSome result (λ r. IsIn (receipt_seen r) (drop before (receipts_of (reverse world.now.trace))) × (r.caller ≡ caller)) }
    ensures none { IfNone result ((r : Receipt) → IsIn r (drop before (receipts_of (reverse world.now.trace))) → r.caller ≡ caller → ⊥) }
{
    let trace = world.trace();
    match booked_for(&booked[before..], caller) {
        Some(found) => Some(receipt_in(trace, found)),
        None => None,
    }
}

/// Submits a call of a session that is free, makes entries until nothing is left to do, and finds
/// the receipt.
pub fn make_call(
    alloc: Global,
    world: &mut World,
    progress: &mut Vec<Progress>,
    booked: &mut Vec<Booked>,
    session: SessionId,
    op: Op,
) -> Result<Receipt, ServiceError>
    requires serving { IsServing world.old.script (reverse world.old.trace) progress.old.items booked.old.items }
    requires session { is_actor world.old.script (an_actor.Session session) ≡ true }
    requires fits { Fits world.old.script.space op }
    requires free { IsFree world.old.script (reverse world.old.trace) session }
    ensures serving { IsServing world.new.script (reverse world.new.trace) progress.new.items booked.new.items }
    ensures calls { Calls world.old session op world.new result }
    ensures drained { IsDrained world.new.script (reverse world.old.trace) (reverse world.new.trace) }
{
    if is_full(world) {
        return Err(ServiceError::Full);
    }
    let before = booked.len();
    let number = match world.submit(alloc, session, op) {
        Ok(number) => number,
        Err(_) => return Err(ServiceError::Memory),
    };
    hx_law_growing::calls_grow();
    if let Err(error) = settle(alloc, world, progress, booked) {
        return Err(error.into());
    }
    let caller = Caller { session, number };
    match receipt_for(world, booked.as_slice(), before, caller) {
        None => Err(ServiceError::Unanswered { number }),
        Some(receipt) => match receipt.copied(alloc) {
            Ok(receipt) => Ok(receipt),
            Err(_) => Err(ServiceError::Memory),
        },
    }
}

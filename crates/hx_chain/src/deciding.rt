ghost use Rattle.std.specs.Prelude.{◌≡◌, ◌<◌, ◌+◌, ◌^◌, IfOk, IsTrue};
ghost use Rattle.hx_chain.specs.Parts.{refused, repeated};
ghost use Rattle.hx_model.specs.Leading.{decide, fresh, granted, with_places};
ghost use Rattle.hx_model.specs.Slots.{latest_of, top_of};

use crate::places;
use crate::stuck_updates::{first_lost, stuck};
use hx_region::RegionMap;
use hx_rules::effect;
use hx_slot::Slot;
use hx_types::{
    Answer, Caller, Config, Decision, Effect, Exact, Memory, Op, Places, RegionId, Shared, Space,
    Update, Version,
};
use std::alloc::Global;

/// What the leader of a key decides on a write: by the first row that holds.
///
/// | decision | exactly where |
/// |---|---|
/// | `Old` | the session's mark at the key has a number above the caller's |
/// | `Again` | the mark has the caller's number and a committed version, which is answered again |
/// | `Wait` | the mark has the caller's number and a version that isn't committed yet |
/// | `Stuck` | a pending update has a place in a lost region: the region that [`stuck`] gives |
/// | `Assign` | in every other case |
///
/// So a call that comes twice is carried out once. The assigned update has the version after the
/// slot's top and is the effect of the operation on the latest object, pending updates included.
/// Where a place's region is lost, it changes nothing instead: it keeps the latest object, goes
/// through the key region alone, and is answered `Refused` with the first lost region in the order
/// of places and the configuration's epoch.
///
/// # Errors
///
/// [`Memory`] alone.
pub fn decide(
    alloc: Global,
    space: &Space,
    map: &RegionMap,
    config: &Config,
    slot: &Slot,
    caller: Caller,
    op: &Op,
) -> Result<Decision, Memory>
    requires map { map.now ≡ space.now }
    requires marks { IsTrue slot.now.state.marks }
    requires room { top_of slot.now.state + 1 < 2 ^ 64 }
    ensures { IfOk result (λ decision. decision ≡ decide space.now config.now slot.now.region slot.now.state caller op.now) }
{
    if let Some((number, version, answer)) = slot.mark(caller.session) {
        if caller.number < number {
            return Ok(Decision::Old);
        }
        if caller.number == number {
            return repeated(alloc, slot, version, answer);
        }
    }
    fresh(alloc, space, map, config, slot, caller, op)
}

/// On a call that the session's mark is of: answered again once its version is committed.
fn repeated(
    alloc: Global,
    slot: &Slot,
    version: Version,
    answer: &Answer,
) -> Result<Decision, Memory>
    ensures { IfOk result (λ decision. decision ≡ repeated slot.now.state version answer.now) }
{
    if version.0 <= slot.floor().0 {
        Ok(Decision::Again(version, answer.copy(alloc)?))
    } else {
        Ok(Decision::Wait(version))
    }
}

/// On a call that is new to the key: stuck behind a lost region, or assigned.
fn fresh(
    alloc: Global,
    space: &Space,
    map: &RegionMap,
    config: &Config,
    slot: &Slot,
    caller: Caller,
    op: &Op,
) -> Result<Decision, Memory>
    requires map { map.now ≡ space.now }
    requires marks { IsTrue slot.now.state.marks }
    requires room { top_of slot.now.state + 1 < 2 ^ 64 }
    ensures { IfOk result (λ decision. decision ≡ fresh space.now config.now slot.now.region slot.now.state caller op.now) }
{
    match stuck(config, slot) {
        Some((_, region)) => Ok(Decision::Stuck(region)),
        None => {
            let effect = effect(alloc, space, slot.latest(), op)?;
            let update = assigned(alloc, map, config, slot, caller, effect)?;
            Ok(Decision::Assign(Shared::new(alloc, update)?))
        }
    }
}

/// The update of an effect on the latest object, refused where a place's region is lost.
fn assigned(
    alloc: Global,
    map: &RegionMap,
    config: &Config,
    slot: &Slot,
    caller: Caller,
    effect: Effect,
) -> Result<Update, Memory>
    requires marks { IsTrue slot.now.state.marks }
    requires room { top_of slot.now.state + 1 < 2 ^ 64 }
    ensures { IfOk result (λ update. update ≡ with_places map.now config.now slot.now.state caller (latest_of slot.now.region slot.now.state) effect) }
{
    let new = effect.object.as_ref();
    let places = places(
        alloc,
        map,
        slot.key(),
        slot.latest(),
        new,
        effect.changes,
        slot,
    )?;
    match first_lost(config, &places) {
        None => granted(alloc, slot, caller, effect, places),
        Some(region) => refused(alloc, map, config, slot, caller, region),
    }
}

/// The update that changes nothing, answered with the lost region.
fn refused(
    alloc: Global,
    map: &RegionMap,
    config: &Config,
    slot: &Slot,
    caller: Caller,
    region: RegionId,
) -> Result<Update, Memory>
    requires marks { IsTrue slot.now.state.marks }
    requires room { top_of slot.now.state + 1 < 2 ^ 64 }
    ensures { IfOk result (λ update. update ≡ refused map.now config.now slot.now.state caller (latest_of slot.now.region slot.now.state) region) }
{
    let latest = slot.latest();
    let places = places(alloc, map, slot.key(), latest, latest, false, slot)?;
    let object = match latest {
        Some(object) => Some(object.copy(alloc)?),
        None => None,
    };
    let effect = Effect {
        object,
        answer: Answer::Refused {
            region,
            epoch: config.epoch,
        },
        changes: false,
    };
    granted(alloc, slot, caller, effect, places)
}

/// The update of this effect through these places, with the version after the top.
fn granted(
    alloc: Global,
    slot: &Slot,
    caller: Caller,
    effect: Effect,
    places: Places,
) -> Result<Update, Memory>
    requires room { top_of slot.now.state + 1 < 2 ^ 64 }
    ensures { IfOk result (λ update. update ≡ granted slot.now.state caller effect places) }
{
    let key = slot.key().copy(alloc)?;
    let version = Version(slot.top().0 + 1);
    let Effect {
        object,
        answer,
        changes,
    } = effect;
    Ok(Update {
        key,
        version,
        caller,
        answer,
        changes,
        object,
        places,
    })
}

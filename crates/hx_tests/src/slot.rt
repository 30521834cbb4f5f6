ghost use Rattle.std.specs.Prelude.{◌≡◌, [], ◌∷◌, ◌<◌, false};
ghost use Rattle.std.specs.List.{All};
ghost use Rattle.hx_model.specs.Neighbours.{place_number};
ghost use Rattle.hx_model.specs.Types.{Place as Placed};
ghost use Rattle.hx_slot.specs.States.{HasFewPlaces, IsPlacedIn};

use hx_slot::Slot;
use hx_types::{Answer, Caller, Place, Places, RegionId, SessionId, Shared, Text, Update, Version};
use std::alloc::Global;
use std::process::Abort;

/// The first update of the key `k`, which goes through region 7 alone and leaves nothing there.
fn first_update(rt: &impl Abort, alloc: Global) -> Update
    ensures version { result.version.0 ≡ 1 }
    ensures places { result.places ≡ record { region = record { 0 = 7 }; after = record { 0 = 0 }; keeps = false } ∷ [] }
{
    let place = Place {
        region: RegionId(7),
        after: Version(0),
        keeps: false,
    };
    let mut places = Places::new(alloc);
    let Ok(()) = places.push(place) else {
        panic!(rt; "no memory");
    };
    Update {
        key: Text::from_str(alloc, "k").expect(rt, "no memory"),
        version: Version(1),
        caller: Caller {
            session: SessionId(2),
            number: 3,
        },
        answer: Answer::Done,
        changes: true,
        object: None,
        places,
    }
}

/// Makes room for an update, and offers it at its first place.
fn give(rt: &impl Abort, alloc: Global, slot: &mut Slot, update: Update)
    requires place { 0 ≡ place_number slot.old.region update.places }
    requires placed { IsPlacedIn slot.old.region update }
    requires after { All (λ (p : Placed). p.after.0 < update.version.0) update.places }
    requires few { HasFewPlaces update }
{
    let Ok(()) = slot.reserve(alloc, 1) else {
        panic!(rt; "no memory");
    };
    let Ok(update) = Shared::new(alloc, update) else {
        panic!(rt; "no memory");
    };
    slot.offer(update, 0);
}

/// Whether the first version, its mark and its place are all that is left of a slot.
fn leaves_the_first(slot: Slot) -> bool {
    match slot.into_kept() {
        Ok(Some(kept)) => {
            kept.floor.0 == 1
                && kept.object.is_none()
                && kept.marks.len() == 1
                && kept.touches.len() == 1
        }
        _ => false,
    }
}

#[test]
fn a_slot_leaves_what_is_committed(rt: HostRuntime) {
    let alloc = rt.alloc();
    let key = Text::from_str(alloc, "k").expect(&rt, "no memory");
    let mut slot = Slot::new(alloc, RegionId(7), key, true);
    give(&rt, alloc, &mut slot, first_update(&rt, alloc));
    slot.ack(Version(1));
    assert!(rt; leaves_the_first(slot));
}

ghost use Rattle.std.specs.Prelude.{◌≡◌, ◌<◌, false, IfOk, IfErr, IfSome, OnErr, is_some, map, length, min};
ghost use Rattle.std.specs.List.{All};
ghost use Rattle.hx_spaces.specs.Courses.{first_delivery_from, newest};
ghost use Rattle.hx_spaces.specs.Draining.{FailsIn};
ghost use Rattle.hx_spaces.specs.Keeping.{IsShort, RestBefore};
ghost use Rattle.hx_spaces.specs.Walks.{DeliversAt, DeliversIn, delivery_at, turn_at};

use hx_world::{DrainError, World};
use std::alloc::Global;

/// Makes the first delivery of the first world that has one, and tells which world that is. None
/// before `first` has one.
#[tactic(auto, using(crate::proofs::Deliveries::walked_on, crate::proofs::Deliveries::walked_all, crate::proofs::Deliveries::delivers_from, crate::proofs::Deliveries::fails_from, crate::proofs::Keeping::short_from, crate::proofs::Keeping::short_same))]
pub fn deliver_first(
    alloc: Global,
    worlds: &mut Vec<World>,
    first: usize,
) -> Result<Option<usize>, DrainError>
    requires { RestBefore first (map newest worlds.old.items) }
    ensures delivers { IfOk result (DeliversIn (map newest worlds.old.items) (map newest worlds.new.items)) }
    ensures within { IfOk result (λ space. IfSome space (λ k. k < length worlds.old.items)) }
    ensures fails { IfErr result (FailsIn (map newest worlds.old.items) (first_delivery_from 0 (map newest worlds.old.items))) }
    ensures same { OnErr result (worlds.new.items ≡ worlds.old.items) }
    ensures short { All IsShort worlds.old.items → All IsShort worlds.new.items }
{
    for place in first..worlds.len() {
        match deliver_at(alloc, worlds, place) {
            Ok(true) => return Ok(Some(place)),
            Ok(false) => {}
            Err(error) => return Err(error),
        }
    }
    Ok(None)
}

/// Makes the first delivery of the world at a place, if there is one.
fn deliver_at(alloc: Global, worlds: &mut Vec<World>, place: usize) -> Result<bool, DrainError>
    requires { place < length worlds.old.items }
    ensures within { place < length worlds.old.items }
    ensures delivers { IfOk result (DeliversAt place (map newest worlds.old.items) (map newest worlds.new.items)) }
    ensures rests { IfOk result (λ made. made ≡ false → worlds.new.items ≡ worlds.old.items) }
    ensures fails { IfErr result (FailsIn (map newest worlds.old.items) (turn_at place (delivery_at (map newest worlds.old.items) place))) }
    ensures same { OnErr result (worlds.new.items ≡ worlds.old.items) }
    ensures short { All IsShort worlds.old.items → All IsShort worlds.new.items }
{
    worlds[place].deliver_next(alloc)
}

/// Whether some world has a delivery to make. None before `first` has one.
#[tactic(auto, using(crate::proofs::Deliveries::none_here, crate::proofs::Deliveries::one_here, crate::proofs::Deliveries::walked_all))]
pub fn has_delivery(worlds: &mut Vec<World>, first: usize) -> bool
    requires { RestBefore first (map newest worlds.old.items) }
    ensures found { result ≡ is_some (first_delivery_from 0 (map newest worlds.old.items)) }
    ensures same { worlds.new.items ≡ worlds.old.items }
{
    for place in first..worlds.len() {
        if has_delivery_at(worlds, place) {
            return true;
        }
    }
    false
}

/// Whether the world at a place has a delivery to make.
fn has_delivery_at(worlds: &mut Vec<World>, place: usize) -> bool
    requires { place < length worlds.old.items }
    ensures within { place < length worlds.old.items }
    ensures found { result ≡ is_some (delivery_at (map newest worlds.old.items) place) }
    ensures same { worlds.new.items ≡ worlds.old.items }
{
    worlds[place].oldest().is_some()
}

/// Where the next delivery is looked for, once a space may have got one.
pub fn look_from(first: &mut usize, space: usize)
    ensures { first.new ≡ min first.old space }
{
    if space < *first {
        *first = space;
    }
}

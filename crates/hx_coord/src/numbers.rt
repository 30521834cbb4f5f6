ghost use Rattle.std.specs.Prelude.{◌≡◌, false, IfNone, IfOk, IfSome, OnOk};
ghost use Rattle.std.specs.List.{list_any};
ghost use Rattle.std.specs.Option.{option_copied};
ghost use Rattle.hx_model.specs.CoordinatorSteps.{is_newest_call, newest_of, with_newest};
ghost use Rattle.hx_coord.specs.Numbers.{IsPlaceOf, is_of_session};

use hx_types::{Answer, Caller, Exact, Memory, Sequence, SessionId};
use std::alloc::AllocError;
use std::marker::Model;

/// The newest number of a session, and what its call was answered, if it was.
pub struct Newest {
    pub session: SessionId,
    pub number: u32,
    pub answer: Option<Answer>,
}

impl Drop for Newest {
    fn drop(self) {
        let Newest {
            session: _,
            number: _,
            answer: _,
        } = self;
    }
}

impl Model for Newest {
    ghost use Rattle.hx_model.specs.CoordinatorSteps.{Newest as NewestValue};

    ghost Value = { NewestValue };

    ghost view = { λ n. record { session = n.session; number = n.number; answer = n.answer } };
}

/// One of each session.
pub type NewestList = Sequence<Newest>;

/// The newest number of a session, if it has called.
#[tactic(auto, using(crate::proofs::Lists::newest_at, crate::proofs::Lists::newest_nowhere))]
pub fn newest_of(newest: &NewestList, session: SessionId) -> Option<&Newest>
    ensures { option_copied result ≡ newest_of session newest.now }
{
    match place_of(newest.as_slice(), session) {
        Some(place) => newest.get(place),
        None => None,
    }
}

/// Whether a call is the newest of its session.
pub fn is_newest_call(newest: &NewestList, caller: Caller) -> bool
    ensures { result ≡ is_newest_call caller newest.now }
{
    match newest_of(newest, caller.session) {
        Some(known) => known.number == caller.number,
        None => false,
    }
}

/// A newer number takes the place of its session's, or is the last.
#[tactic(auto, using(crate::proofs::Lists::newest_put, crate::proofs::Lists::newest_last))]
pub fn put_newest(newest: &mut NewestList, newer: Newest) -> Result<(), Memory>
    ensures { OnOk result (newest.new ≡ with_newest newer newest.old) }
{
    match place_of(newest.as_slice(), newer.session) {
        Some(place) => {
            newest.set(place, newer);
            Ok(())
        }
        None => Ok(newest.push(newer)?),
    }
}

/// Where the newest number of a session stands.
fn place_of(newest: &[Newest], session: SessionId) -> Option<usize>
    ensures none { IfNone result (list_any (is_of_session session) newest.now ≡ false) }
    ensures some { IfSome result (IsPlaceOf session newest.now) }
{
    for (place, known) in newest.iter().enumerate() {
        if known.session == session {
            return Some(place);
        }
    }
    None
}

impl Clone for Newest {
    ghost is_clone = { λ x y. y ≡ x };

    fn clone(&self) -> Result<Newest, AllocError> {
        let answer = clone_of(&self.answer)?;
        Ok(Newest {
            session: self.session,
            number: self.number,
            answer,
        })
    }
}

impl Exact for Newest {
    ghost exact = { λ x y e. e };
}

fn clone_of<T: Exact>(value: &T) -> Result<T, AllocError>
    ensures { IfOk result (λ clone. clone ≡ value.now) }
{
    value.clone()
}

ghost use Rattle.std.specs.Prelude.{ℕ, ◌≡◌, ◌+◌, ◌*◌, ◌^◌, ◌<◌, ◌≤◌, List, [], ◌∷◌, length};
ghost use Rattle.std.specs.List.{AllByRecursion};
ghost use Rattle.std.specs.VecDeque.{deque_len, deque_capacity};
ghost use Rattle.hx_clock.specs.declared.parts.Stamped.{Stamped};
ghost use Rattle.hx_clock.specs.Parts.{Posted};
ghost use Rattle.hx_clock.specs.Views.{Carries};
ghost use Rattle.hx_fate.specs.declared.fates.Choice.TheVariants.{Twice};
ghost use Rattle.hx_fate.specs.States.{MayRepeat};
ghost use Rattle.hx_mail.specs.declared.views.Mailed.{Mailed};
ghost use Rattle.hx_mail.specs.Ports.{mailed, mailed_of};
ghost use Rattle.hx_outbox.specs.Offers.{named, times_of, HasSeconds, IsChoiceOn, IsCounted, IsOffered, IsTotal};
ghost use Rattle.hx_outbox.specs.Floors.{AreGoodOn, IsSoundOn};
ghost use Rattle.hx_outbox.specs.Outboxes.{IsOutbox, MorePut, kept_weight, out_weight};

use crate::copies::Copies;
use crate::floors::Floor;
use crate::outboxes::{Outbox, put_or_keep};
use hx_clock::{Clock, Seat};
use hx_fate::{Choice, Fate};
use hx_mail::Envelope;
use hx_types::{Message, Post, PostId, Totals};
use std::collections::VecDeque;
use std::sync::Wait;

/// An envelope for a post that the seat's actor made.
fn envelope_of(clock: &Clock, seat: &mut Seat, id: PostId, post: Post) -> Envelope
    requires seat { seat.old.clock ≡ clock.now }
    requires made { (x : Stamped) × Carries seat.old.view x × Posted x id post }
    ensures seat { seat.new ≡ seat.old }
    ensures enclosed { (mailed_of result ≡ mailed id post) × (result.pass.clock ≡ clock.now) }
{
    let pass = clock.tell(seat, id);
    Envelope { id, post, pass }
}

/// What the fate makes of a post. It isn't asked about a word of halting, which is delivered.
fn choice_for(fate: &mut Box<dyn Fate + Send>, post: &Post) -> Choice
    ensures choice { IsChoiceOn post.now result (state fate.old) (state fate.new) }
    ensures repeats { result ≡ Twice → MayRepeat (state fate.old) }
{
    match post.message {
        Message::Gone => Choice::Deliver,
        _ => fate.choose(post.from, post.to),
    }
}

/// One more post, of which the choice is made.
fn count(totals: &mut Totals, choice: Choice)
    requires few { totals.old.posts < 2 ^ 62 }
    requires total { IsTotal totals.old }
    ensures counted { IsCounted choice totals.old totals.new }
    ensures total { IsTotal totals.new }
{
    totals.posts += 1;
    match choice {
        Choice::Deliver => totals.deliver += 1,
        Choice::Lose => totals.lose += 1,
        Choice::Twice => totals.twice += 1,
    }
}

/// Lets the second copy of a post go, where there is one.
#[inline]
fn skip_second(seconds: &mut VecDeque<Post>)
    ensures { (p : Post) (rest : List Post) → seconds.old.items ≡ p ∷ rest → seconds.new.items ≡ rest }
{
    if !seconds.is_empty() {
        drop_second(seconds);
    }
}

/// The same, where there is one. It is rare, so it has a function of its own.
#[cold]
#[inline(never)]
fn drop_second(seconds: &mut VecDeque<Post>)
    ensures { (p : Post) (rest : List Post) → seconds.old.items ≡ p ∷ rest → seconds.new.items ≡ rest }
{
    drop(seconds.pop_front());
}

/// Puts a post twice. It is rare, so it has a function of its own: no other post pays for its
/// envelopes.
#[cold]
#[inline(never)]
fn put_twice<R: Wait, G>(
    floor: &Floor<'_, R, G>,
    out: &mut Outbox,
    kept: &mut VecDeque<Envelope>,
    seat: &mut Seat,
    id: PostId,
    post: Post,
    seconds: &mut VecDeque<Post>,
)
    requires seat { seat.old.clock ≡ floor.now.clock.now }
    requires made { (x : Stamped) × Carries seat.old.view x × Posted x id post }
    requires second { (rest : List Post) × (seconds.old.items ≡ post ∷ rest) }
    requires out { IsOutbox floor.now.boxes.now out.old }
    requires sound { IsSoundOn floor.now id.entry post }
    requires room { deque_len kept.old + 2 ≤ deque_capacity kept.old }
    requires few { out_weight (λ m. 1) out.old.ports.items + kept_weight (λ m. 1) kept.old.items < 2 ^ 62 }
    ensures seat { seat.new ≡ seat.old }
    ensures out { IsOutbox floor.now.boxes.now out.new × (out.new.index ≡ out.old.index) }
    ensures more { MorePut out.old.ports.items out.new.ports.items }
    ensures weight { (h : Mailed → ℕ) → out_weight h out.new.ports.items + kept_weight h kept.new.items ≡ out_weight h out.old.ports.items + kept_weight h kept.old.items + 2 * h (mailed id post) }
    ensures good { AreGoodOn floor.now kept.old.items → AreGoodOn floor.now kept.new.items }
    ensures capacity { (deque_capacity kept.new ≡ deque_capacity kept.old) × (deque_len kept.new ≤ deque_len kept.old + 2) }
    ensures seconds { (p : Post) (rest : List Post) → seconds.old.items ≡ p ∷ rest → seconds.new.items ≡ rest }
{
    let Some(second) = seconds.pop_front() else {
        // The fate may repeat, so the post has a second copy.
        unreachable!()
    };
    let envelope = envelope_of(floor.clock, seat, id, post);
    put_or_keep(floor, out, kept, envelope);
    let again = envelope_of(floor.clock, seat, id, second);
    put_or_keep(floor, out, kept, again);
}

/// Puts a post as often as the choice says.
fn put_times<R: Wait, G>(
    floor: &Floor<'_, R, G>,
    out: &mut Outbox,
    kept: &mut VecDeque<Envelope>,
    seat: &mut Seat,
    id: PostId,
    post: Post,
    seconds: &mut VecDeque<Post>,
    choice: Choice,
)
    requires seat { seat.old.clock ≡ floor.now.clock.now }
    requires made { (x : Stamped) × Carries seat.old.view x × Posted x id post }
    requires second { choice ≡ Twice → (rest : List Post) × (seconds.old.items ≡ post ∷ rest) }
    requires out { IsOutbox floor.now.boxes.now out.old }
    requires sound { IsSoundOn floor.now id.entry post }
    requires room { deque_len kept.old + 2 ≤ deque_capacity kept.old }
    requires few { out_weight (λ m. 1) out.old.ports.items + kept_weight (λ m. 1) kept.old.items < 2 ^ 62 }
    ensures seat { seat.new ≡ seat.old }
    ensures out { IsOutbox floor.now.boxes.now out.new × (out.new.index ≡ out.old.index) }
    ensures more { MorePut out.old.ports.items out.new.ports.items }
    ensures weight { (h : Mailed → ℕ) → out_weight h out.new.ports.items + kept_weight h kept.new.items ≡ out_weight h out.old.ports.items + kept_weight h kept.old.items + times_of choice * h (mailed id post) }
    ensures good { AreGoodOn floor.now kept.old.items → AreGoodOn floor.now kept.new.items }
    ensures capacity { (deque_capacity kept.new ≡ deque_capacity kept.old) × (deque_len kept.new ≤ deque_len kept.old + 2) }
    ensures seconds { (p : Post) (rest : List Post) → seconds.old.items ≡ p ∷ rest → seconds.new.items ≡ rest }
{
    match choice {
        Choice::Lose => {
            skip_second(seconds);
            drop(post);
        }
        Choice::Deliver => {
            skip_second(seconds);
            let envelope = envelope_of(floor.clock, seat, id, post);
            put_or_keep(floor, out, kept, envelope);
        }
        Choice::Twice => put_twice(floor, out, kept, seat, id, post, seconds),
    }
}

/// Offers a post to the fate, and puts it as often as that says. A word of halting is put once.
pub fn offer_one<R: Wait, G>(
    floor: &Floor<'_, R, G>,
    out: &mut Outbox,
    kept: &mut VecDeque<Envelope>,
    seat: &mut Seat,
    fate: &mut Box<dyn Fate + Send>,
    totals: &mut Totals,
    id: PostId,
    post: Post,
    seconds: &mut VecDeque<Post>,
)
    requires seat { seat.old.clock ≡ floor.now.clock.now }
    requires made { (x : Stamped) × Carries seat.old.view x × Posted x id post }
    requires second { MayRepeat (state fate.old) → (rest : List Post) × (seconds.old.items ≡ post ∷ rest) }
    requires out { IsOutbox floor.now.boxes.now out.old }
    requires sound { IsSoundOn floor.now id.entry post }
    requires room { deque_len kept.old + 2 ≤ deque_capacity kept.old }
    requires few { out_weight (λ m. 1) out.old.ports.items + kept_weight (λ m. 1) kept.old.items < 2 ^ 62 }
    requires small { totals.old.posts < 2 ^ 62 }
    requires total { IsTotal totals.old }
    ensures seat { seat.new ≡ seat.old }
    ensures out { IsOutbox floor.now.boxes.now out.new × (out.new.index ≡ out.old.index) }
    ensures more { MorePut out.old.ports.items out.new.ports.items }
    ensures offered { IsOffered (λ h. out_weight h out.old.ports.items + kept_weight h kept.old.items) (λ h. out_weight h out.new.ports.items + kept_weight h kept.new.items) totals.old totals.new (state fate.old) (state fate.new) (mailed id post ∷ []) }
    ensures good { AreGoodOn floor.now kept.old.items → AreGoodOn floor.now kept.new.items }
    ensures capacity { (deque_capacity kept.new ≡ deque_capacity kept.old) × (deque_len kept.new ≤ deque_len kept.old + 2) }
    ensures total { IsTotal totals.new }
    ensures seconds { (p : Post) (rest : List Post) → seconds.old.items ≡ p ∷ rest → seconds.new.items ≡ rest }
{
    let choice = choice_for(fate, &post);
    count(totals, choice);
    put_times(floor, out, kept, seat, id, post, seconds, choice);
}

/// Offers the posts of an entry, in order, and leaves their list empty, with its room.
pub fn offer_all<R: Wait, G>(
    floor: &Floor<'_, R, G>,
    out: &mut Outbox,
    kept: &mut VecDeque<Envelope>,
    seat: &mut Seat,
    fate: &mut Box<dyn Fate + Send>,
    totals: &mut Totals,
    entry: u64,
    copies: &mut Copies,
)
    requires seat { seat.old.clock ≡ floor.now.clock.now }
    requires made { (x : Stamped) × Carries seat.old.view x × (x.stamp.0 + 1 ≡ entry) × (x.entry.outputs ≡ copies.old.firsts.items) }
    requires seconds { HasSeconds (state fate.old) copies.old }
    requires out { IsOutbox floor.now.boxes.now out.old }
    requires sound { AllByRecursion (IsSoundOn floor.now entry) copies.old.firsts.items }
    requires length { length copies.old.firsts.items < 2 ^ 32 }
    requires room { deque_len kept.old + 2 * length copies.old.firsts.items ≤ deque_capacity kept.old }
    requires few { out_weight (λ m. 1) out.old.ports.items + kept_weight (λ m. 1) kept.old.items + 2 * length copies.old.firsts.items < 2 ^ 62 }
    requires small { totals.old.posts + length copies.old.firsts.items < 2 ^ 62 }
    requires total { IsTotal totals.old }
    ensures seat { seat.new ≡ seat.old }
    ensures out { IsOutbox floor.now.boxes.now out.new × (out.new.index ≡ out.old.index) }
    ensures more { MorePut out.old.ports.items out.new.ports.items }
    ensures offered { IsOffered (λ h. out_weight h out.old.ports.items + kept_weight h kept.old.items) (λ h. out_weight h out.new.ports.items + kept_weight h kept.new.items) totals.old totals.new (state fate.old) (state fate.new) (named entry 0 copies.old.firsts.items) }
    ensures good { AreGoodOn floor.now kept.old.items → AreGoodOn floor.now kept.new.items }
    ensures total { IsTotal totals.new }
    ensures rest { copies.new.firsts.items ≡ [] }
{
    let Copies { firsts, seconds } = copies;
    for place in 0..firsts.len() as u32 {
        let Some(post) = firsts.pop_front() else {
            return;
        };
        let id = PostId { entry, place };
        offer_one(floor, out, kept, seat, fate, totals, id, post, seconds);
    }
}

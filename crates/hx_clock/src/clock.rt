ghost use Rattle.std.specs.Prelude.{ℕ, ◌≡◌, ◌+◌, ◌*◌, ◌<◌, ◌≤◌, ◌∷◌, ◌++◌, [], length, IfOk, None, Some, List};
ghost use Rattle.hx_types.specs.declared.messages.Post.{Post};
ghost use Rattle.hx_types.specs.declared.messages.PostId.{PostId};
ghost use Rattle.hx_types.specs.declared.limits.TheConstants.{MOST_ENTRIES};
ghost use Rattle.hx_clock.specs.declared.limits.TheConstants.{MOST_ENROLLED};
ghost use Rattle.hx_clock.specs.declared.parts.Stamped.{Stamped};
ghost use Rattle.hx_clock.specs.Parts.{stamped, Posted, DeliveryMeets, IsCausal, HasStampsBelow, all_of};
ghost use Rattle.hx_clock.specs.Views.{acted, counting, enrolled_as, handed_to, joined, known_part, longer, told, Carries, Has, IsAfter, IsWhole, Knows, Owns, parts_of};

use crate::rule::{Act, Enrol, Hand, Learn, Load, Making, OneHistory, Tell};
use crate::seat::{Pass, Seat};
use crate::view::View;
use atomic_table::Table;
use hx_types::{Actor, Entry, Input, Memory, Notes, PostId, Posts, Stamp};
use std::alloc::Global;
use std::marker::{Brand, Model};

/// The clock of all actors: how many stamps were drawn, and how many actors enrolled. Contracts see
/// it as its name, which no other clock has.
pub struct Clock {
    // Word 0 counts the stamps, word 1 the actors.
    table: Table<(), View, (), OneHistory, Global>,
}

impl Drop for Clock {
    fn drop(self) {
        let Clock { table: _ } = self;
    }
}

impl Model for Clock {
    ghost use Rattle.std.specs.Prelude.{◌≡◌};
    ghost use Rattle.atomic_table.specs.Seated.{TableId, table_id_coded};

    ghost Value = { TableId };

    ghost coded = { table_id_coded };

    ghost view = { λ c. c.table.shared.table_id };

    ghost invariant = { λ c. (c.table.shared.table_id.words ≡ 2) × (c.table.shared.table_id.slots ≡ 0) };
}

impl Clock {
    /// A clock with no actor, and its counting seat, which alone enrols. It fails with [`Memory`]
    /// alone.
    pub fn new(alloc: Global) -> Result<(Clock, Seat), Memory>
        ensures clock { IfOk result (λ made. made.1.clock ≡ made.0) }
        ensures seat { IfOk result (λ made. made.1.view ≡ counting) }
    {
        let (table, token) = Table::of_words(alloc, &[0, 0], &())?;
        Ok((Clock { table }, Seat { token }))
    }

    /// Draws a number for a new actor, from 0, and gives the seat that carries it.
    pub fn enrol(&mut self, seat: &mut Seat) -> (u32, Seat)
        requires clock { seat.old.clock ≡ self.old }
        requires room { (n : ℕ) × (seat.old.view.count ≡ Some n) × (n < MOST_ENROLLED) }
        ensures clock { (self.new ≡ self.old) × (seat.new.clock ≡ self.old) × (result.1.clock ≡ self.old) }
        ensures number { seat.old.view.count ≡ Some result.0 }
        ensures seat { seat.new.view ≡ enrolled_as result.0 seat.old.view }
        ensures made { result.1.view ≡ handed_to result.0 seat.old.view }
        ensures own { Owns result.1.view result.0 [] }
        ensures knows { seat.old.view.carried ≡ [] → (id : PostId) (post : Post) → Knows seat.old.view id post → Knows result.1.view id post }
    {
        let number = self.table.shared.fetch_add::<Enrol>(&mut seat.token, 1, 1);
        let token = self.table.shared.split_seat::<Hand>(&mut seat.token);
        (number as u32, Seat { token })
    }

    /// Draws the next stamp for an entry of the seat's actor. It waits for nobody.
    pub fn act(&self, seat: &mut Seat, entry: &Entry) -> Stamp
        requires clock { seat.old.clock ≡ self.now }
        requires own { (k : ℕ) × (part : List Stamped) × Owns seat.old.view k part × (length part < MOST_ENTRIES) }
        requires cause { DeliveryMeets (Knows seat.old.view) entry.now }
        ensures clock { seat.new.clock ≡ self.now }
        ensures seat { seat.new.view ≡ acted (stamped result.0 entry.now) seat.old.view }
        ensures own { (k : ℕ) (part : List Stamped) → Owns seat.old.view k part → Owns seat.new.view k (part ++ stamped result.0 entry.now ∷ []) }
        ensures later { (x : Stamped) → Has seat.old.view x → x.stamp.0 < result.0 }
        ensures bound { result.0 < MOST_ENROLLED * MOST_ENTRIES }
    {
        self.act_on(
            seat,
            entry.actor,
            &entry.input,
            &entry.outputs,
            &entry.notes,
        )
    }

    /// The same for an entry that lies in pieces.
    #[inline]
    pub fn act_on(
        &self,
        seat: &mut Seat,
        actor: Actor,
        input: &Input,
        posts: &Posts,
        notes: &Notes,
    ) -> Stamp
        requires clock { seat.old.clock ≡ self.now }
        requires own { (k : ℕ) × (part : List Stamped) × Owns seat.old.view k part × (length part < MOST_ENTRIES) }
        requires cause { DeliveryMeets (Knows seat.old.view) (record { actor = actor; input = input.now; outputs = posts.now; notes = notes.now }) }
        ensures clock { seat.new.clock ≡ self.now }
        ensures seat { seat.new.view ≡ acted (stamped result.0 (record { actor = actor; input = input.now; outputs = posts.now; notes = notes.now })) seat.old.view }
        ensures own { (k : ℕ) (part : List Stamped) → Owns seat.old.view k part
            → Owns seat.new.view k (part ++ stamped result.0 (record { actor = actor; input = input.now; outputs = posts.now; notes = notes.now }) ∷ []) }
        ensures later { (x : Stamped) → Has seat.old.view x → x.stamp.0 < result.0 }
        ensures bound { result.0 < MOST_ENROLLED * MOST_ENTRIES }
    {
        self.act_making::<Brand>(seat, actor, input, posts, notes)
    }

    /// Draws the next stamp for an entry that the proof alone sees: its pieces.
    fn act_making<M: Making>(
        &self,
        seat: &mut Seat,
        _actor: Actor,
        _input: &Input,
        _posts: &Posts,
        _notes: &Notes,
    ) -> Stamp
        requires clock { seat.old.clock ≡ self.now }
        requires own { (k : ℕ) × (part : List Stamped) × Owns seat.old.view k part × (length part < MOST_ENTRIES) }
        requires cause { DeliveryMeets (Knows seat.old.view) M.entry }
        ensures clock { seat.new.clock ≡ self.now }
        ensures acts { (seat.new.view ≡ acted (stamped result.0 M.entry) seat.old.view) × IsAfter result.0 seat.old.view × (result.0 < MOST_ENROLLED * MOST_ENTRIES) }
    {
        Stamp(self.table.shared.fetch_add::<Act<M>>(&mut seat.token, 0, 1))
    }

    /// A pass that knows a post which the seat's actor made, and all else that the seat knows. It
    /// waits for nobody.
    pub fn tell(&self, seat: &mut Seat, id: PostId) -> Pass
        requires clock { seat.old.clock ≡ self.now }
        requires made { (x : Stamped) × (post : Post) × Carries seat.old.view x × Posted x id post }
        ensures clock { (seat.new.clock ≡ self.now) × (result.clock ≡ self.now) }
        ensures seat { seat.new.view ≡ seat.old.view }
        ensures pass { result.view ≡ told seat.old.view }
        ensures knows { (x : Stamped) (post : Post) → Carries seat.old.view x → Posted x id post → Knows result.view id post }
        ensures told { (other : PostId) (post : Post) → Knows seat.old.view other post → Knows result.view other post }
        ensures bare { (result.view.carried ≡ []) × (result.view.count ≡ None) }
    {
        // The contract alone reads the post's name.
        let _ = id;
        Seat {
            token: self.table.shared.split_seat::<Tell>(&mut seat.token),
        }
    }

    /// Takes in what a pass, or a whole seat, carries and knows. It waits for nobody.
    pub fn learn(&self, seat: &mut Seat, pass: Pass)
        requires clock { (seat.old.clock ≡ self.now) × (pass.clock ≡ self.now) }
        ensures clock { seat.new.clock ≡ self.now }
        ensures seat { seat.new.view ≡ joined seat.old.view pass.view }
        ensures longer { (k : ℕ) → known_part k seat.new.view.known ≡ longer (known_part k seat.old.view.known) (known_part k pass.view.known) }
        ensures kept { (id : PostId) (post : Post) → Knows seat.old.view id post → Knows seat.new.view id post }
        ensures learned { (id : PostId) (post : Post) → Knows pass.view id post → Knows seat.new.view id post }
        ensures own { pass.view.carried ≡ [] → (k : ℕ) (part : List Stamped) → Owns seat.old.view k part → Owns seat.new.view k part }
    {
        let Seat { token } = pass;
        self.table.shared.join_seat::<Learn>(&mut seat.token, token);
    }

    /// How many stamps were drawn by now: more than any stamp of an entry that the seat has. It
    /// waits for nobody.
    pub fn now(&self, seat: &mut Seat) -> u64
        requires clock { seat.old.clock ≡ self.now }
        ensures clock { seat.new.clock ≡ self.now }
        ensures seat { seat.new.view ≡ seat.old.view }
        ensures later { (x : Stamped) → Has seat.old.view x → x.stamp.0 < result }
        ensures bound { result ≤ MOST_ENROLLED * MOST_ENTRIES }
    {
        self.table.shared.load::<Load>(&mut seat.token, 0)
    }

    /// The number of stamps that were drawn, after which none is drawn. Where the seat has taken in
    /// every actor's seat, they are the stamps of its parts. It keeps these, and so tells each
    /// entry's stamp.
    pub fn close(self, seat: &mut Seat) -> u64
        requires clock { seat.old.clock ≡ self }
        ensures clock { seat.new.clock ≡ self }
        ensures seat { seat.new.view ≡ seat.old.view }
        ensures entries { IsWhole seat.old.view → result ≡ length (all_of (parts_of seat.old.view)) }
        ensures causal { IsWhole seat.old.view → IsCausal (parts_of seat.old.view) }
        ensures stamps { IsWhole seat.old.view → HasStampsBelow result (parts_of seat.old.view) }
    {
        let Seat { token } = seat;
        self.table.shared.load::<Load>(token, 0)
    }
}

ghost use Rattle.std.specs.Prelude.{◌≡◌, ◌<◌, ◌≤◌, ◌+◌, ◌-◌, ◌*◌, ◌^◌, ℕ, IfOk, IsSome, OnOk, Some, [], ◌∷◌, drop, length, nat_eq};
ghost use Rattle.std.specs.List.{IsDistinct, repeat};
ghost use Rattle.hx_types.specs.Spaces.{attribute_of};
ghost use Rattle.hx_index.specs.Invariant.{IsSpan};
ghost use Rattle.hx_index.specs.Looks.{HaveCounted, digits_of};
ghost use Rattle.hx_index.specs.Orders.{IndexState, IsIndexOf, IsWithout, count_of, no_rows, order_of, rows_at, rows_with, rows_without, stands_in};
ghost use Rattle.hx_index.specs.Runs.{IsRun};
ghost use Rattle.hx_index.specs.Searches.{indexed_count, is_indexed, least_run, most_looks};
ghost use Rattle.hx_index.specs.Sides.{matches_at};

use crate::looking::{Ids, Look};
use crate::orders::{
    empty_orders, insert_everywhere, remove_everywhere, replace_everywhere, widen_everywhere,
};
use crate::searching::{Span, end_of_part, matching, shorter};
use hx_types::{Memory, Row, Shared, Term, Terms};
use std::alloc::Global;
use std::marker::Model;

/// Which rows there are, by the order of each attribute: the numbers of these rows by the value of
/// the attribute, texts by bytes and numbers by size, and then by the key. Attribute 0 is the key.
pub struct Index {
    orders: Vec<Vec<u32>>,
    /// For how many numbers in all each order has room.
    room: u32,
}

/// The parts are let go here alone: who drops an index has nothing to prove of them.
impl Drop for Index {
    fn drop(self) {
        let Index { orders: _, room: _ } = self;
    }
}

impl Model for Index {
    ghost use Rattle.hx_index.specs.Orders.{IndexState};
    ghost use Rattle.hx_index.specs.Invariant.{HasOrders, items_of};

    ghost Value = { IndexState };

    ghost view = { λ x. record { orders = items_of x.orders.items; room = x.room } };

    ghost invariant = { λ x. HasOrders x.orders.items x.room };
}

impl Index {
    /// The index of no rows, with an order for the key and for each of the attributes. It has no
    /// room. It fails with [`Memory`] alone.
    pub fn new(alloc: Global, attributes: u32) -> Result<Index, Memory>
        ensures orders { IfOk result (λ index. index.orders ≡ repeat (attributes + 1) ([] ∷ [])) }
        ensures empty { IfOk result (IsIndexOf no_rows) }
        ensures room { IfOk result (λ index. index.room ≡ 0) }
    {
        let orders = empty_orders(alloc, attributes as usize + 1)?;
        Ok(Index { orders, room: 0 })
    }

    /// Makes room for n numbers in all in each order. The orders stay, whatever comes. It fails
    /// with [`Memory`] alone.
    pub fn reserve(&mut self, _alloc: Global, n: u32) -> Result<(), Memory>
        ensures orders { self.new.orders ≡ self.old.orders }
        ensures room { OnOk result (n ≤ self.new.room) }
        ensures stays { self.old.room ≤ self.new.room }
    {
        if n <= self.room {
            return Ok(());
        }
        widen_everywhere(&mut self.orders, n)?;
        self.room = n;
        Ok(())
    }

    /// Puts the row at this number, which isn't in the index, into every order. It takes no memory.
    pub fn add(&mut self, rows: &[Option<Shared<Row>>], id: u32)
        requires others { IsIndexOf (rows_without id (rows_at rows.now)) self.old }
        requires kept { IsSome (rows_at rows.now id) }
        requires room { count_of self.old < self.old.room }
        ensures index { IsIndexOf (rows_at rows.now) self.new }
        ensures others { IsWithout id self.old self.new }
        ensures count { count_of self.new ≡ count_of self.old + 1 }
        ensures room { self.new.room ≡ self.old.room }
    {
        insert_everywhere(&mut self.orders, rows, id);
    }

    /// Takes this number out of every order, by the row that was there when it came into the index.
    /// It takes no memory.
    pub fn forget(&mut self, rows: &[Option<Shared<Row>>], id: u32, old: &Row)
        requires index { IsIndexOf (rows_with id (Some old.now) (rows_at rows.now)) self.old }
        ensures index { IsIndexOf (rows_without id (rows_at rows.now)) self.new }
        ensures others { IsWithout id self.new self.old }
        ensures count { count_of self.new + 1 ≡ count_of self.old }
        ensures room { self.new.room ≡ self.old.room }
    {
        remove_everywhere(&mut self.orders, rows, id, old);
    }

    /// At this number is another row than when it came into the index. The number goes to its new
    /// place in the orders of the attributes whose value changed, in every order where the key did,
    /// and stays in the others, in which no place is sought. It takes no memory.
    pub fn replace(&mut self, rows: &[Option<Shared<Row>>], id: u32, old: &Row)
        requires index { IsIndexOf (rows_with id (Some old.now) (rows_at rows.now)) self.old }
        requires kept { IsSome (rows_at rows.now id) }
        ensures index { IsIndexOf (rows_at rows.now) self.new }
        ensures attributes { length self.new.orders ≡ length self.old.orders }
        ensures count { count_of self.new ≡ count_of self.old }
        ensures room { self.new.room ≡ self.old.room }
    {
        replace_everywhere(&mut self.orders, rows, id, old);
    }

    /// The first place and the end of the run of a term: the part of the order of its attribute
    /// whose values meet it. With n rows in the index, where n has d binary digits, it takes at
    /// most 2 * d looks.
    pub fn run<L: Look>(&self, look: &mut L, term: &Term) -> (u32, u32)
        requires index { IsIndexOf (L.rows look.old) self.now }
        requires value { 0 < attribute_of term.now }
        requires attribute { attribute_of term.now < length self.now.orders }
        ensures run { IsRun (L.rows look.old) term.now (order_of self.now (attribute_of term.now)) result.0 result.1 }
        ensures rows { L.rows look.new ≡ L.rows look.old }
        ensures counted { L.looks look.old ≤ L.looks look.new }
        ensures looks { L.looks look.new ≤ L.looks look.old + 2 * digits_of (count_of self.now) }
    {
        let order = self.order(term.attribute() as usize);
        let first = end_of_part(order, look, term, false);
        let end = end_of_part(order, look, term, true);
        (first as u32, end as u32)
    }

    /// The numbers of the rows of which every term holds, each once, in any order. It goes through
    /// the shortest run of a term, or through all where no term is on an attribute above 0, and
    /// looks at each row there once; a run is found by 2 * d looks at most. It fails with
    /// [`Memory`] alone.
    pub fn find<L: Look>(&self, alloc: Global, look: &mut L, terms: &Terms) -> Result<Ids, Memory>
        requires { IsIndexOf (L.rows look.old) self.now }
        ensures matching { IfOk result (λ ids. (i : ℕ) → stands_in ids.items i ≡ matches_at (L.rows look.old) terms.now i) }
        ensures once { IfOk result (λ ids. IsDistinct nat_eq ids.items) }
        ensures rows { L.rows look.new ≡ L.rows look.old }
        ensures counted { L.looks look.old ≤ L.looks look.new }
        ensures looks { L.looks look.new ≤ L.looks look.old + most_looks self.now (L.rows look.old) terms.now }
        ensures each { IfOk result (λ ids. HaveCounted (least_run self.now (L.rows look.old) (count_of self.now) terms.now) (L.looks look.old) (L.looks look.new)) }
    {
        let span = self.narrowest(look, terms);
        let numbers = &self.order(span.attribute)[span.first as usize..span.end as usize];
        matching(alloc, numbers, look, terms)
    }

    /// The shortest run of the terms, or the order of the keys where none is shorter.
    fn narrowest<L: Look>(&self, look: &mut L, terms: &Terms) -> Span
        requires { IsIndexOf (L.rows look.old) self.now }
        ensures span { IsSpan self.now (L.rows look.old) terms.now result.attribute result.first result.end }
        ensures least { result.end - result.first ≡ least_run self.now (L.rows look.old) (count_of self.now) terms.now }
        ensures rows { L.rows look.new ≡ L.rows look.old }
        ensures counted { L.looks look.old ≤ L.looks look.new }
        ensures looks { L.looks look.new ≤ L.looks look.old + 2 * indexed_count self.now terms.now * digits_of (count_of self.now) }
    {
        let mut best = self.whole();
        for number in 0..terms.len() {
            best = self.narrow(look, terms, number, best);
        }
        best
    }

    /// The run of the term with this number where it is shorter than a part of an order that has
    /// all that match, and else that part.
    fn narrow<L: Look>(&self, look: &mut L, terms: &Terms, number: usize, best: Span) -> Span
        requires index { IsIndexOf (L.rows look.old) self.now }
        requires within { number < length terms.now }
        requires span { IsSpan self.now (L.rows look.old) terms.now best.attribute best.first best.end }
        ensures span { IsSpan self.now (L.rows look.old) terms.now result.attribute result.first result.end }
        ensures least { least_run self.now (L.rows look.old) (best.end - best.first) (drop number terms.now) ≡ least_run self.now (L.rows look.old) (result.end - result.first) (drop (number + 1) terms.now) }
        ensures rows { L.rows look.new ≡ L.rows look.old }
        ensures counted { L.looks look.old ≤ L.looks look.new }
        ensures looks { L.looks look.new + 2 * indexed_count self.now (drop (number + 1) terms.now) * digits_of (count_of self.now) ≤ L.looks look.old + 2 * indexed_count self.now (drop number terms.now) * digits_of (count_of self.now) }
    {
        let term = &terms.as_slice()[number];
        if !self.has_order(term) {
            return best;
        }
        let (first, end) = self.run(look, term);
        let attribute = term.attribute() as usize;
        shorter(
            Span {
                attribute,
                first,
                end,
            },
            best,
        )
    }

    /// The order of an attribute.
    fn order(&self, attribute: usize) -> &[u32]
        requires { attribute < length self.now.orders }
        ensures numbers { result.now ≡ order_of self.now attribute }
        ensures count { length result.now ≡ count_of self.now }
        ensures few { length result.now < 2 ^ 32 }
    {
        self.orders[attribute].as_slice()
    }

    /// The whole order of the keys.
    fn whole(&self) -> Span
        ensures attribute { result.attribute ≡ 0 }
        ensures some { 0 < length self.now.orders }
        ensures first { result.first ≡ 0 }
        ensures end { result.end ≡ count_of self.now }
    {
        let _ = &self.orders;
        Span {
            attribute: 0,
            first: 0,
            end: self.order(0).len() as u32,
        }
    }

    /// Whether the term is on an attribute above 0 that has an order.
    fn has_order(&self, term: &Term) -> bool
        ensures { result ≡ is_indexed self.now term.now }
    {
        let attribute = term.attribute();
        0 < attribute && (attribute as usize) < self.orders.len()
    }
}

ghost use Rattle.std.specs.Prelude.{◌≡◌, ◌<◌, IsSome};
ghost use Rattle.std.specs.Option.{option_copied};
ghost use Rattle.hx_types.specs.Spaces.{attribute_of};
ghost use Rattle.hx_index.specs.Looks.{raised};
ghost use Rattle.hx_index.specs.Orders.{rows_at};
ghost use Rattle.hx_index.specs.Sides.{matches_at, side_at};

use crate::comparing::{row_at, side_of};
use crate::looking::{Look, Side};
use hx_region::matches;
use hx_types::{Row, Shared, Term, Terms};
use std::marker::Model;

/// The look at rows, by their numbers from 0.
#[derive(Drop)]
pub struct View<'a> {
    rows: &'a [Option<Shared<Row>>],
    looks: u64,
}

impl<'a> Model for View<'a> {
    ghost use Rattle.hx_index.specs.Looks.{ViewState};

    ghost Value = { ViewState };

    ghost view = { λ v. record { rows = v.rows.now; looks = v.looks } };
}

impl<'a> View<'a> {
    /// A look at these rows, whose count of looks starts at a number.
    pub fn new(rows: &'a [Option<Shared<Row>>], looks: u64) -> View<'a>
        ensures { result ≡ record { rows = rows.entry.now; looks = looks } }
    {
        View { rows, looks }
    }

    /// How many looks there were, those before it among them.
    pub fn looks(&self) -> u64
        ensures { result ≡ self.now.looks }
    {
        self.looks
    }

    /// Counts a look.
    fn count(&mut self)
        ensures rows { self.new.rows ≡ self.old.rows }
        ensures looks { self.new.looks ≡ raised self.old.looks }
    {
        if self.looks != u64::MAX {
            self.looks += 1;
        }
    }
}

impl<'a> Look for View<'a> {
    ghost use Rattle.hx_index.specs.Orders.{rows_at};

    ghost rows = { λ v. rows_at v.rows };

    ghost looks = { λ v. v.looks };

    fn side(&mut self, id: u32, term: &Term) -> Side {
        self.count();
        match row_at(self.rows, id) {
            Some(row) => side_of(term, row.object.get(term.attribute() as usize - 1)),
            // Each number of an order is that of a row.
            None => unreachable!(),
        }
    }

    fn matches(&mut self, id: u32, terms: &Terms) -> bool {
        self.count();
        match row_at(self.rows, id) {
            Some(row) => matches(terms, &row.key, &row.object),
            // Each number of an order is that of a row.
            None => unreachable!(),
        }
    }
}

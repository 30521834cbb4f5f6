ghost use Rattle.std.specs.Prelude.{◌≡◌, ◌<◌, ℕ, IsSome, Option};
ghost use Rattle.hx_types.specs.Spaces.{attribute_of};
ghost use Rattle.hx_model.specs.Types.{Row};
ghost use Rattle.hx_index.specs.Looks.{raised};
ghost use Rattle.hx_index.specs.Sides.{matches_at, side_at};

use hx_types::{Term, Terms};

/// Where the value of a row lies, seen from the values that meet a term.
#[derive(Clone, Copy)]
pub enum Side {
    /// Below all of them: it stands before them in the order of the attribute.
    Below,
    /// Among them.
    Meets,
    /// Above all of them.
    Above,
}

/// Numbers of rows.
pub type Ids = Vec<u32>;

/// The only way in which a search reaches the rows of an index.
///
/// A contract sees two things of it: the row at each number, which no call changes, and the number
/// of looks so far. No call takes memory.
pub trait Look {
    /// The row at a number, where there is one.
    ghost rows: { Self → ℕ → Option Row };

    /// How many looks there were; the count stays at the greatest `u64`.
    ghost looks: { Self → ℕ };

    /// On which side of the values that meet the term the value of the row lies.
    fn side(&mut self, id: u32, term: &Term) -> Side
        requires kept { IsSome (rows self.old id) }
        requires value { 0 < attribute_of term.now }
        ensures side { result ≡ side_at (rows self.old) term.now id }
        ensures rows { rows self.new ≡ rows self.old }
        ensures looks { looks self.new ≡ raised (looks self.old) };

    /// Whether every term holds of the row.
    fn matches(&mut self, id: u32, terms: &Terms) -> bool
        requires { IsSome (rows self.old id) }
        ensures matches { result ≡ matches_at (rows self.old) terms.now id }
        ensures rows { rows self.new ≡ rows self.old }
        ensures looks { looks self.new ≡ raised (looks self.old) };
}

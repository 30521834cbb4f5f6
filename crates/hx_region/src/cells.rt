use hx_types::Axis;

/// Neighbouring cells of an axis: so many from the first one on.
#[derive(Clone, Copy)]
pub struct CellRange {
    pub first: u32,
    pub count: u32,
}

impl CellRange {
    ghost use Rattle.std.specs.Prelude.{◌≡◌, ◌+◌, ◌<◌, ◌≤◌, ◌^◌, ◌&&◌, ◌==◌, ℕ, true, nat_le, nat_lt};
    ghost use Rattle.hx_region.specs.Ranges.{AreThose, is_among};
    ghost use Rattle.hx_types.specs.Spaces.{ArePart};

    /// Every cell of an axis.
    pub fn whole(axis: Axis) -> CellRange
        ensures { AreThose axis.parts (λ cell. true) result }
    {
        CellRange {
            first: 0,
            count: axis.parts,
        }
    }

    /// One cell.
    pub fn one(axis: Axis, cell: u32) -> CellRange
        requires { cell < axis.parts }
        ensures { AreThose axis.parts (λ place. place == cell) result }
    {
        CellRange {
            first: cell,
            count: 1,
        }
    }

    /// The cells from one to another, both included: none where the last stands before the first.
    pub fn between(axis: Axis, first: u32, last: u32) -> CellRange
        requires parts { ArePart axis.parts }
        requires first { first < axis.parts }
        requires last { last < axis.parts }
        ensures { AreThose axis.parts (λ place. nat_le first place && nat_le place last) result }
    {
        CellRange {
            first,
            count: (last + 1).saturating_sub(first),
        }
    }

    /// The cells that are in both ranges.
    pub fn common(self, other: CellRange) -> CellRange
        requires mine { self.first + self.count < 2 ^ 32 }
        requires others { other.first + other.count < 2 ^ 32 }
        ensures each { (place : ℕ) → is_among result place ≡ (is_among self place && is_among other place) }
        ensures within { (end : ℕ) → self.first + self.count ≤ end → other.first + other.count ≤ end → result.first + result.count ≤ end }
    {
        let first = self.first.max(other.first);
        let end = (self.first + self.count).min(other.first + other.count);
        CellRange {
            first,
            count: end.saturating_sub(first),
        }
    }
}

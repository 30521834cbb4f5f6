//! Random numbers.

ghost use Rattle.std.specs.Prelude.{◌≡◌};
ghost use Rattle.hx_soak.specs.Drawing.{mixed, next_state};

/// What the state moves by: an odd number, the golden ratio in 64 bits.
const STEP: u64 = 0x9e37_79b9_7f4a_7c15;

/// The generator SplitMix64 of Steele, Lea and Flood: a number of 64 bits that moves by a step for
/// each draw, and is mixed.
#[derive(Drop)]
pub struct SplitMix64 {
    pub state: u64,
}

impl SplitMix64 {
    /// The generator that starts from a seed. Every seed is as good as any other.
    pub fn new(seed: u64) -> SplitMix64
        ensures { result.state ≡ seed }
    {
        SplitMix64 { state: seed }
    }

    /// The next draw: the state moves, and the draw is what the new state is mixed into.
    pub fn draw(&mut self) -> u64
        ensures state { self.new.state ≡ next_state self.old.state }
        ensures draw { result ≡ mixed (next_state self.old.state) }
    {
        self.state = self.state.wrapping_add(STEP);
        mix(self.state)
    }
}

/// The bits of a state, mixed.
fn mix(state: u64) -> u64
    ensures { result ≡ mixed state }
{
    let once = (state ^ (state >> 30)).wrapping_mul(0xbf58_476d_1ce4_e5b9);
    let twice = (once ^ (once >> 27)).wrapping_mul(0x94d0_49bb_1331_11eb);
    twice ^ (twice >> 31)
}

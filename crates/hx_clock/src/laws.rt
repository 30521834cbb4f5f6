ghost use Rattle.hx_clock.specs.Laws.{PartsStayCausal};

/// Between any two atomic steps the parts that seats carry are causal, their stamps are the numbers
/// below the number of stamps drawn, each once, and what a seat knows is a prefix of what is
/// carried.
pub fn parts_stay_causal()
    ensures { PartsStayCausal }
{}

ghost use Rattle.hx_types.specs.Fitting.{IsScript};
ghost use Rattle.hx_outbox.specs.Places.{AreBoxes};
ghost use Rattle.hx_outbox.specs.Valid.{script-prop};

use hx_clock::Clock;
use hx_mail::Mailbox;
use hx_types::Script;
use std::alloc::Global;

/// What all drivers of a run share: the runtime, the allocator, the script, the clock, the boxes of
/// the script's actors in their order, and the gate, which is called before each entry. The script
/// is within the limits, and the boxes are of this script and this clock: so no function that takes
/// a floor asks for either.
#[derive(Drop)]
pub struct Floor<'a, R, G> {
    pub rt: &'a R,
    pub alloc: Global,
    pub script: &'a Script,
    pub clock: &'a Clock,
    pub boxes: &'a [Mailbox<'a>],
    pub gate: &'a G,
    pub ghost valid: { IsScript script.now } by { script-prop script.now },
    pub ghost boxed: { AreBoxes script.now clock.now boxes.now },
}

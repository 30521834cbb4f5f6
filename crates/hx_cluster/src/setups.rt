ghost use Rattle.std.specs.Prelude.{◌≤◌};
ghost use Rattle.hx_types.specs.Fitting.{IsScript};
ghost use Rattle.hx_outbox.specs.Places.{AreBoxes};
ghost use Rattle.hx_outbox.specs.Valid.{script-prop};

use hx_clock::Clock;
use hx_mail::Mailbox;
use hx_types::Script;
use std::alloc::Global;

/// What a script's actors are dealt out with: the allocator, the script, the clock, the boxes of
/// the actors in their order, and the number of drivers. The script is within the limits, the boxes
/// are of this script and this clock, and there is a driver: so no function that takes a setup asks
/// for any of it.
#[derive(Drop)]
pub struct Setup<'a> {
    pub alloc: Global,
    pub script: &'a Script,
    pub clock: &'a Clock,
    pub boxes: &'a [Mailbox<'a>],
    pub workers: u32,
    pub ghost valid: { IsScript script.now } by { script-prop script.now },
    pub ghost boxed: { AreBoxes script.now clock.now boxes.now },
    pub ghost some: { 1 ≤ workers },
}

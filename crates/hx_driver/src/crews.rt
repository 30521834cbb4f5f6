ghost use Rattle.std.specs.Prelude.{◌≡◌};

use crate::desks::Desk;
use crate::faults::Fault;
use hx_outbox::Outbox;
use hx_types::Totals;

/// The actors of a driver, with its ports, the totals of what it posted, and the first fault that a
/// turn or a retry met.
///
/// [`Driver`](crate::Driver) owns it beside its fate, and lends both to each move, in place of
/// having these fields itself. A fate is a `dyn` of any type, which a crew doesn't hold: so
/// definitions and laws speak of crews whatever their fates are.
pub struct Crew {
    pub desks: Vec<Desk>,
    pub out: Outbox,
    pub totals: Totals,
    pub fault: Option<Fault>,
}

impl Drop for Crew {
    fn drop(self) {
        let Crew {
            desks: _,
            out: _,
            totals: _,
            fault: _,
        } = self;
    }
}

impl Crew {
    /// The actors, their driver's ports, and the totals of what it posted.
    pub fn into_parts(self) -> (Vec<Desk>, Outbox, Totals)
        ensures { (result.0 ≡ self.desks) × (result.1 ≡ self.out) × (result.2 ≡ self.totals) }
    {
        let Crew {
            desks,
            out,
            totals,
            fault: _,
        } = self;
        (desks, out, totals)
    }
}

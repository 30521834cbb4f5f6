ghost use Rattle.std.specs.Prelude.{ℕ, ◌≡◌, [], Some};
ghost use Rattle.hx_mail.specs.Ports.{CarriesName};

use crate::envelopes::Letter;
use crate::views::PortView;
use crossbeam_queue::Pass;
use std::marker::Model;

/// The right to put and take at a box under a name, and what was put and taken under it. The first
/// port of a box has the name 0, and the others those of 1, 2, 3 and so on. Contracts see it as the
/// name of its box and its [`PortView`].
pub struct Port {
    pub(crate) name: u32,
    // How many ports were split off this one.
    pub(crate) splits: u32,
    pub(crate) pass: Pass<Letter, PortView>,
}

impl Drop for Port {
    fn drop(self) {
        let Port {
            name: _,
            splits: _,
            pass: _,
        } = self;
    }
}

impl Port {
    /// What the port may do at its box, and what it knows. One of which ports were split off
    /// carries the name 0.
    pub(crate) fn into_pass(self) -> Pass<Letter, PortView>
        ensures queue { (result.table_id ≡ self.queue) × (result.me.1 ≡ []) }
        ensures view { result.me.0.client ≡ self.view }
        ensures first { (n : ℕ) → result.me.0.client.splits ≡ Some n → CarriesName 0 result.me.0.client }
    {
        let Port {
            name: _,
            splits: _,
            pass,
        } = self;
        pass
    }
}

impl Model for Port {
    ghost use Rattle.std.specs.Prelude.{ℕ, ◌≡◌, [], Some};
    ghost use Rattle.hx_mail.specs.Boxes.{Ported};
    ghost use Rattle.hx_mail.specs.Ports.{CarriesName};

    ghost Value = { Ported };

    ghost view = { λ p. record { queue = p.pass.table_id; view = p.pass.me.0.client } };

    ghost invariant = { λ p. (p.pass.me.1 ≡ []) × (p.pass.me.0.client.own ≡ p.name) × CarriesName p.name p.pass.me.0.client × ((n : ℕ) → p.pass.me.0.client.splits ≡ Some n → (n ≡ p.splits) × CarriesName 0 p.pass.me.0.client) };
}

ghost use Rattle.std.specs.Prelude.{◌≡◌, ◌≤◌, ◌∷◌, ◌++◌, [], length, IfOk, List, OnOk};
ghost use Rattle.hx_mail.specs.Boxes.{Boxed};
ghost use Rattle.hx_cluster.specs.Dealt.{AtEach, IsNewOutbox};
ghost use Rattle.hx_cluster.specs.Opened.{AreOutPortsFrom};

use hx_mail::Port;
use hx_outbox::Outbox;
use hx_types::Memory;
use std::alloc::Global;

/// The outboxes of so many drivers, with a port at no box.
pub fn new_outboxes(alloc: Global, workers: u32) -> Result<Vec<Outbox>, Memory>
    ensures { IfOk result (λ outs. AtEach (IsNewOutbox []) outs.items × (length outs.items ≡ workers)) }
{
    let mut outs = Vec::with_capacity(alloc, workers as usize)?;
    for index in 0..workers {
        outs.push(Outbox {
            index,
            ports: Vec::new(alloc),
            sent: Vec::new(alloc),
        })?;
    }
    Ok(outs)
}

/// One more port, at a box at which nothing was put under it.
fn add_port(out: &mut Outbox, port: Port) -> Result<(), Memory>
    ensures index { out.new.index ≡ out.old.index }
    ensures ports { OnOk result ((out.new.ports.items ≡ out.old.ports.items ++ port ∷ []) × (out.new.sent.items ≡ out.old.sent.items ++ 0 ∷ [])) }
{
    out.ports.push(port)?;
    out.sent.push(0)?;
    Ok(())
}

/// Gives each driver its port at one more box.
pub fn add_ports(outs: &mut Vec<Outbox>, others: Vec<Port>) -> Result<(), Memory>
    requires { length others.items ≡ length outs.old.items }
    ensures count { length outs.new.items ≡ length outs.old.items }
    ensures added { OnOk result ((boxes : List Boxed) (box : Boxed) → AtEach (IsNewOutbox boxes) outs.old.items → AreOutPortsFrom 0 box others.items → AtEach (IsNewOutbox (boxes ++ box ∷ [])) outs.new.items) }
{
    let mut driver: usize = 0;
    for port in others {
        add_port(&mut outs[driver], port)?;
        driver += 1;
    }
    Ok(())
}

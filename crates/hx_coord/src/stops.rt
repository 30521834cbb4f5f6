ghost use Rattle.std.specs.Prelude.{◌≡◌, IfOk};
ghost use Rattle.hx_model.specs.Types.{Config as ConfigSeen};
ghost use Rattle.hx_model.specs.CoordinatorSteps.{stops_answered, stops_left};

use crate::issuing::{Answered, AnsweredList};
use hx_types::{Answer, Caller, Epoch, Exact, Memory, Sequence, ServerId};
use std::alloc::{AllocError, Global};
use std::marker::Model;

/// A call that is to be done: its server leaves once it has halted.
pub struct Stop {
    pub caller: Caller,
    pub server: ServerId,
}

impl Drop for Stop {
    fn drop(self) {
        let Stop {
            caller: _,
            server: _,
        } = self;
    }
}

impl Model for Stop {
    ghost use Rattle.hx_types.specs.declared.calls.Op.TheVariants as an_op;
    ghost use Rattle.hx_model.specs.CoordinatorSteps.{Task};

    ghost Value = { Task };

    ghost view = { λ s. record { caller = s.caller; op = an_op.Stop s.server } };
}

/// Stops in order of arrival.
pub type Stops = Sequence<Stop>;

/// The stops of a server that has halted, answered by the configuration of this epoch.
pub fn stops_answered(
    alloc: Global,
    todo: &[Stop],
    server: ServerId,
    epoch: Epoch,
) -> Result<AnsweredList, Memory>
    ensures { IfOk result (λ answered. (config : ConfigSeen) → config.epoch ≡ epoch → answered ≡ stops_answered config server todo.now) }
{
    let mut answered = AnsweredList::new(alloc);
    for stop in todo {
        if stop.server == server {
            answered.push(Answered {
                caller: stop.caller,
                answer: Answer::Issued { epoch },
            })?;
        }
    }
    Ok(answered)
}

/// The stops of other servers.
pub fn stops_left(alloc: Global, todo: &[Stop], server: ServerId) -> Result<Stops, Memory>
    ensures { IfOk result (λ left. left ≡ stops_left server todo.now) }
{
    let mut left = Stops::new(alloc);
    for stop in todo {
        if stop.server != server {
            let stop = stop.copy(alloc)?;
            left.push(stop)?;
        }
    }
    Ok(left)
}

impl Clone for Stop {
    ghost is_clone = { λ x y. y ≡ x };

    fn clone(&self) -> Result<Stop, AllocError> {
        Ok(Stop {
            caller: self.caller,
            server: self.server,
        })
    }
}

impl Exact for Stop {
    ghost exact = { λ x y e. e };
}

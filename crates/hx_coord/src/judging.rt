ghost use Rattle.std.specs.Prelude.{◌≡◌};
ghost use Rattle.hx_model.specs.CoordinatorSteps.{judged};

use crate::servers::is_in;
use hx_types::{Answer, Config, RegionId, ServerId, any_joining};

/// Why a server can't be added to a region: nothing where it can.
///
/// A server must be one of the configuration, the region must not be lost, and it takes one joiner
/// at a time, at the end of its list. These rules are this project's choice.
pub fn judge(config: &Config, server: ServerId, region: RegionId) -> Option<Answer>
    ensures { result ≡ judged config.now server region }
{
    let epoch = config.epoch;
    if !is_in(config.servers.as_slice(), server) {
        Some(Answer::Stopped { epoch })
    } else if config.is_lost(region) {
        Some(Answer::Lost { epoch })
    } else if config.lists_ready(region, server) {
        Some(Answer::Member { epoch })
    } else if any_joining(config.members(region)) {
        Some(Answer::Joining { epoch })
    } else {
        None
    }
}

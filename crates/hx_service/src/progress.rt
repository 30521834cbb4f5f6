ghost use Rattle.std.specs.Prelude.{◌≡◌, ◌↔◌, IsTrue, length, reverse, true};
ghost use Rattle.hx_types.specs.declared.ids.Actor.TheVariants as an_actor;
ghost use Rattle.hx_model.specs.Runs.{is_actor};
ghost use Rattle.hx_service.specs.Booking.{AreProgress};
ghost use Rattle.hx_service.specs.Progress.{is_resting};
ghost use Rattle.hx_service.specs.Receipts.{IsFree};

use hx_types::SessionId;
use hx_world::World;

/// How far a session's calls are: how many began, and which entry began the one under way.
#[derive(Clone, Copy)]
pub struct Progress {
    pub begun: u32,
    pub under_way: Option<u64>,
}

/// Whether no call is under way, and so many have begun.
fn is_resting(progress: &Progress, calls: usize) -> bool
    ensures { result ≡ is_resting progress.now calls }
{
    progress.under_way.is_none() && progress.begun as usize == calls
}

/// Whether each call that the script has for the session has ended.
pub fn is_free(world: &World, progress: &[Progress], session: SessionId) -> bool
    requires session { is_actor world.now.script (an_actor.Session session) ≡ true }
    requires progress { AreProgress (length world.now.script.sessions) (reverse world.now.trace) progress.now }
    ensures { IsTrue result ↔ IsFree world.now.script (reverse world.now.trace) session }
{
    let _trace = world.trace();
    let calls = world.script().calls(session);
    let Some(own) = progress.get(session.0 as usize - 1) else {
        // The session is one of the script.
        unreachable!()
    };
    is_resting(own, calls.len())
}

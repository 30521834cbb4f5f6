ghost use Rattle.std.specs.Prelude.{◌≡◌, ◌+◌, ◌++◌, ◌∷◌, ◌<◌, [], length, IfOk, OnErr, OnOk, true};
ghost use Rattle.hx_types.specs.declared.ids.Actor.TheVariants as an_actor;
ghost use Rattle.hx_types.specs.declared.limits.TheConstants.{MOST_CALLS};
ghost use Rattle.hx_types.specs.Fitting.{calls_of};
ghost use Rattle.hx_types.specs.Spaces.{Fits};
ghost use Rattle.hx_model.specs.Runs.{is_actor};
ghost use Rattle.hx_law_growing.specs.Growing.{calls_in, with_call_of};
ghost use Rattle.hx_world.specs.Invariant.{IsWorld};
ghost use Rattle.hx_world.specs.Sessions.{HasCall, IsSameSession};

use crate::inside::Inside;
use crate::sessions::CountedSession;
use hx_types::{Calls, Exact, Memory, Op, Script, SessionId, Sessions};
use std::alloc::Global;
use std::mem;

/// Appends a call to those of a session, in the script and in the session itself, and gives its
/// number.
pub fn submit_call(
    alloc: Global,
    inside: &mut Inside,
    session: SessionId,
    op: Op,
) -> Result<u32, Memory>
    requires world { IsWorld inside.old }
    requires actor { is_actor inside.old.script (an_actor.Session session) ≡ true }
    requires fits { Fits inside.old.script.space op }
    requires few { calls_in inside.old.script < MOST_CALLS }
    ensures world { IsWorld inside.new }
    ensures number { IfOk result (λ n. n ≡ length (calls_of inside.old.script session) + 1) }
    ensures script { OnOk result (inside.new.script ≡ with_call_of inside.old.script session op) }
    ensures same { OnErr result (inside.new.script ≡ inside.old.script) }
    ensures trace { inside.new.log.trace ≡ inside.old.log.trace }
{
    hx_law_growing::runs_grow();
    hx_law_growing::states_grow();
    hx_law_growing::calls_grow();
    hx_law_posts::posts_of_runs_are_sound();
    let counted = &mut inside.actors.sessions[session.0 as usize - 1];
    let number = extend_script(alloc, &mut inside.script, counted, session, op)?;
    Ok(number)
}

/// Appends a call to those that a script has for a session, and to the session's own.
fn extend_script(
    alloc: Global,
    script: &mut Script,
    counted: &mut CountedSession,
    session: SessionId,
    op: Op,
) -> Result<u32, Memory>
    requires actor { is_actor script.old (an_actor.Session session) ≡ true }
    requires fits { Fits counted.old.session.space op }
    requires few { length counted.old.session.state.calls < MOST_CALLS }
    ensures number { IfOk result (λ n. n ≡ length counted.old.session.state.calls + 1) }
    ensures script { OnOk result (script.new ≡ with_call_of script.old session op) }
    ensures called { OnOk result (HasCall counted.old counted.new op) }
    ensures same_script { OnErr result (script.new ≡ script.old) }
    ensures same { OnErr result (IsSameSession counted.old counted.new) }
{
    let place = session.0 as usize - 1;
    let mut sessions = mem::replace(&mut script.sessions, Sessions::new(alloc)).into_vec();
    let number = extend_calls(alloc, &mut sessions[place], counted, op);
    script.sessions = Sessions::from_vec(sessions);
    number
}

/// Appends a call to a list of calls, and to those of a session.
fn extend_calls(
    alloc: Global,
    calls: &mut Calls,
    counted: &mut CountedSession,
    op: Op,
) -> Result<u32, Memory>
    requires fits { Fits counted.old.session.space op }
    requires few { length counted.old.session.state.calls < MOST_CALLS }
    ensures number { IfOk result (λ n. n ≡ length counted.old.session.state.calls + 1) }
    ensures calls { OnOk result (calls.new ≡ calls.old ++ op ∷ []) }
    ensures called { OnOk result (HasCall counted.old counted.new op) }
    ensures same_calls { OnErr result (calls.new ≡ calls.old) }
    ensures same { OnErr result (IsSameSession counted.old counted.new) }
{
    let mut list = mem::replace(calls, Calls::new(alloc)).into_vec();
    let number = extend(alloc, &mut list, counted, op);
    *calls = Calls::from_vec(list);
    number
}

/// As above, with room for the call before anything changes.
fn extend(
    alloc: Global,
    calls: &mut Vec<Op>,
    counted: &mut CountedSession,
    op: Op,
) -> Result<u32, Memory>
    requires fits { Fits counted.old.session.space op }
    requires few { length counted.old.session.state.calls < MOST_CALLS }
    ensures number { IfOk result (λ n. n ≡ length counted.old.session.state.calls + 1) }
    ensures calls { OnOk result (calls.new.items ≡ calls.old.items ++ op ∷ []) }
    ensures called { OnOk result (HasCall counted.old counted.new op) }
    ensures same_calls { OnErr result (calls.new.items ≡ calls.old.items) }
    ensures same { OnErr result (IsSameSession counted.old counted.new) }
{
    let copy = op.copy(alloc)?;
    calls.reserve(1)?;
    let number = counted.session.submit(alloc, copy)?;
    let _ = calls.push(op);
    Ok(number)
}

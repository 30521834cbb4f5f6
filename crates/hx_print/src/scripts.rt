//! Whole scripts.

ghost use Rattle.std.specs.Prelude.{◌≡◌, ◌++◌, IfOk, OnErr, OnOk};
ghost use Rattle.std.specs.List.{flat_map};
ghost use Rattle.hx_print.specs.Prefixes.{IsPrefix};
ghost use Rattle.hx_print.specs.Printing.{actor_text, call_line, caller_text, post_name, script_text, session_text, sessions_text, step_line, step_text, steps_text};

use crate::calls::put_op;
use crate::numbers::put_number;
use crate::spaces::put_space;
use crate::texts::put_bytes;
use hx_types::{Actor, Caller, Calls, Memory, Op, PostId, Script, Sessions, Space, Step, Steps};
use std::alloc::Global;

#[tactic(auto, unfolding(crate::specs::Printing::call_line))]
fn put_calls(out: &mut Vec<u8>, space: &Space, calls: &[Op]) -> Result<(), Memory>
    ensures { OnOk result
        (out.new.items ≡ out.old.items ++ flat_map (call_line space.now) calls.now) }
{
    for op in calls {
        put_op(out, space, op)?;
        put_bytes(out, b"\n")?;
    }
    Ok(())
}

#[tactic(auto, unfolding(crate::specs::Printing::session_text))]
fn put_session(out: &mut Vec<u8>, space: &Space, number: u64, calls: &Calls) -> Result<(), Memory>
    ensures { OnOk result
        (out.new.items ≡ out.old.items ++ session_text space.now number calls.now) }
{
    put_bytes(out, b"session ")?;
    put_number(out, number)?;
    put_bytes(out, b"\n")?;
    put_calls(out, space, calls.as_slice())
}

#[tactic(auto, unfolding(crate::specs::Printing::sessions_text))]
fn put_sessions(out: &mut Vec<u8>, space: &Space, sessions: &Sessions) -> Result<(), Memory>
    ensures { OnOk result
        (out.new.items ≡ out.old.items ++ sessions_text space.now 1 sessions.now) }
{
    let mut number = 1;
    let mut rest = sessions.as_slice();
    'sessions: while let Some((calls, after)) = rest.split_first() {
        put_session(out, space, number, calls)?;
        number += 1;
        rest = after;
    }
    Ok(())
}

/// Appends `c`, or `s` or `u` with the number of the server or session. It fails for want of memory
/// alone, and then what was there stays in front.
#[tactic(auto, unfolding(crate::specs::Printing::actor_text), using(crate::proofs::Prefixes::same, crate::proofs::Prefixes::further))]
pub fn put_actor(out: &mut Vec<u8>, actor: &Actor) -> Result<(), Memory>
    ensures appends { OnOk result (out.new.items ≡ out.old.items ++ actor_text actor.now) }
    ensures prefix { OnErr result (IsPrefix out.old.items out.new.items) }
{
    match actor {
        Actor::Coordinator => put_bytes(out, b"c"),
        Actor::Server(server) => {
            put_bytes(out, b"s")?;
            put_number(out, u64::from(server.0))
        }
        Actor::Session(session) => {
            put_bytes(out, b"u")?;
            put_number(out, u64::from(session.0))
        }
    }
}

/// Appends `u` with the number of the session, a dot, and the number of the call. It fails for want
/// of memory alone, and then what was there stays in front.
#[tactic(auto, unfolding(crate::specs::Printing::caller_text), using(crate::proofs::Prefixes::same, crate::proofs::Prefixes::further))]
pub fn put_call_name(out: &mut Vec<u8>, session: u64, number: u64) -> Result<(), Memory>
    ensures appends { OnOk result (out.new.items ≡ out.old.items ++ caller_text (record { session = record { 0 = session }; number = number })) }
    ensures prefix { OnErr result (IsPrefix out.old.items out.new.items) }
{
    put_bytes(out, b"u")?;
    put_number(out, session)?;
    put_bytes(out, b".")?;
    put_number(out, number)
}

/// Appends the name of a call by its caller, as [`put_call_name`] does. It fails for want of memory
/// alone, and then what was there stays in front.
#[tactic(auto, using(crate::proofs::Prefixes::same, crate::proofs::Prefixes::further))]
pub fn put_caller(out: &mut Vec<u8>, caller: &Caller) -> Result<(), Memory>
    ensures appends { OnOk result (out.new.items ≡ out.old.items ++ caller_text caller.now) }
    ensures prefix { OnErr result (IsPrefix out.old.items out.new.items) }
{
    put_call_name(out, u64::from(caller.session.0), u64::from(caller.number))
}

/// Appends the entry and the place of a post with a dot between them. It fails for want of memory
/// alone, and then what was there stays in front.
#[tactic(auto, unfolding(crate::specs::Printing::post_name), using(crate::proofs::Prefixes::same, crate::proofs::Prefixes::further))]
pub fn put_post_name(out: &mut Vec<u8>, id: &PostId) -> Result<(), Memory>
    ensures appends { OnOk result (out.new.items ≡ out.old.items ++ post_name id.now) }
    ensures prefix { OnErr result (IsPrefix out.old.items out.new.items) }
{
    put_number(out, id.entry)?;
    put_bytes(out, b".")?;
    put_number(out, u64::from(id.place))
}

#[tactic(auto, unfolding(crate::specs::Printing::step_text))]
fn put_step(out: &mut Vec<u8>, step: &Step) -> Result<(), Memory>
    ensures { OnOk result (out.new.items ≡ out.old.items ++ step_text step.now) }
{
    match step {
        Step::Deliver(id) => {
            put_bytes(out, b"deliver ")?;
            put_post_name(out, id)
        }
        Step::Tick(actor) => {
            put_bytes(out, b"tick ")?;
            put_actor(out, actor)
        }
        Step::Halt(actor) => {
            put_bytes(out, b"halt ")?;
            put_actor(out, actor)
        }
    }
}

#[tactic(auto, unfolding(crate::specs::Printing::step_line))]
fn put_step_lines(out: &mut Vec<u8>, steps: &[(u64, Step)]) -> Result<(), Memory>
    ensures { OnOk result (out.new.items ≡ out.old.items ++ flat_map step_line steps.now) }
{
    for (_, step) in steps {
        put_step(out, step)?;
        put_bytes(out, b"\n")?;
    }
    Ok(())
}

#[tactic(auto, unfolding(crate::specs::Printing::steps_text))]
fn put_steps(out: &mut Vec<u8>, steps: &Steps) -> Result<(), Memory>
    ensures { OnOk result (out.new.items ≡ out.old.items ++ steps_text steps.now) }
{
    if steps.is_empty() {
        return Ok(());
    }
    put_bytes(out, b"steps\n")?;
    put_step_lines(out, steps.as_slice())
}

/// The plain text of a script. The line numbers of its steps aren't part of it, and where there
/// are no steps the line `steps` is left out. It fails for want of memory alone.
#[tactic(auto, unfolding(crate::specs::Printing::script_text))]
pub fn print(alloc: Global, script: &Script) -> Result<Vec<u8>, Memory>
    ensures { IfOk result (λ bytes. bytes.items ≡ script_text script.now) }
{
    let mut out = Vec::new(alloc);
    put_bytes(&mut out, b"hx 1\n")?;
    put_space(&mut out, &script.space)?;
    put_sessions(&mut out, &script.space, &script.sessions)?;
    put_steps(&mut out, &script.steps)?;
    Ok(out)
}

//! Scripts of several spaces.

ghost use Rattle.std.specs.Prelude.{◌≡◌, ◌++◌, ◌<◌, ◌≤◌, IfOk, OnOk, length, map};
ghost use Rattle.hx_types.specs.declared.calls.Op.TheVariants.{Cput};
ghost use Rattle.hx_types.specs.declared.limits.TheConstants.{MOST_SESSIONS};
ghost use Rattle.std.specs.List.{All, flat_map};
ghost use Rattle.hx_bundle.specs.Bundles.{IsBundle};
ghost use Rattle.hx_print.specs.BundlePrinting.{TakesTurn, bundle_session_text, bundle_sessions_text, bundle_steps_text, bundle_text, call_line_in, hands_of, op_rest, op_word, own_lines, own_text, shared_text, space_call_line, space_step_line, step_line_in, step_rest, step_word, turns_text};

use crate::calls::{put_assigns, put_edits, put_terms};
use crate::numbers::put_number;
use crate::scripts::{put_actor, put_post_name};
use crate::spaces::{
    put_attributes, put_key_line, put_servers_line, put_space_line, put_subspaces,
    put_tolerate_line,
};
use crate::texts::{put_bytes, put_text};
use hx_bundle::{Bundle, BundleStep, Turns};
use hx_types::{Assigns, Memory, Op, Script, SessionId, Space, Step, Text};
use std::alloc::Global;

fn op_word(op: &Op) -> &'static [u8]
    ensures { result.now ≡ op_word op.now }
{
    match op {
        Op::Put { .. } => b"put".as_slice(),
        Op::Get { .. } => b"get".as_slice(),
        Op::Del { .. } => b"del".as_slice(),
        Op::Cput { .. } => b"cput".as_slice(),
        Op::Search { .. } => b"search".as_slice(),
        Op::Stop { .. } => b"stop".as_slice(),
        Op::Add { .. } => b"add".as_slice(),
        Op::Atomic { .. } => b"atomic".as_slice(),
    }
}

/// Appends the key of a test and write, its tests and its assignments.
#[tactic(auto, unfolding(crate::specs::BundlePrinting::op_rest))]
fn put_cput_rest(
    out: &mut Vec<u8>,
    space: &Space,
    key: &Text,
    tests: &Assigns,
    sets: &Assigns,
) -> Result<(), Memory>
    ensures { OnOk result (out.new.items ≡ out.old.items ++ op_rest space.now (Cput key.now tests.now sets.now)) }
{
    put_bytes(out, b" ")?;
    put_text(out, key)?;
    put_bytes(out, b" if")?;
    put_assigns(out, space, tests)?;
    put_bytes(out, b" set")?;
    put_assigns(out, space, sets)
}

/// Appends what stands behind the first word of a call.
#[tactic(auto, unfolding(crate::specs::BundlePrinting::op_rest))]
fn put_op_rest(out: &mut Vec<u8>, space: &Space, op: &Op) -> Result<(), Memory>
    ensures { OnOk result (out.new.items ≡ out.old.items ++ op_rest space.now op.now) }
{
    match op {
        Op::Put { key, sets } => {
            put_bytes(out, b" ")?;
            put_text(out, key)?;
            put_assigns(out, space, sets)
        }
        Op::Get { key } | Op::Del { key } => {
            put_bytes(out, b" ")?;
            put_text(out, key)
        }
        Op::Cput { key, tests, sets } => put_cput_rest(out, space, key, tests, sets),
        Op::Search { terms } => put_terms(out, space, terms),
        Op::Stop { server } => {
            put_bytes(out, b" ")?;
            put_number(out, u64::from(server.0))
        }
        Op::Add { server, region } => {
            put_bytes(out, b" ")?;
            put_number(out, u64::from(server.0))?;
            put_bytes(out, b" ")?;
            put_number(out, u64::from(region.0))
        }
        Op::Atomic { key, edits } => {
            put_bytes(out, b" ")?;
            put_text(out, key)?;
            put_edits(out, space, edits)
        }
    }
}

#[tactic(auto, unfolding(crate::specs::BundlePrinting::space_call_line))]
fn put_call(out: &mut Vec<u8>, space: &Space, op: &Op) -> Result<(), Memory>
    ensures { OnOk result (out.new.items ≡ out.old.items ++ space_call_line space.now op.now) }
{
    put_bytes(out, op_word(op))?;
    put_bytes(out, b" ")?;
    put_bytes(out, space.name.as_bytes())?;
    put_op_rest(out, space, op)?;
    put_bytes(out, b"\n")
}

fn put_call_in(out: &mut Vec<u8>, spaces: &[Script], place: usize, op: &Op) -> Result<(), Memory>
    ensures { OnOk result (out.new.items ≡ out.old.items ++ call_line_in spaces.now (place, op.now)) }
{
    match spaces.get(place) {
        Some(script) => put_call(out, &script.space, op),
        None => Ok(()),
    }
}

/// The calls of a session to each space.
fn hands_of<'a>(
    alloc: Global,
    spaces: &'a [Script],
    session: SessionId,
) -> Result<Vec<&'a [Op]>, Memory>
    ensures { IfOk result (λ hands. map (λ h. h.now) hands.items ≡ hands_of spaces.now session.0) }
{
    let mut hands = Vec::with_capacity(alloc, spaces.len())?;
    for script in spaces {
        hands.push(script.calls(session))?;
    }
    Ok(hands)
}

/// Appends the next call of a turn, and takes it from the calls that are left.
fn put_turn<'a>(
    out: &mut Vec<u8>,
    spaces: &[Script],
    hands: &mut Vec<&'a [Op]>,
    place: usize,
) -> Result<(), Memory>
    requires { place < length hands.old.items }
    ensures { OnOk result (TakesTurn spaces.now place (map (λ h. h.now) hands.old.items) (map (λ h. h.now) hands.new.items) out.old.items out.new.items) }
{
    let hand: &'a [Op] = hands[place];
    match hand.split_first() {
        None => Ok(()),
        Some((op, rest)) => {
            put_call_in(out, spaces, place, op)?;
            hands[place] = rest;
            Ok(())
        }
    }
}

/// Appends the calls of a session in the order of its turns.
fn put_turns<'a>(
    out: &mut Vec<u8>,
    spaces: &[Script],
    hands: &mut Vec<&'a [Op]>,
    turns: &[u32],
) -> Result<(), Memory>
    requires { All (λ k. k < length hands.old.items) turns.now }
    ensures { OnOk result (out.new.items ≡ out.old.items ++ turns_text spaces.now (map (λ h. h.now) hands.old.items) turns.now) }
{
    let mut rest = turns;
    'turns: while let Some((space, after)) = rest.split_first() {
        put_turn(out, spaces, hands, *space as usize)?;
        rest = after;
    }
    Ok(())
}

#[tactic(auto, unfolding(crate::specs::BundlePrinting::bundle_session_text))]
fn put_session(
    alloc: Global,
    out: &mut Vec<u8>,
    spaces: &[Script],
    number: u32,
    turns: &[u32],
) -> Result<(), Memory>
    requires { All (λ k. k < length spaces.now) turns.now }
    ensures { OnOk result (out.new.items ≡ out.old.items ++ bundle_session_text spaces.now number turns.now) }
{
    put_bytes(out, b"session ")?;
    put_number(out, u64::from(number))?;
    put_bytes(out, b"\n")?;
    let mut hands = hands_of(alloc, spaces, SessionId(number))?;
    put_turns(out, spaces, &mut hands, turns)
}

#[tactic(auto, unfolding(crate::specs::BundlePrinting::bundle_sessions_text))]
fn put_sessions(
    alloc: Global,
    out: &mut Vec<u8>,
    spaces: &[Script],
    sessions: &Turns,
) -> Result<(), Memory>
    requires few { length sessions.now ≤ MOST_SESSIONS }
    requires turns { All (λ turns. All (λ k. k < length spaces.now) turns) sessions.now }
    ensures { OnOk result (out.new.items ≡ out.old.items ++ bundle_sessions_text spaces.now 1 sessions.now) }
{
    let mut number = 1;
    let mut rest = sessions.as_slice();
    'sessions: while let Some((turns, after)) = rest.split_first() {
        put_session(alloc, out, spaces, number, turns.as_slice())?;
        number += 1;
        rest = after;
    }
    Ok(())
}

fn step_word(step: &Step) -> &'static [u8]
    ensures { result.now ≡ step_word step.now }
{
    match step {
        Step::Deliver(_) => b"deliver".as_slice(),
        Step::Tick(_) => b"tick".as_slice(),
        Step::Halt(_) => b"halt".as_slice(),
    }
}

#[tactic(auto, unfolding(crate::specs::BundlePrinting::step_rest))]
fn put_step_rest(out: &mut Vec<u8>, step: &Step) -> Result<(), Memory>
    ensures { OnOk result (out.new.items ≡ out.old.items ++ step_rest step.now) }
{
    match step {
        Step::Deliver(id) => put_post_name(out, id),
        Step::Tick(actor) | Step::Halt(actor) => put_actor(out, actor),
    }
}

#[tactic(auto, unfolding(crate::specs::BundlePrinting::space_step_line))]
fn put_step(out: &mut Vec<u8>, name: &[u8], step: &Step) -> Result<(), Memory>
    ensures { OnOk result (out.new.items ≡ out.old.items ++ space_step_line name.now step.now) }
{
    put_bytes(out, step_word(step))?;
    put_bytes(out, b" ")?;
    put_bytes(out, name)?;
    put_bytes(out, b" ")?;
    put_step_rest(out, step)?;
    put_bytes(out, b"\n")
}

fn put_step_in(out: &mut Vec<u8>, spaces: &[Script], step: &BundleStep) -> Result<(), Memory>
    ensures { OnOk result (out.new.items ≡ out.old.items ++ step_line_in spaces.now step.now) }
{
    match spaces.get(step.space as usize) {
        Some(script) => put_step(out, script.space.name.as_bytes(), &step.step),
        None => Ok(()),
    }
}

fn put_step_lines(out: &mut Vec<u8>, spaces: &[Script], steps: &[BundleStep]) -> Result<(), Memory>
    ensures { OnOk result (out.new.items ≡ out.old.items ++ flat_map (step_line_in spaces.now) steps.now) }
{
    for step in steps {
        put_step_in(out, spaces, step)?;
    }
    Ok(())
}

#[tactic(auto, unfolding(crate::specs::BundlePrinting::bundle_steps_text))]
fn put_steps(out: &mut Vec<u8>, spaces: &[Script], steps: &[BundleStep]) -> Result<(), Memory>
    ensures { OnOk result (out.new.items ≡ out.old.items ++ bundle_steps_text spaces.now steps.now) }
{
    if steps.is_empty() {
        return Ok(());
    }
    put_bytes(out, b"steps\n")?;
    put_step_lines(out, spaces, steps)
}

/// Appends how many servers the spaces have, and how many failures they tolerate.
#[tactic(auto, unfolding(crate::specs::BundlePrinting::shared_text))]
fn put_shared(out: &mut Vec<u8>, spaces: &[Script]) -> Result<(), Memory>
    ensures { OnOk result (out.new.items ≡ out.old.items ++ shared_text spaces.now) }
{
    let Some(first) = spaces.first() else {
        return Ok(());
    };
    put_servers_line(out, first.space.servers)?;
    put_tolerate_line(out, first.space.tolerate)
}

/// Appends the lines of a space that are its own.
#[tactic(auto, unfolding(crate::specs::BundlePrinting::own_text))]
fn put_own(out: &mut Vec<u8>, space: &Space) -> Result<(), Memory>
    ensures { OnOk result (out.new.items ≡ out.old.items ++ own_text space.now) }
{
    put_space_line(out, space.name.as_bytes())?;
    put_key_line(out, space.key_name.as_bytes(), space.key_parts)?;
    put_attributes(out, &space.attributes)?;
    put_subspaces(out, space, &space.subspaces)
}

fn put_spaces(out: &mut Vec<u8>, spaces: &[Script]) -> Result<(), Memory>
    ensures { OnOk result (out.new.items ≡ out.old.items ++ flat_map own_lines spaces.now) }
{
    for script in spaces {
        put_own(out, &script.space)?;
    }
    Ok(())
}

/// The plain text of a bundle, as a script of several spaces, even where there is one. The line
/// numbers of its steps aren't part of it, and where there are no steps the line `steps` is left
/// out. It fails for want of memory alone.
#[tactic(auto, unfolding(crate::specs::BundlePrinting::bundle_text))]
pub fn print_bundle(alloc: Global, bundle: &Bundle) -> Result<Vec<u8>, Memory>
    requires { IsBundle bundle.now }
    ensures { IfOk result (λ bytes. bytes.items ≡ bundle_text bundle.now) }
{
    let spaces = bundle.spaces.as_slice();
    let mut out = Vec::new(alloc);
    put_bytes(&mut out, b"hx 2\n")?;
    put_shared(&mut out, spaces)?;
    put_spaces(&mut out, spaces)?;
    put_sessions(alloc, &mut out, spaces, &bundle.turns)?;
    put_steps(&mut out, spaces, bundle.steps.as_slice())?;
    Ok(out)
}

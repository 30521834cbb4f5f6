//! Calls and steps, each on a line of its own.

ghost use Rattle.std.specs.Prelude.{◌≡◌, ◌≤◌, length};
ghost use Rattle.hx_types.specs.declared.limits.TheConstants.{MOST_ATTRIBUTES};
ghost use Rattle.hx_script.specs.Readers.{Reads};
ghost use Rattle.hx_script.specs.Calls.{put, get, del, cput, search_call, stop, add, atomic, call, deliver, tick, halt, step};

use crate::actors::actor;
use crate::edits::some_edits;
use crate::errors::Stop;
use crate::keyword::{CallWord, StepWord};
use crate::line::{Line, Until};
use crate::values::{all_terms, more_assigns, short_text, some_assigns};
use hx_types::{Assigns, Edits, Op, PostId, RegionId, ServerId, Space, Step, Terms};
use std::alloc::Global;

#[tactic(auto, unfolding(crate::specs::Calls::put))]
fn put(alloc: Global, space: &Space, line: &mut Line<'_>) -> Result<Op, Stop>
    requires few { length space.now.attributes ≤ MOST_ATTRIBUTES }
    ensures { Reads (λ op. op) result line.new (put space.now line.old) }
{
    let key = short_text(alloc, line)?;
    let mut sets = Assigns::new(alloc);
    more_assigns(alloc, space, Until::End, &mut sets, line)?;
    Ok(Op::Put { key, sets })
}

#[tactic(auto, unfolding(crate::specs::Calls::get))]
fn get(alloc: Global, line: &mut Line<'_>) -> Result<Op, Stop>
    ensures { Reads (λ op. op) result line.new (get line.old) }
{
    let key = short_text(alloc, line)?;
    line.end()?;
    Ok(Op::Get { key })
}

#[tactic(auto, unfolding(crate::specs::Calls::del))]
fn del(alloc: Global, line: &mut Line<'_>) -> Result<Op, Stop>
    ensures { Reads (λ op. op) result line.new (del line.old) }
{
    let key = short_text(alloc, line)?;
    line.end()?;
    Ok(Op::Del { key })
}

#[tactic(auto, unfolding(crate::specs::Calls::cput))]
fn cput(alloc: Global, space: &Space, line: &mut Line<'_>) -> Result<Op, Stop>
    requires few { length space.now.attributes ≤ MOST_ATTRIBUTES }
    ensures { Reads (λ op. op) result line.new (cput space.now line.old) }
{
    let key = short_text(alloc, line)?;
    line.fixed(b"if")?;
    let mut tests = Assigns::new(alloc);
    some_assigns(alloc, space, Until::Set, &mut tests, line)?;
    line.fixed(b"set")?;
    let mut sets = Assigns::new(alloc);
    some_assigns(alloc, space, Until::End, &mut sets, line)?;
    Ok(Op::Cput { key, tests, sets })
}

#[tactic(auto, unfolding(crate::specs::Calls::search_call))]
fn search(alloc: Global, space: &Space, line: &mut Line<'_>) -> Result<Op, Stop>
    requires few { length space.now.attributes ≤ MOST_ATTRIBUTES }
    ensures { Reads (λ op. op) result line.new (search_call space.now line.old) }
{
    let mut terms = Terms::new(alloc);
    all_terms(alloc, space, &mut terms, line)?;
    Ok(Op::Search { terms })
}

#[tactic(auto, unfolding(crate::specs::Calls::stop))]
fn stop(space: &Space, line: &mut Line<'_>) -> Result<Op, Stop>
    ensures { Reads (λ op. op) result line.new (stop space.now line.old) }
{
    let server = ServerId(line.number_in(1, space.servers)?);
    line.end()?;
    Ok(Op::Stop { server })
}

#[tactic(auto, unfolding(crate::specs::Calls::add))]
fn add(space: &Space, regions: u32, line: &mut Line<'_>) -> Result<Op, Stop>
    ensures { Reads (λ op. op) result line.new (add space.now regions line.old) }
{
    let server = ServerId(line.number_in(1, space.servers)?);
    let region = RegionId(line.number_in(0, regions.saturating_sub(1))?);
    line.end()?;
    Ok(Op::Add { server, region })
}

#[tactic(auto, unfolding(crate::specs::Calls::atomic))]
fn atomic(alloc: Global, space: &Space, line: &mut Line<'_>) -> Result<Op, Stop>
    requires few { length space.now.attributes ≤ MOST_ATTRIBUTES }
    ensures { Reads (λ op. op) result line.new (atomic space.now line.old) }
{
    let key = short_text(alloc, line)?;
    let mut edits = Edits::new(alloc);
    some_edits(alloc, space, &mut edits, line)?;
    Ok(Op::Atomic { key, edits })
}

/// The call that a word begins, in a space with so many regions.
pub(crate) fn call(
    alloc: Global,
    space: &Space,
    regions: u32,
    word: CallWord,
    line: &mut Line<'_>,
) -> Result<Op, Stop>
    requires few { length space.now.attributes ≤ MOST_ATTRIBUTES }
    ensures { Reads (λ op. op) result line.new (call space.now regions word line.old) }
{
    match word {
        CallWord::Put => put(alloc, space, line),
        CallWord::Get => get(alloc, line),
        CallWord::Del => del(alloc, line),
        CallWord::Cput => cput(alloc, space, line),
        CallWord::Search => search(alloc, space, line),
        CallWord::Stop => stop(space, line),
        CallWord::Add => add(space, regions, line),
        CallWord::Atomic => atomic(alloc, space, line),
    }
}

#[tactic(auto, unfolding(crate::specs::Calls::deliver))]
fn deliver(line: &mut Line<'_>) -> Result<Step, Stop>
    ensures { Reads (λ step. step) result line.new (deliver line.old) }
{
    let entry = line.natural()?;
    line.sign(b".")?;
    let place = line.number_in(0, u32::MAX)?;
    line.end()?;
    Ok(Step::Deliver(PostId { entry, place }))
}

#[tactic(auto, unfolding(crate::specs::Calls::tick))]
fn tick(servers: u32, sessions: u32, line: &mut Line<'_>) -> Result<Step, Stop>
    ensures { Reads (λ step. step) result line.new (tick servers sessions line.old) }
{
    let actor = actor(servers, sessions, line)?;
    line.end()?;
    Ok(Step::Tick(actor))
}

#[tactic(auto, unfolding(crate::specs::Calls::halt))]
fn halt(servers: u32, sessions: u32, line: &mut Line<'_>) -> Result<Step, Stop>
    ensures { Reads (λ step. step) result line.new (halt servers sessions line.old) }
{
    let actor = actor(servers, sessions, line)?;
    line.end()?;
    Ok(Step::Halt(actor))
}

/// The step that a word begins, with so many servers and sessions.
pub(crate) fn step(
    servers: u32,
    sessions: u32,
    word: StepWord,
    line: &mut Line<'_>,
) -> Result<Step, Stop>
    ensures { Reads (λ step. step) result line.new (step servers sessions word line.old) }
{
    match word {
        StepWord::Deliver => deliver(line),
        StepWord::Tick => tick(servers, sessions, line),
        StepWord::Halt => halt(servers, sessions, line),
    }
}

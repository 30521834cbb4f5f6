//! The steps of one role each, with lists that are lent.
ghost use Rattle.std.specs.Prelude.{◌≡◌, ◌++◌, IfOk, OnOk};
ghost use Rattle.hx_types.specs.declared.traces.Input.TheVariants as an_input;
ghost use Rattle.hx_law_folds.specs.Folding.{folded_server};
ghost use Rattle.hx_model.specs.CoordinatorSteps.{coordinator_step};
ghost use Rattle.hx_model.specs.ServerSteps.{server_step};
ghost use Rattle.hx_model.specs.SessionSteps.{session_step};
ghost use Rattle.hx_coord.specs.Changes.{IsPlanOn as IsCoordinatorPlan};
ghost use Rattle.hx_coord.specs.Coordinators.{CanTake as CoordinatorCanTake};
ghost use Rattle.hx_replica.specs.Plans.{IsChange as IsServerChange};
ghost use Rattle.hx_replica.specs.Servers.{CanTake as ServerCanTake};
ghost use Rattle.hx_session.specs.Changes.{IsChangeOn as IsSessionChange};
ghost use Rattle.hx_session.specs.Sessions.{CanTake as SessionCanTake};

use hx_coord::Coordinator;
use hx_replica::Server;
use hx_session::Session;
use hx_types::{Exact, Input, Memory, Notes, Posts};
use std::alloc::Global;

/// Computes a step of the coordinator, with copies of the input and of what it posts and notes. Its
/// plan is large and rare, so it is boxed, in a function of its own.
#[cold]
#[inline(never)]
pub fn coordinator_steps(
    coordinator: &mut Coordinator,
    alloc: Global,
    input: &Input,
    posts: &mut Posts,
    notes: &mut Notes,
) -> Result<Box<hx_coord::Plan>, Memory>
    requires { CoordinatorCanTake coordinator.old input.now }
    ensures plan { IfOk result (λ plan. IsCoordinatorPlan coordinator.new plan.value) }
    ensures input { IfOk result (λ plan. plan.value.entry.input ≡ input.now) }
    ensures posts { OnOk result (posts.new ≡ posts.old ++ (coordinator_step coordinator.old input.now).posts) }
    ensures notes { OnOk result (notes.new ≡ notes.old ++ (coordinator_step coordinator.old input.now).notes) }
    ensures state { coordinator.new ≡ coordinator.old }
{
    let input = input.copy(alloc)?;
    let Ok(plan) = prepare_boxed(coordinator, alloc, input) else {
        return Err(Memory);
    };
    add_copies(alloc, &plan, posts, notes)?;
    Ok(plan)
}

/// Computes a step of the coordinator.
fn prepare_boxed(
    coordinator: &mut Coordinator,
    alloc: Global,
    input: Input,
) -> Result<Box<hx_coord::Plan>, Memory>
    requires { CoordinatorCanTake coordinator.old input }
    ensures plan { IfOk result (λ plan. IsCoordinatorPlan coordinator.new plan.value) }
    ensures input { IfOk result (λ plan. plan.value.entry.input ≡ input) }
    ensures state { coordinator.new ≡ coordinator.old }
{
    let Ok(plan) = coordinator.prepare(alloc, input) else {
        return Err(Memory);
    };
    Ok(Box::new(alloc, plan)?)
}

/// Adds copies of what a plan of the coordinator posts and notes.
fn add_copies(
    alloc: Global,
    plan: &hx_coord::Plan,
    posts: &mut Posts,
    notes: &mut Notes,
) -> Result<(), Memory>
    ensures posts { OnOk result (posts.new ≡ posts.old ++ plan.now.entry.outputs) }
    ensures notes { OnOk result (notes.new ≡ notes.old ++ plan.now.entry.notes) }
{
    let entry = plan.entry();
    posts.append(entry.outputs.copy(alloc)?)?;
    notes.append(entry.notes.copy(alloc)?)
}

/// Makes a step of the coordinator, as it was computed of it. It takes no memory.
#[cold]
#[inline(never)]
pub fn coordinator_makes(coordinator: &mut Coordinator, plan: Box<hx_coord::Plan>)
    requires { IsCoordinatorPlan coordinator.old plan.value }
    ensures { coordinator.new ≡ (coordinator_step coordinator.old plan.value.entry.input).state }
{
    drop(coordinator.apply(Box::into_inner(plan)));
}

/// Computes a step of a server that has no past. Nothing but the room for further updates changes.
#[inline]
pub fn server_steps(
    server: &mut Server,
    alloc: Global,
    input: &Input,
    posts: &mut Posts,
    notes: &mut Notes,
) -> Result<hx_replica::Change, Memory>
    requires can { ServerCanTake server.old.space server.old.state input.now }
    requires bare { folded_server server.old.state ≡ server.old.state }
    ensures change { IfOk result (IsServerChange server.new (server_step server.old.space server.old.state input.now).state) }
    ensures posts { OnOk result (posts.new ≡ posts.old ++ (server_step server.old.space server.old.state input.now).posts) }
    ensures notes { OnOk result (notes.new ≡ notes.old ++ (server_step server.old.space server.old.state input.now).notes) }
    ensures space { server.new.space ≡ server.old.space }
    ensures state { server.new.state ≡ server.old.state }
{
    match input {
        Input::Deliver { from, message, .. } => server.hear(alloc, *from, message, posts, notes),
        Input::Tick => server_ticks(server, alloc, posts, notes),
        Input::Halt => server_halts(server, alloc, posts, notes),
    }
}

/// Computes the step of a server's own turn, which changes nothing.
#[cold]
#[inline(never)]
fn server_ticks(
    server: &mut Server,
    alloc: Global,
    posts: &mut Posts,
    notes: &mut Notes,
) -> Result<hx_replica::Change, Memory>
    requires can { ServerCanTake server.old.space server.old.state an_input.Tick }
    requires bare { folded_server server.old.state ≡ server.old.state }
    ensures change { IfOk result (IsServerChange server.new (server_step server.old.space server.old.state an_input.Tick).state) }
    ensures posts { OnOk result (posts.new ≡ posts.old ++ (server_step server.old.space server.old.state an_input.Tick).posts) }
    ensures notes { OnOk result (notes.new ≡ notes.old ++ (server_step server.old.space server.old.state an_input.Tick).notes) }
    ensures space { server.new.space ≡ server.old.space }
    ensures state { server.new.state ≡ server.old.state }
{
    move_plan(server, alloc, Input::Tick, posts, notes)?;
    Ok(hx_replica::Change::Nothing)
}

/// Computes the step by which a server halts.
#[cold]
#[inline(never)]
fn server_halts(
    server: &mut Server,
    alloc: Global,
    posts: &mut Posts,
    notes: &mut Notes,
) -> Result<hx_replica::Change, Memory>
    requires can { ServerCanTake server.old.space server.old.state an_input.Halt }
    requires bare { folded_server server.old.state ≡ server.old.state }
    ensures change { IfOk result (IsServerChange server.new (server_step server.old.space server.old.state an_input.Halt).state) }
    ensures posts { OnOk result (posts.new ≡ posts.old ++ (server_step server.old.space server.old.state an_input.Halt).posts) }
    ensures notes { OnOk result (notes.new ≡ notes.old ++ (server_step server.old.space server.old.state an_input.Halt).notes) }
    ensures space { server.new.space ≡ server.old.space }
    ensures state { server.new.state ≡ server.old.state }
{
    move_plan(server, alloc, Input::Halt, posts, notes)?;
    Ok(hx_replica::Change::Halt)
}

/// Computes a step of a server by a plan, and moves what it posts and notes behind what the lists
/// hold. This is for the inputs that are no message: they are rare, and what they change is known.
fn move_plan(
    server: &mut Server,
    alloc: Global,
    input: Input,
    posts: &mut Posts,
    notes: &mut Notes,
) -> Result<(), Memory>
    requires { ServerCanTake server.old.space server.old.state input }
    ensures posts { OnOk result (posts.new ≡ posts.old ++ (server_step server.old.space server.old.state input).posts) }
    ensures notes { OnOk result (notes.new ≡ notes.old ++ (server_step server.old.space server.old.state input).notes) }
    ensures space { server.new.space ≡ server.old.space }
    ensures state { server.new.state ≡ server.old.state }
{
    let Ok(plan) = server.prepare(alloc, input) else {
        return Err(Memory);
    };
    let hx_replica::Plan { entry, .. } = plan;
    let (outputs, noted) = entry.into_outputs_and_notes();
    posts.append(outputs)?;
    notes.append(noted)
}

/// Computes a step of a session. Nothing changes.
#[inline]
pub fn session_steps(
    session: &Session,
    alloc: Global,
    input: &Input,
    posts: &mut Posts,
    notes: &mut Notes,
) -> Result<hx_session::Change, Memory>
    requires { SessionCanTake session.now.space session.now.state input.now }
    ensures change { IfOk result (IsSessionChange session.now input.now) }
    ensures posts { OnOk result (posts.new ≡ posts.old ++ (session_step session.now.space session.now.state input.now).posts) }
    ensures notes { OnOk result (notes.new ≡ notes.old ++ (session_step session.now.space session.now.state input.now).notes) }
{
    match input {
        Input::Tick => session.tick(alloc, posts, notes),
        Input::Deliver { from, message, .. } => session.hear(alloc, *from, message, posts, notes),
        // Servers alone halt.
        Input::Halt => unreachable!(),
    }
}

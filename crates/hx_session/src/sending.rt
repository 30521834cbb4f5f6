ghost use Rattle.std.specs.Prelude.{◌≡◌, ◌++◌, ◌∷◌, [], ℕ, List, IfOk, OnErr, OnOk, None};
ghost use Rattle.hx_model.specs.Types.{Op as Operation};
ghost use Rattle.hx_types.specs.Configs.{head_of};
ghost use Rattle.hx_model.specs.Planning.{plan_of};
ghost use Rattle.hx_model.specs.SessionSteps.{Part as PartSeen, ask_regions, ask_to, call_to, lost_answer, send, send_to, to_coordinator};
ghost use Rattle.hx_session.specs.Changes.{Makes, asked_as, asks_posted, sender_seen};
ghost use Rattle.hx_session.specs.Lists.{Grows};

use crate::parts::{Parts, PartsChange, SearchPart};
use crate::prepared::{Change, Progress, change_nothing, end_call};
use hx_region::{RegionMap, plan};
use hx_types::{
    Actor, Answer, Config, Exact, Memory, Message, Notes, Op, Planned, Post, Posts, RegionId,
    RegionList, SessionId, Shared, Space, Terms, Version,
};
use std::alloc::Global;

/// A session as it sends its call under way, in a configuration.
#[derive(Drop)]
pub struct Sender<'a> {
    pub space: &'a Space,
    pub map: &'a RegionMap,
    pub config: &'a Config,
    pub id: SessionId,
    pub progress: Progress,
}

/// Sends the call under way.
///
/// A call on a key goes to the first member of the key's region, a search to the first member of
/// each planned region, a stop or an add to the coordinator. Where the region is lost, or a search
/// has no plan, the call ends: a write that was sent before in doubt, any other refused. That a
/// client does so by itself, with its own configuration, is HyperDex's; the two answers are this
/// project's choice. What is posted and noted goes behind what the lists have.
pub fn send(
    alloc: Global,
    sender: &Sender,
    op: &Op,
    posts: &mut Posts,
    notes: &mut Notes,
) -> Result<Change, Memory>
    requires { sender.now.map.now ≡ sender.now.space.now }
    ensures change { IfOk result (λ change. (calls : List Operation) (parts : List PartSeen) → Makes (sender_seen sender.now calls parts) (send sender.now.space.now (sender_seen sender.now calls parts) op.now) change) }
    ensures config { IfOk result (λ change. change.config ≡ None) }
    ensures posts { OnOk result ((calls : List Operation) (parts : List PartSeen) → posts.new ≡ posts.old ++ (send sender.now.space.now (sender_seen sender.now calls parts) op.now).posts) }
    ensures notes { OnOk result ((calls : List Operation) (parts : List PartSeen) → notes.new ≡ notes.old ++ (send sender.now.space.now (sender_seen sender.now calls parts) op.now).notes) }
    ensures posts_grow { OnErr result (Grows posts.old posts.new) }
    ensures notes_stay { OnErr result (notes.new ≡ notes.old) }
{
    match op {
        Op::Put { key, .. }
        | Op::Get { key }
        | Op::Del { key }
        | Op::Cput { key, .. }
        | Op::Atomic { key, .. } => {
            let region = sender.map.of_key(key);
            send_to(alloc, sender, op, region, posts, notes)
        }
        Op::Search { terms } => search(alloc, sender, terms, posts, notes),
        Op::Stop { server } => {
            let message = Message::StopServer {
                number: sender.progress.begun,
                server: *server,
            };
            to_coordinator(sender, message, posts)
        }
        Op::Add { server, region } => {
            let message = Message::AddReplica {
                number: sender.progress.begun,
                server: *server,
                region: *region,
            };
            to_coordinator(sender, message, posts)
        }
    }
}

/// A call on a key goes to the first member of the key's region.
fn send_to(
    alloc: Global,
    sender: &Sender,
    op: &Op,
    region: RegionId,
    posts: &mut Posts,
    notes: &mut Notes,
) -> Result<Change, Memory>
    ensures change { IfOk result (λ change. (calls : List Operation) (parts : List PartSeen) → Makes (sender_seen sender.now calls parts) (send_to (sender_seen sender.now calls parts) op.now region) change) }
    ensures config { IfOk result (λ change. change.config ≡ None) }
    ensures posts { OnOk result ((calls : List Operation) (parts : List PartSeen) → posts.new ≡ posts.old ++ (send_to (sender_seen sender.now calls parts) op.now region).posts) }
    ensures notes { OnOk result ((calls : List Operation) (parts : List PartSeen) → notes.new ≡ notes.old ++ (send_to (sender_seen sender.now calls parts) op.now region).notes) }
    ensures posts_stay { OnErr result (posts.new ≡ posts.old) }
    ensures notes_stay { OnErr result (notes.new ≡ notes.old) }
{
    if sender.config.is_lost(region) {
        let answer = lost_answer(sender, op, region);
        return end_call(alloc, sender.progress, Version(0), answer, notes);
    }
    call_to(alloc, sender, op, region, posts)?;
    Ok(Change {
        config: None,
        progress: Progress {
            begun: sender.progress.begun,
            under_way: sender.progress.under_way,
            sent: true,
        },
        parts: PartsChange::Stay,
    })
}

/// What a call on a key of a lost region is answered.
fn lost_answer(sender: &Sender, op: &Op, region: RegionId) -> Answer
    ensures { result ≡ lost_answer (sender_seen sender.now [] []) op.now region }
{
    let epoch = sender.config.epoch;
    if op.is_write() && sender.progress.sent {
        Answer::Doubt { region, epoch }
    } else {
        Answer::Refused { region, epoch }
    }
}

/// The post of a call to the first member of a region.
fn call_to(
    alloc: Global,
    sender: &Sender,
    op: &Op,
    region: RegionId,
    posts: &mut Posts,
) -> Result<(), Memory>
    ensures posts { OnOk result (posts.new ≡ posts.old ++ call_to (sender_seen sender.now [] []) op.now (head_of sender.now.config.now region)) }
    ensures posts_stay { OnErr result (posts.new ≡ posts.old) }
{
    if let Some(server) = sender.config.head(region) {
        posts.push(Post {
            from: Actor::Session(sender.id),
            to: Actor::Server(server),
            message: Message::Call {
                epoch: sender.config.epoch,
                number: sender.progress.begun,
                op: Shared::new(alloc, op.copy(alloc)?)?,
            },
        })?;
    }
    Ok(())
}

/// The coordinator is asked.
#[cold]
#[inline(never)]
fn to_coordinator(sender: &Sender, message: Message, posts: &mut Posts) -> Result<Change, Memory>
    ensures change { IfOk result (λ change. (calls : List Operation) (parts : List PartSeen) → Makes (sender_seen sender.now calls parts) (to_coordinator (sender_seen sender.now calls parts) message) change) }
    ensures config { IfOk result (λ change. change.config ≡ None) }
    ensures posts { OnOk result ((calls : List Operation) (parts : List PartSeen) → posts.new ≡ posts.old ++ (to_coordinator (sender_seen sender.now calls parts) message).posts) }
    ensures posts_stay { OnErr result (posts.new ≡ posts.old) }
{
    posts.push(Post {
        from: Actor::Session(sender.id),
        to: Actor::Coordinator,
        message,
    })?;
    Ok(change_nothing(sender.progress))
}

/// A search asks the regions of its plan, or ends where it has none.
#[inline(never)]
fn search(
    alloc: Global,
    sender: &Sender,
    terms: &Terms,
    posts: &mut Posts,
    notes: &mut Notes,
) -> Result<Change, Memory>
    requires { sender.now.map.now ≡ sender.now.space.now }
    ensures change { IfOk result (λ change. (calls : List Operation) (parts : List PartSeen) → Makes (sender_seen sender.now calls parts) (ask_regions (sender_seen sender.now calls parts) terms.now (plan_of sender.now.space.now sender.now.config.now terms.now)) change) }
    ensures config { IfOk result (λ change. change.config ≡ None) }
    ensures posts { OnOk result ((calls : List Operation) (parts : List PartSeen) → posts.new ≡ posts.old ++ (ask_regions (sender_seen sender.now calls parts) terms.now (plan_of sender.now.space.now sender.now.config.now terms.now)).posts) }
    ensures notes { OnOk result ((calls : List Operation) (parts : List PartSeen) → notes.new ≡ notes.old ++ (ask_regions (sender_seen sender.now calls parts) terms.now (plan_of sender.now.space.now sender.now.config.now terms.now)).notes) }
    ensures posts_grow { OnErr result (Grows posts.old posts.new) }
    ensures notes_stay { OnErr result (notes.new ≡ notes.old) }
{
    match plan(alloc, sender.map, sender.config, terms)? {
        Planned::Regions { regions, .. } => ask_regions(alloc, sender, terms, &regions, posts),
        Planned::Lost(region) => {
            let epoch = sender.config.epoch;
            let answer = Answer::Refused { region, epoch };
            end_call(alloc, sender.progress, Version(0), answer, notes)
        }
    }
}

/// The first member of each region is asked, and no region has answered yet.
fn ask_regions(
    alloc: Global,
    sender: &Sender,
    terms: &Terms,
    regions: &RegionList,
    posts: &mut Posts,
) -> Result<Change, Memory>
    ensures change { IfOk result (λ change. change ≡ asked_as sender.now.progress regions.now) }
    ensures posts { OnOk result (posts.new ≡ posts.old ++ asks_posted sender.now terms.now regions.now) }
    ensures posts_grow { OnErr result (Grows posts.old posts.new) }
{
    let mut parts = Parts::with_capacity(alloc, regions.len())?;
    for region in regions.as_slice() {
        ask(alloc, sender, terms, *region, posts)?;
        parts.push(SearchPart {
            region: *region,
            rows: None,
        })?;
    }
    Ok(Change {
        config: None,
        progress: sender.progress,
        parts: PartsChange::Replace(parts),
    })
}

/// One more post: the first member of a region is asked.
fn ask(
    alloc: Global,
    sender: &Sender,
    terms: &Terms,
    region: RegionId,
    posts: &mut Posts,
) -> Result<(), Memory>
    ensures posts { OnOk result (posts.new ≡ posts.old ++ ask_to (sender_seen sender.now [] []) terms.now region (head_of sender.now.config.now region)) }
    ensures posts_stay { OnErr result (posts.new ≡ posts.old) }
{
    if let Some(server) = sender.config.head(region) {
        posts.push(Post {
            from: Actor::Session(sender.id),
            to: Actor::Server(server),
            message: Message::Ask {
                epoch: sender.config.epoch,
                number: sender.progress.begun,
                region,
                terms: terms.copy(alloc)?,
            },
        })?;
    }
    Ok(())
}

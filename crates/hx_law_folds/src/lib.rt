//! Slots without their past: folding the committed updates of a slot into its base changes nothing
//! of what the slot shows, answers, decides and posts; and a snapshot is such a fold.
//!
//! To keep a base in place of the past is this project's choice.
#![tactic(auto)]

ghost use Rattle.hx_law_folds.specs.Laws.{AcksFold, AdoptingFolds, CallsFold, CommitsFold, FoldedIsSlot, FoldingTwice, FoldsAnswerSame, FoldsJoin, FoldsShowSame, InstallsFold, JoinersFold, LeanSlotsStand, MovesFold, OffersStayBare, PrefixesFold, PrefixesShowLine, ReplicasSend, ServersFold, ServersStay, SnapshotsFold, SoundMessagesFit, SoundMessagesJoin, StartsJoinable, StaysJoinable, TracesFold, UpdatesFold};

/// A slot shows, answers and decides the same without its past.
pub fn folds_show_same()
    ensures shows { FoldsShowSame }
    ensures answers { FoldsAnswerSame }
{}

/// Folding twice is folding once, and folding commutes with every move that doesn't commit below
/// the floor.
pub fn moves_fold()
    ensures twice { FoldingTwice }
    ensures moves { MovesFold }
    ensures slot { FoldedIsSlot }
{}

/// Each step of a slot makes the same moves, posts and notes from the slot without its past, and
/// leaves the same without its past.
pub fn steps_fold()
    ensures updates { UpdatesFold }
    ensures acks { AcksFold }
    ensures calls { CallsFold }
    ensures adopting { AdoptingFolds }
{}

/// A server whose slots have no past makes the same posts and notes, and folded at each entry it is
/// the server of the trace, folded.
pub fn servers_fold()
    ensures steps { ServersFold }
    ensures stay { ServersStay }
    ensures traces { TracesFold }
    ensures sound { SoundMessagesFit }
{}

/// What a slot without a past shows, answers and does is that of each slot of whole lists for which
/// it stands.
pub fn lean_slots_stand()
    ensures { LeanSlotsStand }
{}

/// What code without a past has to do: an offer leaves no past, and a commit takes the lowest
/// pending updates over the base.
pub fn slots_without_past()
    ensures offers { OffersStayBare }
    ensures commits { CommitsFold }
    ensures joined { FoldsJoin }
{}

/// A base with a list on it shows the folds of the line; a snapshot with its pending updates stands
/// for its sender's slots without their past, and a joiner takes them so.
pub fn bases_fold()
    ensures lines { PrefixesShowLine }
    ensures prefixes { PrefixesFold }
    ensures snapshots { SnapshotsFold }
    ensures joiners { JoinersFold }
    ensures installs { InstallsFold }
{}

/// The slots of a server can be sent to a joiner at the start and after every step.
pub fn servers_stay_joinable()
    ensures start { StartsJoinable }
    ensures stay { StaysJoinable }
    ensures send { ReplicasSend }
    ensures sound { SoundMessagesJoin }
{}

//! Values, operations, messages and entries of the store, and the definitions that they share.
//!
//! Every type but [`Text`], [`Places`], [`Shared`], [`Sequence`] and [`SharedList`] is plain, with
//! public fields. What a message carries is shared, so that a copy of it is a few pointers.
//! [`Exact`] copies a value, [`Same`] compares two. What belongs to a space, what an operation does
//! to an object and which configuration comes first is defined here; `hx_rules` has the functions.
//!
//! The limits of spaces, scripts and runs are constants, which clauses cite.
//!
//! Objects with attributes, subspaces and the operations on them are HyperDex's; chains and their
//! configurations are those of chain replication. The forms of all these types are this project's
//! choice.
//!
//! No contract says that there is memory, so a function that always answered [`Memory`] would be
//! proved. Runs of the program and the crates of tests make texts, lists, configurations and
//! copies, and show that each can succeed.
#![tactic(auto)]

mod calls;
mod configs;
mod copies;
mod errors;
mod histories;
mod ids;
mod limits;
mod lists;
mod messages;
mod outcomes;
mod places;
mod prefixes;
mod rooms;
mod shared;
mod shared_lists;
mod snapshots;
mod spaces;
mod texts;
mod totals;
mod traces;
mod updates;
mod values;

pub use calls::{Answer, Caller, Calls, Op, Row, Rows, Sessions};
pub use configs::{Config, Member, Members, RegionLists, any_joining, any_ready};
pub use copies::{Exact, Same};
pub use errors::Memory;
pub use histories::{Item, Items, Record, Records, Searched, Searches};
pub use ids::{
    Actor, Epoch, RegionId, RegionList, ServerId, ServerList, SessionId, Stamp, Version,
};
pub use limits::{
    GREATEST_NUMBER, LONGEST_NAME, LONGEST_SCRIPT, LONGEST_TEXT, MOST_ACTORS, MOST_ATTRIBUTES,
    MOST_AXES, MOST_CALLS, MOST_DRIVERS, MOST_ENTRIES, MOST_ENTRIES_OF_ALL, MOST_FAILURES,
    MOST_PARTS, MOST_PLACES, MOST_REGIONS, MOST_SERVERS, MOST_SESSIONS, MOST_STEPS, MOST_SUBSPACES,
};
pub use lists::Sequence;
pub use messages::{Message, Post, PostId, Posts};
pub use outcomes::{Acked, Decision, Effect, Hop, Offer, Planned};
pub use places::Places;
pub use prefixes::prefix_of;
pub use rooms::insert_within;
pub use shared::Shared;
pub use shared_lists::SharedList;
pub use snapshots::{Kept, Mark, Marks, Snapshot, Touch, Touches};
pub use spaces::{Attribute, Attributes, Axes, Axis, Kind, Space, Subspaces};
pub use texts::Text;
pub use totals::Totals;
pub use traces::{Entry, Input, Note, Notes, Script, Step, Steps};
pub use updates::{Place, Update, Updates};
pub use values::{Assign, Assigns, Edit, EditKind, Edits, Object, Term, Terms, Value};

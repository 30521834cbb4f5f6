use crate::actors::Actors;
use crate::logs::Log;
use hx_types::Script;

/// All actors of a script, and the trace of their steps so far. The fields are plain; what holds of
/// them together is a condition of each function that changes them.
#[derive(Drop)]
pub struct Inside {
    pub script: Script,
    pub actors: Actors,
    pub log: Log,
}

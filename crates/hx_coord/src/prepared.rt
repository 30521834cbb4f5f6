ghost use Rattle.std.specs.Prelude.{◌≡◌, unwrap_or};

use crate::agendas::Agenda;
use hx_types::{Config, Entry, Shared};

/// A step that is ready to be made: its entry, the configuration that it issues, if it does, and
/// what the coordinator keeps then.
#[derive(Drop)]
pub struct Plan {
    pub entry: Entry,
    pub(crate) config: Option<Shared<Config>>,
    pub(crate) agenda: Agenda,
}

impl Plan {
    /// The entry of the step.
    pub fn entry(&self) -> &Entry
        ensures { result.now ≡ self.now.entry }
    {
        &self.entry
    }
}

/// A configuration takes the place of another, where there is one. It takes no memory.
pub fn put_config(config: &mut Shared<Config>, issued: Option<Shared<Config>>)
    ensures { config.new ≡ unwrap_or issued config.old }
{
    if let Some(issued) = issued {
        *config = issued;
    }
}

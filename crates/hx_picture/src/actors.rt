use std::alloc::{AllocError, Global};

/// The actors of a run in the order of their lines: sessions, servers, and the coordinator last.
#[derive(Drop)]
pub struct Actors<'a> {
    names: Vec<&'a str>,
}

impl<'a> Actors<'a> {
    /// No actor.
    pub fn new(alloc: Global) -> Self {
        Actors {
            names: Vec::new(alloc),
        }
    }

    /// Adds an actor, if it isn't there.
    pub fn add(&mut self, name: &'a str) -> Result<(), AllocError> {
        if !self.names.contains(&name) {
            self.names.push(name)?;
        }
        Ok(())
    }

    /// Puts the actors into the order of their lines.
    pub fn sort(&mut self) {
        self.names.sort_unstable_by_key(|name| rank(name));
    }

    /// The names in order.
    pub fn names(&self) -> &[&'a str] {
        self.names.as_slice()
    }

    /// The number of an actor's line, from 0; the last one's for a name that isn't there.
    pub fn line_of(&self, name: &str) -> usize {
        let found = self.names.iter().position(|other| *other == name);
        found.unwrap_or(self.names.len())
    }
}

/// Where an actor stands among all: sessions by number, servers by number, the coordinator.
fn rank(name: &str) -> (u8, u64) {
    if let Some(number) = name.strip_prefix("u") {
        return (0, number.parse::<u64>().unwrap_or(0));
    }
    if let Some(number) = name.strip_prefix("s") {
        return (1, number.parse::<u64>().unwrap_or(0));
    }
    (2, 0)
}

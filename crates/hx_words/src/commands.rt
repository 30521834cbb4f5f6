//! What the program can be told to do.

/// What the words of a call ask for.
#[derive(Clone, Copy, PartialEq, Eq)]
pub enum Request {
    /// What one thread makes of a script.
    Command(Command),
    /// To read a report in place of a script, and judge it.
    Audit,
    /// To run a script on threads.
    Run(Run),
    /// To run a workload on threads that is drawn from a number.
    Soak(Soak),
    /// To make the calls of a script by callers on threads.
    Share(Share),
    /// What the program tells of itself.
    Question(Question),
}

/// What the program can be told to do with a script without threads.
#[derive(Clone, Copy, PartialEq, Eq)]
pub enum Command {
    /// Run the script and report what came of it, with every entry and its posts where asked for.
    Replay { with_trace: bool },
    /// Tell which regions each search of the script asks.
    Plan,
}

/// What the program can be asked about itself.
#[derive(Clone, Copy, PartialEq, Eq)]
pub enum Question {
    /// How it is called.
    Help,
    /// Which version it is.
    Version,
}

/// How threads are to run a script.
#[derive(Clone, Copy, PartialEq, Eq)]
pub struct Run {
    /// How many threads drive the actors, from 1 to 16.
    pub workers: u32,
    /// One post in so many is lost, and none where this is 0. At most 1,000,000.
    pub lose: u32,
    /// One post in so many is repeated, and none where this is 0. At most 1,000,000.
    pub repeat: u32,
    /// Where it is said, what is lost and repeated is drawn from it; else it is counted.
    pub seed: Option<u64>,
    /// Whether the trace is written too, with every entry and its posts.
    pub with_trace: bool,
}

/// How threads are to run a workload that is drawn from a number.
#[derive(Clone, Copy, PartialEq, Eq)]
pub struct Soak {
    /// The number that the workload is drawn from.
    pub seed: u64,
    /// How many calls are drawn, of all sessions, from 1 to 16,384.
    pub calls: u32,
    /// How many threads drive the actors, from 1 to 16.
    pub workers: u32,
}

/// How callers on threads are to make the calls of a script, one at a time behind one lock.
#[derive(Clone, Copy, PartialEq, Eq)]
pub struct Share {
    /// How many callers there are, from 1 to 16.
    pub workers: u32,
}

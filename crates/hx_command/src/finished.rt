use hx_clock::Seat;
use hx_fate::Fate;
use hx_mail::Port;
use hx_replay::Done;
use hx_spaces::Traces;
use hx_types::Totals;

/// How a call ended that may have run on threads, and what it hands back. For each space that was
/// run, in order: the seat of its clock, which shows that its trace is in the order of the stamps
/// that its entries drew; the totals of the posts of each of its drivers in order, and their fates;
/// and for each of its actors in order the port that knows what went through its box. There is none
/// of it where nothing ran on threads.
#[derive(Drop)]
pub struct Finished {
    pub done: Done,
    pub seats: Vec<Seat>,
    pub totals: Vec<Totals>,
    pub fates: Vec<Box<dyn Fate + Send>>,
    pub ports: Vec<Port>,
}

/// What threads made of the spaces that they ran, in order: for each a trace and the seat of its
/// clock, the totals and the fates of its drivers, and the ports of its actors.
#[derive(Drop)]
pub struct Threaded {
    pub traces: Traces,
    pub seats: Vec<Seat>,
    pub totals: Vec<Totals>,
    pub fates: Vec<Box<dyn Fate + Send>>,
    pub ports: Vec<Port>,
}

/// What a step changes of an actor of any role. [`Machine::step`](crate::Machine::step) computes
/// it, and [`Machine::make`](crate::Machine::make) makes it of the actor as it then is.
#[derive(Drop)]
pub enum Change {
    /// Boxed, since it is larger than the others and rare.
    Coordinator(Box<hx_coord::Plan>),
    Server(hx_replica::Change),
    Session(hx_session::Change),
}

use hx_types::Actor;

/// What is called before each entry of an actor, on its driver's thread. It tells nothing and
/// changes nothing that contracts see; a test holds threads with it.
pub trait Gate {
    /// An actor is about to make an entry.
    fn before(&self, actor: Actor);
}

/// A gate that holds nobody.
pub struct Open;

impl Gate for Open {
    fn before(&self, actor: Actor) {
        let _ = actor;
    }
}

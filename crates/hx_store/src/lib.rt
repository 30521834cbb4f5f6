//! The slots of one region at one server, found by their keys.
//!
//! A [`Store`] numbers the keys of which the replica has heard in the order of their coming; the
//! number is the key's place. A step looks its key up once, and goes by the place then. Room for it
//! is made before it, by [`Store::reserve`], so that the step itself takes no memory; a slot that
//! was made then is part of the store only once a step opens it. Snapshots go through the slots in
//! byte order of keys.
//!
//! Searches go by an index of the committed objects, as in HyperDex. It is brought up to date when
//! a search asks: a step only marks its slot, a new slot has no place in the index yet, and the
//! next search takes the objects of both into the index first.
//!
//! That memory suffices no contract says: a test shows it.
#![tactic(auto)]

mod copying;
mod indexed;
mod laws;
mod searching;
mod slots;
mod stepping;
mod stores;

pub use laws::snapshots_come_back;
pub use stepping::settle_all;
pub use stores::Store;

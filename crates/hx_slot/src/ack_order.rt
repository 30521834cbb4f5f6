ghost use Rattle.std.specs.Prelude.{◌≡◌, ◌==◌, ℕ, List, [], ◌∷◌, filter, nat_lt, not};
ghost use Rattle.std.specs.Borrow.{ftrue};

use hx_types::Version;
use std::marker::Model;

/// The acknowledged pending versions, the newest acknowledgement first. Only proofs read them: an
/// order takes no memory, and its functions do nothing when they run. Which updates are
/// acknowledged the updates themselves say.
#[derive(Drop)]
pub struct AckOrder {
    pub ghost versions: { List ℕ },
}

impl Model for AckOrder {
    ghost also_owns = { λ _. ftrue };
}

unsafe impl Send for AckOrder {}

unsafe impl Sync for AckOrder {}

impl AckOrder {
    /// Nothing is acknowledged.
    pub fn new() -> AckOrder
        ensures { result.versions ≡ [] }
    {
        AckOrder {}
    }

    /// The version is acknowledged last.
    pub fn with(&self, version: &Version) -> AckOrder
        ensures { result.versions ≡ version.now.0 ∷ filter (λ v. not (v == version.now.0)) self.now.versions }
    {
        AckOrder {}
    }

    /// What is acknowledged above a floor.
    pub fn above(&self, floor: &Version) -> AckOrder
        ensures { result.versions ≡ filter (nat_lt floor.now.0) self.now.versions }
    {
        AckOrder {}
    }
}

use hx_types::{Shared, Update, Version};

/// An update with the version after which its turn comes in the slot's region, and whether the
/// object is kept there.
#[derive(Drop)]
pub struct PlacedUpdate {
    pub update: Shared<Update>,
    pub after: Version,
    pub keeps: bool,
}

/// An accepted update with whether the object is kept in the slot's region, and whether it is
/// acknowledged.
#[derive(Drop)]
pub struct AcceptedUpdate {
    pub update: Shared<Update>,
    pub keeps: bool,
    pub acknowledged: bool,
}

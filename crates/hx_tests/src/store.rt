use hx_store::Store;
use hx_types::{Attributes, RegionId, Space, Subspaces, Text};
use std::alloc::Global;
use std::process::Abort;

/// A store of which nothing was heard, of a space without attributes.
fn empty(rt: &impl Abort, alloc: Global) -> Store {
    let space = Space {
        name: Text::from_str(alloc, "s").expect(rt, "no memory"),
        key_name: Text::from_str(alloc, "k").expect(rt, "no memory"),
        key_parts: 1,
        attributes: Attributes::new(alloc),
        subspaces: Subspaces::new(alloc),
        servers: 1,
        tolerate: 0,
    };
    let store = Store::new(alloc, &space, RegionId(0), true);
    drop(space);
    store.expect(rt, "no memory")
}

#[test]
fn a_key_gets_a_slot(rt: HostRuntime) {
    let alloc = rt.alloc();
    let key = Text::from_str(alloc, "a").expect(&rt, "no memory");
    let mut store = empty(&rt, alloc);
    let is_ensured = store.ensure(alloc, &key).is_ok();
    let has_slot = store.slot(&key).is_some();
    drop(store);
    drop(key);
    assert!(rt; is_ensured && has_slot);
}

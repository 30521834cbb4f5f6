use crate::parts::list;
use hx_types::{Entry, Message, Post};
use std::mem::size_of;

/// What a message carries is behind pointers, so it is small whatever it carries.
#[test]
fn messages_are_small(rt: HostRuntime) {
    let sizes = (size_of::<Message>(), size_of::<Post>(), size_of::<Entry>());
    assert!(rt; sizes.0 <= 48 && sizes.1 <= 64 && sizes.2 <= 136);
}

#[test]
fn a_list_takes_an_item_at_a_place(rt: HostRuntime) {
    let mut list = list(&rt, [1, 3]);
    list.insert(1, 2).expect(&rt, "memory");
    assert!(rt; list.as_slice() == [1, 2, 3].as_slice());
}

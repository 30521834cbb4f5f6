ghost use Rattle.std.specs.Prelude.{◌≡◌, ◌++◌, ◌+◌, ◌≤◌, [], OnOk, drop, false, length, slice_get, vec_capacity, vec_len};
ghost use Rattle.hx_types.specs.Words.{when_some};
ghost use Rattle.hx_model.specs.Schedule.{same_name};
ghost use Rattle.hx_world.specs.Filing.{names_counted};
ghost use Rattle.hx_world.specs.Names.{AreAscending, is_before, names_but};

use hx_types::{Memory, PostId};
use std::alloc::Global;
use std::marker::Model;

/// The names of posts that wait, in the order in which they are put. Those in front of a place in
/// the list were taken out; once all were, their room is there again.
pub struct Queue {
    list: Vec<PostId>,
    taken: usize,
}

impl Drop for Queue {
    fn drop(self) {
        let Queue { list: _, taken: _ } = self;
    }
}

impl Model for Queue {
    ghost use Rattle.std.specs.Prelude.{◌≤◌, ◌-◌, drop, length, vec_capacity, vec_len};
    ghost use Rattle.hx_world.specs.Queues.{Waiting};

    ghost Value = { Waiting };

    ghost view = { λ q. record { items = drop q.taken q.list.items; room = vec_capacity q.list - vec_len q.list } };

    ghost invariant = { λ q. q.taken ≤ length q.list.items };
}

impl Queue {
    /// No names, and no room. It takes no memory.
    pub fn new(alloc: Global) -> Queue
        ensures { result.items ≡ [] }
    {
        Queue {
            list: Vec::new(alloc),
            taken: 0,
        }
    }

    /// The first name: the lowest of ascending ones.
    #[inline(always)]
    pub fn lowest(&self) -> Option<PostId>
        ensures { result ≡ slice_get self.now.items 0 }
    {
        self.list.get(self.taken).copied()
    }

    /// Takes the first name out, if there is one.
    #[inline(always)]
    pub fn pop(&mut self)
        ensures rest { self.new.items ≡ drop 1 self.old.items }
        ensures room { self.old.room ≤ self.new.room }
    {
        if self.list.len() - self.taken > 1 {
            self.taken += 1;
        } else {
            self.list.clear();
            self.taken = 0;
        }
    }

    /// Takes a name out of ascending ones, wherever it stands, if it is there. Mostly it is the
    /// first.
    #[inline(always)]
    pub fn take_out(&mut self, id: PostId)
        requires { AreAscending self.old.items }
        ensures items { self.new.items ≡ names_but id self.old.items }
        ensures room { self.old.room ≤ self.new.room }
    {
        if is_name(self.lowest(), id) {
            self.pop();
        } else {
            self.take_by_halving(id);
        }
    }

    /// Takes a name out of ascending ones, if it is there. It is found by halving.
    #[cold]
    #[inline(never)]
    fn take_by_halving(&mut self, id: PostId)
        requires { AreAscending self.old.items }
        ensures items { self.new.items ≡ names_but id self.old.items }
        ensures room { self.old.room ≤ self.new.room }
    {
        let place = self.names().partition_point(|name| is_before(name, &id));
        if is_name(self.name_at(place), id) {
            let _ = self.list.remove(self.taken + place);
        }
    }

    /// The names.
    fn names(&self) -> &[PostId]
        ensures { result.now ≡ self.now.items }
    {
        &self.list[self.taken..]
    }

    /// The name at a place from 0, or `None` past the end.
    fn name_at(&self, place: usize) -> Option<PostId>
        ensures { result ≡ slice_get self.now.items place }
    {
        self.names().get(place).copied()
    }

    /// Takes memory for so many names more. Mostly there is room already.
    #[inline(always)]
    pub fn reserve(&mut self, count: u32) -> Result<(), Memory>
        ensures items { self.new.items ≡ self.old.items }
        ensures room { OnOk result (count ≤ self.new.room) }
    {
        if self.list.capacity() - self.list.len() >= count as usize {
            return Ok(());
        }
        self.grow(count)
    }

    /// Takes memory for so many names more, where there is no room for them.
    #[cold]
    #[inline(never)]
    fn grow(&mut self, count: u32) -> Result<(), Memory>
        ensures items { self.new.items ≡ self.old.items }
        ensures room { OnOk result (count ≤ self.new.room) }
    {
        self.list.reserve(count as usize)?;
        Ok(())
    }

    /// Puts the names of an entry's posts after the others. It takes no memory.
    #[inline(always)]
    pub fn push(&mut self, entry: u64, count: u32)
        requires { count ≤ self.old.room }
        ensures { self.new.items ≡ self.old.items ++ names_counted entry 0 count }
    {
        push_names(&mut self.list, entry, count);
    }
}

/// Puts the names of an entry's posts at the end of a list that has room for them.
#[inline(always)]
fn push_names(list: &mut Vec<PostId>, entry: u64, count: u32)
    requires { vec_len list.old + count ≤ vec_capacity list.old }
    ensures items { list.new.items ≡ list.old.items ++ names_counted entry 0 count }
{
    for place in 0..count {
        list.push_reserved(PostId { entry, place });
    }
}

/// Whether a name is lower than another: of an earlier entry, or at an earlier place of the same.
fn is_before(name: &PostId, other: &PostId) -> bool
    ensures { result ≡ is_before name.now other.now }
{
    name.entry < other.entry || (name.entry == other.entry && name.place < other.place)
}

/// Whether there is a name, and it is this one.
#[inline(always)]
fn is_name(name: Option<PostId>, id: PostId) -> bool
    ensures { result ≡ when_some name false (λ it. same_name it id) }
{
    match name {
        Some(name) => name.entry == id.entry && name.place == id.place,
        None => false,
    }
}

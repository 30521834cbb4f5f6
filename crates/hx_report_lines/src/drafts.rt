//! A report as far as its lines were read.

ghost use Rattle.std.specs.Prelude.{◌≡◌, OnOk};
ghost use Rattle.hx_types.specs.Spaces.{IsSpace};
ghost use Rattle.hx_types.specs.Words.{text_below};
ghost use Rattle.hx_report_lines.specs.Drafts.{HasSpace, after_line, block_of, begun, call_line, closed, driver_line, empty_draft, empty_space, end_line, epoch_line, follows_caller, follows_epoch, follows_key, head_line, item_line, key_line, kind_of, line_of_kind, next_line, no_drivers, no_epochs, no_histories, no_raw, raw_line, row_line, settled, version_line, version_of};
ghost use Rattle.hx_report_lines.specs.Readers.{Gives, on_some};
ghost use Rattle.hx_report_lines.specs.Values.{caller_below};

use crate::blocks::{Block, Blocks};
use crate::call_lines::{CallHead, head_of, row_of};
use crate::calls::CallLine;
use crate::errors::Stop;
use crate::histories::{HistoryLines, ItemLines};
use crate::items::{item_of, key_of};
use crate::kinds::{Kind, kind_of};
use crate::tails::{driver_of, epoch_of, raw_of, rest_of_head, space_of};
use crate::values::is;
use hx_print::put_bytes;
use hx_types::{
    Answer, Caller, Epoch, Memory, Row, Sequence, Shared, SharedList, Space, Subspaces, Text,
};
use std::alloc::Global;
use std::mem;

/// Which lines may come next.
#[derive(Clone, Copy, PartialEq, Eq)]
pub enum Section {
    /// The first line.
    Start,
    /// Those of a space.
    Head,
    /// Those of a block.
    Body,
    /// None.
    Over,
}

/// What isn't in its block yet.
#[derive(Drop)]
pub enum Open {
    Nothing,
    /// A call of which so many rows are wanted after those that were read.
    Rows {
        call: CallLine,
        rows: Sequence<Shared<Row>>,
        left: u64,
    },
    /// A history.
    History {
        key: Text,
        items: ItemLines,
    },
}

/// What was read.
pub struct Draft {
    pub section: Section,
    pub version: u32,
    /// The blocks that are whole.
    pub blocks: Blocks,
    /// The lines of a space that isn't whole, with their newlines.
    pub head: Sequence<u8>,
    /// The block that is read.
    pub block: Block,
    pub pending: Open,
}

impl Drop for Draft {
    fn drop(self) {
        let Draft {
            section: _,
            version: _,
            blocks: _,
            head: _,
            block: _,
            pending: _,
        } = self;
    }
}

fn empty_space(alloc: Global) -> Space
    ensures { result ≡ empty_space }
{
    Space {
        name: Text::new(alloc),
        key_name: Text::new(alloc),
        key_parts: 0,
        attributes: Sequence::new(alloc),
        subspaces: Subspaces::new(alloc),
        servers: 0,
        tolerate: 0,
    }
}

fn block_of(alloc: Global, space: Space) -> Block
    ensures { result ≡ block_of space }
{
    Block {
        space,
        calls: Sequence::new(alloc),
        histories: Sequence::new(alloc),
        epochs: Sequence::new(alloc),
        raw: Sequence::new(alloc),
        drivers: Sequence::new(alloc),
    }
}

fn caller_below(before: Caller, after: Caller) -> bool
    ensures { result ≡ caller_below before after }
{
    before.session.0 < after.session.0
        || (before.session == after.session && before.number < after.number)
}

fn text_below(before: &Text, after: &Text) -> bool
    ensures { result ≡ text_below before.now after.now }
{
    before.as_str() < after.as_str()
}

fn version_of(line: &[u8]) -> Option<u32>
    ensures { result ≡ version_of line.now }
{
    if is(line, b"report 1") {
        Some(1)
    } else if is(line, b"report 2") {
        Some(2)
    } else {
        None
    }
}

impl Draft {
    /// Before the first line.
    pub(crate) fn new(alloc: Global) -> Draft
        ensures { result ≡ empty_draft }
    {
        Draft {
            section: Section::Start,
            version: 0,
            blocks: Sequence::new(alloc),
            head: Sequence::new(alloc),
            block: block_of(alloc, empty_space(alloc)),
            pending: Open::Nothing,
        }
    }

    /// Puts what is open into the block, where nothing more is wanted of it.
    fn settle(&mut self, alloc: Global) -> Result<(), Stop>
        ensures { Gives (λ _. self.new) result (settled self.old) }
    {
        match mem::replace(&mut self.pending, Open::Nothing) {
            Open::Nothing => Ok(()),
            Open::Rows {
                mut call,
                rows,
                left,
            } => {
                if left != 0 {
                    return Err(Stop::Unread);
                }
                call.answer = Some(Answer::Rows(SharedList::from_vec(alloc, rows.into_vec())?));
                self.block.calls.push(call)?;
                Ok(())
            }
            Open::History { key, items } => {
                if items.is_empty() {
                    return Err(Stop::Unread);
                }
                self.block.histories.push(HistoryLines { key, items })?;
                Ok(())
            }
        }
    }

    fn no_drivers(&self) -> bool
        ensures { result ≡ no_drivers self.now }
    {
        self.block.drivers.len() == 0
    }

    fn no_raw(&self) -> bool
        ensures { result ≡ no_raw self.now }
    {
        self.block.raw.len() == 0 && self.no_drivers()
    }

    fn no_epochs(&self) -> bool
        ensures { result ≡ no_epochs self.now }
    {
        self.block.epochs.len() == 0 && self.no_raw()
    }

    fn no_histories(&self) -> bool
        ensures { result ≡ no_histories self.now }
    {
        self.block.histories.len() == 0 && self.no_epochs()
    }

    fn follows_caller(&self, caller: Caller) -> bool
        ensures { result ≡ follows_caller self.now caller }
    {
        match self.block.calls.item(self.block.calls.len()) {
            Some(last) => caller_below(last.caller, caller),
            None => true,
        }
    }

    fn follows_key(&self, key: &Text) -> bool
        ensures { result ≡ follows_key self.now key.now }
    {
        match self.block.histories.item(self.block.histories.len()) {
            Some(last) => text_below(&last.key, key),
            None => true,
        }
    }

    fn follows_epoch(&self, epoch: Epoch) -> bool
        ensures { result ≡ follows_epoch self.now epoch.0 }
    {
        match self.block.epochs.item(self.block.epochs.len()) {
            Some(last) => last.epoch.0 < epoch.0,
            None => true,
        }
    }

    /// Begins a call: its rows, if it has any, come next.
    fn begin(&mut self, alloc: Global, head: CallHead) -> Result<(), Memory>
        ensures { OnOk result (self.new ≡ begun self.old head head.call.answer) }
    {
        let CallHead { call, rows } = head;
        if let Some(Answer::Rows(_)) = &call.answer {
            self.pending = Open::Rows {
                call,
                rows: Sequence::new(alloc),
                left: rows,
            };
            return Ok(());
        }
        self.pending = Open::Nothing;
        self.block.calls.push(call)
    }

    fn call_line(&mut self, alloc: Global, line: &[u8]) -> Result<(), Stop>
        requires { IsSpace self.old.block.space }
        ensures { Gives (λ _. self.new) result (call_line self.old line.now) }
    {
        self.settle(alloc)?;
        if !self.no_histories() {
            return Err(Stop::Unread);
        }
        let head = head_of(alloc, &self.block.space, line)?;
        if !self.follows_caller(head.call.caller) {
            return Err(Stop::Unread);
        }
        self.begin(alloc, head)?;
        Ok(())
    }

    fn row_line(&mut self, alloc: Global, line: &[u8]) -> Result<(), Stop>
        requires { IsSpace self.old.block.space }
        ensures { Gives (λ _. self.new) result (row_line self.old line.now) }
    {
        let Open::Rows { rows, left, .. } = &mut self.pending else {
            return Err(Stop::Unread);
        };
        if *left == 0 {
            return Err(Stop::Unread);
        }
        let row = row_of(alloc, &self.block.space, line)?;
        rows.push(Shared::new(alloc, row)?)?;
        *left -= 1;
        Ok(())
    }

    fn key_line(&mut self, alloc: Global, line: &[u8]) -> Result<(), Stop>
        requires { IsSpace self.old.block.space }
        ensures { Gives (λ _. self.new) result (key_line self.old line.now) }
    {
        self.settle(alloc)?;
        if !self.no_epochs() {
            return Err(Stop::Unread);
        }
        let key = key_of(alloc, &self.block.space, line)?;
        if !self.follows_key(&key) {
            return Err(Stop::Unread);
        }
        self.pending = Open::History {
            key,
            items: Sequence::new(alloc),
        };
        Ok(())
    }

    fn item_line(&mut self, alloc: Global, line: &[u8]) -> Result<(), Stop>
        requires { IsSpace self.old.block.space }
        ensures { Gives (λ _. self.new) result (item_line self.old line.now) }
    {
        let Open::History { items, .. } = &mut self.pending else {
            return Err(Stop::Unread);
        };
        items.push(item_of(alloc, &self.block.space, line)?)?;
        Ok(())
    }

    fn epoch_line(&mut self, alloc: Global, line: &[u8]) -> Result<(), Stop>
        requires { IsSpace self.old.block.space }
        ensures { Gives (λ _. self.new) result (epoch_line self.old line.now) }
    {
        self.settle(alloc)?;
        if !self.no_raw() {
            return Err(Stop::Unread);
        }
        let epoch = epoch_of(alloc, &self.block.space, line)?;
        if !self.follows_epoch(epoch.epoch) {
            return Err(Stop::Unread);
        }
        self.block.epochs.push(epoch)?;
        Ok(())
    }

    fn raw_line(&mut self, alloc: Global, line: &[u8]) -> Result<(), Stop>
        ensures { Gives (λ _. self.new) result (raw_line self.old line.now) }
    {
        self.settle(alloc)?;
        if !self.no_drivers() {
            return Err(Stop::Unread);
        }
        self.block.raw.push(raw_of(alloc, line)?)?;
        Ok(())
    }

    fn driver_line(&mut self, alloc: Global, line: &[u8]) -> Result<(), Stop>
        ensures { Gives (λ _. self.new) result (driver_line self.old line.now) }
    {
        self.settle(alloc)?;
        self.block.drivers.push(driver_of(alloc, line)?)?;
        Ok(())
    }

    /// A line of the space. Where it is the last, the block begins.
    fn head_line(&mut self, alloc: Global, line: &[u8]) -> Result<(), Stop>
        ensures { Gives (λ _. self.new) result (head_line self.old line.now) }
    {
        let rest = rest_of_head(line)?;
        let mut head = mem::replace(&mut self.head, Sequence::new(alloc)).into_vec();
        put_bytes(&mut head, line)?;
        put_bytes(&mut head, b"\n")?;
        let len = head.len();
        put_bytes(&mut head, rest)?;
        let space = space_of(alloc, &head)?;
        if rest.is_empty() {
            self.section = Section::Body;
            self.block = block_of(alloc, space);
            self.pending = Open::Nothing;
        } else {
            head.truncate(len);
            self.head = Sequence::from_vec(head);
            self.section = Section::Head;
        }
        Ok(())
    }

    /// Puts the block with those that are whole.
    fn close(&mut self, alloc: Global) -> Result<(), Memory>
        ensures { OnOk result (self.new ≡ closed self.old) }
    {
        let empty = block_of(alloc, empty_space(alloc));
        self.blocks.push(mem::replace(&mut self.block, empty))?;
        self.head = Sequence::new(alloc);
        Ok(())
    }

    fn end_line(&mut self, alloc: Global, line: &[u8]) -> Result<(), Stop>
        ensures { Gives (λ _. self.new) result (end_line self.old line.now) }
    {
        self.settle(alloc)?;
        if !is(line, b"end") {
            return Err(Stop::Unread);
        }
        self.close(alloc)?;
        self.section = Section::Over;
        Ok(())
    }

    /// The first line of another space, which a report of version 2 may have.
    fn next_line(&mut self, alloc: Global, line: &[u8]) -> Result<(), Stop>
        ensures { Gives (λ _. self.new) result (next_line self.old line.now) }
    {
        self.settle(alloc)?;
        if self.version != 2 {
            return Err(Stop::Unread);
        }
        self.close(alloc)?;
        self.head_line(alloc, line)
    }

    fn version_line(&mut self, line: &[u8]) -> Result<(), Stop>
        ensures { Gives (λ _. self.new) result (version_line self.old line.now) }
    {
        let Some(version) = version_of(line) else {
            return Err(Stop::Unread);
        };
        self.version = version;
        self.section = Section::Head;
        Ok(())
    }

    fn body_line(&mut self, alloc: Global, line: &[u8]) -> Result<(), Stop>
        requires { IsSpace self.old.block.space }
        ensures { Gives (λ _. self.new) result (on_some (kind_of line.now) (line_of_kind self.old line.now)) }
    {
        match kind_of(line) {
            Some(Kind::Call) => self.call_line(alloc, line),
            Some(Kind::Row) => self.row_line(alloc, line),
            Some(Kind::History) => self.key_line(alloc, line),
            Some(Kind::Item) => self.item_line(alloc, line),
            Some(Kind::Epoch) => self.epoch_line(alloc, line),
            Some(Kind::Raw) => self.raw_line(alloc, line),
            Some(Kind::Driver) => self.driver_line(alloc, line),
            Some(Kind::Space) => self.next_line(alloc, line),
            Some(Kind::End) => self.end_line(alloc, line),
            None => Err(Stop::Unread),
        }
    }

    /// Reads one more line, which is given without its newline. After an error the draft isn't of
    /// use any more.
    pub(crate) fn read_line(&mut self, alloc: Global, line: &[u8]) -> Result<(), Stop>
        requires { HasSpace self.old }
        ensures { Gives (λ _. self.new) result (after_line self.old line.now) }
    {
        match self.section {
            Section::Start => self.version_line(line),
            Section::Head => self.head_line(alloc, line),
            Section::Body => self.body_line(alloc, line),
            Section::Over => Err(Stop::Unread),
        }
    }
}

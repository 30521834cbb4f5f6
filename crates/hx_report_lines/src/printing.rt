//! Printing a report.

ghost use Rattle.std.specs.Prelude.{◌≡◌, ◌++◌, IfOk, OnOk};
ghost use Rattle.std.specs.List.{flat_map};
ghost use Rattle.hx_report_lines.specs.Printed.{block_text, call_text, called_text, driver_text, epoch_text, first_text, history_text, item_head, item_text, key_text, lost_text, raw_text, servers_text, span_text, text_of, word_text};

use crate::blocks::{Block, DriverLine};
use crate::calls::CallLine;
use crate::epochs::EpochLine;
use crate::histories::{HistoryLines, ItemLine, ItemWord};
use crate::reports::Report;
use hx_print::{put_bytes, put_caller, put_numbers, put_op, put_space, put_text};
use hx_report::{put_driver, put_end, put_labeled, put_maybe_answer, put_state};
use hx_types::{Memory, Space, Text};
use std::alloc::Global;

#[tactic(auto, unfolding(crate::specs::Printed::span_text))]
fn put_span(out: &mut Vec<u8>, call: &CallLine) -> Result<(), Memory>
    ensures { OnOk result (out.new.items ≡ out.old.items ++ span_text call.now) }
{
    put_bytes(out, b"call ")?;
    put_caller(out, &call.caller)?;
    put_labeled(out, b" begin ", call.begin)?;
    put_bytes(out, b" end ")?;
    put_end(out, &call.end)
}

/// Appends the line of a call up to its answer.
#[tactic(auto, unfolding(crate::specs::Printed::called_text))]
pub(crate) fn put_called(out: &mut Vec<u8>, space: &Space, call: &CallLine) -> Result<(), Memory>
    ensures { OnOk result (out.new.items ≡ out.old.items ++ called_text space.now call.now) }
{
    put_span(out, call)?;
    put_bytes(out, b" ")?;
    put_op(out, space, &call.op)?;
    put_bytes(out, b" -> ")
}

#[tactic(auto, unfolding(crate::specs::Printed::call_text))]
fn put_call(out: &mut Vec<u8>, space: &Space, call: &CallLine) -> Result<(), Memory>
    ensures { OnOk result (out.new.items ≡ out.old.items ++ call_text space.now call.now) }
{
    put_called(out, space, call)?;
    put_maybe_answer(out, space, call.version, &call.answer)
}

/// The word of an item.
pub(crate) fn word_text(word: ItemWord) -> &'static [u8]
    ensures { result.now ≡ word_text word }
{
    match word {
        ItemWord::Done => b"done".as_slice(),
        ItemWord::NotFound => b"notfound".as_slice(),
        ItemWord::CmpFail => b"cmpfail".as_slice(),
        ItemWord::Found => b"found".as_slice(),
        ItemWord::Overflow => b"overflow".as_slice(),
        ItemWord::TooLong => b"toolong".as_slice(),
    }
}

#[tactic(auto, unfolding(crate::specs::Printed::item_head))]
fn put_item_head(out: &mut Vec<u8>, item: &ItemLine) -> Result<(), Memory>
    ensures { OnOk result (out.new.items ≡ out.old.items ++ item_head item.now) }
{
    put_labeled(out, b"item ", item.version.0)?;
    put_bytes(out, b" ")?;
    put_caller(out, &item.caller)?;
    put_bytes(out, b" ")?;
    put_bytes(out, word_text(item.word))?;
    put_bytes(out, b" ")
}

/// Appends the line of an item.
#[tactic(auto, unfolding(crate::specs::Printed::item_text))]
pub(crate) fn put_item(out: &mut Vec<u8>, space: &Space, item: &ItemLine) -> Result<(), Memory>
    ensures { OnOk result (out.new.items ≡ out.old.items ++ item_text space.now item.now) }
{
    put_item_head(out, item)?;
    put_state(out, space, &item.object)?;
    put_bytes(out, b"\n")
}

/// Appends the first line of a history.
#[tactic(auto, unfolding(crate::specs::Printed::key_text))]
pub(crate) fn put_key(out: &mut Vec<u8>, key: &Text) -> Result<(), Memory>
    ensures { OnOk result (out.new.items ≡ out.old.items ++ key_text key.now) }
{
    put_bytes(out, b"history ")?;
    put_text(out, key)?;
    put_bytes(out, b"\n")
}

#[tactic(auto, unfolding(crate::specs::Printed::history_text))]
fn put_history(out: &mut Vec<u8>, space: &Space, history: &HistoryLines) -> Result<(), Memory>
    ensures { OnOk result (out.new.items ≡ out.old.items ++ history_text space.now history.now) }
{
    put_key(out, &history.key)?;
    put_items(out, space, history.items.as_slice())
}

#[tactic(auto, unfolding(crate::specs::Printed::servers_text))]
fn put_servers(out: &mut Vec<u8>, line: &EpochLine) -> Result<(), Memory>
    ensures { OnOk result (out.new.items ≡ out.old.items ++ servers_text line.now) }
{
    put_bytes(out, b" servers ")?;
    put_numbers(out, line.servers.as_slice())
}

#[tactic(auto, unfolding(crate::specs::Printed::lost_text))]
fn put_lost(out: &mut Vec<u8>, line: &EpochLine) -> Result<(), Memory>
    ensures { OnOk result (out.new.items ≡ out.old.items ++ lost_text line.now) }
{
    put_bytes(out, b" lost ")?;
    put_numbers(out, line.lost.as_slice())
}

/// Appends the line of a configuration.
#[tactic(auto, unfolding(crate::specs::Printed::epoch_text))]
pub(crate) fn put_epoch(out: &mut Vec<u8>, line: &EpochLine) -> Result<(), Memory>
    ensures { OnOk result (out.new.items ≡ out.old.items ++ epoch_text line.now) }
{
    put_labeled(out, b"epoch ", line.epoch.0)?;
    put_servers(out, line)?;
    put_lost(out, line)?;
    put_bytes(out, b"\n")
}

#[tactic(auto, unfolding(crate::specs::Printed::raw_text))]
fn put_raw(out: &mut Vec<u8>, line: &Text) -> Result<(), Memory>
    ensures { OnOk result (out.new.items ≡ out.old.items ++ raw_text line.now) }
{
    put_bytes(out, line.as_bytes())?;
    put_bytes(out, b"\n")
}

/// Appends the line of a driver.
pub(crate) fn put_driver_line(out: &mut Vec<u8>, line: &DriverLine) -> Result<(), Memory>
    ensures { OnOk result (out.new.items ≡ out.old.items ++ driver_text line.now) }
{
    put_driver(out, u64::from(line.driver), &line.totals)
}

fn put_calls(out: &mut Vec<u8>, space: &Space, calls: &[CallLine]) -> Result<(), Memory>
    ensures { OnOk result (out.new.items ≡ out.old.items ++ flat_map (call_text space.now) calls.now) }
{
    for call in calls {
        put_call(out, space, call)?;
    }
    Ok(())
}

fn put_items(out: &mut Vec<u8>, space: &Space, items: &[ItemLine]) -> Result<(), Memory>
    ensures { OnOk result (out.new.items ≡ out.old.items ++ flat_map (item_text space.now) items.now) }
{
    for item in items {
        put_item(out, space, item)?;
    }
    Ok(())
}

fn put_histories(out: &mut Vec<u8>, space: &Space, histories: &[HistoryLines]) -> Result<(), Memory>
    ensures { OnOk result (out.new.items ≡ out.old.items ++ flat_map (history_text space.now) histories.now) }
{
    for history in histories {
        put_history(out, space, history)?;
    }
    Ok(())
}

fn put_epochs(out: &mut Vec<u8>, epochs: &[EpochLine]) -> Result<(), Memory>
    ensures { OnOk result (out.new.items ≡ out.old.items ++ flat_map epoch_text epochs.now) }
{
    for line in epochs {
        put_epoch(out, line)?;
    }
    Ok(())
}

fn put_each_raw(out: &mut Vec<u8>, lines: &[Text]) -> Result<(), Memory>
    ensures { OnOk result (out.new.items ≡ out.old.items ++ flat_map raw_text lines.now) }
{
    for line in lines {
        put_raw(out, line)?;
    }
    Ok(())
}

fn put_drivers(out: &mut Vec<u8>, drivers: &[DriverLine]) -> Result<(), Memory>
    ensures { OnOk result (out.new.items ≡ out.old.items ++ flat_map driver_text drivers.now) }
{
    for line in drivers {
        put_driver_line(out, line)?;
    }
    Ok(())
}

#[tactic(auto, unfolding(crate::specs::Printed::block_text))]
fn put_block(out: &mut Vec<u8>, block: &Block) -> Result<(), Memory>
    ensures { OnOk result (out.new.items ≡ out.old.items ++ block_text block.now) }
{
    put_space(out, &block.space)?;
    put_calls(out, &block.space, block.calls.as_slice())?;
    put_histories(out, &block.space, block.histories.as_slice())?;
    put_epochs(out, block.epochs.as_slice())?;
    put_each_raw(out, block.raw.as_slice())?;
    put_drivers(out, block.drivers.as_slice())
}

fn put_blocks(out: &mut Vec<u8>, blocks: &[Block]) -> Result<(), Memory>
    ensures { OnOk result (out.new.items ≡ out.old.items ++ flat_map block_text blocks.now) }
{
    for block in blocks {
        put_block(out, block)?;
    }
    Ok(())
}

#[tactic(auto, unfolding(crate::specs::Printed::first_text))]
fn put_first(out: &mut Vec<u8>, version: u32) -> Result<(), Memory>
    ensures { OnOk result (out.new.items ≡ out.old.items ++ first_text version) }
{
    put_labeled(out, b"report ", u64::from(version))?;
    put_bytes(out, b"\n")
}

/// The text of a report.
///
/// # Errors
///
/// [`Memory`] alone, where there is no room for the text.
#[tactic(auto, unfolding(crate::specs::Printed::text_of))]
pub fn print_report(alloc: Global, report: &Report) -> Result<Vec<u8>, Memory>
    ensures { IfOk result (λ bytes. bytes.items ≡ text_of report.now) }
{
    let mut out = Vec::new(alloc);
    put_first(&mut out, report.version())?;
    put_blocks(&mut out, report.blocks().as_slice())?;
    put_bytes(&mut out, b"end\n")?;
    Ok(out)
}

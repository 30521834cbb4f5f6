//! The lines of epochs.

ghost use Rattle.std.specs.Prelude.{◌≡◌, ◌++◌, [], false, reverse, IfOk, OnOk};
ghost use Rattle.std.specs.List.{flat_map};
ghost use Rattle.hx_types.specs.Configs.{is_lost};
ghost use Rattle.hx_types.specs.Spaces.{IsSpace};
ghost use Rattle.hx_history.specs.Issued.{issued_in};
ghost use Rattle.hx_report.specs.Reporting.{entry_lines, epoch_line, epochs_text, lost_numbers, lost_text, note_lines, servers_text};

use crate::labels::put_labeled;
use hx_print::{put_bytes, put_numbers};
use hx_rules::first_config;
use hx_trace::Trace;
use hx_types::{Config, Memory, Note, Script, any_ready};
use std::alloc::Global;

/// Whether the region has no ready member.
fn is_lost(config: &Config, region: usize) -> bool
    ensures { result ≡ is_lost config.now (record { 0 = region }) }
{
    match config.regions.get(region) {
        Some(members) => !any_ready(members.as_slice()),
        None => true,
    }
}

#[tactic(auto, using(crate::proofs::LostRegions::lost_next, crate::proofs::LostRegions::kept_next))]
fn lost_numbers(alloc: Global, config: &Config) -> Result<Vec<u64>, Memory>
    ensures { IfOk result (λ numbers. numbers.items ≡ lost_numbers config.now) }
{
    let mut numbers = Vec::new(alloc);
    for region in 0..config.regions.len() {
        if is_lost(config, region) {
            numbers.push(region as u64)?;
        }
    }
    Ok(numbers)
}

#[tactic(auto, unfolding(crate::specs::Reporting::servers_text))]
fn put_servers(out: &mut Vec<u8>, config: &Config) -> Result<(), Memory>
    ensures { OnOk result (out.new.items ≡ out.old.items ++ servers_text config.now) }
{
    put_bytes(out, b" servers ")?;
    put_numbers(out, config.servers.as_slice())
}

#[tactic(auto, unfolding(crate::specs::Reporting::lost_text))]
fn put_lost(alloc: Global, out: &mut Vec<u8>, config: &Config) -> Result<(), Memory>
    ensures { OnOk result (out.new.items ≡ out.old.items ++ lost_text config.now) }
{
    let numbers = lost_numbers(alloc, config)?;
    put_bytes(out, b" lost ")?;
    put_numbers(out, &numbers)
}

#[tactic(auto, unfolding(crate::specs::Reporting::epoch_line))]
fn put_epoch(alloc: Global, out: &mut Vec<u8>, config: &Config) -> Result<(), Memory>
    ensures { OnOk result (out.new.items ≡ out.old.items ++ epoch_line config.now) }
{
    put_labeled(out, b"epoch ", config.epoch.0)?;
    put_servers(out, config)?;
    put_lost(alloc, out, config)?;
    put_bytes(out, b"\n")
}

#[tactic(auto, unfolding(crate::specs::Reporting::note_lines))]
fn put_note(alloc: Global, out: &mut Vec<u8>, note: &Note) -> Result<(), Memory>
    ensures { OnOk result (out.new.items ≡ out.old.items ++ note_lines note.now) }
{
    match note {
        Note::Issued { config } => put_epoch(alloc, out, config),
        _ => Ok(()),
    }
}

fn put_notes(alloc: Global, out: &mut Vec<u8>, notes: &[Note]) -> Result<(), Memory>
    ensures { OnOk result (out.new.items ≡ out.old.items ++ flat_map note_lines notes.now) }
{
    for note in notes {
        put_note(alloc, out, note)?;
    }
    Ok(())
}

fn put_issued(alloc: Global, out: &mut Vec<u8>, trace: &Trace) -> Result<(), Memory>
    ensures { OnOk result (out.new.items ≡ out.old.items ++ flat_map entry_lines trace.now) }
{
    for place in 0..trace.len() {
        if let Some(entry) = trace.noted(place) {
            put_notes(alloc, out, entry.notes)?;
        }
    }
    Ok(())
}

/// Appends the lines of epoch 1 and of the epochs that were issued in the trace, over which it goes
/// only where there are any: it is long.
#[tactic(auto, unfolding(crate::specs::Reporting::epochs_text))]
pub fn put_epochs(
    alloc: Global,
    out: &mut Vec<u8>,
    script: &Script,
    trace: &Trace,
    has_issued: bool,
) -> Result<(), Memory>
    requires space { IsSpace script.now.space }
    requires issued { has_issued ≡ false → issued_in trace.now ≡ [] }
    ensures { OnOk result
        (out.new.items ≡ out.old.items ++ epochs_text script.now (reverse trace.now)) }
{
    put_epoch(alloc, out, &first_config(alloc, &script.space)?)?;
    if has_issued {
        put_issued(alloc, out, trace)?;
    }
    Ok(())
}

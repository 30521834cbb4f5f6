ghost use Rattle.std.specs.Prelude.{◌≡◌, ◌++◌, IfOk, OnOk};
ghost use Rattle.std.specs.List.{All, flat_map};
ghost use Rattle.hx_bundle.specs.Bundles.{IsBundle};
ghost use Rattle.hx_types.specs.Fitting.{IsScript};
ghost use Rattle.hx_replay.specs.Plans.{bundle_plans_text, call_lines, plan_line, planned_text, plans_text, script_lines, session_lines, sessions_lines, space_lines};

use hx_bundle::Bundle;
use hx_print::{put_bytes, put_call_name, put_number, put_numbers};
use hx_region::RegionMap;
use hx_rules::first_config;
use hx_types::{Calls, Config, Memory, Op, Planned, Script};
use std::alloc::Global;

/// Appends the plan of each search of a script, in order. Each line begins with the label.
#[tactic(auto, unfolding(crate::specs::Plans::script_lines))]
fn put_script(alloc: Global, out: &mut Vec<u8>, label: &[u8], script: &Script) -> Result<(), Memory>
    requires { IsScript script.now }
    ensures { OnOk result (out.new.items ≡ out.old.items ++ script_lines label.now script.now) }
{
    let config = first_config(alloc, &script.space)?;
    let map = RegionMap::new(alloc, &script.space)?;
    put_sessions(alloc, out, label, &map, &config, script.sessions.as_slice())
}

/// The lines of the command `plan`: for each search of the script, in order, the subspace and the
/// regions that it asks while no server has failed, or a lost region; and last the line `end`.
#[tactic(auto, unfolding(crate::specs::Plans::plans_text))]
pub fn plans(alloc: Global, script: &Script) -> Result<Vec<u8>, Memory>
    requires { IsScript script.now }
    ensures { IfOk result (λ text. text.items ≡ plans_text script.now) }
{
    let mut out = Vec::new(alloc);
    put_script(alloc, &mut out, b"plan ", script)?;
    put_bytes(&mut out, b"end\n")?;
    Ok(out)
}

/// Appends the plan of each search of a space, in order, with the name of the space.
#[tactic(auto, unfolding(crate::specs::Plans::space_lines))]
fn put_space(alloc: Global, out: &mut Vec<u8>, script: &Script) -> Result<(), Memory>
    requires { IsScript script.now }
    ensures { OnOk result (out.new.items ≡ out.old.items ++ space_lines script.now) }
{
    let mut label = Vec::new(alloc);
    put_bytes(&mut label, b"plan ")?;
    put_bytes(&mut label, script.space.name.as_bytes())?;
    put_bytes(&mut label, b" ")?;
    put_script(alloc, out, label.as_slice(), script)
}

fn put_spaces(alloc: Global, out: &mut Vec<u8>, scripts: &[Script]) -> Result<(), Memory>
    requires { All IsScript scripts.now }
    ensures { OnOk result (out.new.items ≡ out.old.items ++ flat_map space_lines scripts.now) }
{
    for script in scripts {
        put_space(alloc, out, script)?;
    }
    Ok(())
}

/// The lines of the command `plan` for several spaces: those of each in order, with its name in
/// each, and last the line `end`.
#[tactic(auto, unfolding(crate::specs::Plans::bundle_plans_text))]
pub fn bundle_plans(alloc: Global, bundle: &Bundle) -> Result<Vec<u8>, Memory>
    requires { IsBundle bundle.now }
    ensures { IfOk result (λ text. text.items ≡ bundle_plans_text bundle.now) }
{
    let mut out = Vec::new(alloc);
    put_spaces(alloc, &mut out, bundle.spaces.as_slice())?;
    put_bytes(&mut out, b"end\n")?;
    Ok(out)
}

#[tactic(auto, unfolding(crate::specs::Plans::sessions_lines))]
fn put_sessions(
    alloc: Global,
    out: &mut Vec<u8>,
    label: &[u8],
    map: &RegionMap,
    config: &Config,
    sessions: &[Calls],
) -> Result<(), Memory>
    ensures { OnOk result
        (out.new.items ≡ out.old.items ++ sessions_lines label.now map.now config.now 1 sessions.now) }
{
    let mut session = 1;
    let mut rest = sessions;
    'sessions: while let Some((calls, after)) = rest.split_first() {
        put_session(alloc, out, label, map, config, session, calls.as_slice())?;
        session += 1;
        rest = after;
    }
    Ok(())
}

#[tactic(auto, unfolding(crate::specs::Plans::session_lines))]
fn put_session(
    alloc: Global,
    out: &mut Vec<u8>,
    label: &[u8],
    map: &RegionMap,
    config: &Config,
    session: u64,
    calls: &[Op],
) -> Result<(), Memory>
    ensures { OnOk result
        (out.new.items ≡ out.old.items ++ session_lines label.now map.now config.now session 1 calls.now) }
{
    let mut number = 1;
    let mut rest = calls;
    'calls: while let Some((op, after)) = rest.split_first() {
        put_call(alloc, out, label, map, config, session, number, op)?;
        number += 1;
        rest = after;
    }
    Ok(())
}

fn put_call(
    alloc: Global,
    out: &mut Vec<u8>,
    label: &[u8],
    map: &RegionMap,
    config: &Config,
    session: u64,
    number: u64,
    op: &Op,
) -> Result<(), Memory>
    ensures { OnOk result
        (out.new.items ≡ out.old.items ++ call_lines label.now map.now config.now (record { session = record { 0 = session }; number = number }) op.now) }
{
    match op {
        Op::Search { terms } => {
            let planned = hx_region::plan(alloc, map, config, terms)?;
            put_plan(out, label, session, number, &planned)
        }
        _ => Ok(()),
    }
}

#[tactic(auto, unfolding(crate::specs::Plans::plan_line))]
fn put_plan(
    out: &mut Vec<u8>,
    label: &[u8],
    session: u64,
    number: u64,
    planned: &Planned,
) -> Result<(), Memory>
    ensures { OnOk result
        (out.new.items ≡ out.old.items ++ plan_line label.now (record { session = record { 0 = session }; number = number }) planned.now) }
{
    put_bytes(out, label)?;
    put_call_name(out, session, number)?;
    put_planned(out, planned)?;
    put_bytes(out, b"\n")
}

#[tactic(auto, unfolding(crate::specs::Plans::planned_text))]
fn put_planned(out: &mut Vec<u8>, planned: &Planned) -> Result<(), Memory>
    ensures { OnOk result (out.new.items ≡ out.old.items ++ planned_text planned.now) }
{
    match planned {
        Planned::Regions { subspace, regions } => {
            put_bytes(out, b" subspace ")?;
            put_number(out, u64::from(*subspace))?;
            put_bytes(out, b" regions ")?;
            put_numbers(out, regions.as_slice())
        }
        Planned::Lost(region) => {
            put_bytes(out, b" lost ")?;
            put_number(out, u64::from(region.0))
        }
    }
}

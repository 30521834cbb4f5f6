//! A web shop keeps its table of sessions in a store, and four threads use it at once.
//!
//! Each thread logs customers in, notes that one of them was there again, looks for sessions that
//! nobody has used for long, and drops them. What it prints is the same however the threads take
//! turns.
//!
//! The shop is an example of this project's own.
#![tactic(auto)]

ghost use Rattle.std.specs.Prelude.{IfOk};
ghost use Rattle.hx_types.specs.Fitting.{IsScript};

mod shop;

use crate::shop::{Clerk, SPACE};
use hx_script::{ScriptError, read, scripts_are_valid};
use hx_service::Service;
use hx_types::{Answer, Script, SessionId};
use std::alloc::Global;
use std::process::ExitCode;
use std::sync::Mutex;
use std::thread;

/// Where the store can't be opened or asked.
const FAILED: u8 = 1;

/// The script of a text, which is valid.
fn read_script(alloc: Global, text: &[u8]) -> Result<Script, ScriptError>
    ensures { IfOk result (λ script. IsScript script) }
{
    scripts_are_valid();
    let script = read(alloc, text)?;
    Ok(script)
}

/// The store of the table, without a session in it.
fn open(alloc: Global) -> Option<Service> {
    match read_script(alloc, SPACE) {
        Ok(script) => Service::start(alloc, &script).ok(),
        Err(_) => None,
    }
}

fn main(rt: HostRuntime) -> ExitCode {
    let alloc = rt.alloc();
    let Some(service) = open(alloc) else {
        return ExitCode::from(FAILED);
    };
    let store = Mutex::new(service);
    let mut clerks = [Clerk::new(1), Clerk::new(2), Clerk::new(3), Clerk::new(4)];
    thread::for_each_mut(
        &rt,
        &mut clerks,
        4,
        &|_place, clerk| {
            clerk.work(&rt, alloc, &store);
        },
    );
    let mut service = store.into_inner();
    let dropped = clerks
        .iter()
        .fold(0u32, |sum, clerk| sum.saturating_add(clerk.dropped));
    let Ok(receipt) = service.call_text(alloc, SessionId(1), b"search") else {
        return ExitCode::from(FAILED);
    };
    let Answer::Rows(rows) = &receipt.answer else {
        return ExitCode::from(FAILED);
    };
    let _ = println!(&rt;
        "{dropped} sessions were dropped, and {} are left:",
        rows.len()
    );
    for row in rows.as_slice() {
        let _ = println!(&rt; "{}", row.key.as_str());
    }
    ExitCode::SUCCESS
}

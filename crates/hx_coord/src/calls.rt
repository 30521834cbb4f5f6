ghost use Rattle.std.specs.Prelude.{◌≡◌, ◌≤◌, None, IfOk};
ghost use Rattle.hx_types.specs.declared.limits.TheConstants.{GREATEST_NUMBER};
ghost use Rattle.hx_model.specs.CoordinatorSteps.{add_step, adds, judged, stop_step, stops};
ghost use Rattle.hx_coord.specs.Changes.{IsOutputOf, done_by, issued_as, known_posts, numbered, standing, told};
ghost use Rattle.hx_coord.specs.Numbers.{Comes};

use crate::agendas::{Agenda, put_stop, record_number};
use crate::configs::config_with;
use crate::issuing::{Answered, AnsweredList, issue};
use crate::judging::judge;
use crate::numbers::{NewestList, newest_of};
use crate::outputs::{StepOutput, answer, no_output, outcome, posting};
use crate::posting::tell_server;
use crate::servers::is_in;
use hx_types::{Answer, Caller, Config, Exact, Memory, Message, Posts, RegionId, ServerId};
use std::alloc::Global;

/// How a call stands to the newest number of its session. That a call is known by its number, so
/// that a repeated one is done once, is this project's choice.
#[derive(Drop)]
enum Coming {
    /// A newer call was heard.
    Old,
    /// It is the newest, with its answer if it has one.
    Again(Option<Answer>),
    New,
}

/// A session asks for a server to be taken out. The server is asked to halt, and leaves once it
/// has; this is the project's choice.
#[cold]
#[inline(never)]
pub fn stop_server(
    alloc: Global,
    config: &Config,
    agenda: Agenda,
    caller: Caller,
    server: ServerId,
) -> Result<StepOutput, Memory>
    ensures { IfOk result (IsOutputOf config.now (stop_step (standing config.now agenda) caller.number server caller.session)) }
{
    match compare_number(alloc, &agenda.newest, caller)? {
        Coming::Old => Ok(no_output(alloc, agenda)),
        Coming::Again(known) => answer_again(alloc, agenda, caller, known),
        Coming::New => stop(alloc, config, agenda, caller, server),
    }
}

/// A session asks for a replica to be added, at the end of a region's list.
#[cold]
#[inline(never)]
pub fn add_replica(
    alloc: Global,
    config: &Config,
    agenda: Agenda,
    caller: Caller,
    server: ServerId,
    region: RegionId,
) -> Result<StepOutput, Memory>
    requires { config.now.epoch.0 ≤ GREATEST_NUMBER }
    ensures { IfOk result (IsOutputOf config.now (add_step (standing config.now agenda) caller.number server region caller.session)) }
{
    match compare_number(alloc, &agenda.newest, caller)? {
        Coming::Old => Ok(no_output(alloc, agenda)),
        Coming::Again(known) => answer_again(alloc, agenda, caller, known),
        Coming::New => add(alloc, config, agenda, caller, server, region),
    }
}

/// How a call stands to the newest number of its session.
fn compare_number(alloc: Global, newest: &NewestList, caller: Caller) -> Result<Coming, Memory>
    ensures { IfOk result (Comes newest.now caller) }
{
    match newest_of(newest, caller.session) {
        Some(known) if caller.number < known.number => Ok(Coming::Old),
        Some(known) if caller.number == known.number => {
            let answer = known.answer.copy(alloc)?;
            Ok(Coming::Again(answer))
        }
        _ => Ok(Coming::New),
    }
}

/// An answered call is answered again.
fn answer_again(
    alloc: Global,
    agenda: Agenda,
    caller: Caller,
    known: Option<Answer>,
) -> Result<StepOutput, Memory>
    ensures { IfOk result (λ made. made ≡ told agenda (known_posts caller known)) }
{
    match known {
        None => Ok(no_output(alloc, agenda)),
        Some(answer) => {
            let posts = outcome(alloc, caller, &answer)?;
            Ok(posting(alloc, agenda, posts))
        }
    }
}

/// A new stop: the server is asked to halt, unless it has left already.
#[tactic(auto, using(crate::proofs::Steps::stops_out, crate::proofs::Steps::stops_in))]
fn stop(
    alloc: Global,
    config: &Config,
    agenda: Agenda,
    caller: Caller,
    server: ServerId,
) -> Result<StepOutput, Memory>
    ensures { IfOk result (IsOutputOf config.now (stops (standing config.now agenda) caller server)) }
{
    if !is_in(config.servers.as_slice(), server) {
        let epoch = config.epoch;
        return answer(alloc, agenda, caller, Answer::Stopped { epoch });
    }
    let mut posts = Posts::new(alloc);
    tell_server(&mut posts, server, Message::Die)?;
    let mut agenda = agenda;
    put_stop(&mut agenda, caller, server)?;
    Ok(posting(alloc, agenda, posts))
}

/// A new add: where nothing is against it a configuration with the joiner is issued.
#[tactic(auto, using(crate::proofs::Steps::adds_not, crate::proofs::Steps::adds_now))]
fn add(
    alloc: Global,
    config: &Config,
    agenda: Agenda,
    caller: Caller,
    server: ServerId,
    region: RegionId,
) -> Result<StepOutput, Memory>
    requires { config.now.epoch.0 ≤ GREATEST_NUMBER }
    ensures { IfOk result (IsOutputOf config.now (adds (standing config.now agenda) caller server region (judged config.now server region))) }
{
    match judge(config, server, region) {
        Some(against) => answer(alloc, agenda, caller, against),
        None => {
            let joined = config_with(alloc, config, server, region)?;
            issue_for(alloc, agenda, caller, joined)
        }
    }
}

/// Issues the configuration that does a call, and answers it.
fn issue_for(
    alloc: Global,
    agenda: Agenda,
    caller: Caller,
    config: Config,
) -> Result<StepOutput, Memory>
    ensures { IfOk result (λ made. made ≡ issued_as (numbered agenda caller None) config (done_by caller config)) }
{
    let answer = Answer::Issued {
        epoch: config.epoch,
    };
    let mut answered = AnsweredList::new(alloc);
    answered.push(Answered { caller, answer })?;
    let mut agenda = agenda;
    record_number(&mut agenda, caller, None)?;
    issue(alloc, agenda, config, answered.as_slice())
}

ghost use Rattle.std.specs.Prelude.{◌≡◌, ◌∷◌, [], IfOk, OnOk};
ghost use Rattle.hx_types.specs.declared.traces.Note.TheVariants as a_note;
ghost use Rattle.hx_model.specs.CoordinatorSteps.{newest_answered, with_answer};
ghost use Rattle.hx_coord.specs.Changes.{issued_as};

use crate::agendas::Agenda;
use crate::numbers::{Newest, NewestList, is_newest_call, put_newest};
use crate::outputs::StepOutput;
use crate::posting::{installs, tell_outcomes};
use hx_types::{Answer, Caller, Config, Exact, Memory, Note, Notes, Sequence, Shared};
use std::alloc::Global;
use std::marker::Model;

/// A call that is answered by the configuration that is issued.
pub struct Answered {
    pub caller: Caller,
    pub answer: Answer,
}

impl Drop for Answered {
    fn drop(self) {
        let Answered {
            caller: _,
            answer: _,
        } = self;
    }
}

impl Model for Answered {
    ghost use Rattle.hx_model.specs.CoordinatorSteps.{Answered as AnsweredValue};

    ghost Value = { AnsweredValue };

    ghost view = { λ a. record { caller = a.caller; answer = a.answer } };
}

/// Calls in the order of their answers.
pub type AnsweredList = Sequence<Answered>;

/// Issues a configuration.
///
/// All servers and sessions hear it, and each call that it answers its answer. Configurations that
/// a coordinator numbers by epochs are HyperDex's; that each is issued at once, with one change, is
/// this project's choice.
#[cold]
#[inline(never)]
pub fn issue(
    alloc: Global,
    agenda: Agenda,
    config: Config,
    answered: &[Answered],
) -> Result<StepOutput, Memory>
    ensures { IfOk result (λ made. made ≡ issued_as agenda config answered.now) }
{
    let config = Shared::new(alloc, config)?;
    let mut posts = installs(alloc, &config, agenda.sessions)?;
    tell_outcomes(alloc, &mut posts, answered)?;
    let notes = note_issued(alloc, &config)?;
    let mut agenda = agenda;
    answer_all(alloc, &mut agenda.newest, answered)?;
    Ok(StepOutput {
        posts,
        notes,
        config: Some(config),
        agenda,
    })
}

fn note_issued(alloc: Global, config: &Shared<Config>) -> Result<Notes, Memory>
    ensures { IfOk result (λ notes. notes ≡ a_note.Issued config.now ∷ []) }
{
    let mut notes = Notes::new(alloc);
    let config = config.copy(alloc)?;
    notes.push(Note::Issued { config })?;
    Ok(notes)
}

fn answer_all(alloc: Global, newest: &mut NewestList, answered: &[Answered]) -> Result<(), Memory>
    ensures { OnOk result (newest.new ≡ newest_answered answered.now newest.old) }
{
    for each in answered {
        keep_answer(alloc, newest, each)?;
    }
    Ok(())
}

/// The answer of a call is kept where the call is its session's newest, so that a call that comes
/// again is answered again.
fn keep_answer(alloc: Global, newest: &mut NewestList, answered: &Answered) -> Result<(), Memory>
    ensures { OnOk result (newest.new ≡ with_answer answered.now newest.old) }
{
    if is_newest_call(newest, answered.caller) {
        let answer = answered.answer.copy(alloc)?;
        put_newest(
            newest,
            Newest {
                session: answered.caller.session,
                number: answered.caller.number,
                answer: Some(answer),
            },
        )?;
    }
    Ok(())
}

ghost use Rattle.std.specs.Prelude.{◌≡◌, ◌+◌, ◌<◌, ◌^◌, ◌∷◌, [], IfErr, IfOk, if◌then◌else◌, length};
ghost use Rattle.std.specs.List.{All};
ghost use Rattle.hx_types.specs.Fitting.{IsScript, is_done};
ghost use Rattle.hx_types.specs.declared.limits.TheConstants.{MOST_CALLS};
ghost use Rattle.hx_types.specs.Spaces.{IsRowOf};
ghost use Rattle.hx_service.specs.Groups.{FailsAt, HasMade, put_of, tests_from};
ghost use Rattle.hx_service.specs.Putting.{ArePut, MayPut, StopPutting};
ghost use Rattle.hx_service.specs.Services.{Grows};

use crate::errors::ServiceError;
use crate::receipts::Receipt;
use crate::services::Service;
use hx_types::{Answer, Assign, Assigns, Exact, Memory, Object, Op, Row, SessionId, Shared};
use std::alloc::Global;

/// Of how many objects a group's put was done, and how many it left as they were found or let be
/// for another reason.
#[derive(Clone, Copy)]
pub struct Grouped {
    /// How many puts were answered done.
    pub done: u32,
    /// How many were answered otherwise.
    pub left: u32,
}

/// A test of each value that the object has.
fn tests_of(alloc: Global, object: &Object) -> Result<Assigns, Memory>
    requires { length object.now < 2 ^ 32 }
    ensures { IfOk result (λ tests. tests ≡ tests_from 0 object.now) }
{
    let mut tests = Vec::new(alloc);
    let mut attribute = 0u32;
    let mut rest = object.as_slice();
    'values: while let Some((value, after)) = rest.split_first() {
        attribute += 1;
        let value = value.copy(alloc)?;
        tests.push(Assign { attribute, value })?;
        rest = after;
    }
    Assigns::from_vec(alloc, tests)
}

/// The put of a row.
fn put_of(alloc: Global, row: &Row, sets: &Assigns) -> Result<Op, Memory>
    requires { length row.now.object < 2 ^ 32 }
    ensures { IfOk result (λ op. op ≡ put_of sets.now row.now) }
{
    let key = row.key.copy(alloc)?;
    let tests = tests_of(alloc, &row.object)?;
    let sets = sets.copy(alloc)?;
    Ok(Op::Cput { key, tests, sets })
}

/// The counts with a put more.
fn with_put(grouped: Grouped, receipt: &Receipt) -> Grouped
    requires { grouped.done + grouped.left < MOST_CALLS }
    ensures done { result.done ≡ grouped.done + (if is_done receipt.now.answer then 1 else 0) }
    ensures left { result.left ≡ grouped.left + (if is_done receipt.now.answer then 0 else 1) }
{
    let Grouped { done, left } = grouped;
    if matches!(receipt.answer, Answer::Done) {
        Grouped {
            done: done + 1,
            left,
        }
    } else {
        Grouped {
            done,
            left: left + 1,
        }
    }
}

/// Makes the put of a row.
fn put_row(
    alloc: Global,
    service: &mut Service,
    session: SessionId,
    row: &Row,
    sets: &Assigns,
) -> Result<Receipt, ServiceError>
    requires may { MayPut service.old session sets.now }
    requires row { IsRowOf service.old.script.space row.now }
    ensures made { IfOk result (λ r. HasMade service.old session (put_of sets.now row.now ∷ []) service.new (r ∷ [])) }
    ensures may { IfOk result (λ r. MayPut service.new session sets.now) }
    ensures fails { IfErr result (FailsAt service.old session (put_of sets.now row.now) service.new) }
    ensures valid { IsScript service.new.script }
    ensures grows { Grows service.old service.new }
{
    let _ = service.trace();
    let op = match put_of(alloc, row, sets) {
        Ok(op) => op,
        Err(_) => return Err(ServiceError::Memory),
    };
    let called = service.call(alloc, session, op);
    let _ = service.trace();
    called
}

/// Makes the put of each row, and counts what they are answered.
pub fn put_rows(
    alloc: Global,
    service: &mut Service,
    session: SessionId,
    rows: &[Shared<Row>],
    sets: &Assigns,
) -> Result<Grouped, ServiceError>
    requires may { MayPut service.old session sets.now }
    requires rows { All (IsRowOf service.old.script.space) rows.now }
    ensures put { IfOk result (ArePut service.old session sets.now rows.now service.new) }
    ensures stopped { IfErr result (StopPutting service.old session sets.now rows.now service.new) }
    ensures grows { Grows service.old service.new }
{
    let mut grouped = Grouped { done: 0, left: 0 };
    let mut rest = rows;
    'rows: while let Some((row, after)) = rest.split_first() {
        let receipt = put_row(alloc, service, session, row.get(), sets)?;
        grouped = with_put(grouped, &receipt);
        rest = after;
    }
    Ok(grouped)
}

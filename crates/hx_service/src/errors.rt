ghost use Rattle.std.specs.Prelude.{◌≡◌};
ghost use Rattle.hx_service.specs.declared.errors.ServiceError.TheVariants as an_error;

use hx_types::{Actor, Memory};
use hx_world::DrainError;

/// Why a call has no receipt. The entries that were made stay, and so does the call, once it was
/// submitted.
#[derive(Clone, Copy)]
pub enum ServiceError {
    /// There was no memory for the call, for an entry or for the receipt.
    Memory,
    /// The service has 16,384 calls, the most that a script may have. Nothing changes.
    Full,
    /// The next entry is one of this actor, which has made 1,048,576 entries and makes no more.
    Worn(Actor),
    /// Nothing is left to do, and the call of this number hasn't ended. It may end later, when
    /// another call moves the world on.
    Unanswered { number: u32 },
}

impl From<Memory> for ServiceError {
    ghost from_gives = { λ _ e. e ≡ an_error.Memory };

    fn from(_: Memory) -> ServiceError {
        ServiceError::Memory
    }
}

impl From<DrainError> for ServiceError {
    ghost use Rattle.hx_service.specs.Errors.{error_of_drain};

    ghost from_gives = { λ error e. e ≡ error_of_drain error };

    fn from(error: DrainError) -> ServiceError {
        match error {
            DrainError::Memory => ServiceError::Memory,
            DrainError::Worn(actor) => ServiceError::Worn(actor),
        }
    }
}

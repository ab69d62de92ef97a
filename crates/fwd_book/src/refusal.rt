//! Why an output does not admit a request.

ghost use Rattle.std.specs.Prelude.{◌≡◌};
ghost use Rattle.fwd_book.specs.Refusals.{refusal_as};

use fwd_chunks::AdmitError;
use thiserror::Error;

/// Why an output does not admit a request. Nothing has changed, and the request comes back.
#[derive(Clone, Copy, Debug, PartialEq, Eq, Error)]
pub enum AdmitRefusal {
    /// Memory was refused.
    #[error("out of memory")]
    Memory = 0,
    /// The output still owes an answer to a request of this connection and number.
    #[error("the request is already owed an answer")]
    NotNow = 13,
    /// The bytes that are not settled, with the request's, would be more than the total limit.
    #[error("the output is full")]
    Full = 14,
    /// A chunk number above 2^64 - 1 would be needed, or that many entries would have been
    /// accepted.
    #[error("the output's numbers are spent")]
    NumbersSpent = 15,
}

impl From<AdmitError> for AdmitRefusal {
    ghost from_gives = { λ error refusal. refusal ≡ refusal_as error };

    fn from(error: AdmitError) -> Self {
        match error {
            AdmitError::Full => AdmitRefusal::Full,
            AdmitError::NumbersSpent => AdmitRefusal::NumbersSpent,
            AdmitError::Memory => AdmitRefusal::Memory,
        }
    }
}

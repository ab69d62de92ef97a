use thiserror::Error;

/// Why a buffer does not admit a request. Nothing has changed.
#[derive(Clone, Copy, Debug, PartialEq, Eq, Error)]
pub enum AdmitError {
    /// The bytes that are not settled, with the request's, would be more than the total limit.
    #[error("the buffer is full")]
    Full,
    /// A chunk number above 2^64 - 1 would be needed, or that many entries would have been
    /// accepted.
    #[error("the buffer's numbers are spent")]
    NumbersSpent,
    /// Memory was refused.
    #[error("out of memory")]
    Memory,
}

/// The request of a connection. A connection's requests are numbered from 1.
#[derive(Clone, Copy, PartialEq, Eq)]
pub struct Origin {
    /// The connection's id.
    pub conn: u64,
    /// The request's number.
    pub request: u64,
}

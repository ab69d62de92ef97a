/// Why an event changed nothing.
#[derive(Clone, Copy, Debug)]
pub enum Refusal {
    /// The session is down. This is numbered among the session faults.
    NotUp = 7,
    /// A fault closed the connection.
    Closed = 11,
    /// No such connection, output, worker or server.
    NoSuch = 12,
    /// The state does not allow it.
    NotNow = 13,
}

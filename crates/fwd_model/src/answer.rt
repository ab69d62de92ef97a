use crate::fault::Refusal;
use crate::numbers::Numbers;
use fwd_base::{Bytes, Seq};
use fwd_session::SessionFault;
use fwd_source::SourceFault;

/// What the relay answers to an event. `out` is what the event appended to the bytes that wait to
/// be sent.
#[derive(Drop)]
pub enum Answer {
    /// The connection stands. Where a shared key is set, its HELO waits to be sent.
    Accepted {
        out: Bytes,
    },
    /// So many requests of the connection wait.
    Requests {
        waiting: usize,
        out: Bytes,
    },
    /// A fault closed the connection; the requests before it still wait.
    Faulted {
        fault: SourceFault,
        waiting: usize,
        out: Bytes,
    },
    /// The connection's request of this number was entered at the output, with so many entries.
    Admitted {
        request: u64,
        entries: usize,
    },
    /// No output's pattern matches the tag of the connection's first waiting request. The
    /// connection is closed without an answer to its source.
    NoRoute,
    /// The bytes that the output holds, with the request's, would be more than its total limit.
    /// The connection is closed without an answer to its source.
    Full,
    /// The output has no numbers left. The connection is closed without an answer to its source.
    NumbersSpent,
    /// So many chunks were closed.
    Closed {
        chunks: usize,
    },
    /// The server that the worker tries, by its place in the output's list, if one is usable.
    Chose {
        server: Option<u16>,
    },
    /// Nothing else is to be told.
    Done,
    /// The worker took the chunk of this number, with so many entries.
    Took {
        number: u64,
        entries: usize,
    },
    /// No chunk is free.
    TookNothing,
    /// The chunk's frame, which now waits to be sent.
    Frame {
        out: Bytes,
    },
    /// What was heard from the server asks for nothing.
    Quiet {
        out: Bytes,
    },
    /// The handshake is done: chunks may be loaded.
    Ready {
        out: Bytes,
    },
    /// The server acknowledged chunks of the session, one or more.
    Acked {
        out: Bytes,
    },
    /// A fault put the session down.
    SessionFaulted(SessionFault),
    /// The chunk, of so many entries, is settled.
    Settled {
        entries: usize,
    },
    /// Whether the session is late. Then it is down.
    Late {
        late: bool,
    },
    /// The worker has neither a session nor a chunk any more. The chunks of these numbers are put
    /// back, by rising number: those that it had.
    Ended {
        numbers: Numbers,
    },
    /// The connection's requests of these numbers are told that all their entries were
    /// acknowledged.
    Told {
        requests: Seq<u64>,
        out: Bytes,
    },
    /// So many requests of the connection are owed no answer any more.
    Forgot {
        requests: usize,
    },
    /// The event changed nothing.
    Refused(Refusal),
    /// Memory ran out, and the event changed nothing.
    Memory,
}

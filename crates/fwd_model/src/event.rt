use fwd_base::Bytes;
use fwd_chunks::{FlushKind, Wanted};
use fwd_session::OwnedSalt;

/// How a worker's session ends.
#[derive(Clone, Copy)]
pub enum EndKind {
    /// The server is at fault only for what it owed: the session is down, its handshake is not
    /// done, or a chunk was loaded and not acknowledged.
    Kept,
    /// The server is at fault whatever it owed.
    Lost,
}

/// What happens to the relay. Moments are in milliseconds.
#[derive(Drop)]
pub enum Event {
    /// A connection comes, with the nonce and the auth salt of its handshake.
    Accept {
        conn: u64,
        nonce: [u8; 16],
        auth: [u8; 16],
    },
    /// Bytes are read from a connection.
    Piece {
        conn: u64,
        bytes: Bytes,
    },
    /// The first waiting request of a connection goes to an output.
    Admit {
        conn: u64,
        output: u16,
        now: u64,
    },
    /// Open chunks of an output are closed.
    Flush {
        output: u16,
        now: u64,
        kind: FlushKind,
    },
    /// A worker of an output asks which of the output's servers it is to try.
    Choose {
        output: u16,
        worker: u16,
        now: u64,
    },
    /// A worker of an output has a link to one of the output's servers. The salt is for the PING.
    Up {
        output: u16,
        worker: u16,
        server: u16,
        salt: OwnedSalt,
        now: u64,
    },
    /// A worker takes a free chunk of its output: the least of those that it wants.
    Take {
        output: u16,
        worker: u16,
        now: u64,
        wanted: Wanted,
    },
    /// The chunk that a worker took is put into its session's waiting bytes.
    Load {
        output: u16,
        worker: u16,
        now: u64,
    },
    /// A session's link took so many of the bytes that wait to be sent.
    Wrote {
        output: u16,
        worker: u16,
        count: u64,
    },
    /// Bytes are read from a session's link.
    Heard {
        output: u16,
        worker: u16,
        bytes: Bytes,
    },
    /// The first of a worker's acknowledged chunks leaves its output.
    Settle {
        output: u16,
        worker: u16,
    },
    /// It is asked whether a session is late.
    Late {
        output: u16,
        worker: u16,
        now: u64,
    },
    /// A worker's session is no more, and the chunks that it has go back to its output.
    End {
        output: u16,
        worker: u16,
        kind: EndKind,
        now: u64,
    },
    /// A connection's requests whose entries are all acknowledged are told so.
    Collect {
        conn: u64,
        output: u16,
    },
    /// Nobody is to be told of a connection's requests at an output any more. Their entries stay.
    Forget {
        conn: u64,
        output: u16,
    },
    /// A connection's link took so many of the bytes that wait to be sent.
    Drained {
        conn: u64,
        count: u64,
    },
    /// A connection is known no more. Its id stays used, and what it asked for stands. The history
    /// keeps it, marked as gone, since its requests are read against its bytes.
    Shut {
        conn: u64,
    },
}

//! What a relay counts from its start on, beside what its outputs hold.

ghost use Rattle.std.specs.Prelude.{IfOk};
ghost use Rattle.fwd_monitor.specs.Copies.{IsCopyOf};

use std::alloc::{AllocError, Global};
use std::net::SocketAddr;

/// How many sources the relay closed, by why.
#[derive(Clone, Copy)]
pub struct SourcesClosed {
    /// Its bytes begin no value.
    pub reserved: u64,
    /// A value is too deep.
    pub too_deep: u64,
    /// A value is too long.
    pub too_long: u64,
    /// A value is no request.
    pub bad_shape: u64,
    /// A request's tag is none.
    pub bad_tag: u64,
    /// An entry of a request is none.
    pub bad_entry: u64,
    /// A request's option is none.
    pub bad_option: u64,
    /// A request is compressed in a way that the relay does not read.
    pub compressed: u64,
    /// Its first value is no PING, where one is due.
    pub not_ping: u64,
    /// Its PING was denied.
    pub denied: u64,
    /// No number was left for one more request.
    pub closed: u64,
    /// No output takes its request's tag.
    pub no_route: u64,
    /// It has not logged in.
    pub no_login: u64,
    /// It was silent, and a new one took its place.
    pub idle: u64,
    /// An output did not admit its request.
    pub refused: RequestsRefused,
}

/// How many requests were not admitted, by why. Each closes its source.
#[derive(Clone, Copy)]
pub struct RequestsRefused {
    /// Memory was refused.
    pub memory: u64,
    /// The output owes an answer to another request of the same number.
    pub not_now: u64,
    /// The output is full.
    pub full: u64,
    /// The output's numbers are spent.
    pub numbers_spent: u64,
}

/// How many connections were closed at once, since they were too many.
#[derive(Clone, Copy)]
pub struct OverLimit {
    pub sources: u64,
    pub monitors: u64,
}

/// How often memory was refused, by what for.
#[derive(Clone, Copy)]
pub struct MemoryRefused {
    /// For a source, which is closed.
    pub source: u64,
    /// For a monitor, which is closed.
    pub monitor: u64,
    /// For an output's receipts.
    pub output: u64,
    /// For what workers tell.
    pub news: u64,
    /// It was so short that no source was read for a while.
    pub pause: u64,
}

/// How many sessions with a server were lost, by why.
#[derive(Clone, Copy)]
pub struct SessionsLost {
    /// There was no connection.
    pub connect: u64,
    /// It could not be read.
    pub read: u64,
    /// It could not be written.
    pub write: u64,
    /// No descriptor was left for it.
    pub descriptors: u64,
    /// Memory was refused.
    pub memory: u64,
    /// The server closed its side.
    pub closed: u64,
    /// It sent what is no reply.
    pub bad_reply: u64,
    /// It acknowledged another chunk.
    pub wrong_ack: u64,
    /// It acknowledged a chunk that was not sent whole yet.
    pub early_ack: u64,
    /// The first that it sent is no HELO, where one is due.
    pub not_helo: u64,
    /// It refused the login.
    pub denied: u64,
    /// It does not know the shared key.
    pub bad_digest: u64,
    /// It owed an answer for too long.
    pub late: u64,
}

/// What was counted of a server.
#[derive(Clone, Copy)]
pub struct ServerTally {
    /// Its output's number.
    pub output: u16,
    /// Its place among the servers of that, from 0.
    pub place: u16,
    /// Where it is reached.
    pub address: SocketAddr,
    /// Its sessions that were lost.
    pub lost: SessionsLost,
    /// The chunks that it acknowledged.
    pub acknowledged: u64,
    /// The chunks that were under way to it in sessions when these were lost: they are sent again.
    pub resent: u64,
    /// It was lost, and acknowledged no chunk since.
    pub is_lost: bool,
}

/// What was counted of an output.
#[derive(Clone, Copy)]
pub struct OutputTally {
    /// The requests that it did not admit.
    pub refused: RequestsRefused,
    /// The entries that it accepted of sources that asked for no acknowledgement.
    pub without_ack: u64,
    /// The bytes of the entries that it accepted, as its limit counts them.
    pub accepted_bytes: u64,
    /// The bytes of those that are settled.
    pub settled_bytes: u64,
    /// How often a chunk was lost that a server seems to refuse.
    pub chunks_refused: u64,
}

/// What was counted since the relay started.
#[derive(Drop)]
pub struct RelayTally {
    pub closed: SourcesClosed,
    pub over_limit: OverLimit,
    pub memory: MemoryRefused,
    /// Of each output, in the settings' order.
    pub outputs: Vec<OutputTally>,
    /// Of each output's servers, in the settings' order.
    pub servers: Vec<ServerTally>,
}

impl RelayTally {
    /// A copy. The only error is out of memory.
    pub fn to_owned(&self, alloc: Global) -> Result<RelayTally, AllocError>
        ensures { IfOk result (IsCopyOf self.now) }
    {
        Ok(RelayTally {
            closed: self.closed,
            over_limit: self.over_limit,
            memory: self.memory,
            outputs: Vec::from_slice(alloc, &self.outputs)?,
            servers: Vec::from_slice(alloc, &self.servers)?,
        })
    }
}

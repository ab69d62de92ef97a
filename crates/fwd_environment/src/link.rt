//! What a worker asks of the world: links to servers, moments, and leave to go on.

ghost use Rattle.std.specs.Prelude.{
  ◌≡◌,
  ◌≤◌,
  ◌<◌,
  List,
  [],
  ◌∷◌,
  ◌++◌,
  length,
  IfOk,
  IfErr,
};
ghost use Rattle.std.specs.List.{concat};
ghost use Rattle.fwd_chunks.specs.Lending.{AreSome};
ghost use Rattle.fwd_environment.specs.Links.{Call, DidWrite, HasOffered, count_read, read_into};

use crate::denial::Denial;
use crate::refused::Refused;
use fwd_chunks::{FlushKind, WriteSlices};
use fwd_session::SessionFault;
use std::sync::Wait;

/// What a read of a link gave.
#[derive(Clone, Copy)]
pub enum Read {
    /// So many bytes, at the front of the room.
    Bytes(usize),
    /// No byte yet.
    Nothing,
    /// No byte any more: the server closed its side.
    Closed,
}

/// Why a link cannot go on.
#[derive(Clone, Copy, Debug)]
pub enum LinkFault {
    /// It could not be had, for another reason than those below.
    Connect = 1,
    /// It could not be read.
    Read = 2,
    /// It could not be written.
    Write = 3,
    /// It could not be had, since no descriptor is left for it.
    Descriptors = 4,
    /// It could not be had, since memory was refused for it: no server is to blame.
    Memory = 5,
    /// It could not be had: nobody listens there.
    Refused = 6,
    /// It could not be had: nothing answered in time.
    Unanswered = 7,
    /// It could not be had: the system knows no way there.
    Unreachable = 8,
}

/// A link to a server, which tells its calls.
pub trait Link: Drop {
    /// Its calls so far, in their order: what each was asked, and what it answered.
    ghost calls: { Self → List Call };

    /// Reads once, into this room. It may wait.
    fn read<R: Wait>(&mut self, rt: &R, room: &mut [u8]) -> Result<Read, LinkFault>
        ensures told { calls self.new ≡ calls self.old ++ read_into room.new result ∷ [] }
        ensures within { count_read result ≤ length room.new }
        ensures fault { IfErr result (λ fault. fault ≡ LinkFault.Read) };

    /// Writes once: how many of these bytes it took, which may be none. It may wait.
    fn write<R: Wait>(&mut self, rt: &R, bytes: &[u8]) -> Result<usize, LinkFault>
        ensures told { calls self.new ≡ calls self.old ++ DidWrite bytes.now result ∷ [] }
        ensures within { IfOk result (λ count. count ≤ length bytes.now) }
        ensures fault { IfErr result (λ fault. fault ≡ LinkFault.Write) };

    /// Writes once, from the first of these pieces on, as if they were one: how many bytes it took,
    /// which may be none. It may wait. A link without a call for several takes of the first alone.
    fn write_pieces<R: Wait>(
        &mut self,
        rt: &R,
        pieces: &WriteSlices<'_>,
    ) -> Result<usize, LinkFault>
        requires some { 0 < length (concat pieces.now) }
        requires each { AreSome pieces.now }
        ensures told { HasOffered (concat pieces.now) (calls self.old) (calls self.new) result }
        ensures fault { IfErr result (λ fault. fault ≡ LinkFault.Write) }
    {
        match pieces.as_slice().first() {
            None => unreachable!(),
            Some(piece) => self.write(rt, piece),
        }
    }
}

/// Makes links.
pub trait Hub {
    /// A link that it makes.
    type Line: Link;

    /// A link to the server of this place in the output's list, of which no call was made yet. It
    /// may wait.
    fn connect<R: Wait>(&mut self, rt: &R, server: u16) -> Result<Self::Line, LinkFault>
        ensures { IfOk result (λ link. Self.Line.calls link ≡ []) };
}

/// Tells moments.
pub trait Clock {
    /// The moment, in milliseconds.
    fn now(&mut self) -> u64;
}

/// Where a worker stands.
#[derive(Clone, Copy)]
pub enum Place {
    BeforeTake,
    BeforeLoad,
    BeforeSettle,
    AfterSettle,
}

/// What a gate answers.
#[derive(Clone, Copy)]
pub enum Pass {
    /// The worker goes on.
    Go,
    /// The worker does nothing in this turn.
    Hold,
    /// The worker ends.
    Stop,
}

/// Why a session with a server ended, and the server counts as lost.
#[derive(Clone, Copy)]
pub enum LossReason {
    /// Its link could not be had, or failed.
    Link(LinkFault),
    /// The server closed its side.
    Closed,
    /// What the server sent put the session down.
    Fault(SessionFault),
    /// The server owed the rest of the handshake or an acknowledgement for too long.
    Late,
    /// Memory was refused.
    Memory,
}

/// What a worker tells as it goes on.
#[derive(Clone, Copy)]
pub enum WorkerEvent {
    /// The entries of the chunk of this number are settled, by this server.
    Settled {
        number: u64,
        server: u16,
    },
    /// A server is lost, in a session of which so many chunks were not acknowledged: they are sent
    /// again.
    Lost {
        server: u16,
        why: LossReason,
        chunks: u64,
    },
    /// A chunk is sent to this server, and the worker's last one was sent to another.
    Went {
        server: u16,
    },
}

/// Lets workers go on, holds them up, or ends them; and is told what they came to.
pub trait Gate {
    /// Whether the worker of this number goes on from where it stands, in its turn of this number,
    /// counted from 0. It may wait.
    fn pass<R: Wait>(&mut self, rt: &R, worker: u16, place: Place, turn: u64) -> Pass;

    /// Which open chunks may be closed for the worker of this number, if it looks for a chunk and
    /// none is free: those that are due, or all, which are then sent before they are due. If
    /// nothing else is said it is those that are due.
    fn closes(&self, _worker: u16) -> FlushKind {
        FlushKind::Due
    }

    /// The worker of this number tells what its turn came to.
    fn hear<R: Wait>(&mut self, _rt: &R, _worker: u16, _event: WorkerEvent) {}

    /// The worker of this number tells why a server does not let it in, just before it tells that
    /// that server is lost.
    fn hear_denial<R: Wait>(&mut self, _rt: &R, _worker: u16, _denial: Denial) {}

    /// The worker of this number tells that a server seems to refuse a chunk.
    fn hear_refused<R: Wait>(&mut self, _rt: &R, _worker: u16, _refused: Refused) {}
}

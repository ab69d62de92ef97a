//! Bytes over a stream that does not wait.

ghost use Rattle.std.specs.Prelude.{◌≡◌, ◌≤◌, ◌<◌, List, [], ◌∷◌, ◌++◌, true, false, length, take, IfOk};
ghost use Rattle.fwd_peers.specs.Streams as streams;
ghost use Rattle.fwd_peers.specs.Streams.{StreamCall, call_of};

use crate::calls::StreamCalls;
use crate::peer_socket::PeerSocket;
use std::io;
use std::io::ErrorKind;
use std::marker::Model;

/// How a visit to a stream ended.
#[derive(Clone, Copy)]
pub enum Visit {
    /// The stream would wait: it tells of itself once it is ready again.
    Waits,
    /// There is no more room, and there may be more bytes.
    Full,
    /// The other side closed, or the stream failed.
    Ended,
}

impl Visit {
    /// Whether there may be more bytes.
    pub fn is_full(self) -> bool
        ensures { result ≡ streams.is_full self }
    {
        match self {
            Visit::Full => true,
            Visit::Waits | Visit::Ended => false,
        }
    }
}

/// What one call of a stream does to a visit: so many bytes were moved and it goes on, or it ends
/// so. A call that moves no byte, and is no error, shows that the other side is gone.
fn after_call(call: io::Result<usize>) -> Result<usize, Visit>
    ensures { result ≡ streams.after_call call }
{
    match call {
        Ok(0) => Err(Visit::Ended),
        Ok(count) => Ok(count),
        Err(error) => match error.kind() {
            ErrorKind::WouldBlock => Err(Visit::Waits),
            ErrorKind::Interrupted => Ok(0),
            _ => Err(Visit::Ended),
        },
    }
}

/// Whether a visit stops behind a read that gave so many bytes, into room for so many: it gave some
/// and did not fill it, and the visit is not to be made to its end.
fn stops_at(count: usize, room: usize, to_end: bool) -> bool
    ensures { result ≡ true → (to_end ≡ false) × (0 < count) × (count < room) }
{
    !to_end && 0 < count && count < room
}

/// Whether a visit that reads is made to its end: where that is asked for, and where a read that
/// does not fill its room says nothing of what is there.
fn is_to_end(to_end: bool, is_spent_by_short_read: bool) -> bool
    ensures { result ≡ false → to_end ≡ false }
{
    to_end || !is_spent_by_short_read
}

/// A stream that does not wait, which tells its calls.
pub trait Stream: Drop {
    /// What read of it so far, in the order of the calls: what each was asked, and what it
    /// answered.
    ghost reads: { Self → List StreamCall };

    /// What wrote to it so far.
    ghost writes: { Self → List StreamCall };

    /// Whether a read that gives some bytes and does not fill its room says that no more are there,
    /// and that the stream tells of itself once there are. Where it does not, the stream is read
    /// until it would wait.
    fn is_spent_by_short_read(&self) -> bool;

    /// Reads once, into this room.
    fn read(&mut self, room: &mut [u8]) -> io::Result<usize>
        ensures within { IfOk result (λ count. count ≤ length room.new) }
        ensures told { reads self.new ≡ reads self.old ++ call_of room.new result ∷ [] }
        ensures rest { writes self.new ≡ writes self.old };

    /// Writes once: how many of these bytes it took.
    fn write(&mut self, bytes: &[u8]) -> io::Result<usize>
        ensures within { IfOk result (λ count. count ≤ length bytes.now) }
        ensures told { writes self.new ≡ writes self.old ++ call_of bytes.now result ∷ [] }
        ensures rest { reads self.new ≡ reads self.old };

    /// Reads once, and says what that does to the visit.
    fn read_in_visit(&mut self, room: &mut [u8]) -> Result<usize, Visit>
        ensures within { IfOk result (λ count. count ≤ length room.new) }
        ensures told { streams.IsCall (reads self.old) room.new result (reads self.new) }
        ensures rest { writes self.new ≡ writes self.old }
    {
        after_call(self.read(room))
    }

    /// Writes once, and says what that does to the visit.
    fn write_in_visit(&mut self, bytes: &[u8]) -> Result<usize, Visit>
        ensures within { IfOk result (λ count. count ≤ length bytes.now) }
        ensures told { streams.IsCall (writes self.old) bytes.now result (writes self.new) }
        ensures rest { reads self.new ≡ reads self.old }
    {
        after_call(self.write(bytes))
    }

    /// Reads until the stream would wait or ended, or the room is full: how many bytes there are,
    /// at the front of the room, and how the visit ended. Where a read that does not fill its room
    /// says that no more is there, the next one would wait, and is not made. Where the other side
    /// is said to have closed it is made, to its end: the stream tells of that once, also where
    /// bytes came with it.
    fn fill(&mut self, room: &mut [u8], to_end: bool) -> (usize, Visit)
        ensures within { result.0 ≤ length room.new }
        ensures visit { streams.IsReading to_end
            (length room.new)
            (reads self.old)
            (take result.0 room.new)
            result.1
            (reads self.new) }
        ensures rest { writes self.new ≡ writes self.old }
    {
        let is_whole = is_to_end(to_end, self.is_spent_by_short_read());
        let mut count = 0;
        for _ in 0..room.len() {
            if count == room.len() {
                break;
            }
            let left = room.len() - count;
            match self.read_in_visit(&mut room[count..]) {
                Ok(more) => {
                    let is_last = stops_at(more, left, is_whole);
                    count += more;
                    if is_last {
                        return (count, Visit::Waits);
                    }
                }
                Err(visit) => return (count, visit),
            }
        }
        (count, Visit::Full)
    }

    /// Writes until the stream would wait or ended, or all bytes are taken: how many of them it
    /// took, and how the visit ended.
    fn send(&mut self, bytes: &[u8]) -> (usize, Visit)
        ensures within { result.0 ≤ length bytes.now }
        ensures visit { streams.IsVisit
            (length bytes.now)
            (writes self.old)
            (take result.0 bytes.now)
            result.1
            (writes self.new) }
        ensures rest { reads self.new ≡ reads self.old }
    {
        let mut count = 0;
        for _ in 0..bytes.len() {
            if count == bytes.len() {
                break;
            }
            match self.write_in_visit(&bytes[count..]) {
                Ok(more) => count += more,
                Err(visit) => return (count, visit),
            }
        }
        (count, Visit::Full)
    }
}

/// A stream that does not wait. What it answered is kept for contracts alone, and takes no memory:
/// they claim that it answered so, and nothing of what the other side sent or got.
#[derive(Drop)]
pub struct PeerStream {
    pub socket: PeerSocket,
    /// What read of it.
    reads: StreamCalls,
    /// What wrote to it.
    writes: StreamCalls,
}

impl Model for PeerStream {
    ghost use Rattle.fwd_peers.specs.Streams.{StreamShown};

    ghost Value = { StreamShown };

    ghost view = { λ s. record { reads = s.reads.list; writes = s.writes.list } };
}

impl PeerStream {
    /// A stream of which no call was made yet.
    pub fn new(socket: PeerSocket) -> PeerStream
        ensures { result ≡ record { reads = []; writes = [] } }
    {
        PeerStream {
            socket,
            reads: StreamCalls::none(),
            writes: StreamCalls::none(),
        }
    }
}

impl Stream for PeerStream {
    ghost reads = { λ s. s.reads };

    ghost writes = { λ s. s.writes };

    fn is_spent_by_short_read(&self) -> bool {
        self.socket.is_spent_by_short_read()
    }

    fn read(&mut self, room: &mut [u8]) -> io::Result<usize> {
        let answer = self.socket.read(room);
        let room = &*room;
        self.reads = self.reads.and(&room, &answer);
        answer
    }

    fn write(&mut self, bytes: &[u8]) -> io::Result<usize> {
        let answer = self.socket.write(bytes);
        self.writes = self.writes.and(&bytes, &answer);
        answer
    }
}

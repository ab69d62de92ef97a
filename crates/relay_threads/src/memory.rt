//! A link in memory, whose server acknowledges each whole frame; and what else a worker asks for.

ghost use Rattle.std.specs.Prelude.{◌≡◌, ◌≤◌, Ok, [], length};
ghost use Rattle.fwd_environment.specs.Links.{count_read};

use fwd_msgpack::{Cut, Limits, cut};
use fwd_workers::{Calls, Clock, Gate, Hub, Link, LinkFault, Pass, Place, Read};
use std::alloc::Global;
use std::sync::Wait;

/// What an acknowledgement begins with: a map of one, `ack`, and a str of 24 bytes.
const ACK: [u8; 6] = *b"\x81\xa3ack\xb8";

/// The bytes of a chunk's name, which are the last of its frame.
const NAME: usize = 24;

/// A link to a server that acknowledges each frame once it has it whole.
#[derive(Drop)]
pub struct Wire {
    alloc: Global,
    /// All bytes that it took.
    taken: Vec<u8>,
    /// How many of them were acknowledged.
    answered: usize,
    /// The most bytes that a write takes.
    most: usize,
    calls: Calls,
}

/// Gives bytes, if there is room for them.
pub fn give(room: &mut [u8], bytes: &[u8]) -> Read
    ensures { count_read (Ok result) ≤ length room.new }
{
    let count = bytes.len();
    if count > room.len() {
        return Read::Nothing;
    }
    room[..count].copy_from_slice(bytes);
    Read::Bytes(count)
}

impl Wire {
    /// A link that takes at most so many bytes at once.
    pub fn new(alloc: Global, most: usize) -> Wire
        ensures { result.calls.list ≡ [] }
    {
        Wire {
            alloc,
            taken: Vec::new(alloc),
            answered: 0,
            most,
            calls: Calls::none(),
        }
    }

    /// Where its memory comes from.
    pub fn alloc(&self) -> Global {
        self.alloc
    }

    /// Whether it took just these bytes.
    pub fn has_taken(&self, bytes: &[u8]) -> bool {
        self.taken.as_slice() == bytes
    }

    /// How many bytes it took.
    pub fn count(&self) -> usize {
        self.taken.len()
    }

    /// The frame that begins behind so many bytes, if it is there whole.
    pub fn frame_from(&self, from: usize) -> Option<&[u8]> {
        let rest = self.taken.get(from..)?;
        match cut(rest, Limits::WIDEST) {
            Cut::Whole(value, _) => Some(value.bytes()),
            _ => None,
        }
    }

    /// The end of the first frame that is not acknowledged, if it is there whole.
    fn frame_end(&self) -> Option<usize> {
        let frame = self.frame_from(self.answered)?;
        self.answered.checked_add(frame.len())
    }

    /// The acknowledgement of the frame that ends here.
    fn reply(&self, end: usize) -> Option<[u8; 30]> {
        let name = self.taken.get(end.checked_sub(NAME)?..end)?;
        if name.len() != NAME {
            return None;
        }
        let mut reply = [0; 30];
        reply[..6].copy_from_slice(&ACK);
        reply[6..].copy_from_slice(name);
        Some(reply)
    }

    /// Gives the acknowledgement of the next frame, if that is there whole.
    pub fn answer(&mut self, room: &mut [u8]) -> Read
        ensures given { count_read (Ok result) ≤ length room.new }
        ensures calls { self.new.calls ≡ self.old.calls }
    {
        let Some(end) = self.frame_end() else {
            return Read::Nothing;
        };
        let Some(reply) = self.reply(end) else {
            return Read::Nothing;
        };
        self.answered = end;
        give(room, &reply)
    }

    /// Takes of these bytes what it takes at once, if there is memory for it.
    pub fn keep(&mut self, bytes: &[u8]) -> usize
        ensures taken { result ≤ length bytes.now }
        ensures calls { self.new.calls ≡ self.old.calls }
    {
        let count = bytes.len().min(self.most);
        match self.taken.extend_from_slice(&bytes[..count]) {
            Ok(()) => count,
            Err(_) => 0,
        }
    }
}

impl Link for Wire {
    ghost calls = { λ w. w.calls.list };

    fn read<R: Wait>(&mut self, _rt: &R, room: &mut [u8]) -> Result<Read, LinkFault> {
        let read = self.answer(room);
        let room = &*room;
        self.calls = self.calls.and_read(&room, &Ok(read));
        Ok(read)
    }

    fn write<R: Wait>(&mut self, _rt: &R, bytes: &[u8]) -> Result<usize, LinkFault> {
        let count = self.keep(bytes);
        self.calls = self.calls.and_write(&bytes, &Ok(count));
        Ok(count)
    }
}

/// Makes such links, to any server.
#[derive(Drop)]
pub struct Wires(pub Global);

impl Hub for Wires {
    type Line = Wire;

    fn connect<R: Wait>(&mut self, _rt: &R, _server: u16) -> Result<Wire, LinkFault> {
        Ok(Wire::new(self.0, usize::MAX))
    }
}

/// Lets every worker go on.
#[derive(Drop)]
pub struct Open;

impl Gate for Open {
    fn pass<R: Wait>(&mut self, _rt: &R, _worker: u16, _place: Place, _turn: u64) -> Pass {
        Pass::Go
    }
}

/// A clock that stands.
#[derive(Drop)]
pub struct Still;

impl Clock for Still {
    fn now(&mut self) -> u64 {
        0
    }
}

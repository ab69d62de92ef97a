//! Links in memory to servers that act, and what makes such links.

ghost use Rattle.std.specs.Prelude.{◌≡◌, ◌≤◌, [], length, IfOk, IfErr};
ghost use Rattle.fwd_environment.specs.Links.{count_read};
ghost use Rattle.fwd_environment.specs.declared.link.LinkFault.TheVariants as fault;

use crate::acts::{Act, Came, Server};
use crate::memory::give;
use crate::record::Record;
use fwd_workers::{Calls, Hub, Link, LinkFault, Read};
use std::alloc::Global;
use std::str;
use std::sync::Wait;

/// A link to a server that acts.
#[derive(Drop)]
pub struct Played {
    alloc: Global,
    record: Record,
    acts: &'static [Act],
    /// How many acts are over.
    over: usize,
    server: Server,
    calls: Calls,
}

impl Played {
    /// A link of which no call was made.
    fn new(alloc: Global, record: Record, acts: &'static [Act]) -> Played
        ensures { result.calls.list ≡ [] }
    {
        Played {
            alloc,
            record,
            acts,
            over: 0,
            server: Server::new(alloc),
            calls: Calls::none(),
        }
    }

    /// The act of the next read. Once all are over the server is silent.
    fn act(&self) -> Act {
        match self.acts.get(self.over) {
            Some(act) => *act,
            None => Act::Silent,
        }
    }

    /// The next act is over.
    fn end_act<R: Wait>(&mut self, rt: &R, act: Act)
        ensures { self.new.calls ≡ self.old.calls }
    {
        self.record.note(rt, act.name());
        self.over = self.over.saturating_add(1);
    }

    /// What a read of this room gives.
    fn give_act<R: Wait>(&mut self, rt: &R, room: &mut [u8]) -> Result<Read, LinkFault>
        ensures given { count_read result ≤ length room.new }
        ensures fault { IfErr result (λ why. why ≡ fault.Read) }
        ensures calls { self.new.calls ≡ self.old.calls }
    {
        let act = self.act();
        self.end_act(rt, act);
        match act {
            Act::Closes => Ok(Read::Closed),
            Act::FailsRead => Err(LinkFault::Read),
            _ => Ok(self.give_bytes(act, room)),
        }
    }

    /// The bytes that the server gives at an act, if it gives any.
    fn give_bytes(&self, act: Act, room: &mut [u8]) -> Read
        ensures { count_read (Ok result) ≤ length room.new }
    {
        let mut bytes = Vec::new(self.alloc);
        match self.server.put(&mut bytes, act) {
            Ok(()) if !bytes.is_empty() => give(room, &bytes),
            _ => Read::Nothing,
        }
    }

    /// Takes of these bytes what the act of the next read lets it take.
    fn take<R: Wait>(&mut self, rt: &R, bytes: &[u8]) -> Result<usize, LinkFault>
        ensures taken { IfOk result (λ count. count ≤ length bytes.now) }
        ensures fault { IfErr result (λ why. why ≡ fault.Write) }
        ensures calls { self.new.calls ≡ self.old.calls }
    {
        let act = self.act();
        let most = match act {
            Act::FailsWrite => {
                self.end_act(rt, act);
                return Err(LinkFault::Write);
            }
            Act::Takes(most) => most,
            _ => usize::MAX,
        };
        let count = bytes.len().min(most);
        self.hear(rt, &bytes[..count]);
        if count < bytes.len() {
            self.end_act(rt, act);
        }
        Ok(count)
    }

    /// The server hears bytes, and what came whole is noted; or how many bytes they were.
    fn hear<R: Wait>(&mut self, rt: &R, bytes: &[u8])
        ensures { self.new.calls ≡ self.old.calls }
    {
        let count = bytes.len();
        let made = match self.server.hear(bytes) {
            Came::Chunk(title) => format!(in self.alloc; ", sent {title}"),
            Came::Ping(salt) => {
                let salt = str::from_utf8(&salt).unwrap_or("no salt");
                format!(in self.alloc; ", sent PING {salt}")
            }
            Came::Nothing => format!(in self.alloc; ", sent {count} bytes"),
        };
        self.record.note_made(rt, made);
    }
}

impl Link for Played {
    ghost calls = { λ l. l.calls.list };

    fn read<R: Wait>(&mut self, rt: &R, room: &mut [u8]) -> Result<Read, LinkFault> {
        let read = self.give_act(rt, room);
        let room = &*room;
        self.calls = self.calls.and_read(&room, &read);
        read
    }

    fn write<R: Wait>(&mut self, rt: &R, bytes: &[u8]) -> Result<usize, LinkFault> {
        let taken = self.take(rt, bytes);
        self.calls = self.calls.and_write(&bytes, &taken);
        taken
    }
}

/// What connecting comes to, one after the other: none is refused, and some gives a link to a
/// server with these acts. Once they are over all are refused.
pub type Meetings = &'static [Option<&'static [Act]>];

/// Makes such links.
#[derive(Drop)]
pub struct PlayedHub {
    alloc: Global,
    record: Record,
    meetings: Meetings,
    /// How many meetings are over.
    over: usize,
}

impl PlayedHub {
    /// A hub that made no link yet.
    pub fn new(alloc: Global, record: Record, meetings: Meetings) -> PlayedHub {
        PlayedHub {
            alloc,
            record,
            meetings,
            over: 0,
        }
    }

    /// What the next connecting comes to.
    fn meeting(&mut self) -> Option<&'static [Act]> {
        let next = match self.meetings.get(self.over) {
            Some(next) => *next,
            None => None,
        };
        self.over = self.over.saturating_add(1);
        next
    }
}

impl Hub for PlayedHub {
    type Line = Played;

    fn connect<R: Wait>(&mut self, rt: &R, server: u16) -> Result<Played, LinkFault> {
        let (Some(acts), Ok(record)) = (self.meeting(), self.record.share()) else {
            let made = format!(in self.alloc; ", server {server} refused");
            self.record.note_made(rt, made);
            return Err(LinkFault::Connect);
        };
        let made = format!(in self.alloc; ", server {server} met");
        self.record.note_made(rt, made);
        Ok(Played::new(self.alloc, record, acts))
    }
}

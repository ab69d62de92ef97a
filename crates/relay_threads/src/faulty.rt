//! Links in memory over which something goes wrong, and a hub that makes one of them.

ghost use Rattle.std.specs.Prelude.{◌≡◌, ◌≤◌, [], length, IfOk, IfErr};
ghost use Rattle.fwd_environment.specs.Links.{count_read};
ghost use Rattle.fwd_environment.specs.declared.link.LinkFault.TheVariants as fault;

use crate::batches::FRAME;
use crate::memory::{Wire, give};
use fwd_workers::{Calls, Hub, Link, LinkFault, Read};
use std::alloc::Global;
use std::sync::Wait;
use std::sync::atomic::{AtomicU64, Ordering};

/// How many bytes a link takes at once, one of whose calls fails.
const SIP: usize = 10;

/// The call before which it gives nothing, so that reads fail too.
const SILENT: u64 = 10;

/// What goes wrong over a link.
#[derive(Clone, Copy)]
pub enum Wrong {
    /// Its call of this number fails, counted from 1.
    Fails(u64),
    /// Its server takes so many bytes, and no more, and then says this once, and nothing else. It
    /// is gone behind that.
    Lies(usize, &'static [u8]),
}

/// What servers got: frames of the chunk with number 1, and other ones.
#[derive(Drop)]
pub struct Got {
    first: AtomicU64,
    other: AtomicU64,
}

impl Got {
    /// Nothing.
    pub fn new() -> Got {
        Got {
            first: AtomicU64::new(0),
            other: AtomicU64::new(0),
        }
    }

    /// A frame came.
    fn hear(&self, frame: &[u8]) {
        let count = if frame == FRAME {
            &self.first
        } else {
            &self.other
        };
        count.fetch_add(1, Ordering::SeqCst);
    }

    /// How many frames of the first chunk came, and how many other ones.
    pub fn counts(&self) -> (u64, u64) {
        (
            self.first.load(Ordering::SeqCst),
            self.other.load(Ordering::SeqCst),
        )
    }
}

/// A link over which something may go wrong. Else its server acknowledges each frame.
#[derive(Drop)]
pub struct Faulty<'a> {
    wire: Wire,
    wrong: Option<Wrong>,
    /// How many calls were made, and how many of them failed.
    made: u64,
    failed: u64,
    /// The server lied.
    has_lied: bool,
    /// How many bytes lie before the next frame.
    seen: usize,
    got: &'a Got,
    calls: Calls,
}

impl<'a> Faulty<'a> {
    /// A link of which no call was made.
    pub fn new(alloc: Global, wrong: Option<Wrong>, got: &'a Got) -> Faulty<'a>
        ensures { result.calls.list ≡ [] }
    {
        let most = match wrong {
            Some(Wrong::Fails(_)) => SIP,
            _ => usize::MAX,
        };
        Faulty {
            wire: Wire::new(alloc, most),
            wrong,
            made: 0,
            failed: 0,
            has_lied: false,
            seen: 0,
            got,
            calls: Calls::none(),
        }
    }

    /// How many of its calls failed.
    pub fn failed(&self) -> u64 {
        self.failed
    }

    /// A call is made: whether it fails.
    fn fails(&mut self) -> bool
        ensures { self.new.calls ≡ self.old.calls }
    {
        self.made = self.made.saturating_add(1);
        let fails = match self.wrong {
            Some(Wrong::Fails(at)) => at == self.made,
            _ => false,
        };
        if fails {
            self.failed = self.failed.saturating_add(1);
        }
        fails
    }

    /// The server lies, once it took what it takes.
    fn lie(&mut self, due: usize, said: &[u8], room: &mut [u8]) -> Read
        ensures given { count_read (Ok result) ≤ length room.new }
        ensures calls { self.new.calls ≡ self.old.calls }
    {
        if self.has_lied || said.is_empty() || self.wire.count() < due {
            return Read::Nothing;
        }
        self.has_lied = true;
        give(room, said)
    }

    /// What a read gives.
    fn give(&mut self, room: &mut [u8]) -> Result<Read, LinkFault>
        ensures given { count_read result ≤ length room.new }
        ensures fault { IfErr result (λ why. why ≡ fault.Read) }
        ensures calls { self.new.calls ≡ self.old.calls }
    {
        if self.fails() {
            return Err(LinkFault::Read);
        }
        match self.wrong {
            Some(Wrong::Fails(_)) if self.made < SILENT => Ok(Read::Nothing),
            Some(Wrong::Lies(due, said)) => Ok(self.lie(due, said, room)),
            _ => Ok(self.wire.answer(room)),
        }
    }

    /// Hears a frame that came whole. A write has the end of one frame at most.
    fn hear(&mut self)
        ensures { self.new.calls ≡ self.old.calls }
    {
        if let Some(frame) = self.wire.frame_from(self.seen) {
            self.got.hear(frame);
            self.seen = self.seen.saturating_add(frame.len());
        }
    }

    /// What a write takes.
    fn take(&mut self, bytes: &[u8]) -> Result<usize, LinkFault>
        ensures taken { IfOk result (λ count. count ≤ length bytes.now) }
        ensures fault { IfErr result (λ why. why ≡ fault.Write) }
        ensures calls { self.new.calls ≡ self.old.calls }
    {
        if self.fails() {
            return Err(LinkFault::Write);
        }
        let most = match self.wrong {
            Some(Wrong::Lies(due, _)) => due.saturating_sub(self.wire.count()),
            _ => usize::MAX,
        };
        let most = bytes.len().min(most);
        let count = self.wire.keep(&bytes[..most]);
        self.hear();
        Ok(count)
    }
}

impl<'a> Link for Faulty<'a> {
    ghost calls = { λ l. l.calls.list };

    fn read<R: Wait>(&mut self, _rt: &R, room: &mut [u8]) -> Result<Read, LinkFault> {
        let read = self.give(room);
        let room = &*room;
        self.calls = self.calls.and_read(&room, &read);
        read
    }

    fn write<R: Wait>(&mut self, _rt: &R, bytes: &[u8]) -> Result<usize, LinkFault> {
        let taken = self.take(bytes);
        self.calls = self.calls.and_write(&bytes, &taken);
        taken
    }
}

/// Makes such links: its first connects fail, something goes wrong over the first link that it
/// makes, and over no other.
#[derive(Drop)]
pub struct FaultyHub<'a> {
    pub alloc: Global,
    /// How many connects fail still.
    pub refused: u64,
    /// What is to go wrong.
    pub wrong: Option<Wrong>,
    /// The server that is gone, if one is.
    pub gone: Option<u16>,
    pub got: &'a Got,
}

impl<'a> FaultyHub<'a> {
    /// Whether the next connect, which is to this server, fails.
    fn refuses(&mut self, server: u16) -> bool {
        if self.refused > 0 {
            self.refused -= 1;
            return true;
        }
        self.gone == Some(server)
    }
}

impl<'a> Hub for FaultyHub<'a> {
    type Line = Faulty<'a>;

    fn connect<R: Wait>(&mut self, _rt: &R, server: u16) -> Result<Faulty<'a>, LinkFault> {
        if self.refuses(server) {
            return Err(LinkFault::Connect);
        }
        let wrong = self.wrong.take();
        if let Some(Wrong::Lies(..)) = wrong {
            self.gone = Some(server);
        }
        Ok(Faulty::new(self.alloc, wrong, self.got))
    }
}

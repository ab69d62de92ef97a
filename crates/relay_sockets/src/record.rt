//! Requests of a play with traffic, and what becomes of each: it stands in one chunk, whose entries
//! never change, and is told once, and not before its chunk was acknowledged.

use std::alloc::Global;

/// What a source sends: a Message under the tag `a`, whose time is its number, and which asks to be
/// acknowledged by it, a bin of four bytes.
const REQUEST: &[u8; 22] = b"\x94\xa1a\xce....\x80\x81\xa5chunk\xc4\x04....";

/// Such a request.
pub fn request(number: u32) -> [u8; 22] {
    let digits = number.to_be_bytes();
    let mut request = *REQUEST;
    request[4..8].copy_from_slice(&digits);
    request[18..22].copy_from_slice(&digits);
    request
}

/// What a source is told of a request, before its number.
const TOLD: &[u8] = b"\x81\xa3ack\xc4\x04";

/// How many bytes that is with its number.
pub const TOLD_LEN: usize = 11;

/// What stands before the length of a frame's entries, which is less than 256.
const HEAD: &[u8] = b"\x93\xa1a\xc4";

/// How many bytes an entry has.
const ENTRY: usize = 7;

/// The entries of a frame of such requests, if it is one: spelled as it is to be, but for what
/// stands in them and for its name.
fn entries_of(frame: &[u8]) -> Option<&[u8]> {
    let (size, behind) = frame.strip_prefix(HEAD)?.split_first()?;
    let (entries, behind) = behind.split_at_checked(usize::from(*size))?;
    let (count, name) = behind.strip_prefix(b"\x82\xa4size")?.split_first()?;
    let name = name.strip_prefix(b"\xa5chunk\xb8")?;
    if name.len() == 24 && entries.len() == usize::from(*count).saturating_mul(ENTRY) {
        Some(entries)
    } else {
        None
    }
}

/// The number of the request of an entry, if it is spelled as it was sent.
fn number_of(entry: &[u8]) -> Option<u32> {
    match entry {
        [0x92, 0xce, a, b, c, d, 0x80] => Some(u32::from_be_bytes([*a, *b, *c, *d])),
        _ => None,
    }
}

/// What became of a request.
#[derive(Clone, Copy)]
enum Fate {
    Sent,
    /// It stands in a chunk.
    Chunked,
    /// Its chunk was acknowledged.
    Acked,
    Told,
}

/// What became of all requests, by their numbers.
#[derive(Drop)]
pub struct Record {
    alloc: Global,
    fates: Vec<Fate>,
    /// How many were told.
    told: usize,
    /// The frame of each chunk.
    frames: Vec<Vec<u8>>,
    /// What went wrong first.
    pub fault: Option<&'static str>,
}

impl Record {
    /// No request yet.
    pub fn new(alloc: Global) -> Record {
        Record {
            alloc,
            fates: Vec::new(alloc),
            told: 0,
            frames: Vec::new(alloc),
            fault: None,
        }
    }

    /// Something went wrong.
    pub fn fail(&mut self, fault: &'static str) {
        self.fault = self.fault.or(Some(fault));
    }

    /// How many requests were not told yet.
    pub fn owed(&self) -> usize {
        self.fates.len().saturating_sub(self.told)
    }

    /// A further request, which is sent.
    pub fn next(&mut self) -> [u8; 22] {
        let number = u32::try_from(self.fates.len()).unwrap_or(u32::MAX);
        if self.fates.push(Fate::Sent).is_err() {
            self.fail("memory");
        }
        request(number)
    }

    /// A request goes from one fate to the next, if it has the first: whether it has.
    fn go(&mut self, number: u32, from: Fate, to: Fate) -> bool {
        let Some(fate) = self.fates.get_mut(number as usize) else {
            return false;
        };
        let goes = *fate == from;
        if goes {
            *fate = to;
        }
        goes
    }

    /// Each request of a frame goes from one fate to the next: whether each is a request that was
    /// sent, and has the first.
    fn go_all(&mut self, frame: &[u8], from: Fate, to: Fate) -> bool {
        let Some(entries) = entries_of(frame) else {
            self.fail("a frame is none of these requests");
            return false;
        };
        let mut go = true;
        for entry in entries.chunks_exact(ENTRY) {
            go = match number_of(entry) {
                Some(number) => self.go(number, from, to) && go,
                None => false,
            };
        }
        go
    }

    /// Whether a frame of this name came as it is, if one came.
    fn is_same(&self, frame: &[u8]) -> Option<bool> {
        for known in &self.frames {
            if known.last_chunk::<24>() == frame.last_chunk::<24>() {
                return Some(known.as_slice() == frame);
            }
        }
        None
    }

    /// A frame comes for the first time. It is a fault that one of its requests stands in another
    /// chunk, too.
    fn enter(&mut self, frame: &[u8]) {
        if !self.go_all(frame, Fate::Sent, Fate::Chunked) {
            self.fail("a request stands in two chunks");
        }
        if let Ok(copy) = Vec::from_slice(self.alloc, frame) {
            let _ = self.frames.push(copy);
        }
    }

    /// A server heard a frame. It is a fault that a chunk is not what it was.
    pub fn heard(&mut self, frame: &[u8]) {
        match self.is_same(frame) {
            Some(true) => {}
            Some(false) => self.fail("a chunk is altered"),
            None => self.enter(frame),
        }
    }

    /// A server acknowledges a frame that it heard, which may have been before.
    pub fn acked(&mut self, frame: &[u8]) {
        self.go_all(frame, Fate::Chunked, Fate::Acked);
    }

    /// A source is told this, of which each is to be an acknowledgement of a request. It is a fault
    /// that it was told before, or that its chunk was not acknowledged.
    pub fn told(&mut self, bytes: &[u8]) {
        for told in bytes.chunks_exact(TOLD_LEN) {
            let is_told = match (told.starts_with(TOLD), told.last_chunk::<4>()) {
                (true, Some(digits)) => {
                    self.go(u32::from_be_bytes(*digits), Fate::Acked, Fate::Told)
                }
                _ => false,
            };
            if !is_told {
                self.fail("a request is told early or twice, or something else is");
            }
            self.told = self.told.saturating_add(1);
        }
    }
}

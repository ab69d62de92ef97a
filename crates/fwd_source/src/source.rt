//! A connection, from its first byte to its last answer. Each byte is scanned once. Only where
//! memory is refused is what was kept scanned again.

ghost use Rattle.std.specs.Prelude.{
  ◌≡◌,
  ◌+◌,
  ◌≤◌,
  ◌<◌,
  ◌^◌,
  ◌++◌,
  true,
  false,
  [],
  None,
  length,
  IfOk,
  IfErr,
  OnOk,
  OnErr,
  IsOk,
};
ghost use Rattle.std.specs.Option.{option_map};
ghost use Rattle.std.specs.Arc.{arc_value};
ghost use Rattle.fwd_source.specs.History.{Setup, opening_text, told};
ghost use Rattle.fwd_source.specs.Asked.{IsRefused};
ghost use Rattle.fwd_source.specs.Hearing.{fault_in};
ghost use Rattle.fwd_source.specs.Live.{
  opened_source,
  live_piece_next,
  live_piece_answer,
  live_piece_out,
  first_waiting,
  source_gives_first,
  source_appends,
  source_drains,
  source_shuts,
};
ghost use Rattle.fwd_msgpack.specs.Scanners.{IsBehind, standing_behind};
ghost use Rattle.fwd_msgpack.specs.Scans.{Bad, first_of, verdict_of, whole_len};
ghost use Rattle.fwd_msgpack.specs.declared.fault.ScanFault.{ScanFault};

use crate::fault::SourceFault;
use crate::hearing::Unparsed;
use crate::piece::{Piece, SourceTold};
use crate::room::is_packed;
use crate::spanning::take_on;
use crate::taking::{Parsed, RequestContext, take_all};
use fwd_base::Bytes;
use fwd_handshake::{Nonces, Security, write_helo};
use fwd_modes::{Batch, Origin};
use fwd_msgpack::{Fed, Limits, ScanFault, Scanner};
use std::alloc::{AllocError, AllocFailed, Global};
use std::collections::VecDeque;
use std::marker::Model;
use std::sync::Arc;

/// Why an answer was not taken.
#[derive(Clone, Copy, Debug, PartialEq, Eq)]
pub enum AnswerError {
    /// The connection was shut.
    Closed,
    /// There is no memory for it.
    Memory,
}

/// A connection: its unfinished bytes, its requests that wait
/// to be admitted, and the bytes that wait to be sent to it.
pub struct Source {
    conn: u64,
    security: Arc<Security>,
    nonces: Nonces,
    /// It stands behind the bytes of the unfinished value.
    scanner: Scanner,
    awaits: bool,
    rest: Vec<u8>,
    waiting: VecDeque<Batch>,
    admitted: u64,
    unsent: Vec<u8>,
    shut: bool,
    closed: bool,
}

// A drop of its own is proved once, and not at each place where a connection goes.
impl Drop for Source {
    fn drop(self) {
        let Source {
            conn: _,
            security: _,
            nonces: _,
            scanner: _,
            awaits: _,
            rest: _,
            waiting: _,
            admitted: _,
            unsent: _,
            shut: _,
            closed: _,
        } = self;
    }
}

impl Model for Source {
    ghost use Rattle.std.specs.Prelude.{◌≡◌, ◌+◌, ◌-◌, ◌<◌, ◌^◌, false, length, vec_len, vec_capacity};
    ghost use Rattle.fwd_msgpack.specs.Scanners.{IsBehind};
    ghost use Rattle.std.specs.Arc.{arc_value};
    ghost use Rattle.fwd_source.specs.Live.{Shown};

    ghost Value = { Shown };

    ghost view = { λ s. record {
      live = record {
        setup = record {
          conn = s.conn;
          security = arc_value s.security;
          nonces = s.nonces;
          limits = s.scanner.limits;
        };
        awaits = s.awaits;
        rest = s.rest.items;
        waiting = s.waiting.items;
        admitted = s.admitted;
        unsent = s.unsent.items;
        shut = s.shut;
        closed = s.closed;
      };
      room = vec_capacity s.unsent - vec_len s.unsent;
    } };

    ghost invariant = { λ s. (s.admitted + length s.waiting.items < 2 ^ 64)
        × (s.closed ≡ false → IsBehind s.scanner.limits s.rest.items s.scanner) };
}

/// What is written first: HELO, where a shared key is set.
fn opening(alloc: Global, security: &Security, nonces: &Nonces) -> Result<Vec<u8>, AllocError>
    ensures { IfOk result (λ text.
        (setup : Setup) → setup.security ≡ security.now → setup.nonces ≡ nonces.now
        → text.items ≡ opening_text setup) }
{
    if security.shared_key.is_none() {
        return Ok(Vec::new(alloc));
    }
    let helo = write_helo(alloc, security, nonces)?;
    Vec::from_slice(alloc, helo.as_slice())
}

/// What is told of a piece, by how many requests wait, the PONG and the fault.
fn told_of(waiting: usize, out: Bytes, fault: Option<SourceFault>) -> SourceTold
    ensures { result ≡ record { piece = told fault waiting; out = out } }
{
    let piece = match fault {
        None => Piece::Waiting(waiting),
        Some(fault) => Piece::Fault(fault),
    };
    SourceTold { piece, out }
}

/// A scanner is put behind these bytes of an unfinished value, anew.
fn scan_again(scanner: &mut Scanner, bytes: &[u8])
    requires { whole_len (verdict_of (standing_behind scanner.old.limits bytes.now).state) ≡ None }
    ensures { IsBehind scanner.old.limits bytes.now scanner.new }
{
    scanner.restart();
    scanner.feed(bytes);
}

/// The fault of MessagePack in the value that bytes begin, or go on with behind those of an
/// unfinished one. Where there is none the scanner is put behind those anew.
fn fault_of(scanner: &mut Scanner, rest: &[u8], bytes: &[u8]) -> Option<ScanFault>
    requires { IsBehind scanner.old.limits rest.now scanner.old }
    ensures fault { let limits = scanner.old.limits in
        result ≡ fault_in (first_of limits.bytes limits.depth (rest.now ++ bytes.now)) }
    ensures behind { result ≡ None → IsBehind scanner.old.limits rest.now scanner.new }
    ensures limits { scanner.new.limits ≡ scanner.old.limits }
{
    let Fed::Bad(fault) = scanner.feed(bytes) else {
        scan_again(scanner, rest);
        return None;
    };
    Some(fault)
}

impl Source {
    /// A connection before its first byte. Where a shared key is set, HELO waits to be sent. The
    /// only error is out of memory, which gives `security` back.
    pub fn new(
        alloc: Global,
        conn: u64,
        security: Arc<Security>,
        nonces: Nonces,
        limits: Limits,
    ) -> Result<Source, AllocFailed<Arc<Security>>>
        ensures ok { IfOk result (λ source. source.live ≡ opened_source (record {
          conn = conn;
          security = arc_value security;
          nonces = nonces;
          limits = limits;
        })) }
        ensures err { IfErr result (λ failed. failed.value ≡ security) }
    {
        let awaits = security.shared_key.is_some();
        let Ok(unsent) = opening(alloc, &security, &nonces) else {
            return Err(AllocFailed { value: security });
        };
        Ok(Source {
            conn,
            security,
            nonces,
            scanner: Scanner::new(limits),
            awaits,
            rest: Vec::new(alloc),
            waiting: VecDeque::new(alloc),
            admitted: 0,
            unsent,
            shut: false,
            closed: false,
        })
    }

    /// How many requests wait to be admitted.
    pub fn waiting(&self) -> usize
        ensures { result ≡ length self.now.live.waiting }
    {
        self.waiting.len()
    }

    /// The bytes that wait to be sent.
    pub fn out(&self) -> &[u8]
        ensures { result.now ≡ self.now.live.unsent }
    {
        self.unsent.as_slice()
    }

    /// The link took so many bytes of those that wait to be sent.
    pub fn drained(&mut self, count: usize)
        requires { count ≤ length self.old.live.unsent }
        ensures live { self.new.live ≡ source_drains self.old.live count }
        ensures room { self.new.room ≡ self.old.room + count }
    {
        if count == self.unsent.len() {
            self.unsent.clear();
        } else if count > 0 {
            self.unsent.drain(..count);
        }
    }

    /// No further piece is taken, and what waits is dropped.
    pub fn shut(&mut self)
        ensures live { self.new.live ≡ source_shuts self.old.live }
        ensures room { self.new.room ≡ self.old.room + length self.old.live.unsent }
    {
        self.awaits = false;
        self.rest.clear();
        self.waiting.clear();
        self.unsent.clear();
        self.shut = true;
        self.closed = true;
    }

    /// Whether what waits was dropped.
    pub fn is_shut(&self) -> bool
        ensures { result ≡ self.now.live.shut }
    {
        self.shut
    }

    /// Whether a shared key is set, and its PING has not come yet.
    pub fn awaits_login(&self) -> bool
        ensures { result ≡ self.now.live.awaits }
    {
        self.awaits
    }

    /// How many bytes of an unfinished value it holds.
    pub fn unfinished(&self) -> usize
        ensures { result ≡ length self.now.live.rest }
    {
        self.rest.len()
    }

    /// Makes room for answers of so many bytes in all. The only
    /// error is out of memory, and then nothing has changed. The room is a number beside the live
    /// part, which the relay's own state leaves out.
    pub fn reserve(&mut self, bytes: usize) -> Result<(), AllocError>
        ensures live { self.new.live ≡ self.old.live }
        ensures ok { OnOk result (bytes ≤ self.new.room) }
        ensures room { self.old.room ≤ self.new.room }
        ensures err { OnErr result (self.new.room ≡ self.old.room) }
        ensures memory { OnErr result (self.old.room < bytes) }
    {
        self.unsent.reserve(bytes)
    }

    /// Puts bytes behind those that wait to be sent. A fault
    /// does not refuse them. On an error nothing has changed. The requests before a fault are still
    /// answered, and only `shut` refuses.
    pub fn answer(&mut self, bytes: &[u8]) -> Result<(), AnswerError>
        ensures ok { OnOk result (self.new.live ≡ source_appends self.old.live bytes.now) }
        ensures room { OnOk result (self.old.room ≤ self.new.room + length bytes.now) }
        ensures closed { self.old.live.shut ≡ true → result ≡ Err AnswerError.Closed }
        ensures closed_only_once_shut { result ≡ Err AnswerError.Closed
            → self.old.live.shut ≡ true }
        ensures memory_only_without_room { result ≡ Err AnswerError.Memory
            → self.old.room < length bytes.now }
        ensures err { OnErr result (self.new ≡ self.old) }
    {
        if self.shut {
            return Err(AnswerError::Closed);
        }
        let Ok(()) = self.unsent.reserve(bytes.len()) else {
            return Err(AnswerError::Memory);
        };
        self.unsent.extend_from_slice(bytes).unwrap();
        Ok(())
    }

    /// The first request that waits, with its number.
    pub fn peek(&self) -> Option<(Origin, &Batch)>
        ensures { option_map (λ asked. (asked.0, asked.1.now)) result
            ≡ first_waiting self.now.live self.now.live.waiting }
    {
        let batch = self.waiting.front()?;
        let request = self.admitted + 1;
        let conn = self.conn;
        Some((Origin { conn, request }, batch))
    }

    /// Takes the first request that waits, with its number.
    pub fn next(&mut self) -> Option<(Origin, Batch)>
        ensures value { result ≡ first_waiting self.old.live self.old.live.waiting }
        ensures live { self.new.live ≡ source_gives_first self.old.live self.old.live.waiting }
        ensures room { self.new.room ≡ self.old.room }
    {
        let batch = self.waiting.pop_front()?;
        self.admitted += 1;
        let request = self.admitted;
        let conn = self.conn;
        Some((Origin { conn, request }, batch))
    }

    /// Bytes come where no value is unfinished: they are judged where they are, and only those of
    /// an unfinished value are kept. On an error nothing has changed.
    #[tactic(auto, unfolding(crate::specs::Live::source_hears))]
    fn hears_alone(&mut self, alloc: Global, bytes: &[u8]) -> Result<SourceTold, AllocError>
        requires open { self.old.live.closed ≡ false }
        requires kept { self.old.live.rest ≡ [] }
        ensures answer { IfOk result (λ told.
            told.piece ≡ live_piece_answer self.old.live bytes.now) }
        ensures out { IfOk result (λ told. told.out ≡ live_piece_out self.old.live bytes.now) }
        ensures live { OnOk result (self.new.live ≡ live_piece_next self.old.live bytes.now) }
        ensures err { OnErr result (self.new.live ≡ self.old.live) }
        ensures refused { self.old.live.awaits ≡ false
            → IsRefused self.old.live.setup.limits bytes.now → IsOk result }
        ensures room { length self.old.live.unsent + self.old.room
            ≤ length self.new.live.unsent + self.new.room }
    {
        let context = RequestContext {
            alloc,
            security: &self.security,
            nonces: &self.nonces,
            awaits: self.awaits,
            count: self.admitted + self.waiting.len() as u64,
        };
        let unparsed = Unparsed { bytes, scanned: 0 };
        let (waiting, unsent) = (&mut self.waiting, &mut self.unsent);
        match take_all(&context, unparsed, &mut self.scanner, waiting, unsent) {
            Ok(taken) => {
                self.rest = taken.rest.unwrap_or(Vec::new(alloc));
                self.awaits = taken.awaits;
                self.closed = taken.fault.is_some();
                Ok(told_of(self.waiting.len(), taken.out, taken.fault))
            }
            Err(error) => {
                self.scanner.restart();
                Err(error)
            }
        }
    }

    /// Bytes come behind those of an unfinished value, and are judged with them. On an error
    /// nothing has changed.
    #[tactic(auto, unfolding(crate::specs::Live::source_hears))]
    fn hears_joined(&mut self, alloc: Global, bytes: &[u8]) -> Result<SourceTold, AllocError>
        requires open { self.old.live.closed ≡ false }
        requires kept { 0 < length self.old.live.rest }
        ensures answer { IfOk result (λ told.
            told.piece ≡ live_piece_answer self.old.live bytes.now) }
        ensures out { IfOk result (λ told. told.out ≡ live_piece_out self.old.live bytes.now) }
        ensures live { OnOk result (self.new.live ≡ live_piece_next self.old.live bytes.now) }
        ensures err { OnErr result (self.new.live ≡ self.old.live) }
        ensures room { length self.old.live.unsent + self.old.room
            ≤ length self.new.live.unsent + self.new.room }
    {
        let before = self.rest.len();
        self.rest.extend_from_slice(bytes)?;
        let context = RequestContext {
            alloc,
            security: &self.security,
            nonces: &self.nonces,
            awaits: self.awaits,
            count: self.admitted + self.waiting.len() as u64,
        };
        let unparsed = Unparsed {
            bytes: &self.rest,
            scanned: before,
        };
        let (waiting, unsent) = (&mut self.waiting, &mut self.unsent);
        match take_all(&context, unparsed, &mut self.scanner, waiting, unsent) {
            Ok(taken) => {
                let Parsed {
                    rest,
                    out,
                    awaits,
                    fault,
                } = taken;
                if let Some(rest) = rest {
                    self.rest = rest;
                }
                self.awaits = awaits;
                self.closed = fault.is_some();
                Ok(told_of(self.waiting.len(), out, fault))
            }
            Err(error) => {
                self.rest.truncate(before);
                scan_again(&mut self.scanner, &self.rest);
                Err(error)
            }
        }
    }

    /// Bytes come behind those of an unfinished value, where no PING is awaited: the value's buffer
    /// may become its request's own, and what is behind it is judged where it is. On an error
    /// nothing has changed.
    #[tactic(auto, unfolding(crate::specs::Live::source_hears))]
    fn hears_packed(&mut self, bytes: &[u8]) -> Result<SourceTold, AllocError>
        requires open { self.old.live.closed ≡ false }
        requires passed { self.old.live.awaits ≡ false }
        requires counted { self.old.live.admitted + length self.old.live.waiting + 1 < 2 ^ 64 }
        requires kept { 0 < length self.old.live.rest }
        ensures answer { IfOk result (λ told.
            told.piece ≡ live_piece_answer self.old.live bytes.now) }
        ensures out { IfOk result (λ told. told.out ≡ live_piece_out self.old.live bytes.now) }
        ensures live { OnOk result (self.new.live ≡ live_piece_next self.old.live bytes.now) }
        ensures err { OnErr result (self.new.live ≡ self.old.live) }
        ensures room { length self.old.live.unsent + self.old.room
            ≤ length self.new.live.unsent + self.new.room }
    {
        let known = self.rest.len();
        let count = self.admitted + self.waiting.len() as u64;
        let (rest, waiting) = (&mut self.rest, &mut self.waiting);
        match take_on(count, rest, bytes, &mut self.scanner, waiting) {
            Ok(taken) => {
                let Parsed {
                    rest,
                    out,
                    awaits,
                    fault: wrong,
                } = taken;
                if let Some(rest) = rest {
                    self.rest = rest;
                }
                self.awaits = awaits;
                self.closed = wrong.is_some();
                Ok(told_of(self.waiting.len(), out, wrong))
            }
            Err(error) => {
                self.rest.truncate(known);
                scan_again(&mut self.scanner, &self.rest);
                Err(error)
            }
        }
    }

    /// Bytes come behind those of an unfinished value. On an error nothing has changed.
    #[tactic(auto, unfolding(crate::specs::Live::source_hears))]
    fn hears_behind(&mut self, alloc: Global, bytes: &[u8]) -> Result<SourceTold, AllocError>
        requires open { self.old.live.closed ≡ false }
        requires kept { 0 < length self.old.live.rest }
        ensures answer { IfOk result (λ told.
            told.piece ≡ live_piece_answer self.old.live bytes.now) }
        ensures out { IfOk result (λ told. told.out ≡ live_piece_out self.old.live bytes.now) }
        ensures live { OnOk result (self.new.live ≡ live_piece_next self.old.live bytes.now) }
        ensures err { OnErr result (self.new.live ≡ self.old.live) }
        ensures room { length self.old.live.unsent + self.old.room
            ≤ length self.new.live.unsent + self.new.room }
    {
        let count = self.admitted + self.waiting.len() as u64;
        if !self.awaits && count < u64::MAX && is_packed(&self.rest) {
            self.hears_packed(bytes)
        } else {
            self.hears_joined(alloc, bytes)
        }
    }

    /// Bytes come. On an error nothing has changed.
    #[tactic(auto, unfolding(crate::specs::Live::source_hears))]
    fn hears(&mut self, alloc: Global, bytes: &[u8]) -> Result<SourceTold, AllocError>
        requires open { self.old.live.closed ≡ false }
        ensures answer { IfOk result (λ told.
            told.piece ≡ live_piece_answer self.old.live bytes.now) }
        ensures out { IfOk result (λ told. told.out ≡ live_piece_out self.old.live bytes.now) }
        ensures live { OnOk result (self.new.live ≡ live_piece_next self.old.live bytes.now) }
        ensures err { OnErr result (self.new.live ≡ self.old.live) }
        ensures refused { self.old.live.awaits ≡ false → self.old.live.rest ≡ []
            → IsRefused self.old.live.setup.limits bytes.now → IsOk result }
        ensures room { length self.old.live.unsent + self.old.room
            ≤ length self.new.live.unsent + self.new.room }
    {
        if self.rest.is_empty() {
            self.hears_alone(alloc, bytes)
        } else {
            self.hears_behind(alloc, bytes)
        }
    }

    /// Bytes come for which there is no memory. A fault at their front, or in the unfinished value
    /// that they go on with, needs none. On an error nothing has changed.
    #[tactic(auto, unfolding(crate::specs::Live::source_hears))]
    fn hears_a_fault(&mut self, alloc: Global, bytes: &[u8]) -> Result<SourceTold, AllocError>
        requires open { self.old.live.closed ≡ false }
        ensures answer { IfOk result (λ told.
            told.piece ≡ live_piece_answer self.old.live bytes.now) }
        ensures out { IfOk result (λ told. told.out ≡ live_piece_out self.old.live bytes.now) }
        ensures live { OnOk result (self.new.live ≡ live_piece_next self.old.live bytes.now) }
        ensures err { OnErr result (self.new.live ≡ self.old.live) }
        ensures faulty { let limits = self.old.live.setup.limits in
            (fault : ScanFault)
            → first_of limits.bytes limits.depth (self.old.live.rest ++ bytes.now) ≡ Bad fault
            → IsOk result }
        ensures room { length self.old.live.unsent + self.old.room
            ≤ length self.new.live.unsent + self.new.room }
    {
        let Some(fault) = fault_of(&mut self.scanner, &self.rest, bytes) else {
            return Err(AllocError);
        };
        self.rest.clear();
        self.awaits = false;
        self.closed = true;
        let fault = Some(SourceFault::Scan(fault));
        Ok(told_of(self.waiting.len(), Bytes::new(alloc), fault))
    }

    /// More bytes come. After a fault and once shut, each further piece is refused. On an error
    /// nothing has changed. A fault of MessagePack in the value that was unfinished, or in the
    /// first one of the piece, is never answered as out of memory; nor is a fault of shape, tag,
    /// option or compression in the first one, where nothing was unfinished and no PING is awaited.
    #[tactic(auto, unfolding(crate::specs::Live::source_hears))]
    pub fn piece(&mut self, alloc: Global, bytes: &[u8]) -> Result<SourceTold, AllocError>
        ensures answer { IfOk result (λ told.
            told.piece ≡ live_piece_answer self.old.live bytes.now) }
        ensures out { IfOk result (λ told. told.out ≡ live_piece_out self.old.live bytes.now) }
        ensures live { OnOk result (self.new.live ≡ live_piece_next self.old.live bytes.now) }
        ensures closed { self.old.live.closed ≡ true → IsOk result × (self.new ≡ self.old) }
        ensures err { OnErr result (self.new.live ≡ self.old.live) }
        ensures faulty { let limits = self.old.live.setup.limits in
            (fault : ScanFault)
            → first_of limits.bytes limits.depth (self.old.live.rest ++ bytes.now) ≡ Bad fault
            → IsOk result }
        ensures refused { self.old.live.awaits ≡ false → self.old.live.rest ≡ []
            → IsRefused self.old.live.setup.limits bytes.now → IsOk result }
        // What may wait to be sent without more memory is as much as before.
        ensures room { length self.old.live.unsent + self.old.room
            ≤ length self.new.live.unsent + self.new.room }
    {
        if self.closed {
            return Ok(SourceTold {
                piece: Piece::Closed,
                out: Bytes::new(alloc),
            });
        }
        match self.hears(alloc, bytes) {
            Ok(told) => Ok(told),
            Err(_) => self.hears_a_fault(alloc, bytes),
        }
    }
}

//! A scan of one value whose bytes come in pieces.

ghost use Rattle.std.specs.Prelude.{◌≡◌, ◌≤◌, ◌<◌, ◌^◌, ℕ, None, true, false, [], ◌∷◌, length, take};
ghost use Rattle.fwd_msgpack.specs.Cuts.{seen, IsFront, IsExtent};
ghost use Rattle.fwd_msgpack.specs.Scans.{Ended, first_of, split_of, verdict_of, whole_len};
ghost use Rattle.fwd_msgpack.specs.Walks.{split_by, AreParts};
ghost use Rattle.fwd_msgpack.specs.Scanners.{
  IsBehind,
  StandsAfter,
  StandsAfterCut,
  fresh,
  onward,
  taken,
  heard,
  EndsWithin,
};
ghost use Rattle.fwd_msgpack.specs.ScanStates.{in_head, in_item};

use crate::fault::ScanFault;
use crate::front::Front;
use crate::head::HeadRead;
use crate::limits::Limits;
use crate::scan::{Stop, scan_items};
use crate::scan_state::{ScanState, behind_head, behind_value};
use crate::stack::Stack;
use crate::stream::Next;
use crate::value::{Cut, Value};
use std::marker::Model;

/// What more bytes did.
#[derive(Clone, Copy)]
pub enum Fed {
    /// The value has not ended, and there is no fault: all bytes of the piece are the value's.
    More,
    /// The value ended, with the first so many bytes of the piece.
    End(usize),
    /// A fault: no value within the limits begins so.
    Bad(ScanFault),
}

/// A scan of one value whose bytes come in pieces. It reads each byte once, keeps none but those of
/// a head that is cut off, and takes no memory. Bytes of a head count as the value's only once the
/// head is whole, since what it says decides whether the value is good.
#[derive(Drop)]
pub struct Scanner {
    limits: Limits,
    /// The containers that are open.
    stack: Stack,
    /// How many bytes there were, without those of a head that is cut off.
    used: usize,
    /// The bytes of a head that is cut off.
    front: Front,
    stage: ScanState,
}

impl Model for Scanner {
    ghost use Rattle.std.specs.Prelude.{◌<◌, ◌^◌, sum};
    ghost use Rattle.fwd_msgpack.specs.Scanners.{Standing};
    ghost use Rattle.fwd_msgpack.specs.ScanStates.{state_shown, IsScanState};

    ghost Value = { Standing };

    ghost view = { λ s. record {
      limits = s.limits;
      state = state_shown s.used s.stack s.front s.stage;
    } };

    ghost invariant = { λ s. (s.limits.bytes < 2 ^ 32)
        × IsScanState s.limits.bytes s.used (sum s.stack) s.front s.stage };
}

impl Scanner {
    /// A scanner before the first byte of a value.
    pub fn new(limits: Limits) -> Self
        ensures { result ≡ fresh limits }
    {
        Scanner {
            limits,
            stack: Stack::new(),
            used: 0,
            front: Front::new(),
            stage: ScanState::Head,
        }
    }

    /// Begins anew, before the first byte of another value within the same limits.
    pub fn restart(&mut self)
        ensures { self.new ≡ fresh self.old.limits }
    {
        self.stack.clear();
        self.used = 0;
        self.front.clear();
        self.stage = ScanState::Head;
    }

    /// Scans the next bytes of the value (MessagePack specification, "Formats"). Behind its end the
    /// piece is not read, and the scanner must be restarted before it is fed again. Behind a fault
    /// it gives that fault again, whatever comes.
    pub fn feed(&mut self, piece: &[u8]) -> Fed
        requires going { whole_len (verdict_of self.old.state) ≡ None }
        ensures state { self.new ≡ onward self.old piece.now }
        ensures verdict { verdict_of self.new.state ≡ heard (taken self.old.state) result }
        ensures within { EndsWithin piece.now result }
    {
        let before = self.taken();
        let at = self.finish_item(piece);
        self.go_on(&piece[at..]);
        self.answer(before)
    }

    /// What bytes begin with of which the first `known` were fed: they are not scanned again.
    /// Behind a value the scanner begins anew.
    fn cut<'a>(&mut self, bytes: &'a [u8], known: usize) -> Cut<'a>
        requires known { known ≤ length bytes.now }
        requires behind { IsBehind self.old.limits (take known bytes.now) self.old }
        ensures verdict { seen result
            ≡ first_of self.old.limits.bytes self.old.limits.depth bytes.now }
        ensures front { IsFront bytes.now result }
        ensures extent { IsExtent bytes.now result }
        ensures after { StandsAfterCut self.old.limits bytes.now result self.new }
        ensures limits { self.new.limits ≡ self.old.limits }
    {
        self.is_bounded();
        match self.feed(&bytes[known..]) {
            Fed::More => Cut::Short,
            Fed::Bad(fault) => Cut::Bad(fault),
            Fed::End(used) => {
                self.restart();
                let used = known + used;
                Cut::Whole(
                    Value {
                        bytes: &bytes[..used],
                    },
                    used,
                )
            }
        }
    }

    /// What comes next in a stream's bytes of which the first `known` were fed, and no others: as
    /// `next_value`, but those are not scanned again. Behind a value the scanner begins anew;
    /// behind less than one it stands behind all the bytes. It takes no memory.
    pub fn next_value<'a>(&mut self, bytes: &'a [u8], known: usize) -> Next<'a>
        requires known { known ≤ length bytes.now }
        requires behind { IsBehind self.old.limits (take known bytes.now) self.old }
        ensures split { split_of self.old.limits.bytes self.old.limits.depth bytes.now
            ≡ split_by self.old.limits.bytes self.old.limits.depth bytes.now result }
        ensures parts { AreParts bytes.now result }
        ensures after { StandsAfter self.old.limits bytes.now result self.new }
        ensures limits { self.new.limits ≡ self.old.limits }
    {
        match self.cut(bytes, known) {
            Cut::Whole(value, used) => Next::Value(value, &bytes[used..]),
            Cut::Short => Next::Unfinished,
            Cut::Bad(fault) => Next::Fault(fault),
        }
    }

    /// The limits of the values.
    pub fn limits(&self) -> Limits
        ensures { result ≡ self.now.limits }
    {
        self.limits
    }

    /// 32 bits hold the most bytes of a value.
    #[inline(always)]
    fn is_bounded(&self)
        ensures { self.now.limits.bytes < 2 ^ 32 }
    {
        let _limits = self.limits; // for the proof
    }

    /// How many bytes of the value there were.
    #[inline(always)]
    fn taken(&self) -> usize
        ensures { result ≡ taken self.now.state }
    {
        match self.stage {
            ScanState::Head => self.used + self.front.len(),
            ScanState::Payload(_) | ScanState::Ended => self.used,
            ScanState::Failed(_) => 0,
        }
    }

    /// The answer, where there were so many bytes before the piece.
    #[inline(always)]
    fn answer(&self, before: usize) -> Fed
        requires { (total : ℕ) → self.now.state ≡ Ended total → before ≤ total }
        ensures { verdict_of self.now.state ≡ heard before result }
    {
        match self.stage {
            ScanState::Head | ScanState::Payload(_) => Fed::More,
            ScanState::Ended => Fed::End(self.used - before),
            ScanState::Failed(fault) => Fed::Bad(fault),
        }
    }

    /// Goes over the rest of the item that is cut off, if one is. How many bytes that takes.
    #[inline(always)]
    fn finish_item(&mut self, piece: &[u8]) -> usize
        ensures inside { result ≤ length piece.now }
        ensures state { self.new ≡ onward self.old (take result piece.now) }
        ensures done { result < length piece.now → in_item self.new.state ≡ false }
    {
        let at = self.finish_head(piece);
        at + self.finish_payload(&piece[at..])
    }

    /// Goes over the rest of the head that is cut off, if one is. How many bytes that takes.
    #[inline(always)]
    fn finish_head(&mut self, piece: &[u8]) -> usize
        ensures inside { result ≤ length piece.now }
        ensures state { self.new ≡ onward self.old (take result piece.now) }
        ensures done { result < length piece.now → in_head self.new.state ≡ false }
    {
        let mut at = 0;
        while at < piece.len() && self.is_in_head() {
            self.hear(piece[at]);
            at += 1;
        }
        at
    }

    /// Whether a head is cut off.
    #[inline(always)]
    fn is_in_head(&self) -> bool
        ensures { result ≡ in_head self.now.state }
    {
        matches!(self.stage, ScanState::Head) && self.front.len() > 0
    }

    /// Takes one byte more of the head that is cut off.
    fn hear(&mut self, byte: u8)
        requires { in_head self.old.state ≡ true }
        ensures { self.new ≡ onward self.old (byte ∷ []) }
    {
        self.front.push(byte);
        match self.front.read() {
            HeadRead::Whole(head, _) => {
                self.used += self.front.len();
                self.front.clear();
                self.stage = behind_head(head, self.used, &mut self.stack, self.limits);
            }
            HeadRead::Short => {}
            HeadRead::Reserved => self.stage = ScanState::Failed(ScanFault::Reserved),
        }
    }

    /// Goes over the rest of the payload that is cut off, if one is. How many bytes that takes.
    #[inline(always)]
    fn finish_payload(&mut self, piece: &[u8]) -> usize
        requires { 0 < length piece.now → in_head self.old.state ≡ false }
        ensures inside { result ≤ length piece.now }
        ensures state { self.new ≡ onward self.old (take result piece.now) }
        ensures done { result < length piece.now → in_item self.new.state ≡ false }
    {
        let ScanState::Payload(left) = self.stage else {
            return 0;
        };
        let left = left as usize;
        if piece.len() < left {
            self.used += piece.len();
            self.stage = ScanState::Payload((left - piece.len()) as u32);
            return piece.len();
        }
        self.used += left;
        self.stage = behind_value(&mut self.stack);
        left
    }

    /// Goes over the items of the bytes, where no item is cut off in front of them.
    #[inline(always)]
    fn go_on(&mut self, bytes: &[u8])
        requires { 0 < length bytes.now → in_item self.old.state ≡ false }
        ensures { self.new ≡ onward self.old bytes.now }
    {
        if bytes.is_empty() {
            return;
        }
        let ScanState::Head = self.stage else {
            return;
        };
        let limits = Limits {
            bytes: self.limits.bytes - self.used as u32,
            depth: self.limits.depth,
        };
        match scan_items(bytes, &mut self.stack, limits) {
            Stop::Whole(used) => {
                self.used += used;
                self.stage = ScanState::Ended;
            }
            Stop::InHead(at) => {
                self.used += at;
                self.front.keep(&bytes[at..]);
            }
            Stop::InPayload(left) => {
                self.used += bytes.len();
                self.stage = ScanState::Payload(left);
            }
            Stop::Bad(fault) => self.stage = ScanState::Failed(fault),
        }
    }
}

//! The requests of an output that are owed an answer, with what was acknowledged of their entries.
//! A chunk is kept with the server's reply, and not only its number, so that a receipt is right by
//! what it holds.

ghost use Rattle.std.specs.Prelude.{
  ◌≡◌,
  ◌≢◌,
  ◌<◌,
  ◌≤◌,
  ◌+◌,
  ◌^◌,
  ℕ,
  true,
  false,
  None,
  Some,
  [],
  ◌∷◌,
  ◌==◌,
  length,
  map,
  option_map,
  is_some,
  find,
  filter,
  slice_get,
  if◌then◌else◌,
  option_to_list,
  option_copied,
  option_and_then,
  IsSome,
  IfSome,
  IfNone,
  IsOk,
  IfOk,
  OnOk,
  OnErr,
};
ghost use Rattle.std.specs.Arc.{arc_value};
ghost use Rattle.std.specs.List.{list_any};
ghost use Rattle.fwd_modes.specs.Acks.{ack_name};
ghost use Rattle.fwd_chunks.specs.Spans.{AreCutBy, AreRising};
ghost use Rattle.fwd_modes.specs.declared.origin.Origin.{Origin as AbstractOrigin};
ghost use Rattle.fwd_book.specs.History.{
  is_of,
  is_settled,
  Entered,
  entered_as,
  name_at,
  request_at,
  are_fresh,
};
ghost use Rattle.fwd_book.specs.Receipts.{
  Receipt as AbstractReceipt,
  IsRightFor,
  once,
  receipts,
  receipt_if,
  receipt_of,
};
ghost use Rattle.fwd_book.specs.Gathering.{stands_behind, receipts_at};
ghost use Rattle.fwd_book.specs.Live.{
  IsOf,
  IsSound,
  live_opening,
  ready_enters,
  live_settles,
  live_leaves,
  live_owed,
  live_owed_of,
  live_forgets_of,
  live_is_settled,
  live_due,
  evidence_for,
};
ghost use Rattle.fwd_book.specs.ChunkRefs.{note_at, uses_in, used_more, used_less};

use crate::chunk_refs::ChunkRefs;
use crate::entered_request::EnteredRequest;
use crate::laws::receipts_are_right;
use crate::receipt::Receipt;
use crate::requests::{NO_SLOT, Requests};
use fwd_chunks::{Span, Spans};
use fwd_modes::{Batch, Origin};
use fwd_session::Acked;
use indexmap::IndexSet;
use std::alloc::{AllocError, Global};
use std::marker::Model;
use std::sync::Arc;

/// The requests of one output that are owed an answer. What was acknowledged is kept once for each
/// number, and as long as a request needs it. A request is found at once by its slot. Else its
/// connection's are gone through, unless its number is above theirs.
pub struct Book {
    run: [u8; 6],
    output: u16,
    requests: Requests,
    chunk_refs: ChunkRefs,
    /// The request that room was made for.
    ready: Option<Batch>,
}

// A drop of its own is proved once, and not at each place where a book goes.
impl Drop for Book {
    fn drop(self) {
        let Book {
            run: _,
            output: _,
            requests: _,
            chunk_refs: _,
            ready: _,
        } = self;
    }
}

impl Model for Book {
    ghost use Rattle.fwd_book.specs.Live.{BookState, IsSound};
    ghost use Rattle.fwd_book.specs.ChunkRefs.{AreOf, live_of, HasRoom};

    ghost Value = { BookState };

    ghost view = { λ b. record {
      live = live_of (record { run = b.run; output = b.output }) b.requests.items
          b.chunk_refs.notes;
      ready = b.ready;
    } };

    ghost invariant = { λ b. AreOf b.chunk_refs.notes b.requests.items
        × IsSound (live_of (record { run = b.run; output = b.output }) b.requests.items
        b.chunk_refs.notes)
        × HasRoom b.ready b.requests.room b.chunk_refs.room };
}

/// One request more has the numbers of these runs, which rise.
fn use_all(chunk_refs: &mut ChunkRefs, spans: &[Span])
    requires room { length spans.now ≤ chunk_refs.old.room }
    requires few { (n : ℕ) → uses_in (note_at n chunk_refs.old.notes) + 1 < 2 ^ 64 }
    requires rising { AreRising (map (λ s. s.number) spans.now) }
    ensures { (n : ℕ) → note_at n chunk_refs.new.notes
        ≡ (if list_any (λ s. s.number == n) spans.now
        then Some (used_more (note_at n chunk_refs.old.notes))
        else note_at n chunk_refs.old.notes) }
{
    for span in spans {
        chunk_refs.more(span.number);
    }
}

/// One request less has the numbers of these runs, which rise.
fn leave_all(chunk_refs: &mut ChunkRefs, spans: &[Span])
    requires rising { AreRising (map (λ s. s.number) spans.now) }
    ensures noted { (n : ℕ) → note_at n chunk_refs.new.notes
        ≡ (if list_any (λ s. s.number == n) spans.now
        then used_less (note_at n chunk_refs.old.notes) else note_at n chunk_refs.old.notes) }
    ensures room { chunk_refs.old.room ≤ chunk_refs.new.room }
{
    for span in spans {
        chunk_refs.less(span.number);
    }
}

/// Whether an origin stands behind another one: of a greater connection, or of the same one with a
/// greater number.
fn is_behind(before: Option<Origin>, origin: Origin) -> bool
    ensures { result ≡ stands_behind before origin }
{
    match before {
        None => true,
        Some(before) => {
            before.conn < origin.conn
                || before.conn == origin.conn && before.request < origin.request
        }
    }
}

/// Whether the origins rise. Then each stands once.
fn are_rising(origins: &[Origin]) -> bool
    ensures { result ≡ true → once origins.now ≡ origins.now }
{
    let mut before = None;
    for origin in origins {
        if !is_behind(before, *origin) {
            return false;
        }
        before = Some(*origin);
    }
    true
}

/// Each origin once, where it stands first.
fn once(alloc: Global, origins: &[Origin]) -> Result<Vec<Origin>, AllocError>
    ensures { IfOk result (λ asked. asked.items ≡ once origins.now) }
{
    let mut known = IndexSet::with_capacity(alloc, origins.len())?;
    let mut asked = Vec::with_capacity(alloc, origins.len())?;
    for origin in origins {
        if known.insert((origin.conn, origin.request))? {
            asked.push(*origin)?;
        }
    }
    Ok(asked)
}

impl Book {
    /// A book without requests, of the output with this number in this run.
    pub fn new(alloc: Global, run: [u8; 6], output: u16) -> Self
        ensures { result ≡ record {
          live = live_opening (record { run = run; output = output });
          ready = None;
        } }
    {
        Book {
            run,
            output,
            requests: Requests::new(alloc),
            chunk_refs: ChunkRefs::new(alloc),
            ready: None,
        }
    }

    /// The run that the names of the output's chunks tell.
    pub fn run(&self) -> [u8; 6]
        ensures { result ≡ self.now.live.setting.run }
    {
        self.run
    }

    /// The output's number.
    pub fn output(&self) -> u16
        ensures { result ≡ self.now.live.setting.output }
    {
        self.output
    }

    /// Makes room for a request. On an error nothing has changed.
    pub fn prepare(&mut self, batch: &Batch) -> Result<(), AllocError>
        ensures ok { OnOk result (self.new ≡ record self.old { ready = Some batch.now }) }
        ensures err { OnErr result (self.new ≡ self.old) }
    {
        let request = batch.share()?;
        self.requests.reserve()?;
        self.chunk_refs.reserve(request.len())?;
        self.ready = Some(request);
        Ok(())
    }

    /// The request that room was made for is entered, under the runs that its entries took. No
    /// chunk of these runs was acknowledged yet: a buffer puts entries into open chunks, and only
    /// closed ones are acknowledged. Answers the request's slot, where it stays: `receipt_at` and
    /// `leave_at` find it there.
    pub fn enter(&mut self, origin: Origin, spans: Spans) -> usize
        requires ready { IsSome self.old.ready }
        requires alone { request_at self.old.live.requests origin ≡ None }
        requires cut { IfSome self.old.ready (λ r. AreCutBy spans r.entries) }
        requires rising { AreRising (map (λ s. s.number) spans) }
        requires fresh { are_fresh self.old.live.settled spans ≡ true }
        ensures { self.new ≡ ready_enters self.old origin spans }
    {
        let Some(request) = self.ready.take() else {
            unreachable!();
        };
        self.requests.are_few(); // for the proof
        use_all(&mut self.chunk_refs, spans.as_slice());
        self.requests
            .push(EnteredRequest::new(origin, request, spans))
    }

    /// Whether the request of an origin is owed an answer.
    pub fn holds(&self, origin: Origin) -> bool
        ensures { result ≡ is_some (request_at self.now.live.requests origin) }
    {
        self.requests.get_at(NO_SLOT, origin).is_some()
    }

    /// The request of an origin leaves, which may stand in this slot. Answers whether it was there.
    pub fn leave_at(&mut self, slot: usize, origin: Origin) -> bool
        ensures held { result ≡ is_some (request_at self.old.live.requests origin) }
        ensures left { self.new ≡ record self.old {
          live = live_leaves self.old.live (origin ∷ []);
        } }
        ensures same { result ≡ false → self.new ≡ self.old }
    {
        let Some(kept) = self.requests.take_at(slot, origin) else {
            return false;
        };
        leave_all(&mut self.chunk_refs, kept.spans());
        true
    }

    /// The first request of a connection leaves, if it has one. Answers its origin.
    fn leave_first(&mut self, conn: u64) -> Option<Origin>
        ensures first { result
            ≡ option_map (λ q. q.origin) (find (is_of conn) self.old.live.requests) }
        ensures left { IfSome result (λ origin. self.new ≡ record self.old {
          live = live_leaves self.old.live (origin ∷ []);
        }) }
        ensures same { IfNone result (self.new ≡ self.old) }
        ensures sound { IsSound self.old.live }
    {
        self.is_sound(); // for the proof
        let origin = self.requests.first_of(conn)?;
        self.leave_at(NO_SLOT, origin);
        Some(origin)
    }

    /// A server acknowledged a chunk: it is kept where some request has entries in it. Answers how
    /// many entries it has.
    pub fn settle(&mut self, acked: Arc<Acked>) -> usize
        requires named { ack_name (arc_value acked).reply
            ≡ Some (name_at self.old.live.setting (arc_value acked).number) }
        requires own { (i : ℕ) (q : Entered) → slice_get self.old.live.requests i ≡ Some q
            → IsOf q (arc_value acked) }
        ensures count { result ≡ length (arc_value acked).entries }
        ensures settled { self.new ≡ record self.old {
          live = live_settles self.old.live (arc_value acked);
        } }
    {
        let count = acked.count();
        self.chunk_refs.put(acked);
        count
    }

    /// What is true of every book, so that each receipt that it gives is right. And what it shows
    /// as acknowledged is what its requests need of it.
    pub fn is_sound(&self)
        ensures sound { IsSound self.now.live }
        ensures kept { evidence_for self.now.live.requests self.now.live.settled
            ≡ self.now.live.settled }
    {
        let _output = self.output; // for the proof
    }

    /// The requests of these origins leave: they were told, or nobody is to be told any more.
    /// Answers how many there were.
    pub fn forget(&mut self, origins: &[Origin]) -> usize
        ensures count { result ≡ live_owed self.old.live origins.now }
        ensures left { self.new ≡ record self.old {
          live = live_leaves self.old.live origins.now;
        } }
    {
        self.is_sound(); // for the proof
        let mut count = 0;
        for origin in origins {
            if self.leave_at(NO_SLOT, *origin) {
                count += 1;
            }
        }
        count
    }

    /// The origins of a connection's requests that are owed an answer, in the order in which they
    /// were entered. The only error is out of memory.
    pub fn untold(&self, alloc: Global, conn: u64) -> Result<Vec<Origin>, AllocError>
        ensures { IfOk result (λ origins. origins.items
            ≡ map (λ q. q.origin) (filter (is_of conn) self.now.live.requests)) }
    {
        self.requests.origins(alloc, conn, None)
    }

    /// The requests of a connection leave: nobody is to be told any more. Answers how many there
    /// were.
    pub fn forget_of(&mut self, conn: u64) -> usize
        ensures count { result ≡ live_owed_of self.old.live conn }
        ensures left { self.new ≡ record self.old { live = live_forgets_of self.old.live conn } }
    {
        self.requests.are_few(); // for the proof
        let mut count = 0;
        while let Some(_) = self.leave_first(conn) {
            count += 1;
        }
        self.is_sound(); // for the proof
        count
    }

    /// Whether the request of an origin is owed an answer, and all its entries are acknowledged.
    pub fn is_settled(&self, origin: Origin) -> bool
        ensures { result ≡ live_is_settled self.now.live origin }
    {
        match self.requests.get_at(NO_SLOT, origin) {
            None => false,
            Some(kept) => self.chunk_refs.has_all(kept.spans()),
        }
    }

    /// Whether a request of one of these origins is owed an answer, and all its entries are
    /// acknowledged.
    fn has_settled(&self, origins: &[Origin]) -> bool
        ensures { result ≡ list_any (live_is_settled self.now.live) origins.now }
    {
        origins.iter().any(|origin| self.is_settled(*origin))
    }

    /// The origins of a connection's requests that are owed an answer and whose entries are all
    /// acknowledged, in the order in which they were entered. The only error is out of memory,
    /// and where there are none it takes no memory.
    pub fn due(&self, alloc: Global, conn: u64) -> Result<Vec<Origin>, AllocError>
        ensures due { IfOk result (λ origins. origins.items
            ≡ map (λ q. q.origin) (live_due self.now.live conn)) }
        ensures none { live_due self.now.live conn ≡ [] → IsOk result }
    {
        self.requests.origins(alloc, conn, Some(&self.chunk_refs))
    }

    /// The bytes of the option's `chunk` value of an origin's request, as they were sent, if the
    /// request is owed an answer and has one.
    pub fn chunk(&self, origin: Origin) -> Option<&[u8]>
        ensures { option_copied result
            ≡ option_and_then (λ q. q.chunk) (request_at self.now.live.requests origin) }
    {
        self.requests.get_at(NO_SLOT, origin)?.request().chunk()
    }

    /// Whether this request is owed an answer under this origin, with these runs of its entries.
    pub fn shows(&self, origin: Origin, batch: &Batch, spans: &[Span]) -> bool
        ensures shown { result ≡ true → request_at self.now.live.requests origin
            ≡ Some (entered_as batch.now origin spans.now) }
        ensures other { result ≡ false → request_at self.now.live.requests origin
            ≢ Some (entered_as batch.now origin spans.now) }
    {
        self.shows_at(NO_SLOT, origin, batch, spans)
    }

    /// The same, where the request may stand in this slot: it is found there without a search.
    pub fn shows_at(&self, slot: usize, origin: Origin, batch: &Batch, spans: &[Span]) -> bool
        ensures shown { result ≡ true → request_at self.now.live.requests origin
            ≡ Some (entered_as batch.now origin spans.now) }
        ensures other { result ≡ false → request_at self.now.live.requests origin
            ≢ Some (entered_as batch.now origin spans.now) }
    {
        match self.requests.get_at(slot, origin) {
            None => false,
            Some(kept) => kept.is_of(batch, spans),
        }
    }

    /// The receipts of the requests of these origins whose entries are all acknowledged, in the
    /// order of the origins, each once; each is right for the request of its origin. The only
    /// error is out of memory, and where there are none it takes no memory.
    pub fn gather(&self, alloc: Global, origins: &[Origin]) -> Result<Vec<Receipt>, AllocError>
        ensures given { IfOk result (λ given. given.items
            ≡ receipts self.now.live.settled self.now.live.requests origins.now) }
        ensures right { IfOk result (λ given. (i : ℕ) (r : AbstractReceipt) →
            slice_get given.items i ≡ Some r →
            (q : Entered) × (request_at self.now.live.requests r.origin ≡ Some q)
            × IsRightFor self.now.live.setting q r) }
        ensures none { receipts self.now.live.settled self.now.live.requests origins.now ≡ []
            → IsOk result }
    {
        self.is_sound(); // for the proof
        receipts_are_right(); // for the proof
        if are_rising(origins) {
            return self.receipts(alloc, origins);
        }
        if !self.has_settled(origins) {
            return Ok(Vec::new(alloc));
        }
        self.receipts(alloc, &once(alloc, origins)?)
    }

    /// The receipts of the requests of these origins whose entries are all acknowledged, one
    /// origin after the other. The only error is out of memory, and where there are none it takes
    /// no memory. With the first comes room for one of each origin.
    fn receipts(&self, alloc: Global, origins: &[Origin]) -> Result<Vec<Receipt>, AllocError>
        ensures given { IfOk result (λ given. given.items
            ≡ receipts_at self.now.live.settled self.now.live.requests origins.now) }
        ensures none { receipts_at self.now.live.settled self.now.live.requests origins.now ≡ []
            → IsOk result }
    {
        let mut given = Vec::new(alloc);
        for origin in origins {
            if let Some(receipt) = self.receipt(alloc, *origin)? {
                if given.is_empty() {
                    given.reserve(origins.len())?;
                }
                given.push(receipt)?;
            }
        }
        Ok(given)
    }

    /// The receipt of a request that is owed an answer, if its entries are all acknowledged. The
    /// only error is out of memory, and where they are not it takes no memory.
    fn receipt_of(
        &self,
        alloc: Global,
        kept: &EnteredRequest,
    ) -> Result<Option<Receipt>, AllocError>
        requires held { (origin : AbstractOrigin)
            × (request_at self.now.live.requests origin ≡ Some kept.now) }
        ensures given { IfOk result (λ given. option_to_list given
            ≡ receipt_if self.now.live.settled (Some kept.now)) }
        ensures none { is_settled self.now.live.settled kept.now ≡ false → IsOk result }
    {
        match self.chunk_refs.parts(alloc, kept.spans())? {
            None => Ok(None),
            Some(parts) => Ok(Some(Receipt::new(kept, parts)?)),
        }
    }

    /// The receipt of an origin's request, if it is here and its entries are all acknowledged. The
    /// only error is out of memory, and where they are not it takes no memory.
    pub fn receipt(&self, alloc: Global, origin: Origin) -> Result<Option<Receipt>, AllocError>
        ensures given { IfOk result (λ given. option_to_list given
            ≡ receipt_if self.now.live.settled (request_at self.now.live.requests origin)) }
        ensures none { live_is_settled self.now.live origin ≡ false → IsOk result }
    {
        match self.requests.get_at(NO_SLOT, origin) {
            None => Ok(None),
            Some(kept) => self.receipt_of(alloc, kept),
        }
    }

    /// The receipt of just this request, if it is owed an answer under this origin, with these runs
    /// of its entries, and they are all acknowledged. It may stand in this slot. The only error is
    /// out of memory.
    pub fn receipt_at(
        &self,
        alloc: Global,
        slot: usize,
        origin: Origin,
        batch: &Batch,
        spans: &[Span],
    ) -> Result<Option<Receipt>, AllocError>
        ensures given { IfOk result (λ given. IfSome given (λ receipt.
            (request_at self.now.live.requests origin
            ≡ Some (entered_as batch.now origin spans.now))
            × (is_settled self.now.live.settled (entered_as batch.now origin spans.now) ≡ true)
            × (receipt ≡ receipt_of self.now.live.settled (entered_as batch.now origin spans.now)))) }
        ensures none { IfOk result (λ given. IfNone given (request_at self.now.live.requests origin
            ≡ Some (entered_as batch.now origin spans.now)
            → is_settled self.now.live.settled (entered_as batch.now origin spans.now) ≡ false)) }
    {
        let Some(kept) = self.requests.get_at(slot, origin) else {
            return Ok(None);
        };
        match self.receipt_of(alloc, kept)? {
            Some(receipt) if kept.is_of(batch, spans) => Ok(Some(receipt)),
            _ => Ok(None),
        }
    }
}

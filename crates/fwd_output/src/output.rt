//! One output's state: its chunks, the requests whose entries they have, and what was lost at its
//! servers. Where threads share an output, all of it lies under one lock (`Locked`).

ghost use Rattle.std.specs.Prelude.{
  ◌≡◌,
  ◌<◌,
  ◌≤◌,
  ◌⊎◌,
  ◌++◌,
  max,
  ℕ,
  Err,
  Some,
  None,
  IfErr,
  OnOk,
  OnErr,
  IfOk,
  IfNone,
  IfSome,
  IsOk,
  filter,
  is_some,
  length,
  map,
  option_copied,
  option_to_list,
  slice_get,
  true,
  false,
  [],
  ◌∷◌,
  ◌≢◌,
  ◌↔◌,
  IsTrue,
  Contains,
};
ghost use Rattle.std.specs.Arc.{arc_value};
ghost use Rattle.fwd_chunks.specs.Live.{
  IsCarried,
  live_refusal,
  live_closing,
  live_flushes,
  live_looks,
  live_spans,
  live_frees,
  live_counts,
};
ghost use Rattle.fwd_chunks.specs.Soundness.{IsSound};
ghost use Rattle.fwd_failover.specs.Doubts.{live_is_doubted, live_trusted};
ghost use Rattle.fwd_chunks.specs.TagCounts.{live_report, IsSnapshot};
ghost use Rattle.fwd_session.specs.ServerAcks.{IsServerAck};
ghost use Rattle.fwd_book.specs.History.{Entered, entered_as, is_of, is_settled, request_at};
ghost use Rattle.fwd_book.specs.Receipts.{
  Receipt as AbstractReceipt,
  IsRightFor,
  receipt_if,
  receipt_of,
  receipts,
};
ghost use Rattle.fwd_book.specs.Live.{
  IsSound as IsSoundBook,
  LiveBook,
  evidence_for,
  live_due,
  live_leaves,
  live_owed,
  live_owed_of,
  live_forgets_of,
};
ghost use Rattle.fwd_model.specs.Outputs.{
  no_requests,
  output_enters,
  output_settles,
  output_choice,
  output_looks,
  output_ends,
  returned,
  live_count_at,
  live_loses,
};
ghost use Rattle.fwd_run.specs.Pages.{AreCarried};
ghost use Rattle.fwd_output.specs.Coupling.{IsCoupled};
ghost use Rattle.fwd_output.specs.OutputEvents.{IsLiveOutput};
ghost use Rattle.fwd_output.specs.HandedBack.{
  IsHandedBack,
  chunk_at,
  kept_back,
  lost_back,
};

mod taking;

use crate::ticket::Admitted;
use fwd_book::{Book, Receipt};
use fwd_chunks::{
    AdmitError, Buffer, BufferLimits, Carried, Counts, FlushKind, Report, Snapshot, Span, Spans,
};
use fwd_failover::Servers;
use fwd_model::Origin;
use fwd_modes::Batch;
use fwd_session::Acked;
use std::alloc::{AllocError, Global};
use std::marker::Model;
use std::sync::Arc;

/// The chunks of one output that are not yet settled, the requests that are owed an answer with
/// what was acknowledged of them, and what was lost at its servers. What is not acknowledged of a
/// request stands in the chunks.
pub struct OutputState {
    buffer: Buffer,
    book: Book,
    servers: Servers,
}

// A drop of its own is proved once, and not at each place where an output goes.
impl Drop for OutputState {
    fn drop(self) {
        let OutputState {
            buffer: _,
            book: _,
            servers: _,
        } = self;
    }
}

impl Model for OutputState {
    ghost use Rattle.fwd_model.specs.Outputs.{LiveOutput};
    ghost use Rattle.fwd_output.specs.Coupling.{IsCoupled};
    ghost use Rattle.fwd_output.specs.OutputEvents.{IsLiveOutput};

    ghost Value = { LiveOutput };

    ghost view = { λ o.
        record { buffer = o.buffer; book = o.book.live; servers = o.servers } };

    ghost invariant = { λ o. IsCoupled o.buffer o.book.live
        × IsLiveOutput (record { buffer = o.buffer; book = o.book.live; servers = o.servers }) };
}

/// A chunk is put back, with a loss where one is handed in. One that no worker has from this buffer
/// is only spent.
fn put_back(buffer: &mut Buffer, carried: Carried, loss: Option<u64>)
    ensures here { IsCarried buffer.old carried
        → buffer.new ≡ live_frees buffer.old carried.number loss }
    ensures elsewhere { ¬ (IsCarried buffer.old carried) → buffer.new ≡ buffer.old }
    ensures either { (buffer.new ≡ live_frees buffer.old carried.number loss)
        ⊎ (buffer.new ≡ buffer.old) }
{
    buffer.free(carried, loss);
}

/// Chunks are put back, with a loss at a moment (milliseconds) each. One that no worker has from
/// this buffer is only spent.
fn put_all_back(buffer: &mut Buffer, chunks: Vec<Carried>, now: u64)
    ensures back { IsHandedBack buffer.old (map lost_back chunks.items) now buffer.new }
    ensures coupled { (k : LiveBook) → IsCoupled buffer.old k → IsCoupled buffer.new k }
{
    let mut rest = chunks.into_iter();
    while let Some(chunk) = rest.next() {
        put_back(buffer, chunk, Some(now));
    }
    rest.destroy_empty();
}

/// The chunk that a worker took is put back without a loss, and then those that it loaded with a
/// loss each at a moment (milliseconds).
fn hand_back(buffer: &mut Buffer, taken: Option<Carried>, loaded: Vec<Carried>, now: u64)
    ensures back { IsHandedBack buffer.old
        (map kept_back (option_to_list taken) ++ map lost_back loaded.items) now buffer.new }
    ensures coupled { (k : LiveBook) → IsCoupled buffer.old k → IsCoupled buffer.new k }
{
    match taken {
        None => put_all_back(buffer, loaded, now),
        Some(chunk) => {
            put_back(buffer, chunk, None);
            put_all_back(buffer, loaded, now);
        }
    }
}

/// A server is lost at a moment (milliseconds), if one is.
fn lose(servers: &mut Servers, server: Option<u16>, moment: u64)
    ensures { servers.new ≡ live_loses servers.old server moment }
{
    if let Some(server) = server {
        servers.failed(server, moment);
    }
}

/// The requests of these receipts leave.
fn tell(book: &mut Book, given: &[Receipt])
    ensures { book.new ≡ record book.old {
      live = live_leaves book.old.live (map (λ r. r.origin) given.now);
    } }
{
    book.is_sound(); // for the proof
    for receipt in given {
        book.forget(&[receipt.origin()]);
    }
}

impl OutputState {
    /// An output without entries, by its limits, its run and its number, and its servers: which of
    /// them are standbys, 1 to 16 and not all. The only error is out of memory.
    pub fn new(
        alloc: Global,
        limits: BufferLimits,
        run: [u8; 6],
        output: u16,
        standby: &[bool],
    ) -> Result<Self, AllocError>
        requires few { length standby.now ≤ 16 }
        requires has_primary { Contains standby.now false }
        ensures { IfOk result (λ state. state
            ≡ no_requests (record { limits = limits; run = run; output = output })
            (record {
              standby = standby.now;
              retry_wait = limits.retry_wait;
              retry_max = limits.retry_max;
            })) }
    {
        let servers = Servers::new(alloc, standby, limits.retry_wait, limits.retry_max)?;
        Ok(OutputState {
            buffer: Buffer::new(alloc, limits, run, output),
            book: Book::new(alloc, run, output),
            servers,
        })
    }

    /// What is true of every output's chunks, and of its requests. What it shows as acknowledged
    /// is what its requests need of it. And it is the live part of a history that a run of its own
    /// events reaches.
    pub fn is_sound(&self)
        ensures chunks { IsSound self.now.buffer }
        ensures requests { IsSoundBook self.now.book }
        ensures reached { IsLiveOutput self.now }
        ensures kept { evidence_for self.now.book.requests self.now.book.settled
            ≡ self.now.book.settled }
    {
        self.buffer.is_sound(); // for the proof
        self.book.is_sound(); // for the proof
    }

    /// The entries accepted, settled and held, with the bytes held and the chunks that hold them.
    pub fn counts(&self) -> Counts
        ensures { result ≡ live_counts self.now.buffer }
    {
        self.buffer.held()
    }

    /// The same, and what is held of each tag, the tags in no order: made quickly, while others
    /// wait for the output. The only error is out of memory.
    pub fn snapshot(&self, alloc: Global) -> Result<Snapshot, AllocError>
        ensures { IfOk result (λ snapshot. IsSnapshot self.now.buffer snapshot) }
    {
        self.buffer.snapshot(alloc)
    }

    /// The same with the tags by rising bytes. The only error is out of memory.
    pub fn report(&self, alloc: Global) -> Result<Report, AllocError>
        ensures { IfOk result (λ report. report ≡ live_report self.now.buffer) }
    {
        self.buffer.report(alloc)
    }

    /// Enters a request at a moment (milliseconds): each of its entries joins its tag's open
    /// chunk, or begins a new one. It is refused as `Full` where the bytes held would be more
    /// than the total limit, and then as `NumbersSpent`. On an error nothing has changed. Answers
    /// the runs of the entries in their chunks, and the request's slot. Asked is that the origin's
    /// request is not owed an answer already: `holds` tells.
    pub fn admit(
        &mut self,
        alloc: Global,
        origin: Origin,
        batch: &Batch,
        now: u64,
    ) -> Result<Admitted, AdmitError>
        requires { request_at self.old.book.requests origin ≡ None }
        ensures refused { IfSome (live_refusal self.old.buffer batch.now now) (λ fault.
            result ≡ Err fault) }
        ensures ok { OnOk result (self.new ≡ output_enters self.old origin batch.now now) }
        ensures spans { IfOk result (λ admitted.
            admitted.spans ≡ live_spans self.old.buffer batch.now now) }
        ensures memory { live_refusal self.old.buffer batch.now now ≡ None
            → IfErr result (λ error. error ≡ AdmitError.Memory) }
        ensures err { OnErr result (self.new ≡ self.old) }
    {
        self.buffer.is_sound(); // for the proof
        let Ok(()) = self.book.prepare(batch) else {
            return Err(self.buffer.fault(batch).unwrap_or(AdmitError::Memory));
        };
        let (spans, copy) = self.buffer.admit_with_copy(alloc, batch, now)?;
        let slot = self.book.enter(origin, spans);
        Ok(Admitted { spans: copy, slot })
    }

    /// Closes the open chunks that a flush closes at a moment (milliseconds), and answers how many.
    pub fn flush(&mut self, now: u64, kind: FlushKind) -> usize
        ensures count { result ≡ length (live_closing self.old.buffer now kind) }
        ensures flushed { self.new ≡ record self.old {
          buffer = live_flushes self.old.buffer now kind;
        } }
    {
        self.buffer.flush(now, kind)
    }

    /// The server that a worker tries at a moment (milliseconds), if one is usable: by the greatest
    /// moment of all that were handed in.
    pub fn choose(&mut self, worker: u16, now: u64) -> Option<u16>
        ensures choice { result ≡ output_choice self.old worker now }
        ensures looked { self.new ≡ output_looks self.old now }
    {
        let moment = self.buffer.look(now);
        self.servers.choose(worker, moment)
    }

    /// Whether a server was lost since it last settled a chunk, so that it is not known to work.
    pub fn is_doubted(&self, server: u16) -> bool
        ensures { result ≡ live_is_doubted self.now.servers server }
    {
        self.servers.is_doubted(server)
    }

    /// The first server in a worker's order that was not lost since it last settled a chunk, if
    /// there is one.
    pub fn trusted(&self, worker: u16) -> Option<u16>
        ensures { result ≡ live_trusted self.now.servers worker }
    {
        self.servers.trusted(worker)
    }

    /// A server acknowledged the chunk: its entries are settled, what was acknowledged is kept for
    /// the requests that have entries in it, and the server's losses count no more. Answers how
    /// many entries those are. A chunk that no worker has from this output is only spent.
    pub fn settle(&mut self, acked: Arc<Acked>, carried: Carried) -> usize
        requires { IsServerAck (arc_value acked) carried }
        ensures here { IsCarried self.old.buffer carried
            → self.new ≡ output_settles self.old (arc_value acked) }
        ensures count { IsCarried self.old.buffer carried
            → result ≡ live_count_at carried.number self.old }
        ensures elsewhere { ¬ (IsCarried self.old.buffer carried) → self.new ≡ self.old }
        ensures none { ¬ (IsCarried self.old.buffer carried) → result ≡ 0 }
    {
        self.buffer.is_sound(); // for the proof
        let before = self.buffer.held().settled;
        let server = acked.server();
        if self.buffer.settle(carried) {
            self.book.settle(acked);
            self.servers.settled(server);
        }
        (self.buffer.held().settled - before) as usize
    }

    /// A worker's end at a moment (milliseconds): the chunk that it took and did not load is given
    /// back without a loss, and those that it loaded with a loss each, in their order; and a server
    /// may be lost. A chunk that no worker has from this output is only spent. It takes no memory.
    pub fn end(
        &mut self,
        taken: Option<Carried>,
        loaded: Vec<Carried>,
        server: Option<u16>,
        now: u64,
    )
        ensures here { AreCarried self.old.buffer (option_to_list taken ++ loaded.items)
            → self.new ≡ output_ends self.old (returned taken loaded.items) server now }
        ensures each { IsHandedBack (live_looks self.old.buffer now)
            (map kept_back (option_to_list taken) ++ map lost_back loaded.items) now
            self.new.buffer }
        ensures rest { self.new ≡ record self.old {
          buffer = self.new.buffer;
          servers = live_loses self.old.servers server (max self.old.buffer.moment now);
        } }
    {
        let moment = self.buffer.look(now);
        hand_back(&mut self.buffer, taken, loaded, now);
        lose(&mut self.servers, server, moment);
    }

    /// A chunk is given back without a loss. One that no worker has from this output is only spent.
    pub fn put_back(&mut self, chunk: Carried)
        ensures here { IsCarried self.old.buffer chunk → self.new ≡ record self.old {
          buffer = live_frees self.old.buffer chunk.number None;
        } }
        ensures elsewhere { ¬ (IsCarried self.old.buffer chunk) → self.new ≡ self.old }
    {
        put_back(&mut self.buffer, chunk, None);
    }

    /// The run that the names of the chunks tell.
    pub fn run(&self) -> [u8; 6]
        ensures { result ≡ self.now.book.setting.run }
    {
        self.book.run()
    }

    /// The output's number.
    pub fn output(&self) -> u16
        ensures { result ≡ self.now.book.setting.output }
    {
        self.book.output()
    }

    /// Whether a worker has the chunk from this output, with its tag, its entries and its name.
    pub fn carries(&self, carried: &Carried) -> bool
        ensures { IsTrue result ↔ IsCarried self.now.buffer carried.now }
    {
        self.buffer.carries(carried)
    }

    /// Whether this request is owed an answer under this origin, with these runs of its entries.
    pub fn shows(&self, origin: Origin, batch: &Batch, spans: &[Span]) -> bool
        ensures shown { result ≡ true → request_at self.now.book.requests origin
            ≡ Some (entered_as batch.now origin spans.now) }
        ensures other { result ≡ false → request_at self.now.book.requests origin
            ≢ Some (entered_as batch.now origin spans.now) }
    {
        self.book.shows(origin, batch, spans)
    }

    /// The same, where the request may stand in this slot of the book.
    pub fn shows_at(&self, slot: usize, origin: Origin, batch: &Batch, spans: &[Span]) -> bool
        ensures shown { result ≡ true → request_at self.now.book.requests origin
            ≡ Some (entered_as batch.now origin spans.now) }
        ensures other { result ≡ false → request_at self.now.book.requests origin
            ≢ Some (entered_as batch.now origin spans.now) }
    {
        self.book.shows_at(slot, origin, batch, spans)
    }

    /// The receipt of an origin's request, if it is owed an answer and its entries are all
    /// acknowledged. The only error is out of memory.
    pub fn receipt(&self, alloc: Global, origin: Origin) -> Result<Option<Receipt>, AllocError>
        ensures { IfOk result (λ given. option_to_list given
            ≡ receipt_if self.now.book.settled (request_at self.now.book.requests origin)) }
    {
        self.book.receipt(alloc, origin)
    }

    /// The receipt of just this request, if it is owed an answer under this origin, with these runs
    /// of its entries, and they are all acknowledged. It may stand in this slot of the book. The
    /// only error is out of memory.
    pub fn receipt_at(
        &self,
        alloc: Global,
        slot: usize,
        origin: Origin,
        batch: &Batch,
        spans: &[Span],
    ) -> Result<Option<Receipt>, AllocError>
        ensures given { IfOk result (λ given. IfSome given (λ receipt.
            (request_at self.now.book.requests origin
            ≡ Some (entered_as batch.now origin spans.now))
            × (is_settled self.now.book.settled (entered_as batch.now origin spans.now) ≡ true)
            × (receipt
            ≡ receipt_of self.now.book.settled (entered_as batch.now origin spans.now)))) }
        ensures none { IfOk result (λ given. IfNone given (request_at self.now.book.requests origin
            ≡ Some (entered_as batch.now origin spans.now)
            → is_settled self.now.book.settled (entered_as batch.now origin spans.now) ≡ false)) }
    {
        self.book.receipt_at(alloc, slot, origin, batch, spans)
    }

    /// Whether the request of an origin is owed an answer.
    pub fn holds(&self, origin: Origin) -> bool
        ensures { result ≡ is_some (request_at self.now.book.requests origin) }
    {
        self.book.holds(origin)
    }

    /// The origins of a connection's requests that are owed an answer, in the order in which they
    /// were entered. The only error is out of memory.
    pub fn untold(&self, alloc: Global, conn: u64) -> Result<Vec<Origin>, AllocError>
        ensures { IfOk result (λ origins. origins.items
            ≡ map (λ q. q.origin) (filter (is_of conn) self.now.book.requests)) }
    {
        self.book.untold(alloc, conn)
    }

    /// The origins of a connection's requests that are owed an answer and whose entries are all
    /// acknowledged, in the order in which they were entered. The only error is out of memory;
    /// where there are none no memory is taken.
    pub fn due(&self, alloc: Global, conn: u64) -> Result<Vec<Origin>, AllocError>
        ensures due { IfOk result (λ origins. origins.items
            ≡ map (λ q. q.origin) (live_due self.now.book conn)) }
        ensures none { live_due self.now.book conn ≡ [] → IsOk result }
    {
        self.book.due(alloc, conn)
    }

    /// The `chunk` value of the request of an origin, as it was sent, if it is owed an answer and
    /// asked for an acknowledgement.
    pub fn chunk(&self, origin: Origin) -> Option<&[u8]>
        ensures { option_copied result ≡ chunk_at self.now.book.requests origin }
    {
        self.book.chunk(origin)
    }

    /// The receipts of the requests of these origins whose entries are all acknowledged, in the
    /// order of the origins, each once; each is right for the request of its origin. The only
    /// error is out of memory, and where there are none no memory is taken.
    pub fn gather(&self, alloc: Global, origins: &[Origin]) -> Result<Vec<Receipt>, AllocError>
        ensures given { IfOk result (λ given. given.items
            ≡ receipts self.now.book.settled self.now.book.requests origins.now) }
        ensures right { IfOk result (λ given. (i : ℕ) (r : AbstractReceipt) →
            slice_get given.items i ≡ Some r →
            (q : Entered) × (request_at self.now.book.requests r.origin ≡ Some q)
            × IsRightFor self.now.book.setting q r) }
        ensures none { receipts self.now.book.settled self.now.book.requests origins.now ≡ []
            → IsOk result }
    {
        self.book.gather(alloc, origins)
    }

    /// Who is told: of the requests of these origins those whose entries are all acknowledged
    /// leave, and each is answered with its receipt, in the order of the origins, each once. The
    /// only error is out of memory, and then nothing has changed; where nobody is told no memory
    /// is taken.
    pub fn collect(&mut self, alloc: Global, origins: &[Origin]) -> Result<Vec<Receipt>, AllocError>
        ensures given { IfOk result (λ given. given.items
            ≡ receipts self.old.book.settled self.old.book.requests origins.now) }
        ensures right { IfOk result (λ given. (i : ℕ) (r : AbstractReceipt) →
            slice_get given.items i ≡ Some r →
            (q : Entered) × (request_at self.old.book.requests r.origin ≡ Some q)
            × IsRightFor self.old.book.setting q r) }
        ensures told { IfOk result (λ given. self.new ≡ record self.old {
          book = live_leaves self.old.book (map (λ r. r.origin) given.items);
        }) }
        ensures none { receipts self.old.book.settled self.old.book.requests origins.now ≡ []
            → IsOk result }
        ensures err { OnErr result (self.new ≡ self.old) }
    {
        self.book.is_sound(); // for the proof
        let given = self.gather(alloc, origins)?;
        tell(&mut self.book, &given);
        Ok(given)
    }

    /// The requests of these origins leave: they were told, or nobody is to be told any more.
    /// Answers how many there were.
    pub fn forget(&mut self, origins: &[Origin]) -> usize
        ensures count { result ≡ live_owed self.old.book origins.now }
        ensures left { self.new ≡ record self.old {
          book = live_leaves self.old.book origins.now;
        } }
    {
        self.book.forget(origins)
    }

    /// The request of an origin leaves, which may stand in this slot of the book: it was told, or
    /// nobody is to be told any more. Answers whether it was there.
    pub fn leave_at(&mut self, slot: usize, origin: Origin) -> bool
        ensures held { result ≡ is_some (request_at self.old.book.requests origin) }
        ensures left { self.new ≡ record self.old {
          book = live_leaves self.old.book (origin ∷ []);
        } }
        ensures same { result ≡ false → self.new ≡ self.old }
    {
        self.book.leave_at(slot, origin)
    }

    /// The requests of a connection leave: nobody is to be told any more. Answers how many there
    /// were.
    pub fn forget_of(&mut self, conn: u64) -> usize
        ensures count { result ≡ live_owed_of self.old.book conn }
        ensures left { self.new ≡ record self.old {
          book = live_forgets_of self.old.book conn;
        } }
    {
        self.book.forget_of(conn)
    }
}

//! The entries of one output that are not yet settled, in chunks of one tag each.

ghost use Rattle.std.specs.Prelude.{
  ◌≡◌,
  ◌+◌,
  ◌-◌,
  ◌<◌,
  ◌≤◌,
  ◌^◌,
  ◌↔◌,
  IsTrue,
  IfOk,
  IsOk,
  OnOk,
  OnErr,
  IfSome,
  IfNone,
  Some,
  None,
  length,
  option_map,
  option_copied,
  find,
  ℕ,
  max,
  nat_lt,
  nat_le,
  ◌||◌,
  IfErr,
};
ghost use Rattle.fwd_chunks.specs.Live.{
  IsCarried,
  live_opening,
  live_next_number,
  live_is_full,
  live_is_spent,
  live_refusal,
  live_enters,
  live_spans,
  live_looks,
  is_at,
  is_open_of,
  changed,
  staged,
  live_closing,
  live_first_closing,
  live_flushes,
  live_given,
  live_given_for,
  live_free_chunk,
  live_takes,
  live_carried_chunk,
  live_settles,
  live_frees,
  live_counts,
};
ghost use Rattle.fwd_chunks.specs.Soundness.{IsSound};
ghost use Rattle.fwd_chunks.specs.Plans.{IsPlan};
ghost use Rattle.fwd_chunks.specs.TagCounts.{live_report, IsSnapshot};

use crate::carried::Carried;
use crate::chunk::Chunk;
use crate::chunk_index::ChunkIndex;
use crate::chunk_state::ChunkState;
use crate::entering;
use crate::entering::Fresh;
use crate::entry_range::EntryRange;
use crate::fault::AdmitError;
use crate::flush::FlushKind;
use crate::free_chunk::FreeChunk;
use crate::limits::BufferLimits;
use crate::plan::Plan;
use crate::snapshot::Snapshot;
use crate::spans::Spans;
use crate::tags::Tags;
use crate::wanted::Wanted;
use fwd_base::{Counts, Report, Retry};
use fwd_modes::{Batch, Origin, TAG_LIMIT, chunk_name};
use std::alloc::{AllocError, Global};
use std::marker::Model;

/// The buffer of one output. Sizes are in bytes, moments in milliseconds; a moment before the
/// greatest one handed in counts as that one.
pub struct Buffer {
    limits: BufferLimits,
    run: [u8; 6],
    output: u16,
    index: ChunkIndex,
    /// What is held of each tag, and the number of its newest chunk.
    tags: Tags,
    accepted: u64,
    settled: u64,
    /// The bytes of all entries that are not settled.
    bytes: u64,
    moment: u64,
}

// A drop of its own is proved once, and not at each place where a buffer goes.
impl Drop for Buffer {
    fn drop(self) {
        let Buffer {
            limits: _,
            run: _,
            output: _,
            index: _,
            tags: _,
            accepted: _,
            settled: _,
            bytes: _,
            moment: _,
        } = self;
    }
}

impl Model for Buffer {
    ghost use Rattle.fwd_chunks.specs.Live.{LiveBuffer};

    ghost Value = { LiveBuffer };

    ghost use Rattle.fwd_chunks.specs.Stored.{IsKept};

    ghost view = { λ b. record {
      setting = record { limits = b.limits; run = b.run; output = b.output };
      chunks = b.index.chunks;
      greatest = b.index.last;
      accepted = b.accepted;
      settled = b.settled;
      moment = b.moment;
    } };

    ghost invariant = { λ b. IsKept (record {
      setting = record { limits = b.limits; run = b.run; output = b.output };
      chunks = b.index.chunks;
      greatest = b.index.last;
      accepted = b.accepted;
      settled = b.settled;
      moment = b.moment;
    }) b.bytes b.tags b.index.retry };
}

impl Buffer {
    /// A buffer without entries, of the output of this number in the run of these six bytes.
    pub fn new(alloc: Global, limits: BufferLimits, run: [u8; 6], output: u16) -> Self
        ensures { result ≡ live_opening (record { limits = limits; run = run; output = output }) }
    {
        let retry = Retry {
            wait: limits.retry_wait,
            max: limits.retry_max,
        };
        Buffer {
            limits,
            run,
            output,
            index: ChunkIndex::new(alloc, retry),
            tags: Tags::new(alloc),
            accepted: 0,
            settled: 0,
            bytes: 0,
            moment: 0,
        }
    }

    /// What is true of every buffer.
    pub fn is_sound(&self)
        ensures { IsSound self.now }
    {
        let _moment = self.moment; // for the proof
    }

    /// The entries accepted, settled and held, with the bytes held and the chunks that hold them.
    pub fn held(&self) -> Counts
        ensures { result ≡ live_counts self.now }
    {
        Counts {
            accepted: self.accepted,
            settled: self.settled,
            held: self.accepted - self.settled,
            bytes: self.bytes,
            chunks: self.index.len() as u64,
        }
    }

    /// The same, and what is held of each tag, the tags in no order. It takes time for each tag,
    /// and none for entries or chunks. The only error is out of memory.
    pub fn snapshot(&self, alloc: Global) -> Result<Snapshot, AllocError>
        ensures { IfOk result (λ snapshot. IsSnapshot self.now snapshot) }
    {
        Ok(Snapshot {
            counts: self.held(),
            tags: self.tags.listed(alloc)?,
        })
    }

    /// The same with the tags by rising bytes. The only error is out of memory.
    pub fn report(&self, alloc: Global) -> Result<Report, AllocError>
        ensures { IfOk result (λ report. report ≡ live_report self.now) }
    {
        Ok(self.snapshot(alloc)?.report(alloc)?)
    }

    /// Whether the bytes that are held, with a request's, are more than the total limit.
    fn is_full(&self, batch: &Batch) -> bool
        ensures { result ≡ live_is_full self.now batch.now }
    {
        batch.entries().len() as u64 > self.limits.total - self.bytes
    }

    /// The tag's open chunk, and where it lies mostly.
    fn open_of(&self, tag: &[u8]) -> Option<(&Chunk, usize)>
        ensures { option_map (λ p. p.0.now) result ≡ find (is_open_of tag.now) self.now.chunks }
    {
        let (number, key) = self.tags.newest(tag)?;
        let chunk = self.index.get(number, key)?;
        if chunk.is_open_of(tag) {
            Some((chunk, key))
        } else {
            None
        }
    }

    /// How a request's entries go into chunks.
    fn plan<'a>(&self, batch: &'a Batch) -> Plan<'a>
        ensures { IsPlan self.now batch.now result }
    {
        let limit = u64::from(self.limits.chunk);
        let part = EntryRange::whole(batch);
        let (joins, key, count) = match self.open_of(batch.tag()) {
            None => (None, 0, 0),
            Some((chunk, key)) => {
                let count = part.fitting(limit, chunk.entries.size());
                (Some(chunk.number), key, count)
            }
        };
        let (front, back) = part.split_at(count);
        Plan {
            joins,
            key,
            front,
            back,
            needed: back.needed(limit),
        }
    }

    /// The chunk that a request's entries go to, as it was planned.
    fn joined_by(&self, batch: &Batch, plan: Plan<'_>) -> Option<&Chunk>
        requires { IsPlan self.now batch.now plan }
        ensures { option_copied result ≡ find (is_open_of batch.now.tag) self.now.chunks }
    {
        let number = plan.joins?;
        self.index.get(number, plan.key)
    }

    /// The number of the next chunk; none where there is no number left.
    fn next_number(&self) -> Option<u64>
        ensures some { IfSome result (λ number. number ≡ live_next_number self.now) }
        ensures none { IfNone result (live_next_number self.now ≡ 2 ^ 64) }
    {
        match self.index.last() {
            None => Some(self.limits.first),
            Some(number) => number.checked_add(1),
        }
    }

    /// Whether so many chunks more, or so many entries more, are too many to be counted.
    fn exceeds(&self, needed: u64, count: usize) -> bool
        ensures { result ≡ (nat_lt (2 ^ 64) (live_next_number self.now + needed)
            || nat_le (2 ^ 64) (self.now.accepted + count)) }
    {
        let fits = match self.next_number() {
            None => needed == 0,
            Some(number) => needed == 0 || number.checked_add(needed - 1).is_some(),
        };
        !fits || self.accepted.checked_add(count as u64).is_none()
    }

    /// Whether the chunks or the entries of a request are more than can be counted.
    fn is_spent(&self, batch: &Batch, plan: Plan<'_>) -> bool
        requires { IsPlan self.now batch.now plan }
        ensures { (now : ℕ) → result ≡ live_is_spent (live_enters self.now batch.now now) }
    {
        self.is_sound(); // for the proof
        self.exceeds(plan.needed, batch.len())
    }

    /// Why a request would be refused, whatever the moment, if it would.
    pub fn fault(&self, batch: &Batch) -> Option<AdmitError>
        ensures { (now : ℕ) → result ≡ live_refusal self.now batch.now now }
    {
        if self.is_full(batch) {
            return Some(AdmitError::Full);
        }
        if self.is_spent(batch, self.plan(batch)) {
            return Some(AdmitError::NumbersSpent);
        }
        None
    }

    /// Enters a request that is not refused, as it was planned, and answers the runs of its entries
    /// and a copy of them. On an error nothing has changed.
    fn enter(
        &mut self,
        alloc: Global,
        batch: &Batch,
        plan: Plan<'_>,
        now: u64,
    ) -> Result<(Spans, Spans), AllocError>
        requires planned { IsPlan self.old batch.now plan }
        requires fits { live_refusal self.old batch.now now ≡ None }
        ensures ok { OnOk result (self.new ≡ live_enters self.old batch.now now) }
        ensures spans { IfOk result (λ p. p.0 ≡ live_spans self.old batch.now now) }
        ensures copy { IfOk result (λ p. p.1 ≡ live_spans self.old batch.now now) }
        ensures err { OnErr result (self.new ≡ self.old) }
    {
        let size = batch.entries().len() as u64;
        let count = batch.len() as u64;
        let moment = self.moment.max(now);
        let limit = u64::from(self.limits.chunk);
        let first = self.next_number().unwrap_or(0);
        let tag = batch.tag();
        let common = Fresh {
            tag,
            limit,
            since: moment,
            first,
        };
        let fresh = entering::fresh_chunks(alloc, common, plan.back)?;
        let joined = entering::joined_span(self.joined_by(batch, plan), plan.front);
        let spans = entering::spans_of(alloc, joined, &fresh)?;
        let copy = spans.copied(alloc)?;
        let newest = entering::newest_of(first, plan.needed);
        self.index.reserve(alloc, fresh.len())?;
        self.tags.prepare(alloc, tag, newest)?;
        let key = entering::fill(&mut self.index, plan, fresh)?;
        self.tags.put(tag, newest, key, count, size);
        self.accepted += count;
        self.bytes += size;
        self.moment = moment;
        Ok((spans, copy))
    }

    /// Enters a request's entries at a moment (milliseconds): each joins its tag's open chunk where
    /// that stays within the chunk limit, and begins a new one otherwise. Answers the runs of the
    /// entries in their chunks. It is refused as `Full` where the bytes held would be more than the
    /// total limit, and then as `NumbersSpent` where a chunk number above 2^64 - 1 or a count of
    /// 2^64 entries would be needed. On an error nothing has changed. The entries' origin is no
    /// part of what a buffer keeps. The history and the book have it.
    pub fn admit(
        &mut self,
        alloc: Global,
        _origin: Origin,
        batch: &Batch,
        now: u64,
    ) -> Result<Spans, AdmitError>
        ensures refused { IfSome (live_refusal self.old batch.now now) (λ fault.
            result ≡ Err fault) }
        ensures ok { OnOk result (self.new ≡ live_enters self.old batch.now now) }
        ensures spans { IfOk result (λ spans. spans ≡ live_spans self.old batch.now now) }
        ensures err { OnErr result (self.new ≡ self.old) }

        // What is not refused is entered, unless memory is.
        ensures memory { live_refusal self.old batch.now now ≡ None
            → IfErr result (λ error. error ≡ AdmitError.Memory) }
    {
        let (spans, _copy) = self.admit_with_copy(alloc, batch, now)?;
        Ok(spans)
    }

    /// The same as `admit`, and answers a copy of the runs with them, for one owner more: where
    /// they are one, it takes no memory. The copy is made before the buffer changes, since nothing
    /// may fail afterwards.
    pub fn admit_with_copy(
        &mut self,
        alloc: Global,
        batch: &Batch,
        now: u64,
    ) -> Result<(Spans, Spans), AdmitError>
        ensures refused { IfSome (live_refusal self.old batch.now now) (λ fault.
            result ≡ Err fault) }
        ensures ok { OnOk result (self.new ≡ live_enters self.old batch.now now) }
        ensures spans { IfOk result (λ p. p.0 ≡ live_spans self.old batch.now now) }
        ensures copy { IfOk result (λ p. p.1 ≡ live_spans self.old batch.now now) }
        ensures err { OnErr result (self.new ≡ self.old) }

        // What is not refused is entered, unless memory is.
        ensures memory { live_refusal self.old batch.now now ≡ None
            → IfErr result (λ error. error ≡ AdmitError.Memory) }
    {
        if self.is_full(batch) {
            return Err(AdmitError::Full);
        }
        let plan = self.plan(batch);
        if self.is_spent(batch, plan) {
            return Err(AdmitError::NumbersSpent);
        }
        self.enter(alloc, batch, plan, now)
            .map_err(|_| AdmitError::Memory)
    }

    /// Hands in a moment, in milliseconds, and answers the greatest so far.
    pub fn look(&mut self, now: u64) -> u64
        ensures greatest { result ≡ max self.old.moment now }
        ensures looked { self.new ≡ live_looks self.old now }
    {
        let moment = self.moment.max(now);
        self.moment = moment;
        moment
    }

    /// Closes the open chunks that a flush closes at a moment (milliseconds), and answers how many.
    pub fn flush(&mut self, now: u64, kind: FlushKind) -> usize
        ensures count { result ≡ length (live_closing self.old now kind) }
        ensures flushed { self.new ≡ live_flushes self.old now kind }
    {
        self.moment = self.moment.max(now);
        self.index.flush(kind, self.limits.interval, self.moment)
    }

    /// The number of the first open chunk that a flush at a moment (milliseconds) closes, if it closes
    /// any. It stays open, and the greatest moment stays as it was.
    pub fn first_closing(&self, now: u64, kind: FlushKind) -> Option<u64>
        ensures { result ≡ option_map (λ c. c.number) (live_first_closing self.now now kind) }
    {
        self.index
            .first_closing(kind, self.limits.interval, self.moment.max(now))
    }

    /// What a worker has of the chunk, which lies at the key.
    fn carried_chunk_of(
        &self,
        alloc: Global,
        chunk: &Chunk,
        key: usize,
    ) -> Result<Carried, AllocError>
        requires { length chunk.now.tag ≤ TAG_LIMIT }
        ensures { IfOk result (λ load. load ≡ live_carried_chunk self.now chunk.now) }
    {
        Ok(Carried::new(
            chunk.number,
            key,
            chunk.tag.to_owned(alloc)?,
            chunk.entries.share()?,
            chunk_name(&self.run, self.output, chunk.number),
        ))
    }

    /// A worker has the chunk of the number, from a moment on. It is found at once where it lies at
    /// the key.
    fn give(&mut self, number: u64, key: usize, worker: u16, moment: u64)
        ensures { self.new ≡ record self.old {
          chunks = changed (is_at number) (staged (ChunkState.Taken worker)) self.old.chunks;
          moment = moment;
        } }
    {
        self.index.stage(number, key, ChunkState::Taken(worker));
        self.moment = moment;
    }

    /// The chunk of the least number that is free at a moment for what is wanted, and its key.
    fn first_wanted(&self, wanted: Wanted, now: u64) -> Option<(&Chunk, usize)>
        ensures { option_map (λ p. p.0.now) result
            ≡ live_given_for (live_looks self.now now) wanted }
    {
        self.index.first_free(wanted.moment(self.moment.max(now)))
    }

    /// Tells of the chunk that a worker would be given at a moment (milliseconds), if there is one.
    /// Nothing is taken, and the greatest moment stays as it was.
    pub fn free_chunk(&self, wanted: Wanted, now: u64) -> Option<FreeChunk>
        ensures { result ≡ option_map live_free_chunk
            (live_given_for (live_looks self.now now) wanted) }
    {
        let (chunk, _) = self.first_wanted(wanted, now)?;
        Some(FreeChunk {
            number: chunk.number,
            losses: chunk.times_lost(),
        })
    }

    /// Gives a worker the free chunk of the least number at a moment (milliseconds), if there is
    /// one, and takes no memory where there is none. On an error nothing has changed.
    pub fn take(
        &mut self,
        alloc: Global,
        worker: u16,
        now: u64,
    ) -> Result<Option<Carried>, AllocError>
        ensures given { IfOk result (λ carried.
            carried ≡ option_map (live_carried_chunk self.old)
            (live_given (live_looks self.old now))) }
        ensures ok { OnOk result (self.new ≡ live_takes self.old worker Wanted.Any now) }
        ensures err { OnErr result (self.new ≡ self.old) }

        // Where none is free, no memory is taken.
        ensures none { live_given (live_looks self.old now) ≡ None → IsOk result }
    {
        self.take_wanted(alloc, worker, Wanted::Any, now)
    }

    /// As `take`, but with the chunk of the least number that is free for what the worker wants.
    pub fn take_wanted(
        &mut self,
        alloc: Global,
        worker: u16,
        wanted: Wanted,
        now: u64,
    ) -> Result<Option<Carried>, AllocError>
        ensures given { IfOk result (λ carried.
            carried ≡ option_map (live_carried_chunk self.old)
            (live_given_for (live_looks self.old now) wanted)) }
        ensures ok { OnOk result (self.new ≡ live_takes self.old worker wanted now) }
        ensures err { OnErr result (self.new ≡ self.old) }

        // Where none is free, no memory is taken.
        ensures none { live_given_for (live_looks self.old now) wanted ≡ None → IsOk result }
    {
        let moment = self.moment.max(now);
        let Some((chunk, key)) = self.first_wanted(wanted, now) else {
            self.moment = moment;
            return Ok(None);
        };
        let number = chunk.number;
        let carried = self.carried_chunk_of(alloc, chunk, key)?;
        self.give(number, key, worker, moment);
        Ok(Some(carried))
    }

    /// Whether a worker has the chunk from this buffer, with its tag, its entries and its name.
    /// Definitions go by the number alone, since at most one worker has the chunk of a number.
    pub fn carries(&self, carried: &Carried) -> bool
        ensures { IsTrue result ↔ IsCarried self.now carried.now }
    {
        match self.index.get(carried.number(), carried.key()) {
            None => false,
            Some(chunk) => {
                let name = chunk_name(&self.run, self.output, chunk.number);
                chunk.is_taken() && carried.is(chunk, &name)
            }
        }
    }

    /// The chunk of the number leaves, and its entries are settled. It is found at once where it
    /// lies at the key.
    fn remove(&mut self, number: u64, key: usize)
        ensures { self.new ≡ live_settles self.old number }
    {
        if let Some(chunk) = self.index.remove(number, key) {
            let count = chunk.entries.len() as u64;
            let size = chunk.entries.size();
            self.tags.take(chunk.tag.as_slice(), count, size);
            self.bytes -= size;
            self.settled += count;
        }
    }

    /// A server acknowledged the chunk: its entries leave. A chunk that no worker has from this
    /// buffer is only spent. Answers whether a worker had it.
    pub fn settle(&mut self, carried: Carried) -> bool
        ensures had { IsTrue result ↔ IsCarried self.old carried }
        ensures here { IsCarried self.old carried
            → self.new ≡ live_settles self.old carried.number }
        ensures elsewhere { ¬ (IsCarried self.old carried) → self.new ≡ self.old }
    {
        let is_here = self.carries(&carried);
        if is_here {
            self.remove(carried.number(), carried.key());
        }
        carried.spend();
        is_here
    }

    /// The chunk of the number is closed again, with a loss at a moment where one is handed in. It
    /// is found at once where it lies at the key.
    fn put_back(&mut self, number: u64, key: usize, loss: Option<u64>)
        ensures { self.new ≡ live_frees self.old number loss }
    {
        let moment = match loss {
            None => self.moment,
            Some(now) => self.moment.max(now),
        };
        self.index.put_back(number, key, loss.is_some(), moment);
        self.moment = moment;
    }

    /// A worker gives the chunk back, with a loss at a moment where one is handed in. A chunk
    /// that no worker has from this buffer is only spent. Without a loss the greatest moment stays
    /// as it was.
    pub fn free(&mut self, carried: Carried, loss: Option<u64>)
        ensures here { IsCarried self.old carried
            → self.new ≡ live_frees self.old carried.number loss }
        ensures elsewhere { ¬ (IsCarried self.old carried) → self.new ≡ self.old }
    {
        if self.carries(&carried) {
            self.put_back(carried.number(), carried.key(), loss);
        }
        carried.spend();
    }
}

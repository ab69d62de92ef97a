//! How a request's entries enter chunks.

ghost use Rattle.std.specs.Prelude.{
  ◌≡◌,
  ◌+◌,
  ◌-◌,
  ◌<◌,
  ◌≤◌,
  ◌^◌,
  ◌==◌,
  ◌++◌,
  ◌∷◌,
  [],
  IfSome,
  ℕ,
  length,
  map,
  find,
  None,
  Some,
  IfOk,
  IsOk,
  OnOk,
  OnErr,
  option_to_list,
  option_copied,
};
ghost use Rattle.fwd_chunks.specs.declared.chunk.Chunk.{Chunk};
ghost use Rattle.fwd_chunks.specs.Cells.{size_of};
ghost use Rattle.fwd_chunks.specs.Live.{is_at};
ghost use Rattle.fwd_chunks.specs.Filling.{
  fresh_of,
  needed,
  span_of,
  joined_span,
  stage_last,
  filled_in,
};
ghost use Rattle.fwd_chunks.specs.Slots.{AreAbove, appended};
ghost use Rattle.fwd_chunks.specs.Parts.{entries_in};

use crate::body::Body;
use crate::chunk::Chunk;
use crate::chunk_index::ChunkIndex;
use crate::chunk_state::stage_of;
use crate::entry_range::EntryRange;
use crate::plan::Plan;
use crate::span::Span;
use crate::spans::Spans;
use fwd_base::{Bytes, Seq};
use std::alloc::{AllocError, Global};

/// What the new chunks of a request have in common.
#[derive(Clone, Copy)]
pub(crate) struct Fresh<'a> {
    pub(crate) tag: &'a [u8],
    /// The chunk limit, in bytes.
    pub(crate) limit: u64,
    /// The moment at which they begin, in milliseconds.
    pub(crate) since: u64,
    /// The number of the first of them.
    pub(crate) first: u64,
}

/// A chunk of these entries.
fn new_chunk(
    alloc: Global,
    number: u64,
    fresh: Fresh<'_>,
    part: EntryRange<'_>,
    last: bool,
) -> Result<Chunk, AllocError>
    requires { size_of (entries_in part) < 2 ^ 32 }
    ensures { IfOk result (λ c. c ≡ record {
      number = number;
      tag = fresh.entry.tag.now;
      entries = entries_in part.entry;
      since = fresh.entry.since;
      stage = stage_last last;
      losses = None;
    }) }
{
    Ok(Chunk {
        number,
        tag: Bytes::from_slice(alloc, fresh.tag)?,
        entries: Body::of(alloc, part)?,
        since: fresh.since,
        stage: stage_of(last),
        losses: None,
    })
}

/// The chunks of a tag's entries that begin with a new one.
pub(crate) fn fresh_chunks(
    alloc: Global,
    fresh: Fresh<'_>,
    part: EntryRange<'_>,
) -> Result<Vec<Chunk>, AllocError>
    requires numbers { fresh.first + needed fresh.limit (entries_in part) ≤ 2 ^ 64 }
    requires size { size_of (entries_in part) < 2 ^ 32 }
    ensures { IfOk result (λ chunks.
        chunks.items ≡ fresh_of fresh.entry.limit fresh.entry.tag.now fresh.entry.since
        fresh.entry.first (entries_in part.entry)) }
{
    let mut chunks = Vec::new(alloc);
    let mut rest = part;
    while !rest.is_empty() {
        let (front, others) = rest.cut(fresh.limit);
        let number = fresh.first + chunks.len() as u64;
        chunks.push(new_chunk(alloc, number, fresh, front, others.is_empty())?)?;
        rest = others;
    }
    Ok(chunks)
}

/// The number of the last of so many new chunks, of which the first has the number.
pub(crate) fn newest_of(first: u64, needed: u64) -> Option<u64>
    requires { 0 < needed → first + needed ≤ 2 ^ 64 }
    ensures some { 0 < needed → result ≡ Some (first + (needed - 1)) }
    ensures none { needed ≤ 0 → result ≡ None }
{
    if needed > 0 {
        Some(first + (needed - 1))
    } else {
        None
    }
}

/// The run of the entries that go to an open chunk, if there are some.
pub(crate) fn joined_span(chunk: Option<&Chunk>, front: EntryRange<'_>) -> Option<Span>
    ensures { option_to_list result
        ≡ joined_span (option_copied chunk.entry) (entries_in front.entry) }
{
    let chunk = chunk?;
    if front.is_empty() {
        return None;
    }
    Some(Span {
        number: chunk.number,
        from: chunk.entries.len() as u64,
        count: front.len() as u64,
    })
}

/// The run that is a whole chunk.
fn span_of(chunk: &Chunk) -> Span
    ensures { result ≡ span_of chunk.now }
{
    Span {
        number: chunk.number,
        from: 0,
        count: chunk.entries.len() as u64,
    }
}

/// The run of a request's entries, if it is one.
fn only_span(joined: Option<Span>, fresh: &[Chunk]) -> Option<Span>
    ensures { IfSome result (λ span.
        option_to_list joined ++ map span_of fresh.now ≡ span ∷ []) }
{
    match (joined, fresh.split_first()) {
        (Some(span), None) => Some(span),
        (None, Some((chunk, others))) if others.is_empty() => Some(span_of(chunk)),
        _ => None,
    }
}

/// The runs of a request's entries: one in the open chunk, if there is one, and one for each new
/// chunk. The only error is out of memory, and one run alone takes none.
pub(crate) fn spans_of(
    alloc: Global,
    joined: Option<Span>,
    fresh: &[Chunk],
) -> Result<Spans, AllocError>
    ensures { IfOk result (λ spans. spans ≡ option_to_list joined ++ map span_of fresh.now) }
{
    if let Some(span) = only_span(joined, fresh) {
        return Ok(Spans::one(span));
    }
    let mut spans = Seq::with_capacity(alloc, fresh.len().saturating_add(1))?;
    if let Some(span) = joined {
        spans.push(span)?;
    }
    for chunk in fresh {
        spans.push(span_of(chunk))?;
    }
    Ok(Spans::of(spans.into_vec()))
}

/// Entries go to the open chunk of a number, if there is one, and new chunks come behind all, into
/// room that is there. Answers the key of the last of them. On an error nothing has changed.
pub(crate) fn fill(
    index: &mut ChunkIndex,
    plan: Plan<'_>,
    fresh: Vec<Chunk>,
) -> Result<usize, AllocError>
    requires room { length fresh.items ≤ index.old.room }
    requires rising { AreAbove index.old.last fresh.items }
    requires fits { (n : ℕ) (c : Chunk) → plan.joins ≡ Some n
        → find (is_at n) index.old.chunks ≡ Some c → size_of c.entries < 2 ^ 32
        → size_of c.entries + size_of (entries_in plan.front) < 2 ^ 32 }
    ensures ok { OnOk result (index.new ≡ appended (record index.old {
      chunks = filled_in plan.entry.joins (entries_in plan.entry.front)
          (stage_last (length fresh.items == 0)) index.old.chunks;
    }) fresh.items) }
    ensures err { OnErr result (index.new ≡ index.old) }

    // Where no entry goes to a chunk that is there, no memory is taken.
    ensures sure { plan.entry.joins ≡ None → IsOk result }
{
    if let Some(number) = plan.joins {
        index.join(number, plan.key, plan.front, fresh.is_empty())?;
    }
    Ok(index.append(fresh))
}

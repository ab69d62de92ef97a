//! The numbers that a book's requests have, with what was acknowledged under them.

ghost use Rattle.std.specs.Prelude.{
  ◌≡◌,
  ◌<◌,
  ◌≤◌,
  ◌+◌,
  ◌^◌,
  ◌==◌,
  ℕ,
  [],
  false,
  None,
  Some,
  is_some,
  option_map,
  option_copied,
  option_to_list,
  if◌then◌else◌,
  IfOk,
  IsOk,
  OnOk,
};
ghost use Rattle.std.specs.List.{list_all, flat_map};
ghost use Rattle.std.specs.Arc.{arc_value};
ghost use Rattle.fwd_book.specs.Parts.{parts_shown};
ghost use Rattle.fwd_book.specs.Receipts.{part_of};
ghost use Rattle.fwd_book.specs.ChunkRefs.{note_at, uses_in, found_at, used_more, used_less, put_in};

use crate::receipt::{AckedRange, Parts};
use fwd_chunks::Span;
use fwd_session::Acked;
use indexmap::IndexMap;
use std::alloc::{AllocError, Global};
use std::marker::Model;
use std::sync::Arc;

/// How many requests have a number, and the chunk once it is acknowledged.
#[derive(Drop)]
struct ChunkRef {
    uses: usize,
    acked: Option<Arc<Acked>>,
}

impl Model for ChunkRef {
    ghost use Rattle.std.specs.Option.{option_map};
    ghost use Rattle.std.specs.Arc.{arc_value};
    ghost use Rattle.fwd_book.specs.ChunkRefs.{ChunkRef};

    ghost Value = { ChunkRef };

    ghost view = { λ n. record { uses = n.uses; found = option_map arc_value n.acked } };
}

/// Notes by number. A chunk that was acknowledged is kept once, however many requests have it.
#[derive(Drop)]
pub(crate) struct ChunkRefs {
    notes: IndexMap<u64, ChunkRef>,
}

impl Model for ChunkRefs {
    ghost use Rattle.indexmap.specs.IndexMap.{spare};
    ghost use Rattle.fwd_book.specs.ChunkRefs.{ChunkRefsShown};

    ghost Value = { ChunkRefsShown };

    ghost view = { λ n. record { notes = n.notes.entries; room = spare n.notes } };
}

impl ChunkRefs {
    /// No numbers.
    pub(crate) fn new(alloc: Global) -> Self
        ensures { result.notes ≡ [] }
    {
        ChunkRefs {
            notes: IndexMap::new(alloc),
        }
    }

    /// Makes room for so many numbers more. On an error nothing has changed.
    pub(crate) fn reserve(&mut self, count: usize) -> Result<(), AllocError>
        ensures ok { OnOk result (count ≤ self.new.room) }
        ensures same { self.new.notes ≡ self.old.notes }
        ensures more { self.old.room ≤ self.new.room }
    {
        self.notes.reserve(count)
    }

    /// One request more has the number.
    pub(crate) fn more(&mut self, number: u64)
        requires room { 0 < self.old.room }
        requires few { uses_in (note_at number self.old.notes) + 1 < 2 ^ 64 }
        ensures noted { (n : ℕ) → note_at n self.new.notes
            ≡ (if number == n then Some (used_more (note_at number self.old.notes))
            else note_at n self.old.notes) }
        ensures room { self.old.room ≤ self.new.room + 1 }
    {
        if let Some(note) = self.notes.get_mut(&number) {
            note.uses += 1;
            return;
        }
        let note = ChunkRef {
            uses: 1,
            acked: None,
        };
        let Ok(_) = self.notes.insert(number, note) else {
            unreachable!();
        };
    }

    /// One request less has the number.
    pub(crate) fn less(&mut self, number: u64)
        ensures noted { (n : ℕ) → note_at n self.new.notes
            ≡ (if number == n then used_less (note_at number self.old.notes)
            else note_at n self.old.notes) }
        ensures room { self.old.room ≤ self.new.room }
    {
        if self.uses(number) < 2 {
            self.notes.swap_remove(&number);
            return;
        }
        if let Some(note) = self.notes.get_mut(&number) {
            note.uses -= 1;
        }
    }

    /// How many requests have the number.
    fn uses(&self, number: u64) -> usize
        ensures { result ≡ uses_in (note_at number self.now.notes) }
    {
        match self.notes.get(&number) {
            None => 0,
            Some(note) => note.uses,
        }
    }

    /// A chunk was acknowledged: it is kept where a request has its number, and none was before.
    /// The relay settles a number once, but the definition has to say something of a second time.
    pub(crate) fn put(&mut self, acked: Arc<Acked>)
        ensures noted { let e = arc_value acked in (n : ℕ) → note_at n self.new.notes
            ≡ (if e.number == n then put_in e (note_at e.number self.old.notes)
            else note_at n self.old.notes) }
        ensures room { self.old.room ≤ self.new.room }
    {
        let number = acked.number();
        if self.get(number).is_some() {
            return;
        }
        if let Some(note) = self.notes.get_mut(&number) {
            note.acked = Some(acked);
        }
    }

    /// The chunk that was acknowledged under a number.
    pub(crate) fn get(&self, number: u64) -> Option<&Arc<Acked>>
        ensures { option_map arc_value (option_copied result) ≡ found_at self.now.notes number }
    {
        self.notes.get(&number)?.acked.as_ref()
    }

    /// Whether something was acknowledged under the number of each run. It looks into no chunk:
    /// that all entries of a request that is told were acknowledged is a law of the abstract relay
    /// (`told_is_delivered`).
    pub(crate) fn has_all(&self, spans: &[Span]) -> bool
        ensures { result ≡ list_all (λ s. is_some (found_at self.now.notes s.number)) spans.now }
    {
        spans.iter().all(|span| self.get(span.number).is_some())
    }

    /// A run with what was acknowledged under its number, if anything was. The only error is out of
    /// memory.
    fn part(&self, span: Span) -> Result<Option<AckedRange>, AllocError>
        ensures part { IfOk result (λ part. option_to_list part
            ≡ part_of (found_at self.now.notes span.number) span) }
        ensures none { found_at self.now.notes span.number ≡ None → IsOk result }
    {
        match self.get(span.number) {
            None => Ok(None),
            Some(acked) => Ok(Some(AckedRange::new(Arc::try_clone(acked)?, span.from, span.count))),
        }
    }

    /// The runs with what was acknowledged under their numbers. The only error is out of memory.
    fn parts_of(&self, alloc: Global, spans: &[Span]) -> Result<Vec<AckedRange>, AllocError>
        ensures { IfOk result (λ parts. parts.items
            ≡ flat_map (λ s. part_of (found_at self.now.notes s.number) s) spans.now) }
    {
        let mut parts = Vec::with_capacity(alloc, spans.len())?;
        for span in spans {
            if let Some(part) = self.part(*span)? {
                parts.push(part)?;
            }
        }
        Ok(parts)
    }

    /// The same, if something was acknowledged under the number of each run. One run alone is
    /// looked for once, and takes no memory.
    pub(crate) fn parts(&self, alloc: Global, spans: &[Span]) -> Result<Option<Parts>, AllocError>
        ensures parts { IfOk result (λ parts. option_map parts_shown parts
            ≡ (if list_all (λ s. is_some (found_at self.now.notes s.number)) spans.now
            then Some (flat_map (λ s. part_of (found_at self.now.notes s.number) s) spans.now)
            else None)) }
        ensures none { list_all (λ s. is_some (found_at self.now.notes s.number)) spans.now ≡ false
            → IsOk result }
    {
        match spans.split_first() {
            Some((span, others)) if others.is_empty() => match self.part(*span)? {
                None => Ok(None),
                Some(part) => Ok(Some(Parts::One(part))),
            },
            _ if !self.has_all(spans) => Ok(None),
            _ => Ok(Some(Parts::Many(self.parts_of(alloc, spans)?))),
        }
    }
}

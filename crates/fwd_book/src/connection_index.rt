//! The requests of a book in slots, those of each connection in the order in which they were
//! entered. A slab keeps its memory when it is empty. When it was given back, as a trial, the C
//! library kept larger pieces inside its heap, and the next million requests took more.

ghost use Rattle.std.specs.Prelude.{
  ◌≡◌,
  ◌<◌,
  ◌≤◌,
  ◌+◌,
  ◌&&◌,
  ◌==◌,
  ℕ,
  List,
  [],
  false,
  true,
  None,
  Some,
  IsSome,
  IfSome,
  IfNone,
  is_some,
  length,
  option_copied,
  option_map,
  not,
  if◌then◌else◌,
  IfOk,
  IsOk,
  OnOk,
};
ghost use Rattle.std.specs.List.{flat_map, list_any};
ghost use Rattle.indexmap.specs.IndexMap.{spare};
ghost use Rattle.slab.specs.Slab.{get, slab_len};
ghost use Rattle.fwd_book.specs.ChunkRefs.{is_asked};
ghost use Rattle.fwd_book.specs.Slots.{has_origin, held_at};
ghost use Rattle.fwd_book.specs.Links.{
  ends_at,
  is_the,
  leads_to,
  follows_on,
  link_at,
  passing_at,
  with_last,
  order_with,
  order_without,
  AreChained,
  AreWithin,
};

use crate::chunk_refs::ChunkRefs;
use crate::entered_request::EnteredRequest;
use fwd_modes::Origin;
use indexmap::IndexMap;
use slab::Slab;
use std::alloc::{AllocError, Global};

/// The slots of the earlier and of the later request of the same connection.
#[derive(Clone, Copy)]
pub(crate) struct RequestLinks {
    earlier: Option<usize>,
    later: Option<usize>,
}

/// The slots of a connection's first and last request, and a number that none of its requests is
/// above: the greatest since it had none.
#[derive(Clone, Copy)]
pub(crate) struct Ends {
    first: usize,
    last: usize,
    greatest: u64,
}

/// A request with its link.
#[derive(Drop)]
pub(crate) struct LinkedRequest {
    request: EnteredRequest,
    link: RequestLinks,
}

/// Each request in a slot, and each connection that has one.
#[derive(Drop)]
pub(crate) struct ConnectionIndex {
    kept: Slab<LinkedRequest>,
    ends: IndexMap<u64, Ends>,
}

/// The request behind the one in this slot, if there is such a slot, is another.
fn set_later(kept: &mut Slab<LinkedRequest>, slot: Option<usize>, later: Option<usize>)
    ensures linked { (k : ℕ) → get kept.new k
        ≡ (if is_the slot k then option_map (leads_to later) (get kept.old k)
        else get kept.old k) }
    ensures len { slab_len kept.new ≡ slab_len kept.old }
    ensures capacity { kept.new.capacity ≡ kept.old.capacity }
    ensures next { kept.new.vacant_key ≡ kept.old.vacant_key }
{
    let Some(slot) = slot else {
        return;
    };
    if let Some(kept) = kept.get_mut(slot) {
        kept.link.later = later;
    }
}

/// The request before the one in this slot, if there is such a slot, is another.
fn set_earlier(kept: &mut Slab<LinkedRequest>, slot: Option<usize>, earlier: Option<usize>)
    ensures linked { (k : ℕ) → get kept.new k
        ≡ (if is_the slot k then option_map (follows_on earlier) (get kept.old k)
        else get kept.old k) }
    ensures len { slab_len kept.new ≡ slab_len kept.old }
    ensures capacity { kept.new.capacity ≡ kept.old.capacity }
{
    let Some(slot) = slot else {
        return;
    };
    if let Some(kept) = kept.get_mut(slot) {
        kept.link.earlier = earlier;
    }
}

/// The request of an origin is its connection's last, in this slot. Answers the slot of the one
/// before it, if there is one.
fn put_last(ends: &mut IndexMap<u64, Ends>, origin: Origin, slot: usize) -> Option<usize>
    requires { 0 < spare ends.old }
    ensures earlier { result ≡ option_map (λ e. e.last) (ends_at ends.old.entries origin.conn) }
    ensures last { (c : ℕ) → ends_at ends.new.entries c
        ≡ (if origin.conn == c
        then Some (with_last origin.request slot (ends_at ends.old.entries origin.conn))
        else ends_at ends.old.entries c) }
{
    if let Some(ends) = ends.get_mut(&origin.conn) {
        let earlier = ends.last;
        ends.last = slot;
        ends.greatest = ends.greatest.max(origin.request);
        return Some(earlier);
    }
    let alone = Ends {
        first: slot,
        last: slot,
        greatest: origin.request,
    };
    let Ok(_) = ends.insert(origin.conn, alone) else {
        unreachable!();
    };
    None
}

/// The ends of a connection that has some, once a request left that was linked so.
fn leave_ends(ends: &mut IndexMap<u64, Ends>, conn: u64, link: RequestLinks)
    ensures first { IsSome (ends_at ends.old.entries conn)
        → (c : ℕ) → option_map (λ e. e.first) (ends_at ends.new.entries c)
        ≡ (if (conn == c) && not (is_some link.earlier) then link.later
        else option_map (λ e. e.first) (ends_at ends.old.entries c)) }
    ensures last { IsSome (ends_at ends.old.entries conn)
        → (c : ℕ) → option_map (λ e. e.last) (ends_at ends.new.entries c)
        ≡ (if (conn == c) && not (is_some link.later) then link.earlier
        else option_map (λ e. e.last) (ends_at ends.old.entries c)) }
    ensures greatest { (c : ℕ) → IfSome (ends_at ends.new.entries c) (λ e.
        option_map (λ d. d.greatest) (ends_at ends.old.entries c) ≡ Some e.greatest) }
    ensures room { spare ends.old ≤ spare ends.new }
{
    match (link.earlier, link.later) {
        (None, None) => {
            ends.swap_remove(&conn);
        }
        (None, Some(first)) => {
            if let Some(ends) = ends.get_mut(&conn) {
                ends.first = first;
            }
        }
        (Some(last), None) => {
            if let Some(ends) = ends.get_mut(&conn) {
                ends.last = last;
            }
        }
        (Some(_), Some(_)) => {}
    }
}

/// Whether these numbers, where they are given, have all entries of a request as acknowledged.
fn is_asked(request: &EnteredRequest, chunk_refs: Option<&ChunkRefs>) -> bool
    ensures { result ≡ is_asked (option_copied chunk_refs.entry) request.now }
{
    match chunk_refs {
        None => true,
        Some(chunk_refs) => chunk_refs.has_all(request.spans()),
    }
}

impl ConnectionIndex {
    /// No requests.
    pub(crate) fn new(alloc: Global) -> Self
        ensures chained { AreChained (link_at result.kept) result.ends.entries (λ _. []) }
        ensures empty { result.kept.slots ≡ [] }
    {
        ConnectionIndex {
            kept: Slab::new(alloc),
            ends: IndexMap::new(alloc),
        }
    }

    /// Makes room for one more request. On an error nothing has changed.
    pub(crate) fn reserve(&mut self) -> Result<(), AllocError>
        ensures kept_room { OnOk result (slab_len self.new.kept < self.new.kept.capacity) }
        ensures ends_room { OnOk result (0 < spare self.new.ends) }
        ensures kept { self.new.kept ≡ record self.old.kept { capacity = self.new.kept.capacity } }
        ensures ends { self.new.ends.entries ≡ self.old.ends.entries }
        ensures more_kept { self.old.kept.capacity ≤ self.new.kept.capacity }
        ensures more_ends { spare self.old.ends ≤ spare self.new.ends }
    {
        self.kept.reserve(1)?;
        self.ends.reserve(1)
    }

    /// How many requests have room, with those that are here.
    pub(crate) fn capacity(&self) -> usize
        ensures room { result ≡ self.now.kept.capacity }
        ensures all { slab_len self.now.kept ≤ result }
    {
        self.kept.capacity()
    }

    /// The slot of a connection's first request, if it has one.
    pub(crate) fn first(&self, conn: u64) -> Option<usize>
        ensures { result ≡ option_map (λ e. e.first) (ends_at self.now.ends.entries conn) }
    {
        Some(self.ends.get(&conn)?.first)
    }

    /// The request in a slot, if there is one.
    pub(crate) fn at(&self, slot: usize) -> Option<&EnteredRequest>
        ensures { option_copied result ≡ held_at self.now.kept slot }
    {
        Some(&self.kept.get(slot)?.request)
    }

    /// Whether the request in a slot is the one of the origin.
    fn has_at(&self, slot: usize, origin: Origin) -> bool
        ensures { result ≡ has_origin origin (held_at self.now.kept slot) }
    {
        match self.at(slot) {
            None => false,
            Some(request) => {
                let own = request.origin();
                origin.conn == own.conn && origin.request == own.request
            }
        }
    }

    /// The slot of the request of an origin, if it has one. It may stand in this slot: if it does
    /// not, its connection's requests are gone through, unless its number is above those of all.
    pub(crate) fn find_at(&self, likely: usize, origin: Origin) -> Option<usize>
        ensures found { IfSome result (λ slot.
            has_origin origin (held_at self.now.kept slot) ≡ true) }
        ensures none { (order : ℕ → List ℕ)
            → AreChained (link_at self.now.kept) self.now.ends.entries order
            → AreWithin (held_at self.now.kept) self.now.ends.entries
            → length (order origin.conn) ≤ slab_len self.now.kept → IfNone result
            (list_any (λ k. has_origin origin (held_at self.now.kept k)) (order origin.conn)
            ≡ false) }
    {
        if self.has_at(likely, origin) {
            return Some(likely);
        }
        let ends = self.ends.get(&origin.conn)?;
        if ends.greatest < origin.request {
            return None;
        }
        let mut next = Some(ends.first);
        for _ in 0..self.kept.len() {
            let slot = next?;
            if self.has_at(slot, origin) {
                return Some(slot);
            }
            next = self.kept.get(slot)?.link.later;
        }
        None
    }

    /// The origins of a connection's requests, in their order: of all, or where numbers are given
    /// of those whose entries are all acknowledged by them. The only error is out of memory, and
    /// where there are none it takes no memory.
    pub(crate) fn origins(
        &self,
        alloc: Global,
        conn: u64,
        chunk_refs: Option<&ChunkRefs>,
    ) -> Result<Vec<Origin>, AllocError>
        ensures asked { (order : ℕ → List ℕ)
            → AreChained (link_at self.now.kept) self.now.ends.entries order
            → length (order conn) ≤ slab_len self.now.kept → IfOk result (λ origins. origins.items
            ≡ flat_map (passing_at (is_asked (option_copied chunk_refs.entry))
            (held_at self.now.kept)) (order conn)) }
        ensures none { (order : ℕ → List ℕ)
            → AreChained (link_at self.now.kept) self.now.ends.entries order
            → flat_map (passing_at (is_asked (option_copied chunk_refs.entry))
            (held_at self.now.kept)) (order conn) ≡ [] → IsOk result }
    {
        let mut origins = Vec::new(alloc);
        let mut next = self.first(conn);
        for _ in 0..self.kept.len() {
            let Some(slot) = next else {
                break;
            };
            let Some(kept) = self.kept.get(slot) else {
                break;
            };
            if is_asked(&kept.request, chunk_refs) {
                origins.push(kept.request.origin())?;
            }
            next = kept.link.later;
        }
        Ok(origins)
    }

    /// A request comes behind its connection's others, into room that was made for it. Answers its
    /// slot, which was empty.
    pub(crate) fn push(&mut self, request: EnteredRequest) -> usize
        requires kept { slab_len self.old.kept < self.old.kept.capacity }
        requires ends { 0 < spare self.old.ends }
        ensures empty { held_at self.old.kept result ≡ None }
        ensures held { (k : ℕ) → held_at self.new.kept k
            ≡ (if result == k then Some request else held_at self.old.kept k) }
        ensures chained { (order : ℕ → List ℕ)
            → AreChained (link_at self.old.kept) self.old.ends.entries order
            → list_any (λ k. result == k) (order request.origin.conn) ≡ false
            → AreChained (link_at self.new.kept) self.new.ends.entries
            (order_with request.origin.conn result order) }
        ensures within { (order : ℕ → List ℕ)
            → AreChained (link_at self.old.kept) self.old.ends.entries order
            → AreWithin (held_at self.old.kept) self.old.ends.entries
            → AreWithin (held_at self.new.kept) self.new.ends.entries }
        ensures len { slab_len self.new.kept ≡ slab_len self.old.kept + 1 }
    {
        let slot = self.kept.vacant_key();
        let earlier = put_last(&mut self.ends, request.origin(), slot);
        set_later(&mut self.kept, earlier, Some(slot));
        let link = RequestLinks {
            earlier,
            later: None,
        };
        self.kept.insert_reserved(LinkedRequest { request, link })
    }

    /// The request in a slot leaves, if there is one: the one before it and the one behind it are
    /// linked.
    pub(crate) fn remove(&mut self, slot: usize) -> Option<EnteredRequest>
        ensures taken { result ≡ held_at self.old.kept slot }
        ensures held { (k : ℕ) → held_at self.new.kept k
            ≡ (if slot == k then None else held_at self.old.kept k) }
        ensures chained { (order : ℕ → List ℕ)
            → AreChained (link_at self.old.kept) self.old.ends.entries order
            → AreChained (link_at self.new.kept) self.new.ends.entries
            (order_without slot order) }
        ensures within { AreWithin (held_at self.old.kept) self.old.ends.entries
            → AreWithin (held_at self.new.kept) self.new.ends.entries }
        ensures len { IfSome result (λ _. slab_len self.new.kept + 1 ≡ slab_len self.old.kept) }
        ensures capacity { self.new.kept.capacity ≡ self.old.kept.capacity }
        ensures ends { spare self.old.ends ≤ spare self.new.ends }
    {
        let LinkedRequest { request, link } = self.kept.try_remove(slot)?;
        set_later(&mut self.kept, link.earlier, link.later);
        set_earlier(&mut self.kept, link.later, link.earlier);
        leave_ends(&mut self.ends, request.origin().conn, link);
        Some(request)
    }
}

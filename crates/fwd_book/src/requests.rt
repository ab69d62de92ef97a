//! The requests that a book holds, each found by its origin, and a connection's in their order.

ghost use Rattle.std.specs.Prelude.{
  ◌≡◌,
  ◌<◌,
  ◌≤◌,
  ◌+◌,
  ◌^◌,
  ◌&&◌,
  length,
  ◌++◌,
  ◌∷◌,
  [],
  None,
  not,
  map,
  filter,
  find,
  option_map,
  IfOk,
  option_copied,
  IsOk,
  OnOk,
};
ghost use Rattle.fwd_book.specs.History.{is_of, is_origin, request_at};
ghost use Rattle.fwd_book.specs.ChunkRefs.{is_asked};

use crate::chunk_refs::ChunkRefs;
use crate::connection_index::ConnectionIndex;
use crate::entered_request::EnteredRequest;
use crate::slot_order::SlotOrder;
use fwd_modes::Origin;
use std::alloc::{AllocError, Global};
use std::marker::Model;

/// The slot of no request.
pub(crate) const NO_SLOT: usize = usize::MAX;

/// Requests in the order in which they were entered. A request stays in its slot.
#[derive(Drop)]
pub(crate) struct Requests {
    by_connection: ConnectionIndex,
    order: SlotOrder,
}

impl Model for Requests {
    ghost use Rattle.std.specs.Prelude.{◌-◌, min};
    ghost use Rattle.indexmap.specs.IndexMap.{spare};
    ghost use Rattle.slab.specs.Slab.{slab_len};
    ghost use Rattle.fwd_book.specs.Slots.{Held, present, held_at};
    ghost use Rattle.fwd_book.specs.Links.{AreKept};

    ghost Value = { Held };

    ghost view = { λ r. record {
      items = present (held_at r.by_connection.kept) r.order.list;
      room = min (r.by_connection.kept.capacity - slab_len r.by_connection.kept)
          (spare r.by_connection.ends);
    } };

    ghost invariant = { λ r. AreKept r.by_connection.kept r.by_connection.ends.entries
        r.order.list };
}

impl Requests {
    /// No requests.
    pub(crate) fn new(alloc: Global) -> Self
        ensures { result.items ≡ [] }
    {
        Requests {
            by_connection: ConnectionIndex::new(alloc),
            order: SlotOrder::none(),
        }
    }

    /// The request of an origin. It may stand in this slot: no other is looked at if it does. Else
    /// its connection's are gone through, unless its number is above theirs.
    pub(crate) fn get_at(&self, slot: usize, origin: Origin) -> Option<&EnteredRequest>
        ensures { option_copied result ≡ request_at self.now.items origin }
    {
        let slot = self.by_connection.find_at(slot, origin)?;
        self.by_connection.at(slot)
    }

    /// The origin of a connection's first request, if it has one.
    pub(crate) fn first_of(&self, conn: u64) -> Option<Origin>
        ensures { result ≡ option_map (λ q. q.origin) (find (is_of conn) self.now.items) }
    {
        let slot = self.by_connection.first(conn)?;
        Some(self.by_connection.at(slot)?.origin())
    }

    /// The origins of a connection's requests, in the order in which they were entered: of all, or
    /// where numbers are given of those whose entries are all acknowledged by them. The only error
    /// is out of memory, and where there are none it takes no memory.
    pub(crate) fn origins(
        &self,
        alloc: Global,
        conn: u64,
        chunk_refs: Option<&ChunkRefs>,
    ) -> Result<Vec<Origin>, AllocError>
        ensures asked { IfOk result (λ origins. origins.items ≡ map (λ q. q.origin) (filter
            (λ q. is_of conn q && is_asked (option_copied chunk_refs.entry) q) self.now.items)) }
        ensures none { filter (λ q. is_of conn q && is_asked (option_copied chunk_refs.entry) q)
            self.now.items ≡ [] → IsOk result }
    {
        self.by_connection.origins(alloc, conn, chunk_refs)
    }

    /// Makes room for one more request. On an error no request has changed.
    pub(crate) fn reserve(&mut self) -> Result<(), AllocError>
        ensures ok { OnOk result (0 < self.new.room) }
        ensures same { self.new.items ≡ self.old.items }
        ensures more { self.old.room ≤ self.new.room }
    {
        self.by_connection.reserve()
    }

    /// There are less than 2^64 requests, also once there is no room left.
    pub(crate) fn are_few(&self)
        ensures { length self.now.items + self.now.room < 2 ^ 64 }
    {
        let _most = self.by_connection.capacity(); // for the proof
    }

    /// A request comes, into room that was made for it. Answers its slot, where it stays.
    pub(crate) fn push(&mut self, kept: EnteredRequest) -> usize
        requires room { 0 < self.old.room }
        requires fresh { request_at self.old.items kept.origin ≡ None }
        ensures { self.new.items ≡ self.old.items ++ kept ∷ [] }
    {
        let slot = self.by_connection.push(kept);
        self.order = self.order.and(&slot);
        slot
    }

    /// The request of an origin leaves, if it is there. It may stand in this slot: no other is
    /// looked at if it does.
    pub(crate) fn take_at(&mut self, slot: usize, origin: Origin) -> Option<EnteredRequest>
        ensures taken { result ≡ request_at self.old.items origin }
        ensures left { self.new.items
            ≡ filter (λ q. not (is_origin origin q.origin)) self.old.items }
        ensures room { self.old.room ≤ self.new.room }
    {
        let slot = self.by_connection.find_at(slot, origin)?;
        self.order = self.order.without(&slot);
        self.by_connection.remove(slot)
    }
}

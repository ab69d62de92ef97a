//! The tickets of an output whose requests are owed an answer. A settled chunk costs its own
//! tickets alone, and a request over many chunks is mostly handed in once. The tickets of a source
//! that is gone stay until their chunks are settled: to find them sooner would take a second index,
//! or a walk over all tickets. In contracts the store says which tickets wait for
//! which chunk: a model may hold no function, so `Stored` keeps the lists and `Held` reads them.

ghost use Rattle.std.specs.Prelude.{
  ◌≡◌,
  ◌<◌,
  ◌++◌,
  [],
  Some,
  true,
  false,
  IfOk,
  IfErr,
  OnOk,
  OnErr,
};
ghost use Rattle.fwd_reader.specs.Stores.{
  FindsLeast,
  HandsOver,
  IsKept,
  IsQuiet,
  IsSame,
  IsSettled,
  Looks,
  last_chunk,
  none_kept,
};

mod waiting;

use self::waiting::WaitingTickets;
use crate::ticket_list::{TicketList, abandon_blocks};
use fwd_chunks::Span;
use fwd_history::Run;
use fwd_output::{Plain, SharedOutput, Ticket};
use std::alloc::{AllocError, Global};
use std::collections::VecDeque;
use std::marker::Model;
use std::mem;
use std::sync::Wait;

/// The tickets that an output gave, and that no receipt answered yet. A ticket waits in the list of
/// the last chunk that its request has entries in. Chunks are mostly settled in the order of their
/// numbers, so that the others are settled by then.
///
/// They must be spent: by receipts, or by `close`.
pub struct TicketStore {
    alloc: Global,
    /// They wait for chunks.
    waiting: WaitingTickets,
    /// They are to be handed in.
    due: TicketList,
    /// They were handed in and came back, in blocks: another chunk of their request is not settled
    /// yet.
    late: VecDeque<Vec<Ticket>>,
    /// A chunk was settled since some came back: it may be that one.
    are_late_due: bool,
    /// It is not known what was settled, or memory was refused for it: all are to be handed in.
    are_all_due: bool,
}

impl Model for TicketStore {
    ghost use Rattle.std.specs.Prelude.{◌-◌, ◌≢◌, [], All};
    ghost use Rattle.std.specs.List.{flat_map};
    ghost use Rattle.std.specs.VecDeque.{deque_len, deque_capacity};
    ghost use Rattle.fwd_reader.specs.Stores.{Stored};

    ghost Value = { Stored };

    ghost view = { λ s. record {
      lists = s.waiting;
      due = s.due;
      late = flat_map (λ block. block.items) s.late.items;
      late_due = s.are_late_due;
      all_due = s.are_all_due;
      room = deque_capacity s.late - deque_len s.late;
    } };

    ghost invariant = { λ s. All (λ block. block.items ≢ []) s.late.items };
}

impl TicketStore {
    /// No tickets.
    pub fn new(alloc: Global) -> TicketStore
        ensures { IsSame none_kept result }
    {
        TicketStore {
            alloc,
            waiting: WaitingTickets::new(alloc),
            due: TicketList::new(alloc),
            late: VecDeque::new(alloc),
            are_late_due: false,
            are_all_due: false,
        }
    }

    /// Keeps a ticket: until the last chunk of its request is settled, or to be handed in at once
    /// where the request has no entry. When out of memory it comes back.
    pub fn keep(&mut self, ticket: Ticket) -> Result<(), Ticket>
        ensures kept { OnOk result (IsKept self.old ticket self.new) }
        ensures back { IfErr result (λ t. t ≡ ticket) }
        ensures same { OnErr result (IsSame self.old self.new) }
    {
        match last_number(ticket.spans()) {
            None => self.due.push(ticket),
            Some(chunk) => self.keep_for(chunk, ticket),
        }
    }

    /// Keeps a ticket whose request has this last chunk. When out of memory it comes back.
    fn keep_for(&mut self, chunk: u64, ticket: Ticket) -> Result<(), Ticket>
        requires { last_chunk ticket.spans ≡ Some chunk }
        ensures kept { OnOk result (IsKept self.old ticket self.new) }
        ensures back { IfErr result (λ t. t ≡ ticket) }
        ensures same { OnErr result (IsSame self.old self.new) }
    {
        self.waiting.keep(self.alloc, chunk, ticket)
    }

    /// A chunk is settled: the tickets that wait for it are to be handed in, and those that came
    /// back.
    #[tactic(auto, using(crate::proofs::Blocks::some_blocks))]
    pub fn settle(&mut self, chunk: u64)
        ensures { IsSettled self.old chunk self.new }
    {
        self.are_late_due = self.are_late_due || !self.late.is_empty();
        if self.waiting.move_to(chunk, &mut self.due).is_err() {
            self.are_all_due = true;
        }
    }

    /// All tickets are to be handed in.
    pub fn settle_all(&mut self)
        ensures { self.new ≡ record self.old { late_due = true; all_due = true } }
    {
        self.are_all_due = true;
        self.are_late_due = true;
    }

    /// Those that came back are to be handed in again.
    pub fn note_late_due(&mut self)
        ensures { self.new ≡ record self.old { late_due = true } }
    {
        self.are_late_due = true;
    }

    /// Whether there are tickets to be handed in.
    pub fn is_due(&self) -> bool
        ensures quiet { result ≡ false → IsQuiet self.now }
        ensures due { result ≡ true → ¬ (IsQuiet self.now) }
    {
        self.are_all_due || !self.due.is_empty() || (self.are_late_due && !self.late.is_empty())
    }

    /// Takes out the first tickets that are to be handed in: a block of them, and none only where
    /// none is to be handed in, but that where all are each list of those that wait takes a call.
    /// There is room then for them to come back. The only error is out of memory: none is handed
    /// over, and they are to be handed in still. So a caller that puts them back never has to
    /// abandon one, whose source would wait for ever.
    #[tactic(auto, using(crate::proofs::Stores::handed, crate::proofs::Stores::kept_due))]
    pub fn take_due(&mut self) -> Result<Vec<Ticket>, AllocError>
        ensures handed { IfOk result (λ block. HandsOver self.old block.items self.new) }
        ensures room { OnOk result (0 < self.new.room) }
        ensures kept { OnErr result (Looks self.old self.new) }
    {
        self.find_due();
        if self.late.reserve(1).is_err() {
            return Err(AllocError);
        }
        if let Some(block) = self.due.pop_block() {
            return Ok(block);
        }
        Ok(Vec::new(self.alloc))
    }

    /// Looks for tickets to be handed in where none is due: those that came back, if a chunk was
    /// settled since; else, where all are to be handed in, those that wait for the least chunk.
    fn find_due(&mut self)
        ensures { Looks self.old self.new }
    {
        if !self.due.is_empty() {
            return;
        }
        if mem::replace(&mut self.are_late_due, false) {
            self.due.take_blocks(&mut self.late);
        } else if self.are_all_due {
            self.find_least();
        }
    }

    /// Those that wait for the least chunk are due, where none is; or none waits for any.
    fn find_least(&mut self)
        requires none { self.old.due ≡ [] }
        requires all { self.old.all_due ≡ true }
        ensures found { FindsLeast self.old self.new }
        ensures late_due { self.new.late_due ≡ self.old.late_due }
    {
        match self.waiting.pop_list() {
            Some(list) => mem::replace(&mut self.due, list).destroy_empty(),
            None => self.are_all_due = false,
        }
    }

    /// Tickets that were handed in came back: another chunk of their requests is not settled yet.
    /// They are handed in again once a chunk is settled. It takes no memory: where `take_due` made
    /// no room for them they come back.
    pub fn put_back(&mut self, tickets: Vec<Ticket>) -> Result<(), Vec<Ticket>>
        ensures put { OnOk result (self.new ≡ record self.old {
          late = self.old.late ++ tickets.items;
          room = self.new.room;
        }) }
        ensures back { IfErr result (λ block. block.items ≡ tickets.items) }
        ensures same { OnErr result (self.new ≡ self.old) }
        ensures no_room { OnErr result (self.old.room ≡ 0) }
    {
        if tickets.is_empty() {
            tickets.destroy_empty();
            return Ok(());
        }
        if self.late.len() >= self.late.capacity() {
            return Err(tickets);
        }
        self.late.push_back_reserved(tickets);
        Ok(())
    }

    /// The tickets that are left are abandoned.
    pub fn close<J: Run, R: Wait>(self, rt: &R, output: &SharedOutput<Plain<J>, Plain<J>>) {
        let TicketStore {
            alloc: _,
            mut waiting,
            due,
            late,
            are_late_due: _,
            are_all_due: _,
        } = self;
        while let Some(list) = waiting.pop_list() {
            list.abandon(rt, output);
        }
        waiting.destroy_empty();
        due.abandon(rt, output);
        abandon_blocks(rt, output, late);
    }
}

/// The number of the chunk of the last of these runs, if there is one.
fn last_number(spans: &[Span]) -> Option<u64>
    ensures { result ≡ last_chunk spans.now }
{
    match spans.last() {
        None => None,
        Some(span) => Some(span.number),
    }
}

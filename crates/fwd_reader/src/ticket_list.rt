//! A list of tickets that is handed on in blocks.

ghost use Rattle.std.specs.Prelude.{
  ◌≡◌,
  ◌≢◌,
  ◌++◌,
  [],
  ◌∷◌,
  true,
  false,
  All,
  IfErr,
  IfSome,
  IfNone,
  IsOk,
  OnOk,
  OnErr,
};
ghost use Rattle.std.specs.List.{flat_map};

use fwd_history::Run;
use fwd_output::{Plain, SharedOutput, Ticket};
use std::alloc::{AllocError, AllocFailed, Global};
use std::collections::VecDeque;
use std::marker::Model;
use std::mem;
use std::sync::Wait;

/// The most tickets of a block: so few that where memory is short their receipts find room, and
/// that a list of few is small.
const BLOCK: usize = 16;

/// Tickets, in their order. They lie in blocks, so that no ticket is moved where lists are joined,
/// and that few are handed on at a time. In contracts it is the list of its tickets. It must be
/// spent: by `pop_block`, until none is left, and `destroy_empty`.
pub struct TicketList {
    alloc: Global,
    /// The blocks before the last.
    full: VecDeque<Vec<Ticket>>,
    last: Vec<Ticket>,
}

impl Model for TicketList {
    ghost use Rattle.std.specs.Prelude.{◌++◌, ◌≢◌, [], All, List};
    ghost use Rattle.std.specs.List.{flat_map};
    ghost use Rattle.fwd_output.specs.Tickets.{Ticket};

    ghost Value = { List Ticket };

    ghost view = { λ list. flat_map (λ block. block.items) list.full.items ++ list.last.items };

    ghost invariant = { λ list. All (λ block. block.items ≢ []) list.full.items };
}

impl TicketList {
    /// No tickets.
    pub fn new(alloc: Global) -> TicketList
        ensures { result ≡ [] }
    {
        TicketList {
            alloc,
            full: VecDeque::new(alloc),
            last: Vec::new(alloc),
        }
    }

    /// Whether there is no block, and so no ticket.
    #[tactic(auto, using(crate::proofs::Blocks::no_ticket))]
    pub fn is_empty(&self) -> bool
        ensures none { result ≡ true → self.now ≡ [] }
        ensures some { result ≡ false → self.now ≢ [] }
    {
        self.full.is_empty() && self.last.is_empty()
    }

    /// Adds a ticket. When out of memory it comes back.
    pub fn push(&mut self, ticket: Ticket) -> Result<(), Ticket>
        ensures added { OnOk result (self.new ≡ self.old ++ ticket ∷ []) }
        ensures back { IfErr result (λ t. t ≡ ticket) }
        ensures same { OnErr result (self.new ≡ self.old) }
    {
        if self.last.len() >= BLOCK {
            let Ok(()) = self.full.reserve(1) else {
                return Err(ticket);
            };
            let block = mem::replace(&mut self.last, Vec::new(self.alloc));
            self.full.push_back_reserved(block);
        }
        match self.last.push(ticket) {
            Ok(()) => Ok(()),
            Err(AllocFailed { value }) => Err(value),
        }
    }

    /// Adds tickets behind its own, as a block. When out of memory they come back.
    pub fn push_block(&mut self, tickets: Vec<Ticket>) -> Result<(), Vec<Ticket>>
        ensures added { OnOk result (self.new ≡ self.old ++ tickets.items) }
        ensures back { IfErr result (λ block. block.items ≡ tickets.items) }
        ensures same { OnErr result (self.new ≡ self.old) }
    {
        if self.last.is_empty() {
            mem::replace(&mut self.last, tickets).destroy_empty();
            return Ok(());
        }
        let Ok(()) = self.full.reserve(1) else {
            return Err(tickets);
        };
        let block = mem::replace(&mut self.last, tickets);
        self.full.push_back_reserved(block);
        Ok(())
    }

    /// Takes another list's tickets behind its own. The only error is out of memory, and then both
    /// are as they were. Where that list has none, no memory is needed.
    pub fn append(&mut self, list: &mut TicketList) -> Result<(), AllocError>
        ensures added { OnOk result ((self.new ≡ self.old ++ list.old) × (list.new ≡ [])) }
        ensures none { list.old ≡ [] → IsOk result }
        ensures same { OnErr result ((self.new ≡ self.old) × (list.new ≡ list.old)) }
    {
        if list.is_empty() {
            return Ok(());
        }
        self.full.reserve(list.full.len().saturating_add(1))?;
        let block = mem::replace(&mut self.last, Vec::new(self.alloc));
        if block.is_empty() {
            block.destroy_empty();
        } else {
            self.full.push_back_reserved(block);
        }
        self.full.append(&mut list.full)?;
        mem::swap(&mut self.last, &mut list.last);
        Ok(())
    }

    /// Takes over these blocks of tickets, and leaves none there. It takes no memory.
    pub(crate) fn take_blocks(&mut self, blocks: &mut VecDeque<Vec<Ticket>>)
        requires none { self.old ≡ [] }
        requires filled { All (λ block. block.items ≢ []) blocks.old.items }
        ensures taken { self.new ≡ flat_map (λ block. block.items) blocks.old.items }
        ensures left { blocks.new.items ≡ [] }
    {
        mem::swap(&mut self.full, blocks);
    }

    /// Takes out the first tickets, a block of them: none only where none is left.
    pub fn pop_block(&mut self) -> Option<Vec<Ticket>>
        ensures some { IfSome result (λ block.
            (block.items ≢ []) × (self.old ≡ block.items ++ self.new)) }
        ensures none { IfNone result ((self.old ≡ []) × (self.new ≡ [])) }
    {
        if let Some(block) = self.full.pop_front() {
            return Some(block);
        }
        if self.last.is_empty() {
            return None;
        }
        Some(mem::replace(&mut self.last, Vec::new(self.alloc)))
    }

    /// Frees a list that has no ticket.
    #[tactic(auto, using(crate::proofs::Blocks::nil_first, crate::proofs::Blocks::nil_second))]
    pub fn destroy_empty(self)
        requires { self ≡ [] }
    {
        let TicketList {
            alloc: _,
            mut full,
            last,
        } = self;
        while let Some(block) = full.pop_front() {
            block.destroy_empty();
        }
        full.destroy_empty();
        last.destroy_empty();
    }

    /// Nobody is to be told of the requests of these tickets any more.
    pub fn abandon<J: Run, R: Wait>(self, rt: &R, output: &SharedOutput<Plain<J>, Plain<J>>) {
        let TicketList {
            alloc: _,
            full,
            last,
        } = self;
        abandon_blocks(rt, output, full);
        abandon_all(rt, output, last);
    }
}

/// Nobody is to be told of the requests of the tickets of these blocks any more.
pub(crate) fn abandon_blocks<J: Run, R: Wait>(
    rt: &R,
    output: &SharedOutput<Plain<J>, Plain<J>>,
    blocks: VecDeque<Vec<Ticket>>,
) {
    let mut rest = blocks;
    while let Some(block) = rest.pop_front() {
        abandon_all(rt, output, block);
    }
    rest.destroy_empty();
}

/// Nobody is to be told of the requests of these tickets any more.
pub fn abandon_all<J: Run, R: Wait>(
    rt: &R,
    output: &SharedOutput<Plain<J>, Plain<J>>,
    tickets: Vec<Ticket>,
) {
    let mut rest = tickets.into_iter();
    while let Some(ticket) = rest.next() {
        output.abandon(rt, ticket);
    }
    rest.destroy_empty();
}

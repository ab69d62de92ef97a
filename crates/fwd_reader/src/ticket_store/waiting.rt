//! The tickets that wait for chunks. Those of the newest chunk lie outside the tree of the others:
//! most tickets are kept for it, and they are kept without a search.

ghost use Rattle.std.specs.Prelude.{
  ◌≡◌,
  ◌≢◌,
  ◌<◌,
  ◌++◌,
  [],
  ◌∷◌,
  ℕ,
  Some,
  None,
  true,
  false,
  length,
  nat_lt,
  IfErr,
  IfSome,
  IfNone,
  IsOk,
  OnOk,
  OnErr,
};
ghost use Rattle.fwd_reader.specs.Stores.{waiting_in, waits_with};
ghost use Rattle.fwd_reader.specs.Waiting.{IsApart, is_of, list_at, list_with, lists_with};

use crate::ticket_list::TicketList;
use fwd_output::Ticket;
use std::alloc::{AllocError, AllocFailed, Global};
use std::collections::BTreeMap;
use std::marker::Model;

/// The tickets that wait for one chunk. They must be spent.
struct ChunkTickets {
    chunk: u64,
    tickets: TicketList,
}

impl ChunkTickets {
    /// Frees a list that has no ticket.
    fn destroy_empty(self)
        requires { self.tickets ≡ [] }
    {
        let ChunkTickets { chunk: _, tickets } = self;
        tickets.destroy_empty();
    }
}

/// Tickets that wait for chunks, each chunk's in their order. In contracts it is the list of the
/// chunks' numbers, each with its tickets. They must be spent: by `move_to` and `pop_list`, until
/// none is left, and `destroy_empty`.
pub(super) struct WaitingTickets {
    /// Those of the newest chunk, until it is settled or a newer one comes.
    newest: Option<ChunkTickets>,
    /// Those of the other chunks, by their numbers. The newest one's are not among them.
    others: BTreeMap<u64, TicketList>,
}

impl Model for WaitingTickets {
    ghost use Rattle.std.specs.Prelude.{ℕ, List};
    ghost use Rattle.fwd_output.specs.Tickets.{Ticket};
    ghost use Rattle.fwd_reader.specs.Waiting.{IsApart, lists_with};

    ghost Value = { List (ℕ × List Ticket) };

    ghost view = { λ w. lists_with w.newest w.others.entries };

    ghost invariant = { λ w. IsApart w.newest w.others.entries };
}

impl WaitingTickets {
    /// No tickets.
    pub fn new(alloc: Global) -> WaitingTickets
        ensures { result ≡ [] }
    {
        WaitingTickets {
            newest: None,
            others: BTreeMap::new(alloc),
        }
    }

    /// A ticket waits for a chunk, behind all that do. When out of memory it comes back.
    pub fn keep(&mut self, alloc: Global, chunk: u64, ticket: Ticket) -> Result<(), Ticket>
        ensures added { OnOk result ((k : ℕ) → waiting_in self.new k
            ≡ waits_with (waiting_in self.old) chunk
            (waiting_in self.old chunk ++ ticket ∷ []) k) }
        ensures back { IfErr result (λ t. t ≡ ticket) }
        ensures same { OnErr result ((k : ℕ) → waiting_in self.new k ≡ waiting_in self.old k) }
    {
        if !has_list(alloc, &mut self.newest, &mut self.others, chunk) {
            return Err(ticket);
        }
        match &mut self.newest {
            Some(newest) if newest.chunk == chunk => newest.tickets.push(ticket),
            _ => push_at(&mut self.others, chunk, ticket),
        }
    }

    /// Takes who waits for a chunk behind these that are due. The only error is out of memory, and
    /// then nothing has changed. Where nobody waits for it, no memory is needed.
    pub fn move_to(&mut self, chunk: u64, due: &mut TicketList) -> Result<(), AllocError>
        ensures due { OnOk result (due.new ≡ due.old ++ waiting_in self.old chunk) }
        ensures gone { OnOk result ((k : ℕ) →
            waiting_in self.new k ≡ waits_with (waiting_in self.old) chunk [] k) }
        ensures none { waiting_in self.old chunk ≡ [] → IsOk result }
        ensures same { OnErr result ((due.new ≡ due.old)
            × ((k : ℕ) → waiting_in self.new k ≡ waiting_in self.old k)) }
    {
        if is_of(&self.newest, chunk) {
            move_newest(&mut self.newest, due)
        } else {
            move_list(&mut self.others, chunk, due)
        }
    }

    /// Takes out those that wait for the least chunk, if there is a list of any.
    pub fn pop_list(&mut self) -> Option<TicketList>
        ensures fewer { IfSome result (λ list. length self.new < length self.old) }
        ensures some { IfSome result (λ list. (chunk : ℕ) × (list ≡ waiting_in self.old chunk)
            × ((k : ℕ) → waiting_in self.new k ≡ waits_with (waiting_in self.old) chunk [] k)) }
        ensures none { IfNone result ((self.old ≡ []) × (self.new ≡ [])) }
    {
        if let Some((_, list)) = self.others.pop_first() {
            return Some(list);
        }
        let ChunkTickets { chunk: _, tickets } = self.newest.take()?;
        Some(tickets)
    }

    /// Frees what has no list.
    pub fn destroy_empty(self)
        requires { self ≡ [] }
    {
        let WaitingTickets { newest, others } = self;
        match newest {
            None => others.destroy_empty(),
            Some(_) => unreachable!(),
        }
    }
}

/// Whether these are this chunk's.
fn is_of(newest: &Option<ChunkTickets>, chunk: u64) -> bool
    ensures { result ≡ is_of newest.now chunk }
{
    match newest {
        None => false,
        Some(newest) => newest.chunk == chunk,
    }
}

/// Whether these are those of a chunk of a greater number.
fn is_behind(newest: &Option<ChunkTickets>, chunk: u64) -> bool {
    match newest {
        None => false,
        Some(newest) => chunk < newest.chunk,
    }
}

/// Sees to it that there is a list for a chunk, and says whether it could. It cannot when out of
/// memory. A new list is the newest one, unless that is of a chunk of a greater number.
fn has_list(
    alloc: Global,
    newest: &mut Option<ChunkTickets>,
    others: &mut BTreeMap<u64, TicketList>,
    chunk: u64,
) -> bool
    requires { IsApart newest.old others.old.entries }
    ensures apart { IsApart newest.new others.new.entries }
    ensures same { (k : ℕ) → waiting_in (lists_with newest.new others.new.entries) k
        ≡ waiting_in (lists_with newest.old others.old.entries) k }
{
    if is_of(newest, chunk) || others.contains_key(&chunk) {
        return true;
    }
    let list = ChunkTickets {
        chunk,
        tickets: TicketList::new(alloc),
    };
    if is_behind(newest, chunk) {
        is_put(others, list)
    } else {
        renew(newest, others, list)
    }
}

/// A new list without a ticket goes to the others. Says whether it could.
fn is_put(others: &mut BTreeMap<u64, TicketList>, list: ChunkTickets) -> bool
    requires none { list_at others.old.entries list.chunk ≡ None }
    requires empty { list.tickets ≡ [] }
    ensures others { (k : ℕ) → k ≢ list.chunk
        → list_at others.new.entries k ≡ list_at others.old.entries k }
    ensures same { (k : ℕ) → waiting_in others.new.entries k ≡ waiting_in others.old.entries k }
{
    match put(others, list) {
        Ok(()) => true,
        Err(list) => {
            list.destroy_empty();
            false
        }
    }
}

/// A new list without a ticket is the newest one, and the former goes to the others. Says whether
/// it could.
fn renew(
    newest: &mut Option<ChunkTickets>,
    others: &mut BTreeMap<u64, TicketList>,
    list: ChunkTickets,
) -> bool
    requires apart { IsApart newest.old others.old.entries }
    requires other { is_of newest.old list.chunk ≡ false }
    requires none { list_at others.old.entries list.chunk ≡ None }
    requires empty { list.tickets ≡ [] }
    ensures apart { IsApart newest.new others.new.entries }
    ensures same { (k : ℕ) → waiting_in (lists_with newest.new others.new.entries) k
        ≡ waiting_in (lists_with newest.old others.old.entries) k }
{
    let Some(former) = newest.replace(list) else {
        return true;
    };
    let Err(former) = put(others, former) else {
        return true;
    };
    if let Some(list) = newest.replace(former) {
        list.destroy_empty();
    }
    false
}

/// A list goes to the others, which have none of its chunk. When out of memory it comes back.
fn put(others: &mut BTreeMap<u64, TicketList>, list: ChunkTickets) -> Result<(), ChunkTickets>
    requires { list_at others.old.entries list.chunk ≡ None }
    ensures put { OnOk result ((k : ℕ) → list_at others.new.entries k
        ≡ list_with (list_at others.old.entries) list.chunk (Some list.tickets) k) }
    ensures back { IfErr result (λ l. l ≡ list) }
    ensures same { OnErr result (others.new.entries ≡ others.old.entries) }
{
    let ChunkTickets { chunk, tickets } = list;
    match others.insert(chunk, tickets) {
        Ok(None) => Ok(()),
        Ok(Some(list)) => {
            list.destroy_empty();
            Ok(())
        }
        Err(
            AllocFailed {
                value: (chunk, tickets),
            },
        ) => Err(ChunkTickets { chunk, tickets }),
    }
}

/// A ticket waits for a chunk in its list, behind all that do. When out of memory it comes back.
fn push_at(others: &mut BTreeMap<u64, TicketList>, chunk: u64, ticket: Ticket) -> Result<(), Ticket>
    ensures added { OnOk result ((k : ℕ) → list_at others.new.entries k
        ≡ list_with (list_at others.old.entries) chunk
        (Some (waiting_in others.old.entries chunk ++ ticket ∷ [])) k) }
    ensures back { IfErr result (λ t. t ≡ ticket) }
    ensures same { OnErr result ((k : ℕ) →
        list_at others.new.entries k ≡ list_at others.old.entries k) }
{
    match others.get_mut(&chunk) {
        None => Err(ticket),
        Some(list) => list.push(ticket),
    }
}

/// Takes the newest tickets behind these that are due. The only error is out of memory, and then
/// nothing has changed.
fn move_newest(newest: &mut Option<ChunkTickets>, due: &mut TicketList) -> Result<(), AllocError>
    ensures moved { OnOk result (IfSome newest.old (λ one. due.new ≡ due.old ++ one.tickets)
        × (newest.new ≡ None)) }
    ensures none { IfSome newest.old (λ one. one.tickets ≡ [] → IsOk result) }
    ensures same { OnErr result ((due.new ≡ due.old) × (newest.new ≡ newest.old)) }
{
    match newest {
        None => return Ok(()),
        Some(list) => due.append(&mut list.tickets)?,
    }
    if let Some(list) = newest.take() {
        list.destroy_empty();
    }
    Ok(())
}

/// Takes who waits for a chunk behind these that are due. The only error is out of memory, and then
/// nothing has changed.
fn move_list(
    others: &mut BTreeMap<u64, TicketList>,
    chunk: u64,
    due: &mut TicketList,
) -> Result<(), AllocError>
    ensures due { OnOk result (due.new ≡ due.old ++ waiting_in others.old.entries chunk) }
    ensures gone { OnOk result ((k : ℕ) → list_at others.new.entries k
        ≡ list_with (list_at others.old.entries) chunk None k) }
    ensures none { waiting_in others.old.entries chunk ≡ [] → IsOk result }
    ensures same { OnErr result ((due.new ≡ due.old) × ((k : ℕ) →
        list_at others.new.entries k ≡ list_at others.old.entries k)) }
{
    let Some(list) = others.get_mut(&chunk) else {
        return Ok(());
    };
    due.append(list)?;
    if let Some(list) = others.remove(&chunk) {
        list.destroy_empty();
    }
    Ok(())
}

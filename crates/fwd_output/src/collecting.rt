//! Which tickets are given their receipts, and which come back.

ghost use Rattle.std.specs.Prelude.{
  ◌≡◌,
  ◌≤◌,
  true,
  false,
  List,
  [],
  length,
  IfOk,
  IfSome,
  IfNone,
  vec_capacity,
};
ghost use Rattle.fwd_book.specs.Live.{live_leaves};
ghost use Rattle.fwd_output.specs.Tickets.{Ticket as AbstractTicket, IsShown, IsDue, receipt_for};
ghost use Rattle.fwd_output.specs.Turns.{
  AreCollected,
  AreDue,
  origins_of,
  receipts_for,
};

use crate::output::OutputState;
use crate::ticket::Ticket;
use fwd_book::Receipt;
use fwd_run::ReachedHistory;
use std::alloc::{AllocError, Global};

/// What is collected: receipts, the tickets that come back, and the history of the run, after which
/// the output gives these receipts.
pub type Collected<J> = (Vec<Receipt>, Vec<Ticket>, ReachedHistory<J>);

/// Whether the output gave the ticket.
fn is_here(state: &OutputState, ticket: &Ticket) -> bool
    ensures here { result ≡ true → ticket.now.setting ≡ state.now.book.setting }
    ensures other { result ≡ false → ¬ (ticket.now.setting ≡ state.now.book.setting) }
{
    state.run() == ticket.run() && state.output() == ticket.output()
}

/// Whether the output owes an answer to just this ticket's request.
pub(crate) fn shows(state: &OutputState, ticket: &Ticket) -> bool
    ensures shown { result ≡ true → IsShown state.now.book ticket.now }
    ensures other { result ≡ false → ¬ (IsShown state.now.book ticket.now) }
{
    is_here(state, ticket)
        && state.shows_at(
            ticket.slot(),
            ticket.origin(),
            ticket.batch(),
            ticket.spans(),
        )
}

/// The receipt of a ticket that is due. The only error is out of memory.
fn receipt_of(
    state: &OutputState,
    alloc: Global,
    ticket: &Ticket,
) -> Result<Option<Receipt>, AllocError>
    ensures due { IfOk result (λ given. IfSome given (λ receipt. IsDue state.now.book ticket.now
        × (receipt ≡ receipt_for state.now.book ticket.now))) }
    ensures other { IfOk result (λ given. IfNone given (¬ (IsDue state.now.book ticket.now))) }
{
    if !is_here(state, ticket) {
        return Ok(None);
    }
    state.receipt_at(
        alloc,
        ticket.slot(),
        ticket.origin(),
        ticket.batch(),
        ticket.spans(),
    )
}

/// For each ticket its receipt, if it is due. The only error is out of memory.
pub(crate) fn receipts_of(
    state: &OutputState,
    alloc: Global,
    tickets: &[Ticket],
) -> Result<Vec<Option<Receipt>>, AllocError>
    ensures { IfOk result (λ due. AreDue state.now.book tickets.now due.items) }
{
    let mut due = Vec::with_capacity(alloc, tickets.len())?;
    for ticket in tickets {
        let receipt = receipt_of(state, alloc, ticket)?;
        due.push(receipt)?;
    }
    Ok(due)
}

/// Each ticket that is due is spent for its receipt, and its request leaves the output; each other
/// ticket comes back. Of two tickets of one request the second finds none, and comes back.
/// Contracts read its ticket off each receipt (`ticket_of`), so that receipts and tickets that come
/// back are together a permutation of what was handed in.
pub(crate) fn hand_out(
    state: &mut OutputState,
    tickets: Vec<Ticket>,
    due: Vec<Option<Receipt>>,
    receipts: Vec<Receipt>,
    back: Vec<Ticket>,
) -> (Vec<Receipt>, Vec<Ticket>)
    requires due { AreDue state.old.book tickets.items due.items }
    requires none { (receipts.items ≡ []) × (back.items ≡ []) }
    requires room { (length tickets.items ≤ vec_capacity receipts)
        × (length tickets.items ≤ vec_capacity back) }
    ensures { (told : List AbstractTicket)
        × AreCollected state.old.book [] tickets.items told result.1.items
        × (result.0.items ≡ receipts_for state.old.book told)
        × (state.new ≡ record state.old {
          book = live_leaves state.old.book (origins_of told);
        }) }
{
    state.is_sound(); // for the proof
    let mut receipts = receipts;
    let mut back = back;
    let mut due = due.into_iter();
    let mut rest = tickets.into_iter();
    while let Some(ticket) = rest.next() {
        match due.next().unwrap_or(None) {
            Some(receipt) if state.leave_at(ticket.slot(), ticket.origin()) => {
                receipts.push_reserved(receipt);
                ticket.spend();
            }
            _ => back.push_reserved(ticket),
        }
    }
    rest.destroy_empty();
    (receipts, back)
}

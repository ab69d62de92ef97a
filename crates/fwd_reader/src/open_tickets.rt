//! The tickets of an output, in two stores: those of sources with few unanswered requests are
//! handed in first, so that who has many waits for itself and not the others for it. To go round by
//! connection would take a list for each connection and chunk.

ghost use Rattle.std.specs.Prelude.{◌≡◌, ◌<◌, true, false, IfErr, IfOk, OnOk, OnErr};
ghost use Rattle.fwd_reader.specs.Stores.{IsSame, IsSettled, none_kept};
ghost use Rattle.fwd_reader.specs.OpenTickets.{AreSame, AreAllDue, AreQuiet, Keeps};
ghost use Rattle.fwd_reader.specs.Collections.{
  AreGiven,
  AreGivenFor,
  AreHandedIn,
  AreRefused,
  ComeBack,
  IsHandedIn,
  IsRefused,
};

use crate::output::Output;
use crate::ticket_store::TicketStore;
use fwd_book::Receipt;
use fwd_history::Run;
use fwd_output::Ticket;
use fwd_peers::SourcePeer;
use fwd_run::ReachedHistory;
use std::alloc::{AllocError, Global};
use std::sync::Wait;

/// A source has few unanswered requests where these take fewer bytes than this beside their
/// entries: 255 requests at most.
const FEW: usize = 131_072;

/// How many unanswered requests the source of a ticket had: its tickets have a store of their own.
#[derive(Clone, Copy)]
pub(crate) enum Backlog {
    /// Its source had few unanswered requests.
    Few,
    /// It had many.
    Many,
}

impl Backlog {
    /// The backlog of a source, for its next ticket.
    pub fn of<J: Run>(source: &SourcePeer<J>) -> Backlog {
        if source.owed() < FEW {
            Backlog::Few
        } else {
            Backlog::Many
        }
    }
}

/// The tickets that an output gave and that no receipt answered yet. They must be spent: by
/// receipts, or by `close`.
pub(crate) struct OpenTickets {
    pub few: TicketStore,
    pub many: TicketStore,
}

impl OpenTickets {
    /// No tickets.
    pub fn new(alloc: Global) -> OpenTickets
        ensures { IsSame none_kept result.few × IsSame none_kept result.many }
    {
        OpenTickets {
            few: TicketStore::new(alloc),
            many: TicketStore::new(alloc),
        }
    }

    /// Keeps a ticket in the store of a backlog. When out of memory it comes back.
    pub fn keep(&mut self, backlog: Backlog, ticket: Ticket) -> Result<(), Ticket>
        ensures kept { OnOk result (Keeps self.old ticket self.new) }
        ensures back { IfErr result (λ t. t ≡ ticket) }
        ensures same { OnErr result (AreSame self.old self.new) }
    {
        match backlog {
            Backlog::Few => self.few.keep(ticket),
            Backlog::Many => self.many.keep(ticket),
        }
    }

    /// A chunk is settled: the tickets that wait for it are to be handed in, and those that came
    /// back.
    pub fn settle(&mut self, chunk: u64)
        ensures few { IsSettled self.old.few chunk self.new.few }
        ensures many { IsSettled self.old.many chunk self.new.many }
    {
        self.few.settle(chunk);
        self.many.settle(chunk);
    }

    /// All tickets are to be handed in.
    pub fn settle_all(&mut self)
        ensures { AreAllDue self.old self.new }
    {
        self.few.settle_all();
        self.many.settle_all();
    }

    /// Whether there are tickets to be handed in.
    pub fn is_due(&self) -> bool
        ensures quiet { result ≡ false → AreQuiet self.now }
        ensures due { result ≡ true → ¬ (AreQuiet self.now) }
    {
        self.few.is_due() || self.many.is_due()
    }

    /// Hands in a block of the tickets that are due, of sources with many unanswered requests only
    /// where none of the others is, and answers what receipts there are: each is right for the
    /// request of one of these tickets. The others come back. Beside the receipts is the history of
    /// the run, after which the output gives them. The only error is out of memory, and then all
    /// come back, and are to be handed in still.
    pub fn hand_in<J: Run, R: Wait>(
        &mut self,
        rt: &R,
        alloc: Global,
        output: &Output<J>,
    ) -> Result<(Vec<Receipt>, ReachedHistory<J>), AllocError>
        ensures given { IfOk result (λ p. AreHandedIn self.old p.0.items self.new) }
        ensures reached { IfOk result (λ p. AreGiven p.1 self.old p.0.items) }
        ensures kept { OnErr result (AreRefused self.old self.new) }
    {
        if self.few.is_due() {
            hand_in(rt, alloc, output, &mut self.few)
        } else {
            hand_in(rt, alloc, output, &mut self.many)
        }
    }

    /// The tickets that are left are abandoned.
    pub fn close<J: Run, R: Wait>(self, rt: &R, output: &Output<J>) {
        let OpenTickets { few, many } = self;
        few.close(rt, &output.shared);
        many.close(rt, &output.shared);
    }
}

/// Hands in a block of the tickets of a store that are due.
#[tactic(auto, using(crate::proofs::Handing::refused, crate::proofs::Handing::none_handed))]
fn hand_in<J: Run, R: Wait>(
    rt: &R,
    alloc: Global,
    output: &Output<J>,
    tickets: &mut TicketStore,
) -> Result<(Vec<Receipt>, ReachedHistory<J>), AllocError>
    ensures given { IfOk result (λ p. IsHandedIn tickets.old p.0.items tickets.new) }
    ensures reached { IfOk result (λ p. AreGivenFor p.1 tickets.old p.0.items) }
    ensures kept { OnErr result (IsRefused tickets.old tickets.new) }
{
    let due = tickets.take_due()?;
    match output.shared.collect(rt, alloc, due) {
        Ok((receipts, back, reached)) => {
            put_back(tickets, back);
            Ok((receipts, reached))
        }
        Err((error, back)) => {
            put_back(tickets, back);
            tickets.note_late_due();
            Err(error)
        }
    }
}

/// Tickets come back, for which there is room.
fn put_back(tickets: &mut TicketStore, back: Vec<Ticket>)
    requires { 0 < tickets.old.room }
    ensures { ComeBack tickets.old back.items tickets.new }
{
    match tickets.put_back(back) {
        Ok(()) => {}
        Err(_) => unreachable!(),
    }
}

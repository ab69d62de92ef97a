//! A source's requests enter outputs, and it is told of their receipts.

ghost use Rattle.std.specs.Prelude.{
  ◌≡◌,
  ◌+◌,
  ◌<◌,
  ◌≤◌,
  ◌⊎◌,
  ℕ,
  List,
  None,
  true,
  false,
  length,
  Some,
  Contains,
  IfErr,
  IfOk,
  IfSome,
};
ghost use Rattle.fwd_modes.specs.Acks.{ack_text};
ghost use Rattle.fwd_modes.specs.Requests.{Request};
ghost use Rattle.fwd_modes.specs.declared.origin.Origin.{Origin};
ghost use Rattle.fwd_source.specs.Live.{source_appends};
ghost use Rattle.fwd_history.specs.Histories.{Comes};
ghost use Rattle.fwd_book.specs.History.{BookSetting};
ghost use Rattle.fwd_book.specs.Receipts.{Receipt};
ghost use Rattle.fwd_output.specs.Paged.{AreGivenAfter};
ghost use Rattle.fwd_output.specs.PagedSources.{WasDelivered};
ghost use Rattle.fwd_run.specs.Runs.{routes_at};
ghost use Rattle.fwd_peers.specs.Peers as peers;

use super::SourcePeer;
use crate::limits::ACK_FRONT;
use crate::request_cost::upkeep;
use fwd_book::{AdmitRefusal, Receipt};
use fwd_history::Run;
use fwd_modes::Batch;
use fwd_output::{Entrance, PagedSource, Plain, Ticket};
use fwd_run::ReachedHistory;
use std::alloc::Global;
use std::sync::Wait;

/// How many bytes the acknowledgement of a request has, where its sender asked for one.
#[tactic(auto, using(crate::proofs::Acks::ack_length))]
fn ack_size(batch: &Batch) -> usize
    ensures { result ≡ peers.ack_size batch.now.chunk }
{
    match batch.chunk() {
        None => 0,
        Some(chunk) => ACK_FRONT.len() + chunk.len(),
    }
}

/// Puts the acknowledgement of a chunk of this value behind the bytes that wait to be sent, and
/// says whether it did. It does not where memory is refused, or what waits was dropped.
#[tactic(auto, using(crate::proofs::Acks::ack_length, crate::proofs::Acks::ack_appended))]
fn append_ack<J: Run>(source: &mut PagedSource<J>, chunk: &[u8]) -> bool
    ensures put { result ≡ true
        → source.new.live ≡ source_appends source.old.live (ack_text chunk.now) }
    ensures room { result ≡ true
        → source.old.room ≤ source.new.room + length (ack_text chunk.now) }
    ensures refused { source.new.refused ≡ source.old.refused }
    ensures not_put { result ≡ false → source.new.live ≡ source.old.live }
    ensures why_not { result ≡ false → (source.old.room < length (ack_text chunk.now))
        ⊎ (source.old.live.shut ≡ true) }
{
    let size = ACK_FRONT.len() + chunk.len();
    if source.reserve(size).is_err() {
        return false;
    }
    if source.answer(&ACK_FRONT).is_err() {
        return false;
    }
    source.answer(chunk).unwrap();
    true
}

impl<J: Run> SourcePeer<J> {
    /// Makes room for the acknowledgement of the first request that waits, which is to be given, if
    /// one is: so a receipt cannot be refused for want of room. Where there is none, nothing has
    /// changed.
    fn promise(&mut self) -> Option<()>
        ensures promised { IfSome result (λ _. (asked : Origin × Request)
            × peers.Promises self.old asked self.new) }
        ensures same { result ≡ None → peers.Gives self.old None self.new }
    {
        if self.source.is_refused() {
            return None;
        }
        let (origin, batch) = self.source.now().peek()?;
        let promised = self.promised.checked_add(ack_size(batch))?;
        let owed = upkeep(batch.tag(), batch.chunk());
        let request = origin.request;
        self.source.reserve(promised).ok()?;
        self.promised = promised;
        self.owed = self.owed.saturating_add(owed);
        self.given = request;
        Some(())
    }

    /// Its first request that waits, which the routes lead there, enters an output at a moment
    /// (milliseconds), once there is room for its acknowledgement: a ticket for it. It is refused as
    /// by `SharedOutput::admit`, and then it was given in vain, and none is given any more. Or it
    /// waits still, which is refused as out of memory: there is not that room, or one was refused
    /// before.
    pub fn enter<R: Wait>(
        &mut self,
        rt: &R,
        alloc: Global,
        entrance: Entrance<'_, Plain<J>, Plain<J>>,
        now: u64,
    ) -> Result<Ticket, AdmitRefusal>
        requires led { (routes : List (List (List ℕ)))
            × (routes_at entrance.reached.now ≡ Some routes)
            × (peers.first_route routes self.old ≡ Some entrance.number) }
        ensures entered { IfOk result (λ ticket.
            peers.Gives self.old (Some (ticket.origin, ticket.batch)) self.new) }
        ensures output { IfOk result (λ ticket.
            ticket.setting.output ≡ entrance.entry.number) }
        ensures refused { IfErr result (λ refusal.
            ((refusal ≡ AdmitRefusal.Memory) × peers.Gives self.old None self.new)
            ⊎ ((asked : Origin × Request) × peers.GivesInVain self.old asked self.new)) }
    {
        if self.promise().is_none() {
            return Err(AdmitRefusal::Memory);
        }
        self.source.enter(rt, alloc, &mut (), entrance, now)
    }

    /// Puts the acknowledgement of a chunk of this value behind the bytes that wait to be sent, as
    /// was promised. Where it cannot, which is when out of memory, the connection is over.
    fn put(&mut self, chunk: &[u8])
        ensures { peers.IsTold self.old (Some (ack_text chunk.now)) self.new }
    {
        let size = ACK_FRONT.len() + chunk.len();
        self.promised = self.promised.saturating_sub(size);
        if append_ack(&mut self.source, chunk) {
            return;
        }
        self.starve();
    }

    /// One more of the requests that it gave was answered.
    fn note_answered(&mut self)
        ensures { self.new ≡ peers.with_one_answered self.old }
    {
        if self.answered < self.given {
            self.answered += 1;
        }
    }

    /// Tells the connection of a receipt, if it is of one of its requests and it asked to be told.
    /// When out of memory the connection is over.
    fn tell(&mut self, receipt: &Receipt)
        ensures { peers.IsTold (peers.counted receipt.now self.old.id self.old)
            (peers.told_by receipt.now self.old.id) self.new }
    {
        if receipt.origin().conn != self.id {
            return;
        }
        self.note_answered();
        let owed = upkeep(receipt.tag(), receipt.chunk());
        self.owed = self.owed.saturating_sub(owed);
        let Some(chunk) = receipt.chunk() else {
            return;
        };
        self.put(chunk);
    }

    /// Tells the connection of a receipt, if it is of one of its requests and it asked to be told.
    /// When out of memory the connection is over. The receipt is among those that an output gave
    /// after a history of the run. Answered is that history as it is known here now: in that the
    /// request was delivered.
    pub fn answer(&mut self, receipt: &Receipt, given: &ReachedHistory<J>) -> ReachedHistory<J>
        ensures told { peers.IsTold (peers.counted receipt.now self.old.id self.old)
            (peers.told_by receipt.now self.old.id) self.new }
        ensures onward { Comes given.now result }
        ensures delivered { (setting : BookSetting) (receipts : List Receipt) →
            AreGivenAfter given.now setting receipts → Contains receipts receipt.now →
            receipt.now.origin.conn ≡ self.old.id →
            WasDelivered result setting.output receipt.now }
    {
        let reached = self.source.after(given);
        self.tell(receipt);
        reached
    }
}

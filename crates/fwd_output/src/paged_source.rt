//! A source with its page in the history of a run: its requests enter outputs in that history.

ghost use Rattle.std.specs.Prelude.{
  ◌≡◌,
  ◌+◌,
  ◌<◌,
  ◌≤◌,
  ℕ,
  List,
  Some,
  true,
  false,
  length,
  Contains,
  IfErr,
  IfOk,
  OnErr,
  OnOk,
};
ghost use Rattle.fwd_source.specs.Live.{
  live_piece_answer,
  live_piece_next,
  source_appends,
  source_drains,
};
ghost use Rattle.fwd_history.specs.Histories.{Comes};
ghost use Rattle.fwd_book.specs.History.{BookSetting};
ghost use Rattle.fwd_book.specs.Receipts as book;
ghost use Rattle.fwd_run.specs.Runs.{routes_at};
ghost use Rattle.fwd_output.specs.Paged.{AreGivenAfter};
ghost use Rattle.fwd_output.specs.PagedSources.{Entered, IsKeptOut, WasDelivered, first_route};

use crate::routed_request::RoutedRequest;
use crate::shared::SharedOutput;
use crate::tally::Tally;
use crate::ticket::Ticket;
use crate::unsent_requests::UnsentRequests;
use fwd_book::AdmitRefusal;
use fwd_history::Run;
use fwd_run::{ReachedHistory, SourcePage, run_delivers};
use fwd_source::{AnswerError, Piece, Source};
use std::alloc::{AllocError, Global};
use std::marker::Model;
use std::sync::Wait;

/// Where a request enters: an output, its number, and the history of the run as far as it is known.
#[derive_where(Clone, Copy)]
pub struct Entrance<'a, A: Tally, S: Tally> {
    pub output: &'a SharedOutput<A, S>,
    pub number: u16,
    pub reached: &'a ReachedHistory<A::Run>,
}

/// A source, as its page knows it.
#[derive(Drop)]
pub struct PagedSource<J: Run> {
    page: SourcePage<J>,
    source: Source,
    /// A request that it gave was refused, which it did not give in the history of the run: it gives
    /// none any more.
    is_refused: bool,
}

impl<J: Run> Model for PagedSource<J> {
    ghost use Rattle.std.specs.Prelude.{◌≡◌, false};
    ghost use Rattle.fwd_output.specs.PagedSources.{AgreesWith, SourceShown, Stands};

    ghost Value = { SourceShown };

    ghost view = { λ s. record {
      live = s.source.live;
      room = s.source.room;
      refused = s.is_refused;
    } };

    ghost invariant = { λ s. (s.page.id ≡ s.source.live.setup.conn) × Stands s.page
        × (s.is_refused ≡ false → AgreesWith s.page s.source.live) };
}

/// The requests that wait at a source go. What they had.
#[tactic(auto, using(crate::proofs::Giving::gives_setup))]
fn drop_waiting(source: &mut Source) -> UnsentRequests
    ensures { source.new.live.setup ≡ source.old.live.setup }
{
    let mut unsent = UnsentRequests::none();
    for _ in 0..source.waiting() {
        if let Some((_, batch)) = source.next() {
            unsent.add(&batch);
        }
    }
    unsent
}

impl<J: Run> PagedSource<J> {
    /// A source that is not shut, as its page knows it.
    pub fn new(page: SourcePage<J>, source: Source) -> PagedSource<J>
        requires own { page.id ≡ source.live.setup.conn }
        requires known { page.is ≡ Some source.live }
        requires not_shut { source.live.shut ≡ false }
        ensures { result ≡ record { live = source.live; room = source.room; refused = false } }
    {
        PagedSource {
            page,
            source,
            is_refused: false,
        }
    }

    /// Its id.
    pub fn id(&self) -> u64
        ensures { result ≡ self.now.live.setup.conn }
    {
        self.page.id()
    }

    /// The source.
    pub fn now(&self) -> &Source
        ensures live { result.now.live ≡ self.now.live }
        ensures room { result.now.room ≡ self.now.room }
    {
        &self.source
    }

    /// Whether a request that it gave was refused.
    pub fn is_refused(&self) -> bool
        ensures { result ≡ self.now.refused }
    {
        self.is_refused
    }

    /// As `Source::piece`: more bytes come.
    pub fn piece(&mut self, alloc: Global, bytes: &[u8]) -> Result<Piece, AllocError>
        ensures answer { IfOk result (λ piece.
            piece ≡ live_piece_answer self.old.live bytes.now) }
        ensures live { OnOk result (self.new.live ≡ live_piece_next self.old.live bytes.now) }
        ensures err { OnErr result (self.new.live ≡ self.old.live) }
        ensures refused { self.new.refused ≡ self.old.refused }
    {
        let told = self.source.piece(alloc, bytes)?;
        self.page.heard(bytes);
        Ok(told.piece)
    }

    /// As `Source::drained`: the link took so many bytes of those that wait to be sent.
    pub fn drained(&mut self, count: usize)
        requires { count ≤ length self.old.live.unsent }
        ensures { self.new ≡ record self.old {
          live = source_drains self.old.live count;
          room = self.old.room + count;
        } }
    {
        self.source.drained(count);
    }

    /// As `Source::reserve`: makes room for answers of so many bytes in all.
    pub fn reserve(&mut self, bytes: usize) -> Result<(), AllocError>
        ensures same { self.new ≡ record self.old { room = self.new.room } }
        ensures ok { OnOk result (bytes ≤ self.new.room) }
        ensures room { self.old.room ≤ self.new.room }
        ensures err { OnErr result (self.new.room ≡ self.old.room) }
        ensures memory { OnErr result (self.old.room < bytes) }
    {
        self.source.reserve(bytes)
    }

    /// As `Source::answer`: puts bytes behind those that wait to be sent.
    pub fn answer(&mut self, bytes: &[u8]) -> Result<(), AnswerError>
        ensures ok { OnOk result (self.new ≡ record self.old {
          live = source_appends self.old.live bytes.now;
          room = self.new.room;
        }) }
        ensures room { OnOk result (self.old.room ≤ self.new.room + length bytes.now) }
        ensures closed { self.old.live.shut ≡ true → result ≡ Err AnswerError.Closed }
        ensures closed_only_once_shut { result ≡ Err AnswerError.Closed
            → self.old.live.shut ≡ true }
        ensures memory_only_without_room { result ≡ Err AnswerError.Memory
            → self.old.room < length bytes.now }
        ensures err { OnErr result (self.new ≡ self.old) }
    {
        self.source.answer(bytes)
    }

    /// Its first request that waits, which the routes lead there, enters an output at a moment
    /// (milliseconds): a ticket for it. It is refused as by `SharedOutput::admit`, and none is given
    /// then any more. Where none waits, or one was refused, it is refused as out of memory.
    pub fn enter<A: Tally<Run = J>, S: Tally, R: Wait>(
        &mut self,
        rt: &R,
        alloc: Global,
        seat: &mut A::Seat,
        entrance: Entrance<'_, A, S>,
        now: u64,
    ) -> Result<Ticket, AdmitRefusal>
        requires { (routes : List (List (List ℕ)))
            × (routes_at entrance.reached.now ≡ Some routes)
            × (first_route routes self.old.live ≡ Some entrance.number) }
        ensures entered { IfOk result (λ ticket.
            Entered self.old (ticket.origin, ticket.batch) self.new) }
        ensures output { IfOk result (λ ticket.
            ticket.setting.output ≡ entrance.entry.number) }
        ensures refused { IfErr result (λ why. IsKeptOut self.old why self.new) }
        ensures counted { IfOk result (λ ticket. A.count seat.new
            ≡ A.count seat.old + A.kept (length ticket.batch.entries)) }
        ensures same { OnErr result (A.count seat.new ≡ A.count seat.old) }
        ensures parts { A.parts seat.new ≡ A.parts seat.old }
    {
        if self.is_refused {
            return Err(AdmitRefusal::Memory);
        }
        let Some((origin, batch)) = self.source.next() else {
            return Err(AdmitRefusal::Memory);
        };
        self.page.after(entrance.reached);
        let request = RoutedRequest {
            output: entrance.number,
            origin,
            batch,
        };
        let (page, output) = (&mut self.page, entrance.output);
        match output.admit(rt, alloc, seat, page, request, now) {
            Ok(ticket) => Ok(ticket),
            Err((why, _)) => {
                self.is_refused = true;
                Err(why)
            }
        }
    }

    /// The relay ends, and none of its requests that wait is admitted any more. What they had.
    pub fn give_up(&mut self) -> UnsentRequests
        ensures gives_none { self.new.refused ≡ true }
        ensures own { self.new.live.setup ≡ self.old.live.setup }
    {
        self.is_refused = true;
        drop_waiting(&mut self.source)
    }

    /// A history of the run as it is known here and there. Of the receipts that an output gives
    /// after the one that is known there, each of this connection is of a request that was
    /// delivered, by the one that is known here.
    pub fn after(&mut self, given: &ReachedHistory<J>) -> ReachedHistory<J>
        ensures same { self.new ≡ self.old }
        ensures onward { Comes given.now result }
        ensures delivered { (setting : BookSetting) (receipts : List book.Receipt)
            (receipt : book.Receipt) → AreGivenAfter given.now setting receipts →
            Contains receipts receipt → receipt.origin.conn ≡ self.old.live.setup.conn →
            WasDelivered result setting.output receipt }
    {
        run_delivers(); // for the proof
        self.page.after(given)
    }
}

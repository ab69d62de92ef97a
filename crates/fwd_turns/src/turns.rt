//! The turns of a relay's readers. In a turn what is due is written
//! before anything is read, and connections are visited before new ones are taken, so that a place
//! that becomes free is given again.

ghost use Rattle.std.specs.Prelude.{IfOk};
ghost use Rattle.fwd_reader.specs.Ends.{AddUp};

use crate::acceptor::SourceSetup;
use crate::draining::DrainSeen;
use crate::event_queue::{EventQueue, QueueObserver};
use crate::front_reader::{FrontReader, PageMaker};
use crate::reader::{Pages, Reader, ReaderParts, Surroundings};
use fwd_chunks::Report;
use fwd_history::Run;
use fwd_monitors::{Observer, StartFault, TallyObserver};
use fwd_reader::reports_of;
use std::rt::Clock;
use std::sync::Wait;

/// The tickets of readers are handed in.
pub fn close_all<J: Run, R: Wait + Clock>(rt: &R, readers: Vec<Turns<'_, J, R>>) {
    let mut rest = readers.into_iter();
    while let Some(reader) = rest.next() {
        reader.close(rt);
    }
    rest.destroy_empty();
}

/// The turns of a reader of a relay. They must be spent: by `close`.
pub struct Turns<'a, J: Run, R: Clock> {
    reader: Reader<'a, J, R>,
    journal_events: &'a EventQueue,
    /// What it does beside, where it is in front.
    front: Option<FrontReader<'a>>,
}

impl<'a, J: Run, R: Wait + Clock> Turns<'a, J, R> {
    /// The turns of the reader that has these parts, and of what it does beside if it is in front.
    /// The only error is out of memory.
    pub fn new(
        rt: &'a R,
        around: Surroundings<'a, J>,
        parts: &'a mut ReaderParts<J>,
        journal_events: &'a EventQueue,
        front: Option<FrontReader<'a>>,
    ) -> Result<Turns<'a, J, R>, StartFault> {
        Ok(Turns {
            reader: Reader::new(rt, around, parts)?,
            journal_events,
            front,
        })
    }

    /// One turn, in this order. It waits until something is ready or told, at most 100 ms; hears
    /// what workers told, collects receipts of what they settled, for some milliseconds, tells the
    /// sources of those, and writes what is to be sent; reads connections that are ready, for some
    /// milliseconds or until workers tell more, a source at most 65,536 bytes, admits its whole
    /// requests, and serves monitors; in front takes the connections that wait, and hands the
    /// sources to readers; takes those that it was handed; closes those that had their time and did
    /// not show what they are, and one that gives its place where a new one found none; flushes
    /// what is due, and wakes workers for it; and in front sends the monitors that wait the page
    /// that was made. What is not done yet is done in a later turn. Where the relay was asked to
    /// stop it goes on with that behind the sources that come.
    ///
    /// What it comes to is counted, and told in front. It fails with `Poll` where the wait failed.
    pub fn turn(&mut self, rt: &R) -> Result<(), StartFault> {
        let mut observer = QueueObserver {
            rt,
            tally: self.reader.tally,
            journal_events: self.journal_events,
            inboxes: self.reader.inboxes,
        };
        self.turn_told(rt, None, &mut observer)
    }

    /// A turn, of which an observer is told that counts.
    fn turn_told<W: Observer>(
        &mut self,
        rt: &R,
        setup: Option<&mut SourceSetup<J>>,
        observer: &mut W,
    ) -> Result<(), StartFault> {
        self.reader.wait()?;
        let now = self.reader.moment();
        self.answer(rt, observer, now);
        self.read(rt, observer, now);
        self.tend(rt, setup, observer, now);
        let now = self.reader.moment();
        self.reader.tend_outputs(rt, observer, now);
        self.reader.pass_on();
        if let Some(front) = &mut self.front {
            front.tend_monitors(rt, &mut self.reader, observer, now);
        }
        self.reader.note();
        Ok(())
    }

    /// Hears what workers told, and tells sources of what those settled, at a moment
    /// (milliseconds).
    fn answer<W: Observer>(&mut self, rt: &R, observer: &mut W, now: u64) {
        let notices = self.reader.mailbox.take(rt, self.reader.alloc);
        if let Some(front) = &mut self.front {
            front.hear(rt, &self.reader, &notices, observer);
        }
        self.reader.answer(rt, &notices, observer, now);
    }

    /// Reads connections that are ready, at a moment (milliseconds).
    fn read<W: Observer>(&mut self, rt: &R, observer: &mut W, now: u64) {
        let pages = Pages {
            are_ordered: self.front.as_ref().is_some_and(|it| it.are_pages_ordered),
            figures: self.reader.figures(now),
        };
        self.reader.read(rt, observer, pages);
    }

    /// In front takes new connections; closes those that had their time, at a moment
    /// (milliseconds), and goes on with a stop that was asked for.
    fn tend<W: Observer>(
        &mut self,
        rt: &R,
        setup: Option<&mut SourceSetup<J>>,
        observer: &mut W,
        now: u64,
    ) {
        let Some(setup) = setup else {
            self.go_on(rt, observer, now);
            return self.reader.sweep(now);
        };
        self.reader.accept(rt, setup, observer, now);
        self.go_on(rt, observer, now);
        if let Some(front) = &mut self.front {
            front.drain.tend(rt, &mut self.reader, setup, observer, now);
        }
    }

    /// Takes the sources that it was handed, and closes those that had their time, at a moment
    /// (milliseconds).
    fn go_on<W: Observer>(&mut self, rt: &R, observer: &mut W, now: u64) {
        self.reader.take_sources(rt, observer, now);
        self.reader.close_late(rt, observer, now);
        self.reader.give_place(rt, observer, now);
    }

    /// So many turns, or until all are to end. Where a turn fails, all are to end.
    pub fn run(&mut self, rt: &R, turns: u64) -> Result<(), StartFault> {
        for _ in 0..turns {
            if self.reader.is_stopped() {
                break;
            }
            if let Err(fault) = self.turn(rt) {
                self.stop();
                return Err(fault);
            }
        }
        Ok(())
    }

    /// Hands in all tickets, writes what that has sources told, and abandons the tickets that are
    /// left. The connections stay.
    pub fn close(self, rt: &R) {
        let Turns {
            reader,
            journal_events,
            front,
        } = self;
        drop(front);
        let mut observer = QueueObserver {
            rt,
            tally: reader.tally,
            journal_events,
            inboxes: reader.inboxes,
        };
        reader.close(rt, &mut observer);
    }

    /// All readers and all workers are to end.
    pub fn stop(&self) {
        self.reader.mailbox.stop();
        self.reader.inboxes.call_all();
    }
}

/// The turns of the reader in front of a relay, which takes the sources that come. They must be
/// spent: by `close`. What gives sources their ids stays in the thread that makes these turns.
pub struct FrontTurns<'a, J: Run, R: Clock> {
    turns: Turns<'a, J, R>,
    setup: &'a mut SourceSetup<J>,
}

impl<'a, J: Run, R: Wait + Clock> FrontTurns<'a, J, R> {
    /// Those turns, and what sources that come are given.
    pub fn new(turns: Turns<'a, J, R>, setup: &'a mut SourceSetup<J>) -> FrontTurns<'a, J, R> {
        FrontTurns { turns, setup }
    }

    /// One turn, as `Turns::turn`.
    pub fn turn(&mut self, rt: &R) -> Result<(), StartFault> {
        self.turn_watched(rt, &mut ())
    }

    /// The same, and an observer is told what the turn comes to, and what the other readers' came
    /// to.
    pub fn turn_watched<W: Observer>(
        &mut self,
        rt: &R,
        observer: &mut W,
    ) -> Result<(), StartFault> {
        let mut counted = TallyObserver {
            rt,
            tally: self.turns.reader.tally,
            observer: &mut *observer,
        };
        self.turns
            .turn_told(rt, Some(&mut *self.setup), &mut counted)?;
        self.turns
            .journal_events
            .tell(rt, self.turns.reader.alloc, observer);
        observer.turned();
        Ok(())
    }

    /// So many turns in front, of which an observer is told, and first where the relay listens. It
    /// ends sooner where another reader failed, and where the relay was asked to stop and has
    /// nothing left to do, or no time.
    pub fn run_watched<W: Observer>(
        &mut self,
        rt: &R,
        observer: &mut W,
        turns: u64,
    ) -> Result<(), StartFault> {
        self.turns.reader.tell(observer);
        for _ in 0..turns {
            self.turn_watched(rt, observer)?;
            if self.turns.reader.is_stopped() || self.last_seen().is_some() {
                break;
            }
        }
        Ok(())
    }

    /// What makes pages in a thread of its own, where monitors are listened for.
    pub fn page_maker(&self) -> Option<PageMaker<'a, J>> {
        let front = self.turns.front.as_ref()?;
        front.page_maker(&self.turns.reader)
    }

    /// Pages are ordered from that thread from now on.
    pub fn order_pages(&mut self) {
        if let Some(front) = &mut self.turns.front {
            front.are_pages_ordered = true;
        }
    }

    /// What the reader in front saw of a relay that was asked to stop when it had nothing left to
    /// do, or no time.
    pub fn last_seen(&self) -> Option<DrainSeen> {
        self.turns.front.as_ref()?.drain.last()
    }

    /// What each output has to do with at this moment, in all and of each tag, in the settings'
    /// order. The only error is out of memory.
    pub fn reports(&self, rt: &R) -> Result<Vec<Report>, StartFault>
        ensures add_up { IfOk result (λ reports. AddUp reports.items) }
    {
        Ok(reports_of(rt, self.turns.reader.alloc, self.turns.reader.outputs)?)
    }

    /// All readers and all workers are to end.
    pub fn stop(&self) {
        self.turns.stop();
    }

    /// As `Turns::close`.
    pub fn close(self, rt: &R) {
        self.close_watched(rt, &mut ());
    }

    /// The same, and an observer is told of it, and of what the other readers told.
    pub fn close_watched<W: Observer>(self, rt: &R, observer: &mut W) {
        let FrontTurns { turns, setup: _ } = self;
        let Turns {
            reader,
            journal_events,
            front,
        } = turns;
        drop(front);
        let alloc = reader.alloc;
        reader.close(rt, observer);
        journal_events.tell(rt, alloc, observer);
    }
}

//! An output's calls, as a story makes them: on an output itself, and on one that is shared.

ghost use Rattle.std.specs.Prelude.{IfSome};
ghost use Rattle.std.specs.Arc.{arc_value};
ghost use Rattle.fwd_session.specs.ServerAcks.{IsServerAck};

use crate::batches::{ack_of, batch, drop_chunk, drop_session, left_as, login, terms};
use crate::idle_worker::{HoldingWorker, IdleWorker, MetWorker};
use crate::test_source::TestSource;
use crate::turns::abandon_all;
use fwd_base::Bytes;
use fwd_chunks::Carried;
use fwd_history::Run;
use fwd_model::{Counts, FlushKind, Origin, OwnedSalt};
use fwd_output::{AdmitRefusal, Collected, EndKind, OutputState, Plain, SharedOutput, Ticket};
use fwd_session::{Acked, LoadFailed, Session};
use std::alloc::{AllocError, Global};
use std::mem;
use std::sync::{Arc, Wait};

/// How a worker ends that took a chunk.
#[derive(Clone, Copy)]
pub enum Ending {
    /// Its chunk goes back, and no server is lost.
    Back,
    /// Its chunk goes back without a loss, and the first server is lost.
    BackFromLost,
    /// It loaded its chunk, which is lost with the first server.
    Lost,
}

/// An output's calls. It must be spent: by `close`.
pub trait Output {
    /// What a worker has that took a chunk. It must be spent.
    type Hand;

    fn counts(&mut self) -> Counts;

    /// The next request of a connection is admitted: how many runs its entries are in chunks.
    fn admit(&mut self, conn: u64, bytes: &[u8], now: u64) -> Result<usize, AdmitRefusal>;

    /// How many requests are told, and how many are still owed an answer.
    fn collect(&mut self) -> (usize, usize);

    /// Nobody is to be told any more of the request that was admitted first of those owed an
    /// answer, if there is one.
    fn abandon(&mut self) -> bool;

    fn flush(&mut self, now: u64, kind: FlushKind) -> usize;

    fn choose(&mut self, worker: u16, now: u64) -> Option<u16>;

    fn take(&mut self, worker: u16, now: u64) -> Option<Self::Hand>;

    /// The chunk that a worker took.
    fn chunk(hand: &Self::Hand) -> &Carried;

    /// The chunk is acknowledged by the first server: how many entries are settled.
    fn settle(&mut self, hand: Self::Hand) -> u64;

    fn end(&mut self, hand: Self::Hand, ending: Ending, now: u64);

    /// A server is lost, and no chunk.
    fn lose(&mut self, server: u16, now: u64);

    /// The output is no more.
    fn close(self);
}

/// The reply to a chunk, and the chunk.
fn acknowledged(alloc: Global, chunk: Carried) -> Option<(Arc<Acked>, Carried)>
    ensures { IfSome result (λ pair. IsServerAck (arc_value pair.0) pair.1) }
{
    let Ok(login) = login(alloc) else {
        drop_chunk(alloc, chunk);
        return None;
    };
    let Some(salt) = OwnedSalt::new(Bytes::new(alloc)) else {
        drop_chunk(alloc, chunk);
        return None;
    };
    let reply = ack_of(&chunk);
    let Ok(mut session) = Session::up(alloc, 0, login, salt, terms(1), 0) else {
        drop_chunk(alloc, chunk);
        return None;
    };
    if let Err(LoadFailed { chunk, error: _ }) = session.load(alloc, chunk, 0) {
        drop_chunk(alloc, chunk);
    }
    session.wrote(session.waiting() as usize);
    let _told = session.heard(alloc, &reply);
    let acked = session.acked();
    drop_session(alloc, session);
    acked
}

/// An output itself, which no history tells of.
#[derive(Drop)]
pub struct Bare {
    alloc: Global,
    state: OutputState,
    /// All requests that came, and those that are owed an answer.
    came: Vec<Origin>,
    owed: Vec<Origin>,
}

impl Bare {
    /// An output to which no request came.
    pub fn new(alloc: Global, state: OutputState) -> Bare {
        Bare {
            alloc,
            state,
            came: Vec::new(alloc),
            owed: Vec::new(alloc),
        }
    }

    /// The next request of a connection, whose numbers rise from 1.
    fn next(&mut self, conn: u64) -> Origin {
        let before = self.came.iter().filter(|it| it.conn == conn).count();
        let request = (before as u64).saturating_add(1);
        let origin = Origin { conn, request };
        let _ = self.came.push(origin);
        origin
    }

    /// A chunk is lost, and its server is not. No worker does that.
    pub fn lose_chunk(&mut self, chunk: Carried, now: u64) {
        let (taken, loaded) = left_as(self.alloc, chunk, true);
        self.state.end(taken, loaded, None, now);
    }
}

impl Output for Bare {
    type Hand = Carried;

    fn counts(&mut self) -> Counts {
        self.state.counts()
    }

    fn admit(&mut self, conn: u64, bytes: &[u8], now: u64) -> Result<usize, AdmitRefusal> {
        let Ok(batch) = batch(self.alloc, bytes) else {
            return Err(AdmitRefusal::Memory);
        };
        let origin = self.next(conn);
        if self.owed.reserve(1).is_err() {
            return Err(AdmitRefusal::Memory);
        }
        if self.state.holds(origin) {
            return Err(AdmitRefusal::NotNow);
        }
        match self.state.admit(self.alloc, origin, &batch, now) {
            Ok(admitted) => {
                self.owed.push_reserved(origin);
                Ok(admitted.spans.as_slice().len())
            }
            Err(error) => Err(AdmitRefusal::from(error)),
        }
    }

    fn collect(&mut self) -> (usize, usize) {
        let Ok(receipts) = self.state.collect(self.alloc, &self.owed) else {
            return (0, self.owed.len());
        };
        let state = &self.state;
        self.owed.retain(|origin| state.holds(*origin));
        (receipts.len(), self.owed.len())
    }

    fn abandon(&mut self) -> bool {
        if self.owed.is_empty() {
            return false;
        }
        let origin = self.owed.remove(0);
        self.state.forget(&[origin]) == 1
    }

    fn flush(&mut self, now: u64, kind: FlushKind) -> usize {
        self.state.flush(now, kind)
    }

    fn choose(&mut self, worker: u16, now: u64) -> Option<u16> {
        self.state.choose(worker, now)
    }

    fn take(&mut self, worker: u16, now: u64) -> Option<Carried> {
        match self.state.take(self.alloc, worker, now) {
            Ok(chunk) => chunk,
            Err(_) => None,
        }
    }

    fn chunk(hand: &Carried) -> &Carried {
        hand
    }

    fn settle(&mut self, hand: Carried) -> u64 {
        match acknowledged(self.alloc, hand) {
            Some((acked, chunk)) => self.state.settle(acked, chunk) as u64,
            None => 0,
        }
    }

    fn end(&mut self, hand: Carried, ending: Ending, now: u64) {
        let (is_lost, server) = match ending {
            Ending::Back => (false, None),
            Ending::BackFromLost => (false, Some(0)),
            Ending::Lost => (true, Some(0)),
        };
        let (taken, loaded) = left_as(self.alloc, hand, is_lost);
        self.state.end(taken, loaded, server, now);
    }

    fn lose(&mut self, server: u16, now: u64) {
        self.state
            .end(None, Vec::new(self.alloc), Some(server), now);
    }

    fn close(self) {}
}

/// The server of a worker's session is lost at a moment (milliseconds), and its chunk is lost with
/// it unless it goes back.
fn lose<J: Run, R: Wait>(
    rt: &R,
    shared: &SharedOutput<Plain<J>, Plain<J>>,
    met: MetWorker<J>,
    ending: Ending,
    now: u64,
) -> IdleWorker<J> {
    let met = match ending {
        Ending::Lost => met.load(),
        _ => met,
    };
    let (worker, _) = met.end(rt, &mut (), shared, EndKind::Lost, now);
    worker
}

/// An output behind its lock, with the sources and the workers of its run.
pub struct Behind<'a, R: Wait, J: Run> {
    rt: &'a R,
    alloc: Global,
    shared: SharedOutput<Plain<J>, Plain<J>>,
    sources: Vec<TestSource<J>>,
    /// The workers that have nothing.
    workers: Vec<IdleWorker<J>>,
    tickets: Vec<Ticket>,
}

impl<'a, R: Wait, J: Run> Behind<'a, R, J> {
    /// An output that gave no ticket, with its sources and its workers.
    pub fn new(
        rt: &'a R,
        alloc: Global,
        shared: SharedOutput<Plain<J>, Plain<J>>,
        sources: Vec<TestSource<J>>,
        workers: Vec<IdleWorker<J>>,
    ) -> Behind<'a, R, J> {
        Behind {
            rt,
            alloc,
            shared,
            sources,
            workers,
            tickets: Vec::new(alloc),
        }
    }

    /// The worker of this number, if it has nothing.
    fn worker(&mut self, number: u16) -> Option<IdleWorker<J>> {
        let place = self
            .workers
            .iter()
            .position(|worker| worker.number() == number)?;
        Some(self.workers.remove(place))
    }

    /// A worker has nothing any more.
    fn rest(&mut self, worker: IdleWorker<J>) {
        let _ = self.workers.push(worker);
    }
}

/// How many receipts were given, and the tickets that came back.
fn told_of<J: Run>(given: Result<Collected<J>, (AllocError, Vec<Ticket>)>) -> (usize, Vec<Ticket>) {
    match given {
        Ok((receipts, back, _reached)) => (receipts.len(), back),
        Err((_error, back)) => (0, back),
    }
}

/// A request of a connection is admitted at a moment (milliseconds), if there is such a connection.
fn ask<J: Run, R: Wait>(
    rt: &R,
    shared: &SharedOutput<Plain<J>, Plain<J>>,
    sources: &mut Vec<TestSource<J>>,
    request: (u64, &[u8]),
    now: u64,
) -> Result<Ticket, AdmitRefusal> {
    let (conn, bytes) = request;
    for source in sources {
        if source.id() == conn {
            return source.admit(rt, &mut (), shared, bytes, now);
        }
    }
    Err(AdmitRefusal::Memory)
}

/// How many of these tickets have receipts now, and how many come back.
fn hand_in<J: Run, R: Wait>(
    rt: &R,
    alloc: Global,
    shared: &SharedOutput<Plain<J>, Plain<J>>,
    tickets: &mut Vec<Ticket>,
) -> (usize, usize) {
    let all = mem::replace(tickets, Vec::new(alloc));
    let (told, back) = told_of(shared.collect(rt, alloc, all));
    let left = back.len();
    mem::replace(tickets, back).destroy_empty();
    (told, left)
}

impl<'a, R: Wait, J: Run> Output for Behind<'a, R, J> {
    type Hand = HoldingWorker<J>;

    fn counts(&mut self) -> Counts {
        self.shared.counts(self.rt)
    }

    fn admit(&mut self, conn: u64, bytes: &[u8], now: u64) -> Result<usize, AdmitRefusal> {
        if self.tickets.reserve(1).is_err() {
            return Err(AdmitRefusal::Memory);
        }
        let ticket = ask(self.rt, &self.shared, &mut self.sources, (conn, bytes), now)?;
        let runs = ticket.spans().len();
        self.tickets.push_reserved(ticket);
        Ok(runs)
    }

    fn collect(&mut self) -> (usize, usize) {
        hand_in(self.rt, self.alloc, &self.shared, &mut self.tickets)
    }

    fn abandon(&mut self) -> bool {
        if self.tickets.is_empty() {
            return false;
        }
        let ticket = self.tickets.remove(0);
        self.shared.abandon(self.rt, ticket);
        true
    }

    fn flush(&mut self, now: u64, kind: FlushKind) -> usize {
        self.shared.flush(self.rt, now, kind)
    }

    fn choose(&mut self, worker: u16, now: u64) -> Option<u16> {
        self.shared.choose(self.rt, worker, now)
    }

    fn take(&mut self, worker: u16, now: u64) -> Option<HoldingWorker<J>> {
        let worker = self.worker(worker)?;
        match worker.take(self.rt, self.alloc, &mut (), &self.shared, now) {
            Ok(holding) => Some(holding),
            Err(worker) => {
                self.rest(worker);
                None
            }
        }
    }

    fn chunk(hand: &HoldingWorker<J>) -> &Carried {
        hand.chunk()
    }

    fn settle(&mut self, hand: HoldingWorker<J>) -> u64 {
        let reply = ack_of(hand.chunk());
        let (worker, count) = match hand.meet() {
            Ok(met) => met
                .load()
                .hear(&reply)
                .end(self.rt, &mut (), &self.shared, EndKind::Kept, 0),
            Err(holding) => (holding.put_back(self.rt, &mut (), &self.shared, 0), 0),
        };
        self.rest(worker);
        count
    }

    fn end(&mut self, hand: HoldingWorker<J>, ending: Ending, now: u64) {
        let (rt, shared) = (self.rt, &self.shared);
        let worker = match ending {
            Ending::Back => hand.put_back(rt, &mut (), shared, now),
            Ending::BackFromLost | Ending::Lost => match hand.meet() {
                Ok(met) => lose(rt, shared, met, ending, now),
                Err(holding) => holding.put_back(rt, &mut (), shared, now),
            },
        };
        self.rest(worker);
    }

    fn lose(&mut self, server: u16, now: u64) {
        self.shared.lose(self.rt, self.alloc, server, now);
    }

    fn close(self) {
        let Behind {
            rt,
            alloc: _,
            shared,
            sources: _,
            workers: _,
            tickets,
        } = self;
        abandon_all(rt, &shared, tickets);
    }
}

//! A worker: it takes chunks from its output, sends them to a server, and settles what the server
//! acknowledged.

ghost use Rattle.std.specs.Prelude.{◌≡◌, ◌≤◌, ◌+◌, [], None};
ghost use Rattle.fwd_workers.specs.Placed.{Becomes, Stands, held, with};
ghost use Rattle.fwd_workers.specs.Working.{IsEarned, accepted_at, entries_in};

mod connecting;
mod settling;
mod taking;

use crate::doubts::Doubts;
use crate::gating::place;
use crate::serve::ROOM;
use crate::turn_context::{Outside, TurnContext};
use crate::upstream::WorkerState;
use crate::upstream_end::finish;
use fwd_chunks::FlushKind;
use fwd_environment::{Clock, Gate, Hub, Pass, WorkerEvent};
use fwd_handshake::Login;
use fwd_history::Run;
use fwd_output::{SharedOutput, Tally};
use fwd_run::WorkerPage;
use fwd_session::AckTerms;
use rand_chacha::ChaCha20Rng;
use std::alloc::Global;
use std::sync::{Arc, Wait};

/// How a worker's run ended. Only `Worker::run` makes one.
#[derive(Clone, Copy)]
pub struct WorkerEnd {
    is_stopped: bool,
}

impl WorkerEnd {
    /// Whether the gate stopped it. Else it made all its turns.
    pub fn is_stopped(self) -> bool {
        self.is_stopped
    }
}

/// What a worker begins sessions by: what it proves to servers, and how it waits for
/// acknowledgements.
#[derive(Drop)]
pub struct SessionTerms {
    pub login: Arc<Login>,
    pub acks: AckTerms,
    /// How many servers its output has.
    pub servers: u16,
}

/// A worker of an output.
#[derive(Drop)]
pub(crate) struct Worker<J: Run> {
    /// Its page in the history of the run: between its runs the worker has nothing by it.
    pub(crate) page: WorkerPage<J>,
    alloc: Global,
    terms: SessionTerms,
    rng: ChaCha20Rng,
    /// Where it gathers what it writes, and reads: it is made at the first run, and stays empty
    /// where memory is refused.
    room: Vec<u8>,
    /// The server that its last chunk was loaded for, or before the first the one that it tried.
    last: Option<u16>,
    /// What the turn came to, until it is told.
    event: Option<WorkerEvent>,
    doubts: Doubts,
}

impl<J: Run> Worker<J> {
    /// The worker whose page this is. It draws the salts of its logins from the generator.
    pub fn new(alloc: Global, page: WorkerPage<J>, terms: SessionTerms, rng: ChaCha20Rng) -> Self
        ensures page { result.page ≡ page }
        ensures terms { result.terms ≡ terms }
    {
        Worker {
            page,
            alloc,
            terms,
            rng,
            room: Vec::new(alloc),
            last: None,
            event: None,
            doubts: Doubts::none(),
        }
    }

    /// Makes the room for what is written and read, where there is memory.
    fn make_room(&mut self)
        ensures { self.new ≡ record self.old { room = self.new.room } }
    {
        if self.room.is_empty() {
            let _ = self.room.resize(ROOM, 0);
        }
    }

    /// Takes chunks that are free or due, sends them to servers and settles what they acknowledged,
    /// in so many turns, or until the gate stops it. It closes open chunks only if it takes one of
    /// them. While the window has room it
    /// loads what is free beside what is not acknowledged yet, unless it is to try another server,
    /// and waits for no reply before that. A session ends at a fault, where its link is closed or
    /// fails, where it is late, and when out of memory; a link that cannot be had is a loss of its
    /// server. A server that closes a session behind an acknowledgement, and owes nothing, is not
    /// lost. Behind the loss of a chunk the worker seeks a server at once, and takes the chunk when
    /// it is free; with none loaded it goes to the server that it is to try. At the end each
    /// accepted chunk is settled, and those that are taken or loaded go back. No more entries count
    /// than those chunks have that were acknowledged over links of the hub.
    pub fn run<A: Tally<Run = J>, S: Tally, H: Hub, G: Gate, C: Clock, R: Wait>(
        &mut self,
        rt: &R,
        out: &SharedOutput<A, S>,
        seat: S::Seat,
        hub: &mut H,
        gate: &mut G,
        clock: &mut C,
        turns: u64,
    ) -> (S::Seat, WorkerEnd)
        requires { Stands self.old.page (with None None) self.old.terms }
        ensures page { self.new.page ≡ self.old.page }
        ensures terms { self.new.terms ≡ self.old.terms }
        ensures count { S.count seat ≤ S.count result.0 }
        ensures most { ∥ IsEarned (λ link. H.Line.calls link) (λ n. S.kept n) (S.count seat)
            (S.count result.0) ∥₁ }
        ensures parts { S.parts result.0 ≡ S.parts seat }
    {
        self.make_room();
        let mut seat = seat;
        let mut state: WorkerState<H::Line> = WorkerState::Idle;
        for turn in 0..turns {
            let pass = match place(&state) {
                None => Pass::Go,
                Some(place) => gate.pass(rt, self.page.worker(), place, turn),
            };
            let now = clock.now();
            let closes = gate.closes(self.page.worker());
            let context = TurnContext {
                rt,
                out,
                now,
                closes,
            };
            match pass {
                Pass::Go => {
                    let mut outside = Outside {
                        hub: &mut *hub,
                        clock: &mut *clock,
                    };
                    state = self.step(&context, &mut seat, &mut outside, state);
                    self.tell(rt, gate);
                }
                Pass::Hold => {}
                Pass::Stop => {
                    finish(&context, &mut seat, &mut self.page, state);
                    return (seat, WorkerEnd { is_stopped: true });
                }
            }
        }
        let now = clock.now();
        let context = TurnContext {
            rt,
            out,
            now,
            closes: FlushKind::Due,
        };
        finish(&context, &mut seat, &mut self.page, state);
        (seat, WorkerEnd { is_stopped: false })
    }

    /// The gate is told what the turn came to.
    fn tell<G: Gate, R: Wait>(&mut self, rt: &R, gate: &mut G)
        ensures { self.new
            ≡ record self.old { event = self.new.event; doubts = self.new.doubts } }
    {
        if let Some(denial) = self.doubts.denial.take() {
            gate.hear_denial(rt, self.page.worker(), denial);
        }
        if let Some(event) = self.event.take() {
            gate.hear(rt, self.page.worker(), event);
        }
        if let Some(refused) = self.doubts.refused.take() {
            gate.hear_refused(rt, self.page.worker(), refused);
        }
    }

    /// One turn from where the worker stands. Only what was acknowledged before is settled.
    fn step<A: Tally<Run = J>, S: Tally, H: Hub, C: Clock, R: Wait>(
        &mut self,
        context: &TurnContext<'_, A, S, R>,
        seat: &mut S::Seat,
        outside: &mut Outside<'_, H, C>,
        state: WorkerState<H::Line>,
    ) -> WorkerState<H::Line>
        requires { Stands self.old.page (held state) self.old.terms }
        ensures has { Becomes self.old.page self.new.page (held result) }
        ensures terms { self.new.terms ≡ self.old.terms }
        ensures same { accepted_at state ≡ [] → seat.new ≡ seat.old }
        ensures count { S.count seat.old ≤ S.count seat.new }
        ensures most { S.count seat.new
            ≤ S.count seat.old + S.kept (entries_in (accepted_at state)) }
        ensures parts { S.parts seat.new ≡ S.parts seat.old }
    {
        match state {
            WorkerState::Idle => self.begin(context, seat, outside),
            WorkerState::Seeking => self.seek(context, seat, outside),
            WorkerState::Sought(free) => self.take_first(context, seat, free),
            WorkerState::Standing(free) => self.take_next(context, seat, outside, free),
            WorkerState::Took(free, chunk) => self.load(context, seat, free, chunk),
            WorkerState::Added(roomy, chunk) => self.load_more(context, seat, roomy, chunk),
            WorkerState::Loaded(upstream) => self.settle(context, seat, upstream),
            WorkerState::Settled(upstream) => self.go_on(context, seat, upstream),
        }
    }
}

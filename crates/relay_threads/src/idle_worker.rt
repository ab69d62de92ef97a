//! Workers of a run that a test moves by hand: what each has, its page has too.

ghost use Rattle.std.specs.Prelude.{◌≡◌, Some, None, [], option_map, IfSome};
ghost use Rattle.std.specs.Arc.{arc_value};
ghost use Rattle.fwd_session.specs.Live.{live_acked, session_begins, session_unloads};
ghost use Rattle.fwd_session.specs.ServerAcks.{IsServerAck};
ghost use Rattle.fwd_workers.specs.Placed.{Becomes, IsFirst, Moves, Stands, with};

use fwd_base::Bytes;
use fwd_chunks::Carried;
use fwd_history::Run;
use fwd_model::OwnedSalt;
use fwd_output::{EndKind, Leaving, SharedOutput, Tally, leave};
use fwd_run::WorkerPage;
use fwd_session::{Acked, LoadFailed, Session};
use fwd_workers::{PlacedWorker, SessionTerms};
use rand_chacha::ChaCha20Rng;
use rand_core::SeedableRng;
use std::alloc::Global;
use std::marker::Model;
use std::sync::{Arc, Wait};

/// A worker that has nothing. Contracts see what its page knows.
#[derive(Drop)]
pub struct IdleWorker<J: Run> {
    page: WorkerPage<J>,
    terms: SessionTerms,
}

impl<J: Run> Model for IdleWorker<J> {
    ghost use Rattle.std.specs.Prelude.{Some, None};
    ghost use Rattle.fwd_run.specs.Pages.{WorkerKnown};
    ghost use Rattle.fwd_workers.specs.Placed.{Stands, with};

    ghost Value = { WorkerKnown };

    ghost view = { λ w. w.page };

    ghost invariant = { λ w. Stands w.page (with None None) w.terms };
}

impl<J: Run> IdleWorker<J> {
    /// The worker of this page, which begins sessions by these terms.
    pub fn new(page: WorkerPage<J>, terms: SessionTerms) -> IdleWorker<J>
        requires { Stands page (with None None) terms }
    {
        IdleWorker { page, terms }
    }

    /// Its number.
    pub fn number(&self) -> u16 {
        self.page.worker()
    }

    /// Its page, which it does not need any more.
    pub fn into_page(self) -> WorkerPage<J> {
        let IdleWorker { page, terms: _ } = self;
        page
    }

    /// The same as a worker that runs by itself, whose random numbers begin at a seed of zeros.
    pub fn placed(self, alloc: Global) -> PlacedWorker<J> {
        let IdleWorker { page, terms } = self;
        PlacedWorker::new(alloc, page, terms, ChaCha20Rng::from_seed([0; 32]))
    }

    /// It takes a free chunk at a moment (milliseconds), if there is one.
    pub fn take<A: Tally<Run = J>, S: Tally, R: Wait>(
        self,
        rt: &R,
        alloc: Global,
        seat: &mut S::Seat,
        out: &SharedOutput<A, S>,
        now: u64,
    ) -> Result<HoldingWorker<J>, IdleWorker<J>> {
        let IdleWorker { mut page, terms } = self;
        match out.take(rt, alloc, seat, &mut page, now) {
            Ok(Some(chunk)) => Ok(HoldingWorker {
                alloc,
                page,
                terms,
                chunk,
            }),
            Ok(None) => Err(IdleWorker { page, terms }),
            Err(_) => Err(IdleWorker { page, terms }),
        }
    }
}

/// A session with the first server begins by these terms at moment 0, unless memory is refused for
/// it.
fn session_by(alloc: Global, terms: &SessionTerms) -> Option<Session>
    ensures { IfSome result (λ session. session ≡ session_begins (record {
      server = 0;
      login = arc_value terms.now.login;
      salt = [];
      ack_wait = terms.now.acks.ack_wait;
      window = terms.now.acks.window;
      start = 0;
    })) }
{
    let login = Arc::try_clone(&terms.login).ok()?;
    let salt = OwnedSalt::new(Bytes::new(alloc))?;
    Session::up(alloc, 0, login, salt, terms.acks, 0).ok()
}

/// A worker that took a chunk. It must be spent.
pub struct HoldingWorker<J: Run> {
    alloc: Global,
    page: WorkerPage<J>,
    terms: SessionTerms,
    chunk: Carried,
}

impl<J: Run> Model for HoldingWorker<J> {
    ghost use Rattle.std.specs.Prelude.{Some, None};
    ghost use Rattle.fwd_run.specs.Pages.{WorkerKnown};
    ghost use Rattle.fwd_workers.specs.Placed.{Stands, with};

    ghost Value = { WorkerKnown };

    ghost view = { λ w. w.page };

    ghost invariant = { λ w. Stands w.page (with (Some w.chunk) None) w.terms };
}

impl<J: Run> HoldingWorker<J> {
    /// Its chunk.
    pub fn chunk(&self) -> &Carried {
        &self.chunk
    }

    /// Its chunk goes back at a moment (milliseconds), without a loss.
    pub fn put_back<A: Tally<Run = J>, S: Tally, R: Wait>(
        self,
        rt: &R,
        seat: &mut S::Seat,
        out: &SharedOutput<A, S>,
        now: u64,
    ) -> IdleWorker<J> {
        let HoldingWorker {
            alloc,
            mut page,
            terms,
            chunk,
        } = self;
        let leaving = Leaving {
            kind: EndKind::Kept,
            taken: Some(chunk),
            loaded: Vec::new(alloc),
            server: None,
        };
        out.end(rt, seat, &mut page, leaving, now);
        IdleWorker { page, terms }
    }

    /// It begins a session with the first server, unless memory is refused for it.
    pub fn meet(self) -> Result<MetWorker<J>, HoldingWorker<J>> {
        if self.terms.servers == 0 {
            return Err(self);
        }
        let Some(session) = session_by(self.alloc, &self.terms) else {
            return Err(self);
        };
        let HoldingWorker {
            alloc,
            mut page,
            terms,
            chunk,
        } = self;
        page.up(0, &[], 0);
        Ok(MetWorker {
            alloc,
            page,
            terms,
            taken: Some(chunk),
            session,
        })
    }
}

/// The chunk that a worker took goes into its session at moment 0, where there is room and memory
/// for it. Answers what it took still.
fn load<J: Run>(
    alloc: Global,
    page: &mut WorkerPage<J>,
    session: &mut Session,
    taken: Option<Carried>,
) -> Option<Carried>
    requires { page.old.has ≡ Some (with taken (Some session.old)) }
    ensures { Becomes page.old page.new (with result (Some session.new)) }
{
    let chunk = taken?;
    if session.room() == 0 {
        return Some(chunk);
    }
    match session.load(alloc, chunk, 0) {
        Ok(()) => {
            page.load(0);
            None
        }
        Err(LoadFailed { chunk, error: _ }) => Some(chunk),
    }
}

/// All that waits in a session is sent.
fn send<J: Run>(page: &mut WorkerPage<J>, session: &mut Session)
    ensures { Moves page.old page.new session.old session.new }
{
    let count = session.waiting();
    session.wrote(count as usize);
    page.wrote(count);
}

/// A session hears bytes, unless it is down, or memory is refused for them.
fn hear<J: Run>(alloc: Global, page: &mut WorkerPage<J>, session: &mut Session, bytes: &[u8])
    ensures { Moves page.old page.new session.old session.new }
{
    if session.is_down() {
        return;
    }
    if session.heard(alloc, bytes).is_ok() {
        page.heard(bytes);
    }
}

/// Takes out the chunk of a session that was accepted first of those that are acknowledged, with
/// what is kept of it.
fn unload(session: &mut Session) -> Option<(Arc<Acked>, Carried)>
    ensures chunk { option_map (λ pair. pair.1) result ≡ live_acked session.old }
    ensures backed { IfSome result (λ pair. IsServerAck (arc_value pair.0) pair.1) }
    ensures first { IfSome result (λ pair. IsFirst session.old (arc_value pair.0) pair.1) }
    ensures next { session.new ≡ session_unloads session.old }
{
    session.acked()
}

/// A worker with a session, and the chunk that it took where it did not load it. It must be spent.
pub struct MetWorker<J: Run> {
    alloc: Global,
    page: WorkerPage<J>,
    terms: SessionTerms,
    taken: Option<Carried>,
    session: Session,
}

impl<J: Run> Model for MetWorker<J> {
    ghost use Rattle.std.specs.Prelude.{Some, None};
    ghost use Rattle.fwd_run.specs.Pages.{WorkerKnown};
    ghost use Rattle.fwd_workers.specs.Placed.{Stands, with};

    ghost Value = { WorkerKnown };

    ghost view = { λ w. w.page };

    ghost invariant = { λ w. Stands w.page (with w.taken (Some w.session)) w.terms };
}

impl<J: Run> MetWorker<J> {
    /// Its chunk goes into its session at moment 0, where there is room and memory for it.
    pub fn load(self) -> MetWorker<J> {
        let MetWorker {
            alloc,
            mut page,
            terms,
            taken,
            mut session,
        } = self;
        let taken = load(alloc, &mut page, &mut session, taken);
        MetWorker {
            alloc,
            page,
            terms,
            taken,
            session,
        }
    }

    /// All that waits is sent, and the server says this.
    pub fn hear(self, reply: &[u8]) -> MetWorker<J> {
        let MetWorker {
            alloc,
            mut page,
            terms,
            taken,
            mut session,
        } = self;
        send(&mut page, &mut session);
        hear(alloc, &mut page, &mut session, reply);
        MetWorker {
            alloc,
            page,
            terms,
            taken,
            session,
        }
    }

    /// Its session ends at a moment (milliseconds): what is acknowledged is settled, and the rest
    /// goes back. The worker, and how many entries were settled.
    pub fn end<A: Tally<Run = J>, S: Tally, R: Wait>(
        self,
        rt: &R,
        seat: &mut S::Seat,
        out: &SharedOutput<A, S>,
        kind: EndKind,
        now: u64,
    ) -> (IdleWorker<J>, u64) {
        let MetWorker {
            alloc: _,
            mut page,
            terms,
            taken,
            mut session,
        } = self;
        let mut count = 0u64;
        while let Some((acked, chunk)) = unload(&mut session) {
            let settled = out.settle(rt, seat, &mut page, acked, chunk);
            count = count.saturating_add(settled);
        }
        let leaving = leave(session, taken, kind);
        out.end(rt, seat, &mut page, leaving, now);
        (IdleWorker { page, terms }, count)
    }
}

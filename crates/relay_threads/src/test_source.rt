//! Sources of a run whose requests come from memory.

ghost use Rattle.std.specs.Prelude.{◌≡◌, Some, IfOk, vec_len};
ghost use Rattle.std.specs.Arc.{arc_value};
ghost use Rattle.fwd_output.specs.PagedSources.{first_route};
ghost use Rattle.fwd_run.specs.Runs.{routes_at};

use anyhow::{Result, bail};
use fwd_handshake::{Nonces, Security};
use fwd_history::Run;
use fwd_match::Routes;
use fwd_msgpack::Limits;
use fwd_output::{AdmitRefusal, Entrance, PagedSource, SharedOutput, Tally, Ticket};
use fwd_run::{ReachedHistory, SourceIds};
use fwd_source::Source;
use std::alloc::Global;
use std::sync::{Arc, Wait};

/// Where the sources of a run come from.
#[derive(Drop)]
pub struct Sources<J: Run> {
    alloc: Global,
    ids: SourceIds<J>,
    security: Arc<Security>,
    limits: Limits,
    routes: Arc<Routes>,
    reached: ReachedHistory<J>,
    ghost proved: { ids.security ≡ Some (arc_value security) },
    ghost limited: { ids.limits ≡ Some limits },
    ghost routed: { routes_at reached ≡ Some (arc_value routes) },
}

/// What a source is accepted with: a nonce and an auth salt, which it needs for no key.
const NONCES: Nonces = Nonces {
    nonce: [0; 16],
    auth: [0; 16],
};

impl<J: Run> Sources<J> {
    /// The sources with these ids, which prove this and have these limits. Their requests go by
    /// these routes, which a history of the run has.
    pub fn new(
        alloc: Global,
        ids: SourceIds<J>,
        security: Arc<Security>,
        routed: (Arc<Routes>, ReachedHistory<J>),
        limits: Limits,
    ) -> Sources<J>
        requires proved { ids.security ≡ Some (arc_value security) }
        requires limited { ids.limits ≡ Some limits }
        requires routed { routes_at routed.1 ≡ Some (arc_value routed.0) }
    {
        let (routes, reached) = routed;
        Sources {
            alloc,
            ids,
            security,
            limits,
            routes,
            reached,
        }
    }

    /// The source with the next id. The ids rise from 1.
    pub fn source(&mut self) -> Result<TestSource<J>> {
        let security = Arc::try_clone(&self.security)?;
        let routes = Arc::try_clone(&self.routes)?;
        let Some(page) = self.ids.accept(NONCES.nonce, NONCES.auth) else {
            bail!("no id is left");
        };
        let Ok(source) = Source::new(self.alloc, page.id(), security, NONCES, self.limits) else {
            bail!("no memory");
        };
        Ok(TestSource {
            alloc: self.alloc,
            source: PagedSource::new(page, source),
            routes,
            reached: self.reached.again(),
        })
    }

    /// The next sources, so many.
    pub fn take(&mut self, count: u16) -> Result<Vec<TestSource<J>>>
        ensures { IfOk result (λ sources. vec_len sources ≡ count) }
    {
        let mut sources = Vec::new(self.alloc);
        for _ in 0..count {
            sources.push(self.source()?)?;
        }
        Ok(sources)
    }
}

/// A source whose requests come from memory.
#[derive(Drop)]
pub struct TestSource<J: Run> {
    alloc: Global,
    source: PagedSource<J>,
    routes: Arc<Routes>,
    reached: ReachedHistory<J>,
    ghost routed: { routes_at reached ≡ Some (arc_value routes) },
}

impl<J: Run> TestSource<J> {
    /// Its id.
    pub fn id(&self) -> u64 {
        self.source.id()
    }

    /// The output that its first request goes to that waits, if one waits.
    fn route(&self) -> Option<u16>
        ensures { result ≡ first_route (arc_value self.now.routes) self.now.source.live }
    {
        let (_, batch) = self.source.now().peek()?;
        self.routes.first(batch.tag())
    }

    /// The bytes of a request come, and it enters its output at a moment (milliseconds): a ticket
    /// for it. Where memory is refused for it, or it is not whole, none enters.
    pub fn admit<A: Tally<Run = J>, S: Tally, R: Wait>(
        &mut self,
        rt: &R,
        seat: &mut A::Seat,
        out: &SharedOutput<A, S>,
        bytes: &[u8],
        now: u64,
    ) -> Result<Ticket, AdmitRefusal>
        ensures { A.parts seat.new ≡ A.parts seat.old }
    {
        if self.source.piece(self.alloc, bytes).is_err() {
            return Err(AdmitRefusal::Memory);
        }
        let Some(number) = self.route() else {
            return Err(AdmitRefusal::Memory);
        };
        let entrance = Entrance {
            output: out,
            number,
            reached: &self.reached,
        };
        self.source.enter(rt, self.alloc, seat, entrance, now)
    }
}

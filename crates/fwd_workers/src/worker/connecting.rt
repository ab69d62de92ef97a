//! How a worker comes to a session: which server it connects to, with a chunk or without.

ghost use Rattle.std.specs.Prelude.{
  ◌≡◌,
  ◌≢◌,
  [],
  Option,
  Some,
  None,
  Ok,
  Err,
  true,
  false,
  IfOk,
  IfErr,
  IfSome,
  IsOk,
  IsErr,
  nat_lt,
  option_map,
};
ghost use Rattle.std.specs.Arc.{arc_value};
ghost use Rattle.fwd_handshake.specs.Draws.{hex_drawn};
ghost use Rattle.fwd_chunks.specs.History.{CarriedChunk};
ghost use Rattle.fwd_session.specs.Live.{LiveSession, session_begins};
ghost use Rattle.fwd_model.specs.Layers.{Worker as Place};
ghost use Rattle.fwd_model.specs.Step.{with_session};
ghost use Rattle.fwd_output.specs.Looks.{IsForUse, may_look};
ghost use Rattle.fwd_output.specs.declared.offer.Offer.{Offer};
ghost use Rattle.fwd_output.specs.declared.server_view.ServerView.{ServerView};
ghost use Rattle.fwd_workers.specs.Choosing.{asked_of};
ghost use Rattle.fwd_workers.specs.Doubting.{doubts_begin};
ghost use Rattle.fwd_workers.specs.Endings.{unmet_news};
ghost use Rattle.fwd_workers.specs.Placed.{Becomes, Stands, held, with};
ghost use Rattle.fwd_workers.specs.Working.{Begins, HasBegun, HasSought, setup_by};

use super::Worker;
use crate::ending::NoSession;
use crate::next_chunk::Sight;
use crate::own_session::OwnSession;
use crate::turn_context::{Outside, TurnContext};
use crate::upstream::{IdleUpstream, WorkerState};
use crate::upstream_end::give_back;
use crate::upstream_turn::free_upstream;
use fwd_base::Bytes;
use fwd_chunks::Carried;
use fwd_environment::{Clock, Hub, Link, LinkFault};
use fwd_handshake::draw_salt;
use fwd_history::Run;
use fwd_output::{ChunkUse, Found, Leaving, ServerView, Tally};
use fwd_session::{OwnedSalt, Session};
use std::alloc::{AllocError, Global};
use std::sync::{Arc, Wait};

/// What a worker sees of its output that seeks a server.
struct Seeking {
    view: ServerView,
    /// The server that is to be asked once more, if one is.
    asks: Option<u16>,
}

/// A session that is to begin over its link, and the salt of its login.
pub(super) struct Met<L: Link> {
    free: IdleUpstream<L>,
    salt: [u8; 32],
}

/// The server that is to be asked once more, if what was found is a free chunk that does not go
/// elsewhere.
fn asked_by(found: Found, server: u16) -> Option<u16>
    requires { (view : ServerView) × IsForUse found view (ChunkUse.Ask server) }
    ensures asked { result ≡ asked_of found server }
    ensures passed { IfSome result (λ asked. (asked ≡ server)
        × ((offer : Offer) × (found ≡ Found.Passed offer))) }
{
    match found {
        Found::Passed(offer) if offer.away_from(server).is_none() => Some(server),
        Found::Passed(_) | Found::Nothing => None,
        Found::Took(_picked) => unreachable!(),
    }
}

impl<J: Run> Worker<J> {
    /// Takes a chunk where there is a server to try, and begins a session with it. A server that is
    /// not known to work is tried with a chunk that was not lost, where there is one, and a chunk
    /// that was lost goes to a server that works, where there is one. What another worker claims is
    /// left to it.
    pub(super) fn begin<A: Tally<Run = J>, S: Tally, H: Hub, C: Clock, R: Wait>(
        &mut self,
        context: &TurnContext<'_, A, S, R>,
        seat: &mut S::Seat,
        outside: &mut Outside<'_, H, C>,
    ) -> WorkerState<H::Line>
        requires { Stands self.old.page (with None None) self.old.terms }
        ensures same { seat.new ≡ seat.old }
        ensures has { Becomes self.old.page self.new.page (held result) }
        ensures terms { self.new.terms ≡ self.old.terms }
        ensures begun { HasBegun result (setup_by (arc_value self.old.terms.login)
            (hex_drawn 0 4 self.old.rng) self.old.terms.acks context.entry.now.now) }
    {
        let Sight { view, found } = self.look_for(context, seat, ChunkUse::Begin);
        let picked = match found {
            Found::Took(picked) => picked,
            Found::Nothing | Found::Passed(_) => return WorkerState::Idle,
        };
        let Some(server) = view.server else {
            unreachable!()
        };
        let server = view.server_with(&picked.offer, server);
        let chunk = self.note(picked);
        match self.meet(context, outside.hub, server) {
            Ok(met) => {
                self.doubts.begin();
                WorkerState::Took(self.begins(met, context.now), chunk)
            }
            Err(why) => {
                self.lose_unmet(context, seat, outside, why, Some(chunk), server);
                WorkerState::Idle
            }
        }
    }

    /// Begins a session without a chunk: with the server that just lost one, where another is free,
    /// and else with the one to try, or before it with one that is known to work. Where the output
    /// holds nothing, there is nothing to seek a server for.
    pub(super) fn seek<A: Tally<Run = J>, S: Tally, H: Hub, C: Clock, R: Wait>(
        &mut self,
        context: &TurnContext<'_, A, S, R>,
        seat: &mut S::Seat,
        outside: &mut Outside<'_, H, C>,
    ) -> WorkerState<H::Line>
        requires { Stands self.old.page (with None None) self.old.terms }
        ensures same { seat.new ≡ seat.old }
        ensures has { Becomes self.old.page self.new.page (held result) }
        ensures terms { self.new.terms ≡ self.old.terms }
        ensures sought { HasSought result (setup_by (arc_value self.old.terms.login)
            (hex_drawn 0 4 self.old.rng) self.old.terms.acks context.entry.now.now) }
    {
        if context.out.counts(context.rt).held == 0 {
            return WorkerState::Idle;
        }
        let Seeking { view, asks } = self.to_ask(context, seat);
        if let Some(server) = asks {
            return self.ask(context, outside, server);
        }
        let Some(server) = view.server else {
            return WorkerState::Seeking;
        };
        match self.try_server(context, seat, outside, view.server_for_lost(server)) {
            Some(free) => WorkerState::Sought(free),
            None => WorkerState::Seeking,
        }
    }

    /// What a worker sees that seeks a server, and the server that is to be asked once more though
    /// its wait is not over, where a chunk is free to ask it with. That chunk stays free, for any
    /// worker, until the session is ready. No clause can see through the lock that one is free: it
    /// is tested.
    fn to_ask<A: Tally<Run = J>, S: Tally, R: Wait>(
        &mut self,
        context: &TurnContext<'_, A, S, R>,
        seat: &mut S::Seat,
    ) -> Seeking
        requires { self.old.page.has ≡ Some (with None None) }
        ensures same { seat.new ≡ seat.old }
        ensures has { Becomes self.old.page self.new.page (with None None) }
        ensures kept { self.new
            ≡ record self.old { doubts = self.new.doubts; page = self.new.page } }
        ensures asked { IfSome result.asks (λ server. (self.old.doubts.ask ≡ Some server)
            × (self.new.doubts.ask ≡ None)
            × (may_look result.view (ChunkUse.Ask server) ≡ true)) }
        ensures none { result.asks ≡ None → self.new.doubts ≡ self.old.doubts }
    {
        let Some(server) = self.doubts.ask else {
            let view = context
                .out
                .server_view(context.rt, self.page.worker(), context.now);
            return Seeking { view, asks: None };
        };
        let Sight { view, found } = self.look_for(context, seat, ChunkUse::Ask(server));
        let asks = asked_by(found, server);
        if asks.is_some() {
            self.doubts.ask = None;
        }
        Seeking { view, asks }
    }

    /// A session begins with a server that is asked once more. Where none can be had, nothing more
    /// is known of it than before: that is no loss, and is not told.
    fn ask<A: Tally<Run = J>, S: Tally, H: Hub, C: Clock, R: Wait>(
        &mut self,
        context: &TurnContext<'_, A, S, R>,
        outside: &mut Outside<'_, H, C>,
        server: u16,
    ) -> WorkerState<H::Line>
        requires { Stands self.old.page (with None None) self.old.terms }
        ensures has { Becomes self.old.page self.new.page (held result) }
        ensures terms { self.new.terms ≡ self.old.terms }
        ensures sought { HasSought result (setup_by (arc_value self.old.terms.login)
            (hex_drawn 0 4 self.old.rng) self.old.terms.acks context.entry.now.now) }
    {
        match self.meet(context, outside.hub, server) {
            Ok(met) => {
                self.doubts.is_asking = true;
                WorkerState::Sought(self.begins(met, context.now))
            }
            Err(_) => WorkerState::Seeking,
        }
    }

    /// A session begins with a server, without a chunk. A server that cannot be reached is lost,
    /// which is told.
    pub(super) fn try_server<A: Tally<Run = J>, S: Tally, H: Hub, C: Clock, R: Wait>(
        &mut self,
        context: &TurnContext<'_, A, S, R>,
        seat: &mut S::Seat,
        outside: &mut Outside<'_, H, C>,
        server: u16,
    ) -> Option<IdleUpstream<H::Line>>
        requires { Stands self.old.page (with None None) self.old.terms }
        ensures same { seat.new ≡ seat.old }
        ensures has { Becomes self.old.page self.new.page (with None
            (option_map (λ free. free.upstream.session) result)) }
        ensures terms { self.new.terms ≡ self.old.terms }
        ensures begun { IfSome result (λ free. (free.upstream.ending ≡ None)
            × (free.upstream.session ≡ session_begins (setup_by (arc_value self.old.terms.login)
            (hex_drawn 0 4 self.old.rng) self.old.terms.acks context.entry.now.now server))) }
        ensures tries { IfSome result (λ free. self.new.doubts ≡ doubts_begin self.old.doubts) }
    {
        match self.meet(context, outside.hub, server) {
            Ok(met) => {
                self.doubts.begin();
                Some(self.begins(met, context.now))
            }
            Err(why) => {
                self.lose_unmet(context, seat, outside, why, None, server);
                None
            }
        }
    }

    /// A session begins that its worker met, at the turn's moment (milliseconds).
    pub(super) fn begins<L: Link>(&mut self, met: Met<L>, now: u64) -> IdleUpstream<L>
        requires stands { (taken : Option CarriedChunk)
            × Stands self.old.page (with taken None) self.old.terms }
        requires known { nat_lt met.free.upstream.session.setup.server self.old.terms.servers
            ≡ true }
        requires begun { met.free.upstream.session ≡ session_begins (setup_by
            (arc_value self.old.terms.login) met.salt self.old.terms.acks now
            met.free.upstream.session.setup.server) }
        ensures same { result ≡ met.free }
        ensures has { (x : Place LiveSession) → self.old.page.has ≡ Some x → Becomes
            self.old.page self.new.page (with_session x result.upstream.session) }
        ensures kept { self.new ≡ record self.old { page = self.new.page } }
    {
        let Met { free, salt } = met;
        self.page.up(free.upstream.session.server(), &salt, now);
        free
    }

    /// No session began with a server, which is told. What its worker took for it goes back, at the
    /// moment that it is now, and the server is lost if it is to blame.
    fn lose_unmet<A: Tally<Run = J>, S: Tally, H: Hub, C: Clock, R: Wait>(
        &mut self,
        context: &TurnContext<'_, A, S, R>,
        seat: &mut S::Seat,
        outside: &mut Outside<'_, H, C>,
        why: NoSession,
        taken: Option<Carried>,
        server: u16,
    )
        requires stands { Stands self.old.page (with taken None) self.old.terms }
        requires known { (fault : _) → why ≡ NoSession.Link fault
            → nat_lt server self.old.terms.servers ≡ true }
        ensures same { seat.new ≡ seat.old }
        ensures has { Becomes self.old.page self.new.page (with None None) }
        ensures terms { self.new.terms ≡ self.old.terms }
        ensures doubts { self.new.doubts ≡ self.old.doubts }
    {
        self.tell_unmet(why, server);
        let now = outside.clock.now();
        match why {
            NoSession::Link(_) => {
                self.page.up(server, &[], now);
                let leaving = why.leaving(self.alloc, taken, server);
                give_back(context, seat, &mut self.page, leaving, now);
            }
            NoSession::Memory | NoSession::Unknown => {
                let leaving = why.leaving(self.alloc, taken, server);
                self.give_up(context, seat, leaving, now);
            }
        }
    }

    /// What a worker without a session took goes back, if it took a chunk, at a moment
    /// (milliseconds).
    fn give_up<A: Tally<Run = J>, S: Tally, R: Wait>(
        &mut self,
        context: &TurnContext<'_, A, S, R>,
        seat: &mut S::Seat,
        leaving: Leaving,
        now: u64,
    )
        requires has { self.old.page.has ≡ Some (with leaving.taken None) }
        requires none { (leaving.loaded.items ≡ []) × (leaving.server ≡ None) }
        ensures same { seat.new ≡ seat.old }
        ensures has { Becomes self.old.page self.new.page (with None None) }
        ensures kept { self.new ≡ record self.old { page = self.new.page } }
    {
        if leaving.taken.is_some() {
            give_back(context, seat, &mut self.page, leaving, now);
            return;
        }
        let Leaving {
            kind: _,
            taken,
            loaded,
            server: _,
        } = leaving;
        loaded.destroy_empty();
        match taken {
            None => {}
            Some(_chunk) => unreachable!(),
        }
    }

    /// No session began with a server, which is told. A worker that goes to another one is to tell
    /// that, also where it sent no chunk yet.
    pub(super) fn tell_unmet(&mut self, why: NoSession, server: u16)
        ensures told { self.new.event ≡ unmet_news why server }
        ensures first { self.old.last ≡ None → self.new.last ≡ Some server }
        ensures later { IfSome self.old.last (λ last. self.new.last ≡ Some last) }
        ensures kept { self.new
            ≡ record self.old { event = self.new.event; last = self.new.last } }
    {
        self.event = why.event(server);
        self.last = self.last.or(Some(server));
    }

    /// A link to a server, and a session that is to begin on it at the turn's moment.
    pub(super) fn meet<A: Tally<Run = J>, S: Tally, H: Hub, R: Wait>(
        &mut self,
        context: &TurnContext<'_, A, S, R>,
        hub: &mut H,
        server: u16,
    ) -> Result<Met<H::Line>, NoSession>
        ensures begun { IfOk result (λ met. met.free.upstream.session
            ≡ session_begins (setup_by (arc_value self.old.terms.login) (hex_drawn 0 4 self.old.rng)
            self.old.terms.acks context.entry.now.now server)) }
        ensures salt { IfOk result (λ met. met.salt ≡ hex_drawn 0 4 self.old.rng) }
        ensures on { IfOk result (λ met. met.free.upstream.ending ≡ None) }
        ensures kept { self.new ≡ record self.old { rng = self.new.rng } }
        ensures known { IfOk result (λ met. nat_lt server self.old.terms.servers ≡ true) }
        ensures blamed { IfErr result (λ why. (fault : _) → why ≡ NoSession.Link fault
            → nat_lt server self.old.terms.servers ≡ true) }
        ensures unmet { IfErr result (λ why. why ≢ NoSession.Link LinkFault.Memory) }
    {
        if server >= self.terms.servers {
            return Err(NoSession::Unknown);
        }
        let link = match hub.connect(context.rt, server) {
            Ok(link) => link,
            Err(fault) => return Err(NoSession::of(fault)),
        };
        let salt = draw_salt(&mut self.rng);
        let session = match begun(self.up(server, &salt, context.now)) {
            Ok(session) => session,
            Err(why) => return Err(why),
        };
        let free = free_upstream(link, session);
        Ok(Met { free, salt })
    }

    /// A session with a server begins at a moment (milliseconds), with this salt, which is 32
    /// hexadecimal digits. The only error is out of memory.
    fn up(&self, server: u16, salt: &[u8; 32], now: u64) -> Result<OwnSession, AllocError>
        ensures { IfOk result (λ session. session ≡ session_begins (record {
          server = server;
          login = arc_value self.now.terms.login;
          salt = salt.now;
          ack_wait = self.now.terms.acks.ack_wait;
          window = self.now.terms.acks.window;
          start = now;
        })) }
    {
        let login = Arc::try_clone(&self.terms.login)?;
        let owned = owned_salt(self.alloc, salt)?;
        let session = Session::up(self.alloc, server, login, owned, self.terms.acks, now)?;
        OwnSession::new(self.alloc, session)
    }
}

/// The salt of a login: 32 hexadecimal digits. The only error is out of memory.
fn owned_salt(alloc: Global, salt: &[u8; 32]) -> Result<OwnedSalt, AllocError>
    ensures { IfOk result (λ owned. owned ≡ salt.now) }
{
    let bytes = Bytes::from_slice(alloc, salt)?;
    match OwnedSalt::new(bytes) {
        Some(owned) => Ok(owned),
        None => unreachable!(),
    }
}

/// The session that was to begin on a link: no server is to blame where memory was refused for it.
fn begun(session: Result<OwnSession, AllocError>) -> Result<OwnSession, NoSession>
    ensures same { IfOk result (λ s. session ≡ Ok s) }
    ensures had { IsOk session → IsOk result }
    ensures memory { IsErr session → result ≡ Err NoSession.Memory }
{
    match session {
        Ok(session) => Ok(session),
        Err(_) => Err(NoSession::Memory),
    }
}

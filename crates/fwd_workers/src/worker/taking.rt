//! How a worker takes a chunk for the session that it has, and loads it there.

ghost use Rattle.std.specs.Prelude.{◌≡◌, ◌⊎◌, Some, None, true, false, is_some, IfSome};
ghost use Rattle.std.specs.Arc.{arc_value};
ghost use Rattle.fwd_handshake.specs.Draws.{hex_drawn};
ghost use Rattle.fwd_output.specs.Looks.{IsForUse};
ghost use Rattle.fwd_output.specs.Paged.{MayTake, Takes, taken_of};
ghost use Rattle.fwd_workers.specs.Choosing.{HasGoneOver, HasStayed, IsKeptOrLeft};
ghost use Rattle.fwd_workers.specs.Endings.{news_of, went_of};
ghost use Rattle.fwd_workers.specs.Placed.{Becomes, Moves, Stands, held, with};
ghost use Rattle.fwd_workers.specs.Working.{
  IsTended,
  HasGone,
  HasLoaded,
  HasLoadedMore,
  HasTakenFirst,
  HasTakenNext,
  setup_by,
};

use super::Worker;
use crate::denial::denial_in;
use crate::ending::{EndReason, NoSession};
use crate::next_chunk::{Sight, Way, look_for, way_of};
use crate::turn_context::{Outside, TurnContext};
use crate::upstream::{IdleUpstream, UpstreamWithRoom, WorkerState};
use crate::upstream_end::end_free;
use crate::upstream_turn::{allow_close, ended, serve_free, to_end};
use fwd_chunks::Carried;
use fwd_environment::{Clock, Hub, Link, LossReason, WorkerEvent};
use fwd_history::Run;
use fwd_output::{ChunkUse, Found, PickedChunk, Tally};
use fwd_session::LoadFailed;
use std::mem;
use std::sync::Wait;

impl<J: Run> Worker<J> {
    /// What the worker finds for this use in its output. Chunks that are due are closed only if it
    /// takes one of them, so that entries go on joining them while no worker can send them. That it
    /// takes for this worker no clause can see through the lock: it is tested.
    pub(super) fn look_for<A: Tally<Run = J>, S: Tally, R: Wait>(
        &mut self,
        context: &TurnContext<'_, A, S, R>,
        seat: &mut S::Seat,
        chunk_use: ChunkUse,
    ) -> Sight
        requires { MayTake self.old.page self.old.page.output }
        ensures takes { Takes self.old.page (taken_of result.found) self.new.page }
        ensures kept { self.new ≡ record self.old { page = self.new.page } }
        ensures fits { IsForUse result.found result.view chunk_use }
        ensures same { seat.new ≡ seat.old }
    {
        look_for(context, self.alloc, seat, &mut self.page, chunk_use)
    }

    /// A chunk that was taken, and how often it was lost is noted.
    pub(super) fn note(&mut self, picked: PickedChunk) -> Carried
        ensures chunk { result ≡ picked.chunk }
        ensures kept { self.new ≡ record self.old { doubts = self.new.doubts } }
        ensures noted { self.new.doubts ≡ record self.old.doubts { losses = picked.offer.losses } }
    {
        let PickedChunk { chunk, offer } = picked;
        self.doubts.losses = offer.losses;
        chunk
    }

    /// An upstream without a chunk is kept, unless it is to end.
    pub(super) fn stand<A: Tally<Run = J>, S: Tally, L: Link, R: Wait>(
        &mut self,
        context: &TurnContext<'_, A, S, R>,
        seat: &mut S::Seat,
        free: IdleUpstream<L>,
    ) -> WorkerState<L>
        requires { self.old.page.has ≡ Some (with None (Some free.upstream.session)) }
        ensures has { Becomes self.old.page self.new.page (held result) }
        ensures terms { self.new.terms ≡ self.old.terms }
        ensures same { seat.new ≡ seat.old }
        ensures stands { free.upstream.ending ≡ None → (result ≡ WorkerState.Standing free)
            × (free.upstream.session.down ≡ false) × (self.new.event ≡ self.old.event) }
        ensures ends { IfSome free.upstream.ending (λ why. (result ≡ WorkerState.Idle)
            × (self.new.event ≡ news_of why free.upstream.session.setup.server 0)) }
    {
        match free.upstream.ending {
            None => WorkerState::Standing(free),
            Some(ending) => {
                self.tell_end(ending, free.upstream.session.server());
                end_free(context, seat, &mut self.page, free, None);
                WorkerState::Idle
            }
        }
    }

    /// A session with a server ended without a chunk, which is told, and what the server said why,
    /// where it did not let the relay in.
    fn tell_end(&mut self, ending: EndReason, server: u16)
        ensures told { self.new.event ≡ news_of ending server 0 }
        ensures kept { self.new
            ≡ record self.old { event = self.new.event; doubts = self.new.doubts } }
    {
        self.event = ending.event(server, 0);
        self.doubts.denial = denial_in(ending, server, &self.room);
    }

    /// Claims a chunk for the session that was sought, once that is ready, and takes it, whatever
    /// server the worker is to try by then: else it would go again where it was lost. Where the
    /// output holds nothing any more, the session stands. Where it ends its server is lost, and the
    /// worker seeks on.
    pub(super) fn take_first<A: Tally<Run = J>, S: Tally, L: Link, R: Wait>(
        &mut self,
        context: &TurnContext<'_, A, S, R>,
        seat: &mut S::Seat,
        free: IdleUpstream<L>,
    ) -> WorkerState<L>
        requires { self.old.page.has ≡ Some (with None (Some free.upstream.session)) }
        ensures has { Becomes self.old.page self.new.page (held result) }
        ensures terms { self.new.terms ≡ self.old.terms }
        ensures same { seat.new ≡ seat.old }
        ensures taken { free.upstream.ending ≡ None → HasTakenFirst result self.new.event
            free.upstream.session context.entry.now.now (L.calls free.upstream.link) }
    {
        let leaves = mem::replace(&mut self.doubts.leaves, false);
        if leaves || context.out.counts(context.rt).held == 0 {
            return WorkerState::Standing(free);
        }
        let free = self.serve_free(context, free);
        if let Some(ending) = free.upstream.ending {
            let server = free.upstream.session.server();
            self.miss(context, server);
            self.tell_end(ending, server);
            end_free(context, seat, &mut self.page, free, None);
            return WorkerState::Seeking;
        }
        if !free.upstream.session.is_ready() {
            return WorkerState::Sought(free);
        }
        context.out.claim(context.rt, context.now);
        let own = ChunkUse::Keep(free.upstream.session.server());
        let Sight { view: _, found } = self.look_for(context, seat, own);
        self.keep_or_leave(context, free, found)
    }

    /// The session that was sought, which is ready, has the chunk that was found for it, and the
    /// claim is over. A chunk that was lost there and is to go elsewhere was passed by, and the
    /// worker leaves the session for it in its next turn.
    fn keep_or_leave<A: Tally<Run = J>, S: Tally, L: Link, R: Wait>(
        &mut self,
        context: &TurnContext<'_, A, S, R>,
        free: IdleUpstream<L>,
        found: Found,
    ) -> WorkerState<L>
        ensures kept { IsKeptOrLeft result free found self.new.doubts.leaves }
        ensures quiet { self.new ≡ record self.old { doubts = self.new.doubts } }
        ensures has { held result ≡ with (taken_of found) (Some free.upstream.session) }
    {
        match found {
            Found::Nothing => WorkerState::Sought(free),
            Found::Passed(_) => {
                context.out.release(context.rt);
                self.doubts.leaves = true;
                WorkerState::Sought(free)
            }
            Found::Took(picked) => {
                context.out.release(context.rt);
                self.doubts.errand = None;
                WorkerState::Took(free, self.note(picked))
            }
        }
    }

    /// A session ended before it had a chunk. The chunk that it was sought for, if it was lost
    /// elsewhere, counts as lost there too.
    fn miss<A: Tally<Run = J>, S: Tally, R: Wait>(
        &mut self,
        context: &TurnContext<'_, A, S, R>,
        server: u16,
    )
        ensures { self.new ≡ record self.old { doubts = self.new.doubts } }
    {
        if let Some(chunk) = self.doubts.errand.take() {
            context.out.miss(context.rt, chunk, server);
        }
    }

    /// Takes a chunk for the session that stands, unless the server closed it. Where the worker is
    /// to try another server for the chunk, that stays free, for any worker, until there is a
    /// session with the other server that is ready. What another worker claims is left to it.
    pub(super) fn take_next<A: Tally<Run = J>, S: Tally, H: Hub, C: Clock, R: Wait>(
        &mut self,
        context: &TurnContext<'_, A, S, R>,
        seat: &mut S::Seat,
        outside: &mut Outside<'_, H, C>,
        free: IdleUpstream<H::Line>,
    ) -> WorkerState<H::Line>
        requires { Stands self.old.page (with None (Some free.upstream.session)) self.old.terms }
        ensures has { Becomes self.old.page self.new.page (held result) }
        ensures terms { self.new.terms ≡ self.old.terms }
        ensures same { seat.new ≡ seat.old }
        ensures taken { free.upstream.ending ≡ None → HasTakenNext result self.new.event
            free.upstream.session context.entry.now.now (H.Line.calls free.upstream.link)
            (setup_by (arc_value self.old.terms.login) (hex_drawn 0 4 self.old.rng)
            self.old.terms.acks context.entry.now.now) }
    {
        let free = allow_close(self.serve_free(context, free));
        if free.upstream.ending.is_some() || !free.upstream.session.is_ready() {
            return self.stand(context, seat, free);
        }
        let own = free.upstream.session.server();
        let Sight { view, found } = self.look_for(context, seat, ChunkUse::Follow(own));
        match found {
            Found::Nothing => WorkerState::Standing(free),
            Found::Took(picked) => WorkerState::Took(free, self.note(picked)),
            Found::Passed(offer) => match way_of(view, offer, own) {
                Some(way) => self.go_over(context, seat, outside, free, way),
                None => unreachable!(),
            },
        }
    }

    /// A turn of an upstream without a chunk.
    fn serve_free<A: Tally<Run = J>, S: Tally, L: Link, R: Wait>(
        &mut self,
        context: &TurnContext<'_, A, S, R>,
        free: IdleUpstream<L>,
    ) -> IdleUpstream<L>
        ensures turn { free.upstream.ending ≡ None → IsTended free.upstream.session
            result.upstream.session context.entry.now.now (L.calls free.upstream.link)
            (L.calls result.upstream.link) result.upstream.ending }
        ensures over { is_some free.upstream.ending ≡ true
            → result.upstream.ending ≡ free.upstream.ending }
        ensures moves { Moves self.old.page self.new.page free.upstream.session
            result.upstream.session }
        ensures kept { self.new
            ≡ record self.old { room = self.new.room; page = self.new.page } }
    {
        serve_free(
            context.rt,
            self.alloc,
            &mut self.room,
            &mut self.page,
            free,
            context.now,
        )
    }

    /// Leaves the session that stands for one with another server, where one can be had.
    fn go_over<A: Tally<Run = J>, S: Tally, H: Hub, C: Clock, R: Wait>(
        &mut self,
        context: &TurnContext<'_, A, S, R>,
        seat: &mut S::Seat,
        outside: &mut Outside<'_, H, C>,
        free: IdleUpstream<H::Line>,
        way: Way,
    ) -> WorkerState<H::Line>
        requires on { free.upstream.ending ≡ None }
        requires stands { Stands self.old.page (with None (Some free.upstream.session))
            self.old.terms }
        ensures has { Becomes self.old.page self.new.page (held result) }
        ensures terms { self.new.terms ≡ self.old.terms }
        ensures same { seat.new ≡ seat.old }
        ensures gone { HasGoneOver result free (setup_by (arc_value self.old.terms.login)
            (hex_drawn 0 4 self.old.rng) self.old.terms.acks context.entry.now.now way.server) }
    {
        let met = match self.meet(context, outside.hub, way.server) {
            Ok(met) => met,
            Err(why) => {
                self.tell_unmet(why, way.server);
                self.blame(context, outside, why, way.server);
                return self.stay(context, seat, free, way);
            }
        };
        self.doubts.begin();
        if way.was_lost_here {
            self.doubts.errand = Some(way.chunk);
        }
        end_free(context, seat, &mut self.page, free, None);
        WorkerState::Sought(self.begins(met, context.now))
    }

    /// A server that is to blame is lost, at the moment that it is now.
    fn blame<A: Tally<Run = J>, S: Tally, H: Hub, C: Clock, R: Wait>(
        &mut self,
        context: &TurnContext<'_, A, S, R>,
        outside: &mut Outside<'_, H, C>,
        why: NoSession,
        server: u16,
    )
        ensures { self.new ≡ self.old }
    {
        let now = outside.clock.now();
        if let NoSession::Link(_) = why {
            let _ = context.out.lose(context.rt, self.alloc, server, now);
        }
    }

    /// No session could be had in place of the one that stands. A chunk that was lost here counts
    /// as lost there too: it may go to a third server. Else the session that stands takes what is
    /// free for it.
    fn stay<A: Tally<Run = J>, S: Tally, L: Link, R: Wait>(
        &mut self,
        context: &TurnContext<'_, A, S, R>,
        seat: &mut S::Seat,
        free: IdleUpstream<L>,
        way: Way,
    ) -> WorkerState<L>
        requires { self.old.page.has ≡ Some (with None (Some free.upstream.session)) }
        ensures has { Becomes self.old.page self.new.page (held result) }
        ensures terms { self.new.terms ≡ self.old.terms }
        ensures same { seat.new ≡ seat.old }
        ensures stays { HasStayed result free }
        ensures leaves { way.was_lost_here ≡ true → result ≡ WorkerState.Standing free }
    {
        if way.was_lost_here {
            context.out.miss(context.rt, way.chunk, way.server);
            return WorkerState::Standing(free);
        }
        let own = ChunkUse::Keep(free.upstream.session.server());
        let Sight { view: _, found } = self.look_for(context, seat, own);
        match found {
            Found::Took(picked) => WorkerState::Took(free, self.note(picked)),
            Found::Nothing | Found::Passed(_) => WorkerState::Standing(free),
        }
    }

    /// Loads the chunk that was taken, once the session is ready; until then the session is served.
    pub(super) fn load<A: Tally<Run = J>, S: Tally, L: Link, R: Wait>(
        &mut self,
        context: &TurnContext<'_, A, S, R>,
        seat: &mut S::Seat,
        free: IdleUpstream<L>,
        chunk: Carried,
    ) -> WorkerState<L>
        requires { self.old.page.has ≡ Some (with (Some chunk) (Some free.upstream.session)) }
        ensures has { Becomes self.old.page self.new.page (held result) }
        ensures terms { self.new.terms ≡ self.old.terms }
        ensures same { seat.new ≡ seat.old }
        ensures loaded { free.upstream.ending ≡ None
            → HasLoaded result free.upstream.session chunk context.entry.now.now }
        ensures gone { HasGone result self.old.last self.new.last self.new.event }
    {
        if free.upstream.ending.is_some() || !free.upstream.session.is_ready() {
            let free = self.serve_free(context, free);
            return self.wait_for(context, seat, free, chunk);
        }
        let IdleUpstream { mut upstream } = free;
        let suspect = self
            .doubts
            .suspect(context, upstream.session.server(), &chunk);
        match upstream.session.load(self.alloc, chunk, context.now) {
            Ok(()) => {
                self.page.load(context.now);
                self.doubts.load(suspect);
                self.go_to(upstream.session.server());
                WorkerState::Loaded(upstream)
            }
            Err(LoadFailed { chunk, error: _ }) => {
                let free = to_end(
                    IdleUpstream { upstream },
                    EndReason::Lost(LossReason::Memory),
                );
                self.wait_for(context, seat, free, chunk)
            }
        }
    }

    /// Loads the chunk that was taken, beside those that the session has.
    pub(super) fn load_more<A: Tally<Run = J>, S: Tally, L: Link, R: Wait>(
        &mut self,
        context: &TurnContext<'_, A, S, R>,
        seat: &mut S::Seat,
        roomy: UpstreamWithRoom<L>,
        chunk: Carried,
    ) -> WorkerState<L>
        requires { self.old.page.has ≡ Some (with (Some chunk) (Some roomy.upstream.session)) }
        ensures has { Becomes self.old.page self.new.page (held result) }
        ensures terms { self.new.terms ≡ self.old.terms }
        ensures same { seat.new ≡ seat.old }
        ensures loaded { HasLoadedMore result self.new.event roomy.upstream.session chunk
            context.entry.now.now }
        ensures gone { HasGone result self.old.last self.new.last self.new.event }
    {
        let UpstreamWithRoom { mut upstream } = roomy;
        match upstream.session.load(self.alloc, chunk, context.now) {
            Ok(()) => {
                self.page.load(context.now);
                self.go_to(upstream.session.server());
                WorkerState::Loaded(upstream)
            }
            Err(LoadFailed { chunk, error: _ }) => {
                let why = EndReason::Lost(LossReason::Memory);
                self.lose(context, seat, ended(upstream, why), why, Some(chunk))
            }
        }
    }

    /// A chunk goes to a server, which is told where the last one went to another.
    fn go_to(&mut self, server: u16)
        ensures told { self.new.event ≡ went_of self.old.last server }
        ensures last { self.new.last ≡ Some server }
        ensures kept { self.new
            ≡ record self.old { event = self.new.event; last = self.new.last } }
    {
        self.event = match self.last {
            Some(last) if last != server => Some(WorkerEvent::Went { server }),
            _ => None,
        };
        self.last = Some(server);
    }

    /// A chunk waits for its session, unless that is to end; then the chunk goes back.
    fn wait_for<A: Tally<Run = J>, S: Tally, L: Link, R: Wait>(
        &mut self,
        context: &TurnContext<'_, A, S, R>,
        seat: &mut S::Seat,
        free: IdleUpstream<L>,
        chunk: Carried,
    ) -> WorkerState<L>
        requires { self.old.page.has ≡ Some (with (Some chunk) (Some free.upstream.session)) }
        ensures has { Becomes self.old.page self.new.page (held result) }
        ensures terms { self.new.terms ≡ self.old.terms }
        ensures same { seat.new ≡ seat.old }
        ensures waits { free.upstream.ending ≡ None → (result ≡ WorkerState.Took free chunk)
            × (self.new.event ≡ self.old.event) }
        ensures last { self.new.last ≡ self.old.last }
        ensures ends { IfSome free.upstream.ending (λ why. (result ≡ WorkerState.Idle)
            × (self.new.event ≡ news_of why free.upstream.session.setup.server 0)) }
    {
        match free.upstream.ending {
            None => WorkerState::Took(free, chunk),
            Some(ending) => {
                self.tell_end(ending, free.upstream.session.server());
                end_free(context, seat, &mut self.page, free, Some(chunk));
                WorkerState::Idle
            }
        }
    }
}

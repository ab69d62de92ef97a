//! What a worker does with a session that has chunks: it serves it, settles what was acknowledged,
//! adds chunks, and loses what its end left over.

ghost use Rattle.std.specs.Prelude.{◌≡◌, ◌≤◌, ◌+◌, [], None, Some, true, false, length, nat_lt};
ghost use Rattle.fwd_session.specs.Live.{live_acked};
ghost use Rattle.fwd_workers.specs.Choosing.{is_added};
ghost use Rattle.fwd_workers.specs.Doubting.{doubts_lose};
ghost use Rattle.fwd_workers.specs.Endings.{news_of};
ghost use Rattle.fwd_workers.specs.Placed.{Becomes, held, with};
ghost use Rattle.fwd_workers.specs.Working.{HasAdded, HasGoneOn, HasLost, HasSettled, next_entries};

use super::Worker;
use crate::ending::EndReason;
use crate::next_chunk::Sight;
use crate::turn_context::TurnContext;
use crate::upstream::{IdleUpstream, Upstream, UpstreamWithRoom, WorkerState};
use crate::upstream_end::{lose_upstream, settle_upstream};
use crate::upstream_turn::{serve, to_end};
use fwd_chunks::Carried;
use fwd_environment::Link;
use fwd_history::Run;
use fwd_output::{ChunkUse, Found, Tally};
use std::sync::Wait;

impl<J: Run> Worker<J> {
    /// Settles the chunk that was accepted first, and no other; until one is, the session is
    /// served, and a chunk more is taken where one may be added. Where the session ends its chunks
    /// are lost, and the worker seeks a server while they wait.
    pub(super) fn settle<A: Tally<Run = J>, S: Tally, L: Link, R: Wait>(
        &mut self,
        context: &TurnContext<'_, A, S, R>,
        seat: &mut S::Seat,
        upstream: Upstream<L>,
    ) -> WorkerState<L>
        requires { self.old.page.has ≡ Some (with None (Some upstream.session)) }
        ensures has { Becomes self.old.page self.new.page (held result) }
        ensures terms { self.new.terms ≡ self.old.terms }
        ensures same { upstream.session.accepted ≡ [] → seat.new ≡ seat.old }
        ensures settled { HasSettled result upstream.session }
        ensures lost { upstream.ending ≡ None → HasLost result self.new.event upstream.session
            context.entry.now.now (L.calls upstream.link) }
        ensures count { S.count seat.old ≤ S.count seat.new }
        ensures most { S.count seat.new
            ≤ S.count seat.old + S.kept (next_entries (live_acked upstream.session)) }
        ensures parts { S.parts seat.new ≡ S.parts seat.old }
    {
        let mut upstream = upstream;
        if upstream.session.is_acked() {
            self.doubts.settle();
            self.event = settle_upstream(context, seat, &mut self.page, &mut upstream);
            return WorkerState::Settled(upstream);
        }
        let adds = upstream.may_add();
        let upstream = serve(
            context.rt,
            self.alloc,
            &mut self.room,
            &mut self.page,
            upstream,
            context.now,
        );
        if upstream.session.is_acked() {
            return WorkerState::Loaded(upstream);
        }
        match upstream.ending {
            Some(ending) => self.lose(context, seat, upstream, ending, None),
            None if adds => self.add(context, seat, upstream),
            None => WorkerState::Loaded(upstream),
        }
    }

    /// A session ends with chunks that are not acknowledged: they are lost, and the one that may
    /// have been taken for it goes back. The worker seeks a server while they wait.
    pub(super) fn lose<A: Tally<Run = J>, S: Tally, L: Link, R: Wait>(
        &mut self,
        context: &TurnContext<'_, A, S, R>,
        seat: &mut S::Seat,
        upstream: Upstream<L>,
        why: EndReason,
        taken: Option<Carried>,
    ) -> WorkerState<L>
        requires settled { upstream.session.accepted ≡ [] }
        requires has { self.old.page.has ≡ Some (with taken (Some upstream.session)) }
        ensures has { Becomes self.old.page self.new.page (held result) }
        ensures terms { self.new.terms ≡ self.old.terms }
        ensures same { seat.new ≡ seat.old }
        ensures told { self.new.event
            ≡ news_of why upstream.session.setup.server (length upstream.session.carried) }
        ensures last { self.new.last ≡ self.old.last }
        ensures doubts { self.new.doubts
            ≡ doubts_lose self.old.doubts upstream.session.setup.server why }
        ensures seeks { result ≡ WorkerState.Seeking }
    {
        let server = upstream.session.server();
        let chunks = lose_upstream(context, seat, &mut self.page, upstream, taken);
        let told = why.event(server, chunks);
        self.event = told;
        self.doubts.lose(server, why);
        WorkerState::Seeking
    }

    /// Takes a chunk for a session that has others, where one more may be added, and the server is
    /// the one to try and known to work: else the worker waits until its chunks are acknowledged.
    /// One that was lost before stays free until they are, and goes alone, so that what its server
    /// does about it is done to no other. What another worker claims is left to it.
    fn add<A: Tally<Run = J>, S: Tally, L: Link, R: Wait>(
        &mut self,
        context: &TurnContext<'_, A, S, R>,
        seat: &mut S::Seat,
        upstream: Upstream<L>,
    ) -> WorkerState<L>
        requires settled { upstream.session.accepted ≡ [] }
        requires on { upstream.ending ≡ None }
        requires has { self.old.page.has ≡ Some (with None (Some upstream.session)) }
        ensures has { Becomes self.old.page self.new.page (held result) }
        ensures terms { self.new.terms ≡ self.old.terms }
        ensures same { seat.new ≡ seat.old }
        ensures added { HasAdded result upstream.session }
        ensures well { is_added result ≡ true → (self.old.doubts.alone ≡ false)
            × (nat_lt 0 self.new.doubts.losses ≡ false) }
    {
        if self.doubts.alone || !upstream.may_add() {
            return WorkerState::Loaded(upstream);
        }
        let joins = ChunkUse::Join(upstream.session.server());
        let Sight { view: _, found } = self.look_for(context, seat, joins);
        match found {
            Found::Nothing => WorkerState::Loaded(upstream),
            Found::Passed(_) => {
                self.doubts.alone = true;
                WorkerState::Loaded(upstream)
            }
            Found::Took(picked) => {
                WorkerState::Added(UpstreamWithRoom { upstream }, self.note(picked))
            }
        }
    }

    /// A chunk was settled: the worker goes on with those that the session still has. Without any
    /// the session stands, where it takes another one.
    pub(super) fn go_on<A: Tally<Run = J>, S: Tally, L: Link, R: Wait>(
        &mut self,
        context: &TurnContext<'_, A, S, R>,
        seat: &mut S::Seat,
        upstream: Upstream<L>,
    ) -> WorkerState<L>
        requires { self.old.page.has ≡ Some (with None (Some upstream.session)) }
        ensures has { Becomes self.old.page self.new.page (held result) }
        ensures terms { self.new.terms ≡ self.old.terms }
        ensures same { seat.new ≡ seat.old }
        ensures goes { HasGoneOn result self.new.event upstream.session upstream.ending }
    {
        if upstream.session.is_acked() {
            return WorkerState::Loaded(upstream);
        }
        if upstream.session.has_chunk() {
            return match upstream.ending {
                Some(ending) => self.lose(context, seat, upstream, ending, None),
                None => WorkerState::Loaded(upstream),
            };
        }
        let free = IdleUpstream { upstream };
        if free.upstream.ending.is_some() || free.upstream.session.is_ready() {
            return self.stand(context, seat, free);
        }
        self.stand(context, seat, to_end(free, EndReason::Spent))
    }
}

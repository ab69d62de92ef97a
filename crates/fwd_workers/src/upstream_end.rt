//! What a worker settles, and what it gives back, at the end of a chunk, a session or itself.

ghost use Rattle.std.specs.Prelude.{◌≡◌, ◌≤◌, ◌+◌, Some, None, [], length, IfSome};
ghost use Rattle.fwd_session.specs.Live.{live_acked, live_chunks, session_unloads};
ghost use Rattle.fwd_output.specs.Step.{lost_server};
ghost use Rattle.fwd_output.specs.Live.{lives};
ghost use Rattle.fwd_output.specs.Paged.{MayEnd};
ghost use Rattle.fwd_workers.specs.Endings.{kind_in};
ghost use Rattle.fwd_workers.specs.Placed.{Becomes, HasSession, Moves, held, with};
ghost use Rattle.fwd_workers.specs.Working.{accepted_at, entries_in, next_entries};

use crate::ending::kind_in;
use crate::turn_context::TurnContext;
use crate::upstream::{IdleUpstream, Upstream, UpstreamWithRoom, WorkerState};
use fwd_chunks::Carried;
use fwd_environment::{Link, WorkerEvent};
use fwd_output::{Leaving, Tally, leave};
use fwd_run::WorkerPage;
use std::sync::Wait;

/// The one place where entries are settled: where the upstream's session has an accepted
/// acknowledgement, its chunk is taken out and settled, and counts for its own entries at the most.
/// Answers what is told of it.
pub(crate) fn settle_upstream<A: Tally, S: Tally, L: Link, R: Wait>(
    context: &TurnContext<'_, A, S, R>,
    seat: &mut S::Seat,
    page: &mut WorkerPage<A::Run>,
    upstream: &mut Upstream<L>,
) -> Option<WorkerEvent>
    requires { HasSession page.old upstream.old.session }
    ensures none { upstream.old.session.accepted ≡ [] → (seat.new ≡ seat.old)
        × (upstream.new.session ≡ upstream.old.session) × (result ≡ None) }
    ensures settled { upstream.new.session ≡ session_unloads upstream.old.session }
    ensures event { IfSome (live_acked upstream.old.session) (λ chunk. result
        ≡ Some (WorkerEvent.Settled chunk.number upstream.old.session.setup.server)) }
    ensures ending { upstream.new.ending ≡ upstream.old.ending }
    ensures count { S.count seat.old ≤ S.count seat.new }
    ensures most { S.count seat.new
        ≤ S.count seat.old + S.kept (next_entries (live_acked upstream.old.session)) }
    ensures parts { S.parts seat.new ≡ S.parts seat.old }
    ensures moves { Moves page.old page.new upstream.old.session upstream.new.session }
{
    let (acked, chunk) = upstream.session.acked()?;
    let event = WorkerEvent::Settled {
        number: chunk.number(),
        server: acked.server(),
    };
    context.out.settle(context.rt, seat, page, acked, chunk);
    Some(event)
}

/// What a worker leaves at the end of an upstream: the chunk that it took, and those of the
/// session, each of which is a loss; and the server, if that is lost.
fn leave_upstream<L: Link>(upstream: Upstream<L>, taken: Option<Carried>) -> Leaving
    requires settled { upstream.session.accepted ≡ [] }
    ensures kind { result.kind ≡ kind_in upstream.ending }
    ensures taken { result.taken ≡ taken }
    ensures loaded { result.loaded.items ≡ live_chunks upstream.session.carried }
    ensures server { result.server
        ≡ lost_server lives (kind_in upstream.ending) (Some upstream.session) }
{
    let Upstream {
        link: _,
        session,
        ending,
    } = upstream;
    leave(session.into_session(), taken, kind_in(ending))
}

/// What a worker leaves goes back to its output, at a moment (milliseconds).
pub(crate) fn give_back<A: Tally, S: Tally, R: Wait>(
    context: &TurnContext<'_, A, S, R>,
    seat: &mut S::Seat,
    page: &mut WorkerPage<A::Run>,
    leaving: Leaving,
    now: u64,
)
    requires { MayEnd page.old page.old.output leaving.kind leaving.taken leaving.loaded.items
        leaving.server }
    ensures same { seat.new ≡ seat.old }
    ensures ends { Becomes page.old page.new (with None None) }
{
    context.out.end(context.rt, seat, page, leaving, now);
}

/// A session ends of whose chunks none is accepted: they go back, and the one that its worker may
/// have taken and did not load. Answers how many of the session's chunks go back.
pub(crate) fn lose_upstream<A: Tally, S: Tally, L: Link, R: Wait>(
    context: &TurnContext<'_, A, S, R>,
    seat: &mut S::Seat,
    page: &mut WorkerPage<A::Run>,
    upstream: Upstream<L>,
    taken: Option<Carried>,
) -> u64
    requires settled { upstream.session.accepted ≡ [] }
    requires has { page.old.has ≡ Some (with taken (Some upstream.session)) }
    ensures same { seat.new ≡ seat.old }
    ensures ends { Becomes page.old page.new (with None None) }
    ensures count { result ≡ length upstream.session.carried }
{
    let leaving = leave_upstream(upstream, taken);
    let chunks = leaving.loaded.len() as u64;
    give_back(context, seat, page, leaving, context.now);
    chunks
}

/// A session ends: each accepted chunk is settled first, and no other one. Those that are not
/// acknowledged go back, and the one that its worker may have taken and did not load.
pub(crate) fn end_upstream<A: Tally, S: Tally, L: Link, R: Wait>(
    context: &TurnContext<'_, A, S, R>,
    seat: &mut S::Seat,
    page: &mut WorkerPage<A::Run>,
    upstream: Upstream<L>,
    taken: Option<Carried>,
)
    requires { page.old.has ≡ Some (with taken (Some upstream.session)) }
    ensures same { upstream.session.accepted ≡ [] → seat.new ≡ seat.old }
    ensures ends { Becomes page.old page.new (with None None) }
    ensures count { S.count seat.old ≤ S.count seat.new }
    ensures most { S.count seat.new
        ≤ S.count seat.old + S.kept (entries_in upstream.session.accepted) }
    ensures parts { S.parts seat.new ≡ S.parts seat.old }
{
    let mut upstream = upstream;
    while upstream.session.is_acked() {
        let _event = settle_upstream(context, seat, page, &mut upstream);
    }
    let leaving = leave_upstream(upstream, taken);
    give_back(context, seat, page, leaving, context.now);
}

/// The same of a session without a chunk, whose worker may have taken one, which goes back.
pub(crate) fn end_free<A: Tally, S: Tally, L: Link, R: Wait>(
    context: &TurnContext<'_, A, S, R>,
    seat: &mut S::Seat,
    page: &mut WorkerPage<A::Run>,
    free: IdleUpstream<L>,
    taken: Option<Carried>,
)
    requires { page.old.has ≡ Some (with taken (Some free.upstream.session)) }
    ensures same { seat.new ≡ seat.old }
    ensures ends { Becomes page.old page.new (with None None) }
{
    let IdleUpstream { upstream } = free;
    let leaving = leave_upstream(upstream, taken);
    give_back(context, seat, page, leaving, context.now);
}

/// A worker ends: each accepted chunk is settled, and the others go back.
pub(crate) fn finish<A: Tally, S: Tally, L: Link, R: Wait>(
    context: &TurnContext<'_, A, S, R>,
    seat: &mut S::Seat,
    page: &mut WorkerPage<A::Run>,
    state: WorkerState<L>,
)
    requires { page.old.has ≡ Some (held state) }
    ensures same { accepted_at state ≡ [] → seat.new ≡ seat.old }
    ensures ends { Becomes page.old page.new (with None None) }
    ensures count { S.count seat.old ≤ S.count seat.new }
    ensures most { S.count seat.new
        ≤ S.count seat.old + S.kept (entries_in (accepted_at state)) }
    ensures parts { S.parts seat.new ≡ S.parts seat.old }
{
    match state {
        WorkerState::Idle | WorkerState::Seeking => {}
        WorkerState::Sought(free) | WorkerState::Standing(free) => end_free(
            context, seat, page, free, None,
        ),
        WorkerState::Took(free, chunk) => end_free(context, seat, page, free, Some(chunk)),
        WorkerState::Added(roomy, chunk) => {
            let UpstreamWithRoom { upstream } = roomy;
            end_upstream(context, seat, page, upstream, Some(chunk));
        }
        WorkerState::Loaded(upstream) | WorkerState::Settled(upstream) => end_upstream(
            context, seat, page, upstream, None,
        ),
    }
}

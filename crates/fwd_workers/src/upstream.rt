//! A worker's link with the session that it carries, and where a worker stands.

ghost use Rattle.std.specs.Prelude.{◌≡◌, ◌<◌, [], None, true, is_some};
ghost use Rattle.fwd_session.specs.Live.{live_is_ready, live_room};
ghost use Rattle.fwd_workers.specs.Served.{IsFree, IsOfLink, may_add, seen_in};

use crate::ending::EndReason;
use crate::own_session::OwnSession;
use fwd_chunks::Carried;
use fwd_environment::Link;

/// A link, and the session that it carries. The session has lived over just this link, from its
/// beginning on: what it was told and heard is what the link took and gave.
pub(crate) struct Upstream<L: Link> {
    pub(crate) link: L,
    pub(crate) session: OwnSession,
    /// Why the session is to end, once it is to.
    pub(crate) ending: Option<EndReason>,
    ghost of_link: { ∥ IsOfLink session (seen_in (L.calls link)) (is_some ending) ∥₁ },
    ghost window: { 0 < session.setup.window },
}

impl<L: Link> Upstream<L> {
    /// Whether a chunk may be added to those that the session has: nothing of them waits to be
    /// sent, and it is ready and has room.
    pub(crate) fn may_add(&self) -> bool
        ensures { result ≡ may_add self.now.session }
    {
        self.session.waiting() == 0 && self.session.is_ready() && self.session.room() > 0
    }
}

/// An upstream whose session has no chunk.
pub(crate) struct IdleUpstream<L: Link> {
    pub(crate) upstream: Upstream<L>,
    ghost free: { IsFree upstream.session },
}

/// An upstream whose session is ready for a chunk more, beside those that it has.
pub(crate) struct UpstreamWithRoom<L: Link> {
    pub(crate) upstream: Upstream<L>,
    ghost on: { upstream.ending ≡ None },
    ghost room: { 0 < live_room upstream.session },
    ghost ready: { live_is_ready upstream.session ≡ true },
    ghost settled: { upstream.session.accepted ≡ [] },
}

/// What a worker has from turn to turn.
pub(crate) enum WorkerState<L: Link> {
    /// Nothing.
    Idle,
    /// Nothing, behind the loss of a chunk: it seeks a server while that chunk waits.
    Seeking,
    /// A session that it sought for a lost chunk, and no chunk yet.
    Sought(IdleUpstream<L>),
    /// A session, and no chunk. It goes to another server where it is to try that one.
    Standing(IdleUpstream<L>),
    /// A chunk that waits to be loaded into the session, which has no other.
    Took(IdleUpstream<L>, Carried),
    /// A chunk that waits to be loaded into the session, beside others.
    Added(UpstreamWithRoom<L>, Carried),
    /// Chunks in the session.
    Loaded(Upstream<L>),
    /// A session of which a chunk was settled, and which may have others.
    Settled(Upstream<L>),
}

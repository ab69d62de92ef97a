//! What is done with a worker's upstream: it begins, has a turn, and is to end.

ghost use Rattle.std.specs.Prelude.{◌≡◌, ◌<◌, [], Some, None, true, is_some, option_map};
ghost use Rattle.fwd_session.specs.History.{Setup, is_done};
ghost use Rattle.fwd_session.specs.Live.{live_room, session_begins};
ghost use Rattle.fwd_workers.specs.Endings.{idle_ending};
ghost use Rattle.fwd_workers.specs.Placed.{Moves};
ghost use Rattle.fwd_workers.specs.Served.{IsFree};
ghost use Rattle.fwd_workers.specs.Working.{IsTended};

use crate::ending::{EndReason, loss_in};
use crate::own_session::OwnSession;
use crate::serve::serve_in_room;
use crate::upstream::{IdleUpstream, Upstream};
use fwd_environment::{Link, LossReason};
use fwd_history::Run;
use fwd_run::WorkerPage;
use std::alloc::Global;
use std::sync::Wait;

/// The ending of an upstream whose server is lost, if it is.
fn lost(why: Option<LossReason>) -> Option<EndReason>
    ensures { result ≡ option_map EndReason.Lost why }
{
    match why {
        None => None,
        Some(why) => Some(EndReason::Lost(why)),
    }
}

/// A turn of an upstream at a moment (milliseconds): it may be late, and else its session is
/// served, in this room of its worker. An upstream that is to end stays as it is.
#[tactic(auto, unfolding(fwd_session::specs::Live::session_looks))]
pub(crate) fn serve<J: Run, L: Link, R: Wait>(
    rt: &R,
    alloc: Global,
    room: &mut Vec<u8>,
    page: &mut WorkerPage<J>,
    upstream: Upstream<L>,
    now: u64,
) -> Upstream<L>
    ensures chunk { IsFree upstream.session → IsFree result.session }
    ensures setup { result.session.setup ≡ upstream.session.setup }
    ensures room { live_room result.session ≡ live_room upstream.session }
    ensures turn { upstream.ending ≡ None → IsTended upstream.session result.session now
        (L.calls upstream.link) (L.calls result.link) result.ending }
    ensures over { is_some upstream.ending ≡ true → result.ending ≡ upstream.ending }
    ensures moves { Moves page.old page.new upstream.session result.session }
{
    let Upstream {
        mut link,
        mut session,
        ending,
    } = upstream;
    if ending.is_some() {
        return Upstream {
            link,
            session,
            ending,
        };
    }
    page.late(now);
    let Ok(false) = session.late(now) else {
        return Upstream {
            link,
            session,
            ending: Some(EndReason::Lost(LossReason::Late)),
        };
    };
    let served = serve_in_room(rt, alloc, &mut link, &mut session, page, room);
    Upstream {
        link,
        session,
        ending: lost(loss_in(served)),
    }
}

/// The same of an upstream whose session has no chunk.
pub(crate) fn serve_free<J: Run, L: Link, R: Wait>(
    rt: &R,
    alloc: Global,
    room: &mut Vec<u8>,
    page: &mut WorkerPage<J>,
    free: IdleUpstream<L>,
    now: u64,
) -> IdleUpstream<L>
    ensures turn { free.upstream.ending ≡ None
        → IsTended free.upstream.session result.upstream.session now
        (L.calls free.upstream.link) (L.calls result.upstream.link) result.upstream.ending }
    ensures over { is_some free.upstream.ending ≡ true
        → result.upstream.ending ≡ free.upstream.ending }
    ensures moves { Moves page.old page.new free.upstream.session result.upstream.session }
{
    let IdleUpstream { upstream } = free;
    let upstream = serve(rt, alloc, room, page, upstream, now);
    IdleUpstream { upstream }
}

/// An upstream without a chunk, whose server may have closed it and owed nothing. A session that
/// was sought and has taken no chunk is not excused: a server that accepts and closes would be
/// tried for ever.
pub(crate) fn allow_close<L: Link>(free: IdleUpstream<L>) -> IdleUpstream<L>
    ensures session { result.upstream.session ≡ free.upstream.session }
    ensures ending { result.upstream.ending ≡ option_map
        (λ why. idle_ending why (is_done free.upstream.session.handshake)) free.upstream.ending }
{
    match free.upstream.ending {
        None => free,
        Some(why) => {
            let why = why.idle(free.upstream.session.is_greeted());
            to_end(free, why)
        }
    }
}

/// An upstream is to end.
pub(crate) fn ended<L: Link>(upstream: Upstream<L>, why: EndReason) -> Upstream<L>
    ensures session { result.session ≡ upstream.session }
    ensures ending { result.ending ≡ Some why }
{
    let mut upstream = upstream;
    upstream.ending = Some(why);
    upstream
}

/// An upstream without a chunk is to end.
pub(crate) fn to_end<L: Link>(free: IdleUpstream<L>, why: EndReason) -> IdleUpstream<L>
    ensures session { result.upstream.session ≡ free.upstream.session }
    ensures ending { result.upstream.ending ≡ Some why }
{
    let IdleUpstream { upstream } = free;
    let upstream = ended(upstream, why);
    IdleUpstream { upstream }
}

/// A session that begins over a link of which no call was made.
pub(crate) fn free_upstream<L: Link>(link: L, session: OwnSession) -> IdleUpstream<L>
    requires begun { (setup : Setup) × (session ≡ session_begins setup) × (0 < setup.window) }
    requires fresh { L.calls link ≡ [] }
    ensures session { result.upstream.session ≡ session }
    ensures on { result.upstream.ending ≡ None }
{
    IdleUpstream {
        upstream: Upstream {
            link,
            session,
            ending: None,
        },
    }
}

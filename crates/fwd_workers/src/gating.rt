//! Where a worker asks its gate.

ghost use Rattle.std.specs.Prelude.{◌≡◌};
ghost use Rattle.fwd_workers.specs.Working.{place_of};

use crate::upstream::WorkerState;
use fwd_environment::{Link, Place};

/// Where the gate is asked: nowhere while the server is waited for, and no chunk may be added.
pub(crate) fn place<L: Link>(state: &WorkerState<L>) -> Option<Place>
    ensures { result ≡ place_of state.now }
{
    match state {
        WorkerState::Idle
        | WorkerState::Seeking
        | WorkerState::Sought(_)
        | WorkerState::Standing(_) => { Some(Place::BeforeTake) }
        WorkerState::Took(free, _) if free.upstream.session.is_ready() => Some(Place::BeforeLoad),
        WorkerState::Added(..) => Some(Place::BeforeLoad),
        WorkerState::Loaded(upstream) if upstream.session.is_acked() => Some(Place::BeforeSettle),
        WorkerState::Loaded(upstream) if upstream.may_add() => Some(Place::BeforeTake),
        WorkerState::Settled(_) => Some(Place::AfterSettle),
        WorkerState::Took(..) | WorkerState::Loaded(_) => None,
    }
}

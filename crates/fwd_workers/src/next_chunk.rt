//! The chunk that a worker takes next.

ghost use Rattle.std.specs.Prelude.{◌≡◌, IfSome, is_some, option_map};
ghost use Rattle.fwd_output.specs.Elsewhere.{away_from, has_server, way_over};
ghost use Rattle.fwd_output.specs.Looks.{IsForUse};
ghost use Rattle.fwd_output.specs.Paged.{MayTake, Takes, taken_of};

use crate::turn_context::TurnContext;
use fwd_output::{ChunkSearch, ChunkUse, Found, Look, Offer, ServerView, Tally};
use fwd_run::WorkerPage;
use std::alloc::Global;
use std::sync::Wait;

/// What a worker saw of its output, and what it found there by that. A chunk that it took must be
/// spent.
pub(crate) struct Sight {
    pub(crate) view: ServerView,
    pub(crate) found: Found,
}

/// What a worker sees of its output, and what it finds there for this use: looking, closing and
/// taking are one turn under the output's lock. If memory is refused for the chunk, it finds
/// nothing.
pub(crate) fn look_for<A: Tally, S: Tally, R: Wait>(
    context: &TurnContext<'_, A, S, R>,
    alloc: Global,
    seat: &mut S::Seat,
    page: &mut WorkerPage<A::Run>,
    chunk_use: ChunkUse,
) -> Sight
    requires { MayTake page.old page.old.output }
    ensures takes { Takes page.old (taken_of result.found) page.new }
    ensures fits { IsForUse result.found result.view chunk_use }
    ensures same { seat.new ≡ seat.old }
{
    let search = ChunkSearch {
        worker: page.worker(),
        chunk_use,
        closes: context.closes,
    };
    let Look { view, found } = context
        .out
        .look_for(context.rt, alloc, seat, page, search, context.now);
    match found {
        Ok(found) => Sight { view, found },
        Err(_) => Sight {
            view,
            found: Found::Nothing,
        },
    }
}

/// The way from a session to another server, for a chunk that is free.
#[derive(Clone, Copy)]
pub(crate) struct Way {
    pub(crate) server: u16,
    /// The chunk's number.
    pub(crate) chunk: u64,
    /// The chunk was lost at the server that is left.
    pub(crate) was_lost_here: bool,
}

/// The way that a worker is to go for a chunk from its session with this server, if it is to go
/// one.
pub(crate) fn way_of(view: ServerView, offer: Offer, own: u16) -> Option<Way>
    ensures server { option_map (λ w. w.server) result ≡ way_over offer.losses
        (has_server offer.lost_at.members own) offer.elsewhere view.server own }
    ensures chunk { IfSome result (λ w. w.chunk ≡ offer.number) }
    ensures lost { IfSome result (λ w. w.was_lost_here
        ≡ is_some (away_from (has_server offer.lost_at.members own) offer.elsewhere)) }
{
    let server = view.way_of(&offer, own)?;
    Some(Way {
        server,
        chunk: offer.number,
        was_lost_here: offer.away_from(own).is_some(),
    })
}

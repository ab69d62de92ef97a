//! How a relay that was opened serves, with all its threads, until it ends.

use crate::opening::{Opened, Own, Shared, open};
use crate::platform::Platform;
use crate::threads::{Beside, Started};
use fwd_history::Run;
use fwd_monitors::{Observer, StartFault};
use fwd_turns::{DrainSeen, FrontTurns, close_all};
use std::thread;

/// Runs a relay of these parts for so many turns, or until it was asked to stop and is to end: what
/// was seen of it then, where it was.
pub(crate) fn run_parts<J: Run + Send + Sync, R: Platform, W: Observer>(
    rt: &R,
    shared: &Shared<J>,
    own: &mut Own<J>,
    observer: &mut W,
    count: u64,
) -> Result<Option<DrainSeen>, StartFault> {
    let alloc = rt.alloc();
    let Opened {
        mut turns,
        mut others,
        workers,
    } = open(rt, alloc, shared, own)?;
    let served = match Beside::new(alloc, workers, &mut others) {
        Ok(beside) => serve(rt, &mut turns, beside, observer, count),
        Err(_) => Err(StartFault::Memory),
    };
    let seen = turns.last_seen();
    close_all(rt, others);
    turns.close_watched(rt, observer);
    served?;
    Ok(seen)
}

/// Makes so many turns in this thread, and as many in each thread beside it, until all have ended;
/// and has monitors' pages made in another one, where there can be one.
fn serve<J: Run + Send + Sync, R: Platform, W: Observer>(
    rt: &R,
    turns: &mut FrontTurns<'_, J, R>,
    beside: Beside<'_, '_, J, R>,
    observer: &mut W,
    count: u64,
) -> Result<(), StartFault> {
    thread::scope(thread::scope_env(), rt, move |scope| {
        let mut started = Started::with_room_for(rt.alloc(), &beside)?;
        let begun = started.start(scope, rt, beside, count);
        // Behind the workers: a relay does without it where there is no room for one thread more.
        let maker = turns.page_maker();
        if let Some(maker) = maker {
            if started.start_pages(scope, rt, maker) {
                turns.order_pages();
            }
        }
        let served = serve_front(rt, turns, begun, observer, count);
        if let Some(maker) = maker {
            maker.stop(rt);
        }
        let ended = started.join(rt);
        served.and(ended)
    })
}

/// Makes so many turns in this thread, if those beside it could begin; and has them end where it
/// failed, or the relay has nothing left to do.
fn serve_front<J: Run, R: Platform, W: Observer>(
    rt: &R,
    turns: &mut FrontTurns<'_, J, R>,
    begun: Result<(), StartFault>,
    observer: &mut W,
    count: u64,
) -> Result<(), StartFault> {
    let mut served = begun;
    if served.is_ok() {
        served = turns.run_watched(rt, observer, count);
    }
    if served.is_err() || turns.last_seen().is_some() {
        turns.stop();
    }
    served
}

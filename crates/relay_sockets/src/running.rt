//! A relay runs, beside those around it.

use crate::run_events::RunEvents;
use fwd_chunks::Report;
use fwd_history::Run;
use fwd_loop::{Beside, FrontTurns, Loop, Opened, Platform, StartFault, Started, close_all};
use std::net::{Net, TcpListener, TcpStream};
use std::rt::Clock;
use std::sync::Wait;
use std::sync::atomic::{AtomicBool, Ordering};
use std::thread;

/// Who makes the turns of a relay.
pub trait Turner {
    /// Makes turns before the workers work.
    fn turn_alone<J: Run, R: Net<Listener = TcpListener, Stream = TcpStream> + Wait + Clock>(
        &mut self,
        rt: &R,
        turns: &mut FrontTurns<'_, J, R>,
    );

    /// Makes turns while they work.
    fn turn_beside<J: Run, R: Net<Listener = TcpListener, Stream = TcpStream> + Wait + Clock>(
        &mut self,
        rt: &R,
        turns: &mut FrontTurns<'_, J, R>,
    );
}

/// Makes turns until they are to end. One waits 100 milliseconds at most.
#[derive(Drop)]
pub struct Until<'a> {
    pub heard: RunEvents,
    pub over: &'a AtomicBool,
    /// Why they ended before that.
    pub fault: Option<StartFault>,
}

impl Turner for Until<'_> {
    fn turn_alone<J: Run, R: Net<Listener = TcpListener, Stream = TcpStream> + Wait + Clock>(
        &mut self,
        _rt: &R,
        _turns: &mut FrontTurns<'_, J, R>,
    ) {}

    fn turn_beside<J: Run, R: Net<Listener = TcpListener, Stream = TcpStream> + Wait + Clock>(
        &mut self,
        rt: &R,
        turns: &mut FrontTurns<'_, J, R>,
    ) {
        for _ in 0..u64::MAX {
            if self.over.load(Ordering::SeqCst) || self.fault.is_some() {
                break;
            }
            self.fault = turns.turn_watched(rt, &mut self.heard).err();
        }
    }
}

/// Makes turns with the other readers and the workers at work meanwhile, which end then, too.
fn serve<J: Run + Send + Sync, R: Platform, T: Turner>(
    rt: &R,
    turns: &mut FrontTurns<'_, J, R>,
    beside: Beside<'_, '_, J, R>,
    turner: &mut T,
) -> Result<(), StartFault> {
    thread::scope(thread::scope_env(), rt, move |scope| {
        let mut started = Started::with_room_for(rt.alloc(), &beside)?;
        let served = started.start(scope, rt, beside, u64::MAX);
        turner.turn_beside(rt, turns);
        turns.stop();
        let ended = started.join(rt);
        served.and(ended)
    })
}

/// Opens a relay, makes its turns, and answers what its outputs have to do with then. All its
/// threads have ended by that.
pub fn run<J: Run + Send + Sync, R: Platform, T: Turner>(
    rt: &R,
    relay: Loop<J>,
    turner: &mut T,
) -> Result<Vec<Report>, StartFault> {
    let mut relay = relay;
    match relay.open(rt) {
        Ok(
            Opened {
                mut turns,
                mut others,
                workers,
            },
        ) => {
            turner.turn_alone(rt, &mut turns);
            let served = match Beside::new(rt.alloc(), workers, &mut others) {
                Ok(beside) => serve(rt, &mut turns, beside, turner),
                Err(_) => Err(StartFault::Memory),
            };
            let reports = turns.reports(rt);
            close_all(rt, others);
            turns.close(rt);
            served.and(reports)
        }
        Err(fault) => Err(fault),
    }
}

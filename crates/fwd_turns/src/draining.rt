//! A relay that was asked to stop, and delivers what it holds before it ends. What becomes of its
//! sources then is decided in `leaving`. What whoever asked is told in the end stands in
//! `fwd_listeners` (`Ending`).
//!
//! It begins when somebody asks over the control socket (`Control`, there), within a time: `Drain`,
//! which the reader in front has, keeps the moment at which that is over. A second one who asks may
//! make it sooner, and never later. From the first one on:
//!
//! 1. The reader in front takes the sources that wait at the listener, until none does, or as many
//!    as can wait there, and closes it. Monitors are served on.
//! 2. Each reader visits its sources (`sweep`), and each source goes through `LeaveStage`:
//!
//!        Stays ──> Reads ──> Settles ──> Leaves ──> gone
//!
//!    - `Reads`: it is read until its stream is quiet: found empty at two looks, `QUIET`
//!      milliseconds apart, and at each between them. One read that finds nothing proves little:
//!      the source's own system may hold bytes back, until the relay's has acknowledged those
//!      before, or since the relay had not read for long and left no room for them.
//!    - `Settles`: it is read no more. What waits for room is admitted as ever, and it is told of
//!      what is settled.
//!    - `Leaves`: it is owed nothing, and was told by the end of the relay's stream that no more
//!      comes. It goes once its other side has closed, or its stream is quiet. What it sends is
//!      taken as before, and it is told of nothing more: whoever asks to be told sends that again.
//!      The last piece that was taken is left unread in its stream, if it is no longer than `HELD`.
//!      So the system resets the connection when it is closed, and the next write of its other side
//!      fails, and loses nothing. More is not left there, for that would close the window of the
//!      other side, whose system could not send what it still has.
//!
//!    A source is read `MOST` bytes (`LastReading`) in a stage at the most. One that sends more
//!    while it leaves is cut off, and the relay does not say then that all is delivered. A source
//!    whose other side is gone goes as ever, after what it sent was read to the end.
//! 3. Each reader closes all chunks in each turn, as soon as a worker looks for one. Workers go on
//!    as ever, with retries and standbys.
//! 4. It ends once the listener is closed, no source is left at any reader, and no output holds an
//!    entry; or when the time is over. Only then the workers and the other readers are told to end.
//!    What was seen then is handed on (`DrainSeen`).
//!
//! Nothing is acknowledged sooner than else. A relay that is killed while it drains loses no more
//! than one that is killed at another time.

ghost use Rattle.std.specs.Prelude.{◌≡◌, ◌≤◌, ◌⊎◌, ◌↔◌, Some, IfSome, IsTrue};
ghost use Rattle.fwd_turns.specs.Draining.{IsDone, IsDrained, IsPast, IsReadOut};

use crate::acceptor::SourceSetup;
use crate::reader::Reader;
use fwd_history::Run;
use fwd_listeners::ControlAnswer;
use fwd_monitors::{JournalEvent, Observer};
use fwd_reader::Output;
use std::rt::Clock;
use std::sync::Wait;

/// How often whoever asked is told what is held, in milliseconds.
const TELLING: u64 = 1_000;

/// What is seen of a relay that drains.
#[derive(Clone, Copy)]
pub struct DrainSeen {
    /// Sources may connect still.
    pub is_listening: bool,
    /// How many sources are connected, of all readers together.
    pub sources: u64,
    /// How many sources were closed before they were read to their end.
    pub cut: u64,
    /// How many entries all outputs hold.
    pub held: u64,
}

impl DrainSeen {
    /// Whether there is nothing left to be done.
    pub fn is_done(self) -> bool
        ensures { IsTrue result ↔ IsDone self }
    {
        !self.is_listening && self.sources == 0 && self.held == 0
    }

    /// Whether all was delivered: every source was read to its end, and no output holds an entry.
    pub fn is_drained(self) -> bool
        ensures { IsTrue result ↔ IsDrained self }
    {
        self.is_done() && self.cut == 0
    }

    /// How many sources were not read to their end, where one stands for all that may wait to
    /// connect.
    pub fn unread(self) -> u64
        ensures { result ≡ 0 → IsReadOut self }
    {
        let waiting = u64::from(self.is_listening);
        self.sources
            .saturating_add(self.cut)
            .saturating_add(waiting)
    }
}

/// Whether and until when the relay drains, which its reader in front knows.
#[derive(Drop)]
pub(crate) struct Drain {
    /// When its time is over, in milliseconds, where it was asked to stop.
    deadline: Option<u64>,
    /// When whoever asked was told last what is held, in milliseconds.
    told: u64,
    /// What was seen of it when it was over.
    last: Option<DrainSeen>,
}

/// The sooner of two moments, of which there may be only one.
fn sooner(deadline: Option<u64>, other: u64) -> u64
    ensures other { result ≤ other }
    ensures first { IfSome deadline (λ deadline. result ≤ deadline) }
{
    match deadline {
        None => other,
        Some(deadline) => deadline.min(other),
    }
}

/// What was seen last of a drain, of which this is seen at a moment, and whose time is over at
/// another one (both in milliseconds): nothing where it goes on.
fn last_of(seen: DrainSeen, deadline: u64, now: u64) -> Option<DrainSeen>
    ensures { IfSome result (λ last. (last ≡ seen) × (IsDone last ⊎ IsPast (Some deadline) now)) }
{
    if seen.is_done() || deadline <= now {
        Some(seen)
    } else {
        None
    }
}

/// How many entries these outputs hold. Each is locked by itself for a moment.
pub(crate) fn held_in<J: Run, R: Wait>(rt: &R, outputs: &[Output<J>]) -> u64 {
    let mut held: u64 = 0;
    for output in outputs {
        held = held.saturating_add(output.shared.counts(rt).held);
    }
    held
}

impl Drain {
    /// The relay was not asked to stop.
    pub fn new() -> Drain {
        Drain {
            deadline: None,
            told: 0,
            last: None,
        }
    }

    /// What was seen of a relay that was asked to stop when it had nothing left to do, or no time.
    pub fn last(&self) -> Option<DrainSeen>
        ensures { result ≡ self.now.last }
    {
        self.last
    }

    /// The part of the reader in front, at a moment (milliseconds): it hears who asks the relay
    /// to stop; and where somebody did, it goes on with that.
    pub fn tend<J: Run, R: Wait + Clock, W: Observer>(
        &mut self,
        rt: &R,
        reader: &mut Reader<'_, J, R>,
        setup: &mut SourceSetup<J>,
        observer: &mut W,
        now: u64,
    )
        // It is over only if nothing is left to be done, or its time is over.
        ensures over { (self.new.last ≡ self.old.last)
            ⊎ IfSome self.new.last (λ last. IsDone last ⊎ IsPast self.new.deadline now) }
    {
        let asked = reader.event_loop.asked_wait();
        if let Some(wait) = asked {
            self.ask(rt, reader, observer, now.saturating_add(wait));
        }
        let Some(deadline) = self.deadline else {
            return;
        };
        let is_listening = !reader.accept_last(rt, setup, observer, now);
        reader.sweep(now);
        let seen = DrainSeen {
            is_listening,
            sources: reader.standing() as u64,
            cut: reader.mailbox.flags().cuts() as u64,
            held: held_in(rt, reader.outputs),
        };
        self.last = last_of(seen, deadline, now);
        if asked.is_some() || now.saturating_sub(self.told) >= TELLING {
            self.told = now;
            reader.event_loop.tell_control(ControlAnswer::Holds {
                entries: seen.held,
                sources: seen.sources,
            });
        }
    }

    /// The relay is asked to stop by a moment (milliseconds).
    fn ask<J: Run, R: Wait + Clock, W: Observer>(
        &mut self,
        rt: &R,
        reader: &Reader<'_, J, R>,
        observer: &mut W,
        deadline: u64,
    )
        ensures { self.new.last ≡ self.old.last }
    {
        if self.deadline.is_none() {
            let held = held_in(rt, reader.outputs);
            observer.observe(JournalEvent::Stopping { held });
            reader.mailbox.flags().drain();
            reader.inboxes.call_all();
        }
        self.deadline = Some(sooner(self.deadline, deadline));
    }
}

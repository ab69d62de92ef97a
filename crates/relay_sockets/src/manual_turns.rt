//! Turns of a relay that are made by hand: first without its workers, and then beside them.

ghost use Rattle.std.specs.Prelude.{◌≡◌, true};
ghost use Rattle.fwd_run.specs.Pages.{page_count};
ghost use Rattle.fwd_settings.specs.Ranges.{in_range};

use crate::frame::MESSAGE;
use crate::running::{Turner, run};
use crate::scene_run::SceneRun;
use crate::step::Step;
use crate::test_relay::{PLAIN, SEED, started};
use anyhow::{Result, anyhow};
use fwd_history::Run;
use fwd_loop::{FrontTurns, Platform};
use fwd_monitor::page;
use fwd_run::OpenedRun;
use fwd_settings::Settings;
use std::marker::Brand;
use std::net::{Net, TcpListener, TcpStream};
use std::rt::Clock;
use std::sync::Wait;
use std::thread::Threads;

/// A step of such a play.
#[derive(Clone, Copy)]
enum ManualClock {
    /// So many turns are made. They are a few where one is enough, so that a slow machine tells the
    /// same.
    Turns(u32),
    /// The monitor's page of what the outputs have to do with is told.
    Page(&'static str),
    Step(Step),
}

/// No worker works: a turn takes a source, the next one takes its request, and nobody tells it.
const ALONE: &[ManualClock] = &[
    ManualClock::Step(Step::Source(b"")),
    ManualClock::Turns(1),
    ManualClock::Step(Step::Send(0, MESSAGE)),
    ManualClock::Step(Step::Pause(100)),
    ManualClock::Page("before"),
    ManualClock::Turns(1),
    ManualClock::Page("after"),
    ManualClock::Turns(3),
    ManualClock::Step(Step::Silent("alone", 0)),
];

/// The workers work: the server acknowledges the first frame, and the source is told by a turn and
/// not before. The second one is acknowledged behind the last turn, and the third one, which comes
/// for that, is not.
const BESIDE: &[ManualClock] = &[
    ManualClock::Step(Step::Accept(0)),
    ManualClock::Step(Step::Told("frame", 1)),
    ManualClock::Step(Step::Ack(1)),
    ManualClock::Step(Step::Silent("unturned", 0)),
    ManualClock::Turns(3),
    ManualClock::Step(Step::Told("told", 0)),
    ManualClock::Step(Step::Send(0, MESSAGE)),
    ManualClock::Turns(3),
    ManualClock::Step(Step::Told("second", 1)),
    ManualClock::Step(Step::Send(0, MESSAGE)),
    ManualClock::Turns(3),
    ManualClock::Step(Step::Ack(1)),
    ManualClock::Step(Step::Told("third", 1)),
    ManualClock::Step(Step::Silent("unturned_again", 0)),
    ManualClock::Step(Step::Start),
];

/// The relay is closed, and the source is told of the second frame, and of no other.
const CLOSED: &[Step] = &[Step::Told("told_at_the_close", 0), Step::Rest("rest", 0)];

/// How long workers may take to end, in milliseconds: far less than they wait for an
/// acknowledgement.
const SOON: u64 = 20_000;

/// Makes so many turns.
fn turn<J: Run, R: Wait + Clock>(
    rt: &R,
    turns: &mut FrontTurns<'_, J, R>,
    count: u32,
) -> Result<()> {
    for _ in 0..count {
        if let Err(fault) = turns.turn(rt) {
            return Err(anyhow!("{fault}"));
        }
    }
    Ok(())
}

/// Appends the monitor's page of what the outputs have to do with.
fn put_page<J: Run, R: Wait + Clock>(
    rt: &R,
    turns: &FrontTurns<'_, J, R>,
    field: &str,
    stage: &mut SceneRun,
) -> Result<()> {
    match turns.reports(rt) {
        Ok(reports) => stage.told.put(field, &page(stage.alloc, &reports)?),
        Err(fault) => Err(anyhow!("{fault}")),
    }
}

/// Plays these steps.
fn play<J: Run, R: Net<Listener = TcpListener, Stream = TcpStream> + Wait + Clock>(
    rt: &R,
    turns: &mut FrontTurns<'_, J, R>,
    steps: &[ManualClock],
    stage: &mut SceneRun,
) -> Result<()> {
    for step in steps {
        match *step {
            ManualClock::Turns(count) => turn(rt, turns, count)?,
            ManualClock::Page(field) => put_page(rt, turns, field, stage)?,
            ManualClock::Step(step) => stage.play(rt, step)?,
        }
    }
    Ok(())
}

impl Turner for SceneRun {
    fn turn_alone<J: Run, R: Net<Listener = TcpListener, Stream = TcpStream> + Wait + Clock>(
        &mut self,
        rt: &R,
        turns: &mut FrontTurns<'_, J, R>,
    ) {
        let played = play(rt, turns, ALONE, self);
        self.told.note(played);
    }

    fn turn_beside<J: Run, R: Net<Listener = TcpListener, Stream = TcpStream> + Wait + Clock>(
        &mut self,
        rt: &R,
        turns: &mut FrontTurns<'_, J, R>,
    ) {
        let played = play(rt, turns, BESIDE, self);
        self.told.note(played);
    }
}

/// Makes the turns of a relay of these settings, whose outputs' history it is given.
fn make_turns<J: Run + Send + Sync, R: Platform>(
    rt: &R,
    opened: OpenedRun,
    settings: Settings,
    stage: &mut SceneRun,
) -> Result<()>
    requires range { in_range settings ≡ true }
    requires book { opened.book ≡ J.book }
    requires pages { opened.pages ≡ page_count }
{
    let relay = started::<J, R>(rt, opened, settings)?;
    let ended = run(rt, relay, stage);
    stage.play(rt, Step::Within("soon", SOON))?;
    for step in CLOSED {
        stage.play(rt, *step)?;
    }
    match ended {
        Ok(reports) => stage.told.put_counts(&reports),
        Err(fault) => Err(anyhow!("{fault}")),
    }
}

/// Makes the turns of such a relay.
fn make_such_turns<R: Platform>(rt: &R, stage: &mut SceneRun) -> Result<()> {
    let settings = stage.site.settings(rt.alloc(), 8, SEED, &[PLAIN])?;
    make_turns::<Brand, R>(rt, OpenedRun::new(usize::MAX), settings, stage)
}

/// What is printed of turns by hand.
pub fn text_of_turns<
    R: Net<Listener = TcpListener, Stream = TcpStream>
        + Threads
        + Wait
        + Clock
        + AllocGlobal
        + Sync,
>(rt: &R, host: u8) -> Result<String> {
    let mut stage = SceneRun::new(rt, rt.alloc(), host)?;
    stage.told.begin("turns by hand");
    let made = make_such_turns(rt, &mut stage);
    stage.told.note(made);
    Ok(stage.take_text())
}

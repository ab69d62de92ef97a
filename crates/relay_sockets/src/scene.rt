//! A scene: a relay, and what happens around it.

ghost use Rattle.std.specs.Prelude.{◌≡◌};
ghost use Rattle.fwd_run.specs.Pages.{page_count};

use crate::polled_server::Mood;
use crate::run_events::{RunEvents, Said};
use crate::running::{Until, run};
use crate::scene_run::SceneRun;
use crate::step::Step;
use crate::test_relay::{Output, PLAIN, SEED, started};
use crate::traffic::{play_alone, play_deaths};
use anyhow::{Result, anyhow, bail};
use fwd_chunks::Report;
use fwd_history::Run;
use fwd_loop::{Loop, Platform, StartFault};
use fwd_run::OpenedRun;
use std::marker::Brand;
use std::net::{Net, TcpListener, TcpStream};
use std::rt::Clock;
use std::sync::Wait;
use std::sync::atomic::{AtomicBool, Ordering};
use std::thread;
use std::thread::Threads;

/// What happens around a relay.
#[derive(Clone, Copy)]
pub enum Play {
    /// These steps, one behind the other.
    Steps(&'static [Step]),
    /// A source sends requests, one behind the other, beside such servers.
    Alone([Mood; 3]),
    /// Several requests are under way while the first primary dies, or both do, and come back.
    Deaths(bool),
}

/// A scene.
#[derive(Clone, Copy)]
pub struct Scene {
    /// What it is about.
    pub title: &'static str,
    /// The number of its host, where all its listeners stand.
    pub host: u8,
    /// How many sources its relay takes at a time, and what it is set to beside.
    pub sources: u16,
    pub keys: &'static str,
    pub outputs: &'static [Output],
    pub play: Play,
    /// Whether it has one reader in any case: a page is told behind what came before it where its
    /// reader saw that, and not where another has to.
    pub is_of_one: bool,
    /// How many turns its relay runs for. Else it runs until the play is over.
    pub turns: Option<u64>,
    /// Whether it is told what the outputs have to do with then.
    pub is_counted: bool,
    /// What is said of what the relay told.
    pub said: &'static [Said],
}

/// What most scenes have.
pub const SCENE: Scene = Scene {
    title: "",
    host: 0,
    sources: 8,
    keys: SEED,
    outputs: &[PLAIN],
    play: Play::Steps(&[]),
    is_of_one: false,
    turns: None,
    is_counted: true,
    said: &[],
};

impl Scene {
    /// What its sources, servers and monitors do and see.
    fn play<R: Net<Listener = TcpListener, Stream = TcpStream> + Clock>(
        self,
        rt: &R,
        stage: &mut SceneRun,
    ) -> Result<()> {
        match self.play {
            Play::Steps(steps) => {
                for step in steps {
                    stage.play(rt, *step)?;
                }
                Ok(())
            }
            Play::Alone(moods) => play_alone(rt, stage, moods),
            Play::Deaths(both) => play_deaths(rt, stage, both),
        }
    }

    /// The same. Behind a play that failed nobody stands, so that no worker waits for a server.
    fn play_out<R: Net<Listener = TcpListener, Stream = TcpStream> + Clock>(
        self,
        rt: &R,
        stage: &mut SceneRun,
    ) -> Result<()> {
        let played = self.play(rt, stage);
        if played.is_err() {
            stage.clear();
        }
        if self.turns.is_some() {
            stage.hurry(rt);
        }
        played
    }

    /// Runs its relay: what its outputs have to do with then.
    fn turn<J: Run + Send + Sync, R: Platform>(
        self,
        rt: &R,
        relay: Loop<J>,
        until: &mut Until<'_>,
    ) -> Result<Vec<Report>, StartFault> {
        match self.turns {
            Some(turns) => {
                let outcome = relay.run_watched(rt, &mut until.heard, turns)?;
                Ok(outcome.reports)
            }
            None => run(rt, relay, until),
        }
    }

    /// Appends what its relay came to.
    fn put_end(self, stage: &mut SceneRun, reports: &[Report], heard: &RunEvents) -> Result<()> {
        if self.is_counted {
            stage.told.put_counts(reports)?;
        }
        stage.told.begin_line();
        for said in self.said {
            heard.put(*said, stage.site, &mut stage.told)?;
        }
        heard.put_closings(&mut stage.told)
    }

    /// Runs its relay, whose outputs' history it is given, and plays what happens around it
    /// meanwhile. The relay ends with the play, whatever that came to.
    fn run<J: Run + Send + Sync, R: Platform>(
        self,
        rt: &R,
        opened: OpenedRun,
        stage: &mut SceneRun,
        until: &mut Until<'_>,
    ) -> Result<Vec<Report>>
        requires book { opened.book ≡ J.book }
        requires pages { opened.pages ≡ page_count }
    {
        let settings = stage
            .site
            .settings(rt.alloc(), self.sources, self.keys, self.outputs)?;
        let relay = started::<J, R>(rt, opened, settings)?;
        let over = until.over;
        // The ids of sources stay in this thread, and the relay with them.
        let (played, ended) = thread::join(
            rt,
            move || {
                let played = self.play_out(rt, stage);
                over.store(true, Ordering::SeqCst);
                played
            },
            move || self.turn(rt, relay, until),
        );
        played?;
        match ended {
            Ok(reports) => Ok(reports),
            Err(fault) => Err(anyhow!("{fault}")),
        }
    }

    /// The same, and appends what it came to.
    fn put_run<R: Platform>(self, rt: &R, stage: &mut SceneRun) -> Result<()> {
        let is_over = AtomicBool::new(false);
        let mut until = Until {
            heard: RunEvents::new(rt.alloc()),
            over: &is_over,
            fault: None,
        };
        let opened = OpenedRun::new(usize::MAX);
        let reports = self.run::<Brand, R>(rt, opened, stage, &mut until)?;
        let Until {
            heard,
            over: _,
            fault,
        } = until;
        if let Some(fault) = fault {
            bail!("{fault}");
        }
        self.put_end(stage, &reports, &heard)
    }

    /// What is printed of it, with so many readers. What failed is printed too, so that one scene
    /// does not hide another.
    fn text<R: Platform>(self, rt: &R, readers: u16) -> Result<String> {
        let mut stage = SceneRun::new(rt, rt.alloc(), self.host)?;
        stage.site.readers = if self.is_of_one { 1 } else { readers };
        stage.told.begin(self.title);
        let played = self.put_run(rt, &mut stage);
        stage.told.note(played);
        Ok(stage.take_text())
    }
}

/// What is printed of the scene at a place among these, with so many readers.
fn text_at<R: Platform>(rt: &R, scenes: &[Scene], place: usize, readers: u16) -> Result<String> {
    match scenes.get(place) {
        Some(scene) => scene.text(rt, readers),
        None => Err(anyhow!("no such scene")),
    }
}

/// What is printed of these scenes, which are played side by side, with so many readers.
pub fn play_all<
    R: Net<Listener = TcpListener, Stream = TcpStream>
        + Threads
        + Wait
        + Clock
        + AllocGlobal
        + Sync,
>(rt: &R, scenes: &[Scene], readers: u16) -> Result<Vec<Result<String>>> {
    Ok(thread::map_indices(
        rt,
        rt.alloc(),
        scenes.len(),
        &|place| text_at(rt, scenes, place, readers),
    )?)
}

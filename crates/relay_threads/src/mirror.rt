//! The same calls on an output and on one that is shared: equal answers, and equal counts after
//! each.

ghost use Rattle.std.specs.Prelude.{◌≡◌};
ghost use Rattle.fwd_run.specs.Pages.{page_count};

use crate::batches::{LONGER, MESSAGE, OTHER, THREE};
use crate::calls::{Bare, Behind, Ending, Output};
use crate::output_plan::{OutputPlan, Servers, output};
use crate::paging::begin;
use anyhow::Result;
use fwd_chunks::Carried;
use fwd_history::Run;
use fwd_model::{Counts, FlushKind};
use fwd_output::{AdmitRefusal, OutputState, Plain};
use fwd_run::OpenedRun;
use std::alloc::Global;
use std::marker::Brand;
use std::sync::Wait;

/// What the calls of a story answered.
#[derive(Drop)]
pub struct Notes {
    /// The answers, as a text.
    pub text: String,
    /// The counts after each.
    pub counts: Vec<Counts>,
}

impl Notes {
    /// Nothing yet.
    fn new(alloc: Global) -> Notes {
        Notes {
            text: String::new(alloc),
            counts: Vec::new(alloc),
        }
    }

    /// Goes on with an answer of these numbers, and the counts after it.
    fn put(&mut self, answer: &str, numbers: &[u64], counts: Counts) {
        let _ = write!(self.text, " {answer}");
        if !numbers.is_empty() {
            let _ = write!(self.text, "{numbers:?}");
        }
        let _ = self.counts.push(counts);
    }
}

/// What a refusal is called.
fn refused(refusal: AdmitRefusal) -> &'static str {
    match refusal {
        AdmitRefusal::NotNow => "NotNow",
        AdmitRefusal::Full => "Full",
        AdmitRefusal::NumbersSpent => "NumbersSpent",
        AdmitRefusal::Memory => "Memory",
    }
}

/// An output, and what it answered so far. It must be spent: by `end`.
struct Play<O: Output> {
    out: O,
    notes: Notes,
}

impl<O: Output> Play<O> {
    /// Nothing was played yet.
    fn new(alloc: Global, out: O) -> Play<O> {
        Play {
            out,
            notes: Notes::new(alloc),
        }
    }

    /// Notes an answer of these numbers, with the counts after it.
    fn note(&mut self, answer: &str, numbers: &[u64]) {
        let counts = self.out.counts();
        self.notes.put(answer, numbers, counts);
    }

    /// The next request of a connection is admitted at moment 0.
    fn admit(&mut self, conn: u64, bytes: &[u8]) {
        self.admit_at(conn, bytes, 0);
    }

    /// The next request of a connection is admitted at a moment (milliseconds).
    fn admit_at(&mut self, conn: u64, bytes: &[u8], now: u64) {
        match self.out.admit(conn, bytes, now) {
            Ok(runs) => self.note("Admitted", &[runs as u64]),
            Err(refusal) => self.note(refused(refusal), &[]),
        }
    }

    /// Closes all chunks.
    fn flush(&mut self) {
        let count = self.out.flush(0, FlushKind::All);
        self.note("Closed", &[count as u64]);
    }

    /// Closes the chunks that are due at a moment (milliseconds).
    fn flush_due(&mut self, now: u64) {
        let count = self.out.flush(now, FlushKind::Due);
        self.note("Closed", &[count as u64]);
    }

    /// A worker takes a chunk at a moment (milliseconds).
    fn take(&mut self, worker: u16, now: u64) -> Option<O::Hand> {
        let Some(hand) = self.out.take(worker, now) else {
            self.note("TookNothing", &[]);
            return None;
        };
        let chunk = O::chunk(&hand);
        let (number, count) = (chunk.number(), chunk.count());
        self.note("Took", &[number, count as u64]);
        Some(hand)
    }

    /// A chunk is acknowledged and settled, if there is one.
    fn settle(&mut self, hand: Option<O::Hand>) {
        if let Some(hand) = hand {
            let count = self.out.settle(hand);
            self.note("Settled", &[count]);
        }
    }

    /// The end of a worker that took a chunk, if it did, at a moment (milliseconds).
    fn end(&mut self, hand: Option<O::Hand>, ending: Ending, now: u64) {
        if let Some(hand) = hand {
            self.out.end(hand, ending, now);
            self.note("Done", &[]);
        }
    }

    /// A server is lost at a moment (milliseconds), and no chunk.
    fn lose(&mut self, server: u16, now: u64) {
        self.out.lose(server, now);
        self.note("Done", &[]);
    }

    /// The server that a worker tries at a moment (milliseconds).
    fn choose(&mut self, worker: u16, now: u64) {
        match self.out.choose(worker, now) {
            Some(server) => self.note("Chose", &[u64::from(server)]),
            None => self.note("ChoseNothing", &[]),
        }
    }

    /// Whoever is due is told.
    fn collect(&mut self) {
        let (told, left) = self.out.collect();
        self.note("Collected", &[told as u64, left as u64]);
    }

    /// Nobody is to be told any more of the oldest request that is owed an answer.
    fn abandon(&mut self) {
        if self.out.abandon() {
            self.note("Done", &[]);
        }
    }

    /// What was noted.
    fn end_play(self) -> Notes {
        let Play { out, notes } = self;
        out.close();
        notes
    }
}

impl Play<Bare> {
    /// A chunk is lost at a moment (milliseconds), and its server is not. No worker does that.
    fn lose_chunk(&mut self, chunk: Option<Carried>, now: u64) {
        if let Some(chunk) = chunk {
            self.out.lose_chunk(chunk, now);
            self.note("Done", &[]);
        }
    }
}

/// The calls of one way there and back, with a collect before the settle, after it, and once more.
fn way_back<O: Output>(play: &mut Play<O>) {
    play.admit(1, MESSAGE);
    play.flush();
    let chunk = play.take(0, 0);
    play.collect();
    play.settle(chunk);
    play.collect();
    play.collect();
}

/// A request in two chunks, settled in this order: the later one first, or not.
fn in_two<O: Output>(play: &mut Play<O>, later_first: bool) {
    play.admit(1, THREE);
    play.flush();
    let first = play.take(0, 0);
    let second = play.take(1, 0);
    if later_first {
        play.settle(second);
        play.collect();
        play.settle(first);
    } else {
        play.settle(first);
        play.collect();
        play.settle(second);
    }
    play.collect();
}

/// A chunk that is lost with its server, and waits for its next try.
fn lost<O: Output>(play: &mut Play<O>) {
    play.admit(1, MESSAGE);
    play.flush();
    let chunk = play.take(0, 0);
    play.end(chunk, Ending::Lost, 2000);
    play.choose(0, 2499);
    let early = play.take(0, 2499);
    play.settle(early);
    let again = play.take(0, 2500);
    play.settle(again);
    play.collect();
}

/// An output that is full for the second of three requests, and for a second one of the first
/// connection.
fn full<O: Output>(play: &mut Play<O>) {
    play.admit(1, MESSAGE);
    play.admit(2, LONGER);
    play.admit(3, MESSAGE);
    play.admit(1, MESSAGE);
}

/// A request that is abandoned before its chunk is settled.
fn abandoned<O: Output>(play: &mut Play<O>) {
    play.admit(1, MESSAGE);
    play.flush();
    let chunk = play.take(0, 0);
    play.abandon();
    play.settle(chunk);
    play.collect();
}

/// Requests of two tags that come at two moments, and flushes before and behind their intervals.
fn due<O: Output>(play: &mut Play<O>) {
    play.admit_at(1, MESSAGE, 0);
    play.flush_due(999);
    play.admit_at(2, OTHER, 1200);
    play.flush_due(1500);
    play.flush_due(2199);
    play.flush_due(2200);
}

/// Two workers choose among two primaries and a standby, before and behind the servers' waits.
fn choices<O: Output>(play: &mut Play<O>) {
    play.choose(0, 0);
    play.choose(1, 0);
    play.lose(0, 1000);
    play.choose(0, 1499);
    play.choose(1, 1499);
    play.choose(0, 1500);
    play.lose(0, 2000);
    play.lose(1, 2000);
    play.choose(0, 2499);
    play.choose(0, 2500);
    play.choose(1, 2500);
    play.choose(0, 3000);
    play.choose(1, 3000);
}

/// A chunk that is put back without a loss, with one, and without one from a server that is lost.
fn returns<O: Output>(play: &mut Play<O>) {
    play.admit(1, MESSAGE);
    play.flush();
    let chunk = play.take(0, 0);
    play.end(chunk, Ending::Back, 100);
    let again = play.take(0, 100);
    play.end(again, Ending::Lost, 200);
    play.choose(0, 200);
    let early = play.take(0, 699);
    play.settle(early);
    let late = play.take(0, 700);
    play.end(late, Ending::BackFromLost, 800);
    play.choose(0, 800);
    let last = play.take(0, 800);
    play.settle(last);
    play.collect();
}

/// A request that is abandoned, and another one of its connection.
fn again<O: Output>(play: &mut Play<O>) {
    play.admit(1, MESSAGE);
    play.flush();
    let first = play.take(0, 0);
    play.abandon();
    play.admit(1, MESSAGE);
    play.flush();
    play.settle(first);
    play.collect();
    let second = play.take(0, 0);
    play.settle(second);
    play.collect();
}

/// Which calls are made.
#[derive(Clone, Copy)]
pub enum Story {
    WayBack,
    LaterFirst,
    InOrder,
    Lost,
    Full,
    Abandoned,
    Due,
    Choices,
    Returns,
    Again,
}

impl Story {
    /// What it is called.
    pub fn name(self) -> &'static str {
        match self {
            Story::WayBack => "WayBack",
            Story::LaterFirst => "LaterFirst",
            Story::InOrder => "InOrder",
            Story::Lost => "Lost",
            Story::Full => "Full",
            Story::Abandoned => "Abandoned",
            Story::Due => "Due",
            Story::Choices => "Choices",
            Story::Returns => "Returns",
            Story::Again => "Again",
        }
    }

    /// The most bytes of a chunk, and of all entries.
    fn limits(self) -> (u32, u64) {
        match self {
            Story::LaterFirst | Story::InOrder => (6, 100_000),
            Story::Full => (1000, 6),
            _ => (1000, 100_000),
        }
    }
}

/// What a story's calls answer.
fn played<O: Output>(alloc: Global, out: O, story: Story) -> Notes {
    let mut play = Play::new(alloc, out);
    match story {
        Story::WayBack => way_back(&mut play),
        Story::LaterFirst => in_two(&mut play, true),
        Story::InOrder => in_two(&mut play, false),
        Story::Lost => lost(&mut play),
        Story::Full => full(&mut play),
        Story::Abandoned => abandoned(&mut play),
        Story::Due => due(&mut play),
        Story::Choices => choices(&mut play),
        Story::Returns => returns(&mut play),
        Story::Again => again(&mut play),
    }
    play.end_play()
}

/// What the output of a story is set to.
fn plan_of(story: Story) -> OutputPlan {
    let (chunk, total) = story.limits();
    let servers = match story {
        Story::Choices => Servers::Three,
        _ => Servers::Two,
    };
    OutputPlan {
        servers,
        ..output(chunk, total, 2)
    }
}

/// The output of a story itself.
fn bare(alloc: Global, story: Story) -> Result<Bare> {
    let plan = plan_of(story);
    let state = OutputState::new(alloc, plan.limits(), [0; 6], 0, plan.servers.standby())?;
    Ok(Bare::new(alloc, state))
}

/// What a story's calls answer on an output itself.
pub fn played_bare(alloc: Global, story: Story) -> Result<Notes> {
    Ok(played(alloc, bare(alloc, story)?, story))
}

/// What is answered on an output itself where a chunk is lost without its server, and then taken
/// again.
pub fn played_alone(alloc: Global) -> Result<Notes> {
    let mut play = Play::new(alloc, bare(alloc, Story::Returns)?);
    play.admit(1, MESSAGE);
    play.flush();
    let chunk = play.take(0, 100);
    play.lose_chunk(chunk, 200);
    play.choose(0, 200);
    let early = play.take(0, 699);
    play.settle(early);
    let late = play.take(0, 700);
    play.settle(late);
    play.collect();
    Ok(play.end_play())
}

/// What a story's calls answer on such an output behind its lock, in a run that this history is of.
fn played_behind_by<J: Run, R: Wait>(
    rt: &R,
    alloc: Global,
    story: Story,
    opened: OpenedRun,
) -> Result<Notes>
    requires { (opened.book ≡ J.book) × (opened.pages ≡ page_count) }
{
    let mut begun = begin::<J>(alloc, opened, plan_of(story))?;
    let (sources, workers) = (begun.sources.take(3)?, begun.all_workers());
    let shared = begun.shared(Plain::new(0), Plain::new(0));
    let behind = Behind::new(rt, alloc, shared, sources, workers);
    Ok(played(alloc, behind, story))
}

/// What a story's calls answer on such an output behind its lock.
pub fn played_behind<R: Wait>(rt: &R, alloc: Global, story: Story) -> Result<Notes> {
    played_behind_by::<Brand, R>(rt, alloc, story, OpenedRun::new(usize::MAX))
}

/// Whether an output answered alike, by itself and behind its lock, and counted alike after each
/// call.
pub fn are_alike(bare: &Notes, behind: &Notes) -> bool {
    let is_text = bare.text.as_str() == behind.text.as_str();
    is_text && bare.counts.as_slice() == behind.counts.as_slice()
}

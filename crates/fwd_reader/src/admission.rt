//! Who may enter an output, who waits, and for what.
//!
//! A request goes to one output, the first whose pattern matches its tag. Before a source's first
//! request is handed in there (`Router::admit`), its reader asks here. Two bounds have to be met.
//!
//! **What is owed.** A request that is not answered yet takes memory beside its entries
//! (`fwd_peers::upkeep`). Without a bound on that, an output of empty requests would never be full,
//! and one of requests of five bytes would take more than a hundred times its `total_limit`. Each
//! reader has such a bound at each output, whatever `full` says (`OwedLimit`). A source is owed
//! more only where it is owed less than half of what is still free, so that a few sources do not
//! use up what all may have. What is owed rises with each request that is admitted (`owes`), and
//! falls once its receipt is collected (`answered`).
//!
//! **Room.** The entries that an output holds have at most `total_limit` bytes. With
//! `full = "close"` a request that has no room is handed in all the same: it is refused there, and
//! its source is closed. With `full = "wait"` its source waits in line until there is room. A
//! request that an empty output would have no room for is handed in once it has its turn, and
//! refused.
//!
//! **The line.** A reader's sources stand in the order in which they came (`SourceLine`), and the
//! first has its turn. Readers take turns too, a request each (`ReaderTurns`). What has room is
//! reserved until it is admitted or refused (`release`), so that no two readers use the same room.
//! A source that has its turn and is owed too much leaves the line: another output may be what it
//! waits for.
//!
//! **One reader** takes no turns and reserves nothing. Nobody else takes room: so it goes on with
//! what it found last, less what it let in since, and asks the output again where that is too
//! little. It has the same line, but no lock of it: two locks and the output's own would cost some
//! 40 ns for each request, and a short one takes 1,200 in all.
//!
//! **Who is asked again, and when.** A source whose request waits is not read. `Connections` keeps
//! it (`note_waiting`), in the order in which it came to wait, and has all of a reader's visited
//! again (`retry_waiting`) once something moved (`Router::has_moved`): a chunk was settled, a
//! receipt was collected, a source left the line, or the reader has its turn. It is looked at in
//! each turn of the reader (`tend`). Where another reader has its turn, or may have room, all are
//! called (`passes_on`). And a reader hears of what is settled as long as it is owed anything or
//! sources wait there (`rest`). While sources wait, chunks are sent before they are due
//! (`Output::closes`): only what is sent makes room, and is answered.
//!
//! **Who gives up.** Where all places are taken, a source that waits may have to give its own to a
//! new one (`EvictionCandidate`; the rule is in `places.rt` of `fwd_turns`). One whose other side
//! is gone is closed where it sends again, and else kept until there is room (`Visited::after`
//! there).
//!
//! **What is proved of it.** A request that has to wait changes nothing (`Router::admit`). What may
//! be owed: `OwedLimit`. What is owed rises and falls at the output that is meant, and at no other:
//! `Admission::owes`, `Admission::answered`. Who enters an output where sources wait was the first
//! in line: `SourceLine::judge`. What is reserved stays within the room, and readers stand in the
//! order in which they came, each once: `TurnState`. Which source gives its place:
//! `Connections::idlest`, `Connections::crowded_out`, `PlaceRule::choice`. That whoever waits is
//! asked again no clause says: `tests/full` tries it.

ghost use Rattle.std.specs.Prelude.{◌≡◌, ◌<◌, ◌+◌, ◌-◌, true, map, length, IfOk};
ghost use Rattle.fwd_peers.specs.Costs.{bounded};
ghost use Rattle.fwd_reader.specs.Entering.{owed_limit};
ghost use Rattle.fwd_reader.specs.Owing.{MayOwe, changed_at, limits_in, owed_at_each};

mod eviction_candidate;
mod full_report;
mod owed_limit;
mod reader_turns;
mod source_line;
mod waiting_tally;

use crate::output::Output;
pub(crate) use eviction_candidate::EvictionCandidate;
use full_report::{FullNews, FullReport};
use fwd_history::Run;
use fwd_monitors::{JournalEvent, Observer};
use fwd_peers::SourcePeer;
use reader_turns::ReaderTurns;
use source_line::SourceLine;
use std::alloc::{AllocError, Global};
use std::mem;
use std::sync::Wait;
use waiting_tally::WaitingTally;

/// What all readers share of an output's admission.
#[derive(Drop)]
pub struct SharedAdmission {
    turns: ReaderTurns,
    /// What waits there, for room or since too much is owed.
    waiting: WaitingTally,
    report: FullReport,
}

impl SharedAdmission {
    /// Nobody waits.
    pub fn new(alloc: Global) -> SharedAdmission {
        SharedAdmission {
            turns: ReaderTurns::new(alloc),
            waiting: WaitingTally::new(),
            report: FullReport::new(),
        }
    }

    /// How many sources have a request that waits.
    pub(crate) fn waiting_sources(&self) -> u64 {
        self.waiting.sources()
    }

    /// How many bytes the entries of these requests have.
    pub(crate) fn waiting_bytes(&self) -> u64 {
        self.waiting.bytes()
    }
}

/// What a reader's sources ask for at each output, in the settings' order.
#[derive(Drop)]
pub(crate) struct Admission<'a, J: Run> {
    pub outputs: &'a [Output<J>],
    /// The number of the reader whose they are.
    reader: usize,
    lines: Vec<SourceLine>,
    /// Something moved since that was last asked for: requests that wait may be admitted now.
    is_moved: bool,
}

impl<'a, J: Run> Admission<'a, J> {
    /// None of the sources of the reader of this number waits. The only error is out of memory.
    pub fn new(
        alloc: Global,
        outputs: &'a [Output<J>],
        reader: usize,
    ) -> Result<Admission<'a, J>, AllocError>
        ensures owed { IfOk result (λ admission.
            owed_at_each admission ≡ map (λ output. 0) outputs.now) }
        ensures limits { IfOk result (λ admission.
            limits_in admission ≡ map (λ output. owed_limit output.total) outputs.now) }
    {
        let mut lines = Vec::with_capacity(alloc, outputs.len())?;
        for output in outputs {
            lines.push(SourceLine::new(alloc, output, reader))?;
        }
        Ok(Admission {
            outputs,
            reader,
            lines,
            is_moved: false,
        })
    }

    /// Whether the first request that waits at a source may enter the output of this number. Where
    /// it may not, it waits there from now on.
    #[tactic(auto, using(crate::proofs::Owing::line_stays))]
    pub fn ask<R: Wait>(&mut self, rt: &R, output: u16, source: &mut SourcePeer<J>) -> bool
        ensures within { result ≡ true → output < length self.old.outputs.now
            → MayOwe self.old output source.old.owed }
        ensures source { source.new ≡ source.old }
        ensures owed { owed_at_each self.new ≡ owed_at_each self.old }
    {
        let Some(own) = self.outputs.get(output as usize) else {
            return true;
        };
        let Some(line) = self.lines.get_mut(output as usize) else {
            return true;
        };
        own.subscribers.enter(self.reader);
        let answer = line.ask(rt, own, output, source);
        self.is_moved = self.is_moved || answer.passes_on;
        answer.enters
    }

    /// A request of so many bytes that might enter the output of this number was admitted there, or
    /// refused: what was reserved for it is reserved no more.
    pub fn release<R: Wait>(&self, rt: &R, output: u16, bytes: u64) {
        let Some(own) = self.outputs.get(output as usize) else {
            return;
        };
        if own.waits_when_full && own.has_several_readers() && bytes <= own.total {
            own.admission.turns.release(rt, bytes);
        }
    }

    /// The output of this number owes an answer to a request more, which takes so many bytes beside
    /// its entries.
    pub fn owes(&mut self, output: u16, bytes: u64)
        ensures { owed_at_each self.new
            ≡ changed_at output (λ owed. bounded (owed + bytes)) (owed_at_each self.old) }
    {
        if let Some(line) = self.lines.get_mut(output as usize) {
            line.owed.rise(bytes);
        }
    }

    /// The output of this number answered requests, if any, that took so many bytes beside their
    /// entries.
    pub fn answered(&mut self, output: u16, bytes: u64)
        ensures { owed_at_each self.new
            ≡ changed_at output (λ owed. owed - bytes) (owed_at_each self.old) }
    {
        if bytes == 0 {
            return;
        }
        self.is_moved = true;
        if let Some(line) = self.lines.get_mut(output as usize) {
            line.owed.fall(bytes);
        }
    }

    /// A source goes: it waits at no output any more, and whoever is next in line may be admitted.
    #[tactic(auto, using(crate::proofs::Owing::line_stays))]
    pub fn leave<R: Wait>(&mut self, rt: &R, source: &mut SourcePeer<J>)
        ensures source { source.new ≡ source.old }
        ensures owed { owed_at_each self.new ≡ owed_at_each self.old }
    {
        let Some(place) = source.waiting_place() else {
            return;
        };
        let Some(own) = self.outputs.get(place.output as usize) else {
            return;
        };
        own.admission.waiting.remove(source);
        if !place.is_in_line {
            return;
        }
        let Some(line) = self.lines.get_mut(place.output as usize) else {
            return;
        };
        let is_moved = line.leave(rt, own, source.id());
        self.is_moved = self.is_moved || is_moved;
    }

    /// Whether sources of any reader wait at the output at a place: for room, or since too much is
    /// owed.
    pub fn has_waiting(&self, place: usize) -> bool {
        match self.outputs.get(place) {
            Some(own) => own.admission.waiting_sources() > 0,
            None => false,
        }
    }

    /// Something was settled.
    pub fn note_moved(&mut self)
        ensures { owed_at_each self.new ≡ owed_at_each self.old }
    {
        self.is_moved = true;
    }

    /// Whether requests that wait may be admitted now.
    pub fn is_moved(&self) -> bool {
        self.is_moved
    }

    /// Whether something moved since the last call.
    pub fn take_moved(&mut self) -> bool
        ensures { owed_at_each self.new ≡ owed_at_each self.old }
    {
        mem::replace(&mut self.is_moved, false)
    }

    /// Whether a source that waits has its turn now by other readers, which is looked at again; and
    /// an observer is told at which outputs sources wait, at a moment (milliseconds).
    pub fn tend<R: Wait, W: Observer>(&mut self, rt: &R, observer: &mut W, now: u64)
        ensures { owed_at_each self.new ≡ owed_at_each self.old }
    {
        for output in 0..u16::MAX {
            if self.lines.len() <= output as usize {
                break;
            }
            self.tend_at(rt, output, observer, now);
        }
    }

    /// The same at the output of this number, if there is one.
    #[tactic(auto, using(crate::proofs::Owing::line_stays))]
    fn tend_at<R: Wait, W: Observer>(&mut self, rt: &R, output: u16, observer: &mut W, now: u64)
        ensures { owed_at_each self.new ≡ owed_at_each self.old }
    {
        let Some(own) = self.outputs.get(output as usize) else {
            return;
        };
        let Some(line) = self.lines.get_mut(output as usize) else {
            return;
        };
        self.is_moved = line.gets_turn(rt, own) || self.is_moved;
        match line.news(own, now) {
            None => {}
            Some(FullNews::Full(sources)) => observer.observe(JournalEvent::Full {
                output,
                sources,
            }),
            Some(FullNews::Room) => observer.observe(JournalEvent::Room { output }),
        }
    }

    /// Whether another reader has its turn at an output from now on: then all are to be called.
    pub fn passes_on(&self) -> bool {
        let mut passes_on = false;
        for output in self.outputs {
            passes_on = output.admission.turns.take_passed() || passes_on;
        }
        passes_on
    }

    /// The reader is about to sleep: where an output owes it nothing and none of its sources waits
    /// for room, it need not hear of what is settled.
    pub fn rest(&self) {
        for (output, line) in self.outputs.iter().zip(&self.lines) {
            if line.is_quiet() {
                output.subscribers.leave(self.reader);
            }
        }
    }
}

//! Which of a reader's sources may enter one output, and which wait.

ghost use Rattle.std.specs.Prelude.{◌≡◌, ◌≢◌, false, true};
ghost use Rattle.fwd_reader.specs.Entering.{EntersInTurn, may_owe, owed_limit};
ghost use Rattle.fwd_reader.specs.Turning.{has_turn};

use super::full_report::FullNews;
use super::owed_limit::OwedLimit;
use super::reader_turns::Reservation;
use crate::output::Output;
use fwd_history::Run;
use fwd_peers::SourcePeer;
use std::alloc::Global;
use std::collections::VecDeque;
use std::mem;
use std::sync::Wait;

/// What becomes of a source's first request that waits.
#[derive(Clone, Copy)]
enum Verdict {
    /// It enters.
    Enters,
    /// It waits until something was answered, or settled: in line for room, or not.
    Waits { is_in_line: bool },
}

/// What a source that asks is told.
#[derive(Clone, Copy)]
pub(crate) struct Answer {
    /// Its first request enters.
    pub enters: bool,
    /// It has left the line, and others stand there that may have room now.
    pub passes_on: bool,
}

/// Whether a source stands in line for room at the output that its first request goes to.
fn is_in_line<J: Run>(source: &SourcePeer<J>) -> bool {
    match source.waiting_place() {
        Some(place) => place.is_in_line,
        None => false,
    }
}

/// What an output owes to a reader's sources, and which of them wait for room there.
#[derive(Drop)]
pub(crate) struct SourceLine {
    pub owed: OwedLimit,
    /// So many bytes of entries have room, as far as is known: no fewer have. It is kept where
    /// there is one reader alone.
    room: u64,
    /// The ids of the sources that wait for room, in the order in which they came. Each knows that
    /// it stands here, and who goes leaves.
    ids: VecDeque<u64>,
    /// The number of the reader whose they are.
    reader: usize,
    /// The reader has its turn, and its first source was looked at behind so many changes.
    looked: Option<u64>,
}

impl SourceLine {
    /// Nobody waits at an output without entries, of the sources of the reader of this number.
    pub fn new<J: Run>(alloc: Global, output: &Output<J>, reader: usize) -> SourceLine
        ensures owed { result.owed.owed ≡ 0 }
        ensures limit { result.owed.limit ≡ owed_limit output.now.total }
    {
        SourceLine {
            owed: OwedLimit::new(output.total),
            room: 0,
            ids: VecDeque::new(alloc),
            reader,
            looked: None,
        }
    }

    /// A source asks whether its first request that waits may enter this output of this number.
    /// Where it may not, it waits there from now on.
    pub fn ask<J: Run, R: Wait>(
        &mut self,
        rt: &R,
        output: &Output<J>,
        number: u16,
        source: &mut SourcePeer<J>,
    ) -> Answer
        ensures within { result.enters ≡ true
            → may_owe self.old.owed.limit self.old.owed.owed source.old.owed ≡ true }
        ensures source { source.new ≡ source.old }
        ensures owed { self.new.owed ≡ self.old.owed }
    {
        let was_in_line = is_in_line(source);
        let waiting = &output.admission.waiting;
        match self.judge(rt, output, source) {
            Verdict::Enters => {
                waiting.remove(source);
                Answer {
                    enters: true,
                    passes_on: self.has_waiting(),
                }
            }
            Verdict::Waits { is_in_line } => {
                waiting.add(source, number, is_in_line);
                Answer {
                    enters: false,
                    passes_on: was_in_line && !is_in_line && self.has_waiting(),
                }
            }
        }
    }

    /// What becomes of a source's first request that waits. It enters where its source may be owed
    /// more; and, where sources wait until an output has room, where it has its turn, and room.
    /// Where it has not, its source stands in line from now on.
    fn judge<J: Run, R: Wait>(
        &mut self,
        rt: &R,
        output: &Output<J>,
        source: &SourcePeer<J>,
    ) -> Verdict
        ensures in_turn { result ≡ Verdict.Enters → output.now.waits_when_full ≡ true
            → EntersInTurn self.old.ids.items source.now.id self.new.ids.items }
        ensures within { result ≡ Verdict.Enters
            → may_owe self.old.owed.limit self.old.owed.owed source.now.owed ≡ true }
        ensures owed { self.new.owed ≡ self.old.owed }
    {
        let (id, is_in_line) = (source.id(), is_in_line(source));
        if !self.owed.admits(source.owed() as u64) {
            return self.give_way(rt, output, id, is_in_line);
        }
        if !output.waits_when_full {
            return Verdict::Enters;
        }
        let bytes = source.asked_bytes() as u64;
        if !self.is_turn_of(id) || !self.has_room(rt, output, bytes) {
            return self.stand(id, is_in_line);
        }
        self.ids.pop_front();
        Verdict::Enters
    }

    /// A source that has its turn and may not use it gives it up, since it may be owed what another
    /// output cannot settle.
    fn give_way<J: Run, R: Wait>(
        &mut self,
        rt: &R,
        output: &Output<J>,
        id: u64,
        is_in_line: bool,
    ) -> Verdict
        ensures waits { result ≢ Verdict.Enters }
        ensures owed { self.new.owed ≡ self.old.owed }
    {
        if is_in_line && !self.is_turn_of(id) {
            return Verdict::Waits { is_in_line };
        }
        if is_in_line {
            self.leave(rt, output, id);
        }
        Verdict::Waits { is_in_line: false }
    }

    /// Whether nothing is owed, and nobody waits for room.
    pub fn is_quiet(&self) -> bool {
        self.owed.is_nothing() && self.ids.is_empty()
    }

    /// Whether somebody waits for room.
    pub fn has_waiting(&self) -> bool {
        !self.ids.is_empty()
    }

    /// Whether it is the turn of the source of this id: no other one stands before it.
    fn is_turn_of(&self, id: u64) -> bool
        ensures { result ≡ has_turn self.now.ids.items id }
    {
        match self.ids.front() {
            None => true,
            Some(first) => *first == id,
        }
    }

    /// A source waits for room, behind those that do. Where memory is refused it has no place in
    /// line, and asks again.
    fn stand(&mut self, id: u64, is_in_line: bool) -> Verdict
        ensures waits { result ≢ Verdict.Enters }
        ensures owed { self.new.owed ≡ self.old.owed }
    {
        let is_in_line = is_in_line || self.ids.push_back(id).is_ok();
        Verdict::Waits { is_in_line }
    }

    /// Whether so many bytes of entries have room, or would not have it in an empty output either;
    /// and, where there are other readers, whether it is this one's turn.
    fn has_room<J: Run, R: Wait>(&mut self, rt: &R, output: &Output<J>, bytes: u64) -> bool
        ensures line { self.new.ids ≡ self.old.ids }
        ensures owed { self.new.owed ≡ self.old.owed }
    {
        if output.has_several_readers() {
            return self.reserve(rt, output, bytes);
        }
        if self.room < bytes {
            let taken = output.shared.counts(rt).bytes;
            self.room = output.total.saturating_sub(taken);
        }
        let has_room = bytes <= self.room || output.total < bytes;
        if has_room {
            self.room = self.room.saturating_sub(bytes);
        }
        has_room
    }

    /// The same where there are other readers: so many bytes are reserved then.
    fn reserve<J: Run, R: Wait>(&mut self, rt: &R, output: &Output<J>, bytes: u64) -> bool
        ensures line { self.new.ids ≡ self.old.ids }
        ensures owed { self.new.owed ≡ self.old.owed }
    {
        let shared = (&output.shared, output.total);
        let reservation = output
            .admission
            .turns
            .reserve(rt, shared, self.reader, bytes);
        self.looked = match reservation {
            Reservation::Full(changes) => Some(changes),
            Reservation::Made | Reservation::Behind => None,
        };
        matches!(reservation, Reservation::Made)
    }

    /// The source of this id waits for room no more. It says whether it had its turn, and another
    /// one has it now.
    pub fn leave<J: Run, R: Wait>(&mut self, rt: &R, output: &Output<J>, id: u64) -> bool
        ensures owed { self.new.owed ≡ self.old.owed }
    {
        let had_turn = self.has_waiting() && self.is_turn_of(id);
        self.ids.retain(|other| *other != id);
        if self.ids.is_empty() && output.has_several_readers() {
            output.admission.turns.leave(rt, self.reader);
        }
        had_turn && self.has_waiting()
    }

    /// Whether sources wait for room, and the first is to be looked at: the reader has its turn, or
    /// there may be room for it, since it was.
    pub fn gets_turn<J: Run, R: Wait>(&mut self, rt: &R, output: &Output<J>) -> bool
        ensures { self.new.owed ≡ self.old.owed }
    {
        if self.ids.is_empty() || !output.has_several_readers() {
            return false;
        }
        let changes = output.admission.turns.changes_for(rt, self.reader);
        let looked = mem::replace(&mut self.looked, changes);
        changes.is_some() && changes != looked
    }

    /// What there is to tell at a moment (milliseconds) of those that wait for room.
    pub fn news<J: Run>(&self, output: &Output<J>, now: u64) -> Option<FullNews> {
        output.admission.report.news(self.ids.len(), now)
    }
}

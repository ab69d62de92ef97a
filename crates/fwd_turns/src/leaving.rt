//! What becomes of a source of a relay that was asked to stop: how far it has come, how it is read,
//! and when it goes. What the stages are stands in `draining`.

ghost use Rattle.std.specs.Prelude.{◌≡◌, ◌+◌, ◌<◌, ◌≤◌, false, length};
ghost use Rattle.fwd_peers.specs.Peers.{is_owed_nothing};
ghost use Rattle.fwd_peers.specs.declared.peer_state.PeerState.TheVariants.{Over};
ghost use Rattle.fwd_turns.specs.Leaving.{
  GoesOn,
  TakesAhead,
  ahead_of,
  comes_to,
  gap_at,
  is_done,
  is_quiet,
  left_empty,
  pause_at,
  quiet_at,
  read_by,
  step_for,
  swept,
  taken_of,
};

use crate::visiting::{judge, read_source};
use fwd_history::Run;
use fwd_output::UnsentRequests;
use fwd_peers::{LastReading, LeaveStage, SourcePeer};
use fwd_reader::{Connections, Peer};
use std::alloc::Global;

/// For how long a stream is empty that is quiet, in milliseconds: longer than a system waits before
/// it acknowledges bytes, and before it sends again what was lost.
pub(crate) const QUIET: u64 = 250;

/// The same of a source that was told that no more comes, and sent without such a pause for a
/// second: longer than a system waits in the least before it acknowledges bytes, so that a burst is
/// over.
pub(crate) const GAP: u64 = 60;

/// How long a source that was told that no more comes may send without even a gap, in milliseconds.
/// Then a brief one is enough.
pub(crate) const LONGEST: u64 = 5_000;

/// How long a brief gap is, in milliseconds: longer than a burst is held up in between.
pub(crate) const BRIEF: u64 = 10;

/// How long it may send without even a brief gap, in milliseconds. Then it is enough that a look
/// finds nothing behind bytes that came: the system of the other side holds the least back then.
pub(crate) const ENDLESS: u64 = 10_000;

/// For how long the stream of a source is empty that was told that no more comes, and of which no
/// byte stays unread, in milliseconds: it has so long to close. Once it sent for longer than it may
/// without such a pause, a gap is enough.
pub(crate) const LINGER: u64 = 1_000;

/// The most bytes of a piece that stays unread in a stream once it was taken.
pub(crate) const HELD: usize = 16_384;

/// What becomes of a source in a visit that reads nothing.
#[derive(Clone, Copy, PartialEq, Eq)]
pub(crate) enum LeaveStep {
    /// Nothing, for now.
    Rests,
    /// It is read from now on as one that leaves.
    Begins,
    /// It is told that no more comes.
    Ends,
    /// Its stream has been empty for long enough: it is looked at once more.
    Looks,
}

/// For how long a stream is empty that is quiet, which had been read for so long when it became
/// empty (both in milliseconds): once it sent for a second without a pause, no longer.
fn quiet_at(age: u64) -> u64
    ensures { result ≡ quiet_at age }
{
    if age < 1_000 { QUIET } else { 0 }
}

/// The same of a source that was told that no more comes, where bytes that were taken stay in its
/// stream.
fn gap_at(age: u64) -> u64
    ensures { result ≡ gap_at age }
{
    if age < 1_000 {
        QUIET
    } else if age < LONGEST {
        GAP
    } else if age < ENDLESS {
        BRIEF
    } else {
        0
    }
}

/// The same where so many bytes stay there.
fn pause_at(taken: usize, age: u64) -> u64
    ensures { result ≡ pause_at taken age }
{
    if taken > 0 {
        gap_at(age)
    } else if age < LONGEST {
        LINGER
    } else {
        GAP
    }
}

/// Whether the stream of a source is quiet at a moment (milliseconds).
fn is_quiet(reading: LastReading, now: u64) -> bool
    ensures { result ≡ is_quiet now reading }
{
    reading.is_quiet(quiet_at(reading.age()), now)
}

/// Whether the stream is quiet at a moment (milliseconds) of a source that was told that no more
/// comes, and of which so many bytes were taken that stay there.
fn is_done(reading: LastReading, taken: usize, now: u64) -> bool
    ensures { result ≡ is_done now reading taken }
{
    reading.is_quiet(pause_at(taken, reading.age()), now)
}

/// What becomes of a source at a moment (milliseconds) that has come so far, and is owed nothing or
/// not.
pub(crate) fn step_of(stage: LeaveStage, is_owed_nothing: bool, now: u64) -> LeaveStep
    ensures { result ≡ step_for now is_owed_nothing stage }
{
    let is_due = match stage {
        LeaveStage::Stays => return LeaveStep::Begins,
        LeaveStage::Settles if is_owed_nothing => return LeaveStep::Ends,
        LeaveStage::Reads(reading) => is_quiet(reading, now),
        LeaveStage::Leaves { reading, taken } => is_done(reading, taken, now),
        LeaveStage::Settles | LeaveStage::Cut => false,
    };
    if is_due {
        LeaveStep::Looks
    } else {
        LeaveStep::Rests
    }
}

/// Whether a source that has come so far is read, where it may have closed.
fn is_read(stage: LeaveStage, is_closing: bool) -> bool {
    match stage {
        LeaveStage::Settles => is_closing,
        LeaveStage::Cut => false,
        LeaveStage::Stays | LeaveStage::Reads(_) | LeaveStage::Leaves { .. } => true,
    }
}

/// What a read found.
#[derive(Clone, Copy, PartialEq, Eq)]
pub(crate) enum Found {
    /// Bytes, and there may be more.
    More,
    /// Bytes, and none behind them.
    Last,
    /// No byte.
    Nothing,
}

/// What a read found behind which there may be more or not, and which gave bytes or not.
fn found_by(may_have_more: bool, has_bytes: bool) -> Found
    ensures { result ≡ Found.Nothing → has_bytes ≡ false }
{
    match (may_have_more, has_bytes) {
        (true, _) => Found::More,
        (false, true) => Found::Last,
        (false, false) => Found::Nothing,
    }
}

/// How a source is read on behind a read at a moment (milliseconds) of so many bytes.
fn read_by(reading: LastReading, found: Found, count: usize, now: u64) -> LastReading
    ensures { result ≡ read_by now found count reading }
{
    match found {
        Found::More => reading.with_bytes(count),
        Found::Last => reading.with_bytes(count).found_empty(now),
        Found::Nothing => reading.found_empty(now),
    }
}

/// How far a source has come behind a read at a moment (milliseconds) of so many bytes.
fn after_read(stage: LeaveStage, found: Found, count: usize, now: u64) -> LeaveStage
    ensures { result ≡ comes_to now found count stage }
{
    match stage {
        LeaveStage::Reads(reading) => {
            let reading = read_by(reading, found, count, now);
            if is_quiet(reading, now) || reading.left == 0 {
                LeaveStage::Settles
            } else {
                LeaveStage::Reads(reading)
            }
        }
        LeaveStage::Leaves { reading, taken } => LeaveStage::Leaves {
            reading: read_by(reading, found, count, now),
            taken,
        },
        stage => stage,
    }
}

/// Reads a source at a moment (milliseconds), as far as it has come, and says whether there may be
/// more that is to be read. None of its requests is given, and where some wait nothing is read.
pub(crate) fn read_leaving<J: Run>(
    source: &mut SourcePeer<J>,
    alloc: Global,
    room: &mut [u8],
    to_end: bool,
    now: u64,
) -> bool
    ensures waiting { 0 < length source.old.live.waiting
        → source.new.live.waiting ≡ source.old.live.waiting }
    ensures none { source.new.live.admitted ≡ source.old.live.admitted }
{
    let stage = source.leave_stage();
    if let LeaveStage::Stays = stage {
        return read_source(source, alloc, room, to_end, now);
    }
    if !is_read(stage, to_end) {
        return false;
    }
    if source.waiting() > 0 {
        return true;
    }
    match stage {
        LeaveStage::Leaves { reading, .. } if reading.left == 0 => cut_off(source),
        LeaveStage::Leaves { .. } => read_last(source, alloc, room, to_end, now),
        LeaveStage::Stays | LeaveStage::Reads(_) | LeaveStage::Settles | LeaveStage::Cut => {
            read_on(source, alloc, room, to_end, now)
        }
    }
}

/// Reads a source at a moment (milliseconds), notes how far it has come, and says whether there may
/// be more that is to be read. What its stream has was not taken before.
fn read_on<J: Run>(
    source: &mut SourcePeer<J>,
    alloc: Global,
    room: &mut [u8],
    to_end: bool,
    now: u64,
) -> bool
    requires { taken_of source.old.leave ≡ 0 }
    ensures none { source.new.live.admitted ≡ source.old.live.admitted }
    ensures leave { GoesOn now source.old source.new }
{
    let stage = source.leave_stage();
    let count = source.look(room).min(source.portion(room.len()));
    let again = read_source(source, alloc, room, to_end, now);
    let found = found_by(again, source.heard() == now);
    let stage = after_read(stage, found, count, now);
    source.leave_by(stage);
    again && is_read(stage, to_end)
}

/// A source that was told that no more comes is over before it was read to its end. There is
/// nothing more to be read of it.
fn cut_off<J: Run>(source: &mut SourcePeer<J>) -> bool
    ensures cut { source.new ≡ record source.old { stage = Over; leave = LeaveStage.Cut } }
    ensures none { result ≡ false }
{
    source.end();
    source.leave_by(LeaveStage::Cut);
    false
}

/// What a source's stream has beside what was taken of it.
#[derive(Clone, Copy, PartialEq, Eq)]
pub(crate) enum Ahead {
    /// Nothing.
    Nothing,
    /// Bytes that may stay there.
    Few,
    /// Bytes that may not.
    Many,
}

/// What a stream has that was seen to have so many bytes, of which so many were taken, and which was
/// found empty at the look before or not. Bytes stay there only if they are all that came since the
/// relay last had all: a part of more may close the window of the other side, which could not send
/// the rest.
fn ahead_of(seen: usize, taken: usize, was_empty: bool) -> Ahead
    ensures { result ≡ ahead_of seen taken was_empty }
{
    if seen <= taken {
        Ahead::Nothing
    } else if seen - taken <= HELD && (taken > 0 || was_empty) {
        Ahead::Few
    } else {
        Ahead::Many
    }
}

/// Reads a source at a moment (milliseconds) that was told that no more comes, and of which no
/// request waits; and says whether there may be more that is to be read. Each byte of it is taken
/// once, however much waits to be sent to it, for it is sent nothing more. Of what was taken the last
/// piece stays in its stream, if it is no longer than `HELD`.
fn read_last<J: Run>(
    source: &mut SourcePeer<J>,
    alloc: Global,
    room: &mut [u8],
    to_end: bool,
    now: u64,
) -> bool
    ensures { source.new.live.admitted ≡ source.old.live.admitted }
{
    let LeaveStage::Leaves { reading, taken } = source.leave_stage() else {
        return false;
    };
    let seen = source.look(room);
    let before = match ahead_of(seen, taken, reading.empty.is_some()) {
        Ahead::Nothing => {
            find_empty(source, reading, taken, to_end, now);
            return false;
        }
        Ahead::Few => taken,
        Ahead::Many => seen,
    };
    take_ahead(source, alloc, &room[..seen], taken, now);
    let dropped = drop_front(source, &mut room[..before]);
    source.leave_by(LeaveStage::Leaves {
        reading: reading.with_bytes(seen.saturating_sub(taken)),
        taken: seen.saturating_sub(dropped),
    });
    source.stands()
}

/// Takes in what a source's stream has behind so many bytes that were taken before, at a moment
/// (milliseconds). It stays there.
fn take_ahead<J: Run>(
    source: &mut SourcePeer<J>,
    alloc: Global,
    seen: &[u8],
    taken: usize,
    now: u64,
)
    ensures { TakesAhead taken seen.now source.old source.new }
{
    source.hear_ahead(alloc, seen, taken, now);
    judge(source);
}

/// A source's stream drops its first bytes, which were taken, as many as the room has: how many it
/// dropped.
fn drop_front<J: Run>(source: &mut SourcePeer<J>, room: &mut [u8]) -> usize
    ensures { source.new.live ≡ source.old.live }
{
    if room.is_empty() {
        // To read nothing looks like the stream's end.
        return 0;
    }
    source.drop_taken(room)
}

/// The stream of a source that was told that no more comes was found empty at a moment
/// (milliseconds), but for the bytes that were taken: it goes if it closed, or if its stream has
/// been empty for long enough.
fn find_empty<J: Run>(
    source: &mut SourcePeer<J>,
    reading: LastReading,
    taken: usize,
    to_end: bool,
    now: u64,
)
    ensures { source.new ≡ left_empty now to_end reading taken source.old }
{
    let reading = reading.found_empty(now);
    source.leave_by(LeaveStage::Leaves { reading, taken });
    if to_end || is_done(reading, taken, now) {
        source.end();
    }
}

/// Visits each source of a reader that drains at a moment (milliseconds).
pub(crate) fn sweep<J: Run>(connections: &mut Connections<J>, now: u64) {
    for key in 0..connections.key_limit() {
        match visit(connections, key, now) {
            LeaveStep::Begins | LeaveStep::Ends | LeaveStep::Looks => {
                connections.note_ready(key, false);
            }
            LeaveStep::Rests => {}
        }
    }
}

/// Visits the source of a key, if there is one, at a moment (milliseconds), and says what is left
/// to do with it.
fn visit<J: Run>(connections: &mut Connections<J>, key: usize, now: u64) -> LeaveStep {
    match connections.at(key) {
        Some(Peer::Source(source)) => visit_source(source, now),
        _ => LeaveStep::Rests,
    }
}

/// The same of a source at hand.
fn visit_source<J: Run>(source: &mut SourcePeer<J>, now: u64) -> LeaveStep
    ensures step { result ≡ step_for now (is_owed_nothing source.old) source.old.leave }
    ensures swept { source.new ≡ swept now source.old }
{
    let step = step_of(source.leave_stage(), source.is_owed_nothing(), now);
    let reading = LastReading::begun(now);
    match step {
        LeaveStep::Begins => source.leave_by(LeaveStage::Reads(reading)),
        LeaveStep::Ends => {
            source.shut(LeaveStage::Leaves { reading, taken: 0 });
        }
        LeaveStep::Looks | LeaveStep::Rests => {}
    }
    step
}

/// The relay ends, and no request is admitted any more that waits at these connections. What those
/// had.
pub(crate) fn give_up<J: Run>(connections: &mut Connections<J>) -> UnsentRequests {
    let mut unsent = UnsentRequests::none();
    for key in 0..connections.key_limit() {
        if let Some(Peer::Source(source)) = connections.at(key) {
            unsent = unsent.and(source.give_up());
        }
    }
    unsent
}

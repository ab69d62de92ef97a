//! Turns of a session over a link that holds an acknowledgement before the frame's last byte.

ghost use Rattle.std.specs.Prelude.{◌≡◌, ◌<◌, false, IfOk};
ghost use Rattle.fwd_run.specs.Pages.{page_count};
ghost use Rattle.fwd_session.specs.Live.{live_room};

use crate::batches::{ACK, MESSAGE, batch, drop_chunk, drop_session, limits, login, terms};
use crate::faulty::{Faulty, Got, Wrong};
use crate::memory::Wire;
use crate::output_plan::output;
use crate::paging::begin;
use anyhow::{Result, bail};
use fwd_base::Bytes;
use fwd_history::Run;
use fwd_model::{FlushKind, Origin, OwnedSalt};
use fwd_output::OutputState;
use fwd_run::{OpenedRun, WorkerPage};
use fwd_session::{LoadFailed, Session};
use fwd_workers::{Served, serve_gathered, serve_turn};
use std::alloc::Global;
use std::marker::Brand;
use std::sync::Wait;

/// The frame of a Message `["a", 1, {}]`, under the name of the first chunk.
const FRAME: &[u8] =
    b"\x93\xa1a\xc4\x03\x92\x01\x80\x82\xa4size\x01\xa5chunk\xb8AAAAAAAAAAAAAAAAAAAAAQ==";

/// More turns than a byte of the frame at a time takes.
const MOST_TURNS: u32 = 100;

/// The room that gathered turns are handed.
const ROOM: usize = 4_096;

/// A session that begins, with a login without a key.
fn session(alloc: Global) -> Result<Session>
    ensures { IfOk result (λ s. (0 < live_room s) × (s.down ≡ false)) }
{
    let Some(salt) = OwnedSalt::new(Bytes::new(alloc)) else {
        bail!("no salt");
    };
    let login = login(alloc)?;
    Ok(Session::up(alloc, 0, login, salt, terms(1), 0)?)
}

/// Admits a Message.
fn admit_one(alloc: Global, state: &mut OutputState) -> Result<()> {
    let request = batch(alloc, MESSAGE)?;
    let origin = Origin {
        conn: 1,
        request: 1,
    };
    if state.holds(origin) {
        bail!("admitted before");
    }
    state.admit(alloc, origin, &request, 0)?;
    Ok(())
}

/// An output with one chunk, which is closed.
fn closed_output(alloc: Global) -> Result<OutputState> {
    let mut state = OutputState::new(alloc, limits(1000, 100_000), [0; 6], 0, &[false])?;
    admit_one(alloc, &mut state)?;
    state.flush(0, FlushKind::All);
    Ok(state)
}

/// A worker's page in a run that begins.
fn page_of<J: Run>(alloc: Global, opened: OpenedRun) -> Result<WorkerPage<J>>
    requires { (opened.book ≡ J.book) × (opened.pages ≡ page_count) }
{
    let mut begun = begin::<J>(alloc, opened, output(1000, 100_000, 1))?;
    Ok(begun.worker()?.into_page())
}

/// A session that is loaded with the output's chunk, if there is memory for it.
fn loaded_session(alloc: Global, state: &mut OutputState) -> Result<Session> {
    let mut session = session(alloc)?;
    if let Ok(Some(chunk)) = state.take(alloc, 0, 0) {
        if let Err(LoadFailed { chunk, error: _ }) = session.load(alloc, chunk, 0) {
            drop_chunk(alloc, chunk);
        }
    }
    Ok(session)
}

/// How a session writes: a piece a turn, or what is gathered of many.
#[derive(Clone, Copy)]
enum Writing {
    Pieces,
    Gathered,
}

/// How many turns it takes until the server has acknowledged the frame.
fn turns_over<J: Run, R: Wait>(
    rt: &R,
    page: &mut WorkerPage<J>,
    session: &mut Session,
    link: &mut Wire,
    writing: Writing,
) -> Result<u32> {
    let alloc = link.alloc();
    for turn in 1..=MOST_TURNS {
        if session.is_down() {
            bail!("down");
        }
        let served = match writing {
            Writing::Pieces => serve_turn(rt, alloc, link, session, page),
            Writing::Gathered => serve_gathered(rt, alloc, link, session, page, &mut [0; ROOM]),
        };
        if matches!(served, Served::Acked) {
            return Ok(turn);
        }
    }
    bail!("not acknowledged")
}

/// The same over a link that takes at most so many bytes at once, and whether it took just the
/// frame, in a run that this history is of.
fn sent_by<J: Run, R: Wait>(
    rt: &R,
    alloc: Global,
    opened: OpenedRun,
    most: usize,
    writing: Writing,
) -> Result<(u32, bool)>
    requires { (opened.book ≡ J.book) × (opened.pages ≡ page_count) }
{
    let mut page = page_of::<J>(alloc, opened)?;
    let mut state = closed_output(alloc)?;
    let mut session = loaded_session(alloc, &mut state)?;
    let mut link = Wire::new(alloc, most);
    let turns = turns_over(rt, &mut page, &mut session, &mut link, writing);
    drop_session(alloc, session);
    Ok((turns?, link.has_taken(FRAME)))
}

/// The same.
fn sent<R: Wait>(rt: &R, alloc: Global, most: usize, writing: Writing) -> Result<(u32, bool)> {
    sent_by::<Brand, R>(rt, alloc, OpenedRun::new(usize::MAX), most, writing)
}

/// How many turns the frame of one Message takes over a link that takes at most so many bytes at
/// once, piece by piece and gathered, and whether the link took just the frame both times.
pub fn turns<R: Wait>(rt: &R, alloc: Global, most: usize) -> Result<(u32, u32, bool)> {
    let (pieces, is_frame) = sent(rt, alloc, most, Writing::Pieces)?;
    let (gathered, is_same) = sent(rt, alloc, most, Writing::Gathered)?;
    Ok((pieces, gathered, is_frame && is_same))
}

/// The first answer of turns by pieces that is not quiet. Each has to be `Failed` just where its
/// own calls of the link failed.
fn turns_until<J: Run, R: Wait>(
    rt: &R,
    alloc: Global,
    page: &mut WorkerPage<J>,
    link: &mut Faulty<'_>,
    session: &mut Session,
) -> Result<Served> {
    for _ in 0..MOST_TURNS {
        if session.is_down() {
            bail!("down");
        }
        let before = link.failed();
        let served = serve_turn(rt, alloc, link, session, page);
        if matches!(served, Served::Failed(_)) != (link.failed() > before) {
            bail!("failed, and the link did not");
        }
        if !matches!(served, Served::Quiet) {
            return Ok(served);
        }
    }
    bail!("quiet")
}

/// The same with a session that is loaded with a Message's chunk, in a run that this history is of.
fn turns_over_faulty_by<J: Run, R: Wait>(
    rt: &R,
    alloc: Global,
    opened: OpenedRun,
    wrong: Option<Wrong>,
) -> Result<Served>
    requires { (opened.book ≡ J.book) × (opened.pages ≡ page_count) }
{
    let mut page = page_of::<J>(alloc, opened)?;
    let mut state = closed_output(alloc)?;
    let mut session = loaded_session(alloc, &mut state)?;
    let got = Got::new();
    let mut link = Faulty::new(alloc, wrong, &got);
    let served = turns_until(rt, alloc, &mut page, &mut link, &mut session);
    drop_session(alloc, session);
    served
}

/// The same.
fn turns_over_faulty<R: Wait>(rt: &R, alloc: Global, wrong: Option<Wrong>) -> Result<Served> {
    turns_over_faulty_by::<Brand, R>(rt, alloc, OpenedRun::new(usize::MAX), wrong)
}

/// What turns by pieces come to over a link that fails at its call of this number.
pub fn failed_at<R: Wait>(rt: &R, alloc: Global, call: u64) -> Result<Served> {
    turns_over_faulty(rt, alloc, Some(Wrong::Fails(call)))
}

/// What they come to over a link that takes so many bytes of the frame's 46, and then gives its
/// acknowledgement.
pub fn served<R: Wait>(rt: &R, alloc: Global, most: usize) -> Result<Served> {
    turns_over_faulty(rt, alloc, Some(Wrong::Lies(most, ACK)))
}

/// What they come to over a good link, if there is memory to begin with.
pub fn well<R: Wait>(rt: &R, alloc: Global) -> Option<Served> {
    match turns_over_faulty(rt, alloc, None) {
        Ok(served) => Some(served),
        Err(_) => None,
    }
}

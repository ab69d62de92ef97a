//! One turn of a session over its link.

ghost use Rattle.std.specs.Prelude.{
  ◌≡◌,
  ◌≢◌,
  ◌≤◌,
  ◌<◌,
  ◌++◌,
  ℕ,
  [],
  Ok,
  Err,
  false,
  IfOk,
  IfErr,
  length,
  take,
};
ghost use Rattle.fwd_session.specs.Live.{live_room, session_sends};
ghost use Rattle.fwd_environment.specs.Links.{HasOffered, IsOffer, write_of};
ghost use Rattle.fwd_workers.specs.Placed.{Moves};
ghost use Rattle.fwd_workers.specs.Served.{
  HasRead,
  HasTurned,
  IsFree,
  IsHeard,
  IsServed,
  IsTurn,
  seen_in,
  takes_more,
};

use crate::own_session::OwnSession;
use fwd_environment::{Link, LinkFault, Read};
use fwd_history::Run;
use fwd_run::WorkerPage;
use fwd_session::{Session, SessionFault, SessionHeard};
use std::alloc::Global;
use std::sync::Wait;

/// The most bytes that a turn by itself reads. A server's replies are short.
const TURN_ROOM: usize = 4_096;

/// The most bytes that a worker gathers for one write, and that it reads at once.
pub(crate) const ROOM: usize = 65_536;

/// How many these are where it has no memory for more.
const SMALL_ROOM: usize = 64;

/// What a turn of a session came to.
#[derive(Clone, Copy, Debug)]
pub enum Served {
    /// Nothing that asks for anything.
    Quiet,
    /// The handshake is done: chunks may be loaded.
    Ready,
    /// The session's chunk is acknowledged, and can be taken out.
    Acked,
    /// A fault put the session down. An acknowledgement that was accepted before it stands.
    Down(SessionFault),
    /// The server closed its side.
    Closed,
    /// The link failed.
    Failed(LinkFault),
    /// Memory was refused. What was read is lost, so the link must be ended.
    Memory,
}

/// Pieces of so many bytes or more are offered as they stand, with the ones beside them, where
/// smaller ones are gathered.
const LARGE: usize = 16_384;

/// What a link is offered of the bytes that wait.
#[derive(Clone, Copy)]
enum Offer {
    /// Those that lie in one piece, which may be few.
    Piece,
    /// Those of a few pieces: as they stand where one of them is large, else gathered in a room.
    Pieces,
}

/// The link is offered the first of the bytes that wait, gathered in this room: how many it took.
fn write_gathered<L: Link, R: Wait>(
    rt: &R,
    link: &mut L,
    session: &Session,
    room: &mut [u8],
) -> Result<usize, LinkFault>
    requires room { 0 < length room.old }
    requires some { 0 < length session.now.waiting }
    ensures { HasOffered session.now.waiting (L.calls link.old) (L.calls link.new) result }
{
    let count = session.gather(room);
    link.write(rt, &room[..count])
}

/// The link is offered the first of the bytes that wait, in pieces of which one is large, or
/// gathered in this room: how many it took.
fn write_pieces<L: Link, R: Wait>(
    rt: &R,
    link: &mut L,
    session: &Session,
    room: &mut [u8],
) -> Result<usize, LinkFault>
    requires room { 0 < length room.old }
    requires some { 0 < length session.now.waiting }
    ensures { HasOffered session.now.waiting (L.calls link.old) (L.calls link.new) result }
{
    let pieces = session.pieces();
    if pieces.has_large(LARGE) {
        link.write_pieces(rt, &pieces)
    } else {
        write_gathered(rt, link, session, room)
    }
}

/// The link is offered the first of the bytes that wait: how many it took.
fn write<L: Link, R: Wait>(
    rt: &R,
    link: &mut L,
    session: &Session,
    offer: Offer,
    room: &mut [u8],
) -> Result<usize, LinkFault>
    requires room { 0 < length room.old }
    requires some { 0 < length session.now.waiting }
    ensures { HasOffered session.now.waiting (L.calls link.old) (L.calls link.new) result }
{
    match offer {
        Offer::Piece => link.write(rt, session.out()),
        Offer::Pieces => write_pieces(rt, link, session, room),
    }
}

/// The link is offered the first of the bytes that wait, if any do, and the session is told how
/// many it took.
fn send<J: Run, L: Link, R: Wait>(
    rt: &R,
    link: &mut L,
    session: &mut Session,
    page: &mut WorkerPage<J>,
    offer: Offer,
    room: &mut [u8],
) -> Result<(), LinkFault>
    requires { 0 < length room.old }
    ensures sent { IfOk result (λ none. (size : ℕ) × (count : ℕ) × IsOffer size session.old.waiting
        × (count ≤ size) × (session.new ≡ session_sends session.old count)
        × (L.calls link.new
        ≡ L.calls link.old ++ write_of (take size session.old.waiting) (Ok count))) }
    ensures failed { IfErr result (λ fault. (size : ℕ) × IsOffer size session.old.waiting
        × (session.old.waiting ≢ []) × (session.new ≡ session.old)
        × (L.calls link.new
        ≡ L.calls link.old ++ write_of (take size session.old.waiting) (Err fault))) }
    ensures chunk { IsFree session.old → IsFree session.new }
    ensures setup { session.new.setup ≡ session.old.setup }
    ensures room { live_room session.new ≡ live_room session.old }
    ensures up { session.new.down ≡ session.old.down }
    ensures more { takes_more session.new ≡ takes_more session.old }
    ensures moves { Moves page.old page.new session.old session.new }
{
    if session.waiting() > 0 {
        let count = write(rt, link, session, offer, room)?;
        session.wrote(count);
        page.wrote(count as u64);
    }
    Ok(())
}

/// Whether a chunk more may be loaded into a session.
fn takes_more(session: &Session) -> bool
    ensures { result ≡ takes_more session.now }
{
    session.is_ready() && session.room() > 0
}

/// The session hears bytes.
#[tactic(auto, unfolding(fwd_session::specs::Live::session_takes))]
fn hear<J: Run>(
    alloc: Global,
    session: &mut Session,
    page: &mut WorkerPage<J>,
    bytes: &[u8],
) -> Served
    requires { session.old.down ≡ false }
    ensures heard { IsHeard result session.old session.new bytes.now }
    ensures chunk { IsFree session.old → IsFree session.new }
    ensures setup { session.new.setup ≡ session.old.setup }
    ensures room { live_room session.new ≡ live_room session.old }
    ensures moves { Moves page.old page.new session.old session.new }
{
    let Ok(told) = session.heard(alloc, bytes) else {
        return Served::Memory;
    };
    page.heard(bytes);
    match told.heard {
        SessionHeard::Quiet => Served::Quiet,
        SessionHeard::Ready => Served::Ready,
        SessionHeard::Acked => Served::Acked,
        SessionHeard::Fault(fault) => Served::Down(fault),
        SessionHeard::NotUp => unreachable!(),
    }
}

/// The link is read once, into this room, and the session hears what it gave.
fn read<J: Run, L: Link, R: Wait>(
    rt: &R,
    alloc: Global,
    link: &mut L,
    session: &mut Session,
    page: &mut WorkerPage<J>,
    room: &mut [u8],
) -> Served
    requires up { session.old.down ≡ false }
    requires some { 0 < length room.old }
    requires within { length room.old ≤ 65536 }
    ensures read { HasRead result session.old session.new (L.calls link.old) (L.calls link.new) }
    ensures chunk { IsFree session.old → IsFree session.new }
    ensures setup { session.new.setup ≡ session.old.setup }
    ensures room { live_room session.new ≡ live_room session.old }
    ensures moves { Moves page.old page.new session.old session.new }
{
    match link.read(rt, room) {
        Ok(Read::Bytes(count)) => hear(alloc, session, page, &room[..count]),
        Ok(Read::Nothing) => Served::Quiet,
        Ok(Read::Closed) => Served::Closed,
        Err(fault) => Served::Failed(fault),
    }
}

/// Where bytes wait to be sent, the link is asked once to take the first of them, as far as they
/// lie in one piece; and then, unless that failed, it is read once. What the link took the session
/// is told, and what the link gave it hears. After `Memory` what was written is told and nothing
/// that was read is heard, so the link must be ended.
pub fn serve_turn<J: Run, L: Link, R: Wait>(
    rt: &R,
    alloc: Global,
    link: &mut L,
    session: &mut Session,
    page: &mut WorkerPage<J>,
) -> Served
    requires { session.old.down ≡ false }
    ensures turn { IsTurn result session.old session.new (L.calls link.old) (L.calls link.new) }
    ensures served { IsServed result session.old session.new
        (seen_in (L.calls link.old)) (seen_in (L.calls link.new)) }
    ensures chunk { IsFree session.old → IsFree session.new }
    ensures setup { session.new.setup ≡ session.old.setup }
    ensures room { live_room session.new ≡ live_room session.old }
    ensures moves { Moves page.old page.new session.old session.new }
{
    let mut room = [0; TURN_ROOM];
    if let Err(fault) = send(rt, link, session, page, Offer::Piece, &mut room) {
        return Served::Failed(fault);
    }
    read(rt, alloc, link, session, page, &mut room)
}

/// The same, where several pieces are offered at once: as they stand where one of them is large, so
/// that its bytes are not copied, and else gathered in this room, which is read into, too. Where
/// the link took some, and more wait or a chunk more may be loaded, it is not read: a read may
/// wait, and the next turn goes on sending, or loads.
pub fn serve_gathered<J: Run, L: Link, R: Wait>(
    rt: &R,
    alloc: Global,
    link: &mut L,
    session: &mut Session,
    page: &mut WorkerPage<J>,
    room: &mut [u8],
) -> Served
    requires up { session.old.down ≡ false }
    requires some { 0 < length room.old }
    requires within { length room.old ≤ 65536 }
    ensures turn { HasTurned result session.old session.new (L.calls link.old) (L.calls link.new) }
    ensures served { IsServed result session.old session.new
        (seen_in (L.calls link.old)) (seen_in (L.calls link.new)) }
    ensures chunk { IsFree session.old → IsFree session.new }
    ensures setup { session.new.setup ≡ session.old.setup }
    ensures room { live_room session.new ≡ live_room session.old }
    ensures moves { Moves page.old page.new session.old session.new }
{
    let waiting = session.waiting();
    if let Err(fault) = send(rt, link, session, page, Offer::Pieces, room) {
        return Served::Failed(fault);
    }
    let left = session.waiting();
    if left < waiting && (0 < left || takes_more(session)) {
        return Served::Quiet;
    }
    read(rt, alloc, link, session, page, room)
}

/// The same in a worker's room, or in a small one where that is empty.
pub(crate) fn serve_in_room<J: Run, L: Link, R: Wait>(
    rt: &R,
    alloc: Global,
    link: &mut L,
    session: &mut OwnSession,
    page: &mut WorkerPage<J>,
    room: &mut Vec<u8>,
) -> Served
    requires { session.old.down ≡ false }
    ensures turn { HasTurned result session.old session.new (L.calls link.old) (L.calls link.new) }
    ensures served { IsServed result session.old session.new
        (seen_in (L.calls link.old)) (seen_in (L.calls link.new)) }
    ensures chunk { IsFree session.old → IsFree session.new }
    ensures setup { session.new.setup ≡ session.old.setup }
    ensures room { live_room session.new ≡ live_room session.old }
    ensures moves { Moves page.old page.new session.old session.new }
{
    if room.is_empty() {
        return serve_gathered(
            rt,
            alloc,
            link,
            &mut session.session,
            page,
            &mut [0; SMALL_ROOM],
        );
    }
    let most = room.len().min(ROOM);
    serve_gathered(
        rt,
        alloc,
        link,
        &mut session.session,
        page,
        &mut room[..most],
    )
}

//! The calls that take memory of a buffer, a session and a book.

ghost use Rattle.std.specs.Prelude.{◌≡◌, []};

use crate::growing::{HELO, again, call, login, tell, tell_refused};
use crate::outputs::{begin, drop_chunk, drop_session, load_once};
use crate::requests::batch_of;
use fwd_book::Book;
use fwd_chunks::{Buffer, BufferLimits, Carried, FlushKind, Spans};
use fwd_modes::{Batch, Origin};
use fwd_session::{Session, SessionHeard};
use std::alloc::{AllocError, Global};
use std::rt::Runtime;
use std::sync::Arc;

/// Two entries of three bytes fit a chunk.
const LIMITS: BufferLimits = BufferLimits {
    chunk: 6,
    total: 1000,
    interval: 1000,
    retry_wait: 500,
    retry_max: 4000,
    first: 1,
};

const ORIGIN: Origin = Origin {
    conn: 1,
    request: 1,
};

/// A Message of the tag `a`, a Forward of three such entries, and one of none.
const ONE: &[u8] = b"\x93\xa1a\x01\x80";

const THREE: &[u8] = b"\x92\xa1a\x93\x92\x01\x80\x92\x01\x80\x92\x01\x80";

const NOTHING: &[u8] = b"\x93\xa1a\x90\x81\xa5chunk\xa1x";

/// The acknowledgement of the chunk with number 1 of run 0 at output 0.
const ACK: &[u8] = b"\x81\xa3ack\xb8AAAAAAAAAAAAAAAAAAAAAQ==";

const PONG: &[u8] = b"\x95\xa4PONG\xc3\xa0\xa5brown\xd9\x80\
    07e547d9586f6a73f73fbac0435ed76951218fb7d0c8d788a309d785436bbb64\
    2e93a252a954f23912547d1e8a3b5ed6e1bfd7097821233fa0538f3db854fee6";

/// The request of these bytes.
fn request(alloc: Global, bytes: &[u8]) -> Result<Batch, AllocError> {
    batch_of(alloc, bytes).ok_or(AllocError)
}

/// What is admitted to a buffer.
fn tell_admitted<R: Print + AllocGlobal>(
    rt: &R,
    buffer: &mut Buffer,
    batch: &Batch,
) -> Result<(), AllocError> {
    let Ok(runs) = buffer.admit(rt.alloc(), ORIGIN, batch, 0) else {
        return Err(AllocError);
    };
    let count = runs.as_slice().len();
    tell(rt, "buffer admit", &format_args!("{count} runs"));
    Ok(())
}

/// What a buffer reports.
fn tell_report<R: Print + AllocGlobal>(rt: &R, buffer: &Buffer) -> Result<(), AllocError> {
    let tags = buffer.report(rt.alloc())?.tags.len();
    tell(rt, "buffer report", &format_args!("{tags} tags"));
    Ok(())
}

/// What is taken of a buffer.
fn tell_taken<R: Print + AllocGlobal>(rt: &R, buffer: &mut Buffer) -> Result<(), AllocError> {
    if let Some(chunk) = buffer.take(rt.alloc(), 0, 0)? {
        let (number, count) = (chunk.number(), chunk.count());
        drop_chunk(rt.alloc(), chunk);
        tell(rt, "buffer take", &format_args!("{number} entries {count}"));
    }
    Ok(())
}

/// A buffer.
fn call_buffer<R: Print + AllocGlobal>(rt: &R) -> Option<()> {
    let batch = again!(request(rt.alloc(), THREE));
    let mut buffer = Buffer::new(rt.alloc(), LIMITS, [0; 6], 0);
    call!(
        rt,
        "buffer admit",
        buffer.held(),
        tell_admitted(rt, &mut buffer, &batch)
    );
    call!(rt, "buffer report", tell_report(rt, &buffer));
    buffer.flush(0, FlushKind::All);
    call!(
        rt,
        "buffer take",
        buffer.held(),
        tell_taken(rt, &mut buffer)
    );
    Some(())
}

/// The chunk of one entry.
fn carried(alloc: Global) -> Option<Carried> {
    let batch = batch_of(alloc, ONE)?;
    let mut buffer = Buffer::new(alloc, LIMITS, [0; 6], 0);
    let _runs = buffer.admit(alloc, ORIGIN, &batch, 0).ok()?;
    buffer.flush(0, FlushKind::All);
    buffer.take(alloc, 0, 0).ok()?
}

/// Loads a chunk, again where it comes back.
fn call_load<R: Print + AllocGlobal>(rt: &R, session: &mut Session, chunk: Carried) {
    let before = session.waiting();
    let Some(chunk) = load_once(rt.alloc(), session, chunk) else {
        return;
    };
    tell_refused(rt, "session load", session.waiting() == before);
    if let Some(chunk) = load_once(rt.alloc(), session, chunk) {
        drop_chunk(rt.alloc(), chunk);
    }
}

/// What a session hears.
fn tell_heard<R: Print + AllocGlobal>(
    rt: &R,
    session: &mut Session,
    bytes: &[u8],
) -> Result<(), AllocError> {
    let told = session.heard(rt.alloc(), bytes)?;
    let name = match told.heard {
        SessionHeard::Quiet => "quiet",
        SessionHeard::Ready => "ready",
        SessionHeard::Acked => "acked",
        _ => "down",
    };
    let count = told.out.len();
    tell(rt, "session heard", &format_args!("{name} out {count}"));
    Ok(())
}

/// It hears bytes.
fn call_heard<R: Print + AllocGlobal>(rt: &R, session: &mut Session, bytes: &[u8]) {
    call!(
        rt,
        "session heard",
        (session.waiting(), session.is_ready(), session.is_acked()),
        tell_heard(rt, session, bytes)
    );
}

/// A session: HELO and PONG, a chunk, and its acknowledgement in two pieces.
fn call_talk<R: Print + AllocGlobal>(rt: &R, session: &mut Session, chunk: Carried) {
    let waiting = session.waiting();
    tell(rt, "session up", &format_args!("{waiting} bytes wait"));
    call_heard(rt, session, HELO);
    session.wrote(session.waiting() as usize);
    call_heard(rt, session, PONG);
    call_load(rt, session, chunk);
    let waiting = session.waiting();
    tell(rt, "session load", &format_args!("{waiting} bytes wait"));
    session.wrote(session.waiting() as usize);
    let (front, back) = ACK.split_at(9);
    call_heard(rt, session, front);
    call_heard(rt, session, back);
}

/// A session that begins with a server.
fn begun<R: Print + AllocGlobal>(rt: &R) -> Option<Session> {
    let login = again!(login(rt.alloc()));
    if let Some(session) = begin(rt.alloc(), Arc::try_clone(&login).ok()?, b"The quick ") {
        return Some(session);
    }
    tell_refused(rt, "session up", true);
    begin(rt.alloc(), login, b"The quick ")
}

/// A session.
fn call_session<R: Print + AllocGlobal>(rt: &R) -> Option<()> {
    let mut session = begun(rt)?;
    match carried(rt.alloc()) {
        Some(chunk) => call_talk(rt, &mut session, chunk),
        None => {
            if let Some(chunk) = carried(rt.alloc()) {
                call_talk(rt, &mut session, chunk);
            }
        }
    }
    drop_session(rt.alloc(), session);
    Some(())
}

/// A book that a request without entries is entered in.
fn entered(alloc: Global, batch: &Batch) -> Option<Book>
    requires { batch.now.entries ≡ [] }
{
    let mut book = Book::new(alloc, [0; 6], 0);
    if book.prepare(batch).is_err() {
        return None;
    }
    book.enter(ORIGIN, Spans::new(alloc));
    Some(book)
}

/// The requests that are due.
fn tell_due<R: Print + AllocGlobal>(rt: &R, book: &Book) -> Result<(), AllocError> {
    tell(rt, "book due", &book.due(rt.alloc(), 1)?.len());
    Ok(())
}

/// The receipts of a request that is due.
fn tell_receipts<R: Print + AllocGlobal>(rt: &R, book: &Book) -> Result<(), AllocError> {
    tell(
        rt,
        "book gather",
        &book.gather(rt.alloc(), &[ORIGIN])?.len(),
    );
    Ok(())
}

/// What a book tells that holds a request which is due.
fn call_receipts<R: Print + AllocGlobal>(rt: &R, book: &Book) {
    call!(rt, "book due", tell_due(rt, book));
    call!(rt, "book gather", tell_receipts(rt, book));
}

/// The room for a request in a book.
fn call_prepare<R: Print + AllocGlobal>(rt: &R, batch: &Batch) {
    let mut book = Book::new(rt.alloc(), [0; 6], 0);
    call!(rt, "book prepare", book.holds(ORIGIN), book.prepare(batch));
    tell(rt, "book prepare", &book.holds(ORIGIN));
}

/// A book: the room for a request, and its receipt.
fn call_book<R: Print + AllocGlobal>(rt: &R) -> Option<()> {
    let batch = again!(request(rt.alloc(), NOTHING));
    if !batch.is_empty() {
        return None;
    }
    call_prepare(rt, &batch);
    match entered(rt.alloc(), &batch) {
        Some(book) => call_receipts(rt, &book),
        None => call_receipts(rt, &entered(rt.alloc(), &batch)?),
    }
    Some(())
}

/// Makes each call.
pub fn call_all<R: Runtime + AllocGlobal>(rt: &R) -> Option<()> {
    call_buffer(rt)?;
    call_session(rt)?;
    call_book(rt)
}

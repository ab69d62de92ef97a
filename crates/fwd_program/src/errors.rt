//! Standard error, written by a thread of its own, since no call of the kit gives up a write that
//! blocks. Writes that do not block would be set for every user of the same pipe.

use fwd_journal::Log;
use std::alloc::{AllocError, Global};
use std::io::{ErrorKind, Write};
use std::rt::Clock;
use std::sync::{Arc, Condvar, Mutex, Wait};
use std::thread::{JoinHandle, Threads};
use std::time::Duration;
use std::{io, mem, thread};

/// The most bytes that wait to be written: a thousand lines of the usual length.
const ROOM: usize = 0x1_0000;

/// How long what still waits in the end has to be taken, in milliseconds.
const LAST_WAIT: u64 = 1_000;

/// What waits to be written.
#[derive(Drop)]
struct QueuedText {
    text: Vec<u8>,
    /// Nothing more comes.
    is_closed: bool,
    /// The thread is done with all of it.
    is_written: bool,
}

/// What the thread that writes shares with the one that tells.
#[derive(Drop)]
struct WriterQueue {
    queued: Mutex<QueuedText>,
    changed: Condvar,
}

impl WriterQueue {
    /// Nothing waits. There is room for all that may.
    fn new(alloc: Global) -> Result<WriterQueue, AllocError> {
        let queued = QueuedText {
            text: Vec::with_capacity(alloc, ROOM)?,
            is_closed: false,
            is_written: false,
        };
        Ok(WriterQueue {
            queued: Mutex::new(queued),
            changed: Condvar::new(),
        })
    }

    /// Takes a text, or nothing of it where it does not fit: whether it did.
    fn put<R: Wait>(&self, rt: &R, text: &[u8]) -> bool {
        let mut queued = self.queued.lock(rt);
        let taken = queued.text.len().saturating_add(text.len()) <= ROOM
            && queued.text.extend_from_slice(text).is_ok();
        drop(queued);
        self.changed.notify_all();
        taken
    }

    /// Waits until something is to be written, and gives it for an empty room. It gives nothing
    /// only where nothing more comes.
    fn exchange<R: Wait>(&self, rt: &R, room: Vec<u8>) -> Vec<u8> {
        let queued = self.queued.lock(rt);
        let mut queued = self.changed.wait_while(rt, queued, |queued| {
            queued.text.is_empty() && !queued.is_closed
        });
        mem::replace(&mut queued.text, room)
    }

    /// All is written.
    fn finish<R: Wait>(&self, rt: &R) {
        self.queued.lock(rt).is_written = true;
        self.changed.notify_all();
    }

    /// Nothing more comes. It waits a second for what is not written yet: whether all is.
    fn close<R: Wait + Clock>(&self, rt: &R) -> bool {
        let mut queued = self.queued.lock(rt);
        queued.is_closed = true;
        self.changed.notify_all();
        let limit = Duration::from_millis(LAST_WAIT);
        let (_waiting, ended) = self
            .changed
            .wait_timeout_while(rt, queued, limit, |queued| !queued.is_written);
        !ended.timed_out()
    }
}

/// Writes what comes, until nothing more does. What cannot be written is lost.
fn write_out<R: Wait, E: Write>(rt: &R, outbox: &WriterQueue, errors: &mut E, room: Vec<u8>) {
    let mut room = room;
    for _ in rt.forever() {
        let mut text = outbox.exchange(rt, room);
        if text.is_empty() {
            outbox.finish(rt);
            return;
        }
        let _ = errors.write_all(text.as_slice());
        text.clear();
        room = text;
    }
}

/// A queue and the thread that writes what comes into it.
#[derive(Drop)]
struct Queue {
    outbox: Arc<WriterQueue>,
    writer: JoinHandle<()>,
}

impl Queue {
    /// An empty queue, with its thread, or nothing where there is no memory or no thread for it.
    fn start<R: Threads + Wait + Copy + Send + 'static, E: Write + Copy + Send + Drop + 'static>(
        alloc: Global,
        rt: R,
        errors: E,
    ) -> Option<Queue> {
        let outbox = Arc::new(alloc, WriterQueue::new(alloc).ok()?).ok()?;
        let theirs = Arc::try_clone(&outbox).ok()?;
        let room = Vec::with_capacity(alloc, ROOM).ok()?;
        let mut errors = errors;
        let write = move || write_out(&rt, &theirs, &mut errors, room);
        let writer = thread::spawn(&rt, write).ok()?;
        Some(Queue { outbox, writer })
    }

    /// Nothing more comes. A thread whose text is not taken is left behind, and ends with the
    /// program.
    fn close<R: Threads + Wait + Clock>(self, rt: &R) {
        let Queue { outbox, writer } = self;
        if outbox.close(rt) {
            writer.join(rt);
        }
    }
}

/// Where the program tells of itself. With a log what it tells goes into a queue, which a thread
/// writes, so that nobody waits for who reads it: what does not fit is refused as `WouldBlock`, all
/// of it. Without a log, or where no thread can be had, it is written at once.
#[derive(Drop)]
pub struct Errors<R: Wait + Drop, E: Write + Drop> {
    rt: R,
    errors: E,
    queue: Option<Queue>,
}

impl<
    R: Threads + Wait + Clock + Copy + Send + 'static,
    E: Write + Copy + Send + Drop + 'static,
> Errors<R, E> {
    /// What is told by this log is written there.
    pub fn new(alloc: Global, rt: R, errors: E, log: Log) -> Self {
        let queue = match log {
            Log::Off => None,
            Log::Info => Queue::start(alloc, rt, errors),
        };
        Errors { rt, errors, queue }
    }

    /// Nothing more is told. What waits is written, as far as it is taken within a second.
    pub fn close(self) {
        let Errors {
            rt,
            errors: _,
            queue,
        } = self;
        if let Some(queue) = queue {
            queue.close(&rt);
        }
    }
}

impl<R: Wait + Drop, E: Write + Drop> Write for Errors<R, E> {
    fn write(&mut self, buf: &[u8]) -> io::Result<usize> {
        match &self.queue {
            None => self.errors.write(buf),
            Some(queue) => {
                if queue.outbox.put(&self.rt, buf) {
                    Ok(buf.len())
                } else {
                    Err(io::Error::from(ErrorKind::WouldBlock))
                }
            }
        }
    }

    fn flush(&mut self) -> io::Result<()> {
        match &self.queue {
            None => self.errors.flush(),
            Some(_) => Ok(()),
        }
    }
}

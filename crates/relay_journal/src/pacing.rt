//! Many events of one subject in a second, others beside them, and events that cannot be written.

use crate::manual_clock::{ManualClock, START};
use fwd_journal::Journal;
use fwd_monitors::{JournalEvent, MemoryFor, Observer};
use std::alloc::{AllocError, Global};
use std::io;
use std::io::{ErrorKind, Write};
use std::sync::Arc;
use std::sync::atomic::{AtomicBool, Ordering};

/// So many monitors want memory.
fn see_monitors<W: Observer>(journal: &mut W, count: u16) {
    for _ in 0..count {
        journal.observe(JournalEvent::Memory(MemoryFor::Monitor));
    }
}

/// Says ten events of thirteen, those of other subjects too, and then how many were left out of
/// what.
pub fn say_many(rt: &impl Print) {
    let clock = ManualClock::new(None);
    let mut out = io::writer(rt);
    let mut journal = Journal::new(&clock, &mut out);
    // The clock cannot be read yet.
    see_monitors(&mut journal, 1);
    clock.set(Some(START));
    see_monitors(&mut journal, 13);
    // Two outputs are subjects of their own.
    journal.observe(JournalEvent::Memory(MemoryFor::Output(0)));
    journal.observe(JournalEvent::Memory(MemoryFor::Output(1)));
    // The same second is not over.
    clock.set(Some(START + 876));
    journal.turned();
    clock.set(Some(START + 877));
    journal.turned();
    journal.turned();
    // What was left out is told before the next line, and at the end.
    see_monitors(&mut journal, 12);
    clock.set(Some(START + 2_000));
    see_monitors(&mut journal, 11);
    // A clock that cannot be read any more stands.
    clock.set(None);
    see_monitors(&mut journal, 1);
    journal.close();
    journal.close();
}

/// A writer that takes nothing while it is full.
#[derive(Drop)]
struct Tap<W: Write> {
    out: W,
    is_full: Arc<AtomicBool>,
}

impl<W: Write> Write for Tap<W> {
    fn write(&mut self, buf: &[u8]) -> io::Result<usize> {
        if self.is_full.load(Ordering::SeqCst) {
            return Err(io::Error::from(ErrorKind::WouldBlock));
        }
        self.out.write(buf)
    }

    fn flush(&mut self) -> io::Result<()> {
        self.out.flush()
    }
}

/// Says how many lines could not be written: before the next line, in the next second, and at the
/// end.
pub fn say_unwritten(rt: &impl Print, alloc: Global) -> Result<(), AllocError> {
    let clock = ManualClock::new(Some(START));
    let is_full = Arc::new(alloc, AtomicBool::new(true))?;
    let mut out = Tap {
        out: io::writer(rt),
        is_full: Arc::try_clone(&is_full)?,
    };
    let mut journal = Journal::new(&clock, &mut out);
    see_monitors(&mut journal, 3);
    is_full.store(false, Ordering::SeqCst);
    see_monitors(&mut journal, 1);
    is_full.store(true, Ordering::SeqCst);
    see_monitors(&mut journal, 2);
    is_full.store(false, Ordering::SeqCst);
    // The same second is not over.
    journal.turned();
    clock.set(Some(START + 877));
    journal.turned();
    is_full.store(true, Ordering::SeqCst);
    see_monitors(&mut journal, 12);
    is_full.store(false, Ordering::SeqCst);
    journal.close();
    Ok(())
}

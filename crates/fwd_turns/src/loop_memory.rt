//! What a reader's loop knows of memory.

ghost use Rattle.std.specs.Prelude.{◌≡◌, Some, true, false, is_some, not, if◌then◌else◌};
ghost use Rattle.fwd_turns.specs.Refusals.{is_past};

use fwd_links::{SharedFlags, Tightness};
use fwd_monitors::{JournalEvent, MemoryFor, Observer};

/// How long no source is read once memory was refused for one, in milliseconds. The next to ask
/// would be refused like it, and closed like it.
const STARVED: u64 = 1_000;

/// The same where a chunk was settled since, which gives memory back; or where no output held an
/// entry, so that nothing else does but a source that goes.
const SETTLED: u64 = 100;

/// How long workers take it that memory may be refused at any moment, once it was for a source, in
/// milliseconds. They give their reserve back before each step then, without a trial: a source that
/// is read between the trial and the step may take all that there is.
const TIGHT: u64 = 3_000;

/// What the loop knows of memory.
pub(crate) struct LoopMemory {
    flags: SharedFlags,
    /// When it was refused for a source last, in milliseconds, if it was.
    refused: Option<u64>,
    /// A chunk was settled since, or a source went then, and no output held an entry.
    pub is_settled: bool,
    /// No source was read when the loop came to them last, though some were ready.
    pub is_paused: bool,
    /// When that was told last, in milliseconds, if it was.
    told: Option<u64>,
    /// The workers know that memory was refused a short while ago.
    tightness: Option<Tightness>,
}

// The workers are told that memory is not short any more.
impl Drop for LoopMemory {
    fn drop(self) {
        let LoopMemory {
            flags,
            refused: _,
            is_settled: _,
            is_paused: _,
            told: _,
            tightness,
        } = self;
        if let Some(tightness) = tightness {
            flags.end_tightness(tightness);
        }
    }
}

/// Whether so long (milliseconds) has passed at a moment since another one, if there was any.
fn is_past(since: Option<u64>, pause: u64, now: u64) -> bool
    ensures { result ≡ is_past since pause now }
{
    match since {
        Some(since) => since.saturating_add(pause) <= now,
        None => true,
    }
}

impl LoopMemory {
    /// None was refused. The workers tell of theirs by these flags.
    pub fn new(flags: SharedFlags) -> LoopMemory {
        LoopMemory {
            flags,
            refused: None,
            is_settled: false,
            is_paused: false,
            told: None,
            tightness: None,
        }
    }

    /// Whether sources are not to be read at a moment (milliseconds): a worker lacks memory, or it
    /// was refused for a source just now.
    pub fn is_refused(&self, now: u64) -> bool
        ensures refused { is_past self.now.refused
            (if self.now.is_settled then SETTLED else STARVED) now ≡ false → result ≡ true }
    {
        let pause = if self.is_settled { SETTLED } else { STARVED };
        !is_past(self.refused, pause, now) || self.flags.is_lacking()
    }

    /// Connections are about to be read at a moment (milliseconds).
    pub fn begin_reading(&mut self, now: u64)
        ensures tight { is_some self.new.tightness ≡ not (is_past self.old.refused TIGHT now) }
        ensures paused { self.new.is_paused ≡ false }
        ensures refused { self.new.refused ≡ self.old.refused }
    {
        self.is_paused = false;
        self.note_tightness(!is_past(self.refused, TIGHT, now));
        self.flags.begin_reading();
    }

    /// The workers know whether memory was refused a short while ago.
    fn note_tightness(&mut self, is_tight: bool)
        ensures tight { is_some self.new.tightness ≡ is_tight }
        ensures kept { self.new ≡ record self.old { tightness = self.new.tightness } }
    {
        if is_tight == self.tightness.is_some() {
            return;
        }
        let former = if is_tight {
            self.tightness.replace(self.flags.begin_tightness())
        } else {
            self.tightness.take()
        };
        if let Some(tightness) = former {
            self.flags.end_tightness(tightness);
        }
    }

    /// Connections were read from a moment on (milliseconds). Where no source was, that is told,
    /// once a second at the most.
    pub fn end_reading<W: Observer>(&mut self, observer: &mut W, start: u64) {
        self.flags.end_reading();
        if self.is_paused && is_past(self.told, STARVED, start) {
            self.told = Some(start);
            observer.observe(JournalEvent::Memory(MemoryFor::Pause));
        }
    }

    /// Memory was refused for a source at a moment (milliseconds). Where all that outputs held was
    /// settled by then, a source that goes gives memory back, and nothing else does.
    pub fn refuse(&mut self, now: u64, is_settled: bool)
        ensures { self.new ≡ record self.old { refused = Some now; is_settled = is_settled } }
    {
        self.refused = Some(now);
        self.is_settled = is_settled;
    }
}

//! When a worker is to be woken for an output's open chunks.

ghost use Rattle.std.specs.Prelude.{
  ◌≡◌,
  ◌+◌,
  ◌-◌,
  ◌^◌,
  ◌≤◌,
  ◌<◌,
  None,
  true,
  false,
  is_some,
  max,
  min,
  nat_le,
  option_map,
  IfSome,
};

/// How long after a look at an output the next one is due, in milliseconds, while chunks may be open
/// that were not due: it is due sooner where all of them are old enough sooner.
const STEP: u64 = 5;

/// When an output's chunks may be due next. Moments are in milliseconds.
#[derive(Drop)]
pub struct FlushTimer {
    /// How long a chunk waits for more entries.
    interval: u64,
    /// Requests were admitted since the last look at the clock.
    is_fresh: bool,
    /// When the clock was looked at first, after a request was admitted last.
    latest: u64,
    /// When a chunk may be due next: never while none can be open that is not due.
    due: Option<u64>,
    /// Until when nobody need look whether it is: a worker is woken for what is due a little later.
    rests: u64,
}

impl FlushTimer {
    /// The timer of an output without entries, whose chunks wait so long (milliseconds).
    pub fn new(interval: u64) -> FlushTimer {
        FlushTimer {
            interval,
            is_fresh: false,
            latest: 0,
            due: None,
            rests: 0,
        }
    }

    /// A request was admitted.
    pub(crate) fn admitted(&mut self)
        ensures { self.new ≡ record self.old { is_fresh = true } }
    {
        self.is_fresh = true;
    }

    /// The clock is looked at. An output takes the greatest moment that a thread handed in for that
    /// of a request, so that only the moment after an admission is sure to be no less.
    pub(crate) fn look(&mut self, now: u64)
        ensures due { self.old.is_fresh ≡ true → is_some self.new.due ≡ true }
        ensures soon { self.old.due ≡ None → IfSome self.new.due (λ due.
            due ≤ now + self.old.interval) }
        ensures kept { is_some self.old.due ≡ true → self.new.due ≡ self.old.due }
        ensures latest { self.old.is_fresh ≡ true → self.new.latest ≡ now }
        ensures stays { self.old.is_fresh ≡ false → self.new ≡ self.old }
        ensures interval { self.new.interval ≡ self.old.interval }
    {
        if self.is_fresh {
            self.is_fresh = false;
            self.latest = now;
            if self.due.is_none() {
                self.due = Some(now.saturating_add(self.interval));
            }
        }
    }

    /// When to look next whether chunks are due, if they may be at some moment.
    pub(crate) fn next_look(&self) -> Option<u64>
        ensures { result ≡ option_map (λ due. max due self.now.rests) self.now.due }
    {
        match self.due {
            None => None,
            Some(due) => Some(due.max(self.rests)),
        }
    }

    /// Whether chunks may be due at this moment.
    pub(crate) fn is_due(&self, now: u64) -> bool
        ensures some { result ≡ true → IfSome self.now.due (λ due. due ≤ now) }
        ensures none { result ≡ false → IfSome self.now.due (λ due. now < due) }
    {
        match self.due {
            None => false,
            Some(due) => due <= now,
        }
    }

    /// A worker is woken for the chunks that are due at this moment, or all are at work, and the first
    /// to look finds them. What was admitted after the last of these chunks may be due later. The
    /// loop asks after its admissions whether a worker looks, and a worker says so before it reads
    /// its clock: so either the worker finds what was admitted, or it is woken for it.
    pub(crate) fn handled(&mut self, now: u64)
        // None is due later only where what was admitted last was old enough.
        ensures none { self.new.due ≡ None
            → min (self.old.latest + self.old.interval) (2 ^ 64 - 1) ≤ now }
        ensures soon { IfSome self.new.due (λ due. due ≤ now + STEP) }
        ensures stays { self.new ≡ record self.old { due = self.new.due } }
    {
        let last = self.latest.saturating_add(self.interval);
        self.due = if last <= now {
            None
        } else {
            Some(last.min(now.saturating_add(STEP)))
        };
    }

    /// No worker is woken at this moment for what is due: it is looked at again at the next one.
    pub(crate) fn rest(&mut self, now: u64)
        ensures { self.new ≡ record self.old { rests = min (now + 1) (2 ^ 64 - 1) } }
    {
        self.rests = now.saturating_add(1);
    }

    /// Whether it may be looked again at this moment.
    pub(crate) fn is_rested(&self, now: u64) -> bool
        ensures { result ≡ nat_le self.now.rests now }
    {
        self.rests <= now
    }

    /// Sources wait at this moment: the output is looked at again soon, also where what is
    /// open was admitted by another reader.
    pub(crate) fn hasten(&mut self, now: u64)
        ensures some { is_some self.new.due ≡ true }
        ensures soon { IfSome self.new.due (λ due. due ≤ now + STEP) }
        ensures stays { self.new ≡ record self.old { due = self.new.due } }
    {
        let soon = now.saturating_add(STEP);
        self.due = match self.due {
            None => Some(soon),
            Some(due) => Some(due.min(soon)),
        };
    }
}

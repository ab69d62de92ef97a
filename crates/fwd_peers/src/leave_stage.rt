//! How far a source has come whose relay was asked to stop.

ghost use Rattle.std.specs.Prelude.{◌≡◌};
ghost use Rattle.fwd_peers.specs.Leaving as leaving;

/// The most bytes that a source is read in a stage: more than its own system and the relay's hold
/// for a connection, unless they are set otherwise.
const MOST: usize = 16 << 20;

/// How a source is read whose relay was asked to stop.
#[derive(Clone, Copy)]
pub struct LastReading {
    /// Since when it is read so, in milliseconds.
    pub since: u64,
    /// When its stream was found empty first, in milliseconds, where it was found so at each look
    /// since.
    pub empty: Option<u64>,
    /// The most bytes that it is read still.
    pub left: usize,
}

impl LastReading {
    /// It begins at a moment (milliseconds).
    pub fn begun(now: u64) -> LastReading
        ensures { result ≡ leaving.begun now }
    {
        LastReading {
            since: now,
            empty: None,
            left: MOST,
        }
    }

    /// So many bytes came.
    pub fn with_bytes(self, count: usize) -> LastReading
        ensures { result ≡ leaving.with_bytes count self }
    {
        LastReading {
            empty: None,
            left: self.left.saturating_sub(count),
            ..self
        }
    }

    /// Its stream was found empty at a moment (milliseconds).
    pub fn found_empty(self, now: u64) -> LastReading
        ensures { result ≡ leaving.found_empty now self }
    {
        LastReading {
            empty: self.empty.or(Some(now)),
            ..self
        }
    }

    /// For how long it had been read so when its stream became empty, in milliseconds, or 0 where it
    /// is not.
    pub fn age(self) -> u64
        ensures { result ≡ leaving.age self }
    {
        match self.empty {
            None => 0,
            Some(empty) => empty.saturating_sub(self.since),
        }
    }

    /// Whether its stream has been empty for so long (milliseconds) at a moment.
    pub fn is_quiet(self, pause: u64, now: u64) -> bool
        ensures { result ≡ leaving.is_quiet pause now self }
    {
        match self.empty {
            None => false,
            Some(empty) => pause <= now.saturating_sub(empty),
        }
    }
}

/// How far a source has come whose relay was asked to stop. What follows on what is decided by
/// who drains the relay.
#[derive(Clone, Copy)]
pub enum LeaveStage {
    /// The relay was not asked to stop.
    Stays,
    /// It is read until its stream is quiet.
    Reads(LastReading),
    /// It is read no more, and is told what it is owed.
    Settles,
    /// It was told all, and that no more comes. What it sends still is taken, until its stream is
    /// quiet; and so many bytes were that its stream keeps.
    Leaves { reading: LastReading, taken: usize },
    /// It was closed before it was read to its end.
    Cut,
}

impl LeaveStage {
    /// Whether it was told that no more comes, so that it is sent nothing more.
    pub fn is_leaving(self) -> bool
        ensures { result ≡ leaving.is_leaving self }
    {
        match self {
            LeaveStage::Leaves { .. } | LeaveStage::Cut => true,
            LeaveStage::Stays | LeaveStage::Reads(_) | LeaveStage::Settles => false,
        }
    }

    /// Whether it was closed before it was read to its end.
    pub fn is_cut(self) -> bool
        ensures { result ≡ leaving.is_cut self }
    {
        matches!(self, LeaveStage::Cut)
    }
}

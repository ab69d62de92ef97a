//! How many lines of one subject a second has room for.

ghost use Rattle.std.specs.Prelude.{◌≡◌, ◌↔◌, ◌==◌, true, not};
ghost use Rattle.fwd_journal.specs.Limits.{told_in, Counts, Owes, paid};

/// At most so many lines of one subject are told in a second. Seconds are those of the clock, and
/// not any thousand milliseconds: one number is enough for a subject, and a reader of the lines can
/// see the rule.
const LINES: u64 = 10;

/// The lines of one subject, by the seconds of a clock.
#[derive(Clone, Copy)]
pub struct LineLimit {
    /// The second of the last line that was told.
    second: i64,
    /// How many lines were told in it.
    told: u64,
    /// How many lines were left out since that was told last.
    left_out: u64,
}

impl LineLimit {
    /// Before the first line.
    pub const NONE: LineLimit = LineLimit {
        second: 0,
        told: 0,
        left_out: 0,
    };

    /// Whether no line was left out since that was told last.
    pub fn is_clear(&self) -> bool
        ensures { result ≡ true ↔ self.now.left_out ≡ 0 }
    {
        self.left_out == 0
    }

    /// Whether a line was told in a second.
    pub fn is_within(&self, second: i64) -> bool
        ensures { result ≡ not (told_in second self.now == 0) }
    {
        self.second == second && self.told > 0
    }

    /// Whether a line is told in a second: the first ten are. One that is not is counted.
    pub fn takes(&mut self, second: i64) -> bool
        ensures { Counts second result self.old self.new }
    {
        if second != self.second {
            self.second = second;
            self.told = 0;
        }
        if self.told < LINES {
            self.told += 1;
            true
        } else {
            self.left_out = self.left_out.saturating_add(1);
            false
        }
    }

    /// Whether it owes: in a second those of another, or, where all is over, all that was left out.
    pub fn owes(&self, second: Option<i64>) -> bool
        ensures { result ≡ true ↔ Owes second self.now }
    {
        self.left_out > 0 && second != Some(self.second)
    }

    /// How many lines were left out since that was told last: each is counted once.
    pub fn pay(&mut self) -> u64
        ensures count { result ≡ self.old.left_out }
        ensures paid { self.new ≡ paid self.old }
    {
        let count = self.left_out;
        self.left_out = 0;
        count
    }
}

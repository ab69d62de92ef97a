//! Why a text is no pattern.

ghost use Rattle.std.specs.Prelude.{◌≡◌};
ghost use Rattle.fwd_match.specs.declared.fault.PatternFault.TheVariants as faults;

use std::alloc::{AllocError, AllocFailed};
use std::error::Error;
use std::fmt;

/// Why a text is no pattern. Of several faults the first in
/// this order decides: no word, braces, number of words, stars.
#[derive(Clone, Copy, Debug)]
pub enum PatternFault {
    /// Memory ran out.
    Memory = 0,
    /// The text has no word.
    Empty = 1,
    /// Braces are nested, unclosed or unopened.
    BadBrace = 2,
    /// A part has a `*` and is neither `*` nor `**`.
    BadStar = 3,
    /// The words are more than `WORD_LIMIT` in all, once their braces are expanded.
    TooMany = 4,
}

impl PatternFault {
    ghost use Rattle.fwd_match.specs.Faults.{fault_number};

    /// The number of the fault.
    pub fn number(self) -> u8
        ensures { result ≡ fault_number self }
    {
        self as u8
    }
}

impl fmt::Display for PatternFault {
    ghost use Rattle.std.specs.Prelude.{Some};
    ghost use Rattle.fwd_match.specs.Faults.{fault_text};

    ghost output = { λ fault. Some (fault_text fault) };

    fn fmt<W: fmt::Write>(&self, f: &mut fmt::Formatter<W>) -> fmt::Result {
        match self {
            PatternFault::Memory => write!(f, "out of memory"),
            PatternFault::Empty => write!(f, "no word"),
            PatternFault::BadBrace => write!(f, "braces are nested, unclosed or unopened"),
            PatternFault::BadStar => write!(f, "a `*` inside a part"),
            PatternFault::TooMany => write!(f, "more than 64 words"),
        }
    }
}

impl Error for PatternFault {}

impl From<AllocError> for PatternFault {
    ghost from_gives = { λ _ e. e ≡ faults.Memory };

    fn from(_error: AllocError) -> PatternFault {
        PatternFault::Memory
    }
}

impl<T: Drop> From<AllocFailed<T>> for PatternFault {
    ghost from_gives = { λ _ e. e ≡ faults.Memory };

    fn from(_error: AllocFailed<T>) -> PatternFault {
        PatternFault::Memory
    }
}

//! Laws over the definitions, each the contract of a function that does nothing.

ghost use Rattle.std.specs.Prelude.{◌≡◌, ◌++◌, ℕ, Bool, List};
ghost use Rattle.httparse.specs.Grammar.{ReadsRequest, RequestHead};
ghost use Rattle.fwd_base.specs.declared.report.Report.{Report};
ghost use Rattle.fwd_monitor.specs.Replies.{IsDueText};
ghost use Rattle.fwd_monitor.specs.Requests.{BeginsWith, HasManyLines, IsBad, IsDue, MustWait};

use crate::limits::{HEAD_LIMIT, MAX_HEADERS};

/// The bytes begin with at most one whole head, and behind it stands one rest; more bytes lengthen
/// the rest and leave the head as it is.
pub fn one_head()
    ensures one { (heard : List ℕ) (h k : RequestHead) (rest left : List ℕ)
        → ReadsRequest heard h rest → ReadsRequest heard k left → (h ≡ k) × (rest ≡ left) }
    ensures stays { (heard : List ℕ) (h : RequestHead) (rest more : List ℕ)
        → ReadsRequest heard h rest → ReadsRequest (heard ++ more) h (rest ++ more) }
{}

/// The same bytes have one reply as long as the relay drains, and one before: no whole head of few
/// enough headers is bad, and none is due where bytes are to wait. Where bytes can follow that make
/// a head of few enough headers, no more header lines than that have come.
pub fn one_reply()
    ensures one { (heard : List ℕ) (is_draining : Bool) (reports : List Report)
        (text other : List ℕ) → IsDueText heard is_draining reports text
        → IsDueText heard is_draining reports other → text ≡ other }
    ensures apart { (heard : List ℕ) (h : RequestHead) → BeginsWith heard h → ¬ (IsBad heard) }
    ensures early { (heard : List ℕ) → MustWait heard → ¬ (IsDue heard) }
    ensures few { (heard more : List ℕ) (h : RequestHead) → BeginsWith (heard ++ more) h
        → ¬ (HasManyLines heard) }
{}

/// The limits of a monitor's request head, in bytes and in header lines.
pub fn head_limits()
    ensures bytes { HEAD_LIMIT ≡ 8192 }
    ensures headers { MAX_HEADERS ≡ 64 }
{}

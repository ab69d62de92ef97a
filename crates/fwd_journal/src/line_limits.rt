//! How many lines of each subject a second has room for.

ghost use Rattle.std.specs.Prelude.{
  ◌≡◌,
  ◌↔◌,
  true,
  All,
  Some,
  None,
  IfSome,
  IfNone,
  IsSome,
  IsSomeAnd,
  slice_get,
  slice_set,
};
ghost use Rattle.fwd_journal.specs.declared.line_limit.TheConstants.LineLimit.{NONE};
ghost use Rattle.fwd_journal.specs.Limits.{Counts, Owes};
ghost use Rattle.fwd_journal.specs.Limited.{
  IsOf,
  IsFree,
  NoneIs,
  CountsAtPlace,
  CountsAtKind,
  CountsOnce,
  OwesAt,
  PaysAtPlace,
  PaysAtKind,
  NoLimit,
  Pays,
};

use crate::journal_line::{LineKind, Subject};
use crate::line_limit::LineLimit;
use std::marker::Model;

/// The most subjects that are limited each by itself in a second: a further one shares the limit of
/// its kind. A subject has no address, so that no peer can make more of them.
const SUBJECTS: usize = 128;

/// A place that nobody has.
const FREE: Option<SubjectLimit> = None;

/// A subject with its limit.
#[derive(Clone, Copy)]
struct SubjectLimit {
    subject: Subject,
    limit: LineLimit,
}

/// Whether a place is a subject's.
fn is_of(place: &Option<SubjectLimit>, subject: Subject) -> bool
    ensures { result ≡ true ↔ IsOf subject place.now }
{
    match place {
        Some(own) => own.subject.is_same(&subject),
        None => false,
    }
}

/// Whether a subject may take a place in a second.
#[tactic(auto, unfolding(crate::specs::Limited::IsFree))]
fn is_free(place: &Option<SubjectLimit>, second: i64) -> bool
    ensures { result ≡ true ↔ IsFree second place.now }
{
    match place {
        Some(own) => own.limit.is_clear() && !own.limit.is_within(second),
        None => true,
    }
}

/// Whether a place owes in a second, or in any.
fn owes_at(place: &Option<SubjectLimit>, second: Option<i64>) -> bool
    ensures { result ≡ true ↔ OwesAt second place.now }
{
    match place {
        Some(own) => own.limit.owes(second),
        None => false,
    }
}

/// The place of a subject.
fn place_of(places: &[Option<SubjectLimit>], subject: Subject) -> Option<usize>
    ensures some { IfSome result (λ at. IsSomeAnd (slice_get places.now at) (IsOf subject)) }
    ensures none { IfNone result (NoneIs (IsOf subject) places.now) }
{
    places.iter().position(|place| is_of(place, subject))
}

/// A place that a subject may take in a second.
fn free_place(places: &[Option<SubjectLimit>], second: i64) -> Option<usize>
    ensures some { IfSome result (λ at. IsSomeAnd (slice_get places.now at) (IsFree second)) }
    ensures none { IfNone result (NoneIs (IsFree second) places.now) }
{
    places.iter().position(|place| is_free(place, second))
}

/// The first place that owes in a second, or in any.
fn owing_place(places: &[Option<SubjectLimit>], second: Option<i64>) -> Option<usize>
    ensures some { IfSome result (λ at. IsSomeAnd (slice_get places.now at) (OwesAt second)) }
    ensures none { IfNone result (NoneIs (OwesAt second) places.now) }
{
    places.iter().position(|place| owes_at(place, second))
}

/// Counts a line at a place that a subject has: whether it is told.
fn count_at(places: &mut [Option<SubjectLimit>], at: usize, second: i64) -> bool
    requires { IsSomeAnd (slice_get places.old at) IsSome }
    ensures { IsSomeAnd (slice_get places.old at) (λ place. IsSomeAnd place (λ own.
        (after : LineLimit) × (places.new ≡ slice_set places.old at
        (Some (record own { limit = after }))) × Counts second result own.limit after)) }
{
    match &mut places[at] {
        Some(own) => own.limit.takes(second),
        None => false,
    }
}

/// Counts a line of a subject at its place, or at a free one: whether it is told.
fn count_at_place(
    places: &mut [Option<SubjectLimit>],
    subject: Subject,
    second: i64,
) -> Option<bool>
    ensures some { IfSome result (λ told.
        CountsAtPlace subject second told places.old places.new) }
    ensures none { IfNone result ((NoneIs (IsOf subject) places.old)
        × NoneIs (IsFree second) places.old × (places.new ≡ places.old)) }
{
    if let Some(at) = place_of(places, subject) {
        return Some(count_at(places, at, second));
    }
    let at = free_place(places, second)?;
    let mut limit = LineLimit::NONE;
    let is_told = limit.takes(second);
    places[at] = Some(SubjectLimit { subject, limit });
    Some(is_told)
}

/// Counts a line of a kind at the limit that its subjects share: whether it is told.
fn count_at_kind(shared: &mut [LineLimit; LineKind::COUNT], kind: LineKind, second: i64) -> bool
    ensures { CountsAtKind kind second result shared.old shared.new }
{
    let at = kind.place();
    let mut limit = shared[at];
    let is_told = limit.takes(second);
    shared[at] = limit;
    is_told
}

/// How many lines of a subject were left out.
#[derive(Clone, Copy)]
pub struct LeftOut {
    pub subject: Subject,
    pub count: u64,
}

/// Tells what a place owes, if one does.
fn pay_at_place(places: &mut [Option<SubjectLimit>], second: Option<i64>) -> Option<LeftOut>
    ensures some { IfSome result (λ told. PaysAtPlace second told places.old places.new) }
    ensures none { IfNone result (NoneIs (OwesAt second) places.old × (places.new ≡ places.old)) }
{
    let at = owing_place(places, second)?;
    let mut own = places[at]?;
    let count = own.limit.pay();
    places[at] = Some(own);
    let subject = own.subject;
    Some(LeftOut { subject, count })
}

/// The first of these limits that owes in a second, or in any.
fn owing_kind(shared: &[LineLimit], second: Option<i64>) -> Option<usize>
    ensures some { IfSome result (λ at. IsSomeAnd (slice_get shared.now at) (Owes second)) }
    ensures none { IfNone result (All (λ limit. Owes second limit → ⊥) shared.now) }
{
    shared.iter().position(|limit| limit.owes(second))
}

/// Tells what the limit of a kind owes, if one does.
fn pay_at_kind(shared: &mut [LineLimit; LineKind::COUNT], second: Option<i64>) -> Option<LeftOut>
    ensures some { IfSome result (λ told. PaysAtKind second told shared.old shared.new) }
    ensures none { IfNone result (All (λ limit. Owes second limit → ⊥) shared.old
        × (shared.new ≡ shared.old)) }
{
    let at = owing_kind(shared, second)?;
    let mut limit = shared[at];
    let count = limit.pay();
    shared[at] = limit;
    let subject = Subject::others(LineKind::at(at));
    Some(LeftOut { subject, count })
}

/// Whether no limit at a place has a line that was left out.
fn are_clear(places: &[Option<SubjectLimit>]) -> bool
    ensures { result ≡ true ↔ NoneIs (OwesAt None) places.now }
{
    owing_place(places, None).is_none()
}

/// Places that nobody has.
fn free_places() -> [Option<SubjectLimit>; SUBJECTS]
    ensures { All (λ place. place ≡ None) result }
{
    [FREE; SUBJECTS]
}

/// Limits before the first line.
fn first_limits() -> [LineLimit; LineKind::COUNT]
    ensures { All (λ limit. limit ≡ NONE) result }
{
    [LineLimit::NONE; LineKind::COUNT]
}

/// The lines of each subject, by the seconds of a clock. It takes no memory. Contracts see the
/// limits.
#[derive(Drop)]
pub struct LineLimits {
    places: [Option<SubjectLimit>; SUBJECTS],
    /// Of subjects without a place, by kinds.
    shared: [LineLimit; LineKind::COUNT],
    /// Some were left out that are not told yet.
    is_owing: bool,
}

impl Model for LineLimits {
    ghost use Rattle.std.specs.Prelude.{◌≡◌, false, None};
    ghost use Rattle.fwd_journal.specs.Limited.{LimitsShown, NoLimit};
    ghost use Rattle.fwd_journal.specs.Limits.{Owes};

    ghost Value = { LimitsShown };

    ghost view = { λ limits. record { places = limits.places; shared = limits.shared } };

    ghost invariant = { λ limits. limits.is_owing ≡ false
        → NoLimit (Owes None) (record { places = limits.places; shared = limits.shared }) };
}

impl LineLimits {
    /// Before the first line.
    #[tactic(auto, using(crate::proofs::Places::nothing_at, crate::proofs::Places::nothing_owed))]
    pub fn new() -> LineLimits
        ensures places { All (λ place. place ≡ None) result.places }
        ensures shared { All (λ limit. limit ≡ NONE) result.shared }
    {
        LineLimits {
            places: free_places(),
            shared: first_limits(),
            is_owing: false,
        }
    }

    /// Whether no line was left out since that was told last.
    pub fn is_clear(&self) -> bool
        ensures { result ≡ true → NoLimit (Owes None) self.now }
    {
        !self.is_owing
    }

    /// Whether a line of a subject is told in a second. One that is not is counted.
    pub fn takes(&mut self, subject: Subject, second: i64) -> bool
        ensures { CountsOnce subject second result self.old self.new }
    {
        let is_told = match count_at_place(&mut self.places, subject, second) {
            Some(is_told) => is_told,
            None => count_at_kind(&mut self.shared, subject.kind, second),
        };
        self.is_owing = self.is_owing || !is_told;
        is_told
    }

    /// What was left out of a subject in a second that is over, or, where all is over, in any: each
    /// line is counted once.
    pub fn owed(&mut self, second: Option<i64>) -> Option<LeftOut>
        ensures { Pays second result self.old self.new }
    {
        if let Some(left_out) = pay_at_place(&mut self.places, second) {
            return Some(left_out);
        }
        if let Some(left_out) = pay_at_kind(&mut self.shared, second) {
            return Some(left_out);
        }
        self.is_owing = !(are_clear(&self.places) && owing_kind(&self.shared, None).is_none());
        None
    }
}

//! Counters that threads raise, each thread from a seat of its own.

ghost use Rattle.std.specs.Prelude.{◌≡◌, ℕ, ◌+◌, ◌<◌, ◌≤◌, ◌^◌, ◌%◌, refl};
ghost use Rattle.fwd_output.specs.Seats.{parts_of, counts_of};

use fwd_history::Run;
use std::marker::{Model, PhantomData};
use std::sync::ledger::{Blank, Book, Ledger, Share};

/// A counter that is raised from seats. It has no maker, so that who holds one cannot put another
/// in its place.
pub trait Tally {
    /// The run whose counter it is.
    type Run: Run;

    /// What a thread holds that may raise the counter.
    type Seat;

    /// What was added in all.
    ghost total: { Self → ℕ };

    /// What was added from this seat, as far as seats keep it.
    ghost count: { Self.Seat → ℕ };

    /// The parts of the counter that the seat has, as far as seats keep them.
    ghost parts: { Self.Seat → ℕ };

    /// What a seat keeps of a number: all of it, or nothing.
    ghost kept: { ℕ → ℕ };

    /// Whether so many parts can be split off.
    ghost can_split: { Self.Seat → ℕ → Type 0 };

    /// Adds a number from a seat.
    fn add(&mut self, seat: &mut Self::Seat, number: u64)
        requires { total self.old + number < 2 ^ 64 }
        ensures total { total self.new ≡ total self.old + number }
        ensures count { count seat.new ≡ count seat.old + kept number }
        ensures parts { parts seat.new ≡ parts seat.old };

    /// Splits parts off a seat. What was added stays with the seat.
    fn split(seat: &mut Self::Seat, split_parts: u64) -> Self::Seat
        requires { can_split seat.old split_parts }
        ensures count { count seat.new + count result ≡ count seat.old }
        ensures none { count result ≡ 0 }
        ensures parts { parts seat.new + parts result ≡ parts seat.old }
        ensures given { parts result ≡ kept split_parts };

    /// Puts two seats together.
    fn join(one: Self::Seat, other: Self::Seat) -> Self::Seat
        ensures count { count result ≡ count one + count other }
        ensures parts { parts result ≡ parts one + parts other };

    /// What is kept of a sum is the sum of what is kept.
    ghost kept_adds: { (a b : ℕ) → kept (a + b) ≡ kept a + kept b };

    /// Nothing is kept of nothing.
    ghost kept_none: { kept 0 ≡ 0 };
}

/// A seat of a ledger: some parts of it, one at least, and what was added from them.
#[derive(Drop)]
pub struct Seat<L: Ledger> {
    share: Share<L>,
    count: u64,
}

impl<L: Ledger> Model for Seat<L> {
    ghost use Rattle.std.specs.Prelude.{◌≡◌, ◌<◌, ◌%◌, ◌^◌};
    ghost use Rattle.fwd_output.specs.Seats.{Seat};

    ghost Value = { Seat };

    ghost view = { λ s. record { parts = s.share.parts; count = s.share.amount } };

    ghost invariant = { λ s.
        (0 < s.share.parts) × (s.count ≡ s.share.amount % 2 ^ 64) };
}

impl<L: Ledger> Seat<L> {
    /// A seat has a part at least.
    pub fn has_a_part(&self)
        ensures { 0 < self.now.parts }
    {
        let _share = &self.share; // for the proof
    }

    /// What was added from this seat, in its low 64 bits. No more can have been added than the
    /// counter's total, which is below 2^64; but a seat by itself does not know that.
    pub fn count(&self) -> u64
        ensures { result ≡ self.now.count % 2 ^ 64 }
    {
        self.count
    }
}

/// A counter that is the total of a ledger, whose seats together show it.
#[derive(Drop)]
pub struct Ledgered<L: Ledger> {
    book: Book<L>,
    none: Share<L>,
}

impl<L: Ledger> Model for Ledgered<L> {
    ghost use Rattle.std.specs.Prelude.{ℕ, ◌≡◌};

    ghost Value = { ℕ };

    ghost view = { λ a. a.book.total };

    ghost invariant = { λ a. (a.none.parts ≡ 0) × (a.none.amount ≡ 0) };
}

/// Opens a ledger: a counter at 0, and the one seat that has all parts.
pub fn open<L: Ledger>(blank: Blank) -> (Ledgered<L>, Seat<L>)
    requires name { blank.name ≡ L.name }
    requires parts { blank.parts ≡ L.parts }
    requires some { 0 < blank.parts }
    ensures total { result.0 ≡ 0 }
    ensures count { result.1.count ≡ 0 }
    ensures parts { result.1.parts ≡ L.parts }
{
    let (book, mut share) = blank.open::<L>();
    let none = share.empty();
    (Ledgered { book, none }, Seat { share, count: 0 })
}

impl<L: Ledger> Ledgered<L> {
    /// With all seats handed in, what was added from them is the total.
    pub fn audit(self, seats: Vec<Seat<L>>)
        requires { parts_of seats.items ≡ L.parts }
        ensures { counts_of seats.items ≡ self }
    {
        let Ledgered { mut book, none } = self;
        let mut all = none;
        for seat in seats {
            let Seat { share, count: _ } = seat;
            all.merge(share);
        }
        book.audit(&mut all);
    }
}

impl<L: Ledger + Run> Tally for Ledgered<L> {
    type Run = L;

    type Seat = Seat<L>;

    ghost total = { λ a. a };

    ghost count = { λ s. s.count };

    ghost parts = { λ s. s.parts };

    ghost kept = { λ n. n };

    ghost kept_adds = { λ a b. refl };

    ghost kept_none = { refl };

    ghost can_split = { λ s n. (0 < n) × (n < s.parts) };

    fn add(&mut self, seat: &mut Seat<L>, number: u64) {
        self.book.add(&mut seat.share, number);
        seat.count = seat.count.wrapping_add(number);
    }

    fn split(seat: &mut Seat<L>, split_parts: u64) -> Seat<L> {
        let share = seat.share.split_off(split_parts, 0);
        Seat { share, count: 0 }
    }

    fn join(one: Seat<L>, other: Seat<L>) -> Seat<L> {
        let Seat {
            mut share,
            mut count,
        } = one;
        let Seat {
            share: more,
            count: added,
        } = other;
        share.merge(more);
        count = count.wrapping_add(added);
        Seat { share, count }
    }
}

/// A counter that is a plain number, whose seats keep nothing.
#[derive(Drop)]
pub struct Plain<J: Run> {
    number: u64,
    of: PhantomData<J>,
}

impl<J: Run> Model for Plain<J> {
    ghost use Rattle.std.specs.Prelude.{ℕ};

    ghost Value = { ℕ };

    ghost view = { λ p. p.number };
}

impl<J: Run> Plain<J> {
    /// A counter at this number.
    pub fn new(total: u64) -> Self
        ensures { result ≡ total }
    {
        Plain {
            number: total,
            of: PhantomData,
        }
    }
}

impl<J: Run> Tally for Plain<J> {
    type Run = J;

    type Seat = ();

    ghost total = { λ p. p };

    ghost count = { λ s. 0 };

    ghost parts = { λ s. 0 };

    ghost kept = { λ n. 0 };

    ghost kept_adds = { λ a b. refl };

    ghost kept_none = { refl };

    ghost can_split = { λ s n. Unit {0} };

    fn add(&mut self, _seat: &mut (), number: u64) {
        self.number += number;
    }

    fn split(_seat: &mut (), _split_parts: u64) {}

    fn join(_one: (), _other: ()) {}
}

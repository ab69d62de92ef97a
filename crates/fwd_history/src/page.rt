//! A component's page: the right to add the component's events to the history, with what is known
//! of the history there.

ghost use Rattle.std.specs.Prelude.{
  ◌≡◌,
  ℕ,
  Bool,
  ◌+◌,
  ◌-◌,
  ◌<◌,
  ◌≢◌,
  List,
  [],
  ◌∷◌,
};
ghost use Rattle.fwd_history.specs.Histories.{Comes, Went, IsOf, IsOfBoth, IsLegal};

use crate::entry::{Meaning, note};
use logbook::{Opening, Pen, Pens, Rule, Seen, Start};
use std::marker::{Brand, Model, PhantomData};

/// Which components have a part in an event, and which event may come behind a history, the newest
/// event first. Components are numbers.
pub trait Law<E> {
    ghost touches: { ℕ → E → Bool };

    ghost may: { List E → E → Type 0 };
}

/// Which events a value may stand for, behind a history.
pub trait Deed<X, E> {
    ghost means: { X → List E → E → Type 0 };
}

/// One run of a program: which book has its history. The function that opens the book picks it.
pub trait Run {
    ghost use Rattle.logbook.specs.Pages.{Book};

    ghost book: { Book };
}

impl Run for Brand {
    ghost book = { record { number = 0; log_name = 0; cells_name = 0 } };
}

/// The rule of a book that keeps a history under a law.
pub struct HistoryRule<L> {
    of: PhantomData<L>,
}

impl<E, L: Law<E>> Rule<E, u64> for HistoryRule<L> {
    ghost use Rattle.std.specs.Prelude.{[]};
    ghost use base.Fml.{ftrue};
    ghost use Rattle.fwd_history.specs.Histories.{IsKept};

    ghost holds = { λ cells log. IsKept L.touches L.may cells log };

    ghost first = { [] };

    ghost hinted = { λ n log. Unit {0} };

    ghost shows = { λ log. [] };

    ghost keeps = { λ names log. ftrue };

    ghost moves = { λ ask before after answer. Unit {0} };
}

/// A history begins empty.
pub struct Blank;

impl<E> Opening<u64, E> for Blank {
    ghost use Rattle.std.specs.Prelude.{[]};

    ghost log = { λ count about. [] };
}

/// An event of the component whose pen is the first, alone.
struct OfOne<L, D> {
    of: PhantomData<(L, D)>,
}

impl<X, E, L: Law<E>, D: Deed<X, E>> Meaning<X, E> for OfOne<L, D> {
    ghost use Rattle.std.specs.Prelude.{reverse};
    ghost use Rattle.fwd_history.specs.Histories.{IsOf};

    ghost meant = { λ about p q log e. IsOf L.touches p.key e × L.may (reverse log) e
        × D.means about (reverse log) e };
}

/// An event of the two components whose pens they are.
struct OfBoth<L, D> {
    of: PhantomData<(L, D)>,
}

impl<X, E, L: Law<E>, D: Deed<X, E>> Meaning<X, E> for OfBoth<L, D> {
    ghost use Rattle.std.specs.Prelude.{reverse};
    ghost use Rattle.fwd_history.specs.Histories.{IsOfBoth};

    ghost meant = { λ about p q log e. IsOfBoth L.touches p.key q.key e × L.may (reverse log) e
        × D.means about (reverse log) e };
}

/// A component's page. Contracts see the component, and a history that was reached, the newest
/// event first.
#[derive(Drop)]
pub struct Page<E, L: Law<E>, J: Run> {
    seen: Seen<E, u64, HistoryRule<L>>,
    pen: Pen,
    of: PhantomData<J>,
}

impl<E, L: Law<E>, J: Run> Model for Page<E, L, J> {
    ghost use Rattle.std.specs.Prelude.{◌≡◌, ℕ, List, reverse};
    ghost use Rattle.logbook.specs.Pages.{may_make_home};
    ghost use Rattle.fwd_history.specs.Histories.{IsLegal, count_of};

    ghost Value = { ℕ × List E };

    ghost view = { λ p. (p.pen.nib.key, reverse p.seen.log) };

    ghost invariant = { λ p. (p.seen.book ≡ J.book) × (p.pen.book ≡ J.book)
        × (p.pen.nib.right ≡ may_make_home)
        × (p.pen.nib.value ≡ count_of L.touches p.pen.nib.key (reverse p.seen.log))
        × IsLegal L.may (reverse p.seen.log) };
}

impl<E, L: Law<E>, J: Run> Page<E, L, J> {
    /// The events of a history may each come where they stand.
    pub fn is_legal(&self)
        ensures { IsLegal L.may self.now.1 }
    {
        let _seen = &self.seen; // for the proof
    }

    /// Adds an event that a value stands for, of this component alone.
    pub fn add<X, D: Deed<X, E>>(&mut self, about: &X)
        requires { (e : E) × IsOf L.touches self.old.0 e
            × ((past : List E) → Went L.touches self.old.0 self.old.1 past
            → L.may past e × D.means about.now past e) }
        ensures component { self.new.0 ≡ self.old.0 }
        ensures added { (past : List E) × (e : E) × IsOf L.touches self.old.0 e
            × Went L.touches self.old.0 self.old.1 past
            × D.means about.now past e × (self.new.1 ≡ e ∷ past) }
        ensures legal { IsLegal L.may self.new.1 }
    {
        let mut nobody = self.seen.no_pen();
        note::<E, u64, HistoryRule<L>, X, OfOne<L, D>>(
            &mut self.seen,
            &mut self.pen,
            &mut nobody,
            about,
        )
    }

    /// Adds an event that a value stands for, of this component and another. Both know it then.
    pub fn add_with<X, D: Deed<X, E>>(&mut self, other: &mut Page<E, L, J>, about: &X)
        requires apart { self.old.0 ≢ other.old.0 }
        requires event { (e : E) × IsOfBoth L.touches self.old.0 other.old.0 e
            × ((past : List E) → Went L.touches self.old.0 self.old.1 past
            → Went L.touches other.old.0 other.old.1 past
            → L.may past e × D.means about.now past e) }
        ensures component { self.new.0 ≡ self.old.0 }
        ensures other { other.new.0 ≡ other.old.0 }
        ensures added { (past : List E) × (e : E)
            × IsOfBoth L.touches self.old.0 other.old.0 e
            × Went L.touches self.old.0 self.old.1 past
            × Went L.touches other.old.0 other.old.1 past
            × D.means about.now past e × (self.new.1 ≡ e ∷ past) }
        ensures both { other.new.1 ≡ self.new.1 }
        ensures legal { IsLegal L.may self.new.1 }
    {
        self.seen.learn(&other.seen);
        note::<E, u64, HistoryRule<L>, X, OfBoth<L, D>>(
            &mut self.seen,
            &mut self.pen,
            &mut other.pen,
            about,
        );
        other.seen = self.seen.again();
    }

    /// Adds an event that a value stands for, of this component alone, behind a history that was
    /// reached by anyone.
    pub fn add_after<X, D: Deed<X, E>>(&mut self, reached: &Reached<E, L, J>, about: &X)
        requires { (e : E) × IsOf L.touches self.old.0 e
            × ((past : List E) → Went L.touches self.old.0 self.old.1 past
            → Comes reached.now past → L.may past e × D.means about.now past e) }
        ensures component { self.new.0 ≡ self.old.0 }
        ensures added { (past : List E) × (e : E) × IsOf L.touches self.old.0 e
            × Went L.touches self.old.0 self.old.1 past
            × Comes reached.now past × D.means about.now past e × (self.new.1 ≡ e ∷ past) }
        ensures legal { IsLegal L.may self.new.1 }
    {
        let mut nobody = self.seen.no_pen();
        self.seen.learn(&reached.seen);
        note::<E, u64, HistoryRule<L>, X, OfOne<L, D>>(
            &mut self.seen,
            &mut self.pen,
            &mut nobody,
            about,
        )
    }

    /// The history as far as it is known here.
    pub fn reached(&self) -> Reached<E, L, J>
        ensures { result ≡ self.now.1 }
    {
        Reached {
            seen: self.seen.again(),
            of: PhantomData,
        }
    }
}

/// A history that the run has reached, which anyone may keep. Contracts see it, the newest event
/// first.
#[derive(Drop)]
pub struct Reached<E, L: Law<E>, J: Run> {
    seen: Seen<E, u64, HistoryRule<L>>,
    of: PhantomData<J>,
}

impl<E, L: Law<E>, J: Run> Model for Reached<E, L, J> {
    ghost use Rattle.std.specs.Prelude.{◌≡◌, List, reverse};
    ghost use Rattle.fwd_history.specs.Histories.{IsLegal};

    ghost Value = { List E };

    ghost view = { λ r. reverse r.seen.log };

    ghost invariant = { λ r. (r.seen.book ≡ J.book) × IsLegal L.may (reverse r.seen.log) };
}

impl<E, L: Law<E>, J: Run> Reached<E, L, J> {
    /// The events of a history may each come where they stand.
    pub fn is_legal(&self)
        ensures { IsLegal L.may self.now }
    {
        let _seen = &self.seen; // for the proof
    }

    /// The same history.
    pub fn again(&self) -> Reached<E, L, J>
        ensures { result ≡ self.now }
    {
        Reached {
            seen: self.seen.again(),
            of: PhantomData,
        }
    }

    /// Two histories that a run has reached are beginnings of one: there is only one history.
    pub fn with(&self, other: &Reached<E, L, J>) -> Reached<E, L, J>
        ensures { Comes self.now result × Comes other.now result }
    {
        let mut seen = self.seen.again();
        seen.learn(&other.seen);
        Reached {
            seen,
            of: PhantomData,
        }
    }
}

/// A book with an empty history, whose run has no name yet. Contracts see which book it is, and how
/// many pages it has.
#[derive(Drop)]
pub struct Opened<E, L: Law<E>> {
    seen: Seen<E, u64, HistoryRule<L>>,
    pens: Pens,
}

impl<E, L: Law<E>> Model for Opened<E, L> {
    ghost use Rattle.std.specs.Prelude.{◌≡◌, []};
    ghost use Rattle.fwd_history.specs.Histories.{OpenedBook};

    ghost Value = { OpenedBook };

    ghost view = { λ o. record { book = o.seen.book; pages = o.pens.left } };

    ghost invariant = { λ o. (o.seen.log ≡ []) × (o.pens.book ≡ o.seen.book)
        × (o.pens.next ≡ 0) };
}

impl<E, L: Law<E>> Opened<E, L> {
    /// A book for as many components as the program may ever have. Its size takes no memory.
    pub fn new(count: usize) -> Opened<E, L>
        ensures { result.pages ≡ count }
    {
        let (seen, pens) = Seen::open_row::<u64, Blank>(&0, Start::alone(), count);
        Opened { seen, pens }
    }

    /// Its pages, as those of a run.
    pub fn named<J: Run>(self) -> Pages<E, L, J>
        requires { self.book ≡ J.book }
        ensures { result ≡ (0, self.pages) }
    {
        let Opened { seen, pens } = self;
        Pages {
            seen,
            pens,
            of: PhantomData,
        }
    }
}

/// The pages that nobody has yet. Contracts see the component of the next page, and how many are
/// left.
#[derive(Drop)]
pub struct Pages<E, L: Law<E>, J: Run> {
    seen: Seen<E, u64, HistoryRule<L>>,
    pens: Pens,
    of: PhantomData<J>,
}

impl<E, L: Law<E>, J: Run> Model for Pages<E, L, J> {
    ghost use Rattle.std.specs.Prelude.{◌≡◌, ℕ, []};

    ghost Value = { ℕ × ℕ };

    ghost view = { λ p. (p.pens.next, p.pens.left) };

    ghost invariant = { λ p. (p.seen.book ≡ J.book) × (p.pens.book ≡ J.book)
        × (p.seen.log ≡ []) };
}

impl<E, L: Law<E>, J: Run> Pages<E, L, J> {
    /// The next component's page. Each is given once.
    pub fn take(&mut self) -> Page<E, L, J>
        requires { 0 < self.old.1 }
        ensures page { (result.0 ≡ self.old.0) × (result.1 ≡ []) }
        ensures rest { (self.new.0 ≡ self.old.0 + 1) × (self.new.1 ≡ self.old.1 - 1) }
    {
        Page {
            seen: self.seen.again(),
            pen: self.pens.take(),
            of: PhantomData,
        }
    }
}

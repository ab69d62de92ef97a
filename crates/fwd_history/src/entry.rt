//! Entries of a logbook's log that no step of the machine makes: whoever has the pens of the words
//! that an entry raises makes it in proofs alone.

ghost use Rattle.std.specs.Prelude.{◌≡◌, List, [], ◌∷◌, ◌++◌};
ghost use Rattle.logbook.specs.Pages.{Nib};
ghost use Rattle.fwd_history.specs.Notes.{Allowed, WentOn, raised};

use logbook::{Pen, Rule, Seen};

/// Which entries a value stands for, with the pens of those who make them, behind a log.
pub trait Meaning<X, E> {
    ghost meant: { X → Nib → Nib → List E → E → Type 0 };
}

/// Adds an entry that a value stands for to the log, by whoever has the pens of one or two words.
/// It does nothing when it runs.
///
/// Whoever has the pen of a word knows its value, since nobody else can change it. The entry raises
/// it by 1. The proof chooses the entry: it may be any that is meant and allowed.
pub fn note<E, A, P: Rule<E, A>, X, N: Meaning<X, E>>(
    seen: &mut Seen<E, A, P>,
    first: &mut Pen,
    second: &mut Pen,
    about: &X,
)
    requires { (first.old.book ≡ seen.old.book) × (second.old.book ≡ seen.old.book)
        × ((e : E) × Allowed P.holds P.shows (N.meant about.now first.old.nib second.old.nib)
        seen.old.log first.old.nib second.old.nib e) }
    ensures { (seen.new.book ≡ seen.old.book) × (seen.new.names ≡ seen.old.names)
        × (first.new.book ≡ first.old.book) × (second.new.book ≡ second.old.book)
        × (first.new.nib ≡ raised first.old.nib) × (second.new.nib ≡ raised second.old.nib)
        × ((log : List E) × (e : E)
        × WentOn P.holds (N.meant about.now first.old.nib second.old.nib)
        seen.old.log first.old.nib second.old.nib log e
        × (seen.new.log ≡ log ++ e ∷ [])) }
{}

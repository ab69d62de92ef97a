//! Asterisks in the words that a text stands for, judged as the text stands: it takes no memory.

ghost use Rattle.std.specs.Prelude.{◌≡◌, Bool, ◌&&◌};
ghost use Rattle.std.specs.List.{list_all};
ghost use Rattle.fwd_match.specs.Patterns.{alternatives, spellings, expanded};
ghost use Rattle.fwd_match.specs.Patterns as patterns;
ghost use Rattle.fwd_match.specs.Asterisks.{Front, Nothing, one_further, further, each_front};

use crate::fields::{Mark, first_field};

/// What may stand behind the last dot of some texts.
#[derive(Clone, Copy)]
struct Fronts {
    nothing: bool,
    /// `*`
    star: bool,
    /// `**`
    stars: bool,
    /// Something without `*`.
    plain: bool,
    /// What no good part begins with, there or before that dot.
    bad: bool,
}

/// No texts.
const NONE: Fronts = Fronts {
    nothing: false,
    star: false,
    stars: false,
    plain: false,
    bad: false,
};

impl Fronts {
    /// The fronts of the empty text.
    fn start() -> Fronts
        ensures { (test : Front → Bool) → each_front result test ≡ test Nothing }
    {
        Fronts {
            nothing: true,
            ..NONE
        }
    }

    /// The fronts of the texts with one byte more.
    fn after(self, byte: u8) -> Fronts
        ensures { (test : Front → Bool)
            → each_front result test
            ≡ each_front self (λ front. test (one_further front byte)) }
    {
        if byte == b'.' {
            Fronts {
                nothing: self.nothing || self.star || self.stars || self.plain,
                bad: self.bad,
                ..NONE
            }
        } else if byte == b'*' {
            Fronts {
                star: self.nothing,
                stars: self.star,
                bad: self.stars || self.plain || self.bad,
                ..NONE
            }
        } else {
            Fronts {
                plain: self.nothing || self.plain,
                bad: self.star || self.stars || self.bad,
                ..NONE
            }
        }
    }

    /// The fronts of these texts and of others.
    fn or(self, other: Fronts) -> Fronts
        ensures { (test : Front → Bool)
            → each_front result test ≡ (each_front self test && each_front other test) }
    {
        Fronts {
            nothing: self.nothing | other.nothing,
            star: self.star | other.star,
            stars: self.stars | other.stars,
            plain: self.plain | other.plain,
            bad: self.bad | other.bad,
        }
    }

    /// The fronts of the texts with these bytes behind them.
    fn behind(self, bytes: &[u8]) -> Fronts
        ensures { (test : Front → Bool)
            → each_front result test
            ≡ each_front self (λ front. test (further front bytes.now)) }
    {
        let mut fronts = self;
        for byte in bytes {
            fronts = fronts.after(*byte);
        }
        fronts
    }

    /// The fronts of the texts with an alternative behind them.
    fn behind_each(self, text: &[u8], inside: bool) -> Fronts
        ensures { (test : Front → Bool) →
            each_front result test ≡ each_front self (λ front.
            list_all (λ bytes. test (further front bytes)) (alternatives inside text.now)) }
    {
        let mut fronts = NONE;
        let mut rest = Some(text);
        while let Some(bytes) = rest {
            let (alternative, more) = first_field(bytes, Mark::Comma(inside));
            fronts = fronts.or(self.behind(alternative));
            rest = more;
        }
        fronts
    }
}

/// Whether each word that a word stands for has good stars.
fn have_good_stars(word: &[u8]) -> bool
    ensures { result ≡ list_all patterns.has_good_stars (spellings word.now) }
{
    let mut fronts = Fronts::start();
    let mut rest = Some(word);
    let mut inside = false;
    while let Some(bytes) = rest {
        let (text, more) = first_field(bytes, Mark::Brace);
        fronts = fronts.behind_each(text, inside);
        inside = !inside;
        rest = more;
    }
    !fronts.bad
}

/// Whether each part that has a `*` is `*` or `**`, in all the words that a text stands for.
pub fn has_good_stars(text: &[u8]) -> bool
    ensures { result ≡ list_all patterns.has_good_stars (expanded text.now) }
{
    let mut rest = Some(text);
    while let Some(bytes) = rest {
        let (word, more) = first_field(bytes, Mark::Blank);
        if !word.is_empty() && !have_good_stars(word) {
            return false;
        }
        rest = more;
    }
    true
}

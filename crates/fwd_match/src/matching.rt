//! Words against tags, part by part.

ghost use Rattle.std.specs.Prelude.{◌≡◌};
ghost use Rattle.fwd_match.specs.Patterns as patterns;
ghost use Rattle.fwd_match.specs.Steps.{IsStep, IsLater};

use crate::fields::{Mark, first_field};

/// What is left of a word and of a tag: no part, or the bytes of the parts that are left.
#[derive(Clone, Copy)]
struct Remainder<'a> {
    word: Option<&'a [u8]>,
    tag: Option<&'a [u8]>,
}

/// How a word goes on at a place.
#[derive(Clone, Copy)]
enum MatchStep<'a> {
    /// Both are at their ends.
    Ends,
    /// One part fits, and this is the place behind it.
    Fits(Remainder<'a>),
    /// `**`, and this is the place if it takes no part.
    Stars(Remainder<'a>),
    /// No match from here.
    Differs,
}

fn is_stars(part: &[u8]) -> bool
    ensures { result ≡ patterns.is_stars part.now }
{
    part == b"**".as_slice()
}

fn fits(wanted: &[u8], part: &[u8]) -> bool
    ensures { result ≡ patterns.fits wanted.now part.now }
{
    wanted == b"*".as_slice() || wanted == part
}

/// The one comparison that is made at a place.
fn next_step<'a>(at: Remainder<'a>) -> MatchStep<'a>
    ensures { IsStep at.entry result }
{
    let Some(word) = at.word else {
        return if at.tag.is_none() {
            MatchStep::Ends
        } else {
            MatchStep::Differs
        };
    };
    let (wanted, word) = first_field(word, Mark::Dot);
    if is_stars(wanted) {
        return MatchStep::Stars(Remainder { word, tag: at.tag });
    }
    let Some(tag) = at.tag else {
        return MatchStep::Differs;
    };
    let (part, tag) = first_field(tag, Mark::Dot);
    if fits(wanted, part) {
        MatchStep::Fits(Remainder { word, tag })
    } else {
        MatchStep::Differs
    }
}

/// The place one part further in the tag, if there is a part.
fn one_later<'a>(at: Remainder<'a>) -> Option<Remainder<'a>>
    ensures { IsLater at.entry result }
{
    match at.tag {
        None => None,
        Some(tag) => {
            let (_, tag) = first_field(tag, Mark::Dot);
            Some(Remainder { word: at.word, tag })
        }
    }
}

/// Whether a word matches a tag. Only the last `**` is ever tried again, one
/// part further each time: what an earlier one took need not be given back. So
/// no part of the word is compared twice with the same part of the tag, and
/// there are at most (parts of the word) times (parts of the tag) comparisons.
fn parts_match(word: &[u8], tag: &[u8]) -> bool
    ensures { result ≡ patterns.matches (patterns.parts word.now) (patterns.parts tag.now) }
{
    let mut at = Remainder {
        word: Some(word),
        tag: Some(tag),
    };
    let mut again = None;
    loop {
        match next_step(at) {
            MatchStep::Ends => return true,
            MatchStep::Fits(next) => {
                at = next;
                continue;
            }
            MatchStep::Stars(next) => {
                again = one_later(next);
                at = next;
                continue;
            }
            MatchStep::Differs => {
                let Some(later) = again else {
                    return false;
                };
                again = one_later(later);
                at = later;
                continue;
            }
        }
    }
}

/// The same. The word `**`, which matches each tag, is not split into parts, nor is the tag.
#[tactic(auto, using(crate::proofs::Matchings::stars_match))]
pub fn word_matches(word: &[u8], tag: &[u8]) -> bool
    ensures { result ≡ patterns.matches (patterns.parts word.now) (patterns.parts tag.now) }
{
    is_stars(word) || parts_match(word, tag)
}

//! Patterns: texts that are read once and then match tags.

ghost use Rattle.std.specs.Prelude.{◌≡◌, ◌≢◌, length, OnOk, IfOk, IfErr, true};
ghost use Rattle.std.specs.List.{list_all};
ghost use Rattle.fwd_match.specs.Patterns as patterns;
ghost use Rattle.fwd_match.specs.Verdicts.{verdict, Good, Bad};
ghost use Rattle.fwd_match.specs.declared.fault.PatternFault.{PatternFault};

use crate::braces::has_good_braces;
use crate::counting::has_few_words;
use crate::fault::PatternFault;
use crate::fields::{Mark, first_field};
use crate::matching::word_matches;
use crate::spelling::expand;
use crate::stars::has_good_stars;
use fwd_base::Bytes;
use std::alloc::Global;
use std::marker::Model;

/// A match pattern (Fluentd's documentation on match patterns): words separated by spaces or tabs,
/// of which one has to match. A word is split at dots into parts; `*` matches one part, `**` zero
/// or more, any other part itself, and `{X,Y}` stands for one word with `X` and one with `Y`.
/// Contracts see it as the list of its expanded words.
#[derive(Drop)]
pub struct Pattern {
    words: Vec<Bytes>,
}

impl Model for Pattern {
    ghost use Rattle.std.specs.Prelude.{List, ℕ};

    ghost Value = { List (List ℕ) };

    ghost view = { λ pattern. pattern.words.items };
}

impl Pattern {
    /// Reads the text of a pattern, or answers its first fault in the order
    /// Empty, BadBrace, TooMany, BadStar. All faults are found before any
    /// memory is taken, so out of memory (Memory) is answered only of a
    /// text that is a pattern, and no more than `WORD_LIMIT` words are ever held. It is quadratic
    /// in a word of many groups, such as `{a}{a}..`; it is left so, since settings are read once.
    pub fn read(alloc: Global, text: &str) -> Result<Self, PatternFault>
        ensures ok { IfOk result (λ pattern. verdict text.now ≡ Good pattern) }
        ensures fault { IfErr result (λ fault.
            fault ≢ PatternFault.Memory → verdict text.now ≡ Bad fault) }
        ensures refused { (fault : PatternFault) → verdict text.now ≡ Bad fault
            → result ≡ Err fault }
    {
        let text = text.as_bytes();
        judge(text)?;
        let words = expand(alloc, text)?;
        Ok(Pattern { words })
    }

    /// Whether one of the words matches the tag. It takes no memory, and per word it makes at most
    /// (parts of the word) times (parts of the tag) comparisons: only the last `**` is ever tried
    /// again, one part further each time.
    #[tactic(auto, unfolding(crate::specs::Patterns::pattern_matches))]
    pub fn matches(&self, tag: &[u8]) -> bool
        ensures { result ≡ patterns.pattern_matches self.now tag.now }
    {
        self.words
            .iter()
            .any(|word| word_matches(word.as_slice(), tag))
    }
}

/// Whether a text is a pattern, or its first fault.
fn judge(text: &[u8]) -> Result<(), PatternFault>
    ensures ok { OnOk result (verdict text.now ≡ Good (patterns.expanded text.now)) }
    ensures fault { IfErr result (λ fault. verdict text.now ≡ Bad fault) }
{
    check_words(text)?;
    if !has_few_words(text) {
        return Err(PatternFault::TooMany);
    }
    if !has_good_stars(text) {
        return Err(PatternFault::BadStar);
    }
    Ok(())
}

/// Whether the words of a text are good as they stand, before their braces are expanded.
fn check_words(text: &[u8]) -> Result<(), PatternFault>
    ensures ok { IfOk result (λ _.
        (length (patterns.words text.now) ≢ 0)
        × (list_all patterns.has_good_braces (patterns.words text.now) ≡ true)) }
    ensures fault { IfErr result (λ fault. verdict text.now ≡ Bad fault) }
{
    let mut found = false;
    let mut rest = Some(text);
    while let Some(bytes) = rest {
        let (word, more) = first_field(bytes, Mark::Blank);
        if !word.is_empty() {
            if !has_good_braces(word) {
                return Err(PatternFault::BadBrace);
            }
            found = true;
        }
        rest = more;
    }
    if found {
        Ok(())
    } else {
        Err(PatternFault::Empty)
    }
}

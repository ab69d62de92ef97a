//! How many words a text stands for.

ghost use Rattle.std.specs.Prelude.{◌≡◌, ◌≤◌, ◌<◌, ◌*◌, length, nat_le, IfSome, IfNone};
ghost use Rattle.fwd_match.specs.Patterns.{alternatives, spellings, expanded};

use crate::fields::{Mark, first_field};
use crate::limits::WORD_LIMIT;

/// How many texts there are with an alternative behind each of so many, if these are at most
/// `WORD_LIMIT`.
fn count_behind(texts: usize, text: &[u8], inside: bool) -> Option<usize>
    requires { texts ≤ WORD_LIMIT }
    ensures some { IfSome result (λ count.
        count ≡ texts * length (alternatives inside text.now)) }
    ensures bound { IfSome result (λ count. count ≤ WORD_LIMIT) }
    ensures none { IfNone result (WORD_LIMIT < texts * length (alternatives inside text.now)) }
{
    let mut count = 0;
    let mut rest = Some(text);
    while let Some(bytes) = rest {
        let (_, more) = first_field(bytes, Mark::Comma(inside));
        count += texts;
        if count > WORD_LIMIT {
            return None;
        }
        rest = more;
    }
    Some(count)
}

/// How many words a word stands for, if these are at most `WORD_LIMIT`.
fn count_spellings(word: &[u8]) -> Option<usize>
    ensures some { IfSome result (λ count. count ≡ length (spellings word.now)) }
    ensures bound { IfSome result (λ count. count ≤ WORD_LIMIT) }
    ensures none { IfNone result (WORD_LIMIT < length (spellings word.now)) }
{
    let mut texts = 1;
    let mut rest = Some(word);
    let mut inside = false;
    while let Some(bytes) = rest {
        let (text, more) = first_field(bytes, Mark::Brace);
        texts = count_behind(texts, text, inside)?;
        inside = !inside;
        rest = more;
    }
    Some(texts)
}

/// Whether a text stands for at most `WORD_LIMIT` words.
pub fn has_few_words(text: &[u8]) -> bool
    ensures { result ≡ nat_le (length (expanded text.now)) WORD_LIMIT }
{
    let mut count = 0;
    let mut rest = Some(text);
    while let Some(bytes) = rest {
        let (word, more) = first_field(bytes, Mark::Blank);
        if !word.is_empty() {
            let Some(spelled) = count_spellings(word) else {
                return false;
            };
            count += spelled;
            if count > WORD_LIMIT {
                return false;
            }
        }
        rest = more;
    }
    true
}

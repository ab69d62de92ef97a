ghost use Rattle.std.specs.Prelude.{◌≡◌, ℕ, List, Option, map, IfOk, IsErr, IsSome};
ghost use Rattle.fwd_script.specs.Words.{HasBytes, bytes_of};
ghost use Rattle.fwd_script.specs.Lines.{
  Long,
  Short,
  Hex,
  Sixteen,
  Salt,
  Closing,
  Ending,
  kind_of,
  ending_of,
  read_at,
  read_none,
  read_more,
};

use crate::word::{bytes, number, salt, sixteen, small_number};
use fwd_base::Bytes;
use fwd_model::{EndKind, FlushKind, OwnedSalt};
use std::alloc::{AllocError, Global};

/// What one word of a script line can say.
pub trait Word: Sized + Drop {
    ghost said: { List ℕ → Option Self };

    /// What the word says, if it is a spelling. Out of memory is answered only for one that is,
    /// and only where it spells bytes.
    fn read_word(alloc: Global, word: &[u8]) -> Result<Option<Self>, AllocError>
        ensures value { IfOk result (λ value. value ≡ said word.now) }
        ensures memory { IsErr result → IsSome (said word.now) × IsSome (bytes_of word.now) };
}

/// What words in a row say: `(A, (B, ()))` is what two words say, an `A` and then a `B`.
pub trait Words: Sized + Drop {
    ghost said_by: { List (List ℕ) → Option Self };

    /// What just so many words say, if each is a spelling. Out of memory is answered only where
    /// one of them spells bytes.
    fn read_words(alloc: Global, words: &[&[u8]]) -> Result<Option<Self>, AllocError>
        ensures value { IfOk result (λ values. values ≡ said_by (map (λ w. w.now) words.now)) }
        ensures memory { IsErr result → HasBytes (map (λ w. w.now) words.now) };
}

impl Word for u64 {
    ghost said = { read_at Long };

    fn read_word(_alloc: Global, word: &[u8]) -> Result<Option<u64>, AllocError> {
        Ok(number(word))
    }
}

impl Word for u16 {
    ghost said = { read_at Short };

    fn read_word(_alloc: Global, word: &[u8]) -> Result<Option<u16>, AllocError> {
        Ok(small_number(word))
    }
}

impl Word for Bytes {
    ghost said = { read_at Hex };

    fn read_word(alloc: Global, word: &[u8]) -> Result<Option<Bytes>, AllocError> {
        bytes(alloc, word)
    }
}

impl Word for [u8; 16] {
    ghost said = { read_at Sixteen };

    fn read_word(_alloc: Global, word: &[u8]) -> Result<Option<[u8; 16]>, AllocError> {
        Ok(sixteen(word))
    }
}

impl Word for OwnedSalt {
    ghost said = { read_at Salt };

    fn read_word(alloc: Global, word: &[u8]) -> Result<Option<OwnedSalt>, AllocError> {
        salt(alloc, word)
    }
}

impl Word for FlushKind {
    ghost said = { read_at Closing };

    fn read_word(_alloc: Global, word: &[u8]) -> Result<Option<FlushKind>, AllocError> {
        Ok(flush_kind(word))
    }
}

impl Word for EndKind {
    ghost said = { read_at Ending };

    fn read_word(_alloc: Global, word: &[u8]) -> Result<Option<EndKind>, AllocError> {
        Ok(end_kind(word))
    }
}

impl Words for () {
    ghost said_by = { read_none };

    #[tactic(auto, unfolding(crate::specs::Lines::read_none))]
    fn read_words(_alloc: Global, words: &[&[u8]]) -> Result<Option<()>, AllocError> {
        match words {
            [] => Ok(Some(())),
            _ => Ok(None),
        }
    }
}

impl<A: Word, B: Words> Words for (A, B) {
    ghost said_by = { read_more A.said B.said_by };

    #[tactic(auto, unfolding(crate::specs::Lines::read_more))]
    fn read_words(alloc: Global, words: &[&[u8]]) -> Result<Option<(A, B)>, AllocError> {
        let [word, rest @ ..] = words else {
            return Ok(None);
        };
        let Some(first) = A::read_word(alloc, word)? else {
            return Ok(None);
        };
        let Some(more) = B::read_words(alloc, rest)? else {
            return Ok(None);
        };
        Ok(Some((first, more)))
    }
}

#[tactic(auto, unfolding(crate::specs::Lines::kind_of))]
fn flush_kind(word: &[u8]) -> Option<FlushKind>
    ensures { result ≡ kind_of word.now }
{
    match word {
        b"due" => Some(FlushKind::Due),
        b"all" => Some(FlushKind::All),
        _ => None,
    }
}

#[tactic(auto, unfolding(crate::specs::Lines::ending_of))]
fn end_kind(word: &[u8]) -> Option<EndKind>
    ensures { result ≡ ending_of word.now }
{
    match word {
        b"kept" => Some(EndKind::Kept),
        b"lost" => Some(EndKind::Lost),
        _ => None,
    }
}

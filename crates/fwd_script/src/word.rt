ghost use Rattle.std.specs.Prelude.{
  ◌≡◌,
  ◌<◌,
  ◌≤◌,
  ◌^◌,
  ◌↔◌,
  length,
  slice_index,
  IsTrue,
  map,
  IfOk,
  IsErr,
  IsSome,
  MatchOption,
};
ghost use Rattle.std.specs.Char.{is_ascii_hexdigit, is_ascii_uppercase};
ghost use Rattle.std.specs.List.{list_all, list_any};
ghost use Rattle.std.specs.Str.Parse.{AllDigits, digits_value};
ghost use Rattle.fwd_script.specs.Words.{words, is_hex, number_of, bytes_of, sixteen_of, salt_of};

use fwd_base::Bytes;
use fwd_model::OwnedSalt;
use hex::FromHex;
use std::alloc::{AllocError, Global};

/// The words of a line: what stands before, between and after its spaces.
pub fn split_words<'a>(alloc: Global, line: &'a [u8]) -> Result<Vec<&'a [u8]>, AllocError>
    ensures { IfOk result (λ v. map (λ w. w.now) v.items ≡ words line.now) }
{
    line.split(|b| *b == b' ').collect(alloc)
}

/// The number that the word's digits stand for, if all of the word is digits and the number is
/// below 2^64.
fn digits(word: &[u8]) -> Option<u64>
    ensures { MatchOption result
        (AllDigits 10 word.now → 2 ^ 64 ≤ digits_value 10 word.now)
        (λ n. AllDigits 10 word.now × (n ≡ digits_value 10 word.now)) }
{
    let mut n: u64 = 0;
    for digit in word {
        if !digit.is_ascii_digit() {
            return None;
        }
        n = n.checked_mul(10)?.checked_add(u64::from(*digit - b'0'))?;
    }
    Some(n)
}

/// Whether a zero stands before other digits.
fn has_leading_zero(word: &[u8]) -> bool
    ensures { IsTrue result ↔ ((1 < length word.now) × (slice_index word.now 0 ≡ 48)) }
{
    word.len() > 1 && word[0] == b'0'
}

/// The number below 2^64 that the word spells in decimal, with no sign and no leading zero.
pub fn number(word: &[u8]) -> Option<u64>
    ensures { result ≡ number_of (2 ^ 64) word.now }
{
    if word.is_empty() || has_leading_zero(word) {
        return None;
    }
    digits(word)
}

/// The number below 2^16 that the word spells.
pub fn small_number(word: &[u8]) -> Option<u16>
    ensures { result ≡ number_of (2 ^ 16) word.now }
{
    u16::try_from(number(word)?).ok()
}

/// Whether an upper-case letter stands in the word.
fn has_upper_case(word: &[u8]) -> bool
    ensures { result ≡ list_any is_ascii_uppercase word.now }
{
    word.iter().any(|b| b.is_ascii_uppercase())
}

/// Whether the word is hexadecimal digits alone.
fn has_digits_alone(word: &[u8]) -> bool
    ensures { result ≡ list_all is_ascii_hexdigit word.now }
{
    word.iter().all(|b| b.is_ascii_hexdigit())
}

/// Whether the word is pairs of hexadecimal digits, with no letter in upper case.
fn is_hex(word: &[u8]) -> bool
    ensures { result ≡ is_hex word.now }
{
    word.len() % 2 == 0 && !has_upper_case(word) && has_digits_alone(word)
}

/// The bytes that the word spells in lower-case hexadecimal digits, or no bytes for `-`. Out of
/// memory is answered only for a word that spells bytes.
pub fn bytes(alloc: Global, word: &[u8]) -> Result<Option<Bytes>, AllocError>
    ensures value { IfOk result (λ b. b ≡ bytes_of word.now) }
    ensures memory { IsErr result → IsSome (bytes_of word.now) }
{
    if word == b"-".as_slice() {
        return Ok(Some(Bytes::new(alloc)));
    }
    if word.is_empty() || !is_hex(word) {
        return Ok(None);
    }
    match hex::decode(alloc, word) {
        Ok(bytes) => Ok(Some(Bytes::from_vec(bytes))),
        Err(_) => Err(AllocError),
    }
}

/// The sixteen bytes that the word spells.
pub fn sixteen(word: &[u8]) -> Option<[u8; 16]>
    ensures { result ≡ sixteen_of word.now }
{
    if has_upper_case(word) {
        return None;
    }
    <[u8; 16] as FromHex>::from_hex(word).ok()
}

/// A word of so many digits spells more bytes than a salt has: 2^32 or more.
const TOO_LONG_FOR_SALT: usize = 0x2_0000_0000;

/// The salt that the word spells: less than 2^32 bytes. Out of memory is answered only for a word
/// that spells one.
#[tactic(auto, unfolding(crate::specs::Words::salt_of))]
pub fn salt(alloc: Global, word: &[u8]) -> Result<Option<OwnedSalt>, AllocError>
    ensures value { IfOk result (λ s. s ≡ salt_of word.now) }
    ensures memory { IsErr result → IsSome (salt_of word.now) }
{
    if word.len() >= TOO_LONG_FOR_SALT {
        return Ok(None);
    }
    let Some(bytes) = bytes(alloc, word)? else {
        return Ok(None);
    };
    Ok(OwnedSalt::new(bytes))
}

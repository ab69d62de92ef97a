//! What the values of a handshake's messages say.

ghost use Rattle.std.specs.Prelude.{◌≡◌};
ghost use Rattle.std.specs.Option.{option_copied, option_map};
ghost use Rattle.fwd_msgpack.specs.Values.{bytes_of, members_left, pairs_left};
ghost use Rattle.fwd_handshake.specs.Readings.{is_word, bool_of, text_under, values_behind};

use fwd_msgpack::{Head, Members, Pairs, Value};

/// Whether a value is a str of these bytes.
fn is_word(value: Value<'_>, word: &[u8]) -> bool
    ensures { result ≡ is_word word.now (bytes_of value.entry) }
{
    matches!(value.head(), Head::Str(_)) && value.is_text(word)
}

/// The bool that a value is.
pub(crate) fn bool_of(value: Value<'_>) -> Option<bool>
    ensures { result ≡ bool_of (bytes_of value.entry) }
{
    match value.head() {
        Head::Bool(flag) => Some(flag),
        _ => None,
    }
}

/// The payload of the str or bin under a key.
pub(crate) fn text_under<'a>(pairs: Pairs<'a>, key: &[u8]) -> Option<&'a [u8]>
    ensures { option_copied result ≡ text_under key.now (pairs_left pairs.entry) }
{
    pairs.last_under(key)?.text()
}

/// The values behind the word that names a message, which is an array.
pub(crate) fn values_behind<'a>(value: Value<'a>, word: &[u8]) -> Option<Members<'a>>
    ensures { option_map members_left result ≡ values_behind word.now (bytes_of value.entry) }
{
    let mut members = value.items()?;
    let first = members.next()?;
    if is_word(first, word) {
        Some(members)
    } else {
        None
    }
}

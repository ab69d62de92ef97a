//! What a whole value is.

ghost use Rattle.std.specs.Prelude.{◌≡◌, ◌≤◌, ◌+◌, IfSome, length};
ghost use Rattle.std.specs.Option.{option_copied};
ghost use Rattle.fwd_msgpack.specs.Values.{bytes_of};
ghost use Rattle.fwd_modes.specs.Kinds.{is_map, text_within};

use fwd_msgpack::{Head, Value};

#[inline(always)]
pub(crate) fn is_map(value: Value<'_>) -> bool
    ensures { result ≡ is_map (bytes_of value.entry) }
{
    matches!(value.head(), Head::Map(_))
}

/// The payload of a str or a bin of at most so many bytes. Its head has five bytes at most.
pub(crate) fn text_within<'a>(value: Value<'a>, most: usize) -> Option<&'a [u8]>
    ensures value { option_copied result ≡ text_within most (bytes_of value.entry) }
    ensures head { IfSome result (λ text. length (bytes_of value.entry) ≤ length text.now + 5) }
{
    let text = value.text()?;
    if text.len() <= most { Some(text) } else { None }
}

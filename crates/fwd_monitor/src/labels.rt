//! The labels of the metrics page.

ghost use Rattle.std.specs.Prelude.{◌≡◌, ◌++◌, OnOk, codes};
ghost use Rattle.std.specs.Str.{is_utf8};
ghost use Rattle.fwd_monitor.specs.Metrics.{is_plain, text_label};
ghost use Rattle.fwd_monitor.specs.Samples.{escaped, escaped_byte};

use std::alloc::{AllocError, Global};

/// Adds a label of this name, without a comma or a brace.
pub(crate) fn push_label(
    alloc: Global,
    page: &mut Vec<u8>,
    name: &str,
    text: &[u8],
) -> Result<(), AllocError>
    ensures { OnOk result (page.new.items ≡ page.old.items ++ text_label name.now text.now) }
{
    if is_plain(text) {
        push_plain(page, name, text)
    } else {
        let label = format!(in alloc; "{name}_hex=\"{}\"", hex::encode(alloc, text)?)?;
        page.extend_from_slice(label.as_bytes())
    }
}

/// Adds a label that may stand as it is.
fn push_plain(page: &mut Vec<u8>, name: &str, text: &[u8]) -> Result<(), AllocError>
    ensures { OnOk result (page.new.items
        ≡ page.old.items ++ name.now ++ codes "=\"" ++ escaped text.now ++ codes "\"") }
{
    page.extend_from_slice(name.as_bytes())?;
    page.extend_from_slice(b"=\"")?;
    for byte in text {
        push_escaped(page, *byte)?;
    }
    page.extend_from_slice(b"\"")
}

/// Adds a byte of a label's value.
fn push_escaped(page: &mut Vec<u8>, byte: u8) -> Result<(), AllocError>
    ensures { OnOk result (page.new.items ≡ page.old.items ++ escaped_byte byte) }
{
    match byte {
        b'\\' => page.extend_from_slice(b"\\\\"),
        b'"' => page.extend_from_slice(b"\\\""),
        b'\n' => page.extend_from_slice(b"\\n"),
        _ => page.extend_from_slice(&[byte]),
    }
}

/// Whether a text may stand as it is.
fn is_plain(text: &[u8]) -> bool
    ensures { result ≡ is_plain text.now }
{
    is_text(text) && !text.contains(&0)
}

/// Whether bytes are UTF-8.
fn is_text(bytes: &[u8]) -> bool
    ensures { result ≡ is_utf8 bytes.now }
{
    match str::from_utf8(bytes) {
        Ok(_) => true,
        Err(_) => false,
    }
}

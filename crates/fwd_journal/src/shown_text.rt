//! How bytes that a peer sent stand in the journal.

ghost use Rattle.std.specs.Prelude.{◌≡◌};
ghost use Rattle.fwd_journal.specs.Shown.{are_plain, is_plain};

use std::fmt;

/// Whether a byte is a printable character of ASCII, which takes one column.
fn is_plain(byte: u8) -> bool
    ensures { result ≡ is_plain byte }
{
    32 <= byte && byte <= 126
}

/// Whether bytes are a text that can stand on a line as it is.
pub fn are_plain(bytes: &[u8]) -> bool
    ensures { result ≡ are_plain bytes.now }
{
    bytes.iter().all(|byte| is_plain(*byte))
}

/// Bytes that a peer sent: between quotation marks where all are printable, and else in hexadecimal
/// digits. So none of them ends a line, or moves a terminal.
#[derive(Clone, Copy)]
pub struct ShownText<'a> {
    pub bytes: &'a [u8],
}

impl fmt::Display for ShownText<'_> {
    fn fmt<W: fmt::Write>(&self, f: &mut fmt::Formatter<W>) -> fmt::Result {
        if are_plain(self.bytes) {
            write_quoted(f, self.bytes)
        } else {
            write_hex(f, self.bytes)
        }
    }
}

/// Printable bytes between quotation marks, as a string of TOML or JSON.
fn write_quoted<W: fmt::Write>(f: &mut fmt::Formatter<W>, bytes: &[u8]) -> fmt::Result {
    f.write_str("\"")?;
    for byte in bytes {
        if *byte == b'"' || *byte == b'\\' {
            f.write_str("\\")?;
        }
        let shown = char::from(*byte);
        write!(f, "{shown}")?;
    }
    f.write_str("\"")
}

/// Bytes in hexadecimal digits.
fn write_hex<W: fmt::Write>(f: &mut fmt::Formatter<W>, bytes: &[u8]) -> fmt::Result {
    for byte in bytes {
        write!(f, "{byte:02x}")?;
    }
    Ok(())
}

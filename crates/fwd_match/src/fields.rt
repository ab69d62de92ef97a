//! Texts cut into fields at some bytes.

ghost use Rattle.std.specs.Prelude.{◌≡◌, ◌∷◌, ◌≤◌, length, position};
ghost use Rattle.std.specs.List.{slice_split};
ghost use Rattle.std.specs.Option.{option_copied};
ghost use Rattle.fwd_match.specs.Marks.{marks, fields_left, size_left};

/// The bytes at which a text is cut.
#[derive(Clone, Copy)]
pub enum Mark {
    /// A space or a tab, between words.
    Blank,
    /// A dot, between parts.
    Dot,
    /// A brace.
    Brace,
    /// A comma inside braces; outside of them it cuts nothing.
    Comma(bool),
}

impl Mark {
    fn is_at(self, byte: u8) -> bool
        ensures { result ≡ marks self byte }
    {
        match self {
            Mark::Blank => byte == b' ' || byte == b'\t',
            Mark::Dot => byte == b'.',
            Mark::Brace => byte == b'{' || byte == b'}',
            Mark::Comma(inside) => inside && byte == b',',
        }
    }
}

fn place_of(bytes: &[u8], mark: Mark) -> Option<usize>
    ensures { result ≡ position (marks mark) bytes.now }
{
    bytes.iter().position(|byte| mark.is_at(*byte))
}

/// The first field of a text, and what stands behind the mark that ends it.
pub fn first_field(bytes: &[u8], mark: Mark) -> (&[u8], Option<&[u8]>)
    ensures fields { slice_split (marks mark) bytes.now
        ≡ result.0.now ∷ fields_left (marks mark) (option_copied result.1) }
    ensures smaller { size_left (option_copied result.1) ≤ length bytes.now }
{
    match place_of(bytes, mark) {
        Some(at) => (&bytes[..at], Some(&bytes[at + 1..])),
        None => (bytes, None),
    }
}

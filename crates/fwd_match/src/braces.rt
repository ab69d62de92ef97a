//! Braces in a word.

ghost use Rattle.std.specs.Prelude.{◌≡◌};
ghost use Rattle.fwd_match.specs.Patterns as patterns;

/// Whether braces open and close by turns.
pub fn has_good_braces(word: &[u8]) -> bool
    ensures { result ≡ patterns.has_good_braces word.now }
{
    let mut inside = false;
    for byte in word {
        if *byte == b'{' || *byte == b'}' {
            if inside == (*byte == b'{') {
                return false;
            }
            inside = !inside;
        }
    }
    !inside
}

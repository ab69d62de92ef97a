//! What a match pattern has that Fluentd means something by, and that stands for itself here.

/// What stands for itself.
const SLASHES: &str = "/../";

const RUBY: &str = "#{..}";

const COMMA: &str = "a comma outside braces";

const BAR: &str = "|";

/// Whether a text stands between slashes, as a regular expression of Fluentd.
fn is_between_slashes(text: &str) -> bool {
    text.len() > 1 && text.starts_with('/') && text.ends_with('/')
}

/// Whether a text has a comma outside its braces.
fn has_comma(text: &str) -> bool {
    text.split('{').any(|piece| {
        let (_, tail) = piece.split_once('}').unwrap_or(("", piece));
        tail.contains(',')
    })
}

/// What the text of a pattern has that stands for itself, if Fluentd means something by it: the
/// first of several.
pub(crate) fn literal_in(text: &str) -> Option<&'static str> {
    let mut words = text.split([' ', '\t']);
    if is_between_slashes(text.trim()) || words.any(is_between_slashes) {
        Some(SLASHES)
    } else if text.contains("#{") {
        Some(RUBY)
    } else if has_comma(text) {
        Some(COMMA)
    } else if text.contains('|') {
        Some(BAR)
    } else {
        None
    }
}

ghost use Rattle.std.specs.Prelude.{◌≡◌, ◌+◌, ◌≤◌, [], length, MatchOption};
ghost use Rattle.fwd_script.specs.Script.{lines_of, settings_of, event_lines, head_len, IsFirstLine, IsScript};

/// The parts of a script. The first line `---` ends the settings; without one all of the script
/// is settings.
#[derive(Clone, Copy)]
pub struct Script<'a> {
    /// The text of the settings.
    pub settings: &'a [u8],
    /// The text of the events, a line for each.
    pub events: &'a [u8],
    /// How many lines stand before the events, the line `---` among them.
    pub lines_before: u64,
}

/// The parts of a script.
pub fn split_script(script: &[u8]) -> Script<'_>
    ensures settings { result.settings.now ≡ settings_of script.now }
    ensures events { lines_of result.events.now ≡ event_lines (lines_of script.now) }
    ensures before { result.lines_before ≡ head_len (lines_of script.now) }
    ensures parts { IsScript script.now result.settings.now result.events.now }
    ensures size { result.lines_before + length result.events.now ≤ length script.now }
{
    let mut rest = script;
    let mut lines_before = 0;
    while let Some((line, after)) = next_line(rest) {
        lines_before += 1;
        if line == b"---".as_slice() {
            return Script {
                settings: &script[..script.len() - rest.len()],
                events: after,
                lines_before,
            };
        }
        rest = after;
    }
    Script {
        settings: script,
        events: rest,
        lines_before,
    }
}

/// The first line of a text, without its line feed, and what comes after it.
pub fn next_line(text: &[u8]) -> Option<(&[u8], &[u8])>
    ensures { MatchOption result (text.now ≡ [])
        (λ found. IsFirstLine text.now found.0.now found.1.now) }
{
    for (index, byte) in text.iter().enumerate() {
        if *byte == b'\n' {
            return Some((&text[..index], &text[index + 1..]));
        }
    }
    if text.is_empty() {
        return None;
    }
    Some((text, &[]))
}

//! The relay, called as a library. Its events and answers are written as scripts have them.

use fwd_core::Relay;
use fwd_model::{AckTerms, BufferLimits, Event, OutputConfig};
use fwd_monitor::page;
use fwd_script::{print_answer, read_config, read_event};
use std::alloc::{AllocError, Global};

/// A connection comes.
pub const ACCEPT: &str =
    "accept 1 00000000000000000000000000000000 00000000000000000000000000000000\n";

/// The events of these lines.
fn events_of(alloc: Global, lines: &str) -> Result<Vec<Event>, AllocError> {
    let mut events = Vec::new(alloc);
    for line in lines.split_terminator('\n') {
        if let Some(event) = read_event(alloc, line.as_bytes())? {
            events.push(event)?;
        }
    }
    Ok(events)
}

/// The lines of the answers to the events of these lines, in one run.
fn run_of(alloc: Global, relay: &mut Relay, lines: &str) -> Result<String, AllocError> {
    let events = events_of(alloc, lines)?;
    let answers = relay.run(alloc, events.as_slice())?;
    let mut told = String::new(alloc);
    for answer in &answers {
        told.push_str(print_answer(alloc, answer)?.as_str())?;
        told.push('\n')?;
    }
    Ok(told)
}

/// Whether the answers to the events of these lines, in one run, are these lines.
pub fn answers_with(alloc: Global, relay: &mut Relay, lines: &str, wanted: &str) -> bool {
    match run_of(alloc, relay, lines) {
        Ok(told) => told.as_str() == wanted,
        Err(_) => false,
    }
}

/// A relay of these settings, if they are good.
pub fn relay_of(alloc: Global, settings: &str) -> Option<Relay> {
    let config = read_config(alloc, settings.as_bytes()).ok()?;
    Relay::new(alloc, config).ok()
}

/// Settings whose first output takes the tag `a`, and the second each other.
const TWO_OUTPUTS: &str = "[[output]]\nmatch = \"a\"\n[[output.server]]\naddress = \"1.2.3.4:1\"\n\
    [[output]]\nmatch = \"**\"\n[[output.server]]\naddress = \"1.2.3.4:2\"\n";

/// Entries of three bytes, `92 01 80`, of the tags `b`, `a`, the empty one and `ab`, and once the
/// chunk of `a` is closed one more of `a`, of four bytes: `92 cc 80 80`.
const FIVE: &str = "piece 1 93a162018093a161018093a0018093a261620180\nadmit 1 1 0\nadmit 1 0 0\n\
    admit 1 1 0\nadmit 1 1 0\nflush 0 0 all\npiece 1 93a161cc8080\nadmit 1 0 0\n";

const ANSWERS_FIVE: &str = "requests 4 out -\nadmitted 1 entries 1\nadmitted 2 entries 1\n\
    admitted 3 entries 1\nadmitted 4 entries 1\nclosed 1\nrequests 1 out -\n\
    admitted 5 entries 1\n";

/// Tags stand by their bytes.
const FIVE_ARE_HELD: &str = "output 0 accepted 2 settled 0 held 2 bytes 7 chunks 2\n\
    tag 61 held 2 bytes 7\noutput 1 accepted 3 settled 0 held 3 bytes 9 chunks 3\n\
    tag - held 1 bytes 3\ntag 6162 held 1 bytes 3\ntag 62 held 1 bytes 3\n";

/// The first entry of `a` is sent and settled. The other one stays counted.
const FIRST: &str = "up 0 0 0 - 0\ntake 0 0 0\nload 0 0 0\nwrote 0 0 46\n\
    heard 0 0 81a361636bb8414141414141414141414141414141414141414141513d3d\nsettle 0 0\n";

const ANSWERS_FIRST: &str = "done\ntook 1 entries 1\n\
    frame 93a161c40392018082a473697a6501a56368756e6b\
    b8414141414141414141414141414141414141414141513d3d\ndone\nacked out -\nsettled 1\n";

const FOUR_ARE_HELD: &str = "output 0 accepted 2 settled 1 held 1 bytes 4 chunks 1\n\
    tag 61 held 1 bytes 4\noutput 1 accepted 3 settled 0 held 3 bytes 9 chunks 3\n\
    tag - held 1 bytes 3\ntag 6162 held 1 bytes 3\ntag 62 held 1 bytes 3\n";

/// A source asks for an acknowledgement and leaves, and then its entry is settled.
const LEAVES: &str = "piece 1 94a161018081a56368756e6ba178\nadmit 1 0 0\nflush 0 0 all\n\
    up 0 0 0 - 0\ntake 0 0 0\nload 0 0 0\nshut 1\nforget 1 0\nwrote 0 0 46\n\
    heard 0 0 81a361636bb8414141414141414141414141414141414141414141513d3d\nsettle 0 0\n";

const ANSWERS_LEAVES: &str = "requests 1 out -\nadmitted 1 entries 1\nclosed 1\ndone\n\
    took 1 entries 1\nframe 93a161c40392018082a473697a6501a56368756e6b\
    b8414141414141414141414141414141414141414141513d3d\ndone\nforgot 1\ndone\nacked out -\n\
    settled 1\n";

const ALL_SETTLED: &str = "output 0 accepted 1 settled 1 held 0 bytes 0 chunks 0\n";

/// The page of what the relay reports.
fn page_of(alloc: Global, relay: &Relay) -> Option<String> {
    page(alloc, &relay.reports(alloc).ok()?).ok()
}

/// Whether a relay of these settings, which a connection came to, gives for each of these lines
/// these answers, and shows a page then that ends so.
fn shows(alloc: Global, settings: &str, steps: &[(&str, &str, &str)]) -> bool {
    let Some(mut relay) = relay_of(alloc, settings) else {
        return false;
    };
    let mut is_right = answers_with(alloc, &mut relay, ACCEPT, "accepted out -\n");
    for (lines, answers, wanted) in steps {
        is_right = is_right
            && answers_with(alloc, &mut relay, lines, answers)
            && page_of(alloc, &relay).is_some_and(|text| text.as_str().ends_with(*wanted));
    }
    is_right
}

#[test]
fn the_page_shows_what_is_held(rt: HostRuntime) {
    let five = [
        (FIVE, ANSWERS_FIVE, FIVE_ARE_HELD),
        (FIRST, ANSWERS_FIRST, FOUR_ARE_HELD),
    ];
    assert!(rt; shows(rt.alloc(), TWO_OUTPUTS, &five));
    assert!(rt; shows(rt.alloc(), "", &[(LEAVES, ANSWERS_LEAVES, ALL_SETTLED)]));
}

/// The limits of the settings that an empty text stands for.
const LIMITS: BufferLimits = BufferLimits {
    chunk: 1000,
    total: 100_000,
    interval: 1000,
    retry_wait: 500,
    retry_max: 4000,
    first: 1,
};

const ACKS: AckTerms = AckTerms {
    window: 1,
    ack_wait: 10_000,
};

/// Whether it is the output of those settings: two workers, a server, and one that stands by.
fn is_row_output(output: &OutputConfig) -> bool {
    output.workers == 2
        && output.standby.as_slice() == [false, true].as_slice()
        && output.limits == LIMITS
        && output.acks == ACKS
        && output.login.hostname.as_slice() == b"relay".as_slice()
        && output.login.shared_key.is_none()
        && output.login.username.is_empty()
        && output.login.password.is_empty()
}

/// What an empty text of settings stands for.
fn are_row_settings(alloc: Global) -> Option<bool> {
    let row = read_config(alloc, b"").ok()?;
    let [output] = row.outputs.as_slice() else {
        return None;
    };
    Some(row.run == [0; 6] && row.routes.first(b"a.b") == Some(0) && is_row_output(output))
}

#[test]
fn an_empty_text_stands_for_the_row_settings(rt: HostRuntime) {
    assert!(rt; are_row_settings(rt.alloc()) == Some(true));
}

//! What good settings set, a line a key. A line that cannot be printed is missing in what the
//! program prints, and is no error of its own here.

use crate::tables::words::word_of_bytes;
use anyhow::Result;
use fwd_base::Text;
use fwd_settings::{OutputSettings, RelaySettings, Settings, UserSettings, WhenFull};

/// A text that may be absent.
fn text_of(text: &Option<Text>) -> &str {
    match text {
        Some(text) => text.as_str(),
        None => "none",
    }
}

/// Bytes that may be absent, in hex.
fn print_bytes<R: Print + AllocGlobal>(rt: &R, key: &str, bytes: Option<&[u8]>) -> Result<()> {
    match bytes {
        Some(bytes) => println!(rt; "{key} {}", word_of_bytes(rt.alloc(), bytes)?)?,
        None => println!(rt; "{key} none")?,
    }
    Ok(())
}

/// Prints who may log in.
fn print_users<R: Print>(rt: &R, users: &[UserSettings]) {
    for (number, user) in users.iter().enumerate() {
        let (name, password) = (user.name.as_str(), user.password.as_str());
        let _ = println!(rt;
            "relay.user[{number}].name {name}\nrelay.user[{number}].password {password}"
        );
    }
}

/// Prints where the relay listens.
fn print_addresses<R: Print>(rt: &R, relay: &RelaySettings) {
    let _ = println!(rt; "relay.listen {}", relay.listen);
    let _ = match relay.monitor {
        Some(address) => println!(rt; "relay.monitor {address}"),
        None => println!(rt; "relay.monitor none"),
    };
}

/// Prints what the relay's own keys are set to.
fn print_relay<R: Print + AllocGlobal>(rt: &R, relay: &RelaySettings) -> Result<()> {
    print_addresses(rt, relay);
    let (hostname, key) = (relay.hostname.as_str(), text_of(&relay.shared_key));
    let _ = println!(rt; "relay.hostname {hostname}\nrelay.shared_key {key}");
    print_bytes(
        rt,
        "relay.run_id",
        relay.run_id.as_ref().map(|id| id.as_slice()),
    )?;
    print_bytes(
        rt,
        "relay.seed",
        relay.seed.as_ref().map(|seed| seed.as_slice()),
    )?;
    for (key, number) in [
        ("connections", u64::from(relay.connections)),
        ("message_limit", u64::from(relay.message_limit)),
        ("depth", u64::from(relay.depth)),
        ("readers", u64::from(relay.readers)),
    ] {
        let _ = println!(rt; "relay.{key} {number}");
    }
    print_users(rt, relay.users.as_slice());
    let _ = println!(rt; "relay.metrics {}", relay.metrics);
    let _ = match relay.idle_limit {
        Some(limit) => println!(rt; "relay.idle_limit {limit}"),
        None => println!(rt; "relay.idle_limit none"),
    };
    let control = text_of(&relay.control);
    let _ = println!(rt;
        "relay.control {control}\nrelay.stop_wait {}",
        relay.stop_wait
    );
    Ok(())
}

/// Prints what the keys of an output that are numbers are set to.
fn print_numbers<R: Print>(rt: &R, place: usize, output: &OutputSettings) {
    for (key, number) in [
        ("workers", u64::from(output.workers)),
        ("chunk_limit", output.chunk_limit),
        ("total_limit", output.total_limit),
        ("flush_interval", output.flush_interval),
        ("retry_wait", output.retry_wait),
        ("retry_max", output.retry_max),
        ("ack_wait", output.ack_wait),
        ("window", u64::from(output.window)),
    ] {
        let _ = println!(rt; "output[{place}].{key} {number}");
    }
}

/// The word that says what becomes of a request that an output has no room for.
fn full_name(full: WhenFull) -> &'static str {
    match full {
        WhenFull::Close => "close",
        WhenFull::Wait => "wait",
    }
}

/// Prints what the keys of an output that are texts are set to.
fn print_texts<R: Print>(rt: &R, place: usize, output: &OutputSettings) {
    for (key, text) in [
        ("hostname", output.hostname.as_str()),
        ("shared_key", text_of(&output.shared_key)),
        ("username", output.username.as_str()),
        ("password", output.password.as_str()),
        ("full", full_name(output.full)),
    ] {
        let _ = println!(rt; "output[{place}].{key} {text}");
    }
}

/// Prints the servers of an output.
fn print_servers<R: Print>(rt: &R, place: usize, output: &OutputSettings) {
    for (number, server) in output.servers.as_slice().iter().enumerate() {
        let (address, standby) = (server.address, server.standby);
        let _ = println!(rt;
            "output[{place}].server[{number}].address {address}\n\
            output[{place}].server[{number}].standby {standby}"
        );
    }
}

/// Prints what the keys of an output are set to. Of its pattern it is told whether the tags `a.b`
/// and `c` come to it.
fn print_output<R: Print>(rt: &R, place: usize, output: &OutputSettings) {
    for tag in ["a.b", "c"] {
        let is_match = output.pattern.matches(tag.as_bytes());
        let _ = println!(rt; "output[{place}].match {tag} {is_match}");
    }
    print_numbers(rt, place, output);
    print_texts(rt, place, output);
    print_servers(rt, place, output);
}

/// Prints what all keys are set to.
pub(crate) fn print_keys<R: Print + AllocGlobal>(rt: &R, settings: &Settings) -> Result<()> {
    print_relay(rt, &settings.relay)?;
    for (place, output) in settings.outputs.as_slice().iter().enumerate() {
        print_output(rt, place, output);
    }
    Ok(())
}

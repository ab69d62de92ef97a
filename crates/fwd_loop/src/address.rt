//! Where a relay listens, and how many sources it takes, by its settings.

ghost use Rattle.std.specs.Prelude.{◌≡◌, true};
ghost use Rattle.fwd_settings.specs.Ranges.{in_range};

use crate::files::{most_files, sources_within};
use fwd_peers::{PeerAddress, SocketPath};
use fwd_settings::{ListenAddress, Settings};
use fwd_turns::{ListenConfig, ReaderLimits};
use std::rt::Files;

/// Where the relay listens, how many sources it takes, and how many readers.
#[derive(Clone, Copy)]
pub(crate) struct Address {
    pub listen: ListenConfig,
    pub readers: usize,
    pub each: ReaderLimits,
}

/// Where a relay of these settings listens, how many sources it takes: as many as are set, or as
/// many as the process may have files open for; and how many readers it has.
#[tactic(auto, using(crate::proofs::Outputs::outputs_few))]
pub(crate) fn address_of<R: Files + AllocGlobal>(rt: &R, settings: &Settings) -> Address
    requires { in_range settings.now ≡ true }
{
    let relay = &settings.relay;
    let asked = u64::from(relay.connections);
    let readers = u64::from(relay.readers);
    let files = most_files(rt);
    let outputs = settings.outputs.as_slice();
    let most = match files {
        Some(files) => sources_within(files, relay.readers, outputs),
        None => asked.saturating_mul(2),
    };
    Address {
        listen: ListenConfig {
            listen: listen_of(&relay.listen),
            monitor: relay.monitor,
            has_metrics: relay.metrics,
            connections: asked.min(most),
            has_other_outputs: outputs.len() > 1,
            few_files: if most < asked { files } else { None },
        },
        readers: readers as usize,
        each: ReaderLimits {
            idle_limit: relay.idle_limit,
            kept: most
                .saturating_sub(asked)
                .min(asked)
                .checked_div(readers)
                .unwrap_or(0),
        },
    }
}

/// Where sources connect, by the settings.
fn listen_of(listen: &ListenAddress) -> PeerAddress {
    match listen {
        ListenAddress::Tcp(address) => PeerAddress::Tcp(*address),
        ListenAddress::Unix(path) => PeerAddress::Unix(SocketPath::of(path.as_str())),
    }
}

/// The path of the control socket, if the settings name one.
pub(crate) fn control_path_of(settings: &Settings) -> Option<SocketPath> {
    let path = settings.relay.control.as_ref()?;
    Some(SocketPath::of(path.as_str()))
}

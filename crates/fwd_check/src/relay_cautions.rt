//! What is lawful in the settings of the relay itself, and foolish.

use crate::saying::say;
use fwd_settings::RelaySettings;
use std::fmt;
use std::io::Write;
use std::net::SocketAddr;

/// What is lawful in the settings of the relay itself, and foolish.
#[derive(Clone, Copy)]
enum RelayCaution {
    /// Sources and monitors are listened for at one address.
    SameAddress(SocketAddr),
    /// Sources are listened for at all addresses of the machine, and need no key.
    NoKey(SocketAddr),
    /// Metrics are wanted, and no monitor's address is there to ask for them.
    NoMonitor,
}

impl fmt::Display for RelayCaution {
    fn fmt<W: fmt::Write>(&self, f: &mut fmt::Formatter<W>) -> fmt::Result {
        match *self {
            RelayCaution::SameAddress(address) => write!(
                f,
                "caution: listen and monitor are both {address}: no run can start"
            ),
            RelayCaution::NoKey(address) => write!(
                f,
                "caution: listen {address} without shared_key: whoever reaches it may send"
            ),
            RelayCaution::NoMonitor => {
                f.write_str("caution: metrics without monitor: nobody can ask for them")
            }
        }
    }
}

/// Whether who connects to an address may come to who listens at another.
pub(crate) fn leads_to(address: SocketAddr, listen: SocketAddr) -> bool {
    let (ip, own) = (address.ip(), listen.ip());
    let is_near = ip.is_loopback() || ip.is_unspecified();
    address.port() == listen.port() && (ip == own || own.is_unspecified() && is_near)
}

/// Whether nobody can listen at both an address and that of sources, if they have one.
fn is_same(monitor: SocketAddr, listen: Option<SocketAddr>) -> bool {
    listen.is_some_and(|listen| leads_to(monitor, listen) || leads_to(listen, monitor))
}

/// Says if no run can start, since the relay would listen twice at one address.
pub fn say_of_addresses<E: Write>(relay: &RelaySettings, errors: &mut E) {
    if let Some(monitor) = relay.monitor {
        if is_same(monitor, relay.listen.tcp()) {
            say(errors, &RelayCaution::SameAddress(monitor));
        }
    }
}

/// Says what is foolish in the settings of the relay itself.
pub(crate) fn say_of_relay<E: Write>(relay: &RelaySettings, errors: &mut E) {
    say_of_addresses(relay, errors);
    if let Some(listen) = relay.listen.tcp() {
        if listen.ip().is_unspecified() && relay.shared_key.is_none() {
            say(errors, &RelayCaution::NoKey(listen));
        }
    }
    if relay.metrics && relay.monitor.is_none() {
        say(errors, &RelayCaution::NoMonitor);
    }
}

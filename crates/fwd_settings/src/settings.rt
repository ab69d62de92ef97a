//! The settings, with the defaults where a key is absent.

use fwd_base::{Seq, Text};
use fwd_match::Pattern;
use std::fmt;
use std::net::SocketAddr;

/// All settings.
#[derive(Drop)]
pub struct Settings {
    /// The relay itself.
    pub relay: RelaySettings,
    /// The outputs, from 1 to 64, in the order of the file.
    pub outputs: Seq<OutputSettings>,
}

/// Where sources connect: at a numeric address, or at the Unix socket of an absolute path, 2 to 107
/// bytes.
#[derive(Drop)]
pub enum ListenAddress {
    Tcp(SocketAddr),
    Unix(Text),
}

impl ListenAddress {
    /// The numeric address, if it is one.
    pub fn tcp(&self) -> Option<SocketAddr> {
        match self {
            ListenAddress::Tcp(address) => Some(*address),
            ListenAddress::Unix(_) => None,
        }
    }
}

impl fmt::Display for ListenAddress {
    fn fmt<W: fmt::Write>(&self, f: &mut fmt::Formatter<W>) -> fmt::Result {
        match self {
            ListenAddress::Tcp(address) => write!(f, "{address}"),
            ListenAddress::Unix(path) => write!(f, "unix:{path}"),
        }
    }
}

/// The settings of the relay itself. They are not printed, since the seed, the key and the
/// passwords are secrets.
#[derive(Drop)]
pub struct RelaySettings {
    /// Where sources connect.
    pub listen: ListenAddress,
    /// Where the monitor page is served, if it is.
    pub monitor: Option<SocketAddr>,
    /// The relay's name, 1 to 255 bytes.
    pub hostname: Text,
    /// The key that sources have to know, 1 to 1,024 bytes. Without one there is no handshake
    /// with them.
    pub shared_key: Option<Text>,
    /// What tells this run from others.
    pub run_id: Option<[u8; 6]>,
    /// Where the random numbers begin.
    pub seed: Option<[u8; 32]>,
    /// The most sources at a time, 1 to 1,024.
    pub connections: u16,
    /// The most bytes of a value of a source, 1,024 to 67,108,864.
    pub message_limit: u32,
    /// The most arrays and maps that may stand one in another in a value of a source, 8 to 128.
    pub depth: u8,
    /// How many threads read sources, 1 to 16.
    pub readers: u16,
    /// The users that sources log in as, in the order of the file; where there is none, they need
    /// none. There are only users where there is a `shared_key`.
    pub users: Seq<UserSettings>,
    /// Whether the monitor's listener serves the metrics page too.
    pub metrics: bool,
    /// How long a source has to be silent, in milliseconds, 1 to 86,400,000, that gives its place
    /// to a new one where all are taken. Where it is not set none does.
    pub idle_limit: Option<u64>,
    /// The path of the socket over which the relay is asked to stop, 1 to 107 bytes without a zero
    /// byte, if it is.
    pub control: Option<Text>,
    /// How long the relay has to deliver what it holds once it is asked to stop, where who asks
    /// does not say, in milliseconds, 1 to 86,400,000.
    pub stop_wait: u64,
}

/// A user that a source may log in as. It is not printed, since the password is a secret.
#[derive(Drop)]
pub struct UserSettings {
    /// The user's name, 1 to 255 bytes.
    pub name: Text,
    /// The user's password, 1 to 255 bytes.
    pub password: Text,
}

/// The settings of an output. They are not printed, since the key and the password are secrets.
#[derive(Drop)]
pub struct OutputSettings {
    /// Which tags come here.
    pub pattern: Pattern,
    /// How many sessions it runs at a time, 1 to 16.
    pub workers: u16,
    /// The most bytes of entries in a chunk, 1 to 16,000,000.
    pub chunk_limit: u64,
    /// The most bytes of entries in all, 1 to 1,000,000,000,000.
    pub total_limit: u64,
    /// How long a chunk waits for more entries, in milliseconds, 0 to 86,400,000.
    pub flush_interval: u64,
    /// How long a lost chunk or server waits after its first loss, in milliseconds, 1 to
    /// 86,400,000.
    pub retry_wait: u64,
    /// The longest that a lost chunk or server waits, in milliseconds, `retry_wait` to 86,400,000.
    pub retry_max: u64,
    /// How long a handshake or an acknowledgement is waited for, in milliseconds, 1 to 86,400,000.
    pub ack_wait: u64,
    /// How many chunks a session may have unacknowledged: 1 to `WINDOW_MAX`.
    pub window: u16,
    /// The name that it gives to its servers, 1 to 255 bytes.
    pub hostname: Text,
    /// The key that its servers have to know, 1 to 1,024 bytes. Without one there is no handshake
    /// with them.
    pub shared_key: Option<Text>,
    /// The user that it is to its servers, 0 to 255 bytes.
    pub username: Text,
    /// The user's password, 0 to 255 bytes.
    pub password: Text,
    /// Its servers, from 1 to 16, in the order of the file. At least one is no standby.
    pub servers: Seq<ServerSettings>,
    /// What becomes of a request that it has no room for.
    pub full: WhenFull,
}

/// What becomes of a request that an output has no room for.
#[derive(Clone, Copy)]
pub enum WhenFull {
    /// Its source is closed.
    Close,
    /// Its source waits until there is room.
    Wait,
}

/// The settings of an output's server.
#[derive(Clone, Copy, Drop)]
pub struct ServerSettings {
    /// Where it is reached.
    pub address: SocketAddr,
    /// Whether it is only used where the others fail.
    pub standby: bool,
}

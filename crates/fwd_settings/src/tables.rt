//! The tables of the settings, their keys, and what may stand under each key.

ghost use Rattle.std.specs.Prelude.{◌≡◌, map};
ghost use Rattle.fwd_settings.specs.Keys.{names_of};

use crate::ranges::{
    CHUNK_LIMIT_MAX, CONNECTIONS_MAX, CONTROL_MAX, DEPTH_MAX, DEPTH_MIN, MESSAGE_LIMIT_MAX,
    MESSAGE_LIMIT_MIN, NAME_MAX, OUTPUTS_MAX, READERS_MAX, RETRY_WAIT_DEFAULT, SERVERS_MAX,
    SHARED_KEY_MAX, TOTAL_LIMIT_MAX, WAIT_MAX, WINDOW_MAX, WORKERS_MAX,
};
use std::fmt;

/// What may stand under a key.
#[derive(Clone, Copy)]
pub enum Allowed {
    /// A number from a least to a greatest.
    Count(u64, u64),
    /// A number of bytes from 1 to a greatest.
    Bytes(u64, u64),
    /// A time from a least to a day.
    Time(u64),
    /// A time that is no shorter than `retry_wait`.
    RetryMax,
    /// A text of a least to a greatest number of bytes.
    Text(usize, usize),
    /// The path of a socket.
    Path,
    /// So many hexadecimal digits.
    Digits(usize),
    /// A numeric address, or the path of a Unix socket.
    Listen,
    Address,
    Flag,
    /// What becomes of a request that an output has no room for.
    WhenFull,
    Pattern,
    RelayTable,
    Users,
    Outputs,
    Servers,
}

impl fmt::Display for Allowed {
    fn fmt<W: fmt::Write>(&self, f: &mut fmt::Formatter<W>) -> fmt::Result {
        match *self {
            Allowed::Count(least, most) => write!(f, "a whole number from {least} to {most}"),
            Allowed::Bytes(least, most) => {
                write!(f, "a whole number of bytes from {least} to {most}")
            }
            Allowed::Time(least) => {
                write!(
                    f,
                    "a whole number of milliseconds from {least} to {WAIT_MAX}"
                )
            }
            Allowed::RetryMax => write!(
                f,
                "a whole number of milliseconds from retry_wait ({RETRY_WAIT_DEFAULT} where it \
                is not set) to {WAIT_MAX}"
            ),
            Allowed::Text(least, most) => {
                write!(f, "a text of {least} to {most} bytes, in quotes")
            }
            Allowed::Path => write!(
                f,
                "a path of 1 to {CONTROL_MAX} bytes without a zero byte, in quotes"
            ),
            Allowed::Digits(count) => write!(f, "{count} hexadecimal digits, in quotes"),
            Allowed::Listen => write!(
                f,
                "a numeric address and a port from 1 to 65535, as \"192.0.2.1:24224\", or \
                unix: and an absolute path of at most {CONTROL_MAX} bytes, as \
                \"unix:/run/forward_relay/sources\", in quotes"
            ),
            Allowed::Address => f.write_str(
                "a numeric address and a port from 1 to 65535, in quotes, \
                as \"192.0.2.1:24224\" or \"[2001:db8::1]:24224\"",
            ),
            Allowed::Flag => f.write_str("true or false"),
            Allowed::WhenFull => f.write_str("\"close\" or \"wait\""),
            Allowed::Pattern => {
                f.write_str("a match pattern, in quotes, as \"**\" or \"app.* db.**\"")
            }
            Allowed::RelayTable => f.write_str("one table [relay]"),
            Allowed::Users => f.write_str("one or more tables [[relay.user]]"),
            Allowed::Outputs => write!(f, "1 to {OUTPUTS_MAX} tables [[output]]"),
            Allowed::Servers => write!(f, "1 to {SERVERS_MAX} tables [[output.server]]"),
        }
    }
}

/// A key of a table.
#[derive(Clone, Copy)]
pub struct KeyRule {
    pub name: &'static str,
    pub allowed: Allowed,
}

/// A kind of table of the settings.
#[derive(Clone, Copy)]
pub enum TableKind {
    Root,
    Relay,
    User,
    Output,
    Server,
}

static ROOT: [KeyRule; 2] = [
    KeyRule {
        name: "relay",
        allowed: Allowed::RelayTable,
    },
    KeyRule {
        name: "output",
        allowed: Allowed::Outputs,
    },
];

static RELAY: [KeyRule; 15] = [
    KeyRule {
        name: "listen",
        allowed: Allowed::Listen,
    },
    KeyRule {
        name: "monitor",
        allowed: Allowed::Address,
    },
    KeyRule {
        name: "hostname",
        allowed: Allowed::Text(1, NAME_MAX),
    },
    KeyRule {
        name: "shared_key",
        allowed: Allowed::Text(1, SHARED_KEY_MAX),
    },
    KeyRule {
        name: "run_id",
        allowed: Allowed::Digits(12),
    },
    KeyRule {
        name: "seed",
        allowed: Allowed::Digits(64),
    },
    KeyRule {
        name: "connections",
        allowed: Allowed::Count(1, CONNECTIONS_MAX as u64),
    },
    KeyRule {
        name: "message_limit",
        allowed: Allowed::Bytes(MESSAGE_LIMIT_MIN, MESSAGE_LIMIT_MAX),
    },
    KeyRule {
        name: "depth",
        allowed: Allowed::Count(DEPTH_MIN as u64, DEPTH_MAX as u64),
    },
    KeyRule {
        name: "readers",
        allowed: Allowed::Count(1, READERS_MAX as u64),
    },
    KeyRule {
        name: "user",
        allowed: Allowed::Users,
    },
    KeyRule {
        name: "metrics",
        allowed: Allowed::Flag,
    },
    KeyRule {
        name: "idle_limit",
        allowed: Allowed::Time(1),
    },
    KeyRule {
        name: "control",
        allowed: Allowed::Path,
    },
    KeyRule {
        name: "stop_wait",
        allowed: Allowed::Time(1),
    },
];

static USER: [KeyRule; 2] = [
    KeyRule {
        name: "name",
        allowed: Allowed::Text(1, NAME_MAX),
    },
    KeyRule {
        name: "password",
        allowed: Allowed::Text(1, NAME_MAX),
    },
];

static OUTPUT: [KeyRule; 15] = [
    KeyRule {
        name: "match",
        allowed: Allowed::Pattern,
    },
    KeyRule {
        name: "workers",
        allowed: Allowed::Count(1, WORKERS_MAX as u64),
    },
    KeyRule {
        name: "chunk_limit",
        allowed: Allowed::Bytes(1, CHUNK_LIMIT_MAX),
    },
    KeyRule {
        name: "total_limit",
        allowed: Allowed::Bytes(1, TOTAL_LIMIT_MAX),
    },
    KeyRule {
        name: "flush_interval",
        allowed: Allowed::Time(0),
    },
    KeyRule {
        name: "retry_wait",
        allowed: Allowed::Time(1),
    },
    KeyRule {
        name: "retry_max",
        allowed: Allowed::RetryMax,
    },
    KeyRule {
        name: "ack_wait",
        allowed: Allowed::Time(1),
    },
    KeyRule {
        name: "window",
        allowed: Allowed::Count(1, WINDOW_MAX as u64),
    },
    KeyRule {
        name: "hostname",
        allowed: Allowed::Text(1, NAME_MAX),
    },
    KeyRule {
        name: "shared_key",
        allowed: Allowed::Text(1, SHARED_KEY_MAX),
    },
    KeyRule {
        name: "username",
        allowed: Allowed::Text(0, NAME_MAX),
    },
    KeyRule {
        name: "password",
        allowed: Allowed::Text(0, NAME_MAX),
    },
    KeyRule {
        name: "server",
        allowed: Allowed::Servers,
    },
    KeyRule {
        name: "full",
        allowed: Allowed::WhenFull,
    },
];

static SERVER: [KeyRule; 2] = [
    KeyRule {
        name: "address",
        allowed: Allowed::Address,
    },
    KeyRule {
        name: "standby",
        allowed: Allowed::Flag,
    },
];

impl TableKind {
    /// Its keys.
    pub fn rules(self) -> &'static [KeyRule]
        ensures { map (λ rule. rule.name.now) result.now ≡ names_of self }
    {
        match self {
            TableKind::Root => &ROOT,
            TableKind::Relay => &RELAY,
            TableKind::User => &USER,
            TableKind::Output => &OUTPUT,
            TableKind::Server => &SERVER,
        }
    }
}

/// How the table is written.
impl fmt::Display for TableKind {
    fn fmt<W: fmt::Write>(&self, f: &mut fmt::Formatter<W>) -> fmt::Result {
        f.write_str(match self {
            TableKind::Root => "the top",
            TableKind::Relay => "[relay]",
            TableKind::User => "[[relay.user]]",
            TableKind::Output => "[[output]]",
            TableKind::Server => "[[output.server]]",
        })
    }
}

//! The ranges of the settings, and their defaults: code, definitions and documents name these. A
//! number is in its range from its least (1, where none is named) to its greatest value.

ghost use Rattle.std.specs.Prelude.{◌≡◌};

/// The most outputs.
pub const OUTPUTS_MAX: usize = 64;

/// The most servers of an output.
pub const SERVERS_MAX: usize = 16;

/// The most workers of an output.
pub const WORKERS_MAX: u16 = 16;

/// The most chunks that a session has unacknowledged.
pub const WINDOW_MAX: u16 = 8;

/// How many a session may have where the settings do not say.
pub const WINDOW_DEFAULT: u16 = 1;

/// How many workers an output has where the settings do not say.
pub const WORKERS_DEFAULT: u16 = 1;

/// The most sources at a time.
pub const CONNECTIONS_MAX: u16 = 1_024;

/// How many sources there may be at a time where the settings do not say.
pub const CONNECTIONS_DEFAULT: u16 = 256;

/// The least that the settings may allow a value of a source, in bytes.
pub const MESSAGE_LIMIT_MIN: u64 = 1_024;

/// The most that the settings may allow a value of a source, in bytes.
pub const MESSAGE_LIMIT_MAX: u64 = 67_108_864;

/// The most bytes of a value of a source where the settings do not say.
pub const MESSAGE_LIMIT_DEFAULT: u64 = 16_777_216;

/// The least depth that the settings may allow a value of a source, in arrays and maps.
pub const DEPTH_MIN: u16 = 8;

/// The greatest depth that the settings may allow a value of a source, in arrays and maps.
pub const DEPTH_MAX: u16 = 128;

/// How many arrays and maps may stand one in another where the settings do not say.
pub const DEPTH_DEFAULT: u16 = 64;

/// The most threads that may read sources.
pub const READERS_MAX: u16 = 16;

/// How many threads read sources where the settings do not say.
pub const READERS_DEFAULT: u16 = 1;

/// The longest hostname, user's name and password, in bytes.
pub const NAME_MAX: usize = 255;

/// The longest shared key, in bytes.
pub const SHARED_KEY_MAX: usize = 1_024;

/// The longest path of a Unix socket, that of the control socket or the one where sources connect,
/// in bytes: the system has no room for more (unix(7)).
pub const CONTROL_MAX: usize = 107;

/// The most bytes of entries that the settings may allow a chunk.
pub const CHUNK_LIMIT_MAX: u64 = 16_000_000;

/// The most bytes of entries in a chunk where the settings do not say.
pub const CHUNK_LIMIT_DEFAULT: u64 = 8_000_000;

/// The most bytes of entries that the settings may allow an output.
pub const TOTAL_LIMIT_MAX: u64 = 1_000_000_000_000;

/// The most bytes of entries in an output where the settings do not say.
pub const TOTAL_LIMIT_DEFAULT: u64 = 512_000_000;

/// The longest of all waits, in milliseconds: a day.
pub const WAIT_MAX: u64 = 86_400_000;

/// How long a chunk waits for more entries where the settings do not say, in milliseconds.
pub const FLUSH_INTERVAL_DEFAULT: u64 = 5_000;

/// The wait after a first loss where the settings do not say, in milliseconds.
pub const RETRY_WAIT_DEFAULT: u64 = 1_000;

/// The longest wait after losses where the settings do not say, in milliseconds, unless the one
/// after a first loss is longer.
pub const RETRY_MAX_DEFAULT: u64 = 60_000;

/// How long what a server owes is waited for where the settings do not say, in milliseconds.
pub const ACK_WAIT_DEFAULT: u64 = 190_000;

/// How long a relay that is asked to stop has to deliver what it holds, where neither the settings
/// nor who asks say, in milliseconds.
pub const STOP_WAIT_DEFAULT: u64 = 30_000;

/// The numbers of the ranges: counts, bytes, arrays and maps, and milliseconds.
pub fn ranges_are()
    ensures outputs { OUTPUTS_MAX ≡ 64 }
    ensures servers { SERVERS_MAX ≡ 16 }
    ensures workers { (WORKERS_MAX ≡ 16) × (WORKERS_DEFAULT ≡ 1) }
    ensures window { (WINDOW_MAX ≡ 8) × (WINDOW_DEFAULT ≡ 1) }
    ensures connections { (CONNECTIONS_MAX ≡ 1024) × (CONNECTIONS_DEFAULT ≡ 256) }
    ensures message_limit { (MESSAGE_LIMIT_MIN ≡ 1024) × (MESSAGE_LIMIT_MAX ≡ 67108864)
        × (MESSAGE_LIMIT_DEFAULT ≡ 16777216) }
    ensures depth { (DEPTH_MIN ≡ 8) × (DEPTH_MAX ≡ 128) × (DEPTH_DEFAULT ≡ 64) }
    ensures readers { (READERS_MAX ≡ 16) × (READERS_DEFAULT ≡ 1) }
    ensures texts { (NAME_MAX ≡ 255) × (SHARED_KEY_MAX ≡ 1024) × (CONTROL_MAX ≡ 107) }
    ensures chunk_limit { (CHUNK_LIMIT_MAX ≡ 16000000) × (CHUNK_LIMIT_DEFAULT ≡ 8000000) }
    ensures total_limit { (TOTAL_LIMIT_MAX ≡ 1000000000000) × (TOTAL_LIMIT_DEFAULT ≡ 512000000) }
    ensures waits { (WAIT_MAX ≡ 86400000) × (FLUSH_INTERVAL_DEFAULT ≡ 5000)
        × (RETRY_WAIT_DEFAULT ≡ 1000) × (RETRY_MAX_DEFAULT ≡ 60000)
        × (ACK_WAIT_DEFAULT ≡ 190000) × (STOP_WAIT_DEFAULT ≡ 30000) }
{}

//! What is lawful in the limits of an output, and foolish.

use crate::saying::say;
use fwd_settings::OutputSettings;
use std::fmt;
use std::io::Write;

/// The most bytes of a chunk that is short enough for the servers of other makers by their
/// defaults: Fluent Bit takes messages of 6,144,000 bytes, and a frame has a head and a tail.
const COMMON_CHUNK: u64 = 6_000_000;

/// The longest time, in milliseconds, that a client which waits for each acknowledgement is
/// thought to bear.
const COMMON_FLUSH: u64 = 1_000;

/// What is lawful in the limits of an output, and foolish.
#[derive(Clone, Copy)]
enum Limits {
    /// A chunk may have more bytes than all of the output.
    LargeChunk { chunk: u64, total: u64 },
    /// A chunk may have more bytes than some servers take in one message.
    LongChunk { chunk: u64 },
    /// A request that the relay reads may have more bytes than all of the output.
    LargeRequest { message: u32, total: u64 },
    /// A client that waits for each acknowledgement waits for long.
    SlowFlush { interval: u64 },
}

/// The same, of the output of this number.
#[derive(Clone, Copy)]
struct LimitCaution {
    output: usize,
    limits: Limits,
}

impl fmt::Display for LimitCaution {
    fn fmt<W: fmt::Write>(&self, f: &mut fmt::Formatter<W>) -> fmt::Result {
        let output = self.output;
        write!(f, "caution: output {output} ")?;
        match self.limits {
            Limits::LargeChunk { chunk, total } => write!(
                f,
                "chunk_limit {chunk} above total_limit {total}: no chunk can become as large"
            ),
            Limits::LongChunk { chunk } => write!(
                f,
                "chunk_limit {chunk} above {COMMON_CHUNK}: \
                some servers refuse such a chunk each time, as Fluent Bit by its defaults"
            ),
            Limits::LargeRequest { message, total } => write!(
                f,
                "total_limit {total} below message_limit {message}: \
                a request with more bytes of entries never enters"
            ),
            Limits::SlowFlush { interval } => write!(
                f,
                "flush_interval {interval} above {COMMON_FLUSH}: \
                a client that waits for each acknowledgement sends one request in that time"
            ),
        }
    }
}

/// Says what is foolish in the limits of the output of this number, by the greatest number of bytes
/// that a message of a source may have.
pub(crate) fn say_of_limits<E: Write>(
    message: u32,
    output: usize,
    settings: &OutputSettings,
    errors: &mut E,
) {
    let (chunk, total) = (settings.chunk_limit, settings.total_limit);
    let interval = settings.flush_interval;
    let mut tell = |limits| say(errors, &LimitCaution { output, limits });
    if chunk > total {
        tell(Limits::LargeChunk { chunk, total });
    } else if chunk > COMMON_CHUNK {
        tell(Limits::LongChunk { chunk });
    }
    if u64::from(message) > total {
        tell(Limits::LargeRequest { message, total });
    }
    if interval > COMMON_FLUSH {
        tell(Limits::SlowFlush { interval });
    }
}

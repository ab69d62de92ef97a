//! Joining beside a plain table of all entries: every two requests after one another, of the tags
//! `a` and `b` with up to four entries of three to five bytes each, under every chunk limit from 2
//! to 10 bytes. It is printed how many pairs there were, and how many were joined otherwise than
//! the table says.

use crate::pairs::{Request, requests};
use crate::table::Table;
use fwd_chunks::{Buffer, BufferLimits};
use fwd_modes::Origin;
use std::alloc::Global;

/// The least and the greatest chunk limit, in bytes.
const LEAST: u32 = 2;

const GREATEST: u32 = 10;

const ORIGIN: Origin = Origin {
    conn: 1,
    request: 1,
};

/// The limits of a buffer, of which only that of a chunk matters here.
fn limits(chunk: u32) -> BufferLimits {
    BufferLimits {
        chunk,
        total: 1_000_000,
        interval: 1000,
        retry_wait: 500,
        retry_max: 4000,
        first: 1,
    }
}

/// Whether two requests after one another are joined as the table says.
fn is_pair_alike(alloc: Global, limit: u32, pair: [&Request; 2]) -> Option<bool> {
    let mut buffer = Buffer::new(alloc, limits(limit), [0; 6], 0);
    let mut table = Table::new(alloc, u64::from(limit));
    let mut is_alike = true;
    for request in pair {
        let spans = buffer.admit(alloc, ORIGIN, &request.batch, 0).ok()?;
        let expected = table.join(alloc, request.tag, &request.sizes).ok()?;
        is_alike = is_alike && spans.as_slice() == expected.as_slice();
    }
    Some(is_alike)
}

/// How many pairs are joined otherwise under a limit.
fn wrong_under(alloc: Global, limit: u32, all: &Vec<Request>) -> Option<u64> {
    let mut wrong: u64 = 0;
    for first in all {
        for second in all {
            if !is_pair_alike(alloc, limit, [first, second])? {
                wrong = wrong.saturating_add(1);
            }
        }
    }
    Some(wrong)
}

/// Counts them under each limit.
pub fn count<R: Print + AllocGlobal>(rt: &R) -> Option<()> {
    let all = requests(rt.alloc())?;
    let count = all.len() as u64;
    for limit in LEAST..GREATEST + 1 {
        let wrong = wrong_under(rt.alloc(), limit, &all)?;
        let pairs = count.saturating_mul(count);
        let _ = println!(rt; "chunks of {limit} bytes: {pairs} pairs, {wrong} joined otherwise");
    }
    Some(())
}

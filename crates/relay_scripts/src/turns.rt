//! What is measured of a buffer.

use crate::load::Load;
use crate::watch::{Watch, print_part};
use fwd_chunks::{Buffer, BufferLimits, Carried, Counts, FlushKind};
use fwd_modes::{Batch, Origin};
use std::alloc::{AllocError, Global};
use std::rt::Runtime;
use std::time::Duration;

/// A chunk has at most 8,000,000 bytes, as in the relay where no setting says more, and the buffer
/// has no other limit.
pub const LIMITS: BufferLimits = BufferLimits {
    chunk: 8_000_000,
    total: u64::MAX,
    interval: 1000,
    retry_wait: 500,
    retry_max: 300_000,
    first: 1,
};

/// How often the chunk behind all others is taken.
const BEHIND: u64 = 1000;

/// Admits the requests in turn, until there are so many.
#[inline(never)]
fn admit_all(
    alloc: Global,
    buffer: &mut Buffer,
    batches: &Vec<Batch>,
    requests: u32,
) -> Option<()> {
    let mut place: usize = 0;
    for number in 0..requests {
        let origin = Origin {
            conn: 1,
            request: u64::from(number),
        };
        if let Some(batch) = batches.get(place) {
            let _spans = buffer.admit(alloc, origin, batch, 0).ok()?;
        }
        place = place.saturating_add(1);
        if place >= batches.len() {
            place = 0;
        }
    }
    Some(())
}

/// Copies the entries of the same requests into one vector that has room for them.
#[inline(never)]
fn copy_all(copy: &mut Vec<u8>, batches: &Vec<Batch>, requests: u32) -> Result<(), AllocError> {
    let mut place: usize = 0;
    for _ in 0..requests {
        if let Some(batch) = batches.get(place) {
            copy.extend_from_slice(batch.entries())?;
        }
        place = place.saturating_add(1);
        if place >= batches.len() {
            place = 0;
        }
    }
    Ok(())
}

/// How long it took to take chunks and to give them up.
#[derive(Clone, Copy, Default)]
pub struct Rounds {
    pub chunks: u64,
    pub take: Duration,
    pub give: Duration,
}

impl Rounds {
    /// With one round more.
    pub fn more(self, take: Duration, give: Duration) -> Rounds {
        Rounds {
            chunks: self.chunks.saturating_add(1),
            take: self.take.saturating_add(take),
            give: self.give.saturating_add(give),
        }
    }

    /// Prints how long it took.
    pub fn print(self, rt: &impl Print) {
        print_part(rt, "take", self.take, self.chunks, "a chunk");
        print_part(rt, "settle", self.give, self.chunks, "a chunk");
    }
}

/// What becomes of a chunk that was taken.
#[derive(Clone, Copy)]
enum Fate {
    Settled,
    Lost,
    Kept,
}

/// The chunk is given up.
fn give_up(buffer: &mut Buffer, carried: Carried, fate: Fate) {
    match fate {
        Fate::Settled => {
            buffer.settle(carried);
        }
        Fate::Lost => buffer.free(carried, Some(0)),
        Fate::Kept => buffer.free(carried, None),
    }
}

/// Takes a chunk and gives it up, at most so often.
#[inline(never)]
fn go_round<R: Runtime + AllocGlobal>(
    rt: &R,
    buffer: &mut Buffer,
    most: u64,
    fate: Fate,
) -> Rounds {
    let mut rounds = Rounds::default();
    for _ in 0..most {
        let watch = Watch::start(rt);
        let Ok(Some(carried)) = buffer.take(rt.alloc(), 0, 0) else {
            break;
        };
        let take = watch.took(rt);
        let watch = Watch::start(rt);
        give_up(buffer, carried, fate);
        rounds = rounds.more(take, watch.took(rt));
    }
    rounds
}

/// A buffer to which all is admitted.
pub fn filled(alloc: Global, batches: &Vec<Batch>, requests: u32) -> Option<Buffer> {
    let mut buffer = Buffer::new(alloc, LIMITS, [0; 6], 0);
    admit_all(alloc, &mut buffer, batches, requests)?;
    Some(buffer)
}

/// Admits all, closes it, and takes and settles each chunk. It is printed what the buffer was left
/// with, and if asked how long each part took.
pub fn buffer_turn<R: Runtime + AllocGlobal>(
    rt: &R,
    load: Load,
    batches: &Vec<Batch>,
    is_timed: bool,
) -> Option<()> {
    let watch = Watch::start(rt);
    let mut buffer = filled(rt.alloc(), batches, load.requests())?;
    let admit = watch.took(rt);
    let watch = Watch::start(rt);
    let closed = buffer.flush(0, FlushKind::All);
    let flush = watch.took(rt);
    let rounds = go_round(rt, &mut buffer, u64::MAX, Fate::Settled);
    let Counts {
        accepted,
        settled,
        ..
    } = buffer.held();
    let chunks = rounds.chunks;
    let _ = println!(rt; "entries {accepted} settled {settled} chunks {chunks} closed {closed}");
    if is_timed {
        print_part(rt, "admit", admit, accepted, "an entry");
        print_part(rt, "flush", flush, chunks, "a chunk");
        rounds.print(rt);
    }
    Some(())
}

/// Takes a chunk again and again that stands behind all the others, which were lost and wait.
pub fn behind_turn<R: Runtime + AllocGlobal>(
    rt: &R,
    load: Load,
    batches: &Vec<Batch>,
) -> Option<()> {
    let mut buffer = filled(rt.alloc(), batches, load.requests())?;
    buffer.flush(0, FlushKind::All);
    go_round(rt, &mut buffer, u64::MAX, Fate::Lost);
    admit_all(rt.alloc(), &mut buffer, batches, 1)?;
    buffer.flush(0, FlushKind::All);
    let rounds = go_round(rt, &mut buffer, BEHIND, Fate::Kept);
    print_part(
        rt,
        "behind",
        rounds.take,
        rounds.chunks,
        "a chunk taken behind all others, which wait",
    );
    Some(())
}

/// Copies the bytes of all entries.
pub fn copy_turn<R: Runtime + AllocGlobal>(rt: &R, load: Load, batches: &Vec<Batch>) -> Option<()> {
    let bytes = u64::from(load.entries).saturating_mul(u64::from(load.size));
    let mut copy = Vec::with_capacity(rt.alloc(), bytes as usize).ok()?;
    let watch = Watch::start(rt);
    copy_all(&mut copy, batches, load.requests()).ok()?;
    print_part(
        rt,
        "copy",
        watch.took(rt),
        u64::from(load.entries),
        "an entry",
    );
    Some(())
}

//! What is told of each tag: how long it takes to write it down, to put it in order, and to write
//! the monitor's page.

use crate::load::Load;
use crate::turns::filled;
use crate::watch::{Watch, print_part};
use fwd_chunks::{Buffer, Report};
use fwd_modes::Batch;
use fwd_monitor::page;
use std::rt::Runtime;

/// What is held is written down, for which an output is locked, and put in order. It is printed how
/// long each took.
#[inline(never)]
fn reported<R: Runtime + AllocGlobal>(rt: &R, buffer: &Buffer) -> Option<Report> {
    let watch = Watch::start(rt);
    let snapshot = buffer.snapshot(rt.alloc()).ok()?;
    let wrote = watch.took(rt);
    let watch = Watch::start(rt);
    let report = snapshot.report(rt.alloc()).ok()?;
    let ordered = watch.took(rt);
    let tags = report.tags.len() as u64;
    print_part(rt, "snapshot", wrote, tags, "a tag");
    print_part(rt, "order", ordered, tags, "a tag");
    Some(report)
}

/// Admits all, and reports it. It is printed how long each part took, of how many tags, and how
/// many bytes the page has.
pub fn report_turn<R: Runtime + AllocGlobal>(
    rt: &R,
    load: Load,
    batches: &Vec<Batch>,
) -> Option<()> {
    let buffer = filled(rt.alloc(), batches, load.requests())?;
    let report = reported(rt, &buffer)?;
    let tags = report.tags.len() as u64;
    let watch = Watch::start(rt);
    let bytes = page(rt.alloc(), &[report]).ok()?.len();
    print_part(rt, "page", watch.took(rt), tags, "a tag");
    let _ = println!(rt; "tags {tags} page {bytes}");
    Some(())
}

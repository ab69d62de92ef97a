//! What a buffer had to do with at a moment.

ghost use Rattle.std.specs.Prelude.{◌≡◌, IfOk, IfErr};
ghost use Rattle.fwd_chunks.specs.Live.{LiveBuffer};
ghost use Rattle.fwd_chunks.specs.TagCounts.{live_report, IsSnapshot};

use crate::tag_list::TagList;
use fwd_base::{Counts, Report};
use std::alloc::{AllocFailed, Global};
use std::marker::Model;

/// What a buffer had to do with at a moment, in all and of each tag, the tags in no order. It is
/// made quickly, so that nobody waits long for the buffer, and put in order afterwards.
#[derive(Drop)]
pub struct Snapshot {
    pub(crate) counts: Counts,
    pub(crate) tags: TagList,
}

impl Model for Snapshot {
    ghost use Rattle.fwd_chunks.specs.TagCounts.{Unordered};

    ghost Value = { Unordered };

    ghost view = { λ s. record { counts = s.counts; tags = s.tags } };
}

impl Snapshot {
    /// The same with the tags by rising bytes. The only error is out of memory, and then the
    /// snapshot comes back.
    pub fn report(self, alloc: Global) -> Result<Report, AllocFailed<Snapshot>>
        ensures ok { (b : LiveBuffer) → IsSnapshot b self
            → IfOk result (λ report. report ≡ live_report b) }
        ensures err { IfErr result (λ failed. failed.value ≡ self) }
    {
        let Snapshot { counts, tags } = self;
        match tags.sorted(alloc) {
            Ok(tags) => Ok(Report { counts, tags }),
            Err(_) => Err(AllocFailed {
                value: Snapshot { counts, tags },
            }),
        }
    }
}

use crate::counts::Counts;
use crate::seq::Seq;
use crate::tag_count::TagCount;

/// What an output has to do with, in all and of each tag.
#[derive(Drop)]
pub struct Report {
    pub counts: Counts,
    /// Each tag that has entries which are not settled, by rising bytes.
    pub tags: Seq<TagCount>,
}

//! How much a reader's sources may be owed at an output.

ghost use Rattle.std.specs.Prelude.{◌≡◌, ◌+◌, ◌-◌, ◌^◌, min};
ghost use Rattle.fwd_reader.specs.Entering.{may_owe, owed_limit};

/// The bytes that a reader's unanswered requests may take at an output beside their entries, at
/// least: where its entries may take more than half of that, twice as many as those.
const LEAST: u64 = 2_097_152;

/// What a reader's unanswered requests take at an output beside their entries, and what they may
/// take, in bytes.
#[derive(Drop)]
pub(crate) struct OwedLimit {
    limit: u64,
    owed: u64,
}

impl OwedLimit {
    /// Nothing is owed at an output that holds so many bytes of entries at most.
    pub fn new(total: u64) -> OwedLimit
        ensures limit { result.limit ≡ owed_limit total }
        ensures owed { result.owed ≡ 0 }
    {
        OwedLimit {
            limit: total.saturating_mul(2).max(LEAST),
            owed: 0,
        }
    }

    /// Whether a source that is owed so many bytes itself may be owed more: they are less than half
    /// of what is still free. So no source leaves nothing to the others.
    pub fn admits(&self, own: u64) -> bool
        ensures { result ≡ may_owe self.now.limit self.now.owed own }
    {
        let free = self.limit.saturating_sub(self.owed);
        own < free / 2
    }

    /// Whether nothing is owed.
    pub fn is_nothing(&self) -> bool {
        self.owed == 0
    }

    /// A request was admitted that takes so many bytes beside its entries.
    pub fn rise(&mut self, bytes: u64)
        ensures owed { self.new.owed ≡ min (self.old.owed + bytes) (2 ^ 64 - 1) }
        ensures limit { self.new.limit ≡ self.old.limit }
    {
        self.owed = self.owed.saturating_add(bytes);
    }

    /// Requests were answered that took so many bytes beside their entries.
    pub fn fall(&mut self, bytes: u64)
        ensures owed { self.new.owed ≡ self.old.owed - bytes }
        ensures limit { self.new.limit ≡ self.old.limit }
    {
        self.owed = self.owed.saturating_sub(bytes);
    }
}

//! A free chunk, as a worker sees it before it takes it, and what the worker found.

ghost use Rattle.std.specs.Prelude.{◌≡◌, nat_lt, None};
ghost use Rattle.fwd_output.specs.Elsewhere.{away_from, has_server};

use crate::server_set::ServerSet;
use fwd_chunks::Carried;

/// What is known of a chunk before a worker takes it.
#[derive(Clone, Copy)]
pub struct Offer {
    pub number: u64,
    /// How often it was lost before, where 65 stands for every greater count.
    pub losses: u8,
    /// Where it was lost in this round of its servers.
    pub lost_at: ServerSet,
    /// A server that may be tried, and where it was not lost, if it was lost at another and there
    /// is one.
    pub elsewhere: Option<u16>,
}

impl Offer {
    /// Of the open chunk of this number: an open chunk was never lost.
    pub(crate) fn of_open(number: u64) -> Offer
        ensures number { result.number ≡ number }
        ensures losses { result.losses ≡ 0 }
        ensures elsewhere { result.elsewhere ≡ None }
    {
        Offer {
            number,
            losses: 0,
            lost_at: ServerSet::none(),
            elsewhere: None,
        }
    }

    /// Whether the chunk was lost before.
    pub fn was_lost(&self) -> bool
        ensures { result ≡ nat_lt 0 self.now.losses }
    {
        0 < self.losses
    }

    /// The server that the chunk goes to in place of this one, if it was lost here and may go
    /// elsewhere.
    pub fn away_from(&self, own: u16) -> Option<u16>
        ensures { result ≡ away_from (has_server self.now.lost_at.members own) self.now.elsewhere }
    {
        if self.lost_at.has(own) {
            self.elsewhere
        } else {
            None
        }
    }
}

/// A chunk that a worker took, and what was known of it before. It must be spent.
pub struct PickedChunk {
    pub chunk: Carried,
    pub offer: Offer,
}

/// What a worker found in an output. A chunk that it took must be spent.
pub enum Found {
    /// No chunk is free that it may take.
    Nothing,
    /// A chunk is free, or may be closed, and stays so: it is not for this use.
    Passed(Offer),
    /// A chunk was free, or was closed for the worker, which took it.
    Took(PickedChunk),
}

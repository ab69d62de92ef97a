//! A chunk that a server seems to refuse, as it is told.

ghost use Rattle.std.specs.Prelude.{◌≡◌};
ghost use Rattle.fwd_chunks.specs.Cells.{size_of};
ghost use Rattle.fwd_workers.specs.Doubting.{refused_of};

use crate::ending::EndReason;
use fwd_chunks::Carried;
use fwd_environment::{Refused, TextFront};

/// A chunk that was lost before, in a session with a server that is known to work.
#[derive(Clone, Copy)]
pub(crate) struct Suspect {
    tag: TextFront,
    size: u64,
    losses: u8,
}

impl Suspect {
    /// A chunk that was lost so often before.
    pub(crate) fn of(chunk: &Carried, losses: u8) -> Suspect
        ensures size { result.size ≡ size_of chunk.now.entries }
        ensures losses { result.losses ≡ losses }
    {
        Suspect {
            tag: TextFront::of(chunk.tag()),
            size: chunk.body().size(),
            losses,
        }
    }

    /// What is told of it, where its session with this server ended for a loss.
    pub(crate) fn refused(self, server: u16, why: EndReason) -> Option<Refused>
        ensures { result ≡ refused_of self server why }
    {
        let EndReason::Lost(why) = why else {
            return None;
        };
        let Suspect { tag, size, losses } = self;
        Some(Refused {
            server,
            tag,
            size,
            losses: losses.saturating_add(1),
            why,
        })
    }
}

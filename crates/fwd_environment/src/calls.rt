//! What a link tells of its calls, for contracts alone: it takes no memory when it runs. To keep
//! the bytes would cost memory without bound.

ghost use Rattle.std.specs.Prelude.{◌≡◌, List, [], ◌∷◌, ◌++◌};
ghost use Rattle.std.specs.List.{concat};
ghost use Rattle.fwd_environment.specs.Links.{Call, DidWrite, read_into};
ghost use base.Fml.{ftrue};

use crate::link::{LinkFault, Read};
use fwd_chunks::WriteSlices;
use std::marker::{Model, PhantomData};

/// Calls that were told one after the other, none of which is kept.
pub struct Calls {
    marker: PhantomData<()>,
    pub ghost list: { List Call },
}

impl Model for Calls {
    ghost also_owns = { λ _. ftrue };
}

impl Drop for Calls {
    fn drop(self) {
        let Self { marker: _ } = self;
    }
}

impl Calls {
    /// No call was told yet.
    pub fn none() -> Calls
        ensures { result.list ≡ [] }
    {
        Calls {
            marker: PhantomData,
        }
    }

    /// A read is told behind what was told before: the room as it is then, and what was answered.
    pub fn and_read(&self, room: &&[u8], answer: &Result<Read, LinkFault>) -> Calls
        ensures { result.list ≡ self.now.list ++ read_into room.now.now answer.now ∷ [] }
    {
        let _ = self;
        let _ = room;
        let _ = answer;
        Calls {
            marker: PhantomData,
        }
    }

    /// A write is told behind what was told before: its bytes, and what was answered.
    pub fn and_write(&self, bytes: &&[u8], answer: &Result<usize, LinkFault>) -> Calls
        ensures { result.list ≡ self.now.list ++ DidWrite bytes.now.now answer.now ∷ [] }
    {
        let _ = self;
        let _ = bytes;
        let _ = answer;
        Calls {
            marker: PhantomData,
        }
    }

    /// A write of pieces is told behind what was told before: all their bytes, and what was
    /// answered.
    pub fn and_write_pieces(
        &self,
        pieces: &WriteSlices<'_>,
        answer: &Result<usize, LinkFault>,
    ) -> Calls
        ensures { result.list ≡ self.now.list ++ DidWrite (concat pieces.now) answer.now ∷ [] }
    {
        let _ = self;
        let _ = pieces;
        let _ = answer;
        Calls {
            marker: PhantomData,
        }
    }
}

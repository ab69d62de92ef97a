//! What a stream answered, for contracts alone: it takes no memory when it runs. To keep the bytes
//! would cost memory without bound.

ghost use Rattle.std.specs.Prelude.{◌≡◌, List, [], ◌∷◌, ◌++◌};
ghost use Rattle.fwd_peers.specs.Streams.{StreamCall, call_of};
ghost use base.Fml.{ftrue};

use std::io;
use std::marker::{Model, PhantomData};

/// Calls that were told one after the other, none of which is kept.
pub struct StreamCalls {
    marker: PhantomData<()>,
    pub ghost list: { List StreamCall },
}

impl Model for StreamCalls {
    ghost also_owns = { λ _. ftrue };
}

impl Drop for StreamCalls {
    fn drop(self) {
        let Self { marker: _ } = self;
    }
}

// There is nothing of them at run time, so a stream with its calls may go to another thread.
unsafe impl Send for StreamCalls {}

impl StreamCalls {
    /// No call was told yet.
    pub fn none() -> StreamCalls
        ensures { result.list ≡ [] }
    {
        StreamCalls {
            marker: PhantomData,
        }
    }

    /// A call is told behind what was told before: the room that it was to fill, as that is then,
    /// or the bytes that it was to take; and what it answered.
    pub fn and(&self, bytes: &&[u8], answer: &io::Result<usize>) -> StreamCalls
        ensures { result.list ≡ self.now.list ++ call_of bytes.now.now answer.now ∷ [] }
    {
        let _ = self;
        let _ = bytes;
        let _ = answer;
        StreamCalls {
            marker: PhantomData,
        }
    }
}

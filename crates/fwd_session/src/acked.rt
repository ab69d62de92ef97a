//! What is kept of a chunk that a server acknowledged. It carries no history of its session. A
//! clause that some session sent this frame and then heard this reply would refuse no body: for
//! every reply that names the chunk, such a session can be thought up. Instead only
//! `Session::heard` makes an `Acked` (`tests/compile_fail`), and `Worker::run` counts what was
//! accepted by sessions that lived over one link of the hub each.

ghost use Rattle.std.specs.Prelude.{◌≡◌, IfOk, length};
ghost use Rattle.std.specs.List.{concat};
ghost use Rattle.fwd_modes.specs.Entries.{AreFull, ends_of};
ghost use Rattle.fwd_chunks.specs.Pieces.{parts_left};
ghost use Rattle.fwd_chunks.specs.Endings.{ends_left};

use fwd_base::Bytes;
use fwd_chunks::{Body, BodyParts, Carried, EntryEnds};
use std::alloc::{AllocError, Global};
use std::marker::Model;

/// A chunk that a server acknowledged, as it was sent, and the reply. Only a session that heard the
/// reply makes one.
#[derive(Drop)]
pub struct Acked {
    number: u64,
    tag: Bytes,
    entries: Body,
    server: u16,
    reply: Bytes,
}

impl Model for Acked {
    ghost use Rattle.fwd_session.specs.ServerAcks.{ServerAck};

    ghost Value = { ServerAck };

    ghost view = { λ a. record {
      number = a.number;
      tag = a.tag;
      entries = a.entries;
      server = a.server;
      reply = a.reply;
    } };
}

impl Acked {
    /// A server's reply to a chunk. The only error is out of memory.
    pub(crate) fn new(
        alloc: Global,
        chunk: &Carried,
        server: u16,
        reply: &[u8],
    ) -> Result<Self, AllocError>
        ensures { IfOk result (λ acked. acked ≡ record {
          number = chunk.now.number;
          tag = chunk.now.tag;
          entries = chunk.now.entries;
          server = server;
          reply = reply.now;
        }) }
    {
        Ok(Acked {
            number: chunk.number(),
            tag: Bytes::from_slice(alloc, chunk.tag())?,
            entries: chunk.body().share()?,
            server,
            reply: Bytes::from_slice(alloc, reply)?,
        })
    }

    /// The number of the chunk at its output.
    pub fn number(&self) -> u64
        ensures { result ≡ self.now.number }
    {
        self.number
    }

    /// The tag's bytes.
    pub fn tag(&self) -> &[u8]
        ensures { result.now ≡ self.now.tag }
    {
        self.tag.as_slice()
    }

    /// The entries as they were sent, one after the other, in the pieces that they lie in. Each
    /// piece has a byte.
    pub fn parts(&self) -> BodyParts<'_>
        ensures joined { concat (parts_left result) ≡ concat self.now.entries }
        ensures full { AreFull (parts_left result) }
    {
        self.entries.parts()
    }

    /// Where each entry ends, in bytes from the front of the first.
    pub fn ends(&self) -> EntryEnds<'_>
        ensures { ends_left result ≡ ends_of self.now.entries }
    {
        self.entries.ends()
    }

    /// How many entries there are.
    pub fn count(&self) -> usize
        ensures { result ≡ length self.now.entries }
    {
        self.entries.len()
    }

    /// The server that acknowledged the chunk, by its place in the output's list.
    pub fn server(&self) -> u16
        ensures { result ≡ self.now.server }
    {
        self.server
    }

    /// The bytes of the reply (Forward Protocol Specification v1, "Response").
    pub fn reply(&self) -> &[u8]
        ensures { result.now ≡ self.now.reply }
    {
        self.reply.as_slice()
    }
}

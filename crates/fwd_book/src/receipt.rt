//! What shows a source that all entries of its request were acknowledged.

ghost use Rattle.std.specs.Prelude.{◌≡◌, option_copied, IfOk};
ghost use Rattle.std.specs.Arc.{arc_value};
ghost use Rattle.std.specs.List.{concat, flat_map};
ghost use Rattle.fwd_book.specs.Parts.{parts_shown};
ghost use Rattle.fwd_book.specs.Receipts.{shown_by};

use crate::entered_request::EnteredRequest;
use fwd_modes::{Batch, Origin};
use fwd_session::Acked;
use std::alloc::AllocError;
use std::marker::Model;
use std::slice;
use std::sync::Arc;

/// A run of a request's entries in a chunk that a server acknowledged.
#[derive(Drop)]
pub struct AckedRange {
    chunk: Arc<Acked>,
    from: u64,
    count: u64,
}

impl Model for AckedRange {
    ghost use Rattle.std.specs.Arc.{arc_value};
    ghost use Rattle.fwd_book.specs.Receipts.{AckedRange};

    ghost Value = { AckedRange };

    ghost view = { λ p. record {
      evidence = arc_value p.chunk;
      from = p.from;
      count = p.count;
    } };
}

impl AckedRange {
    /// A run in a chunk.
    pub(crate) fn new(chunk: Arc<Acked>, from: u64, count: u64) -> Self
        ensures { result
            ≡ record { evidence = arc_value chunk; from = from; count = count } }
    {
        AckedRange { chunk, from, count }
    }

    /// The chunk, as it was sent, with the server's reply.
    pub fn chunk(&self) -> &Acked
        ensures { result.now ≡ self.now.evidence }
    {
        &self.chunk
    }

    /// The place in the chunk of the run's first entry, counted from 0.
    pub fn from(&self) -> u64
        ensures { result ≡ self.now.from }
    {
        self.from
    }

    /// How many entries the run has.
    pub fn count(&self) -> u64
        ensures { result ≡ self.now.count }
    {
        self.count
    }
}

/// The parts of a receipt, in the order of the entries. One alone takes no memory but its own.
#[derive(Drop)]
pub(crate) enum Parts {
    One(AckedRange),
    Many(Vec<AckedRange>),
}

impl Parts {
    /// The parts as a slice.
    fn as_slice(&self) -> &[AckedRange]
        ensures { result.now ≡ parts_shown self.now }
    {
        match self {
            Parts::One(part) => slice::from_ref(part),
            Parts::Many(parts) => parts.as_slice(),
        }
    }
}

/// That all entries of a request were acknowledged: those that its parts show are the request's.
/// Only a book gives one.
pub struct Receipt {
    origin: Origin,
    request: Batch,
    parts: Parts,
}

// A drop of its own is proved once, and not at each place where a receipt goes.
impl Drop for Receipt {
    fn drop(self) {
        let Receipt {
            origin: _,
            request: _,
            parts: _,
        } = self;
    }
}

impl Model for Receipt {
    ghost use Rattle.std.specs.Prelude.{◌≡◌};
    ghost use Rattle.std.specs.List.{flat_map};
    ghost use Rattle.fwd_book.specs.Parts.{parts_shown};
    ghost use Rattle.fwd_book.specs.Receipts.{Receipt, shown_by};

    ghost Value = { Receipt };

    ghost view = { λ r. record {
      origin = r.origin;
      tag = r.request.tag;
      entries = r.request.entries;
      chunk = r.request.chunk;
      parts = parts_shown r.parts;
    } };

    ghost invariant = { λ r. flat_map shown_by (parts_shown r.parts) ≡ r.request.entries };
}

impl Receipt {
    /// The receipt of a request by its parts. The only error is out of memory.
    pub(crate) fn new(kept: &EnteredRequest, parts: Parts) -> Result<Self, AllocError>
        requires shown { flat_map shown_by (parts_shown parts) ≡ kept.now.entries }
        ensures { IfOk result (λ receipt. receipt ≡ record {
          origin = kept.now.origin;
          tag = kept.now.tag;
          entries = kept.now.entries;
          chunk = kept.now.chunk;
          parts = parts_shown parts;
        }) }
    {
        Ok(Receipt {
            origin: kept.origin(),
            request: kept.request().share()?,
            parts,
        })
    }

    /// The request's connection, and its number there.
    pub fn origin(&self) -> Origin
        ensures { result ≡ self.now.origin }
    {
        self.origin
    }

    /// The tag's bytes.
    pub fn tag(&self) -> &[u8]
        ensures { result.now ≡ self.now.tag }
    {
        self.request.tag()
    }

    /// The request's entries as they are kept, one after the other.
    pub fn entries(&self) -> &[u8]
        ensures { result.now ≡ concat self.now.entries }
    {
        self.request.entries()
    }

    /// The bytes of the option's `chunk` value, if there is one (Forward Protocol Specification
    /// v1, "Option").
    pub fn chunk(&self) -> Option<&[u8]>
        ensures { option_copied result ≡ self.now.chunk }
    {
        self.request.chunk()
    }

    /// The runs of its entries, in their order. The entries of these runs, one after the other,
    /// are the request's.
    pub fn parts(&self) -> &[AckedRange]
        ensures { result.now ≡ self.now.parts }
    {
        self.parts.as_slice()
    }
}

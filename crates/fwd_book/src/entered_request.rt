//! A request that a book holds.

ghost use Rattle.std.specs.Prelude.{◌≡◌, ◌≢◌, true, false};
ghost use Rattle.fwd_book.specs.History.{entered_as};

use fwd_chunks::{Span, Spans};
use fwd_modes::{Batch, Origin};
use std::marker::Model;

/// A request with its connection and number, and the runs of its entries.
#[derive(Drop)]
pub(crate) struct EnteredRequest {
    origin: Origin,
    request: Batch,
    spans: Spans,
}

impl Model for EnteredRequest {
    ghost use Rattle.fwd_book.specs.History.{Entered, entered_as};

    ghost Value = { Entered };

    ghost view = { λ k. entered_as k.request k.origin k.spans };
}

/// Whether runs are alike.
fn are_same(left: &[Span], right: &[Span]) -> bool
    ensures same { result ≡ true → left.now ≡ right.now }
    ensures other { result ≡ false → left.now ≢ right.now }
{
    left == right
}

impl EnteredRequest {
    /// A request that is entered.
    pub(crate) fn new(origin: Origin, request: Batch, spans: Spans) -> Self
        ensures { result ≡ entered_as request origin spans }
    {
        EnteredRequest {
            origin,
            request,
            spans,
        }
    }

    /// Its connection, and its number there.
    pub(crate) fn origin(&self) -> Origin
        ensures { result ≡ self.now.origin }
    {
        self.origin
    }

    /// The request as its source sent it.
    pub(crate) fn request(&self) -> &Batch
        ensures { self.now ≡ entered_as result.now self.now.origin self.now.spans }
    {
        &self.request
    }

    /// The runs of its entries.
    pub(crate) fn spans(&self) -> &[Span]
        ensures { result.now ≡ self.now.spans }
    {
        self.spans.as_slice()
    }

    /// Whether it is this request, under these runs.
    pub(crate) fn is_of(&self, batch: &Batch, spans: &[Span]) -> bool
        ensures same { result ≡ true → self.now ≡ entered_as batch.now self.now.origin spans.now }
        ensures other { result ≡ false
            → self.now ≢ entered_as batch.now self.now.origin spans.now }
    {
        if !self.request.is(batch) {
            return false;
        }
        are_same(self.spans.as_slice(), spans)
    }
}

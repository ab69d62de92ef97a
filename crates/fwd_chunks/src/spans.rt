//! The runs of a request's entries.

ghost use Rattle.std.specs.Prelude.{◌≡◌, ◌≤◌, [], ◌∷◌, length, IfOk, IsOk};

use crate::span::Span;
use std::alloc::{AllocError, Global};
use std::marker::Model;
use std::slice;

/// How runs are kept.
#[derive(Drop)]
pub(crate) enum Runs {
    One(Span),
    Many(Vec<Span>),
}

/// The runs of a request's entries, in the order of the entries. One alone takes no memory but its
/// own.
#[derive(Drop)]
pub struct Spans {
    runs: Runs,
}

impl Model for Spans {
    ghost use Rattle.std.specs.Prelude.{List};
    ghost use Rattle.fwd_chunks.specs.declared.span.Span.{Span};
    ghost use Rattle.fwd_chunks.specs.Runs.{runs_shown};

    ghost Value = { List Span };

    ghost view = { λ s. runs_shown s.runs };
}

impl Spans {
    /// No runs.
    pub fn new(alloc: Global) -> Self
        ensures { result ≡ [] }
    {
        Spans::of(Vec::new(alloc))
    }

    /// One run.
    pub fn one(span: Span) -> Self
        ensures { result ≡ span ∷ [] }
    {
        Spans {
            runs: Runs::One(span),
        }
    }

    /// These runs, in the vector's memory.
    pub fn of(spans: Vec<Span>) -> Self
        ensures { result ≡ spans.items }
    {
        Spans {
            runs: Runs::Many(spans),
        }
    }

    /// The runs as a slice.
    pub fn as_slice(&self) -> &[Span]
        ensures { result.now ≡ self.now }
    {
        match &self.runs {
            Runs::One(span) => slice::from_ref(span),
            Runs::Many(spans) => spans.as_slice(),
        }
    }

    /// The same runs, for one owner more. The only error is out of memory, and one run alone takes
    /// none.
    pub fn copied(&self, alloc: Global) -> Result<Self, AllocError>
        ensures copy { IfOk result (λ copy. copy ≡ self.now) }
        ensures sure { length self.now ≤ 1 → IsOk result }
    {
        let spans = self.as_slice();
        match spans.split_first() {
            None => Ok(Spans::new(alloc)),
            Some((span, others)) if others.is_empty() => Ok(Spans::one(*span)),
            Some(_) => Ok(Spans::of(Vec::from_slice(alloc, spans)?)),
        }
    }
}

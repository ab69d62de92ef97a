//! The ids of connections, which rise, with the pages of those that are still to come.

ghost use Rattle.std.specs.Prelude.{◌≡◌, ◌-◌, ◌<◌, Some, None, IfSome};
ghost use Rattle.fwd_run.specs.Pages.{page_count};
ghost use Rattle.fwd_msgpack.specs.declared.limits.Limits.{Limits};
ghost use Rattle.fwd_handshake.specs.declared.credentials.Security.{Security};
ghost use Rattle.fwd_source.specs.Live.{opened_source};
ghost use Rattle.fwd_model.specs.Setups.{setup_of};

use crate::run_event::RunPages;
use crate::source_page::{IdPage, SourcePage};
use fwd_history::Run;
use std::marker::Model;

/// The greatest id: for each connection up to this one there is a page.
const LAST: u64 = u64::MAX - 2_050;

/// Gives connections their ids, from 1 on, with their pages.
#[derive(Drop)]
pub struct SourceIds<J: Run> {
    next: Option<u64>,
    ids: IdPage<J>,
    pages: RunPages<J>,
}

impl<J: Run> Model for SourceIds<J> {
    ghost use Rattle.std.specs.Prelude.{◌≡◌, ◌≤◌, ◌+◌, ◌-◌, Some, true, IfSome};
    ghost use Rattle.fwd_msgpack.specs.declared.limits.Limits.{Limits};
    ghost use Rattle.fwd_handshake.specs.declared.credentials.Security.{Security};
    ghost use Rattle.fwd_model.specs.Live.{is_above};
    ghost use Rattle.fwd_run.specs.Pages.{NextId, last_source, page_count};

    ghost Value = { NextId };

    ghost view = { λ s. record {
      next = s.next;
      security = s.ids.security;
      limits = s.ids.limits;
    } };

    ghost invariant = { λ s. ((security : Security) × (s.ids.security ≡ Some security))
        × ((limits : Limits) × (s.ids.limits ≡ Some limits))
        × IfSome s.next (λ id. (id ≤ last_source)
        × (is_above id s.ids.last ≡ true)
        × (s.pages ≡ (2049 + id, page_count - 2049 - id))) };
}

impl<J: Run> SourceIds<J> {
    /// No id is given yet, in a run that has begun. The pages are those of the connections.
    pub fn new(ids: IdPage<J>, pages: RunPages<J>) -> SourceIds<J>
        requires fresh { ids.last ≡ None }
        requires security { (security : Security) × (ids.security ≡ Some security) }
        requires limits { (limits : Limits) × (ids.limits ≡ Some limits) }
        requires pages { pages ≡ (2049, page_count - 2049) }
        ensures { result ≡ record {
          next = Some 1;
          security = ids.security;
          limits = ids.limits;
        } }
    {
        let mut pages = pages;
        let _ = pages.take();
        SourceIds {
            next: Some(1),
            ids,
            pages,
        }
    }

    /// The id of the next connection, if one is left.
    pub fn next(&self) -> Option<u64>
        ensures { result ≡ self.now.next }
    {
        self.next
    }

    /// A connection comes, with this nonce and this auth salt, and gets the next id, if one is
    /// left.
    pub fn accept(&mut self, nonce: [u8; 16], auth: [u8; 16]) -> Option<SourcePage<J>>
        ensures given { IfSome result (λ page. self.old.next ≡ Some page.id) }
        ensures is { (security : Security) (limits : Limits) →
            self.old.security ≡ Some security → self.old.limits ≡ Some limits →
            IfSome result (λ page. page.is
            ≡ Some (opened_source (setup_of security limits page.id nonce auth))) }
        ensures rises { IfSome result (λ page. IfSome self.new.next (λ next. page.id < next)) }
        ensures none { result ≡ None → (self.old.next ≡ None) × (self.new ≡ self.old) }
        ensures rest { self.new ≡ record self.old { next = self.new.next } }
    {
        let id = self.next?;
        let page = self.pages.take();
        let source = self.ids.accept(page, id, nonce, auth);
        self.next = if id < LAST { Some(id + 1) } else { None };
        Some(source)
    }
}

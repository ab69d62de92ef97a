//! The pages of connections, and of what gives them their ids, in the history of a run.

ghost use Rattle.std.specs.Prelude.{◌≡◌, ℕ, List, [], Some, true};
ghost use Rattle.fwd_msgpack.specs.declared.limits.Limits.{Limits};
ghost use Rattle.fwd_handshake.specs.declared.credentials.Security.{Security};
ghost use Rattle.fwd_source.specs.Live.{LiveSource, live_piece_next, opened_source};
ghost use Rattle.fwd_history.specs.Histories.{Comes, IsLegal};
ghost use Rattle.fwd_model.specs.Live.{is_above};
ghost use Rattle.fwd_model.specs.Names.{Connection};
ghost use Rattle.fwd_model.specs.Setups.{setup_of};
ghost use Rattle.fwd_run.specs.Runs.{
  MayHappen,
  id_key,
  key_of,
  last_id,
  limits_at,
  routes_at,
  security_at,
  source_at,
};

use crate::run_event::{ReachedHistory, RunPage};
use crate::step::{Is, Step};
use fwd_history::Run;
use std::marker::Model;

/// The page of a connection: with it the connection's events are added, and so it is known what its
/// source is after them.
#[derive(Drop)]
pub struct SourcePage<J: Run> {
    pub(crate) page: RunPage<J>,
    pub(crate) id: u64,
}

impl<J: Run> Model for SourcePage<J> {
    ghost use Rattle.std.specs.Prelude.{◌≡◌};
    ghost use Rattle.fwd_model.specs.Names.{Connection};
    ghost use Rattle.fwd_run.specs.Pages.{SourceKnown};
    ghost use Rattle.fwd_run.specs.Runs.{key_of, routes_at, source_at};

    ghost Value = { SourceKnown };

    ghost view = { λ s. record {
      id = s.id;
      routes = routes_at s.page.1;
      is = source_at s.page.1 s.id;
    } };

    ghost invariant = { λ s. s.page.0 ≡ key_of (Connection s.id) };
}

/// The page of what gives connections their ids, which rise.
#[derive(Drop)]
pub struct IdPage<J: Run> {
    page: RunPage<J>,
}

impl<J: Run> Model for IdPage<J> {
    ghost use Rattle.std.specs.Prelude.{◌≡◌};
    ghost use Rattle.fwd_run.specs.Pages.{IdsKnown};
    ghost use Rattle.fwd_run.specs.Runs.{id_key, last_id, limits_at, security_at};

    ghost Value = { IdsKnown };

    ghost view = { λ p. record {
      last = last_id p.page.1;
      security = security_at p.page.1;
      limits = limits_at p.page.1;
    } };

    ghost invariant = { λ p. p.page.0 ≡ id_key };
}

impl<J: Run> IdPage<J> {
    /// The page of a run that has begun.
    pub fn new(page: RunPage<J>) -> IdPage<J>
        requires { page.0 ≡ id_key }
        ensures { result ≡ record {
          last = last_id page.1;
          security = security_at page.1;
          limits = limits_at page.1;
        } }
    {
        IdPage { page }
    }

    /// A connection comes, with this nonce and this auth salt, under an id above every earlier one.
    pub fn accept(
        &mut self,
        page: RunPage<J>,
        id: u64,
        nonce: [u8; 16],
        auth: [u8; 16],
    ) -> SourcePage<J>
        requires page { (page.0 ≡ key_of (Connection id)) × (page.1 ≡ []) }
        ensures { (security : Security) (limits : Limits) → self.old.security ≡ Some security
            → self.old.limits ≡ Some limits → is_above id self.old.last ≡ true
            → (result.id ≡ id)
            × (result.is ≡ Some (opened_source (setup_of security limits id nonce auth)))
            × (self.new ≡ record self.old { last = Some id }) }
    {
        let mut page = page;
        let step = Step::Accept { id, nonce, auth };
        page.add_with::<Step<'_>, Is>(&mut self.page, &step);
        SourcePage { page, id }
    }
}

impl<J: Run> SourcePage<J> {
    /// The connection's id.
    pub fn id(&self) -> u64
        ensures { result ≡ self.now.id }
    {
        self.id
    }

    /// Bytes are read from the connection.
    pub fn heard(&mut self, bytes: &[u8])
        ensures { (s : LiveSource) → self.old.is ≡ Some s
            → self.new ≡ record self.old { is = Some (live_piece_next s bytes.now) } }
    {
        let step = Step::Piece { id: self.id, bytes };
        self.page.add::<Step<'_>, Is>(&step);
    }

    /// The history of the run as it is known here and there: what the connection is stays known.
    pub fn after(&mut self, reached: &ReachedHistory<J>) -> ReachedHistory<J>
        ensures same { (s : LiveSource) → self.old.is ≡ Some s → self.new ≡ self.old }
        ensures known { (s : LiveSource) → self.old.is ≡ Some s
            → source_at result self.old.id ≡ Some s }
        ensures onward { Comes reached.now result }
        ensures routes { (s : LiveSource) (routes : List (List (List ℕ))) →
            self.old.is ≡ Some s → routes_at reached.now ≡ Some routes
            → self.new.routes ≡ Some routes }
        ensures legal { IsLegal MayHappen result }
    {
        let step = Step::Quiet { id: self.id };
        self.page.add_after::<Step<'_>, Is>(reached, &step);
        self.page.reached()
    }
}

//! Laws, each the contract of a function that does nothing.

ghost use Rattle.std.specs.Prelude.{◌≡◌, ℕ, List, Some, false, slice_get};
ghost use Rattle.fwd_modes.specs.declared.origin.Origin.{Origin};
ghost use Rattle.fwd_chunks.specs.Live.{live_counts};
ghost use Rattle.fwd_source.specs.Live.{LiveSource};
ghost use Rattle.fwd_book.specs.Receipts.{Receipt, receipts};
ghost use Rattle.fwd_history.specs.Histories.{Comes, IsLegal, Went};
ghost use Rattle.fwd_model.specs.declared.config.Config.{Config};
ghost use Rattle.fwd_model.specs.Delivered.{IsDelivered, reached};
ghost use Rattle.fwd_model.specs.Live.{LiveRelay, live};
ghost use Rattle.fwd_model.specs.Names.{Connection, Output, Session};
ghost use Rattle.fwd_model.specs.Outputs.{LiveOutput};
ghost use Rattle.fwd_run.specs.Entered.{HasEntered};
ghost use Rattle.fwd_run.specs.Runs.{
  MayHappen,
  RunEvent,
  but_owed,
  config_of,
  id_key,
  key_of,
  last_id,
  output_at,
  relay_events,
  run_after,
  source_at,
  touches,
  worker_at,
};

/// Once a run has begun, a part of the relay is after a history what it was at its own last event:
/// an output, a worker with its session, a connection, and the last id that was given.
pub fn parts_stay()
    ensures output { (o : ℕ) (old past : List RunEvent) (r : LiveRelay) → run_after old ≡ Some r →
        Went touches (key_of (Output o)) old past → output_at past o ≡ output_at old o }
    ensures worker { (o w : ℕ) (old past : List RunEvent) (r : LiveRelay) → run_after old ≡ Some r →
        Went touches (key_of (Session o w)) old past → worker_at past o w ≡ worker_at old o w }
    ensures source { (id : ℕ) (old past : List RunEvent) (r : LiveRelay) → run_after old ≡ Some r →
        Went touches (key_of (Connection id)) old past → source_at past id ≡ source_at old id }
    ensures last { (old past : List RunEvent) (r : LiveRelay) → run_after old ≡ Some r →
        Went touches id_key old past → last_id past ≡ last_id old }
{}

/// A run's history leads where its events of the relay lead, but for who is owed an answer: the
/// chunks, the servers, the sessions, and the connections are those of the abstract relay.
pub fn run_is_the_relays()
    ensures { (past : List RunEvent) (config : Config) (r : LiveRelay) →
        IsLegal MayHappen past → config_of past ≡ Some config → run_after past ≡ Some r →
        but_owed r ≡ but_owed (live (reached config (relay_events past))) }
{}

/// Each receipt that an output gives behind a run's history is of a request that was delivered: by
/// the events of the relay in each longer history, behind which its connection is not shut.
pub fn run_delivers()
    ensures { (old past : List RunEvent) (config : Config) (o i : ℕ) (p : LiveOutput)
        (s : LiveSource) (origins : List Origin) (receipt : Receipt) →
        IsLegal MayHappen past → Comes old past → config_of old ≡ Some config →
        output_at old o ≡ Some p →
        slice_get (receipts p.book.settled p.book.requests origins) i ≡ Some receipt →
        source_at past receipt.origin.conn ≡ Some s → s.shut ≡ false →
        IsDelivered config (relay_events past) receipt.origin.conn receipt.origin.request o }
{}

/// Behind a run's history an output that holds nothing has delivered each request that entered it,
/// whether its source asks for acknowledgements or not, and was told or not.
pub fn empty_output_has_delivered()
    ensures { (past : List RunEvent) (config : Config) (o : ℕ) (p : LiveOutput) (id r : ℕ) →
        IsLegal MayHappen past → config_of past ≡ Some config → output_at past o ≡ Some p →
        (live_counts p.buffer).held ≡ 0 → HasEntered config (relay_events past) id r o →
        IsDelivered config (relay_events past) id r o }
{}

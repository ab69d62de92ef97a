//! The history of a run, in proofs alone: its events, its pages, and what is known of it.

use fwd_history::{Law, Opened, Page, Pages, Reached};
use std::marker::{Model, PhantomData};

/// An event of that history. No value of it is made: the events stand in proofs alone.
#[derive(Drop)]
pub struct RunEvent {
    of: PhantomData<()>,
}

impl Model for RunEvent {
    ghost use Rattle.std.specs.Prelude.{[]};
    ghost use Rattle.fwd_run.specs.Runs.{RunEvent, Leave};

    ghost Value = { RunEvent };

    ghost view = { λ e. Leave 0 [] };
}

/// Which parts have a part in an event, and which event may come.
#[derive(Drop)]
pub struct RunLaw {
    of: PhantomData<()>,
}

impl Law<RunEvent> for RunLaw {
    ghost use Rattle.fwd_run.specs.Runs.{MayHappen, touches};

    ghost touches = { touches };

    ghost may = { MayHappen };
}

/// A history of a run that was just opened, whose run has no name yet.
pub type OpenedRun = Opened<RunEvent, RunLaw>;

/// The pages of a run's parts that nobody has yet.
pub type RunPages<J> = Pages<RunEvent, RunLaw, J>;

/// The page of a part of a run.
pub type RunPage<J> = Page<RunEvent, RunLaw, J>;

/// A history that a run has reached.
pub type ReachedHistory<J> = Reached<RunEvent, RunLaw, J>;

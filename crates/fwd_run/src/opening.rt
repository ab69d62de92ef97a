//! The beginning of a run.

ghost use Rattle.std.specs.Prelude.{◌≡◌, ◌+◌, ◌-◌, ◌≤◌, ℕ, [], Some, None, slice_get};
ghost use Rattle.fwd_model.specs.declared.config.Config.{Config};
ghost use Rattle.fwd_model.specs.declared.config.OutputConfig.{OutputConfig};
ghost use Rattle.fwd_model.specs.History.{opening};
ghost use Rattle.fwd_model.specs.Live.{live};
ghost use Rattle.fwd_run.specs.Pages.{IsNew, IsSeenAs, with_trial};
ghost use Rattle.fwd_run.specs.Runs.{
  config_of,
  id_key,
  last_id,
  limits_at,
  routes_at,
  run_after,
  security_at,
};

use crate::run_event::{ReachedHistory, RunEvent, RunPage, RunPages};
use fwd_history::{Deed, Run};
use fwd_model::Config;
use std::marker::PhantomData;

/// Settings stand for the event that a run begins with them.
struct Begins {
    of: PhantomData<()>,
}

impl Deed<Config, RunEvent> for Begins {
    ghost use Rattle.std.specs.Prelude.{◌≡◌};
    ghost use Rattle.fwd_model.specs.declared.config.Config.{Config};
    ghost use Rattle.fwd_run.specs.Pages.{IsSeenAs};
    ghost use Rattle.fwd_run.specs.Runs.{Opens};

    ghost means = { λ config past e. (seen : Config) × (e ≡ Opens seen) × IsSeenAs config seen };
}

/// A run begins, with these settings, but that each output has one worker more: nothing has
/// happened yet.
pub fn open_run<J: Run>(page: &mut RunPage<J>, config: &Config) -> ReachedHistory<J>
    requires { (page.old.0 ≡ id_key) × (page.old.1 ≡ []) }
    ensures begun { (seen : Config) × IsSeenAs config.now seen × (config_of result ≡ Some seen)
        × (run_after result ≡ Some (live (opening seen))) }
    ensures page { page.new ≡ (id_key, result) }
    ensures outputs { (o : ℕ) (c : OutputConfig) → slice_get config.now.outputs o ≡ Some c
        → IsNew result config.now.run o (with_trial c) }
    ensures routes { routes_at result ≡ Some config.now.routes }
    ensures security { security_at result ≡ Some config.now.security }
    ensures limits { limits_at result ≡ Some config.now.limits }
    ensures ids { last_id result ≡ None }
{
    page.add::<Config, Begins>(config);
    page.reached()
}

/// So many pages are of parts that the run does not have.
pub fn skip<J: Run>(pages: &mut RunPages<J>, count: usize)
    requires { count ≤ pages.old.1 }
    ensures { pages.new ≡ (pages.old.0 + count, pages.old.1 - count) }
{
    for _ in 0..count {
        let _ = pages.take();
    }
}

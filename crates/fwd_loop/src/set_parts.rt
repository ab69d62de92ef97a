//! What its settings set a relay to, part by part.

ghost use Rattle.std.specs.Prelude.{◌≡◌, map, true, IfOk, IfSome};
ghost use Rattle.fwd_loop.specs.Loops.{IsSetTo};
ghost use Rattle.fwd_pools.specs.Pools.{hop_of};
ghost use Rattle.fwd_settings.specs.Ranges.{in_range};

use fwd_config::config_of;
use fwd_model::Config;
use fwd_monitors::StartFault;
use fwd_pools::{NextHop, RandomStreams, next_hops_of};
use fwd_settings::Settings;
use std::alloc::Global;

/// What the relay is made of, and where the servers of each output are reached.
pub(crate) struct SetParts {
    pub config: Config,
    pub hops: Vec<NextHop>,
}

/// What these settings set a relay to, whose chunks have these bytes. The only error is out of
/// memory.
pub(crate) fn parts_of(
    alloc: Global,
    settings: Settings,
    id: [u8; 6],
) -> Result<SetParts, StartFault>
    requires { in_range settings ≡ true }
    ensures config { IfOk result (λ parts. IsSetTo settings parts.config) }
    ensures run { IfOk result (λ parts. parts.config.run ≡ id) }
    ensures hops { IfOk result (λ parts. parts.hops.items ≡ map hop_of settings.outputs) }
{
    let hops = next_hops_of(alloc, settings.outputs.as_slice())?;
    let mut config = config_of(alloc, settings)?;
    config.run = id;
    Ok(SetParts { config, hops })
}

/// The run's id: that of the settings, where they name one, and else one that is drawn.
pub(crate) fn run_id_of(set: Option<[u8; 6]>, random: &RandomStreams) -> [u8; 6]
    ensures { IfSome set (λ id. result ≡ id) }
{
    match set {
        Some(id) => id,
        None => random.run_id(),
    }
}

//! Where the servers of each output are reached, as its settings say it.

ghost use Rattle.std.specs.Prelude.{◌≡◌, map, IfOk};
ghost use Rattle.fwd_pools.specs.Pools.{does_wait, hop_of};

use fwd_settings::{OutputSettings, ServerSettings, WhenFull};
use std::alloc::{AllocError, Global};
use std::marker::Model;
use std::net::SocketAddr;

/// Where an output's servers are reached, and whether sources wait where it is full.
#[derive(Drop)]
pub struct NextHop {
    pub servers: Vec<SocketAddr>,
    pub waits_when_full: bool,
}

impl Model for NextHop {
    ghost use Rattle.fwd_pools.specs.Pools.{Hop};

    ghost Value = { Hop };

    ghost view = { λ next. record {
      servers = next.servers.items;
      waits_when_full = next.waits_when_full;
    } };
}

/// Where the servers of each output are reached, and whether sources wait where it is full.
pub fn next_hops_of(alloc: Global, outputs: &[OutputSettings]) -> Result<Vec<NextHop>, AllocError>
    ensures { IfOk result (λ hops. hops.items ≡ map hop_of outputs.now) }
{
    let mut all = Vec::with_capacity(alloc, outputs.len())?;
    for output in outputs {
        all.push(next_hop_of(alloc, output)?)?;
    }
    Ok(all)
}

/// Where servers are reached.
fn addresses_of(alloc: Global, servers: &[ServerSettings]) -> Result<Vec<SocketAddr>, AllocError>
    ensures { IfOk result (λ list. list.items ≡ map (λ s. s.address) servers.now) }
{
    servers.iter().map(|server| server.address).collect(alloc)
}

/// Whether sources wait where an output is full.
fn waits_when_full(full: WhenFull) -> bool
    ensures { result ≡ does_wait full }
{
    match full {
        WhenFull::Close => false,
        WhenFull::Wait => true,
    }
}

/// Where the servers of an output are reached, and whether sources wait where it is full.
fn next_hop_of(alloc: Global, output: &OutputSettings) -> Result<NextHop, AllocError>
    ensures { IfOk result (λ hop. hop ≡ hop_of output.now) }
{
    let servers = addresses_of(alloc, output.servers.as_slice())?;
    let waits_when_full = waits_when_full(output.full);
    Ok(NextHop {
        servers,
        waits_when_full,
    })
}

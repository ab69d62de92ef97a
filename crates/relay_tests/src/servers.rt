//! As many servers as an output may have.

use fwd_failover::Servers;
use std::alloc::Global;

/// 15 primaries, and a standby behind them.
const STANDBY: [bool; 16] = [
    false, false, false, false, false, false, false, false, false, false, false, false, false,
    false, false, true,
];

/// Whether the workers try the primaries in turn, and the standby once all of these are lost.
fn are_tried_in_turn(alloc: Global) -> bool {
    let Ok(mut servers) = Servers::new(alloc, &STANDBY, 500, 4000) else {
        return false;
    };
    let mut in_turn = true;
    for worker in 0..16 {
        in_turn = in_turn && servers.choose(worker, 0) == Some(worker % 15);
    }
    for server in 0..15 {
        servers.failed(server, 0);
    }
    in_turn && servers.choose(3, 0) == Some(15)
}

#[test]
fn sixteen_servers_are_tried_in_turn(rt: HostRuntime) {
    assert!(rt; are_tried_in_turn(rt.alloc()));
}

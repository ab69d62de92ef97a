ghost use Rattle.std.specs.Prelude.{◌≡◌, ◌≤◌, ◌^◌, length, not, true};
ghost use Rattle.std.specs.List.{list_any};

use fwd_base::Seq;
use fwd_chunks::BufferLimits;
use fwd_handshake::{Login, Security};
use fwd_match::Routes;
use fwd_msgpack::Limits;
use fwd_session::AckTerms;

/// What one output is set to.
#[derive(Drop)]
pub struct OutputConfig {
    /// How many workers it has.
    pub workers: u16,
    /// Which of its servers are standbys, in file order: 1 to 16 servers, and not all of them are.
    pub standby: Seq<bool>,
    /// What its buffer is limited to. Its waits after losses are its servers' too.
    pub limits: BufferLimits,
    /// How its sessions wait for acknowledgements: of how many chunks at once, and for how long.
    pub acks: AckTerms,
    /// What its sessions prove to their servers.
    pub login: Login,
    ghost few: { length standby ≤ 16 },
    ghost has_primary: { list_any not standby ≡ true },
}

/// What a relay is set to. A request is refused where the first pattern that matches its tag has no
/// output.
#[derive(Drop)]
pub struct Config {
    /// Six bytes that tell this run of the program from others, in the names of its chunks.
    pub run: [u8; 6],
    /// The pattern of each output, in file order. An event goes to the first output whose pattern
    /// matches its tag.
    pub routes: Routes,
    /// What a source has to prove, and the name under which the relay answers it.
    pub security: Security,
    /// How long and how deep a value of a source may be.
    pub limits: Limits,
    /// The outputs, in file order: at most 65,536, since events name them by sixteen bits.
    pub outputs: Seq<OutputConfig>,
    ghost few: { length outputs ≤ 2 ^ 16 },
}

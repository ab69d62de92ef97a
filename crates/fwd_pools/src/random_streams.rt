//! Where random numbers come from.

use fwd_monitors::StartFault;
use rand_chacha::ChaCha20Rng;
use rand_core::SeedableRng;
use rand_core::utils::fill_bytes_via_u32;
use std::fs;
use std::io::Read;
use std::rt::Files;

/// Where the system gives random bytes.
const RANDOM: &str = "/dev/urandom";

/// The streams of the sources' nonces, of the run's id, and of the first worker's salts.
const NONCES: u64 = 0;

const RUN: u64 = 1;

const SALTS: u64 = 2;

/// How many streams an output has: at most so many workers.
const OUTPUT: u64 = 256;

/// The random numbers of a run: ChaCha20 from one seed, in streams that do not overlap. Each number
/// is a word of 32 bits, little-endian.
#[derive(Drop)]
pub struct RandomStreams {
    seed: [u8; 32],
}

impl RandomStreams {
    /// The numbers from this seed, or from 32 random bytes of the system. They cannot be had where
    /// the system gives none.
    pub fn new<R: Files>(rt: &R, seed: Option<[u8; 32]>) -> Result<RandomStreams, StartFault> {
        match seed {
            Some(seed) => Ok(RandomStreams { seed }),
            None => match random(rt) {
                Some(seed) => Ok(RandomStreams { seed }),
                None => Err(StartFault::Seed),
            },
        }
    }

    /// The numbers of a stream, from its first on.
    fn stream(&self, stream: u64) -> ChaCha20Rng {
        let mut rng = ChaCha20Rng::from_seed(self.seed);
        rng.set_stream(stream);
        rng
    }

    /// The numbers of the sources' nonces.
    pub fn nonces(&self) -> ChaCha20Rng {
        self.stream(NONCES)
    }

    /// The first six bytes of the run's stream.
    pub fn run_id(&self) -> [u8; 6] {
        let mut run = [0; 6];
        fill_bytes_via_u32(&mut self.stream(RUN), &mut run);
        run
    }

    /// The numbers of the salts of an output's worker.
    pub(crate) fn salts(&self, output: u16, worker: u16) -> ChaCha20Rng {
        self.stream(SALTS + OUTPUT * u64::from(output) + u64::from(worker))
    }
}

/// 32 random bytes of the system. A read may give fewer than are asked for.
fn random<R: Files>(rt: &R) -> Option<[u8; 32]> {
    let mut file = fs::open(rt, RANDOM).ok()?;
    let mut seed = [0; 32];
    match file.read_exact(&mut seed) {
        Ok(()) => Some(seed),
        Err(_) => None,
    }
}

//! The numbers of the chunks that a worker gives back.

ghost use Rattle.std.specs.Prelude.{◌≡◌, ◌≤◌, ◌++◌, length, map, option_to_list};
ghost use Rattle.fwd_session.specs.declared.limits.TheConstants.{WINDOW_LIMIT};
ghost use Rattle.fwd_model.specs.Outputs as outputs;

use fwd_chunks::Carried;
use fwd_model::Numbers;

/// The numbers of chunks, the least first.
#[tactic(auto, using(crate::proofs::ReturnLemmas::length_in_order))]
fn rising(chunks: &[Carried]) -> Numbers
    requires { length chunks.now ≤ WINDOW_LIMIT }
    ensures order { result ≡ outputs.rising (map (λ c. c.number) chunks.now) }
    ensures count { length result ≡ length chunks.now }
{
    match chunks.split_first() {
        None => Numbers::new(),
        Some((first, rest)) => {
            let mut numbers = rising(rest);
            numbers.insert(first.number());
            numbers
        }
    }
}

/// The numbers of the chunks that a worker gives back, the least first.
pub(crate) fn numbers_back(taken: &Option<Carried>, loaded: &[Carried]) -> Numbers
    requires { length (option_to_list taken.now ++ loaded.now) ≤ WINDOW_LIMIT }
    ensures { result ≡ outputs.numbers_back (outputs.returned taken.now loaded.now) }
{
    let mut numbers = rising(loaded);
    if let Some(chunk) = taken {
        numbers.insert(chunk.number());
    }
    numbers
}

//! Why a run ended, and what whoever asked the relay to stop is told of it.

ghost use Rattle.std.specs.Prelude.{◌≡◌, ◌↔◌, true};
ghost use Rattle.fwd_listeners.specs.Endings.{ending_of, is_nothing};

use crate::control_text::ControlAnswer;
use crate::left::Left;

/// Why a run ended.
#[derive(Clone, Copy, Debug, PartialEq, Eq)]
pub enum Ending {
    /// All its turns are made.
    Turns,
    /// It was asked to stop, and all is delivered.
    Delivered,
    /// It was asked to stop, and this is left.
    Left(Left),
}

impl Ending {
    /// What whoever asked is told of it, by what is left.
    pub fn answer(self, left: Left) -> ControlAnswer {
        match self {
            Ending::Delivered => ControlAnswer::Delivered,
            Ending::Left(left) => ControlAnswer::Left(left),
            Ending::Turns => ControlAnswer::Left(left),
        }
    }
}

/// Why a run ended that was asked to stop or not, by what it left.
pub fn ending_of(was_asked: bool, left: Left) -> Ending
    ensures value { result ≡ ending_of was_asked left }
    ensures delivered { (result ≡ Ending.Delivered)
        ↔ ((was_asked ≡ true) × (is_nothing left ≡ true)) }
{
    if !was_asked {
        Ending::Turns
    } else if left.is_nothing() {
        Ending::Delivered
    } else {
        Ending::Left(left)
    }
}

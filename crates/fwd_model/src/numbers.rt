//! A few numbers that take no memory.

ghost use Rattle.std.specs.Prelude.{◌≡◌, ◌<◌, ◌≤◌, [], length};
ghost use Rattle.std.specs.List.{insert};
ghost use Rattle.fwd_session.specs.declared.limits.TheConstants.{WINDOW_LIMIT};
ghost use Rattle.fwd_model.specs.Outputs.{in_order};

use arrayvec::ArrayVec;
use fwd_session::WINDOW_LIMIT;
use std::marker::Model;

/// At most as many numbers as the widest window has chunks, the least first, which contracts see as
/// their list.
#[derive(Drop)]
pub struct Numbers {
    items: ArrayVec<u64, WINDOW_LIMIT>,
}

impl Model for Numbers {
    ghost use Rattle.std.specs.Prelude.{ℕ, List};

    ghost Value = { List ℕ };

    ghost view = { λ n. n.items.items };
}

/// The place of a number among rising ones.
fn place_of(numbers: &[u64], number: u64) -> usize
    ensures within { result ≤ length numbers.now }
    ensures place { insert numbers.now result number ≡ in_order number numbers.now }
{
    for place in 0..numbers.len() {
        if number <= numbers[place] {
            return place;
        }
    }
    numbers.len()
}

impl Numbers {
    /// No numbers.
    pub fn new() -> Self
        ensures { result ≡ [] }
    {
        Numbers {
            items: ArrayVec::new(),
        }
    }

    /// Puts a number among them, in its place.
    pub fn insert(&mut self, number: u64)
        requires { length self.old < WINDOW_LIMIT }
        ensures { self.new ≡ in_order number self.old }
    {
        let place = place_of(self.as_slice(), number);
        self.items.insert(place, number);
    }

    /// The numbers, the least first.
    pub fn as_slice(&self) -> &[u64]
        ensures { result.now ≡ self.now }
    {
        self.items.as_slice()
    }
}

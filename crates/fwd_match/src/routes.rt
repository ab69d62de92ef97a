//! Routes: which output an event goes to.

ghost use Rattle.std.specs.Prelude.{◌≡◌, ◌<◌, ◌≤◌, length, vec_len, IfSome};
ghost use Rattle.fwd_match.specs.Patterns.{route};

use crate::pattern::Pattern;
use std::marker::Model;

/// The patterns of the outputs, in the order of the outputs. Contracts see the list of them.
#[derive(Drop)]
pub struct Routes {
    patterns: Vec<Pattern>,
}

impl Model for Routes {
    ghost use Rattle.std.specs.Prelude.{List, ℕ, ◌≤◌, vec_len};

    ghost Value = { List (List (List ℕ)) };

    ghost view = { λ routes. routes.patterns.items };

    ghost invariant = { λ routes. vec_len routes.patterns ≤ 64 };
}

impl Routes {
    /// The routes of at most 64 outputs, in their order. It moves the patterns and takes no memory.
    pub fn new(patterns: Vec<Pattern>) -> Self
        requires { vec_len patterns ≤ 64 }
        ensures { result ≡ patterns.items }
    {
        Routes { patterns }
    }

    /// The first output whose pattern matches the tag, counted from 0. It takes no memory.
    pub fn first(&self, tag: &[u8]) -> Option<u16>
        ensures { result ≡ route self.now tag.now }
    {
        let place = first_match(&self.patterns, tag)?;
        Some(place as u16)
    }
}

#[tactic(auto, unfolding(crate::specs::Patterns::route))]
fn first_match(patterns: &[Pattern], tag: &[u8]) -> Option<usize>
    ensures value { result ≡ route patterns.now tag.now }
    ensures within { IfSome result (λ place. place < length patterns.now) }
{
    patterns.iter().position(|pattern| pattern.matches(tag))
}

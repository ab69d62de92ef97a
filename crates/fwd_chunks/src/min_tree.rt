//! The keys, and over them the lesser of each two neighbours, level by level up to one.

ghost use Rattle.std.specs.Prelude.{◌≡◌, ◌+◌, ◌*◌, ◌<◌, [], length, slice_set, if◌then◌else◌, IfOk};
ghost use Rattle.fwd_chunks.specs.MinTrees.{is_within, first_within};
ghost use Rattle.fwd_chunks.specs.Levels.{keys_at, key_at, lesser, IsOver, IsTower};

use std::alloc::{AllocError, Global};
use std::marker::Model;

/// Keys at places, of which the first within a limit is found in the logarithm of their count.
#[derive(Drop)]
pub(crate) struct MinTree {
    /// The keys, then the lesser of each two neighbours of the level before, up to one.
    levels: Vec<Vec<Option<u64>>>,
}

impl Model for MinTree {
    ghost use Rattle.std.specs.Prelude.{List, Option, ℕ};
    ghost use Rattle.fwd_chunks.specs.Levels.{keys_at, IsTower};

    ghost Value = { List (Option ℕ) };

    ghost view = { λ e. keys_at e.levels.items 0 };

    ghost invariant = { λ e. IsTower e.levels.items };
}

/// Whether a key is within a limit.
fn is_within(key: Option<u64>, limit: u64) -> bool
    ensures { result ≡ is_within limit key }
{
    match key {
        None => false,
        Some(key) => key <= limit,
    }
}

/// The lesser of two keys.
fn lesser(first: Option<u64>, second: Option<u64>) -> Option<u64>
    ensures { result ≡ lesser first second }
{
    match (first, second) {
        (None, _) => second,
        (Some(_), None) => first,
        (Some(first), Some(second)) => Some(first.min(second)),
    }
}

/// The key at a place, and `None` past the last place.
fn key_at(keys: &[Option<u64>], place: usize) -> Option<u64>
    ensures { result ≡ key_at keys.now place }
{
    match keys.get(place) {
        None => None,
        Some(key) => *key,
    }
}

/// The key that stands at a place of the level over this one.
fn lesser_at(below: &[Option<u64>], place: usize) -> Option<u64>
    requires { 2 * place < length below.now }
    ensures { result ≡ lesser (key_at below.now (2 * place)) (key_at below.now (2 * place + 1)) }
{
    let left = 2 * place;
    lesser(below[left], key_at(below, left + 1))
}

/// The level over this one.
fn over(alloc: Global, below: &[Option<u64>]) -> Result<Vec<Option<u64>>, AllocError>
    ensures { IfOk result (λ above. IsOver below.now above.items) }
{
    let count = below.len().div_ceil(2);
    let mut above = Vec::with_capacity(alloc, count)?;
    for place in 0..count {
        above.push_reserved(lesser_at(below, place));
    }
    Ok(above)
}

/// The keys, and all levels over them.
fn tower(alloc: Global, keys: Vec<Option<u64>>) -> Result<Vec<Vec<Option<u64>>>, AllocError>
    ensures tower { IfOk result (λ levels. IsTower levels.items) }
    ensures keys { IfOk result (λ levels. keys_at levels.items 0 ≡ keys.items) }
{
    let mut levels = Vec::new(alloc);
    let mut top = keys;
    while top.len() > 1 {
        let above = over(alloc, &top)?;
        levels.push(top)?;
        top = above;
    }
    levels.push(top)?;
    Ok(levels)
}

/// Puts a key at a place, and what follows from it into each level over it.
fn put(levels: &mut [Vec<Option<u64>>], mut place: usize, key: Option<u64>)
    requires tower { IsTower levels.old }
    requires inside { place < length (keys_at levels.old 0) }
    ensures tower { IsTower levels.new }
    ensures keys { keys_at levels.new 0 ≡ slice_set (keys_at levels.old 0) place key }
{
    levels[0][place] = key;
    for level in 1..levels.len() {
        place /= 2;
        levels[level][place] = lesser_at(&levels[level - 1], place);
    }
}

/// Of the two places below one whose key is within a limit, the first with such a key.
fn place_below(below: &[Option<u64>], place: usize, limit: u64) -> usize
    requires { 2 * place < length below.now }
    ensures { result
        ≡ (if is_within limit (key_at below.now (2 * place)) then 2 * place else 2 * place + 1) }
{
    let left = 2 * place;
    if is_within(below[left], limit) {
        left
    } else {
        left + 1
    }
}

/// The first place whose key is within the limit.
fn find(levels: &[Vec<Option<u64>>], limit: u64) -> Option<usize>
    requires { IsTower levels.now }
    ensures { result ≡ first_within limit (keys_at levels.now 0) }
{
    let top = levels.last()?;
    if !is_within(key_at(top, 0), limit) {
        return None;
    }
    let mut place = 0;
    for level in (0..levels.len() - 1).rev() {
        place = place_below(&levels[level], place, limit);
    }
    Some(place)
}

impl MinTree {
    /// No places.
    pub(crate) fn new(alloc: Global) -> Self
        ensures { result ≡ [] }
    {
        MinTree {
            levels: Vec::new(alloc),
        }
    }

    /// These keys, each at its place. It fails only where memory does.
    pub(crate) fn of(alloc: Global, keys: Vec<Option<u64>>) -> Result<Self, AllocError>
        ensures { IfOk result (λ earliest. earliest ≡ keys.items) }
    {
        Ok(MinTree {
            levels: tower(alloc, keys)?,
        })
    }

    /// How many places there are.
    pub(crate) fn places(&self) -> usize
        ensures { result ≡ length self.now }
    {
        match self.levels.first() {
            None => 0,
            Some(keys) => keys.len(),
        }
    }

    /// Puts a key at a place. It takes no memory.
    pub(crate) fn set(&mut self, place: usize, key: Option<u64>)
        requires { place < length self.old }
        ensures { self.new ≡ slice_set self.old place key }
    {
        put(&mut self.levels, place, key);
    }

    /// The first place whose key is at most the limit, if there is one.
    pub(crate) fn first(&self, limit: u64) -> Option<usize>
        ensures { result ≡ first_within limit self.now }
    {
        find(&self.levels, limit)
    }
}

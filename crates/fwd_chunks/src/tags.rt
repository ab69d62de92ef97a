//! What is kept for each tag that has entries. A tag's newest number is kept, and not whether that
//! chunk is open: so a flush looks nothing up here and takes no memory.

ghost use Rattle.std.specs.Prelude.{
  ◌≡◌,
  ◌≤◌,
  ◌<◌,
  ◌+◌,
  ◌-◌,
  ◌^◌,
  ◌⊎◌,
  ℕ,
  List,
  [],
  Some,
  None,
  true,
  false,
  IsSome,
  IfOk,
  IfSome,
  IfNone,
  OnOk,
  OnErr,
  map,
  option_map,
  if◌then◌else◌,
};
ghost use Rattle.std.specs.Str.{bytes_eq};
ghost use Rattle.std.specs.List.{IsDistinct};
ghost use Rattle.fwd_chunks.specs.declared.tag_entry.TagEntry.{TagEntry};
ghost use Rattle.fwd_chunks.specs.Newest.{
  tag_entry,
  tag_number,
  held_by,
  bytes_by,
  raised,
  AreSome,
};
ghost use Rattle.fwd_chunks.specs.Listing.{listed};

use crate::tag_entry::TagEntry;
use crate::tag_list::TagList;
use indexmap::IndexMap;
use std::alloc::{AllocError, Global};
use std::marker::Model;

/// What is kept for each tag that has entries, found by the tag's hash.
#[derive(Drop)]
pub(crate) struct Tags {
    entries: IndexMap<Vec<u8>, TagEntry>,
    /// Where the tag stands mostly that was put last. It is compared before a tag is looked up.
    recent: usize,
}

impl Model for Tags {
    ghost use Rattle.std.specs.Prelude.{List, ℕ, map};
    ghost use Rattle.fwd_chunks.specs.declared.tag_entry.TagEntry.{TagEntry};

    ghost Value = { List (List ℕ × TagEntry) };

    ghost view = { λ t. map (λ e. (e.0.items, e.1)) t.entries.entries };
}

impl Tags {
    /// Nothing is kept.
    pub(crate) fn new(alloc: Global) -> Self
        ensures { result ≡ [] }
    {
        Tags {
            entries: IndexMap::new(alloc),
            recent: 0,
        }
    }

    /// What is kept for a tag.
    fn entry(&self, tag: &[u8]) -> Option<TagEntry>
        ensures { result ≡ tag_entry tag.now self.now }
    {
        match self.entries.get_index(self.recent) {
            Some((name, entry)) if name.as_slice() == tag => Some(*entry),
            _ => self.entries.get(tag).copied(),
        }
    }

    /// The number of a tag, and where the chunk of that number lies, if it is there.
    pub(crate) fn newest(&self, tag: &[u8]) -> Option<(u64, usize)>
        ensures { option_map (λ p. p.0) result ≡ tag_number tag.now self.now }
    {
        let entry = self.entry(tag)?;
        Some((entry.newest, entry.key))
    }

    /// This is kept for the tag. On an error nothing has changed.
    fn insert(&mut self, alloc: Global, tag: &[u8], entry: TagEntry) -> Result<(), AllocError>
        ensures ok { OnOk result ((t : List ℕ) → tag_entry t self.new
            ≡ (if bytes_eq tag.now t then Some entry else tag_entry t self.old)) }
        ensures err { OnErr result (self.new ≡ self.old) }
    {
        let key = Vec::from_slice(alloc, tag)?;
        self.entries.insert(key, entry)?;
        Ok(())
    }

    /// This is kept for the tag, for which something was.
    fn set(&mut self, tag: &[u8], entry: TagEntry)
        requires { IsSome (tag_entry tag.now self.old) }
        ensures { (t : List ℕ) → tag_entry t self.new
            ≡ (if bytes_eq tag.now t then Some entry else tag_entry t self.old) }
    {
        if let Some(place) = self.entries.get_mut(tag) {
            *place = entry;
        }
    }

    /// Nothing is kept for the tag.
    fn remove(&mut self, tag: &[u8])
        ensures { (t : List ℕ) → tag_entry t self.new
            ≡ (if bytes_eq tag.now t then None else tag_entry t self.old) }
    {
        self.entries.swap_remove(tag);
    }

    /// The tag has a number: the one that it had, or else this one, if there is one. On an error
    /// nothing has changed.
    pub(crate) fn prepare(
        &mut self,
        alloc: Global,
        tag: &[u8],
        number: Option<u64>,
    ) -> Result<(), AllocError>
        ensures kept { (t : List ℕ) (n : ℕ) → tag_number t self.old ≡ Some n
            → tag_number t self.new ≡ Some n }
        ensures ok { OnOk result (IfSome number (λ n. IsSome (tag_number tag.now self.new))) }
        ensures held { (t : List ℕ) → held_by (tag_entry t self.new)
            ≡ held_by (tag_entry t self.old) }
        ensures bytes { (t : List ℕ) → bytes_by (tag_entry t self.new)
            ≡ bytes_by (tag_entry t self.old) }
        ensures only { (t : List ℕ) (e : TagEntry) → tag_entry t self.new ≡ Some e
            → (tag_entry t self.old ≡ Some e) ⊎ ((tag.now ≡ t) × IsSome number) }
        ensures same { IsSome (tag_number tag.now self.old) → self.new ≡ self.old }
        ensures err { OnErr result (self.new ≡ self.old) }
    {
        if let Some(newest) = number
            && self.entry(tag).is_none()
        {
            let entry = TagEntry {
                newest,
                key: 0,
                held: 0,
                bytes: 0,
            };
            self.insert(alloc, tag, entry)?;
        }
        Ok(())
    }

    /// The tag is the one that was put last, if something is kept for it.
    fn seek(&mut self, tag: &[u8])
        ensures { self.new ≡ self.old }
    {
        if let Some(place) = self.entries.get_index_of(tag) {
            self.recent = place;
        }
    }

    /// As `raise`, if the tag is the one that was put last. Whether it is.
    fn raise_recent(
        &mut self,
        tag: &[u8],
        number: Option<u64>,
        key: usize,
        count: u64,
        size: u64,
    ) -> bool
        requires held { held_by (tag_entry tag.now self.old) + count < 2 ^ 64 }
        requires bytes { bytes_by (tag_entry tag.now self.old) + size < 2 ^ 64 }
        ensures raised { result ≡ true → (t : List ℕ) → tag_entry t self.new
            ≡ (if bytes_eq tag.now t
            then option_map (raised number key count size) (tag_entry tag.now self.old)
            else tag_entry t self.old) }
        ensures other { result ≡ false → self.new ≡ self.old }
    {
        let Some((name, entry)) = self.entries.get_index(self.recent) else {
            return false;
        };
        if name.as_slice() != tag {
            return false;
        }
        let raised = entry.raised(number, key, count, size);
        match self.entries.get_index_mut(self.recent) {
            Some(place) => {
                *place = raised;
                true
            }
            None => false,
        }
    }

    /// So many entries more are held of the tag, for which something is kept, and so many bytes;
    /// its newest chunk has the number and lies at the key, if there is one.
    fn raise(&mut self, tag: &[u8], number: Option<u64>, key: usize, count: u64, size: u64)
        requires there { IsSome (tag_entry tag.now self.old) }
        requires held { held_by (tag_entry tag.now self.old) + count < 2 ^ 64 }
        requires bytes { bytes_by (tag_entry tag.now self.old) + size < 2 ^ 64 }
        ensures { (t : List ℕ) → tag_entry t self.new ≡ (if bytes_eq tag.now t
            then option_map (raised number key count size) (tag_entry tag.now self.old)
            else tag_entry t self.old) }
    {
        if let Some(place) = self.entries.get_mut(tag) {
            *place = place.raised(number, key, count, size);
        }
    }

    /// The same. Where the tag is the one that was put last, it is not looked up.
    fn raise_put(&mut self, tag: &[u8], number: Option<u64>, key: usize, count: u64, size: u64)
        requires there { IsSome (tag_entry tag.now self.old) }
        requires held { held_by (tag_entry tag.now self.old) + count < 2 ^ 64 }
        requires bytes { bytes_by (tag_entry tag.now self.old) + size < 2 ^ 64 }
        ensures { (t : List ℕ) → tag_entry t self.new ≡ (if bytes_eq tag.now t
            then option_map (raised number key count size) (tag_entry tag.now self.old)
            else tag_entry t self.old) }
    {
        if self.raise_recent(tag, number, key, count, size) {
            return;
        }
        self.seek(tag);
        if !self.raise_recent(tag, number, key, count, size) {
            self.raise(tag, number, key, count, size);
        }
    }

    /// So many entries more are held of the tag, which was prepared, and so many bytes; its newest
    /// chunk has the number and lies at the key, if there is one.
    pub(crate) fn put(&mut self, tag: &[u8], number: Option<u64>, key: usize, count: u64, size: u64)
        requires new { IfSome number (λ n. 0 < count) }
        requires some { 0 < count → IsSome (tag_entry tag.now self.old) }
        requires none { count ≤ 0 → size ≤ 0 }
        requires held { held_by (tag_entry tag.now self.old) + count < 2 ^ 64 }
        requires bytes { bytes_by (tag_entry tag.now self.old) + size < 2 ^ 64 }
        ensures some { IfSome number (λ n. (t : List ℕ) → tag_number t self.new
            ≡ (if bytes_eq tag.now t then Some n else tag_number t self.old)) }
        ensures none { IfNone number ((t : List ℕ) → tag_number t self.new
            ≡ tag_number t self.old) }
        ensures held { (t : List ℕ) → held_by (tag_entry t self.new)
            ≡ held_by (tag_entry t self.old) + (if bytes_eq tag.now t then count else 0) }
        ensures bytes { (t : List ℕ) → bytes_by (tag_entry t self.new)
            ≡ bytes_by (tag_entry t self.old) + (if bytes_eq tag.now t then size else 0) }
        ensures each { (t : List ℕ) (e : TagEntry) → tag_entry t self.new ≡ Some e
            → ((d : TagEntry) × (tag_entry t self.old ≡ Some d) × (d.held ≤ e.held))
            × (bytes_eq tag.now t ≡ true → count ≤ e.held) }
    {
        if count > 0 {
            self.raise_put(tag, number, key, count, size);
        }
    }

    /// So many entries less are held of the tag, and so many bytes.
    pub(crate) fn take(&mut self, tag: &[u8], count: u64, size: u64)
        requires held { count ≤ held_by (tag_entry tag.now self.old) }
        requires bytes { size ≤ bytes_by (tag_entry tag.now self.old) }
        requires all { held_by (tag_entry tag.now self.old) ≡ count
            → bytes_by (tag_entry tag.now self.old) ≡ size }
        ensures number { (t : List ℕ) → IsSome (tag_entry t self.new)
            → tag_number t self.new ≡ tag_number t self.old }
        ensures held { (t : List ℕ) → held_by (tag_entry t self.new)
            ≡ held_by (tag_entry t self.old) - (if bytes_eq tag.now t then count else 0) }
        ensures bytes { (t : List ℕ) → bytes_by (tag_entry t self.new)
            ≡ bytes_by (tag_entry t self.old) - (if bytes_eq tag.now t then size else 0) }
        ensures some { AreSome self.old → AreSome self.new }
    {
        let Some(entry) = self.entry(tag) else {
            return;
        };
        if entry.held == count {
            self.remove(tag);
            return;
        }
        let left = TagEntry {
            newest: entry.newest,
            key: entry.key,
            held: entry.held - count,
            bytes: entry.bytes - size,
        };
        self.set(tag, left);
    }

    /// What is held of each tag, and that no tag stands twice.
    pub(crate) fn listed(&self, alloc: Global) -> Result<TagList, AllocError>
        ensures list { IfOk result (λ list. list ≡ listed self.now) }
        ensures once { IfOk result (λ list. IsDistinct bytes_eq (map (λ e. e.0) self.now)) }
    {
        let mut list = TagList::new(alloc);
        for place in 0..self.entries.len() {
            if let Some((tag, entry)) = self.entries.get_index(place) {
                list.push(tag, entry.held, entry.bytes)?;
            }
        }
        Ok(list)
    }
}

//! The order in which requests were entered, for contracts alone: it takes no memory when it runs.
//! What is kept says which slots stand in it, and how those of one connection do (`AreKept`). Of
//! two connections no call tells whose request was first, so no code keeps that.

ghost use Rattle.std.specs.Prelude.{◌≡◌, ◌==◌, ℕ, List, [], ◌∷◌, ◌++◌, filter, not};
ghost use base.Fml.{ftrue};

use std::marker::{Model, PhantomData};

/// Slots that were taken one after the other, none of which is kept.
#[derive(Drop)]
pub(crate) struct SlotOrder {
    marker: PhantomData<()>,
    pub ghost list: { List ℕ },
}

impl Model for SlotOrder {
    ghost also_owns = { λ _. ftrue };
}

// There is nothing of it at run time, so a book may go to another thread.
unsafe impl Send for SlotOrder {}

impl SlotOrder {
    /// No slot was taken yet.
    pub(crate) fn none() -> SlotOrder
        ensures { result.list ≡ [] }
    {
        SlotOrder {
            marker: PhantomData,
        }
    }

    /// A slot is taken behind those before.
    pub(crate) fn and(&self, slot: &usize) -> SlotOrder
        ensures { result.list ≡ self.now.list ++ slot.now ∷ [] }
    {
        let _ = self;
        let _ = slot;
        SlotOrder {
            marker: PhantomData,
        }
    }

    /// A slot is given back.
    pub(crate) fn without(&self, slot: &usize) -> SlotOrder
        ensures { result.list ≡ filter (λ k. not (slot.now == k)) self.now.list }
    {
        let _ = self;
        let _ = slot;
        SlotOrder {
            marker: PhantomData,
        }
    }
}

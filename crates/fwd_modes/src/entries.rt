//! The entries of a request one by one.

ghost use Rattle.std.specs.Prelude.{◌≡◌};
ghost use Rattle.std.proofs.Props.{props};
ghost use Rattle.fwd_modes.specs.Entries.{AreCut};

/// The entries of a request one by one, each as it is kept: `92`, its time, its fields.
#[derive(Clone, Copy)]
pub struct Entries<'a> {
    bytes: &'a [u8],
    ends: &'a [u32],
    place: u32,
    ghost cut: { AreCut place ends.now bytes.now } by { Prim.hlevel props },
}

impl<'a> Entries<'a> {
    ghost use Rattle.fwd_modes.specs.Entries.{AreCut, cut_at};
    ghost use Rattle.fwd_modes.specs.Readings.{entries_left};

    /// The entries of which these are the ends.
    pub(crate) fn new(bytes: &'a [u8], ends: &'a [u32]) -> Self
        requires { AreCut 0 ends.now bytes.now }
        ensures { entries_left result ≡ cut_at 0 ends.now bytes.now }
    {
        Entries {
            bytes,
            ends,
            place: 0,
        }
    }
}

impl<'a> Iterator for Entries<'a> {
    type Item = &'a [u8];

    ghost use Rattle.std.specs.Iterator.{YieldsFirstBy, item_count};
    ghost use Rattle.fwd_modes.specs.Readings.{entries_left};

    ghost next_gives = { YieldsFirstBy (λ e. e.now) entries_left };

    ghost remaining = { item_count entries_left };

    fn next(&mut self) -> Option<&'a [u8]> {
        let (end, ends) = self.ends.split_first()?;
        let (entry, rest) = self.bytes.split_at((*end - self.place) as usize);
        *self = Entries {
            bytes: rest,
            ends,
            place: *end,
        };
        Some(entry)
    }
}

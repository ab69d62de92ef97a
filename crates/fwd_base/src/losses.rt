/// What is known of the losses of a chunk, or of a server since it last settled one.
#[derive(Clone, Copy)]
pub struct Losses {
    /// How many, where `Losses::MOST` stands for every greater count.
    pub count: u8,
    /// The moment of the last one, in milliseconds.
    pub last: u64,
}

impl Losses {
    ghost use Rattle.std.specs.Prelude.{◌≡◌};
    ghost use Rattle.fwd_base.specs.Tallies.{tally_more};

    /// The greatest count that is told from the next one: a wait that doubled so often is past
    /// every longest wait.
    const MOST: u8 = 65;

    /// The losses with one more, at a moment in milliseconds.
    pub fn more(losses: Option<Losses>, moment: u64) -> Losses
        ensures { result ≡ tally_more losses moment }
    {
        let before = losses.map_or(0, |losses| losses.count);
        Losses {
            count: before.saturating_add(1).min(Losses::MOST),
            last: moment,
        }
    }
}

//! The page of an output to which nothing happens any more.

ghost use Rattle.std.specs.Prelude.{◌≡◌, Some};
ghost use Rattle.fwd_history.specs.Histories.{Comes};
ghost use Rattle.fwd_model.specs.Outputs.{LiveOutput};
ghost use Rattle.fwd_run.specs.Runs.{output_at};

use crate::output_page::OutputPage;
use crate::run_event::{ReachedHistory, RunPage};
use crate::step::{Is, Step};
use fwd_history::Run;
use std::marker::Model;

/// The page of an output to which nothing happens any more.
#[derive(Drop)]
pub struct EndedPage<J: Run> {
    page: RunPage<J>,
    output: u16,
}

impl<J: Run> Model for EndedPage<J> {
    ghost use Rattle.std.specs.Prelude.{◌≡◌};
    ghost use Rattle.fwd_model.specs.Names.{Output};
    ghost use Rattle.fwd_run.specs.Pages.{EndedOutput};
    ghost use Rattle.fwd_run.specs.Runs.{key_of};

    ghost Value = { EndedOutput };

    ghost view = { λ e. record { output = e.output; past = e.page.1 } };

    ghost invariant = { λ e. e.page.0 ≡ key_of (Output e.output) };
}

impl<J: Run> OutputPage<J> {
    /// Nothing happens to the output any more.
    pub fn ends(self) -> EndedPage<J>
        ensures number { result.output ≡ self.output }
        ensures is { output_at result.past self.output ≡ self.is }
    {
        let OutputPage { page, output } = self;
        EndedPage { page, output }
    }
}

impl<J: Run> EndedPage<J> {
    /// The history as far as it is known here.
    pub fn reached(&self) -> ReachedHistory<J>
        ensures { result ≡ self.now.past }
    {
        self.page.reached()
    }

    /// Behind any history that was reached since, the output is what it is behind the one that is
    /// known here: nothing happened to it.
    pub fn stays(self, reached: &ReachedHistory<J>)
        requires { Comes self.past reached.now }
        ensures { (p : LiveOutput) → output_at self.past self.output ≡ Some p
            → output_at reached.now self.output ≡ Some p }
    {
        let EndedPage { page, output } = self;
        let mut page = page;
        let step = Step::Known { output };
        page.add_after::<Step<'_>, Is>(reached, &step);
    }
}

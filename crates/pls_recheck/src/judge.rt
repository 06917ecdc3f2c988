//! Who judges views.

ghost use Rattle.std.specs.Prelude.{◌≡◌, ℕ, IfOk};
ghost use Rattle.pls_configuration.specs.declared.verdict.Verdict.{Verdict};
ghost use Rattle.pls_streams.specs.Steps.{up_by};
ghost use Rattle.pls_labels.specs.Seen.{Seen};

use pls_configuration::Verdict;
use pls_labels::View;
use pls_streams::{NoMemory, Steps};
use std::alloc::Global;

/// A judge of views, who counts how often it was asked.
pub trait Judge {
    // The verdict on a view.
    ghost judge: { Self → Seen → Verdict };

    // How often it was asked.
    ghost spent: { Self → ℕ };

    // What else stays while it judges.
    ghost over: { Self → ℕ };

    /// The verdict on a view. Whatever it answers, it judges as before, and its count and the steps
    /// rise by one. The one error is want of memory.
    fn verify(
        &mut self,
        alloc: Global,
        view: &View<'_>,
        steps: &mut Steps,
    ) -> Result<Verdict, NoMemory>
        ensures verdict { IfOk result (λ verdict. verdict ≡ judge self.old view.now) }
        ensures judge { judge self.new ≡ judge self.old }
        ensures spent { spent self.new ≡ up_by 1 (spent self.old) }
        ensures over { over self.new ≡ over self.old }
        ensures one_step { steps.new ≡ up_by 1 steps.old };
}

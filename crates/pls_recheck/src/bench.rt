//! Where questions to checkers are answered and counted.

ghost use Rattle.std.specs.Prelude.{◌≡◌, ℕ, IfOk};
ghost use Rattle.pls_streams.specs.Steps.{up_by};

use pls_configuration::Verdict;
use pls_labels::View;
use pls_scheme::Checker;
use pls_streams::{NoMemory, Steps};
use std::alloc::Global;

/// A bench answers for any checker, and counts how often it was asked.
pub trait Bench {
    // How often it was asked.
    ghost asked: { Self → ℕ };

    /// The checker's verdict on a view. Whatever it answers, the count and the steps rise by one.
    /// The one error is want of memory.
    fn ask<K: Checker>(
        &mut self,
        alloc: Global,
        checker: &K,
        view: &View<'_>,
        steps: &mut Steps,
    ) -> Result<Verdict, NoMemory>
        ensures verdict { IfOk result (λ verdict. verdict ≡ K.judge checker.now view.now) }
        ensures asked { asked self.new ≡ up_by 1 (asked self.old) }
        ensures one_step { steps.new ≡ up_by 1 steps.old };
}

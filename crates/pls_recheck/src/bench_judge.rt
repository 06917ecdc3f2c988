//! A checker as a judge whose questions a bench counts.

ghost use Rattle.std.specs.Prelude.{◌≡◌};

use crate::bench::Bench;
use crate::judge::Judge;
use pls_configuration::Verdict;
use pls_labels::View;
use pls_scheme::Checker;
use pls_streams::{NoMemory, Steps};
use std::alloc::Global;

/// A judge that judges as a checker does, by asking a bench. Its count is the bench's; where it
/// ends, the bench keeps the number.
pub struct BenchJudge<'b, K, B> {
    /// The bench that is asked, lent.
    pub bench: &'b mut B,
    /// The checker that it is asked about.
    pub checker: K,
}

impl<'b, K: Drop, B> Drop for BenchJudge<'b, K, B> {
    fn drop(self)
        ensures { self.exit.0.now ≡ self.entry.bench.now }
    {
        let BenchJudge {
            bench: _,
            checker: _,
        } = self;
    }
}

impl<'b, K: Checker, B: Bench> BenchJudge<'b, K, B> {
    /// A judge of this checker and bench. It takes no memory.
    pub fn new(checker: K, bench: &'b mut B) -> BenchJudge<'b, K, B>
        ensures bench { result.bench.now ≡ bench.old }
        ensures ghost_name { result.bench.ghost_name ≡ bench.entry.ghost_name }
        ensures checker { result.checker ≡ checker }
    {
        BenchJudge { bench, checker }
    }
}

impl<'b, K: Checker, B: Bench> Judge for BenchJudge<'b, K, B> {
    ghost judge = { λ counted. K.judge counted.checker };

    ghost spent = { λ counted. B.asked counted.bench.now };

    ghost over = { λ counted. counted.bench.ghost_name };

    fn verify(
        &mut self,
        alloc: Global,
        view: &View<'_>,
        steps: &mut Steps,
    ) -> Result<Verdict, NoMemory> {
        self.bench.ask(alloc, &self.checker, view, steps)
    }
}

//! Who answers for the nodes that edits touch.

use super::input::input_of;
use super::rows::{ROOM, end_with};
use pls_app::{Bench, run};
use pls_configuration::Verdict;
use pls_labels::View;
use pls_scheme::Checker;
use pls_streams::{MemSink, NoMemory, Steps, SureSource};
use std::alloc::Global;
use std::process::Abort;

// A star of which four nodes are judged, and then four, one and two that were touched.
const EDITS: &str = "star | star-colours \
    | edits; label 1 1 80; round; state 2 - 0 7; round; unlink 1 4; round";

// How the rounds end where all questions are answered.
const ANSWERED: &str = "1\nnode 1 accept\nnode 2 accept\nnode 3 accept\nnode 4 accept\n\
    round 0 checked 4 connected yes rejecting 0\n\
    node 1 reject 1 3\nnode 2 reject 1 3\nnode 3 reject 1 3\nnode 4 reject 1 3\n\
    round 1 checked 4 connected yes rejecting 4\n\
    node 1 reject 1 3\nnode 2 reject 1 3\nnode 3 reject 1 3\nnode 4 reject 1 3\n\
    round 2 checked 1 connected yes rejecting 4\n\
    node 1 reject 1 3\nnode 2 reject 1 3\nnode 3 reject 1 3\nnode 4 accept\n\
    round 3 checked 2 connected no rejecting 3\n";

// A bench that answers one question with want of memory, and all others by the checker.
#[derive(Drop)]
struct Refusing {
    questions: Steps,
    refuses: u64,
}

impl Bench for Refusing {
    ghost asked = { λ bench. bench.questions };

    fn ask<K: Checker>(
        &mut self,
        alloc: Global,
        checker: &K,
        view: &View<'_>,
        steps: &mut Steps,
    ) -> Result<Verdict, NoMemory> {
        self.questions.tick();
        if self.questions.number() == self.refuses {
            steps.tick();
            return Err(NoMemory);
        }
        checker.verify(alloc, view, steps)
    }
}

// `refuses` is the number of the question that the bench answers with want of memory.
fn assert_star_end(rt: &impl Abort, alloc: Global, refuses: u64, due: &str) {
    let mut source = SureSource::new(input_of(rt, alloc, EDITS).into_bytes());
    let mut sink = MemSink::new(alloc, ROOM, ROOM, Vec::new(alloc)).expect(rt, "memory");
    let questions = Steps::new();
    let mut bench = Refusing { questions, refuses };
    let words = ["recheck", "bipartite"];
    let status = run(alloc, &words, &mut source, &mut sink, &mut bench);
    let end = end_with(rt, alloc, status, sink.bytes());
    assert!(rt; end.as_str() == due, "question {refuses}\nends with {end}");
}

#[test]
fn each_verdict_is_that_of_the_bench(rt: HostRuntime) {
    for refuses in 1..12 {
        assert_star_end(&rt, rt.alloc(), refuses, "6\n");
    }
    // There is no twelfth question: all are answered, as where the program asks.
    assert_star_end(&rt, rt.alloc(), 12, ANSWERED);
}

//! Runs whose reads and writes are of one byte each, one of which fails, and inputs cut off.

use super::input::input_of;
use super::rows::assert_row;
use pls_app::{Tally, run};
use pls_streams::{MemSink, MemSource, Status};
use std::alloc::Global;
use std::process::Abort;

// Two nodes with their colours, 93 bytes, and what asks for them to be judged.
const WHOLE: &str = "network\nnode 1 - 0 0\nport 2 1\nnode 2 - 0 0\nport 1 1\nend\n\
    labels\nlabel 1 1 00\nlabel 2 1 80\nend\n";

const ASKED: (&[&str], &str) = (&["verify", "bipartite"], "pair | colours");

// What is told of them, 40 bytes.
const ACCEPTED: &str = "node 1 accept\nnode 2 accept\nrejecting 0\n";

// A run and a watch whose nodes have heard nothing.
const PLAYED: (&[&str], &str) = (&["simulate", "bipartite"], "pair | colours | schedule");

const WATCHED: (&[&str], &str) = (&["watch", "tree"], "pair | colours | watch; look");

// What is told of them.
const WAITING: &str = "node 1 waiting 0\nnode 2 waiting 0\nrejecting 0 waiting 2\n";

const UNHEARD: &str = "node 1 waiting 0\nnode 2 waiting 0\nlook 1 rejecting 0 waiting 2 stale 0\n";

// Words and their input, the numbers of the read and the write that fail, or 0, and how the run
// ends.
const OTHERS: &[((&[&str], &str), [u64; 2], (Status, &str))] = &[
    (PLAYED, [0, 0], (Status::No, WAITING)),
    (PLAYED, [3, 0], (Status::ReadFault, "")),
    (
        PLAYED,
        [0, 20],
        (Status::WriteFault, "node 1 waiting 0\nno"),
    ),
    (WATCHED, [0, 0], (Status::No, UNHEARD)),
    (WATCHED, [7, 0], (Status::ReadFault, "")),
    (WATCHED, [0, 18], (Status::WriteFault, "node 1 waiting 0\n")),
    // A labels part, of which two bytes are written.
    (
        (&["mark", "bipartite"], "pair"),
        [0, 3],
        (Status::WriteFault, "la"),
    ),
    // No input is read, so that no read fails.
    (
        (&["trial", "1:7"], "+ "),
        [1, 6],
        (Status::WriteFault, "trial"),
    ),
];

// `read` and `write` are the numbers of the calls that fail.
fn assert_end(
    rt: &impl Abort,
    alloc: Global,
    (words, input): (&[&str], &str),
    [read, write]: [u64; 2],
    (status, text): (Status, &str),
) {
    let bytes = input_of(rt, alloc, input).into_bytes();
    let reads = vec![in alloc; read].expect(rt, "memory");
    let writes = vec![in alloc; write].expect(rt, "memory");
    let mut source = MemSource::new(bytes, 1, reads);
    let mut sink = MemSink::new(alloc, 1000, 1, writes).expect(rt, "memory");
    let end = run(alloc, words, &mut source, &mut sink, &mut Tally::new());
    assert!(rt;
        end == status && sink.bytes() == text.as_bytes(),
        "{input} with faults at {read} or {write}"
    );
}

#[test]
fn a_failed_read_leaves_nothing_and_a_failed_write_a_front(rt: HostRuntime) {
    for read in 1..95 {
        let due = (Status::ReadFault, "");
        assert_end(&rt, rt.alloc(), ASKED, [read, 0], due);
    }
    for write in 1..41 {
        let front = ACCEPTED.get(..write - 1).expect(&rt, "a front");
        let due = (Status::WriteFault, front);
        assert_end(&rt, rt.alloc(), ASKED, [0, write as u64], due);
    }
    // No read is asked for behind the one that finds the end, and no write behind the last byte.
    let due = (Status::Done, ACCEPTED);
    assert_end(&rt, rt.alloc(), ASKED, [95, 41], due);
    for (asked, failing, due) in OTHERS {
        assert_end(&rt, rt.alloc(), *asked, *failing, *due);
    }
}

#[test]
fn an_input_cut_off_is_refused_at_its_last_line(rt: HostRuntime) {
    let mut line = 1_u64;
    for (count, letter) in WHOLE.chars().enumerate() {
        let front = WHOLE.get(..count).expect(&rt, "a front");
        assert_cut_off(&rt, rt.alloc(), front, line);
        if letter == '\n' {
            line = line.saturating_add(1);
        }
    }
}

// The input ends behind `front`, and is refused at `line`.
fn assert_cut_off(rt: &impl Abort, alloc: Global, front: &str, line: u64) {
    let row = format!(in alloc; "3 verify bipartite < + {front} > refused form at {line}");
    assert_row(rt, alloc, row.expect(rt, "memory").as_str());
}

//! How the rows of a table are run.
//!
//! A row is the number of a status, the words of a run, its input behind `<` if it has one, and its
//! text behind `>`, with a slash between two lines and `...` for what may be any text. Lines that
//! begin with `#` say what the rows below them show.
//!
//! Want of memory ends a test at once, so that no helper has an error to hand on.

use super::input::input_of;
use pls_app::{Tally, run};
use pls_streams::{MemSink, Status, SureSource};
use std::alloc::Global;
use std::process::Abort;

/// The room for the text of a run in memory, in bytes: more than that of any row.
pub(super) const ROOM: usize = 4_194_304;

/// Runs each row of some tables, and asserts its status and its text.
pub(super) fn assert_rows(rt: &impl Abort, alloc: Global, tables: &[&str]) {
    for table in tables {
        for row in table.split('\n') {
            if !row.is_empty() && !row.starts_with('#') {
                assert_row(rt, alloc, row);
            }
        }
    }
}

/// Runs a row, and asserts its status and its text.
pub(super) fn assert_row(rt: &impl Abort, alloc: Global, row: &str) {
    let (front, text) = row.split_once(" > ").unwrap_or((row, ""));
    let (asked, notation) = front.split_once(" < ").unwrap_or((front, "+ "));
    let (status, words) = asked.split_once(' ').unwrap_or((asked, ""));
    let input = input_of(rt, alloc, notation);
    let end = end_of(rt, alloc, words, input.as_str());
    assert!(rt;
        is_end(rt, alloc, end.as_str(), status, text),
        "{row}\nends with {end}"
    );
}

/// How the run of these words on this input ends: the number of its status, and in the lines below
/// it its text.
pub(super) fn end_of(rt: &impl Abort, alloc: Global, words: &str, input: &str) -> String {
    let words: Vec<&str> = words.split_whitespace().collect(alloc).expect(rt, "memory");
    end_of_run(rt, alloc, &words, input)
}

/// The same of words that may hold spaces.
pub(super) fn end_of_run(rt: &impl Abort, alloc: Global, words: &[&str], input: &str) -> String {
    let mut source = SureSource::new(input.as_bytes().to_vec(alloc).expect(rt, "memory"));
    let mut sink = MemSink::new(alloc, ROOM, ROOM, Vec::new(alloc)).expect(rt, "memory");
    let status = run(alloc, words, &mut source, &mut sink, &mut Tally::new());
    end_with(rt, alloc, status, sink.bytes())
}

/// The same of a run with this status that wrote these bytes.
pub(super) fn end_with(rt: &impl Abort, alloc: Global, status: Status, bytes: &[u8]) -> String {
    let text = String::from_utf8_lossy(alloc, bytes).expect(rt, "memory");
    format!(in alloc; "{}\n{text}", status.code()).expect(rt, "memory")
}

// Whether `end` has this status and this text, where ` / ` separates lines.
fn is_end(rt: &impl Abort, alloc: Global, end: &str, status: &str, text: &str) -> bool {
    let lines = text.replace(alloc, " / ", "\n").expect(rt, "memory");
    let due = format!(in alloc; "{status}\n{lines}\n").expect(rt, "memory");
    is_of_form(end, due.as_str())
}

// `...` in `form` stands for any text.
fn is_of_form(text: &str, form: &str) -> bool {
    match form.split_once("...") {
        Some((front, rest)) => text.starts_with(front) && text.ends_with(rest),
        None => text == form,
    }
}

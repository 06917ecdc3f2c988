//! How the rows of a table write the input of a run.
//!
//! An input is its parts, with a bar between two of them; some have names. A part is its lines but
//! the last, which is `end`: `labels; label 1 1 00; label 2 1 80`. Behind `=` stand lines alone,
//! behind `+` a text that ends without a line feed, and behind `as` the words of a run on the parts
//! in front, whose text is the part. `{9 of ; port #2# 1}` stands for nine lines, the first of them
//! `port 2 1` and the last `port 10 1`.

use super::named::NAMED;
use super::rows::end_of;
use std::alloc::{AllocError, Global};
use std::process::Abort;

/// The text of an input.
pub(super) fn input_of(rt: &impl Abort, alloc: Global, notation: &str) -> String {
    let mut input = String::new(alloc);
    for part in notation.split(" | ") {
        write_part(rt, alloc, &mut input, part_text(part));
    }
    input
}

// The text that a name stands for; any other part stays as it is.
fn part_text(part: &str) -> &str {
    for line in NAMED.split('\n') {
        if let Some((name, named)) = line.split_once(" = ") {
            if name == part {
                return named;
            }
        }
    }
    part
}

fn write_part(rt: &impl Abort, alloc: Global, input: &mut String, part: &str) {
    let (kind, rest) = part.split_once(' ').unwrap_or((part, ""));
    match kind {
        "as" => write_end(rt, alloc, input, rest),
        "+" => write_lines(rt, alloc, input, [rest, ""]),
        "=" => write_lines(rt, alloc, input, [rest, "\n"]),
        _ => write_lines(rt, alloc, input, [part, "\nend\n"]),
    }
}

// Appends what a run on the input so far writes; a failing status is kept, so that no run reads it.
fn write_end(rt: &impl Abort, alloc: Global, input: &mut String, words: &str) {
    let end = end_of(rt, alloc, words, input.as_str());
    let text = end.as_str().strip_prefix("0\n").unwrap_or(end.as_str());
    input.push_str(text).expect(rt, "memory");
}

// `; ` separates the lines, and `last` is put behind the last one.
fn write_lines(rt: &impl Abort, alloc: Global, input: &mut String, [lines, last]: [&str; 2]) {
    let text = lines.replace(alloc, "; ", "\n").expect(rt, "memory");
    write_pieces(input, text.as_str()).expect(rt, "memory");
    input.push_str(last).expect(rt, "memory");
}

// Text in braces is repeated.
fn write_pieces(input: &mut String, text: &str) -> Result<(), AllocError> {
    for (i, piece) in text.split(['{', '}']).enumerate() {
        if i % 2 == 0 {
            input.push_str(piece)?;
        } else {
            write_times(input, piece)?;
        }
    }
    Ok(())
}

// `piece` is a number, ` of ` and what is repeated as often.
fn write_times(input: &mut String, piece: &str) -> Result<(), AllocError> {
    let (count, repeated) = piece.split_once(" of ").unwrap_or((piece, ""));
    for number in 0..count.parse().unwrap_or(0) {
        write_counted(input, repeated, number)?;
    }
    Ok(())
}

// Numbers between two `#` are raised by `number`.
fn write_counted(input: &mut String, repeated: &str, number: u32) -> Result<(), AllocError> {
    for (i, piece) in repeated.split('#').enumerate() {
        if i % 2 == 0 {
            input.push_str(piece)?;
        } else {
            let first: u32 = piece.parse().unwrap_or(0);
            write!(input, "{}", first.saturating_add(number))?;
        }
    }
    Ok(())
}

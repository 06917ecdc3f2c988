//! The watch part of an input.

use super::line_of;
use pls_lines::{Lines, read_whole};
use pls_streams::{Quantity, TextError};
use pls_watch_part::{WatchEvent, WatchLine, WatchText, scan_watch};
use std::alloc::Global;
use std::test::Fail;

// Texts, and the first faulty line, 0 where there is none.
const TEXTS: &[(&str, u64)] = &[
    ("watch\nlook\nend\n", 0),
    (
        "watch\nemit 1 0\narrive 7\nrestart 2\nrelabel 1 1 80\nrelabel 2 0 -\nlook\nend\n",
        0,
    ),
    ("watch\nlook\nlook\nemit 1 0\nlook\nend\n", 0),
    ("watch\nend\n", 2),
    ("watch\nlook\nemit 1 0\nend\n", 4),
    ("watch\nlook\nlooks\nend\n", 3),
    ("watched\nlook\nend\n", 1),
    ("watch \nlook\nend\n", 1),
    ("watch\nemit 1\nlook\nend\n", 2),
    ("watch\nemit 1 4294967296\nlook\nend\n", 2),
    ("watch\nrelabel 1 1 81\nlook\nend\n", 2),
    ("watch\nrelabel 1 1 8\nlook\nend\n", 2),
    ("watch\nrelabel 1 1\nlook\nend\n", 2),
    ("watch\nlabel 1 1 80\nlook\nend\n", 2),
    ("watch\nround\nend\n", 2),
    ("watch\nlook\nend", 3),
    ("watch\nlook\nend\nlook\n", 4),
    ("", 1),
];

#[test]
fn texts_name_the_first_faulty_line(rt: HostRuntime) {
    for (text, line) in TEXTS {
        let read = read_whole::<WatchText<'_>>(text.as_bytes());
        assert!(rt; line_of(&read) == *line, "line {line} of {text}");
    }
}

// A letter for the kind of line, and a number.
fn short(line: &WatchLine) -> (u8, u64) {
    match line {
        WatchLine::Event(WatchEvent::Emit { node, port }) => {
            (
                b'e',
                (*node as u64)
                    .saturating_mul(10)
                    .saturating_add(*port as u64),
            )
        }
        WatchLine::Event(WatchEvent::Arrive(number)) => (b'a', *number as u64),
        WatchLine::Event(WatchEvent::Restart(node)) => (b'r', *node as u64),
        WatchLine::Event(WatchEvent::Relabel { node, bits }) => {
            (
                b'l',
                (*node as u64)
                    .saturating_mul(10)
                    .saturating_add(bits.bits().len() as u64),
            )
        }
        WatchLine::Look => (b'k', 0),
    }
}

// The lines in short, and the counts of the part.
fn read(alloc: Global, text: &str) -> Result<(Vec<(u8, u64)>, [u64; 3]), Fail> {
    let Ok(part) = scan_watch(&mut Lines::new(text.as_bytes())) else {
        return Err(Fail::from("refused"));
    };
    let Ok(lines) = part.list(alloc) else {
        return Err(Fail::from("no list"));
    };
    let mut said = Vec::new(alloc);
    for line in &lines {
        said.push(short(line))?;
    }
    Ok((said, [part.events(), part.looks(), part.bits()]))
}

#[test]
fn lines_are_read_and_counted(rt: HostRuntime) -> Result<(), Fail> {
    let text =
        "watch\nemit 7 3\nlook\nrelabel 2 9 ff80\narrive 1\nrestart 5\nrelabel 3 0 -\nlook\nend\n";
    let (said, counts) = read(rt.alloc(), text)?;
    let due = [
        (b'e', 73),
        (b'k', 0),
        (b'l', 29),
        (b'a', 1),
        (b'r', 5),
        (b'l', 30),
        (b'k', 0),
    ];
    assert!(rt; said.as_slice() == due.as_slice(), "the lines");
    assert!(rt; counts == [7, 2, 9], "the counts");
    Ok(())
}

// Whether `looks` looks are too many for one part.
fn has_too_many_looks(alloc: Global, looks: u32) -> Result<bool, Fail> {
    let mut text = String::from_str(alloc, "watch\n")?;
    for _ in 0..looks {
        text.push_str("look\n")?;
    }
    text.push_str("end\n")?;
    let Ok(part) = scan_watch(&mut Lines::new(text.as_bytes())) else {
        return Err(Fail::from("refused"));
    };
    match part.list(alloc) {
        Ok(_) => Ok(false),
        Err(TextError::Limit(Quantity::Rounds)) => Ok(true),
        Err(_) => Err(Fail::from("refused otherwise")),
    }
}

#[test]
fn looks_have_a_limit(rt: HostRuntime) -> Result<(), Fail> {
    assert!(rt; !has_too_many_looks(rt.alloc(), 128)?, "128 looks");
    assert!(rt; has_too_many_looks(rt.alloc(), 129)?, "129 looks");
    Ok(())
}

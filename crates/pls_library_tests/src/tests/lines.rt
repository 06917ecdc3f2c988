//! Lines of numbers, and an input in two parts with the first faulty line of the whole.

use super::line_of;
use pls_labelfile::LabelsText;
use pls_lines::{
    Both, Count, Lines, bytes_before, keep_list, number_before, one_number, read_list, read_whole,
    two_numbers,
};
use pls_netfile::NetworkText;
use pls_schedule::{Event, ScheduleText, ScheduleWord};
use std::alloc::Global;
use std::test::Fail;

// A network, labels and a schedule.
type Three<'a> = Both<NetworkText<'a>, Both<LabelsText<'a>, ScheduleText<'a>>>;

// Texts, and the number up to 1000 that is read before a blank.
const NUMBERS: &[(&str, Option<u64>)] = &[
    ("0 x", Some(0)),
    ("407 x", Some(407)),
    ("18 ", Some(18)),
    ("407", None),
    ("007 x", None),
    ("00 x", None),
    ("1001 x", None),
    (" x", None),
];

#[test]
fn numbers_are_read_up_to_their_end(rt: HostRuntime) {
    for (text, number) in NUMBERS {
        let read = number_before(text.as_bytes(), b' ', 1000).map(|parts| parts.0);
        assert!(rt; read == *number, "the number of {text}");
    }
}

// Lines of a word and one number up to 9, or of another word and two, and the number that is read,
// or the two as one of two digits.
const LINES: &[(&str, Option<u64>)] = &[
    ("arrive 3\nrest", Some(3)),
    ("arrive 3 \nrest", None),
    ("arrived 3\nrest", None),
    ("emit 3 9\nrest", Some(39)),
    ("emit 3 10\nrest", None),
    ("emit 3\nrest", None),
];

// `None` unless `rest` is left; two numbers are read as one of two digits.
fn read_line(line: &[u8]) -> Option<u64> {
    let (number, rest) = match one_number(line, b"arrive", 9) {
        Some(read) => read,
        None => match two_numbers(line, b"emit", 9) {
            Some((one, two, rest)) => (one.saturating_mul(10).saturating_add(two), rest),
            None => return None,
        },
    };
    if rest == b"rest".as_slice() {
        Some(number)
    } else {
        None
    }
}

#[test]
fn lines_of_a_word_and_numbers(rt: HostRuntime) {
    for (line, number) in LINES {
        assert!(rt; read_line(line.as_bytes()) == *number, "the line {line}");
    }
}

#[test]
fn bytes_up_to_the_end_of_a_line(rt: HostRuntime) {
    let rest = b"rest".as_slice();
    let due = Some((b"abc".as_slice(), rest));
    assert!(rt; bytes_before(b"abc\nrest", 3, b'\n') == due, "three bytes");
    assert!(rt; bytes_before(b"abcd\nrest", 3, b'\n').is_none(), "too many");
    assert!(rt; bytes_before(b"ab", 3, b'\n').is_none(), "no end");
}

// Networks with labels, and the first faulty line, 0 where there is none.
const TWO_PARTS: &[(&str, u64)] = &[
    ("network\nnode 1 - 0 0\nend\nlabels\nend\n", 0),
    ("network\nnode 1 - 0\nend\nlabel\nend\n", 2),
    ("network\nnode 1 - 0 0\nend\nlabel\nend\n", 4),
    ("network\nnode 1 - 0 0\nend\nlabels\nlabel 1\nend\n", 5),
    ("network\nnode 1 - 0 0\nend\nlabels\nend\nlabel 1 0 -\n", 6),
    ("network\nnode 1 - 0 0\nend\nlabels\nend", 5),
    ("network\nnode 1 - 0 0\nend\n", 4),
];

#[test]
fn parts_in_turn_name_the_first_faulty_line(rt: HostRuntime) {
    for (text, line) in TWO_PARTS {
        let read = read_whole::<Both<NetworkText<'_>, LabelsText<'_>>>(text.as_bytes());
        assert!(rt; line_of(&read) == *line, "line {line} of {text}");
    }
}

// Schedules behind a network and labels of six lines, and the first faulty line of the whole.
const THREE_PARTS: &[(&str, u64)] = &[
    ("schedule\nemit 1 0\narrive 0\nrestart 1\nend\n", 0),
    ("schedule\nend\n", 0),
    ("schedule\nemit 1\nend\n", 8),
    ("schedule\nemit 1 0\narrive\nend\n", 9),
    ("schedule\nend\nemit 1 0\n", 9),
    ("schedules\nend\n", 7),
    ("", 7),
];

// Numbers the lines of the whole text, in which a network and labels stand before `schedule`.
fn fault_of(alloc: Global, schedule: &str) -> Result<u64, Fail> {
    let text = format!(in alloc;
        "network\nnode 1 - 0 0\nend\nlabels\nlabel 1 0 -\nend\n{schedule}"
    )?;
    Ok(line_of(&read_whole::<Three<'_>>(text.as_bytes())))
}

#[test]
fn three_parts_name_the_first_faulty_line(rt: HostRuntime) -> Result<(), Fail> {
    for (schedule, line) in THREE_PARTS {
        assert!(rt;
            fault_of(rt.alloc(), schedule)? == *line,
            "line {line} of {schedule}"
        );
    }
    Ok(())
}

#[test]
fn the_events_of_a_schedule(rt: HostRuntime) -> Result<(), Fail> {
    let text = b"schedule\nemit 7 1\narrive 0\nrestart 4294967295\nend\n";
    let part = read_list::<Count<ScheduleWord, Event>>(text)?;
    assert!(rt; part.kept.items == 3, "three events");
    let events = [
        Event::Emit { node: 7, port: 1 },
        Event::Arrive(0),
        Event::Restart(4294967295),
    ];
    assert!(rt;
        part.list(rt.alloc())?.as_slice() == events.as_slice(),
        "the events"
    );
    let kept = keep_list::<Count<ScheduleWord, Event>>(rt.alloc(), &mut Lines::new(text));
    assert!(rt;
        kept.is_some_and(|kept| kept.1.as_slice() == events.as_slice()),
        "the events that are kept"
    );
    assert!(rt;
        part.number_of(0) == 2 && part.number_of(3) == 5,
        "the first line and the last"
    );
    Ok(())
}

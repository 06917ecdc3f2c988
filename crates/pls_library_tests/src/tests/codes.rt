//! Known codes of numbers, and bits that no code stands in front of.

use super::bits::{bits_of, bits_of_both};
use pls_bits::{BitBuf, Delta, Gamma, MAX_CODED, NumCode};
use pls_streams::NoMemory;
use std::alloc::Global;
use std::test::Fail;

fn code_behind<C: NumCode>(alloc: Global, front: &str, number: u64) -> Result<BitBuf, NoMemory> {
    let mut buf = bits_of(alloc, front)?;
    C::write(&mut buf, number.min(MAX_CODED))?;
    Ok(buf)
}

// Whether `number` is written as `code` behind `front` and read back.
fn is_code<C: NumCode>(
    alloc: Global,
    front: &str,
    number: u64,
    code: &str,
) -> Result<bool, NoMemory> {
    let buf = code_behind::<C>(alloc, front, number)?;
    let wanted = bits_of_both(alloc, front, code)?;
    let mut cursor = buf.bits().cursor();
    Ok(
        buf.bits().equal(wanted.bits())
            && C::length(number.min(MAX_CODED)) == code.len() as u64
            && cursor.take(front.len() as u64).is_some()
            && C::read(&mut cursor) == Some(number)
            && cursor.rest().is_empty(),
    )
}

// 2^62 in binary, behind 62 zeros.
const LONG_GAMMA: &str = "00000000000000000000000000000000000000000000000000000000000000\
                          100000000000000000000000000000000000000000000000000000000000000";

// The greatest number that has a gamma code, behind 62 zeros.
const LONGEST_GAMMA: &str = "00000000000000000000000000000000000000000000000000000000000000\
                             111111111111111111111111111111111111111111111111111111111111111";

// 2^63 - 1 behind 63 zeros.
const TOO_LONG_GAMMA: &str = "000000000000000000000000000000000000000000000000000000000000000\
                              1000000000000000000000000000000000000000000000000000000000000000";

// The gamma code of 62, and 62 zeros.
const LONG_DELTA: &str = "00000111111\
                          00000000000000000000000000000000000000000000000000000000000000";

// The gamma code of 62, and 62 ones.
const LONGEST_DELTA: &str = "00000111111\
                             11111111111111111111111111111111111111111111111111111111111111";

// The gamma code of 62, and one digit too few.
const CUT_DELTA: &str = "00000111111\
                         0000000000000000000000000000000000000000000000000000000000000";

// The gamma code of 63, and 63 zeros.
const TOO_LONG_DELTA: &str = "0000001000000\
                              000000000000000000000000000000000000000000000000000000000000000";

// Numbers, their gamma codes, and their delta codes.
const CODES: &[(u64, &str, &str)] = &[
    (0, "1", "1"),
    (1, "010", "0100"),
    (2, "011", "0101"),
    (3, "00100", "01100"),
    (4, "00101", "01101"),
    (5, "00110", "01110"),
    (7, "0001000", "00100000"),
    (9, "0001010", "00100010"),
    (62, "00000111111", "0011011111"),
    (4_611_686_018_427_387_903, LONG_GAMMA, LONG_DELTA),
    (MAX_CODED, LONGEST_GAMMA, LONGEST_DELTA),
];

#[test]
fn known_codes_both_ways(rt: HostRuntime) -> Result<(), Fail> {
    let alloc = rt.alloc();
    for (number, gamma, delta) in CODES {
        for front in ["", "10"] {
            assert!(rt;
                is_code::<Gamma>(alloc, front, *number, gamma)?,
                "gamma of {number}"
            );
            assert!(rt;
                is_code::<Delta>(alloc, front, *number, delta)?,
                "delta of {number}"
            );
        }
    }
    Ok(())
}

// The number read from `text`; the outer `None` where other bits than `left` remain.
fn read_before<C: NumCode>(
    alloc: Global,
    text: &str,
    left: &str,
) -> Result<Option<Option<u64>>, NoMemory> {
    let buf = bits_of(alloc, text)?;
    let rest = bits_of(alloc, left)?;
    let mut cursor = buf.bits().cursor();
    let number = C::read(&mut cursor);
    Ok(cursor.rest().equal(rest.bits()).then_some(number))
}

// Bits, the number whose gamma code stands in front, and what is left.
const GAMMAS: &[(&str, Option<u64>, &str)] = &[
    ("1", Some(0), ""),
    ("1001", Some(0), "001"),
    ("01000", Some(1), "00"),
    ("0010111", Some(4), "11"),
    ("00010100", Some(9), "0"),
    ("", None, ""),
    ("0", None, "0"),
    ("00", None, "00"),
    ("001", None, "001"),
    ("000101", None, "000101"),
    (TOO_LONG_GAMMA, None, TOO_LONG_GAMMA),
];

// The same of delta codes.
const DELTAS: &[(&str, Option<u64>, &str)] = &[
    ("1", Some(0), ""),
    ("1001", Some(0), "001"),
    ("010000", Some(1), "00"),
    ("0110111", Some(4), "11"),
    ("001000100", Some(9), "0"),
    ("", None, ""),
    ("0", None, "0"),
    ("01", None, "01"),
    ("010", None, "010"),
    ("0110", None, "0110"),
    ("0010001", None, "0010001"),
    (CUT_DELTA, None, CUT_DELTA),
    (TOO_LONG_DELTA, None, TOO_LONG_DELTA),
];

#[test]
fn what_is_read_and_what_is_not(rt: HostRuntime) -> Result<(), Fail> {
    for (text, number, left) in GAMMAS {
        assert!(rt;
            read_before::<Gamma>(rt.alloc(), text, left)? == Some(*number),
            "{text}"
        );
    }
    for (text, number, left) in DELTAS {
        assert!(rt;
            read_before::<Delta>(rt.alloc(), text, left)? == Some(*number),
            "{text}"
        );
    }
    Ok(())
}

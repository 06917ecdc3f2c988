//! Streams and decimals.

use pls_streams::{
    Fault, MemSink, MemSource, ReadError, Sink, Source, StdSink, StdSource, read_all, read_decimal,
    write_all, write_decimal,
};
use std::alloc::Global;
use std::io::{self, ErrorKind, Read};
use std::process::Abort;
use std::test::Fail;

// Fails where more than `most` bytes are left.
fn read<S: Source>(alloc: Global, source: &mut S, most: u32) -> Result<Vec<u8>, ReadError> {
    read_all(alloc, source, u64::from(most))
}

fn write<K: Sink>(sink: &mut K, bytes: &[u8]) -> Result<(), Fault> {
    write_all(sink, bytes)
}

// `source` must hold four bytes and fail at its third call.
fn assert_reads<S: Source>(rt: &impl Abort, alloc: Global, source: &mut S) -> Result<(), Fail> {
    assert!(rt; read(alloc, source, 9) == Err(ReadError::Fault), "a fault");
    assert!(rt;
        read(alloc, source, 1) == Err(ReadError::TooLong),
        "too long"
    );
    assert!(rt;
        read(alloc, source, 0)?.is_empty(),
        "all four bytes are gone"
    );
    Ok(())
}

#[test]
fn a_read_fails_in_mid_stream(rt: HostRuntime) -> Result<(), Fail> {
    let alloc = rt.alloc();
    let mut source = MemSource::new(b"abcd".to_vec(alloc)?, 1, vec![in alloc; 3]?);
    assert_reads(&rt, alloc, &mut source)
}

#[test]
fn a_write_fails_in_mid_stream(rt: HostRuntime) -> Result<(), Fail> {
    let alloc = rt.alloc();
    let mut sink = MemSink::new(alloc, 4, 2, vec![in alloc; 2]?)?;
    assert!(rt; write(&mut sink, b"abc").is_err(), "a fault");
    assert!(rt; write(&mut sink, b"de").is_ok(), "all is well");
    assert!(rt;
        write(&mut sink, b"f").is_err(),
        "there is room for four bytes"
    );
    assert!(rt; sink.bytes() == b"abde".as_slice(), "what was written");
    Ok(())
}

// Texts, the greatest number that is allowed, and the number that is read.
const DECIMALS: &[(&str, u64, Option<u64>)] = &[
    ("0", 0, Some(0)),
    ("9", 8, None),
    ("10", 10, Some(10)),
    ("00", 9, None),
    ("+1", 9, None),
    ("", 9, None),
    ("18446744073709551615", u64::MAX, Some(u64::MAX)),
    ("18446744073709551616", u64::MAX, None),
];

fn is_written(number: u64, text: &str) -> bool {
    let mut digits = [0; 20];
    let count = write_decimal(number, &mut digits);
    &digits[..count] == text.as_bytes()
}

#[test]
fn decimals_at_their_edges(rt: HostRuntime) {
    for (text, most, number) in DECIMALS {
        assert!(rt; read_decimal(text.as_bytes(), *most) == *number, "{text}");
    }
    for (number, text) in [
        (0, "0"),
        (9, "9"),
        (10, "10"),
        (u64::MAX, "18446744073709551615"),
    ] {
        assert!(rt; is_written(number, text), "{text}");
    }
}

/// A reader that gives one byte, and fails from then on.
#[derive(Drop)]
struct BreaksOff {
    gave: bool,
}

impl Read for BreaksOff {
    fn read(&mut self, buf: &mut [u8]) -> io::Result<usize> {
        if self.gave || buf.is_empty() {
            return Err(ErrorKind::Other.into());
        }
        self.gave = true;
        buf[0] = b'x';
        Ok(1)
    }
}

#[test]
fn readers_and_writers_of_std(rt: HostRuntime) -> Result<(), Fail> {
    let alloc = rt.alloc();
    let mut whole = StdSource::new(b"hello".as_slice());
    assert!(rt;
        read(alloc, &mut whole, 5)?.as_slice() == b"hello".as_slice(),
        "all"
    );
    let mut broken = StdSource::new(BreaksOff { gave: false });
    assert!(rt;
        read(alloc, &mut broken, 5) == Err(ReadError::Fault),
        "a fault"
    );

    let mut written = [0; 5];
    let mut sink = StdSink::new(written.as_mut_slice());
    assert!(rt; write(&mut sink, b"hel").is_ok(), "there is room");
    assert!(rt; write(&mut sink, b"lo!").is_err(), "the slice is full");
    assert!(rt; written == *b"hello", "what was written");
    Ok(())
}

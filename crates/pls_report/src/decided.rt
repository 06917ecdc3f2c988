//! The line of a node that has decided, put together where there is room for it.

ghost use Rattle.std.specs.Prelude.{◌≡◌, ◌<◌, ◌≤◌, ◌+◌, ◌++◌, ◌∷◌, [], codes, decimal, length, take};
ghost use Rattle.pls_streams.specs.Gathered.{Writes};
ghost use Rattle.pls_sim.specs.declared.outcome.Outcome.TheVariants.{Decided};
ghost use Rattle.pls_report.specs.Report.{outcome_line};
ghost use Rattle.pls_report.specs.inner.Pieces.{outcome_tail};

use pls_configuration::Verdict;
use pls_streams::{Fault, Gathered, Sink, write_decimal};

/// Writes the line of a node that has decided.
pub(crate) fn put_decided<K: Sink>(
    sink: &mut K,
    gathered: &mut Gathered,
    id: u32,
    verdict: Verdict,
) -> Result<(), Fault>
    ensures { Writes gathered.old gathered.new (K.taken sink.old) (K.taken sink.new)
        (K.faults sink.old) (K.faults sink.new) (K.IsSureOf sink.old) (K.IsSureOf sink.new)
        result (outcome_line (id, Decided verdict) ++ 10 ∷ []) }
{
    let mut line = [0; 80];
    let end = line_in(&mut line, id, verdict);
    let count = bytes_at(&mut line, end, b"\n");
    gathered.put_front(sink, &line, count)
}

/// Puts the line of a node that has decided, without its line feed, into the front of some bytes,
/// and answers how long it is.
pub(crate) fn line_in(into: &mut [u8], id: u32, verdict: Verdict) -> usize
    requires { 80 ≤ length into.old }
    ensures within { result < 80 }
    ensures length { length into.new ≡ length into.old }
    ensures line { take result into.new
        ≡ (codes "node " ++ decimal id) ++ outcome_tail (Decided verdict) }
{
    let word = bytes_at(into, 0, b"node ");
    let named = number_at(into, word, id as u64);
    tail_at(into, named, verdict)
}

// Writes the part of the line behind the identity, and returns where it ends.
fn tail_at(into: &mut [u8], at: usize, verdict: Verdict) -> usize
    requires { at + 50 ≤ length into.old }
    ensures length { length into.new ≡ length into.old }
    ensures within { result < at + 50 }
    ensures tail { take result into.new ≡ take at into.old ++ outcome_tail (Decided verdict) }
{
    match verdict {
        Verdict::Accept => bytes_at(into, at, b" accept"),
        Verdict::Reject { leaf, rule } => {
            let word = bytes_at(into, at, b" reject ");
            let part = number_at(into, word, leaf as u64);
            let space = bytes_at(into, part, b" ");
            number_at(into, space, rule as u64)
        }
    }
}

/// Writes a number behind the first `at` bytes, and answers where it ends.
pub(crate) fn number_at(into: &mut [u8], at: usize, number: u64) -> usize
    requires { at + 20 ≤ length into.old }
    ensures length { length into.new ≡ length into.old }
    ensures within { result ≤ at + 20 }
    ensures number { take result into.new ≡ take at into.old ++ decimal number }
{
    if number < 10 {
        into[at] = b'0' + number as u8;
        return at + 1;
    }
    at + put_decimal(number, &mut into[at..])
}

// Writes the digits at the front of `into`, and returns how many there are.
fn put_decimal(number: u64, into: &mut [u8]) -> usize
    requires { 20 ≤ length into.old }
    ensures length { length into.new ≡ length into.old }
    ensures within { result ≤ 20 }
    ensures digits { take result into.new ≡ decimal number }
{
    match into.first_chunk_mut::<20>() {
        Some(room) => write_decimal(number, room),
        None => unreachable!(),
    }
}

// Copies `bytes` to place `at`, and returns where they end.
fn bytes_at(into: &mut [u8], at: usize, bytes: &[u8]) -> usize
    requires { at + length bytes.now ≤ length into.old }
    ensures length { length into.new ≡ length into.old }
    ensures end { result ≡ at + length bytes.now }
    ensures bytes { take (at + length bytes.now) into.new ≡ take at into.old ++ bytes.now }
{
    into[at..at + bytes.len()].copy_from_slice(bytes);
    at + bytes.len()
}

//! Bytes that are written later, with others.

ghost use Rattle.std.specs.Prelude.{◌≡◌, ◌≤◌, ◌++◌, [], decimal, take, if◌then◌else◌, OnErr, OnOk};
ghost use Rattle.pls_streams.specs.Gathered.{Writes};

use crate::decimals::write_decimal;
use crate::streams::Sink;
use crate::writing::{Fault, write_all};
use std::marker::Model;

const ROOM: usize = 4096;

/// Bytes that a sink is still to take, at most 4096, seen as their list. None of its calls takes
/// memory. What waits is lost where it is not flushed.
///
/// `Fault` comes only where the sink's count of faults rose in the call; the sink has then taken a
/// front of the bytes that waited and of those of the call, but not all. A sink that is sure of so
/// many bytes takes all.
#[derive(Drop)]
pub struct Gathered {
    bytes: [u8; ROOM],
    count: usize,
}

impl Model for Gathered {
    ghost use Rattle.std.specs.Prelude.{ℕ, ◌≤◌, List, take};

    ghost Value = { List ℕ };

    ghost view = { λ gathered. take gathered.count gathered.bytes };

    ghost invariant = { λ gathered. gathered.count ≤ 4096 };
}

impl Gathered {
    /// No bytes so far.
    pub fn new() -> Gathered
        ensures { result ≡ [] }
    {
        Gathered {
            bytes: [0; ROOM],
            count: 0,
        }
    }

    // False, and nothing added, where there is no room for all.
    #[inline(always)]
    fn add(&mut self, bytes: &[u8]) -> bool
        ensures { self.new ≡ (if result then self.old ++ bytes.now else self.old) }
    {
        if bytes.len() > ROOM - self.count {
            return false;
        }
        let end = self.count + bytes.len();
        self.bytes[self.count..end].copy_from_slice(bytes);
        self.count = end;
        true
    }

    /// Puts bytes behind those that wait. Where there is no room for them, those that wait are
    /// written first, and bytes for which there is none even so are written at once.
    #[inline(always)]
    pub fn put<K: Sink>(&mut self, sink: &mut K, bytes: &[u8]) -> Result<(), Fault>
        ensures { Writes self.old self.new (K.taken sink.old) (K.taken sink.new)
            (K.faults sink.old) (K.faults sink.new) (K.IsSureOf sink.old) (K.IsSureOf sink.new)
            result bytes.now }
    {
        if self.add(bytes) {
            return Ok(());
        }
        self.flush(sink)?;
        if self.add(bytes) {
            return Ok(());
        }
        write_all(sink, bytes)
    }

    // Copies all `N` bytes, which takes no call; those behind `count` are written over later.
    #[inline(always)]
    fn add_front<const N: usize>(&mut self, bytes: &[u8; N], count: usize) -> bool
        requires { count ≤ N }
        ensures { self.new ≡ (if result then self.old ++ take count bytes.now else self.old) }
    {
        if N > ROOM - self.count {
            return false;
        }
        self.bytes[self.count..self.count + N].copy_from_slice(bytes);
        self.count += count;
        true
    }

    /// Puts the first `count` of some bytes behind those that wait, as `put` does, and sooner where
    /// the bytes are few.
    #[inline(always)]
    pub fn put_front<K: Sink, const N: usize>(
        &mut self,
        sink: &mut K,
        bytes: &[u8; N],
        count: usize,
    ) -> Result<(), Fault>
        requires { count ≤ N }
        ensures { Writes self.old self.new (K.taken sink.old) (K.taken sink.new)
            (K.faults sink.old) (K.faults sink.new) (K.IsSureOf sink.old) (K.IsSureOf sink.new)
            result (take count bytes.now) }
    {
        if self.add_front(bytes, count) {
            return Ok(());
        }
        self.put(sink, &bytes[..count])
    }

    /// Puts a number in decimal behind them, as `put` does.
    pub fn put_number<K: Sink>(&mut self, sink: &mut K, number: u64) -> Result<(), Fault>
        ensures { Writes self.old self.new (K.taken sink.old) (K.taken sink.new)
            (K.faults sink.old) (K.faults sink.new) (K.IsSureOf sink.old) (K.IsSureOf sink.new)
            result (decimal number) }
    {
        let mut digits = [0; 20];
        let count = write_decimal(number, &mut digits);
        self.put_front(sink, &digits, count)
    }

    /// Puts bytes and then a number behind them, as `put` does.
    #[inline(always)]
    pub fn put_numbered<K: Sink>(
        &mut self,
        sink: &mut K,
        bytes: &[u8],
        number: u64,
    ) -> Result<(), Fault>
        ensures { Writes self.old self.new (K.taken sink.old) (K.taken sink.new)
            (K.faults sink.old) (K.faults sink.new) (K.IsSureOf sink.old) (K.IsSureOf sink.new)
            result (bytes.now ++ decimal number) }
    {
        self.put(sink, bytes)?;
        self.put_number(sink, number)
    }

    /// Writes the bytes that wait. Behind a fault the same wait still.
    pub fn flush<K: Sink>(&mut self, sink: &mut K) -> Result<(), Fault>
        ensures writes { Writes self.old self.new (K.taken sink.old) (K.taken sink.new)
            (K.faults sink.old) (K.faults sink.new) (K.IsSureOf sink.old) (K.IsSureOf sink.new)
            result [] }
        ensures none { OnOk result (self.new ≡ []) }
        ensures unchanged { OnErr result (self.new ≡ self.old) }
    {
        write_all(sink, &self.bytes[..self.count])?;
        self.count = 0;
        Ok(())
    }
}

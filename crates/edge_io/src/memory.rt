// Sources and sinks in memory, whose calls fail where a list says so.
ghost use Rattle.std.specs.Prelude.{◌≡◌, ◌↔◌, ◌+◌, ◌<◌, ◌≤◌, [], Some, min, length, take, is_err, IsErr, IsTrue, IfOk, IfSome, OnErr};
ghost use Rattle.std.specs.Io.KnownBytes.{Appends, Consumes};
ghost use Rattle.edge_io.specs.Counts.{is_listed};
ghost use Rattle.edge_io.specs.Faults.{HasCause};
ghost use Rattle.edge_io.specs.Memory.{CountsCall};
ghost use Rattle.edge_io.specs.Told.{StillTold};

use crate::calls::Calls;
use crate::{Failed, Sink, Source};
use std::marker::Model;

/// A source of bytes in memory, whose calls with a number in a list fail.
#[derive(Drop)]
pub struct MemSource {
    bytes: Vec<u8>,
    start: usize,
    calls: Calls,
}

impl Model for MemSource {
    ghost use Rattle.std.specs.Prelude.{◌≤◌, drop, length};
    ghost use Rattle.edge_io.specs.Memory.{InMemory};

    ghost Value = { InMemory };

    ghost view = { λ source. record {
      bytes = drop source.start source.bytes.items;
      calls = source.calls.made;
      fails = source.calls.fails.items;
      faults = source.calls.faults;
    } };

    ghost invariant = { λ source. source.start ≤ length source.bytes.items };
}

impl MemSource {
    /// A source of these bytes. `fails` has the numbers of the calls that fail, from 0.
    pub fn new(bytes: Vec<u8>, fails: Vec<u32>) -> Self
        ensures { result ≡ record { bytes = bytes.items; calls = 0; fails = fails.items; faults = 0 } }
    {
        MemSource {
            bytes,
            start: 0,
            calls: Calls::new(fails),
        }
    }
}

impl Source for MemSource {
    ghost left = { λ source. Some source.bytes };

    ghost faults = { λ source. source.faults };

    /// Moves as many bytes as `out` has room for.
    fn read(&mut self, out: &mut [u8]) -> Result<usize, Failed>
        requires { 0 < length out.old }
        ensures within { IfOk result (λ count. count ≤ length out.new) }
        ensures moved { IfOk result (λ count. Consumes (Some self.old.bytes) (Some self.new.bytes)
            (take count out.new)) }
        ensures end { IfOk result (λ count. IfSome (Some self.old.bytes) (λ bytes. (count ≡ 0) ↔ (bytes ≡ []))) }
        ensures failed { OnErr result (StillTold (Some self.old.bytes) (Some self.new.bytes)) }
        ensures cause { HasCause self.old.faults self.new.faults result }

        ensures listed { is_err result ≡ is_listed self.old.fails self.old.calls }
        ensures counted { CountsCall self.old self.new (is_err result) }
        ensures most { IfOk result (λ count. count ≡ min (length out.old) (length self.old.bytes)) }
    {
        self.calls.count()?;
        let left = &self.bytes[self.start..];
        let count = out.len().min(left.len());
        out[..count].copy_from_slice(&left[..count]);
        self.start += count;
        Ok(count)
    }
}

/// A sink of bytes in memory, whose calls with a number in a list fail, as does a call that finds no memory.
#[derive(Drop)]
pub struct MemSink {
    bytes: Vec<u8>,
    calls: Calls,
}

impl Model for MemSink {
    ghost use Rattle.edge_io.specs.Memory.{InMemory};

    ghost Value = { InMemory };

    ghost view = { λ sink. record {
      bytes = sink.bytes.items;
      calls = sink.calls.made;
      fails = sink.calls.fails.items;
      faults = sink.calls.faults;
    } };
}

impl MemSink {
    /// A sink that has taken nothing. `fails` has the numbers of the calls that fail, from 0.
    pub fn new(fails: Vec<u32>) -> Self
        ensures { result ≡ record { bytes = []; calls = 0; fails = fails.items; faults = 0 } }
    {
        let alloc = *fails.allocator();
        MemSink {
            bytes: Vec::new(alloc),
            calls: Calls::new(fails),
        }
    }

    /// The bytes taken so far.
    pub fn bytes(&self) -> &[u8]
        ensures { result.now ≡ self.now.bytes }
    {
        &self.bytes
    }
}

impl Sink for MemSink {
    ghost taken = { λ sink. Some sink.bytes };

    ghost faults = { λ sink. sink.faults };

    /// Takes all of `piece`.
    fn write(&mut self, piece: &[u8]) -> Result<usize, Failed>
        requires { 0 < length piece.now }
        ensures some { IfOk result (λ count. 0 < count) }
        ensures within { IfOk result (λ count. count ≤ length piece.now) }
        ensures appended { IfOk result
            (λ count. Appends (Some self.old.bytes) (Some self.new.bytes) (take count piece.now)) }
        ensures failed { OnErr result (StillTold (Some self.old.bytes) (Some self.new.bytes)) }
        ensures cause { HasCause self.old.faults self.new.faults result }

        ensures listed { IsTrue (is_listed self.old.fails self.old.calls) → IsErr result }
        ensures counted { CountsCall self.old self.new (is_err result) }
        ensures all { IfOk result (λ count. count ≡ length piece.now) }
    {
        self.calls.count()?;
        if self.bytes.extend_from_slice(piece).is_err() {
            self.calls.count_fault();
            return Err(Failed);
        }
        Ok(piece.len())
    }
}

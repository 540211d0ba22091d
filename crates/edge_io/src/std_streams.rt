// Readers and writers of std, as standard input and standard output, as sources and sinks.
ghost use Rattle.std.specs.Prelude.{◌≡◌};

use crate::{Failed, Sink, Source};
use std::io::{Read, Write};
use std::marker::Model;

/// A reader of std as a source, which tells what the reader tells.
#[derive(Drop)]
pub struct Reading<R: Read> {
    inner: R,
    faults: u64,
}

impl<R: Read> Model for Reading<R> {
    ghost use Rattle.std.specs.Prelude.{ℕ};

    ghost Value = { R × ℕ };

    ghost view = { λ reading. (reading.inner, reading.faults) };
}

impl<R: Read> Reading<R> {
    /// A source over this reader, with no fault so far.
    pub fn new(inner: R) -> Self
        ensures { result ≡ (inner, 0) }
    {
        Reading { inner, faults: 0 }
    }
}

impl<R: Read> Source for Reading<R> {
    ghost left = { λ reading. R.remaining reading.0 };

    ghost faults = { λ reading. reading.1 };

    fn read(&mut self, out: &mut [u8]) -> Result<usize, Failed> {
        match self.inner.read(out) {
            Ok(count) => Ok(count),
            Err(_) => {
                self.faults = self.faults.saturating_add(1);
                Err(Failed)
            }
        }
    }
}

/// A writer of std as a sink, which tells what the writer tells. It flushes nothing, so the writer
/// holds nothing back: standard output itself is one.
#[derive(Drop)]
pub struct Writing<W: Write> {
    inner: W,
    faults: u64,
}

impl<W: Write> Model for Writing<W> {
    ghost use Rattle.std.specs.Prelude.{ℕ};

    ghost Value = { W × ℕ };

    ghost view = { λ writing. (writing.inner, writing.faults) };
}

impl<W: Write> Writing<W> {
    /// A sink over this writer, with no fault so far.
    pub fn new(inner: W) -> Self
        ensures { result ≡ (inner, 0) }
    {
        Writing { inner, faults: 0 }
    }
}

impl<W: Write> Sink for Writing<W> {
    ghost taken = { λ writing. W.contents writing.0 };

    ghost faults = { λ writing. writing.1 };

    fn write(&mut self, piece: &[u8]) -> Result<usize, Failed> {
        match self.inner.write(piece) {
            Ok(count) if count > 0 => Ok(count),
            _ => {
                self.faults = self.faults.saturating_add(1);
                Err(Failed)
            }
        }
    }
}

// Files of the system as key files, and the system's random bytes. They tell no content.
ghost use Rattle.std.specs.Prelude.{◌≡◌, ◌<◌, ◌≤◌, None, length, take, IfOk};
ghost use Rattle.std.specs.Io.KnownBytes.{Consumes, IsAtEnd};

use crate::{Entropy, Failed, FetchError, KeyFiles, MAX_KEY_FILE};
use std::alloc::Global;
use std::fs::File;
use std::io;
use std::io::{ErrorKind, Read};
use std::marker::Model;
use std::rt::Files;

// Where Linux gives random bytes.
const RANDOM_BYTES: &str = "/dev/urandom";

/// The files of the system as key files, opened by their paths through a runtime. Contracts see the
/// count of faults, and nothing of the files.
#[derive(Drop)]
pub struct SystemKeyFiles<R: Files> {
    rt: R,
    faults: u64,
}

impl<R: Files> Model for SystemKeyFiles<R> {
    ghost use Rattle.std.specs.Prelude.{ℕ};

    ghost Value = { ℕ };

    ghost view = { λ files. files.faults };
}

impl<R: Files> SystemKeyFiles<R> {
    /// The files that this runtime opens, with no fault so far.
    pub fn new(rt: R) -> Self
        ensures { result ≡ 0 }
    {
        SystemKeyFiles { rt, faults: 0 }
    }
}

impl<R: Files> KeyFiles for SystemKeyFiles<R> {
    ghost files = { λ _. None };

    ghost faults = { λ count. count };

    ghost calls = { λ _. None };

    ghost failing = { λ _. None };

    /// Answers `Missing` where opening finds no file of this path; every other error is a failure.
    fn fetch(&mut self, alloc: Global, path: &str) -> Result<Vec<u8>, FetchError> {
        match read_key_file(&self.rt, alloc, path) {
            Err(FetchError::Failed) => {
                self.faults = self.faults.saturating_add(1);
                Err(FetchError::Failed)
            }
            answer => answer,
        }
    }
}

// The first bytes of a file; no fault is counted yet.
fn read_key_file<R: Files>(rt: &R, alloc: Global, path: &str) -> Result<Vec<u8>, FetchError>
    ensures { IfOk result (λ bytes. length bytes.items ≤ MAX_KEY_FILE) }
{
    let mut file = match File::open(rt, path) {
        Ok(file) => file,
        Err(error) if error.kind() == ErrorKind::NotFound => return Err(FetchError::Missing),
        Err(_) => return Err(FetchError::Failed),
    };
    let mut bytes = [0; MAX_KEY_FILE];
    match read_front(&mut file, &mut bytes) {
        Ok(len) => Ok(bytes[..len].to_vec(alloc)?),
        Err(_) => Err(FetchError::Failed),
    }
}

// Reads until `out` is full or the file ends, and answers how many bytes came.
fn read_front<F: Read>(file: &mut F, out: &mut [u8]) -> io::Result<usize>
    ensures within { IfOk result (λ len. len ≤ length out.new) }
    ensures moved { IfOk result (λ len. Consumes (F.remaining file.old) (F.remaining file.new) (take len out.new)) }
    ensures end { IfOk result (λ len. len < length out.new → IsAtEnd (F.remaining file.new)) }
{
    let mut len = 0;
    while len < out.len() {
        let count = file.read(&mut out[len..])?;
        if count == 0 {
            return Ok(len);
        }
        len += count;
    }
    Ok(len)
}

/// The system's random bytes, read through a runtime from `/dev/urandom`. Contracts see the count of
/// faults, and nothing of the bytes.
#[derive(Drop)]
pub struct SystemEntropy<R: Files> {
    rt: R,
    faults: u64,
}

impl<R: Files> Model for SystemEntropy<R> {
    ghost use Rattle.std.specs.Prelude.{ℕ};

    ghost Value = { ℕ };

    ghost view = { λ entropy. entropy.faults };
}

impl<R: Files> SystemEntropy<R> {
    /// The random bytes that this runtime reads, with no fault so far.
    pub fn new(rt: R) -> Self
        ensures { result ≡ 0 }
    {
        SystemEntropy { rt, faults: 0 }
    }
}

impl<R: Files> Entropy for SystemEntropy<R> {
    ghost left = { λ _. None };

    ghost faults = { λ count. count };

    ghost calls = { λ _. None };

    ghost failing = { λ _. None };

    fn fill(&mut self, out: &mut [u8; 32]) -> Result<(), Failed> {
        match read_random(&self.rt) {
            Ok(bytes) => {
                *out = bytes;
                Ok(())
            }
            Err(_) => {
                self.faults = self.faults.saturating_add(1);
                Err(Failed)
            }
        }
    }
}

// The next random bytes; no fault is counted yet.
fn read_random<R: Files>(rt: &R) -> io::Result<[u8; 32]> {
    let mut bytes = [0; 32];
    File::open(rt, RANDOM_BYTES)?.read_exact(&mut bytes)?;
    Ok(bytes)
}

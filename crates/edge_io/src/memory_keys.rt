// Key files and entropy in memory, whose calls fail where a list says so.
ghost use Rattle.std.specs.Prelude.{◌≡◌, ◌≤◌, Some, length, take, find, bytes_eq, option_map, string_bytes, is_err, IfOk, IfSome, OnErr, OnOk};
ghost use Rattle.edge_io.specs.Counts.{next_listed, one_more};
ghost use Rattle.edge_io.specs.Entropy.{MovesNext, fill_fails};
ghost use Rattle.edge_io.specs.Faults.{HasCause};
ghost use Rattle.edge_io.specs.KeyFiles.{FetchCounts, FetchGives, fetched, file_at, is_failed, plain_files};
ghost use Rattle.edge_io.specs.Memory.{CountsCall, after_fetch};

use crate::calls::Calls;
use crate::{Entropy, Failed, FetchError, KeyFiles, MAX_KEY_FILE};
use std::alloc::{AllocError, Global};
use std::marker::Model;

/// Key files in memory, whose calls with a number in a list fail.
#[derive(Drop)]
pub struct MemKeyFiles {
    files: Vec<(String, Vec<u8>)>,
    calls: Calls,
}

impl Model for MemKeyFiles {
    ghost use Rattle.edge_io.specs.KeyFiles.{plain_files};
    ghost use Rattle.edge_io.specs.Memory.{FilesInMemory};

    ghost Value = { FilesInMemory };

    ghost view = { λ key_files. record {
      files = plain_files key_files.files.items;
      calls = key_files.calls.made;
      fails = key_files.calls.fails.items;
      faults = key_files.calls.faults;
    } };
}

impl MemKeyFiles {
    /// Files of these paths and bytes; of several of one path the first counts. `fails` has the
    /// numbers of the calls that fail, from 0.
    pub fn new(files: Vec<(String, Vec<u8>)>, fails: Vec<u32>) -> Self
        ensures { result ≡ record { files = plain_files files.items; calls = 0; fails = fails.items; faults = 0 } }
    {
        MemKeyFiles {
            files,
            calls: Calls::new(fails),
        }
    }
}

impl KeyFiles for MemKeyFiles {
    ghost files = { λ key_files. Some key_files.files };

    ghost faults = { λ key_files. key_files.faults };

    ghost calls = { λ key_files. Some key_files.calls };

    ghost failing = { λ key_files. Some key_files.fails };

    /// Fails at the listed calls, and at no other.
    fn fetch(&mut self, alloc: Global, path: &str) -> Result<Vec<u8>, FetchError>
        ensures gives { IfSome (Some self.old.files) (λ files. FetchGives result (fetched path.now files)) }
        ensures short { IfOk result (λ bytes. length bytes.items ≤ MAX_KEY_FILE) }
        ensures told { Some self.new.files ≡ Some self.old.files }
        ensures cause { FetchCounts self.old.faults self.new.faults result }
        ensures listed { IfSome (next_listed (Some self.old.calls) (Some self.old.fails))
            (λ fails. is_failed result ≡ fails) }
        ensures counted { Some self.new.calls ≡ option_map one_more (Some self.old.calls) }
        ensures failing { Some self.new.fails ≡ Some self.old.fails }

        ensures after { self.new ≡ after_fetch self.old (is_failed result) }
    {
        if let Err(Failed) = self.calls.count() {
            return Err(FetchError::Failed);
        }
        match bytes_at(&self.files, path) {
            Some(whole) => Ok(front(alloc, whole)?),
            None => Err(FetchError::Missing),
        }
    }
}

// The bytes of the first of these files that has this path.
#[tactic(auto, using(crate::proofs::KeyFilesLemmas::file_at_plain))]
fn bytes_at<'a>(files: &'a [(String, Vec<u8>)], path: &str) -> Option<&'a Vec<u8>>
    ensures { option_map (λ bytes. bytes.now.items) result ≡ file_at path.now (plain_files files.now) }
{
    let file = find_file(files, path)?;
    Some(&file.1)
}

// The first of these files that has this path.
fn find_file<'a>(files: &'a [(String, Vec<u8>)], path: &str) -> Option<&'a (String, Vec<u8>)>
    ensures { option_map (λ file. file.now) result ≡ find (λ file. bytes_eq (string_bytes file.0) path.now) files.now }
{
    files.iter().find(|file| file.0.as_str() == path)
}

// The bytes of a key file that are fetched.
#[tactic(auto, using(std::proofs::lemmas::List::take_min))]
fn front(alloc: Global, whole: &[u8]) -> Result<Vec<u8>, AllocError>
    ensures first { IfOk result (λ bytes. bytes.items ≡ take MAX_KEY_FILE whole.now) }
    ensures short { IfOk result (λ bytes. length bytes.items ≤ MAX_KEY_FILE) }
{
    whole[..MAX_KEY_FILE.min(whole.len())].to_vec(alloc)
}

/// Entropy in memory, whose calls with a number in a list fail, as does a call that finds fewer than 32 bytes left.
#[derive(Drop)]
pub struct MemEntropy {
    bytes: Vec<u8>,
    start: usize,
    calls: Calls,
}

impl Model for MemEntropy {
    ghost use Rattle.std.specs.Prelude.{◌≤◌, drop, length};
    ghost use Rattle.edge_io.specs.Memory.{InMemory};

    ghost Value = { InMemory };

    ghost view = { λ entropy. record {
      bytes = drop entropy.start entropy.bytes.items;
      calls = entropy.calls.made;
      fails = entropy.calls.fails.items;
      faults = entropy.calls.faults;
    } };

    ghost invariant = { λ entropy. entropy.start ≤ length entropy.bytes.items };
}

impl MemEntropy {
    /// Entropy of these bytes. `fails` has the numbers of the calls that fail, from 0.
    pub fn new(bytes: Vec<u8>, fails: Vec<u32>) -> Self
        ensures { result ≡ record { bytes = bytes.items; calls = 0; fails = fails.items; faults = 0 } }
    {
        MemEntropy {
            bytes,
            start: 0,
            calls: Calls::new(fails),
        }
    }
}

impl Entropy for MemEntropy {
    ghost left = { λ entropy. Some entropy.bytes };

    ghost faults = { λ entropy. entropy.faults };

    ghost calls = { λ entropy. Some entropy.calls };

    ghost failing = { λ entropy. Some entropy.fails };

    /// Fails at the listed calls and where fewer than 32 bytes are left, and at no other.
    fn fill(&mut self, out: &mut [u8; 32]) -> Result<(), Failed>
        ensures moved { OnOk result (IfSome (Some self.old.bytes)
            (λ bytes. MovesNext bytes (Some self.new.bytes) out.new)) }
        ensures failed { OnErr result (Some self.new.bytes ≡ Some self.old.bytes) }
        ensures untouched { OnErr result (out.new ≡ out.old) }
        ensures cause { HasCause self.old.faults self.new.faults result }
        ensures fails { IfSome (fill_fails (Some self.old.bytes)
            (next_listed (Some self.old.calls) (Some self.old.fails)))
            (λ fails. is_err result ≡ fails) }
        ensures counted { Some self.new.calls ≡ option_map one_more (Some self.old.calls) }
        ensures failing { Some self.new.fails ≡ Some self.old.fails }

        ensures after { CountsCall self.old self.new (is_err result) }
    {
        self.calls.count()?;
        let left = &self.bytes[self.start..];
        if left.len() < 32 {
            self.calls.count_fault();
            return Err(Failed);
        }
        out.copy_from_slice(&left[..32]);
        self.start += 32;
        Ok(())
    }
}

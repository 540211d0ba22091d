// The parts that name snapshots, and the names of files.
ghost use Rattle.std.specs.Prelude.{◌≡◌, min, None, IfOk};
ghost use Rattle.std.specs.List.{prefix_len};
ghost use Rattle.dataset_tree.specs.Refusal.{Gives};
ghost use Rattle.dataset_tree.specs.SetName.{is_name_byte};
ghost use Rattle.dataset_tree.specs.ShortNames.{part_fault, part_named, file_fault, file_named, is_file_byte, short_fault_at};

use crate::name::{bad_name, is_name_byte};
use crate::refusal::{NoMemory, Stop};
use std::alloc::Global;
use std::marker::Model;

/// The most bytes in the part that names a snapshot, and in the name of a file.
const MAX_SHORT_LEN: usize = 64;

/// The part of a snapshot's name behind the `@`, 1 to 64 bytes: contracts see its bytes.
#[derive(Debug, Drop)]
pub struct SnapPart {
    bytes: Vec<u8>,
}

impl Model for SnapPart {
    ghost use Rattle.std.specs.Prelude.{◌≡◌, List, ℕ, None};
    ghost use Rattle.dataset_tree.specs.ShortNames.{part_fault};

    ghost Value = { List ℕ };

    ghost view = { λ part. part.bytes.items };

    ghost invariant = { λ part. part_fault part.bytes.items ≡ None };
}

impl SnapPart {
    /// The part that this text spells.
    ///
    /// # Errors
    /// `BadName` with the offset of the first byte that can't stand there, where the text isn't in form.
    pub fn parse(alloc: Global, bytes: &[u8]) -> Result<SnapPart, Stop>
        ensures { Gives result (part_named bytes.now) }
    {
        if let Some(at) = part_fault(bytes) {
            return Err(bad_name(at));
        }
        let bytes = Vec::from_slice(alloc, bytes)?;
        Ok(SnapPart { bytes })
    }

    /// The bytes of the part, which are in form.
    pub fn as_bytes(&self) -> &[u8]
        ensures bytes { result.now ≡ self.now }
        ensures in_form { part_fault result.now ≡ None }
    {
        self.bytes.as_slice()
    }

    /// An equal part.
    pub fn copy(&self) -> Result<SnapPart, NoMemory>
        ensures { IfOk result (λ part. part ≡ self.now) }
    {
        let bytes = self.bytes.clone()?;
        Ok(SnapPart { bytes })
    }
}

/// The name of a file, 1 to 64 bytes: contracts see them.
#[derive(Debug, Drop)]
pub struct FileName {
    bytes: Vec<u8>,
}

impl Model for FileName {
    ghost use Rattle.std.specs.Prelude.{◌≡◌, List, ℕ, None};
    ghost use Rattle.dataset_tree.specs.ShortNames.{file_fault};

    ghost Value = { List ℕ };

    ghost view = { λ name. name.bytes.items };

    ghost invariant = { λ name. file_fault name.bytes.items ≡ None };
}

impl FileName {
    /// The name that this text spells.
    ///
    /// # Errors
    /// `BadName` with the offset of the first byte that can't stand there, where the text isn't in form.
    pub fn parse(alloc: Global, bytes: &[u8]) -> Result<FileName, Stop>
        ensures { Gives result (file_named bytes.now) }
    {
        if let Some(at) = file_fault(bytes) {
            return Err(bad_name(at));
        }
        let bytes = Vec::from_slice(alloc, bytes)?;
        Ok(FileName { bytes })
    }

    /// The bytes of the name, which are in form.
    pub fn as_bytes(&self) -> &[u8]
        ensures bytes { result.now ≡ self.now }
        ensures in_form { file_fault result.now ≡ None }
    {
        self.bytes.as_slice()
    }

    /// An equal name.
    pub fn copy(&self) -> Result<FileName, NoMemory>
        ensures { IfOk result (λ name. name ≡ self.now) }
    {
        let bytes = self.bytes.clone()?;
        Ok(FileName { bytes })
    }
}

/// Where the text isn't the part that names a snapshot.
pub(crate) fn part_fault(text: &[u8]) -> Option<usize>
    ensures { result ≡ part_fault text.now }
{
    short_fault(text, name_bytes(text))
}

/// Where the text isn't the name of a file.
fn file_fault(text: &[u8]) -> Option<usize>
    ensures { result ≡ file_fault text.now }
{
    short_fault(text, file_bytes(text))
}

/// How many bytes from the text's front on are those of names.
fn name_bytes(text: &[u8]) -> usize
    ensures { result ≡ prefix_len is_name_byte text.now }
{
    text.iter().take_while(|byte| is_name_byte(**byte)).count()
}

/// How many bytes from the text's front on are those of files' names.
fn file_bytes(text: &[u8]) -> usize
    ensures { result ≡ prefix_len is_file_byte text.now }
{
    text.iter().take_while(|byte| is_file_byte(**byte)).count()
}

/// Where the text has a fault of which so many bytes from its front on are allowed.
fn short_fault(text: &[u8], allowed: usize) -> Option<usize>
    ensures { result ≡ short_fault_at text.now (min 64 allowed) }
{
    let good = allowed.min(MAX_SHORT_LEN);
    if good > 0 && good == text.len() {
        None
    } else {
        Some(good)
    }
}

fn is_file_byte(byte: u8) -> bool
    ensures { result ≡ is_file_byte byte }
{
    is_name_byte(byte) && byte != b':'
}

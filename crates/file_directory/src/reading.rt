// How the entries of a directory's text are read.
ghost use Rattle.std.specs.Prelude.{◌≡◌, ◌<◌, ◌^◌, true, ◌==◌, is_none, if◌then◌else◌, ℕ, List, Some, None, Err, IfOk, IfSome};
ghost use Rattle.std.specs.List.{AllPairs, list_any};
ghost use Rattle.dataset_tree.specs.Refusal.{Gives};
ghost use Rattle.dataset_tree.specs.ShortNames.{file_fault, file_named};
ghost use Rattle.dataset_tree.specs.declared.refusal.Refusal.TheVariants.{BadDirectory};
ghost use Rattle.dataset_tree.specs.declared.refusal.Stop.TheVariants.{Refused};
ghost use Rattle.file_directory.specs.Entries.{is_taken, stands_before};
ghost use Rattle.file_directory.specs.Form.{objects_of};
ghost use Rattle.file_directory.specs.Reading.{front_size, is_above, is_free, next_entry};

use crate::directory::{DirectoryEntry, stands_before};
use byte_fields::get_u32;
use dataset_tree::{FileName, NoMemory, Refusal, Stop};
use family_log::{Table, TableRow};
use std::alloc::{AllocError, Global};

/// The bytes in front of an entry's name: its object, and the length of the name.
const HEADER_LEN: usize = 5;

/// Where the length of the name stands.
const LENGTH_AT: usize = 4;

/// The first object of a file.
const FIRST_FILE: u32 = 2;

/// The refusal of a directory whose entry at this offset is wrong.
pub(crate) fn bad_directory(at: usize) -> Stop
    ensures { result ≡ Refused (BadDirectory at) }
{
    Stop::Refused(Refusal::BadDirectory { at: at as u64 })
}

/// The bytes of the entry at the text's front, 5 where the text ends before the length of the name.
pub(crate) fn front_size(text: &[u8]) -> usize
    ensures { result ≡ front_size text.now }
{
    match text.get(LENGTH_AT) {
        Some(length) => HEADER_LEN + usize::from(*length),
        None => HEADER_LEN,
    }
}

/// The entry at the text's front, if it can stand behind those before.
pub(crate) fn next_entry(
    alloc: Global,
    table: &Table,
    before: &[DirectoryEntry],
    text: &[u8],
) -> Result<Option<DirectoryEntry>, NoMemory>
    requires { AllPairs (λ earlier later. stands_before earlier.name later.name ≡ true) before.now }
    ensures entry { IfOk result (λ found. found ≡ next_entry (objects_of table.now) before.now text.now) }
    ensures fits { IfOk result (λ found. IfSome found (λ entry. entry.object < 2 ^ 32)) }
{
    if front_size(text) > text.len() {
        return Ok(None);
    }
    let object = get_u32(text, 0);
    let name = &text[HEADER_LEN..front_size(text)];
    if !is_free(table, before, object) || !is_above(before, name) {
        return Ok(None);
    }
    match file_name(alloc, name)? {
        Some(name) => Ok(Some(DirectoryEntry { object, name })),
        None => Ok(None),
    }
}

/// Whether an object isn't the directory's own, is in the table, and is that of no entry before.
fn is_free(table: &Table, before: &[DirectoryEntry], object: u32) -> bool
    ensures { result ≡ is_free (objects_of table.now) before.now object }
{
    object >= FIRST_FILE && has_object(table, object) && !is_taken(before, object)
}

fn has_object(table: &Table, object: u32) -> bool
    ensures { result ≡ objects_of table.now object }
{
    is_in_rows(table.rows.as_slice(), object)
}

fn is_in_rows(rows: &[TableRow], object: u32) -> bool
    ensures { result ≡ list_any (λ row. row.object == object) rows.now }
{
    rows.iter().any(|row| row.object == object)
}

/// Whether an object is that of an entry.
pub(crate) fn is_taken(entries: &[DirectoryEntry], object: u32) -> bool
    ensures { result ≡ is_taken object entries.now }
{
    entries.iter().any(|entry| entry.object == object)
}

/// Whether a name stands above those of the entries before, of which the last has the greatest.
fn is_above(before: &[DirectoryEntry], name: &[u8]) -> bool
    requires { AllPairs (λ earlier later. stands_before earlier.name later.name ≡ true) before.now }
    ensures { result ≡ is_above before.now name.now }
{
    match before.last() {
        Some(last) => stands_before(last.name.as_bytes(), name),
        None => true,
    }
}

/// The file name that these bytes spell, if they are in form.
fn file_name(alloc: Global, bytes: &[u8]) -> Result<Option<FileName>, NoMemory>
    ensures { IfOk result (λ name. name ≡ (if is_none (file_fault bytes.now) then Some bytes.now else None)) }
{
    match FileName::parse(alloc, bytes) {
        Ok(name) => Ok(Some(name)),
        Err(stop) => no_name(stop),
    }
}

/// What stands for a name that wasn't read: none where the bytes aren't in form.
fn no_name(stop: Stop) -> Result<Option<FileName>, NoMemory>
    ensures { (bytes : List ℕ) → Gives {T = List ℕ} (Err stop) (file_named bytes)
        → IfOk result (λ name. name ≡ (if is_none (file_fault bytes) then Some bytes else None)) }
{
    match stop {
        Stop::Refused(_) => Ok(None),
        Stop::NoMemory => Err(AllocError),
    }
}

// Directories: the entries of files.
ghost use Rattle.std.specs.Prelude.{◌≡◌, IfOk, OnOk, OnErr};

use crate::reading::{bad_directory, front_size, is_taken, next_entry};
use byte_fields::put_u32;
use dataset_tree::{FileName, NoMemory, Stop};
use family_log::Table;
use std::alloc::Global;
use std::marker::Model;

/// A file: its object, and its name.
#[derive(Debug, Drop)]
pub struct DirectoryEntry {
    /// The object of the file's bytes, from 2 on.
    pub object: u32,
    pub name: FileName,
}

/// The files of a head or a snapshot, in byte order of their names: contracts see the list of entries.
///
/// Each file has an object of its own in a table of at most 1025, of which the first is the directory. So a
/// directory has at most 1024 entries, and its text, of at most 69 bytes an entry, at most 70656 bytes.
#[derive(Debug, Drop)]
pub struct Directory {
    entries: Vec<DirectoryEntry>,
}

impl Model for Directory {
    ghost use Rattle.std.specs.Prelude.{List};
    ghost use Rattle.file_directory.specs.declared.directory.DirectoryEntry.{DirectoryEntry};
    ghost use Rattle.file_directory.specs.Form.{IsDirectory, any_object};

    ghost Value = { List DirectoryEntry };

    ghost view = { λ directory. directory.entries.items };

    ghost invariant = { λ directory. IsDirectory any_object directory.entries.items };
}

impl Directory {
    ghost use Rattle.dataset_tree.specs.Refusal.{Gives};
    ghost use Rattle.file_directory.specs.Entries.{directory_text, is_taken, object_named, with_entry, without_name};
    ghost use Rattle.file_directory.specs.Form.{IsDirectory, IsNew, any_object, objects_of};
    ghost use Rattle.file_directory.specs.Reading.{directory_answer, read_directory};

    /// The directory that this text is, whose objects stand in this table.
    ///
    /// # Errors
    /// `BadDirectory` with the offset of the first entry that is wrong: it isn't whole, its name isn't that of a
    /// file or doesn't stand above the one before, or its object is below 2, not in the table, or that of an
    /// earlier entry.
    pub fn parse(alloc: Global, text: &[u8], table: &Table) -> Result<Directory, Stop>
        ensures { Gives result (directory_answer (read_directory (objects_of table.now) text.now)) }
    {
        let mut entries = Vec::new(alloc);
        let mut rest = text;
        'reading: while !rest.is_empty() {
            match next_entry(alloc, table, entries.as_slice(), rest)? {
                Some(entry) => {
                    rest = rest.split_at(front_size(rest)).1;
                    entries.push(entry)?;
                }
                None => return Err(bad_directory(text.len() - rest.len())),
            }
        }
        Ok(Directory { entries })
    }

    /// The object of the file with this name.
    pub fn find(&self, name: &FileName) -> Option<u32>
        ensures { result ≡ object_named name.now self.now }
    {
        object_in(self.entries.as_slice(), name.as_bytes())
    }

    /// Whether a file has this object.
    pub fn has_object(&self, object: u32) -> bool
        ensures { result ≡ is_taken object self.now }
    {
        is_taken(self.entries.as_slice(), object)
    }

    /// The entries, in byte order of the names.
    pub fn entries(&self) -> &[DirectoryEntry]
        ensures entries { result.now ≡ self.now }
        ensures in_form { IsDirectory any_object self.now }
    {
        self.entries.as_slice()
    }

    /// The text of the directory: for each entry its object in 4 bytes, the lowest first, the length of its name
    /// in one byte, and the name.
    pub fn text(&self, alloc: Global) -> Result<Vec<u8>, NoMemory>
        ensures { IfOk result (λ text. text.items ≡ directory_text self.now) }
    {
        text_of(alloc, self.entries.as_slice())
    }

    /// Adds a file, whose name and object no other file has.
    ///
    /// # Errors
    /// Where memory runs out. The directory is then as before.
    pub fn insert(&mut self, object: u32, name: &FileName) -> Result<(), NoMemory>
        requires { IsNew any_object self.old (record { object = object; name = name.now }) }
        ensures inserted { OnOk result (self.new ≡ with_entry (record { object = object; name = name.now }) self.old) }
        ensures failed { OnErr result (self.new ≡ self.old) }
    {
        let name = name.copy()?;
        insert_entry(&mut self.entries, DirectoryEntry { object, name })?;
        Ok(())
    }

    /// Takes out the file with this name, if it is there.
    pub fn remove(&mut self, name: &FileName)
        ensures { self.new ≡ without_name name.now self.old }
    {
        remove_name(&mut self.entries, name.as_bytes());
    }
}

ghost use Rattle.std.specs.Prelude.{◌<◌, ◌≤◌, ◌++◌, length, None};
ghost use Rattle.std.specs.List.{All, prefix_len};
ghost use Rattle.dataset_tree.specs.ShortNames.{file_fault};
ghost use Rattle.file_directory.specs.Entries.{directory_text, entry_bytes, has_name, object_named, stands_before, with_entry, without_name};

fn object_in(entries: &[DirectoryEntry], name: &[u8]) -> Option<u32>
    ensures { result ≡ object_named name.now entries.now }
{
    entries
        .iter()
        .find(|entry| entry.name.as_bytes() == name)
        .map(|entry| entry.object)
}

/// Whether a name stands before another in byte order.
pub(crate) fn stands_before(earlier: &[u8], later: &[u8]) -> bool
    ensures { result ≡ stands_before earlier.now later.now }
{
    earlier.cmp(later).is_lt()
}

/// How many entries stand in front of a new one with this name.
fn place_for(entries: &[DirectoryEntry], name: &[u8]) -> usize
    ensures { result ≡ prefix_len (λ entry. stands_before entry.name name.now) entries.now }
{
    entries
        .iter()
        .take_while(|entry| stands_before(entry.name.as_bytes(), name))
        .count()
}

fn insert_entry(entries: &mut Vec<DirectoryEntry>, entry: DirectoryEntry) -> Result<(), NoMemory>
    ensures inserted { OnOk result (entries.new.items ≡ with_entry entry entries.old.items) }
    ensures failed { OnErr result (entries.new.items ≡ entries.old.items) }
{
    let at = place_for(entries.as_slice(), entry.name.as_bytes());
    entries.insert(at, entry)?;
    Ok(())
}

fn remove_name(entries: &mut Vec<DirectoryEntry>, name: &[u8])
    ensures { entries.new.items ≡ without_name name.now entries.old.items }
{
    entries.retain(|entry| entry.name.as_bytes() != name);
}

fn text_of(alloc: Global, entries: &[DirectoryEntry]) -> Result<Vec<u8>, NoMemory>
    ensures { IfOk result (λ text. text.items ≡ directory_text entries.now) }
{
    let mut text = Vec::new(alloc);
    'entries: for entry in entries {
        push_entry(&mut text, entry)?;
    }
    Ok(text)
}

fn push_entry(text: &mut Vec<u8>, entry: &DirectoryEntry) -> Result<(), NoMemory>
    ensures { OnOk result (text.new.items ≡ text.old.items ++ entry_bytes entry.now) }
{
    let mut object = [0; 4];
    put_u32(&mut object, 0, entry.object);
    let name = entry.name.as_bytes();
    text.extend_from_slice(&object)?;
    text.push(name.len() as u8)?;
    text.extend_from_slice(name)?;
    Ok(())
}

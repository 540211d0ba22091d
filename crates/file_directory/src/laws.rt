// Laws of directories. The functions do nothing.
ghost use Rattle.std.specs.Prelude.{◌≡◌, ◌≢◌, ◌<◌, ◌≤◌, ℕ, Bool, true, false, if◌then◌else◌, List, [], ◌∷◌, length, Some, None, Ok, Err};
ghost use Rattle.std.specs.List.{All};
ghost use Rattle.std.specs.Str.{bytes_eq};
ghost use Rattle.family_log.specs.declared.table.Table.{Table};
ghost use Rattle.family_log.specs.Tables.{IsTable};
ghost use Rattle.file_directory.specs.declared.directory.DirectoryEntry.{DirectoryEntry};
ghost use Rattle.file_directory.specs.Entries.{directory_text, entry_bytes, is_taken, object_named, with_entry, without_name};
ghost use Rattle.file_directory.specs.Form.{IsDirectory, IsNew, objects_of};
ghost use Rattle.file_directory.specs.Reading.{IsFirstWrong, read_directory};

/// The text of a directory in form is read as the directory, and what is read of bytes is a directory in form
/// whose text they are.
pub fn directories_are_read_as_they_are_written()
    ensures written { (objects : ℕ → Bool) (entries : List DirectoryEntry) → IsDirectory objects entries
        → read_directory objects (directory_text entries) ≡ Ok entries }
    ensures in_form { (objects : ℕ → Bool) (text : List ℕ) (entries : List DirectoryEntry)
        → All (λ byte. byte < 256) text
        → read_directory objects text ≡ Ok entries → IsDirectory objects entries }
    ensures text { (objects : ℕ → Bool) (text : List ℕ) (entries : List DirectoryEntry) → All (λ byte. byte < 256) text
        → read_directory objects text ≡ Ok entries → directory_text entries ≡ text }
{}

/// A text that is refused is a directory in form up to the offset that is named, and none in form goes further.
pub fn the_first_wrong_entry_is_named()
    ensures { (objects : ℕ → Bool) (text : List ℕ) (at : ℕ) → All (λ byte. byte < 256) text
        → read_directory objects text ≡ Err at → IsFirstWrong objects text at }
{}

/// A directory stays in form with a file more in a table that has its object too, and without a file in a table
/// that has the other objects. An object that isn't in its table is that of no entry.
pub fn changed_directories_are_in_form()
    ensures inserted { (objects more : ℕ → Bool) (entries : List DirectoryEntry) (new : DirectoryEntry)
        → IsDirectory objects entries → ((object : ℕ) → objects object ≡ true → more object ≡ true)
        → IsNew more entries new → IsDirectory more (with_entry new entries) }
    ensures removed { (objects fewer : ℕ → Bool) (entries : List DirectoryEntry) (name : List ℕ) (gone : ℕ)
        → IsDirectory objects entries → object_named name entries ≡ Some gone
        → ((object : ℕ) → objects object ≡ true → object ≢ gone → fewer object ≡ true)
        → IsDirectory fewer (without_name name entries) }
    ensures free { (objects : ℕ → Bool) (entries : List DirectoryEntry) (object : ℕ) → IsDirectory objects entries
        → objects object ≡ false → is_taken object entries ≡ false }
    ensures same { (objects others : ℕ → Bool) (entries : List DirectoryEntry) → IsDirectory objects entries
        → ((object : ℕ) → objects object ≡ true → others object ≡ true) → IsDirectory others entries }
{}

/// A file that was added is found, one that was taken out isn't, and the others are found as before.
pub fn names_find_what_was_added_and_not_what_was_removed()
    ensures inserted { (entries : List DirectoryEntry) (new : DirectoryEntry) (name : List ℕ)
        → object_named new.name entries ≡ None
        → object_named name (with_entry new entries)
        ≡ (if bytes_eq new.name name then Some new.object else object_named name entries) }
    ensures removed { (entries : List DirectoryEntry) (gone name : List ℕ)
        → object_named name (without_name gone entries)
        ≡ (if bytes_eq gone name then None else object_named name entries) }
{}

/// A directory of a table has at most 1024 entries, and a text of at most 70656 bytes: the table has at most 1025
/// objects, of which the first is the directory's own, and an entry at most 69 bytes.
pub fn tables_bound_directories()
    ensures entries { (record_size : ℕ) (table : Table) (entries : List DirectoryEntry) → IsTable record_size table
        → IsDirectory (objects_of table) entries → length entries ≤ 1024 }
    ensures text { (record_size : ℕ) (table : Table) (entries : List DirectoryEntry) → IsTable record_size table
        → IsDirectory (objects_of table) entries → length (directory_text entries) ≤ 70656 }
{}

/// The entry of the file `f` with object 2.
#[tactic(auto, unfolding(byte_fields::specs::LittleEndian::little_endian_bytes))]
pub fn a_sample_entry_is_stored_as_it_was_worked_out()
    ensures { entry_bytes (record { object = 2; name = 0x66 ∷ [] }) ≡ 2 ∷ 0 ∷ 0 ∷ 0 ∷ 1 ∷ 0x66 ∷ [] }
{}

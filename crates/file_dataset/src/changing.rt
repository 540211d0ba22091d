// Changes of a head, before their entries.
ghost use Rattle.std.specs.Prelude.{◌≡◌, ◌+◌, ◌<◌, ◌≤◌, ◌^◌, ◌∷◌, ◌++◌, [], Err, IfErr, IfOk, IfSome, None, Ok, Some, is_ok, length, true};
ghost use Rattle.std.specs.Option.{option_map_or};
ghost use Rattle.shelf_store.specs.ShelfState.{HasToldSizes};
ghost use Rattle.family_log.specs.Calls.{new_place};
ghost use Rattle.family_log.specs.Honest.{IsHonest, LeadsAsLogged};
ghost use Rattle.family_log.specs.Tables.{IsRecordSize, row_of};
ghost use Rattle.family_log.specs.Log.{head_spot};
ghost use Rattle.file_directory.specs.Entries.{directory_text, object_named};
ghost use Rattle.file_directory.specs.Form.{IsDirectory, objects_of};
ghost use Rattle.file_dataset.specs.declared.kind.Kind.TheVariants as kinds;
ghost use Rattle.file_dataset.specs.ChangeCalls.{cut_calls, directory_calls, file_calls, make_stops, remove_stops, tested_edit, tested_end, write_calls, write_stops};
ghost use Rattle.file_blocks.specs.Changes.{Changed, Leaving};
ghost use Rattle.file_blocks.specs.Objects.{count_touched};
ghost use Rattle.file_blocks.specs.Outcomes.{IsNoted, IsWrote};
ghost use Rattle.file_blocks.specs.WriteFields.{write_to};
ghost use Rattle.file_blocks.specs.Writes.{change_of_write, reads_of};
ghost use Rattle.file_dataset.specs.Changes.{cut_edit, empty_object, empty_row, made_in, make_edit, make_fault, remove_edit, removed_in, without_row, write_edit};
ghost use Rattle.file_dataset.specs.ChangeSteps.{IsDraft, IsMadeOf, IsUnused, Works, halt_at};
ghost use Rattle.file_dataset.specs.declared.halt.Halt.TheVariants as halts;
ghost use Rattle.file_dataset.specs.Calls.{by_table, directory_blocks};
ghost use Rattle.file_dataset.specs.Reads.{file_row, held_directory, then_read};
ghost use Rattle.file_dataset.specs.Steps.{IsOneHalt, IsReadable, IsTableAt, Visits, directory_stops, row_stops};

use crate::edit::{Draft, Made, made_of};
use crate::halt::Halt;
use crate::kind::Kind;
use crate::limits::{MAX_FILES, MAX_LENGTH, MAX_OBJECT};
use crate::new_rows::{empty_row, greatest_object, rows_and, rows_without};
use crate::noting::table_at;
use crate::reading::open_directory;
use crate::rows::{file_row, object_of};
use crate::sealing::{cut_object, halt_at, write_object};
use block_crypt::BlockKey;
use dataset_tree::{FileName, Refusal};
use family_log::{Family, LengthAt, Spot, Table, TableRow};
use file_blocks::{Object, WriteError};
use file_directory::Directory;
use indirect_macs::{MacError, ObjTree};
use shelf_store::Shelf;
use std::alloc::Global;

/// The object of the directory.
const DIRECTORY: u32 = 1;

/// A head's own spot.
pub(crate) fn head_spot(head: u32) -> Spot
    ensures { result ≡ head_spot head }
{
    Spot { head, snap: None }
}

// Why a call may not make a file end there.
fn end_fault(end: u64) -> Option<Refusal>
    ensures { tested_end end ≡ option_map_or (λ why. Err why) result (Ok tt) }
{
    if end > MAX_LENGTH {
        Some(Refusal::TooBig { limit: MAX_LENGTH })
    } else {
        None
    }
}

// Why no file of this name can be made.
fn make_fault(table: &Table, directory: &Directory, name: &FileName) -> Option<Refusal>
    requires { IsReadable table.now }
    ensures { result ≡ make_fault table.now name.now directory.now }
{
    if directory.find(name).is_some() {
        return Some(Refusal::FileExists);
    }
    if table.rows.as_slice().len() as u64 > MAX_FILES {
        return Some(Refusal::Full { limit: MAX_FILES });
    }
    if u64::from(greatest_object(table.rows.as_slice())) >= MAX_OBJECT {
        return Some(Refusal::Full { limit: MAX_OBJECT });
    }
    None
}

// What of the table changes, beside the directory's blocks, where a file is made: it has this object.
fn draft_of_make(alloc: Global, table: &Table, object: u32) -> Result<Draft, Halt>
    ensures draft { IfOk result (IsDraft kinds.Make 1 (table.now.rows ++ empty_row object ∷ [])
        (Some (record { object = object; length = Some 0 }))) }
    ensures stop { IfErr result (λ halt. halt ≡ halts.NoMemory) }
{
    match rows_and(alloc, table.rows.as_slice(), empty_row(object)) {
        Ok(rows) => Ok(Draft {
            kind: Kind::Make,
            object: DIRECTORY,
            rows,
            other: Some(LengthAt {
                object,
                length: Some(0),
            }),
        }),
        Err(_) => Err(Halt::NoMemory),
    }
}

// And where the file of this object is removed.
fn draft_of_remove(alloc: Global, table: &Table, object: u32) -> Result<Draft, Halt>
    ensures draft { IfOk result (IsDraft kinds.Remove 1 (without_row object table.now.rows)
        (Some (record { object = object; length = None }))) }
    ensures stop { IfErr result (λ halt. halt ≡ halts.NoMemory) }
{
    match rows_without(alloc, table.rows.as_slice(), object) {
        Ok(rows) => Ok(Draft {
            kind: Kind::Remove,
            object: DIRECTORY,
            rows,
            other: Some(LengthAt {
                object,
                length: None,
            }),
        }),
        Err(_) => Err(Halt::NoMemory),
    }
}

// And where a file's own object gets new blocks.
fn draft_of_row(alloc: Global, table: &Table, kind: Kind, object: u32) -> Result<Draft, Halt>
    ensures draft { IfOk result (IsDraft kind object table.now.rows None) }
    ensures stop { IfErr result (λ halt. halt ≡ halts.NoMemory) }
{
    match Vec::from_slice(alloc, table.rows.as_slice()) {
        Ok(rows) => Ok(Draft {
            kind,
            object,
            rows,
            other: None,
        }),
        Err(_) => Err(Halt::NoMemory),
    }
}

// The change of a head of which the draft's object got these blocks.
fn ended_draft(
    alloc: Global,
    hmac: &[u8; 64],
    head: u32,
    table: &Table,
    draft: Draft,
    sealed: Result<file_blocks::Wrote, WriteError>,
) -> Result<Made, Halt>
    requires { IfOk sealed (λ wrote. wrote.first + length wrote.refs.items ≤ 8388608) }
    ensures made { IfOk result (λ made. IfOk sealed (λ wrote. IsMadeOf hmac.now head table.now draft wrote made)) }
    ensures failed { IfErr sealed (λ stop. result ≡ Err (halt_at draft.object stop)) }
    ensures stop { IfOk sealed (λ _. IfErr result (λ halt. halt ≡ halts.NoMemory)) }
{
    match sealed {
        Ok(wrote) => match made_of(alloc, hmac, head, table, draft, &wrote) {
            Ok(made) => Ok(made),
            Err(_) => Err(Halt::NoMemory),
        },
        Err(stop) => Err(halt_at(draft.object, stop)),
    }
}

// The directory written anew, as into an object without bytes.
fn directory_anew<K: BlockKey, B: Shelf>(
    fam: &mut Family<B>,
    key: &K,
    block: u32,
    directory: &Directory,
) -> Result<file_blocks::Wrote, WriteError>
    requires record_size { IsRecordSize block }
    requires few { length (directory_text directory.now) ≤ 70656 }
    ensures left { fam.new ≡ record fam.old { salts = fam.new.salts; shelf = fam.new.shelf } }
    ensures leaving { Leaving (count_touched block 0 (length (directory_text directory.now)))
        (reads_of (write_to empty_object block 0 (directory_text directory.now))) result
        fam.old.shelf fam.new.shelf fam.old.salts fam.new.salts }
    ensures told { IfSome fam.old.shelf.held (λ held. Changed (λ wrote. wrote.object) (K.told key.now) held
        (change_of_write (K.told key.now) held (write_to empty_object block 0 (directory_text directory.now))) result
        fam.old.shelf fam.new.shelf fam.old.salts fam.new.salts) }
    ensures noted { IfOk result (λ wrote. IfSome fam.old.shelf.held (λ held. IsNoted (K.told key.now)
        fam.old.salts (length fam.old.shelf.sizes)
        (change_of_write (K.told key.now) held (write_to empty_object block 0 (directory_text directory.now))) wrote)) }
    ensures wrote { IfOk result
        (IsWrote block (length (directory_text directory.now)) fam.old.salts fam.new.salts) }
{
    let Ok(text) = directory.text(fam.allocator()) else {
        return Err(WriteError::Stopped(MacError::NoMemory));
    };
    let empty = Object {
        length: 0,
        tree: ObjTree {
            levels: 1,
            top: None,
        },
    };
    write_object(fam, key, &empty, block, 0, text.as_slice())
}

/// A head's table with the directory that it holds.
#[derive(Drop)]
struct OpenedHead {
    table: Table,
    directory: Directory,
}

// A head's table and directory, behind the tests of the portable MAC and the directory.
fn opened_head<K: BlockKey, B: Shelf>(
    fam: &mut Family<B>,
    key: &K,
    hmac: &[u8; 64],
    head: u32,
) -> Result<OpenedHead, Halt>
    requires there { is_ok (new_place fam.old head) ≡ true }
    ensures table { IfOk result (λ opened. IsTableAt fam.old (head_spot head) opened.table) }
    ensures among { IfErr result (IsOneHalt directory_stops) }
    ensures directory { IfOk result (λ opened. IsDirectory (objects_of opened.table) opened.directory) }
    ensures visits { Visits (λ opened. opened.directory) (λ held. held_directory (K.told key.now) hmac.now held)
        directory_blocks hmac.now (head_spot head) result fam.old fam.new }
{
    let alloc = fam.allocator();
    let table = match table_at(fam, &head_spot(head)) {
        Ok(table) => table,
        Err(halt) => return Err(halt),
    };
    match open_directory(alloc, key, hmac, fam.shelf(), &table) {
        Ok(directory) => Ok(OpenedHead { table, directory }),
        Err(halt) => Err(halt),
    }
}

/// The change of a head in which a file is made.
pub(crate) fn make_in_head<K: BlockKey, B: Shelf>(
    fam: &mut Family<B>,
    key: &K,
    hmac: &[u8; 64],
    head: u32,
    name: &FileName,
) -> Result<Made, Halt>
    requires there { is_ok (new_place fam.old head) ≡ true }
    ensures works { Works kinds.Make (K.told key.now) hmac.now head (make_edit (K.told key.now) hmac.now name.now)
        directory_calls make_stops result fam.old fam.new }
    ensures before { IfErr (by_table (tested_edit hmac.now 0) fam.old (head_spot head))
        (IsUnused result fam.old fam.new) }
    ensures leads { IfOk result (λ made. IsHonest fam.old → HasToldSizes fam.old.shelf
        → length fam.new.shelf.sizes < 2 ^ 64 → LeadsAsLogged fam.new head made.change) }
{
    let OpenedHead { table, directory } = match opened_head(fam, key, hmac, head) {
        Ok(opened) => opened,
        Err(halt) => return Err(halt),
    };
    match make_fault(&table, &directory, name) {
        Some(why) => Err(Halt::Refused(why)),
        None => make_opened(fam, key, hmac, head, &table, directory, name),
    }
}

// So, where table and directory are open and nothing stands against it.
fn make_opened<K: BlockKey, B: Shelf>(
    fam: &mut Family<B>,
    key: &K,
    hmac: &[u8; 64],
    head: u32,
    table: &Table,
    directory: Directory,
    name: &FileName,
) -> Result<Made, Halt>
    requires table { IsTableAt fam.old (head_spot head) table.now }
    requires directory { IsDirectory (objects_of table.now) directory }
    requires fault { make_fault table.now name.now directory ≡ None }
    ensures works { Works kinds.Make (K.told key.now) hmac.now head
        (λ held of_head. made_in (K.told key.now) held of_head name.now directory)
        (λ of_head. write_calls 1 of_head.block 0 70656) make_stops result fam.old fam.new }
    ensures leads { IfOk result (λ made. IsHonest fam.old → HasToldSizes fam.old.shelf
        → length fam.new.shelf.sizes < 2 ^ 64 → LeadsAsLogged fam.new head made.change) }
{
    let alloc = fam.allocator();
    let mut directory = directory;
    let _in_form = name.as_bytes();
    let object = greatest_object(table.rows.as_slice()) + 1;
    let draft = match draft_of_make(alloc, table, object) {
        Ok(draft) => draft,
        Err(halt) => return Err(halt),
    };
    if directory.insert(object, name).is_err() {
        return Err(Halt::NoMemory);
    }
    let sealed = directory_anew(fam, key, table.block, &directory);
    ended_draft(alloc, hmac, head, table, draft, sealed)
}

/// The change of a head in which a file is removed.
pub(crate) fn remove_in_head<K: BlockKey, B: Shelf>(
    fam: &mut Family<B>,
    key: &K,
    hmac: &[u8; 64],
    head: u32,
    name: &FileName,
) -> Result<Made, Halt>
    requires there { is_ok (new_place fam.old head) ≡ true }
    ensures works { Works kinds.Remove (K.told key.now) hmac.now head (remove_edit (K.told key.now) hmac.now name.now)
        directory_calls remove_stops result fam.old fam.new }
    ensures before { IfErr (by_table (tested_edit hmac.now 0) fam.old (head_spot head))
        (IsUnused result fam.old fam.new) }
    ensures leads { IfOk result (λ made. IsHonest fam.old → HasToldSizes fam.old.shelf
        → length fam.new.shelf.sizes < 2 ^ 64 → LeadsAsLogged fam.new head made.change) }
{
    let OpenedHead { table, directory } = match opened_head(fam, key, hmac, head) {
        Ok(opened) => opened,
        Err(halt) => return Err(halt),
    };
    match file_row(&table, &directory, name) {
        Ok(row) => remove_opened(fam, key, hmac, head, &table, directory, name, row.object),
        Err(why) => Err(Halt::Refused(why)),
    }
}

// So, where table and directory are open, and the file has this object.
fn remove_opened<K: BlockKey, B: Shelf>(
    fam: &mut Family<B>,
    key: &K,
    hmac: &[u8; 64],
    head: u32,
    table: &Table,
    directory: Directory,
    name: &FileName,
    object: u32,
) -> Result<Made, Halt>
    requires table { IsTableAt fam.old (head_spot head) table.now }
    requires directory { IsDirectory (objects_of table.now) directory }
    requires object { object_named name.now directory ≡ Some object }
    ensures works { Works kinds.Remove (K.told key.now) hmac.now head
        (λ held of_head. removed_in (K.told key.now) held of_head name.now directory)
        (λ of_head. write_calls 1 of_head.block 0 70656) remove_stops result fam.old fam.new }
    ensures leads { IfOk result (λ made. IsHonest fam.old → HasToldSizes fam.old.shelf
        → length fam.new.shelf.sizes < 2 ^ 64 → LeadsAsLogged fam.new head made.change) }
{
    let alloc = fam.allocator();
    let mut directory = directory;
    let draft = match draft_of_remove(alloc, table, object) {
        Ok(draft) => draft,
        Err(halt) => return Err(halt),
    };
    directory.remove(name);
    let sealed = directory_anew(fam, key, table.block, &directory);
    ended_draft(alloc, hmac, head, table, draft, sealed)
}

/// A head's table, and in it the row of a file.
#[derive(Drop)]
struct OpenedRow {
    table: Table,
    row: TableRow,
}

// A head's table and the row of the file with this name.
fn opened_row<K: BlockKey, B: Shelf>(
    fam: &mut Family<B>,
    key: &K,
    hmac: &[u8; 64],
    head: u32,
    name: &FileName,
) -> Result<OpenedRow, Halt>
    requires there { is_ok (new_place fam.old head) ≡ true }
    ensures table { IfOk result (λ opened. IsTableAt fam.old (head_spot head) opened.table) }
    ensures row { IfOk result (λ opened. row_of opened.row.object opened.table ≡ Some opened.row) }
    ensures among { IfErr result (IsOneHalt row_stops) }
    ensures visits { Visits (λ opened. opened.row) (λ held table. then_read (file_row table name.now)
        (held_directory (K.told key.now) hmac.now held table)) directory_blocks hmac.now (head_spot head) result
        fam.old fam.new }
{
    let OpenedHead { table, directory } = match opened_head(fam, key, hmac, head) {
        Ok(opened) => opened,
        Err(halt) => return Err(halt),
    };
    match file_row(&table, &directory, name) {
        Ok(row) => Ok(OpenedRow { table, row }),
        Err(why) => Err(Halt::Refused(why)),
    }
}

/// The change of a head in which bytes are written into a file.
pub(crate) fn write_in_head<K: BlockKey, B: Shelf>(
    fam: &mut Family<B>,
    key: &K,
    hmac: &[u8; 64],
    head: u32,
    name: &FileName,
    from: u64,
    bytes: &[u8],
) -> Result<Made, Halt>
    requires there { is_ok (new_place fam.old head) ≡ true }
    ensures works { Works kinds.Write (K.told key.now) hmac.now head
        (write_edit (K.told key.now) hmac.now name.now from bytes.now)
        (file_calls from (from + length bytes.now)) write_stops result fam.old fam.new }
    ensures before { IfErr (by_table (tested_edit hmac.now (from + length bytes.now)) fam.old (head_spot head))
        (IsUnused result fam.old fam.new) }
    ensures leads { IfOk result (λ made. IsHonest fam.old → HasToldSizes fam.old.shelf
        → length fam.new.shelf.sizes < 2 ^ 64 → LeadsAsLogged fam.new head made.change) }
{
    if let Some(why) = end_fault(from.saturating_add(bytes.len() as u64)) {
        return Err(Halt::Refused(why));
    }
    let alloc = fam.allocator();
    let OpenedRow { table, row } = match opened_row(fam, key, hmac, head, name) {
        Ok(opened) => opened,
        Err(halt) => return Err(halt),
    };
    let draft = match draft_of_row(alloc, &table, Kind::Write, row.object) {
        Ok(draft) => draft,
        Err(halt) => return Err(halt),
    };
    let sealed = write_object(fam, key, &object_of(&row), table.block, from, bytes);
    ended_draft(alloc, hmac, head, &table, draft, sealed)
}

/// The change of a head in which a file is cut, or filled up with zeros.
pub(crate) fn cut_in_head<K: BlockKey, B: Shelf>(
    fam: &mut Family<B>,
    key: &K,
    hmac: &[u8; 64],
    head: u32,
    name: &FileName,
    to: u64,
) -> Result<Made, Halt>
    requires there { is_ok (new_place fam.old head) ≡ true }
    ensures works { Works kinds.Cut (K.told key.now) hmac.now head (cut_edit (K.told key.now) hmac.now name.now to)
        cut_calls write_stops result fam.old fam.new }
    ensures before { IfErr (by_table (tested_edit hmac.now to) fam.old (head_spot head))
        (IsUnused result fam.old fam.new) }
    ensures leads { IfOk result (λ made. IsHonest fam.old → HasToldSizes fam.old.shelf
        → length fam.new.shelf.sizes < 2 ^ 64 → LeadsAsLogged fam.new head made.change) }
{
    if let Some(why) = end_fault(to) {
        return Err(Halt::Refused(why));
    }
    let alloc = fam.allocator();
    let OpenedRow { table, row } = match opened_row(fam, key, hmac, head, name) {
        Ok(opened) => opened,
        Err(halt) => return Err(halt),
    };
    let draft = match draft_of_row(alloc, &table, Kind::Cut, row.object) {
        Ok(draft) => draft,
        Err(halt) => return Err(halt),
    };
    let sealed = cut_object(fam, key, &object_of(&row), table.block, to);
    ended_draft(alloc, hmac, head, &table, draft, sealed)
}

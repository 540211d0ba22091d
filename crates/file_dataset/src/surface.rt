// The calls that read a head or a snapshot of a family.
ghost use Rattle.std.specs.Prelude.{◌≡◌, IfErr, IfSome};
ghost use Rattle.file_dataset.specs.Calls.{Answers, IsRefusedBefore, Reads, all_blocks, answered_at, block_key_of, directory_blocks, range_blocks, refused_before};
ghost use Rattle.file_dataset.specs.Reads.{plain_count, plain_names, plain_read};
ghost use Rattle.file_dataset.specs.Steps.{Visits};

use crate::file::FileRow;
use crate::halt::Halt;
use crate::listing::read_names;
use crate::noting::{noted, ready, table_at};
use crate::reading::read_file;
use crate::testing::test_all;
use block_crypt::BlockKey;
use dataset_tree::{FileName, Stop};
use family_log::{Family, Spot};
use shelf_store::Shelf;
use wrapped_keys::MasterKey;

/// The bytes of a file of a head or a snapshot from a place on, at most so many, and none past the file's
/// end. Zeros stand for what was never written. The key is the family's.
///
/// The portable MAC is tested first, then the directory is read, and then the blocks that hold the bytes: of
/// each block the nodes over it from the top down, then the block. The log gets an entry, Read or Refused.
///
/// # Errors
///
/// In this order `NoHead` where the family has no such head and `Full` where its log has no room, and then
/// nothing has changed; `NoSnapshot`; `MacFailed` of object 0, level 0 and index 0 where the portable MAC
/// differs; `MacFailed` with the first place of the directory that fails; `BadDirectory` with the offset of its
/// first entry that is wrong; `NoFile`; `MacFailed` with the first place of the file that fails, of those over
/// the blocks of the range. `ShelfFault` exactly where one of the reads is the call whose failure was armed.
/// Want of memory leaves no entry.
pub fn read_at<B: Shelf>(
    fam: &mut Family<B>,
    key: &MasterKey,
    spot: &Spot,
    name: &FileName,
    from: u64,
    len: u32,
) -> Result<Vec<u8>, Stop>
    requires { fam.old.guid ≡ key.now.guid }
    ensures left { Reads (range_blocks from len) spot.now result fam.old fam.new }
    ensures told { IfSome fam.old.shelf.held (λ held. Answers (λ bytes. bytes.items) (answered_at
        (plain_read (block_key_of key.now) key.now.hmac held name.now from len) fam.old spot.now) result) }
    ensures before { IfErr (refused_before key.now.hmac fam.old spot.now)
        (IsRefusedBefore spot.now result fam.old fam.new) }
{
    let note = ready(fam, spot)?;
    let answer = read_at_spot(fam, key, key.hmac(), spot, name, from, len);
    noted(fam, note, answer)
}

fn read_at_spot<K: BlockKey, B: Shelf>(
    fam: &mut Family<B>,
    key: &K,
    hmac: &[u8; 64],
    spot: &Spot,
    name: &FileName,
    from: u64,
    len: u32,
) -> Result<Vec<u8>, Halt>
    ensures { Visits (λ bytes. bytes.items) (λ held. plain_read (K.told key.now) hmac.now held name.now from len)
        (range_blocks from len) hmac.now spot.now result fam.old fam.new }
{
    let alloc = fam.allocator();
    match table_at(fam, spot) {
        Ok(table) => read_file(
            alloc,
            key,
            hmac,
            fam.shelf(),
            &table,
            name,
            from,
            u64::from(len),
        ),
        Err(halt) => Err(halt),
    }
}

/// The files of a head or a snapshot, each with its length, in byte order of their names. The key is the
/// family's.
///
/// The portable MAC is tested first, and then the directory is read. The log gets an entry, Read or Refused.
///
/// # Errors
///
/// As `read_at`, up to `BadDirectory`.
pub fn names<B: Shelf>(
    fam: &mut Family<B>,
    key: &MasterKey,
    spot: &Spot,
) -> Result<Vec<FileRow>, Stop>
    requires { fam.old.guid ≡ key.now.guid }
    ensures left { Reads directory_blocks spot.now result fam.old fam.new }
    ensures told { IfSome fam.old.shelf.held (λ held. Answers (λ rows. rows.items) (answered_at
        (plain_names (block_key_of key.now) key.now.hmac held) fam.old spot.now) result) }
    ensures before { IfErr (refused_before key.now.hmac fam.old spot.now)
        (IsRefusedBefore spot.now result fam.old fam.new) }
{
    let note = ready(fam, spot)?;
    let answer = names_at_spot(fam, key, key.hmac(), spot);
    noted(fam, note, answer)
}

fn names_at_spot<K: BlockKey, B: Shelf>(
    fam: &mut Family<B>,
    key: &K,
    hmac: &[u8; 64],
    spot: &Spot,
) -> Result<Vec<FileRow>, Halt>
    ensures { Visits (λ rows. rows.items) (λ held. plain_names (K.told key.now) hmac.now held)
        directory_blocks hmac.now spot.now result fam.old fam.new }
{
    let alloc = fam.allocator();
    match table_at(fam, spot) {
        Ok(table) => read_names(alloc, key, hmac, fam.shelf(), &table),
        Err(halt) => Err(halt),
    }
}

/// Tests all that a head or a snapshot holds: how many blocks it has that are no holes, those of the
/// directory among them, where each place of each object passes. The key is the family's.
///
/// The portable MAC is tested first, then the directory and its form, and then each object of the table in
/// rising order over its whole length. The log gets an entry, Read or Refused.
///
/// # Errors
///
/// As `read_at`, up to `BadDirectory`, and then `MacFailed` with the first place of an object that fails.
pub fn verify_head<B: Shelf>(fam: &mut Family<B>, key: &MasterKey, spot: &Spot) -> Result<u64, Stop>
    requires { fam.old.guid ≡ key.now.guid }
    ensures left { Reads all_blocks spot.now result fam.old fam.new }
    ensures told { IfSome fam.old.shelf.held (λ held. Answers (λ count. count) (answered_at
        (plain_count (block_key_of key.now) key.now.hmac held) fam.old spot.now) result) }
    ensures before { IfErr (refused_before key.now.hmac fam.old spot.now)
        (IsRefusedBefore spot.now result fam.old fam.new) }
{
    let note = ready(fam, spot)?;
    let answer = count_at_spot(fam, key, key.hmac(), spot);
    noted(fam, note, answer)
}

fn count_at_spot<K: BlockKey, B: Shelf>(
    fam: &mut Family<B>,
    key: &K,
    hmac: &[u8; 64],
    spot: &Spot,
) -> Result<u64, Halt>
    ensures { Visits (λ count. count) (λ held. plain_count (K.told key.now) hmac.now held) all_blocks hmac.now
        spot.now result fam.old fam.new }
{
    let alloc = fam.allocator();
    match table_at(fam, spot) {
        Ok(table) => test_all(alloc, key, hmac, fam.shelf(), &table),
        Err(halt) => Err(halt),
    }
}

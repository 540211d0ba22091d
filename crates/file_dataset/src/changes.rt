// The calls that change a head of a family.
ghost use Rattle.std.specs.Prelude.{◌≡◌, ◌+◌, IfErr, OnErr, OnOk, length};
ghost use Rattle.family_log.specs.Honest.{IsHonest};
ghost use Rattle.family_log.specs.Log.{head_spot};
ghost use Rattle.file_dataset.specs.declared.kind.Kind.TheVariants as kinds;
ghost use Rattle.file_dataset.specs.Calls.{IsRefusedBefore, block_key_of};
ghost use Rattle.file_dataset.specs.ChangeCalls.{Edits, cut_calls, directory_calls, file_calls, make_stops, refused_edit, remove_stops, write_stops, wrote_by};
ghost use Rattle.file_dataset.specs.Changes.{cut_edit, make_edit, remove_edit, write_edit};
ghost use Rattle.file_dataset.specs.Edits.{cut, removed, touched, written};
ghost use Rattle.file_dataset.specs.Files.{ChangesFiles, KeepsFiles, KeepsOthers};

use crate::changing::{cut_in_head, head_spot, make_in_head, remove_in_head, write_in_head};
use crate::entering::ended;
use crate::noting::ready;
use crate::wrote::Wrote;
use dataset_tree::{FileName, Stop};
use family_log::Family;
use shelf_store::Shelf;
use wrapped_keys::MasterKey;

/// Makes an empty file in a head. The key is the family's. The file's object has the number behind the greatest of
/// the head's table; the directory is written anew, and each of its blocks is sealed under a draw of its own and
/// put, in ascending order, and then the nodes over them. The log gets an entry, Make or Refused.
///
/// # Errors
///
/// In this order `NoHead` where the family has no such head and `Full` where its log has no room, and then nothing
/// has changed; `MacFailed` of object 0, level 0 and index 0 where the portable MAC differs; `MacFailed` with the
/// first place of the directory that fails; `BadDirectory` with the offset of its first entry that is wrong;
/// `FileExists`; `Full` 1024 where the head has as many files; `Full` 16777216 where there is no number for the
/// object; `Full` 281474976710656 where fewer draws are left than blocks would be sealed; then nothing was put and
/// no draw made. `Full` 33554432 where the next block doesn't fit on the shelf, and `ShelfFault` exactly where one
/// of the calls of the shelf is the one whose failure was armed: the blocks that were put and the draws that were
/// made for them stay used, and for one more at most. The head is as before after each of these, and the log gets
/// an entry, which says how many draws and blocks were used where the shelf failed. After want of memory draws and
/// blocks may have been used too, and there is no entry.
pub fn make_file<B: Shelf>(
    fam: &mut Family<B>,
    key: &MasterKey,
    head: u32,
    name: &FileName,
) -> Result<(), Stop>
    requires { fam.old.guid ≡ key.now.guid }
    ensures edits { Edits kinds.Make (block_key_of key.now) key.now.hmac head
        (make_edit (block_key_of key.now) key.now.hmac name.now) directory_calls make_stops (λ _. tt) result fam.old fam.new }
    ensures before { IfErr (refused_edit key.now.hmac 0 head fam.old)
        (IsRefusedBefore (head_spot head) result fam.old fam.new) }
    ensures honest { IsHonest fam.old → IsHonest fam.new }
    ensures files { IsHonest fam.old → OnOk result
        (ChangesFiles (block_key_of key.now) (touched name.now) (head_spot head) fam.old fam.new) }
    ensures others { KeepsOthers (block_key_of key.now) head fam.old fam.new }
    ensures refused { OnErr result (KeepsFiles (block_key_of key.now) (head_spot head) fam.old fam.new) }
{
    let note = ready(fam, &head_spot(head))?;
    let before = fam.used();
    let _in_form = name.as_bytes();
    let answer = make_in_head(fam, key, key.hmac(), head, name);
    match ended(fam, note, before, answer) {
        Ok(_) => Ok(()),
        Err(stop) => Err(stop),
    }
}

/// Writes bytes into a file of a head from a place on, with zeros between the file's end and a place behind it. The
/// key is the family's. Of the file's blocks those that hold the bytes are sealed anew, each under a draw of its
/// own, and put in ascending order, and then the nodes over them; a block is read only where some of its stored
/// bytes stay. The log gets an entry, Write or Refused.
///
/// # Errors
///
/// As of `make_file`, but `TooBig` in front of the tests where the bytes would end behind 4294967296, `NoFile` in
/// place of `FileExists` and of the two limits behind it, and then `MacFailed` with the first place of the file that
/// fails, of those over the blocks that are touched.
pub fn write_at<B: Shelf>(
    fam: &mut Family<B>,
    key: &MasterKey,
    head: u32,
    name: &FileName,
    from: u64,
    bytes: &[u8],
) -> Result<Wrote, Stop>
    requires { fam.old.guid ≡ key.now.guid }
    ensures edits { Edits kinds.Write (block_key_of key.now) key.now.hmac head
        (write_edit (block_key_of key.now) key.now.hmac name.now from bytes.now)
        (file_calls from (from + length bytes.now)) write_stops (wrote_by fam.old.salts) result fam.old fam.new }
    ensures before { IfErr (refused_edit key.now.hmac (from + length bytes.now) head fam.old)
        (IsRefusedBefore (head_spot head) result fam.old fam.new) }
    ensures honest { IsHonest fam.old → IsHonest fam.new }
    ensures files { IsHonest fam.old → OnOk result
        (ChangesFiles (block_key_of key.now) (written name.now from bytes.now) (head_spot head) fam.old fam.new) }
    ensures others { KeepsOthers (block_key_of key.now) head fam.old fam.new }
    ensures refused { OnErr result (KeepsFiles (block_key_of key.now) (head_spot head) fam.old fam.new) }
{
    let note = ready(fam, &head_spot(head))?;
    let before = fam.used();
    let answer = write_in_head(fam, key, key.hmac(), head, name, from, bytes);
    ended(fam, note, before, answer)
}

/// Cuts a file of a head to a length, or fills it up to it with zeros. The key is the family's. Where the file gets
/// shorter inside of what a block stores, that front is sealed anew under a draw and put, and then the nodes over
/// it. The log gets an entry, Cut or Refused.
///
/// # Errors
///
/// As of `write_at`, where the last block that stays is touched by a cut that shortens the file.
pub fn cut<B: Shelf>(
    fam: &mut Family<B>,
    key: &MasterKey,
    head: u32,
    name: &FileName,
    to: u64,
) -> Result<(), Stop>
    requires { fam.old.guid ≡ key.now.guid }
    ensures edits { Edits kinds.Cut (block_key_of key.now) key.now.hmac head
        (cut_edit (block_key_of key.now) key.now.hmac name.now to) cut_calls write_stops (λ _. tt) result fam.old fam.new }
    ensures before { IfErr (refused_edit key.now.hmac to head fam.old)
        (IsRefusedBefore (head_spot head) result fam.old fam.new) }
    ensures honest { IsHonest fam.old → IsHonest fam.new }
    ensures files { IsHonest fam.old → OnOk result
        (ChangesFiles (block_key_of key.now) (cut name.now to) (head_spot head) fam.old fam.new) }
    ensures others { KeepsOthers (block_key_of key.now) head fam.old fam.new }
    ensures refused { OnErr result (KeepsFiles (block_key_of key.now) (head_spot head) fam.old fam.new) }
{
    let note = ready(fam, &head_spot(head))?;
    let before = fam.used();
    let answer = cut_in_head(fam, key, key.hmac(), head, name, to);
    match ended(fam, note, before, answer) {
        Ok(_) => Ok(()),
        Err(stop) => Err(stop),
    }
}

/// Removes a file of a head. The key is the family's. The directory is written anew as by `make_file`, and the
/// file's object leaves the table. The log gets an entry, Remove or Refused.
///
/// # Errors
///
/// As of `make_file`, with `NoFile` in place of `FileExists` and of the two limits behind it.
pub fn remove_file<B: Shelf>(
    fam: &mut Family<B>,
    key: &MasterKey,
    head: u32,
    name: &FileName,
) -> Result<(), Stop>
    requires { fam.old.guid ≡ key.now.guid }
    ensures edits { Edits kinds.Remove (block_key_of key.now) key.now.hmac head
        (remove_edit (block_key_of key.now) key.now.hmac name.now) directory_calls remove_stops (λ _. tt) result fam.old fam.new }
    ensures before { IfErr (refused_edit key.now.hmac 0 head fam.old)
        (IsRefusedBefore (head_spot head) result fam.old fam.new) }
    ensures honest { IsHonest fam.old → IsHonest fam.new }
    ensures files { IsHonest fam.old → OnOk result
        (ChangesFiles (block_key_of key.now) (removed name.now) (head_spot head) fam.old fam.new) }
    ensures others { KeepsOthers (block_key_of key.now) head fam.old fam.new }
    ensures refused { OnErr result (KeepsFiles (block_key_of key.now) (head_spot head) fam.old fam.new) }
{
    let note = ready(fam, &head_spot(head))?;
    let before = fam.used();
    let answer = remove_in_head(fam, key, key.hmac(), head, name);
    match ended(fam, note, before, answer) {
        Ok(_) => Ok(()),
        Err(stop) => Err(stop),
    }
}

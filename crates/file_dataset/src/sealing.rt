// New blocks of an object of a family: the salts and the shelf are the family's.
ghost use Rattle.std.specs.Prelude.{◌≡◌, ◌+◌, ◌≤◌, max, length, IfOk, IfSome};
ghost use Rattle.family_log.specs.Tables.{IsRecordSize};
ghost use Rattle.file_blocks.specs.Changes.{Changed, Leaving};
ghost use Rattle.file_blocks.specs.Objects.{IsObject, count_touched};
ghost use Rattle.file_blocks.specs.Outcomes.{IsNoted, IsWrote};
ghost use Rattle.file_blocks.specs.WriteFields.{write_to};
ghost use Rattle.file_blocks.specs.Writes.{change_of_cut, change_of_write, reads_of};
ghost use Rattle.file_dataset.specs.ChangeSteps.{halt_at};

use crate::halt::{Halt, halt_in};
use block_crypt::BlockKey;
use dataset_tree::{NoMemory, Refusal};
use family_log::Family;
use file_blocks::{Object, WriteError, cut_to, write_range};
use indirect_macs::MacError;
use salt_rotation::{MAX_DRAWS, Salts};
use shelf_store::Shelf;

/// An equal source of salts. Salts and shelf can't be lent at once, so that draws are made from a copy, which
/// is given back whatever the draws were for.
fn copied_salts<B: Shelf>(fam: &mut Family<B>) -> Result<Salts, NoMemory>
    ensures copy { IfOk result (λ salts. salts ≡ fam.old.salts) }
    ensures same { fam.new ≡ fam.old }
{
    let salts: &mut Salts = fam.salts();
    salts.clone()
}

fn give_salts<B: Shelf>(fam: &mut Family<B>, left: Salts)
    ensures { fam.new ≡ record fam.old { salts = left } }
{
    let salts: &mut Salts = fam.salts();
    *salts = left;
}

/// Writes bytes into an object from some place on, where `block` is the record size.
pub(crate) fn write_object<K: BlockKey, B: Shelf>(
    fam: &mut Family<B>,
    key: &K,
    object: &Object,
    block: u32,
    from: u64,
    bytes: &[u8],
) -> Result<file_blocks::Wrote, WriteError>
    requires record_size { IsRecordSize block }
    requires object { IsObject block object.now }
    requires end { from + length bytes.now ≤ 4294967296 }
    ensures left { fam.new ≡ record fam.old { salts = fam.new.salts; shelf = fam.new.shelf } }
    ensures leaving { Leaving (count_touched block from (from + length bytes.now))
        (reads_of (write_to object.now block from bytes.now)) result
        fam.old.shelf fam.new.shelf fam.old.salts fam.new.salts }
    ensures told { IfSome fam.old.shelf.held (λ held. Changed (λ wrote. wrote.object) (K.told key.now) held
        (change_of_write (K.told key.now) held (write_to object.now block from bytes.now)) result
        fam.old.shelf fam.new.shelf fam.old.salts fam.new.salts) }
    ensures noted { IfOk result (λ wrote. IfSome fam.old.shelf.held (λ held. IsNoted (K.told key.now)
        fam.old.salts (length fam.old.shelf.sizes)
        (change_of_write (K.told key.now) held (write_to object.now block from bytes.now)) wrote)) }
    ensures wrote { IfOk result
        (IsWrote block (max object.now.length (from + length bytes.now)) fam.old.salts fam.new.salts) }
{
    let Ok(mut salts) = copied_salts(fam) else {
        return Err(WriteError::Stopped(MacError::NoMemory));
    };
    let alloc = fam.allocator();
    let result = write_range(
        alloc,
        key,
        &mut salts,
        fam.shelf(),
        object,
        block,
        from,
        bytes,
    );
    give_salts(fam, salts);
    result
}

/// Cuts an object to a length, or fills it up to it with zeros, where `block` is the record size.
pub(crate) fn cut_object<K: BlockKey, B: Shelf>(
    fam: &mut Family<B>,
    key: &K,
    object: &Object,
    block: u32,
    to: u64,
) -> Result<file_blocks::Wrote, WriteError>
    requires record_size { IsRecordSize block }
    requires object { IsObject block object.now }
    requires end { to ≤ 4294967296 }
    ensures left { fam.new ≡ record fam.old { salts = fam.new.salts; shelf = fam.new.shelf } }
    ensures leaving { Leaving 1 (object.now.tree.levels + 1) result fam.old.shelf fam.new.shelf fam.old.salts fam.new.salts }
    ensures told { IfSome fam.old.shelf.held (λ held. Changed (λ wrote. wrote.object) (K.told key.now) held
        (change_of_cut (K.told key.now) held block object.now to) result
        fam.old.shelf fam.new.shelf fam.old.salts fam.new.salts) }
    ensures noted { IfOk result (λ wrote. IfSome fam.old.shelf.held (λ held. IsNoted (K.told key.now)
        fam.old.salts (length fam.old.shelf.sizes)
        (change_of_cut (K.told key.now) held block object.now to) wrote)) }
    ensures wrote { IfOk result (IsWrote block to fam.old.salts fam.new.salts) }
{
    let Ok(mut salts) = copied_salts(fam) else {
        return Err(WriteError::Stopped(MacError::NoMemory));
    };
    let alloc = fam.allocator();
    let result = cut_to(alloc, key, &mut salts, fam.shelf(), object, block, to);
    give_salts(fam, salts);
    result
}

/// What ends a call whose blocks of this object can't be written.
pub(crate) fn halt_at(object: u32, stop: WriteError) -> Halt
    ensures { result ≡ halt_at object stop }
{
    match stop {
        WriteError::Stopped(stop) => halt_in(object, stop),
        WriteError::DrawsFull => Halt::Refused(Refusal::Full { limit: MAX_DRAWS }),
    }
}

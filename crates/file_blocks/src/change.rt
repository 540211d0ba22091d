// An object with new texts of some of its blocks.
ghost use Rattle.std.specs.Prelude.{◌≡◌, ◌<◌, ◌≤◌, ◌+◌, true, false, All, IfOk, IfSome, IsTrue, List, [], Ok, Some, length};
ghost use Rattle.shelf_store.specs.ShelfState.{ShelfState};
ghost use Rattle.indirect_macs.specs.Entries.{is_size};
ghost use Rattle.indirect_macs.specs.Replaced.{Changes, Replaced};
ghost use Rattle.indirect_macs.specs.RunFields.{run_for};
ghost use Rattle.indirect_macs.specs.Runs.{levels_for, most_puts, most_reads};
ghost use Rattle.file_blocks.specs.ChangeFields.{change_of};
ghost use Rattle.file_blocks.specs.Changes.{Changed, HasDraws, Leaving, PassesIn, refs_to};
ghost use Rattle.file_blocks.specs.Objects.{blocks_for};
ghost use Rattle.file_blocks.specs.Outcomes.{IsWrote};

use crate::object::Object;
use crate::put::{Placed, Texts, put_texts};
use crate::read::blocks_for;
use crate::write_error::WriteError;
use block_crypt::BlockKey;
use indirect_macs::{BlockRef, MacError, ObjTree, replace_run};
use salt_rotation::{MAX_DRAWS, Salts};
use shelf_store::Shelf;
use std::alloc::Global;

/// What a write or a cut changes of an object, beside the texts.
#[derive(Clone, Copy)]
pub(crate) struct Plan {
    pub tree: ObjTree,
    /// The record size.
    pub block: u32,
    /// The new length.
    pub length: u64,
    /// The tree stays as it is; then there are no texts.
    pub stays: bool,
    /// The first block that gets a new text.
    pub first: u32,
}

/// What a write or a cut made of an object.
#[derive(Drop)]
pub struct Wrote {
    /// The new object.
    pub object: Object,
    /// The first block that was sealed anew.
    pub first: u32,
    /// The references to it and to those behind it, in order. Empty where none was sealed.
    pub refs: Vec<Option<BlockRef>>,
    /// The number of the salt of the last of them.
    pub last_number: Option<u64>,
}

// The new tree, with these references in it.
fn new_tree<B: Shelf>(
    alloc: Global,
    shelf: &mut B,
    plan: &Plan,
    refs: &[Option<BlockRef>],
) -> Result<ObjTree, MacError>
    requires above { 1 ≤ plan.now.tree.levels }
    requires levels { plan.now.tree.levels ≤ 5 }
    requires record_size { 512 ≤ plan.now.block }
    requires bytes { plan.now.length ≤ 4294967296 }
    requires within { plan.now.first + length refs.now ≤ blocks_for plan.now.block plan.now.length }
    requires sizes { All (λ entry. IfSome entry (λ r. IsTrue (is_size plan.now.block r.size))) refs.now }
    requires kept { plan.now.stays ≡ true
        → plan.now.tree.levels ≡ levels_for (blocks_for plan.now.block plan.now.length) }
    ensures levels { IfOk result (λ tree. tree.levels ≡ levels_for (blocks_for plan.now.block plan.now.length)) }
    ensures stays { plan.now.stays ≡ true
        → (result ≡ Ok plan.now.tree) × (B.told shelf.new ≡ B.told shelf.old) }
    ensures changes { let blocks = blocks_for plan.now.block plan.now.length in
        let run = run_for plan.now.tree blocks plan.now.first refs.now in
        Changes (most_reads run) (most_puts run) result (B.told shelf.old) (B.told shelf.new) }
    ensures told { plan.now.stays ≡ false → IfSome (B.told shelf.old).held (λ held. Replaced held plan.now.block
        (run_for plan.now.tree (blocks_for plan.now.block plan.now.length) plan.now.first refs.now) result
        (B.told shelf.old) (B.told shelf.new)) }
{
    if plan.stays {
        return Ok(plan.tree);
    }
    let blocks = blocks_for(plan.block, plan.length);
    replace_run(
        alloc, &plan.tree, shelf, blocks, plan.first, refs, plan.block,
    )
}

// Seals and puts the texts, and then the nodes over them.
fn put_change<K: BlockKey, B: Shelf, T: Texts>(
    alloc: Global,
    key: &K,
    salts: &mut Salts,
    shelf: &mut B,
    plan: &Plan,
    texts: &T,
) -> Result<Wrote, WriteError>
    requires above { 1 ≤ plan.now.tree.levels }
    requires levels { plan.now.tree.levels ≤ 5 }
    requires least { 512 ≤ plan.now.block }
    requires most { plan.now.block ≤ 131072 }
    requires bytes { plan.now.length ≤ 4294967296 }
    requires within { plan.now.first + length (T.told texts.now) ≤ blocks_for plan.now.block plan.now.length }
    requires sizes { All (λ text. (1 ≤ length text) × (length text ≤ plan.now.block)) (T.told texts.now) }
    requires stays { plan.now.stays ≡ true
        → plan.now.tree.levels ≡ levels_for (blocks_for plan.now.block plan.now.length) }
    requires draws { HasDraws salts.old (length (T.told texts.now)) }
    ensures leaving { Leaving (length (T.told texts.now)) 0 result (B.told shelf.old) (B.told shelf.new)
        salts.old salts.new }
    ensures told { IfSome (B.told shelf.old).held (λ held.
        PassesIn (K.told key.now) salts.old held (length (B.told shelf.old).sizes)
        (change_of plan.now (T.told texts.now))
        → Changed (λ wrote. wrote.object) (K.told key.now) held (Ok (change_of plan.now (T.told texts.now))) result
        (B.told shelf.old) (B.told shelf.new) salts.old salts.new) }
    ensures first { IfOk result (λ wrote. wrote.first ≡ plan.now.first) }
    ensures refs { IfOk result (λ wrote. wrote.refs.items
        ≡ refs_to (K.told key.now) salts.old (length (B.told shelf.old).sizes) (T.told texts.now)) }
    ensures wrote { IfOk result (IsWrote plan.now.block plan.now.length salts.old salts.new) }
{
    let placed = match put_texts(alloc, key, salts, shelf, texts) {
        Ok(placed) => placed,
        Err(stop) => return Err(WriteError::Stopped(stop)),
    };
    let tree = match new_tree(alloc, shelf, plan, placed.refs.as_slice()) {
        Ok(tree) => tree,
        Err(stop) => return Err(WriteError::Stopped(stop)),
    };
    Ok(Wrote {
        object: Object {
            length: plan.length,
            tree,
        },
        first: plan.first,
        refs: placed.refs,
        last_number: placed.last_number,
    })
}

/// The object with new texts of some of its blocks: they are sealed and put in ascending order, each
/// under a draw of its own, and then the nodes over them.
///
/// # Errors
///
/// `DrawsFull` where fewer draws are left than there are texts; then nothing was put and no draw
/// made. Else `Stopped`, as of `put_texts` and of `replace_run`.
pub(crate) fn change_object<K: BlockKey, B: Shelf, T: Texts>(
    alloc: Global,
    key: &K,
    salts: &mut Salts,
    shelf: &mut B,
    plan: &Plan,
    texts: &T,
) -> Result<Wrote, WriteError>
    requires above { 1 ≤ plan.now.tree.levels }
    requires levels { plan.now.tree.levels ≤ 5 }
    requires least { 512 ≤ plan.now.block }
    requires most { plan.now.block ≤ 131072 }
    requires bytes { plan.now.length ≤ 4294967296 }
    requires within { plan.now.first + length (T.told texts.now) ≤ blocks_for plan.now.block plan.now.length }
    requires sizes { All (λ text. (1 ≤ length text) × (length text ≤ plan.now.block)) (T.told texts.now) }
    requires stays { plan.now.stays ≡ true
        → plan.now.tree.levels ≡ levels_for (blocks_for plan.now.block plan.now.length) }
    ensures leaving { Leaving (length (T.told texts.now)) 0 result (B.told shelf.old) (B.told shelf.new)
        salts.old salts.new }
    ensures told { IfSome (B.told shelf.old).held (λ held.
        PassesIn (K.told key.now) salts.old held (length (B.told shelf.old).sizes)
        (change_of plan.now (T.told texts.now))
        → Changed (λ wrote. wrote.object) (K.told key.now) held (Ok (change_of plan.now (T.told texts.now))) result
        (B.told shelf.old) (B.told shelf.new) salts.old salts.new) }
    ensures first { IfOk result (λ wrote. wrote.first ≡ plan.now.first) }
    ensures refs { IfOk result (λ wrote. wrote.refs.items
        ≡ refs_to (K.told key.now) salts.old (length (B.told shelf.old).sizes) (T.told texts.now)) }
    ensures wrote { IfOk result (IsWrote plan.now.block plan.now.length salts.old salts.new) }
{
    if u64::from(texts.count()) > MAX_DRAWS - salts.made() {
        return Err(WriteError::DrawsFull);
    }
    put_change(alloc, key, salts, shelf, plan, texts)
}

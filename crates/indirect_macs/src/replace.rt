// A run of references is put into a tree.
ghost use Rattle.std.specs.Prelude.{◌≡◌, ◌&&◌, nat_le, nat_lt, ℕ, ◌+◌, ◌-◌, ◌*◌, ◌^◌, ◌<◌, ◌≤◌, ◌∷◌, ◌++◌, List, [], length, map, min, replicate, All, IsTrue, Option, Result, Some, None, Ok, Err, IfSome, IfOk, IfErr, if◌then◌else◌};
ghost use Rattle.std.specs.Cmp.Lexicographic.{pointwise};
ghost use Rattle.std.specs.Option.{option_eq};
ghost use Rattle.shelf_store.specs.ShelfState.{ShelfState};
ghost use Rattle.indirect_macs.specs.Calls.{is_fault};
ghost use Rattle.indirect_macs.specs.Entries.{is_size};
ghost use Rattle.indirect_macs.specs.RunFields.{run_for, run_of};
ghost use Rattle.indirect_macs.specs.Runs.{Made as Outcome, Old, begun, count_at, entries_at, first_at, found_at, kept, last_at, levels_for, levels_made, most_puts, most_reads, new_node, new_ref, nodes_made, old_of, or_hole, raised_below, same_block, same_node, target, touched_below};
ghost use Rattle.indirect_macs.specs.Replaced.{Changes, Replaced};
ghost use Rattle.indirect_macs.specs.Steps.{added, AllWalk, FirstOf, HasPut, IsRange, Knows, LevelsPut, LevelsRun, Puts};

use crate::children::{Found, or_hole, read_blocks, read_children};
use crate::node::ENTRIES;
use crate::refs::{BlockRef, MacError, NodeRef, ObjTree};
use crate::run::Run;
use crate::span::{first_at, last_at, levels_for};
use crate::stored::{put_inner, put_leaf};
use shelf_store::Shelf;
use std::alloc::Global;

// The new references to the touched nodes of a level, from the first on, and that to the node over
// all of the old tree, where a level above the old top isn't touched there.
#[derive(Drop)]
struct Made {
    refs: Vec<Option<NodeRef>>,
    raised: Option<NodeRef>,
}

// The new reference to a block, whose old one is given.
fn target(run: &Run, index: u32, old: &Option<BlockRef>) -> Option<BlockRef>
    ensures { (before : Old) → before.block index ≡ old.now → result ≡ target (run_of run.now) before index }
{
    if run.blocks <= index {
        return None;
    }
    if run.from <= index && (index - run.from) < run.refs.len() as u32 {
        return run.refs[(index - run.from) as usize];
    }
    *old
}

fn is_touched(run: &Run, level: u8, index: u32) -> bool
    requires { level ≤ 5 }
    ensures value { result ≡ (nat_le (first_at (run_of run.now) level) index
        && nat_le index (last_at (run_of run.now) level)) }
    ensures low { IsTrue result → first_at (run_of run.now) level ≤ index }
    ensures high { IsTrue result → index ≤ last_at (run_of run.now) level }
{
    first_at(run, level) <= index && index <= last_at(run, level)
}

// All blocks under a node are behind the last one that stays.
fn is_behind(run: &Run, level: u8, index: u32) -> bool
    requires { level ≤ 5 }
    ensures { result ≡ nat_le run.now.blocks (index * 32 ^ level) }
{
    u64::from(run.blocks) <= u64::from(index) << (5 * u32::from(level))
}

// A level above the old top whose first node isn't touched.
fn is_raised(run: &Run, level: u8) -> bool
    requires { level ≤ 5 }
    ensures { result ≡ (nat_lt run.now.tree.levels level && nat_lt 0 (first_at (run_of run.now) level)) }
{
    level > run.tree.levels && first_at(run, level) > 0
}

// The new reference to a node of this level, whose old one is given.
fn new_ref(run: &Run, level: u8, made: &Made, index: u32, old: &Option<NodeRef>) -> Option<NodeRef>
    requires levels { level ≤ 5 }
    requires count { length made.now.refs.items ≡ count_at (run_of run.now) level }
    ensures { (before : Old) (below : Outcome) → before.node level index ≡ old.now → made.now.refs.items ≡ below.refs
        → made.now.raised ≡ below.raised → result ≡ new_ref (run_of run.now) before level below index }
{
    if is_touched(run, level, index) {
        return made.refs[(index - first_at(run, level)) as usize];
    }
    if is_behind(run, level, index) {
        return None;
    }
    if level <= run.tree.levels {
        return *old;
    }
    if index == 0 { made.raised } else { None }
}

fn new_blocks(run: &Run, index: u32, old: &[Option<BlockRef>]) -> [Option<BlockRef>; 32]
    requires fits { 32 * index < 2 ^ 31 }
    requires size { length old.now ≡ 32 }
    ensures { (before : Old) → old.now ≡ entries_at before.block index
        → result ≡ entries_at (target (run_of run.now) before) index }
{
    let mut entries = [None; ENTRIES];
    'entries: for slot in 0..ENTRIES {
        entries[slot] = target(run, 32 * index + slot as u32, &old[slot]);
    }
    entries
}

fn old_refs(old: &[Found]) -> [Option<NodeRef>; 32]
    requires { length old.now ≡ 32 }
    ensures { result ≡ map or_hole old.now }
{
    let mut entries = [None; ENTRIES];
    'entries: for slot in 0..ENTRIES {
        entries[slot] = or_hole(&old[slot]);
    }
    entries
}

fn new_refs(
    run: &Run,
    level: u8,
    below: &Made,
    index: u32,
    old: &[Option<NodeRef>; 32],
) -> [Option<NodeRef>; 32]
    requires above { 2 ≤ level }
    requires levels { level ≤ 5 }
    requires fits { 32 * index < 2 ^ 31 }
    requires count { length below.now.refs.items ≡ count_at (run_of run.now) (level - 1) }
    ensures { (before : Old) (made : Outcome) → old.now ≡ entries_at (before.node (level - 1)) index
        → below.now.refs.items ≡ made.refs → below.now.raised ≡ made.raised
        → result ≡ entries_at (new_ref (run_of run.now) before (level - 1) made) index }
{
    let mut entries = [None; ENTRIES];
    'entries: for slot in 0..ENTRIES {
        entries[slot] = new_ref(run, level - 1, below, 32 * index + slot as u32, &old[slot]);
    }
    entries
}

fn same_blocks(old: &[Option<BlockRef>], new: &[Option<BlockRef>; 32]) -> bool
    ensures { result ≡ pointwise (option_eq same_block) old.now new.now }
{
    old == new.as_slice()
}

fn same_refs(old: &[Option<NodeRef>; 32], new: &[Option<NodeRef>; 32]) -> bool
    ensures { result ≡ pointwise (option_eq same_node) old.now new.now }
{
    old == new
}

fn kept(same: bool, old: &Found) -> Option<NodeRef>
    ensures { result ≡ (if same then or_hole old.now else None) }
{
    if same { or_hole(old) } else { None }
}

fn push(refs: &mut Vec<Option<NodeRef>>, node: Option<NodeRef>) -> Result<(), MacError>
    ensures pushed { IfOk result (λ _. refs.new.items ≡ refs.old.items ++ node ∷ []) }
    ensures stop { IfErr result (λ stop. stop ≡ MacError.NoMemory) }
{
    match refs.push(node) {
        Ok(()) => Ok(()),
        Err(_) => Err(MacError::NoMemory),
    }
}

// The new node of level 1 of an index, whose old blocks are given.
fn add_leaf<B: Shelf>(
    run: &Run,
    shelf: &mut B,
    index: u32,
    old: &Found,
    before: &[Option<BlockRef>],
    refs: &mut Vec<Option<NodeRef>>,
) -> Result<(), MacError>
    requires fits { 32 * index < 2 ^ 31 }
    requires size { length before.now ≡ 32 }
    ensures { (o : Old) (reads : ℕ) (made : Outcome) (start : ShelfState)
        → before.now ≡ entries_at o.block index → or_hole old.now ≡ o.node 1 index
        → refs.old.items ≡ made.refs → HasPut reads made.puts start (B.told shelf.old)
        → let after = added (length start.sizes) (new_node (run_of run.now) o 1 made index)
        (kept (run_of run.now) o 1 made index) made in
        IfOk result (λ _. refs.new.items ≡ after.refs) × Puts reads after.puts result start (B.told shelf.new) }
{
    let entries = new_blocks(run, index, before);
    match put_leaf(shelf, &entries, &kept(same_blocks(before, &entries), old)) {
        Ok(node) => push(refs, node),
        Err(stop) => Err(stop),
    }
}

// The new node of a level above 1 of an index, whose old entries are given.
fn add_inner<B: Shelf>(
    run: &Run,
    shelf: &mut B,
    level: u8,
    index: u32,
    old: &Found,
    before: &[Found],
    below: &Made,
    refs: &mut Vec<Option<NodeRef>>,
) -> Result<(), MacError>
    requires above { 2 ≤ level }
    requires levels { level ≤ 5 }
    requires fits { 32 * index < 2 ^ 31 }
    requires size { length before.now ≡ 32 }
    requires below { length below.now.refs.items ≡ count_at (run_of run.now) (level - 1) }
    ensures { (o : Old) (reads : ℕ) (under made : Outcome) (start : ShelfState)
        → map or_hole before.now ≡ entries_at (o.node (level - 1)) index
        → or_hole old.now ≡ o.node level index → below.now.refs.items ≡ under.refs → below.now.raised ≡ under.raised
        → refs.old.items ≡ made.refs → HasPut reads made.puts start (B.told shelf.old)
        → let after = added (length start.sizes) (new_node (run_of run.now) o level under index)
        (kept (run_of run.now) o level under index) made in
        IfOk result (λ _. refs.new.items ≡ after.refs) × Puts reads after.puts result start (B.told shelf.new) }
{
    let children = old_refs(before);
    let entries = new_refs(run, level, below, index, &children);
    match put_inner(
        shelf,
        level,
        &entries,
        &kept(same_refs(&children, &entries), old),
    ) {
        Ok(node) => push(refs, node),
        Err(stop) => Err(stop),
    }
}

// The touched nodes of level 1.
fn put_leaves<B: Shelf>(
    alloc: Global,
    run: &Run,
    shelf: &mut B,
    old: &[Found],
    blocks: &[Option<BlockRef>],
) -> Result<Made, MacError>
    requires count { length old.now ≡ count_at (run_of run.now) 1 }
    requires size { length blocks.now ≡ 32 * length old.now }
    ensures made { (before : Old) (reads : ℕ) (start : ShelfState)
        → IsRange (before.node 1) (first_at (run_of run.now) 1) (length old.now) (map or_hole old.now)
        → IsRange before.block (32 * first_at (run_of run.now) 1) (32 * length old.now) blocks.now
        → HasPut reads [] start (B.told shelf.old)
        → LevelsPut (λ made. made.refs.items) (λ made. made.raised) reads
        (levels_made (run_of run.now) before (length start.sizes) 1) result start (B.told shelf.new) }
{
    let first = first_at(run, 1);
    let mut refs = Vec::new(alloc);
    'nodes: for i in 0..old.len() {
        let before = &blocks[ENTRIES * i..ENTRIES * i + ENTRIES];
        if let Err(stop) = add_leaf(run, shelf, first + i as u32, &old[i], before, &mut refs) {
            return Err(stop);
        }
    }
    Ok(Made {
        refs,
        raised: run.tree.top,
    })
}

// The node over all of the old tree, where a level above the old top isn't touched there.
fn put_raised<B: Shelf>(
    run: &Run,
    shelf: &mut B,
    level: u8,
    below: &Made,
) -> Result<Option<NodeRef>, MacError>
    requires levels { level ≤ 5 }
    ensures { (reads : ℕ) (made : Outcome) (start : ShelfState) → below.now.raised ≡ made.raised
        → HasPut reads made.puts start (B.told shelf.old)
        → let first = begun (run_of run.now) (length start.sizes) level made in
        IfOk result (λ raised. raised ≡ first.raised) × Puts reads first.puts result start (B.told shelf.new) }
{
    if !is_raised(run, level) {
        return Ok(below.raised);
    }
    let mut entries = [None; ENTRIES];
    entries[0] = below.raised;
    put_inner(shelf, level, &entries, &None)
}

// The touched nodes of a level above 1.
fn put_nodes<B: Shelf>(
    alloc: Global,
    run: &Run,
    shelf: &mut B,
    level: u8,
    old: &[Found],
    children: &[Found],
    below: &Made,
) -> Result<Vec<Option<NodeRef>>, MacError>
    requires above { 2 ≤ level }
    requires levels { level ≤ 5 }
    requires count { length old.now ≡ count_at (run_of run.now) level }
    requires size { length children.now ≡ 32 * length old.now }
    requires below { length below.now.refs.items ≡ count_at (run_of run.now) (level - 1) }
    ensures { (before : Old) (reads : ℕ) (made : Outcome) (start : ShelfState)
        → Knows (run_of run.now) before level (first_at (run_of run.now) level) old.now children.now
        → below.now.refs.items ≡ made.refs → below.now.raised ≡ made.raised
        → HasPut reads (begun (run_of run.now) (length start.sizes) level made).puts start (B.told shelf.old)
        → let after = nodes_made (run_of run.now) before (length start.sizes) level made (length old.now) in
        IfOk result (λ refs. refs.items ≡ after.refs) × Puts reads after.puts result start (B.told shelf.new) }
{
    let first = first_at(run, level);
    let mut refs = Vec::new(alloc);
    'nodes: for i in 0..old.len() {
        let before = &children[ENTRIES * i..ENTRIES * i + ENTRIES];
        if let Err(stop) = add_inner(
            run,
            shelf,
            level,
            first + i as u32,
            &old[i],
            before,
            below,
            &mut refs,
        ) {
            return Err(stop);
        }
    }
    Ok(refs)
}

fn put_level<B: Shelf>(
    alloc: Global,
    run: &Run,
    shelf: &mut B,
    level: u8,
    old: &[Found],
    children: &[Found],
    below: &Made,
) -> Result<Made, MacError>
    requires above { 2 ≤ level }
    requires levels { level ≤ 5 }
    requires count { length old.now ≡ count_at (run_of run.now) level }
    requires size { length children.now ≡ 32 * length old.now }
    requires below { length below.now.refs.items ≡ count_at (run_of run.now) (level - 1) }
    ensures { (before : Old) (reads : ℕ) (made : Outcome) (start : ShelfState)
        → Knows (run_of run.now) before level (first_at (run_of run.now) level) old.now children.now
        → below.now.refs.items ≡ made.refs → below.now.raised ≡ made.raised
        → HasPut reads made.puts start (B.told shelf.old)
        → LevelsPut (λ made. made.refs.items) (λ made. made.raised) reads
        (nodes_made (run_of run.now) before (length start.sizes) level made (length old.now))
        result start (B.told shelf.new) }
{
    let raised = match put_raised(run, shelf, level, below) {
        Ok(node) => node,
        Err(stop) => return Err(stop),
    };
    match put_nodes(alloc, run, shelf, level, old, children, below) {
        Ok(refs) => Ok(Made { refs, raised }),
        Err(stop) => Err(stop),
    }
}

// The children of the touched nodes of a level that are touched themselves.
fn touched<'a>(run: &Run, level: u8, children: &'a [Found]) -> &'a [Found]
    requires above { 2 ≤ level }
    requires levels { level ≤ 5 }
    requires size { length children.now ≡ 32 * count_at (run_of run.now) level }
    ensures count { length result.now ≡ count_at (run_of run.now) (level - 1) }
    ensures range { (f : ℕ → Result (Option NodeRef) MacError)
        → IsRange f (32 * first_at (run_of run.now) level) (32 * count_at (run_of run.now) level) children.now
        → IsRange f (first_at (run_of run.now) (level - 1)) (count_at (run_of run.now) (level - 1)) result.now }
{
    let above = first_at(run, level);
    let low = first_at(run, level - 1);
    let high = last_at(run, level - 1);
    &children[(low - 32 * above) as usize..(high - 32 * above) as usize + 1]
}

// The new nodes of the levels up to this one, of which what the walks to the touched nodes found is
// given. Levels above the new top are only read.
fn replace_levels<B: Shelf>(
    alloc: Global,
    run: &Run,
    shelf: &mut B,
    level: u8,
    old: &[Found],
) -> Result<Made, MacError>
    requires above { 1 ≤ level }
    requires levels { level ≤ 5 }
    requires count { length old.now ≡ count_at (run_of run.now) level }
    ensures told { IfSome (B.told shelf.old).held (λ held.
        IsRange (found_at held run.now.block (run_of run.now) level) (first_at (run_of run.now) level)
        (length old.now) old.now
        → LevelsRun (λ made. made.refs.items) (λ made. made.raised) held run.now.block (run_of run.now)
        (touched_below (run_of run.now) (min level run.now.tree.levels))
        (levels_made (run_of run.now) (old_of held run.now.block (run_of run.now))
        (length (B.told shelf.old).sizes) (min level (levels_for run.now.blocks)))
        result (B.told shelf.old) (B.told shelf.new)) }
    ensures changes { Changes (touched_below (run_of run.now) (min level run.now.tree.levels))
        (touched_below (run_of run.now) (min level (levels_for run.now.blocks)) + raised_below (run_of run.now)
        (min level (levels_for run.now.blocks)))
        result (B.told shelf.old) (B.told shelf.new) }
    ensures count { IfOk result (λ made. length made.refs.items
        ≡ count_at (run_of run.now) (min level (levels_for run.now.blocks))) }
{
    if level == 1 {
        return match read_blocks(alloc, run, shelf, old) {
            Ok(blocks) => put_leaves(alloc, run, shelf, old, &blocks),
            Err(stop) => Err(stop),
        };
    }
    let children = match read_children(alloc, run, shelf, level, old) {
        Ok(children) => children,
        Err(stop) => return Err(stop),
    };
    let below = match replace_levels(alloc, run, shelf, level - 1, touched(run, level, &children)) {
        Ok(below) => below,
        Err(stop) => return Err(stop),
    };
    if level > levels_for(run.blocks) {
        return Ok(below);
    }
    put_level(alloc, run, shelf, level, old, &children, &below)
}

// What stands at the first place of a level, of the old top's or above.
fn old_top(tree: &ObjTree, level: u8) -> Option<NodeRef>
    ensures { result ≡ (if nat_lt tree.now.levels level then None else tree.now.top) }
{
    if level > tree.levels { None } else { tree.top }
}

/// The tree with a run of references put in, of `blocks` blocks in all.
///
/// The references `refs` stand in it from the block `from` on, and behind `blocks` there are none.
/// The nodes over the run are read and tested, each once, before anything is put; where the run is
/// empty these are the nodes over the last block that stays. Then the new nodes are put level by
/// level from 1, and in each level from left to right: each node whose entries change, or of which
/// the old tree has none. `block` is the record size.
///
/// # Errors
///
/// `MacFailed` with the first place that fails its test, in the order of the first blocks and of
/// equal ones from the top down; then nothing was put. `ShelfFault` exactly where one of the calls
/// is the one whose failure was armed, and `Full` where the next node doesn't fit. What was put by
/// then is a front of the nodes that all of the run would put.
pub fn replace_run<B: Shelf>(
    alloc: Global,
    tree: &ObjTree,
    shelf: &mut B,
    blocks: u32,
    from: u32,
    refs: &[Option<BlockRef>],
    block: u32,
) -> Result<ObjTree, MacError>
    requires above { 1 ≤ tree.now.levels }
    requires levels { tree.now.levels ≤ 5 }
    requires within { from + length refs.now ≤ blocks }
    requires most { blocks ≤ 8388608 }
    requires sizes { All (λ entry. IfSome entry (λ r. IsTrue (is_size block r.size))) refs.now }
    ensures levels { IfOk result (λ after. after.levels ≡ levels_for blocks) }
    ensures changes { let run = run_for tree.now blocks from refs.now in
        Changes (most_reads run) (most_puts run) result (B.told shelf.old) (B.told shelf.new) }
    ensures told { IfSome (B.told shelf.old).held (λ held.
        Replaced held block (run_for tree.now blocks from refs.now) result (B.told shelf.old) (B.told shelf.new)) }
{
    let levels = levels_for(blocks);
    if blocks == 0 {
        return Ok(ObjTree { levels, top: None });
    }
    let run = Run {
        tree: *tree,
        blocks,
        from,
        refs,
        block,
    };
    let highest = levels.max(tree.levels);
    match replace_levels(alloc, &run, shelf, highest, &[Ok(old_top(tree, highest))]) {
        Ok(made) => Ok(ObjTree {
            levels,
            top: made.refs[0],
        }),
        Err(stop) => Err(stop),
    }
}

// Laws of trees and of the run. The functions do nothing.
ghost use Rattle.std.specs.Prelude.{◌≡◌, ◌+◌, ◌-◌, ◌/◌, ◌^◌, ◌<◌, ◌≤◌, ◌⊎◌, ◌++◌, ℕ, List, [], ◌∷◌, Option, None, Some, Ok, All, IfSome, length, replicate, slice_index_or};
ghost use Rattle.std.specs.List.{flat_map};
ghost use Rattle.std.specs.Option.{option_map};
ghost use Rattle.indirect_macs.specs.Entries.{block_under_mac};
ghost use Rattle.indirect_macs.specs.Fold.{fold_mac};
ghost use Rattle.indirect_macs.specs.Nodes.{block_node, mac_of, ref_node};
ghost use Rattle.indirect_macs.specs.Runs.{Old, Passes, Run, last_block, levels_for, most_puts, most_reads, old_of, puts_of, walk_to};
ghost use Rattle.indirect_macs.specs.Trees.{AreBytes, HasBytes, HoldsBytes, IsRunOn, IsTree, LosesAll, held_after, tree_after, tree_before, walk_after, with_run};
ghost use Rattle.indirect_macs.specs.Walk.{walk};
ghost use Rattle.indirect_macs.specs.declared.refs.BlockRef.{BlockRef};
ghost use Rattle.indirect_macs.specs.declared.refs.NodeRef.{NodeRef};
ghost use Rattle.indirect_macs.specs.declared.refs.ObjTree.{ObjTree};

/// A tree in its one spelling has the MAC of the references that it leads to.
pub fn tops_are_folds()
    ensures { (held : List (List ℕ)) (record_size : ℕ) (tree : ObjTree) (refs : List (Option BlockRef))
        → HoldsBytes held → IsTree held record_size tree refs → option_map (λ node. node.mac) tree.top ≡ fold_mac refs }
{}

/// Trees in their one spelling. A tree of holes is one; a longer shelf keeps one. No walk in one
/// fails, so that a run into it passes, and where the run loses all that stands behind the new
/// number of blocks it makes such a tree again, of the references with the run put in.
pub fn runs_keep_trees()
    ensures holes { (held : List (List ℕ)) (record_size blocks : ℕ) → blocks ≤ 8388608
        → IsTree held record_size (record { levels = levels_for blocks; top = None }) (replicate blocks None) }
    ensures grown { (held more : List (List ℕ)) (record_size : ℕ) (tree : ObjTree) (refs : List (Option BlockRef))
        → IsTree held record_size tree refs → IsTree (held ++ more) record_size tree refs }
    ensures passes { (held : List (List ℕ)) (record_size : ℕ) (run : Run) (refs : List (Option BlockRef))
        → 1 ≤ run.levels → IsTree held record_size (tree_before run) refs → Passes held record_size run }
    ensures kept { (held : List (List ℕ)) (record_size : ℕ) (run : Run) (refs : List (Option BlockRef))
        → IsRunOn held record_size run → IsTree held record_size (tree_before run) refs → LosesAll run refs
        → IsTree (held_after held record_size run) record_size (tree_after held record_size run) (with_run run refs) }
{}

/// A shelf of bytes stays one where the run's references are of bytes, and then the top of the new
/// tree has the MAC of the references with the run put in. The reference to a node that a walk went
/// through names a held block, and its MAC is 16 bytes.
pub fn runs_keep_bytes()
    ensures bytes { (held : List (List ℕ)) (record_size : ℕ) (run : Run) → 1 ≤ run.levels → HoldsBytes held
        → All (λ entry. IfSome entry HasBytes) run.refs → IfSome run.top (λ node. AreBytes node.mac)
        → HoldsBytes (held_after held record_size run) }
    ensures walked { (held : List (List ℕ)) (record_size index below : ℕ) (node : NodeRef) (found : Option BlockRef)
        → walk held record_size index below (Some node) ≡ Ok found
        → (node.addr < length held) × (length node.mac ≡ 16) × AreBytes node.mac }
    ensures folds { (held : List (List ℕ)) (record_size : ℕ) (run : Run) (refs : List (Option BlockRef))
        → IsRunOn held record_size run → All (λ entry. IfSome entry HasBytes) run.refs
        → IfSome run.top (λ node. AreBytes node.mac) → IsTree held record_size (tree_before run) refs
        → LosesAll run refs
        → option_map (λ node. node.mac) (tree_after held record_size run).top ≡ fold_mac (with_run run refs) }
{}

/// A run that changes no reference of a tree in its one spelling puts nothing, so neither does a
/// cut that loses holes alone, also where levels are lost.
pub fn runs_put_only_changes()
    ensures { (held : List (List ℕ)) (record_size : ℕ) (run : Run) (refs : List (Option BlockRef)) → 1 ≤ run.levels
        → IsTree held record_size (tree_before run) refs
        → ((index : ℕ) → slice_index_or (with_run run refs) index None ≡ slice_index_or refs index None)
        → levels_for run.blocks ≤ run.levels → puts_of run (old_of held record_size run) (length held) ≡ [] }
{}

/// Two runs by hand, on a shelf with 7 blocks before: the first block of an object, and the 33rd,
/// over which a node of level 2 is put with the old top in front.
pub fn runs_by_hand()
    ensures first { (r : BlockRef)
        → let run : Run = record { levels = 1; top = None; blocks = 1; from = 0; refs = Some r ∷ [] } in
        puts_of run (old_of [] 512 run) 7 ≡ block_node (Some r ∷ replicate 31 None) ∷ [] }
    ensures grown { (r : BlockRef) → let top : NodeRef = record { addr = 3; mac = replicate 16 9 } in
        let run : Run = record { levels = 1; top = Some top; blocks = 33; from = 32; refs = Some r ∷ [] } in
        let leaf = Some r ∷ replicate 31 None in
        let node : NodeRef = record { addr = 7; mac = mac_of 1 (flat_map block_under_mac leaf) } in
        puts_of run (old_of [] 512 run) 7 ≡ block_node leaf ∷ ref_node (Some top ∷ Some node ∷ replicate 30 None) ∷ [] }
{}

/// A run of `n` references reads at most `n / 31 + 9` nodes, and puts as many at most where the tree
/// has no more levels than before, and else `n / 31 + 12`.
pub fn runs_touch_few_nodes()
    ensures reads { (run : Run) → run.levels ≤ 5 → run.from + length run.refs ≤ run.blocks → run.blocks ≤ 8388608
        → most_reads run ≤ length run.refs / 31 + 9 }
    ensures puts { (run : Run) (old : Old) (base : ℕ) → length (puts_of run old base) ≤ most_puts run }
    ensures stays { (run : Run) → levels_for run.blocks ≤ run.levels → run.from + length run.refs ≤ run.blocks
        → run.blocks ≤ 8388608 → most_puts run ≤ length run.refs / 31 + 9 }
    ensures grows { (run : Run) → 1 ≤ run.levels → run.from + length run.refs ≤ run.blocks
        → run.blocks ≤ 8388608 → most_puts run ≤ length run.refs / 31 + 12 }
{}

/// Where the nodes over a run pass, the walks of the new tree are those of the old one with the run
/// put in: within the run they give its references, whatever the old tree led to, and each block
/// elsewhere that the old tree led to is found as before, and a hole beyond the old tree. Behind the
/// new number of blocks they find nothing, where the run ends at the last block or the old tree had
/// nothing there.
pub fn runs_change_their_blocks_alone()
    ensures within { (held : List (List ℕ)) (record_size : ℕ) (run : Run) (index : ℕ) → IsRunOn held record_size run
        → Passes held record_size run → run.from ≤ index → index < run.from + length run.refs
        → walk_after held record_size run index ≡ Ok (slice_index_or run.refs (index - run.from) None) }
    ensures before { (held : List (List ℕ)) (record_size : ℕ) (run : Run) (index : ℕ) (found : Option BlockRef)
        → IsRunOn held record_size run → Passes held record_size run → index < run.from
        → walk_to held record_size run index ≡ Ok found → walk_after held record_size run index ≡ Ok found }
    ensures behind { (held : List (List ℕ)) (record_size : ℕ) (run : Run) (index : ℕ) (found : Option BlockRef)
        → IsRunOn held record_size run → Passes held record_size run → run.from + length run.refs ≤ index
        → index < run.blocks → walk_to held record_size run index ≡ Ok found
        → walk_after held record_size run index ≡ Ok found }
    ensures past { (held : List (List ℕ)) (record_size : ℕ) (run : Run) (index : ℕ) → IsRunOn held record_size run
        → Passes held record_size run → run.blocks ≤ index → index < 32 ^ (tree_after held record_size run).levels
        → (last_block run ≡ run.blocks - 1) ⊎ (walk_to held record_size run index ≡ Ok None)
        → walk_after held record_size run index ≡ Ok None }
{}

/// What is put for a run changes nothing of an older tree on the same shelf, as that of a snapshot:
/// a walk that found a block or a hole finds the same.
pub fn runs_keep_older_trees()
    ensures { (held : List (List ℕ)) (record_size : ℕ) (run : Run) (index below : ℕ)
        (top : Option NodeRef) (found : Option BlockRef)
        → walk held record_size index below top ≡ Ok found
        → walk (held_after held record_size run) record_size index below top ≡ Ok found }
{}

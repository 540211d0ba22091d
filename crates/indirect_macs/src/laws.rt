// Laws of the definitions. The functions do nothing.
ghost use Rattle.std.specs.Prelude.{◌≡◌, ◌<◌, ◌≤◌, ◌++◌, ◌/◌, ℕ, List, Option, Some, None, Ok, Err, All, IfSome, IsSome, length, slice_index, map, true};
ghost use Rattle.std.specs.List.{flat_map};
ghost use Rattle.std.specs.Option.{option_map};
ghost use Rattle.indirect_macs.specs.Entries.{IsBlockRef, IsNodeRef, block_under_mac, node_under_mac};
ghost use Rattle.indirect_macs.specs.Nodes.{block_node, blocks_of, has_entries, mac_of, node_len, node_mac, ref_node, refs_of};
ghost use Rattle.indirect_macs.specs.Walk.{fails_at, group_walk, in_group, passed, walk};
ghost use Rattle.indirect_macs.specs.Places.{Place, block_in, place_at};
ghost use Rattle.indirect_macs.specs.declared.refs.BlockRef.{BlockRef};
ghost use Rattle.indirect_macs.specs.declared.refs.NodeRef.{NodeRef};

/// A node of level 1 has one spelling: its 32 references are read back from its bytes, and bytes that
/// are its entries are those of the references that they give. Its MAC covers what of each reference
/// is under it.
pub fn block_nodes_have_one_spelling()
    ensures read { (record_size : ℕ) (refs : List (Option BlockRef)) → length refs ≡ 32
        → All (λ entry. IfSome entry (IsBlockRef record_size)) refs → blocks_of (block_node refs) ≡ refs }
    ensures entries { (record_size : ℕ) (refs : List (Option BlockRef)) → length refs ≡ 32
        → All (λ entry. IfSome entry (IsBlockRef record_size)) refs
        → has_entries 1 record_size (block_node refs) ≡ true }
    ensures spelled { (record_size : ℕ) (node : List ℕ) → length node ≡ node_len 1
        → ((i : ℕ) → slice_index node i < 256)
        → has_entries 1 record_size node ≡ true → block_node (blocks_of node) ≡ node }
    ensures mac { (record_size : ℕ) (refs : List (Option BlockRef)) → length refs ≡ 32
        → All (λ entry. IfSome entry (IsBlockRef record_size)) refs
        → node_mac 1 (block_node refs) ≡ mac_of 1 (flat_map block_under_mac refs) }
{}

/// A node above level 1 has one spelling, as one of level 1. Nodes of all these levels are stored
/// alike, and only the MAC tells the level.
pub fn ref_nodes_have_one_spelling()
    ensures read { (refs : List (Option NodeRef)) → length refs ≡ 32
        → All (λ entry. IfSome entry IsNodeRef) refs → refs_of (ref_node refs) ≡ refs }
    ensures entries { (level record_size : ℕ) (refs : List (Option NodeRef)) → 2 ≤ level → length refs ≡ 32
        → All (λ entry. IfSome entry IsNodeRef) refs → has_entries level record_size (ref_node refs) ≡ true }
    ensures spelled { (level record_size : ℕ) (node : List ℕ) → 2 ≤ level → length node ≡ 800
        → ((i : ℕ) → slice_index node i < 256)
        → has_entries level record_size node ≡ true → ref_node (refs_of node) ≡ node }
    ensures mac { (level : ℕ) (refs : List (Option NodeRef)) → 2 ≤ level → length refs ≡ 32
        → All (λ entry. IfSome entry IsNodeRef) refs
        → node_mac level (ref_node refs) ≡ mac_of level (flat_map node_under_mac (map (option_map (λ r. r.mac)) refs)) }
{}

/// The walk to a block is the first place from the top, of those over the block, that fails its test,
/// and where all of them pass it is the reference that the lowest of them has.
pub fn walks_stop_at_the_first_place_that_fails()
    ensures fails { (held : List (List ℕ)) (record_size index below : ℕ) (top : Option NodeRef) (depth : ℕ)
        (place : Place)
        → place_at held index below top depth ≡ Some place → passed held record_size place.level place.node ≡ None
        → ((above : ℕ) (other : Place) → above < depth → place_at held index below top above ≡ Some other
        → IsSome (passed held record_size other.level other.node))
        → walk held record_size index below top ≡ Err (fails_at place.level index) }
    ensures passes { (held : List (List ℕ)) (record_size index below : ℕ) (top : Option NodeRef)
        → ((depth : ℕ) (place : Place) → place_at held index below top depth ≡ Some place
        → IsSome (passed held record_size place.level place.node))
        → walk held record_size index below top ≡ Ok (block_in held index (place_at held index below top below)) }
{}

/// A shelf that grows keeps what it gave: a node that passed its test passes it, and a walk that
/// found a block or a hole finds the same. So what is put for a new tree changes nothing of an older
/// one, as that of a snapshot.
pub fn walks_stay_when_the_shelf_grows()
    ensures nodes { (held more : List (List ℕ)) (record_size level : ℕ) (node : NodeRef) (bytes : List ℕ)
        → passed held record_size level node ≡ Some bytes → passed (held ++ more) record_size level node ≡ Some bytes }
    ensures blocks { (held more : List (List ℕ)) (record_size index below : ℕ) (top : Option NodeRef)
        (found : Option BlockRef)
        → walk held record_size index below top ≡ Ok found
        → walk (held ++ more) record_size index below top ≡ Ok found }
{}

/// The walk to a group of 32 blocks is the walk to each of them: it gives what that gives, and fails
/// where that fails, with the same place.
pub fn groups_lead_to_their_blocks()
    ensures { (held : List (List ℕ)) (record_size index below other : ℕ) (top : Option NodeRef)
        → other / 32 ≡ index / 32
        → walk held record_size other below top ≡ in_group other (group_walk held record_size index below top) }
{}

// Laws of the definitions. The functions do nothing.
ghost use Rattle.std.specs.Prelude.{◌≡◌, ◌↔◌, ◌≤◌, ◌<◌, ◌^◌, ◌-◌, ◌++◌, ◌∷◌, ℕ, List, Option, Some, None, Ok, [], true, false};
ghost use Rattle.std.specs.List.{All};
ghost use Rattle.shelf_store.specs.ShelfState.{ShelfState};
ghost use Rattle.indirect_macs.specs.declared.refs.BlockRef.{BlockRef};
ghost use Rattle.indirect_macs.specs.Runs.{Run, levels_for, walk_to};
ghost use Rattle.indirect_macs.specs.Trees.{HoldsBytes, tree_before};
ghost use Rattle.indirect_macs.specs.Walk.{walk};
ghost use Rattle.family_log.specs.declared.table.Table.{Table};
ghost use Rattle.family_log.specs.declared.table.TableRow.{TableRow};
ghost use Rattle.family_log.specs.declared.entry.Spot.{Spot};
ghost use Rattle.family_log.specs.declared.entry.LogEntry.{LogEntry};
ghost use Rattle.family_log.specs.declared.entry.LogEntry.TheVariants.{Snapshot, Clone};
ghost use Rattle.family_log.specs.Tables.{AreLevels};
ghost use Rattle.family_log.specs.Log.{Changes, Passes, changes_in, head_spot, is_head, is_past, last_ref, length_said, ref_in, ref_listed, said, snap_spot, last_length};
ghost use Rattle.family_log.specs.LogSample.{first_block, second_block, third_block, fourth_block, fifth_block, sixth_block, sample};
ghost use Rattle.family_log.specs.Model.{FamilyState};
ghost use Rattle.family_log.specs.Honest.{HasGrown, IsHonest, TellsTheLog, row_leads};

/// The newest reference of a place counts, and an entry of another head says nothing, nor does a change
/// that doesn't name the place or shorten its object. Lengths go the same way.
pub fn the_newest_entry_counts()
    ensures refs { (record_size : ℕ) (before after : List LogEntry) (entry : LogEntry) (spot : Spot) (object index : ℕ)
        (to : Option BlockRef)
        → said (ref_in record_size object index) spot entry ≡ Some to
        → All (Passes (ref_in record_size object index) spot) after
        → last_ref record_size (before ++ entry ∷ after) spot object index ≡ to }
    ensures lengths { (before after : List LogEntry) (entry : LogEntry) (spot : Spot) (object : ℕ)
        (length_now : Option ℕ)
        → said (length_said object) spot entry ≡ Some length_now → All (Passes (length_said object) spot) after
        → last_length (before ++ entry ∷ after) spot object ≡ length_now }
    ensures others { (record_size : ℕ) (log : List LogEntry) (entry : LogEntry) (changes : Changes) (spot : Spot)
        (object index : ℕ) → changes_in entry ≡ Some changes → is_head changes.head spot ≡ false
        → last_ref record_size (log ++ entry ∷ []) spot object index ≡ last_ref record_size log spot object index }
    ensures unsaid { (record_size : ℕ) (log : List LogEntry) (entry : LogEntry) (changes : Changes) (spot : Spot)
        (object index : ℕ) → changes_in entry ≡ Some changes → ref_in record_size object index changes ≡ None
        → last_ref record_size (log ++ entry ∷ []) spot object index ≡ last_ref record_size log spot object index }
    ensures unsaid_lengths { (log : List LogEntry) (entry : LogEntry) (changes : Changes) (spot : Spot) (object : ℕ)
        → changes_in entry ≡ Some changes → length_said object changes ≡ None
        → last_length (log ++ entry ∷ []) spot object ≡ last_length log spot object }
    ensures holes { (record_size : ℕ) (log : List LogEntry) (spot : Spot) (object index : ℕ)
        → All (Passes (ref_in record_size object index) spot) log → last_ref record_size log spot object index ≡ None }
{}

/// An entry that says that an object is gone, or that it has no more blocks than an index, makes a hole
/// of each place from there on that it doesn't list, until a newer entry says otherwise.
pub fn lengths_say_where_holes_begin()
    ensures { (record_size : ℕ) (before after : List LogEntry) (entry : LogEntry) (changes : Changes)
        (object index : ℕ) (length_now : Option ℕ) → changes_in entry ≡ Some changes
        → length_said object changes ≡ Some length_now → is_past record_size index length_now ≡ true
        → ref_listed object index changes ≡ None
        → All (Passes (ref_in record_size object index) (head_spot changes.head)) after
        → last_ref record_size (before ++ entry ∷ after) (head_spot changes.head) object index ≡ None }
{}

/// A snapshot is read over the log up to its newest Snapshot entry, and the head of a clone over what
/// the snapshot had that it was cloned from, where it has no entry of its own. Lengths go the same way.
pub fn snapshots_and_clones_keep_what_they_had()
    ensures snapshot { (record_size : ℕ) (before after : List LogEntry) (head : ℕ) (part : List ℕ) (object index : ℕ)
        → All (Passes (ref_in record_size object index) (snap_spot head part)) after
        → last_ref record_size (before ++ Snapshot head part ∷ after) (snap_spot head part) object index
        ≡ last_ref record_size before (head_spot head) object index }
    ensures clone { (record_size : ℕ) (before after : List LogEntry) (from : Spot) (head : ℕ) (object index : ℕ)
        → All (Passes (ref_in record_size object index) (head_spot head)) after
        → last_ref record_size (before ++ Clone from head ∷ after) (head_spot head) object index
        ≡ last_ref record_size before from object index }
    ensures snapshot_lengths { (before after : List LogEntry) (head : ℕ) (part : List ℕ) (object : ℕ)
        → All (Passes (length_said object) (snap_spot head part)) after
        → last_length (before ++ Snapshot head part ∷ after) (snap_spot head part) object
        ≡ last_length before (head_spot head) object }
    ensures clone_lengths { (before after : List LogEntry) (from : Spot) (head : ℕ) (object : ℕ)
        → All (Passes (length_said object) (head_spot head)) after
        → last_length (before ++ Clone from head ∷ after) (head_spot head) object ≡ last_length before from object }
{}

/// A log of two heads, of which the second was cloned from a snapshot of the first. An object of three
/// blocks is cut to one, removed, and made anew under its number.
#[tactic(auto, unfolding(crate::specs::Log::newest))]
pub fn a_sample_log_is_read_as_it_was_written()
    ensures head { last_ref 512 sample (head_spot 1) 2 0 ≡ Some third_block }
    ensures snapshot { last_ref 512 sample (snap_spot 1 (97 ∷ [])) 2 0 ≡ Some first_block }
    ensures clone { last_ref 512 sample (head_spot 2) 2 0 ≡ Some first_block }
    ensures own_entry { last_ref 512 sample (head_spot 2) 2 1 ≡ Some fourth_block }
    ensures other_head { last_ref 512 sample (head_spot 1) 2 1 ≡ None }
    ensures newest_snapshot { last_ref 512 sample (snap_spot 1 (98 ∷ [])) 2 0 ≡ Some second_block }
    ensures length_of_head { last_length sample (head_spot 1) 2 ≡ Some 9 }
    ensures length_of_clone { last_length sample (head_spot 2) 2 ≡ Some 5 }
    ensures gone { last_length sample (head_spot 2) 3 ≡ None }
    ensures before_the_cut { last_ref 512 sample (snap_spot 1 (99 ∷ [])) 4 2 ≡ Some sixth_block }
    ensures in_front_of_the_cut { last_ref 512 sample (snap_spot 1 (100 ∷ [])) 4 0 ≡ Some fifth_block }
    ensures behind_the_cut { last_ref 512 sample (snap_spot 1 (100 ∷ [])) 4 1 ≡ None }
    ensures removed { last_ref 512 sample (head_spot 1) 4 0 ≡ None }
    ensures made_anew { last_ref 512 sample (head_spot 1) 4 1 ≡ Some sixth_block }
    ensures not_again { last_ref 512 sample (head_spot 1) 4 2 ≡ None }
{}

/// The levels of a tree over at most 32 ^ 5 blocks are those that `levels_for` computes, and no other
/// number.
pub fn levels_are_computed()
    ensures { (blocks levels : ℕ) → blocks ≤ 32 ^ 5 → AreLevels blocks levels ↔ (levels ≡ levels_for blocks) }
{}

/// Where the tree of a row leads is the walk of each run into that tree, and within the tree the plain
/// walk from its top.
pub fn rows_lead_as_their_trees()
    ensures runs { (blocks : List (List ℕ)) (record_size index : ℕ) (row : TableRow) (run : Run)
        → row.tree ≡ tree_before run
        → row_leads blocks record_size index row ≡ walk_to blocks record_size run index }
    ensures within { (blocks : List (List ℕ)) (record_size index : ℕ) (row : TableRow) → index < 32 ^ row.tree.levels
        → row_leads blocks record_size index row ≡ walk blocks record_size index (row.tree.levels - 1) row.tree.top }
    ensures past { (blocks : List (List ℕ)) (record_size index : ℕ) (row : TableRow) → 32 ^ row.tree.levels ≤ index
        → row_leads blocks record_size index row ≡ Ok None }
{}

/// A shelf that only grows keeps what tables tell of the log: what is put for new trees changes
/// nothing of older ones. So a family stays on an honest shelf while blocks of bytes are put.
pub fn longer_shelves_stay_honest()
    ensures tables { (blocks more : List (List ℕ)) (log : List LogEntry) (spot : Spot) (table : Table)
        → TellsTheLog blocks log spot table → TellsTheLog (blocks ++ more) log spot table }
    ensures families { (family : FamilyState) (more : List (List ℕ)) (shelf : ShelfState) → IsHonest family
        → HasGrown more family.shelf shelf → HoldsBytes more → IsHonest (record family { shelf = shelf }) }
{}

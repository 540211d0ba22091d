// Laws of the definitions. The functions do nothing.
ghost use Rattle.std.specs.Prelude.{◌≡◌, ◌+◌, ◌-◌, ◌/◌, ◌%◌, ◌<◌, ◌≤◌, ◌⊎◌, ℕ, List, [], ◌∷◌, ◌++◌, false, length, Option, Some, None, Ok, Err, slice_get, slice_index_or};
ghost use Rattle.std.specs.Option.{option_map_or};
ghost use Rattle.block_crypt.specs.Blocks.{KeyValue};
ghost use Rattle.salt_rotation.specs.SaltState.{SaltState};
ghost use Rattle.indirect_macs.specs.Runs.{Passes, levels_for};
ghost use Rattle.indirect_macs.specs.Trees.{IsRunOn};
ghost use Rattle.indirect_macs.specs.Walk.{place_of};
ghost use Rattle.indirect_macs.specs.declared.refs.BlockRef.{BlockRef};
ghost use Rattle.indirect_macs.specs.declared.refs.NodeRef.{NodeRef};
ghost use Rattle.indirect_macs.specs.declared.refs.ObjTree.{ObjTree};
ghost use Rattle.indirect_macs.specs.declared.refs.MacError.{MacError};
ghost use Rattle.indirect_macs.specs.declared.refs.MacError.TheVariants as mac_error;
ghost use Rattle.file_blocks.specs.Changes.{Change, calls_of, held_with, object_in, puts_in, ref_in, run_in};
ghost use Rattle.file_blocks.specs.Objects.{blocks_for, count_touched, filled, object_range, part_of, spliced, text_at, text_of, texts_at};
ghost use Rattle.file_blocks.specs.Places.{FailsFirst, IsBefore};
ghost use Rattle.file_blocks.specs.Writes.{Write, change_to, cut_by, end_of, front_at, last_kept, left_of, new_texts, reads_of};
ghost use Rattle.file_blocks.specs.declared.object.Object.{Object};

/// Blocks that are read one after another fail at the least place that fails: of all places over a
/// block of the range above which all pass, by their first block, and of two with the same by the
/// higher level. They fail with a place, and where none fails they don't.
pub fn reads_stop_at_the_least_place_that_fails()
    ensures fails { (key : KeyValue) (held : List (List ℕ)) (record_size : ℕ) (tree : ObjTree) (first count : ℕ)
        (failed : MacError) → texts_at key held record_size tree first count ≡ Err failed
        → (index : ℕ) × (level : ℕ) × (first ≤ index) × (index < first + count)
        × (failed ≡ mac_error.MacFailed level (place_of level index))
        × FailsFirst key held record_size tree index level }
    ensures least { (key : KeyValue) (held : List (List ℕ)) (record_size : ℕ) (tree : ObjTree)
        (first count level place index other : ℕ)
        → texts_at key held record_size tree first count ≡ Err (mac_error.MacFailed level place)
        → first ≤ index → index < first + count → FailsFirst key held record_size tree index other
        → IsBefore level place other (place_of other index) ⊎ ((level ≡ other) × (place ≡ place_of other index)) }
    ensures passes { (key : KeyValue) (held : List (List ℕ)) (record_size : ℕ) (tree : ObjTree)
        (first count index level : ℕ) → first ≤ index → index < first + count
        → FailsFirst key held record_size tree index level
        → (failed : MacError) × (texts_at key held record_size tree first count ≡ Err failed) }
{}

/// Each byte of a range of an object is the byte at its place of what its block stores, and zero in a
/// hole and behind what the block stores; the range has no other bytes.
pub fn ranges_have_the_bytes_of_their_blocks()
    ensures bytes { (key : KeyValue) (held : List (List ℕ)) (record_size : ℕ) (tree : ObjTree) (from end j : ℕ)
        (bytes : List ℕ) → 0 < record_size → object_range key held record_size tree from end ≡ Ok bytes → from + j < end
        → (stored : Option (List ℕ)) × (text_at key held record_size tree ((from + j) / record_size) ≡ Ok stored)
        × (slice_get bytes j
        ≡ Some (slice_index_or (option_map_or (λ text. text) stored []) ((from + j) % record_size) 0)) }
    ensures size { (key : KeyValue) (held : List (List ℕ)) (record_size : ℕ) (tree : ObjTree) (from end : ℕ)
        (bytes : List ℕ) → 0 < record_size → from ≤ end → object_range key held record_size tree from end ≡ Ok bytes
        → length bytes ≡ end - from }
{}

/// What a change leaves, where the walks over it pass: each block that gets a new text stores it, and
/// opens to it; and each other block of the object stores what it stored before, and is a hole where
/// it lies beyond the old tree.
pub fn changes_store_their_texts_alone()
    ensures changed { (key : KeyValue) (salts : SaltState) (held : List (List ℕ)) (c : Change) (k : ℕ) → c.stays ≡ false
        → IsRunOn (held_with key salts held c) c.record_size (run_in key salts (length held) c)
        → Passes held c.record_size (run_in key salts (length held) c) → k < length c.texts
        → text_at key (held ++ puts_in key salts held (length held) c) c.record_size
        (object_in key salts held (length held) c).tree (c.first + k) ≡ Ok (Some (slice_index_or c.texts k [])) }
    ensures others { (key : KeyValue) (salts : SaltState) (held : List (List ℕ)) (c : Change) (index : ℕ)
        (found : Option BlockRef) (stored : Option (List ℕ)) → c.stays ≡ false
        → IsRunOn (held_with key salts held c) c.record_size (run_in key salts (length held) c)
        → Passes held c.record_size (run_in key salts (length held) c)
        → index < blocks_for c.record_size c.new_length → (index < c.first) ⊎ (c.first + length c.texts ≤ index)
        → ref_in held c.record_size c.tree index ≡ Ok found → text_of key held index found ≡ Ok stored
        → text_at key (held ++ puts_in key salts held (length held) c) c.record_size
        (object_in key salts held (length held) c).tree index ≡ Ok stored }
{}

/// Behind a write whose old texts pass, the range that was written has the write's bytes, and a range
/// of the old object that the write doesn't meet has the bytes that it had.
pub fn writes_change_their_bytes_alone()
    ensures written { (key : KeyValue) (salts : SaltState) (held : List (List ℕ)) (w : Write) (texts : List (List ℕ))
        → 1 ≤ w.tree.levels → 0 < w.record_size → 0 < length w.bytes → new_texts key held w ≡ Ok texts
        → IsRunOn (held_with key salts held (change_to w texts)) w.record_size
        (run_in key salts (length held) (change_to w texts))
        → object_range key (held ++ puts_in key salts held (length held) (change_to w texts)) w.record_size
        (object_in key salts held (length held) (change_to w texts)).tree w.from (end_of w) ≡ Ok w.bytes }
    ensures others { (key : KeyValue) (salts : SaltState) (held : List (List ℕ)) (w : Write) (texts : List (List ℕ))
        (from end : ℕ) (bytes : List ℕ) → 1 ≤ w.tree.levels → 512 ≤ w.record_size → 0 < length w.bytes
        → w.old_length ≤ 4294967296 → w.tree.levels ≡ levels_for (blocks_for w.record_size w.old_length)
        → new_texts key held w ≡ Ok texts
        → IsRunOn (held_with key salts held (change_to w texts)) w.record_size
        (run_in key salts (length held) (change_to w texts))
        → from ≤ end → end ≤ w.old_length → (end ≤ w.from) ⊎ (end_of w ≤ from)
        → object_range key held w.record_size w.tree from end ≡ Ok bytes
        → object_range key (held ++ puts_in key salts held (length held) (change_to w texts)) w.record_size
        (object_in key salts held (length held) (change_to w texts)).tree from end ≡ Ok bytes }
{}

/// Behind a cut that shortens an object, and of which the last block that stays passes, a range of what
/// stays has the bytes that it had.
pub fn cuts_keep_what_stays()
    ensures { (key : KeyValue) (salts : SaltState) (held : List (List ℕ)) (record_size : ℕ) (object : Object)
        (to from end : ℕ) (front : Option (List ℕ)) (bytes : List ℕ) → 512 ≤ record_size → 1 ≤ object.tree.levels
        → object.length ≤ 4294967296 → object.tree.levels ≡ levels_for (blocks_for record_size object.length)
        → 0 < to → to < object.length
        → front_at key held record_size object.tree (last_kept record_size to) (left_of record_size to) ≡ Ok front
        → IsRunOn (held_with key salts held (cut_by object.tree record_size to front)) record_size
        (run_in key salts (length held) (cut_by object.tree record_size to front))
        → from ≤ end → end ≤ to → object_range key held record_size object.tree from end ≡ Ok bytes
        → object_range key (held ++ puts_in key salts held (length held) (cut_by object.tree record_size to front))
        record_size (object_in key salts held (length held) (cut_by object.tree record_size to front)).tree from end
        ≡ Ok bytes }
{}

/// Worked values: bytes that are cut, filled up and written over, the blocks that some bytes touch, and
/// bytes across three blocks of 4 of which the second is a hole. How many calls of a shelf put one text
/// and 62 texts at most, and how many read what is taken over by a write into the last block of a group
/// and the first of the next, below two levels.
pub fn bytes_by_hand()
    ensures cut { filled 2 (7 ∷ 8 ∷ 9 ∷ []) ≡ 7 ∷ 8 ∷ [] }
    ensures filled { filled 4 (7 ∷ 8 ∷ []) ≡ 7 ∷ 8 ∷ 0 ∷ 0 ∷ [] }
    ensures spliced { spliced (1 ∷ 2 ∷ 3 ∷ 4 ∷ 5 ∷ []) 1 (8 ∷ 9 ∷ []) ≡ 1 ∷ 8 ∷ 9 ∷ 4 ∷ 5 ∷ [] }
    ensures behind { spliced (1 ∷ []) 3 (8 ∷ 9 ∷ []) ≡ 1 ∷ 0 ∷ 0 ∷ 8 ∷ 9 ∷ [] }
    ensures blocks { (blocks_for 512 0 ≡ 0) × (blocks_for 512 512 ≡ 1) × (blocks_for 512 513 ≡ 2) }
    ensures touched { (count_touched 512 5 5 ≡ 0) × (count_touched 512 511 513 ≡ 2) × (count_touched 512 512 1024 ≡ 1) }
    ensures part { part_of 4 6 18
        (Some (1 ∷ 2 ∷ 3 ∷ []) ∷ None ∷ Some (4 ∷ 5 ∷ 6 ∷ 7 ∷ []) ∷ Some (8 ∷ 9 ∷ 10 ∷ 11 ∷ []) ∷ [])
        ≡ 3 ∷ 0 ∷ 0 ∷ 0 ∷ 0 ∷ 0 ∷ 4 ∷ 5 ∷ 6 ∷ 7 ∷ 8 ∷ 9 ∷ [] }
    ensures calls { (calls_of 1 ≡ 22) × (calls_of 62 ≡ 87) }
    ensures reads { (top : Option NodeRef) → let w : Write = record {
      tree = record { levels = 2; top = top };
      old_length = 0;
      record_size = 4;
      from = 126;
      bytes = 1 ∷ 2 ∷ 3 ∷ 4 ∷ [];
    } in reads_of w ≡ 9 }
{}

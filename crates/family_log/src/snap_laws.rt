// Laws of snapshots and clones. The functions do nothing.
ghost use Rattle.std.specs.Prelude.{◌≡◌, ◌==◌, ◌++◌, ◌∷◌, ℕ, List, Some, None, [], false, is_none, true};
ghost use Rattle.std.specs.List.{All};
ghost use Rattle.std.specs.Option.{option_map};
ghost use Rattle.family_log.specs.declared.entry.Spot.{Spot};
ghost use Rattle.family_log.specs.declared.entry.LogEntry.{LogEntry};
ghost use Rattle.family_log.specs.declared.entry.LogEntry.TheVariants.{Snapshot, Clone};
ghost use Rattle.family_log.specs.Log.{KeepsLast, head_spot, snap_spot};
ghost use Rattle.family_log.specs.Model.{FamilyState, IsFamily, head_of, table_of};
ghost use Rattle.family_log.specs.Snapshots.{KeepsSpot, clone_added, has_snapshot, head_removed, is_about, same_spot, snapshot_added, snapshot_removed, with_guid};

/// Entries that don't change a spot and don't make it leave what the log tells of it, whatever else they
/// are: so a snapshot stands still for good. A snapshot is read as its head was when it was made, and a
/// clone's head as the snapshot was.
pub fn spots_are_read_as_before()
    ensures later { (log later : List LogEntry) (spot : Spot) → All (λ entry. is_about spot entry ≡ false) later
        → KeepsLast log spot (log ++ later) spot }
    ensures snapshot { (log : List LogEntry) (head : ℕ) (part : List ℕ)
        → KeepsLast log (head_spot head) (log ++ Snapshot head part ∷ []) (snap_spot head part) }
    ensures clone { (log : List LogEntry) (from : Spot) (head : ℕ)
        → KeepsLast log from (log ++ Clone from head ∷ []) (head_spot head) }
{}

/// A snapshot has the table that its head has when it is made, with its guid, and every other spot keeps
/// its own.
pub fn snapshots_stand_still()
    ensures made { (family : FamilyState) (head : ℕ) (part : List ℕ) (guid : ℕ) → IsFamily family
        → has_snapshot head part family.heads ≡ false
        → table_of (snap_spot head part) (snapshot_added head part guid family).heads
        ≡ option_map (with_guid guid) (table_of (head_spot head) family.heads) }
    ensures others { (family : FamilyState) (head : ℕ) (part : List ℕ) (guid : ℕ) (spot : Spot) → IsFamily family
        → same_spot spot (snap_spot head part) ≡ false
        → KeepsSpot family (snapshot_added head part guid family) spot }
{}

/// A clone's head has the table of what it was cloned from, without a guid, and every other spot keeps
/// its own.
pub fn clones_begin_with_their_snapshot()
    ensures made { (family : FamilyState) (from : Spot) (head : ℕ) → is_none (head_of head family.heads) ≡ true
        → table_of (head_spot head) (clone_added from head family).heads
        ≡ option_map (with_guid 0) (table_of from family.heads) }
    ensures others { (family : FamilyState) (from : Spot) (head : ℕ) (spot : Spot)
        → is_none (head_of head family.heads) ≡ true → same_spot spot (head_spot head) ≡ false
        → KeepsSpot family (clone_added from head family) spot }
{}

/// A head that is removed is gone with its snapshots, and a snapshot alone; every other spot keeps what
/// it has.
pub fn removals_touch_one_spot()
    ensures head { (family : FamilyState) (head : ℕ) (spot : Spot) → (spot.head == head) ≡ true
        → table_of spot (head_removed head family).heads ≡ None }
    ensures other_heads { (family : FamilyState) (head : ℕ) (spot : Spot) → (spot.head == head) ≡ false
        → KeepsSpot family (head_removed head family) spot }
    ensures snapshot { (family : FamilyState) (head : ℕ) (part : List ℕ) → IsFamily family
        → table_of (snap_spot head part) (snapshot_removed head part family).heads ≡ None }
    ensures other_spots { (family : FamilyState) (head : ℕ) (part : List ℕ) (spot : Spot) → IsFamily family
        → same_spot spot (snap_spot head part) ≡ false → KeepsSpot family (snapshot_removed head part family) spot }
{}

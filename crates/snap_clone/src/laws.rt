// Laws of the calls on snapshots and clones. The functions do nothing.
ghost use Rattle.std.specs.Prelude.{◌≡◌, ◌≤◌, ◌<◌, ℕ, Bool, List, None, Some, Ok, Err, true, false, length, is_none};
ghost use Rattle.std.specs.List.{All, list_any};
ghost use Rattle.dataset_tree.specs.declared.refusal.Refusal.TheVariants.{Exists, Full, HasClones, NoHead, NoSnapshot};
ghost use Rattle.salt_rotation.specs.SaltState.{SaltState};
ghost use Rattle.family_log.specs.declared.entry.Spot.{Spot};
ghost use Rattle.family_log.specs.Log.{head_spot, snap_spot};
ghost use Rattle.family_log.specs.Model.{FamilyState, IsFamily, fresh_family, head_of, snapshot_count};
ghost use Rattle.family_log.specs.Snapshots.{IsNewHead, KeepsSpot, clone_added, has_snapshot, names_head, snapshot_added};
ghost use Rattle.snap_clone.specs.Answers.{HasNoSnapshots, clone_answer, drop_snapshot_answer, is_snapshot, snapshot_answer};
ghost use Rattle.snap_clone.specs.Acts.{Act, Continues, Follows, IsDone, done, drops, touches};
ghost use Rattle.snap_clone.specs.Ids.{ActsUpTo, IsUpTo};

/// What a call on a family doesn't make, change or drop keeps its files, through one call and through any
/// number of them.
pub fn every_other_spot_keeps_its_files()
    ensures once { (act : Act) (family : FamilyState) (spot : Spot) → IsFamily family → IsDone act family
        → touches spot act ≡ false → KeepsSpot family (done act family) spot }
    ensures always { (acts : List Act) (family later : FamilyState) (spot : Spot) → Follows acts family later
        → All (λ act. touches spot act ≡ false) acts → KeepsSpot family later spot }
{}

/// A snapshot has the files that its head had when it was made, for good: through whatever is done to the
/// family later on, unless it is dropped.
pub fn snapshots_have_what_their_head_had()
    ensures stands { (acts : List Act) (family later : FamilyState) (spot : Spot) → Follows acts family later
        → is_snapshot spot family.heads ≡ true → All (λ act. drops spot act ≡ false) acts
        → KeepsSpot family later spot }
    ensures made { (acts : List Act) (family later : FamilyState) (head : ℕ) (part : List ℕ) (guid : ℕ)
        → IsFamily family → snapshot_answer head part family ≡ Ok tt
        → Follows acts (snapshot_added head part guid family) later
        → All (λ act. drops (snap_spot head part) act ≡ false) acts
        → Continues family (head_spot head) guid later (snap_spot head part) }
{}

/// A clone's head has the files of its snapshot until it is changed itself, and no snapshots of its own at
/// first. The snapshot keeps its files, and can't be dropped, as long as the head is there.
pub fn clones_begin_with_their_snapshot_and_hold_it()
    ensures made { (acts : List Act) (family later : FamilyState) (from : Spot) (head : ℕ)
        → clone_answer from family ≡ Ok tt → IsNewHead head family → Follows acts (clone_added from head family) later
        → All (λ act. touches (head_spot head) act ≡ false) acts
        → Continues family from 0 later (head_spot head) }
    ensures held { (acts : List Act) (family later : FamilyState) (from : Spot) (head : ℕ)
        → clone_answer from family ≡ Ok tt → IsNewHead head family → Follows acts (clone_added from head family) later
        → All (λ act. drops (head_spot head) act ≡ false) acts
        → drop_snapshot_answer from later ≡ Err HasClones }
    ensures bare { (family : FamilyState) (from : Spot) (head : ℕ) → IsNewHead head family
        → HasNoSnapshots head (clone_added from head family) }
{}

/// A head is made once: of an id that the log names no head is made any more, whatever is done to the family,
/// and the log names each head that was made.
pub fn heads_are_made_once()
    ensures again { (acts : List Act) (family later : FamilyState) (head : ℕ) → Follows acts family later
        → list_any (names_head head) family.log ≡ true → ¬ IsNewHead head later }
    ensures clone { (family : FamilyState) (from : Spot) (head : ℕ)
        → list_any (names_head head) (clone_added from head family).log ≡ true }
    ensures fresh { (tells : Bool) (guid block : ℕ) (salts : SaltState) (room head : ℕ) (portable : List ℕ)
        → list_any (names_head head) (fresh_family tells guid block salts room head portable).log ≡ true }
{}

/// An id above all heads of a family and all heads that its log names is new. What is done to heads up to an
/// id leaves the family up to that id: so where ids are given out rising, each next one is new.
pub fn ids_above_all_are_new()
    ensures new { (family : FamilyState) (last head : ℕ) → IsUpTo last family → last < head → IsNewHead head family }
    ensures still { (act : Act) (family : FamilyState) (last : ℕ) → IsUpTo last family → IsDone act family
        → ActsUpTo last act → IsUpTo last (done act family) }
    ensures higher { (family : FamilyState) (last later : ℕ) → IsUpTo last family → last ≤ later → IsUpTo later family }
    ensures fresh { (tells : Bool) (guid block : ℕ) (salts : SaltState) (room head : ℕ) (portable : List ℕ)
        → IsUpTo head (fresh_family tells guid block salts room head portable) }
{}

/// The refusals of a snapshot: no such head, a full log, a name that is taken, 64 snapshots, in this order.
pub fn snapshots_are_refused_in_order()
    ensures no_head { (family : FamilyState) (head : ℕ) (part : List ℕ) → head_of head family.heads ≡ None
        → snapshot_answer head part family ≡ Err (NoHead head) }
    ensures full_log { (family : FamilyState) (head : ℕ) (part : List ℕ) → is_none (head_of head family.heads) ≡ false
        → family.room ≤ length family.log → snapshot_answer head part family ≡ Err (Full family.room) }
    ensures exists { (family : FamilyState) (head : ℕ) (part : List ℕ) → length family.log < family.room
        → has_snapshot head part family.heads ≡ true → snapshot_answer head part family ≡ Err Exists }
    ensures full { (family : FamilyState) (head : ℕ) (part : List ℕ) → is_none (head_of head family.heads) ≡ false
        → length family.log < family.room → has_snapshot head part family.heads ≡ false
        → 64 ≤ snapshot_count family.heads → snapshot_answer head part family ≡ Err (Full 64) }
    ensures made { (family : FamilyState) (head : ℕ) (part : List ℕ) → is_none (head_of head family.heads) ≡ false
        → length family.log < family.room → has_snapshot head part family.heads ≡ false
        → snapshot_count family.heads < 64 → snapshot_answer head part family ≡ Ok tt }
{}

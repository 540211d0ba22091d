// Laws of the files of snapshots and clones. The functions do nothing.
ghost use Rattle.std.specs.Prelude.{◌≡◌, ◌++◌, ℕ, List, Ok, false, true};
ghost use Rattle.std.specs.List.{All};
ghost use Rattle.std.specs.Option.{option_map};
ghost use Rattle.block_crypt.specs.Blocks.{KeyValue};
ghost use Rattle.family_log.specs.Log.{head_spot, snap_spot};
ghost use Rattle.family_log.specs.Model.{FamilyState, IsFamily};
ghost use Rattle.family_log.specs.Snapshots.{IsNewHead, clone_added, snapshot_added};
ghost use Rattle.family_log.specs.declared.entry.Spot.{Spot};
ghost use Rattle.file_dataset.specs.Files.{HasFilesOf};
ghost use Rattle.snap_clone.specs.Acts.{Act, Follows, drops, touches};
ghost use Rattle.snap_clone.specs.Answers.{clone_answer, is_snapshot, snapshot_answer};
ghost use Rattle.host_state.specs.Grown.{HasPlaced};

/// Whatever is done to a family, where nothing but new blocks is put on its shelf: what isn't made, changed or
/// dropped keeps its files, and so does a snapshot that isn't dropped.
pub fn files_stay_where_nothing_is_done()
    ensures others { (key : KeyValue) (acts : List Act) (family later : FamilyState) (spot : Spot)
        → Follows acts family later → HasPlaced family later → All (λ act. touches spot act ≡ false) acts
        → HasFilesOf key family spot later spot }
    ensures stands { (key : KeyValue) (acts : List Act) (family later : FamilyState) (spot : Spot)
        → Follows acts family later → HasPlaced family later → is_snapshot spot family.heads ≡ true
        → All (λ act. drops spot act ≡ false) acts → HasFilesOf key family spot later spot }
{}

/// A snapshot has the files that its head had when it was made, for good, unless it is dropped. A clone's head has
/// the files of its snapshot until its own first change.
pub fn snapshots_and_clones_have_the_files_of_their_origin()
    ensures snapshot { (key : KeyValue) (acts : List Act) (family later : FamilyState) (head : ℕ) (part : List ℕ)
        (guid : ℕ) → IsFamily family → snapshot_answer head part family ≡ Ok tt
        → Follows acts (snapshot_added head part guid family) later → HasPlaced family later
        → All (λ act. drops (snap_spot head part) act ≡ false) acts
        → HasFilesOf key family (head_spot head) later (snap_spot head part) }
    ensures clone { (key : KeyValue) (acts : List Act) (family later : FamilyState) (from : Spot) (head : ℕ)
        → clone_answer from family ≡ Ok tt → IsNewHead head family → Follows acts (clone_added from head family) later
        → HasPlaced family later → All (λ act. touches (head_spot head) act ≡ false) acts
        → HasFilesOf key family from later (head_spot head) }
{}

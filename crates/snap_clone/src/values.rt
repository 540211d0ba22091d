// Worked values of the calls on snapshots and clones.
ghost use Rattle.std.specs.Prelude.{◌≡◌, true, false, [], ◌∷◌, ◌++◌, Some, Ok, Err};
ghost use Rattle.std.specs.Option.{option_map};
ghost use Rattle.dataset_tree.specs.declared.refusal.Refusal.TheVariants.{EntropyFault, Exists, Full, HasClones, NoHead, NoSnapshot};
ghost use Rattle.dataset_tree.specs.declared.refusal.Stop.TheVariants as stops;
ghost use Rattle.family_log.specs.declared.entry.HeadChange.{HeadChange};
ghost use Rattle.family_log.specs.declared.entry.LogEntry.TheVariants.{Refused};
ghost use Rattle.family_log.specs.Log.{head_spot, snap_spot};
ghost use Rattle.family_log.specs.Model.{head_of, table_of};
ghost use Rattle.family_log.specs.Snapshots.{head_removed};
ghost use Rattle.snap_clone.specs.Answers.{after_stop, clone_answer, drop_answer, drop_snapshot_answer, refusal_or, snapshot_answer, spot_removed};
ghost use Rattle.snap_clone.specs.Acts.{Change, DropHead, DropSnapshot, drops, touches};
ghost use Rattle.snap_clone.specs.Sample.{a_name, b_name, c_name, full, sample};

/// Snapshots are listed in the order they were made. A name is taken for its own head alone. Of a refused
/// snapshot there is an entry, but for one of a missing head or over a full log.
pub fn snapshots_by_hand()
    ensures listed { option_map (λ head. head.parts) (head_of 1 sample.heads) ≡ Some (a_name ∷ b_name ∷ []) }
    ensures taken { snapshot_answer 1 b_name sample ≡ Err Exists }
    ensures of_the_clone { snapshot_answer 3 b_name sample ≡ Ok tt }
    ensures missing { snapshot_answer 2 b_name full ≡ Err (NoHead 2) }
    ensures full_log { snapshot_answer 1 b_name full ≡ Err (Full 4) }
    ensures entry { (after_stop 1 (stops.Refused Exists) sample).log
        ≡ sample.log ++ Refused (head_spot 1) Exists 0 0 ∷ [] }
    ensures no_entry_of_none { after_stop 2 (stops.Refused (NoHead 2)) sample ≡ sample }
    ensures no_entry_over_a_full_log { after_stop 1 (stops.Refused (Full 4)) full ≡ full }
    ensures no_entry_without_memory { after_stop 1 stops.NoMemory sample ≡ sample }
    ensures guid { option_map (λ table. table.guid) (table_of (snap_spot 1 b_name) sample.heads) ≡ Some 9 }
{}

/// A reason of the caller's counts where a snapshot isn't refused anyhow.
pub fn reasons_by_hand()
    ensures counts { refusal_or EntropyFault 1 c_name sample ≡ EntropyFault }
    ensures taken { refusal_or EntropyFault 1 a_name sample ≡ Exists }
    ensures full_log { refusal_or EntropyFault 1 c_name full ≡ Full 4 }
    ensures missing { refusal_or EntropyFault 2 c_name full ≡ NoHead 2 }
{}

/// A head is cloned from any snapshot, of a clone's head too, and from nothing else.
pub fn clones_by_hand()
    ensures of_a_snapshot { clone_answer (snap_spot 1 b_name) sample ≡ Ok tt }
    ensures again { clone_answer (snap_spot 1 a_name) sample ≡ Ok tt }
    ensures of_a_head { clone_answer (head_spot 1) full ≡ Err NoSnapshot }
    ensures of_another_head { clone_answer (snap_spot 3 a_name) sample ≡ Err NoSnapshot }
    ensures missing { clone_answer (snap_spot 1 c_name) full ≡ Err NoSnapshot }
    ensures full_log { clone_answer (snap_spot 1 b_name) full ≡ Err (Full 4) }
    ensures guid { option_map (λ table. table.guid) (table_of (head_spot 3) sample.heads) ≡ Some 0 }
{}

/// A snapshot is dropped where no head is left that was cloned from it; the last head that is dropped leaves
/// none.
pub fn drops_by_hand()
    ensures origin { drop_snapshot_answer (snap_spot 1 a_name) sample ≡ Err HasClones }
    ensures clone_is_gone { drop_snapshot_answer (snap_spot 1 a_name) (head_removed 3 sample) ≡ Ok tt }
    ensures other { drop_snapshot_answer (snap_spot 1 b_name) full ≡ Ok tt }
    ensures missing { drop_snapshot_answer (snap_spot 1 c_name) sample ≡ Err NoSnapshot }
    ensures of_a_head { drop_snapshot_answer (head_spot 1) sample ≡ Err NoSnapshot }
    ensures stays { option_map (λ head. head.parts) (head_of 1 (spot_removed (snap_spot 1 a_name) sample).heads)
        ≡ Some (b_name ∷ []) }
    ensures one_is_left { drop_answer 3 sample ≡ Ok false }
    ensures none_is_left { drop_answer 1 (head_removed 3 sample) ≡ Ok true }
    ensures no_head { drop_answer 2 sample ≡ Err (NoHead 2) }
{}

/// A head is touched by its own changes, a snapshot only where it is made and dropped, and a head that is dropped
/// takes its snapshots along.
pub fn acts_by_hand()
    ensures own_change { (change : HeadChange) → touches (head_spot 3) (Change 3 change) ≡ true }
    ensures other_change { (change : HeadChange) → touches (head_spot 1) (Change 3 change) ≡ false }
    ensures change_of_the_head { (change : HeadChange) → touches (snap_spot 1 a_name) (Change 1 change) ≡ false }
    ensures other_snapshot { touches (snap_spot 1 a_name) (DropSnapshot (snap_spot 1 b_name)) ≡ false }
    ensures own_end { drops (snap_spot 1 a_name) (DropSnapshot (snap_spot 1 a_name)) ≡ true }
    ensures end_of_the_head { drops (snap_spot 1 a_name) (DropHead 1) ≡ true }
    ensures end_of_the_clone { drops (snap_spot 1 a_name) (DropHead 3) ≡ false }
{}

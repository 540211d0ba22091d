// Laws of calls on a family whose shelf tells what it holds and has no failure armed. The functions do nothing.
ghost use Rattle.std.specs.Prelude.{◌≡◌, ◌≤◌, ℕ, List, [], ◌∷◌, Result, Ok, Err, IfErr, IfSome, true};
ghost use Rattle.dataset_tree.specs.declared.refusal.Refusal.{Refusal};
ghost use Rattle.dataset_tree.specs.declared.refusal.Refusal.TheVariants as refusals;
ghost use Rattle.dataset_tree.specs.declared.refusal.Stop.{Stop};
ghost use Rattle.block_crypt.specs.Blocks.{KeyValue};
ghost use Rattle.salt_rotation.specs.SaltState.{SaltState};
ghost use Rattle.salt_rotation.specs.declared.salts.TheConstants.{MAX_DRAWS};
ghost use Rattle.shelf_store.specs.ShelfState.{HasToldSizes};
ghost use Rattle.family_log.specs.declared.table.Table.{Table};
ghost use Rattle.family_log.specs.declared.entry.Spot.{Spot};
ghost use Rattle.family_log.specs.declared.entry.HeadChange.{HeadChange};
ghost use Rattle.family_log.specs.declared.entry.LogEntry.TheVariants as entries;
ghost use Rattle.family_log.specs.Log.{head_spot, snap_spot};
ghost use Rattle.family_log.specs.Model.{FamilyState, fresh_family};
ghost use Rattle.family_log.specs.Calls.{with_entry};
ghost use Rattle.file_blocks.specs.Changes.{Change};
ghost use Rattle.file_dataset.specs.declared.kind.Kind.TheVariants as kinds;
ghost use Rattle.file_dataset.specs.declared.kind.Kind.{Kind};
ghost use Rattle.file_dataset.specs.Calls.{Answers, IsRefusedBefore, Reads, answered_at};
ghost use Rattle.file_dataset.specs.ChangeCalls.{Edits, refused_edit};
ghost use Rattle.file_dataset.specs.Changes.{Edit};
ghost use Rattle.file_dataset.specs.Steady.{IsCalled, IsSteady, called_edit, called_read, ending_of, nearly_full};

/// A call that reads answers what the family gives, and leaves the family with the entry of this answer, unless
/// memory runs out. A call that changes a head answers what its edit gives, and leaves the family with what was put
/// of the edit's blocks, with the draws that were made for them, and with its entry, unless memory runs out. Both
/// leave a steady family.
pub fn steady_families_determine_calls<X, Y>()
    ensures reads { (sees : X → Y) (answer : List (List ℕ) → Table → Result Y Refusal) (most : Table → ℕ)
        (spot : Spot) (result : Result X Stop) (old new : FamilyState) → IsSteady old
        → Reads most spot result old new
        → IfSome old.shelf.held (λ held. Answers sees (answered_at (answer held) old spot) result)
        → IsCalled sees result new (called_read answer spot old) }
    ensures edits { (kind : Kind) (key : KeyValue) (hmac_key : List ℕ) (end head : ℕ)
        (edit : List (List ℕ) → Table → Result Edit Refusal) (most : Table → ℕ) (numbers : List ℕ)
        (answer : ℕ → X) (result : Result X Stop) (old new : FamilyState) → IsSteady old → HasToldSizes new.shelf
        → Edits kind key hmac_key head edit most numbers answer result old new
        → IfErr (refused_edit hmac_key end head old) (IsRefusedBefore (head_spot head) result old new)
        → IsCalled (λ x. x) result new (called_edit kind key hmac_key head edit answer old) }
{}

/// A fresh family is steady. Worked values: a head that isn't there and a log without room leave the family as it was;
/// a snapshot that isn't there and an edit without draws leave the entry of the refusal. Of a shelf with room for two
/// bytes more: where the blocks have more, those that fit are put, and a draw is made for the next one, if it is
/// sealed; else all are put.
pub fn calls_on_sample_families()
    ensures fresh { (guid block room head : ℕ) (salts : SaltState) (portable : List ℕ) → salts.made ≤ MAX_DRAWS
        → IsSteady (fresh_family true guid block salts room head portable) }
    ensures no_head { (answer : List (List ℕ) → Table → Result ℕ Refusal) (salts : SaltState) (portable : List ℕ)
        → called_read answer (head_spot 8) (fresh_family true 5 512 salts 4 7 portable)
        ≡ record { answer = Err (refusals.NoHead 8); family = fresh_family true 5 512 salts 4 7 portable } }
    ensures no_room { (key : KeyValue) (edit : List (List ℕ) → Table → Result Edit Refusal) (salts : SaltState)
        (hmac_key portable : List ℕ)
        → called_edit kinds.Cut key hmac_key 7 edit (λ draws. draws) (fresh_family true 5 512 salts 1 7 portable)
        ≡ record { answer = Err (refusals.Full 1); family = fresh_family true 5 512 salts 1 7 portable } }
    ensures no_snapshot { (answer : List (List ℕ) → Table → Result ℕ Refusal) (salts : SaltState) (portable : List ℕ)
        → called_read answer (snap_spot 7 (109 ∷ [])) (fresh_family true 5 512 salts 4 7 portable)
        ≡ record {
          answer = Err refusals.NoSnapshot;
          family = with_entry (entries.Refused (snap_spot 7 (109 ∷ [])) refusals.NoSnapshot 0 0)
              (fresh_family true 5 512 salts 4 7 portable);
        } }
    ensures no_draws { (key : KeyValue) (e : Edit) (change : Change) (seed text hmac_key portable : List ℕ)
        → called_edit kinds.Write key hmac_key 7
        (λ _ _. Ok (record e { change = record change { texts = text ∷ [] } })) (λ draws. draws)
        (fresh_family true 5 512 (record { seed = seed; limit = 1; made = 281474976710656 }) 4 7 portable)
        ≡ record {
          answer = Err (refusals.Full 281474976710656);
          family = with_entry (entries.Refused (head_spot 7) (refusals.Full 281474976710656) 0 0)
              (fresh_family true 5 512 (record { seed = seed; limit = 1; made = 281474976710656 }) 4 7 portable);
        } }
    ensures crowded { (family : FamilyState) (change : HeadChange)
        → ending_of (nearly_full family) (Ok change) ((1 ∷ 2 ∷ []) ∷ (3 ∷ []) ∷ (4 ∷ []) ∷ []) 2
        ≡ record { put = (1 ∷ 2 ∷ []) ∷ []; draws = 2; change = Err (refusals.Full 33554432) } }
    ensures node { (family : FamilyState) (change : HeadChange)
        → ending_of (nearly_full family) (Ok change) ((1 ∷ []) ∷ (2 ∷ []) ∷ (3 ∷ []) ∷ []) 2
        ≡ record { put = (1 ∷ []) ∷ (2 ∷ []) ∷ []; draws = 2; change = Err (refusals.Full 33554432) } }
    ensures all { (family : FamilyState) (change : HeadChange)
        → ending_of (nearly_full family) (Ok change) ((1 ∷ []) ∷ (2 ∷ []) ∷ []) 1
        ≡ record { put = (1 ∷ []) ∷ (2 ∷ []) ∷ []; draws = 1; change = Ok change } }
{}

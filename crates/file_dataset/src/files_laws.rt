// Laws of the files of spots. The functions do nothing.
ghost use Rattle.std.specs.Prelude.{◌≡◌, ◌≤◌, ◌++◌, ℕ, List, [], Some, true};
ghost use Rattle.std.specs.Option.{option_map};
ghost use Rattle.block_crypt.specs.Blocks.{KeyValue};
ghost use Rattle.salt_rotation.specs.SaltState.{SaltState};
ghost use Rattle.family_log.specs.Log.{KeepsLast, head_spot};
ghost use Rattle.family_log.specs.Model.{FamilyState, fresh_family};
ghost use Rattle.family_log.specs.Tables.{IsRecordSize, fresh_table};
ghost use Rattle.family_log.specs.declared.entry.Spot.{Spot};
ghost use Rattle.file_dataset.specs.Files.{HasFilesOf, ShowsFiles};
ghost use Rattle.file_dataset.specs.Portable.{portable};

/// The head of a fresh family on a shelf that tells its blocks has no files, and shows that it has none: files are
/// defined from there on, through each call. A spot has the files of another one, or its own of before, where the
/// log tells of it what it told of that one and the shelf has at most more blocks: so a snapshot has the files of
/// its head, a clone those of its snapshot, and each keeps them while nothing is written to it.
pub fn files_begin_empty_and_go_on()
    ensures fresh { (key : KeyValue) (hmac_key : List ℕ) (guid block : ℕ) (salts : SaltState) (room head : ℕ)
        → IsRecordSize block → 1 ≤ room → room ≤ 1048576
        → ShowsFiles key hmac_key
        (fresh_family true guid block salts room head (portable hmac_key (fresh_table block []))) (head_spot head) []
        (fresh_table block (portable hmac_key (fresh_table block []))) [] }
    ensures later { (key : KeyValue) (from spot : Spot) (put : List (List ℕ)) (old new : FamilyState)
        → new.block ≡ old.block → KeepsLast old.log from new.log spot
        → new.shelf.placed ≡ option_map (λ blocks. blocks ++ put) old.shelf.placed
        → HasFilesOf key old from new spot }
{}

// Laws of the definitions. The functions do nothing.
ghost use Rattle.std.specs.Prelude.{◌≡◌, ◌+◌, ◌<◌, ◌≤◌, ◌∷◌, ℕ, List, [], Err, None, Ok, Some, drop, map, min, take};
ghost use Rattle.dataset_tree.specs.declared.refusal.Refusal.{Refusal};
ghost use Rattle.dataset_tree.specs.declared.refusal.Refusal.TheVariants as refusals;
ghost use Rattle.block_crypt.specs.Blocks.{KeyValue};
ghost use Rattle.family_log.specs.declared.entry.Spot.{Spot};
ghost use Rattle.family_log.specs.declared.table.Table.{Table};
ghost use Rattle.family_log.specs.declared.table.TableRow.{TableRow};
ghost use Rattle.family_log.specs.Model.{FamilyState};
ghost use Rattle.file_blocks.specs.Objects.{count_touched, first_touched};
ghost use Rattle.file_blocks.specs.Places.{FailsFirst};
ghost use Rattle.indirect_macs.specs.declared.refs.ObjTree.{ObjTree};
ghost use Rattle.file_dataset.specs.ChangeCalls.{cut_calls, directory_calls, file_calls, write_calls};
ghost use Rattle.file_dataset.specs.Least.{IsFirstFailing};
ghost use Rattle.file_dataset.specs.Edits.{Files, bytes_of};
ghost use Rattle.file_dataset.specs.Files.{ShowsFiles, file_length};
ghost use Rattle.file_dataset.specs.Reads.{plain_names, plain_read, row_range};

/// The range of an object that can't be read is refused by the first place that fails: of all places over a
/// block of the range above which all pass, the one with the least first block, and of two with the same the
/// higher. Where such a place fails, the range is refused.
pub fn ranges_name_the_first_place_that_fails()
    ensures refused { (key : KeyValue) (held : List (List ℕ)) (record_size : ℕ) (row : TableRow) (from len : ℕ)
        (why : Refusal) → row_range key held record_size row from len ≡ Err why
        → (level : ℕ) × (place : ℕ) × (why ≡ refusals.MacFailed row.object level place)
        × IsFirstFailing key held record_size row.tree (first_touched record_size (min from row.length))
        (count_touched record_size (min from row.length) (min (from + len) row.length)) level place }
    ensures fails { (key : KeyValue) (held : List (List ℕ)) (record_size : ℕ) (row : TableRow)
        (from len index level : ℕ) → first_touched record_size (min from row.length) ≤ index
        → index < first_touched record_size (min from row.length)
        + count_touched record_size (min from row.length) (min (from + len) row.length)
        → FailsFirst key held record_size row.tree index level
        → (why : Refusal) × (row_range key held record_size row from len ≡ Err why) }
{}

/// On an honest shelf a read of a spot gives the bytes of its file, from a place on at most so many and none past
/// its end, and is refused where there is no file of the name; and the names are those of the files, each with its
/// length.
pub fn reads_give_the_files()
    ensures bytes { (key : KeyValue) (hmac_key : List ℕ) (family : FamilyState) (spot : Spot) (held : List (List ℕ))
        (table : Table) (shown : Files) (name bytes : List ℕ) (from len : ℕ)
        → ShowsFiles key hmac_key family spot held table shown → bytes_of name shown ≡ Some bytes
        → plain_read key hmac_key held name from len table ≡ Ok (take len (drop from bytes)) }
    ensures missing { (key : KeyValue) (hmac_key : List ℕ) (family : FamilyState) (spot : Spot) (held : List (List ℕ))
        (table : Table) (shown : Files) (name : List ℕ) (from len : ℕ)
        → ShowsFiles key hmac_key family spot held table shown → bytes_of name shown ≡ None
        → plain_read key hmac_key held name from len table ≡ Err refusals.NoFile }
    ensures names { (key : KeyValue) (hmac_key : List ℕ) (family : FamilyState) (spot : Spot) (held : List (List ℕ))
        (table : Table) (shown : Files) → ShowsFiles key hmac_key family spot held table shown
        → plain_names key hmac_key held table ≡ Ok (map file_length shown) }
{}

/// Worked values of how many calls of the shelf are made at most: where one block of an object of one level gets a new
/// text, and where the last block of a group and the first of the next do in one of five levels; and in a head whose
/// directory has two blocks where a file is made or removed, one block of a file is written, and a file is cut.
pub fn bounds_by_hand()
    ensures one { write_calls 1 512 0 512 ≡ 26 }
    ensures groups { write_calls 5 4096 126976 135168 ≡ 41 }
    ensures calls { (table : Table) (tree : ObjTree)
        → let of_head : Table = record table {
          block = 512;
          rows = record { object = 1; length = 600; tree = tree } ∷ [];
        } in (directory_calls of_head ≡ 191) × (file_calls 0 512 of_head ≡ 46) × (cut_calls of_head ≡ 40) }
{}

// Laws of whole objects. The functions do nothing.
ghost use Rattle.std.specs.Prelude.{◌≡◌, ◌==◌, ◌+◌, ◌^◌, ◌<◌, ◌≤◌, ℕ, max, false, if◌then◌else◌, All, List, [], ◌∷◌, ◌++◌, length, Option, Some, None, Ok};
ghost use Rattle.block_crypt.specs.Blocks.{KeyValue};
ghost use Rattle.salt_rotation.specs.SaltState.{SaltState};
ghost use Rattle.indirect_macs.specs.declared.refs.BlockRef.{BlockRef};
ghost use Rattle.indirect_macs.specs.declared.refs.ObjTree.{ObjTree};
ghost use Rattle.indirect_macs.specs.Trees.{AreBytes, HoldsBytes};
ghost use Rattle.file_blocks.specs.Changes.{Change, next_draw, puts_in, ref_in, ref_under, sealed_texts};
ghost use Rattle.file_blocks.specs.Objects.{IsObject, filled, opened_ref, spliced};
ghost use Rattle.file_blocks.specs.Wholes.{ChangeFits, EndsWithin, GivesChange, HasRefs, bytes_of_refs, held_behind, object_behind, refs_behind, whole_object};
ghost use Rattle.file_blocks.specs.WriteFields.{write_to};
ghost use Rattle.file_blocks.specs.Writes.{change_of_cut, change_of_write};
ghost use Rattle.file_blocks.specs.declared.object.Object.{Object};

/// An object to whose references its tree leads has the bytes that these give, one block after another,
/// where each block ends within the object; and no others. What else is put on the shelf changes nothing.
/// An object without bytes and without a tree has no references.
pub fn objects_have_the_bytes_of_their_references()
    ensures whole { (key : KeyValue) (held : List (List ℕ)) (record_size : ℕ) (object : Object)
        (refs : ℕ → Option BlockRef) (bytes : List ℕ) → 512 ≤ record_size → IsObject record_size object
        → HasRefs held record_size object refs → bytes_of_refs key held record_size object.length refs ≡ Some bytes
        → (whole_object key held record_size object ≡ Ok bytes) × EndsWithin record_size object.length refs }
    ensures parts { (key : KeyValue) (held : List (List ℕ)) (record_size : ℕ) (object : Object)
        (refs : ℕ → Option BlockRef) (bytes : List ℕ) → 512 ≤ record_size → IsObject record_size object
        → HasRefs held record_size object refs → EndsWithin record_size object.length refs
        → whole_object key held record_size object ≡ Ok bytes
        → bytes_of_refs key held record_size object.length refs ≡ Some bytes }
    ensures grown { (key : KeyValue) (held more : List (List ℕ)) (record_size size : ℕ)
        (refs : ℕ → Option BlockRef) (bytes : List ℕ) → bytes_of_refs key held record_size size refs ≡ Some bytes
        → bytes_of_refs key (held ++ more) record_size size refs ≡ Some bytes }
    ensures empty { (held : List (List ℕ)) (record_size : ℕ)
        → HasRefs held record_size (record { length = 0; tree = record { levels = 1; top = None } }) (λ index. None) }
{}

/// Behind a change the object's tree leads to the references of its texts, to those that it led to
/// before at each other block of the new object, and to holes behind the last one; and the new object is
/// one again.
pub fn changes_lead_to_their_references()
    ensures refs { (key : KeyValue) (salts : SaltState) (held : List (List ℕ)) (record_size : ℕ) (object : Object)
        (refs : ℕ → Option BlockRef) (c : Change) → GivesChange key held record_size object c
        → ChangeFits key salts held record_size object c → HasRefs held record_size object refs
        → HasRefs (held_behind key salts held c) record_size (object_behind key salts held c)
        (refs_behind key salts (length held) c refs) }
    ensures object { (key : KeyValue) (salts : SaltState) (held : List (List ℕ)) (record_size : ℕ) (object : Object)
        (refs : ℕ → Option BlockRef) (c : Change) → GivesChange key held record_size object c
        → ChangeFits key salts held record_size object c → HasRefs held record_size object refs
        → IsObject record_size (object_behind key salts held c) }
{}

/// Behind a change of an object whose blocks end within it those of the new one do too: what a cut takes
/// is zeros where the object grows again.
pub fn changes_end_within()
    ensures { (key : KeyValue) (salts : SaltState) (held : List (List ℕ)) (record_size addr : ℕ) (object : Object)
        (refs : ℕ → Option BlockRef) (c : Change) → GivesChange key held record_size object c → 0 < record_size
        → 1 ≤ object.tree.levels → HasRefs held record_size object refs → EndsWithin record_size object.length refs
        → EndsWithin record_size c.new_length (refs_behind key salts addr c refs) }
{}

/// Behind a write an object whose blocks end within it has its old bytes with the written ones over
/// them, and zeros between its old end and the write's beginning: by the new tree, and by the references
/// on each longer shelf that holds the new texts.
pub fn writes_splice_objects()
    ensures tree { (key : KeyValue) (salts : SaltState) (held : List (List ℕ)) (record_size : ℕ) (object : Object)
        (refs : ℕ → Option BlockRef) (from : ℕ) (bytes old : List ℕ) (c : Change)
        → change_of_write key held (write_to object record_size from bytes) ≡ Ok c
        → ChangeFits key salts held record_size object c → HasRefs held record_size object refs
        → EndsWithin record_size object.length refs → whole_object key held record_size object ≡ Ok old
        → whole_object key (held_behind key salts held c) record_size (object_behind key salts held c)
        ≡ Ok (spliced old from bytes) }
    ensures refs { (key : KeyValue) (salts : SaltState) (held more : List (List ℕ)) (record_size : ℕ)
        (object : Object) (refs : ℕ → Option BlockRef) (from : ℕ) (bytes old : List ℕ) (c : Change)
        → change_of_write key held (write_to object record_size from bytes) ≡ Ok c
        → 0 < record_size → 1 ≤ object.tree.levels → HasRefs held record_size object refs
        → bytes_of_refs key held record_size object.length refs ≡ Some old
        → bytes_of_refs key (held ++ (sealed_texts key salts c.texts ++ more)) record_size c.new_length
        (refs_behind key salts (length held) c refs) ≡ Some (spliced old from bytes) }
    ensures length { (key : KeyValue) (salts : SaltState) (held : List (List ℕ)) (record_size : ℕ) (object : Object)
        (from : ℕ) (bytes : List ℕ) (c : Change)
        → change_of_write key held (write_to object record_size from bytes) ≡ Ok c
        → ((object_behind key salts held c).length ≡ c.new_length)
        × (c.new_length ≡ max object.length (from + length bytes)) }
{}

/// Behind a cut an object whose blocks end within it has its old bytes, cut or filled up with zeros to
/// the new length: by the new tree, and by the references on each longer shelf that holds the new text.
pub fn cuts_fill_objects()
    ensures tree { (key : KeyValue) (salts : SaltState) (held : List (List ℕ)) (record_size : ℕ) (object : Object)
        (refs : ℕ → Option BlockRef) (to : ℕ) (old : List ℕ) (c : Change)
        → change_of_cut key held record_size object to ≡ Ok c
        → ChangeFits key salts held record_size object c → HasRefs held record_size object refs
        → EndsWithin record_size object.length refs → whole_object key held record_size object ≡ Ok old
        → whole_object key (held_behind key salts held c) record_size (object_behind key salts held c)
        ≡ Ok (filled to old) }
    ensures refs { (key : KeyValue) (salts : SaltState) (held more : List (List ℕ)) (record_size : ℕ)
        (object : Object) (refs : ℕ → Option BlockRef) (to : ℕ) (old : List ℕ) (c : Change)
        → change_of_cut key held record_size object to ≡ Ok c
        → 0 < record_size → 1 ≤ object.tree.levels → HasRefs held record_size object refs
        → bytes_of_refs key held record_size object.length refs ≡ Some old
        → bytes_of_refs key (held ++ (sealed_texts key salts c.texts ++ more)) record_size c.new_length
        (refs_behind key salts (length held) c refs) ≡ Some (filled to old) }
    ensures length { (key : KeyValue) (salts : SaltState) (held : List (List ℕ)) (record_size : ℕ) (object : Object)
        (to : ℕ) (c : Change) → change_of_cut key held record_size object to ≡ Ok c
        → ((object_behind key salts held c).length ≡ c.new_length) × (c.new_length ≡ to) }
{}

/// New texts are bytes, where those that are written are and the shelf holds bytes.
pub fn new_texts_are_bytes()
    ensures written { (key : KeyValue) (held : List (List ℕ)) (record_size : ℕ) (object : Object) (from : ℕ)
        (bytes : List ℕ) (c : Change) → change_of_write key held (write_to object record_size from bytes) ≡ Ok c
        → AreBytes bytes → HoldsBytes held → All AreBytes c.texts }
    ensures cut { (key : KeyValue) (held : List (List ℕ)) (record_size : ℕ) (object : Object) (to : ℕ) (c : Change)
        → change_of_cut key held record_size object to ≡ Ok c → HoldsBytes held → All AreBytes c.texts }
{}

/// A change to texts of bytes fits on a shelf of bytes where what is put has addresses; and what is put
/// is bytes.
pub fn changes_fit()
    ensures fits { (key : KeyValue) (salts : SaltState) (held : List (List ℕ)) (record_size : ℕ) (object : Object)
        (refs : ℕ → Option BlockRef) (c : Change) → GivesChange key held record_size object c → All AreBytes c.texts
        → 512 ≤ record_size → record_size ≤ 131072 → IsObject record_size object → c.new_length ≤ 4294967296
        → HoldsBytes held → HasRefs held record_size object refs
        → length held + length (puts_in key salts held (length held) c) ≤ 2 ^ 64
        → ChangeFits key salts held record_size object c }
    ensures bytes { (key : KeyValue) (salts : SaltState) (held : List (List ℕ)) (record_size : ℕ) (object : Object)
        (refs : ℕ → Option BlockRef) (c : Change) → GivesChange key held record_size object c → All AreBytes c.texts
        → 0 < record_size → IsObject record_size object → HoldsBytes held → HasRefs held record_size object refs
        → HoldsBytes (puts_in key salts held (length held) c) }
{}

/// Worked values: the bytes of an object of 6 bytes in blocks of 4, of which the first stores 3 and the
/// second is a hole, and of one of 2 bytes, of which it stores too many; the text that a byte written
/// behind the end of an object of 3 bytes gives; and the references behind a text for the second of
/// three blocks.
pub fn objects_by_hand()
    ensures bytes { (key : KeyValue) (held : List (List ℕ)) (addr : ℕ) (salt iv mac : List ℕ)
        → let r : BlockRef = record { size = 3; addr = addr; salt = salt; iv = iv; mac = mac } in
        let refs : ℕ → Option BlockRef = λ index. if index == 0 then Some r else None in
        opened_ref key held r ≡ Some (1 ∷ 2 ∷ 3 ∷ [])
        → (bytes_of_refs key held 4 6 refs ≡ Some (1 ∷ 2 ∷ 3 ∷ 0 ∷ 0 ∷ 0 ∷ []))
        × (bytes_of_refs key held 4 2 refs ≡ None) }
    ensures text { (key : KeyValue) (held : List (List ℕ)) (tree : ObjTree) (addr : ℕ) (salt iv mac : List ℕ)
        → let r : BlockRef = record { size = 3; addr = addr; salt = salt; iv = iv; mac = mac } in
        ref_in held 512 tree 0 ≡ Ok (Some r) → opened_ref key held r ≡ Some (1 ∷ 2 ∷ 3 ∷ [])
        → change_of_write key held (write_to (record { length = 3; tree = tree }) 512 5 (9 ∷ []))
        ≡ Ok (record {
          tree = tree;
          record_size = 512;
          new_length = 6;
          stays = false;
          first = 0;
          texts = (1 ∷ 2 ∷ 3 ∷ 0 ∷ 0 ∷ 9 ∷ []) ∷ [];
        }) }
    ensures refs { (key : KeyValue) (salts : SaltState) (tree : ObjTree) (text : List ℕ) (refs : ℕ → Option BlockRef)
        → let c : Change = record {
          tree = tree;
          record_size = 4;
          new_length = 10;
          stays = false;
          first = 1;
          texts = text ∷ [];
        } in
        (refs_behind key salts 7 c refs 0 ≡ refs 0)
        × (refs_behind key salts 7 c refs 1 ≡ Some (ref_under key (next_draw salts) 7 text))
        × (refs_behind key salts 7 c refs 2 ≡ refs 2) × (refs_behind key salts 7 c refs 3 ≡ None) }
{}

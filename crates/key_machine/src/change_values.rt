// Worked values of `change-key`, of `change-key -i`, and of heirs.
ghost use Rattle.std.specs.Prelude.{◌≡◌, ℕ, true, false, List, [], ◌∷◌, Some, None, Ok, codes};
ghost use Rattle.byte_fields.specs.LittleEndian.{little_endian_value};
ghost use Rattle.dataset_tree.specs.declared.kinds.Format.TheVariants.{Raw, Passphrase};
ghost use Rattle.dataset_tree.specs.declared.kinds.Suite.TheVariants.{Aes128Gcm, Aes256Gcm};
ghost use Rattle.dataset_tree.specs.declared.refusal.Refusal.TheVariants.{NoSuch, KeyUnavailable, NotRoot, NotEncrypted, NoEncryptedParent, IsClone, WrongKey, KeyFileMissing, EntropyFault, BadIters, BadOptions};
ghost use Rattle.encryption_roots.specs.Options.{no_options};
ghost use Rattle.encryption_roots.specs.declared.props.Location.TheVariants.{Prompt, File};
ghost use Rattle.encryption_roots.specs.declared.kit.Fetched.TheVariants.{Got, Missing, Fault};
ghost use Rattle.encryption_roots.specs.declared.command.KeyCmd.TheVariants as commands;
ghost use Rattle.key_machine.specs.Change.{changed_props, changed_salt, change_families};
ghost use Rattle.key_machine.specs.Create.{seeded_record};
ghost use Rattle.key_machine.specs.Inherit.{inherit_families, inherit_key};
ghost use Rattle.key_machine.specs.Plain.{Ciphers, Stored};
ghost use Rattle.key_machine.specs.Rekey.{sealed_anew, rewrapped};
ghost use Rattle.key_machine.specs.Sample.{sample, unloaded, with_child_root, tank_key, child_key, raw, passphrase, hex_props, passphrase_props, seed_kit, new_key_kit, faulty_kit, with_plain_keys};
ghost use Rattle.key_machine.specs.Step.{refusal_of, material_refusal, wanted, told};
ghost use Rattle.key_machine.specs.Told.{nothing_told, no_key};

/// A change is refused by `NoSuch`, `NotEncrypted`, `IsClone`, `BadOptions`, `BadIters` and
/// `KeyUnavailable` in this order, the last not where the old key is asked for; then for the old
/// key or the record that doesn't open under it, for the new key, and for the seed.
pub fn changes_are_refused_in_order()
    ensures name { refusal_of sample (commands.Change (codes "sea") no_options false) ≡ Some NoSuch }
    ensures plain { refusal_of sample (commands.Change (codes "lake") no_options false) ≡ Some NotEncrypted }
    ensures clone { refusal_of sample (commands.Change (codes "copy") no_options false) ≡ Some IsClone }
    ensures format { let opts = record no_options { iters = Some 1 } in
        refusal_of sample (commands.Change (codes "tank/a") opts false) ≡ Some BadOptions }
    ensures raw { let opts = record no_options { iters = Some 1 } in
        refusal_of sample (commands.Change (codes "tank") opts false) ≡ Some BadOptions }
    ensures iterations { let opts = record passphrase { iters = Some 99999 } in
        refusal_of unloaded (commands.Change (codes "tank/a") opts false) ≡ Some BadIters }
    ensures key { refusal_of unloaded (commands.Change (codes "tank/a") raw false) ≡ Some KeyUnavailable }
    ensures load_first { refusal_of unloaded (commands.Change (codes "tank/a") raw true) ≡ None }
    ensures accepted { refusal_of sample (commands.Change (codes "tank") no_options false) ≡ None }
    ensures wrong { let facts = record nothing_told { fault = Some KeyFileMissing; wrong = Some 2 } in
        let command = commands.Change (codes "tank") no_options true in
        material_refusal unloaded command facts ≡ Some (WrongKey 2) }
    ensures fault { let facts = record nothing_told { fault = Some EntropyFault } in
        let command = commands.Change (codes "tank") no_options true in
        material_refusal unloaded command facts ≡ Some EntropyFault }
{}

/// An inherit is refused by `NoSuch`, `NotEncrypted`, `IsClone`, `NotRoot`, `NoEncryptedParent` and
/// `KeyUnavailable` in this order. Where the old key is asked for, its faults and that of a record
/// come before a parent whose key isn't loaded, and this before the seed's.
pub fn inherits_are_refused_in_order()
    ensures name { refusal_of sample (commands.Inherit (codes "sea") false) ≡ Some NoSuch }
    ensures plain { refusal_of sample (commands.Inherit (codes "lake") false) ≡ Some NotEncrypted }
    ensures clone { refusal_of sample (commands.Inherit (codes "copy") false) ≡ Some IsClone }
    ensures heir { refusal_of sample (commands.Inherit (codes "tank/a") false) ≡ Some NotRoot }
    ensures parent { refusal_of unloaded (commands.Inherit (codes "tank") false) ≡ Some NoEncryptedParent }
    ensures own { let host = with_child_root (tank_key ∷ []) in
        refusal_of host (commands.Inherit (codes "tank/b") false) ≡ Some KeyUnavailable }
    ensures above { let host = with_child_root (child_key ∷ []) in
        refusal_of host (commands.Inherit (codes "tank/b") true) ≡ Some KeyUnavailable }
    ensures accepted { let host = with_child_root (tank_key ∷ child_key ∷ []) in
        refusal_of host (commands.Inherit (codes "tank/b") false) ≡ None }
    ensures later { refusal_of (with_child_root []) (commands.Inherit (codes "tank/b") true) ≡ None }
    ensures fault { let facts = record nothing_told { fault = Some KeyFileMissing } in
        let command = commands.Inherit (codes "tank/b") true in
        material_refusal (with_child_root []) command facts ≡ Some KeyFileMissing }
    ensures wrong { let facts = record nothing_told { fault = Some EntropyFault; wrong = Some 3 } in
        let command = commands.Inherit (codes "tank/b") true in
        material_refusal (with_child_root []) command facts ≡ Some (WrongKey 3) }
    ensures then_above { let facts = record nothing_told { fault = Some EntropyFault } in
        let command = commands.Inherit (codes "tank/b") true in
        material_refusal (with_child_root []) command facts ≡ Some KeyUnavailable }
    ensures seed { let facts = record nothing_told { fault = Some EntropyFault } in
        let command = commands.Inherit (codes "tank/b") true in
        material_refusal (with_child_root (tank_key ∷ [])) command facts ≡ Some EntropyFault }
{}

/// What a change sets where the options say nothing: a root keeps its format and location, and the
/// iterations of a passphrase that stays one; a new root has the location `prompt`, and otherwise
/// iterations are 350000. The salt is new for a passphrase, and 0 for another format.
pub fn defaults_of_a_change()
    ensures kept { changed_props (Some passphrase_props) no_options 7
        ≡ record { format = Passphrase; place = File (codes "/p"); iters = 500000; salt = 7 } }
    ensures given { let opts = record no_options { place = Some Prompt; iters = Some 100000 } in
        changed_props (Some passphrase_props) opts 7
        ≡ record { format = Passphrase; place = Prompt; iters = 100000; salt = 7 } }
    ensures to_raw { changed_props (Some passphrase_props) raw 0
        ≡ record { format = Raw; place = File (codes "/p"); iters = 0; salt = 0 } }
    ensures from_hex { changed_props (Some hex_props) passphrase 7
        ≡ record { format = Passphrase; place = Prompt; iters = 350000; salt = 7 } }
    ensures new { changed_props None passphrase 7
        ≡ record { format = Passphrase; place = Prompt; iters = 350000; salt = 7 } }
    ensures salt { (c : Ciphers) (seed : List ℕ) →
        changed_salt c (Some passphrase_props) no_options (Ok seed)
        ≡ little_endian_value (c.seed_bytes seed 34 8) }
    ensures no_salt { (c : Ciphers) (seed : List ℕ) →
        changed_salt c (Some passphrase_props) raw (Ok seed) ≡ 0 }
{}

/// An old key is fetched from its owner's location, where it is asked for and not loaded; the new
/// one from the command's, else from the dataset's own, else at the prompt; an inherit takes no new
/// key, and an heir none at all.
pub fn places_of_new_keys()
    ensures old { wanted unloaded (commands.Change (codes "tank/a") raw true)
        ≡ record { old_place = Some (File (codes "/t")); new_place = Some Prompt; seed = true } }
    ensures loaded { wanted sample (commands.Change (codes "tank") no_options true)
        ≡ record { old_place = None; new_place = Some (File (codes "/t")); seed = true } }
    ensures given { let opts = record no_options { place = Some (File (codes "/k")) } in
        wanted sample (commands.Change (codes "tank") opts false)
        ≡ record { old_place = None; new_place = Some (File (codes "/k")); seed = true } }
    ensures inherit { wanted (with_child_root []) (commands.Inherit (codes "tank/b") true)
        ≡ record { old_place = Some (File (codes "/b")); new_place = None; seed = true } }
    ensures heir { wanted sample (commands.Create (codes "tank/c") no_options)
        ≡ record { old_place = None; new_place = None; seed = true } }
{}

/// The families whose records a change writes are those that the dataset then owns, clones'
/// families among them; an inherit writes those that it owned, under the key of the parent's owner.
/// The record of number i in a line has the words of the seed at 36 + 3 i as its vector.
pub fn records_of_new_keys()
    ensures heir { change_families sample raw (Some 2) ≡ 2 ∷ [] }
    ensures root { change_families sample no_options (Some 1) ≡ 1 ∷ 2 ∷ 3 ∷ [] }
    ensures without_child { change_families (with_child_root []) no_options (Some 1) ≡ 1 ∷ 2 ∷ [] }
    ensures inherit { inherit_families (with_child_root []) (Some 3) ≡ 3 ∷ [] }
    ensures above { inherit_key (with_child_root (tank_key ∷ child_key ∷ [])) (Some 3) ≡ tank_key.1 }
    ensures vectors { (c : Ciphers) (seed old new : List ℕ) (first second : Stored) →
        let one = sealed_anew c first.wrapped new (c.seed_bytes seed 36 12) (c.opens first.wrapped old) in
        let two = sealed_anew c second.wrapped new (c.seed_bytes seed 39 12) (c.opens second.wrapped old) in
        rewrapped c seed old new 0 ((4, first) ∷ (9, second) ∷ []) ≡ (4, one) ∷ (9, two) ∷ [] }
{}

/// What material tells, where material is its own key but for a passphrase's, which is told by its salt
/// and iterations: records stand under the new key, from the old one, with the seed's vectors from the
/// first on; the old key's fault comes before the new one's, and this before the seed's.
pub fn what_new_keys_tell()
    ensures change { (c : Ciphers) (seed : List ℕ) →
        let facts = told (with_plain_keys c) sample (commands.Change (codes "tank/a") raw false)
        (new_key_kit seed) in
        (facts.key ≡ codes "new") × (facts.salt ≡ 0) × (facts.wrapped
        ≡ (2, sealed_anew c (22 ∷ []) (codes "new") (c.seed_bytes seed 36 12) (c.opens (22 ∷ []) tank_key.1)) ∷ []) }
    ensures passphrase { (c : Ciphers) (seed : List ℕ) →
        let facts = told (with_plain_keys c) sample (commands.Change (codes "tank") passphrase false)
        (new_key_kit seed) in
        let salt = little_endian_value (c.seed_bytes seed 34 8) in
        (facts.salt ≡ salt) × (facts.key ≡ salt ∷ 350000 ∷ []) }
    ensures inherit { (c : Ciphers) (seed : List ℕ) →
        let host = with_child_root (tank_key ∷ child_key ∷ []) in
        let one = sealed_anew c (33 ∷ []) tank_key.1 (c.seed_bytes seed 36 12) (c.opens (33 ∷ []) child_key.1) in
        told c host (commands.Inherit (codes "tank/b") false) (seed_kit seed)
        ≡ record { fault = None; wrong = None; key = no_key; salt = 0; wrapped = (3, one) ∷ [] } }
    ensures fetched { (c : Ciphers) (seed : List ℕ) →
        let facts = told (with_plain_keys c) unloaded (commands.Change (codes "tank/a") raw true)
        (new_key_kit seed) in
        facts.wrapped
        ≡ (2, sealed_anew c (22 ∷ []) (codes "new") (c.seed_bytes seed 36 12) (c.opens (22 ∷ []) (codes "old"))) ∷ [] }
    ensures old_first { (c : Ciphers) →
        let kit = faulty_kit Missing Fault in
        (told c unloaded (commands.Change (codes "tank/a") raw true) kit).fault ≡ Some KeyFileMissing }
    ensures new_next { (c : Ciphers) →
        let kit = faulty_kit (Got (codes "old")) Missing in
        let command = commands.Change (codes "tank/a") raw true in
        (told (with_plain_keys c) unloaded command kit).fault ≡ Some KeyFileMissing }
    ensures seed_last { (c : Ciphers) →
        let kit = faulty_kit (Got (codes "old")) (Got (codes "new")) in
        let command = commands.Change (codes "tank/a") raw true in
        (told (with_plain_keys c) unloaded command kit).fault ≡ Some EntropyFault }
{}

/// A dataset that is made below an encrypted one without a key format inherits its key, which has to
/// be loaded: its record stands under that key, and no key is told.
pub fn heirs_are_created()
    ensures accepted { refusal_of sample (commands.Create (codes "tank/c") no_options) ≡ None }
    ensures place { let opts = record no_options { place = Some Prompt } in
        refusal_of sample (commands.Create (codes "tank/c") opts) ≡ Some BadOptions }
    ensures suite { let opts = record no_options { suite = Some Aes128Gcm } in
        refusal_of sample (commands.Create (codes "tank/c") opts) ≡ None }
    ensures key { refusal_of unloaded (commands.Create (codes "tank/c") no_options) ≡ Some KeyUnavailable }
    ensures told { (c : Ciphers) (seed : List ℕ) →
        let own = seeded_record c Aes256Gcm seed tank_key.1 in
        told c sample (commands.Create (codes "tank/c") no_options) (seed_kit seed)
        ≡ record { fault = None; wrong = None; key = no_key; salt = 0; wrapped = (6, own) ∷ [] } }
{}

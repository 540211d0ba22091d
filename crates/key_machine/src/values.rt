// Worked values of the definitions.
ghost use Rattle.std.specs.Prelude.{◌≡◌, ℕ, ◌≤◌, true, false, List, [], ◌∷◌, Some, None, codes};
ghost use Rattle.std.specs.List.{AllPairs};
ghost use Rattle.dataset_tree.specs.declared.kinds.Format.TheVariants.{Raw, Passphrase};
ghost use Rattle.dataset_tree.specs.declared.refusal.Refusal.TheVariants.{NoSuch, Exists, NoParent, KeyUnavailable, KeyLoaded, NotRoot, NotEncrypted, KeyFileMissing, BadIters, BadOptions};
ghost use Rattle.encryption_roots.specs.Options.{no_options};
ghost use Rattle.encryption_roots.specs.Owners.{family};
ghost use Rattle.encryption_roots.specs.declared.props.Location.TheVariants.{Prompt, File};
ghost use Rattle.encryption_roots.specs.declared.kit.Fetched.TheVariants as fetches;
ghost use Rattle.encryption_roots.specs.declared.kit.SeedGot.TheVariants as seeds;
ghost use Rattle.encryption_roots.specs.declared.command.KeyCmd.TheVariants as commands;
ghost use Rattle.key_machine.specs.Plain.{Plain, Ciphers, Hold, no_keys, mkey};
ghost use Rattle.key_machine.specs.Users.{users_of, mkey_users, wkey_users, word, with_hold, with_mount};
ghost use Rattle.key_machine.specs.Sound.{SoundUsers};
ghost use Rattle.key_machine.specs.Create.{new_iters, new_stored};
ghost use Rattle.key_machine.specs.Step.{refusal_of, wanted, told};
ghost use Rattle.key_machine.specs.Told.{nothing_told};
ghost use Rattle.key_machine.specs.Sample.{sample, held_by_one};

/// The word of a slot: generation 1, open, mounted, with count 1; the same unmounted and held twice; closed
/// at generation 5; and 0 past the last slot, whatever is mapped.
pub fn words_of_slots()
    ensures mounted { word sample 0 ≡ 30064771073 }
    ensures held { word sample 1 ≡ 21474836482 }
    ensures closed { word sample 2 ≡ 85899345920 }
    ensures past { (p : Plain) (slot : ℕ) → 256 ≤ slot → word p slot ≡ 0 }
{}

/// A family's master key is used by its mapped datasets, clones among them, and a wrapping key by the
/// families that have one.
pub fn users_of_keys()
    ensures mkey { (mkey_users sample 1 ≡ 0) × (mkey_users sample 2 ≡ 2) × (mkey_users sample 3 ≡ 0) }
    ensures wkey { wkey_users sample 1 ≡ 1 }
{}

/// A master key is that of the record of the dataset's family, under the loaded key of the family's owner.
pub fn master_keys_of_families()
    ensures heir { (c : Ciphers) → mkey c sample 3 ≡ c.opens (33 ∷ []) (codes "the key of tank") }
    ensures clone { (c : Ciphers) → mkey c sample (family sample.tree.rows 4)
        ≡ c.opens (22 ∷ []) (codes "the key of tank") }
{}

/// A `create` is refused by `Exists`, `NoParent`, `BadOptions` and `BadIters` in this order, then for its
/// key, and then for its seed.
pub fn creates_are_refused_in_order()
    ensures exists { refusal_of sample (commands.Create (codes "tank") (record no_options { iters = Some 1 }))
        ≡ Some Exists }
    ensures parent { refusal_of sample (commands.Create (codes "sea/a") (record no_options { iters = Some 1 }))
        ≡ Some NoParent }
    ensures options { refusal_of no_keys (commands.Create (codes "tank") (record no_options { iters = Some 1 }))
        ≡ Some BadOptions }
    ensures iterations { refusal_of no_keys
        (commands.Create (codes "tank") (record no_options { format = Some Passphrase; iters = Some 99999 }))
        ≡ Some BadIters }
    ensures key { (c : Ciphers) → (told c no_keys
        (commands.Create (codes "tank") (record no_options { format = Some Raw }))
        (record { old_key = fetches.NotAsked; new_key = fetches.Missing; seed = seeds.Fault })).fault
        ≡ Some KeyFileMissing }
{}

/// A load is refused by `NoSuch`, `NotEncrypted`, `NotRoot` and `KeyLoaded` in this order, the last not with
/// `check_only`; an unload by the same, but `KeyUnavailable` at last.
pub fn loads_are_refused_in_order()
    ensures name { refusal_of sample (commands.Load (codes "sea") false None) ≡ Some NoSuch }
    ensures plain { refusal_of sample (commands.Load (codes "lake") false None) ≡ Some NotEncrypted }
    ensures heir { refusal_of sample (commands.Load (codes "tank/a") false None) ≡ Some NotRoot }
    ensures loaded { refusal_of sample (commands.Load (codes "tank") false None) ≡ Some KeyLoaded }
    ensures check { refusal_of sample (commands.Load (codes "tank") true None) ≡ None }
    ensures plain_unload { refusal_of sample (commands.Unload (codes "lake")) ≡ Some NotEncrypted }
    ensures unload { refusal_of (record sample { loaded = [] }) (commands.Unload (codes "tank")) ≡ Some KeyUnavailable }
{}

/// A key is fetched from the command's location, else from the root's own, else at the prompt; a seed is for
/// what is encrypted.
pub fn places_of_takings()
    ensures create { wanted no_keys (commands.Create (codes "tank")
        (record no_options { format = Some Raw; place = Some (File (codes "/k")) }))
        ≡ record { old_place = None; new_place = Some (File (codes "/k")); seed = true } }
    ensures prompt { wanted no_keys (commands.Create (codes "tank") (record no_options { format = Some Raw }))
        ≡ record { old_place = None; new_place = Some Prompt; seed = true } }
    ensures plain { wanted no_keys (commands.Create (codes "tank") no_options)
        ≡ record { old_place = None; new_place = None; seed = false } }
    ensures own { wanted sample (commands.Load (codes "tank") false None)
        ≡ record { old_place = None; new_place = Some (File (codes "/t")); seed = false } }
    ensures given { wanted sample (commands.Load (codes "tank") false (Some (File (codes "/k"))))
        ≡ record { old_place = None; new_place = Some (File (codes "/k")); seed = false } }
{}

/// What `create` sets where the options say nothing.
pub fn defaults_of_a_create()
    ensures iterations { new_iters (record no_options { format = Some Passphrase }) ≡ 350000 }
    ensures size { (new_stored 1 no_options nothing_told).block ≡ 131072 }
{}

/// One rider may hold a mapping 65535 times, and no more.
pub fn holds_of_a_rider()
    ensures most { SoundUsers (held_by_one 65535) }
    ensures more { SoundUsers (held_by_one 65536) → ⊥ }
{}

/// A new hold stands behind those of its rider, and in front of the next rider's; order is kept.
pub fn holds_stand_by_rider()
    ensures behind { with_hold (record { rider = 2; slot = 4; generation = 1 })
        (record { rider = 1; slot = 3; generation = 1 } ∷ record { rider = 2; slot = 5; generation = 1 }
        ∷ record { rider = 9; slot = 0; generation = 1 } ∷ [])
        ≡ record { rider = 1; slot = 3; generation = 1 } ∷ record { rider = 2; slot = 5; generation = 1 }
        ∷ record { rider = 2; slot = 4; generation = 1 } ∷ record { rider = 9; slot = 0; generation = 1 } ∷ [] }
    ensures order { (hold : Hold) (users : List Hold) → AllPairs (λ a b. a.rider ≤ b.rider) users
        → AllPairs (λ a b. a.rider ≤ b.rider) (with_hold hold users) }
    ensures mounts { (id : ℕ) (mounted : List ℕ) → AllPairs (λ a b. a ≤ b) mounted
        → AllPairs (λ a b. a ≤ b) (with_mount id mounted) }
{}

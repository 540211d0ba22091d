// What a sound state is good for.
ghost use Rattle.std.specs.Prelude.{◌≡◌, ◌≢◌, ℕ, ◌≤◌, ◌==◌, true, is_some, List, map};
ghost use Rattle.std.specs.List.{AllPairs, count_by};
ghost use Rattle.encryption_roots.specs.declared.props.Props.{Props};
ghost use Rattle.encryption_roots.specs.Owned.{owned_families};
ghost use Rattle.encryption_roots.specs.Owners.{family};
ghost use Rattle.key_machine.specs.Plain.{Plain, Ciphers, has_key, mkey, owned};
ghost use Rattle.key_machine.specs.Sound.{Sound, SoundTree, IsEncrypted};

/// In a sound state the master key of each encrypted dataset whose key is loaded can be opened.
pub fn a_loaded_key_opens_its_families()
    ensures { (c : Ciphers) (p : Plain) (id : ℕ) → Sound c p → IsEncrypted p id → has_key p id ≡ true
        → is_some (mkey c p (family p.tree.rows id)) ≡ true }
{}

/// In a sound state no dataset is mounted twice, and a rider holds at most 65535 times.
pub fn mounts_and_holds_are_bounded()
    ensures mounts { (c : Ciphers) (p : Plain) → Sound c p → AllPairs (λ a b. a ≢ b) p.mounted }
    ensures holds { (c : Ciphers) (p : Plain) (rider : ℕ) → Sound c p
        → count_by (λ hold. hold.rider == rider) p.users ≤ 65535 }
{}

/// In a sound state the records that a root owns are those of its families, as the datasets tell
/// them: also with other roots than the state's own, as where a dataset is to become one.
pub fn records_are_of_the_owned_families()
    ensures { (p : Plain) (roots : List (ℕ × Props)) (root : ℕ) → SoundTree p
        → map (λ entry. entry.0) (owned (record p { roots = roots }) root)
        ≡ owned_families p.tree.rows roots root }
{}

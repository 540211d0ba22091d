// Laws of `clone`.
ghost use Rattle.std.specs.Prelude.{◌≡◌, ℕ, ◌+◌, List, Some};
ghost use Rattle.dataset_tree.specs.declared.kinds.Kind.TheVariants.{Crypt};
ghost use Rattle.dataset_tree.specs.Tree.{with_row};
ghost use Rattle.encryption_roots.specs.declared.command.KeyCmd.TheVariants as commands;
ghost use Rattle.encryption_roots.specs.ById.{at_id};
ghost use Rattle.encryption_roots.specs.Owners.{family};
ghost use Rattle.key_machine.specs.Kept.{KeepsKey};
ghost use Rattle.key_machine.specs.Plain.{Plain, Ciphers, owner_of, mkey};
ghost use Rattle.key_machine.specs.Reply.{Made};
ghost use Rattle.key_machine.specs.Sound.{Sound, SoundTree};
ghost use Rattle.key_machine.specs.Step.{target, key_step, IsAccepted};
ghost use Rattle.key_machine.specs.Told.{Told};

/// An accepted clone adds an encrypted dataset with its origin, and changes nothing else: it is no root, and
/// no record is written.
pub fn a_clone_adds_its_dataset_alone()
    ensures { (p : Plain) (from name : List ℕ) (told : Told) (origin : ℕ)
        → target p (commands.Clone from name) ≡ Some origin → IsAccepted p (commands.Clone from name) told →
        key_step p (commands.Clone from name) told ≡ record {
          state = record p { tree = with_row p.tree name Crypt origin };
          reply = Made (p.tree.last + 1);
        } }
{}

/// A clone's owner, family and master key are those of its origin, wherever it stands in the tree.
pub fn a_clone_is_of_its_origins_family()
    ensures owner { (p : Plain) (from name : List ℕ) (told : Told) (origin : ℕ) → SoundTree p
        → target p (commands.Clone from name) ≡ Some origin → IsAccepted p (commands.Clone from name) told →
        owner_of (key_step p (commands.Clone from name) told).state (p.tree.last + 1) ≡ owner_of p origin }
    ensures of_family { (p : Plain) (from name : List ℕ) (told : Told) (origin : ℕ) → SoundTree p
        → target p (commands.Clone from name) ≡ Some origin → IsAccepted p (commands.Clone from name) told →
        family (key_step p (commands.Clone from name) told).state.tree.rows (p.tree.last + 1)
        ≡ family p.tree.rows origin }
    ensures master { (c : Ciphers) (p : Plain) (from name : List ℕ) (told : Told) (origin : ℕ) → SoundTree p
        → target p (commands.Clone from name) ≡ Some origin → IsAccepted p (commands.Clone from name) told →
        mkey c (key_step p (commands.Clone from name) told).state (family p.tree.rows origin)
        ≡ mkey c p (family p.tree.rows origin) }
{}

/// A mapping keeps its slot, its generation, its owner, its family and its master key while datasets are cloned.
pub fn a_mapping_keeps_its_key_over_clones()
    ensures { (c : Ciphers) (p : Plain) (from name : List ℕ) (told : Told) (id slot : ℕ) → Sound c p
        → at_id id p.mapped ≡ Some slot → KeepsKey c p (key_step p (commands.Clone from name) told).state id slot }
{}

// Laws of `destroy`.
ghost use Rattle.std.specs.Prelude.{◌≡◌, ◌≢◌, ◌↔◌, ℕ, ◌≤◌, Bool, List, Some, None};
ghost use Rattle.std.specs.List.{All};
ghost use Rattle.dataset_tree.specs.declared.refusal.Refusal.TheVariants.{Busy};
ghost use Rattle.dataset_tree.specs.declared.tree.Row.{Row};
ghost use Rattle.dataset_tree.specs.Tree.{row_of, without_row};
ghost use Rattle.encryption_roots.specs.declared.command.KeyCmd.TheVariants as commands;
ghost use Rattle.encryption_roots.specs.ById.{at_id, without_id};
ghost use Rattle.encryption_roots.specs.Owners.{family};
ghost use Rattle.key_machine.specs.Kept.{KeepsKey};
ghost use Rattle.key_machine.specs.Plain.{Plain, Ciphers};
ghost use Rattle.key_machine.specs.Reply.{Done, Refused};
ghost use Rattle.key_machine.specs.Sound.{Sound, SoundTree};
ghost use Rattle.key_machine.specs.Step.{target, key_step, key_step_found, IsAccepted};
ghost use Rattle.key_machine.specs.Told.{Told};
ghost use Rattle.key_machine.specs.Unload.{InUse};
ghost use Rattle.key_machine.specs.Users.{users_of};

/// An accepted destroy is done exactly where the dataset's own mapping has no live user. Else it is busy at
/// that mapping, with its count, and changes nothing; other mappings are left alone.
pub fn a_destroy_is_busy_at_its_own_mapping()
    ensures done { (p : Plain) (name : List ℕ) (snaps : Bool) (told : Told) (id : ℕ)
        → target p (commands.Destroy name snaps) ≡ Some id → IsAccepted p (commands.Destroy name snaps) told →
        (((key_step p (commands.Destroy name snaps) told).reply ≡ Done)
        ↔ ((slot : ℕ) → at_id id p.mapped ≡ Some slot → users_of p (id, slot) ≡ 0)) }
    ensures busy { (p : Plain) (name : List ℕ) (snaps : Bool) (told : Told) (id dataset count : ℕ)
        → target p (commands.Destroy name snaps) ≡ Some id
        → (key_step p (commands.Destroy name snaps) told).reply ≡ Refused (Busy dataset count) →
        (dataset ≡ id) × (1 ≤ count)
        × ((slot : ℕ) × (at_id id p.mapped ≡ Some slot) × (users_of p (id, slot) ≡ count))
        × ((key_step p (commands.Destroy name snaps) told).state ≡ p) }
    ensures found { (p : Plain) (name : List ℕ) (snaps : Bool) (told : Told) (id : ℕ) (busy : InUse)
        → target p (commands.Destroy name snaps) ≡ Some id → IsAccepted p (commands.Destroy name snaps) told →
        key_step_found (Some busy) p (commands.Destroy name snaps) told
        ≡ record { state = p; reply = Refused (Busy busy.dataset busy.count) } }
{}

/// A destroy that is done drops the dataset, and at its id the root, the loaded key and the mapping; beside
/// these only a record may go.
pub fn a_destroy_drops_its_dataset_alone()
    ensures { (p : Plain) (name : List ℕ) (snaps : Bool) (told : Told) (id : ℕ)
        → target p (commands.Destroy name snaps) ≡ Some id
        → (key_step p (commands.Destroy name snaps) told).reply ≡ Done →
        (key_step p (commands.Destroy name snaps) told).state ≡ record p {
          tree = without_row p.tree id;
          roots = without_id id p.roots;
          wrapped = (key_step p (commands.Destroy name snaps) told).state.wrapped;
          loaded = without_id id p.loaded;
          mapped = without_id id p.mapped;
        } }
{}

/// A family's record stays while another dataset of the family is there, and goes with the last one. In a
/// sound state that is the family's first dataset, whose id the record has.
pub fn a_record_goes_with_its_familys_last_dataset()
    ensures kept { (p : Plain) (name : List ℕ) (snaps : Bool) (told : Told) (id other : ℕ) (row : Row)
        → target p (commands.Destroy name snaps) ≡ Some id → row_of other p.tree.rows ≡ Some row → other ≢ id →
        at_id (family p.tree.rows other) (key_step p (commands.Destroy name snaps) told).state.wrapped
        ≡ at_id (family p.tree.rows other) p.wrapped }
    ensures gone { (p : Plain) (name : List ℕ) (snaps : Bool) (told : Told) (id : ℕ)
        → target p (commands.Destroy name snaps) ≡ Some id
        → (key_step p (commands.Destroy name snaps) told).reply ≡ Done
        → All (λ row. row.id ≢ id → family p.tree.rows row.id ≢ family p.tree.rows id) p.tree.rows →
        at_id (family p.tree.rows id) (key_step p (commands.Destroy name snaps) told).state.wrapped ≡ None }
    ensures first { (p : Plain) (name : List ℕ) (snaps : Bool) (told : Told) (id : ℕ) → SoundTree p
        → target p (commands.Destroy name snaps) ≡ Some id
        → (key_step p (commands.Destroy name snaps) told).reply ≡ Done →
        (key_step p (commands.Destroy name snaps) told).state.wrapped ≡ without_id id p.wrapped }
{}

/// A mapping with a live user keeps its slot, its generation, its owner, its family and its master key, whatever
/// is destroyed.
pub fn a_used_mapping_keeps_its_key_over_destroys()
    ensures { (c : Ciphers) (p : Plain) (name : List ℕ) (snaps : Bool) (told : Told) (id slot : ℕ) → Sound c p
        → at_id id p.mapped ≡ Some slot → 1 ≤ users_of p (id, slot)
        → KeepsKey c p (key_step p (commands.Destroy name snaps) told).state id slot }
{}

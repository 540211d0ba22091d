// What a mapping in use keeps, whatever is done.
ghost use Rattle.std.specs.Prelude.{◌≡◌, ℕ, ◌≤◌, Some};
ghost use Rattle.encryption_roots.specs.declared.command.KeyCmd.{KeyCmd};
ghost use Rattle.encryption_roots.specs.ById.{at_id};
ghost use Rattle.key_machine.specs.Fair.{IsFair};
ghost use Rattle.key_machine.specs.Kept.{KeepsMaster};
ghost use Rattle.key_machine.specs.Plain.{Plain, Ciphers};
ghost use Rattle.key_machine.specs.Reap.{reap_step};
ghost use Rattle.key_machine.specs.Sound.{Sound};
ghost use Rattle.key_machine.specs.Step.{key_step};
ghost use Rattle.key_machine.specs.Told.{Told};
ghost use Rattle.key_machine.specs.Users.{users_of};

/// While a mapping has a live user, each command whose material is fair, and each reap, leaves it: its dataset
/// stays on its slot and in its generation, the key of its dataset's owner stays loaded, and the family's master
/// key stays the same, whichever wrapping key its record stands under.
pub fn a_used_mapping_keeps_its_master_key()
    ensures command { (c : Ciphers) (p : Plain) (command : KeyCmd) (told : Told) (id slot : ℕ) → Sound c p
        → IsFair c p command told → at_id id p.mapped ≡ Some slot → 1 ≤ users_of p (id, slot)
        → KeepsMaster c p (key_step p command told).state id slot }
    ensures reap { (c : Ciphers) (p : Plain) (dataset id slot : ℕ) → Sound c p
        → at_id id p.mapped ≡ Some slot → 1 ≤ users_of p (id, slot)
        → KeepsMaster c p (reap_step p dataset).state id slot }
{}

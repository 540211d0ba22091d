// Laws of all commands.
ghost use Rattle.std.specs.Prelude.{◌≡◌, ◌⊎◌, ℕ, [], Some, None, length};
ghost use Rattle.dataset_tree.specs.declared.refusal.Refusal.{Refusal};
ghost use Rattle.dataset_tree.specs.declared.refusal.Refusal.TheVariants.{Busy};
ghost use Rattle.dataset_tree.specs.Tree.{IsTree};
ghost use Rattle.encryption_roots.specs.declared.command.KeyCmd.{KeyCmd};
ghost use Rattle.encryption_roots.specs.declared.kit.LineKit.{LineKit};
ghost use Rattle.encryption_roots.specs.ById.{IsRisingById};
ghost use Rattle.key_machine.specs.Plain.{Plain, Ciphers, no_keys};
ghost use Rattle.key_machine.specs.Reply.{Refused};
ghost use Rattle.key_machine.specs.Sound.{Sound};
ghost use Rattle.key_machine.specs.Step.{told, target, key_step};
ghost use Rattle.key_machine.specs.Told.{Told, no_key};
ghost use Rattle.key_machine.specs.Unload.{closed_below};
ghost use Rattle.key_machine.specs.Busy.{IsFirstInUse};
ghost use Rattle.key_machine.specs.Fair.{AreSound, IsFair};

/// A host that holds nothing is sound, whatever the ciphers.
pub fn nothing_is_sound()
    ensures { (c : Ciphers) → Sound c no_keys }
{}

/// A command keeps a state sound, where what is told of its material is fair.
pub fn fair_steps_keep_soundness()
    ensures { (c : Ciphers) (p : Plain) (command : KeyCmd) (told : Told) → Sound c p → IsFair c p command told
        → Sound c (key_step p command told).state }
{}

/// What a kit tells is fair in every sound state, where the ciphers are sound: a record that is
/// written opens under the key that will own it, and to the master key that its family has; and a
/// load is accepted only where each record that the root owns opens.
pub fn what_a_kit_tells_is_fair()
    ensures { (c : Ciphers) (p : Plain) (command : KeyCmd) (kit : LineKit) → AreSound c → Sound c p
        → IsFair c p command (told c p command kit) }
{}

/// A told key has 32 bytes, and under a fault it is zeros, no salt is told and no record is written.
pub fn a_fault_tells_nothing_else()
    ensures key { (c : Ciphers) (p : Plain) (command : KeyCmd) (kit : LineKit) → AreSound c
        → length (told c p command kit).key ≡ 32 }
    ensures fault { (c : Ciphers) (p : Plain) (command : KeyCmd) (kit : LineKit) (why : Refusal)
        → (told c p command kit).fault ≡ Some why →
        told c p command kit ≡ record {
          fault = Some why;
          wrong = (told c p command kit).wrong;
          key = no_key;
          salt = 0;
          wrapped = [];
        } }
{}

/// A refused command leaves the state as it is, but that one which is busy has closed the idle mappings of
/// the root's datasets before the one that it names.
pub fn a_refusal_changes_nothing()
    ensures { (p : Plain) (command : KeyCmd) (told : Told) (why : Refusal) → IsRisingById p.mapped
        → (key_step p command told).reply ≡ Refused why →
        ((key_step p command told).state ≡ p)
        ⊎ ((root dataset count : ℕ) × (target p command ≡ Some root) × (why ≡ Busy dataset count)
        × IsFirstInUse p root dataset count
        × ((key_step p command told).state ≡ record p { mapped = closed_below p root dataset })) }
{}

/// Each command keeps a tree one, whatever is told: no name is given twice, and a dataset's parent is the one
/// that its name tells.
pub fn each_step_keeps_the_tree()
    ensures { (p : Plain) (command : KeyCmd) (told : Told) → IsTree p.tree
        → IsTree (key_step p command told).state.tree }
{}

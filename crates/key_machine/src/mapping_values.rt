// Worked values of mounts, unmounts and reaps.
ghost use Rattle.std.specs.Prelude.{◌≡◌, ℕ, true, false, [], ◌∷◌, ◌++◌, replicate, Some, None, codes};
ghost use Rattle.dataset_tree.specs.declared.refusal.Refusal.TheVariants.{NoSuch, NotEncrypted, KeyUnavailable, Mounted, NotMounted, Full, Busy};
ghost use Rattle.encryption_roots.specs.declared.command.KeyCmd.TheVariants as commands;
ghost use Rattle.key_machine.specs.Counts.{counts};
ghost use Rattle.key_machine.specs.Plain.{Plain};
ghost use Rattle.key_machine.specs.Reap.{reap_step, reap_found};
ghost use Rattle.key_machine.specs.Reply.{Done, Refused, Reaped};
ghost use Rattle.key_machine.specs.Sample.{sample, unloaded, used_up, all_used_up};
ghost use Rattle.key_machine.specs.Step.{refusal_of, key_step};
ghost use Rattle.key_machine.specs.Told.{nothing_told};

/// A mount takes slot 2, which was used 5 times, for the sixth time; slot 3 for the first time where slot 2 is
/// used up; and where none is free it mounts what is mapped already, and refuses all else.
pub fn slots_of_mounts()
    ensures free { key_step sample (commands.Mount (codes "tank/b")) nothing_told ≡ record {
      state = record sample {
        gens = (1 ∷ 1 ∷ 6 ∷ []) ++ replicate 253 0;
        mapped = (2, 0) ∷ (3, 2) ∷ (4, 1) ∷ [];
        mounted = 2 ∷ 3 ∷ [];
      };
      reply = Done;
    } }
    ensures used { key_step used_up (commands.Mount (codes "tank")) nothing_told ≡ record {
      state = record sample {
        gens = (1 ∷ 1 ∷ 1073741823 ∷ 1 ∷ []) ++ replicate 252 0;
        mapped = (1, 3) ∷ (2, 0) ∷ (4, 1) ∷ [];
        mounted = 1 ∷ 2 ∷ [];
      };
      reply = Done;
    } }
    ensures again { key_step all_used_up (commands.Mount (codes "copy")) nothing_told
        ≡ record { state = record all_used_up { mounted = 2 ∷ 4 ∷ [] }; reply = Done } }
    ensures none { (key_step all_used_up (commands.Mount (codes "tank/b")) nothing_told).reply ≡ Refused (Full 256) }
{}

/// A mount is refused by `NoSuch`, `NotEncrypted`, `Mounted`, `KeyUnavailable` and `Full` in this order; an
/// unmount by `NoSuch`, `NotEncrypted` and `NotMounted`.
pub fn mounts_are_refused_in_order()
    ensures name { refusal_of sample (commands.Mount (codes "sea")) ≡ Some NoSuch }
    ensures plain { refusal_of sample (commands.Mount (codes "lake")) ≡ Some NotEncrypted }
    ensures mounted { refusal_of unloaded (commands.Mount (codes "tank/a")) ≡ Some Mounted }
    ensures key { refusal_of (record all_used_up { loaded = [] }) (commands.Mount (codes "tank/b"))
        ≡ Some KeyUnavailable }
    ensures unmount_name { refusal_of sample (commands.Unmount (codes "sea")) ≡ Some NoSuch }
    ensures unmount_plain { refusal_of sample (commands.Unmount (codes "lake")) ≡ Some NotEncrypted }
    ensures unmount { refusal_of sample (commands.Unmount (codes "copy")) ≡ Some NotMounted }
{}

/// An unload is busy while a child is mounted, with count 1, and then at the clone that is held twice, whose
/// mapping stays while that of the child is closed.
pub fn unloads_while_in_use()
    ensures mounted { key_step sample (commands.Unload (codes "tank")) nothing_told
        ≡ record { state = sample; reply = Refused (Busy 2 1) } }
    ensures held { key_step (record sample { mounted = [] }) (commands.Unload (codes "tank")) nothing_told ≡ record {
      state = record sample { mapped = (4, 1) ∷ []; mounted = [] };
      reply = Refused (Busy 4 2);
    } }
    ensures idle { key_step (record sample { mounted = []; users = [] }) (commands.Unload (codes "tank")) nothing_told
        ≡ record {
          state = record sample { loaded = []; mapped = []; mounted = []; users = [] };
          reply = Done;
        } }
{}

/// A mapping goes by a reap once it is unmounted, and neither while it is mounted nor while it is held; nor
/// where its close found a user.
pub fn reaps_of_mappings()
    ensures unmount { key_step sample (commands.Unmount (codes "tank/a")) nothing_told
        ≡ record { state = record sample { mounted = [] }; reply = Done } }
    ensures idle { reap_step (record sample { mounted = [] }) 2
        ≡ record { state = record sample { mapped = (4, 1) ∷ []; mounted = [] }; reply = Reaped 2 true } }
    ensures mounted { reap_step sample 2 ≡ record { state = sample; reply = Reaped 2 false } }
    ensures held { reap_step sample 4 ≡ record { state = sample; reply = Reaped 4 false } }
    ensures unmapped { reap_step sample 3 ≡ record { state = sample; reply = Reaped 3 false } }
    ensures found { reap_found (Some (record { dataset = 2; count = 1 })) (record sample { mounted = [] }) 2
        ≡ record { state = record sample { mounted = [] }; reply = Reaped 2 false } }
{}

/// Counts by id: `tank`'s key has one family in use, that of `tank/a`, of which two datasets are mapped, the one
/// mounted and the other held twice.
pub fn counts_by_id()
    ensures one { counts sample ≡ record {
      wkeys = (1, 1) ∷ [];
      mkeys = (2, 2) ∷ [];
      maps = (2, 1, 1) ∷ (4, 2, 1) ∷ [];
    } }
    ensures two { counts (key_step sample (commands.Mount (codes "tank/b")) nothing_told).state ≡ record {
      wkeys = (1, 2) ∷ [];
      mkeys = (2, 2) ∷ (3, 1) ∷ [];
      maps = (2, 1, 1) ∷ (3, 1, 6) ∷ (4, 2, 1) ∷ [];
    } }
{}

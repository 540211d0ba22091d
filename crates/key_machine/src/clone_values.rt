// Worked values of clones and destroys.
ghost use Rattle.std.specs.Prelude.{◌≡◌, ℕ, true, false, List, [], ◌∷◌, ◌++◌, replicate, Some, None, codes};
ghost use Rattle.dataset_tree.specs.declared.kinds.Kind.TheVariants.{Plain as PlainKind, Crypt};
ghost use Rattle.dataset_tree.specs.declared.refusal.Refusal.TheVariants.{NoSuch, Exists, NoParent, NotEncrypted, HasChildren, Mounted, Full, Busy};
ghost use Rattle.encryption_roots.specs.Owners.{family};
ghost use Rattle.encryption_roots.specs.declared.command.KeyCmd.TheVariants as commands;
ghost use Rattle.key_machine.specs.Plain.{Plain, owner_of};
ghost use Rattle.key_machine.specs.Reply.{Done, Made, Refused};
ghost use Rattle.key_machine.specs.Sample.{sample, sample_rows, full, child_key, tank_key, with_child_root};
ghost use Rattle.key_machine.specs.Step.{refusal_of, key_step};
ghost use Rattle.key_machine.specs.Told.{nothing_told};

/// A clone of `tank/a` below the plain `lake`, and a clone of a clone, which is of the same family and uses the
/// same key.
pub fn clones_of_datasets()
    ensures below { key_step sample (commands.Clone (codes "tank/a") (codes "lake/c")) nothing_told ≡ record {
      state = record sample {
        tree = record {
          rows = sample_rows ++ record { id = 6; parent = 5; name = codes "lake/c"; kind = Crypt; origin = 2 } ∷ [];
          last = 6;
        };
      };
      reply = Made 6;
    } }
    ensures owner { owner_of (key_step sample (commands.Clone (codes "tank/a") (codes "lake/c")) nothing_told).state 6
        ≡ Some 1 }
    ensures again { family
        (key_step sample (commands.Clone (codes "copy") (codes "again")) nothing_told).state.tree.rows 6 ≡ 2 }
{}

/// A clone is refused by `NoSuch` and `NotEncrypted` of the one that it is made from, then by `Exists` and
/// `NoParent` of the new name, and then where there are 256 datasets, or no id is left.
pub fn clones_are_refused_in_order()
    ensures name { refusal_of sample (commands.Clone (codes "sea") (codes "tank")) ≡ Some NoSuch }
    ensures plain { refusal_of sample (commands.Clone (codes "lake") (codes "tank")) ≡ Some NotEncrypted }
    ensures exists { refusal_of full (commands.Clone (codes "tank") (codes "lake")) ≡ Some Exists }
    ensures parent { refusal_of full (commands.Clone (codes "tank") (codes "sea/c")) ≡ Some NoParent }
    ensures datasets { refusal_of full (commands.Clone (codes "tank") (codes "new")) ≡ Some (Full 256) }
    ensures ids { refusal_of (record sample { tree = record { rows = sample_rows; last = 4294967295 } })
        (commands.Clone (codes "tank") (codes "new")) ≡ Some (Full 4294967295) }
{}

/// A destroy is refused by `NoSuch`, by `HasChildren` for children, clones or snapshots, and by `Mounted`, in
/// this order; and it is busy at the dataset's own mapping, where that is held.
pub fn destroys_are_refused_in_order()
    ensures name { refusal_of sample (commands.Destroy (codes "sea") true) ≡ Some NoSuch }
    ensures children { refusal_of sample (commands.Destroy (codes "tank") false) ≡ Some HasChildren }
    ensures clones { refusal_of sample (commands.Destroy (codes "tank/a") false) ≡ Some HasChildren }
    ensures snapshots { refusal_of sample (commands.Destroy (codes "lake") true) ≡ Some HasChildren }
    ensures mounted { refusal_of (record sample { mounted = 2 ∷ 4 ∷ [] }) (commands.Destroy (codes "copy") false)
        ≡ Some Mounted }
    ensures busy { key_step sample (commands.Destroy (codes "copy") false) nothing_told
        ≡ record { state = sample; reply = Refused (Busy 4 2) } }
{}

/// What goes with a dataset: with a clone its mapping, with its family's last one the record too, with a root
/// its properties and its key, and with a plain dataset nothing more. Ids aren't given again.
pub fn destroys_of_datasets()
    ensures clone { key_step (record sample { users = [] }) (commands.Destroy (codes "copy") false) nothing_told
        ≡ record {
          state = record sample {
            tree = record {
              rows =
                  record { id = 1; parent = 0; name = codes "tank"; kind = Crypt; origin = 0 }
                  ∷ record { id = 2; parent = 1; name = codes "tank/a"; kind = Crypt; origin = 0 }
                  ∷ record { id = 3; parent = 1; name = codes "tank/b"; kind = Crypt; origin = 0 }
                  ∷ record { id = 5; parent = 0; name = codes "lake"; kind = PlainKind; origin = 0 }
                  ∷ [];
              last = 5;
            };
            mapped = (2, 0) ∷ [];
            users = [];
          };
          reply = Done;
        } }
    ensures root { key_step (with_child_root (tank_key ∷ child_key ∷ [])) (commands.Destroy (codes "tank/b") false)
        nothing_told ≡ record {
          state = record sample {
            tree = record {
              rows =
                  record { id = 1; parent = 0; name = codes "tank"; kind = Crypt; origin = 0 }
                  ∷ record { id = 2; parent = 1; name = codes "tank/a"; kind = Crypt; origin = 0 }
                  ∷ record { id = 4; parent = 0; name = codes "copy"; kind = Crypt; origin = 2 }
                  ∷ record { id = 5; parent = 0; name = codes "lake"; kind = PlainKind; origin = 0 }
                  ∷ [];
              last = 5;
            };
            wrapped = (1, record { wrapped = 11 ∷ []; block = 512 }) ∷ (2, record { wrapped = 22 ∷ []; block = 512 })
                ∷ [];
          };
          reply = Done;
        } }
    ensures plain { key_step sample (commands.Destroy (codes "lake") false) nothing_told ≡ record {
      state = record sample {
        tree = record {
          rows =
              record { id = 1; parent = 0; name = codes "tank"; kind = Crypt; origin = 0 }
              ∷ record { id = 2; parent = 1; name = codes "tank/a"; kind = Crypt; origin = 0 }
              ∷ record { id = 3; parent = 1; name = codes "tank/b"; kind = Crypt; origin = 0 }
              ∷ record { id = 4; parent = 0; name = codes "copy"; kind = Crypt; origin = 2 }
              ∷ [];
          last = 5;
        };
      };
      reply = Done;
    } }
{}

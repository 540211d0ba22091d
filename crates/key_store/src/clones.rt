// Clones.
ghost use Rattle.std.specs.Prelude.{◌≡◌, ◌+◌, None, Some, Ok, IfOk, OnOk, OnErr};
ghost use Rattle.dataset_tree.specs.Tree.{IsDatasetOrNone, id_named, new_id, with_row};
ghost use Rattle.dataset_tree.specs.declared.kinds.Kind.TheVariants.{Crypt};
ghost use Rattle.encryption_roots.specs.declared.command.KeyCmd.TheVariants as commands;
ghost use Rattle.key_machine.specs.Step.{refusal_of, key_step};
ghost use Rattle.key_machine.specs.Told.{nothing_told};
ghost use Rattle.mapping_words.specs.Told.{Told};
ghost use Rattle.key_store.specs.Agrees.{Agrees};
ghost use Rattle.key_store.specs.Calls.{AnswersMade, state_after};

use crate::state::KeyState;
use dataset_tree::{Kind, NoMemory, SetName, Stop, Tree};
use key_reads::clone_refusal;
use std::alloc::AllocError;

impl KeyState {
    /// Makes a dataset in the family of an encrypted one, whose clone it is, and gives its id. It has no record and
    /// is no root: it uses the key that its origin uses, whatever its parent's key is. Slots that agreed do so after
    /// it.
    ///
    /// # Errors
    /// `NoSuch` and `NotEncrypted` for the origin, `Exists`, `NoParent`, `Full` (datasets, ids); `NoMemory` where an
    /// allocation is refused. After an `Err` all is as before.
    pub fn add_clone(&mut self, from: &SetName, name: &SetName) -> Result<u32, Stop>
        ensures reply { AnswersMade result (key_step self.old (commands.Clone from.now name.now) nothing_told).reply }
        ensures state { self.new ≡ state_after result self.old
            (key_step self.old (commands.Clone from.now name.now) nothing_told).state }
        ensures unchanged { OnErr result (self.new ≡ self.old) }
        ensures agrees { (t : Told) → Agrees t self.old → Agrees t self.new }
    {
        if let Some(why) = clone_refusal(self, from, name) {
            return Err(Stop::Refused(why));
        }
        let Some(origin) = self.tree.find(from) else {
            unreachable!();
        };
        self.add_clone_of(from, name, origin)
    }

    /// Adds the clone of a dataset, which nothing refuses.
    fn add_clone_of(&mut self, from: &SetName, name: &SetName, origin: u32) -> Result<u32, Stop>
        requires accepted { refusal_of self.old (commands.Clone from.now name.now) ≡ None }
        requires named { id_named from.now self.old.tree.rows ≡ Some origin }
        ensures reply { AnswersMade result (key_step self.old (commands.Clone from.now name.now) nothing_told).reply }
        ensures state { self.new ≡ state_after result self.old
            (key_step self.old (commands.Clone from.now name.now) nothing_told).state }
        ensures unchanged { OnErr result (self.new ≡ self.old) }
        ensures agrees { (t : Told) → Agrees t self.old → Agrees t self.new }
    {
        let id = add_free_clone(&mut self.tree, name, origin)?;
        Ok(id)
    }
}

/// Adds a clone that nothing refuses.
fn add_free_clone(tree: &mut Tree, name: &SetName, origin: u32) -> Result<u32, NoMemory>
    requires free { new_id tree.old name.now ≡ Ok (tree.old.last + 1) }
    requires origin { IsDatasetOrNone tree.old origin }
    ensures id { IfOk result (λ id. id ≡ tree.old.last + 1) }
    ensures added { OnOk result (tree.new ≡ with_row tree.old name.now Crypt origin) }
    ensures same { OnErr result (tree.new ≡ tree.old) }
{
    match tree.add(name, Kind::Crypt, origin) {
        Ok(id) => Ok(id),
        Err(Stop::NoMemory) => Err(AllocError),
        Err(Stop::Refused(_)) => unreachable!(),
    }
}

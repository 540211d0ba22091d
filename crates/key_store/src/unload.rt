// Unloads.
ghost use Rattle.std.specs.Prelude.{◌≡◌, ℕ, ◌≤◌, true, Option, None, Some, Ok, Err, OnOk, OnErr, IfErr, []};
ghost use Rattle.std.specs.List.{find};
ghost use Rattle.std.specs.Option.{option_copied};
ghost use Rattle.dataset_tree.specs.Tree.{id_named};
ghost use Rattle.dataset_tree.specs.declared.refusal.Refusal.TheVariants.{Busy};
ghost use Rattle.encryption_roots.specs.ById.{IsRisingById, at_id, without_id};
ghost use Rattle.encryption_roots.specs.declared.command.KeyCmd.TheVariants as commands;
ghost use Rattle.key_machine.specs.Plain.{owner_of};
ghost use Rattle.key_machine.specs.Step.{refusal_of, key_step, key_step_found};
ghost use Rattle.key_machine.specs.Told.{nothing_told};
ghost use Rattle.key_machine.specs.Unload.{closed, closed_below, first_in_use, is_owned};
ghost use Rattle.key_store.specs.Agrees.{Agrees, SameRefusals, IsRefused};
ghost use Rattle.key_store.specs.Calls.{AnswersUnloaded, found_by};

use crate::state::KeyState;
use dataset_tree::{Refusal, SetName};
use encryption_roots::remove_at_id;
use key_reads::unload_root;
use mapping_words::SlotKeeper;

/// A mapping that a close found in use.
#[derive(Clone, Copy, Debug)]
pub(crate) struct UsedMapping {
    pub(crate) dataset: u32,
    /// How many use it, at least 1.
    pub(crate) count: u32,
}

impl KeyState {
    /// Drops the loaded key of a root, once the mappings of the datasets that the root owns are closed, in order of
    /// id.
    ///
    /// # Errors
    /// `NoSuch`, `NotEncrypted`, `NotRoot`, and `KeyUnavailable` where the key isn't loaded: then all is as before.
    /// `Busy` where a close finds a mapping in use, with its dataset and how many use it: then the mappings before it
    /// stay closed, and nothing else changed.
    pub fn unload<K: SlotKeeper>(
        &mut self,
        keeper: &mut K,
        board: &K::Board,
        name: &SetName,
    ) -> Result<(), Refusal>
        requires fits { K.fits keeper.old board.now }
        requires agrees { Agrees (K.told keeper.old) self.old }
        ensures reply { AnswersUnloaded result
            (key_step_found (found_by result) self.old (commands.Unload name.now) nothing_told).reply }
        ensures state { self.new
            ≡ (key_step_found (found_by result) self.old (commands.Unload name.now) nothing_told).state }
        ensures told_reply { K.tells ≡ true
            → AnswersUnloaded result (key_step self.old (commands.Unload name.now) nothing_told).reply }
        ensures told_state { K.tells ≡ true
            → self.new ≡ (key_step self.old (commands.Unload name.now) nothing_told).state }
        ensures busy { (dataset count : ℕ) → result ≡ Err (Busy dataset count) → (slot : ℕ)
            × (at_id dataset self.old.mapped ≡ Some slot) × (1 ≤ count)
            × IsRefused (K.told keeper.old) (K.told keeper.new) slot count }
        ensures refusals { found_by result ≡ None → SameRefusals (K.told keeper.old) (K.told keeper.new) }
        ensures agrees { Agrees (K.told keeper.new) self.new }
        ensures fits { K.fits keeper.new board.now }
    {
        let root = match unload_root(&*self, name) {
            Ok(root) => root,
            Err(why) => return Err(why),
        };
        match self.close_owned(keeper, board, root) {
            Ok(()) => (),
            Err(found) => {
                let UsedMapping { dataset, count } = found;
                return Err(Refusal::Busy {
                    dataset,
                    count: u64::from(count),
                });
            }
        }
        self.drop_key(name, root);
        Ok(())
    }

    /// Closes the mappings of the datasets that a root owns, in order of id, up to the first that is in use.
    fn close_owned<K: SlotKeeper>(
        &mut self,
        keeper: &mut K,
        board: &K::Board,
        root: u32,
    ) -> Result<(), UsedMapping>
        requires fits { K.fits keeper.old board.now }
        requires agrees { Agrees (K.told keeper.old) self.old }
        ensures closed { OnOk result (self.new ≡ record self.old { mapped = closed self.old root }) }
        ensures below { IfErr result (λ found. self.new
            ≡ record self.old { mapped = closed_below self.old root found.dataset }) }
        ensures owned { IfErr result (λ found. owner_of self.old found.dataset ≡ Some root) }
        ensures busy { IfErr result (λ found. (slot : ℕ) × (at_id found.dataset self.old.mapped ≡ Some slot)
            × (1 ≤ found.count) × IsRefused (K.told keeper.old) (K.told keeper.new) slot found.count) }
        ensures refusals { OnOk result (SameRefusals (K.told keeper.old) (K.told keeper.new)) }
        ensures idle { K.tells ≡ true → OnOk result (first_in_use self.old root ≡ None) }
        ensures first { K.tells ≡ true → IfErr result (λ found. first_in_use self.old root
            ≡ Some (record { dataset = found.dataset; count = found.count })) }
        ensures agrees { Agrees (K.told keeper.new) self.new }
        ensures fits { K.fits keeper.new board.now }
    {
        self.rises_unheld();
        while let Some((id, slot)) = self.first_owned(root) {
            if let Err(found) = self.close(keeper, board, id, slot) {
                return Err(UsedMapping {
                    dataset: id,
                    count: found.count(),
                });
            }
        }
        Ok(())
    }

    /// Mappings stand in order of id, and nobody who holds one is shown: a law, which does nothing.
    fn rises_unheld(&self)
        ensures rising { IsRisingById self.now.mapped }
        ensures unheld { self.now.users ≡ [] }
    {
        let _mapped = &self.mapped;
    }

    /// The first mapping of a dataset that the root owns.
    fn first_owned(&self, root: u32) -> Option<(u32, u32)>
        ensures { result ≡ find (λ mapping. is_owned self.now root mapping) self.now.mapped }
    {
        match self.first_owned_in(self.mapped.as_slice(), root) {
            None => None,
            Some(mapping) => Some(*mapping),
        }
    }

    fn first_owned_in<'a>(&self, mapped: &'a [(u32, u32)], root: u32) -> Option<&'a (u32, u32)>
        ensures { option_copied result ≡ find (λ mapping. is_owned self.now root mapping) mapped.now }
    {
        mapped.iter().find(|mapping| self.owns(root, mapping.0))
    }

    /// Drops the loaded key of a root of which no dataset is mapped.
    fn drop_key(&mut self, name: &SetName, root: u32)
        requires accepted { refusal_of self.old (commands.Unload name.now) ≡ None }
        requires named { id_named name.now self.old.tree.rows ≡ Some root }
        requires idle { closed self.old root ≡ self.old.mapped }
        ensures { self.new ≡ record self.old { loaded = without_id root self.old.loaded } }
    {
        remove_at_id(&mut self.loaded, root);
    }
}

// Datasets that go.
ghost use Rattle.std.specs.Prelude.{◌≡◌, ◌≢◌, ℕ, ◌≤◌, ◌||◌, Bool, true, false, List, [], ◌∷◌, Option, None, Some, is_some, Ok, Err, OnOk, OnErr, IfErr};
ghost use Rattle.std.specs.List.{list_any};
ghost use Rattle.dataset_tree.specs.Tree.{id_named, is_needed, row_of, without_row};
ghost use Rattle.dataset_tree.specs.declared.refusal.Refusal.TheVariants.{HasChildren, Mounted, Busy};
ghost use Rattle.dataset_tree.specs.declared.tree.Row.{Row as Dataset};
ghost use Rattle.encryption_roots.specs.ById.{at_id};
ghost use Rattle.encryption_roots.specs.Owners.{family};
ghost use Rattle.encryption_roots.specs.declared.command.KeyCmd.TheVariants as commands;
ghost use Rattle.mapping_words.specs.Told.{Told};
ghost use Rattle.mapping_words.specs.Words.{count_in};
ghost use Rattle.key_machine.specs.Destroy.{destroy_cases, destroyed};
ghost use Rattle.key_machine.specs.Kept.{KeepsKey};
ghost use Rattle.key_machine.specs.Reap.{own_in_use, without_mapping};
ghost use Rattle.key_machine.specs.Refusals.{first_of};
ghost use Rattle.key_machine.specs.Step.{key_step, key_step_found};
ghost use Rattle.key_machine.specs.Told.{nothing_told};
ghost use Rattle.key_machine.specs.Users.{is_mounted};
ghost use Rattle.key_ciphers.specs.Ciphers.{ciphers};
ghost use Rattle.key_store.specs.Agrees.{Agrees, SameRefusals, IsRefused};
ghost use Rattle.key_store.specs.Calls.{AnswersUnloaded, found_by};

use crate::state::KeyState;
use dataset_tree::{Refusal, Row, SetName, Tree};
use encryption_roots::remove_at_id;
use mapping_words::{InUse, SlotKeeper};

impl KeyState {
    /// Destroys the dataset of this id, with its root, its loaded key and its mapping. The record of its family goes
    /// with the family's last dataset, and the family's master key with its last mapping. `snaps` says whether the
    /// dataset has snapshots.
    ///
    /// # Errors
    /// `HasChildren` where others stand below the dataset, one was cloned from it, or it has snapshots; `Mounted`; and
    /// `Busy` where the close finds the dataset's own mapping in use, with how many use it. Then all is as before.
    pub fn destroy<K: SlotKeeper>(
        &mut self,
        keeper: &mut K,
        board: &K::Board,
        id: u32,
        snaps: bool,
    ) -> Result<(), Refusal>
        requires fits { K.fits keeper.old board.now }
        requires agrees { Agrees (K.told keeper.old) self.old }
        requires there { is_some (row_of id self.old.tree.rows) ≡ true }
        ensures reply { (name : List ℕ) → id_named name self.old.tree.rows ≡ Some id → AnswersUnloaded result
            (key_step_found (found_by result) self.old (commands.Destroy name snaps) nothing_told).reply }
        ensures state { (name : List ℕ) → id_named name self.old.tree.rows ≡ Some id → self.new
            ≡ (key_step_found (found_by result) self.old (commands.Destroy name snaps) nothing_told).state }
        ensures told_reply { K.tells ≡ true → (name : List ℕ) → id_named name self.old.tree.rows ≡ Some id
            → AnswersUnloaded result (key_step self.old (commands.Destroy name snaps) nothing_told).reply }
        ensures told_state { K.tells ≡ true → (name : List ℕ) → id_named name self.old.tree.rows ≡ Some id
            → self.new ≡ (key_step self.old (commands.Destroy name snaps) nothing_told).state }
        ensures done { OnOk result (self.new ≡ destroyed self.old id) }
        ensures unchanged { OnErr result (self.new ≡ self.old) }
        ensures keys { (root : ℕ) → root ≢ id → at_id root self.new.loaded ≡ at_id root self.old.loaded }
        ensures mappings { (other slot : ℕ) → other ≢ id → at_id other self.old.mapped ≡ Some slot
            → KeepsKey ciphers self.old self.new other slot }
        ensures records { (other : ℕ) (row : Dataset) → other ≢ id → row_of other self.old.tree.rows ≡ Some row
            → at_id (family self.old.tree.rows other) self.new.wrapped
            ≡ at_id (family self.old.tree.rows other) self.old.wrapped }
        ensures busy { (dataset count : ℕ) → result ≡ Err (Busy dataset count) → (dataset ≡ id) × (slot : ℕ)
            × (at_id id self.old.mapped ≡ Some slot) × (1 ≤ count)
            × IsRefused (K.told keeper.old) (K.told keeper.new) slot count }
        ensures refusals { found_by result ≡ None → SameRefusals (K.told keeper.old) (K.told keeper.new) }
        ensures agrees { Agrees (K.told keeper.new) self.new }
        ensures fits { K.fits keeper.new board.now }
    {
        let _ = &self.tree;
        if let Some(why) = self.use_refusal(id, snaps) {
            return Err(why);
        }
        if let Err(found) = self.close_own(keeper, board, id) {
            return Err(Refusal::Busy {
                dataset: id,
                count: u64::from(found.count()),
            });
        }
        self.forget(id);
        Ok(())
    }

    /// Closes the mapping of a dataset, where it has one.
    fn close_own<K: SlotKeeper>(
        &mut self,
        keeper: &mut K,
        board: &K::Board,
        id: u32,
    ) -> Result<(), InUse>
        requires fits { K.fits keeper.old board.now }
        requires agrees { Agrees (K.told keeper.old) self.old }
        ensures closed { OnOk result (self.new ≡ without_mapping self.old id) }
        ensures kept { OnErr result (self.new ≡ self.old) }
        ensures refusals { OnOk result (SameRefusals (K.told keeper.old) (K.told keeper.new)) }
        ensures refused { IfErr result (λ found. (slot : ℕ) × (at_id id self.old.mapped ≡ Some slot)
            × (1 ≤ count_in found.word)
            × IsRefused (K.told keeper.old) (K.told keeper.new) slot (count_in found.word)) }
        ensures idle { K.tells ≡ true → OnOk result (own_in_use self.old id ≡ None) }
        ensures used { K.tells ≡ true → IfErr result (λ found. own_in_use self.old id
            ≡ Some (record { dataset = id; count = count_in found.word })) }
        ensures agrees { Agrees (K.told keeper.new) self.new }
        ensures fits { K.fits keeper.new board.now }
    {
        let _ = &self.tree;
        match self.slot_of(id) {
            None => Ok(()),
            Some(slot) => self.close(keeper, board, id, slot),
        }
    }

    /// Drops a dataset that none needs and that isn't mapped, with its root and its loaded key. A record has the id of
    /// its family's first dataset, which is the last one to go.
    fn forget(&mut self, id: u32)
        requires there { is_some (row_of id self.old.tree.rows) ≡ true }
        requires free { is_needed id self.old.tree.rows ≡ false }
        requires unmapped { at_id id self.old.mapped ≡ None }
        ensures gone { self.new ≡ destroyed self.old id }
        ensures agrees { (t : Told) → Agrees t self.old → Agrees t self.new }
    {
        remove_at_id(&mut self.records, id);
        remove_at_id(&mut self.mkey_counts, id);
        remove_at_id(&mut self.loaded, id);
        self.roots.remove(id);
        remove_free(&mut self.tree, id);
    }

    /// Why the state refuses to destroy a dataset.
    pub(crate) fn destroy_refusal(&self, name: &SetName, snaps: bool) -> Option<Refusal>
        ensures { result ≡ first_of (destroy_cases self.now name.now snaps) }
    {
        let Some(row) = self.row_named(name.as_bytes()) else {
            return Some(Refusal::NoSuch);
        };
        self.use_refusal(row.id, snaps)
    }

    /// Why the state refuses to destroy a dataset that is there.
    fn use_refusal(&self, id: u32, snaps: bool) -> Option<Refusal>
        ensures { result ≡ first_of ((is_needed id self.now.tree.rows || snaps, HasChildren)
            ∷ (is_mounted self.now id, Mounted) ∷ []) }
    {
        if is_needed(self.tree.rows(), id) || snaps {
            return Some(Refusal::HasChildren);
        }
        if self.is_mounted(id) {
            return Some(Refusal::Mounted);
        }
        None
    }
}

/// Takes out a dataset that none needs.
fn remove_free(tree: &mut Tree, id: u32)
    requires there { is_some (row_of id tree.old.rows) ≡ true }
    requires free { is_needed id tree.old.rows ≡ false }
    ensures { tree.new ≡ without_row tree.old id }
{
    if tree.remove(id).is_err() {
        unreachable!();
    }
}

/// Whether the dataset has children, or was cloned.
fn is_needed(rows: &[Row], id: u32) -> bool
    ensures { result ≡ is_needed id rows.now }
{
    rows.iter().any(|row| row.parent == id || row.origin == id)
}

// Mounts, unmounts and reaps.
ghost use Rattle.std.specs.Prelude.{◌≡◌, ℕ, ◌≤◌, true, false, Option, None, Some, is_some, is_err, IfErr, OnOk, OnErr};
ghost use Rattle.dataset_tree.specs.Tree.{id_named};
ghost use Rattle.encryption_roots.specs.ById.{at_id};
ghost use Rattle.encryption_roots.specs.declared.command.KeyCmd.TheVariants as commands;
ghost use Rattle.mapping_words.specs.Words.{count_in};
ghost use Rattle.key_machine.specs.Mount.{mount_cases, free_slot, with_mapping, with_mounted, is_mounted_row, has_slot_row};
ghost use Rattle.key_machine.specs.Plain.{mkey};
ghost use Rattle.key_machine.specs.Reap.{reap_found, reap_step, without_mapping};
ghost use Rattle.key_machine.specs.Refusals.{first_of};
ghost use Rattle.key_machine.specs.Reply.{Done, Reaped};
ghost use Rattle.key_machine.specs.Step.{refusal_of, key_step};
ghost use Rattle.key_machine.specs.Told.{nothing_told};
ghost use Rattle.key_machine.specs.Unmount.{unmount_cases, with_unmounted};
ghost use Rattle.key_machine.specs.Users.{is_mounted};
ghost use Rattle.key_ciphers.specs.Ciphers.{ciphers, master_of};
ghost use Rattle.key_store.specs.Agrees.{Agrees, SameRefusals, IsRefused};
ghost use Rattle.key_store.specs.Calls.{state_after, AnswersDone, AnswersUnloaded, GivesRoot};
ghost use Rattle.std.specs.Option.{option_map};

use crate::create::put_with_room;
use crate::slots::{add_mount, free_slot, keep_opened, remove_mount, set_generation};
use crate::state::{KeyState, SLOTS};
use crate::uses::{add_use, take_use, uses_of};
use dataset_tree::{Kind, NoMemory, Refusal, SetName, Stop};
use encryption_roots::{family_of, put_at_id, remove_at_id};
use mapping_words::{InUse, SlotKeeper};
use wrapped_keys::MasterKey;

impl KeyState {
    /// Mounts a dataset: its mapping is mounted again, and where it has none it is mapped on the lowest slot that is
    /// free and has a generation left, under the slot's next generation. The family's master key is opened then, if
    /// it isn't.
    ///
    /// # Errors
    /// `NoSuch`, `NotEncrypted`, `Mounted`, `KeyUnavailable`, and `Full` with 256 where a slot is wanted and none
    /// is free; `NoMemory` where an allocation is refused. After an `Err` all is as before.
    pub fn mount<K: SlotKeeper>(
        &mut self,
        keeper: &mut K,
        board: &K::Board,
        name: &SetName,
    ) -> Result<(), Stop>
        requires fits { K.fits keeper.old board.now }
        requires agrees { Agrees (K.told keeper.old) self.old }
        ensures reply { AnswersDone result (key_step self.old (commands.Mount name.now) nothing_told).reply }
        ensures state { self.new ≡ state_after result self.old
            (key_step self.old (commands.Mount name.now) nothing_told).state }
        ensures unchanged { OnErr result (self.new ≡ self.old) }
        ensures untold { OnErr result (K.told keeper.new ≡ K.told keeper.old) }
        ensures refusals { SameRefusals (K.told keeper.old) (K.told keeper.new) }
        ensures agrees { Agrees (K.told keeper.new) self.new }
        ensures fits { K.fits keeper.new board.now }
    {
        let id = match self.mount_id(name) {
            Ok(id) => id,
            Err(why) => return Err(Stop::Refused(why)),
        };
        match self.slot_of(id) {
            Some(slot) => self.mount_again(keeper, board, name, id, slot),
            None => self.mount_anew(keeper, board, name, id)?,
        }
        Ok(())
    }

    /// Mounts the mapping that a dataset has.
    fn mount_again<K: SlotKeeper>(
        &mut self,
        keeper: &mut K,
        board: &K::Board,
        name: &SetName,
        id: u32,
        slot: u32,
    )
        requires fits { K.fits keeper.old board.now }
        requires agrees { Agrees (K.told keeper.old) self.old }
        requires accepted { refusal_of self.old (commands.Mount name.now) ≡ None }
        requires named { id_named name.now self.old.tree.rows ≡ Some id }
        requires mapped { at_id id self.old.mapped ≡ Some slot }
        ensures mounted { self.new ≡ with_mounted self.old id }
        ensures refusals { SameRefusals (K.told keeper.old) (K.told keeper.new) }
        ensures agrees { Agrees (K.told keeper.new) self.new }
        ensures fits { K.fits keeper.new board.now }
    {
        let _ = &self.tree;
        keeper.mount(board, slot);
        add_mount(&mut self.mounted, id);
    }

    /// Maps a dataset on the lowest free slot, and mounts it.
    fn mount_anew<K: SlotKeeper>(
        &mut self,
        keeper: &mut K,
        board: &K::Board,
        name: &SetName,
        id: u32,
    ) -> Result<(), NoMemory>
        requires fits { K.fits keeper.old board.now }
        requires agrees { Agrees (K.told keeper.old) self.old }
        requires accepted { refusal_of self.old (commands.Mount name.now) ≡ None }
        requires named { id_named name.now self.old.tree.rows ≡ Some id }
        requires unmapped { at_id id self.old.mapped ≡ None }
        ensures ok { OnOk result (self.new ≡ (key_step self.old (commands.Mount name.now) nothing_told).state) }
        ensures done { OnOk result ((key_step self.old (commands.Mount name.now) nothing_told).reply ≡ Done) }
        ensures err { OnErr result (self.new ≡ self.old) }
        ensures untold { OnErr result (K.told keeper.new ≡ K.told keeper.old) }
        ensures refusals { SameRefusals (K.told keeper.old) (K.told keeper.new) }
        ensures agrees { Agrees (K.told keeper.new) self.new }
        ensures fits { K.fits keeper.new board.now }
    {
        let family = family_of(&self.tree, id);
        let Some(slot) = self.free_slot() else {
            unreachable!();
        };
        let Some(key) = self.family_key(family) else {
            unreachable!();
        };
        put_at_id(&mut self.opened, family, key)?;
        let generation = keeper.open_slot(board, slot);
        keeper.mount(board, slot);
        set_generation(&mut self.gens, slot, generation);
        put_with_room(&mut self.mapped, id, slot);
        add_use(self.mkey_counts.as_mut_slice(), family);
        add_mount(&mut self.mounted, id);
        Ok(())
    }

    /// The lowest slot that is free and has a generation left.
    fn free_slot(&self) -> Option<u32>
        ensures { result ≡ free_slot self.now }
    {
        free_slot(self.gens.as_slice(), self.mapped.as_slice())
    }

    /// The master key of a family, by the opened one where there is one.
    fn family_key(&self, family: u32) -> Option<MasterKey>
        ensures { option_map master_of result ≡ mkey ciphers self.now family }
    {
        if let Some(key) = self.opened(family) {
            return Some(*key);
        }
        self.master_key(family)
    }

    /// The dataset that a mount is about, or why the state refuses it.
    pub(crate) fn mount_id(&self, name: &SetName) -> Result<u32, Refusal>
        ensures { GivesRoot result (first_of (mount_cases self.now name.now)) (id_named name.now self.now.tree.rows) }
    {
        let Some(row) = self.row_named(name.as_bytes()) else {
            return Err(Refusal::NoSuch);
        };
        if row.kind != Kind::Crypt {
            return Err(Refusal::NotEncrypted);
        }
        if self.is_mounted(row.id) {
            return Err(Refusal::Mounted);
        }
        if !self.status(row.id) {
            return Err(Refusal::KeyUnavailable);
        }
        if self.slot_of(row.id).is_none() && self.free_slot().is_none() {
            return Err(Refusal::Full {
                limit: u64::from(SLOTS),
            });
        }
        Ok(row.id)
    }

    /// Unmounts a dataset. Its mapping stays, for those who hold it.
    ///
    /// # Errors
    /// `NoSuch`, `NotEncrypted` and `NotMounted`. Then all is as before.
    pub fn unmount<K: SlotKeeper>(
        &mut self,
        keeper: &mut K,
        board: &K::Board,
        name: &SetName,
    ) -> Result<(), Refusal>
        requires fits { K.fits keeper.old board.now }
        requires agrees { Agrees (K.told keeper.old) self.old }
        ensures reply { AnswersUnloaded result (key_step self.old (commands.Unmount name.now) nothing_told).reply }
        ensures state { self.new ≡ (key_step self.old (commands.Unmount name.now) nothing_told).state }
        ensures unchanged { OnErr result (self.new ≡ self.old) }
        ensures untold { OnErr result (K.told keeper.new ≡ K.told keeper.old) }
        ensures refusals { SameRefusals (K.told keeper.old) (K.told keeper.new) }
        ensures agrees { Agrees (K.told keeper.new) self.new }
        ensures fits { K.fits keeper.new board.now }
    {
        let _ = &self.tree;
        let id = match self.mounted_id(name) {
            Ok(id) => id,
            Err(why) => return Err(why),
        };
        let Some(slot) = self.slot_of(id) else {
            unreachable!();
        };
        remove_mount(&mut self.mounted, id);
        keeper.unmount(board, slot);
        Ok(())
    }

    /// The id of a mounted dataset.
    ///
    /// # Errors
    ///
    /// In this order `NoSuch` where no dataset has the name, `NotEncrypted` where it is plain, and `NotMounted`.
    pub fn mounted_id(&self, name: &SetName) -> Result<u32, Refusal>
        ensures { GivesRoot result (first_of (unmount_cases self.now name.now)) (id_named name.now self.now.tree.rows) }
    {
        let Some(row) = self.row_named(name.as_bytes()) else {
            return Err(Refusal::NoSuch);
        };
        if row.kind != Kind::Crypt {
            return Err(Refusal::NotEncrypted);
        }
        if !self.is_mounted(row.id) {
            return Err(Refusal::NotMounted);
        }
        Ok(row.id)
    }

    /// Drops the mapping of a dataset that none uses, and tells whether it did: where the dataset is mapped, and the
    /// close of its slot isn't refused. The master key of its family goes with the family's last mapping.
    pub fn drop_mapping<K: SlotKeeper>(&mut self, keeper: &mut K, board: &K::Board, id: u32) -> bool
        requires fits { K.fits keeper.old board.now }
        requires agrees { Agrees (K.told keeper.old) self.old }
        ensures dropped { result ≡ true
            → reap_found None self.old id ≡ record { state = self.new; reply = Reaped id true } }
        ensures kept { result ≡ false → self.new ≡ self.old }
        ensures refused { result ≡ false → (slot : ℕ) → at_id id self.old.mapped ≡ Some slot
            → (count : ℕ) × (1 ≤ count) × IsRefused (K.told keeper.old) (K.told keeper.new) slot count }
        ensures refusals { result ≡ true → SameRefusals (K.told keeper.old) (K.told keeper.new) }
        ensures unmapped { at_id id self.old.mapped ≡ None → K.told keeper.new ≡ K.told keeper.old }
        ensures tells { K.tells ≡ true
            → reap_step self.old id ≡ record { state = self.new; reply = Reaped id result } }
        ensures agrees { Agrees (K.told keeper.new) self.new }
        ensures fits { K.fits keeper.new board.now }
    {
        let _ = &self.tree;
        match self.slot_of(id) {
            None => false,
            Some(slot) => self.close(keeper, board, id, slot).is_ok(),
        }
    }

    /// Closes the mapping of a dataset.
    pub(crate) fn close<K: SlotKeeper>(
        &mut self,
        keeper: &mut K,
        board: &K::Board,
        id: u32,
        slot: u32,
    ) -> Result<(), InUse>
        requires fits { K.fits keeper.old board.now }
        requires agrees { Agrees (K.told keeper.old) self.old }
        requires mapped { at_id id self.old.mapped ≡ Some slot }
        ensures closed { OnOk result (self.new ≡ without_mapping self.old id) }
        ensures unmounted { OnOk result (is_mounted self.old id ≡ false) }
        ensures kept { OnErr result (self.new ≡ self.old) }
        ensures refusals { OnOk result (SameRefusals (K.told keeper.old) (K.told keeper.new)) }
        ensures refused { IfErr result (λ found. (1 ≤ count_in found.word)
            × IsRefused (K.told keeper.old) (K.told keeper.new) slot (count_in found.word)) }
        ensures exact { K.tells ≡ true → is_err result ≡ is_mounted self.old id }
        ensures count { K.tells ≡ true → IfErr result (λ found. count_in found.word ≡ 1) }
        ensures agrees { Agrees (K.told keeper.new) self.new }
        ensures fits { K.fits keeper.new board.now }
    {
        let family = family_of(&self.tree, id);
        match keeper.close_slot(board, slot) {
            Ok(()) => (),
            Err(found) => return Err(found),
        }
        remove_at_id(&mut self.mapped, id);
        take_use(self.mkey_counts.as_mut_slice(), family);
        let is_used = uses_of(self.mkey_counts.as_slice(), family) != 0;
        keep_opened(&mut self.opened, family, is_used);
        Ok(())
    }
}

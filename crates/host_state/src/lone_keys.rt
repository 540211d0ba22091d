// A keystore, and the slots of its mappings.
ghost use Rattle.std.specs.Prelude.{◌≡◌, IfOk};
ghost use Rattle.std.specs.declared.option.Option.{Option};
ghost use Rattle.dataset_tree.specs.Refusal.{Gives};
ghost use Rattle.dataset_tree.specs.Tree.{id_named};
ghost use Rattle.encryption_roots.specs.RecordSize.{IsRecordSize};
ghost use Rattle.encryption_roots.specs.declared.command.KeyCmd.TheVariants as commands;
ghost use Rattle.encryption_roots.specs.declared.props.Location.{Location as Place};
ghost use Rattle.std.specs.Prelude.{IfSome};
ghost use Rattle.key_machine.specs.Counts.{counts};
ghost use Rattle.key_machine.specs.Plain.{no_keys};
ghost use Rattle.key_machine.specs.Step.{key_step};
ghost use Rattle.key_machine.specs.Told.{nothing_told};
ghost use Rattle.key_store.specs.Calls.{AnswersDone, AnswersMade, AnswersUnloaded, needed, state_after, stepped};
ghost use Rattle.host_state.specs.Hosts.{reaped_at, with_reap};

use change_key::{plan_change, plan_inherit};
use dataset_tree::{NoMemory, Refusal, SetName, Stop};
use encryption_roots::{KeyCmd, LineKit, Options};
use key_store::{
    Counts, KeyState, Needs, fresh_keepers_agree, key_commands_leave_the_slots, states_are_sound,
};
use mapping_words::LoneWords;
use std::alloc::Global;
use std::marker::Model;

/// How many slots there are for mappings.
const SLOTS: u32 = 256;

/// A keystore with the slots of its mappings, which no other uses: contracts see the plain state.
#[derive(Drop)]
pub(crate) struct LoneKeys {
    keys: KeyState,
    words: LoneWords,
}

impl Model for LoneKeys {
    ghost use Rattle.key_machine.specs.Plain.{Plain};
    ghost use Rattle.key_store.specs.Agrees.{Agrees};

    ghost Value = { Plain };

    ghost view = { λ lone. lone.keys };

    ghost invariant = { λ lone. Agrees lone.words lone.keys };
}

impl LoneKeys {
    /// A keystore that holds nothing.
    pub(crate) fn new(alloc: Global) -> Result<LoneKeys, NoMemory>
        ensures { IfOk result (λ lone. lone ≡ no_keys) }
    {
        let keys = KeyState::new(alloc)?;
        let words = LoneWords::new(alloc, SLOTS)?;
        fresh_keepers_agree();
        Ok(LoneKeys { keys, words })
    }

    /// The keystore.
    pub(crate) fn keys(&self) -> &KeyState
        ensures { result.now ≡ self.now }
    {
        &self.keys
    }

    /// What a command needs, or why the state refuses it, as the keystore says.
    pub(crate) fn needs(&self, command: &KeyCmd) -> Result<Needs, Stop>
        ensures { Gives result (needed self.now command.now) }
    {
        self.keys.needs(command)
    }

    /// Makes a dataset, as the keystore does.
    pub(crate) fn create(
        &mut self,
        name: &SetName,
        opts: &Options,
        kit: &LineKit,
    ) -> Result<u32, Stop>
        requires { IfSome opts.now.block IsRecordSize }
        ensures reply { AnswersMade result (stepped self.old (commands.Create name.now opts.now) kit.now).reply }
        ensures state { self.new ≡ state_after result self.old
            (stepped self.old (commands.Create name.now opts.now) kit.now).state }
    {
        key_commands_leave_the_slots();
        self.keys.create(name, opts, kit)
    }

    /// Loads the key of a root, or only tests it, as the keystore does.
    pub(crate) fn load(
        &mut self,
        name: &SetName,
        check_only: bool,
        kit: &LineKit,
    ) -> Result<(), Stop>
        ensures reply { (place : Option Place)
            → AnswersDone result (stepped self.old (commands.Load name.now check_only place) kit.now).reply }
        ensures state { (place : Option Place)
            → self.new ≡ state_after result self.old
            (stepped self.old (commands.Load name.now check_only place) kit.now).state }
    {
        key_commands_leave_the_slots();
        self.keys.load(name, check_only, kit)
    }

    /// Gives a dataset a key of its own.
    pub(crate) fn change(
        &mut self,
        alloc: Global,
        name: &SetName,
        opts: &Options,
        load_first: bool,
        kit: &LineKit,
    ) -> Result<(), Stop>
        ensures reply { AnswersDone result
            (stepped self.old (commands.Change name.now opts.now load_first) kit.now).reply }
        ensures state { self.new ≡ state_after result self.old
            (stepped self.old (commands.Change name.now opts.now load_first) kit.now).state }
    {
        states_are_sound(&self.keys);
        key_commands_leave_the_slots();
        let plan = match plan_change(alloc, &self.keys, name, opts, load_first, kit) {
            Ok(plan) => plan,
            Err(stop) => return Err(stop),
        };
        self.keys.apply_change(plan);
        Ok(())
    }

    /// Lets a root use its parent's key.
    pub(crate) fn inherit(
        &mut self,
        alloc: Global,
        name: &SetName,
        load_first: bool,
        kit: &LineKit,
    ) -> Result<(), Stop>
        ensures reply { AnswersDone result (stepped self.old (commands.Inherit name.now load_first) kit.now).reply }
        ensures state { self.new ≡ state_after result self.old
            (stepped self.old (commands.Inherit name.now load_first) kit.now).state }
    {
        states_are_sound(&self.keys);
        key_commands_leave_the_slots();
        let plan = match plan_inherit(alloc, &self.keys, name, load_first, kit) {
            Ok(plan) => plan,
            Err(stop) => return Err(stop),
        };
        self.keys.apply_change(plan);
        Ok(())
    }

    /// Drops the loaded key of a root, once its mappings are closed.
    pub(crate) fn unload(&mut self, name: &SetName) -> Result<(), Refusal>
        ensures reply { AnswersUnloaded result (key_step self.old (commands.Unload name.now) nothing_told).reply }
        ensures state { self.new ≡ (key_step self.old (commands.Unload name.now) nothing_told).state }
    {
        self.keys.unload(&mut self.words, &(), name)
    }

    /// Mounts a dataset.
    pub(crate) fn mount(&mut self, name: &SetName) -> Result<(), Stop>
        ensures reply { AnswersDone result (key_step self.old (commands.Mount name.now) nothing_told).reply }
        ensures state { self.new ≡ state_after result self.old
            (key_step self.old (commands.Mount name.now) nothing_told).state }
    {
        self.keys.mount(&mut self.words, &(), name)
    }

    /// Unmounts a dataset, and drops its mapping, which none uses then.
    pub(crate) fn unmount(&mut self, name: &SetName) -> Result<(), Refusal>
        ensures reply { AnswersUnloaded result (key_step self.old (commands.Unmount name.now) nothing_told).reply }
        ensures state { self.new
            ≡ (with_reap name.now (key_step self.old (commands.Unmount name.now) nothing_told)).state }
    {
        match self.keys.unmount(&mut self.words, &(), name) {
            Ok(()) => (),
            Err(why) => return Err(why),
        }
        self.reap(name);
        Ok(())
    }

    /// Drops the mapping of a dataset, if it is there and none uses it.
    fn reap(&mut self, name: &SetName)
        ensures { self.new ≡ reaped_at (id_named name.now self.old.tree.rows) self.old }
    {
        if let Some(id) = self.keys.tree().find(name) {
            self.keys.drop_mapping(&mut self.words, &(), id);
        }
    }

    /// Makes a dataset that is a clone of an encrypted one, and gives its id.
    pub(crate) fn add_clone(&mut self, from: &SetName, name: &SetName) -> Result<u32, Stop>
        ensures reply { AnswersMade result (key_step self.old (commands.Clone from.now name.now) nothing_told).reply }
        ensures state { self.new ≡ state_after result self.old
            (key_step self.old (commands.Clone from.now name.now) nothing_told).state }
    {
        self.keys.add_clone(from, name)
    }

    /// Destroys a dataset, of which this says whether it has snapshots.
    pub(crate) fn destroy(&mut self, name: &SetName, snaps: bool) -> Result<(), Refusal>
        ensures reply { AnswersUnloaded result (key_step self.old (commands.Destroy name.now snaps) nothing_told).reply }
        ensures state { self.new ≡ (key_step self.old (commands.Destroy name.now snaps) nothing_told).state }
    {
        states_are_sound(&self.keys);
        match self.keys.tree().find(name) {
            Some(id) => self.keys.destroy(&mut self.words, &(), id, snaps),
            None => Err(Refusal::NoSuch),
        }
    }

    /// How many use each loaded key and each mapping.
    pub(crate) fn counts(&mut self) -> Result<Counts, NoMemory>
        ensures counts { IfOk result (λ found. found ≡ counts self.old) }
        ensures same { self.new ≡ self.old }
    {
        self.keys.counts(&mut self.words, &())
    }
}

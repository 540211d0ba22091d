// A host: its keystore and its families.
ghost use Rattle.std.specs.Prelude.{◌≡◌, ◌≤◌, IfOk, IfSome};
ghost use Rattle.std.specs.declared.option.Option.{Option};
ghost use Rattle.dataset_tree.specs.Refusal.{Gives};
ghost use Rattle.encryption_roots.specs.RecordSize.{IsRecordSize};
ghost use Rattle.encryption_roots.specs.declared.command.KeyCmd.TheVariants as commands;
ghost use Rattle.encryption_roots.specs.declared.props.Location.{Location as Place};
ghost use Rattle.key_machine.specs.Counts.{counts};
ghost use Rattle.key_machine.specs.Step.{key_step};
ghost use Rattle.key_machine.specs.Told.{nothing_told};
ghost use Rattle.key_store.specs.Calls.{AnswersDone, AnswersMade, AnswersUnloaded, needed};
ghost use Rattle.host_state.specs.Hosts.{family_from, host_after, host_step, new_block, new_family, no_host, with_reap};

use crate::families::{family_from, keep_family, makes_encrypted};
use crate::lone_keys::LoneKeys;
use dataset_tree::{NoMemory, Refusal, SetName, Stop};
use encryption_roots::{KeyCmd, LineKit, Options};
use family_log::Family;
use key_store::{Counts, KeyState, Needs, states_are_sound};
use salt_rotation::MAX_SALT_USES;
use shelf_store::Shelf;
use std::alloc::Global;
use std::marker::Model;

/// How many families a host has at most.
const MAX_FAMILIES: usize = 32;

/// A keystore, and a family for each of its key records.
#[derive(Drop)]
pub struct Host<B: Shelf> {
    keys: LoneKeys,
    // In rising order of id.
    families: Vec<(u32, Family<B>)>,
    // How many draws a salt of a new family serves.
    limit: u64,
}

impl<B: Shelf> Model for Host<B> {
    ghost use Rattle.host_state.specs.Hosts.{HostState, IsHost};

    ghost Value = { HostState };

    ghost view = { λ host. record {
      keys = host.keys;
      families = host.families.items;
      limit = host.limit;
      tells = B.tells;
    } };

    ghost invariant = { λ host. IsHost B.tells host.keys host.families.items host.limit };
}

impl<B: Shelf> Host<B> {
    /// A host that holds nothing. A salt of its families will serve `limit` draws.
    pub fn new(alloc: Global, limit: u64) -> Result<Host<B>, NoMemory>
        requires least { 1 ≤ limit }
        requires most { limit ≤ MAX_SALT_USES }
        ensures { IfOk result (λ host. host ≡ no_host B.tells limit) }
    {
        let keys = LoneKeys::new(alloc)?;
        let families = Vec::with_capacity(alloc, MAX_FAMILIES)?;
        Ok(Host {
            keys,
            families,
            limit,
        })
    }

    /// The keystore.
    pub fn keys(&self) -> &KeyState
        ensures { result.now ≡ self.now.keys }
    {
        self.keys.keys()
    }

    /// What a command needs, or why the state refuses it, as the keystore says.
    pub fn needs(&self, command: &KeyCmd) -> Result<Needs, Stop>
        ensures { Gives result (needed self.now.keys command.now) }
    {
        self.keys.needs(command)
    }

    /// Makes a dataset, as the keystore does, and its family where it is encrypted.
    pub fn create(
        &mut self,
        alloc: Global,
        name: &SetName,
        opts: &Options,
        kit: &LineKit,
    ) -> Result<u32, Stop>
        requires { IfSome opts.now.block IsRecordSize }
        ensures reply { AnswersMade result (host_step self.old (commands.Create name.now opts.now) kit.now).reply }
        ensures state { self.new ≡ host_after result self.old
            (host_step self.old (commands.Create name.now opts.now) kit.now).state }
    {
        states_are_sound(self.keys.keys());
        self.families.reserve(1)?;
        let id = self.keys.keys().tree().last().saturating_add(1);
        let family = self.new_family(alloc, name, opts, kit, id)?;
        match self.keys.create(name, opts, kit) {
            Ok(id) => {
                keep_family(&mut self.families, id, family);
                Ok(id)
            }
            Err(stop) => Err(stop),
        }
    }

    /// The family of a new dataset with this id, where it is encrypted and a seed was had.
    fn new_family(
        &self,
        alloc: Global,
        name: &SetName,
        opts: &Options,
        kit: &LineKit,
        id: u32,
    ) -> Result<Option<Family<B>>, NoMemory>
        requires { IfSome opts.now.block IsRecordSize }
        ensures { IfOk result (λ family. family ≡ new_family self.now name.now opts.now kit.now id) }
    {
        if !makes_encrypted(self.keys.keys(), name, opts) {
            return Ok(None);
        }
        family_from(alloc, self.limit, opts, id, kit.seed)
    }

    /// Loads the key of a root, or only tests it, as the keystore does.
    pub fn load(&mut self, name: &SetName, check_only: bool, kit: &LineKit) -> Result<(), Stop>
        ensures reply { (place : Option Place)
            → AnswersDone result (host_step self.old (commands.Load name.now check_only place) kit.now).reply }
        ensures state { (place : Option Place)
            → self.new ≡ host_after result self.old
            (host_step self.old (commands.Load name.now check_only place) kit.now).state }
    {
        self.keys.load(name, check_only, kit)
    }

    /// Gives a dataset a key of its own.
    pub fn change(
        &mut self,
        alloc: Global,
        name: &SetName,
        opts: &Options,
        load_first: bool,
        kit: &LineKit,
    ) -> Result<(), Stop>
        ensures reply { AnswersDone result
            (host_step self.old (commands.Change name.now opts.now load_first) kit.now).reply }
        ensures state { self.new ≡ host_after result self.old
            (host_step self.old (commands.Change name.now opts.now load_first) kit.now).state }
    {
        states_are_sound(self.keys.keys());
        self.keys.change(alloc, name, opts, load_first, kit)
    }

    /// Lets a root use its parent's key.
    pub fn inherit(
        &mut self,
        alloc: Global,
        name: &SetName,
        load_first: bool,
        kit: &LineKit,
    ) -> Result<(), Stop>
        ensures reply { AnswersDone result (host_step self.old (commands.Inherit name.now load_first) kit.now).reply }
        ensures state { self.new ≡ host_after result self.old
            (host_step self.old (commands.Inherit name.now load_first) kit.now).state }
    {
        states_are_sound(self.keys.keys());
        self.keys.inherit(alloc, name, load_first, kit)
    }

    /// Drops the loaded key of a root, once its mappings are closed.
    pub fn unload(&mut self, name: &SetName) -> Result<(), Refusal>
        ensures reply { AnswersUnloaded result
            (key_step self.old.keys (commands.Unload name.now) nothing_told).reply }
        ensures state { self.new ≡ record self.old {
          keys = (key_step self.old.keys (commands.Unload name.now) nothing_told).state;
        } }
    {
        self.keys.unload(name)
    }

    /// Mounts a dataset.
    pub fn mount(&mut self, name: &SetName) -> Result<(), Stop>
        ensures reply { AnswersDone result
            (key_step self.old.keys (commands.Mount name.now) nothing_told).reply }
        ensures state { self.new ≡ host_after result self.old (record self.old {
          keys = (key_step self.old.keys (commands.Mount name.now) nothing_told).state;
        }) }
    {
        self.keys.mount(name)
    }

    /// Unmounts a dataset, and drops its mapping, which none uses then.
    pub fn unmount(&mut self, name: &SetName) -> Result<(), Refusal>
        ensures reply { AnswersUnloaded result
            (key_step self.old.keys (commands.Unmount name.now) nothing_told).reply }
        ensures state { self.new ≡ record self.old {
          keys = (with_reap name.now (key_step self.old.keys (commands.Unmount name.now) nothing_told)).state;
        } }
    {
        self.keys.unmount(name)
    }

    /// How many use each loaded key and each mapping.
    pub fn counts(&mut self) -> Result<Counts, NoMemory>
        ensures counts { IfOk result (λ found. found ≡ counts self.old.keys) }
        ensures same { self.new ≡ self.old }
    {
        self.keys.counts()
    }
}

mod files;
#[cfg(test)]
mod spot_tests;
mod spots;
#[cfg(test)]
mod tests;

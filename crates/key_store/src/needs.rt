// What a command needs, and why the state refuses it.
ghost use Rattle.std.specs.Prelude.{◌≡◌, false, unwrap_or, IfOk};
ghost use Rattle.dataset_tree.specs.Refusal.{Gives};
ghost use Rattle.encryption_roots.specs.declared.command.KeyCmd.TheVariants as commands;
ghost use Rattle.key_machine.specs.Load.{own_place};
ghost use Rattle.key_machine.specs.Step.{refusal_of, wanted};
ghost use Rattle.key_machine.specs.Told.{nothing_wanted};
ghost use Rattle.key_store.specs.Calls.{needed, needs_of};

use crate::state::KeyState;
use dataset_tree::{NoMemory, Refusal, SetName, Stop};
use encryption_roots::{KeyCmd, Location, Options};
use key_ciphers::{change_refusal, inherit_refusal};
use key_reads::{
    clone_refusal, create_refusal, get_refusal, load_root, makes_encrypted, old_place,
    place_of_new_key, place_or_none, place_or_prompt, unload_root,
};

/// A command that isn't built yet is refused, whatever the state.
const NOT_BUILT: Refusal = Refusal::BadOptions;

/// What a command takes beside the state.
#[derive(Debug, Drop)]
pub struct Needs {
    /// Where the present key is fetched, if it is to be.
    pub old_place: Option<Location>,
    /// Where the key that the command gives or loads is fetched, if one is to be.
    pub new_place: Option<Location>,
    /// Whether 32 random bytes are taken.
    pub seed: bool,
}

impl Needs {
    /// Of a command that takes nothing.
    fn nothing() -> Needs
        ensures { result ≡ needs_of nothing_wanted }
    {
        Needs {
            old_place: None,
            new_place: None,
            seed: false,
        }
    }
}

impl KeyState {
    /// What a command needs.
    ///
    /// # Errors
    /// The refusal that the state decides, the first in the command's order. `create`: `Exists`, `NoParent`,
    /// `BadOptions`, `BadIters`, `KeyUnavailable`, `Full` (datasets, ids, families). `load` and `unload`:
    /// `NoSuch`, `NotEncrypted`, `NotRoot`, then `KeyLoaded` or `KeyUnavailable`. `get`: `NoSuch`. A change
    /// of the key: `NoSuch`, `NotEncrypted`, `IsClone`, `BadOptions`, `BadIters`, and `KeyUnavailable` where
    /// the present key is neither loaded nor to be fetched. A root that is to inherit its parent's key:
    /// `NoSuch`, `NotEncrypted`, `IsClone`, `NotRoot`, `NoEncryptedParent`, `KeyUnavailable` for the present
    /// key, and for that of the parent's owner, where the present key isn't to be fetched. A command that
    /// isn't built yet is refused by `BadOptions`.
    pub fn needs(&self, cmd: &KeyCmd) -> Result<Needs, Stop>
        ensures { Gives result (needed self.now cmd.now) }
    {
        if let Some(why) = self.refusal(cmd) {
            return Err(Stop::Refused(why));
        }
        Ok(self.wanted(cmd)?)
    }

    /// The refusal that the state decides.
    fn refusal(&self, cmd: &KeyCmd) -> Option<Refusal>
        ensures { result ≡ refusal_of self.now cmd.now }
    {
        match cmd {
            KeyCmd::Create { name, opts } => create_refusal(self, name, opts, self.records.len()),
            KeyCmd::Load {
                name,
                check_only,
                ..
            } => load_root(self, name, *check_only).err(),
            KeyCmd::Unload { name } => unload_root(self, name).err(),
            KeyCmd::Get { name, .. } => get_refusal(self, name),
            KeyCmd::Change {
                name,
                opts,
                load_first,
            } => change_refusal(self, name, opts, *load_first),
            KeyCmd::Inherit { name, load_first } => inherit_refusal(self, name, *load_first),
            KeyCmd::Mount { name } => self.mount_id(name).err(),
            KeyCmd::Unmount { name } => self.mounted_id(name).err(),
            KeyCmd::Clone { from, name } => clone_refusal(self, from, name),
            KeyCmd::Destroy { name, snaps } => self.destroy_refusal(name, *snaps),
            KeyCmd::Receive { .. } => Some(NOT_BUILT),
        }
    }

    fn wanted(&self, cmd: &KeyCmd) -> Result<Needs, NoMemory>
        ensures { IfOk result (λ needs. needs ≡ needs_of (wanted self.now cmd.now)) }
    {
        match cmd {
            KeyCmd::Create { name, opts } => self.wanted_by_create(name, opts),
            KeyCmd::Load { name, place, .. } => self.wanted_by_load(name, place),
            KeyCmd::Change {
                name,
                opts,
                load_first,
            } => self.wanted_by_change(name, opts, *load_first),
            KeyCmd::Inherit { name, load_first } => self.wanted_by_inherit(name, *load_first),
            KeyCmd::Unload { .. }
            | KeyCmd::Mount { .. }
            | KeyCmd::Unmount { .. }
            | KeyCmd::Get { .. }
            | KeyCmd::Clone { .. }
            | KeyCmd::Receive { .. }
            | KeyCmd::Destroy { .. } => Ok(Needs::nothing()),
        }
    }

    fn wanted_by_create(&self, name: &SetName, opts: &Options) -> Result<Needs, NoMemory>
        ensures { IfOk result (λ needs. needs ≡ needs_of (wanted self.now (commands.Create name.now opts.now))) }
    {
        let seed = makes_encrypted(self, name, opts);
        let new_place = match opts.format {
            None => None,
            Some(_) => Some(place_or_prompt(opts.place.as_ref())?),
        };
        Ok(Needs {
            old_place: None,
            new_place,
            seed,
        })
    }

    fn wanted_by_load(&self, name: &SetName, place: &Option<Location>) -> Result<Needs, NoMemory>
        ensures { IfOk result (λ needs. needs
            ≡ record {
              old_place = None;
              new_place = Some (unwrap_or place.now (unwrap_or (own_place self.now name.now) Location.Prompt));
              seed = false;
            }) }
    {
        let new_place = place_of_new_key(self, name, place)?;
        Ok(Needs {
            old_place: None,
            new_place: Some(new_place),
            seed: false,
        })
    }

    fn wanted_by_change(
        &self,
        name: &SetName,
        opts: &Options,
        load_first: bool,
    ) -> Result<Needs, NoMemory>
        ensures { IfOk result (λ needs. needs
            ≡ needs_of (wanted self.now (commands.Change name.now opts.now load_first))) }
    {
        let old_place = place_or_none(old_place(self, name, load_first))?;
        let new_place = place_of_new_key(self, name, &opts.place)?;
        Ok(Needs {
            old_place,
            new_place: Some(new_place),
            seed: true,
        })
    }

    fn wanted_by_inherit(&self, name: &SetName, load_first: bool) -> Result<Needs, NoMemory>
        ensures { IfOk result (λ needs. needs ≡ needs_of (wanted self.now (commands.Inherit name.now load_first))) }
    {
        let old_place = place_or_none(old_place(self, name, load_first))?;
        Ok(Needs {
            old_place,
            new_place: None,
            seed: true,
        })
    }
}

// Loads.
ghost use Rattle.std.specs.Prelude.{◌≡◌, ℕ, Option, is_some, Some, OnErr};
ghost use Rattle.std.specs.List.{find};
ghost use Rattle.std.specs.Option.{option_copied};
ghost use Rattle.encryption_roots.specs.declared.props.Location.{Location as Place};
ghost use Rattle.encryption_roots.specs.declared.command.KeyCmd.TheVariants as commands;
ghost use Rattle.key_machine.specs.Plain.{owned, owner_of, is_same};
ghost use Rattle.key_machine.specs.Load.{first_wrong, told_load_of};
ghost use Rattle.key_ciphers.specs.Ciphers.{ciphers};
ghost use Rattle.key_store.specs.Calls.{stepped, state_after, AnswersDone, key_told, is_wrong};

use crate::state::{FamilyRecord, KeyState};
use dataset_tree::{Refusal, SetName, Stop};
use encryption_roots::{LineKit, Props, put_at_id};
use key_ciphers::{fetched_key, opened};
use key_reads::load_root;

impl KeyState {
    /// Loads the key of a root, where every record that the root owns opens under it, by the root's own key
    /// format, iterations and salt. With `check_only` nothing changes, and the key may be loaded. From which
    /// place the key was fetched doesn't show here.
    ///
    /// # Errors
    /// `NoSuch`, `NotEncrypted`, `NotRoot`, `KeyLoaded` (not with `check_only`), `KeyFileMissing` or
    /// `KeyFault` at the fetch, `BadMaterial`, and `WrongKey` of the first record, by id, that doesn't open.
    /// After an `Err` all is as before.
    pub fn load(&mut self, name: &SetName, check_only: bool, kit: &LineKit) -> Result<(), Stop>
        ensures reply { (place : Option Place)
            → AnswersDone result (stepped self.old (commands.Load name.now check_only place) kit.now).reply }
        ensures state { (place : Option Place)
            → self.new ≡ state_after result self.old
            (stepped self.old (commands.Load name.now check_only place) kit.now).state }
        ensures unchanged { OnErr result (self.new ≡ self.old) }
    {
        let root = match load_root(&*self, name, check_only) {
            Ok(root) => root,
            Err(why) => return Err(Stop::Refused(why)),
        };
        let Some(props) = self.roots.get(root) else {
            unreachable!();
        };
        let key = match self.root_key(root, props, kit) {
            Ok(key) => key,
            Err(why) => return Err(Stop::Refused(why)),
        };
        if !check_only {
            put_at_id(&mut self.loaded, root, key)?;
        }
        Ok(())
    }

    /// The key that a root's material gives, where it opens each record that the root owns.
    fn root_key(&self, root: u32, props: &Props, kit: &LineKit) -> Result<[u8; 32], Refusal>
        ensures { result ≡ key_told (told_load_of ciphers self.now kit.now root (Some props.now)) }
    {
        let key = fetched_key(props.format, props.iters, props.salt, &kit.new_key)?;
        if let Some(dataset) = self.first_wrong(root, &key) {
            return Err(Refusal::WrongKey { dataset });
        }
        Ok(key)
    }

    /// The first family of a root whose record doesn't open under the key.
    fn first_wrong(&self, root: u32, key: &[u8; 32]) -> Option<u32>
        ensures { result ≡ first_wrong ciphers key.now (owned self.now root) }
    {
        let wrong = self.first_wrong_in(self.records.as_slice(), root, key)?;
        Some(wrong.0)
    }

    fn first_wrong_in<'a>(
        &self,
        records: &'a [(u32, FamilyRecord)],
        root: u32,
        key: &[u8; 32],
    ) -> Option<&'a (u32, FamilyRecord)>
        ensures { option_copied result ≡ find (λ entry. is_wrong self.now root key.now entry) records.now }
    {
        records.iter().find(|entry| self.owns(root, entry.0)
            && opened(&entry.1.wrapped, key).is_none())
    }
}

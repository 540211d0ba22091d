// Looking things up in a keystore.
ghost use Rattle.std.specs.Prelude.{◌≡◌};
ghost use Rattle.std.specs.Option.{option_copied, option_map};
ghost use Rattle.dataset_tree.specs.Tree.{row_named};
ghost use Rattle.encryption_roots.specs.ById.{at_id};
ghost use Rattle.key_machine.specs.Plain.{is_same, owner_of, mkey};
ghost use Rattle.key_machine.specs.Users.{is_mounted};
ghost use Rattle.key_ciphers.specs.Ciphers.{ciphers, master_of};
ghost use Rattle.key_store.specs.State.{stored_of};

use crate::slots::has_mount;
use crate::state::{FamilyRecord, KeyState};
use dataset_tree::Row;
use encryption_roots::{at_id, owner_of};
use key_ciphers::{opened, row_named};
use wrapped_keys::MasterKey;

impl KeyState {
    /// The dataset of this name.
    pub(crate) fn row_named(&self, name: &[u8]) -> Option<&Row>
        ensures { option_copied result ≡ row_named name.now self.now.tree.rows }
    {
        row_named(self.tree.rows(), name)
    }

    /// The record of a family.
    pub(crate) fn record(&self, family: u32) -> Option<&FamilyRecord>
        ensures { option_map stored_of (option_copied result) ≡ at_id family self.now.wrapped }
    {
        at_id(self.records.as_slice(), family)
    }

    /// Whether the root owns the key of a dataset.
    pub(crate) fn owns(&self, root: u32, id: u32) -> bool
        ensures { result ≡ is_same root (owner_of self.now id) }
    {
        owner_of(&self.tree, &self.roots, id) == Some(root)
    }

    /// The slot on which a dataset is mapped.
    pub(crate) fn slot_of(&self, id: u32) -> Option<u32>
        ensures { result ≡ at_id id self.now.mapped }
    {
        match at_id(self.mapped.as_slice(), id) {
            None => None,
            Some(slot) => Some(*slot),
        }
    }

    /// Whether a dataset is mounted.
    pub(crate) fn is_mounted(&self, id: u32) -> bool
        ensures { result ≡ is_mounted self.now id }
    {
        has_mount(self.mounted.as_slice(), id)
    }

    /// The master key of a family, where its owner's key is loaded.
    pub(crate) fn master_key(&self, family: u32) -> Option<MasterKey>
        ensures { option_map master_of result ≡ mkey ciphers self.now family }
    {
        let stored = self.record(family)?;
        let root = owner_of(&self.tree, &self.roots, family)?;
        let key = at_id(self.loaded.as_slice(), root)?;
        opened(&stored.wrapped, key)
    }
}

// The state of a keystore.
ghost use Rattle.std.specs.Prelude.{◌≡◌, IfOk, is_some};
ghost use Rattle.std.specs.List.{All};
ghost use Rattle.encryption_roots.specs.Props.{KeepsIterations};
ghost use Rattle.std.specs.Option.{option_copied, option_map};
ghost use Rattle.encryption_roots.specs.ById.{at_id};
ghost use Rattle.key_machine.specs.Counts.{is_opened};
ghost use Rattle.key_machine.specs.Plain.{no_keys, has_key};
ghost use Rattle.key_ciphers.specs.Ciphers.{master_of};
ghost use Rattle.key_store.specs.State.{opened_key};

use crate::slots::fresh_gens;
use dataset_tree::{NoMemory, RecordBytes, Tree};
use encryption_roots::{Roots, at_id};
use key_ciphers::has_key;
use key_reads::MAX_FAMILIES;
use std::alloc::Global;
use std::marker::Model;
use wrapped_keys::MasterKey;

/// There is always room for so many loaded keys, which is as many as a tree has datasets.
const LOADED_ROOM: usize = 256;

/// There is always room for so many mappings, which is as many as a tree has datasets.
const MAPPED_ROOM: usize = 256;

/// The slots on which datasets are mapped.
pub(crate) const SLOTS: u32 = 256;

/// A family's key record as it is stored, and its record size in bytes.
#[derive(Clone, Copy, Debug)]
pub(crate) struct FamilyRecord {
    pub(crate) wrapped: RecordBytes,
    pub(crate) block: u32,
}

/// The datasets of a host with their keys: contracts see the plain state.
#[derive(Drop)]
pub struct KeyState {
    pub(crate) tree: Tree,
    pub(crate) roots: Roots,
    // The records by family, and the wrapping keys by root, both in rising order of id.
    pub(crate) records: Vec<(u32, FamilyRecord)>,
    pub(crate) loaded: Vec<(u32, [u8; 32])>,
    // The last generation of each slot; the slots of the mapped datasets, and the mounted datasets, both in
    // rising order of id.
    pub(crate) gens: Vec<u32>,
    pub(crate) mapped: Vec<(u32, u32)>,
    pub(crate) mounted: Vec<u32>,
    // The master keys of the families with a mapped dataset, and for each family that has a record how many of its
    // datasets are mapped, both in rising order of id.
    pub(crate) opened: Vec<(u32, MasterKey)>,
    pub(crate) mkey_counts: Vec<(u32, u32)>,
    pub(crate) alloc: Global,
}

impl Model for KeyState {
    ghost use Rattle.key_machine.specs.Plain.{Plain};

    ghost Value = { Plain };

    ghost use Rattle.key_store.specs.State.{plain_of, IsKept};

    ghost view = { plain_of };

    ghost invariant = { IsKept };
}

impl KeyState {
    /// A host that holds nothing, with room for 256 roots, loaded keys and mappings and for 32 records and
    /// opened master keys.
    pub fn new(alloc: Global) -> Result<KeyState, NoMemory>
        ensures { IfOk result (λ state. state ≡ no_keys) }
    {
        let tree = Tree::new(alloc)?;
        let roots = Roots::new(alloc)?;
        let records = Vec::with_capacity(alloc, MAX_FAMILIES)?;
        let loaded = Vec::with_capacity(alloc, LOADED_ROOM)?;
        let gens = fresh_gens(alloc)?;
        let mapped = Vec::with_capacity(alloc, MAPPED_ROOM)?;
        let mounted = Vec::with_capacity(alloc, MAPPED_ROOM)?;
        let opened = Vec::with_capacity(alloc, MAX_FAMILIES)?;
        let mkey_counts = Vec::with_capacity(alloc, MAX_FAMILIES)?;
        Ok(KeyState {
            tree,
            roots,
            records,
            loaded,
            gens,
            mapped,
            mounted,
            opened,
            mkey_counts,
            alloc,
        })
    }

    /// The datasets.
    pub fn tree(&self) -> &Tree
        ensures { result.now ≡ self.now.tree }
    {
        &self.tree
    }

    /// The encryption roots with their properties.
    pub fn roots(&self) -> &Roots
        ensures roots { result.now ≡ self.now.roots }
        ensures kept { All (λ entry. KeepsIterations entry.1) result.now }
    {
        &self.roots
    }

    /// Whether the key that the dataset uses is loaded: of a plain dataset, and of one that isn't there, it never is.
    pub fn status(&self, id: u32) -> bool
        ensures { result ≡ has_key self.now id }
    {
        has_key(self, id)
    }

    /// The master key of a family, opened exactly while a dataset of it is mapped: the key to which the family's record
    /// opens under the loaded key of its owner.
    pub fn opened(&self, family: u32) -> Option<&MasterKey>
        ensures key { option_map master_of (option_copied result) ≡ opened_key self.now family }
        ensures mapped { is_some (option_copied result) ≡ is_opened self.now family }
    {
        at_id(self.opened.as_slice(), family)
    }
}

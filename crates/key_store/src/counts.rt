// Who uses the keys and the mappings.
ghost use Rattle.std.specs.Prelude.{◌≡◌, ◌<◌, ◌==◌, not, ◌&&◌, true, length, map, slice_index, Some, IfOk};
ghost use Rattle.std.specs.List.{All, count_by, filter};
ghost use Rattle.encryption_roots.specs.ById.{at_id};
ghost use Rattle.key_machine.specs.Counts.{counts, is_opened};
ghost use Rattle.key_machine.specs.Limits.{slot_count};
ghost use Rattle.key_machine.specs.Plain.{is_same, owner_of};
ghost use Rattle.key_machine.specs.Users.{generation_of, is_mounted, mkey_users, users_of, wkey_users};
ghost use Rattle.key_store.specs.Agrees.{Agrees, is_mounted_on};
ghost use Rattle.key_store.specs.Counts.{mounts_of, ShowsMapping, ShowsMappings};

use crate::state::{FamilyRecord, KeyState};
use crate::uses::uses_of;
use dataset_tree::NoMemory;
use mapping_words::SlotKeeper;
use std::alloc::Global;
use std::marker::Model;

/// The live users of keys and mappings, each list in rising order of id.
#[derive(Drop)]
pub struct Counts {
    /// Each root whose key is loaded, with how many of the families that it owns have a mapped dataset.
    pub wkeys: Vec<(u32, u32)>,
    /// Each family whose master key is opened, with how many of its datasets are mapped.
    pub mkeys: Vec<(u32, u32)>,
    /// Each mapped dataset, with how many use its mapping, the mount among them, and the mapping's generation.
    pub maps: Vec<(u32, u32, u32)>,
}

impl Model for Counts {
    ghost use Rattle.key_machine.specs.Counts.{Counted};
    ghost use Rattle.key_store.specs.Counts.{counted_of};

    ghost Value = { Counted };

    ghost view = { counted_of };
}

impl KeyState {
    /// Who uses the loaded keys, the opened master keys and the mappings. The mappings' users are those that the keeper
    /// counts.
    ///
    /// # Errors
    /// `NoMemory` where an allocation is refused. Neither the state nor what the keeper tells changes.
    pub fn counts<K: SlotKeeper>(
        &self,
        keeper: &mut K,
        board: &K::Board,
    ) -> Result<Counts, NoMemory>
        requires fits { K.fits keeper.old board.now }
        requires agrees { Agrees (K.told keeper.old) self.now }
        ensures exact { K.tells ≡ true → IfOk result (λ found. found ≡ counts self.now) }
        ensures wkeys { IfOk result (λ found. found.wkeys ≡ (counts self.now).wkeys) }
        ensures mkeys { IfOk result (λ found. found.mkeys ≡ (counts self.now).mkeys) }
        ensures maps { IfOk result (λ found. ShowsMappings K.tells self.now self.now.mapped found.maps) }
        ensures told { K.told keeper.new ≡ K.told keeper.old }
        ensures fits { K.fits keeper.new board.now }
    {
        let wkeys = self.wkey_counts()?;
        let mkeys = self.mkey_counts()?;
        let maps = self.map_counts(keeper, board)?;
        Ok(Counts { wkeys, mkeys, maps })
    }

    fn wkey_counts(&self) -> Result<Vec<(u32, u32)>, NoMemory>
        ensures { IfOk result (λ found. found.items ≡ (counts self.now).wkeys) }
    {
        self.loaded
            .iter()
            .map(|entry| (entry.0, self.wkey_users(entry.0)))
            .collect(self.alloc)
    }

    fn mkey_counts(&self) -> Result<Vec<(u32, u32)>, NoMemory>
        ensures { IfOk result (λ found. found.items ≡ (counts self.now).mkeys) }
    {
        used(self.alloc, self.mkey_counts.as_slice())
    }

    /// How many of the families that a root owns have a mapped dataset.
    fn wkey_users(&self, root: u32) -> u32
        ensures { result ≡ wkey_users self.now root }
    {
        self.used_of(self.records.as_slice(), root) as u32
    }

    fn used_of(&self, records: &[(u32, FamilyRecord)], root: u32) -> usize
        ensures { result ≡ count_by (λ entry. is_same root (owner_of self.now entry.0)
            && not (mkey_users self.now entry.0 == 0)) records.now }
    {
        records
            .iter()
            .filter(|entry| self.owns(root, entry.0) && self.mkey_users(entry.0) != 0)
            .count()
    }

    /// How many datasets of a family are mapped.
    fn mkey_users(&self, family: u32) -> u32
        ensures { result ≡ mkey_users self.now family }
    {
        uses_of(self.mkey_counts.as_slice(), family)
    }

    fn map_counts<K: SlotKeeper>(
        &self,
        keeper: &mut K,
        board: &K::Board,
    ) -> Result<Vec<(u32, u32, u32)>, NoMemory>
        requires fits { K.fits keeper.old board.now }
        requires agrees { Agrees (K.told keeper.old) self.now }
        ensures maps { IfOk result (λ found. ShowsMappings K.tells self.now self.now.mapped found.items) }
        ensures told { K.told keeper.new ≡ K.told keeper.old }
        ensures fits { K.fits keeper.new board.now }
    {
        self.map_rows(keeper, board, self.mapped.as_slice())
    }

    fn map_rows<K: SlotKeeper>(
        &self,
        keeper: &mut K,
        board: &K::Board,
        mapped: &[(u32, u32)],
    ) -> Result<Vec<(u32, u32, u32)>, NoMemory>
        requires fits { K.fits keeper.old board.now }
        requires agrees { Agrees (K.told keeper.old) self.now }
        requires mapped { All (λ mapping. at_id mapping.0 self.now.mapped ≡ Some mapping.1) mapped.now }
        ensures maps { IfOk result (λ found. ShowsMappings K.tells self.now mapped.now found.items) }
        ensures told { K.told keeper.new ≡ K.told keeper.old }
        ensures fits { K.fits keeper.new board.now }
    {
        let mut maps = Vec::new(self.alloc);
        for mapping in mapped.iter() {
            let row = self.map_row(keeper, board, mapping.0, mapping.1);
            maps.push(row)?;
        }
        Ok(maps)
    }

    /// A dataset that is mapped, with how many use its mapping, and the mapping's generation.
    fn map_row<K: SlotKeeper>(
        &self,
        keeper: &mut K,
        board: &K::Board,
        id: u32,
        slot: u32,
    ) -> (u32, u32, u32)
        requires fits { K.fits keeper.old board.now }
        requires agrees { Agrees (K.told keeper.old) self.now }
        requires mapped { at_id id self.now.mapped ≡ Some slot }
        ensures shown { ShowsMapping K.tells self.now (id, slot) result }
        ensures told { K.told keeper.new ≡ K.told keeper.old }
        ensures fits { K.fits keeper.new board.now }
    {
        let generation = self.generation(id, slot);
        let users = keeper.count(board, slot);
        (id, users, generation)
    }

    /// The generation of a dataset's mapping, which has the dataset's mount alone.
    fn generation(&self, id: u32, slot: u32) -> u32
        requires { at_id id self.now.mapped ≡ Some slot }
        ensures generation { result ≡ generation_of self.now slot }
        ensures there { slot < slot_count }
        ensures mounted { is_mounted_on self.now slot ≡ is_mounted self.now id }
        ensures users { users_of self.now (id, slot) ≡ mounts_of self.now id }
    {
        generation_at(self.gens.as_slice(), slot)
    }
}

/// The counters that count a use.
fn used(alloc: Global, counts: &[(u32, u32)]) -> Result<Vec<(u32, u32)>, NoMemory>
    ensures { IfOk result (λ found. found.items
        ≡ map (λ entry. (entry.0, entry.1)) (filter (λ entry. not (entry.1 == 0)) counts.now)) }
{
    counts
        .iter()
        .filter(|entry| entry.1 != 0)
        .map(|entry| (entry.0, entry.1))
        .collect(alloc)
}

fn generation_at(gens: &[u32], slot: u32) -> u32
    requires { slot < length gens.now }
    ensures { result ≡ slice_index gens.now slot }
{
    gens[slot as usize]
}

// Families.
ghost use Rattle.std.specs.Prelude.{◌≡◌, ◌<◌, ◌≤◌, ◌==◌, false, length, IfOk, OnOk, OnErr, IfNone, IfSome, IsSome, IsTrue, slice_get, [], ◌∷◌};
ghost use Rattle.std.specs.Option.{option_copied, option_map};
ghost use Rattle.std.specs.Borrow.{sem};

use crate::clones::any_clone;
use crate::entry::{HeadChange, LengthAt, LogEntry, ReadNote, Spot};
use crate::head::{
    Head, MAX_SNAPSHOTS, add_head, add_snapshot, copied_heads, head_of, put_table, remove_head,
    remove_snapshot, same_snapshots, same_tables, snapshot_count,
};
use crate::last::last_ref;
use crate::listed::Listed;
use crate::table::Table;
use dataset_tree::{NoMemory, Refusal, SnapPart, Stop};
use indirect_macs::BlockRef;
use salt_rotation::{MAX_SALT_USES, Salts};
use shelf_store::Shelf;
use std::alloc::Global;
use std::marker::Model;

/// The parts of a family that are compared, in this order.
#[derive(Clone, Copy, Debug, PartialEq, Eq)]
pub enum FamilyPart {
    Head,
    Snapshots,
    Salts,
    Blocks,
}

/// A dataset with its snapshots and clones.
#[derive(Drop)]
pub struct Family<B: Shelf> {
    guid: u64,
    block: u32,
    room: u32,
    heads: Vec<Head>,
    log: Vec<LogEntry>,
    salts: Salts,
    shelf: B,
}

impl<B: Shelf> Model for Family<B> {
    ghost use Rattle.family_log.specs.Model.{FamilyState, IsKept};

    ghost Value = { FamilyState };

    ghost view = { λ f. record {
      guid = f.guid;
      block = f.block;
      room = f.room;
      heads = f.heads.items;
      log = f.log.items;
      salts = f.salts;
      shelf = B.told f.shelf;
    } };

    ghost invariant = { λ f. IsKept f.block f.room f.heads.items f.log.items };
}

impl<B: Shelf> Family<B> {
    ghost use Rattle.dataset_tree.specs.Refusal.{Gives};
    ghost use Rattle.shelf_store.specs.ShelfState.{HasToldSizes};
    ghost use Rattle.family_log.specs.Tables.{IsRecordSize};
    ghost use Rattle.family_log.specs.Log.{head_spot, last_ref};
    ghost use Rattle.family_log.specs.Model.{IsFamily, fresh_family, head_of, snapshot_count, table_of};
    ghost use Rattle.family_log.specs.Snapshots.{IsNewHead, clone_added, has_clone, has_snapshot, head_removed, snapshot_added, snapshot_removed};
    ghost use Rattle.family_log.specs.Noted.{noted};
    ghost use Rattle.family_log.specs.Calls.{DiffersAt, IsChangeOf, SameBefore, SamePart, new_place, with_change, with_entry};
    ghost use Rattle.family_log.specs.Honest.{IsHonest, LeadsAsLogged};
    ghost use Rattle.family_log.specs.Lending.{LendsShelf, LendsSalts};

    /// A family with one fresh head, the dataset of this id, on a fresh shelf.
    ///
    /// `guid` is that of its key, `block` its record size, `seed` and `limit` are those of its salts, of
    /// which each serves `limit` draws, and `room` is the number of entries that its log may have.
    /// `portable` is the portable MAC of a fresh head's table.
    pub fn make(
        alloc: Global,
        guid: u64,
        block: u32,
        seed: [u8; 32],
        limit: u64,
        room: u32,
        head: u32,
        portable: [u8; 32],
    ) -> Result<Family<B>, NoMemory>
        requires record_size { IsRecordSize block }
        requires limit_least { 1 ≤ limit }
        requires limit_most { limit ≤ MAX_SALT_USES }
        requires room_least { 1 ≤ room }
        requires room_most { room ≤ 1048576 }
        ensures fresh { IfOk result (λ family. family
            ≡ fresh_family B.tells guid block (record { seed = seed; limit = limit; made = 0 }) room head portable) }
        ensures honest { IfOk result (λ family. IsTrue B.tells → IsHonest family) }
    {
        let shelf = B::fresh(alloc)?;
        let heads = fresh_heads(alloc, head, Table::fresh(alloc, block, portable)?)?;
        let log = fresh_log(alloc, head)?;
        Ok(Family {
            guid,
            block,
            room,
            heads,
            log,
            salts: Salts::new(seed, limit),
            shelf,
        })
    }

    /// Adds the entry of a change of a head to the log, gives the head its new table, and gives the
    /// entry's place.
    ///
    /// The entry is a Make, Write, Cut, Remove or Receive of this head. The table has the form of a
    /// table of the family's record size, and the objects and lengths that the log gives with the entry.
    /// Of the table the guid isn't kept. The family stays on an honest shelf where the new blocks are on it
    /// already, the trees of the table lead to what the log gives with the entry, and the entry lists no
    /// reference at or behind an object's end.
    ///
    /// # Errors
    ///
    /// `NoHead` where the family has no such head, else `Full` where its log has as many entries as it
    /// may. After an `Err` all is as before.
    pub fn append_write(&mut self, head: u32, change: HeadChange) -> Result<u32, Stop>
        requires { IsChangeOf self.old head change }
        ensures place { Gives result (new_place self.old head) }
        ensures added { OnOk result (self.new ≡ with_change head change self.old) }
        ensures honest { OnOk result (IsHonest self.old → LeadsAsLogged self.old head change → IsHonest self.new) }
        ensures refused { OnErr result (self.new ≡ self.old) }
    {
        let place = self.new_place(head)?;
        self.log.push(change.entry)?;
        put_table(&mut self.heads, head, change.table);
        Ok(place)
    }

    /// Adds the entry of a command that changed no head to the log, and gives its place.
    ///
    /// # Errors
    ///
    /// `NoHead` where the family has no such head, else `Full` where its log has as many entries as it
    /// may. After an `Err` all is as before.
    pub fn note_read(&mut self, spot: Spot, what: ReadNote) -> Result<u32, Stop>
        ensures place { Gives result (new_place self.old spot.head) }
        ensures added { OnOk result (self.new ≡ with_entry (noted spot what) self.old) }
        ensures honest { IsHonest self.old → IsHonest self.new }
        ensures refused { OnErr result (self.new ≡ self.old) }
    {
        let place = self.new_place(spot.head)?;
        self.log.push(what.entry(spot))?;
        Ok(place)
    }

    /// The first of head, snapshots, salts and blocks in which the families differ, the first two for
    /// this head, and `Head` together with the guid and the record size; None exactly where none does.
    ///
    /// Of shelves that don't tell their blocks `Blocks` says only that they aren't known to be the same.
    pub fn differs(&self, other: &Family<B>, head: u32) -> Option<FamilyPart>
        ensures same { IfNone result ((part : FamilyPart) → SamePart head self.now other.now part) }
        ensures before { IfSome result (SameBefore head self.now other.now) }
        ensures differs { IfSome result (DiffersAt head self.now other.now) }
    {
        let mine = head_of(self.heads.as_slice(), head);
        let others = head_of(other.heads.as_slice(), head);
        if self.guid != other.guid || self.block != other.block || !same_tables(mine, others) {
            return Some(FamilyPart::Head);
        }
        if !same_snapshots(mine, others) {
            return Some(FamilyPart::Snapshots);
        }
        if self.salts != other.salts {
            return Some(FamilyPart::Salts);
        }
        if !self.shelf.same(&other.shelf) {
            return Some(FamilyPart::Blocks);
        }
        None
    }

    // The place of a new entry of this head.
    fn new_place(&self, head: u32) -> Result<u32, Stop>
        ensures { Gives result (new_place self.now head) }
    {
        if head_of(self.heads.as_slice(), head).is_none() {
            return Err(Stop::Refused(Refusal::NoHead { head }));
        }
        let entries = self.log.len();
        if entries >= self.room as usize {
            return Err(Stop::Refused(Refusal::Full {
                limit: u64::from(self.room),
            }));
        }
        Ok(entries as u32)
    }

    /// The newest reference of a place of a head, as the log tells it, or None where it is a hole.
    pub fn last_of(&self, head: u32, object: u32, index: u32) -> Option<BlockRef>
        ensures { result ≡ last_ref self.now.block self.now.log (head_spot head) object index }
    {
        last_ref(self.log.as_slice(), self.block, head, object, index)
    }

    /// The table of a head or of a snapshot, or None where the family has no such head or snapshot.
    pub fn table(&self, spot: &Spot) -> Option<&Table>
        ensures table { option_copied result ≡ table_of spot.now self.now.heads }
        ensures kept { IsFamily self.now }
    {
        match head_of(self.heads.as_slice(), spot.head) {
            Some(head) => head.table_of(&spot.snap),
            None => None,
        }
    }

    /// The names of the head's snapshots in the order they were made, or None where the family has no such
    /// head.
    pub fn snaps(&self, head: u32) -> Option<&[SnapPart]>
        ensures { option_copied result ≡ option_map (λ found. found.parts) (head_of head self.now.heads) }
    {
        match head_of(self.heads.as_slice(), head) {
            Some(found) => Some(found.parts.as_slice()),
            None => None,
        }
    }

    /// The entry of the log at a place, or None past its end.
    pub fn entry(&self, at: u32) -> Option<&LogEntry>
        ensures { option_copied result ≡ slice_get self.now.log at }
    {
        self.log.get(at as usize)
    }

    /// How many draws of salts were made, and how many blocks were put.
    pub fn used(&self) -> (u64, u64)
        ensures draws { result.0 ≡ self.now.salts.made }
        ensures puts { result.1 ≡ length self.now.shelf.sizes }
        ensures sizes { HasToldSizes self.now.shelf }
    {
        (self.salts.made(), self.shelf.blocks())
    }

    /// An equal family.
    pub fn copy(&self) -> Result<Family<B>, NoMemory>
        ensures { IfOk result (λ family. family ≡ self.now) }
    {
        let alloc = *self.log.allocator();
        let heads = copied_heads(alloc, self.heads.as_slice())?;
        let log = copied_log(alloc, self.log.as_slice())?;
        let salts = self.salts.clone()?;
        let shelf = self.shelf.copy()?;
        Ok(Family {
            guid: self.guid,
            block: self.block,
            room: self.room,
            heads,
            log,
            salts,
            shelf,
        })
    }

    /// Makes a snapshot of a head, and adds the entry of it to the log. The snapshot has the head's
    /// table, with this guid. After an `Err` all is as before.
    pub fn add_snapshot(&mut self, head: u32, part: &SnapPart, guid: u64) -> Result<(), NoMemory>
        requires there { IsSome (head_of head self.old.heads) }
        requires fresh { has_snapshot head part.now self.old.heads ≡ false }
        requires few { snapshot_count self.old.heads < MAX_SNAPSHOTS }
        requires room { length self.old.log < self.old.room }
        ensures added { OnOk result (self.new ≡ snapshot_added head part.now guid self.old) }
        ensures honest { OnOk result (IsHonest self.old → IsHonest self.new) }
        ensures err { OnErr result (self.new ≡ self.old) }
    {
        let entry = LogEntry::Snapshot {
            head,
            part: part.copy()?,
        };
        let entries = self.log.len();
        self.log.push(entry)?;
        match add_snapshot(&mut self.heads, head, part, guid) {
            Ok(()) => Ok(()),
            Err(stop) => {
                self.log.truncate(entries);
                Err(stop)
            }
        }
    }

    /// Makes a head with the table that a spot has, and adds the entry of it to the log. The family
    /// never had a head of this id. After an `Err` all is as before.
    pub fn add_clone(&mut self, from: &Spot, head: u32) -> Result<(), NoMemory>
        requires there { IsSome (table_of from.now self.old.heads) }
        requires fresh { IsNewHead head self.old }
        requires room { length self.old.log < self.old.room }
        ensures added { OnOk result (self.new ≡ clone_added from.now head self.old) }
        ensures honest { OnOk result (IsHonest self.old → IsHonest self.new) }
        ensures err { OnErr result (self.new ≡ self.old) }
    {
        let Some(table) = self.table(from) else {
            return Ok(());
        };
        let table = table.copy()?;
        let entry = LogEntry::Clone {
            from: from.copy()?,
            head,
        };
        let entries = self.log.len();
        self.log.push(entry)?;
        match add_head(&mut self.heads, head, table) {
            Ok(()) => Ok(()),
            Err(stop) => {
                self.log.truncate(entries);
                Err(stop)
            }
        }
    }

    /// Takes out a head with its snapshots, if there is one. The log stays.
    pub fn remove_head(&mut self, head: u32)
        ensures removed { self.new ≡ head_removed head self.old }
        ensures honest { IsHonest self.old → IsHonest self.new }
    {
        remove_head(&mut self.heads, head);
    }

    /// Takes out a snapshot, if there is one of this name. The log stays.
    pub fn remove_snapshot(&mut self, head: u32, part: &SnapPart)
        ensures removed { self.new ≡ snapshot_removed head part.now self.old }
        ensures honest { IsHonest self.old → IsHonest self.new }
    {
        remove_snapshot(&mut self.heads, head, part);
    }

    /// Whether a head was cloned from the spot, and is still there.
    pub fn has_clone(&self, spot: &Spot) -> bool
        ensures { result ≡ has_clone spot.now self.now }
    {
        any_clone(self.log.as_slice(), self.heads.as_slice(), spot)
    }

    /// How many heads the family has.
    pub fn heads(&self) -> usize
        ensures { result ≡ length self.now.heads }
    {
        self.heads.len()
    }

    /// How many snapshots its heads have together, at most 64.
    pub fn snapshots(&self) -> u32
        ensures count { result ≡ snapshot_count self.now.heads }
        ensures bound { result ≤ MAX_SNAPSHOTS }
    {
        snapshot_count(self.heads.as_slice())
    }

    /// The allocator that the family's lists have.
    pub fn allocator(&self) -> Global {
        *self.log.allocator()
    }

    /// The guid of the family's key.
    pub fn guid(&self) -> u64
        ensures { result ≡ self.now.guid }
    {
        self.guid
    }

    /// The number of entries that the log may have.
    pub fn room(&self) -> u32
        ensures { result ≡ self.now.room }
    {
        self.room
    }

    /// The number of entries of the log.
    pub fn entries(&self) -> u32
        ensures entries { result ≡ length self.now.log }
        ensures kept { IsFamily self.now }
    {
        self.log.len() as u32
    }

    /// The shelf, to be read and changed.
    pub fn shelf(&mut self) -> &mut B
        ensures* writes_back { sem 𝓛 (LendsShelf B.row ⟦<B as Shelf>⟧ self.entry result) }
        ensures value { B.told result.now ≡ self.old.shelf }
    {
        &mut self.shelf
    }

    /// The source of salts.
    pub fn salts(&mut self) -> &mut Salts
        ensures* writes_back { sem 𝓛 (LendsSalts B.row ⟦<B as Shelf>⟧ self.entry result) }
        ensures value { result.now ≡ self.old.salts }
    {
        &mut self.salts
    }
}

// A fresh head alone.
fn fresh_heads(alloc: Global, id: u32, table: Table) -> Result<Vec<Head>, NoMemory>
    ensures { IfOk result (λ heads. heads.items ≡ record { id = id; table = table; parts = []; tables = [] } ∷ []) }
{
    let mut heads = Vec::new(alloc);
    heads.push(Head {
        id,
        table,
        parts: Listed::new(Vec::new(alloc)),
        tables: Listed::new(Vec::new(alloc)),
    })?;
    Ok(heads)
}

// The log of a fresh head: that it was made.
fn fresh_log(alloc: Global, head: u32) -> Result<Vec<LogEntry>, NoMemory>
    ensures { IfOk result (λ log. log.items
        ≡ LogEntry.Make head (record { object = 1; length = Some 0 } ∷ []) [] ∷ []) }
{
    let mut lengths = Vec::new(alloc);
    lengths.push(LengthAt {
        object: 1,
        length: Some(0),
    })?;
    let mut log = Vec::new(alloc);
    log.push(LogEntry::Make {
        head,
        lengths: Listed::new(lengths),
        refs: Listed::new(Vec::new(alloc)),
    })?;
    Ok(log)
}

fn copied_log(alloc: Global, log: &[LogEntry]) -> Result<Vec<LogEntry>, NoMemory>
    ensures { IfOk result (λ copies. copies.items ≡ log.now) }
{
    let mut copies = Vec::new(alloc);
    'entries: for entry in log {
        copies.push(entry.copy()?)?;
    }
    Ok(copies)
}

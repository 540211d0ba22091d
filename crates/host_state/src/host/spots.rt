// Snapshots and clones of a host's datasets, and datasets that go.
ghost use Rattle.std.specs.Prelude.{◌≡◌, ◌+◌, Some, None, IfOk, IfSome, OnOk, OnErr};
ghost use Rattle.dataset_tree.specs.declared.refusal.Refusal.TheVariants.{NoHead, NoSnapshot};
ghost use Rattle.encryption_roots.specs.ById.{IsRisingById, at_id};
ghost use Rattle.encryption_roots.specs.declared.command.KeyCmd.TheVariants as commands;
ghost use Rattle.family_log.specs.Log.{snap_spot};
ghost use Rattle.family_log.specs.Snapshots.{IsNewHead};
ghost use Rattle.key_ciphers.specs.Calls.{AnswersDone};
ghost use Rattle.key_machine.specs.Step.{key_step};
ghost use Rattle.key_machine.specs.Told.{nothing_told};
ghost use Rattle.key_store.specs.Calls.{AnswersUnloaded};
ghost use Rattle.snap_clone.specs.Answers.{is_snapshot};
ghost use Rattle.host_state.specs.Hosts.{host_after};
ghost use Rattle.host_state.specs.SpotLines.{AfterClone, clone_refusal, clone_step, destroy_snap_step, destroy_step, drop_left, encrypted_id, encrypted_row, guid_from, has_parts, on_family, parts_in, replied, snaps_of, snapshot_left, snapshot_step, without_head};
ghost use Rattle.snap_clone.specs.Ids.{IsUpTo};
ghost use Rattle.encryption_roots.specs.Owners.{family as family_in};
ghost use Rattle.host_state.specs.SpotAnswers.{Clones, ClonesIn, head_forgotten, left_after};

use crate::families::seeded_guid;
use crate::host::Host;
use crate::host::files::place_of;
use crate::lone_keys::LoneKeys;
use dataset_tree::{Kind, NoMemory, Refusal, Row, SetName, SnapName, SnapPart, Stop};
use encryption_roots::{SeedGot, at_id, family_of, remove_at_id};
use family_log::{Family, Spot};
use key_ciphers::row_named;
use key_reads::clone_refusal;
use key_store::{KeyState, states_are_sound};
use salt_rotation::SeedWords;
use shelf_store::Shelf;
use snap_clone::{clone_head, drop_snapshot, refuse_snapshot, snapshot};

impl<B: Shelf> Host<B> {
    /// The snapshots of a dataset, by the parts of their names, from the oldest on: none where the dataset is plain or
    /// isn't there.
    pub fn snaps(&self, id: u32) -> &[SnapPart]
        ensures { result.now ≡ snaps_of self.now id }
    {
        let family = family_of(self.keys.keys().tree(), id);
        parts_in(self.families.as_slice(), family, id)
    }

    /// Makes a snapshot of an encrypted dataset, whether or not it is mounted and its key is loaded. Its guid comes of
    /// the seed.
    ///
    /// # Errors
    ///
    /// In this order `NoSuch` where no dataset has the name, `NotEncrypted` where it is plain, `NoHead` where its family
    /// hasn't its head, `Full` where the family's log has as many entries as it may, `Exists` where it has a snapshot
    /// of this name, `Full` where the family has 64 snapshots, and `EntropyFault` where no seed was had. After the
    /// last three the log has one more entry, of the refusal. Else, and after `NoMemory`, all is as before.
    pub fn snapshot(&mut self, name: &SnapName, seed: &SeedGot) -> Result<(), Stop>
        ensures reply { AnswersDone result (snapshot_step self.old name.now.set name.now.snap seed.now).reply }
        ensures state { self.new ≡ host_after result self.old
            (snapshot_step self.old name.now.set name.now.snap seed.now).state }
    {
        states_are_sound(self.keys.keys());
        let id = match encrypted_id(self.keys.keys(), &name.set) {
            Ok(id) => id,
            Err(why) => return Err(Stop::Refused(why)),
        };
        let family = family_of(self.keys.keys().tree(), id);
        snapshot_in(&mut self.families, family, id, &name.snap, guid_from(seed))
    }

    /// Makes a dataset that has what a snapshot of an encrypted one has, in the family of that one.
    ///
    /// # Errors
    ///
    /// In this order `NoSuch` where no dataset has the snapshot's name, `NotEncrypted` where it is plain, `NoSnapshot`,
    /// `Exists`, `NoParent`, `Full` (datasets, ids) for the new name, and `Full` where the family's log has as many
    /// entries as it may. All is then as before. After `NoMemory` all is as before, but that an id may be used up.
    pub fn clone_set(&mut self, from: &SnapName, name: &SetName) -> Result<(), Stop>
        ensures reply { AnswersDone result (clone_step self.old from.now.set from.now.snap name.now).reply }
        ensures state { AfterClone result self.old
            (clone_step self.old from.now.set from.now.snap name.now).state self.new }
    {
        states_are_sound(self.keys.keys());
        let id = match encrypted_id(self.keys.keys(), &from.set) {
            Ok(id) => id,
            Err(why) => return Err(Stop::Refused(why)),
        };
        let family = family_of(self.keys.keys().tree(), id);
        let spot = snap_spot(id, &from.snap)?;
        clone_in(
            &mut self.keys,
            &mut self.families,
            family,
            &from.set,
            name,
            &spot,
        )
    }

    /// Destroys a dataset, encrypted or plain. Its family goes with the family's last dataset. It takes no memory.
    ///
    /// # Errors
    ///
    /// In this order `NoSuch`, `HasChildren` where others stand below it, it has snapshots or one was cloned from it, and
    /// `Mounted`; and `Busy` where the close of its mapping finds it in use. All is then as before.
    pub fn destroy(&mut self, name: &SetName) -> Result<(), Refusal>
        ensures reply { AnswersUnloaded result (destroy_step self.old name.now).reply }
        ensures state { self.new ≡ (destroy_step self.old name.now).state }
    {
        states_are_sound(self.keys.keys());
        match self.keys.keys().tree().find(name) {
            Some(id) => destroy_in(&mut self.keys, &mut self.families, name, id),
            None => Err(Refusal::NoSuch),
        }
    }

    /// Destroys a snapshot of an encrypted dataset.
    ///
    /// # Errors
    ///
    /// In this order `NoSuch` where no dataset has the name, `NotEncrypted` where it is plain, `NoSnapshot`, and
    /// `HasClones` where a dataset that was cloned from it is still there. All is then as before, and after `NoMemory`.
    pub fn destroy_snap(&mut self, name: &SnapName) -> Result<(), Stop>
        ensures reply { AnswersDone result (destroy_snap_step self.old name.now.set name.now.snap).reply }
        ensures state { self.new ≡ host_after result self.old
            (destroy_snap_step self.old name.now.set name.now.snap).state }
    {
        let id = match encrypted_id(self.keys.keys(), &name.set) {
            Ok(id) => id,
            Err(why) => return Err(Stop::Refused(why)),
        };
        let family = family_of(self.keys.keys().tree(), id);
        let spot = snap_spot(id, &name.snap)?;
        drop_in(&mut self.families, family, &spot)
    }
}

/// The id of the encrypted dataset of this name.
fn encrypted_id(keys: &KeyState, name: &SetName) -> Result<u32, Refusal>
    ensures { result ≡ encrypted_id keys.now name.now }
{
    match row_named(keys.tree().rows(), name.as_bytes()) {
        Some(row) => encrypted_row(row),
        None => Err(Refusal::NoSuch),
    }
}

fn encrypted_row(row: &Row) -> Result<u32, Refusal>
    ensures { result ≡ encrypted_row (Some row.now) }
{
    if row.kind == Kind::Crypt {
        Ok(row.id)
    } else {
        Err(Refusal::NotEncrypted)
    }
}

/// The spot of a head's snapshot.
fn snap_spot(head: u32, part: &SnapPart) -> Result<Spot, NoMemory>
    ensures { IfOk result (λ spot. spot ≡ snap_spot head part.now) }
{
    let snap = Some(part.copy()?);
    Ok(Spot { head, snap })
}

// ---- snapshots

/// The snapshots of a head of the family of this id.
fn parts_in<B: Shelf>(families: &[(u32, Family<B>)], family: u32, head: u32) -> &[SnapPart]
    requires { IsRisingById families.now }
    ensures { result.now ≡ parts_in head (at_id family families.now) }
{
    match at_id(families, family) {
        Some(found) => parts_of(found, head),
        None => &[],
    }
}

fn parts_of<B: Shelf>(family: &Family<B>, head: u32) -> &[SnapPart]
    ensures { result.now ≡ parts_in head (Some family.now) }
{
    match family.snaps(head) {
        Some(parts) => parts,
        None => &[],
    }
}

/// The guid of a new snapshot, where a seed was had.
fn guid_from(seed: &SeedGot) -> Option<u64>
    ensures { result ≡ guid_from seed.now }
{
    match seed {
        SeedGot::Got(seed) => Some(seeded_guid(&SeedWords::new(*seed))),
        SeedGot::NotAsked | SeedGot::Fault => None,
    }
}

/// Makes a snapshot of a head of the family of this id.
fn snapshot_in<B: Shelf>(
    families: &mut Vec<(u32, Family<B>)>,
    family: u32,
    head: u32,
    part: &SnapPart,
    guid: Option<u64>,
) -> Result<(), Stop>
    requires { IsRisingById families.old.items }
    ensures reply { AnswersDone result (on_family families.old.items family (NoHead head)
        (snapshot_left part.now guid head) (at_id family families.old.items)).reply }
    ensures left { families.new.items ≡ left_after result families.old.items
        (on_family families.old.items family (NoHead head) (snapshot_left part.now guid head)
        (at_id family families.old.items)).families }
{
    match place_of(families.as_slice(), family) {
        Some(at) => snapshot_of(&mut families[at].1, head, part, guid),
        None => Err(Stop::Refused(Refusal::NoHead { head })),
    }
}

fn snapshot_of<B: Shelf>(
    family: &mut Family<B>,
    head: u32,
    part: &SnapPart,
    guid: Option<u64>,
) -> Result<(), Stop>
    ensures reply { AnswersDone result (replied (snapshot_left part.now guid head family.old).answer) }
    ensures left { family.new
        ≡ left_after result family.old (snapshot_left part.now guid head family.old).state }
{
    match guid {
        Some(guid) => snapshot(family, head, part, guid),
        None => Err(refuse_snapshot(family, head, part, Refusal::EntropyFault)),
    }
}

/// Drops a snapshot of the family of this id.
fn drop_in<B: Shelf>(
    families: &mut Vec<(u32, Family<B>)>,
    family: u32,
    spot: &Spot,
) -> Result<(), Stop>
    requires { IsRisingById families.old.items }
    ensures reply { AnswersDone result (on_family families.old.items family NoSnapshot (drop_left spot.now)
        (at_id family families.old.items)).reply }
    ensures left { families.new.items ≡ left_after result families.old.items
        (on_family families.old.items family NoSnapshot (drop_left spot.now) (at_id family families.old.items)).families }
{
    match place_of(families.as_slice(), family) {
        Some(at) => drop_of(&mut families[at].1, spot),
        None => Err(Stop::Refused(Refusal::NoSnapshot)),
    }
}

fn drop_of<B: Shelf>(family: &mut Family<B>, spot: &Spot) -> Result<(), Stop>
    ensures reply { AnswersDone result (replied (drop_left spot.now family.old).answer) }
    ensures left { family.new ≡ left_after result family.old (drop_left spot.now family.old).state }
{
    drop_snapshot(family, spot)
}

// ---- clones

/// Makes a clone of a spot in the keystore and in the family of this id.
fn clone_in<B: Shelf>(
    keys: &mut LoneKeys,
    families: &mut Vec<(u32, Family<B>)>,
    family: u32,
    from: &SetName,
    name: &SetName,
    spot: &Spot,
) -> Result<(), Stop>
    requires rising { IsRisingById families.old.items }
    requires up_to { IfSome (at_id family families.old.items) (IsUpTo keys.old.tree.last) }
    ensures { ClonesIn result from.now name.now spot.now keys.old keys.new family families.old.items
        families.new.items (at_id family families.old.items) }
{
    match place_of(families.as_slice(), family) {
        Some(at) => add_clone(keys, &mut families[at].1, from, name, spot),
        None => Err(Stop::Refused(Refusal::NoSnapshot)),
    }
}

/// Makes a clone of a spot of this family, in the keystore and in the family.
fn add_clone<B: Shelf>(
    keys: &mut LoneKeys,
    family: &mut Family<B>,
    from: &SetName,
    name: &SetName,
    spot: &Spot,
) -> Result<(), Stop>
    requires { IsNewHead (keys.old.tree.last + 1) family.old }
    ensures { Clones result from.now name.now spot.now keys.old keys.new family.old family.new }
{
    if let Some(why) = refusal_of_clone(keys.keys(), family, from, name, spot) {
        return Err(Stop::Refused(why));
    }
    add_free_clone(keys, family, from, name, spot)
}

/// Makes a clone that nothing refuses. The dataset goes again where its head isn't made.
fn add_free_clone<B: Shelf>(
    keys: &mut LoneKeys,
    family: &mut Family<B>,
    from: &SetName,
    name: &SetName,
    spot: &Spot,
) -> Result<(), Stop>
    requires accepted { clone_refusal keys.old from.now name.now spot.now family.old ≡ None }
    requires new { IsNewHead (keys.old.tree.last + 1) family.old }
    ensures { Clones result from.now name.now spot.now keys.old keys.new family.old family.new }
{
    states_are_sound(keys.keys());
    let head = match keys.add_clone(from, name) {
        Ok(head) => head,
        Err(stop) => return Err(stop),
    };
    match clone_head(family, spot, head) {
        Ok(()) => Ok(()),
        Err(stop) => {
            let _ = keys.destroy(name, false);
            Err(stop)
        }
    }
}

/// Why no clone of this spot gets this name.
fn refusal_of_clone<B: Shelf>(
    keys: &KeyState,
    family: &Family<B>,
    from: &SetName,
    name: &SetName,
    spot: &Spot,
) -> Option<Refusal>
    ensures { result ≡ clone_refusal keys.now from.now name.now spot.now family.now }
{
    if !is_snapshot(family, spot) {
        return Some(Refusal::NoSnapshot);
    }
    if let Some(why) = clone_refusal(keys, from, name) {
        return Some(why);
    }
    if family.entries() >= family.room() {
        return Some(Refusal::Full {
            limit: u64::from(family.room()),
        });
    }
    None
}

/// Whether the spot is a snapshot that the family has.
fn is_snapshot<B: Shelf>(family: &Family<B>, spot: &Spot) -> bool
    ensures { result ≡ is_snapshot spot.now family.now.heads }
{
    spot.snap.is_some() && family.table(spot).is_some()
}

// ---- datasets that go

/// Destroys the dataset of this name and id, and takes its head out of its family.
fn destroy_in<B: Shelf>(
    keys: &mut LoneKeys,
    families: &mut Vec<(u32, Family<B>)>,
    name: &SetName,
    id: u32,
) -> Result<(), Refusal>
    requires { IsRisingById families.old.items }
    ensures reply { AnswersUnloaded result (key_step keys.old (commands.Destroy name.now
        (has_parts (parts_in id (at_id (family_in keys.old.tree.rows id) families.old.items)))) nothing_told).reply }
    ensures keys { keys.new ≡ (key_step keys.old (commands.Destroy name.now
        (has_parts (parts_in id (at_id (family_in keys.old.tree.rows id) families.old.items)))) nothing_told).state }
    ensures gone { OnOk result (families.new.items
        ≡ head_forgotten families.old.items (family_in keys.old.tree.rows id) id) }
    ensures same { OnErr result (families.new.items ≡ families.old.items) }
{
    let family = family_of(keys.keys().tree(), id);
    let snaps = has_parts(parts_in(families.as_slice(), family, id));
    match keys.destroy(name, snaps) {
        Ok(()) => {
            forget_head(families, family, id);
            Ok(())
        }
        Err(why) => Err(why),
    }
}

fn has_parts(parts: &[SnapPart]) -> bool
    ensures { result ≡ has_parts parts.now }
{
    !parts.is_empty()
}

/// Takes the head of a dataset out of its family. The family goes with its first dataset, which is the last one to go.
fn forget_head<B: Shelf>(families: &mut Vec<(u32, Family<B>)>, family: u32, head: u32)
    requires { IsRisingById families.old.items }
    ensures { families.new.items ≡ head_forgotten families.old.items family head }
{
    if family == head {
        remove_at_id(families, family);
    } else {
        remove_head(families, family, head);
    }
}

fn remove_head<B: Shelf>(families: &mut Vec<(u32, Family<B>)>, family: u32, head: u32)
    requires { IsRisingById families.old.items }
    ensures { families.new.items ≡ without_head families.old.items family head (at_id family families.old.items) }
{
    if let Some(at) = place_of(families.as_slice(), family) {
        families[at].1.remove_head(head);
    }
}

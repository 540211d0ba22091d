// The calls on snapshots and clones.
ghost use Rattle.std.specs.Prelude.{◌≡◌, ◌≢◌, ◌==◌, ◌<◌, false, true, None, Ok, Err, Some, length, IfErr, OnOk, OnErr, is_none, is_some};
ghost use Rattle.std.specs.List.{list_any};
ghost use Rattle.std.specs.Str.{bytes_eq};
ghost use Rattle.dataset_tree.specs.Refusal.{Gives};
ghost use Rattle.family_log.specs.declared.entry.Spot.{Spot};
ghost use Rattle.family_log.specs.declared.head.TheConstants.{MAX_SNAPSHOTS};
ghost use Rattle.family_log.specs.Log.{KeepsLast, head_spot, snap_spot};
ghost use Rattle.family_log.specs.Model.{head_of, snapshot_count, table_of};
ghost use Rattle.family_log.specs.Honest.{IsHonest};
ghost use Rattle.family_log.specs.Snapshots.{IsNewHead, KeepsSpot, clone_added, has_part, has_snapshot, head_removed, same_spot, snapshot_added};
ghost use Rattle.snap_clone.specs.Answers.{HasNoSnapshots, after_stop, clone_answer, drop_answer, drop_snapshot_answer, is_snapshot, name_refusal, place_refusal, refusal_or, snapshot_answer, spot_removed};
ghost use Rattle.snap_clone.specs.Acts.{DropHead, DropSnapshot, Does, MakeClone, MakeSnapshot};

use dataset_tree::{Refusal, SnapPart, Stop};
use family_log::{Family, MAX_SNAPSHOTS, ReadNote, Spot};
use shelf_store::Shelf;

/// Makes a snapshot of a head, which has the head's table with this guid, and adds the entry of it to the
/// log.
///
/// # Errors
///
/// `NoHead` where the family has no such head, else `Full` where its log has as many entries as it may,
/// else `Exists` where the head has a snapshot of this name, else `Full` where the family has 64
/// snapshots. After the first two, and after `NoMemory`, all is as before; after the others the log has
/// one more entry, of the refusal, and all else is as before.
pub fn snapshot<B: Shelf>(
    fam: &mut Family<B>,
    head: u32,
    snap: &SnapPart,
    guid: u64,
) -> Result<(), Stop>
    ensures answer { Gives result (snapshot_answer head snap.now fam.old) }
    ensures made { OnOk result (fam.new ≡ snapshot_added head snap.now guid fam.old) }
    ensures act { OnOk result (Does (MakeSnapshot head snap.now guid) fam.old fam.new) }
    ensures refused { IfErr result (λ stop. fam.new ≡ after_stop head stop fam.old) }
    ensures honest { IsHonest fam.old → IsHonest fam.new }
{
    if let Some(why) = place_refusal(fam, head) {
        return Err(Stop::Refused(why));
    }
    if let Some(why) = name_refusal(fam, head, snap) {
        return Err(noted(fam, head, why));
    }
    match fam.add_snapshot(head, snap, guid) {
        Ok(()) => Ok(()),
        Err(_) => Err(Stop::NoMemory),
    }
}

/// Refuses a snapshot for a reason of the caller's, such as a guid that couldn't be taken, where `snapshot`
/// wouldn't refuse it itself. What it answers stands in the log as after a refused `snapshot`.
///
/// # Errors
///
/// The refusal that `snapshot` gives, else this reason. After `NoMemory` all is as before.
pub fn refuse_snapshot<B: Shelf>(
    fam: &mut Family<B>,
    head: u32,
    snap: &SnapPart,
    why: Refusal,
) -> Stop
    ensures answer { Gives {T = Unit {0}} (Err result) (Err (refusal_or why head snap.now fam.old)) }
    ensures refused { fam.new ≡ after_stop head result fam.old }
    ensures honest { IsHonest fam.old → IsHonest fam.new }
{
    if let Some(first) = place_refusal(fam, head) {
        return Stop::Refused(first);
    }
    match name_refusal(fam, head, snap) {
        Some(first) => noted(fam, head, first),
        None => noted(fam, head, why),
    }
}

/// Makes a head with the table of a snapshot, and adds the entry of it to the log. The family never had a
/// head of this id, so that one that was dropped doesn't come back: the caller gives ids that rise, as the
/// tree of datasets does, and each is then new (`ids_above_all_are_new`).
///
/// # Errors
///
/// `NoSnapshot` where the spot is no snapshot of the family, else `Full` where the log has as many entries
/// as it may. After an `Err` all is as before.
pub fn clone_head<B: Shelf>(fam: &mut Family<B>, spot: &Spot, head: u32) -> Result<(), Stop>
    requires { IsNewHead head fam.old }
    ensures answer { Gives result (clone_answer spot.now fam.old) }
    ensures made { OnOk result (fam.new ≡ clone_added spot.now head fam.old) }
    ensures act { OnOk result (Does (MakeClone spot.now head) fam.old fam.new) }
    ensures refused { OnErr result (fam.new ≡ fam.old) }
    ensures honest { IsHonest fam.old → IsHonest fam.new }
{
    if !is_snapshot(fam, spot) {
        return Err(Stop::Refused(Refusal::NoSnapshot));
    }
    if fam.entries() >= fam.room() {
        return Err(Stop::Refused(Refusal::Full {
            limit: u64::from(fam.room()),
        }));
    }
    match fam.add_clone(spot, head) {
        Ok(()) => Ok(()),
        Err(_) => Err(Stop::NoMemory),
    }
}

/// Drops a head, which has no snapshots, and tells whether no head is left. The log stays. It takes no
/// memory.
///
/// # Errors
///
/// `NoHead` where the family has no such head. All is then as before.
pub fn drop_head<B: Shelf>(fam: &mut Family<B>, head: u32) -> Result<bool, Stop>
    requires { HasNoSnapshots head fam.old }
    ensures answer { Gives result (drop_answer head fam.old) }
    ensures dropped { OnOk result (fam.new ≡ head_removed head fam.old) }
    ensures act { OnOk result (Does (DropHead head) fam.old fam.new) }
    ensures refused { OnErr result (fam.new ≡ fam.old) }
    ensures no_memory { IfErr result (λ stop. stop ≢ Stop.NoMemory) }
    ensures honest { IsHonest fam.old → IsHonest fam.new }
{
    if fam.snaps(head).is_none() {
        return Err(Stop::Refused(Refusal::NoHead { head }));
    }
    fam.remove_head(head);
    Ok(fam.heads() == 0)
}

/// Drops a snapshot. The log stays. It takes no memory.
///
/// # Errors
///
/// `NoSnapshot` where the spot is no snapshot of the family, else `HasClones` where a head was cloned from
/// it that is still there. After an `Err` all is as before.
pub fn drop_snapshot<B: Shelf>(fam: &mut Family<B>, spot: &Spot) -> Result<(), Stop>
    ensures answer { Gives result (drop_snapshot_answer spot.now fam.old) }
    ensures dropped { OnOk result (fam.new ≡ spot_removed spot.now fam.old) }
    ensures act { OnOk result (Does (DropSnapshot spot.now) fam.old fam.new) }
    ensures refused { OnErr result (fam.new ≡ fam.old) }
    ensures no_memory { IfErr result (λ stop. stop ≢ Stop.NoMemory) }
    ensures honest { IsHonest fam.old → IsHonest fam.new }
{
    if !is_snapshot(fam, spot) {
        return Err(Stop::Refused(Refusal::NoSnapshot));
    }
    if fam.has_clone(spot) {
        return Err(Stop::Refused(Refusal::HasClones));
    }
    remove_spot(fam, spot);
    Ok(())
}

// Takes out the snapshot that a spot names, if it names one.
fn remove_spot<B: Shelf>(fam: &mut Family<B>, spot: &Spot)
    ensures removed { fam.new ≡ spot_removed spot.now fam.old }
    ensures honest { IsHonest fam.old → IsHonest fam.new }
{
    if let Some(part) = &spot.snap {
        fam.remove_snapshot(spot.head, part);
    }
}

// Why no snapshot of a head has a place in the log.
fn place_refusal<B: Shelf>(fam: &Family<B>, head: u32) -> Option<Refusal>
    ensures { result ≡ place_refusal head fam.now }
{
    if fam.snaps(head).is_none() {
        return Some(Refusal::NoHead { head });
    }
    if fam.entries() >= fam.room() {
        return Some(Refusal::Full {
            limit: u64::from(fam.room()),
        });
    }
    None
}

// Why a head can't have one more snapshot of this name.
fn name_refusal<B: Shelf>(fam: &Family<B>, head: u32, snap: &SnapPart) -> Option<Refusal>
    ensures { result ≡ name_refusal head snap.now fam.now }
{
    if has_snapshot(fam, head, snap) {
        return Some(Refusal::Exists);
    }
    if fam.snapshots() >= MAX_SNAPSHOTS {
        return Some(Refusal::Full {
            limit: u64::from(MAX_SNAPSHOTS),
        });
    }
    None
}

fn has_snapshot<B: Shelf>(fam: &Family<B>, head: u32, snap: &SnapPart) -> bool
    ensures { result ≡ has_snapshot head snap.now fam.now.heads }
{
    match fam.snaps(head) {
        Some(parts) => has_part(parts, snap),
        None => false,
    }
}

fn has_part(parts: &[SnapPart], part: &SnapPart) -> bool
    ensures { result ≡ has_part part.now parts.now }
{
    parts
        .iter()
        .any(|other| other.as_bytes() == part.as_bytes())
}

// Whether the spot is a snapshot that the family has.
fn is_snapshot<B: Shelf>(fam: &Family<B>, spot: &Spot) -> bool
    ensures { result ≡ is_snapshot spot.now fam.now.heads }
{
    spot.snap.is_some() && fam.table(spot).is_some()
}

// Adds the entry of a refused snapshot, and gives what stops the call.
fn noted<B: Shelf>(fam: &mut Family<B>, head: u32, why: Refusal) -> Stop
    requires { place_refusal head fam.old ≡ None }
    ensures stop { Gives {T = Unit {0}} (Err result) (Err why) }
    ensures after { fam.new ≡ after_stop head result fam.old }
    ensures honest { IsHonest fam.old → IsHonest fam.new }
{
    let note = ReadNote::Refused {
        why,
        draws: 0,
        puts: 0,
    };
    match fam.note_read(Spot { head, snap: None }, note) {
        Ok(_) => Stop::Refused(why),
        Err(stop) => stop,
    }
}

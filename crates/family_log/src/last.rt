// What a head holds, read from the log alone.
ghost use Rattle.std.specs.Prelude.{◌≡◌, ◌≤◌, ◌==◌, ◌&&◌, if◌then◌else◌};
ghost use Rattle.std.specs.List.{find};
ghost use Rattle.std.specs.Option.{option_copied, option_map};
ghost use Rattle.family_log.specs.Log.{changes_in, head_spot, hole_said, is_head, is_past, is_snap, last_ref, ref_in, said, stood};
ghost use Rattle.family_log.specs.Reading.{changes_of, spot_of};

use crate::entry::{LengthAt, LogEntry, RefAt, Spot};
use crate::listed::Listed;
use dataset_tree::SnapPart;
use indirect_macs::BlockRef;

// A head, or a snapshot of it, of which an entry of the log has the name.
#[derive(Clone, Copy)]
struct SpotRef<'a> {
    head: u32,
    snap: Option<&'a SnapPart>,
}

// The changes in an entry of the log.
#[derive(Clone, Copy)]
struct ChangesRef<'a> {
    head: u32,
    lengths: &'a [LengthAt],
    refs: &'a [RefAt],
}

/// The newest reference of a place of a head, or None where it is a hole. `block` is the record size. The
/// log is read from its end back.
pub fn last_ref(
    log: &[LogEntry],
    block: u32,
    head: u32,
    object: u32,
    index: u32,
) -> Option<BlockRef>
    requires { 1 ≤ block }
    ensures { result ≡ last_ref block log.now (head_spot head) object index }
{
    let mut at = log.len();
    let mut spot = SpotRef { head, snap: None };
    'entries: while at > 0 {
        at -= 1;
        let entry = &log[at];
        if let Some(to) = said_of(entry, spot, block, object, index) {
            return to;
        }
        spot = stood(spot, entry);
    }
    None
}

// What an entry says of a place of a spot.
fn said_of(
    entry: &LogEntry,
    spot: SpotRef,
    block: u32,
    object: u32,
    index: u32,
) -> Option<Option<BlockRef>>
    requires { 1 ≤ block }
    ensures { result ≡ said (ref_in block object index) (spot_of spot.entry) entry.now }
{
    let Some(changes) = changes_in(entry) else {
        return None;
    };
    if !is_head(changes.head, spot) {
        return None;
    }
    ref_in(changes, block, object, index)
}

// The changes in an entry.
fn changes_in(entry: &LogEntry) -> Option<ChangesRef<'_>>
    ensures { option_map changes_of result ≡ changes_in entry.now }
{
    match entry {
        LogEntry::Make {
            head,
            lengths,
            refs,
        } => Some(changes(*head, lengths, refs)),
        LogEntry::Write {
            head,
            lengths,
            refs,
        } => Some(changes(*head, lengths, refs)),
        LogEntry::Cut {
            head,
            lengths,
            refs,
        } => Some(changes(*head, lengths, refs)),
        LogEntry::Remove {
            head,
            lengths,
            refs,
        } => Some(changes(*head, lengths, refs)),
        LogEntry::Receive {
            head,
            lengths,
            refs,
        } => Some(changes(*head, lengths, refs)),
        LogEntry::Snapshot { .. } => None,
        LogEntry::Clone { .. } => None,
        LogEntry::Read { .. } => None,
        LogEntry::Refused { .. } => None,
    }
}

fn changes<'a>(head: u32, lengths: &'a Listed<LengthAt>, refs: &'a Listed<RefAt>) -> ChangesRef<'a>
    ensures { changes_of result ≡ record { head = head; lengths = lengths.now; refs = refs.now } }
{
    ChangesRef {
        head,
        lengths: lengths.as_slice(),
        refs: refs.as_slice(),
    }
}

// What changes say of a place.
fn ref_in(changes: ChangesRef, block: u32, object: u32, index: u32) -> Option<Option<BlockRef>>
    requires { 1 ≤ block }
    ensures { result ≡ ref_in block object index (changes_of changes.entry) }
{
    match ref_listed(changes.refs, object, index) {
        Some(to) => Some(to),
        None => hole_said(length_said(changes.lengths, object), block, index),
    }
}

// The first reference of a place.
fn ref_listed(refs: &[RefAt], object: u32, index: u32) -> Option<Option<BlockRef>>
    ensures { result ≡ option_map (λ ref. ref.to) (find (λ ref. ref.object == object && ref.index == index) refs.now) }
{
    refs.iter()
        .find(|ref_at| ref_at.object == object && ref_at.index == index)
        .map(|ref_at| ref_at.to)
}

// The first new length of an object.
fn length_said(lengths: &[LengthAt], object: u32) -> Option<Option<u64>>
    ensures { result ≡ option_map (λ change. change.length) (find (λ change. change.object == object) lengths.now) }
{
    lengths
        .iter()
        .find(|length_at| length_at.object == object)
        .map(|length_at| length_at.length)
}

// A hole, where what is said of an object leaves no block of this index.
fn hole_said(said: Option<Option<u64>>, block: u32, index: u32) -> Option<Option<BlockRef>>
    requires { 1 ≤ block }
    ensures { result ≡ hole_said block index said }
{
    match said {
        Some(length) => {
            if is_past(length, block, index) {
                Some(None)
            } else {
                None
            }
        }
        None => None,
    }
}

// Whether an object of this length, or that is gone, has no block of this index.
fn is_past(length: Option<u64>, block: u32, index: u32) -> bool
    requires { 1 ≤ block }
    ensures { result ≡ is_past block index length }
{
    match length {
        Some(bytes) => bytes.div_ceil(u64::from(block)) <= u64::from(index),
        None => true,
    }
}

// Whether the spot is this head, and no snapshot of it.
fn is_head(head: u32, spot: SpotRef) -> bool
    ensures { result ≡ is_head head (spot_of spot.entry) }
{
    spot.head == head && spot.snap.is_none()
}

// Whether the spot is this snapshot of the head.
fn is_snap(head: u32, part: &SnapPart, spot: SpotRef) -> bool
    ensures { result ≡ is_snap head part.now (spot_of spot.entry) }
{
    match spot.snap {
        Some(snap) => spot.head == head && snap.as_bytes() == part.as_bytes(),
        None => false,
    }
}

// Where what a spot holds stood before an entry.
fn stood<'a>(spot: SpotRef<'a>, entry: &'a LogEntry) -> SpotRef<'a>
    ensures { spot_of result ≡ stood (spot_of spot.entry) entry.now }
{
    match entry {
        LogEntry::Snapshot { head, part } => before_snapshot(spot, *head, part),
        LogEntry::Clone { from, head } => before_clone(spot, from, *head),
        _ => spot,
    }
}

fn before_snapshot<'a>(spot: SpotRef<'a>, head: u32, part: &SnapPart) -> SpotRef<'a>
    ensures { spot_of result ≡ (if is_snap head part.now (spot_of spot.entry) then head_spot head
        else spot_of spot.entry) }
{
    if is_snap(head, part, spot) {
        SpotRef { head, snap: None }
    } else {
        spot
    }
}

fn before_clone<'a>(spot: SpotRef<'a>, from: &'a Spot, head: u32) -> SpotRef<'a>
    ensures { spot_of result ≡ (if is_head head (spot_of spot.entry) then from.now else spot_of spot.entry) }
{
    if is_head(head, spot) {
        SpotRef {
            head: from.head,
            snap: from.snap.as_ref(),
        }
    } else {
        spot
    }
}

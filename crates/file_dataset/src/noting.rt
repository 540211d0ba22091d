// What comes before and behind a reading of a family: whether its log takes an entry, and the entry.
ghost use Rattle.std.specs.Prelude.{◌≡◌, ◌⊎◌, Err, Some, IfErr, IfOk, is_ok, true};
ghost use Rattle.family_log.specs.Calls.{new_place, with_entry};
ghost use Rattle.family_log.specs.Honest.{IsHonest};
ghost use Rattle.family_log.specs.Noted.{noted};
ghost use Rattle.family_log.specs.declared.entry.ReadNote.TheVariants as notes;
ghost use Rattle.dataset_tree.specs.declared.refusal.Stop.TheVariants as stops;
ghost use Rattle.file_dataset.specs.declared.halt.Halt.TheVariants as halts;
ghost use Rattle.family_log.specs.Model.{IsFamily, table_of};
ghost use Rattle.file_dataset.specs.Steps.{IsHaltAt, IsNoted, IsReadable, IsStopAt, IsTableAt, note_of};

use crate::halt::{Halt, stop_of};
use dataset_tree::{Refusal, Stop};
use family_log::{Family, ReadNote, Spot, Table};
use shelf_store::Shelf;

/// A copy of the spot, if the family has its head and its log has room for an entry.
pub(crate) fn ready<B: Shelf>(fam: &Family<B>, spot: &Spot) -> Result<Spot, Stop>
    ensures refused { IfErr result (IsStopAt (new_place fam.now spot.now.head)) }
    ensures copy { IfOk result (λ copy. copy ≡ spot.now) }
    ensures place { IfOk result (λ _. is_ok (new_place fam.now spot.now.head) ≡ true) }
    ensures kept { IfOk result (λ _. IsFamily fam.now) }
{
    if fam.snaps(spot.head).is_none() {
        return Err(Stop::Refused(Refusal::NoHead { head: spot.head }));
    }
    let room = fam.room();
    if fam.entries() >= room {
        return Err(Stop::Refused(Refusal::Full {
            limit: u64::from(room),
        }));
    }
    match spot.copy() {
        Ok(copy) => Ok(copy),
        Err(_) => Err(Stop::NoMemory),
    }
}

/// A copy of the table of a spot.
pub(crate) fn table_at<B: Shelf>(fam: &Family<B>, spot: &Spot) -> Result<Table, Halt>
    ensures table { IfOk result (λ table. table_of spot.now fam.now.heads ≡ Some table) }
    ensures in_form { IfOk result IsReadable }
    ensures kept { IfOk result (IsTableAt fam.now spot.now) }
    ensures refused { IfErr result (IsHaltAt (table_of spot.now fam.now.heads)) }
{
    match fam.table(spot) {
        Some(table) => copied(table),
        None => Err(Halt::Refused(Refusal::NoSnapshot)),
    }
}

fn copied(table: &Table) -> Result<Table, Halt>
    ensures copy { IfOk result (λ copy. copy ≡ table.now) }
    ensures stop { IfErr result (λ halt. halt ≡ halts.NoMemory) }
{
    match table.copy() {
        Ok(copy) => Ok(copy),
        Err(_) => Err(Halt::NoMemory),
    }
}

/// Adds the entry of a reading to the log, and gives its answer. The log has room for it. Where there is no
/// memory for the entry, want of memory is the answer.
pub(crate) fn noted<B: Shelf, T: Drop>(
    fam: &mut Family<B>,
    spot: Spot,
    answer: Result<T, Halt>,
) -> Result<T, Stop>
    requires { is_ok (new_place fam.old spot.head) ≡ true }
    ensures { IsNoted spot answer result fam.old fam.new }
{
    match answer {
        Ok(value) => match fam.note_read(spot, ReadNote::Read) {
            Ok(_) => Ok(value),
            Err(stop) => Err(stop),
        },
        Err(halt) => Err(noted_halt(fam, spot, halt)),
    }
}

fn noted_halt<B: Shelf>(fam: &mut Family<B>, spot: Spot, halt: Halt) -> Stop
    requires { is_ok (new_place fam.old spot.head) ≡ true }
    ensures { IsNoted {X = Unit {0}} spot (Err halt) (Err result) fam.old fam.new }
{
    match note_of(halt) {
        Some(note) => noted_stop(fam, spot, note, stop_of(halt)),
        None => Stop::NoMemory,
    }
}

/// Adds an entry of this note to the log, and gives the stop, or want of memory where there is none for it.
pub(crate) fn noted_stop<B: Shelf>(
    fam: &mut Family<B>,
    spot: Spot,
    note: ReadNote,
    stop: Stop,
) -> Stop
    requires { is_ok (new_place fam.old spot.head) ≡ true }
    ensures entry { ((result ≡ stop) × (fam.new ≡ with_entry (noted spot note) fam.old))
        ⊎ ((result ≡ stops.NoMemory) × (fam.new ≡ fam.old)) }
    ensures honest { IsHonest fam.old → IsHonest fam.new }
{
    match fam.note_read(spot, note) {
        Ok(_) => stop,
        Err(other) => other,
    }
}

// The note of a reading that ended so, none for want of memory.
fn note_of(halt: Halt) -> Option<ReadNote>
    ensures { result ≡ note_of halt }
{
    match halt {
        Halt::Refused(why) => Some(refused(why)),
        Halt::ShelfFault => Some(refused(Refusal::ShelfFault)),
        Halt::NoMemory => None,
    }
}

fn refused(why: Refusal) -> ReadNote
    ensures { result ≡ notes.Refused why 0 0 }
{
    ReadNote::Refused {
        why,
        draws: 0,
        puts: 0,
    }
}

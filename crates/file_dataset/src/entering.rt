// The entry of a call that changes a head.
ghost use Rattle.std.specs.Prelude.{◌≡◌, ◌<◌, ◌^◌, Err, IfOk, Ok, is_ok, length, true};
ghost use Rattle.family_log.specs.Calls.{IsChangeOf, new_place};
ghost use Rattle.family_log.specs.Honest.{IsHonest, LeadsAsLogged};
ghost use Rattle.family_log.specs.Log.{head_spot};
ghost use Rattle.file_dataset.specs.ChangeSteps.{IsEnded, change_note};

use crate::edit::Made;
use crate::halt::{Halt, stop_of};
use crate::limits::MAX_PUTS;
use crate::noting::noted_stop;
use crate::wrote::Wrote;
use dataset_tree::{Refusal, Stop};
use family_log::{Family, ReadNote, Spot};
use shelf_store::Shelf;

/// Gives the head its new table with the entry that tells it, or adds the entry of the refusal. `before` says
/// how many draws were made and how many blocks put before the call. The log has room for an entry. Where there
/// is no memory for it, want of memory is the answer, and the head is as before.
pub(crate) fn ended<B: Shelf>(
    fam: &mut Family<B>,
    spot: Spot,
    before: (u64, u64),
    answer: Result<Made, Halt>,
) -> Result<Wrote, Stop>
    requires place { is_ok (new_place fam.old spot.head) ≡ true }
    requires head { spot ≡ head_spot spot.head }
    requires change { IfOk answer (λ made. IsChangeOf fam.old spot.head made.change) }
    ensures ended { IsEnded spot.head before answer result fam.old fam.new }
    ensures honest { IsHonest fam.old → IfOk answer (λ made. LeadsAsLogged fam.old spot.head made.change)
        → IsHonest fam.new }
    ensures room { length fam.old.shelf.sizes < 2 ^ 64 }
{
    let used = fam.used();
    match answer {
        Ok(made) => changed(fam, spot.head, made),
        Err(halt) => Err(refused(fam, spot, before, used, halt)),
    }
}

fn changed<B: Shelf>(fam: &mut Family<B>, head: u32, made: Made) -> Result<Wrote, Stop>
    requires place { is_ok (new_place fam.old head) ≡ true }
    requires change { IsChangeOf fam.old head made.change }
    ensures ended { IsEnded head (0, 0) (Ok made) result fam.old fam.new }
    ensures honest { IsHonest fam.old → LeadsAsLogged fam.old head made.change → IsHonest fam.new }
{
    let Made { change, wrote } = made;
    match fam.append_write(head, change) {
        Ok(_) => Ok(wrote),
        Err(stop) => Err(stop),
    }
}

fn refused<B: Shelf>(
    fam: &mut Family<B>,
    spot: Spot,
    before: (u64, u64),
    used: (u64, u64),
    halt: Halt,
) -> Stop
    requires place { is_ok (new_place fam.old spot.head) ≡ true }
    requires head { spot ≡ head_spot spot.head }
    requires draws { used.0 ≡ fam.old.salts.made }
    requires puts { used.1 ≡ length fam.old.shelf.sizes }
    ensures ended { IsEnded spot.head before (Err halt) (Err result) fam.old fam.new }
    ensures honest { IsHonest fam.old → IsHonest fam.new }
{
    let note = note_of(
        halt,
        used.0.saturating_sub(before.0),
        used.1.saturating_sub(before.1),
    );
    match note {
        Some(note) => noted_stop(fam, spot, note, stop_of(halt)),
        None => Stop::NoMemory,
    }
}

// The note of a call that ended so, none for want of memory: only where the shelf failed it says how many draws
// were made and how many blocks put.
fn note_of(halt: Halt, draws: u64, puts: u64) -> Option<ReadNote>
    ensures { result ≡ change_note halt draws puts }
{
    match halt {
        Halt::Refused(why) => Some(ReadNote::Refused {
            why,
            draws: 0,
            puts: 0,
        }),
        Halt::ShelfFault => Some(ReadNote::Refused {
            why: Refusal::ShelfFault,
            draws,
            puts: puts.min(MAX_PUTS) as u32,
        }),
        Halt::NoMemory => None,
    }
}

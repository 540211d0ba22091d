ghost use Rattle.std.specs.Prelude.{◌≡◌, [], ◌∷◌, Some, None, IfOk, replicate};
ghost use Rattle.family_log.specs.declared.entry.LogEntry.TheVariants.{Make};
ghost use Rattle.family_log.specs.Tables.{fresh_table};
ghost use Rattle.family_log.specs.Snapshots.{IsNewHead};
ghost use Rattle.snap_clone.specs.Answers.{HasNoSnapshots};

use crate::{clone_head, drop_head, drop_snapshot, refuse_snapshot, snapshot};
use dataset_tree::{Refusal, SnapPart, Stop};
use family_log::{Family, LogEntry, Spot};
use shelf_store::MemShelf;
use std::alloc::Global;
use std::test::Fail;

// A family of the dataset 1 with room for 100 entries.
fn family(alloc: Global) -> Result<Family<MemShelf>, Stop>
    ensures heads { IfOk result (λ family. family.heads
        ≡ record { id = 1; table = fresh_table 512 (replicate 32 9); parts = []; tables = [] } ∷ []) }
    ensures log { IfOk result (λ family. family.log ≡ Make 1 (record { object = 1; length = Some 0 } ∷ []) [] ∷ []) }
{
    Ok(Family::make(alloc, 7, 512, [0; 32], 2, 100, 1, [9; 32])?)
}

// Its snapshot `s`.
fn spot(alloc: Global) -> Result<Spot, Stop> {
    let part = SnapPart::parse(alloc, b"s")?;
    Ok(Spot {
        head: 1,
        snap: Some(part),
    })
}

// The family with this snapshot, of the guid 5.
fn with_snapshot(alloc: Global) -> Result<Family<MemShelf>, Stop>
    ensures { IfOk result (IsNewHead 2) }
{
    let mut family = family(alloc)?;
    let part = SnapPart::parse(alloc, b"s")?;
    snapshot(&mut family, 1, &part, 5)?;
    Ok(family)
}

// And with its clone, the head 2.
fn with_clone(alloc: Global) -> Result<Family<MemShelf>, Stop>
    ensures { IfOk result (HasNoSnapshots 2) }
{
    let mut family = with_snapshot(alloc)?;
    let spot = spot(alloc)?;
    clone_head(&mut family, &spot, 2)?;
    Ok(family)
}

// Makes 64 snapshots of the dataset 1, `aa` to `hh`.
fn fill(alloc: Global, family: &mut Family<MemShelf>) -> Result<(), Stop> {
    'parts: for number in 0..64u8 {
        let part = SnapPart::parse(alloc, &[b'a' + number / 8, b'a' + number % 8])?;
        snapshot(family, 1, &part, u64::from(number))?;
    }
    Ok(())
}

#[test]
fn sixty_four_snapshots_are_taken(rt: HostRuntime) -> Result<(), Fail> {
    let alloc = rt.alloc();
    let mut family = family(alloc)?;
    fill(alloc, &mut family)?;
    let taken = SnapPart::parse(alloc, b"ab")?;
    assert_eq!(rt;
        snapshot(&mut family, 1, &taken, 5),
        Err(Stop::Refused(Refusal::Exists))
    );
    let next = SnapPart::parse(alloc, b"zz")?;
    let full = Refusal::Full { limit: 64 };
    assert_eq!(rt;
        snapshot(&mut family, 1, &next, 5),
        Err(Stop::Refused(full))
    );
    let missing = Refusal::NoHead { head: 2 };
    assert_eq!(rt;
        snapshot(&mut family, 2, &next, 5),
        Err(Stop::Refused(missing))
    );
    assert_eq!(rt; (family.entries(), family.snapshots()), (67, 64));
    assert!(rt;
        matches!(
            family.entry(66),
            Some(LogEntry::Refused {
                draws: 0,
                puts: 0,
                ..
            })
        )
    );
    assert!(rt;
        matches!(family.snaps(1), Some([_, second, ..]) if second.as_bytes() == b"ab".as_slice())
    );
    Ok(())
}

#[test]
fn what_goes_goes_in_order(rt: HostRuntime) -> Result<(), Fail> {
    let alloc = rt.alloc();
    let mut held = with_clone(alloc)?;
    let spot = spot(alloc)?;
    assert_eq!(rt;
        drop_snapshot(&mut held, &spot),
        Err(Stop::Refused(Refusal::HasClones))
    );
    let clone = Spot {
        head: 2,
        snap: None,
    };
    assert!(rt; matches!(held.table(&clone), Some(table) if table.guid == 0));
    assert!(rt; matches!(held.table(&spot), Some(table) if table.guid == 5));
    let mut family = with_clone(alloc)?;
    assert_eq!(rt; drop_head(&mut family, 2), Ok(false));
    assert_eq!(rt; drop_snapshot(&mut family, &spot), Ok(()));
    assert_eq!(rt;
        drop_snapshot(&mut family, &spot),
        Err(Stop::Refused(Refusal::NoSnapshot))
    );
    assert_eq!(rt; family.entries(), 3);
    Ok(())
}

#[test]
fn a_family_counts_what_it_has(rt: HostRuntime) -> Result<(), Fail> {
    let mut held = with_clone(rt.alloc())?;
    let spot = spot(held.allocator())?;
    assert_eq!(rt;
        (held.heads(), held.snapshots(), held.has_clone(&spot)),
        (2, 1, true)
    );
    assert_eq!(rt; drop_head(&mut held, 2), Ok(false));
    assert_eq!(rt;
        (held.heads(), held.snapshots(), held.has_clone(&spot)),
        (1, 1, false)
    );
    Ok(())
}

#[test]
fn a_reason_stands_behind_the_refusals(rt: HostRuntime) -> Result<(), Fail> {
    let alloc = rt.alloc();
    let mut family = with_snapshot(alloc)?;
    let taken = SnapPart::parse(alloc, b"s")?;
    let fresh = SnapPart::parse(alloc, b"t")?;
    let why = Refusal::EntropyFault;
    assert_eq!(rt;
        refuse_snapshot(&mut family, 1, &taken, why),
        Stop::Refused(Refusal::Exists)
    );
    assert_eq!(rt;
        refuse_snapshot(&mut family, 1, &fresh, why),
        Stop::Refused(why)
    );
    let missing = Refusal::NoHead { head: 2 };
    assert_eq!(rt;
        refuse_snapshot(&mut family, 2, &fresh, why),
        Stop::Refused(missing)
    );
    assert_eq!(rt; family.entries(), 4);
    Ok(())
}

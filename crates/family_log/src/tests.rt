ghost use Rattle.std.specs.Prelude.{◌≡◌, [], ◌∷◌, Some, IfOk, replicate};
ghost use Rattle.family_log.specs.declared.entry.LogEntry.TheVariants.{Make, Write};
ghost use Rattle.family_log.specs.Tables.{fresh_table};

use crate::{Family, FamilyPart, HeadChange, Listed, LogEntry, ReadNote, RefAt, Spot, Table};
use dataset_tree::{NoMemory, Refusal, Stop};
use indirect_macs::BlockRef;
use salt_rotation::Salts;
use shelf_store::{MemShelf, Shelf};
use std::alloc::Global;
use std::test::Fail;

const BLOCK: BlockRef = BlockRef {
    size: 6,
    addr: 0,
    salt: [1; 8],
    iv: [2; 12],
    mac: [3; 16],
};

// A family of the dataset 1 with 512 bytes a block and room for three entries.
fn family(alloc: Global) -> Result<Family<MemShelf>, NoMemory>
    ensures block { IfOk result (λ family. family.block ≡ 512) }
    ensures log { IfOk result (λ family. family.log ≡ Make 1 (record { object = 1; length = Some 0 } ∷ []) [] ∷ []) }
{
    Family::make(alloc, 7, 512, [0; 32], 2, 3, 1, [9; 32])
}

// A change that puts a block in object 1 and leaves its length.
fn change(alloc: Global) -> Result<HeadChange, NoMemory>
    ensures table { IfOk result (λ change. change.table ≡ fresh_table 512 (replicate 32 8)) }
    ensures entry { IfOk result (λ change. change.entry
        ≡ Write 1 [] (record { object = 1; index = 4; to = Some BLOCK } ∷ [])) }
{
    let mut refs = Vec::new(alloc);
    refs.push(RefAt {
        object: 1,
        index: 4,
        to: Some(BLOCK),
    })?;
    Ok(HeadChange {
        table: Table::fresh(alloc, 512, [8; 32])?,
        entry: LogEntry::Write {
            head: 1,
            lengths: Listed::new(Vec::new(alloc)),
            refs: Listed::new(refs),
        },
    })
}

fn head_spot(head: u32) -> Spot {
    Spot { head, snap: None }
}

#[test]
fn the_newest_write_is_found(rt: HostRuntime) -> Result<(), Fail> {
    let mut family = family(rt.alloc())?;
    let change = change(rt.alloc())?;
    assert_eq!(rt; family.append_write(1, change), Ok(1));
    assert_eq!(rt; family.last_of(1, 1, 4), Some(BLOCK));
    assert_eq!(rt; family.last_of(1, 1, 5), None);
    assert_eq!(rt; family.last_of(2, 1, 4), None);
    assert!(rt; matches!(family.entry(1), Some(LogEntry::Write { head: 1, .. })));
    assert!(rt; family.entry(2).is_none());
    assert!(rt; matches!(family.table(&head_spot(1)), Some(table) if table.portable == [8; 32]));
    assert!(rt; matches!(family.snaps(1), Some([])));
    assert!(rt; family.snaps(2).is_none());
    let stop = Stop::Refused(Refusal::NoHead { head: 2 });
    assert_eq!(rt; family.note_read(head_spot(2), ReadNote::Read), Err(stop));
    assert_eq!(rt; family.note_read(head_spot(1), ReadNote::Read), Ok(2));
    let stop = Stop::Refused(Refusal::Full { limit: 3 });
    assert_eq!(rt; family.note_read(head_spot(1), ReadNote::Read), Err(stop));
    assert_eq!(rt; (family.guid(), family.entries(), family.room()), (7, 3, 3));
    Ok(())
}

#[test]
fn a_copy_goes_on_alike(rt: HostRuntime) -> Result<(), Fail> {
    let mut family = family(rt.alloc())?;
    let mut copy = family.copy()?;
    assert_eq!(rt; family.differs(&copy, 1), None);
    assert!(rt; family.shelf().put(b"block").is_ok());
    assert_eq!(rt; family.differs(&copy, 1), Some(FamilyPart::Blocks));
    assert!(rt; copy.shelf().put(b"block").is_ok());
    assert_eq!(rt; family.used(), (0, 1));
    assert_eq!(rt; family.differs(&copy, 1), None);
    let salts: &mut Salts = copy.salts();
    assert_eq!(rt; salts.made(), 0);
    Ok(())
}

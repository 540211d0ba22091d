use super::*;
use std::alloc::Global;
use std::test::Fail;

fn name(alloc: Global, text: &str) -> Result<SetName, Stop> {
    SetName::parse(alloc, text.as_bytes())
}

/// Where the text isn't in form, by what reading it gave.
fn fault_of<T: Drop>(read: Result<T, Stop>) -> Option<u64> {
    match read {
        Err(Stop::Refused(Refusal::BadName { at })) => Some(at),
        _ => None,
    }
}

fn snapshots_are_named(alloc: Global) -> Result<bool, Stop> {
    let name = SnapName::parse(alloc, b"tank/home@monday")?.copy()?;
    let part = name.snap.copy()?;
    Ok(name.set.as_bytes() == b"tank/home".as_slice() && part.as_bytes() == b"monday".as_slice())
}

fn files_are_named(alloc: Global) -> Result<bool, Stop> {
    let name = FileName::parse(alloc, b"notes.txt")?.copy()?;
    let longest = SnapPart::parse(alloc, &[b'a'; 64])?;
    Ok(name.as_bytes() == b"notes.txt".as_slice() && longest.as_bytes().len() == 64)
}

#[test]
fn a_tree_gives_ids_in_order_and_refuses(rt: HostRuntime) -> Result<(), Fail> {
    let alloc = rt.alloc();
    let mut tree = Tree::new(alloc)?;
    let tank = name(alloc, "tank")?;
    let home = name(alloc, "tank/home")?;
    assert_eq!(rt; home.copy()?.as_bytes(), b"tank/home".as_slice());
    assert_eq!(rt; home.parent(), Some(b"tank".as_slice()));
    assert_eq!(rt;
        tree.add(&home, Kind::Plain, 0),
        Err(Stop::Refused(Refusal::NoParent))
    );
    tree.add(&tank, Kind::Plain, 0)?;
    assert_eq!(rt; tree.add(&home, Kind::Crypt, 0), Ok(2));
    assert_eq!(rt; (tree.find(&home), tree.last()), (Some(2), 2));
    assert_eq!(rt; tree.remove(1), Err(Refusal::HasChildren));
    assert!(rt; tree.has_children(1) && !tree.has_children(2));
    assert!(rt; tree.row(3).is_none() && tree.rows().len() == 2);
    let row = tree.row(2).ok_or("no row")?.copy()?;
    assert_eq!(rt;
        (row.id, row.parent, row.kind, row.origin),
        (2, 1, Kind::Crypt, 0)
    );
    assert_eq!(rt; (tree.remove(2), tree.last()), (Ok(()), 2));
    names_find_their_rows();
    parents_stand_before_the_last_slash();
    Ok(())
}

#[test]
fn suites_refusals_names_and_records_keep_their_forms(rt: HostRuntime) {
    let suite = Suite::Aes192Gcm;
    assert_eq!(rt; Suite::from_number(7), Some(suite));
    assert_eq!(rt;
        (suite.number(), suite.name(), suite.key_len()),
        (7, "aes-192-gcm", 24)
    );
    let refusal = Refusal::Exists;
    assert_eq!(rt; (refusal.number(), refusal.name()), (2, "Exists"));
    assert_eq!(rt; fault_of(SnapName::parse(rt.alloc(), b"tank/@b@")), Some(5));
    assert_eq!(rt; fault_of(FileName::parse(rt.alloc(), b"a:b")), Some(1));
    assert!(rt;
        snapshots_are_named(rt.alloc()) == Ok(true) && files_are_named(rt.alloc()) == Ok(true)
    );
    let record = RecordBytes::from_slice(b"abc");
    assert_eq!(rt; record.as_slice(), b"abc".as_slice());
    assert!(rt; record == RecordBytes::from_slice(b"abc"));
}

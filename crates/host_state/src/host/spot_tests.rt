// Snapshots and clones of a host's datasets, and datasets that go.
use super::tests::three;
use super::*;
use dataset_tree::SnapName;
use encryption_roots::SeedGot;
use shelf_store::MemShelf;
use std::alloc::AllocError;
use std::test::Fail;

const SNAP_SEED: [u8; 32] = *b"the seed of a snapshot, it's 32.";

fn refusal(answer: Result<(), Stop>) -> Result<Option<Refusal>, Fail> {
    match answer {
        Ok(()) => Ok(None),
        Err(Stop::Refused(why)) => Ok(Some(why)),
        Err(Stop::NoMemory) => Err(Fail::from(AllocError)),
    }
}

fn take(
    host: &mut Host<MemShelf>,
    alloc: Global,
    name: &[u8],
    seed: SeedGot,
) -> Result<Option<Refusal>, Fail> {
    let name = SnapName::parse(alloc, name)?;
    refusal(host.snapshot(&name, &seed))
}

fn clone(
    host: &mut Host<MemShelf>,
    alloc: Global,
    from: &[u8],
    name: &[u8],
) -> Result<Option<Refusal>, Fail> {
    let from = SnapName::parse(alloc, from)?;
    let name = SetName::parse(alloc, name)?;
    refusal(host.clone_set(&from, &name))
}

fn drop_snap(
    host: &mut Host<MemShelf>,
    alloc: Global,
    name: &[u8],
) -> Result<Option<Refusal>, Fail> {
    let name = SnapName::parse(alloc, name)?;
    refusal(host.destroy_snap(&name))
}

fn destroy(host: &mut Host<MemShelf>, alloc: Global, name: &[u8]) -> Result<Option<Refusal>, Fail> {
    let name = SetName::parse(alloc, name)?;
    Ok(host.destroy(&name).err())
}

// What `three` makes, the snapshot `tank@a`, and its clone `copy` (4).
fn cloned(alloc: Global) -> Result<Host<MemShelf>, Fail> {
    let mut host = three(alloc)?;
    let taken = take(&mut host, alloc, b"tank@a", SeedGot::Got(SNAP_SEED))?;
    let made = clone(&mut host, alloc, b"tank@a", b"copy")?;
    if taken.is_some() || made.is_some() {
        return Err(Fail::from(AllocError));
    }
    Ok(host)
}

#[test]
fn snapshots_are_refused_in_order(rt: HostRuntime) -> Result<(), Fail> {
    let mut host = cloned(rt.alloc())?;
    let cases: [(&[u8], SeedGot, Refusal); 5] = [
        (b"gone@a", SeedGot::Fault, Refusal::NoSuch),
        (b"lake@a", SeedGot::Fault, Refusal::NotEncrypted),
        (b"tank@a", SeedGot::Fault, Refusal::Exists),
        (b"tank@b", SeedGot::Fault, Refusal::EntropyFault),
        (b"tank@a", SeedGot::Got(SNAP_SEED), Refusal::Exists),
    ];
    for (name, seed, why) in cases {
        let found = take(&mut host, rt.alloc(), name, seed)?;
        assert!(rt; found == Some(why));
    }
    Ok(())
}

#[test]
fn clones_are_refused_in_order(rt: HostRuntime) -> Result<(), Fail> {
    let mut host = cloned(rt.alloc())?;
    let cases: [(&[u8], &[u8], Refusal); 5] = [
        (b"gone@a", b"copy", Refusal::NoSuch),
        (b"lake@a", b"copy", Refusal::NotEncrypted),
        (b"tank@b", b"copy", Refusal::NoSnapshot),
        (b"tank@a", b"copy", Refusal::Exists),
        (b"tank@a", b"gone/copy", Refusal::NoParent),
    ];
    for (from, name, why) in cases {
        let found = clone(&mut host, rt.alloc(), from, name)?;
        assert!(rt; found == Some(why));
    }
    Ok(())
}

#[test]
fn a_family_has_64_snapshots(rt: HostRuntime) -> Result<(), Fail> {
    let mut host = three(rt.alloc())?;
    let mut name = *b"tank@aa";
    for number in 0..64u8 {
        name[5] = b'a' + number / 26;
        name[6] = b'a' + number % 26;
        let found = take(&mut host, rt.alloc(), &name, SeedGot::Got(SNAP_SEED))?;
        assert!(rt; found.is_none());
    }
    let found = take(&mut host, rt.alloc(), b"tank@z", SeedGot::Got(SNAP_SEED))?;
    assert!(rt; found == Some(Refusal::Full { limit: 64 }));
    let parts = host.snaps(1);
    let oldest = parts
        .first()
        .map(|part| part.as_bytes() == b"aa".as_slice());
    assert!(rt; parts.len() == 64 && oldest == Some(true));
    Ok(())
}

#[test]
fn what_others_come_of_is_not_destroyed(rt: HostRuntime) -> Result<(), Fail> {
    let mut host = cloned(rt.alloc())?;
    let snap = drop_snap(&mut host, rt.alloc(), b"tank@a")?;
    let origin = destroy(&mut host, rt.alloc(), b"tank")?;
    assert!(rt; snap == Some(Refusal::HasClones) && origin == Some(Refusal::HasChildren));
    Ok(())
}

#[test]
fn a_family_goes_with_its_last_dataset(rt: HostRuntime) -> Result<(), Fail> {
    let mut host = cloned(rt.alloc())?;
    let copy = destroy(&mut host, rt.alloc(), b"copy")?;
    assert!(rt; copy.is_none() && host.families.len() == 2);
    let snap = drop_snap(&mut host, rt.alloc(), b"tank@a")?;
    let tank = destroy(&mut host, rt.alloc(), b"tank")?;
    let left = host.families.first().map(|entry| entry.0);
    assert!(rt; snap.is_none() && tank.is_none() && host.families.len() == 1 && left == Some(3));
    Ok(())
}

// Families of a host: which datasets have one, and what the words of a seed make of it.
ghost use Rattle.std.specs.Prelude.{IfSome};
ghost use Rattle.encryption_roots.specs.RecordSize.{IsRecordSize};

use super::*;
use dataset_tree::Format;
use encryption_roots::{Fetched, Material, SeedGot};
use family_log::Spot;
use shelf_store::MemShelf;
use std::alloc::AllocError;
use std::test::Fail;

const SEED: [u8; 32] = *b"a seed of thirty-two bytes, here";

const OTHER_SEED: [u8; 32] = *b"the seed of another root, of 32.";

// By a ChaCha20 written in Python after RFC 8439, with a block counter of 64 bits, and Python's HMAC: the words 24
// and 25 of the seeds; of the salts' seed, which is the words 26 to 33, the salts 0 and 1 and the vector of draw 0;
// and the MAC of a fresh table of record size 131072 under the words 8 to 23.
const GUIDS: [(u32, u64); 2] = [(1, 0x7c06_4558_130c_6748), (3, 0xcf7a_3f15_567e_ff07)];

const FIRST_SALT: [u8; 8] = [0x37, 0x59, 0x2a, 0xa3, 0xb1, 0x68, 0x31, 0x88];

const SECOND_SALT: [u8; 8] = [0xd1, 0x1b, 0xfb, 0xa2, 0x50, 0x8b, 0x7e, 0xfd];

const FIRST_VECTOR: [u8; 12] = [
    0xe1, 0x79, 0xa5, 0x41, 0x35, 0x24, 0x6d, 0xf4, 0xd3, 0x79, 0x28, 0x57,
];

const PORTABLE: [u8; 32] = [
    0x4b, 0x54, 0xce, 0x42, 0xbd, 0xc6, 0x49, 0x00, 0xc9, 0xb9, 0x65, 0x9b, 0x06, 0x6b, 0x52, 0x94,
    0x51, 0x70, 0x57, 0xb2, 0x39, 0xa0, 0x1c, 0xaa, 0x49, 0x17, 0x76, 0x14, 0x73, 0x0d, 0x97, 0xf1,
];

fn options(format: Option<Format>) -> Options
    ensures { IfSome result.block IsRecordSize }
{
    Options {
        suite: None,
        format,
        place: None,
        iters: None,
        block: None,
    }
}

fn kit(alloc: Global, seed: SeedGot) -> Result<LineKit, Fail> {
    let material = Material::new(vec![in alloc; b'k'; 32]?);
    Ok(LineKit {
        old_key: Fetched::NotAsked,
        new_key: Fetched::Got(material),
        seed,
    })
}

fn add(
    host: &mut Host<MemShelf>,
    alloc: Global,
    name: &[u8],
    format: Option<Format>,
    seed: SeedGot,
) -> Result<(), Fail> {
    let name = SetName::parse(alloc, name)?;
    let kit = kit(alloc, seed)?;
    host.create(alloc, &name, &options(format), &kit)?;
    Ok(())
}

// The root `tank` (1), the plain `lake` (2), for which a seed was had too, and the root `vault` (3). A salt serves
// two draws.
pub(super) fn three(alloc: Global) -> Result<Host<MemShelf>, Fail> {
    let mut host = Host::new(alloc, 2)?;
    add(
        &mut host,
        alloc,
        b"tank",
        Some(Format::Raw),
        SeedGot::Got(SEED),
    )?;
    add(&mut host, alloc, b"lake", None, SeedGot::Got(SEED))?;
    add(
        &mut host,
        alloc,
        b"vault",
        Some(Format::Raw),
        SeedGot::Got(OTHER_SEED),
    )?;
    Ok(host)
}

#[test]
fn each_encrypted_dataset_has_a_family_with_the_guid_of_its_key(
    rt: HostRuntime,
) -> Result<(), Fail> {
    let host = three(rt.alloc())?;
    let found = host
        .families
        .as_slice()
        .iter()
        .map(|entry| (entry.0, entry.1.guid()));
    assert!(rt; found.eq(GUIDS.iter().copied()));
    Ok(())
}

#[test]
fn a_family_has_the_salts_of_its_seed_under_the_limit(rt: HostRuntime) -> Result<(), Fail> {
    let mut host = three(rt.alloc())?;
    let Some(entry) = host.families.as_mut_slice().get_mut(0) else {
        return Err(Fail::from(AllocError));
    };
    let salts = entry.1.salts();
    if salts.made() > 0 {
        return Err(Fail::from(AllocError));
    }
    let first = salts.draw();
    let salt = first.salt;
    let vector = first.iv;
    assert!(rt; first.number == 0 && salt == FIRST_SALT && vector == FIRST_VECTOR);
    let second = salts.draw().salt;
    let third = salts.draw().salt;
    assert!(rt; second == FIRST_SALT && third == SECOND_SALT);
    Ok(())
}

#[test]
fn a_fresh_head_has_its_portable_mac(rt: HostRuntime) -> Result<(), Fail> {
    let host = three(rt.alloc())?;
    let spot = Spot {
        head: 1,
        snap: None,
    };
    let portable = host
        .families
        .first()
        .and_then(|entry| entry.1.table(&spot))
        .map(|table| table.portable);
    assert!(rt; portable == Some(PORTABLE));
    Ok(())
}

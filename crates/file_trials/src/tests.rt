use crate::scenarios::SCENARIOS;
use crate::steps::first_wrong;
use crate::trial::{Start, Trial};
use file_dataset::fresh_portable;
use std::alloc::Global;
use std::test::Fail;

// The portable MAC of a fresh table, with a key of 64 sevens, by Python's hmac.
const FRESH_PORTABLE: [u8; 32] = [
    0xf6, 0x21, 0x15, 0x63, 0x1b, 0xff, 0xa7, 0x1f, 0x69, 0x29, 0x8f, 0x89, 0x05, 0xf6, 0x9f, 0x85,
    0xda, 0x48, 0x5e, 0xb7, 0x65, 0x1b, 0xf2, 0xc8, 0x4d, 0x73, 0x30, 0x0c, 0x95, 0xfa, 0x3b, 0xe0,
];

// The first step that tells something else than expected: what its scenario shows, and its row.
fn first_failure(alloc: Global) -> Result<Option<(&'static str, usize)>, Fail> {
    for scenario in SCENARIOS {
        let mut trial = Trial::make(alloc, scenario.start)?;
        if let Some(row) = first_wrong(&mut trial, scenario.rows)? {
            return Ok(Some((scenario.shows, row)));
        }
    }
    Ok(None)
}

// The bytes of the file `a` from the tenth on: past what the first block stores, through a hole, and up to the end.
fn whole() -> [u8; 1020] {
    let mut bytes = [0; 1020];
    bytes[..7].copy_from_slice(&[10, 11, 12, 13, 14, 15, 16]);
    bytes[1014..1019].copy_from_slice(b"hello");
    bytes
}

fn is_whole(alloc: Global) -> Result<bool, Fail> {
    let mut trial = Trial::make(alloc, Start::Sampled)?;
    let bytes = trial.read(b"a", 10, 2000)?;
    Ok(bytes.as_slice() == whole().as_slice())
}

#[test]
fn each_scenario_tells_what_is_expected(rt: HostRuntime) -> Result<(), Fail> {
    assert_eq!(rt; first_failure(rt.alloc())?, None);
    Ok(())
}

#[test]
fn files_are_those_of_another_implementation(rt: HostRuntime) -> Result<(), Fail> {
    assert!(rt; is_whole(rt.alloc())?);
    Ok(())
}

#[test]
fn the_portable_mac_is_that_of_another_implementation(rt: HostRuntime) {
    assert_eq!(rt; fresh_portable(&[7; 64], 512), FRESH_PORTABLE);
}

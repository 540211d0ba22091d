// Plans of new wrapping keys over a keystore: what they write, and what they leave.
ghost use Rattle.std.specs.Prelude.{IfOk, IfSome};
ghost use Rattle.encryption_roots.specs.RecordSize.{IsRecordSize};
ghost use Rattle.key_ciphers.specs.Ciphers.{ciphers};
ghost use Rattle.key_machine.specs.Plan.{IsPlanned};

use change_key::{plan_change, plan_inherit};
use dataset_tree::{Format, SetName};
use encryption_roots::{Fetched, LineKit, Material, Options, SeedGot};
use key_ciphers::opened;
use key_machine::{ChangePlan, KeyView};
use key_store::{KeyState, states_are_sound};
use std::alloc::Global;
use std::test::Fail;

const SEED: SeedGot = SeedGot::Got(*b"a seed of thirty-two bytes, here");

const FIRST_KEY: [u8; 32] = *b"the first of the keys of tank...";

const CHILD_KEY: [u8; 32] = *b"a key of the root below it......";

const NEW_KEY: [u8; 32] = *b"the new key of tank, from now on";

// By a ChaCha20 written in Python after RFC 8439, with a block counter of 64 bits: the words of the seed at
// the places 36 to 38 and 39 to 41, the initialization vectors of the first and of the second record that a
// line writes.
const VECTORS: [[u8; 12]; 2] = [
    [
        0x04, 0x4f, 0x31, 0x05, 0x1e, 0x55, 0x2d, 0xf5, 0x69, 0x50, 0xe7, 0x00,
    ],
    [
        0x56, 0xa7, 0x2a, 0xae, 0x6a, 0xe2, 0x44, 0xed, 0xcb, 0x87, 0xd6, 0xc5,
    ],
];

fn raw(format: Option<Format>) -> Options
    ensures { IfSome result.block IsRecordSize }
{
    Options {
        suite: None,
        format,
        place: None,
        iters: None,
        block: None,
    }
}

fn kit(alloc: Global, key: &[u8; 32]) -> Result<LineKit, Fail> {
    let material = Material::new(key.to_vec(alloc)?);
    Ok(LineKit {
        old_key: Fetched::NotAsked,
        new_key: Fetched::Got(material),
        seed: SEED,
    })
}

fn add(
    state: &mut KeyState,
    alloc: Global,
    name: &[u8],
    format: Option<Format>,
    key: &[u8; 32],
) -> Result<(), Fail> {
    let name = SetName::parse(alloc, name)?;
    let kit = kit(alloc, key)?;
    state.create(&name, &raw(format), &kit)?;
    Ok(())
}

// The root `tank` (1), with `tank/a` (2), which uses its key, and the root `tank/b` (3).
fn three(alloc: Global) -> Result<KeyState, Fail> {
    let mut state = KeyState::new(alloc)?;
    add(&mut state, alloc, b"tank", Some(Format::Raw), &FIRST_KEY)?;
    add(&mut state, alloc, b"tank/a", None, &FIRST_KEY)?;
    add(&mut state, alloc, b"tank/b", Some(Format::Raw), &CHILD_KEY)?;
    Ok(state)
}

fn change(alloc: Global, state: &KeyState) -> Result<ChangePlan, Fail>
    ensures { IfOk result (IsPlanned ciphers state.now) }
{
    let name = SetName::parse(alloc, b"tank")?;
    let kit = kit(alloc, &NEW_KEY)?;
    states_are_sound(state);
    let opts = raw(Some(Format::Raw));
    Ok(plan_change(alloc, state, &name, &opts, false, &kit)?)
}

fn inherit(alloc: Global, state: &KeyState) -> Result<ChangePlan, Fail>
    ensures { IfOk result (IsPlanned ciphers state.now) }
{
    let name = SetName::parse(alloc, b"tank/b")?;
    let kit = kit(alloc, &NEW_KEY)?;
    states_are_sound(state);
    Ok(plan_inherit(alloc, state, &name, false, &kit)?)
}

// Whether the record of this number in a plan is that of a family, with the vector of that number and the
// master key that the family's record has now.
fn keeps_master(
    state: &KeyState,
    plan: &ChangePlan,
    number: usize,
    family: u32,
    keys: (&[u8; 32], &[u8; 32]),
) -> bool {
    let (Some((id, record)), Some(vector)) = (plan.wrapped.get(number), VECTORS.get(number)) else {
        return false;
    };
    let Some(before) = state.wrapped(family) else {
        return false;
    };
    let master = opened(record, keys.1);
    *id == family
        && record.as_slice().get(10..22) == Some(vector.as_slice())
        && master.is_some()
        && master == opened(&before, keys.0)
}

#[test]
fn a_change_keeps_the_master_keys_of_its_families(rt: HostRuntime) -> Result<(), Fail> {
    let alloc = rt.alloc();
    let mut state = three(alloc)?;
    let plan = change(alloc, &state)?;
    assert_eq!(rt; plan.wrapped.len(), 2);
    assert!(rt; keeps_master(&state, &plan, 0, 1, (&FIRST_KEY, &NEW_KEY)));
    assert!(rt; keeps_master(&state, &plan, 1, 2, (&FIRST_KEY, &NEW_KEY)));
    state.apply_change(plan);
    assert!(rt; state.loaded(1) == Some(NEW_KEY));
    Ok(())
}

#[test]
fn a_root_inherits_the_key_above(rt: HostRuntime) -> Result<(), Fail> {
    let alloc = rt.alloc();
    let mut state = three(alloc)?;
    let plan = inherit(alloc, &state)?;
    assert_eq!(rt; plan.wrapped.len(), 1);
    assert!(rt; keeps_master(&state, &plan, 0, 3, (&CHILD_KEY, &FIRST_KEY)));
    state.apply_change(plan);
    assert!(rt; state.loaded(3).is_none() && state.status(3));
    Ok(())
}

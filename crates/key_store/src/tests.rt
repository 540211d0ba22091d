// The commands of the keystore, by calls: what no script shows.
ghost use Rattle.std.specs.Prelude.{◌≡◌, true, IfOk, IfSome, is_some};
ghost use Rattle.dataset_tree.specs.Tree.{row_of};
ghost use Rattle.mapping_words.specs.Told.{Told, fresh};
ghost use Rattle.key_store.specs.Agrees.{Agrees};
ghost use Rattle.encryption_roots.specs.RecordSize.{IsRecordSize};
ghost use Rattle.wrapped_keys.specs.Stored.{parsed_record};

use super::*;
use crate::slots::{free_slot, fresh_gens, set_generation};
use crate::state::FamilyRecord;
use dataset_tree::{Format, MaterialFault, NoMemory, RecordBytes, Refusal, SetName, Stop};
use encryption_roots::{Fetched, KeyCmd, LineKit, Material, Options, Prop, SeedGot, put_at_id};
use mapping_words::{LAST_GENERATION, LoneWords};
use std::alloc::Global;
use std::test::Fail;
use wrapped_keys::KeyRecord;

const SEED: SeedGot = SeedGot::Got(*b"a seed of thirty-two bytes, here");

const RAW_KEY: &[u8] = b"a key of thirty-two bytes, there";

fn raw_root() -> Options
    ensures { IfSome result.block IsRecordSize }
{
    Options {
        suite: None,
        format: Some(Format::Raw),
        place: None,
        iters: None,
        block: None,
    }
}

fn kit(alloc: Global, key: &[u8], seed: SeedGot) -> Result<LineKit, NoMemory> {
    let material = Material::new(key.to_vec(alloc)?);
    Ok(LineKit {
        old_key: Fetched::NotAsked,
        new_key: Fetched::Got(material),
        seed,
    })
}

fn tank(alloc: Global) -> Result<SetName, Stop> {
    SetName::parse(alloc, b"tank")
}

fn copy(alloc: Global) -> Result<SetName, Stop> {
    SetName::parse(alloc, b"copy")
}

// Makes a dataset, which leaves the slots of a keeper that agreed.
fn create(state: &mut KeyState, name: &SetName, opts: &Options, kit: &LineKit) -> Result<u32, Stop>
    requires { IfSome opts.now.block IsRecordSize }
    ensures { (t : Told) → Agrees t state.old → Agrees t state.new }
{
    key_commands_leave_the_slots();
    state.create(name, opts, kit)
}

// A keystore with the raw root `tank`.
fn root_alone(alloc: Global) -> Result<KeyState, Stop>
    ensures { IfOk result (Agrees (fresh 256)) }
{
    let name = tank(alloc)?;
    let kit = kit(alloc, RAW_KEY, SEED)?;
    let mut state = KeyState::new(alloc)?;
    fresh_keepers_agree();
    match create(&mut state, &name, &raw_root(), &kit) {
        Ok(_) => Ok(state),
        Err(stop) => Err(stop),
    }
}

// The same, and slots that agree with it.
fn with_root(alloc: Global) -> Result<(KeyState, LoneWords), Stop>
    ensures { IfOk result (λ made. Agrees made.1 made.0) }
{
    let state = root_alone(alloc)?;
    let words = LoneWords::new(alloc, 256)?;
    Ok((state, words))
}

// The same with `tank/a`, which inherits the root's key.
fn with_heir(alloc: Global) -> Result<(KeyState, LoneWords), Stop>
    ensures { IfOk result (λ made. Agrees made.1 made.0) }
{
    let kit = kit(alloc, RAW_KEY, SEED)?;
    let heir = SetName::parse(alloc, b"tank/a")?;
    let (mut state, words) = with_root(alloc)?;
    create(&mut state, &heir, &Options::none(), &kit)?;
    Ok((state, words))
}

// The same with `copy`, a clone of `tank`.
fn with_clone(alloc: Global) -> Result<(KeyState, LoneWords), Stop>
    ensures { IfOk result (λ made. Agrees made.1 made.0) }
{
    let origin = tank(alloc)?;
    let name = copy(alloc)?;
    let (mut state, words) = with_root(alloc)?;
    state.add_clone(&origin, &name)?;
    Ok((state, words))
}

fn mount(state: &mut KeyState, words: &mut LoneWords, name: &[u8]) -> Result<(), Stop>
    requires { Agrees words.old state.old }
    ensures { Agrees words.new state.new }
{
    let name = SetName::parse(state.alloc, name)?;
    state.mount(words, &(), &name)
}

fn is_there(state: &KeyState, id: u32) -> bool
    ensures { result ≡ is_some (row_of id state.now.tree.rows) }
{
    state.tree().row(id).is_some()
}

// Destroys a dataset, or says why not.
fn destroy(state: &mut KeyState, words: &mut LoneWords, id: u32) -> Option<Refusal>
    requires { Agrees words.old state.old }
    ensures { Agrees words.new state.new }
{
    if !is_there(state, id) {
        return Some(Refusal::NoSuch);
    }
    state.destroy(words, &(), id, false).err()
}

#[test]
fn bad_material_comes_before_a_failed_seed(rt: HostRuntime) -> Result<(), Fail> {
    let alloc = rt.alloc();
    let name = tank(alloc)?;
    let kit = kit(alloc, b"short", SeedGot::Fault)?;
    let mut state = KeyState::new(alloc)?;
    let fault = MaterialFault::Short;
    let bad = Stop::Refused(Refusal::BadMaterial { fault });
    assert_eq!(rt; create(&mut state, &name, &raw_root(), &kit), Err(bad));
    Ok(())
}

// A keystore whose raw root `tank` was unloaded.
fn unloaded(alloc: Global) -> Result<KeyState, Stop> {
    let name = tank(alloc)?;
    let (mut state, mut words) = with_root(alloc)?;
    match state.unload(&mut words, &(), &name) {
        Ok(()) => Ok(state),
        Err(why) => Err(Stop::Refused(why)),
    }
}

#[test]
fn a_raw_root_is_loaded_again(rt: HostRuntime) -> Result<(), Fail> {
    let alloc = rt.alloc();
    let name = tank(alloc)?;
    let kit = kit(alloc, RAW_KEY, SEED)?;
    let mut state = unloaded(alloc)?;
    state.load(&name, true, &kit)?;
    assert!(rt; !state.status(1));
    state.load(&name, false, &kit)?;
    assert!(rt; state.status(1));
    Ok(())
}

#[test]
fn a_mounted_dataset_keeps_its_key(rt: HostRuntime) -> Result<(), Fail> {
    let alloc = rt.alloc();
    let name = tank(alloc)?;
    let (mut state, mut words) = with_root(alloc)?;
    mount(&mut state, &mut words, b"tank")?;
    let busy = Refusal::Busy {
        dataset: 1,
        count: 1,
    };
    assert_eq!(rt; state.unload(&mut words, &(), &name), Err(busy));
    assert!(rt; state.opened(1).is_some() && state.status(1));
    assert_eq!(rt; state.mounted_id(&name), Ok(1));
    assert!(rt; state.unmount(&mut words, &(), &name).is_ok());
    assert!(rt; state.drop_mapping(&mut words, &(), 1) && state.opened(1).is_none());
    Ok(())
}

#[test]
fn mappings_of_a_family_use_one_master_key(rt: HostRuntime) -> Result<(), Fail> {
    let alloc = rt.alloc();
    let (mut state, mut words) = with_clone(alloc)?;
    mount(&mut state, &mut words, b"tank")?;
    mount(&mut state, &mut words, b"copy")?;
    let found = state.counts(&mut words, &())?;
    assert_eq!(rt; found.wkeys.as_slice(), [(1, 1)].as_slice());
    assert_eq!(rt; found.mkeys.as_slice(), [(1, 2)].as_slice());
    assert_eq!(rt; found.maps.as_slice(), [(1, 1, 1), (2, 1, 1)].as_slice());
    Ok(())
}

#[test]
fn a_family_outlives_its_clone(rt: HostRuntime) -> Result<(), Fail> {
    let alloc = rt.alloc();
    let name = copy(alloc)?;
    let (mut state, mut words) = with_clone(alloc)?;
    mount(&mut state, &mut words, b"copy")?;
    assert_eq!(rt;
        destroy(&mut state, &mut words, 1),
        Some(Refusal::HasChildren)
    );
    assert_eq!(rt; destroy(&mut state, &mut words, 2), Some(Refusal::Mounted));
    assert!(rt; state.unmount(&mut words, &(), &name).is_ok());
    assert_eq!(rt; destroy(&mut state, &mut words, 2), None);
    assert!(rt; state.mapped.is_empty() && state.opened(1).is_none());
    assert!(rt; state.record(1).is_some() && state.status(1));
    Ok(())
}

#[test]
fn the_last_dataset_takes_its_record(rt: HostRuntime) -> Result<(), Fail> {
    let (mut state, mut words) = with_root(rt.alloc())?;
    assert_eq!(rt; destroy(&mut state, &mut words, 1), None);
    assert!(rt; state.records.is_empty() && state.mkey_counts.is_empty());
    assert!(rt; state.loaded.is_empty() && state.roots().get(1).is_none());
    assert!(rt; state.tree().rows().is_empty() && state.tree().last() == 1);
    states_are_sound(&state);
    Ok(())
}

#[test]
fn a_plain_dataset_has_no_key(rt: HostRuntime) -> Result<(), Fail> {
    let alloc = rt.alloc();
    let name = tank(alloc)?;
    let state = KeyState::new(alloc)?;
    let needs = state.needs(&KeyCmd::Create {
        name,
        opts: Options::none(),
    })?;
    assert!(rt; !needs.seed && state.tree().rows().is_empty());
    let text = state.get_prop(1, Prop::KeyStatus)?;
    assert_eq!(rt; text.as_bytes(), b"-".as_slice());
    commands_keep_soundness();
    Ok(())
}

// Turns a bit in the sealed text of a family's record, where no key is loaded.
fn damage(state: &mut KeyState, family: u32) -> Result<(), Fail> {
    let Some(stored) = state.record(family) else {
        return Err(Fail::from("no record"));
    };
    let block = stored.block;
    let wrapped = damaged(&stored.wrapped)?;
    if !is_in_form(&wrapped) || !state.loaded.is_empty() {
        return Err(Fail::from("no damage"));
    }
    put_at_id(&mut state.records, family, FamilyRecord { wrapped, block })?;
    Ok(())
}

fn is_in_form(wrapped: &RecordBytes) -> bool
    ensures { result ≡ is_some (parsed_record wrapped.now) }
{
    KeyRecord::from_bytes(wrapped).is_some()
}

fn damaged(stored: &RecordBytes) -> Result<RecordBytes, Fail> {
    let mut bytes = [0; 134];
    let sealed = stored.as_slice();
    let wrapped = &mut bytes[..sealed.len()];
    wrapped.copy_from_slice(sealed);
    *wrapped.last_mut().ok_or("no record")? ^= 1;
    Ok(RecordBytes::from_slice(wrapped))
}

#[test]
fn a_damaged_record_is_named(rt: HostRuntime) -> Result<(), Fail> {
    let alloc = rt.alloc();
    let name = tank(alloc)?;
    let kit = kit(alloc, RAW_KEY, SEED)?;
    let (mut state, mut words) = with_heir(alloc)?;
    assert!(rt; state.unload(&mut words, &(), &name).is_ok());
    damage(&mut state, 2)?;
    let wrong = Stop::Refused(Refusal::WrongKey { dataset: 2 });
    assert_eq!(rt; state.load(&name, false, &kit), Err(wrong));
    Ok(())
}

#[test]
fn a_slot_is_free_where_it_has_a_generation_left(rt: HostRuntime) -> Result<(), Fail> {
    let mut gens = fresh_gens(rt.alloc())?;
    set_generation(&mut gens, 0, LAST_GENERATION);
    set_generation(&mut gens, 2, LAST_GENERATION - 1);
    assert_eq!(rt; free_slot(gens.as_slice(), &[]), Some(1));
    assert_eq!(rt; free_slot(gens.as_slice(), &[(1, 1)]), Some(2));
    Ok(())
}

// A key command: what it takes, and what it does.
ghost use Rattle.std.specs.Prelude.{◌≡◌, Err, List, IfOk, Ok, is_some, true};
ghost use Rattle.std.specs.Result.{result_err};
ghost use Rattle.edge_io.specs.Faults.{Rose};
ghost use Rattle.key_machine.specs.Fair.{WasAsked};
ghost use Rattle.shell_run.specs.declared.found.FoundEntry.{FoundEntry};
ghost use Rattle.shell_run.specs.Answers.{Acts, ActsAs, Agrees, Executes, Fetches, IsOfLine, HasWanted, Reads, Replies, TakesKit, WhereTold, settled, shown_unless, spot_of, wants_of};
ghost use Rattle.host_state.specs.Hosts.{host_after, host_step};
ghost use Rattle.shell_run.specs.Takings.{is_fetch};
ghost use Rattle.shell_run.specs.Transcript.{commanded, told_world};

use crate::ending::Halt;
use crate::found::{FoundEntry, FoundKind};
use crate::outside::Outside;
use dataset_tree::{Refusal, Stop};
use encryption_roots::{Fetched, KeyCmd, LineKit, Location, PropText, SeedGot};
use host_state::Host;
use key_store::Needs;
use shelf_store::Shelf;
use std::alloc::Global;

/// What a command that isn't refused shows.
#[derive(Debug, Drop)]
pub(crate) enum Shown {
    Done,
    Text(PropText),
}

/// Carries out a command of line `number`, which is this part of it, with what it takes for it, or gives its
/// refusal. Where the state refuses it, nothing is taken. An `Err` says that the run is over.
pub(crate) fn execute<B: Shelf, W: Outside>(
    alloc: Global,
    host: &mut Host<B>,
    outside: &mut W,
    number: u32,
    part: u32,
    command: &KeyCmd,
) -> Result<Result<Shown, Refusal>, Halt>
    requires { IsOfLine command.now }
    ensures told { ActsAs number part (W.told outside.old) (W.told outside.new) (λ made.
        WhereTold (told_world host.old (W.told outside.old) (W.script outside.old)) made (λ entries w.
        Executes result (commanded (spot_of number part entries) w command.now)
        (told_world host.new (W.told outside.new) (W.script outside.new)) made)) }
    ensures reads { Reads (result_err result) (W.script outside.old) (W.script outside.new)
        (W.faults outside.old) (W.faults outside.new) }
    // These two refusals come only where a taking for this line failed.
    ensures key_fault { result ≡ Ok (Err Refusal.KeyFault) →
        Rose (W.told outside.old).fetches.faults (W.told outside.new).fetches.faults }
    ensures entropy_fault { result ≡ Ok (Err Refusal.EntropyFault) →
        Rose (W.told outside.old).fills.faults (W.told outside.new).fills.faults }
    ensures holds { W.holds outside.new ≡ W.holds outside.old }
{
    let needs = match host.needs(command) {
        Ok(needs) => needs,
        Err(stop) => return settle(Err(stop)),
    };
    let kit = match take_kit(alloc, outside, number, part, &needs) {
        Ok(kit) => kit,
        Err(halt) => return Err(halt),
    };
    settle(carry(alloc, host, command, &kit))
}

/// What is shown, or a refusal; want of memory ends the run.
fn settle(answer: Result<Shown, Stop>) -> Result<Result<Shown, Refusal>, Halt>
    ensures { result ≡ settled answer }
{
    match answer {
        Ok(shown) => Ok(Ok(shown)),
        Err(Stop::Refused(why)) => Ok(Err(why)),
        Err(Stop::NoMemory) => Err(Halt::NoMemory),
    }
}

/// Carries out a command with its kit. No line gives any of the last ones yet.
fn carry<B: Shelf>(
    alloc: Global,
    host: &mut Host<B>,
    command: &KeyCmd,
    kit: &LineKit,
) -> Result<Shown, Stop>
    requires { IsOfLine command.now }
    ensures reply { Replies result (host_step host.old command.now kit.now).reply }
    ensures state { host.new ≡ host_after result host.old (host_step host.old command.now kit.now).state }
{
    match command {
        KeyCmd::Create { name, opts } => match host.create(alloc, name, opts, kit) {
            Ok(_) => Ok(Shown::Done),
            Err(stop) => Err(stop),
        },
        KeyCmd::Load {
            name,
            check_only,
            ..
        } => match host.load(name, *check_only, kit) {
            Ok(()) => Ok(Shown::Done),
            Err(stop) => Err(stop),
        },
        KeyCmd::Unload { name } => done_unless(host.unload(name)),
        KeyCmd::Mount { name } => match host.mount(name) {
            Ok(()) => Ok(Shown::Done),
            Err(stop) => Err(stop),
        },
        KeyCmd::Unmount { name } => done_unless(host.unmount(name)),
        KeyCmd::Get { name, prop } => match host.keys().tree().find(name) {
            None => Err(Stop::Refused(Refusal::NoSuch)),
            Some(id) => Ok(Shown::Text(host.keys().get_prop(id, *prop)?)),
        },
        KeyCmd::Change {
            name,
            opts,
            load_first,
        } => match host.change(alloc, name, opts, *load_first, kit) {
            Ok(()) => Ok(Shown::Done),
            Err(stop) => Err(stop),
        },
        KeyCmd::Inherit { name, load_first } => match host.inherit(alloc, name, *load_first, kit) {
            Ok(()) => Ok(Shown::Done),
            Err(stop) => Err(stop),
        },
        KeyCmd::Clone { .. } | KeyCmd::Receive { .. } | KeyCmd::Destroy { .. } => unreachable!(),
    }
}

/// What a call that takes no memory shows.
fn done_unless(answer: Result<(), Refusal>) -> Result<Shown, Stop>
    ensures { result ≡ shown_unless answer }
{
    match answer {
        Ok(()) => Ok(Shown::Done),
        Err(why) => Err(Stop::Refused(why)),
    }
}

/// Takes the present key, the new key and a seed, each that is needed, whatever the others gave. Where a
/// prompt ends the run, what stands behind it isn't taken.
fn take_kit<W: Outside>(
    alloc: Global,
    outside: &mut W,
    number: u32,
    part: u32,
    needs: &Needs,
) -> Result<LineKit, Halt>
    ensures takes { ActsAs number part (W.told outside.old) (W.told outside.new)
        (λ made. (entries : List FoundEntry) → Agrees entries made →
        TakesKit result number part (wants_of needs.now) entries (W.told outside.old) (W.script outside.old)
        (W.script outside.new) made) }
    ensures reads { Reads (result_err result) (W.script outside.old) (W.script outside.new)
        (W.faults outside.old) (W.faults outside.new) }
    ensures asked { IfOk result (λ kit. HasWanted needs.now kit) }
    ensures old_key_fault { IfOk result (λ kit. kit.old_key ≡ Fetched.Fault →
        Rose (W.told outside.old).fetches.faults (W.told outside.new).fetches.faults) }
    ensures new_key_fault { IfOk result (λ kit. kit.new_key ≡ Fetched.Fault →
        Rose (W.told outside.old).fetches.faults (W.told outside.new).fetches.faults) }
    ensures entropy_fault { IfOk result (λ kit. kit.seed ≡ SeedGot.Fault →
        Rose (W.told outside.old).fills.faults (W.told outside.new).fills.faults) }
    ensures holds { W.holds outside.new ≡ W.holds outside.old }
{
    let old_entry = taking_of(number, part, FoundKind::OldKey);
    let old_key = match fetch_if(alloc, outside, &needs.old_place, old_entry) {
        Ok(old_key) => old_key,
        Err(halt) => return Err(halt),
    };
    let new_entry = taking_of(number, part, FoundKind::NewKey);
    let new_key = match fetch_if(alloc, outside, &needs.new_place, new_entry) {
        Ok(new_key) => new_key,
        Err(halt) => return Err(halt),
    };
    let seed = match outside.fill(needs.seed, taking_of(number, part, FoundKind::Seed)) {
        Ok(seed) => seed,
        Err(_) => return Err(Halt::NoMemory),
    };
    Ok(LineKit {
        old_key,
        new_key,
        seed,
    })
}

/// Fetches the key material at a place, if there is one.
fn fetch_if<W: Outside>(
    alloc: Global,
    outside: &mut W,
    place: &Option<Location>,
    entry: FoundEntry,
) -> Result<Fetched, Halt>
    requires { is_fetch entry.what ≡ true }
    ensures takes { Acts entry.line (W.told outside.old) (W.told outside.new)
        (Fetches result entry place.now (W.told outside.old).files (W.script outside.old) (W.script outside.new)) }
    ensures reads { Reads (result_err result) (W.script outside.old) (W.script outside.new)
        (W.faults outside.old) (W.faults outside.new) }
    ensures asked { IfOk result (λ fetched. is_some place.now ≡ true → WasAsked fetched) }
    ensures fault { result ≡ Ok Fetched.Fault →
        Rose (W.told outside.old).fetches.faults (W.told outside.new).fetches.faults }
    ensures holds { W.holds outside.new ≡ W.holds outside.old }
{
    match place {
        None => Ok(Fetched::NotAsked),
        Some(place) => outside.fetch(alloc, place, entry),
    }
}

pub(crate) fn taking_of(line: u32, part: u32, what: FoundKind) -> FoundEntry
    ensures { result ≡ record { line = line; part = part; what = what } }
{
    FoundEntry { line, part, what }
}

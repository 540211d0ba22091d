// Lines on snapshots and clones, and on what goes.
ghost use Rattle.std.specs.Prelude.{◌≡◌, OnErr};
ghost use Rattle.std.specs.Result.{result_err};
ghost use Rattle.host_state.specs.Hosts.{HostStepped};
ghost use Rattle.host_state.specs.SpotLines.{clone_step, destroy_step};
ghost use Rattle.shell_run.specs.Answers.{Acts, HasAnswer, Reads, WhereTold};
ghost use Rattle.shell_run.specs.JobAnswers.{DoesStep, StepsTo};
ghost use Rattle.shell_run.specs.Jobs.{on_snapshot};
ghost use Rattle.shell_run.specs.Transcript.{answer_to, destroyed, named_snapshot, told_world};

use crate::command::taking_of;
use crate::ending::Halt;
use crate::found::FoundKind;
use crate::job::SpotName;
use crate::outside::Outside;
use crate::reply::{push_error, push_ok};
use dataset_tree::{Refusal, SetName, SnapName, Stop};
use encryption_roots::SeedGot;
use host_state::Host;
use shelf_store::Shelf;

/// Makes a snapshot, for which a seed is taken whatever refuses it, and adds the reply.
pub(crate) fn take_snapshot<B: Shelf, W: Outside>(
    host: &mut Host<B>,
    outside: &mut W,
    number: u32,
    name: Result<SnapName, Refusal>,
    output: &mut Vec<u8>,
) -> Result<(), Halt>
    ensures told { Acts number (W.told outside.old) (W.told outside.new) (λ made.
        WhereTold (told_world host.old (W.told outside.old) (W.script outside.old)) made (λ entries w.
        HasAnswer result (answer_to number entries w (on_snapshot name))
        (told_world host.new (W.told outside.new) (W.script outside.new))
        output.old.items output.new.items made)) }
    ensures reads { Reads (result_err result) (W.script outside.old) (W.script outside.new)
        (W.faults outside.old) (W.faults outside.new) }
    ensures holds { W.holds outside.new ≡ W.holds outside.old }
{
    let seed = match outside.fill(true, taking_of(number, 0, FoundKind::Seed)) {
        Ok(seed) => seed,
        Err(_) => return Err(Halt::NoMemory),
    };
    make_snapshot(host, number, name, &seed, output)
}

/// Makes a snapshot under a seed, and adds the reply.
fn make_snapshot<B: Shelf>(
    host: &mut Host<B>,
    number: u32,
    name: Result<SnapName, Refusal>,
    seed: &SeedGot,
    output: &mut Vec<u8>,
) -> Result<(), Halt>
    ensures { StepsTo result number (named_snapshot host.old name seed.now) host.new
        output.old.items output.new.items }
{
    let answer = snapshot_named(host, name, seed);
    push_answer(output, number, host, answer)
}

fn snapshot_named<B: Shelf>(
    host: &mut Host<B>,
    name: Result<SnapName, Refusal>,
    seed: &SeedGot,
) -> Result<(), Stop>
    ensures { DoesStep result (named_snapshot host.old name seed.now) host.new }
{
    match name {
        Ok(name) => host.snapshot(&name, seed),
        Err(why) => Err(Stop::Refused(why)),
    }
}

/// Makes a clone, and adds the reply.
pub(crate) fn make_clone<B: Shelf>(
    host: &mut Host<B>,
    number: u32,
    from: &SnapName,
    name: &SetName,
    output: &mut Vec<u8>,
) -> Result<(), Halt>
    ensures { StepsTo result number (clone_step host.old from.now.set from.now.snap name.now) host.new
        output.old.items output.new.items }
{
    let answer = clone_set(host, from, name);
    push_answer(output, number, host, answer)
}

fn clone_set<B: Shelf>(host: &mut Host<B>, from: &SnapName, name: &SetName) -> Result<(), Stop>
    ensures { DoesStep result (clone_step host.old from.now.set from.now.snap name.now) host.new }
{
    host.clone_set(from, name)
}

/// Destroys a dataset or a snapshot, and adds the reply.
pub(crate) fn destroy<B: Shelf>(
    host: &mut Host<B>,
    number: u32,
    spot: SpotName,
    output: &mut Vec<u8>,
) -> Result<(), Halt>
    ensures { StepsTo result number (destroyed host.old spot) host.new output.old.items output.new.items }
{
    let answer = destroy_spot(host, spot);
    push_answer(output, number, host, answer)
}

fn destroy_spot<B: Shelf>(host: &mut Host<B>, spot: SpotName) -> Result<(), Stop>
    ensures { DoesStep result (destroyed host.old spot) host.new }
{
    let SpotName { set, snap } = spot;
    match snap {
        None => destroy_set(host, &set),
        Some(snap) => host.destroy_snap(&SnapName { set, snap }),
    }
}

fn destroy_set<B: Shelf>(host: &mut Host<B>, name: &SetName) -> Result<(), Stop>
    ensures { DoesStep result (destroy_step host.old name.now) host.new }
{
    match host.destroy(name) {
        Ok(()) => Ok(()),
        Err(why) => Err(Stop::Refused(why)),
    }
}

/// Adds the reply to a command that shows nothing. Want of memory ends the run.
fn push_answer<B: Shelf>(
    output: &mut Vec<u8>,
    number: u32,
    host: &Host<B>,
    answer: Result<(), Stop>,
) -> Result<(), Halt>
    ensures { (step : HostStepped) → DoesStep answer step host.now →
        StepsTo result number step host.now output.old.items output.new.items }
{
    match answer {
        Ok(()) => push_ok(output, number)?,
        Err(Stop::Refused(why)) => push_error(output, number, host.keys().tree(), &why)?,
        Err(Stop::NoMemory) => return Err(Halt::NoMemory),
    }
    Ok(())
}

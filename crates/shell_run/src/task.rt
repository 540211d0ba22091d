// What a line asks of the keystore: commands, and how it reports of them.
ghost use Rattle.std.specs.Prelude.{◌≡◌, ◌<◌, ◌≤◌, ◌++◌, IfErr, IfOk, Ok, OnOk, length};
ghost use Rattle.std.specs.List.{AllPairs, flat_map};
ghost use Rattle.dataset_tree.specs.Refusal.{Gives};
ghost use Rattle.dataset_tree.specs.SetName.{named};
ghost use Rattle.encryption_roots.specs.declared.command.KeyCmd.TheVariants as commands;
ghost use Rattle.shell_run.specs.Answers.{GivesTask, IsTask, StopsBy};
ghost use Rattle.shell_run.specs.Tasks.{all_roots, command_named, command_on, is_tried, no_command, on_each, on_roots, one_command, root_command, roots_named};

use dataset_tree::{NoMemory, Refusal, Row, SetName, Stop};
use encryption_roots::{KeyCmd, Location, Options, Prop, roots_below};
use key_store::{KeyState, states_are_sound};
use shell_lines::Word;
use std::alloc::{AllocError, Global};

/// The most commands of a line, since each is on a root of its own: there are as many ids.
pub(crate) const MAX_PARTS: u64 = 4294967296;

/// How a line reports of its commands.
#[derive(Debug, Drop)]
pub(crate) enum Report {
    /// The reply of each.
    Replies,
    /// What came of each root that is tried, and then how many went well.
    Roots,
    /// The rows of all datasets.
    Sets,
    /// How many use each loaded key and each mapping.
    Counts,
    /// Why no command is given.
    Refused(Refusal),
}

/// What a line does with each root that it tries.
#[derive(Clone, Copy, Debug)]
pub(crate) enum RootAction {
    /// Loads its key from its own location, or only tests it.
    Load { check_only: bool },
    Unload,
}

/// The commands of a line, which are carried out one after another, and how it reports of them.
#[derive(Debug, Drop)]
pub(crate) struct Task {
    pub(crate) commands: Vec<KeyCmd>,
    pub(crate) report: Report,
}

pub(crate) fn no_command(alloc: Global, report: Report) -> Result<Task, NoMemory>
    ensures asked { IfOk result (λ task. IsTask task (no_command report)) }
    ensures few { IfOk result (λ task. length task.commands.items ≤ MAX_PARTS) }
{
    let commands = Vec::new(alloc);
    Ok(Task { commands, report })
}

/// One command, or why there is none.
pub(crate) fn one_if(alloc: Global, command: Result<KeyCmd, Stop>) -> Result<Task, NoMemory>
    ensures asked { GivesTask one_command result command }
    ensures few { IfOk result (λ task. length task.commands.items ≤ MAX_PARTS) }
{
    match command {
        Ok(command) => one_command(alloc, command),
        Err(Stop::Refused(why)) => no_command(alloc, Report::Refused(why)),
        Err(Stop::NoMemory) => Err(AllocError),
    }
}

fn one_command(alloc: Global, command: KeyCmd) -> Result<Task, NoMemory>
    ensures asked { IfOk result (λ task. IsTask task (one_command command)) }
    ensures few { IfOk result (λ task. length task.commands.items ≤ MAX_PARTS) }
{
    let mut commands = Vec::new(alloc);
    commands.push(command)?;
    Ok(Task {
        commands,
        report: Report::Replies,
    })
}

// ---- the roots of a line

/// A command on each root at or below the dataset that a word names, where it is tried, or why there is none.
pub(crate) fn on_named(
    alloc: Global,
    keys: &KeyState,
    action: RootAction,
    name: &Word,
) -> Result<Task, NoMemory>
    ensures asked { IfOk result (λ task. IsTask task
        (on_roots keys.now action (roots_named keys.now (named name.now)))) }
    ensures few { IfOk result (λ task. length task.commands.items ≤ MAX_PARTS) }
{
    states_are_sound(keys);
    match roots_named(alloc, keys, name) {
        Ok(roots) => on_each(alloc, keys, action, roots.as_slice()),
        Err(Stop::Refused(why)) => no_command(alloc, Report::Refused(why)),
        Err(Stop::NoMemory) => Err(AllocError),
    }
}

/// A command on each root, where it is tried.
pub(crate) fn on_all(alloc: Global, keys: &KeyState, action: RootAction) -> Result<Task, NoMemory>
    ensures asked { IfOk result (λ task. IsTask task (on_roots keys.now action (Ok (all_roots keys.now)))) }
    ensures few { IfOk result (λ task. length task.commands.items ≤ MAX_PARTS) }
{
    states_are_sound(keys);
    let roots = match all_roots(alloc, keys) {
        Ok(roots) => roots,
        Err(_) => return Err(AllocError),
    };
    on_each(alloc, keys, action, roots.as_slice())
}

/// The roots at or below the dataset that a word names, in order of id.
fn roots_named(alloc: Global, keys: &KeyState, name: &Word) -> Result<Vec<u32>, Stop>
    ensures roots { IfOk result (λ roots. roots_named keys.now (named name.now) ≡ Ok roots.items) }
    ensures refused { IfErr result (λ stop. StopsBy stop (roots_named keys.now (named name.now))) }
{
    let name = match SetName::parse(alloc, name.as_bytes()) {
        Ok(name) => name,
        Err(stop) => return Err(stop),
    };
    let Some(id) = keys.tree().find(&name) else {
        return Err(Stop::Refused(Refusal::NoSuch));
    };
    match roots_below(alloc, keys.tree(), keys.roots(), id) {
        Ok(roots) => Ok(roots),
        Err(_) => Err(Stop::NoMemory),
    }
}

/// All roots, in order of id.
fn all_roots(alloc: Global, keys: &KeyState) -> Result<Vec<u32>, NoMemory>
    ensures { IfOk result (λ roots. roots.items ≡ all_roots keys.now) }
{
    let mut roots = Vec::new(alloc);
    for entry in keys.roots().entries() {
        roots.push(entry.0)?;
    }
    Ok(roots)
}

fn on_each(
    alloc: Global,
    keys: &KeyState,
    action: RootAction,
    roots: &[u32],
) -> Result<Task, NoMemory>
    requires { AllPairs (λ earlier later. earlier < later) roots.now }
    ensures asked { IfOk result (λ task. IsTask task (on_each keys.now action roots.now)) }
    ensures few { IfOk result (λ task. length task.commands.items ≤ MAX_PARTS) }
{
    let commands = match commands_on(alloc, keys, action, roots) {
        Ok(commands) => commands,
        Err(_) => return Err(AllocError),
    };
    Ok(Task {
        commands,
        report: Report::Roots,
    })
}

fn commands_on(
    alloc: Global,
    keys: &KeyState,
    action: RootAction,
    roots: &[u32],
) -> Result<Vec<KeyCmd>, NoMemory>
    ensures { IfOk result (λ commands. commands.items ≡ flat_map (command_on keys.now action) roots.now) }
{
    let mut commands = Vec::new(alloc);
    for root in roots {
        push_command(&mut commands, keys, action, *root)?;
    }
    Ok(commands)
}

/// Adds the command on a root, where it is tried.
fn push_command(
    commands: &mut Vec<KeyCmd>,
    keys: &KeyState,
    action: RootAction,
    root: u32,
) -> Result<(), NoMemory>
    ensures { OnOk result (commands.new.items ≡ commands.old.items ++ command_on keys.now action root) }
{
    if !is_tried(keys, action, root) {
        return Ok(());
    }
    match keys.tree().row(root) {
        None => Ok(()),
        Some(row) => {
            let command = root_command(action, row)?;
            commands.push(command)?;
            Ok(())
        }
    }
}

fn is_tried(keys: &KeyState, action: RootAction, root: u32) -> bool
    ensures { result ≡ is_tried keys.now action root }
{
    match action {
        RootAction::Load { check_only } => check_only || !keys.status(root),
        RootAction::Unload => keys.status(root),
    }
}

fn root_command(action: RootAction, row: &Row) -> Result<KeyCmd, NoMemory>
    ensures { IfOk result (λ command. command ≡ root_command action row.now.name) }
{
    let name = row.name.copy()?;
    Ok(match action {
        RootAction::Load { check_only } => KeyCmd::Load {
            name,
            check_only,
            place: None,
        },
        RootAction::Unload => KeyCmd::Unload { name },
    })
}

// ---- one command

pub(crate) fn create_command(alloc: Global, name: &Word, opts: &Options) -> Result<KeyCmd, Stop>
    ensures { Gives result (command_named (λ name. commands.Create name opts.now) (named name.now)) }
{
    let name = SetName::parse(alloc, name.as_bytes())?;
    let opts = opts.copy()?;
    Ok(KeyCmd::Create { name, opts })
}

pub(crate) fn load_command(
    alloc: Global,
    name: &Word,
    check_only: bool,
    place: &Option<Location>,
) -> Result<KeyCmd, Stop>
    ensures { Gives result (command_named (λ name. commands.Load name check_only place.now) (named name.now)) }
{
    let name = SetName::parse(alloc, name.as_bytes())?;
    let place = copy_place(place)?;
    Ok(KeyCmd::Load {
        name,
        check_only,
        place,
    })
}

/// An equal location, where there is one.
fn copy_place(place: &Option<Location>) -> Result<Option<Location>, NoMemory>
    ensures { IfOk result (λ copied. copied ≡ place.now) }
{
    match place {
        None => Ok(None),
        Some(place) => Ok(Some(place.copy()?)),
    }
}

pub(crate) fn unload_command(alloc: Global, name: &Word) -> Result<KeyCmd, Stop>
    ensures { Gives result (command_named (λ name. commands.Unload name) (named name.now)) }
{
    let name = SetName::parse(alloc, name.as_bytes())?;
    Ok(KeyCmd::Unload { name })
}

pub(crate) fn change_command(
    alloc: Global,
    name: &Word,
    opts: &Options,
    load_first: bool,
) -> Result<KeyCmd, Stop>
    ensures { Gives result (command_named (λ name. commands.Change name opts.now load_first) (named name.now)) }
{
    let name = SetName::parse(alloc, name.as_bytes())?;
    let opts = opts.copy()?;
    Ok(KeyCmd::Change {
        name,
        opts,
        load_first,
    })
}

pub(crate) fn inherit_command(alloc: Global, name: &Word, load_first: bool) -> Result<KeyCmd, Stop>
    ensures { Gives result (command_named (λ name. commands.Inherit name load_first) (named name.now)) }
{
    let name = SetName::parse(alloc, name.as_bytes())?;
    Ok(KeyCmd::Inherit { name, load_first })
}

pub(crate) fn mount_command(alloc: Global, name: &Word) -> Result<KeyCmd, Stop>
    ensures { Gives result (command_named (λ name. commands.Mount name) (named name.now)) }
{
    let name = SetName::parse(alloc, name.as_bytes())?;
    Ok(KeyCmd::Mount { name })
}

pub(crate) fn unmount_command(alloc: Global, name: &Word) -> Result<KeyCmd, Stop>
    ensures { Gives result (command_named (λ name. commands.Unmount name) (named name.now)) }
{
    let name = SetName::parse(alloc, name.as_bytes())?;
    Ok(KeyCmd::Unmount { name })
}

pub(crate) fn get_command(alloc: Global, prop: Prop, name: &Word) -> Result<KeyCmd, Stop>
    ensures { Gives result (command_named (λ name. commands.Get name prop) (named name.now)) }
{
    let name = SetName::parse(alloc, name.as_bytes())?;
    Ok(KeyCmd::Get { name, prop })
}

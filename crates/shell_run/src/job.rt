// What a line asks for: commands of the keystore, a command about files, or one about snapshots and clones.
ghost use Rattle.std.specs.Prelude.{◌≡◌, ◌≤◌, IfOk, length, Result};
ghost use Rattle.std.specs.List.{list_any};
ghost use Rattle.dataset_tree.specs.Refusal.{Gives};
ghost use Rattle.dataset_tree.specs.SetName.{named};
ghost use Rattle.dataset_tree.specs.ShortNames.{file_named};
ghost use Rattle.dataset_tree.specs.SnapName.{snap_named};
ghost use Rattle.dataset_tree.specs.declared.refusal.Refusal.{Refusal as Why};
ghost use Rattle.file_dataset.specs.declared.command.FileCmd.{FileCmd as Command};
ghost use Rattle.file_dataset.specs.declared.command.FileCmd.TheVariants as files;
ghost use Rattle.shell_run.specs.JobAnswers.{IsJob};
ghost use Rattle.shell_run.specs.Answers.{IsTask};
ghost use Rattle.shell_run.specs.Jobs.{clone_from, clone_if, command_on, destroy_if, job_if, job_of, names_snap, no_job, on_keys, on_snapshot, result_in, spot_named};
ghost use Rattle.shell_run.specs.Tasks.{Asked};

use crate::task::{
    MAX_PARTS, Report, RootAction, Task, change_command, create_command, get_command,
    inherit_command, load_command, mount_command, no_command, on_all, on_named, one_if,
    unload_command, unmount_command,
};
use dataset_tree::{FileName, NoMemory, Refusal, SetName, SnapName, SnapPart, Stop};
use file_dataset::{FileBytes, FileCmd};
use key_store::KeyState;
use shell_lines::{Bytes, Line, Word};
use std::alloc::{AllocError, Global};

/// What a line asks for.
#[derive(Debug, Drop)]
pub(crate) enum LineJob {
    Keys(Task),
    Files(FileCmd),
    /// A snapshot, or why its name is none: its line takes a seed in both cases.
    Snapshot(Result<SnapName, Refusal>),
    Clone { from: SnapName, name: SetName },
    Destroy(SpotName),
}

/// What a line asks for.
pub(crate) fn job_of(alloc: Global, keys: &KeyState, line: &Line) -> Result<LineJob, NoMemory>
    ensures { IfOk result (λ job. IsJob job (job_of keys.now line.now)) }
{
    match line {
        Line::Silent => on_keys(no_command(alloc, Report::Replies)),
        Line::List => on_keys(no_command(alloc, Report::Sets)),
        Line::Counts => on_keys(no_command(alloc, Report::Counts)),
        Line::Create { name, opts } => on_keys(one_if(alloc, create_command(alloc, name, opts))),
        Line::LoadKey {
            name,
            check_only,
            place,
        } => on_keys(one_if(alloc, load_command(alloc, name, *check_only, place))),
        Line::LoadBelow { name, check_only } => {
            let check_only = *check_only;
            on_keys(on_named(alloc, keys, RootAction::Load { check_only }, name))
        }
        Line::LoadAll { check_only } => {
            let check_only = *check_only;
            on_keys(on_all(alloc, keys, RootAction::Load { check_only }))
        }
        Line::UnloadKey { name } => on_keys(one_if(alloc, unload_command(alloc, name))),
        Line::UnloadBelow { name } => on_keys(on_named(alloc, keys, RootAction::Unload, name)),
        Line::UnloadAll => on_keys(on_all(alloc, keys, RootAction::Unload)),
        Line::ChangeKey {
            name,
            opts,
            load_first,
        } => on_keys(one_if(alloc, change_command(alloc, name, opts, *load_first))),
        Line::InheritKey { name, load_first } => {
            on_keys(one_if(alloc, inherit_command(alloc, name, *load_first)))
        }
        Line::Mount { name } => on_keys(one_if(alloc, mount_command(alloc, name))),
        Line::Unmount { name } => on_keys(one_if(alloc, unmount_command(alloc, name))),
        Line::Get { prop, name } => on_keys(one_if(alloc, get_command(alloc, *prop, name))),
        Line::Touch { name, file } => job_if(alloc, touch_command(alloc, name, file)),
        Line::Remove { name, file } => job_if(alloc, remove_command(alloc, name, file)),
        Line::Write {
            name,
            file,
            from,
            bytes,
        } => job_if(alloc, write_command(alloc, name, file, *from, bytes)),
        Line::Read {
            spot,
            file,
            from,
            len,
        } => job_if(alloc, read_command(alloc, spot, file, *from, *len)),
        Line::Truncate { name, file, to } => job_if(alloc, cut_command(alloc, name, file, *to)),
        Line::Files { spot } => job_if(alloc, names_command(alloc, spot)),
        Line::Verify { spot } => job_if(alloc, verify_command(alloc, spot)),
        Line::Snapshot { name } => snapshot_job(alloc, name),
        Line::Clone { from, name } => clone_job(alloc, from, name),
        Line::Destroy { spot } => destroy_job(alloc, spot),
    }
}

/// The job of commands of the keystore.
fn on_keys(task: Result<Task, NoMemory>) -> Result<LineJob, NoMemory>
    ensures { (asked : Asked) → IfOk task (λ found. IsTask found asked)
        → IfOk task (λ found. length found.commands.items ≤ MAX_PARTS)
        → IfOk result (λ job. IsJob job (on_keys asked)) }
{
    match task {
        Ok(task) => Ok(LineJob::Keys(task)),
        Err(stop) => Err(stop),
    }
}

/// The job of a command about files, or why there is none.
fn job_if(alloc: Global, command: Result<FileCmd, Stop>) -> Result<LineJob, NoMemory>
    ensures { (wanted : Result Command Why) → Gives command wanted → IfOk result (λ job. IsJob job (job_if wanted)) }
{
    match command {
        Ok(command) => Ok(LineJob::Files(command)),
        Err(Stop::Refused(why)) => no_job(alloc, why),
        Err(Stop::NoMemory) => Err(AllocError),
    }
}

/// The job of a line of which a word names nothing.
fn no_job(alloc: Global, why: Refusal) -> Result<LineJob, NoMemory>
    ensures { IfOk result (λ job. IsJob job (no_job why)) }
{
    on_keys(no_command(alloc, Report::Refused(why)))
}

// ---- snapshots and clones

fn snapshot_job(alloc: Global, name: &Word) -> Result<LineJob, NoMemory>
    ensures { IfOk result (λ job. IsJob job (on_snapshot (snap_named name.now))) }
{
    match SnapName::parse(alloc, name.as_bytes()) {
        Ok(name) => Ok(LineJob::Snapshot(Ok(name))),
        Err(Stop::Refused(why)) => Ok(LineJob::Snapshot(Err(why))),
        Err(Stop::NoMemory) => Err(AllocError),
    }
}

fn clone_job(alloc: Global, from: &Word, name: &Word) -> Result<LineJob, NoMemory>
    ensures { IfOk result (λ job. IsJob job (clone_if (snap_named from.now) (named name.now))) }
{
    match SnapName::parse(alloc, from.as_bytes()) {
        Ok(from) => clone_from(alloc, from, name),
        Err(Stop::Refused(why)) => no_job(alloc, why),
        Err(Stop::NoMemory) => Err(AllocError),
    }
}

fn clone_from(alloc: Global, from: SnapName, name: &Word) -> Result<LineJob, NoMemory>
    ensures { IfOk result (λ job. IsJob job (clone_from from (named name.now))) }
{
    match SetName::parse(alloc, name.as_bytes()) {
        Ok(name) => Ok(LineJob::Clone { from, name }),
        Err(Stop::Refused(why)) => no_job(alloc, why),
        Err(Stop::NoMemory) => Err(AllocError),
    }
}

fn destroy_job(alloc: Global, spot: &Word) -> Result<LineJob, NoMemory>
    ensures { IfOk result (λ job. IsJob job (destroy_if (spot_named spot.now))) }
{
    match spot_named(alloc, spot) {
        Ok(spot) => Ok(LineJob::Destroy(spot)),
        Err(Stop::Refused(why)) => no_job(alloc, why),
        Err(Stop::NoMemory) => Err(AllocError),
    }
}

// ---- commands about files

/// A dataset, or a snapshot of it.
#[derive(Debug, Drop)]
pub(crate) struct SpotName {
    pub(crate) set: SetName,
    pub(crate) snap: Option<SnapPart>,
}

/// The dataset or the snapshot that a word names: a snapshot's name has an `@`.
fn spot_named(alloc: Global, word: &Word) -> Result<SpotName, Stop>
    ensures { Gives result (spot_named word.now) }
{
    if names_snap(word.as_bytes()) {
        let SnapName { set, snap } = SnapName::parse(alloc, word.as_bytes())?;
        return Ok(SpotName {
            set,
            snap: Some(snap),
        });
    }
    let set = SetName::parse(alloc, word.as_bytes())?;
    Ok(SpotName { set, snap: None })
}

fn names_snap(word: &[u8]) -> bool
    ensures { result ≡ names_snap word.now }
{
    word.contains(&b'@')
}

fn touch_command(alloc: Global, name: &Word, file: &Word) -> Result<FileCmd, Stop>
    ensures { Gives result (command_on (λ set file. files.Touch set file) (named name.now) (file_named file.now)) }
{
    let set = SetName::parse(alloc, name.as_bytes())?;
    let file = FileName::parse(alloc, file.as_bytes())?;
    Ok(FileCmd::Touch { set, file })
}

fn remove_command(alloc: Global, name: &Word, file: &Word) -> Result<FileCmd, Stop>
    ensures { Gives result (command_on (λ set file. files.Remove set file) (named name.now) (file_named file.now)) }
{
    let set = SetName::parse(alloc, name.as_bytes())?;
    let file = FileName::parse(alloc, file.as_bytes())?;
    Ok(FileCmd::Remove { set, file })
}

fn write_command(
    alloc: Global,
    name: &Word,
    file: &Word,
    from: u64,
    bytes: &Bytes,
) -> Result<FileCmd, Stop>
    ensures { Gives result (command_on (λ set file. files.Write set file from bytes.now)
        (named name.now) (file_named file.now)) }
{
    let set = SetName::parse(alloc, name.as_bytes())?;
    let file = FileName::parse(alloc, file.as_bytes())?;
    let bytes = FileBytes::new(Vec::from_slice(alloc, bytes.as_bytes())?);
    Ok(FileCmd::Write {
        set,
        file,
        from,
        bytes,
    })
}

fn read_command(
    alloc: Global,
    spot: &Word,
    file: &Word,
    from: u64,
    len: u32,
) -> Result<FileCmd, Stop>
    ensures { Gives result (command_on (λ spot file. files.Read spot.set spot.snap file from len)
        (spot_named spot.now) (file_named file.now)) }
{
    let SpotName { set, snap } = spot_named(alloc, spot)?;
    let file = FileName::parse(alloc, file.as_bytes())?;
    Ok(FileCmd::Read {
        set,
        snap,
        file,
        from,
        len,
    })
}

fn cut_command(alloc: Global, name: &Word, file: &Word, to: u64) -> Result<FileCmd, Stop>
    ensures { Gives result (command_on (λ set file. files.Cut set file to) (named name.now) (file_named file.now)) }
{
    let set = SetName::parse(alloc, name.as_bytes())?;
    let file = FileName::parse(alloc, file.as_bytes())?;
    Ok(FileCmd::Cut { set, file, to })
}

fn names_command(alloc: Global, spot: &Word) -> Result<FileCmd, Stop>
    ensures { Gives result (result_in (λ spot. files.Names spot.set spot.snap) (spot_named spot.now)) }
{
    let SpotName { set, snap } = spot_named(alloc, spot)?;
    Ok(FileCmd::Names { set, snap })
}

fn verify_command(alloc: Global, spot: &Word) -> Result<FileCmd, Stop>
    ensures { Gives result (result_in (λ spot. files.Verify spot.set spot.snap) (spot_named spot.now)) }
{
    let SpotName { set, snap } = spot_named(alloc, spot)?;
    Ok(FileCmd::Verify { set, snap })
}

// What a line of a script does, and what it prints.
ghost use Rattle.std.specs.Prelude.{◌≡◌, ◌≤◌, ◌++◌, Err, IfOk, OnErr, OnOk, length, true};
ghost use Rattle.std.specs.List.{flat_map};
ghost use Rattle.std.specs.Result.{result_err};
ghost use Rattle.shell_lines.specs.Grammar.{line_of};
ghost use Rattle.shell_lines.specs.Sized.{HasRecordSize};
ghost use Rattle.shell_run.specs.Answers.{Acts, ActsAs, AreOfLine, HasAnswer, IsOfLine, PerformsOne, Reads, WhereTold, shown_output, shown_report, spot_of, unspelled, well_count};
ghost use Rattle.shell_run.specs.Reports.{closing, file_output, listed, name_in};
ghost use Rattle.host_state.specs.FileLines.{file_step};
ghost use Rattle.shell_run.specs.JobAnswers.{IsJob};
ghost use Rattle.shell_run.specs.Jobs.{job_of};
ghost use Rattle.shell_run.specs.Texts.{counts_lines, ok_line};
ghost use Rattle.shell_run.specs.Transcript.{answer_if, answer_of, begun, commanded, performed, told_world};

use crate::command::{Shown, execute};
use crate::ending::Halt;
use crate::file_reply::push_file_reply;
use crate::job::{LineJob, job_of};
use crate::listing::push_sets;
use crate::outside::Outside;
use crate::reply::{push_counts, push_error, push_key, push_ok, push_text, push_total};
use crate::spot_line::{destroy, make_clone, take_snapshot};
use crate::task::{MAX_PARTS, Report};
use dataset_tree::{NoMemory, Refusal, SetName};
use encryption_roots::KeyCmd;
use file_dataset::FileCmd;
use host_state::Host;
use key_store::KeyState;
use shelf_store::Shelf;
use shell_lines::{Line, LineStop, parse_line};
use std::alloc::Global;

/// Carries out the line of this number, and adds what it prints. An `Err` says that the run is over: the
/// bytes spell no line, or the line isn't carried out to its end.
pub(crate) fn answer<B: Shelf, W: Outside>(
    alloc: Global,
    host: &mut Host<B>,
    outside: &mut W,
    number: u32,
    bytes: &[u8],
    output: &mut Vec<u8>,
) -> Result<(), Halt>
    requires { length bytes.now ≤ 65536 }
    ensures told { Acts number (W.told outside.old) (W.told outside.new) (λ made.
        WhereTold (told_world host.old (W.told outside.old) (W.script outside.old)) made (λ entries w.
        HasAnswer result (answer_if number entries w (line_of bytes.now 0))
        (told_world host.new (W.told outside.new) (W.script outside.new))
        output.old.items output.new.items made)) }
    ensures reads { Reads (result_err result) (W.script outside.old) (W.script outside.new)
        (W.faults outside.old) (W.faults outside.new) }
    ensures holds { W.holds outside.new ≡ W.holds outside.old }
{
    match parse_line(alloc, bytes, 0) {
        Ok(line) => carry_out(alloc, host, outside, number, &line, output),
        Err(stop) => Err(halt_of(number, stop)),
    }
}

/// How a run ends in whose line of this number some bytes spell no line.
fn halt_of(number: u32, stop: LineStop) -> Halt
    ensures { result ≡ unspelled number stop }
{
    match stop {
        LineStop::Bad { at } => Halt::BadLine { number, at },
        LineStop::NoMemory => Halt::NoMemory,
    }
}

fn carry_out<B: Shelf, W: Outside>(
    alloc: Global,
    host: &mut Host<B>,
    outside: &mut W,
    number: u32,
    line: &Line,
    output: &mut Vec<u8>,
) -> Result<(), Halt>
    requires { HasRecordSize line.now }
    ensures told { Acts number (W.told outside.old) (W.told outside.new) (λ made.
        WhereTold (told_world host.old (W.told outside.old) (W.script outside.old)) made (λ entries w.
        HasAnswer result (answer_of number entries w line.now)
        (told_world host.new (W.told outside.new) (W.script outside.new))
        output.old.items output.new.items made)) }
    ensures reads { Reads (result_err result) (W.script outside.old) (W.script outside.new)
        (W.faults outside.old) (W.faults outside.new) }
    ensures holds { W.holds outside.new ≡ W.holds outside.old }
{
    match job_for(alloc, host, line) {
        Ok(LineJob::Keys(task)) => perform(
            alloc,
            host,
            outside,
            number,
            &task.report,
            task.commands.as_slice(),
            output,
        ),
        Ok(LineJob::Files(command)) => serve(alloc, host, number, &command, output),
        Ok(LineJob::Snapshot(name)) => take_snapshot(host, outside, number, name, output),
        Ok(LineJob::Clone { from, name }) => make_clone(host, number, &from, &name, output),
        Ok(LineJob::Destroy(spot)) => destroy(host, number, spot, output),
        Err(_) => Err(Halt::NoMemory),
    }
}

/// What a line asks for.
fn job_for<B: Shelf>(alloc: Global, host: &Host<B>, line: &Line) -> Result<LineJob, NoMemory>
    ensures { IfOk result (λ job. IsJob job (job_of host.now.keys line.now)) }
{
    job_of(alloc, host.keys(), line)
}

/// Carries out a command about files, and adds what it prints.
fn serve<B: Shelf>(
    alloc: Global,
    host: &mut Host<B>,
    number: u32,
    command: &FileCmd,
    output: &mut Vec<u8>,
) -> Result<(), Halt>
    ensures state { host.old.tells ≡ true → OnOk result (host.new ≡ (file_step host.old command.now).state) }
    ensures text { host.old.tells ≡ true → OnOk result (output.new.items ≡ output.old.items
        ++ file_output number host.new.keys.tree.rows (file_step host.old command.now).reply) }
    ensures tells { host.new.tells ≡ host.old.tells }
    ensures stops { OnErr result (result ≡ Err Halt.NoMemory) }
{
    let reply = host.file(command)?;
    push_file_reply(output, number, host.keys().tree(), &reply)?;
    Ok(())
}

/// Carries out commands one after another, each as a part of its own, and adds the report of them.
fn perform<B: Shelf, W: Outside>(
    alloc: Global,
    host: &mut Host<B>,
    outside: &mut W,
    number: u32,
    report: &Report,
    commands: &[KeyCmd],
    output: &mut Vec<u8>,
) -> Result<(), Halt>
    requires few { length commands.now ≤ MAX_PARTS }
    requires of_line { AreOfLine commands.now }
    ensures told { Acts number (W.told outside.old) (W.told outside.new) (λ made.
        WhereTold (told_world host.old (W.told outside.old) (W.script outside.old)) made (λ entries w.
        HasAnswer result (performed number entries report.now (begun w) commands.now)
        (told_world host.new (W.told outside.new) (W.script outside.new)) output.old.items output.new.items made)) }
    ensures reads { Reads (result_err result) (W.script outside.old) (W.script outside.new)
        (W.faults outside.old) (W.faults outside.new) }
    ensures holds { W.holds outside.new ≡ W.holds outside.old }
{
    let mut tried: u64 = 0;
    let mut well: u64 = 0;
    for command in commands {
        let part = tried as u32;
        match perform_one(alloc, host, outside, number, part, report, command, output) {
            Ok(count) => well += count,
            Err(halt) => return Err(halt),
        }
        tried += 1;
    }
    push_closing(output, number, host, report, well, tried)
}

/// Carries out a command of this part of the line, adds the report of it, and answers how many commands went
/// well: one or none.
fn perform_one<B: Shelf, W: Outside>(
    alloc: Global,
    host: &mut Host<B>,
    outside: &mut W,
    number: u32,
    part: u32,
    report: &Report,
    command: &KeyCmd,
    output: &mut Vec<u8>,
) -> Result<u64, Halt>
    requires { IsOfLine command.now }
    ensures told { ActsAs number part (W.told outside.old) (W.told outside.new) (λ made.
        WhereTold (told_world host.old (W.told outside.old) (W.script outside.old)) made (λ entries w.
        PerformsOne result number report.now command.now (commanded (spot_of number part entries) w command.now)
        (told_world host.new (W.told outside.new) (W.script outside.new)) output.old.items output.new.items made)) }
    ensures few { IfOk result (λ count. count ≤ 1) }
    ensures reads { Reads (result_err result) (W.script outside.old) (W.script outside.new)
        (W.faults outside.old) (W.faults outside.new) }
    ensures holds { W.holds outside.new ≡ W.holds outside.old }
{
    match execute(alloc, host, outside, number, part, command) {
        Ok(shown) => push_report(output, number, host, report, command, &shown),
        Err(halt) => Err(halt),
    }
}

/// Adds the report of a command, and answers how many commands went well: one or none.
fn push_report<B: Shelf>(
    output: &mut Vec<u8>,
    number: u32,
    host: &Host<B>,
    report: &Report,
    command: &KeyCmd,
    shown: &Result<Shown, Refusal>,
) -> Result<u64, Halt>
    ensures text { OnOk result (output.new.items ≡ output.old.items
        ++ shown_report number host.now.keys.tree.rows report.now command.now shown.now) }
    ensures count { IfOk result (λ count. count ≡ well_count shown.now) }
    ensures stops { OnErr result (result ≡ Err Halt.NoMemory) }
{
    match report {
        Report::Replies => push_shown(output, number, host.keys(), shown)?,
        Report::Roots => push_key(output, number, host.keys().tree(), name_in(command), shown)?,
        Report::Sets | Report::Counts | Report::Refused(_) => {}
    }
    Ok(well_count(shown))
}

fn well_count(shown: &Result<Shown, Refusal>) -> u64
    ensures { result ≡ well_count shown.now }
{
    match shown {
        Ok(_) => 1,
        Err(_) => 0,
    }
}

/// The name of the dataset that a command is about.
fn name_in(command: &KeyCmd) -> &SetName
    ensures { result.now ≡ name_in command.now }
{
    match command {
        KeyCmd::Create { name, .. }
        | KeyCmd::Load { name, .. }
        | KeyCmd::Unload { name }
        | KeyCmd::Change { name, .. }
        | KeyCmd::Inherit { name, .. }
        | KeyCmd::Mount { name }
        | KeyCmd::Unmount { name }
        | KeyCmd::Get { name, .. }
        | KeyCmd::Clone { name, .. }
        | KeyCmd::Receive { name, .. }
        | KeyCmd::Destroy { name, .. } => name,
    }
}

/// Adds what a line reports behind its commands.
fn push_closing<B: Shelf>(
    output: &mut Vec<u8>,
    number: u32,
    host: &mut Host<B>,
    report: &Report,
    well: u64,
    tried: u64,
) -> Result<(), Halt>
    ensures text { OnOk result (output.new.items ≡ output.old.items
        ++ closing number host.old report.now well tried) }
    ensures stops { OnErr result (result ≡ Err Halt.NoMemory) }
    ensures same { host.new ≡ host.old }
{
    match report {
        Report::Replies => {}
        Report::Roots => push_total(output, number, well, tried)?,
        Report::Sets => push_list(output, number, host)?,
        Report::Counts => push_users(output, number, host)?,
        Report::Refused(why) => push_error(output, number, host.keys().tree(), why)?,
    }
    Ok(())
}

/// Adds how many use each key and each mapping, and that the line was carried out.
fn push_users<B: Shelf>(
    output: &mut Vec<u8>,
    number: u32,
    host: &mut Host<B>,
) -> Result<(), NoMemory>
    ensures text { OnOk result (output.new.items ≡ output.old.items
        ++ (counts_lines number host.old.keys ++ ok_line number)) }
    ensures same { host.new ≡ host.old }
{
    let counts = host.counts()?;
    push_counts(output, number, host.keys().tree(), &counts)?;
    push_ok(output, number)
}

/// Adds the rows of all datasets and their snapshots, and that the line was carried out.
fn push_list<B: Shelf>(output: &mut Vec<u8>, number: u32, host: &Host<B>) -> Result<(), NoMemory>
    ensures text { OnOk result (output.new.items ≡ output.old.items
        ++ (flat_map (listed number host.now) host.now.keys.tree.rows ++ ok_line number)) }
{
    push_sets(output, number, host, host.keys().tree().rows())?;
    push_ok(output, number)
}

/// Adds what a command shows, or why it is refused.
fn push_shown(
    output: &mut Vec<u8>,
    number: u32,
    keys: &KeyState,
    shown: &Result<Shown, Refusal>,
) -> Result<(), NoMemory>
    ensures text { OnOk result (output.new.items ≡ output.old.items
        ++ shown_output number keys.now.tree.rows shown.now) }
{
    match shown {
        Ok(Shown::Done) => push_ok(output, number),
        Ok(Shown::Text(text)) => push_text(output, number, text.as_bytes()),
        Err(why) => push_error(output, number, keys.tree(), why),
    }
}

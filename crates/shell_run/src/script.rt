// The lines of the script: how a run takes them.
ghost use Rattle.std.specs.Prelude.{◌≡◌, ◌<◌, IfErr, IfOk, List, None, Some, length, ℕ};
ghost use Rattle.std.specs.Result.{result_err};
ghost use Rattle.edge_io.specs.Told.{unread};
ghost use Rattle.shell_run.specs.Answers.{PromptGives, PromptStops, Reads};
ghost use Rattle.shell_run.specs.Endings.{SourceFaults};
ghost use Rattle.shell_run.specs.Progress.{IsNextLine, NoneTaken};
ghost use Rattle.shell_run.specs.Script.{script_of, within_limits};

use crate::ending::{Ending, Halt};
use edge_io::{LineError, LineReader, MAX_LINE, Source};
use std::alloc::Global;

/// The most lines of a script.
pub(crate) const MAX_LINES: u32 = 1048576;

/// Takes the next line, and counts it. An `Err` says how the run ends.
pub(crate) fn take_line<S: Source>(
    next: &mut u32,
    reader: &mut LineReader,
    source: &mut S,
) -> Result<Vec<u8>, Ending>
    ensures line { IfOk result (λ line. IsNextLine line.items
        (script_of next.old (unread reader.old (S.left source.old)))
        (script_of next.new (unread reader.new (S.left source.new)))) }
    ensures none { IfErr result (λ ending. NoneTaken ending (script_of next.old (unread reader.old (S.left source.old)))
        (script_of next.new (unread reader.new (S.left source.new)))) }
    ensures faults { SourceFaults (result_err result) (S.faults source.old) (S.faults source.new) }
{
    let number = *next;
    match reader.next(source) {
        Ok(None) => Err(Ending::Done),
        Ok(Some(line)) => {
            if number > MAX_LINES {
                return Err(Ending::BadLine { number, at: 0 });
            }
            *next = number + 1;
            Ok(line)
        }
        Err(LineError::Long) => Err(Ending::BadLine {
            number,
            at: place_of_long(number),
        }),
        Err(LineError::Failed) => Err(Ending::ReadFault),
        Err(LineError::NoMemory) => Err(Ending::NoMemory),
    }
}

/// Takes the next line where it answers a prompt, and counts it: the material behind its `<`. Where it
/// doesn't, the material is empty.
pub(crate) fn take_prompt<S: Source>(
    alloc: Global,
    next: &mut u32,
    reader: &mut LineReader,
    source: &mut S,
) -> Result<Vec<u8>, Halt>
    ensures given { IfOk result (λ material. PromptGives material.items
        (script_of next.old (unread reader.old (S.left source.old)))
        (script_of next.new (unread reader.new (S.left source.new)))) }
    ensures stops { IfErr result (λ halt. PromptStops halt
        (script_of next.old (unread reader.old (S.left source.old)))) }
    ensures reads { Reads (result_err result) (script_of next.old (unread reader.old (S.left source.old)))
        (script_of next.new (unread reader.new (S.left source.new))) (S.faults source.old) (S.faults source.new) }
{
    let number = *next;
    match reader.next_prompt(source) {
        Ok(None) => Ok(Vec::new(alloc)),
        Ok(Some(material)) => {
            if number > MAX_LINES {
                return Err(Halt::BadLine { number, at: 0 });
            }
            *next = number + 1;
            Ok(material)
        }
        Err(LineError::Long) => Err(Halt::BadLine {
            number,
            at: place_of_long(number),
        }),
        Err(LineError::Failed) => Err(Halt::ReadFault),
        Err(LineError::NoMemory) => Err(Halt::NoMemory),
    }
}

/// Where the line of this number is bad that is too long.
fn place_of_long(number: u32) -> u32
    ensures { (line : List ℕ) → MAX_LINE < length line → Some result ≡ within_limits number line Some None }
{
    if number > MAX_LINES {
        0
    } else {
        MAX_LINE as u32
    }
}

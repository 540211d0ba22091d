// What is done in a trial and what is told, as rows of tables.
use crate::trial::Trial;
use dataset_tree::{Refusal, Stop};
use file_dataset::{FileRow, Wrote};

/// What is done with a trial, or asked of it. A file is named by a byte.
#[derive(Clone, Copy)]
pub(crate) enum Step {
    Touch(u8),
    /// Makes as many files as a head may have.
    TouchAll,
    /// Writes from a place on so many of a byte.
    Write(u64, u8, usize),
    Cut(u64),
    Remove(u8),
    /// Reads of a file from a place on so many bytes.
    Read(u8, u64, u32),
    /// Tests a head.
    Verify(u32),
    /// Alters the block at an address.
    Alter(u64),
    FailAfter(u64),
    /// The files: how many, and the length of the first.
    Files,
    /// The draws and blocks that are used.
    Used,
    /// The refusal that the newest entry tells, and the draws and blocks before it.
    Newest,
    /// How many entries the log has.
    Entries,
    /// The levels of the first file's tree.
    Levels,
}

/// What a step gives.
#[derive(Clone, Copy, PartialEq)]
pub(crate) enum Told {
    Done,
    Refused(Refusal),
    /// The blocks that were sealed, and the number of the last one's salt.
    Wrote(u32, u64),
    Nothing,
    Byte(u8),
    Bytes(u8, u8),
    /// More than two bytes.
    Many,
    Blocks(u64),
    Files(usize, Option<u64>),
    Used(u64, u64),
    Newest(Option<(Refusal, u64, u32)>),
    Entries(u32),
    Levels(Option<u8>),
}

/// The file that is written and cut.
pub(crate) const FILE: u8 = b'f';

fn refused(stop: Stop) -> Result<Told, Stop> {
    match stop {
        Stop::Refused(why) => Ok(Told::Refused(why)),
        Stop::NoMemory => Err(Stop::NoMemory),
    }
}

fn done(answer: Result<(), Stop>) -> Result<Told, Stop> {
    match answer {
        Ok(()) => Ok(Told::Done),
        Err(stop) => refused(stop),
    }
}

fn wrote(answer: Result<Wrote, Stop>) -> Result<Told, Stop> {
    match answer {
        Ok(Wrote { blocks, number }) => Ok(Told::Wrote(blocks, number)),
        Err(stop) => refused(stop),
    }
}

fn bytes_told(bytes: &[u8]) -> Told {
    match bytes {
        [] => Told::Nothing,
        [one] => Told::Byte(*one),
        [one, two] => Told::Bytes(*one, *two),
        _ => Told::Many,
    }
}

fn read(answer: Result<Vec<u8>, Stop>) -> Result<Told, Stop> {
    match answer {
        Ok(bytes) => Ok(bytes_told(bytes.as_slice())),
        Err(stop) => refused(stop),
    }
}

fn counted(answer: Result<u64, Stop>) -> Result<Told, Stop> {
    match answer {
        Ok(count) => Ok(Told::Blocks(count)),
        Err(stop) => refused(stop),
    }
}

fn listed(answer: Result<Vec<FileRow>, Stop>) -> Result<Told, Stop> {
    match answer {
        Ok(rows) => Ok(Told::Files(rows.len(), rows.first().map(|row| row.length))),
        Err(stop) => refused(stop),
    }
}

// What the family tells of itself.
fn shown(trial: &Trial, step: Step) -> Told {
    match step {
        Step::Used => {
            let (draws, blocks) = trial.used();
            Told::Used(draws, blocks)
        },
        Step::Newest => Told::Newest(trial.last_refusal()),
        Step::Levels => Told::Levels(trial.levels()),
        _ => Told::Entries(trial.entries()),
    }
}

fn carried_out(trial: &mut Trial, step: Step) -> Result<Told, Stop> {
    match step {
        Step::Touch(file) => done(trial.touch(&[file])),
        Step::TouchAll => done(trial.touch_all()),
        Step::Write(from, byte, count) => wrote(trial.write(&[FILE], from, byte, count)),
        Step::Cut(to) => done(trial.cut(&[FILE], to)),
        Step::Remove(file) => done(trial.remove(&[file])),
        Step::Read(file, from, len) => read(trial.read(&[file], from, len)),
        Step::Verify(head) => counted(trial.count(head)),
        Step::Files => listed(trial.files()),
        Step::Alter(addr) => {
            trial.alter(addr)?;
            Ok(Told::Done)
        },
        Step::FailAfter(calls) => {
            trial.fail_after(calls);
            Ok(Told::Done)
        },
        _ => Ok(shown(trial, step)),
    }
}

/// The first row of which the trial tells something else.
pub(crate) fn first_wrong(trial: &mut Trial, rows: &[(Step, Told)]) -> Result<Option<usize>, Stop> {
    for (at, (step, want)) in rows.iter().enumerate() {
        if carried_out(trial, *step)? != *want {
            return Ok(Some(at));
        }
    }
    Ok(None)
}

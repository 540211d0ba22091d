//! The shell over the real outside: the words of the command line, standard input and output, key files by
//! path, and the system's random bytes.
#![tactic(auto)]

ghost use Rattle.std.specs.Prelude.{◌≡◌, [], IfOk};

use dataset_tree::NoMemory;
use edge_io::{Reading, SystemEntropy, SystemKeyFiles, Writing};
use shelf_store::MemShelf;
use shell_run::{Found, run_alone};
use std::alloc::{AllocError, Global};
use std::env;
use std::io::ErrorKind;
use std::process::ExitCode;
use std::rt::Env;

/// The status where no memory was found before the run began.
const NO_MEMORY: u8 = 12;

fn main(rt: HostRuntime) -> ExitCode {
    let alloc = rt.alloc();
    match start(&rt, alloc) {
        Ok((words, mut found)) => {
            let mut script = Reading::new(rt.stdin());
            let mut out = Writing::new(rt.stdout());
            let mut files = SystemKeyFiles::new(&rt);
            let mut entropy = SystemEntropy::new(&rt);
            let status = run_alone::<_, _, _, _, MemShelf>(
                alloc,
                &words,
                &mut script,
                &mut out,
                &mut files,
                &mut entropy,
                &mut found,
            );
            ExitCode::from(status)
        }
        Err(_) => {
            let _ = println!(rt; "no memory");
            ExitCode::from(NO_MEMORY)
        }
    }
}

/// The words behind the program's name, and an empty list of failed takings.
fn start<R: Env + AllocGlobal>(rt: &R, alloc: Global) -> Result<(Vec<String>, Found), NoMemory>
    ensures { IfOk result (λ made. made.1 ≡ []) }
{
    let words = command_line(rt, alloc)?;
    let found = Found::new(alloc)?;
    Ok((words, found))
}

/// Words that aren't text can't be those of a command line, so an empty word stands for them.
fn command_line<R: Env + AllocGlobal>(rt: &R, alloc: Global) -> Result<Vec<String>, NoMemory> {
    let mut words = Vec::new(alloc);
    match env::args(rt) {
        Ok(all) => {
            for word in all.skip(1) {
                words.push(word)?;
            }
        }
        Err(error) => {
            if matches!(error.kind(), ErrorKind::OutOfMemory) {
                return Err(AllocError);
            }
            words.push(String::new(alloc))?;
        }
    }
    Ok(words)
}

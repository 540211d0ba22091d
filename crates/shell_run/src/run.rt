// A run: the lines of a script, one after another.
ghost use Rattle.std.specs.Prelude.{◌≡◌, ◌≢◌, ◌≤◌, ◌⊎◌, [], IfErr, IfOk, IfSome, OnErr, OnOk, None, Some, is_some, length, map, string_bytes, true};
ghost use Rattle.std.specs.Io.KnownBytes.{Appends};
ghost use Rattle.edge_io.specs.Faults.{HasCause, Rose};
ghost use Rattle.shell_lines.specs.Grammar.{line_of};
ghost use Rattle.shell_run.specs.Answers.{Acts, WhereTold};
ghost use Rattle.shell_run.specs.Endings.{closing_line, SourceFaults, SinkFaults, ClosesAs};
ghost use Rattle.host_state.specs.Hosts.{no_host};
ghost use Rattle.shell_run.specs.Outer.{Outer, calls_of};
ghost use Rattle.shell_run.specs.Progress.{Ends, EndsInLine, GoesPast, LineRan, Replied, RunsFrom, TookCut};
ghost use Rattle.shell_run.specs.Ran.{IsAnswered, Printed, Ran, WroteLast};
ghost use Rattle.shell_run.specs.Script.{script_of};
ghost use Rattle.shell_run.specs.Texts.{usage_line};
ghost use Rattle.shell_run.specs.Transcript.{answer_if, told_transcript, told_world, run_from, transcript};
ghost use Rattle.shell_run.specs.Words.{default_limit, limit_of};

use crate::answer::answer;
use crate::ending::Ending;
use crate::found::Found;
use crate::outside::{Lent, Outside};
use crate::reply::push_bad;
use crate::script::MAX_LINES;
use crate::words::limit_of;
use edge_io::{Entropy, Failed, KeyFiles, LineReader, Sink, Source};
use host_state::Host;
use salt_rotation::MAX_SALT_USES;
use shelf_store::Shelf;
use std::alloc::Global;

const USAGE_LINE: &[u8] = b"usage: zfs_shell [--max-salt-uses N] [--generate N]\n";

const READ_FAULT_LINE: &[u8] = b"read fault\n";

const NO_MEMORY_LINE: &[u8] = b"no memory\n";

/// Runs a script over key files and a source of entropy, prints its replies, and answers the status of the program:
///
/// - 0: the script was read to its end.
/// - 2: `words` aren't in the form, which is nothing, or `--max-salt-uses` with a number from 1 to 400000000 as the
///   next word or behind `=`; the last line of output is the usage.
/// - 3: a line isn't in the language or is one too many; the last line is `N bad AT`.
/// - 4: the script couldn't be read; the last line is `read fault`.
/// - 5: a reply couldn't be written.
/// - 12: an allocation was refused; the last line is `no memory`.
///
/// A failed taking of key material or entropy is answered by its line's refusal, and listed in `found`.
pub fn run_alone<S: Source, O: Sink, F: KeyFiles, E: Entropy, B: Shelf>(
    alloc: Global,
    words: &[String],
    script: &mut S,
    out: &mut O,
    files: &mut F,
    entropy: &mut E,
    found: &mut Found,
) -> u8
    requires { found.old ≡ [] }

    // What is told of the outside before and after the run, and how far the run came of the
    // transcript in which the listed takings fail.
    ensures ran { let before : Outer = record {
      files = F.files files.old;
      fetches = calls_of (F.calls files.old) (F.failing files.old) (F.faults files.old);
      entropy = E.left entropy.old;
      fills = calls_of (E.calls entropy.old) (E.failing entropy.old) (E.faults entropy.old);
      found = found.old;
    } in
        let after : Outer = record {
          files = F.files files.new;
          fetches = calls_of (F.calls files.new) (F.failing files.new) (F.faults files.new);
          entropy = E.left entropy.new;
          fills = calls_of (E.calls entropy.new) (E.failing entropy.new) (E.faults entropy.new);
          found = found.new;
        } in
        let run = told_transcript B.tells (map string_bytes words.now) (S.left script.old) before found.new in
        let unprinted : Printed = record { taken = O.taken out.old; faults = O.faults out.old } in
        let printed : Printed = record { taken = O.taken out.new; faults = O.faults out.new } in
        Ran run result unprinted printed before after }
    ensures read_to_its_end { result ≡ 0 →
        IfSome (S.left script.old) (λ bytes. S.left script.new ≡ Some []) }

    // Told or not, each status has its cause.
    ensures statuses { IsAnswered result ⊎ (result ≡ 4) ⊎ (result ≡ 5) ⊎ (result ≡ 12) }
    ensures read_fault { result ≡ 4 → Rose (S.faults script.old) (S.faults script.new) }
    ensures write_fault { result ≡ 5 → Rose (O.faults out.old) (O.faults out.new) }
    ensures no_read_fault { result ≢ 4 → S.faults script.new ≡ S.faults script.old }
    ensures no_write_fault { result ≡ 0 → O.faults out.new ≡ O.faults out.old }
    ensures complete { ¬ Rose (S.faults script.old) (S.faults script.new) →
        ¬ Rose (O.faults out.old) (O.faults out.new) → IsAnswered result ⊎ (result ≡ 12) }
    ensures read_faults { S.faults script.old ≤ S.faults script.new }
    ensures write_faults { O.faults out.old ≤ O.faults out.new }

    // Words that aren't in the form give the usage, and neither reads nor takes anything.
    ensures usage { limit_of (map string_bytes words.now) ≡ None → result ≡ 2 }
    ensures usage_only { result ≡ 2 → limit_of (map string_bytes words.now) ≡ None }
    ensures usage_line { limit_of (map string_bytes words.now) ≡ None →
        WroteLast usage_line (O.taken out.old) (O.taken out.new)
        (O.faults out.old) (O.faults out.new) }
    ensures usage_takes_nothing { limit_of (map string_bytes words.now) ≡ None → (script.new ≡ script.old)
        × (files.new ≡ files.old) × (entropy.new ≡ entropy.old) × (found.new ≡ []) }

    // Where no count rose, nothing is listed.
    ensures none_failed { ¬ Rose (F.faults files.old) (F.faults files.new) →
        ¬ Rose (E.faults entropy.old) (E.faults entropy.new) → found.new ≡ [] }
{
    let ending = run_words::<S, O, F, E, B>(alloc, words, script, out, files, entropy, found);
    close(alloc, ending, out).status()
}

/// Does what the words ask, and says how the run ends.
fn run_words<S: Source, O: Sink, F: KeyFiles, E: Entropy, B: Shelf>(
    alloc: Global,
    words: &[String],
    script: &mut S,
    out: &mut O,
    files: &mut F,
    entropy: &mut E,
    found: &mut Found,
) -> Ending
    ensures told { let before : Outer = record {
      files = F.files files.old;
      fetches = calls_of (F.calls files.old) (F.failing files.old) (F.faults files.old);
      entropy = E.left entropy.old;
      fills = calls_of (E.calls entropy.old) (E.failing entropy.old) (E.faults entropy.old);
      found = found.old;
    } in
        let after : Outer = record {
          files = F.files files.new;
          fetches = calls_of (F.calls files.new) (F.failing files.new) (F.faults files.new);
          entropy = E.left entropy.new;
          fills = calls_of (E.calls entropy.new) (E.failing entropy.new) (E.faults entropy.new);
          found = found.new;
        } in
        RunsFrom (λ line. line ≤ MAX_LINES) before after (λ found made.
        IfSome (told_world (no_host B.tells default_limit) before (script_of 1 (S.left script.old))) (λ w.
        Ends result (transcript (map string_bytes words.now) found w) made (O.taken out.old) (O.taken out.new))) }
    ensures end { result ≡ Ending.Done → IfSome (S.left script.old) (λ bytes. S.left script.new ≡ Some []) }
    ensures usage { limit_of (map string_bytes words.now) ≡ None → result ≡ Ending.Usage }
    ensures usage_only { result ≡ Ending.Usage → limit_of (map string_bytes words.now) ≡ None }
    ensures nothing { limit_of (map string_bytes words.now) ≡ None → (script.new ≡ script.old)
        × (files.new ≡ files.old) × (entropy.new ≡ entropy.old) × (found.new ≡ found.old) × (out.new ≡ out.old) }
    ensures source { SourceFaults (Some result) (S.faults script.old) (S.faults script.new) }
    ensures sink { SinkFaults (Some result) (O.faults out.old) (O.faults out.new) }
{
    match limit_of(words) {
        None => Ending::Usage,
        Some(limit) => {
            run_limited::<S, O, F, E, B>(alloc, limit, script, out, files, entropy, found)
        }
    }
}

/// Runs a script on a host that holds nothing, and says how it ended. A salt serves `limit` draws.
fn run_limited<S: Source, O: Sink, F: KeyFiles, E: Entropy, B: Shelf>(
    alloc: Global,
    limit: u64,
    script: &mut S,
    out: &mut O,
    files: &mut F,
    entropy: &mut E,
    found: &mut Found,
) -> Ending
    requires least { 1 ≤ limit }
    requires most { limit ≤ MAX_SALT_USES }
    ensures told { let before : Outer = record {
      files = F.files files.old;
      fetches = calls_of (F.calls files.old) (F.failing files.old) (F.faults files.old);
      entropy = E.left entropy.old;
      fills = calls_of (E.calls entropy.old) (E.failing entropy.old) (E.faults entropy.old);
      found = found.old;
    } in
        let after : Outer = record {
          files = F.files files.new;
          fetches = calls_of (F.calls files.new) (F.failing files.new) (F.faults files.new);
          entropy = E.left entropy.new;
          fills = calls_of (E.calls entropy.new) (E.failing entropy.new) (E.faults entropy.new);
          found = found.new;
        } in
        RunsFrom (λ line. line ≤ MAX_LINES) before after (λ found made.
        IfSome (told_world (no_host B.tells limit) before (script_of 1 (S.left script.old))) (λ w.
        Ends result (run_from found w) made (O.taken out.old) (O.taken out.new))) }
    ensures end { result ≡ Ending.Done → IfSome (S.left script.old) (λ bytes. S.left script.new ≡ Some []) }
    ensures not_usage { result ≢ Ending.Usage }
    ensures source { SourceFaults (Some result) (S.faults script.old) (S.faults script.new) }
    ensures sink { SinkFaults (Some result) (O.faults out.old) (O.faults out.new) }
{
    match make::<B>(alloc, limit) {
        Ok((mut reader, mut host)) => {
            run_script(
                alloc,
                &mut reader,
                &mut host,
                script,
                out,
                files,
                entropy,
                found,
            )
        }
        Err(ending) => ending,
    }
}

/// Runs a script, and says how it ended.
fn run_script<S: Source, O: Sink, F: KeyFiles, E: Entropy, B: Shelf>(
    alloc: Global,
    reader: &mut LineReader,
    host: &mut Host<B>,
    script: &mut S,
    out: &mut O,
    files: &mut F,
    entropy: &mut E,
    found: &mut Found,
) -> Ending
    requires reader { reader.old ≡ [] }
    ensures told { let before : Outer = record {
      files = F.files files.old;
      fetches = calls_of (F.calls files.old) (F.failing files.old) (F.faults files.old);
      entropy = E.left entropy.old;
      fills = calls_of (E.calls entropy.old) (E.failing entropy.old) (E.faults entropy.old);
      found = found.old;
    } in
        let after : Outer = record {
          files = F.files files.new;
          fetches = calls_of (F.calls files.new) (F.failing files.new) (F.faults files.new);
          entropy = E.left entropy.new;
          fills = calls_of (E.calls entropy.new) (E.failing entropy.new) (E.faults entropy.new);
          found = found.new;
        } in
        RunsFrom (λ line. line ≤ MAX_LINES) before after (λ found made.
        IfSome (told_world host.old before (script_of 1 (S.left script.old))) (λ w.
        Ends result (run_from found w) made (O.taken out.old) (O.taken out.new))) }
    ensures end { result ≡ Ending.Done → IfSome (S.left script.old) (λ bytes. S.left script.new ≡ Some []) }
    ensures not_usage { result ≢ Ending.Usage }
    ensures source { SourceFaults (Some result) (S.faults script.old) (S.faults script.new) }
    ensures sink { SinkFaults (Some result) (O.faults out.old) (O.faults out.new) }
{
    let mut outside = Lent {
        next: 1,
        reader,
        source: script,
        files,
        entropy,
        found,
    };
    let ending = run_lines(alloc, host, out, &mut outside);
    ending
}

/// A reader that has taken nothing, and a host that holds nothing, of whose salts each serves `limit` draws.
fn make<B: Shelf>(alloc: Global, limit: u64) -> Result<(LineReader, Host<B>), Ending>
    requires least { 1 ≤ limit }
    requires most { limit ≤ MAX_SALT_USES }
    ensures made { IfOk result (λ made. (made.0 ≡ []) × (made.1 ≡ no_host B.tells limit)) }
    ensures none { IfErr result (λ ending. ending ≡ Ending.NoMemory) }
{
    match (Host::new(alloc, limit), LineReader::new(alloc)) {
        (Ok(host), Ok(reader)) => Ok((reader, host)),
        _ => Err(Ending::NoMemory),
    }
}

/// Runs the lines that are left of the script.
pub(crate) fn run_lines<O: Sink, B: Shelf, W: Outside>(
    alloc: Global,
    host: &mut Host<B>,
    out: &mut O,
    outside: &mut W,
) -> Ending
    ensures told { RunsFrom (λ line. line ≤ MAX_LINES) (W.told outside.old) (W.told outside.new) (λ found made.
        IfSome (told_world host.old (W.told outside.old) (W.script outside.old)) (λ w.
        Ends result (run_from found w) made (O.taken out.old) (O.taken out.new))) }
    ensures end { result ≡ Ending.Done
        → IfSome (W.script outside.old).ahead (λ ahead. (W.script outside.new).ahead ≡ Some []) }
    ensures not_usage { result ≢ Ending.Usage }
    ensures source { SourceFaults (Some result) (W.faults outside.old) (W.faults outside.new) }
    ensures sink { SinkFaults (Some result) (O.faults out.old) (O.faults out.new) }
    ensures holds { W.holds outside.new ≡ W.holds outside.old }
{
    let mut reply = Vec::new(alloc);
    'lines: loop {
        if let Some(ending) = run_line(alloc, host, &mut reply, out, outside) {
            return ending;
        }
    }
}

/// Takes the next line, carries it out and prints its reply; else says how the run ends.
fn run_line<O: Sink, B: Shelf, W: Outside>(
    alloc: Global,
    host: &mut Host<B>,
    reply: &mut Vec<u8>,
    out: &mut O,
    outside: &mut W,
) -> Option<Ending>
    ensures told { RunsFrom (λ line. (line ≡ (W.script outside.old).next)
        × (line ≤ MAX_LINES)) (W.told outside.old) (W.told outside.new) (λ found made.
        IfSome (told_world host.old (W.told outside.old) (W.script outside.old)) (λ w.
        LineRan result found w (told_world host.new (W.told outside.new) (W.script outside.new))
        (O.taken out.old) (O.taken out.new) made)) }
    ensures past { GoesPast result (W.script outside.old) (W.script outside.new) }
    ensures not_usage { result ≢ Some Ending.Usage }
    ensures source { SourceFaults result (W.faults outside.old) (W.faults outside.new) }
    ensures sink { SinkFaults result (O.faults out.old) (O.faults out.new) }
    ensures holds { W.holds outside.new ≡ W.holds outside.old }
{
    let number = outside.next();
    match outside.take_line() {
        Ok(line) => reply_to(alloc, number, host, line.as_slice(), reply, out, outside),
        Err(ending) => Some(ending),
    }
}

/// Carries out a line and prints its reply; else says how the run ends.
fn reply_to<O: Sink, B: Shelf, W: Outside>(
    alloc: Global,
    number: u32,
    host: &mut Host<B>,
    line: &[u8],
    reply: &mut Vec<u8>,
    out: &mut O,
    outside: &mut W,
) -> Option<Ending>
    requires { length line.now ≤ 65536 }
    ensures told { Acts number (W.told outside.old) (W.told outside.new) (λ made.
        WhereTold (told_world host.old (W.told outside.old) (W.script outside.old)) made (λ entries w.
        Replied result (answer_if number entries w (line_of line.now 0))
        (told_world host.new (W.told outside.new) (W.script outside.new))
        (O.taken out.old) (O.taken out.new) made)) }
    ensures later { (W.script outside.old).next ≤ (W.script outside.new).next }
    ensures stays { result ≡ None → is_some (W.script outside.old).ahead ≡ true
        → is_some (W.script outside.new).ahead ≡ true }
    ensures kinds { EndsInLine result }
    ensures source { SourceFaults result (W.faults outside.old) (W.faults outside.new) }
    ensures sink { SinkFaults result (O.faults out.old) (O.faults out.new) }
    ensures holds { W.holds outside.new ≡ W.holds outside.old }
{
    reply.clear();
    match answer(alloc, host, outside, number, line, reply) {
        Ok(()) => match write_all(out, reply.as_slice()) {
            Ok(()) => None,
            Err(_) => Some(Ending::WriteFault),
        },
        Err(halt) => Some(halt.ending()),
    }
}

/// Prints the last line of a run that ends so. Where no memory is left for it, the run ends with that.
fn close<O: Sink>(alloc: Global, ending: Ending, out: &mut O) -> Ending
    ensures ending { ClosesAs ending result }
    ensures told { WroteLast (closing_line result) (O.taken out.old) (O.taken out.new) (O.faults out.old)
        (O.faults out.new) }
    ensures later { O.faults out.old ≤ O.faults out.new }
    ensures silent { closing_line result ≡ []
        → (O.faults out.new ≡ O.faults out.old) × (O.taken out.new ≡ O.taken out.old) }
{
    match ending {
        Ending::Done | Ending::WriteFault => {}
        Ending::Usage => write_last(out, USAGE_LINE),
        Ending::ReadFault => write_last(out, READ_FAULT_LINE),
        Ending::NoMemory => write_last(out, NO_MEMORY_LINE),
        Ending::BadLine { number, at } => {
            let mut line = Vec::new(alloc);
            if push_bad(&mut line, number, at).is_err() {
                write_last(out, NO_MEMORY_LINE);
                return Ending::NoMemory;
            }
            write_last(out, line.as_slice());
        }
    }
    ending
}

/// Writes the last line. Where that fails the status stays.
fn write_last<O: Sink>(out: &mut O, line: &[u8])
    ensures told { WroteLast line.now (O.taken out.old) (O.taken out.new) (O.faults out.old) (O.faults out.new) }
    ensures later { O.faults out.old ≤ O.faults out.new }
{
    let _ = write_all(out, line);
}

/// Writes all these bytes.
fn write_all<O: Sink>(out: &mut O, bytes: &[u8]) -> Result<(), Failed>
    ensures written { OnOk result (Appends (O.taken out.old) (O.taken out.new) bytes.now) }
    ensures part { OnErr result (TookCut bytes.now (O.taken out.old) (O.taken out.new)) }
    ensures cause { HasCause (O.faults out.old) (O.faults out.new) result }
{
    let mut rest = bytes;
    while !rest.is_empty() {
        let count = out.write(rest)?;
        rest = &rest[count..];
    }
    Ok(())
}

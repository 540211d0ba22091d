// From the bytes of a line to what it says.
ghost use Rattle.std.specs.Prelude.{◌≡◌, ◌<◌, ◌≤◌, ◌^◌, ◌∷◌, [], if◌then◌else◌, List, ℕ, Result, Some, None, length, map, IfOk, IfSome};
ghost use Rattle.std.specs.List.{list_any};
ghost use Rattle.shell_lines.specs.declared.line.Line.{Line};
ghost use Rattle.shell_lines.specs.Sized.{HasRecordSize};
ghost use Rattle.shell_lines.specs.Grammar.{Spells, line_of, is_comment, first_unprintable};
ghost use Rattle.std.specs.Str.{bytes_eq};
ghost use Rattle.shell_lines.specs.Left.{words_left, end_of, read_by, placed, texts, Reads};
ghost use Rattle.shell_lines.specs.Commands.{commands, create, create_form, load_key, load_form, load_below_form, load_all_form, unload_key, unload_form, unload_below_form, unload_all_form, change_key, change_form, inherit_form, mount_form, unmount_form, get_form, file_commands, touch_form, remove_form, write_form, read_form, truncate_form, files_form, verify_form, snapshot_commands, snapshot_form, clone_form, destroy_form};
ghost use Rattle.shell_lines.specs.Forms.{line_from, command_from, form_from, end_from, better};
ghost use Rattle.shell_lines.specs.Reading.{word_from, a_name, a_property, the_word, a_number, some_bytes, number_up_to, bytes_in, property_of};

use crate::line::{Bytes, Line, LineStop, Word};
use crate::option::{is_set, parse_options};
use crate::setting::{OptionKind, load_place, number_of, options_with};
use crate::words::{PlacedWord, Words};
use encryption_roots::Prop;
use hex::FromHexError;
use std::alloc::{AllocError, Global};

/// The greatest number that 10 decimal digits write.
const GREATEST_NUMBER: u64 = 9_999_999_999;

/// The most bytes that a line reads.
const LONGEST_READ: u64 = 16_384;

/// The options of `create`.
const CREATE_OPTIONS: [OptionKind; 5] = [
    OptionKind::Encryption,
    OptionKind::KeyFormat,
    OptionKind::KeyLocation,
    OptionKind::Iterations,
    OptionKind::RecordSize,
];

/// The options of `load-key` of one dataset.
const LOAD_OPTIONS: [OptionKind; 2] = [OptionKind::CheckOnly, OptionKind::LoadFrom];

/// The options of `load-key -r`.
const LOAD_BELOW_OPTIONS: [OptionKind; 2] = [OptionKind::CheckOnly, OptionKind::Recursive];

/// The options of `load-key -a`.
const LOAD_ALL_OPTIONS: [OptionKind; 2] = [OptionKind::CheckOnly, OptionKind::AllRoots];

/// The options of `change-key` without `-i`.
const CHANGE_OPTIONS: [OptionKind; 4] = [
    OptionKind::LoadFirst,
    OptionKind::KeyFormat,
    OptionKind::KeyLocation,
    OptionKind::Iterations,
];

/// The options of `change-key -i`.
const INHERIT_OPTIONS: [OptionKind; 2] = [OptionKind::LoadFirst, OptionKind::Inherit];

/// The line that these bytes spell, without its line feed, in a section of `inside` workers, or outside one
/// where that is 0.
///
/// # Errors
/// `Bad` exactly where they spell no line of the language, with the offset of the first byte outside 0x20 to
/// 0x7e, else of the first word that can't stand where it stands, else, where a word is missing, with the
/// line's length.
pub fn parse_line(alloc: Global, bytes: &[u8], inside: u32) -> Result<Line, LineStop>
    requires { length bytes.now < 2 ^ 32 }
    ensures spells { Spells result (line_of bytes.now inside) }
    ensures record_size { IfOk result HasRecordSize }
{
    if is_comment(bytes) {
        return Ok(Line::Silent);
    }
    if let Some(at) = first_unprintable(bytes) {
        return Err(LineStop::Bad { at: at as u32 });
    }
    let mut words = Words::new(bytes);
    let Some(command) = words.next() else {
        return Ok(Line::Silent);
    };
    if inside != 0 {
        return Err(LineStop::Bad { at: 0 });
    }
    parse_command(alloc, command, words)
}

fn is_comment(bytes: &[u8]) -> bool
    ensures { result ≡ is_comment bytes.now }
{
    matches!(bytes, [b'#' | b'<', ..])
}

/// The offset of the first byte that stands in no line.
fn first_unprintable(bytes: &[u8]) -> Option<usize>
    ensures { result ≡ first_unprintable bytes.now }
{
    bytes.iter().position(|byte| !matches!(byte, b' '..=b'~'))
}

fn parse_command(alloc: Global, command: PlacedWord<'_>, words: Words<'_>) -> Result<Line, LineStop>
    ensures { Spells result (line_from (end_of words.entry) commands (placed command.entry ∷ words_left words.entry)) }
{
    if command.text == b"create".as_slice() {
        parse_create(alloc, words)
    } else if command.text == b"load-key".as_slice() {
        parse_load(alloc, words)
    } else if command.text == b"unload-key".as_slice() {
        parse_unload(alloc, words)
    } else if command.text == b"change-key".as_slice() {
        parse_change(alloc, words)
    } else if command.text == b"mount".as_slice() {
        parse_mount(alloc, words)
    } else if command.text == b"unmount".as_slice() {
        parse_unmount(alloc, words)
    } else if command.text == b"get".as_slice() {
        parse_get(alloc, words)
    } else {
        parse_file_command(alloc, command, words)
    }
}

/// The lines that work on files, and those behind them.
fn parse_file_command(
    alloc: Global,
    command: PlacedWord<'_>,
    words: Words<'_>,
) -> Result<Line, LineStop>
    ensures { Spells result
        (command_from (end_of words.entry) file_commands (placed command.entry) (words_left words.entry)) }
{
    if command.text == b"touch".as_slice() {
        parse_touch(alloc, words)
    } else if command.text == b"rm".as_slice() {
        parse_remove(alloc, words)
    } else if command.text == b"write".as_slice() {
        parse_write(alloc, words)
    } else if command.text == b"read".as_slice() {
        parse_read(alloc, words)
    } else if command.text == b"truncate".as_slice() {
        parse_truncate(alloc, words)
    } else if command.text == b"ls".as_slice() {
        parse_files(alloc, words)
    } else if command.text == b"verify".as_slice() {
        parse_verify(alloc, words)
    } else {
        parse_snapshot_command(alloc, command, words)
    }
}

/// The lines that work on snapshots, and those without words.
fn parse_snapshot_command(
    alloc: Global,
    command: PlacedWord<'_>,
    words: Words<'_>,
) -> Result<Line, LineStop>
    ensures { Spells result
        (command_from (end_of words.entry) snapshot_commands (placed command.entry) (words_left words.entry)) }
{
    if command.text == b"snapshot".as_slice() {
        parse_snapshot(alloc, words)
    } else if command.text == b"clone".as_slice() {
        parse_clone(alloc, words)
    } else if command.text == b"destroy".as_slice() {
        parse_destroy(alloc, words)
    } else if command.text == b"list".as_slice() {
        parse_end(Some(Line::List), words)
    } else if command.text == b"counts".as_slice() {
        parse_end(Some(Line::Counts), words)
    } else {
        Err(command.wrong())
    }
}

/// `create`, options, `NAME`
fn parse_create(alloc: Global, mut words: Words<'_>) -> Result<Line, LineStop>
    ensures { Spells result (form_from (end_of words.entry) create.options create_form (words_left words.entry)) }
{
    let settings = parse_options(alloc, &CREATE_OPTIONS, &mut words)?;
    let name = parse_name(alloc, &[b"-o"], &mut words)?;
    let opts = options_with(settings);
    parse_end(Some(Line::Create { name, opts }), words)
}

/// `load-key` in one of its forms
fn parse_load(alloc: Global, words: Words<'_>) -> Result<Line, LineStop>
    ensures { Spells result (read_by load_key words.entry) }
{
    let below_or_all = better(load_below(alloc, words), load_all(alloc, words));
    better(load_one(alloc, words), below_or_all)
}

/// `load-key`, `-n` and `-L LOC` or one of them or none, `NAME`
fn load_one(alloc: Global, mut words: Words<'_>) -> Result<Line, LineStop>
    ensures { Spells result
        (form_from (end_of words.entry) load_key.options load_form (words_left words.entry)) }
{
    let settings = parse_options(alloc, &LOAD_OPTIONS, &mut words)?;
    let name = parse_name(alloc, &[b"-n", b"-L", b"-r", b"-a"], &mut words)?;
    let check_only = is_set(&settings, OptionKind::CheckOnly);
    let place = load_place(settings);
    parse_end(
        Some(Line::LoadKey {
            name,
            check_only,
            place,
        }),
        words,
    )
}

/// `load-key -r`, `-n` or none, `NAME`
fn load_below(alloc: Global, mut words: Words<'_>) -> Result<Line, LineStop>
    ensures { Spells result
        (form_from (end_of words.entry) load_key.options load_below_form (words_left words.entry)) }
{
    let settings = parse_options(alloc, &LOAD_BELOW_OPTIONS, &mut words)?;
    let name = parse_name(alloc, &[b"-n", b"-L", b"-r", b"-a"], &mut words)?;
    let check_only = is_set(&settings, OptionKind::CheckOnly);
    let line = Line::LoadBelow { name, check_only };
    parse_end(
        made_if(is_set(&settings, OptionKind::Recursive), line),
        words,
    )
}

/// `load-key -a`, `-n` or none
fn load_all(alloc: Global, mut words: Words<'_>) -> Result<Line, LineStop>
    ensures { Spells result
        (form_from (end_of words.entry) load_key.options load_all_form (words_left words.entry)) }
{
    let settings = parse_options(alloc, &LOAD_ALL_OPTIONS, &mut words)?;
    let check_only = is_set(&settings, OptionKind::CheckOnly);
    let line = Line::LoadAll { check_only };
    parse_end(
        made_if(is_set(&settings, OptionKind::AllRoots), line),
        words,
    )
}

/// `unload-key` in one of its forms
fn parse_unload(alloc: Global, words: Words<'_>) -> Result<Line, LineStop>
    ensures { Spells result (read_by unload_key words.entry) }
{
    let below_or_all = better(unload_below(alloc, words), unload_all(words));
    better(unload_one(alloc, words), below_or_all)
}

/// `unload-key NAME`
fn unload_one(alloc: Global, mut words: Words<'_>) -> Result<Line, LineStop>
    ensures { Spells result
        (form_from (end_of words.entry) unload_key.options unload_form (words_left words.entry)) }
{
    let name = parse_name(alloc, &[b"-r", b"-a"], &mut words)?;
    parse_end(Some(Line::UnloadKey { name }), words)
}

/// `unload-key -r NAME`
fn unload_below(alloc: Global, mut words: Words<'_>) -> Result<Line, LineStop>
    ensures { Spells result
        (form_from (end_of words.entry) unload_key.options unload_below_form (words_left words.entry)) }
{
    parse_word(b"-r", &mut words)?;
    let name = parse_name(alloc, &[b"-r", b"-a"], &mut words)?;
    parse_end(Some(Line::UnloadBelow { name }), words)
}

/// `unload-key -a`
fn unload_all(mut words: Words<'_>) -> Result<Line, LineStop>
    ensures { Spells result
        (form_from (end_of words.entry) unload_key.options unload_all_form (words_left words.entry)) }
{
    parse_word(b"-a", &mut words)?;
    parse_end(Some(Line::UnloadAll), words)
}

/// `change-key` in one of its forms
fn parse_change(alloc: Global, words: Words<'_>) -> Result<Line, LineStop>
    ensures { Spells result (read_by change_key words.entry) }
{
    better(change_key(alloc, words), inherit_key(alloc, words))
}

/// `change-key`, `-l` or none, options, `NAME`
fn change_key(alloc: Global, mut words: Words<'_>) -> Result<Line, LineStop>
    ensures { Spells result
        (form_from (end_of words.entry) change_key.options change_form (words_left words.entry)) }
{
    let settings = parse_options(alloc, &CHANGE_OPTIONS, &mut words)?;
    let name = parse_name(alloc, &[b"-o", b"-l", b"-i"], &mut words)?;
    let load_first = is_set(&settings, OptionKind::LoadFirst);
    let opts = options_with(settings);
    let line = Line::ChangeKey {
        name,
        opts,
        load_first,
    };
    parse_end(Some(line), words)
}

/// `change-key -i`, `-l` or none, `NAME`
fn inherit_key(alloc: Global, mut words: Words<'_>) -> Result<Line, LineStop>
    ensures { Spells result
        (form_from (end_of words.entry) change_key.options inherit_form (words_left words.entry)) }
{
    let settings = parse_options(alloc, &INHERIT_OPTIONS, &mut words)?;
    let name = parse_name(alloc, &[b"-o", b"-l", b"-i"], &mut words)?;
    let load_first = is_set(&settings, OptionKind::LoadFirst);
    let line = Line::InheritKey { name, load_first };
    parse_end(made_if(is_set(&settings, OptionKind::Inherit), line), words)
}

/// `mount NAME`
fn parse_mount(alloc: Global, mut words: Words<'_>) -> Result<Line, LineStop>
    ensures { Spells result (form_from (end_of words.entry) [] mount_form (words_left words.entry)) }
{
    let name = parse_name(alloc, &[], &mut words)?;
    parse_end(Some(Line::Mount { name }), words)
}

/// `unmount NAME`
fn parse_unmount(alloc: Global, mut words: Words<'_>) -> Result<Line, LineStop>
    ensures { Spells result (form_from (end_of words.entry) [] unmount_form (words_left words.entry)) }
{
    let name = parse_name(alloc, &[], &mut words)?;
    parse_end(Some(Line::Unmount { name }), words)
}

/// `get PROP NAME`
fn parse_get(alloc: Global, mut words: Words<'_>) -> Result<Line, LineStop>
    ensures { Spells result (form_from (end_of words.entry) [] get_form (words_left words.entry)) }
{
    let prop = parse_property(&mut words)?;
    let name = parse_name(alloc, &[], &mut words)?;
    parse_end(Some(Line::Get { prop, name }), words)
}

/// `touch NAME FILE`
fn parse_touch(alloc: Global, mut words: Words<'_>) -> Result<Line, LineStop>
    ensures { Spells result (form_from (end_of words.entry) [] touch_form (words_left words.entry)) }
{
    let name = parse_name(alloc, &[], &mut words)?;
    let file = parse_name(alloc, &[], &mut words)?;
    parse_end(Some(Line::Touch { name, file }), words)
}

/// `rm NAME FILE`
fn parse_remove(alloc: Global, mut words: Words<'_>) -> Result<Line, LineStop>
    ensures { Spells result (form_from (end_of words.entry) [] remove_form (words_left words.entry)) }
{
    let name = parse_name(alloc, &[], &mut words)?;
    let file = parse_name(alloc, &[], &mut words)?;
    parse_end(Some(Line::Remove { name, file }), words)
}

/// `write NAME FILE NUM HEX`
fn parse_write(alloc: Global, mut words: Words<'_>) -> Result<Line, LineStop>
    ensures { Spells result (form_from (end_of words.entry) [] write_form (words_left words.entry)) }
{
    let name = parse_name(alloc, &[], &mut words)?;
    let file = parse_name(alloc, &[], &mut words)?;
    let from = parse_number(GREATEST_NUMBER, &mut words)?;
    let bytes = parse_bytes(alloc, &mut words)?;
    let line = Line::Write {
        name,
        file,
        from,
        bytes,
    };
    parse_end(Some(line), words)
}

/// `read SPOT FILE NUM NUM`
fn parse_read(alloc: Global, mut words: Words<'_>) -> Result<Line, LineStop>
    ensures { Spells result (form_from (end_of words.entry) [] read_form (words_left words.entry)) }
{
    let spot = parse_name(alloc, &[], &mut words)?;
    let file = parse_name(alloc, &[], &mut words)?;
    let from = parse_number(GREATEST_NUMBER, &mut words)?;
    let len = parse_number(LONGEST_READ, &mut words)? as u32;
    let line = Line::Read {
        spot,
        file,
        from,
        len,
    };
    parse_end(Some(line), words)
}

/// `truncate NAME FILE NUM`
fn parse_truncate(alloc: Global, mut words: Words<'_>) -> Result<Line, LineStop>
    ensures { Spells result (form_from (end_of words.entry) [] truncate_form (words_left words.entry)) }
{
    let name = parse_name(alloc, &[], &mut words)?;
    let file = parse_name(alloc, &[], &mut words)?;
    let to = parse_number(GREATEST_NUMBER, &mut words)?;
    parse_end(Some(Line::Truncate { name, file, to }), words)
}

/// `ls SPOT`
fn parse_files(alloc: Global, mut words: Words<'_>) -> Result<Line, LineStop>
    ensures { Spells result (form_from (end_of words.entry) [] files_form (words_left words.entry)) }
{
    let spot = parse_name(alloc, &[], &mut words)?;
    parse_end(Some(Line::Files { spot }), words)
}

/// `verify SPOT`
fn parse_verify(alloc: Global, mut words: Words<'_>) -> Result<Line, LineStop>
    ensures { Spells result (form_from (end_of words.entry) [] verify_form (words_left words.entry)) }
{
    let spot = parse_name(alloc, &[], &mut words)?;
    parse_end(Some(Line::Verify { spot }), words)
}

/// `snapshot SNAPNAME`
fn parse_snapshot(alloc: Global, mut words: Words<'_>) -> Result<Line, LineStop>
    ensures { Spells result (form_from (end_of words.entry) [] snapshot_form (words_left words.entry)) }
{
    let name = parse_name(alloc, &[], &mut words)?;
    parse_end(Some(Line::Snapshot { name }), words)
}

/// `clone SNAPNAME NAME`
fn parse_clone(alloc: Global, mut words: Words<'_>) -> Result<Line, LineStop>
    ensures { Spells result (form_from (end_of words.entry) [] clone_form (words_left words.entry)) }
{
    let from = parse_name(alloc, &[], &mut words)?;
    let name = parse_name(alloc, &[], &mut words)?;
    parse_end(Some(Line::Clone { from, name }), words)
}

/// `destroy SPOT`
fn parse_destroy(alloc: Global, mut words: Words<'_>) -> Result<Line, LineStop>
    ensures { Spells result (form_from (end_of words.entry) [] destroy_form (words_left words.entry)) }
{
    let spot = parse_name(alloc, &[], &mut words)?;
    parse_end(Some(Line::Destroy { spot }), words)
}

/// The name that stands next, for a command with these options.
fn parse_name(alloc: Global, options: &[&[u8]], words: &mut Words<'_>) -> Result<Word, LineStop>
    ensures reads { Reads result (words_left words.new)
        (word_from (end_of words.old) (texts options.now) a_name (words_left words.old)) }
    ensures end { end_of words.new ≡ end_of words.old }
{
    let Some(word) = words.next() else {
        return Err(words.missing());
    };
    if is_option(options, word.text) {
        return Err(word.wrong());
    }
    Ok(Word::from_slice(alloc, word.text)?)
}

fn is_option(options: &[&[u8]], word: &[u8]) -> bool
    ensures { result ≡ list_any (λ option. bytes_eq option word.now) (texts options.now) }
{
    options.contains(&word)
}

/// The word that has to stand next.
fn parse_word(text: &[u8], words: &mut Words<'_>) -> Result<(), LineStop>
    ensures reads { Reads result (words_left words.new)
        (word_from (end_of words.old) [] (the_word text.now) (words_left words.old)) }
    ensures end { end_of words.new ≡ end_of words.old }
{
    let Some(word) = words.next() else {
        return Err(words.missing());
    };
    if word.text == text {
        Ok(())
    } else {
        Err(word.wrong())
    }
}

/// The number that stands next, at most this one.
fn parse_number(most: u64, words: &mut Words<'_>) -> Result<u64, LineStop>
    ensures reads { Reads result (words_left words.new)
        (word_from (end_of words.old) [] (a_number most) (words_left words.old)) }
    ensures end { end_of words.new ≡ end_of words.old }
    ensures most { IfOk result (λ number. number ≤ most) }
{
    let Some(word) = words.next() else {
        return Err(words.missing());
    };
    number_up_to(most, word.text).ok_or(word.wrong())
}

/// The number of 1 to 10 decimal digits, where it is at most this one.
fn number_up_to(most: u64, word: &[u8]) -> Option<u64>
    ensures number { result ≡ number_up_to most word.now }
    ensures most { IfSome result (λ number. number ≤ most) }
{
    match number_of(word) {
        Some(number) if number <= most => Some(number),
        _ => None,
    }
}

/// The bytes that stand next in hexadecimal digits.
fn parse_bytes(alloc: Global, words: &mut Words<'_>) -> Result<Bytes, LineStop>
    ensures reads { Reads result (words_left words.new)
        (word_from (end_of words.old) [] some_bytes (words_left words.old)) }
    ensures end { end_of words.new ≡ end_of words.old }
{
    let Some(word) = words.next() else {
        return Err(words.missing());
    };
    match bytes_in(alloc, word.text) {
        Ok(Some(bytes)) => Ok(bytes),
        Ok(None) => Err(word.wrong()),
        Err(_) => Err(LineStop::NoMemory),
    }
}

/// The bytes that 2 or more hexadecimal digits spell; None where the word is no such digits.
fn bytes_in(alloc: Global, word: &[u8]) -> Result<Option<Bytes>, AllocError>
    ensures { IfOk result (λ bytes. bytes ≡ bytes_in word.now) }
{
    if word.len() < 2 {
        return Ok(None);
    }
    match hex::decode(alloc, word) {
        Ok(bytes) => Ok(Some(Bytes::new(bytes))),
        Err(FromHexError::OutOfMemory) => Err(AllocError),
        Err(_) => Ok(None),
    }
}

/// The property that stands next.
fn parse_property(words: &mut Words<'_>) -> Result<Prop, LineStop>
    ensures reads { Reads result (words_left words.new)
        (word_from (end_of words.old) [] a_property (words_left words.old)) }
    ensures end { end_of words.new ≡ end_of words.old }
{
    let Some(word) = words.next() else {
        return Err(words.missing());
    };
    property_of(word.text).ok_or(word.wrong())
}

/// The property of this name.
fn property_of(word: &[u8]) -> Option<Prop>
    ensures { result ≡ property_of word.now }
{
    if word == b"keystatus".as_slice() {
        return Some(Prop::KeyStatus);
    }
    if word == b"encryption".as_slice() {
        return Some(Prop::Encryption);
    }
    if word == b"encryptionroot".as_slice() {
        return Some(Prop::EncryptionRoot);
    }
    if word == b"keyformat".as_slice() {
        return Some(Prop::KeyFormat);
    }
    if word == b"keylocation".as_slice() {
        return Some(Prop::KeyLocation);
    }
    if word == b"pbkdf2iters".as_slice() {
        return Some(Prop::Pbkdf2Iters);
    }
    if word == b"recordsize".as_slice() {
        return Some(Prop::RecordSize);
    }
    None
}

/// The line where the option that makes it stands, else nothing.
fn made_if(stands: bool, line: Line) -> Option<Line>
    ensures { result ≡ (if stands then Some line else None) }
{
    if stands { Some(line) } else { None }
}

/// Of what two forms make of the same words a line, else the stop that comes later.
fn better(first: Result<Line, LineStop>, other: Result<Line, LineStop>) -> Result<Line, LineStop>
    ensures { (one two : Result Line ℕ) → Spells first one → Spells other two → Spells result (better one two) }
{
    match (first, other) {
        (Ok(line), _) | (Err(LineStop::Bad { .. }), Ok(line)) => Ok(line),
        (Err(LineStop::Bad { at }), Err(LineStop::Bad { at: place })) => {
            Err(LineStop::Bad { at: at.max(place) })
        }
        _ => Err(LineStop::NoMemory),
    }
}

/// What the words in front make, where no word is left: `None` lacks a word.
fn parse_end(made: Option<Line>, mut words: Words<'_>) -> Result<Line, LineStop>
    ensures { Spells result (end_from (end_of words.entry) made (words_left words.entry)) }
{
    if let Some(word) = words.next() {
        return Err(word.wrong());
    }
    match made {
        Some(line) => Ok(line),
        None => Err(words.missing()),
    }
}

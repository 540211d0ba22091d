ghost use Rattle.std.specs.Prelude.{◌<◌, ◌^◌, length};

use super::*;
use dataset_tree::{Format, Suite};
use encryption_roots::Location;
use std::alloc::Global;
use std::test::Fail;

/// Lines that aren't in the language, and the offset at which each is bad.
const BAD_LINES: [(&[u8], u32); 62] = [
    (b"frob tank", 0),
    (b" #x", 1),
    (b"create  ", 8),
    (b"create a b", 9),
    (b"create -o", 9),
    (b"create a -o encryption=on", 9),
    (b"create -o encryption=on -o encryption=on a", 27),
    (b"create -o recordsize=0512 a", 10),
    (b"create -o keylocation=file://k a", 10),
    (b"create -o keyformat=Hex a", 10),
    (b"create -o keyformat=hex a b", 26),
    (b"create -o pbkdf2iters= a", 10),
    (b"create -o pbkdf2iters=+1 a", 10),
    (b"create -o pbkdf2iters=10000000000 a", 10),
    (
        b"create -o encryption=on -o keyformat=raw -o keylocation=prompt -o recordsize=512 \
          -o pbkdf2iters=1 -o a",
        98,
    ),
    (b"load-key", 8),
    (b"load-key a b", 11),
    (b"load-key -n", 11),
    (b"load-key -n -n tank", 12),
    (b"load-key tank -n", 14),
    (b"load-key -L", 11),
    (b"load-key -L x tank", 12),
    (b"load-key -L prompt -L prompt tank", 19),
    (b"load-key -a tank", 12),
    (b"load-key -n -r", 14),
    (b"load-key -r -a", 12),
    (b"load-key -r -L prompt tank", 12),
    (b"load-key -L prompt -r tank", 19),
    (b"unload-key -r", 13),
    (b"unload-key -r -a", 14),
    (b"unload-key -a tank", 14),
    (b"unload-key -n x", 14),
    (b"change-key -l", 13),
    (b"change-key -l -l tank", 14),
    (b"change-key tank -l", 16),
    (b"change-key -o encryption=on tank", 14),
    (b"change-key -o recordsize=512 tank", 14),
    (b"change-key -i -o keyformat=hex tank", 14),
    (b"change-key -o keyformat=hex -i tank", 28),
    (b"mount a -o", 8),
    (b"counts a", 7),
    (b"get", 3),
    (b"get foo tank", 4),
    (b"get keystatus", 13),
    (b"touch a", 7),
    (b"touch a f g", 10),
    (b"rm a -f f", 8),
    (b"write a f 0 0", 12),
    (b"write a f -1 00", 10),
    (b"read a f 0 16385", 11),
    (b"truncate a f 12345678901", 13),
    (b"ls", 2),
    (b"verify a b", 9),
    (b"snapshot", 8),
    (b"snapshot a@s b", 13),
    (b"clone a@s", 9),
    (b"destroy -r a", 11),
    (b"list x", 5),
    (b"list\tx", 4),
    (b"frob \x1f", 5),
    (b"create \x7f", 7),
    (b"list \x80", 5),
];

// Where these bytes stop to spell a line, if they do.
fn bad_at(alloc: Global, bytes: &[u8], inside: u32) -> Option<u32>
    requires { length bytes.now < 2 ^ 32 }
{
    match parse_line(alloc, bytes, inside) {
        Err(LineStop::Bad { at }) => Some(at),
        _ => None,
    }
}

#[test]
fn lines_are_bad_at_the_first_wrong_place(rt: HostRuntime) -> Result<(), Fail> {
    for (bytes, at) in BAD_LINES {
        assert!(rt; bytes.len() < 200);
        assert_eq!(rt; bad_at(rt.alloc(), bytes, 0), Some(at), "at {bytes:?}");
    }
    assert_eq!(rt; bad_at(rt.alloc(), b" list", 2), Some(0));
    assert_eq!(rt; bad_at(rt.alloc(), b" list\t", 2), Some(5));
    Ok(())
}

// Where a key is fetched, as a word says it but for `file://`.
fn place_of(place: &Option<Location>) -> &[u8] {
    match place {
        Some(Location::File(path)) => path.as_bytes(),
        Some(Location::Prompt) => b"prompt",
        None => b"",
    }
}

#[test]
fn options_stand_in_any_order(rt: HostRuntime) -> Result<(), Fail> {
    let bytes = b" create -o recordsize=512 -o pbkdf2iters=0000100000 -o keylocation=file:///k  \
        -o encryption=aes-192-gcm -o keyformat=hex -n ";
    let Line::Create { name, opts } = parse_line(rt.alloc(), bytes, 0)? else {
        return Err("no create".into());
    };
    assert_eq!(rt; name.as_bytes(), b"-n".as_slice());
    assert_eq!(rt; opts.suite, Some(Suite::Aes192Gcm));
    assert_eq!(rt; opts.format, Some(Format::Hex));
    assert_eq!(rt; place_of(&opts.place), b"/k".as_slice());
    assert_eq!(rt; opts.iters, Some(100_000));
    assert_eq!(rt; opts.block, Some(512));
    Ok(())
}

#[test]
fn a_write_has_the_bytes_of_its_digits(rt: HostRuntime) -> Result<(), Fail> {
    let Line::Write {
        name,
        file,
        from,
        bytes,
    } = parse_line(rt.alloc(), b"write a f 0010 0aFf", 0)?
    else {
        return Err("no write".into());
    };
    assert_eq!(rt;
        (name.as_bytes(), file.as_bytes()),
        (b"a".as_slice(), b"f".as_slice())
    );
    assert_eq!(rt; (from, bytes.as_bytes()), (10, [0x0a, 0xff].as_slice()));
    file_lines_say_what_they_spell();
    Ok(())
}

/// Lines that load a key: whether it is only tested, and where it is fetched.
const LOADS: [(&[u8], bool, &[u8]); 5] = [
    (b"load-key t", false, b""),
    (b"load-key -n t", true, b""),
    (b"load-key -L prompt t", false, b"prompt"),
    (b"load-key -n -L file:///k t", true, b"/k"),
    (b"load-key -L file:///k -n t", true, b"/k"),
];

#[test]
fn a_key_is_loaded_as_the_options_say(rt: HostRuntime) -> Result<(), Fail> {
    for (bytes, only_tested, fetched) in LOADS {
        assert!(rt; bytes.len() < 100);
        let line = parse_line(rt.alloc(), bytes, 0)?;
        let Line::LoadKey {
            name,
            check_only,
            place,
        } = line
        else {
            return Err("no load-key".into());
        };
        assert_eq!(rt; name.as_bytes(), b"t".as_slice());
        assert_eq!(rt; check_only, only_tested, "at {bytes:?}");
        assert_eq!(rt; place_of(&place), fetched, "at {bytes:?}");
    }
    Ok(())
}

/// Lines about keys: the form of each, and whether `-n` or `-l` stands in it.
const KEY_LINES: [(&[u8], &[u8], bool); 13] = [
    (b"load-key -o", b"load", false),
    (b"load-key -r tank", b"load below", false),
    (b"load-key -n -r tank", b"load below", true),
    (b"load-key -a", b"load all", false),
    (b"load-key -a -n", b"load all", true),
    (b"unload-key -n", b"unload", false),
    (b"unload-key -r tank", b"unload below", false),
    (b"unload-key -a", b"unload all", false),
    (b"change-key tank", b"change", false),
    (b"change-key -o keyformat=hex -l tank", b"change", true),
    (b"change-key -i tank", b"inherit", false),
    (b"change-key -i -l tank", b"inherit", true),
    (b"change-key -l -i tank", b"inherit", true),
];

fn form_of(line: &Line) -> (&[u8], bool) {
    match line {
        Line::LoadKey { check_only, .. } => (b"load", *check_only),
        Line::LoadBelow { check_only, .. } => (b"load below", *check_only),
        Line::LoadAll { check_only } => (b"load all", *check_only),
        Line::UnloadKey { .. } => (b"unload", false),
        Line::UnloadBelow { .. } => (b"unload below", false),
        Line::UnloadAll => (b"unload all", false),
        Line::ChangeKey { load_first, .. } => (b"change", *load_first),
        Line::InheritKey { load_first, .. } => (b"inherit", *load_first),
        _ => (b"other", false),
    }
}

#[test]
fn lines_about_keys_have_their_forms(rt: HostRuntime) -> Result<(), Fail> {
    let alloc = rt.alloc();
    for (bytes, form, flag) in KEY_LINES {
        assert!(rt; bytes.len() < 100);
        let line = parse_line(alloc, bytes, 0)?;
        assert_eq!(rt; form_of(&line).0, form, "at {bytes:?}");
        assert_eq!(rt; form_of(&line).1, flag, "at {bytes:?}");
    }
    Ok(())
}

#[test]
fn each_command_has_a_line(rt: HostRuntime) -> Result<(), Fail> {
    let alloc = rt.alloc();
    assert!(rt; matches!(parse_line(alloc, b"", 0)?, Line::Silent));
    assert!(rt; matches!(parse_line(alloc, b"<\x00\xff", 2)?, Line::Silent));
    assert!(rt; matches!(parse_line(alloc, b"get encryption a", 0)?, Line::Get { .. }));
    assert!(rt; matches!(parse_line(alloc, b"mount -o", 0)?, Line::Mount { .. }));
    assert!(rt; matches!(parse_line(alloc, b"unmount a", 0)?, Line::Unmount { .. }));
    assert!(rt;
        matches!(
            parse_line(alloc, b"snapshot a@s", 0)?,
            Line::Snapshot { .. }
        )
    );
    assert!(rt; matches!(parse_line(alloc, b"clone a@s b", 0)?, Line::Clone { .. }));
    assert!(rt; matches!(parse_line(alloc, b"destroy -r", 0)?, Line::Destroy { .. }));
    assert!(rt; matches!(parse_line(alloc, b"  list ", 0)?, Line::List));
    assert!(rt; matches!(parse_line(alloc, b"counts", 0)?, Line::Counts));
    bad_at_the_first_wrong_word();
    options_say_what_they_spell();
    record_sizes_are_in_form();
    snapshot_lines_say_what_they_spell();
    words_are_the_longest_runs();
    Ok(())
}

// What runs print, and what faults leave of them.
ghost use Rattle.std.specs.Prelude.{None, [], IfOk, ◌≡◌};

use super::*;
use edge_io::{Failed, MemEntropy, MemKeyFiles, MemSink, MemSource, Sink, Source};
use shelf_store::MemShelf;
use std::alloc::Global;
use std::test::Fail;

// A source that gives a few bytes at a time, and whose call of this number fails.
#[derive(Drop)]
struct Pieces<'a> {
    left: &'a [u8],
    calls: u32,
    fails_at: u32,
    faults: u64,
}

impl Source for Pieces<'_> {
    ghost left = { λ _. None };

    ghost faults = { λ pieces. pieces.faults };

    fn read(&mut self, out: &mut [u8]) -> Result<usize, Failed> {
        let number = self.calls;
        self.calls = number.saturating_add(1);
        if number == self.fails_at {
            self.faults = self.faults.saturating_add(1);
            return Err(Failed);
        }
        let count = out.len().min(self.left.len()).min(5);
        out[..count].copy_from_slice(&self.left[..count]);
        self.left = &self.left[count..];
        Ok(count)
    }
}

fn nothing_found(alloc: Global) -> Result<Found, Fail>
    ensures { IfOk result (λ found. found ≡ []) }
{
    match Found::new(alloc) {
        Ok(found) => Ok(found),
        Err(error) => Err(Fail::from(error)),
    }
}

// The file `/k` of 32 bytes `k`, whose calls with a number in a list fail.
fn key_files(alloc: Global, fails: &[u32]) -> Result<MemKeyFiles, Fail> {
    let mut files = Vec::new(alloc);
    files.push((String::from_str(alloc, "/k")?, vec![in alloc; b'k'; 32]?))?;
    Ok(MemKeyFiles::new(files, Vec::from_slice(alloc, fails)?))
}

// So many bytes of entropy, whose calls with a number in a list fail.
fn entropy_of(alloc: Global, len: usize, fails: &[u32]) -> Result<MemEntropy, Fail> {
    let bytes = vec![in alloc; 7; len]?;
    Ok(MemEntropy::new(bytes, Vec::from_slice(alloc, fails)?))
}

// Runs a script without words, over entropy for two seeds and no failing call.
fn run_plain<S: Source, O: Sink>(alloc: Global, source: &mut S, sink: &mut O) -> Result<u8, Fail> {
    let mut files = key_files(alloc, &[])?;
    let mut entropy = entropy_of(alloc, 64, &[])?;
    let mut found = nothing_found(alloc)?;
    Ok(run_alone::<_, _, _, _, MemShelf>(
        alloc,
        &[],
        source,
        sink,
        &mut files,
        &mut entropy,
        &mut found,
    ))
}

const PROMPTS: &[u8] = b"create -o keyformat=hex t
<0000000000000000000000000000000000000000000000000000000000000000
unload-key t
load-key t
list
load-key t
<0000000000000000000000000000000000000000000000000000000000000000";

const PROMPT_REPLIES: &[u8] =
    b"1 ok\n3 ok\n4 error 10 BadMaterial short\n5 set t aes-256-gcm root unavailable\n5 ok\n6 ok\n";

#[test]
fn a_failing_source_leaves_a_front_and_the_last_line(rt: HostRuntime) -> Result<(), Fail> {
    let alloc = rt.alloc();
    for fails_at in 0..45u32 {
        let mut source = Pieces {
            left: PROMPTS,
            calls: 0,
            fails_at,
            faults: 0,
        };
        let mut sink = MemSink::new(Vec::new(alloc));
        let status = run_plain(alloc, &mut source, &mut sink)?;
        if source.faults == 0 {
            assert_eq!(rt; (status, sink.bytes()), (0, PROMPT_REPLIES));
        } else {
            assert_eq!(rt; status, 4);
            let front = sink.bytes().strip_suffix(b"read fault\n".as_slice());
            assert!(rt; front.is_some_and(|front| PROMPT_REPLIES.starts_with(front)));
        }
    }
    Ok(())
}

#[test]
fn a_failing_sink_leaves_a_front(rt: HostRuntime) -> Result<(), Fail> {
    let alloc = rt.alloc();
    for call in 0..6u32 {
        let mut source = MemSource::new(Vec::from_slice(alloc, PROMPTS)?, Vec::new(alloc));
        let mut sink = MemSink::new(Vec::from_slice(alloc, &[call])?);
        let status = run_plain(alloc, &mut source, &mut sink)?;
        let all = sink.bytes().len() == PROMPT_REPLIES.len();
        assert_eq!(rt; status, if all { 0 } else { 5 });
        assert!(rt; PROMPT_REPLIES.starts_with(sink.bytes()));
        assert_eq!(rt; all, call == 5);
    }
    Ok(())
}

const KEYS: &[u8] = b"create -o keyformat=raw -o keylocation=file:///k tank
create -o keyformat=raw -o keylocation=file:///k lake
unload-key lake
load-key lake
create -o keyformat=raw -o keylocation=file:///k tank
get keystatus lake
";

const MANY_ROOTS: &[u8] = b"create -o keyformat=raw -o keylocation=file:///k a
create -o keyformat=raw -o keylocation=file:///k b
create -o keyformat=raw -o keylocation=file:///k b/c
unload-key -r b
unload-key -a
load-key -a
load-key -a
change-key b
change-key -i b/c
";

const SEEDS: &[u8] = b"create -o keyformat=raw -o keylocation=file:///k t
snapshot t
snapshot u@a
snapshot t@a
snapshot t@a
snapshot t@b
list
";

// A run of a script: which fetches and which fills fail, how many bytes of entropy there are, and then the
// replies and the failed takings, each with its line and part. Of the first script line 1 takes a seed
// although its key fails; line 5 makes a dataset only where line 1 has made none. Of the second the second of
// three fetches of line 6 fails, and the seed of line 8 behind a good key. Of the third each snapshot takes a seed,
// refused or not.
type Row = (
    &'static [u8],
    &'static [u32],
    &'static [u32],
    usize,
    &'static [u8],
    &'static [(u32, u32, FoundKind)],
);

const ROWS: [Row; 6] = [
    (
        KEYS,
        &[0],
        &[],
        96,
        b"1 error 12 KeyFault\n2 ok\n3 ok\n4 ok\n5 ok\n6 ok available\n",
        &[(1, 0, FoundKind::NewKey)],
    ),
    (
        KEYS,
        &[2],
        &[],
        64,
        b"1 ok\n2 ok\n3 ok\n4 error 12 KeyFault\n5 error 2 Exists\n6 ok unavailable\n",
        &[(4, 0, FoundKind::NewKey)],
    ),
    (
        KEYS,
        &[],
        &[0],
        64,
        b"1 error 13 EntropyFault\n2 ok\n3 ok\n4 ok\n5 ok\n6 ok available\n",
        &[(1, 0, FoundKind::Seed)],
    ),
    (
        KEYS,
        &[0, 1],
        &[0],
        31,
        b"1 error 12 KeyFault\n2 error 12 KeyFault\n3 error 1 NoSuch\n4 error 1 NoSuch\n5 error 13 EntropyFault\n\
          6 error 1 NoSuch\n",
        &[
            (1, 0, FoundKind::NewKey),
            (1, 0, FoundKind::Seed),
            (2, 0, FoundKind::NewKey),
            (2, 0, FoundKind::Seed),
            (5, 0, FoundKind::Seed),
        ],
    ),
    (
        MANY_ROOTS,
        &[4],
        &[3],
        160,
        b"1 ok\n2 ok\n3 ok\n4 key b ok\n4 key b/c ok\n4 ok 2/2\n5 key a ok\n5 ok 1/1\n\
          6 key a ok\n6 key b error 12 KeyFault\n6 key b/c ok\n6 ok 2/3\n7 key b ok\n7 ok 1/1\n\
          8 error 13 EntropyFault\n9 ok\n",
        &[(6, 1, FoundKind::NewKey), (8, 0, FoundKind::Seed)],
    ),
    (
        SEEDS,
        &[],
        &[2],
        144,
        b"1 ok\n2 error 3 BadName 1\n3 error 1 NoSuch\n4 ok\n5 error 2 Exists\n6 error 13 EntropyFault\n\
          7 set t aes-256-gcm root available\n7 snap t@a\n7 ok\n",
        &[(3, 0, FoundKind::Seed), (6, 0, FoundKind::Seed)],
    ),
];

#[test]
fn a_run_goes_on_behind_failed_takings_and_lists_them(rt: HostRuntime) -> Result<(), Fail> {
    let alloc = rt.alloc();
    for (script, fetches, fills, len, replies, failed) in ROWS {
        let mut source = MemSource::new(Vec::from_slice(alloc, script)?, Vec::new(alloc));
        let mut sink = MemSink::new(Vec::new(alloc));
        let mut files = key_files(alloc, fetches)?;
        let mut entropy = entropy_of(alloc, len, fills)?;
        let mut found = nothing_found(alloc)?;
        let status = run_alone::<_, _, _, _, MemShelf>(
            alloc,
            &[],
            &mut source,
            &mut sink,
            &mut files,
            &mut entropy,
            &mut found,
        );
        assert_eq!(rt; (status, sink.bytes()), (0, replies));
        let listed = found
            .entries()
            .iter()
            .map(|entry| (entry.line, entry.part, entry.what));
        assert!(rt; listed.eq(failed.iter().copied()));
    }
    Ok(())
}

const USAGE: &[u8] = b"usage: zfs_shell [--max-salt-uses N] [--generate N]\n";

// The words of command lines, each with the status of a run under them.
const WORDS: [(&[&str], u8); 19] = [
    (&[], 0),
    (&["--max-salt-uses", "1"], 0),
    (&["--max-salt-uses", "400000000"], 0),
    (&["--max-salt-uses=2"], 0),
    (&["--max-salt-uses=000000007"], 0),
    (&["--max-salt-uses", "0"], 2),
    (&["--max-salt-uses=0"], 2),
    (&["--max-salt-uses", "400000001"], 2),
    (&["--max-salt-uses=0000000001"], 2),
    (&["--max-salt-uses="], 2),
    (&["--max-salt-uses=", "2"], 2),
    (&["--max-salt-uses"], 2),
    (&["--max-salt-uses", "+2"], 2),
    (&["--max-salt-uses", "2", "--max-salt-uses", "2"], 2),
    (&["--max-salt-uses=2", "--max-salt-uses=2"], 2),
    (&["--"], 2),
    (&["--", "--max-salt-uses=2"], 2),
    (&["--generate", "2"], 2),
    (&[""], 2),
];

fn strings(alloc: Global, words: &[&str]) -> Result<Vec<String>, Fail> {
    let mut strings = Vec::new(alloc);
    for word in words {
        strings.push(String::from_str(alloc, word)?)?;
    }
    Ok(strings)
}

// Runs a script under these words, over entropy for three seeds.
fn run_under(alloc: Global, words: &[&str], script: &[u8], sink: &mut MemSink) -> Result<u8, Fail> {
    let words = strings(alloc, words)?;
    let mut source = MemSource::new(Vec::from_slice(alloc, script)?, Vec::new(alloc));
    let mut files = key_files(alloc, &[])?;
    let mut entropy = entropy_of(alloc, 96, &[])?;
    let mut found = nothing_found(alloc)?;
    Ok(run_alone::<_, _, _, _, MemShelf>(
        alloc,
        &words,
        &mut source,
        sink,
        &mut files,
        &mut entropy,
        &mut found,
    ))
}

#[test]
fn words_in_and_out_of_form(rt: HostRuntime) -> Result<(), Fail> {
    let alloc = rt.alloc();
    for (words, status) in WORDS {
        let mut sink = MemSink::new(Vec::new(alloc));
        let answered = run_under(alloc, words, b"list\n", &mut sink)?;
        let printed = if status == 0 {
            b"1 ok\n".as_slice()
        } else {
            USAGE
        };
        assert_eq!(rt; (answered, sink.bytes()), (status, printed));
    }
    Ok(())
}

const FILES: &[u8] = b"create -o keyformat=raw -o keylocation=file:///k -o recordsize=512 t
mount t
touch t f
write t f 510 0a0b0C0d
read t f 509 5
read t f 600 1
truncate t f 511
ls t
verify t
ls t@s
unmount t
unload-key t
read t f 0 1
load-key t
mount t
read t f 510 9
touch t f
write t f 4294967296 00
rm t f
read t f 0 1
touch t g:
ls t
";

const FILE_REPLIES: &[u8] = b"1 ok
2 ok
3 ok
4 ok 2 0
5 ok 000a0b0c0d
6 ok -
7 ok
8 file f 511
8 ok
9 ok 2
10 error 26 NoSnapshot
11 ok
12 ok
13 error 20 NotMounted
14 ok
15 ok
16 ok 0a
17 error 22 FileExists
18 error 23 TooBig 4294967296
19 ok
20 error 21 NoFile
21 error 3 BadName 1
22 ok
";

// The directory's block takes the first draw.
const WRITES: &[u8] = b"create -o keyformat=raw -o keylocation=file:///k -o recordsize=512 tank
mount tank
touch tank f
write tank f 0 01
write tank f 0 01
write tank f 0 01
write tank f 0 01
write tank f 0 01
";

const WRITE_REPLIES: &[u8] =
    b"1 ok\n2 ok\n3 ok\n4 ok 1 0\n5 ok 1 1\n6 ok 1 1\n7 ok 1 2\n8 ok 1 2\n";

const SNAPS: &[u8] = b"create -o keyformat=raw -o keylocation=file:///k -o recordsize=512 t
mount t
touch t f
write t f 0 01
snapshot t@b
write t f 0 02
snapshot t@a
clone t@b c
mount c
read c f 0 1
read t@b f 0 1
read t f 0 1
list
destroy t@b
destroy t@a
destroy t
destroy c
unmount c
destroy c
destroy t@b
unmount t
destroy t
clone t c
clone t@b c@
list
";

const SNAP_REPLIES: &[u8] = b"1 ok
2 ok
3 ok
4 ok 1 0
5 ok
6 ok 1 0
7 ok
8 ok
9 ok
10 ok 01
11 ok 01
12 ok 02
13 set t aes-256-gcm root available
13 snap t@b
13 snap t@a
13 set c aes-256-gcm inherit available
13 ok
14 error 18 HasClones
15 ok
16 error 17 HasChildren
17 error 19 Mounted
18 ok
19 ok
20 ok
21 ok
22 ok
23 error 3 BadName 1
24 error 3 BadName 1
25 ok
";

// The words of a run, its script and its replies.
const RUNS: [(&[&str], &[u8], &[u8]); 3] = [
    (&[], FILES, FILE_REPLIES),
    (&["--max-salt-uses", "2"], WRITES, WRITE_REPLIES),
    (&[], SNAPS, SNAP_REPLIES),
];

#[test]
fn a_run_writes_reads_and_makes_snapshots(rt: HostRuntime) -> Result<(), Fail> {
    let alloc = rt.alloc();
    for (words, script, replies) in RUNS {
        let mut sink = MemSink::new(Vec::new(alloc));
        let status = run_under(alloc, words, script, &mut sink)?;
        assert_eq!(rt; (status, sink.bytes()), (0, replies));
    }
    Ok(())
}

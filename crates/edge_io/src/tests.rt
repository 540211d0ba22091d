// Cuts and faults that no clause of a source rules in or out, and the files of the system.
ghost use Rattle.std.specs.Prelude.{None};

use crate::{
    Entropy, Failed, FetchError, KeyFiles, LineError, LineReader, MAX_LINE, MemKeyFiles, MemSink,
    MemSource, Reading, Sink, Source, SystemEntropy, SystemKeyFiles, Writing,
};
use std::test::Fail;
use std::{fs, io};

// A source that gives a few bytes at a time, and tells nothing.
#[derive(Drop)]
struct Pieces<'a> {
    left: &'a [u8],
    most: usize,
}

impl Source for Pieces<'_> {
    ghost left = { λ _. None };

    ghost faults = { λ _. 0 };

    fn read(&mut self, out: &mut [u8]) -> Result<usize, Failed> {
        let count = self.most.min(out.len()).min(self.left.len());
        out[..count].copy_from_slice(&self.left[..count]);
        self.left = &self.left[count..];
        Ok(count)
    }
}

// A writer that takes nothing.
#[derive(Drop)]
struct Full;

impl io::Write for Full {
    fn write(&mut self, _buf: &[u8]) -> io::Result<usize> {
        Ok(0)
    }

    fn flush(&mut self) -> io::Result<()> {
        Ok(())
    }
}

fn bytes_of(line: Result<Option<Vec<u8>>, LineError>) -> Result<Vec<u8>, Fail> {
    Ok(line?.ok_or("no line")?)
}

#[test]
fn lines_are_the_same_however_they_are_cut_into_reads(rt: HostRuntime) -> Result<(), Fail> {
    let alloc = rt.alloc();
    for most in [1, 2, 3, 64] {
        let mut source = Pieces {
            left: b"ab\r\n\nc\rd\r\n\r\r\nlast\r",
            most,
        };
        let mut reader = LineReader::new(alloc)?;
        for line in [b"ab".as_slice(), b"", b"c\rd", b"\r", b"last\r"] {
            assert_eq!(rt;
                bytes_of(reader.next(&mut source))?.as_slice(),
                line,
                "in pieces of {most}"
            );
        }
        assert!(rt; reader.next(&mut source)?.is_none());
        assert!(rt; reader.next(&mut source)?.is_none());
    }
    Ok(())
}

#[test]
fn a_line_has_at_most_65536_bytes(rt: HostRuntime) -> Result<(), Fail> {
    let alloc = rt.alloc();
    let mut text = vec![in alloc; b'a'; MAX_LINE]?;
    text.extend_from_slice(b"\r\nb")?;
    let mut source = MemSource::new(text, Vec::new(alloc));
    let mut reader = LineReader::new(alloc)?;
    assert_eq!(rt; bytes_of(reader.next(&mut source))?.len(), 65536);
    assert_eq!(rt;
        bytes_of(reader.next(&mut source))?.as_slice(),
        b"b".as_slice()
    );

    let mut source = MemSource::new(vec![in alloc; b'a'; MAX_LINE + 9000]?, Vec::new(alloc));
    let mut reader = LineReader::new(alloc)?;
    assert!(rt; reader.next(&mut source) == Err(LineError::Long));
    assert!(rt; reader.next(&mut source) == Err(LineError::Long));
    Ok(())
}

// Material where the line begins with `<`; nothing is taken before a space, a word or the end.
#[test]
fn a_prompt_takes_only_a_line_with_a_mark(rt: HostRuntime) -> Result<(), Fail> {
    let alloc = rt.alloc();
    let text = Vec::from_slice(alloc, b" <a\n<b\r\n<\nplain\n<<end")?;
    let mut source = MemSource::new(text, Vec::new(alloc));
    let mut reader = LineReader::new(alloc)?;
    assert!(rt; reader.next_prompt(&mut source)?.is_none());
    assert_eq!(rt;
        bytes_of(reader.next(&mut source))?.as_slice(),
        b" <a".as_slice()
    );
    for material in [b"b".as_slice(), b""] {
        assert_eq!(rt;
            bytes_of(reader.next_prompt(&mut source))?.as_slice(),
            material
        );
    }
    assert!(rt; reader.next_prompt(&mut source)?.is_none());
    assert_eq!(rt;
        bytes_of(reader.next(&mut source))?.as_slice(),
        b"plain".as_slice()
    );
    assert_eq!(rt;
        bytes_of(reader.next_prompt(&mut source))?.as_slice(),
        b"<end".as_slice()
    );
    assert!(rt; reader.next_prompt(&mut source)?.is_none());
    Ok(())
}

#[test]
fn a_sink_fails_at_its_listed_calls(rt: HostRuntime) -> Result<(), Fail> {
    let mut sink = MemSink::new(vec![in rt.alloc(); 1]?);
    assert_eq!(rt; sink.write(b"ab")?, 2);
    assert_eq!(rt; sink.write(b"cd"), Err(Failed));
    assert_eq!(rt; sink.write(b"e")?, 1);
    assert_eq!(rt; sink.bytes(), b"abe".as_slice());
    Ok(())
}

#[test]
fn readers_and_writers_of_std_pass_through(rt: HostRuntime) -> Result<(), Fail> {
    let alloc = rt.alloc();
    let mut source = Reading::new(b"one\ntwo".as_slice());
    let mut reader = LineReader::new(alloc)?;
    assert_eq!(rt;
        bytes_of(reader.next(&mut source))?.as_slice(),
        b"one".as_slice()
    );
    assert_eq!(rt;
        bytes_of(reader.next(&mut source))?.as_slice(),
        b"two".as_slice()
    );

    let mut sink = Writing::new(rt.stdout());
    assert_eq!(rt; sink.write(b"\n")?, 1);
    assert_eq!(rt; Writing::new(Full).write(b"x"), Err(Failed));
    Ok(())
}

#[test]
fn key_files_are_fetched_by_path(rt: HostRuntime) -> Result<(), Fail> {
    let alloc = rt.alloc();
    let mut files = Vec::new(alloc);
    files.push((
        String::from_str(alloc, "/keys/long")?,
        vec![in alloc; 7; 1025]?,
    ))?;
    files.push((String::from_str(alloc, "/keys/short")?, vec![in alloc; 8]?))?;
    let mut key_files = MemKeyFiles::new(files, vec![in alloc; 0]?);
    assert!(rt; key_files.fetch(alloc, "/keys/short") == Err(FetchError::Failed));
    assert_eq!(rt;
        key_files.fetch(alloc, "/keys/short")?.as_slice(),
        [8].as_slice()
    );
    assert_eq!(rt; key_files.fetch(alloc, "/keys/long")?.len(), 1024);
    assert!(rt; key_files.fetch(alloc, "/keys") == Err(FetchError::Missing));
    Ok(())
}

// Opening `/dev/null/x` fails, since `/dev/null` is no folder.
#[test]
fn files_of_the_system(rt: HostRuntime) -> Result<(), Fail> {
    let alloc = rt.alloc();
    let mut key_files = SystemKeyFiles::new(&rt);
    fs::write(&rt, "key_of_32_bytes", [7; 32].as_slice())?;
    let fetched = key_files.fetch(alloc, "key_of_32_bytes");
    fs::remove_file(&rt, "key_of_32_bytes")?;
    assert_eq!(rt; fetched?.as_slice(), [7; 32].as_slice());
    assert_eq!(rt;
        key_files.fetch(alloc, "/dev/zero")?.as_slice(),
        [0; 1024].as_slice()
    );
    for (path, why) in [
        ("/no/such/key", FetchError::Missing),
        ("/dev/null/x", FetchError::Failed),
        ("/dev", FetchError::Failed),
    ] {
        assert!(rt; key_files.fetch(alloc, path) == Err(why), "at {path}");
    }

    let mut entropy = SystemEntropy::new(&rt);
    let mut first = [0; 32];
    let mut second = [0; 32];
    entropy.fill(&mut first)?;
    entropy.fill(&mut second)?;
    let differing = (0..32).filter(|&at| first[at] != second[at]).count();
    assert!(rt; differing > 1);
    Ok(())
}

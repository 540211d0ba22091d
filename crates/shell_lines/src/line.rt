// What the lines of a script say.
ghost use Rattle.std.specs.Prelude.{◌≡◌, IfOk};
ghost use Rattle.shell_lines.specs.declared.line.LineStop.TheVariants.{NoMemory as OutOfMemory};

use encryption_roots::{Location, Options, Prop};
use std::alloc::{AllocError, Global};
use std::marker::Model;

/// A word of a line, as it stands there: contracts see its bytes.
#[derive(Debug, Drop)]
pub struct Word {
    bytes: Vec<u8>,
}

impl Model for Word {
    ghost use Rattle.std.specs.Prelude.{List, ℕ};

    ghost Value = { List ℕ };

    ghost view = { λ word. word.bytes.items };
}

impl Word {
    /// A copy of a word that stands in a line.
    pub(crate) fn from_slice(alloc: Global, bytes: &[u8]) -> Result<Word, AllocError>
        ensures { IfOk result (λ word. word ≡ bytes.now) }
    {
        let bytes = Vec::from_slice(alloc, bytes)?;
        Ok(Word { bytes })
    }

    /// The word's bytes.
    pub fn as_bytes(&self) -> &[u8]
        ensures { result.now ≡ self.now }
    {
        self.bytes.as_slice()
    }
}

/// Bytes that hexadecimal digits of a line spell.
#[derive(Debug, Drop)]
pub struct Bytes {
    bytes: Vec<u8>,
}

impl Model for Bytes {
    ghost use Rattle.std.specs.Prelude.{List, ℕ};

    ghost Value = { List ℕ };

    ghost view = { λ spelled. spelled.bytes.items };
}

impl Bytes {
    pub(crate) fn new(bytes: Vec<u8>) -> Bytes
        ensures { result ≡ bytes.items }
    {
        Bytes { bytes }
    }

    /// The bytes.
    pub fn as_bytes(&self) -> &[u8]
        ensures { result.now ≡ self.now }
    {
        self.bytes.as_slice()
    }
}

/// A line of the language.
#[derive(Debug, Drop)]
pub enum Line {
    /// A line without words, or one that begins with `#` or `<`.
    Silent,
    /// `create`, options `-o KEY=VALUE`, `NAME`
    Create {
        name: Word,
        opts: Options,
    },
    /// `load-key`, zero or one `-n` and `-L LOC`, `NAME`
    LoadKey {
        name: Word,
        /// `-n`: the key is tested and not kept.
        check_only: bool,
        /// `-L`: where the key is fetched in place of the root's own location.
        place: Option<Location>,
    },
    /// `load-key -r`, zero or one `-n`, `NAME`: the dataset and those below it.
    LoadBelow {
        name: Word,
        /// `-n`: the keys are tested and not kept.
        check_only: bool,
    },
    /// `load-key -a`, zero or one `-n`: all datasets.
    LoadAll {
        /// `-n`: the keys are tested and not kept.
        check_only: bool,
    },
    /// `unload-key NAME`
    UnloadKey {
        name: Word,
    },
    /// `unload-key -r NAME`: the dataset and those below it.
    UnloadBelow {
        name: Word,
    },
    /// `unload-key -a`: all datasets.
    UnloadAll,
    /// `change-key`, zero or one `-l`, options `-o KEY=VALUE`, `NAME`
    ChangeKey {
        name: Word,
        opts: Options,
        /// `-l`: the present key is fetched where it isn't loaded.
        load_first: bool,
    },
    /// `change-key -i`, zero or one `-l`, `NAME`: the key of the parent is used.
    InheritKey {
        name: Word,
        /// `-l`: the present key is fetched where it isn't loaded.
        load_first: bool,
    },
    /// `mount NAME`
    Mount {
        name: Word,
    },
    /// `unmount NAME`
    Unmount {
        name: Word,
    },
    /// `get PROP NAME`
    Get {
        prop: Prop,
        name: Word,
    },
    /// `touch NAME FILE`: makes an empty file.
    Touch {
        name: Word,
        file: Word,
    },
    /// `rm NAME FILE`
    Remove {
        name: Word,
        file: Word,
    },
    /// `write NAME FILE NUM HEX`: these bytes from this offset on.
    Write {
        name: Word,
        file: Word,
        from: u64,
        bytes: Bytes,
    },
    /// `read SPOT FILE NUM NUM`: from this offset on so many bytes, at most 16384, of a dataset's or a snapshot's file.
    Read {
        spot: Word,
        file: Word,
        from: u64,
        len: u32,
    },
    /// `truncate NAME FILE NUM`: to this length.
    Truncate {
        name: Word,
        file: Word,
        to: u64,
    },
    /// `ls SPOT`: the files of a dataset or a snapshot.
    Files {
        spot: Word,
    },
    /// `verify SPOT`: tests all that a dataset or a snapshot holds.
    Verify {
        spot: Word,
    },
    /// `snapshot SNAPNAME`
    Snapshot {
        name: Word,
    },
    /// `clone SNAPNAME NAME`: a new dataset of what a snapshot holds.
    Clone {
        from: Word,
        name: Word,
    },
    /// `destroy SPOT`: a dataset or a snapshot.
    Destroy {
        spot: Word,
    },
    /// `list`
    List,
    /// `counts`: how many use each loaded key and each mapping.
    Counts,
}

/// Why some bytes are no line.
#[derive(Clone, Copy, Debug, PartialEq, Eq)]
pub enum LineStop {
    /// They spell no line of the language: what stands at this offset can't stand there.
    Bad { at: u32 },
    /// An allocation was refused.
    NoMemory,
}

impl From<AllocError> for LineStop {
    ghost from_gives = { λ _ stop. stop ≡ OutOfMemory };

    fn from(_error: AllocError) -> LineStop {
        LineStop::NoMemory
    }
}

// What a command is refused by.
ghost use Rattle.std.specs.Prelude.{◌≡◌};
ghost use Rattle.dataset_tree.specs.declared.refusal.Stop.TheVariants.{NoMemory as OutOfMemory, Refused};
ghost use Rattle.dataset_tree.specs.Refusal.{number_of, name_of};

use std::alloc::{AllocError, AllocFailed};

/// An allocation was refused. Nothing else is answered so.
pub type NoMemory = AllocError;

/// Why key material can't be the key of its format.
#[derive(Clone, Copy, Debug, PartialEq, Eq)]
pub enum MaterialFault {
    /// There is too little of it.
    Short,
    /// There is too much of it.
    Long,
    /// The byte at this offset is no hexadecimal digit.
    Hex { at: u64 },
}

/// Why a command isn't carried out. A dataset is named by its id.
#[derive(Clone, Copy, Debug, PartialEq, Eq)]
pub enum Refusal {
    /// No dataset has the name.
    NoSuch,
    /// The name of the new dataset or snapshot is taken.
    Exists,
    /// The word isn't in the form of a name; its byte at this offset can't stand there.
    BadName {
        at: u64,
    },
    /// A name of more than one component whose parent isn't there.
    NoParent,
    /// The key that the command needs isn't loaded.
    KeyUnavailable,
    /// The key is loaded already.
    KeyLoaded,
    /// The dataset isn't an encryption root.
    NotRoot,
    /// The dataset is plain.
    NotEncrypted,
    /// The first dataset that the root owns, by id, whose record doesn't open under the key.
    WrongKey {
        dataset: u32,
    },
    /// The material isn't in its key format.
    BadMaterial {
        fault: MaterialFault,
    },
    /// There is no such key file.
    KeyFileMissing,
    /// The key file couldn't be read.
    KeyFault,
    /// The random bytes couldn't be read.
    EntropyFault,
    /// The dataset is in use by this many.
    Busy {
        dataset: u32,
        count: u64,
    },
    /// There is no parent, or it is plain.
    NoEncryptedParent,
    /// The dataset is a clone.
    IsClone,
    /// The dataset has children or snapshots, or is a clone's origin.
    HasChildren,
    /// A head was cloned from the snapshot.
    HasClones,
    /// The dataset is mounted.
    Mounted,
    /// The dataset isn't mounted.
    NotMounted,
    /// No file has the name.
    NoFile,
    /// A file has the name.
    FileExists,
    /// The file would grow past this length in bytes.
    TooBig {
        limit: u64,
    },
    /// The test of this place is the first that failed.
    MacFailed {
        object: u64,
        level: u64,
        index: u64,
    },
    /// A call of the block shelf failed.
    ShelfFault,
    /// The dataset has no such snapshot.
    NoSnapshot,
    /// What is counted would pass this limit.
    Full {
        limit: u64,
    },
    /// The byte at this offset doesn't continue a stream.
    NotStream {
        at: u64,
    },
    /// The stream's digest as it was computed, and as it stands in the stream.
    Damaged {
        computed: [u8; 32],
        found: [u8; 32],
    },
    /// The top MAC of an object as the stream claims it, and as its blocks give it.
    BadTop {
        object: u64,
        claimed: [u8; 16],
        built: [u8; 16],
    },
    /// There is no stream of the name.
    NoStream,
    /// A call of the streams failed.
    StreamFault,
    /// The mapping's word as it was found, and the generation that was wanted.
    Unmapped {
        found: u64,
        wanted: u64,
    },
    /// The family has no head of this dataset.
    NoHead {
        head: u32,
    },
    /// The iterations are out of range.
    BadIters,
    /// The guid of the key that is held, and that of the family.
    KeyDiffers {
        held: u64,
        family: u64,
    },
    /// The options don't go together.
    BadOptions,
    /// The directory's entry at this offset is wrong.
    BadDirectory {
        at: u64,
    },
}

impl Refusal {
    /// The number by which a reply names the refusal, from 1 on.
    pub fn number(&self) -> u8
        ensures { result ≡ number_of self.now }
    {
        match self {
            Refusal::NoSuch => 1,
            Refusal::Exists => 2,
            Refusal::BadName { .. } => 3,
            Refusal::NoParent => 4,
            Refusal::KeyUnavailable => 5,
            Refusal::KeyLoaded => 6,
            Refusal::NotRoot => 7,
            Refusal::NotEncrypted => 8,
            Refusal::WrongKey { .. } => 9,
            Refusal::BadMaterial { .. } => 10,
            Refusal::KeyFileMissing => 11,
            Refusal::KeyFault => 12,
            Refusal::EntropyFault => 13,
            Refusal::Busy { .. } => 14,
            Refusal::NoEncryptedParent => 15,
            Refusal::IsClone => 16,
            Refusal::HasChildren => 17,
            Refusal::HasClones => 18,
            Refusal::Mounted => 19,
            Refusal::NotMounted => 20,
            Refusal::NoFile => 21,
            Refusal::FileExists => 22,
            Refusal::TooBig { .. } => 23,
            Refusal::MacFailed { .. } => 24,
            Refusal::ShelfFault => 25,
            Refusal::NoSnapshot => 26,
            Refusal::Full { .. } => 27,
            Refusal::NotStream { .. } => 28,
            Refusal::Damaged { .. } => 29,
            Refusal::BadTop { .. } => 30,
            Refusal::NoStream => 31,
            Refusal::StreamFault => 32,
            Refusal::Unmapped { .. } => 33,
            Refusal::NoHead { .. } => 34,
            Refusal::BadIters => 35,
            Refusal::KeyDiffers { .. } => 36,
            Refusal::BadOptions => 37,
            Refusal::BadDirectory { .. } => 38,
        }
    }

    /// The name that stands behind the number in a reply.
    pub fn name(&self) -> &'static str
        ensures { result.now ≡ name_of self.now }
    {
        match self {
            Refusal::NoSuch => "NoSuch",
            Refusal::Exists => "Exists",
            Refusal::BadName { .. } => "BadName",
            Refusal::NoParent => "NoParent",
            Refusal::KeyUnavailable => "KeyUnavailable",
            Refusal::KeyLoaded => "KeyLoaded",
            Refusal::NotRoot => "NotRoot",
            Refusal::NotEncrypted => "NotEncrypted",
            Refusal::WrongKey { .. } => "WrongKey",
            Refusal::BadMaterial { .. } => "BadMaterial",
            Refusal::KeyFileMissing => "KeyFileMissing",
            Refusal::KeyFault => "KeyFault",
            Refusal::EntropyFault => "EntropyFault",
            Refusal::Busy { .. } => "Busy",
            Refusal::NoEncryptedParent => "NoEncryptedParent",
            Refusal::IsClone => "IsClone",
            Refusal::HasChildren => "HasChildren",
            Refusal::HasClones => "HasClones",
            Refusal::Mounted => "Mounted",
            Refusal::NotMounted => "NotMounted",
            Refusal::NoFile => "NoFile",
            Refusal::FileExists => "FileExists",
            Refusal::TooBig { .. } => "TooBig",
            Refusal::MacFailed { .. } => "MacFailed",
            Refusal::ShelfFault => "ShelfFault",
            Refusal::NoSnapshot => "NoSnapshot",
            Refusal::Full { .. } => "Full",
            Refusal::NotStream { .. } => "NotStream",
            Refusal::Damaged { .. } => "Damaged",
            Refusal::BadTop { .. } => "BadTop",
            Refusal::NoStream => "NoStream",
            Refusal::StreamFault => "StreamFault",
            Refusal::Unmapped { .. } => "Unmapped",
            Refusal::NoHead { .. } => "NoHead",
            Refusal::BadIters => "BadIters",
            Refusal::KeyDiffers { .. } => "KeyDiffers",
            Refusal::BadOptions => "BadOptions",
            Refusal::BadDirectory { .. } => "BadDirectory",
        }
    }
}

/// Why a call stops: it is refused, or memory ran out.
#[derive(Clone, Copy, Debug, PartialEq, Eq)]
pub enum Stop {
    /// The command is refused.
    Refused(Refusal),
    /// An allocation was refused.
    NoMemory,
}

impl From<Refusal> for Stop {
    ghost from_gives = { λ why stop. stop ≡ Refused why };

    fn from(why: Refusal) -> Stop {
        Stop::Refused(why)
    }
}

impl From<AllocError> for Stop {
    ghost from_gives = { λ _ stop. stop ≡ OutOfMemory };

    fn from(_error: AllocError) -> Stop {
        Stop::NoMemory
    }
}

impl<T: Drop> From<AllocFailed<T>> for Stop {
    ghost from_gives = { λ _ stop. stop ≡ OutOfMemory };

    fn from(_error: AllocFailed<T>) -> Stop {
        Stop::NoMemory
    }
}

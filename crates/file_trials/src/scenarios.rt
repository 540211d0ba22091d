// What is tried, as tables of steps.
use crate::steps::Step::{
    Alter, Cut, Entries, FailAfter, Files, Levels, Newest, Read, Remove, Touch, TouchAll, Used,
    Verify, Write,
};
use crate::steps::{FILE, Step, Told};
use crate::trial::Start;
use dataset_tree::Refusal;

/// A family to begin with, the steps on it with what each tells, and what they show.
#[derive(Clone, Copy)]
pub(crate) struct Scenario {
    pub shows: &'static str,
    pub start: Start,
    pub rows: &'static [(Step, Told)],
}

const OTHER: u8 = b'g';

const MAX_LENGTH: u64 = 4_294_967_296;

const TOO_BIG: Refusal = Refusal::TooBig { limit: MAX_LENGTH };

const FAULT: Refusal = Refusal::ShelfFault;

const BAD_DIRECTORY: Told = Told::Refused(Refusal::MacFailed {
    object: 1,
    level: 0,
    index: 0,
});

const BAD_BLOCK: Told = Told::Refused(Refusal::MacFailed {
    object: 2,
    level: 0,
    index: 0,
});

const BAD_NODE: Told = Told::Refused(Refusal::MacFailed {
    object: 2,
    level: 1,
    index: 0,
});

// A salt serves two draws; the directory's block takes the first.
const SALTS: &[(Step, Told)] = &[
    (Touch(FILE), Told::Done),
    (Write(0, 1, 1), Told::Wrote(1, 0)),
    (Write(0, 1, 1), Told::Wrote(1, 1)),
    (Write(0, 1, 1), Told::Wrote(1, 1)),
    (Write(0, 1, 1), Told::Wrote(1, 2)),
];

// The second write is in block 32, behind the file's end, and makes a second level.
const ZEROS: &[(Step, Told)] = &[
    (Touch(FILE), Told::Done),
    (Write(0, 0xaa, 1), Told::Wrote(1, 0)),
    (Write(16_384, 0xbb, 1), Told::Wrote(1, 0)),
    (Levels, Told::Levels(Some(2))),
    (Read(FILE, 0, 2), Told::Bytes(0xaa, 0)),
    (Read(FILE, 16_383, 9), Told::Bytes(0, 0xbb)),
];

const GREATEST: &[(Step, Told)] = &[
    (Touch(FILE), Told::Done),
    (Write(MAX_LENGTH - 1, 7, 2), Told::Refused(TOO_BIG)),
    (Newest, Told::Newest(Some((TOO_BIG, 0, 0)))),
    (Cut(MAX_LENGTH + 1), Told::Refused(TOO_BIG)),
    (Write(MAX_LENGTH - 1, 7, 1), Told::Wrote(1, 0)),
    (Levels, Told::Levels(Some(5))),
    (Read(FILE, MAX_LENGTH - 1, 9), Told::Byte(7)),
];

// The directory stands at the addresses 0 and 1, the file at 2 and 3, and what is written over it at 4 and 5.
const NO_OLD_TEXTS: &[(Step, Told)] = &[
    (Touch(FILE), Told::Done),
    (Write(0, 0xaa, 2), Told::Wrote(1, 0)),
    (Alter(2), Told::Done),
    (Read(FILE, 0, 2), BAD_BLOCK),
    (Write(1, 1, 1), BAD_BLOCK),
    (Write(0, 1, 2), Told::Wrote(1, 0)),
    (Read(FILE, 0, 9), Told::Bytes(1, 1)),
    (Alter(5), Told::Done),
    (Verify(1), BAD_NODE),
    (Write(0, 1, 2), BAD_NODE),
    (Files, Told::Files(1, Some(2))),
];

const NO_CHANGES: &[(Step, Told)] = &[
    (Touch(FILE), Told::Done),
    (Alter(0), Told::Done),
    (Touch(OTHER), BAD_DIRECTORY),
    (Write(0, 1, 1), BAD_DIRECTORY),
    (Cut(0), BAD_DIRECTORY),
    (Remove(FILE), BAD_DIRECTORY),
    (Used, Told::Used(1, 2)),
];

// A cut seals a front anew where it ends inside of what a block stores, and else nothing.
const CUTS: &[(Step, Told)] = &[
    (Touch(FILE), Told::Done),
    (Write(500, 9, 30), Told::Wrote(2, 0)),
    (Used, Told::Used(3, 5)),
    (Cut(510), Told::Done),
    (Used, Told::Used(4, 7)),
    (Cut(510), Told::Done),
    (Used, Told::Used(4, 7)),
    (Read(FILE, 508, 9), Told::Bytes(9, 9)),
];

const FILLED: &[(Step, Told)] = &[
    (Touch(FILE), Told::Done),
    (Write(0, 9, 30), Told::Wrote(1, 0)),
    (Cut(600), Told::Done),
    (Read(FILE, 29, 2), Told::Bytes(9, 0)),
    (Read(FILE, 598, 9), Told::Bytes(0, 0)),
    (Cut(0), Told::Done),
    (Cut(2), Told::Done),
    (Used, Told::Used(2, 4)),
    (Read(FILE, 0, 9), Told::Bytes(0, 0)),
];

// Of the directory a node and a block are read; then three blocks are put, and a node over them.
const CALLS: &[(Step, Told)] = &[
    (Touch(FILE), Told::Done),
    (FailAfter(3), Told::Done),
    (Write(0, 1, 1025), Told::Refused(FAULT)),
    (Newest, Told::Newest(Some((FAULT, 2, 1)))),
    (Files, Told::Files(1, Some(0))),
    (FailAfter(5), Told::Done),
    (Write(0, 1, 1025), Told::Refused(FAULT)),
    (Newest, Told::Newest(Some((FAULT, 3, 3)))),
    (FailAfter(6), Told::Done),
    (Write(0, 1, 1025), Told::Wrote(3, 0)),
];

const FULL_LOG: &[(Step, Told)] = &[
    (Touch(FILE), Told::Refused(Refusal::Full { limit: 1 })),
    (Used, Told::Used(0, 0)),
    (Entries, Told::Entries(1)),
];

const NAMES: &[(Step, Told)] = &[
    (Touch(FILE), Told::Done),
    (Touch(OTHER), Told::Done),
    (Touch(OTHER), Told::Refused(Refusal::FileExists)),
    (Newest, Told::Newest(Some((Refusal::FileExists, 0, 0)))),
    (Remove(FILE), Told::Done),
    (Remove(FILE), Told::Refused(Refusal::NoFile)),
    (Files, Told::Files(1, Some(0))),
];

const MANY_FILES: &[(Step, Told)] = &[
    (TouchAll, Told::Done),
    (Touch(FILE), Told::Refused(Refusal::Full { limit: 1024 })),
];

const NO_FILES: &[(Step, Told)] = &[(Verify(1), Told::Blocks(0)), (Files, Told::Files(0, None))];

const TWO_FILES: &[(Step, Told)] = &[
    (Read(b'a', 1030, 5), Told::Nothing),
    (Read(b'c', 0, 1), Told::Refused(Refusal::NoFile)),
    (Files, Told::Files(2, Some(1030))),
    (Verify(1), Told::Blocks(4)),
    (Verify(2), Told::Refused(Refusal::NoHead { head: 2 })),
];

// The block fails, and the file beside it is read as before.
const BAD_BLOCKS: &[(Step, Told)] = &[
    (Alter(1), Told::Done),
    (Read(b'a', 0, 1), BAD_BLOCK),
    (Read(b'b', 0, 2), Told::Bytes(b'b', b'e')),
    (Read(b'b', 4, 100), Told::Bytes(b'd', b'e')),
];

const BAD_NODES: &[(Step, Told)] = &[
    (Alter(5), Told::Done),
    (Read(b'a', 600, 1), BAD_NODE),
    (Verify(1), BAD_NODE),
    (Read(b'b', 0, 2), Told::Bytes(b'b', b'e')),
];

const BAD_DIRECTORIES: &[(Step, Told)] = &[
    (Alter(0), Told::Done),
    (Read(b'b', 0, 1), BAD_DIRECTORY),
];

// The second call of the read is armed.
const FAULTS: &[(Step, Told)] = &[
    (FailAfter(1), Told::Done),
    (Read(b'b', 0, 1), Told::Refused(Refusal::ShelfFault)),
];

/// All that is tried.
pub(crate) const SCENARIOS: &[Scenario] = &[
    Scenario {
        shows: "salts change after their limit",
        start: Start::ShortSalts,
        rows: SALTS,
    },
    Scenario {
        shows: "zeros stand where nothing was written",
        start: Start::Fresh,
        rows: ZEROS,
    },
    Scenario {
        shows: "the greatest length has five levels",
        start: Start::Fresh,
        rows: GREATEST,
    },
    Scenario {
        shows: "altered blocks of a file stop a write that needs them",
        start: Start::Fresh,
        rows: NO_OLD_TEXTS,
    },
    Scenario {
        shows: "an altered directory stops each change",
        start: Start::Fresh,
        rows: NO_CHANGES,
    },
    Scenario {
        shows: "cuts seal a front at most",
        start: Start::Fresh,
        rows: CUTS,
    },
    Scenario {
        shows: "cuts fill up with zeros",
        start: Start::Fresh,
        rows: FILLED,
    },
    Scenario {
        shows: "a write of three blocks makes six calls",
        start: Start::Fresh,
        rows: CALLS,
    },
    Scenario {
        shows: "a log without room takes no change",
        start: Start::NoRoom,
        rows: FULL_LOG,
    },
    Scenario {
        shows: "files are made and removed once",
        start: Start::Fresh,
        rows: NAMES,
    },
    Scenario {
        shows: "a head has 1024 files at most",
        start: Start::Fresh,
        rows: MANY_FILES,
    },
    Scenario {
        shows: "a fresh head has no files",
        start: Start::Fresh,
        rows: NO_FILES,
    },
    Scenario {
        shows: "files are listed and counted",
        start: Start::Sampled,
        rows: TWO_FILES,
    },
    Scenario {
        shows: "an altered block is named",
        start: Start::Sampled,
        rows: BAD_BLOCKS,
    },
    Scenario {
        shows: "an altered node is named",
        start: Start::Sampled,
        rows: BAD_NODES,
    },
    Scenario {
        shows: "an altered directory is named",
        start: Start::Sampled,
        rows: BAD_DIRECTORIES,
    },
    Scenario {
        shows: "a failure of the shelf is told",
        start: Start::Sampled,
        rows: FAULTS,
    },
];

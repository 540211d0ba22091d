// The failed takings of a run.
ghost use Rattle.std.specs.Prelude.{◌≡◌, ◌∷◌, [], ◌++◌, List, IfOk, OnOk, OnErr, if◌then◌else◌};
ghost use Rattle.shell_run.specs.declared.found.FoundEntry.{FoundEntry};

use dataset_tree::NoMemory;
use std::alloc::Global;
use std::marker::Model;

/// What was to be taken, and failed.
#[derive(Clone, Copy, Debug, PartialEq, Eq)]
pub enum FoundKind {
    /// The present key of a dataset.
    OldKey,
    /// The new or loaded key of a dataset.
    NewKey,
    /// Random bytes.
    Seed,
    /// A call of the streams, with the blocks that the line had put into a family that was there before it.
    Streams { puts: u32 },
    /// A call of a family's block shelf, with the draws that the line had used and the blocks that it had put.
    Shelf { family: u32, draws: u64, puts: u32 },
}

/// A failed taking, and where the script made it.
#[derive(Clone, Copy, Debug, PartialEq, Eq)]
pub struct FoundEntry {
    /// The line's number.
    pub line: u32,
    /// Of a line that tries several roots the number of the root, from 0; else 0.
    pub part: u32,
    pub what: FoundKind,
}

/// The failed takings that a run met, in the order in which it met them.
#[derive(Debug, Drop)]
pub struct Found {
    entries: Vec<FoundEntry>,
}

impl Model for Found {
    ghost use Rattle.std.specs.Prelude.{List};
    ghost use Rattle.shell_run.specs.declared.found.FoundEntry.{FoundEntry};

    ghost Value = { List FoundEntry };

    ghost view = { λ found. found.entries.items };
}

impl Found {
    /// An empty list.
    pub fn new(alloc: Global) -> Result<Found, NoMemory>
        ensures { IfOk result (λ found. found ≡ []) }
    {
        let entries = Vec::new(alloc);
        Ok(Found { entries })
    }

    /// Adds a taking that is about to be made, so that none can fail and find no memory to be listed.
    pub(crate) fn push(&mut self, entry: FoundEntry) -> Result<(), NoMemory>
        ensures ok { OnOk result (self.new ≡ self.old ++ entry ∷ []) }
        ensures err { OnErr result (self.new ≡ self.old) }
    {
        self.entries.push(entry)?;
        Ok(())
    }

    /// Keeps the last entry where its taking failed, and takes it off where it didn't.
    pub(crate) fn settle(&mut self, has_failed: bool)
        ensures { (before : List FoundEntry) (last : FoundEntry) → self.old ≡ before ++ last ∷ [] →
            self.new ≡ before ++ (if has_failed then last ∷ [] else []) }
    {
        if !has_failed {
            self.entries.pop();
        }
    }

    /// What was found.
    pub fn entries(&self) -> &[FoundEntry]
        ensures { result.now ≡ self.now }
    {
        self.entries.as_slice()
    }
}

// The entries of a family's log.
ghost use Rattle.std.specs.Prelude.{◌≡◌, IfOk};
ghost use Rattle.family_log.specs.Noted.{noted};

use crate::listed::Listed;
use crate::table::Table;
use dataset_tree::{NoMemory, Refusal, SnapPart};
use indirect_macs::BlockRef;

/// A head, or a snapshot of it.
#[derive(Drop)]
pub struct Spot {
    /// The id of the head's dataset.
    pub head: u32,
    /// The snapshot, or None for the head itself.
    pub snap: Option<SnapPart>,
}

impl Spot {
    /// An equal spot.
    pub fn copy(&self) -> Result<Spot, NoMemory>
        ensures { IfOk result (λ spot. spot ≡ self.now) }
    {
        let snap = match &self.snap {
            Some(part) => Some(part.copy()?),
            None => None,
        };
        Ok(Spot {
            head: self.head,
            snap,
        })
    }
}

/// The new length of an object, in bytes, or None where the object is gone.
#[derive(Clone, Copy, Debug, PartialEq, Eq)]
pub struct LengthAt {
    pub object: u32,
    pub length: Option<u64>,
}

/// The new reference to a block of an object, or None where it is a hole.
#[derive(Clone, Copy, Debug, PartialEq, Eq)]
pub struct RefAt {
    pub object: u32,
    pub index: u32,
    pub to: Option<BlockRef>,
}

/// What was done in a family. A change of a head has the lengths and the references that it changed.
#[derive(Drop)]
pub enum LogEntry {
    /// A fresh head, or a new file.
    Make {
        head: u32,
        lengths: Listed<LengthAt>,
        refs: Listed<RefAt>,
    },
    /// Bytes were written.
    Write {
        head: u32,
        lengths: Listed<LengthAt>,
        refs: Listed<RefAt>,
    },
    /// A file was cut or filled up.
    Cut {
        head: u32,
        lengths: Listed<LengthAt>,
        refs: Listed<RefAt>,
    },
    /// A file was removed.
    Remove {
        head: u32,
        lengths: Listed<LengthAt>,
        refs: Listed<RefAt>,
    },
    /// A stream was received.
    Receive {
        head: u32,
        lengths: Listed<LengthAt>,
        refs: Listed<RefAt>,
    },
    /// A snapshot of the head was made.
    Snapshot {
        head: u32,
        part: SnapPart,
    },
    /// The head was made of a snapshot.
    Clone {
        from: Spot,
        head: u32,
    },
    /// Bytes, names or MACs were read.
    Read {
        spot: Spot,
    },
    /// A command was refused, after so many draws of salts and so many blocks that were put. The
    /// numbers are 0 where the shelf didn't fail.
    Refused {
        spot: Spot,
        why: Refusal,
        draws: u64,
        puts: u32,
    },
}

impl LogEntry {
    /// An equal entry.
    pub fn copy(&self) -> Result<LogEntry, NoMemory>
        ensures { IfOk result (λ entry. entry ≡ self.now) }
    {
        match self {
            LogEntry::Make {
                head,
                lengths,
                refs,
            } => copied_make(*head, lengths, refs),
            LogEntry::Write {
                head,
                lengths,
                refs,
            } => copied_write(*head, lengths, refs),
            LogEntry::Cut {
                head,
                lengths,
                refs,
            } => copied_cut(*head, lengths, refs),
            LogEntry::Remove {
                head,
                lengths,
                refs,
            } => copied_remove(*head, lengths, refs),
            LogEntry::Receive {
                head,
                lengths,
                refs,
            } => copied_receive(*head, lengths, refs),
            LogEntry::Snapshot { head, part } => copied_snapshot(*head, part),
            LogEntry::Clone { from, head } => copied_clone(from, *head),
            LogEntry::Read { spot } => Ok(LogEntry::Read { spot: spot.copy()? }),
            LogEntry::Refused {
                spot,
                why,
                draws,
                puts,
            } => copied_refused(spot, *why, *draws, *puts),
        }
    }
}

fn copied_make(
    head: u32,
    lengths: &Listed<LengthAt>,
    refs: &Listed<RefAt>,
) -> Result<LogEntry, NoMemory>
    ensures { IfOk result (λ entry. entry ≡ LogEntry.Make head lengths.now refs.now) }
{
    Ok(LogEntry::Make {
        head,
        lengths: lengths.copy()?,
        refs: refs.copy()?,
    })
}

fn copied_write(
    head: u32,
    lengths: &Listed<LengthAt>,
    refs: &Listed<RefAt>,
) -> Result<LogEntry, NoMemory>
    ensures { IfOk result (λ entry. entry ≡ LogEntry.Write head lengths.now refs.now) }
{
    Ok(LogEntry::Write {
        head,
        lengths: lengths.copy()?,
        refs: refs.copy()?,
    })
}

fn copied_cut(
    head: u32,
    lengths: &Listed<LengthAt>,
    refs: &Listed<RefAt>,
) -> Result<LogEntry, NoMemory>
    ensures { IfOk result (λ entry. entry ≡ LogEntry.Cut head lengths.now refs.now) }
{
    Ok(LogEntry::Cut {
        head,
        lengths: lengths.copy()?,
        refs: refs.copy()?,
    })
}

fn copied_remove(
    head: u32,
    lengths: &Listed<LengthAt>,
    refs: &Listed<RefAt>,
) -> Result<LogEntry, NoMemory>
    ensures { IfOk result (λ entry. entry ≡ LogEntry.Remove head lengths.now refs.now) }
{
    Ok(LogEntry::Remove {
        head,
        lengths: lengths.copy()?,
        refs: refs.copy()?,
    })
}

fn copied_receive(
    head: u32,
    lengths: &Listed<LengthAt>,
    refs: &Listed<RefAt>,
) -> Result<LogEntry, NoMemory>
    ensures { IfOk result (λ entry. entry ≡ LogEntry.Receive head lengths.now refs.now) }
{
    Ok(LogEntry::Receive {
        head,
        lengths: lengths.copy()?,
        refs: refs.copy()?,
    })
}

fn copied_snapshot(head: u32, part: &SnapPart) -> Result<LogEntry, NoMemory>
    ensures { IfOk result (λ entry. entry ≡ LogEntry.Snapshot head part.now) }
{
    Ok(LogEntry::Snapshot {
        head,
        part: part.copy()?,
    })
}

fn copied_clone(from: &Spot, head: u32) -> Result<LogEntry, NoMemory>
    ensures { IfOk result (λ entry. entry ≡ LogEntry.Clone from.now head) }
{
    Ok(LogEntry::Clone {
        from: from.copy()?,
        head,
    })
}

fn copied_refused(spot: &Spot, why: Refusal, draws: u64, puts: u32) -> Result<LogEntry, NoMemory>
    ensures { IfOk result (λ entry. entry ≡ LogEntry.Refused spot.now why draws puts) }
{
    Ok(LogEntry::Refused {
        spot: spot.copy()?,
        why,
        draws,
        puts,
    })
}

/// A change of a head: its new table, and the entry that tells it.
#[derive(Drop)]
pub struct HeadChange {
    pub table: Table,
    pub entry: LogEntry,
}

/// What a command did that changed no head.
#[derive(Clone, Copy, Debug, PartialEq, Eq)]
pub enum ReadNote {
    Read,
    Refused { why: Refusal, draws: u64, puts: u32 },
}

impl ReadNote {
    // The entry of this note.
    pub(crate) fn entry(self, spot: Spot) -> LogEntry
        ensures { result ≡ noted spot self }
    {
        match self {
            ReadNote::Read => LogEntry::Read { spot },
            ReadNote::Refused { why, draws, puts } => LogEntry::Refused {
                spot,
                why,
                draws,
                puts,
            },
        }
    }
}

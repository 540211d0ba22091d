// What the commands about files answer.
ghost use Rattle.std.specs.Prelude.{◌≡◌, IfOk};

use crate::lists::{FileBytes, FileRows};
use dataset_tree::{NoMemory, Refusal};

/// The reply to a command about files.
#[derive(Debug, Drop)]
pub enum FileReply {
    /// It was carried out.
    Done,
    /// So many blocks were sealed; the number is that of the salt of the last of them, 0 where there is none.
    Wrote { blocks: u32, number: u64 },
    /// What was read.
    Bytes { bytes: FileBytes },
    /// The files, in byte order of their names.
    Names { rows: FileRows },
    /// So many blocks are no holes, and all passed.
    Blocks { count: u64 },
    Refused { why: Refusal },
}

impl FileReply {
    /// An equal reply.
    pub fn copy(&self) -> Result<FileReply, NoMemory>
        ensures { IfOk result (λ reply. reply ≡ self.now) }
    {
        Ok(match self {
            FileReply::Done => FileReply::Done,
            FileReply::Wrote { blocks, number } => FileReply::Wrote {
                blocks: *blocks,
                number: *number,
            },
            FileReply::Bytes { bytes } => FileReply::Bytes {
                bytes: bytes.copy()?,
            },
            FileReply::Names { rows } => FileReply::Names { rows: rows.copy()? },
            FileReply::Blocks { count } => FileReply::Blocks { count: *count },
            FileReply::Refused { why } => FileReply::Refused { why: *why },
        })
    }
}

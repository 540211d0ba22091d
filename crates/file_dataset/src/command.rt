// The commands about the files of a dataset.
ghost use Rattle.std.specs.Prelude.{◌≡◌, IfOk};
ghost use Rattle.file_dataset.specs.declared.command.FileCmd.TheVariants as commands;

use crate::lists::FileBytes;
use dataset_tree::{FileName, NoMemory, SetName, SnapPart};

/// A command about the files of a dataset, `set`, or of its snapshot `snap` where a command that reads names one.
#[derive(Debug, Drop)]
pub enum FileCmd {
    /// Makes an empty file.
    Touch {
        set: SetName,
        file: FileName,
    },
    /// Removes a file.
    Remove {
        set: SetName,
        file: FileName,
    },
    /// Writes bytes into a file from a place on.
    Write {
        set: SetName,
        file: FileName,
        from: u64,
        bytes: FileBytes,
    },
    /// Reads at most `len` bytes of a file from a place on.
    Read {
        set: SetName,
        snap: Option<SnapPart>,
        file: FileName,
        from: u64,
        len: u32,
    },
    /// Cuts a file to a length, or fills it up to it with zeros.
    Cut {
        set: SetName,
        file: FileName,
        to: u64,
    },
    /// Lists the files.
    Names {
        set: SetName,
        snap: Option<SnapPart>,
    },
    /// Tests all blocks.
    Verify {
        set: SetName,
        snap: Option<SnapPart>,
    },
}

impl FileCmd {
    /// An equal command.
    pub fn copy(&self) -> Result<FileCmd, NoMemory>
        ensures { IfOk result (λ command. command ≡ self.now) }
    {
        Ok(match self {
            FileCmd::Touch { set, file } => FileCmd::Touch {
                set: set.copy()?,
                file: file.copy()?,
            },
            FileCmd::Remove { set, file } => FileCmd::Remove {
                set: set.copy()?,
                file: file.copy()?,
            },
            FileCmd::Write {
                set,
                file,
                from,
                bytes,
            } => copied_write(set, file, *from, bytes)?,
            FileCmd::Read {
                set,
                snap,
                file,
                from,
                len,
            } => copied_read(set, snap, file, *from, *len)?,
            FileCmd::Cut { set, file, to } => FileCmd::Cut {
                set: set.copy()?,
                file: file.copy()?,
                to: *to,
            },
            FileCmd::Names { set, snap } => FileCmd::Names {
                set: set.copy()?,
                snap: copied_snap(snap)?,
            },
            FileCmd::Verify { set, snap } => FileCmd::Verify {
                set: set.copy()?,
                snap: copied_snap(snap)?,
            },
        })
    }
}

fn copied_write(
    set: &SetName,
    file: &FileName,
    from: u64,
    bytes: &FileBytes,
) -> Result<FileCmd, NoMemory>
    ensures { IfOk result (λ command. command ≡ commands.Write set.now file.now from bytes.now) }
{
    Ok(FileCmd::Write {
        set: set.copy()?,
        file: file.copy()?,
        from,
        bytes: bytes.copy()?,
    })
}

fn copied_read(
    set: &SetName,
    snap: &Option<SnapPart>,
    file: &FileName,
    from: u64,
    len: u32,
) -> Result<FileCmd, NoMemory>
    ensures { IfOk result (λ command. command ≡ commands.Read set.now snap.now file.now from len) }
{
    Ok(FileCmd::Read {
        set: set.copy()?,
        snap: copied_snap(snap)?,
        file: file.copy()?,
        from,
        len,
    })
}

fn copied_snap(snap: &Option<SnapPart>) -> Result<Option<SnapPart>, NoMemory>
    ensures { IfOk result (λ copy. copy ≡ snap.now) }
{
    match snap {
        Some(part) => Ok(Some(part.copy()?)),
        None => Ok(None),
    }
}

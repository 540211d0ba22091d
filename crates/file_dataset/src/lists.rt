// Bytes and rows of files as lists.
ghost use Rattle.std.specs.Prelude.{◌≡◌, IfOk};

use crate::file::FileRow;
use dataset_tree::NoMemory;
use std::alloc::Global;
use std::marker::Model;

/// Bytes of a file, any number of them: contracts see them.
#[derive(Debug, Drop)]
pub struct FileBytes {
    bytes: Vec<u8>,
}

impl Model for FileBytes {
    ghost use Rattle.std.specs.Prelude.{List, ℕ};

    ghost Value = { List ℕ };

    ghost view = { λ file. file.bytes.items };
}

impl FileBytes {
    /// These bytes.
    pub fn new(bytes: Vec<u8>) -> FileBytes
        ensures { result ≡ bytes.items }
    {
        FileBytes { bytes }
    }

    /// The bytes.
    pub fn as_bytes(&self) -> &[u8]
        ensures { result.now ≡ self.now }
    {
        self.bytes.as_slice()
    }

    /// Equal bytes.
    pub fn copy(&self) -> Result<FileBytes, NoMemory>
        ensures { IfOk result (λ bytes. bytes ≡ self.now) }
    {
        let bytes = self.bytes.clone()?;
        Ok(FileBytes { bytes })
    }
}

/// The rows in which the files of a directory are listed: contracts see the list.
#[derive(Debug, Drop)]
pub struct FileRows {
    rows: Vec<FileRow>,
}

impl Model for FileRows {
    ghost use Rattle.std.specs.Prelude.{List};
    ghost use Rattle.file_dataset.specs.declared.file.FileRow.{FileRow};

    ghost Value = { List FileRow };

    ghost view = { λ listing. listing.rows.items };
}

impl FileRows {
    /// These rows.
    pub fn new(rows: Vec<FileRow>) -> FileRows
        ensures { result ≡ rows.items }
    {
        FileRows { rows }
    }

    /// The rows.
    pub fn as_slice(&self) -> &[FileRow]
        ensures { result.now ≡ self.now }
    {
        self.rows.as_slice()
    }

    /// Equal rows.
    pub fn copy(&self) -> Result<FileRows, NoMemory>
        ensures { IfOk result (λ rows. rows ≡ self.now) }
    {
        let rows = copied_rows(*self.rows.allocator(), self.rows.as_slice())?;
        Ok(FileRows { rows })
    }
}

fn copied_rows(alloc: Global, rows: &[FileRow]) -> Result<Vec<FileRow>, NoMemory>
    ensures { IfOk result (λ copies. copies.items ≡ rows.now) }
{
    let mut copies = Vec::new(alloc);
    'rows: for row in rows {
        copies.push(row.copy()?)?;
    }
    Ok(copies)
}

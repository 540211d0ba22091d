// The rows in which files are listed.
ghost use Rattle.std.specs.Prelude.{◌≡◌, IfOk};

use dataset_tree::{FileName, NoMemory};

/// A file: its name, and its length in bytes.
#[derive(Debug, Drop)]
pub struct FileRow {
    pub name: FileName,
    pub length: u64,
}

impl FileRow {
    /// An equal row.
    pub fn copy(&self) -> Result<FileRow, NoMemory>
        ensures { IfOk result (λ row. row ≡ self.now) }
    {
        let name = self.name.copy()?;
        Ok(FileRow {
            name,
            length: self.length,
        })
    }
}

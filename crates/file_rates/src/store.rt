// A file of a dataset in memory.
ghost use Rattle.std.specs.Prelude.{◌≡◌};

use anyhow::{Result, anyhow};
use dataset_tree::{FileName, Stop, Suite};
use family_log::{Family, Spot};
use file_dataset::{fresh_portable, make_file, read_at, write_at};
use shelf_store::MemShelf;
use std::alloc::Global;
use wrapped_keys::MasterKey;

/// The bytes of a piece.
const PIECE: u32 = 1_048_576;

/// A family of one head, the dataset 1, with a file.
#[derive(Drop)]
pub(crate) struct Store {
    family: Family<MemShelf>,
    file: FileName,
    ghost guid: { family.guid ≡ 1 },
}

impl Store {
    ghost use Rattle.family_log.specs.Tables.{IsRecordSize};

    /// A head of this record size, with an empty file.
    pub fn make(alloc: Global, size: u32) -> Result<Store>
        requires { IsRecordSize size }
    {
        let portable = fresh_portable(&[7; 64], size);
        let family = Family::make(alloc, 1, size, [0; 32], 400_000_000, 4096, 1, portable)?;
        let file = FileName::parse(alloc, b"f").map_err(error_of)?;
        let mut store = Store { family, file };
        store.touch().map_err(error_of)?;
        Ok(store)
    }

    fn touch(&mut self) -> Result<(), Stop> {
        make_file(&mut self.family, &master_key(), 1, &self.file)
    }

    fn write_piece(&mut self, at: u32, piece: &[u8]) -> Result<(), Stop> {
        let from = u64::from(at) * u64::from(PIECE);
        match write_at(&mut self.family, &master_key(), 1, &self.file, from, piece) {
            Ok(_) => Ok(()),
            Err(stop) => Err(stop),
        }
    }

    fn read_piece(&mut self, at: u32) -> Result<Vec<u8>, Stop> {
        let spot = Spot {
            head: 1,
            snap: None,
        };
        let from = u64::from(at) * u64::from(PIECE);
        read_at(
            &mut self.family,
            &master_key(),
            &spot,
            &self.file,
            from,
            PIECE,
        )
    }

    /// Writes so many pieces, one behind the other.
    pub fn write(&mut self, count: u32) -> Result<u64> {
        let piece = vec![in self.family.allocator(); 0xa5; PIECE as usize]?;
        'pieces: for at in 0..count {
            if let Err(stop) = self.write_piece(at, piece.as_slice()) {
                return Err(error_of(stop));
            }
        }
        Ok(u64::from(count) * u64::from(PIECE))
    }

    /// Reads so many pieces, and counts their bytes.
    pub fn read(&mut self, count: u32) -> Result<u64> {
        let mut bytes = 0u64;
        'pieces: for at in 0..count {
            match self.read_piece(at) {
                Ok(piece) => bytes = bytes.saturating_add(piece.len() as u64),
                Err(stop) => return Err(error_of(stop)),
            }
        }
        Ok(bytes)
    }
}

/// The key of all.
pub(crate) fn master_key() -> MasterKey
    ensures { result.guid ≡ 1 }
{
    MasterKey::new(1, Suite::Aes256Gcm, &[3; 32], [7; 64])
}

fn error_of(stop: Stop) -> anyhow::Error {
    match stop {
        Stop::Refused(why) => anyhow!("refused: {}", why.name()),
        Stop::NoMemory => anyhow!("no memory"),
    }
}

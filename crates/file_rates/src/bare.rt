// The bare cipher.
ghost use Rattle.std.specs.Prelude.{◌≡◌, ◌≤◌};

use crate::store::master_key;
use anyhow::{Result, bail};
use block_crypt::{open_block, seal_block};
use salt_rotation::Drawn;
use std::alloc::Global;

const DRAWN: Drawn = Drawn {
    index: 0,
    number: 0,
    salt: [1; 8],
    iv: [2; 12],
};

/// Seals so many blocks of this size.
pub(crate) fn sealed(alloc: Global, size: u32, count: u32) -> Result<u64>
    requires { size ≤ 131072 }
{
    let key = master_key();
    let mut text = vec![in alloc; 0xa5; size as usize]?;
    'blocks: for _ in 0..count {
        let _ = seal_block(&key, &DRAWN, text.as_mut_slice());
    }
    Ok(u64::from(size) * u64::from(count))
}

/// Opens so many blocks of this size.
pub(crate) fn opened(alloc: Global, size: u32, count: u32) -> Result<u64>
    requires { size ≤ 131072 }
{
    let key = master_key();
    let mut block = vec![in alloc; 0xa5; size as usize]?;
    let sealed = seal_block(&key, &DRAWN, block.as_mut_slice());
    'blocks: for _ in 0..count {
        let mut text = block.clone()?;
        if open_block(&key, &sealed, text.as_mut_slice()).is_err() {
            bail!("the block doesn't open");
        }
    }
    Ok(u64::from(size) * u64::from(count))
}

// Sealed blocks.
ghost use Rattle.std.specs.Prelude.{◌≤◌, ◌↔◌, length, IsOk};

use crate::words::{array, bytes, hex_word};
use anyhow::{Result, bail, ensure};
use block_crypt::{MAX_BLOCK_LEN, Sealed, open_block, seal_block};
use dataset_tree::Suite;
use salt_rotation::Drawn;
use std::alloc::Global;
use wrapped_keys::MasterKey;

/// The sealed block with its MAC after it.
pub(crate) fn answer_seal_block(
    alloc: Global,
    master: &str,
    salt: &str,
    iv: &str,
    text: &str,
) -> Result<String> {
    let key = master_key(&bytes(alloc, master)?)?;
    let mut text = bytes(alloc, text)?;
    ensure_block(text.len())?;
    let drawn = Drawn {
        index: 0,
        number: 0,
        salt: array(salt)?,
        iv: array(iv)?,
    };
    let sealed = seal_block(&key, &drawn, &mut text);
    text.extend_from_slice(&sealed.mac)?;
    hex_word(alloc, &text)
}

/// The text of a sealed block.
pub(crate) fn answer_open_block(
    alloc: Global,
    master: &str,
    salt: &str,
    iv: &str,
    sealed: &str,
    mac: &str,
) -> Result<String> {
    let key = master_key(&bytes(alloc, master)?)?;
    let mut text = bytes(alloc, sealed)?;
    ensure_block(text.len())?;
    let sealed = Sealed {
        salt: array(salt)?,
        iv: array(iv)?,
        mac: array(mac)?,
    };
    match open_block(&key, &sealed, &mut text) {
        Ok(()) => hex_word(alloc, &text),
        Err(_) => Ok(String::from_str(alloc, "BadTag")?),
    }
}

// The master key of these bytes, in the suite of their length.
fn master_key(master: &[u8]) -> Result<MasterKey> {
    Ok(match master.len() {
        16 => MasterKey::new(0, Suite::Aes128Gcm, master, [0; 64]),
        24 => MasterKey::new(0, Suite::Aes192Gcm, master, [0; 64]),
        32 => MasterKey::new(0, Suite::Aes256Gcm, master, [0; 64]),
        _ => bail!("a master key has 16, 24 or 32 bytes"),
    })
}

// Refuses a block that is too long.
fn ensure_block(len: usize) -> Result<()>
    ensures { IsOk result ↔ (len ≤ MAX_BLOCK_LEN) }
{
    ensure!(len <= MAX_BLOCK_LEN, "more than {MAX_BLOCK_LEN} bytes");
    Ok(())
}

// Which blocks a write touches, and what of it goes into which.
ghost use Rattle.std.specs.Prelude.{◌≡◌, ◌<◌, ◌≤◌, length};
ghost use Rattle.file_blocks.specs.WriteFields.{write_of};
ghost use Rattle.file_blocks.specs.Writes.{first_of, last_of, piece_in, start_in};

use crate::write::Write;

/// The first block that a write touches.
pub fn first_of(w: &Write) -> u32
    ensures value { result ≡ first_of (write_of w.now) }
    ensures bound { result < 8388608 }
{
    (w.from / u64::from(w.block)) as u32
}

/// The last block that it touches.
pub fn last_of(w: &Write) -> u32
    ensures value { result ≡ last_of (write_of w.now) }
    ensures bound { result < 8388608 }
{
    ((w.from + w.bytes.len() as u64 - 1) / u64::from(w.block)) as u32
}

/// Where in a touched block it begins: behind a front that stays in the first one, and else at once.
pub fn start_in(w: &Write, index: u32) -> usize
    ensures value { result ≡ start_in (write_of w.now) index }
    ensures bound { result ≤ 4294967296 }
{
    w.from.saturating_sub(u64::from(index) * u64::from(w.block)) as usize
}

/// Which of its bytes go into a touched block.
pub fn piece_in<'a>(w: &Write<'a>, index: u32) -> &'a [u8]
    ensures value { result.now ≡ piece_in (write_of w.now) index }
    ensures bound { length result.now ≤ 131072 }
{
    let skip = (u64::from(index) * u64::from(w.block)).saturating_sub(w.from) as usize;
    let rest = &w.bytes[skip.min(w.bytes.len())..];
    let room = (w.block as usize).saturating_sub(start_in(w, index));
    &rest[..room.min(rest.len())]
}

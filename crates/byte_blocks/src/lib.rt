//! Strings of bytes cut into blocks, and joined with others byte by byte. No call takes memory.
#![tactic(auto)]

ghost use Rattle.std.specs.Prelude.{◌≡◌, ◌≤◌, ◌+◌, ◌*◌, length, min};
ghost use Rattle.byte_blocks.specs.Blocks.{block_at, with_block, xor_bytes};

#[cfg(test)]
mod tests;

// Where block `number` of a string of `len` bytes ends: the last one where the string does.
#[inline(always)]
fn block_end(len: usize, size: usize, number: usize) -> usize
    requires { size * number ≤ len }
    ensures { result ≡ min len (size * number + size) }
{
    let start = size * number;
    start + size.min(len - start)
}

/// Block `number`, from 0, of `bytes` in blocks of `size` bytes. A block that the end of `bytes`
/// cuts has what stands before the end.
#[inline(always)]
pub fn block_at(bytes: &[u8], size: usize, number: usize) -> &[u8]
    requires { size * number ≤ length bytes.now }
    ensures { result.now ≡ block_at size bytes.now number }
{
    &bytes[size * number..block_end(bytes.len(), size, number)]
}

/// Writes `block` over block `number`, from 0, of `bytes`, as far as `bytes` goes.
#[inline(always)]
pub fn put_block<const N: usize>(bytes: &mut [u8], number: usize, block: &[u8; N])
    requires { N * number ≤ length bytes.old }
    ensures { bytes.new ≡ with_block bytes.old (N * number) block.now }
{
    let start = N * number;
    let end = block_end(bytes.len(), N, number);
    bytes[start..end].copy_from_slice(&block[..end - start]);
}

/// Xors `block` into block `number`, from 0, of `bytes`, as far as `bytes` goes.
#[inline(always)]
pub fn xor_block<const N: usize>(bytes: &mut [u8], number: usize, block: &[u8; N])
    requires { N * number ≤ length bytes.old }
    ensures { bytes.new ≡ with_block bytes.old (N * number) (xor_bytes (block_at N bytes.old number) block.now) }
{
    let start = N * number;
    let end = block_end(bytes.len(), N, number);
    xor_into(&mut bytes[start..end], block);
}

/// Xors the bytes that `others` begins with into `bytes`.
#[inline(always)]
pub fn xor_into(bytes: &mut [u8], others: &[u8])
    requires { length bytes.old ≤ length others.now }
    ensures { bytes.new ≡ xor_bytes bytes.old others.now }
{
    for (i, byte) in bytes.iter_mut().enumerate() {
        *byte ^= others[i];
    }
}

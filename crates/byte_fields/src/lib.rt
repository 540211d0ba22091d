//! Numbers of 16, 32 and 64 bits as fields of bytes, in little-endian order.
#![tactic(auto)]

ghost use Rattle.std.specs.Prelude.{◌≡◌, ◌≤◌, ◌+◌, ◌++◌, length, take, drop};
ghost use Rattle.byte_fields.specs.LittleEndian.{little_endian_bytes, little_endian_value};

use byteorder::{ByteOrder, LittleEndian};

/// The number of 16 bits in the two bytes from `at`, the lowest byte first.
pub fn get_u16(bytes: &[u8], at: usize) -> u16
    requires { at + 2 ≤ length bytes.now }
    ensures { result ≡ little_endian_value (take 2 (drop at bytes.now)) }
{
    LittleEndian::read_u16(&bytes[at..])
}

/// The number of 32 bits in the four bytes from `at`, the lowest byte first.
pub fn get_u32(bytes: &[u8], at: usize) -> u32
    requires { at + 4 ≤ length bytes.now }
    ensures { result ≡ little_endian_value (take 4 (drop at bytes.now)) }
{
    LittleEndian::read_u32(&bytes[at..])
}

/// The number of 64 bits in the eight bytes from `at`, the lowest byte first.
pub fn get_u64(bytes: &[u8], at: usize) -> u64
    requires { at + 8 ≤ length bytes.now }
    ensures { result ≡ little_endian_value (take 8 (drop at bytes.now)) }
{
    LittleEndian::read_u64(&bytes[at..])
}

/// Writes `value` into the two bytes from `at`, the lowest byte first.
pub fn put_u16(bytes: &mut [u8], at: usize, value: u16)
    requires { at + 2 ≤ length bytes.old }
    ensures { bytes.new ≡ take at bytes.old ++ little_endian_bytes 2 value ++ drop (at + 2) bytes.old }
{
    LittleEndian::write_u16(&mut bytes[at..], value);
}

/// Writes `value` into the four bytes from `at`, the lowest byte first.
pub fn put_u32(bytes: &mut [u8], at: usize, value: u32)
    requires { at + 4 ≤ length bytes.old }
    ensures { bytes.new ≡ take at bytes.old ++ little_endian_bytes 4 value ++ drop (at + 4) bytes.old }
{
    LittleEndian::write_u32(&mut bytes[at..], value);
}

/// Writes `value` into the eight bytes from `at`, the lowest byte first.
pub fn put_u64(bytes: &mut [u8], at: usize, value: u64)
    requires { at + 8 ≤ length bytes.old }
    ensures { bytes.new ≡ take at bytes.old ++ little_endian_bytes 8 value ++ drop (at + 8) bytes.old }
{
    LittleEndian::write_u64(&mut bytes[at..], value);
}

#[cfg(test)]
mod tests;

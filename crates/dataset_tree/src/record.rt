// The stored bytes of a key record.
ghost use Rattle.std.specs.Prelude.{◌≡◌, ◌≤◌, length};

use std::marker::Model;

/// The most bytes in a key record.
const MAX_RECORD_LEN: usize = 134;

/// The bytes of a key record, at most 134: contracts see them as a list.
#[derive(Clone, Copy, Debug, PartialEq, Eq)]
pub struct RecordBytes {
    len: u8,
    bytes: [u8; 134],
}

impl Model for RecordBytes {
    ghost use Rattle.std.specs.Prelude.{List, ℕ, take};

    ghost Value = { List ℕ };

    ghost use Rattle.dataset_tree.specs.RecordBytes.{IsPadded, of_bytes, of_bytes-take};

    ghost view = { λ inside. take inside.len inside.bytes };

    ghost invariant = { IsPadded };

    ghost inverse = { of_bytes };

    ghost inverse_ok = { of_bytes-take };
}

impl RecordBytes {
    /// These bytes as a record's.
    pub fn from_slice(bytes: &[u8]) -> RecordBytes
        requires { length bytes.now ≤ 134 }
        ensures { result ≡ bytes.now }
    {
        let mut padded = [0u8; MAX_RECORD_LEN];
        padded[..bytes.len()].copy_from_slice(bytes);
        RecordBytes {
            len: bytes.len() as u8,
            bytes: padded,
        }
    }

    /// The record's bytes.
    pub fn as_slice(&self) -> &[u8]
        ensures bytes { result.now ≡ self.now }
        ensures short { length result.now ≤ 134 }
    {
        &self.bytes[..self.len as usize]
    }
}

// Key records: how they are sealed and opened, and their stored form.
ghost use Rattle.std.specs.Prelude.{◌≡◌, ◌<◌, ◌-◌, ◌+◌, ◌^◌, ◌++◌, ◌↔◌, length, replicate, slice_index, None, Some, IfOk, IfSome, IsErr};
ghost use Rattle.dataset_tree.specs.Suite.{suite_key_len, suite_number};
ghost use Rattle.wrapped_keys.specs.Values.{sealed_len};
ghost use Rattle.wrapped_keys.specs.Wrapping.{additional_data, master_of, record_of, opens};
ghost use Rattle.wrapped_keys.specs.Stored.{header_bytes, record_bytes, record_at, parsed_record};

use crate::aead::{aead_open, aead_seal};
use crate::master_key::MasterKey;
use byte_fields::{get_u64, put_u64};
use dataset_tree::{RecordBytes, Suite};
use gcm_seal::BadTag;
use std::marker::Model;

// The version of the records that are written.
const VERSION: u8 = 1;

// The bytes of an HMAC key.
const HMAC_KEY_LEN: usize = 64;

// The most bytes of a sealed text.
const MAX_SEALED_LEN: usize = 96;

// The bytes of the additional data.
const AAD_LEN: usize = 24;

// Where the fields of the stored form begin, after the guid, and the most bytes that it has.
const SUITE_AT: usize = 8;

const VERSION_AT: usize = 9;

const IV_AT: usize = 10;

const MAC_AT: usize = 22;

const SEALED_AT: usize = 38;

const MAX_RECORD_LEN: usize = 134;

/// A master key as it is stored, sealed under a wrapping key.
#[derive(Clone, Copy, Debug, PartialEq, Eq)]
pub struct KeyRecord {
    guid: u64,
    suite: Suite,
    version: u8,
    iv: [u8; 12],
    mac: [u8; 16],
    sealed: [u8; 96],
}

impl Model for KeyRecord {
    ghost use Rattle.wrapped_keys.specs.Values.{RecordValue};

    ghost Value = { RecordValue };

    ghost use Rattle.wrapped_keys.specs.PaddedRecord.{IsPaddedRecord, record_value, padded_record, padded_record-value};

    ghost view = { record_value };

    ghost invariant = { IsPaddedRecord };

    ghost inverse = { padded_record };

    ghost inverse_ok = { padded_record-value };
}

impl KeyRecord {
    /// The number that names the keys.
    pub fn guid(&self) -> u64
        ensures { result ≡ self.now.guid }
    {
        self.guid
    }

    /// The suite of the master key.
    pub fn suite(&self) -> Suite
        ensures { result ≡ self.now.suite }
    {
        self.suite
    }

    /// The bytes in which the record is stored: guid 8, suite 1, version 1, initialization vector
    /// 12, MAC 16, and the sealed text. The guid's lowest byte is first.
    pub fn to_bytes(&self) -> RecordBytes
        ensures bytes { result ≡ record_bytes self.now }
        ensures parsed { parsed_record result ≡ Some self.now }
    {
        let mut bytes = [0; MAX_RECORD_LEN];
        bytes[..SEALED_AT].copy_from_slice(&self.header());
        bytes[SEALED_AT..].copy_from_slice(&self.sealed);
        RecordBytes::from_slice(&bytes[..SEALED_AT + sealed_len(self.suite)])
    }

    // The fields in front of the sealed text.
    fn header(&self) -> [u8; 38]
        ensures fields { result ≡ header_bytes self.now }
        ensures guid { self.now.guid < 2 ^ 64 }
    {
        let mut header = [0; SEALED_AT];
        put_u64(&mut header, 0, self.guid);
        header[SUITE_AT] = self.suite.number();
        header[VERSION_AT] = self.version;
        header[IV_AT..MAC_AT].copy_from_slice(&self.iv);
        header[MAC_AT..].copy_from_slice(&self.mac);
        header
    }

    #[tactic(auto, unfolding(crate::specs::Stored::parsed_record))]
    /// The record that is stored in these bytes: `None` where suite, length or version is not that
    /// of a record.
    pub fn from_bytes(bytes: &RecordBytes) -> Option<KeyRecord>
        ensures parsed { result ≡ parsed_record bytes.now }
        ensures bytes { IfSome result (λ r. record_bytes r ≡ bytes.now) }
    {
        let bytes = bytes.as_slice();
        let suite = Suite::from_number(*bytes.get(SUITE_AT)?)?;
        if bytes.len() != SEALED_AT + sealed_len(suite) || bytes[VERSION_AT] != VERSION {
            return None;
        }
        Some(read_fields(suite, bytes))
    }
}

/// Seals a master key under the wrapping key `w`.
///
/// The cipher is AES-256 in the mode of the master key's suite. The master key and the HMAC key are
/// one message; the tag covers guid, suite and version too.
pub fn wrap(key: &MasterKey, w: &[u8; 32], iv: [u8; 12]) -> KeyRecord
    ensures sealed { result ≡ record_of key.now w.now iv }
    ensures opens { opens result w.now ≡ Some key.now }
{
    let guid = key.guid();
    let suite = key.suite();
    let aad = additional_data(guid, suite, VERSION);
    let mut sealed = message(key);
    let mac = aead_seal(suite, w, &iv, &aad, &mut sealed[..sealed_len(suite)]);
    KeyRecord {
        guid,
        suite,
        version: VERSION,
        iv,
        mac,
        sealed,
    }
}

/// Opens a key record by the wrapping key `w`.
///
/// # Errors
///
/// `BadTag` where the record's tag differs from the one that its fields have under `w`.
pub fn unwrap(rec: &KeyRecord, w: &[u8; 32]) -> Result<MasterKey, BadTag>
    ensures opened { IfOk result (λ key. opens rec.now w.now ≡ Some key) }
    ensures bad_tag { IsErr result ↔ (opens rec.now w.now ≡ None) }
{
    let aad = additional_data(rec.guid, rec.suite, rec.version);
    let mut padded = rec.sealed;
    let text = &mut padded[..sealed_len(rec.suite)];
    aead_open(rec.suite, w, &rec.iv, &aad, text, &rec.mac)?;
    Ok(master_of(rec.guid, rec.suite, text))
}

fn master_of(guid: u64, suite: Suite, message: &[u8]) -> MasterKey
    requires { length message.now ≡ sealed_len suite }
    ensures { result ≡ master_of guid suite message.now }
{
    let (master, hmac_bytes) = message.split_at(suite.key_len());
    let mut hmac = [0; HMAC_KEY_LEN];
    hmac.copy_from_slice(hmac_bytes);
    MasterKey::new(guid, suite, master, hmac)
}

// The message that is sealed, in front of zeros.
fn message(key: &MasterKey) -> [u8; 96]
    ensures message { result ≡ key.now.master ++ key.now.hmac ++ replicate (96 - sealed_len key.now.suite) 0 }
    ensures master { length key.now.master ≡ suite_key_len key.now.suite }
    ensures hmac { length key.now.hmac ≡ 64 }
{
    let key_len = key.suite().key_len();
    let mut text = [0; MAX_SEALED_LEN];
    text[..key_len].copy_from_slice(key.master());
    text[key_len..key_len + HMAC_KEY_LEN].copy_from_slice(key.hmac());
    text
}

fn additional_data(guid: u64, suite: Suite, version: u8) -> [u8; 24]
    ensures { result ≡ additional_data guid suite version }
{
    let mut aad = [0; AAD_LEN];
    put_u64(&mut aad, 0, guid);
    put_u64(&mut aad, 8, u64::from(suite.number()));
    put_u64(&mut aad, 16, u64::from(version));
    aad
}

fn sealed_len(suite: Suite) -> usize
    ensures { result ≡ sealed_len suite }
{
    suite.key_len() + HMAC_KEY_LEN
}

// The fields of a record of this suite.
fn read_fields(suite: Suite, bytes: &[u8]) -> KeyRecord
    requires suite { suite_number suite ≡ slice_index bytes.now 8 }
    requires length { length bytes.now ≡ 38 + sealed_len suite }
    requires version { slice_index bytes.now 9 ≡ 1 }
    ensures fields { result ≡ record_at suite bytes.now }
    ensures bytes { record_bytes result ≡ bytes.now }
{
    let mut iv = [0; 12];
    iv.copy_from_slice(&bytes[IV_AT..MAC_AT]);
    let mut mac = [0; 16];
    mac.copy_from_slice(&bytes[MAC_AT..SEALED_AT]);
    let mut sealed = [0; MAX_SEALED_LEN];
    sealed[..sealed_len(suite)].copy_from_slice(&bytes[SEALED_AT..]);
    KeyRecord {
        guid: get_u64(bytes, 0),
        suite,
        version: bytes[VERSION_AT],
        iv,
        mac,
        sealed,
    }
}

use super::*;
use dataset_tree::{RecordBytes, Suite};
use std::test::Fail;

// From another implementation: what AES-256-GCM makes, under the wrapping key of the bytes 200 to
// 231 and the initialization vector of the bytes 100 to 111, of a master key of the bytes from 128
// on and an HMAC key of the bytes 0 to 63, with the additional data
// 0100000000000000 0600000000000000 0100000000000000 (suite 6), and 7 and 8 in the place of the 6.

const AES_128: &[u8; 118] = b"\x01\x00\x00\x00\x00\x00\x00\x00\x06\x01\x64\x65\x66\x67\x68\x69\
      \x6a\x6b\x6c\x6d\x6e\x6f\xb2\x04\xee\xcf\x53\x2f\xfd\x8c\x32\x66\
      \xe5\x62\xd2\x8c\x2b\xc1\xd8\x4f\x23\xa5\xf8\x86\x72\x56\x54\x1b\
      \xc4\x44\x8a\x33\x73\x0d\x6c\xa6\x8f\xd5\xe7\x4b\x1e\x83\x8a\xd2\
      \x27\x6a\x5f\x67\xb5\xe8\x84\xaa\xda\x40\x75\x0d\x34\x4a\x8e\x01\
      \x01\xeb\xb3\x57\x2a\xf5\xeb\xed\x6c\x6d\x85\x29\x95\xc0\xaf\x01\
      \x2a\x87\xe7\x41\x8a\x46\x30\xb3\x92\x29\x50\x08\x27\xb1\x90\x1e\
      \xc2\xa5\x45\x35\x90\xc2";

const AES_192: &[u8; 126] = b"\x01\x00\x00\x00\x00\x00\x00\x00\x07\x01\x64\x65\x66\x67\x68\x69\
      \x6a\x6b\x6c\x6d\x6e\x6f\x18\x33\x65\x99\xe7\xbe\x6e\x2c\x55\x82\
      \xd7\xbd\x77\x9e\xa8\x89\xd8\x4f\x23\xa5\xf8\x86\x72\x56\x54\x1b\
      \xc4\x44\x8a\x33\x73\x0d\xfc\x36\x1f\x45\x77\xdb\x8e\x13\x82\xda\
      \x2f\x62\x57\x6f\xbd\xe0\x9c\xb2\xc2\x58\x6d\x15\x2c\x52\x86\x09\
      \x09\xe3\xbb\x5f\x22\xfd\xd3\xd5\x54\x55\xbd\x11\xad\xf8\xa7\x09\
      \x22\x8f\xef\x49\x82\x4e\x28\xab\x8a\x31\x48\x10\x3f\xa9\x98\x16\
      \xca\xad\x4d\x3d\x98\xca\x02\x8f\xa0\xd4\xdd\x29\x38\x84";

const AES_256: &[u8; 134] = b"\x01\x00\x00\x00\x00\x00\x00\x00\x08\x01\x64\x65\x66\x67\x68\x69\
      \x6a\x6b\x6c\x6d\x6e\x6f\x70\x26\x60\x9b\x79\x18\x1f\xea\xc0\xcf\
      \x6a\xf4\xc0\xd3\x18\x1e\xd8\x4f\x23\xa5\xf8\x86\x72\x56\x54\x1b\
      \xc4\x44\x8a\x33\x73\x0d\xfc\x36\x1f\x45\x77\xdb\x8e\x13\x1a\x42\
      \xb7\xfa\xcf\xf7\x25\x78\x94\xba\xca\x50\x65\x1d\x24\x5a\x9e\x11\
      \x11\xfb\xa3\x47\x3a\xe5\xdb\xdd\x5c\x5d\xb5\x19\xa5\xf0\x9f\x31\
      \x1a\xb7\xd7\x71\xba\x76\x20\xa3\x82\x39\x40\x18\x37\xa1\x80\x0e\
      \xd2\xb5\x55\x25\x80\xd2\x0a\x87\xa8\xdc\xd5\x21\x30\x8c\xd7\x2e\
      \xc1\xba\x90\x0a\x78\xb8";

const IV: [u8; 12] = [100, 101, 102, 103, 104, 105, 106, 107, 108, 109, 110, 111];

// The bytes from `first` on.
fn bytes_from<const N: usize>(first: u8) -> [u8; N] {
    let mut bytes = [first; N];
    let mut next = first;
    for byte in bytes.iter_mut() {
        *byte = next;
        next = next.wrapping_add(1);
    }
    bytes
}

fn master_key(suite: Suite) -> MasterKey {
    let hmac = bytes_from(0);
    match suite {
        Suite::Aes128Gcm => MasterKey::new(1, Suite::Aes128Gcm, &bytes_from::<16>(128), hmac),
        Suite::Aes192Gcm => MasterKey::new(1, Suite::Aes192Gcm, &bytes_from::<24>(128), hmac),
        Suite::Aes256Gcm => MasterKey::new(1, Suite::Aes256Gcm, &bytes_from::<32>(128), hmac),
    }
}

fn stored(bytes: &[u8]) -> Option<KeyRecord> {
    if bytes.len() > 134 {
        return None;
    }
    KeyRecord::from_bytes(&RecordBytes::from_slice(bytes))
}

#[test]
fn records_are_those_of_another_implementation(rt: HostRuntime) -> Result<(), Fail> {
    let w = bytes_from(200);
    for (suite, bytes) in [
        (Suite::Aes128Gcm, AES_128.as_slice()),
        (Suite::Aes192Gcm, AES_192.as_slice()),
        (Suite::Aes256Gcm, AES_256.as_slice()),
    ] {
        let key = master_key(suite);
        let rec = wrap(&key, &w, IV);
        assert_eq!(rt; rec.to_bytes().as_slice(), bytes);
        assert_eq!(rt; stored(bytes), Some(rec));
        assert!(rt; unwrap(&rec, &w) == Ok(key));
        assert_eq!(rt; (rec.guid(), rec.suite()), (1, suite));
    }
    Ok(())
}

#[test]
fn a_changed_bit_is_refused(rt: HostRuntime) -> Result<(), Fail> {
    let w = bytes_from(200);
    // The first byte of guid, initialization vector, MAC and sealed text, and the last byte.
    for at in [0, 10, 22, 38, 117] {
        let mut bytes = *AES_128;
        bytes[at] ^= 1;
        let opened = stored(&bytes).map(|rec| unwrap(&rec, &w));
        assert!(rt; opened == Some(Err(BadTag)), "at {at}");
    }
    // Suite and version.
    for at in [8, 9] {
        let mut bytes = *AES_128;
        bytes[at] ^= 1;
        assert_eq!(rt; stored(&bytes), None, "at {at}");
    }
    assert_eq!(rt; stored(&AES_128[..117]), None);
    assert_eq!(rt; stored(&AES_128[..8]), None);
    assert_eq!(rt; stored(&AES_192[..118]), None);
    Ok(())
}

#[test]
fn a_master_key_gives_its_parts(rt: HostRuntime) -> Result<(), Fail> {
    let key = master_key(Suite::Aes192Gcm);
    assert_eq!(rt; (key.guid(), key.suite()), (1, Suite::Aes192Gcm));
    assert_eq!(rt; key.master(), bytes_from::<24>(128).as_slice());
    assert_eq!(rt; *key.hmac(), bytes_from::<64>(0));
    Ok(())
}

use super::*;
use dataset_tree::Suite;
use salt_rotation::Drawn;
use std::test::Fail;
use wrapped_keys::MasterKey;

const SUITES: [Suite; 3] = [Suite::Aes128Gcm, Suite::Aes192Gcm, Suite::Aes256Gcm];

// From Python's package `cryptography`: what AES-GCM makes of the bytes 0 to 16 with the vector of `DRAWN`
// and no additional data, under the key that HKDF with SHA-512 makes of a master key of the bytes from 128
// on, with the salt of `DRAWN` as info; the sealed bytes and then the tag.
const SEALED: [&[u8; 33]; 3] = [
    b"\x93\x35\x88\x9c\xd6\xa3\xbc\x66\xee\xe9\xe6\x01\xf0\xc2\x85\x11\
      \x21\xbe\x48\x6e\x20\x3b\x01\x6a\x4a\x59\x0d\x9d\x21\x66\x3b\xbd\
      \x8a",
    b"\xb8\xf1\x03\xd0\x49\xc5\xe6\xf9\x60\xc2\xfc\x94\x38\xc2\x00\xea\
      \x94\x47\x88\x3a\xcc\x41\x08\x77\x77\x57\x15\x54\x69\xe0\x3e\x8b\
      \xb1",
    b"\xa4\x4b\x67\xfd\x89\xdd\x88\xf0\x2e\xcc\x26\x66\x38\x75\xbe\x4f\
      \x26\x3e\x88\x70\x95\x45\xc2\x52\x99\x26\x67\x52\x3c\x21\x1b\xde\
      \x1a",
];

const DRAWN: Drawn = Drawn {
    index: 9,
    number: 4,
    salt: [1, 2, 3, 4, 5, 6, 7, 8],
    iv: [100, 101, 102, 103, 104, 105, 106, 107, 108, 109, 110, 111],
};

// A master key of the bytes from 128 on.
fn master_key(suite: Suite) -> MasterKey {
    let mut master = [0; 32];
    let mut next = 128_u8;
    for byte in master.iter_mut() {
        *byte = next;
        next = next.wrapping_add(1);
    }
    MasterKey::new(1, suite, &master[..suite.key_len()], [0; 64])
}

#[test]
fn blocks_are_those_of_another_implementation(rt: HostRuntime) -> Result<(), Fail> {
    for at in 0..3 {
        let key = master_key(SUITES[at]);
        let mut text = [0, 1, 2, 3, 4, 5, 6, 7, 8, 9, 10, 11, 12, 13, 14, 15, 16];
        let plain = text;
        let sealed = seal_block(&key, &DRAWN, &mut text);
        assert_eq!(rt; text.as_slice(), &SEALED[at][..17]);
        assert_eq!(rt; sealed.mac.as_slice(), &SEALED[at][17..]);
        assert_eq!(rt; (sealed.salt, sealed.iv), (DRAWN.salt, DRAWN.iv));
        open_block(&key, &sealed, &mut text)?;
        assert_eq!(rt; text, plain);
    }
    Ok(())
}

#[test]
fn a_block_opens_to_its_text(rt: HostRuntime) -> Result<(), Fail> {
    let alloc = rt.alloc();
    for suite in SUITES {
        let key = master_key(suite);
        for len in [0, 1, 15, 16, 4096, MAX_BLOCK_LEN] {
            let mut text = vec![in alloc; 7; len]?;
            let sealed = seal_block(&key, &DRAWN, &mut text);
            open_block(&key, &sealed, &mut text)?;
            assert!(rt; text.iter().all(|&byte| byte == 7), "of {len} bytes");
        }
    }
    Ok(())
}

#[test]
fn a_changed_bit_is_refused(rt: HostRuntime) {
    for suite in SUITES {
        let key = master_key(suite);
        let mut text = [7; 17];
        let sealed = seal_block(&key, &DRAWN, &mut text);
        let before = text;
        for changed in with_a_bit_changed(&sealed) {
            assert_eq!(rt; open_block(&key, &changed, &mut text), Err(BadTag));
            assert_eq!(rt; text, before);
        }
        text[16] ^= 1;
        assert_eq!(rt; open_block(&key, &sealed, &mut text), Err(BadTag));
    }
}

// Of the salt, the vector and the MAC.
fn with_a_bit_changed(sealed: &Sealed) -> [Sealed; 3] {
    let mut salt = *sealed;
    salt.salt[7] ^= 1;
    let mut iv = *sealed;
    iv.iv[0] ^= 0x80;
    let mut mac = *sealed;
    mac.mac[15] ^= 1;
    [salt, iv, mac]
}

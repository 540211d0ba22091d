use crate::{Drawn, MAX_DRAWS, MAX_SALT_USES, Salts, SeedWords};
use std::test::Fail;

// The bytes 0 to 31. The expected values under it are those of ChaCha20 in Python's package
// `cryptography`, whose nonce of 16 bytes was the block counter and then eight zeros.
const SEED: [u8; 32] = [
    0, 1, 2, 3, 4, 5, 6, 7, 8, 9, 10, 11, 12, 13, 14, 15, 16, 17, 18, 19, 20, 21, 22, 23, 24, 25,
    26, 27, 28, 29, 30, 31,
];

// The place of the last word of the last draw's vector.
const LAST_PLACE: u64 = (1 << 60) + 3 * ((1 << 48) - 1) + 2;

// The bytes of words 15 and 16, which stand in two blocks, and of three other words.
#[test]
fn words_are_those_of_chacha20(rt: HostRuntime) {
    let words = SeedWords::new(SEED);
    let mut across = [0; 7];
    words.fill(15, &mut across);
    assert_eq!(rt; across, [0x48, 0x5b, 0x41, 0x0c, 0x18, 0xb8, 0x42]);
    for (place, bytes) in [
        (0, 0x7d2b_fd39_u32),
        (1 << 60, 0xa11e_1040),
        (LAST_PLACE, 0xe27c_10c1),
    ] {
        let mut word = [0; 4];
        words.fill(place, &mut word);
        assert_eq!(rt; u32::from_le_bytes(word), bytes, "at {place}");
    }
}

#[test]
fn a_limit_of_two_changes_the_salt_each_second_draw(rt: HostRuntime) {
    let mut salts = Salts::new(SEED, 2);
    let first = salts.draw();
    assert_eq!(rt; first.number, 0);
    assert_eq!(rt; first.salt, [57, 253, 43, 125, 217, 197, 25, 106]);
    assert_eq!(rt;
        first.iv,
        [64, 16, 30, 161, 131, 133, 234, 29, 220, 182, 183, 2]
    );
    assert_eq!(rt; salts.draw().number, 0);
    assert_eq!(rt; salts.draw().number, 1);
    assert_eq!(rt; salts.draw().number, 1);
    let fifth = salts.draw();
    assert_eq!(rt; fifth.index, 4);
    assert_eq!(rt; fifth.number, 2);
    assert_eq!(rt; fifth.salt, [138, 53, 216, 111, 188, 222, 106, 204]);
    assert_eq!(rt;
        fifth.iv,
        [78, 182, 133, 183, 215, 56, 74, 7, 234, 26, 220, 47]
    );
    assert_eq!(rt; salts.made(), 5);
    assert_eq!(rt; Salts::new(SEED, 1).made(), 0);
}

#[test]
fn resume_goes_on_at_the_last_draw(rt: HostRuntime) -> Result<(), Fail> {
    let mut salts = Salts::resume(SEED, MAX_SALT_USES, MAX_DRAWS - 1);
    let copy = salts.clone()?;
    assert!(rt; copy == salts);
    let last = Drawn {
        index: MAX_DRAWS - 1,
        number: 703_687,
        salt: [0xb9, 0xd0, 0xf8, 0xce, 0xf1, 0x61, 0x1d, 0x0d],
        iv: [
            0xdc, 0x44, 0x8d, 0x16, 0xbc, 0x18, 0xf7, 0x11, 0xc1, 0x10, 0x7c, 0xe2,
        ],
    };
    assert_eq!(rt; salts.draw(), last);
    assert_eq!(rt; salts.made(), MAX_DRAWS);
    assert!(rt; copy != salts);
    Ok(())
}

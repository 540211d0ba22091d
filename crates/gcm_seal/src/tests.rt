use super::*;

const AAD: &[u8; 29] = b"one whole block and some more";

const TEXT: &[u8; 38] = b"two whole blocks and a part of a third";

// From another implementation, under the key of the bytes 0 to 23 and the initialization vector of
// the bytes 100 to 111.
const SEALED: &[u8; 38] = b"\x9d\x1f\xd4\x5c\x25\xc7\x61\x54\xb6\xf1\x80\x6d\x95\x91\xf0\xcd\
      \xfd\x38\x30\xae\xda\xe8\x51\x9f\xe0\x31\x3c\xea\xd9\x08\xb8\x21\
      \x7a\x20\x6f\xf6\x2a\x71";

// The end of 300 bytes sealed by another implementation, under the key of the bytes 0 to 31 and the
// same initialization vector.
const LONG_TAIL: &[u8; 48] = b"\xc6\xd5\x08\x62\x77\x74\x84\x95\x61\x0a\xbe\xe7\x85\x37\x90\xc9\
      \xac\xfd\x7c\x79\xd8\xfc\x33\xaf\x29\xac\xea\xc4\x71\xec\xf0\xef\
      \xab\xb1\x96\xaa\x33\x13\xfb\x9e\x84\x66\xb7\xf9\x78\x87\x70\xb1";

#[test]
fn zero_keys(rt: HostRuntime) {
    let tag = seal(&[0; 16], &[0; 12], &[], &mut []);
    assert_eq!(rt;
        u128::from_be_bytes(tag),
        0x58e2_fcce_fa7e_3061_367f_1d57_a4e7_455a
    );

    let mut text = [0; 16];
    let tag = seal(&[0; 16], &[0; 12], &[], &mut text);
    assert_eq!(rt;
        u128::from_be_bytes(text),
        0x0388_dace_60b6_a392_f328_c2b9_71b2_fe78
    );
    assert_eq!(rt;
        u128::from_be_bytes(tag),
        0xab6e_47d4_2cec_13bd_f53a_67b2_1257_bddf
    );

    let mut text = [0; 16];
    let tag = seal(&[0; 32], &[0; 12], &[], &mut text);
    assert_eq!(rt;
        u128::from_be_bytes(text),
        0xcea7_403d_4d60_6b6e_074e_c5d3_baf3_9d18
    );
    assert_eq!(rt;
        u128::from_be_bytes(tag),
        0xd0d1_c8a7_9999_6bf0_265b_98b5_d48a_b919
    );
}

#[test]
fn partial_blocks_under_192_bits(rt: HostRuntime) {
    let key = [
        0, 1, 2, 3, 4, 5, 6, 7, 8, 9, 10, 11, 12, 13, 14, 15, 16, 17, 18, 19, 20, 21, 22, 23,
    ];
    let iv = [100, 101, 102, 103, 104, 105, 106, 107, 108, 109, 110, 111];
    let mut text = *TEXT;
    let mut tag = seal(&key, &iv, AAD, &mut text);
    assert_eq!(rt; text, *SEALED);
    assert_eq!(rt;
        u128::from_be_bytes(tag),
        0x2a06_25ab_12ca_746b_c1ea_45c1_80a2_e354
    );

    assert_eq!(rt; unseal(&key, &iv, AAD, &mut text, &tag), Ok(()));
    assert_eq!(rt; text, *TEXT);

    tag[15] ^= 1;
    assert_eq!(rt; unseal(&key, &iv, AAD, &mut text, &tag), Err(BadTag));
}

#[test]
fn three_groups_of_blocks(rt: HostRuntime) {
    let mut key = [0; 32];
    for i in 0..32u8 {
        key[i as usize] = i;
    }
    let iv = [100, 101, 102, 103, 104, 105, 106, 107, 108, 109, 110, 111];
    let mut text = [0; 300];
    let mut byte = 0u8;
    for i in 0..300 {
        text[i] = byte;
        byte = byte.wrapping_add(7);
    }
    let tag = seal(&key, &iv, b"aad", &mut text);
    assert_eq!(rt; &text[252..], LONG_TAIL.as_slice());
    assert_eq!(rt;
        u128::from_be_bytes(tag),
        0x9004_db4d_b582_8fe1_b606_959c_81d3_909a
    );
}

#[test]
fn products_of_blocks(rt: HostRuntime) {
    let h = 0x66e9_4bd4_ef8a_2c3b_884c_fa59_ca34_2b2e;
    let x = 0x0388_dace_60b6_a392_f328_c2b9_71b2_fe78;
    let expected = 0x5e2e_c746_9170_6288_2c85_b068_5353_deb7;
    assert_eq!(rt; product::multiply_by_steps(x, h), expected);
    let mut multiples = [0; product::MULTIPLES_LEN];
    product::put_multiples(&mut multiples, h);
    assert_eq!(rt; product::multiply(x, &multiples), expected);
    let mut looks = 5;
    assert_eq!(rt; GhashTable::new(h).mul_counted(x, &mut looks), expected);
    assert_eq!(rt; looks, 37);
}

#[test]
fn bad_tag_prints(rt: HostRuntime) -> Result<(), std::test::Fail> {
    assert_eq!(rt;
        format!(in rt.alloc(); "{BadTag}")?.as_str(),
        "the tag differs"
    );
    Ok(())
}

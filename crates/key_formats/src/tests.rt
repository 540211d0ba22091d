use super::*;
use std::alloc::Global;
use std::test::Fail;

fn bad(fault: MaterialFault) -> Option<Refusal> {
    Some(Refusal::BadMaterial { fault })
}

/// The fault of hexadecimal material.
fn of_hex(material: &str) -> Option<Refusal> {
    material_fault(Format::Hex, material.as_bytes(), 0)
}

/// The fault of a passphrase of `count` letters with this behind them.
fn of_phrase(alloc: Global, count: usize, behind: &str) -> Result<Option<Refusal>, Fail> {
    let mut phrase = vec![in alloc; b'x'; count]?;
    phrase.extend_from_slice(behind.as_bytes())?;
    Ok(material_fault(Format::Passphrase, &phrase, 100_000))
}

#[test]
fn raw_material_is_the_key_itself(rt: HostRuntime) {
    let material = b"0123456789abcdef0123456789abcde\n";
    let key = wrapping_key(Format::Raw, material, 0, 0);
    assert_eq!(rt; key, Ok(*material));
    let longer = b"0123456789abcdef0123456789abcdef\n";
    assert_eq!(rt;
        material_fault(Format::Raw, longer, 0),
        bad(MaterialFault::Long)
    );
    assert_eq!(rt;
        material_fault(Format::Raw, &longer[..31], 0),
        bad(MaterialFault::Short)
    );
}

#[test]
fn hexadecimal_material_is_64_digits_of_either_case(rt: HostRuntime) {
    let digits = b"000102030405060708090a0b0c0d0e0f101112131415161718191A1B1C1D1E1F\n";
    let mut key = [0; 32];
    for i in 0..32u8 {
        key[i as usize] = i;
    }
    assert_eq!(rt; wrapping_key(Format::Hex, digits, 0, 0), Ok(key));
    assert_eq!(rt; wrapping_key(Format::Hex, &digits[..64], 0, 0), Ok(key));
    assert_eq!(rt;
        material_fault(Format::Hex, &digits[..63], 0),
        bad(MaterialFault::Short)
    );
    for (material, fault) in [
        ("", MaterialFault::Short),
        (
            "0000000000000000000000000000000000000000000000000000000000000000\n\n",
            MaterialFault::Long,
        ),
        (
            "00000000000000000000000000000000000000000000000000000000000000000",
            MaterialFault::Long,
        ),
        (
            "00000g000000000000000000000000000000000000000000000000000000000g",
            MaterialFault::Hex { at: 5 },
        ),
        ("g0000", MaterialFault::Short),
    ] {
        assert_eq!(rt; of_hex(material), bad(fault), "at {material}");
    }
}

#[test]
fn passphrases_have_8_to_512_bytes(rt: HostRuntime) -> Result<(), Fail> {
    let alloc = rt.alloc();
    for (count, behind, fault) in [
        (7, "", bad(MaterialFault::Short)),
        (7, "\n", bad(MaterialFault::Short)),
        (8, "", None),
        (8, "\n", None),
        (512, "", None),
        (512, "\n", None),
        (512, "\n\n", bad(MaterialFault::Long)),
        (513, "", bad(MaterialFault::Long)),
        (513, "\n", bad(MaterialFault::Long)),
    ] {
        assert_eq!(rt; of_phrase(alloc, count, behind)?, fault, "at {count}");
    }
    Ok(())
}

#[test]
fn iterations_are_tested_before_a_passphrase_alone(rt: HostRuntime) {
    for (iters, refused) in [
        (0, true),
        (99_999, true),
        (100_000, false),
        (10_000_000, false),
        (10_000_001, true),
    ] {
        let fault = material_fault(Format::Passphrase, b"short", iters);
        assert_eq!(rt; fault == Some(Refusal::BadIters), refused, "at {iters}");
    }
    assert_eq!(rt; material_fault(Format::Raw, &[0; 32], 1), None);
}

#[test]
fn a_passphrase_is_derived_with_its_salt_low_byte_first(rt: HostRuntime) {
    // hashlib.pbkdf2_hmac('sha1', b'open sesame', bytes.fromhex('0807060504030201'), 100000, 32)
    const KEY: [u8; 32] = [
        0xf0, 0x4d, 0xf8, 0x60, 0xe0, 0xab, 0x7b, 0x2d, 0xa0, 0xb9, 0x75, 0xa8, 0x63, 0xee, 0x26,
        0xfe, 0x3d, 0x2d, 0x1d, 0x19, 0xd3, 0x80, 0xb8, 0xf3, 0x58, 0x5e, 0xe8, 0x08, 0x7e, 0x74,
        0xf6, 0x32,
    ];
    let salt = 0x0102_0304_0506_0708;
    let key = wrapping_key(Format::Passphrase, b"open sesame\n", 100_000, salt);
    assert_eq!(rt; key, Ok(KEY));
    keys_have_32_bytes();
}

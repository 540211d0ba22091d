use super::*;
use std::test::Fail;

// FIPS 197's example vectors: the key's bytes rise from 00, and the block is 00112233..ff.
const BLOCK: [u8; 16] = [
    0x00, 0x11, 0x22, 0x33, 0x44, 0x55, 0x66, 0x77, 0x88, 0x99, 0xaa, 0xbb, 0xcc, 0xdd, 0xee, 0xff,
];

const KEY: [u8; 32] = [
    0x00, 0x01, 0x02, 0x03, 0x04, 0x05, 0x06, 0x07, 0x08, 0x09, 0x0a, 0x0b, 0x0c, 0x0d, 0x0e, 0x0f,
    0x10, 0x11, 0x12, 0x13, 0x14, 0x15, 0x16, 0x17, 0x18, 0x19, 0x1a, 0x1b, 0x1c, 0x1d, 0x1e, 0x1f,
];

#[test]
fn aes_128_encrypts_the_example(rt: HostRuntime) -> Result<(), Fail> {
    let mut block = BLOCK;
    Aes::<4>::expand(&KEY[..16]).encrypt_block(&mut block);
    let expected = [
        0x69, 0xc4, 0xe0, 0xd8, 0x6a, 0x7b, 0x04, 0x30, 0xd8, 0xcd, 0xb7, 0x80, 0x70, 0xb4, 0xc5,
        0x5a,
    ];
    assert_eq!(rt; block, expected);
    Ok(())
}

#[test]
fn aes_192_encrypts_the_example(rt: HostRuntime) -> Result<(), Fail> {
    let mut block = BLOCK;
    Aes::<6>::expand(&KEY[..24]).encrypt_block(&mut block);
    let expected = [
        0xdd, 0xa9, 0x7c, 0xa4, 0x86, 0x4c, 0xdf, 0xe0, 0x6e, 0xaf, 0x70, 0xa0, 0xec, 0x0d, 0x71,
        0x91,
    ];
    assert_eq!(rt; block, expected);
    Ok(())
}

#[test]
fn aes_256_encrypts_the_example(rt: HostRuntime) -> Result<(), Fail> {
    let mut block = BLOCK;
    Aes::<8>::expand(&KEY).encrypt_block(&mut block);
    let expected = [
        0x8e, 0xa2, 0xb7, 0xca, 0x51, 0x67, 0x45, 0xbf, 0xea, 0xfc, 0x49, 0x90, 0x4b, 0x49, 0x60,
        0x89,
    ];
    assert_eq!(rt; block, expected);
    Ok(())
}

#[test]
fn eight_blocks_are_as_by_steps(rt: HostRuntime) -> Result<(), Fail> {
    let cipher = Aes::<6>::expand(&KEY[..24]);
    let mut blocks = [0; 128];
    for i in 0..8 {
        blocks[16 * i] = 7;
        blocks[16 * i + 15] = 1 << i;
    }
    cipher.encrypt_blocks(&mut blocks);
    for i in 0..8 {
        let mut block = [0; 16];
        block[0] = 7;
        block[15] = 1 << i;
        cipher.encrypt_by_steps(&mut block);
        assert_eq!(rt; &blocks[16 * i..16 * i + 16], block.as_slice());
    }
    Ok(())
}

#[test]
fn look_ups_are_counted(rt: HostRuntime) -> Result<(), Fail> {
    let mut looks = 5;
    let mut block = BLOCK;
    Aes::<4>::expand(&KEY[..16]).encrypt_counted(&mut block, &mut looks);
    assert_eq!(rt; block[0], 0x69);
    assert_eq!(rt; looks, 165);
    Ok(())
}

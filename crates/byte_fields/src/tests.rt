use super::*;
use std::test::Fail;

#[test]
fn fields_are_read_lowest_byte_first(rt: HostRuntime) -> Result<(), Fail> {
    let bytes = [0xff, 0x34, 0x12, 0x78, 0x56, 0xbc, 0x9a, 0xf0, 0xde];
    assert_eq!(rt; get_u16(&bytes, 1), 0x1234);
    assert_eq!(rt; get_u32(&bytes, 1), 0x5678_1234);
    assert_eq!(rt; get_u64(&bytes, 1), 0xdef0_9abc_5678_1234);
    Ok(())
}

#[test]
fn fields_are_written_lowest_byte_first(rt: HostRuntime) -> Result<(), Fail> {
    let mut bytes = [0xff; 16];
    put_u16(&mut bytes, 1, 0x1234);
    put_u32(&mut bytes, 3, 0x5678_9abc);
    put_u64(&mut bytes, 7, 0x0123_4567_89ab_cdef);
    let expected = [
        0xff, 0x34, 0x12, 0xbc, 0x9a, 0x78, 0x56, 0xef, 0xcd, 0xab, 0x89, 0x67, 0x45, 0x23, 0x01,
        0xff,
    ];
    assert_eq!(rt; bytes, expected);
    Ok(())
}

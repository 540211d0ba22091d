use crate::{block_at, put_block, xor_block, xor_into};

#[test]
fn the_last_block_is_cut(rt: HostRuntime) {
    let mut bytes = *b"ABCDEFGHIJ";
    assert_eq!(rt; block_at(&bytes, 4, 1), b"EFGH".as_slice());
    assert_eq!(rt; block_at(&bytes, 4, 2), b"IJ".as_slice());
    put_block(&mut bytes, 2, b"wxyz");
    assert_eq!(rt; bytes, *b"ABCDEFGHwx");
    xor_block(&mut bytes, 1, b"    ");
    assert_eq!(rt; bytes, *b"ABCDefghwx");
    xor_into(&mut bytes[..2], b"   ");
    assert_eq!(rt; bytes, *b"abCDefghwx");
}

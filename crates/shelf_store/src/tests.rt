ghost use Rattle.std.specs.Prelude.{◌≡◌, None, OnOk, IfSome, length};

use crate::{Failed, MemShelf, Shelf, ShelfError};
use std::test::Fail;

// Puts a block and reads it back, at any shelf with no armed failure.
fn put_and_get<S: Shelf>(shelf: &mut S, block: &[u8], out: &mut [u8]) -> Result<u64, ShelfError>
    requires sizes { length out.old ≡ length block.now }
    requires not_armed { (S.told shelf.old).armed ≡ None }
    ensures read { OnOk result (IfSome (S.told shelf.new).held (λ _. out.new ≡ block.now)) }
{
    let address = shelf.put(block)?;
    match shelf.get(address, out) {
        Ok(()) => Ok(address),
        Err(Failed) => Err(ShelfError::Fault),
    }
}

#[test]
fn a_block_is_read_as_it_was_put(rt: HostRuntime) -> Result<(), Fail> {
    let mut shelf = MemShelf::fresh(rt.alloc())?;
    assert_eq!(rt; shelf.blocks(), 0);
    assert_eq!(rt; shelf.size(0), None);
    let mut out = [0; 3];
    assert_eq!(rt; put_and_get(&mut shelf, b"abc", &mut out), Ok(0));
    assert_eq!(rt; out, *b"abc");
    assert_eq!(rt; shelf.put(b"de"), Ok(1));
    assert_eq!(rt; shelf.size(1), Some(2));
    assert_eq!(rt; shelf.blocks(), 2);
    Ok(())
}

#[test]
fn a_shelf_is_full_at_its_limit(rt: HostRuntime) -> Result<(), Fail> {
    let block = vec![in rt.alloc(); 7; 131_072]?;
    let mut shelf = MemShelf::fresh(rt.alloc())?;
    for address in 0..256u64 {
        assert_eq!(rt; shelf.put(&block), Ok(address));
    }
    assert_eq!(rt; shelf.put(&[0]), Err(ShelfError::Full));
    assert_eq!(rt; shelf.put(&[]), Ok(256));
    Ok(())
}

#[test]
fn alter_changes_what_is_read_and_not_what_was_put(rt: HostRuntime) -> Result<(), Fail> {
    let mut shelf = MemShelf::fresh(rt.alloc())?;
    assert_eq!(rt; shelf.put(b"abc"), Ok(0));
    let before = shelf.copy()?;
    assert!(rt; shelf.same(&before));
    assert_eq!(rt; shelf.alter(0, 1, 0x03), Ok(()));
    let mut out = [0; 3];
    assert_eq!(rt; shelf.get(0, &mut out), Ok(()));
    assert_eq!(rt; out, *b"aac");
    assert!(rt; !shelf.same(&before));
    let mut other = MemShelf::fresh(rt.alloc())?;
    assert_eq!(rt; other.put(b"aac"), Ok(0));
    assert!(rt; !shelf.same(&other));
    assert_eq!(rt; shelf.alter(0, 1, 0x03), Ok(()));
    assert!(rt; shelf.same(&before));
    shelf.fail_after(9);
    assert!(rt; !shelf.same(&before));
    assert!(rt; shelf.same(&shelf.copy()?));
    Ok(())
}

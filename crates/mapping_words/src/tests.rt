ghost use Rattle.std.specs.Prelude.{◌≡◌, ◌<◌, ◌≤◌, true, length};
ghost use Rattle.mapping_words.specs.Told.{slot_at};

use super::*;
use std::test::Fail;

// Tries to close a mounted slot, and gives how many the close found.
fn found_by_a_close<K: SlotKeeper>(keeper: &mut K, board: &K::Board, slot: u32) -> u32
    requires fits { K.fits keeper.old board.now }
    requires there { slot < length (K.told keeper.old).slots }
    requires is_open { (slot_at (K.told keeper.old) slot).is_open ≡ true }
    requires is_mounted { (slot_at (K.told keeper.old) slot).is_mounted ≡ true }
    ensures used { 1 ≤ result }
    ensures kept { (K.told keeper.new).slots ≡ (K.told keeper.old).slots }
{
    match keeper.close_slot(board, slot) {
        Err(found) => found.count(),
        Ok(()) => 0,
    }
}

#[test]
fn a_slot_is_closed_only_while_it_is_unmounted(rt: HostRuntime) -> Result<(), Fail> {
    let mut lone = LoneWords::new(rt.alloc(), 2)?;
    assert_eq!(rt; lone.open_slot(&(), 0), 1);
    lone.mount(&(), 0);
    assert_eq!(rt;
        (lone.count(&(), 0), found_by_a_close(&mut lone, &(), 0)),
        (1, 1)
    );
    let found = InUse {
        word: 30_064_771_073,
    };
    assert_eq!(rt; lone.close_slot(&(), 0), Err(found));
    lone.unmount(&(), 0);
    assert_eq!(rt; lone.close_slot(&(), 0), Ok(()));
    assert_eq!(rt; lone.open_slot(&(), 0), 2);
    words_have_their_parts();
    calls_change_one_slot();
    Ok(())
}

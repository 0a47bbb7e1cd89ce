//! Slots of a guest of two pages, and of one of forty, in pages of 256 bytes.

use super::*;
use std::process::Abort;
use std::test::Fail;

#[test]
fn two_pages_have_slots(rt: HostRuntime) -> Result<(), Fail> {
    let mut slots = Slots::with_all(rt.alloc(), 2)?;
    assert_eq!(rt; slots.slot_of(1), Some(0));
    assert_eq!(rt; slots.slot_of(2), None);
    let whole = Slot {
        id: 0,
        first: 0,
        count: 2,
    };
    assert_eq!(rt; slots.unregister(0), Ok(whole));
    assert_eq!(rt; slots.register(0, 0x100, 0, 7, 8, 2), Ok(()));
    assert_eq!(rt;
        slots.register(0, 0x100, 0, 8, 8, 2),
        Err(SlotFault::Overlap)
    );
    assert_eq!(rt;
        slots.register(0x80, 0x100, 0, 8, 8, 2),
        Err(SlotFault::BadStart)
    );
    assert_eq!(rt;
        slots.register(0x100, 0, 0, 8, 8, 2),
        Err(SlotFault::BadSize)
    );
    assert_eq!(rt;
        slots.register(0x100, 0x100, 1, 8, 8, 2),
        Err(SlotFault::BadFlags)
    );
    assert_eq!(rt;
        slots.register(0x100, 0x100, 0, 65536, 8, 2),
        Err(SlotFault::IdOutOfRange)
    );
    assert_eq!(rt;
        slots.register(0x100, 0x100, 0, 7, 8, 2),
        Err(SlotFault::IdTaken)
    );
    assert_eq!(rt; slots.unregister(9), Err(SlotFault::NoSlot));
    assert_eq!(rt; slots.slot_of(0), Some(7));
    assert_eq!(rt; slots.slot_of(1), None);
    Ok(())
}

#[test]
fn thirty_two_slots_are_all(rt: HostRuntime) -> Result<(), Fail> {
    let mut slots = Slots::build(rt.alloc())?;
    for number in 0..32u64 {
        assert_eq!(rt;
            slots.register(number * 0x100, 0x100, 0, number, 8, 40),
            Ok(())
        );
    }
    assert_eq!(rt;
        slots.register(0x2000, 0x100, 0, 32, 8, 40),
        Err(SlotFault::Full)
    );
    assert_eq!(rt; slots.len(), 32);
    slots.clear();
    assert_eq!(rt; slots.len(), 0);
    Ok(())
}

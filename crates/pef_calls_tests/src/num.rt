//! A doubleword is put and read, and an address has its frame and its place.

use pef_num::{Place, dw_at, frame_of, place_of, put_dw};

#[test]
fn a_doubleword_is_put_and_read(rt: HostRuntime) {
    let mut bytes = [0xa5; 16];
    put_dw(&mut bytes, 3, 0x0102_0304_0506_0708);
    assert_eq!(rt;
        bytes,
        [
            0xa5, 0xa5, 0xa5, 1, 2, 3, 4, 5, 6, 7, 8, 0xa5, 0xa5, 0xa5, 0xa5, 0xa5
        ]
    );
    assert_eq!(rt; dw_at(&bytes, 3), 0x0102_0304_0506_0708);
    assert_eq!(rt; dw_at(&bytes, 8), 0x0607_08a5_a5a5_a5a5);
}

#[test]
fn a_frame_begins_at_its_address(rt: HostRuntime) {
    assert_eq!(rt; frame_of(0x300, 8), Some(3));
    assert_eq!(rt; frame_of(0xffff_ffff_0000, 16), Some(0xffff_ffff));
}

#[test]
fn a_doubleword_has_a_place(rt: HostRuntime) {
    assert_eq!(rt; place_of(0x3f8, 8), Some(Place { page: 3, off: 0xf8 }));
    assert_eq!(rt;
        place_of(0xffff_ffff_fff8, 16),
        Some(Place {
            page: 0xffff_ffff,
            off: 0xfff8
        })
    );
}

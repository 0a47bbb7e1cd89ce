//! A partition entry is checked, and gives each page its frame.

use pef_pate::{Pate, PateFault};

#[test]
fn an_entry_has_three_pages(rt: HostRuntime) {
    let entry = Pate { dw0: 0x100, dw1: 3 };
    assert_eq!(rt; Pate::check(0x80, 4, 8, 4, 4), Err(PateFault::BadBase));
    assert_eq!(rt; Pate::check(0x100, 4, 8, 4, 4), Err(PateFault::BadLength));
    assert_eq!(rt; Pate::check(0x100, 3, 8, 4, 4), Ok(entry));
    assert_eq!(rt; entry.frame(0, 8), Some(1));
    assert_eq!(rt; entry.frame(2, 8), Some(3));
    assert_eq!(rt; entry.frame(3, 8), None);
}

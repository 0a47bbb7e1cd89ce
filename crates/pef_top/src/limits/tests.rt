ghost use Rattle.pef_model.specs.Plan.{IsInRange, IsWithin};

use super::*;
use std::test::Fail;

/// A configuration of so many normal and secure frames, and of guests with so many pages, each of 65,536 bytes.
fn sized(rt: &HostRuntime, normal: u32, secure: u32, guests: u16, pages: u32) -> Config
    requires normal { IsWithin 1 1024 normal }
    requires secure { IsWithin 1 1024 secure }
    requires guests { IsWithin 1 16 guests }
    requires pages { IsWithin 1 1024 pages }
    ensures { IsInRange result }
{
    let mut config = Config::with_defaults(rt.alloc());
    config.normal = normal;
    config.secure = secure;
    config.guests = guests;
    config.pages = pages;
    config
}

#[test]
fn a_limit_is_passed_by_one_byte_more(rt: HostRuntime) -> Result<(), Fail> {
    assert!(rt; check_limits(0, &sized(&rt, 512, 512, 2, 512)) == Ok(()));
    assert!(rt; check_limits(200_000, &sized(&rt, 1, 1, 16, 64)) == Ok(()));
    // 1,025 frames of 65,536 bytes, and 1,026 pages.
    let frames = RunFault::Limit(Limit::Frames { bytes: 67_174_400 });
    let pages = RunFault::Limit(Limit::Pages { bytes: 67_239_936 });
    assert!(rt; check_limits(0, &sized(&rt, 512, 513, 2, 512)) == Err(frames));
    assert!(rt; check_limits(0, &sized(&rt, 512, 512, 2, 513)) == Err(pages));
    assert!(rt; check_limits(0, &sized(&rt, 513, 512, 2, 513)) == Err(frames));
    // 16 times 65 pages, and the command lines count first.
    let guests = RunFault::Limit(Limit::Pages { bytes: 68_157_440 });
    let commands = RunFault::Limit(Limit::Commands { count: 200_001 });
    assert!(rt; check_limits(0, &sized(&rt, 1, 1, 16, 65)) == Err(guests));
    assert!(rt; check_limits(200_001, &sized(&rt, 513, 512, 16, 65)) == Err(commands));
    Ok(())
}

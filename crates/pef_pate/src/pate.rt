//! Partition entries, and what is wrong with one that is refused.

ghost use Rattle.std.specs.Prelude.{◌≡◌, ◌+◌, ◌/◌, ◌^◌, ◌≤◌};
ghost use Rattle.pef_model.specs.Plan.{IsWithin};
ghost use Rattle.pef_pate.specs.Entry.{checked, frame_at};

use pef_num::frame_of;

/// A guest's partition entry, as UV_WRITE_PATE sets it. That it is a linear map is this project's own.
#[derive(Clone, Copy, Debug, PartialEq, Eq)]
pub struct Pate {
    /// The real address of the normal frame of page 0, in bytes.
    pub dw0: u64,
    /// How many pages have a frame, from page 0 on.
    pub dw1: u64,
}

/// Why an entry is refused.
#[derive(Clone, Copy, Debug, PartialEq, Eq)]
pub enum PateFault {
    /// The base is no address of a normal frame.
    BadBase,
    /// There are more pages than the guest has, or the last one's frame is none of the machine's.
    BadLength,
}

impl Pate {
    /// The entry with this base, in bytes, and this number of pages, for a guest of `pages` pages of 2^shift bytes in a machine
    /// of `normal` normal frames.
    ///
    /// BadBase exactly where no normal frame begins at the base, whatever the length; BadLength exactly where the base is
    /// right, and the length is above `pages` or reaches past the last normal frame.
    pub fn check(dw0: u64, dw1: u64, shift: u8, normal: u32, pages: u32) -> Result<Pate, PateFault>
        requires { IsWithin 8 16 shift }
        ensures { result ≡ checked shift normal pages dw0 dw1 }
    {
        let base = match frame_of(dw0, shift) {
            Some(base) if base < normal => base,
            _ => return Err(PateFault::BadBase),
        };
        if dw1 > u64::from(pages) || dw1 > u64::from(normal - base) {
            return Err(PateFault::BadLength);
        }
        Ok(Pate { dw0, dw1 })
    }

    /// The number of the normal frame of a page, by its number from 0, in pages of 2^shift bytes.
    ///
    /// None exactly where the entry has no such page.
    pub fn frame(&self, gfn: u32, shift: u8) -> Option<u32>
        requires shift { IsWithin 8 16 shift }
        requires reach { self.now.dw0 / 2 ^ shift + self.now.dw1 ≤ 2 ^ 32 }
        ensures { result ≡ frame_at shift self.now gfn }
    {
        if u64::from(gfn) >= self.dw1 {
            return None;
        }
        Some((self.dw0 >> shift) as u32 + gfn)
    }
}

//! A run of pages, as a start and a size in bytes give it.

ghost use Rattle.std.specs.Prelude.{◌≡◌, ◌/◌, ◌^◌, ◌<◌, ◌-◌, if◌then◌else◌, Some, None};
ghost use Rattle.pef_model.specs.Plan.{IsWithin};
ghost use Rattle.pef_slots.specs.Slots.{is_start, is_size};

use pef_num::frame_of;

/// The number of the page that begins at a start, where it is one of `pages`.
pub fn first_of(start: u64, shift: u8, pages: u32) -> Option<u32>
    requires { IsWithin 8 16 shift }
    ensures { result ≡ (if is_start shift pages start then Some (start / 2 ^ shift) else None) }
{
    frame_of(start, shift).filter(|first| *first < pages)
}

/// How many pages have a size together, where they are one or more, and from page `first` on there are as many of `pages`.
pub fn count_of(size: u64, shift: u8, first: u32, pages: u32) -> Option<u32>
    requires shift { IsWithin 8 16 shift }
    requires first { first < pages }
    ensures { result ≡ (if is_size shift pages first size then Some (size / 2 ^ shift) else None) }
{
    // A page's address is the size of all pages before it.
    frame_of(size, shift).filter(|count| *count > 0 && *count <= pages - first)
}

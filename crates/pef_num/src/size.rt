//! The size of a page or a frame.

ghost use Rattle.std.specs.Prelude.{◌≡◌, ◌^◌};
ghost use Rattle.pef_model.specs.Plan.{IsWithin};

/// How many bytes a page or a frame has.
pub fn size_of(shift: u8) -> u64
    requires { IsWithin 8 16 shift }
    ensures { result ≡ 2 ^ shift }
{
    1 << shift
}

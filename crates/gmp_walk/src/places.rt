//! The numbers of what stands at a place of a list. Of each there are fewer than numbers, so the last number is never meant.
ghost use Rattle.std.specs.Prelude.{◌≡◌, ◌<◌, ◌^◌};

use gmp_base::{CNo, GNo, MNo, PNo};

/// The goroutine at this place.
pub fn goroutine_at(place: usize) -> GNo
    ensures { place < 2 ^ 16 → result.0 ≡ place }
{
    GNo(u16::try_from(place).unwrap_or(u16::MAX))
}

/// The machine at this place.
pub fn machine_at(place: usize) -> MNo
    ensures { place < 2 ^ 8 → result.0 ≡ place }
{
    MNo(u8::try_from(place).unwrap_or(u8::MAX))
}

/// The processor at this place.
pub fn processor_at(place: usize) -> PNo
    ensures { place < 2 ^ 8 → result.0 ≡ place }
{
    PNo(u8::try_from(place).unwrap_or(u8::MAX))
}

/// The channel at this place.
pub fn channel_at(place: usize) -> CNo
    ensures { place < 2 ^ 16 → result.0 ≡ place }
{
    CNo(u16::try_from(place).unwrap_or(u16::MAX))
}

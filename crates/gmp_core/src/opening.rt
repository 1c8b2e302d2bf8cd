//! The machines at their start, and at their end.
//! Passes must be spent and drivers hold them, so both loops go on until their list is empty.
ghost use Rattle.std.specs.Prelude.{◌≡◌, ◌≤◌, [], All, IsSome, length, map, vec_capacity};
ghost use Rattle.gmp_driver.specs.Machine.{Machine};
ghost use Rattle.gmp_core.specs.Opening.{at_start};

use gmp_base::Pass;
use gmp_driver::Driver;

/// A program at its start for each pass, in order, in room that is there.
/// They come off the end, so the list is turned round at last.
pub(crate) fn starting<T>(
    room: Vec<Driver<T, ()>>,
    passes: Vec<Pass>,
    procs: u8,
    is_fair: bool,
) -> Vec<Driver<T, ()>>
    requires empty { room.items ≡ [] }
    requires room { length passes.items ≤ vec_capacity room }
    requires some { 1 ≤ procs }
    requires few { procs ≤ 32 }
    ensures { result.items ≡ map (at_start is_fair procs) passes.items }
{
    let mut drivers = room;
    let mut passes = passes;
    while let Some(pass) = passes.pop() {
        drivers.push_reserved(Driver::new_fair(pass, procs, is_fair));
    }
    passes.destroy_empty();
    drivers.reverse();
    drivers
}

/// Spends the passes, and lets all else go.
pub(crate) fn let_go<T: Drop>(drivers: Vec<Driver<T, ()>>)
    requires { All (λ x. IsSome x.pass) drivers.items }
{
    let mut drivers = drivers;
    while let Some(driver) = drivers.pop() {
        driver.into_pass().open();
    }
    drivers.destroy_empty();
}

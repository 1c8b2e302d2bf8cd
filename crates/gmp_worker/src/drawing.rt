//! The word that an act draws.
ghost use Rattle.std.specs.Prelude.{◌≡◌};
ghost use Rattle.gmp_worker.specs.Drawn.{drawn_for};

use gmp_driver::Act;
use gmp_seq::Call;
use rand_core::utils::next_u64_via_u32;
use rand_pcg::Lcg64Xsh32;

/// The word that the act draws, the low half first; 0 where it draws none.
pub(crate) fn draw_for(act: &Act, random: &mut Lcg64Xsh32) -> u64
    ensures { (result, random.new) ≡ drawn_for act.now random.old }
{
    match act {
        Act::Hunt | Act::Call(Call::Select(_, _, _)) => next_u64_via_u32(random),
        _ => 0,
    }
}

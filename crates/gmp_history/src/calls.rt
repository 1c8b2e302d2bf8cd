//! A call made brief (`brief_call`) and whole again (`whole_call`): one arm for each variant, and the second undoes the first. What is wide
//! stands in functions that are not inlined, so that whoever adds or reads a narrow entry pays for none of it.
ghost use Rattle.std.specs.Prelude.{◌≡◌, true, false, All, ◌<◌, ◌≤◌, ◌∷◌, ◌++◌, [], length, slice_get, vec_capacity};
ghost use Rattle.gmp_base.specs.Fits.{FitsCase};
ghost use Rattle.gmp_seq.specs.Fits.{FitsCall};
ghost use Rattle.gmp_history.specs.Brief.{IsCallIn, call_of, choosing_in, is_select, select_of};

use crate::brief::{BriefCall, CallKind, Choosing};
use crate::numbers::{channel, goroutine, moment_or_none, readiness, ready};
use gmp_base::{CNo, Cases, GNo};
use gmp_seq::Call;

/// The number that a select gets, whose choosing goes last. It has a function of its own, since locals are zeroed where a function begins,
/// and a choosing is large.
#[inline(never)]
fn chosen(
    choosings: &mut Vec<Choosing>,
    cases: &Cases,
    has_default: bool,
    until: Option<u64>,
) -> u64
    requires room { length choosings.old.items < vec_capacity choosings.old }
    ensures value { result ≡ length choosings.old.items }
    ensures choosings { choosings.new.items ≡ choosings.old.items ++ record { cases = cases.now; has_default = has_default; until = until } ∷ [] }
    ensures few_cases { length cases.now ≤ 8 }
    ensures cases_fit { All FitsCase cases.now }
    ensures room { vec_capacity choosings.new ≡ vec_capacity choosings.old }
{
    // It tells that there are at most 8, and that they fit.
    let _ = cases.as_slice();
    let number = choosings.len() as u64;
    choosings.push_reserved(Choosing {
        cases: cases.copied(),
        has_default,
        until,
    });
    number
}

/// The call made brief. What a select asks goes last among the choosings. Of a call that is known to be plain, which is no select, no wide
/// arm is compiled in.
#[inline(always)]
pub(crate) fn brief_call(choosings: &mut Vec<Choosing>, call: &Call, is_plain: bool) -> BriefCall
    requires plain { is_plain ≡ true → is_select call.now ≡ false }
    requires room { length choosings.old.items < vec_capacity choosings.old }
    ensures value { call_of choosings.new.items result.kind result.number result.word ≡ call.now }
    ensures choosings { choosings.new.items ≡ choosings.old.items ++ choosing_in call.now }
    ensures there { IsCallIn (length choosings.new.items) result.kind result.word }
    ensures fits { FitsCall call.now }
    ensures room { vec_capacity choosings.new ≡ vec_capacity choosings.old }
{
    match call {
        Call::Acquire => BriefCall::new(CallKind::Acquire, 0, 0),
        Call::Take => BriefCall::new(CallKind::Take, 0, 0),
        Call::Put(r) => {
            let r = ready(*r);
            BriefCall::new(CallKind::Put, r.g.0, r.epoch)
        }
        Call::Claim(r) => {
            let r = ready(*r);
            BriefCall::new(CallKind::Claim, r.g.0, r.epoch)
        }
        Call::Go(g) => BriefCall::new(CallKind::Go, goroutine(*g).0, 0),
        Call::Spawn => BriefCall::new(CallKind::Spawn, 0, 0),
        Call::Yield => BriefCall::new(CallKind::Yield, 0, 0),
        Call::Exit => BriefCall::new(CallKind::Exit, 0, 0),
        Call::Make(capacity) => BriefCall::new(CallKind::Make, 0, u64::from(*capacity)),
        Call::Send(Some(c), v) => BriefCall::new(CallKind::Send, channel(*c).0, *v),
        Call::Send(None, v) => BriefCall::new(CallKind::SendNil, 0, *v),
        Call::Recv(Some(c)) => BriefCall::new(CallKind::Recv, channel(*c).0, 0),
        Call::Recv(None) => BriefCall::new(CallKind::RecvNil, 0, 0),
        Call::Close(Some(c)) => BriefCall::new(CallKind::Close, channel(*c).0, 0),
        Call::Close(None) => BriefCall::new(CallKind::CloseNil, 0, 0),
        Call::Len(Some(c)) => BriefCall::new(CallKind::Len, channel(*c).0, 0),
        Call::Len(None) => BriefCall::new(CallKind::LenNil, 0, 0),
        Call::Cap(Some(c)) => BriefCall::new(CallKind::Cap, channel(*c).0, 0),
        Call::Cap(None) => BriefCall::new(CallKind::CapNil, 0, 0),
        // With this line before the next one, a plain call's code has nothing of a select.
        Call::Select(_, _, _) if is_plain => unreachable!(),
        Call::Select(cases, has_default, until) => {
            let until = moment_or_none(*until);
            BriefCall::new(
                CallKind::Select,
                0,
                chosen(choosings, cases, *has_default, until),
            )
        }
        Call::Sleep(until) => BriefCall::new(CallKind::Sleep, 0, *until),
        Call::Procs(n) => BriefCall::new(CallKind::Procs, 0, u64::from(*n)),
        Call::Gopark => BriefCall::new(CallKind::Gopark, 0, 0),
        Call::Ready(g) => BriefCall::new(CallKind::Ready, goroutine(*g).0, 0),
        Call::Enter => BriefCall::new(CallKind::Enter, 0, 0),
        Call::Leave(number) => BriefCall::new(CallKind::Leave, 0, *number),
        Call::Spin => BriefCall::new(CallKind::Spin, 0, 0),
        Call::Woken => BriefCall::new(CallKind::Woken, 0, 0),
        Call::Keep => BriefCall::new(CallKind::Keep, 0, 0),
        Call::Unspin => BriefCall::new(CallKind::Unspin, 0, 0),
        Call::Poke => BriefCall::new(CallKind::Poke, 0, 0),
        Call::Declare => BriefCall::new(CallKind::Declare, 0, 0),
        Call::Bare => BriefCall::new(CallKind::Bare, 0, 0),
        Call::Park => BriefCall::new(CallKind::Park, 0, 0),
        Call::Tick(moment) => BriefCall::new(CallKind::Tick, 0, *moment),
    }
}

/// The select of this number. It has a function of its own, since its cases are wide: whoever makes another call whole pays for none.
#[inline(never)]
fn select_in(choosings: &[Choosing], number: u64) -> Call
    ensures { result ≡ select_of (slice_get choosings.now number) }
{
    match choosings.get(number as usize) {
        Some(x) => Call::Select(x.cases.copied(), x.has_default, x.until),
        // No row of a history has such a number; the definition says the same, so that the equation holds of any.
        None => Call::Select(Cases::new(), false, None),
    }
}

/// The call that was made brief. A number of no choosing, which a history doesn't have, is read as a select of no case.
#[inline(always)]
pub(crate) fn whole_call(choosings: &[Choosing], brief: BriefCall) -> Call
    ensures { result ≡ call_of choosings.now brief.kind brief.number brief.word }
{
    let BriefCall { kind, number, word } = brief;
    match kind {
        CallKind::Acquire => Call::Acquire,
        CallKind::Take => Call::Take,
        CallKind::Put => Call::Put(readiness(number, word)),
        CallKind::Claim => Call::Claim(readiness(number, word)),
        CallKind::Go => Call::Go(GNo(number)),
        CallKind::Spawn => Call::Spawn,
        CallKind::Yield => Call::Yield,
        CallKind::Exit => Call::Exit,
        CallKind::Make => Call::Make((word % (1 << 32)) as u32),
        CallKind::Send => Call::Send(Some(CNo(number)), word),
        CallKind::SendNil => Call::Send(None, word),
        CallKind::Recv => Call::Recv(Some(CNo(number))),
        CallKind::RecvNil => Call::Recv(None),
        CallKind::Close => Call::Close(Some(CNo(number))),
        CallKind::CloseNil => Call::Close(None),
        CallKind::Len => Call::Len(Some(CNo(number))),
        CallKind::LenNil => Call::Len(None),
        CallKind::Cap => Call::Cap(Some(CNo(number))),
        CallKind::CapNil => Call::Cap(None),
        CallKind::Select => select_in(choosings, word),
        CallKind::Sleep => Call::Sleep(word),
        CallKind::Procs => Call::Procs((word % (1 << 8)) as u8),
        CallKind::Gopark => Call::Gopark,
        CallKind::Ready => Call::Ready(GNo(number)),
        CallKind::Enter => Call::Enter,
        CallKind::Leave => Call::Leave(word),
        CallKind::Spin => Call::Spin,
        CallKind::Woken => Call::Woken,
        CallKind::Keep => Call::Keep,
        CallKind::Unspin => Call::Unspin,
        CallKind::Poke => Call::Poke,
        CallKind::Declare => Call::Declare,
        CallKind::Bare => Call::Bare,
        CallKind::Park => Call::Park,
        CallKind::Tick => Call::Tick(word),
    }
}

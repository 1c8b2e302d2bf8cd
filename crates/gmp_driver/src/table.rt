//! The table of a machine's program: the act at each place (`act_at`), where what came of it leads (`go_on`, with `go_on_by` for a reply),
//! and what becomes of `fresh` and `turns`. Each row is an equation with the definition's.
//!
//! The code works on the spot, and on the ask beside it where the place is Do; each clause speaks of the place that they stand for.
ghost use Rattle.std.specs.Prelude.{◌≡◌, ◌≤◌};
ghost use Rattle.gmp_base.specs.declared.ask.Ask.{Ask};
ghost use Rattle.gmp_driver.specs.declared.act.Told.TheVariants as Told;
ghost use Rattle.gmp_driver.specs.declared.place.Place.TheVariants as Place;
ghost use Rattle.gmp_driver.specs.declared.seen.Seen.{Seen};
ghost use Rattle.gmp_driver.specs.Frequent.{frequent_of};
ghost use Rattle.gmp_driver.specs.Spot.{asked_at, is_ask, place_of};
ghost use Rattle.gmp_driver.specs.Table as table;

use crate::act::{Act, Frequent, QueueTold, Told};
use crate::at_queue::go_on_at_queue;
use crate::hunt::{more, victim};
use crate::place::Aside;
use crate::seen::Seen;
use crate::spot::{Spot, ask_on};
use gmp_base::{Ask, PNo, Readiness, Refusal};
use gmp_seq::{Call, Reply};

/// The call that stands for an ask. Each ask is one call; the calls that are left are the machine's own.
#[inline(always)]
fn call_for(ask: &Ask) -> Call
    ensures { result ≡ table.call_for ask.now }
{
    match ask {
        Ask::Yield => Call::Yield,
        Ask::Go(g) => Call::Go(*g),
        Ask::Spawn => Call::Spawn,
        Ask::Make(capacity) => Call::Make(*capacity),
        Ask::Send(c, v) => Call::Send(*c, *v),
        Ask::Recv(c) => Call::Recv(*c),
        Ask::Close(c) => Call::Close(*c),
        Ask::Len(c) => Call::Len(*c),
        Ask::Cap(c) => Call::Cap(*c),
        Ask::Select(cases, has_default, until) => Call::Select(
            cases.copied(),
            *has_default,
            *until,
        ),
        Ask::Sleep(until) => Call::Sleep(*until),
        Ask::Procs(n) => Call::Procs(*n),
        Ask::Park => Call::Gopark,
        Ask::Ready(g) => Call::Ready(*g),
        Ask::Block => Call::Enter,
        Ask::Exit => Call::Exit,
    }
}

/// Puts this ticket onto the shelf. That there is one follows from the place.
#[inline(always)]
fn put_call(ticket: Option<Readiness>) -> Act
    ensures { result ≡ table.put_call ticket }
{
    match ticket {
        Some(r) => Act::Call(Call::Put(r)),
        None => Act::Nothing,
    }
}

/// Claims this ticket. That there is one follows from the place.
#[inline(always)]
fn claim_call(ticket: Option<Readiness>) -> Act
    ensures { result ≡ table.claim_call ticket }
{
    match ticket {
        Some(r) => Act::Call(Call::Claim(r)),
        None => Act::Nothing,
    }
}

/// The act at each place.
#[inline(always)]
pub(crate) fn act_at(here: Spot, ask: &Ask, seen: Seen) -> Act
    requires { 1 ≤ seen.procs }
    ensures { result ≡ table.act_at seen (place_of here ask.now) }
{
    match here {
        Spot::Start => Act::Call(Call::Acquire),
        // Counted in claims: to count in time a machine would have to read the clock at each look.
        Spot::Look if seen.turns >= 16 => Act::Clock(None),
        Spot::Look => Act::Pop,
        Spot::Ticking(now) => Act::Call(Call::Tick(now)),
        Spot::Keep => Act::Call(Call::Keep),
        Spot::Glance => Act::Call(Call::Take),
        Spot::Peek(v) => Act::Steal(v),
        Spot::Drain => Act::Drain,
        Spot::PutDrain => put_call(seen.to_store),
        Spot::Global => Act::Call(Call::Take),
        Spot::Spin => Act::Call(Call::Spin),
        Spot::Hunt => Act::Hunt,
        Spot::HuntOn(number, word) => Act::Steal(victim(seen.procs, word, number)),
        Spot::More(v, _) => Act::Steal(v),
        Spot::StoreMore(_, _) => Act::Push,
        Spot::PutMore(_, _) => put_call(seen.to_store),
        Spot::Unspin => Act::Call(Call::Unspin),
        Spot::Claim if seen.fresh => Act::Call(Call::Poke),
        Spot::Claim => claim_call(seen.to_claim),
        Spot::Run => Act::Resume,
        Spot::Yield => Act::Call(Call::Yield),
        Spot::Send(c, v) => Act::Call(Call::Send(c, v)),
        Spot::Recv(c) => Act::Call(Call::Recv(c)),
        Spot::Do => Act::Call(call_for(ask)),
        Spot::Store => Act::Push,
        Spot::PutStore => put_call(seen.to_store),
        Spot::Poke => Act::Call(Call::Poke),
        Spot::Block => Act::Block,
        Spot::Leave(number) => Act::Call(Call::Leave(number)),
        Spot::Drop => Act::Call(Call::Declare),
        Spot::Bare => Act::Call(Call::Bare),
        Spot::Scan(v) => Act::Steal(v),
        Spot::Have => Act::Call(Call::Acquire),
        Spot::PutHave => put_call(seen.to_claim),
        Spot::Park => Act::Call(Call::Park),
        Spot::Rest => Act::Call(Call::Woken),
        Spot::Mind(deadline) => Act::Clock(Some(deadline)),
        Spot::MindTick(now) => Act::Call(Call::Tick(now)),
        Spot::Over => Act::Surrender(seen.first),
        Spot::Done => Act::Nothing,
    }
}

/// The act at each place, in few bytes where it is one of those that come most often.
#[inline(always)]
pub(crate) fn frequent_at(
    here: Spot,
    ask: &Ask,
    fresh: bool,
    turns: u8,
    to_claim: Option<Readiness>,
) -> Frequent
    ensures { (x : Seen) → x.fresh ≡ fresh → x.turns ≡ turns → x.to_claim ≡ to_claim → result ≡ frequent_of (table.act_at x (place_of here ask.now)) }
{
    match here {
        Spot::Look if turns >= 16 => Frequent::Other,
        Spot::Look => Frequent::Pop,
        Spot::Global | Spot::Glance => Frequent::Take,
        Spot::Claim if fresh => Frequent::Poke,
        Spot::Claim => match to_claim {
            Some(r) => Frequent::Claim(r.g, r.epoch),
            None => Frequent::Other,
        },
        Spot::Run => Frequent::Resume,
        Spot::Yield => Frequent::Yield,
        Spot::Send(c, v) => Frequent::Send(c, v),
        Spot::Recv(c) => Frequent::Recv(c),
        // No ask that is kept beside the spot is one of these three; the contract speaks of any.
        Spot::Do => match ask {
            Ask::Yield => Frequent::Yield,
            Ask::Send(c, v) => Frequent::Send(*c, *v),
            Ask::Recv(c) => Frequent::Recv(*c),
            _ => Frequent::Other,
        },
        Spot::Store | Spot::StoreMore(_, _) => Frequent::Push,
        Spot::Poke => Frequent::Poke,
        _ => Frequent::Other,
    }
}

/// Whether more processors are active than before: then there may be work that waited for one.
fn raised(before: u64, ask: &Ask) -> bool
    ensures { result ≡ table.raised before ask.now }
{
    match ask {
        Ask::Procs(n) => before < u64::from(*n),
        _ => false,
    }
}

/// Whether the call that is made here is a body's.
#[inline(always)]
pub(crate) fn is_ask(here: Spot) -> bool
    ensures { result ≡ is_ask here }
{
    matches!(
        here,
        Spot::Yield | Spot::Send(_, _) | Spot::Recv(_) | Spot::Do
    )
}

/// Where a call of the body leads.
#[inline(always)]
fn after_ask(here: Spot, ask: &Ask, reply: &Reply) -> Spot
    ensures { (beside : Ask) → place_of result beside ≡ table.after_ask (asked_at here ask.now) reply.now }
{
    match (here, reply) {
        // The goroutine is gone from this machine, or goes on: with a ticket to store, with somebody to wake, or as it was.
        (_, Reply::Waits | Reply::Shelved(_) | Reply::Dead) => Spot::Look,
        (_, Reply::MainEnded) => Spot::Over,
        (_, Reply::Entered(_, _)) => Spot::Block,
        (Spot::Do, Reply::Number(before)) if raised(*before, ask) => Spot::Poke,
        _ if reply.ticket().is_some() => Spot::Store,
        _ if reply.closed() > 0 => Spot::Poke,
        _ => Spot::Run,
    }
}

/// The next queue to look into, after the last one Park.
pub(crate) fn scanned(procs: u8, v: PNo) -> Spot
    ensures { (beside : Ask) → place_of result beside ≡ table.scanned procs v }
{
    if v.0 < procs && v.0 + 1 < procs {
        Spot::Scan(PNo(v.0 + 1))
    } else {
        Spot::Park
    }
}

/// Whether a fair machine made 16 claims: then it is to look aside before it claims again.
#[inline(always)]
pub(crate) fn is_late(seen: Seen) -> bool
    ensures { result ≡ table.is_late seen }
{
    seen.aside.is_some() && seen.turns >= 16
}

/// Goes where a machine looks after its tick: at the shelf or at a queue, in turn, and at its own queue where it is not fair.
#[inline(always)]
fn look_aside(here: &mut Spot, aside: &mut Option<Aside>, procs: u8)
    ensures place { (beside : Ask) → place_of here.new beside ≡ table.aside_at aside.old }
    ensures turns { aside.new ≡ table.turned procs aside.old }
{
    match *aside {
        None => *here = Spot::Look,
        Some(Aside::Shelf(v)) => {
            *here = Spot::Glance;
            *aside = Some(Aside::Queue(v));
        }
        Some(Aside::Queue(v)) => {
            *here = Spot::Peek(v);
            let before = if v.0 == 0 {
                procs.saturating_sub(1)
            } else {
                v.0 - 1
            };
            *aside = Some(Aside::Shelf(PNo(before)));
        }
    }
}

/// Goes where this reply leads, and turns where a machine looks aside. A reply that is none of the row's leaves the place; none comes.
#[inline(always)]
pub(crate) fn go_on_by(
    here: &mut Spot,
    ask: &Ask,
    aside: &mut Option<Aside>,
    seen: Seen,
    reply: &Reply,
)
    requires { aside.old ≡ seen.aside }
    ensures place { place_of here.new ask.now ≡ table.next_place seen (place_of here.old ask.now) (Told.Replied reply.now) }
    ensures aside { aside.new ≡ table.next_aside seen (place_of here.old ask.now) (Told.Replied reply.now) }
{
    if is_ask(*here) {
        *here = after_ask(*here, ask, reply);
        return;
    }
    match (*here, reply) {
        (Spot::Start, Reply::Proc(_)) => *here = Spot::Look,
        (Spot::Start, Reply::Nothing) => *here = Spot::Bare,
        // With one processor that one is always active, and there is nobody to steal from: no Keep, and no Hunt below.
        (Spot::Ticking(_), Reply::Woke(_)) if seen.procs == 1 => look_aside(
            here, aside, seen.procs,
        ),
        (Spot::Ticking(_), Reply::Woke(_)) => *here = Spot::Keep,
        (Spot::Global, Reply::Ticket(_)) => *here = Spot::Claim,
        (Spot::Keep, Reply::Answer(true)) => look_aside(here, aside, seen.procs),
        (Spot::Glance, Reply::Ticket(_)) => *here = Spot::Claim,
        (Spot::Glance, Reply::Nothing) => *here = Spot::Look,
        (Spot::Keep, Reply::Answer(false)) => *here = Spot::Drain,
        (Spot::PutDrain, Reply::Shelf) => *here = Spot::Drain,
        (Spot::Global, Reply::Nothing) if seen.procs == 1 => *here = Spot::Drop,
        (Spot::Global, Reply::Nothing) => *here = Spot::Spin,
        (Spot::Spin, Reply::Answer(true)) => *here = Spot::Hunt,
        (Spot::Spin, Reply::Answer(false)) => *here = Spot::Drop,
        (Spot::PutMore(v, goal), Reply::Shelf) => *here = more(v, goal),
        // A hunt ends here with or without a ticket.
        (Spot::Unspin, Reply::Done) if seen.to_claim.is_some() => *here = Spot::Claim,
        (Spot::Unspin, Reply::Done) => *here = Spot::Drop,
        (Spot::Claim, Reply::Wakes(_) | Reply::Nothing) => *here = Spot::Claim,
        (Spot::Claim, Reply::Held) => *here = Spot::Run,
        (Spot::PutStore, Reply::Shelf) => *here = Spot::Poke,
        (Spot::Poke, Reply::Wakes(_) | Reply::Nothing) => *here = Spot::Run,
        (Spot::Leave(_), Reply::Runs(_)) => *here = Spot::Run,
        (Spot::Leave(_), Reply::Shelved(_)) => *here = Spot::Bare,
        // Both ways of having no processor lead to the last look at all queues.
        (Spot::Drop, Reply::Idle(_)) => *here = Spot::Scan(PNo(0)),
        (Spot::Bare, Reply::Done) => *here = Spot::Scan(PNo(0)),
        (Spot::Have, Reply::Proc(_)) => *here = Spot::Claim,
        (Spot::Have, Reply::Nothing) => *here = Spot::PutHave,
        // One that is late claims nothing that it found without a look aside: it starts anew.
        (Spot::PutHave, Reply::Shelf) if is_late(seen) => *here = Spot::Start,
        (Spot::PutHave, Reply::Shelf) => *here = Spot::Bare,
        // Work, a deadline and a mark each keep the machine awake: only `Parked` leads to Rest.
        (Spot::Park, Reply::Parked) => *here = Spot::Rest,
        (Spot::Park, Reply::Work) => *here = Spot::Start,
        (Spot::Park, Reply::Mind(deadline)) => *here = Spot::Mind(*deadline),
        (Spot::Park, Reply::AllAsleep) => *here = Spot::Over,
        (Spot::Park, Reply::LookAgain) => *here = Spot::Bare,
        (Spot::Rest, Reply::Answer(true)) => *here = Spot::Start,
        (Spot::Rest, Reply::Answer(false)) => *here = Spot::Rest,
        (Spot::MindTick(_), Reply::Woke(_)) => *here = Spot::Start,
        (_, _) => {}
    }
}

/// Goes where what came of the act leads. From every place a call that is refused since the run is over leads to Over. A make that had no
/// memory goes on with the body, which is told so.
#[inline(always)]
pub(crate) fn go_on(
    here: &mut Spot,
    beside: &mut Ask,
    aside: &mut Option<Aside>,
    seen: Seen,
    told: Told,
)
    requires some { 1 ≤ seen.procs }
    requires aside { aside.old ≡ seen.aside }
    ensures place { place_of here.new beside.new ≡ table.next_place seen (place_of here.old beside.old) told }
    ensures aside { aside.new ≡ table.next_aside seen (place_of here.old beside.old) told }
{
    let there = match (*here, told) {
        (_, Told::Refused(Refusal::Over)) => Spot::Over,
        (_, Told::Replied(reply)) => return go_on_by(here, beside, aside, seen, &reply),
        (_, Told::Got) => return go_on_at_queue(here, seen, QueueTold::Popped(false)),
        (_, Told::Drained) => return go_on_at_queue(here, seen, QueueTold::Popped(true)),
        (_, Told::Empty) => return go_on_at_queue(here, seen, QueueTold::Empty),
        (_, Told::Drew(word, tried)) => {
            return go_on_at_queue(here, seen, QueueTold::Stole(Some(word), tried));
        }
        (_, Told::Tried(tried)) => {
            return go_on_at_queue(here, seen, QueueTold::Stole(None, tried));
        }
        (_, Told::Pushed) => return go_on_at_queue(here, seen, QueueTold::Pushed),
        (_, Told::PushRefused) => return go_on_at_queue(here, seen, QueueTold::PushRefused),
        (Spot::Look, Told::Moment(now)) => Spot::Ticking(now),
        (_, Told::Asked(ask)) => return ask_on(here, beside, &ask),
        (Spot::Do, Told::Refused(Refusal::OutOfMemory)) if matches!(beside, Ask::Make(_)) => {
            Spot::Run
        }
        (Spot::Block, Told::Number(number)) => Spot::Leave(number),
        (Spot::Mind(_), Told::Moment(now)) => Spot::MindTick(now),
        (Spot::Over, Told::Surrendered) => Spot::Over,
        (Spot::Over, Told::Nothing) => Spot::Done,
        (_, _) => return,
    };
    *here = there;
}

/// Whether another machine is to be woken for what this one found. Only a reply changes it.
#[inline(always)]
pub(crate) fn next_fresh(here: Spot, seen: Seen, told: &Told) -> bool
    ensures { (beside : Ask) → result ≡ table.next_fresh seen (place_of here beside) told.now }
{
    match told {
        Told::Replied(reply) => fresh_by(here, seen, reply),
        _ => seen.fresh,
    }
}

/// Whether another machine is to be woken for what this one found, by a reply: it was idle, or found more than it runs itself, or its tick
/// woke somebody onto the shelf. A poke clears it.
#[inline(always)]
pub(crate) fn fresh_by(here: Spot, seen: Seen, reply: &Reply) -> bool
    ensures { (beside : Ask) → result ≡ table.next_fresh seen (place_of here beside) (Told.Replied reply.now) }
{
    match (here, reply) {
        (Spot::Ticking(_), Reply::Woke(n)) => *n != 0 || seen.fresh,
        (Spot::Unspin, Reply::Done) => seen.to_claim.is_some() || seen.fresh,
        (Spot::Claim, Reply::Wakes(_) | Reply::Nothing) => false,
        (Spot::Have, Reply::Proc(_)) => true,
        (Spot::Park, Reply::Work) => true,
        (Spot::Rest, Reply::Answer(true)) => true,
        (Spot::MindTick(_), Reply::Woke(_)) => true,
        _ => seen.fresh,
    }
}

/// Claims since the last tick, up to 16; of a fair machine since the last tick behind which it looked aside. At 16 the clock is
/// read. Only a reply changes them.
#[inline(always)]
pub(crate) fn next_turns(here: Spot, seen: Seen, told: &Told) -> u8
    requires { seen.turns ≤ 16 }
    ensures turns { (beside : Ask) → result ≡ table.next_turns seen (place_of here beside) told.now }
    ensures few { result ≤ 16 }
{
    match told {
        Told::Replied(reply) => turns_by(here, seen, reply),
        _ => seen.turns,
    }
}

/// The same claims, by a reply.
#[inline(always)]
pub(crate) fn turns_by(here: Spot, seen: Seen, reply: &Reply) -> u8
    requires { seen.turns ≤ 16 }
    ensures turns { (beside : Ask) → result ≡ table.next_turns seen (place_of here beside) (Told.Replied reply.now) }
    ensures few { result ≤ 16 }
{
    match (here, reply) {
        (Spot::Ticking(_), Reply::Woke(_)) => 0,
        (Spot::Keep, Reply::Answer(false)) if seen.aside.is_some() => 16,
        (Spot::Claim, Reply::Held) => (seen.turns + 1).min(16),
        (Spot::MindTick(_), Reply::Woke(_)) if seen.aside.is_none() => 0,
        _ => seen.turns,
    }
}

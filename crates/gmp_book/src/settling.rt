//! Where bodies and owners go by a reply.
ghost use Rattle.std.specs.Prelude.{◌≡◌};
ghost use Rattle.gmp_book.specs.Hands.{FitsBody, FitsHome, FitsOwner, HandsBody, HandsOwner, with_home};

use crate::slots::Slots;
use crate::values::{Way, retold, spent};
use gmp_base::{Called, GNo, Held, Proc, Woke};
use gmp_seq::Reply;

/// The goroutine in its blocking call, into which it goes.
fn calling<T>(held: Held<T>) -> Called<T>
    ensures { result ≡ record { run = held.run; g = held.g; body = held.body } }
{
    let (run, g, _, body) = held.open();
    Called::of(run, g, body)
}

/// The goroutine that runs on after its blocking call, and is told this.
fn running_on<T>(called: Called<T>, told: Woke) -> Held<T>
    ensures { result ≡ record { run = called.run; g = called.g; woke = told; body = called.body } }
{
    let (run, g, body) = called.open();
    Held::of(run, g, told, body)
}

/// The body that is handed in, if any is, goes into its place.
fn put_home<T>(bodies: &mut Slots<T>, held: Option<Held<T>>, called: Option<Called<T>>)
    requires { FitsHome held called bodies.old }
    ensures { bodies.new ≡ with_home held called bodies.old }
{
    let (g, body) = match (held, called) {
        (Some(held), none) => {
            spent(none);
            let (_, g, _, body) = held.open();
            (g, body)
        }
        (None, Some(called)) => {
            let (_, g, body) = called.open();
            (g, body)
        }
        (None, None) => return,
    };
    bodies.put(g.0 as usize, body);
}

/// The body goes so: the goroutine that asked is told this, or g comes out.
#[inline(always)]
pub(crate) fn settle_body<T>(
    bodies: &mut Slots<T>,
    way: Way,
    run: u64,
    g: GNo,
    told: Woke,
    held: Option<Held<T>>,
    called: Option<Called<T>>,
) -> (Option<Held<T>>, Option<Called<T>>)
    requires { FitsBody way g held called bodies.old }
    ensures { HandsBody way run g told held called result.0 result.1 bodies.old bodies.new }
{
    match way {
        Way::Stays => (held.map(|held| retold(held, told)), called),
        Way::Home => {
            put_home(bodies, held, called);
            (None, None)
        }
        Way::OutOfPlace => {
            spent(held);
            let body = bodies.take(g.0 as usize);
            (Some(Held::of(run, g, told, body)), called)
        }
        Way::IntoCall => {
            spent(called);
            (None, held.map(|held| calling(held)))
        }
        Way::OutOfCall => {
            spent(held);
            (called.map(|called| running_on(called, told)), None)
        }
    }
}

/// The owner of a processor goes as the reply says.
#[inline(always)]
pub(crate) fn settle_owner<Q>(
    owners: &mut Slots<Q>,
    run: u64,
    reply: Reply,
    proc: Option<Proc<Q>>,
) -> Option<Proc<Q>>
    requires { FitsOwner reply proc owners.old }
    ensures { HandsOwner reply run proc result owners.old owners.new }
{
    match reply {
        Reply::Proc(p) | Reply::Runs(p) => {
            spent(proc);
            let owner = owners.take(p.0 as usize);
            Some(Proc::of(run, p, owner))
        }
        Reply::Entered(_, _) | Reply::Idle(_) => match proc {
            Some(proc) => {
                let (_, p, owner) = proc.open();
                owners.put(p.0 as usize, owner);
                None
            }
            None => None,
        },
        _ => proc,
    }
}

//! Bodies of threads as machines run them: a script's are all of one type, so no call goes by a table of functions.
ghost use Rattle.std.specs.Prelude.{◌≡◌, map, IfOk};

use gmp_base::{Ask, Body, Woke};
use gmp_script::ScriptBody;
use gmp_worker::Own;
use std::alloc::{AllocError, Global};
use std::marker::Model;

/// A body of a script, which a machine hands over as one word.
#[derive(Drop)]
pub(crate) struct Scripted(Box<ScriptBody>);

impl Model for Scripted {
    ghost use Rattle.gmp_script.specs.Script.{Commands};

    ghost Value = { Commands };

    ghost view = { λ s. s.0.value };
}

/// It does what the body does.
impl Body for Scripted {
    ghost use Rattle.gmp_script.specs.Script.{AsksTold, BringsLast};

    ghost resumed = { λ before woke ask after. AsksTold before woke ask after };

    ghost blocked = { λ before n after. BringsLast before n after };

    fn resume(&mut self, woke: Woke) -> Ask {
        self.0.resume(woke)
    }

    #[inline(always)]
    fn resume_into(&mut self, woke: Woke, out: &mut Ask) {
        self.0.resume_into(woke, out);
    }

    fn blocking(&mut self) -> u64 {
        self.0.blocking()
    }
}

/// Each body its own.
pub(crate) fn owned(
    alloc: Global,
    bodies: Vec<ScriptBody>,
) -> Result<Vec<Own<Scripted>>, AllocError>
    ensures { IfOk result (λ owned. owned.items ≡ map (λ b. record { 0 = b }) bodies.items) }
{
    let mut owned = Vec::with_capacity(alloc, bodies.len())?;
    for body in bodies {
        owned.push(Own(Scripted(Box::new(alloc, body)?)))?;
    }
    Ok(owned)
}

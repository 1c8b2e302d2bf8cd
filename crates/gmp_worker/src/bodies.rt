//! Bodies as machines run them: in boxes, of any type, or of one type and in none (`Own`).
ghost use Rattle.std.specs.Prelude.{◌≡◌};

use gmp_base::{Ask, Body, Woke};

/// A body of any type. What its calls may do is what the body in the box says of them, and the same box holds it afterwards.
pub type Boxed = Box<dyn Body + Send>;

/// Resumes the body in the box, and writes what it asks.
#[inline(always)]
pub fn resume_boxed(body: &mut Boxed, woke: Woke, out: &mut Ask)
    ensures { (left : _) × (body.new ≡ record body.old { value = left }) × resumed body.old woke out.new left }
{
    body.resume_into(woke, out);
}

/// Makes the blocking call of the body in the box.
pub fn block_boxed(body: &mut Boxed) -> u64
    ensures { (left : _) × (body.new ≡ record body.old { value = left }) × blocked body.old result left }
{
    body.blocking()
}

/// A body as a machine runs it: in a box, or its own (`Own`). Each says by two relations of its own what it does.
pub trait Runs: Drop {
    ghost use Rattle.std.specs.Prelude.{ℕ};
    ghost use Rattle.gmp_base.specs.declared.ask.Ask.{Ask};
    ghost use Rattle.gmp_base.specs.declared.ask.Woke.{Woke};

    /// From the body before, with this answer, to this ask and the body after.
    ghost resumes: { Self → Woke → Ask → Self → Type 0 };

    /// From the body before, by its blocking call, to this number and the body after.
    ghost blocks: { Self → ℕ → Self → Type 0 };

    /// Goes on with this answer until it asks again, and writes what it asks.
    fn goes_on(&mut self, woke: Woke, out: &mut Ask)
        ensures { resumes self.old woke out.new self.new };

    /// Makes its blocking call, and answers its number.
    fn calls(&mut self) -> u64
        ensures { blocks self.old result self.new };
}

/// A body in no box: machines whose bodies are all of one type run them so, and call them with no table of functions.
#[derive(Drop)]
pub struct Own<B>(pub B);

impl<B: Body> Runs for Own<B> {
    ghost resumes = { λ b woke ask c. B.resumed b.0 woke ask c.0 };

    ghost blocks = { λ b number c. B.blocked b.0 number c.0 };

    fn goes_on(&mut self, woke: Woke, out: &mut Ask) {
        self.0.resume_into(woke, out);
    }

    fn calls(&mut self) -> u64 {
        self.0.blocking()
    }
}

/// A box does what the body in it says of itself, and is the same box afterwards.
impl Runs for Boxed {
    ghost use Rattle.std.specs.Prelude.{◌≡◌};

    ghost resumes = { λ b woke ask c. (left : _) × (c ≡ record b { value = left }) × (Body-box b).resumed b.value woke ask left };

    ghost blocks = { λ b number c. (left : _) × (c ≡ record b { value = left }) × (Body-box b).blocked b.value number left };

    fn goes_on(&mut self, woke: Woke, out: &mut Ask) {
        resume_boxed(self, woke, out);
    }

    fn calls(&mut self) -> u64 {
        block_boxed(self)
    }
}

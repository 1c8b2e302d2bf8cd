//! Goroutines that are handed their bodies when they are started, and leave what these found out.

ghost use Rattle.std.specs.Prelude.{◌≡◌, ◌≢◌, ◌↔◌, IfErr, IfOk};

use crate::channel::Channel;
use crate::ending::Short;
use crate::goroutine::{Goroutine, Nonsense};
use crate::queue::{Busy, Queue};
use gmp_base::{Ask, Woke};
use std::alloc::Global;
use std::mem;

/// A body that is handed over when a goroutine is started for it, and leaves an output at its end.
pub trait Task: Drop {
    /// What it leaves.
    type Output: Drop;

    /// Goes on with this answer until it asks again, as a `Goroutine` does. The first answer is `Woke::First`. By the spawner it hands over
    /// others of its type.
    fn resume(&mut self, woke: Woke, spawner: &Spawner<Self>) -> Result<Ask, Nonsense>;

    /// Makes the blocking call, after it asked `Ask::Block`: its number is the next answer.
    fn blocking(&mut self) -> u64 {
        0
    }

    /// What it leaves, once it asked `Ask::Exit`. One that was lost leaves nothing.
    fn output(self) -> Self::Output;
}

/// A handle of what bodies left. No clause says so, but each output is taken once, the oldest first.
#[derive(Drop)]
pub struct Outputs<O> {
    left: Queue<O>,
    /// How many may be there at a time.
    pub room: u32,
    /// Where a goroutine sends 1 for each output that it left, once that is there, unless this is nil.
    pub told: Channel,
}

impl<O: Drop> Outputs<O> {
    /// None yet, with memory for so many, at least one.
    pub(crate) fn new(alloc: Global, room: u32, told: Channel) -> Result<Self, Short>
        ensures room { IfOk result (λ it. it.room ≡ room) }
        ensures told { IfOk result (λ it. it.told ≡ told) }
        ensures limits { (result ≡ Err Short.BadLimits) ↔ (room ≡ 0) }
        ensures memory { IfErr result (λ e. e ≢ Short.BadLimits → e ≡ Short.OutOfMemory) }
    {
        if room == 0 {
            return Err(Short::BadLimits);
        }
        let left = Queue::new(alloc, room)?;
        Ok(Outputs { left, room, told })
    }

    /// One more handle of them.
    pub fn share(&self) -> Result<Self, Short>
        ensures room { IfOk result (λ it. it.room ≡ self.now.room) }
        ensures told { IfOk result (λ it. it.told ≡ self.now.told) }
    {
        let left = self.left.share()?;
        let Outputs { room, told, .. } = *self;
        Ok(Outputs { left, room, told })
    }

    /// The oldest that is there. For each receive on `told` there is one. It is none too where other threads were at
    /// them all the while: then a goroutine yields, and calls it again.
    pub fn take(&self) -> Option<O> {
        self.left.take().ok().flatten()
    }
}

/// A handle by which goroutines start others, to each of which they hand its body over.
///
/// Each body that is handed over is run by one goroutine, once, or is taken back. That rests on what no clause says: the ask of `spawn` is
/// asked; after a `Fault::NoSuchBody` either `Ask::Spawn` is asked again or one body is taken back; and each goroutine that may be free at an
/// ask, since it has ended or was not started yet, runs bodies of this spawner, for the runtime starts the least, whichever it is. What is
/// left when the run ends is still there for `take_back`.
#[derive(Drop)]
pub struct Spawner<T> {
    bodies: Queue<T>,
    /// How many bodies may be handed over at a time that no goroutine took yet.
    pub room: u32,
}

impl<T: Drop> Spawner<T> {
    /// With memory for so many bodies.
    pub(crate) fn new(alloc: Global, room: u32) -> Result<Self, Short>
        ensures room { IfOk result (λ it. it.room ≡ room) }
        ensures memory { IfErr result (λ e. e ≡ Short.OutOfMemory) }
    {
        let bodies = Queue::new(alloc, room)?;
        Ok(Spawner { bodies, room })
    }
}

// Nothing is asked of `T`: a body that isn't `Drop` can't be let go, so none is lost here.
impl<T> Spawner<T> {
    /// One more handle of it.
    pub fn share(&self) -> Result<Self, Short>
        ensures room { IfOk result (λ it. it.room ≡ self.now.room) }
        ensures memory { IfErr result (λ e. e ≡ Short.OutOfMemory) }
    {
        let bodies = self.bodies.share()?;
        Ok(Spawner {
            bodies,
            room: self.room,
        })
    }

    /// Hands the body over, to be run by the goroutine that the ask starts. The answer is `Woke::Done`, or `Fault::NoSuchBody` where none is
    /// free: the body stays handed over then, and who yields may ask `Ask::Spawn` for it again, or take one back. It comes back at once where
    /// there is no room for it, or other threads were at the bodies all the while. It isn't let go on the way, of whatever type it is.
    pub fn spawn(&self, body: T) -> Result<Ask, T>
        ensures ask { IfOk result (λ it. it ≡ Ask.Spawn) }
        ensures back { IfErr result (λ it. it ≡ body) }
    {
        self.bodies.put(body, self.room)?;
        Ok(Ask::Spawn)
    }

    /// The oldest body that no goroutine took, which may be another's than who takes it handed over. After a `Fault::NoSuchBody` there is one.
    /// It is none too where other threads were at the bodies all the while: then a goroutine yields, and calls it again.
    pub fn take_back(&self) -> Option<T> {
        self.bodies.take().ok().flatten()
    }
}

impl<T: Task> Spawner<T> {
    /// A goroutine that runs bodies, and leaves their outputs there. It is boxed and pushed as any other.
    pub fn goroutine(&self, outputs: &Outputs<T::Output>) -> Result<Spawned<T>, Short> {
        let spawner = self.share()?;
        let outputs = outputs.share()?;
        Ok(Spawned {
            spawner,
            outputs,
            stage: Stage::Ends,
        })
    }
}

/// What a goroutine is at that runs bodies.
#[derive(Drop)]
enum Stage<T: Task> {
    /// It takes a body.
    Begins,
    /// It runs this one.
    Runs(T),
    /// It looks for room for what its body left.
    Leaves(T::Output),
    /// It tells that this is there.
    Tells,
    /// It has ended, or was not started yet.
    Ends,
}

/// A goroutine that takes the oldest body each time that it is started, runs it, and leaves its output. Where there is no room for that it
/// yields until there is, and then tells of it. Where there is no body it is lost.
#[derive(Drop)]
pub struct Spawned<T: Task> {
    spawner: Spawner<T>,
    outputs: Outputs<T::Output>,
    stage: Stage<T>,
}

impl<T: Task> Spawned<T> {
    /// Takes a body, and runs it.
    fn begin(&mut self) -> Result<Ask, Nonsense> {
        match self.spawner.bodies.take() {
            Ok(Some(body)) => {
                self.stage = Stage::Runs(body);
                self.go_on(Woke::First)
            }
            Ok(None) => Err(Nonsense),
            Err(Busy) => Ok(Ask::Yield),
        }
    }

    /// Goes on with this answer.
    fn go_on(&mut self, woke: Woke) -> Result<Ask, Nonsense> {
        match &mut self.stage {
            Stage::Runs(body) => match body.resume(woke, &self.spawner) {
                Ok(Ask::Exit) => Ok(self.end()),
                Err(Nonsense) => {
                    self.stage = Stage::Ends;
                    Err(Nonsense)
                }
                asked => asked,
            },
            _ => Err(Nonsense),
        }
    }

    /// Ends, or yields where there is no room for what is left.
    fn end(&mut self) -> Ask {
        let output = match mem::replace(&mut self.stage, Stage::Ends) {
            Stage::Runs(body) => body.output(),
            Stage::Leaves(output) => output,
            _ => return Ask::Exit,
        };
        if let Err(output) = self.outputs.left.put(output, self.outputs.room) {
            self.stage = Stage::Leaves(output);
            return Ask::Yield;
        }
        match self.outputs.told {
            Channel::NIL => Ask::Exit,
            told => {
                self.stage = Stage::Tells;
                told.send(1)
            }
        }
    }
}

impl<T: Task> Goroutine for Spawned<T> {
    fn resume(&mut self, woke: Woke) -> Result<Ask, Nonsense> {
        if let Woke::First = woke {
            self.stage = Stage::Begins;
        }
        match (&self.stage, woke) {
            (Stage::Begins, Woke::First | Woke::Done) => self.begin(),
            (Stage::Runs(_), _) => self.go_on(woke),
            (Stage::Leaves(_) | Stage::Tells, Woke::Done) => Ok(self.end()),
            _ => Err(Nonsense),
        }
    }

    fn blocking(&mut self) -> u64 {
        match &mut self.stage {
            Stage::Runs(body) => body.blocking(),
            _ => 0,
        }
    }
}

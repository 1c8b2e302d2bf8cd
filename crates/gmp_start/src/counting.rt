//! How many entries came before.
ghost use Rattle.std.specs.Prelude.{◌≡◌, ◌<◌, ◌^◌, sum};

use crate::start::Start;

impl Start {
    /// How many entries were made before it, by all machines. The sum is the state's only word on it; whoever has read it from a text has
    /// to see first that it fits (`Start::fits`).
    pub fn made(&self) -> u64
        requires { sum self.now.counts.items < 2 ^ 64 }
        ensures { result ≡ sum self.now.counts.items }
    {
        let mut made = 0;
        for count in &self.counts {
            made += *count;
        }
        made
    }
}

//! A goroutine that is known before its body is made.
ghost use Rattle.std.specs.Prelude.{◌≡◌, ◌↔◌, ◌+◌, IfErr, IfNone, IfOk, IfSome, OnErr, OnOk, length};
ghost use Rattle.gmp_host.specs.Openings.{IsCovered, IsMissing};

use crate::ending::Short;
use crate::host::Host;
use gmp_base::{Ask, GNo};

/// A goroutine that was reserved, by its number.
#[derive(Clone, Copy, Debug, PartialEq, Eq)]
pub struct Handle(pub GNo);

impl Handle {
    /// Starts it: `go f()`.
    pub fn go(self) -> Ask
        ensures { result ≡ Ask.Go self.0 }
    {
        Ask::Go(self.0)
    }

    /// Makes it ready, where it is parked: `goready`.
    pub fn ready(self) -> Ask
        ensures { result ≡ Ask.Ready self.0 }
    {
        Ask::Ready(self.0)
    }
}

impl Host {
    /// A goroutine that is boxed and pushed later: the first is number 1, behind main, and each other the next. A run in which one of them has no
    /// body is refused, and the refusal names it.
    pub fn reserve(&mut self) -> Result<Handle, Short>
        ensures number { IfOk result (λ h. h.0.0 ≡ self.old.reserved + 1) }
        ensures reserved { OnOk result (self.new.reserved ≡ self.old.reserved + 1) }
        ensures limits { (result ≡ Err Short.BadLimits) ↔ (self.old.reserved ≡ 65535) }
        ensures kinds { IfErr result (λ e. e ≡ Short.BadLimits) }
        ensures err { OnErr result (self.new.reserved ≡ self.old.reserved) }
        ensures bodies { (self.new.bodies ≡ self.old.bodies) × (self.new.boxed ≡ self.old.boxed) }
        ensures capacities { self.new.capacities ≡ self.old.capacities }
        ensures settings { self.new.settings ≡ self.old.settings }
    {
        self.reserved = self.reserved.checked_add(1).ok_or(Short::BadLimits)?;
        Ok(Handle(GNo(self.reserved)))
    }

    /// The first goroutine that was reserved and not pushed.
    pub(crate) fn missing(&self) -> Option<GNo>
        ensures some { IfSome result (IsMissing self.now.reserved (length self.now.bodies.items)) }
        ensures none { IfNone result (IsCovered self.now.reserved (length self.now.bodies.items)) }
    {
        let first = self.bodies.len().max(1);
        if first > usize::from(self.reserved) {
            return None;
        }
        Some(GNo(first as u16))
    }
}

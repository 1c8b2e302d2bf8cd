//! What becomes of who exits or parks: `Exited` is of a goroutine, `Parking` of a machine.

/// What became of a goroutine that exits.
#[derive(Clone, Copy)]
pub enum Exited {
    /// It is dead, and the run goes on.
    Dead,
    /// It was goroutine 0, whose exit ends the run.
    MainEnded,
}

/// What a machine is answered that has nothing to do.
#[derive(Clone, Copy)]
pub enum Parking {
    /// It is parked, until it is woken.
    Parked,
    /// There is a goroutine on the shelf and an active processor is idle.
    Work,
    /// A machine went into a blocking call since this one began to look, so it looks again.
    LookAgain,
    /// The least deadline, in nanoseconds: one stands, and nobody is ready or running.
    Mind(u64),
    /// Nobody can ever go on, and the run is over.
    AllAsleep,
}

//! The rule of a local queue, as a law.
ghost use Rattle.gmp_queue.specs.Steps.{KeepTheRule};

/// Each of the five kinds of step keeps the rule. The deque asks it where a step is made; as a law it can be read and cited at once.
pub fn steps_keep_the_rule()
    ensures { KeepTheRule }
{}

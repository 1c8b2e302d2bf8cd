//! Worked histories, in proofs/: each is a run of the sequential scheduler to the state that stands beside it, or one that no step
//! makes. They judge the definitions of `gmp_seq`, which were read from the design document before the rows were.
#![tactic(auto)]

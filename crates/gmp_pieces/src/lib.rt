//! A run in threads whose history goes out in parts: the sink of gmp_run that writes them by gmp_parts.
//!
//! **Invariant**: as long as nothing failed, the pieces that the run handed out are the entries of the parts that were written, in order, and
//! what was appended are the texts of those.
//!
//! A piece that can't be written stops the run, and why it can't is kept.
#![tactic(auto)]

pub mod laws;
mod pieces;

pub use pieces::Pieces;

//! What a run wrote. The law is the contract of a function that does nothing.
ghost use Rattle.std.specs.Prelude.{◌≡◌, ◌++◌, List};
ghost use Rattle.gmp_seq.specs.declared.call.Entry.{Entry};
ghost use Rattle.gmp_parts.specs.Parts.{Parts, entries_of};
ghost use Rattle.gmp_parts.specs.Writing.{HasWritten, WritesPart};
ghost use Rattle.gmp_pieces.specs.declared.pieces.Pieces.{Pieces};
ghost use Rattle.gmp_pieces.specs.Pieces.{WritesLeft, pieces_of};
ghost use Rattle.gmp_run.specs.Desks.{TakesAll, joined, with_left};

use std::io::Write;

/// The pieces that a run handed out, and what it left, are, one by one, the entries of parts in order, and what was appended are the texts of
/// those.
pub fn written<W: Write>()
    ensures { (began now ended : Pieces W) (pieces : List (List Entry)) (left : List Entry)
        → TakesAll (λ (old : Pieces W) (h : List Entry) (new : Pieces W). WritesPart W.contents old.0 h new.0) began pieces now
        → WritesLeft W.contents now.0 left ended.0
        → (parts : Parts) × (pieces_of parts ≡ with_left pieces left) × (entries_of parts ≡ joined pieces ++ left) × HasWritten W.contents began.0 ended.0 parts }
{}

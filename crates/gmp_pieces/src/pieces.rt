//! The sink.
ghost use Rattle.std.specs.Prelude.{◌≡◌, [], IfErr, IfSome, IsSome, OnErr, OnOk, Some};
ghost use Rattle.gmp_pieces.specs.Pieces.{Refuses, WritesLeft};

use gmp_history::History;
use gmp_parts::{Outlet, PartError, PartWriter};
use gmp_run::{Sink, Stop};

/// Writes each piece of a run's history as the next part. Where one can't be written, the writer tells why (`failed`).
#[derive(Drop)]
pub struct Pieces<W>(pub PartWriter<W>);

impl<W: Outlet> Sink for Pieces<W> {
    ghost use Rattle.gmp_parts.specs.Writing.{WritesPart};
    ghost use Rattle.gmp_pieces.specs.Pieces.{Refuses};

    ghost takes = { λ old h new. WritesPart W.contents old.0 h new.0 };

    ghost refuses = { λ old h new. Refuses old.0 h new.0 };

    fn take(&mut self, history: &mut History) -> Result<(), Stop> {
        match self.0.write(history) {
            Ok(()) => {
                history.clear();
                Ok(())
            }
            Err(_) => Err(Stop),
        }
    }
}

impl<W: Outlet> Pieces<W> {
    /// Writes what the run left as the last part, if it left anything.
    ///
    /// Where a piece could not be written before, what is left isn't written either, and the error is that of the piece.
    pub fn finish(&mut self, left: &History) -> Result<(), PartError>
        ensures written { OnOk result (WritesLeft W.contents self.old.0 left.now.list self.new.0) }
        ensures refused { OnErr result (Refuses self.old.0 left.now.list self.new.0) }
        ensures why { IfErr result (λ e. self.new.0.failed ≡ Some e) }
        ensures nothing { OnErr result (left.now.list ≡ [] → IsSome self.old.0.failed) }
        ensures again { IfSome self.old.0.failed (λ e. (result ≡ Err e) × (self.new ≡ self.old)) }
    {
        if let Some(error) = self.0.failed() {
            return Err(error);
        }
        if left.is_empty() {
            return Ok(());
        }
        self.0.write(left)
    }
}

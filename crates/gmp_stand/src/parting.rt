//! The pieces of a run as parts, each a text that is read before the next.
ghost use Rattle.std.specs.Prelude.{◌≡◌, [], None, Some, IfErr, IfOk, IfSome, OnOk};
ghost use Rattle.gmp_seq.specs.Fits.{AreLimits};
ghost use Rattle.gmp_seq.specs.State.{opening};
ghost use Rattle.gmp_check.specs.Replayed.{IsOpenError};
ghost use Rattle.gmp_parts.specs.declared.error.PartError.TheVariants.{NoStep};
ghost use Rattle.gmp_parts.specs.Writing.{GoesOn, WritesPart};
ghost use Rattle.gmp_stand.specs.Parting.{textless};

use crate::stand::Stand;
use gmp_check::OpenError;
use gmp_history::History;
use gmp_parts::{PartError, PartWriter, Together};
use gmp_seq::Limits;
use std::alloc::Global;
use std::marker::Model;

/// Writes the pieces of a run as parts, and keeps the text of the last one.
#[derive(Drop)]
pub struct PartText {
    alloc: Global,
    writer: PartWriter<Together<Vec<u8>>>,
}

impl Model for PartText {
    ghost use Rattle.gmp_stand.specs.Parting.{Parting, seen_by};

    ghost Value = { Parting };

    ghost view = { λ p. seen_by (λ out. out.0.items) p.writer };
}

impl PartText {
    /// A run that begins, with so many goroutines, and channels of these capacities. Nothing is written yet.
    pub fn open(
        alloc: Global,
        limits: Limits,
        goroutines: u16,
        capacities: &[u32],
    ) -> Result<Self, OpenError>
        ensures opened { IfOk result (λ p. p ≡ record { limits = limits; bodies = goroutines; state = opening limits goroutines capacities.now; entries = 0; parts = 0; failed = None; out = [] }) }
        ensures within { OnOk result (AreLimits limits goroutines capacities.now) }
        ensures why { IfErr result (IsOpenError limits goroutines capacities.now) }
    {
        let out = Together(Vec::new(alloc));
        let writer = PartWriter::open(alloc, limits, goroutines, capacities, out)?;
        Ok(PartText { alloc, writer })
    }

    /// Writes the piece that the stand handed out last as the next part, in place of the text of the one before. Where it can't be written
    /// there is no text, and it fails so each time. `Device` is want of memory for the text.
    pub fn write(&mut self, stand: &Stand) -> Result<(), PartError>
        ensures written { OnOk result (WritesPart Some (textless self.old) stand.now.piece self.new) }
        ensures goes_on { OnOk result (GoesOn self.old stand.now.piece) }
        ensures no_step { IfErr result (λ e. e ≡ NoStep → self.old.failed ≡ None → GoesOn self.old stand.now.piece → ⊥) }
        ensures failed { IfErr result (λ e. self.new ≡ record (textless self.old) { failed = Some e }) }
        ensures again { IfSome self.old.failed (λ e. result ≡ Err e) }
    {
        match stand.piece() {
            Some(piece) => self.renew(piece),
            None => self.renew(&History::new(self.alloc)),
        }
    }

    /// Writes these entries as the next part, in place of the text that is there.
    fn renew(&mut self, piece: &History) -> Result<(), PartError>
        ensures written { OnOk result (WritesPart Some (textless self.old) piece.now.list self.new) }
        ensures goes_on { OnOk result (GoesOn self.old piece.now.list) }
        ensures no_step { IfErr result (λ e. e ≡ NoStep → self.old.failed ≡ None → GoesOn self.old piece.now.list → ⊥) }
        ensures failed { IfErr result (λ e. self.new ≡ record (textless self.old) { failed = Some e }) }
        ensures again { IfSome self.old.failed (λ e. result ≡ Err e) }
    {
        self.clear();
        match self.writer.write(piece) {
            Ok(()) => Ok(()),
            Err(error) => {
                self.clear();
                Err(error)
            }
        }
    }

    /// Lets the text go.
    fn clear(&mut self)
        ensures { self.new ≡ textless self.old }
    {
        let Together(mut text) = self.writer.redirect(Together(Vec::new(self.alloc)));
        text.clear();
        let _ = self.writer.redirect(Together(text));
    }

    /// The text of the part that was written last.
    pub fn text(&self) -> &[u8]
        ensures { result.now ≡ self.now.out }
    {
        &self.writer.out().0
    }
}

//! A run with its trace.
ghost use Rattle.std.specs.Prelude.{◌≡◌, IfErr, IfOk, OnOk};
ghost use Rattle.std.specs.Io.KnownBytes.{Appends};
ghost use Rattle.gmp_trace.specs.declared.writing.WriteError.TheVariants.{OutOfMemory};
ghost use Rattle.gmp_trace.specs.Text.{AppendsStart, text};
ghost use Rattle.gmp_waits.specs.Lately.{IsLately};
ghost use Rattle.gmp_waits.specs.Waits.{AreWaiting};

use crate::ending::{Ended, Short};
use gmp_history::History;
use gmp_seq::Limits;
use gmp_trace::{BeginningView, End, TraceView, WriteError, write_view};
use gmp_waits::{AtEnd, at_end};
use std::alloc::Global;
use std::fs;
use std::io::Write;
use std::rt::Files;

/// How a run ended, and all that its trace says: `gmp explain` puts it into words, `gmp draw` draws it, and `gmp check` judges it.
#[derive(Drop)]
pub struct Traced {
    pub(crate) alloc: Global,
    pub ended: Ended,
    pub limits: Limits,
    /// How many goroutines there were, started or not.
    pub bodies: u16,
    /// How much room each channel had that was there at the start.
    pub capacities: Vec<u32>,
    /// Every call of the run, in order, each with its reply.
    pub history: History,
}

impl Traced {
    ghost use Rattle.gmp_host.specs.Traced.{trace_of};

    /// Who began and is not done at its end, also where main ended it, and who ran lately.
    ///
    ///     for waiting in &host.replay(seed)?.at_end()?.waiting {
    ///         println!(rt; "{waiting}")?;
    ///     }
    pub fn at_end(&self) -> Result<AtEnd, Short>
        ensures waiting { IfOk result (λ end. AreWaiting self.now.limits self.now.bodies self.now.capacities.items self.now.history.list end.waiting.items) }
        ensures lately { IfOk result (λ end. IsLately self.now.limits self.now.bodies self.now.capacities.items self.now.history.list end.lately.items) }
        ensures memory { IfErr result (λ e. e ≡ Short.OutOfMemory) }
    {
        let told = at_end(
            self.alloc,
            self.limits,
            self.bodies,
            &self.capacities,
            &self.history,
        );
        told.ok_or(Short::OutOfMemory)
    }

    /// Writes the text of the trace. `Device` comes where the writer failed.
    pub fn write<W: Write>(&self, writer: &mut W) -> Result<(), WriteError>
        ensures written { OnOk result (Appends (W.contents writer.old) (W.contents writer.new) (text (trace_of self.now))) }
        ensures begun { IfErr result (λ e. e ≡ OutOfMemory → AppendsStart (W.contents writer.old) (W.contents writer.new) (text (trace_of self.now))) }
    {
        let trace = TraceView {
            limits: self.limits,
            bodies: self.bodies,
            beginning: BeginningView::Opening(&self.capacities),
            entries: &self.history,
            end: End::of(Some(self.ended.outcome)),
        };
        write_view(self.alloc, trace, writer)
    }

    /// Writes the text of the trace to a file of this name, which is made, or emptied first.
    ///
    ///     let run = host.replay(seed)?;
    ///     println!(rt; "{}", run.ended)?;
    ///     run.save(&rt, "deadlock.trace")?;
    pub fn save<R: Files>(&self, rt: &R, name: &str) -> Result<(), WriteError> {
        let Ok(mut file) = fs::create(rt, name) else {
            return Err(WriteError::Device);
        };
        self.write(&mut file)
    }
}

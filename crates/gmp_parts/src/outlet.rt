//! Where parts go.
ghost use Rattle.std.specs.Prelude.{◌≡◌, OnOk};

use std::io::{Result, Write};

/// Where parts go: each begins by `begin`, and is then written.
pub trait Outlet: Write {
    /// What is written from now on is part `number`, counted from 1.
    fn begin(&mut self, number: u64) -> Result<()>
        ensures { OnOk result (Self.contents self.new ≡ Self.contents self.old) };
}

/// One behind another on one writer: `gmp join` reads them so.
#[derive(Drop)]
pub struct Together<W>(pub W);

impl<W: Write> Write for Together<W> {
    ghost contents = { λ t. W.contents t.0 };

    fn write(&mut self, buf: &[u8]) -> Result<usize> {
        self.0.write(buf)
    }

    fn flush(&mut self) -> Result<()> {
        self.0.flush()
    }

    fn write_all(&mut self, buf: &[u8]) -> Result<()> {
        self.0.write_all(buf)
    }
}

impl<W: Write> Outlet for Together<W> {
    fn begin(&mut self, _number: u64) -> Result<()> {
        Ok(())
    }
}

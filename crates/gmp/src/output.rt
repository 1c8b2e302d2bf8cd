//! Where the output goes. It minds why a write failed: where the reader of a pipe has gone, nobody wants to hear of it.

use std::io::{self, ErrorKind, Write};

/// Standard output, and what its last error was, if a write failed.
#[derive(Drop)]
pub struct Output<W> {
    writer: W,
    pub failed: Option<ErrorKind>,
}

impl<W> Output<W> {
    /// An output that nothing was written to yet.
    pub fn of(writer: W) -> Self {
        Output {
            writer,
            failed: None,
        }
    }
}

impl<W: Write> Write for Output<W> {
    fn write(&mut self, buf: &[u8]) -> io::Result<usize> {
        let written = self.writer.write(buf);
        if let Err(error) = &written {
            self.failed = Some(error.kind());
        }
        written
    }

    fn flush(&mut self) -> io::Result<()> {
        self.writer.flush()
    }
}

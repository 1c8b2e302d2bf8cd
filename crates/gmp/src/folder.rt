//! Where the parts of a run go: each into a file of its own, in a folder that is there.
//! A clause can say nothing of a file: of what goes there `run_in_segments` says it for any outlet.

use gmp_parts::Outlet;
use std::alloc::Global;
use std::fs;
use std::io::{self, ErrorKind, Write};
use std::rt::Files;

/// The files `part-000000001.trace` and so on of this folder. One that is there is written over.
#[derive(Drop)]
pub struct Folder<'a, R: Files> {
    files: &'a R,
    alloc: Global,
    name: &'a str,
    /// That of the part that was begun last.
    part: Option<R::File>,
    /// What the error was, if a file could not be made.
    pub failed: Option<ErrorKind>,
}

impl<'a, R: Files> Folder<'a, R> {
    /// The folder of this name. Nothing is opened yet.
    pub fn new(files: &'a R, alloc: Global, name: &'a str) -> Self {
        Folder {
            files,
            alloc,
            name,
            part: None,
            failed: None,
        }
    }
}

impl<R: Files> Write for Folder<'_, R> {
    fn write(&mut self, buf: &[u8]) -> io::Result<usize> {
        match &mut self.part {
            Some(part) => part.write(buf),
            None => Err(io::Error::from(ErrorKind::NotFound)),
        }
    }

    fn flush(&mut self) -> io::Result<()> {
        match &mut self.part {
            Some(part) => part.flush(),
            None => Ok(()),
        }
    }
}

impl<R: Files> Outlet for Folder<'_, R> {
    fn begin(&mut self, number: u64) -> io::Result<()> {
        let path = format!(in self.alloc; "{}/part-{number:09}.trace", self.name)?;
        match fs::create(self.files, path.as_str()) {
            Ok(file) => {
                self.part = Some(file);
                Ok(())
            }
            Err(error) => {
                self.failed = Some(error.kind());
                Err(error)
            }
        }
    }
}

// A stream of the process as a sink. It tells nothing of what it wrote.
ghost use Rattle.std.specs.Prelude.{◌≡◌, ◌≤◌, None};

use real_files::{Disk, Progress};
use skopeo_outside::{Sink, Stop};
use std::io;
use std::io::Write;

/// A stream, with a count of the writes that failed and the first error. The line of progress goes before it is written.
#[derive(Drop)]
pub struct Stream<'r, R, W: Write + Drop> {
    to: W,
    progress: &'r Progress<'r, R>,
    faults: u64,
    error: Option<io::Error>,
}

impl<'r, R: Disk, W: Write + Drop> Stream<'r, R, W> {
    pub fn new(to: W, progress: &'r Progress<'r, R>) -> Self {
        Stream {
            to,
            progress,
            faults: 0,
            error: None,
        }
    }

    /// The first error.
    pub fn error(&self) -> Option<&io::Error> {
        self.error.as_ref()
    }
}

impl<'r, R: Disk, W: Write + Drop> Sink for Stream<'r, R, W> {
    ghost written = { λ _. None };

    ghost faults = { λ s. s.faults };

    ghost wants = { λ _. 0 };

    fn write(&mut self, bytes: &[u8]) -> Result<(), Stop> {
        self.progress.clear();
        match self.to.write_all(bytes) {
            Ok(()) => Ok(()),
            Err(error) => {
                self.faults = self.faults.saturating_add(1);
                if self.error.is_none() {
                    self.error = Some(error);
                }
                Err(Stop::Fault)
            }
        }
    }

    fn faults(&self) -> u64 {
        self.faults
    }
}

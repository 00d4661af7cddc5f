// The system's files, and how one is closed.
use std::io::Eprint;
use std::os::fd::IntoRawFd;
use std::rt::{Clock, HostRuntime};
use std::{fs, io, rt};

/// A file system whose files tell whether they were closed whole, with a clock and a standard error.
pub trait Disk: rt::Files + Clock + Eprint + AllocGlobal + Clone + Drop {
    /// Closes a file. What was written before may fail only here.
    fn close(&self, file: Self::File) -> io::Result<()>;
}

impl Disk for HostRuntime {
    fn close(&self, file: fs::File) -> io::Result<()> {
        if libc::close(file.into_raw_fd()) < 0 {
            return Err(std_io::io::last_error());
        }
        Ok(())
    }
}

// A disk whose every second read and write is interrupted, and whose others move one byte.
use real_files::Disk;
use std::alloc::Global;
use std::fmt::Display;
use std::fs::{Metadata, OpenFile, OpenOptions};
use std::io;
use std::io::{Empty, Eprint, ErrorKind, Read, Seek, SeekFrom, Write};
use std::rt::{Clock, Files};
use std::sync::atomic::{AtomicU64, Ordering};
use std::time::Duration;

/// What was asked of the disk so far, and how many bytes it still takes.
#[derive(Drop)]
pub struct Asked {
    pub opens: AtomicU64,
    pub reads: AtomicU64,
    pub writes: AtomicU64,
    pub room: AtomicU64,
    pub closes_well: bool,
}

impl Asked {
    pub fn new(room: u64, closes_well: bool) -> Self {
        Asked {
            opens: AtomicU64::new(0),
            reads: AtomicU64::new(0),
            writes: AtomicU64::new(0),
            room: AtomicU64::new(room),
            closes_well,
        }
    }
}

#[derive(Clone, Copy)]
pub struct SlowDisk<'a> {
    pub alloc: Global,
    pub asked: &'a Asked,
}

#[derive(Drop)]
pub struct SlowFile<'a> {
    asked: &'a Asked,
}

/// Counts a call, and fails each second one, the first among them.
fn interrupt(calls: &AtomicU64) -> io::Result<()> {
    if calls.fetch_add(1, Ordering::SeqCst) % 2 == 0 {
        return Err(io::Error::from(ErrorKind::Interrupted));
    }
    Ok(())
}

impl<'a> Read for SlowFile<'a> {
    fn read(&mut self, buf: &mut [u8]) -> io::Result<usize> {
        interrupt(&self.asked.reads)?;
        if buf.is_empty() {
            return Ok(0);
        }
        buf[0] = b'x';
        Ok(1)
    }
}

impl<'a> Write for SlowFile<'a> {
    fn write(&mut self, buf: &[u8]) -> io::Result<usize> {
        interrupt(&self.asked.writes)?;
        let room = self.asked.room.load(Ordering::SeqCst);
        if room == 0 {
            return Err(io::Error::from_raw_os_error(28));
        }
        self.asked.room.store(room - 1, Ordering::SeqCst);
        Ok(buf.len().min(1))
    }

    fn flush(&mut self) -> io::Result<()> {
        Ok(())
    }
}

impl<'a> Seek for SlowFile<'a> {
    fn seek(&mut self, _to: SeekFrom) -> io::Result<u64> {
        Ok(0)
    }
}

impl<'a> OpenFile for SlowFile<'a> {
    fn metadata(&self) -> io::Result<Metadata> {
        Ok(Metadata::of_file(9))
    }

    fn set_len(&self, _size: u64) -> io::Result<()> {
        Ok(())
    }

    fn sync_all(&self) -> io::Result<()> {
        Ok(())
    }

    fn sync_data(&self) -> io::Result<()> {
        Ok(())
    }
}

impl<'a> Files for SlowDisk<'a> {
    type File = SlowFile<'a>;

    type Dir = Empty;

    fn open_file(&self, _how: &OpenOptions, _path: &str) -> io::Result<SlowFile<'a>> {
        self.asked.opens.fetch_add(1, Ordering::SeqCst);
        Ok(SlowFile { asked: self.asked })
    }

    fn open_dir(&self, _path: &str) -> io::Result<Empty> {
        Err(io::Error::from(ErrorKind::Unsupported))
    }

    fn metadata(&self, _path: &str) -> io::Result<Metadata> {
        Ok(Metadata::of_file(9))
    }

    fn symlink_metadata(&self, _path: &str) -> io::Result<Metadata> {
        Ok(Metadata::of_file(9))
    }

    fn copy(&self, _from: &str, _to: &str) -> io::Result<u64> {
        Err(io::Error::from(ErrorKind::Unsupported))
    }

    fn rename(&self, _from: &str, _to: &str) -> io::Result<()> {
        Ok(())
    }

    fn remove_file(&self, _path: &str) -> io::Result<()> {
        Ok(())
    }

    fn create_dir(&self, _path: &str) -> io::Result<()> {
        Ok(())
    }

    fn remove_dir(&self, _path: &str) -> io::Result<()> {
        Ok(())
    }

    fn remove_dir_all<B: std::alloc::Allocator>(&self, _alloc: B, _path: &str) -> io::Result<()> {
        Ok(())
    }
}

impl<'a> Clock for SlowDisk<'a> {
    fn monotonic(&self) -> io::Result<Duration> {
        Ok(Duration::ZERO)
    }

    fn since_1970(&self) -> io::Result<Duration> {
        Ok(Duration::ZERO)
    }
}

impl<'a> Eprint for SlowDisk<'a> {
    fn eprint<D: Display + Drop>(&self, _value: D) -> io::Result<()> {
        Ok(())
    }

    fn eprintln<D: Display + Drop>(&self, _value: D) -> io::Result<()> {
        Ok(())
    }
}

impl<'a> Alloc for SlowDisk<'a> {
    type A = Global;

    fn alloc(&self) -> Global {
        self.alloc
    }
}

impl<'a> Disk for SlowDisk<'a> {
    fn close(&self, _file: SlowFile<'a>) -> io::Result<()> {
        if self.asked.closes_well {
            Ok(())
        } else {
            Err(io::Error::from_raw_os_error(5))
        }
    }
}

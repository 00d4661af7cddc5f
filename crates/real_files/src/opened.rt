// Files that stay open between calls: the one that is read, and the part that is appended to.
ghost use Rattle.std.specs.Prelude.{◌≤◌, IfOk, length};

use crate::disk::Disk;
use std::alloc::{AllocError, Global};
use std::fs::OpenFile;
use std::io::{ErrorKind, Read, Seek, SeekFrom, Write};
use std::os::unix::fs::MetadataExt;
use std::{fs, io};

/// A file that is read in pieces, and how far it was read.
#[derive(Drop)]
pub struct Source<F> {
    path: String,
    file: F,
    at: u64,
}

impl<F> Source<F> {
    pub fn new(alloc: Global, path: &str, file: F) -> Result<Self, AllocError>
    where
        F: Drop,
    {
        Ok(Source {
            path: String::from_str(alloc, path)?,
            file,
            at: 0,
        })
    }

    pub fn is_at(&self, path: &str) -> bool {
        self.path.as_str() == path
    }
}

/// Reads once, and again where a signal interrupted it.
fn read_some<F: Read>(file: &mut F, into: &mut [u8]) -> io::Result<usize>
    ensures { IfOk result (λ count. count ≤ length into.old) }
{
    for _ in 0..u64::MAX {
        match file.read(into) {
            Ok(count) => return Ok(count),
            Err(error) => {
                if error.kind() != ErrorKind::Interrupted {
                    return Err(error);
                }
            }
        }
    }
    Err(io::Error::from(ErrorKind::TimedOut))
}

impl<F: Read + Seek> Source<F> {
    /// Bytes from an offset on.
    pub fn read_at(&mut self, at: u64, into: &mut [u8]) -> io::Result<usize>
        ensures { IfOk result (λ count. count ≤ length into.old) }
    {
        if at != self.at {
            self.file.seek(SeekFrom::Start(at))?;
            self.at = at;
        }
        let count = read_some(&mut self.file, into)?;
        self.at = at.saturating_add(count as u64);
        Ok(count)
    }
}

/// A file that is appended to.
#[derive(Drop)]
pub struct Part<F> {
    path: String,
    file: F,
}

impl<F> Part<F> {
    pub fn new(alloc: Global, path: &str, file: F) -> Result<Self, AllocError>
    where
        F: Drop,
    {
        Ok(Part {
            path: String::from_str(alloc, path)?,
            file,
        })
    }

    pub fn is_at(&self, path: &str) -> bool {
        self.path.as_str() == path
    }

    /// The path and the file, which are moved.
    pub fn into_parts(self) -> (String, F) {
        (self.path, self.file)
    }
}

impl<F: Write> Part<F> {
    pub fn append(&mut self, bytes: &[u8]) -> io::Result<()> {
        self.file.write_all(bytes)
    }
}

/// A new file, where nothing stands, not even a link.
fn make_new<R: Disk>(rt: &R, path: &str) -> io::Result<R::File> {
    fs::OpenOptions::new()
        .append(true)
        .create_new(true)
        .open(rt, path)
}

/// An empty file in the place of a file or a link. What a link leads to is not touched.
pub fn make_empty<R: Disk>(rt: &R, path: &str) -> io::Result<R::File> {
    match make_new(rt, path) {
        Ok(file) => Ok(file),
        Err(error) => {
            if error.kind() != ErrorKind::AlreadyExists {
                return Err(error);
            }
            fs::remove_file(rt, path)?;
            make_new(rt, path)
        }
    }
}

fn link_in_the_way() -> io::Error {
    io::Error::new(
        ErrorKind::AlreadyExists,
        "a link or something that is no file stands there",
    )
}

/// Opens a file that stands, which is the one that was looked at, so no link was followed.
fn open_standing<R: Disk>(rt: &R, path: &str, seen: &fs::Metadata) -> io::Result<R::File> {
    let file = fs::OpenOptions::new().append(true).open(rt, path)?;
    let opened = file.metadata()?;
    if opened.dev() != seen.dev() || opened.ino() != seen.ino() {
        return Err(link_in_the_way());
    }
    Ok(file)
}

/// A file that bytes are added to: the one that stands, or a new one.
pub fn open_end<R: Disk>(rt: &R, path: &str) -> io::Result<R::File> {
    match fs::symlink_metadata(rt, path) {
        Ok(seen) => {
            if !seen.is_file() {
                return Err(link_in_the_way());
            }
            open_standing(rt, path, &seen)
        }
        Err(error) => {
            if error.kind() != ErrorKind::NotFound {
                return Err(error);
            }
            make_new(rt, path)
        }
    }
}

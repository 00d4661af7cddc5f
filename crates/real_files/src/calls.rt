// What the system says of a path. Links are followed, and what leads to neither file nor folder is nothing.
use crate::disk::Disk;
use skopeo_outside::{Entry, Many, Text};
use std::alloc::Global;
use std::io::ErrorKind;
use std::{fs, io};

/// Nothing where there is none.
pub fn found<T>(answer: io::Result<T>) -> io::Result<Option<T>> {
    match answer {
        Ok(value) => Ok(Some(value)),
        Err(error) => {
            if error.kind() == ErrorKind::NotFound || error.kind() == ErrorKind::NotADirectory {
                Ok(None)
            } else {
                Err(error)
            }
        }
    }
}

/// The length of a file.
pub fn size_of<R: Disk>(rt: &R, path: &str) -> io::Result<Option<u64>> {
    match found(fs::metadata(rt, path))? {
        Some(data) => {
            if data.is_file() {
                Ok(Some(data.len()))
            } else {
                Ok(None)
            }
        }
        None => Ok(None),
    }
}

/// Whether a path leads to a folder, and `None` where it leads to neither file nor folder.
fn is_folder<R: Disk>(rt: &R, path: &str) -> io::Result<Option<bool>> {
    match found(fs::metadata(rt, path))? {
        Some(data) => {
            if data.is_dir() {
                Ok(Some(true))
            } else if data.is_file() {
                Ok(Some(false))
            } else {
                Ok(None)
            }
        }
        None => Ok(None),
    }
}

/// Adds a child of a folder where it leads to a file or a folder.
fn add_child<R: Disk>(
    rt: &R,
    child: &fs::DirEntry<R, Global>,
    into: &mut Many<Entry>,
) -> io::Result<()> {
    let Some(folder) = is_folder(rt, child.path().as_str())? else {
        return Ok(());
    };
    let Ok(name) = Text::copy_of(rt.alloc(), child.file_name()) else {
        return Err(io::Error::from(ErrorKind::OutOfMemory));
    };
    if into.push(Entry { name, folder }).is_err() {
        return Err(io::Error::from(ErrorKind::OutOfMemory));
    }
    Ok(())
}

fn add_children<R: Disk>(rt: &R, path: &str, into: &mut Many<Entry>) -> io::Result<()> {
    for child in fs::read_dir(rt, path)? {
        let child = child?;
        add_child(rt, &child, into)?;
    }
    Ok(())
}

/// Adds a folder's children, and says whether it is one.
pub fn list_of<R: Disk>(rt: &R, path: &str, into: &mut Many<Entry>) -> io::Result<bool> {
    into.clear();
    if is_folder(rt, path)? != Some(true) {
        return Ok(false);
    }
    add_children(rt, path, into)?;
    Ok(true)
}

/// Removes a file, or a link to one.
pub fn remove_at<R: Disk>(rt: &R, path: &str) -> io::Result<()> {
    if size_of(rt, path)?.is_none() {
        return Ok(());
    }
    found(fs::remove_file(rt, path))?;
    Ok(())
}

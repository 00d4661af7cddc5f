// The folders that files were read from, so that none of them is changed under another name.
use crate::calls::found;
use crate::disk::Disk;
use std::alloc::Global;
use std::io::ErrorKind;
use std::os::unix::fs::MetadataExt;
use std::{fs, io};

/// A folder as it was named, and which one it is.
#[derive(Drop)]
struct Folder {
    path: String,
    device: u64,
    node: u64,
}

/// The folders that files were read from, and the one that was last found to be none of them under another name.
#[derive(Drop)]
pub struct Known {
    folders: Vec<Folder>,
    apart: Option<String>,
}

/// The folder that a path stands in.
fn folder_of(path: &str) -> &str {
    match path.rsplit_once('/') {
        Some((folder, _)) => { if folder.is_empty() { "/" } else { folder } }
        None => "/",
    }
}

impl Known {
    pub fn new(alloc: Global) -> Self {
        Known {
            folders: Vec::new(alloc),
            apart: None,
        }
    }

    fn has(&self, folder: &str) -> bool {
        for known in &self.folders {
            if known.path.as_str() == folder {
                return true;
            }
        }
        false
    }

    fn has_under_another_name(&self, folder: &str, device: u64, node: u64) -> bool {
        for known in &self.folders {
            if known.device == device && known.node == node && known.path.as_str() != folder {
                return true;
            }
        }
        false
    }

    /// Notes the folder of a file that is read.
    pub fn note_read<R: Disk>(&mut self, rt: &R, path: &str) -> io::Result<()> {
        let folder = folder_of(path);
        if self.has(folder) {
            return Ok(());
        }
        let Some(data) = found(fs::metadata(rt, folder))? else {
            return Ok(());
        };
        self.apart = None;
        self.folders.push(Folder {
            path: String::from_str(rt.alloc(), folder)?,
            device: data.dev(),
            node: data.ino(),
        })?;
        Ok(())
    }

    /// Fails where a file would change in a folder that was read under another name. A system that numbers no files
    /// tells no folders apart.
    pub fn check_change<R: Disk>(&mut self, rt: &R, path: &str) -> io::Result<()> {
        let folder = folder_of(path);
        if let Some(apart) = &self.apart {
            if apart.as_str() == folder {
                return Ok(());
            }
        }
        let Some(data) = found(fs::metadata(rt, folder))? else {
            return Ok(());
        };
        if data.ino() != 0 && self.has_under_another_name(folder, data.dev(), data.ino()) {
            return Err(io::Error::new(
                ErrorKind::InvalidInput,
                "this folder was read under another name",
            ));
        }
        self.apart = Some(String::from_str(rt.alloc(), folder)?);
        Ok(())
    }
}

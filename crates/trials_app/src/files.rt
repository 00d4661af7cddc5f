// The files that a row gives.
use crate::bytes::bytes_of;
use skopeo_outside::{Memory, Shelf};
use std::fs;
use std::rt::Files;

/// A file of these bytes.
fn put_file<R: AllocGlobal + Files>(
    rt: &R,
    shelf: &mut Shelf,
    path: &str,
    name: &str,
) -> Result<(), Memory> {
    let bytes = bytes_of(rt, name)?;
    shelf.add(path, bytes.as_slice())
}

/// A word is `PATH=NAME`, or a path and a slash for a folder that was made.
fn put_word<R: AllocGlobal + Files>(rt: &R, shelf: &mut Shelf, word: &str) -> Result<(), Memory> {
    if let Some((path, name)) = word.split_once("=") {
        return put_file(rt, shelf, path, name);
    }
    match word.strip_suffix("/") {
        Some(folder) => shelf.make_dir(folder),
        None => Err(Memory),
    }
}

/// The words that a file beside the rows lists, one a line.
fn put_list<R: AllocGlobal + Files>(rt: &R, shelf: &mut Shelf, name: &str) -> Result<(), Memory> {
    match fs::read_to_string(rt, name) {
        Ok(text) => {
            for word in text.lines() {
                put_word(rt, shelf, word)?;
            }
            Ok(())
        }
        Err(_) => Err(Memory),
    }
}

/// A column is words of files and folders, and `+NAME` for the words of a list. A dash is no word.
pub fn put_files<R: AllocGlobal + Files>(
    rt: &R,
    shelf: &mut Shelf,
    column: &str,
) -> Result<(), Memory> {
    if column == "-" {
        return Ok(());
    }
    for word in column.split(' ') {
        match word.strip_prefix("+") {
            Some(list) => put_list(rt, shelf, list)?,
            None => put_word(rt, shelf, word)?,
        }
    }
    Ok(())
}

// What a command left.
use crate::network::Network;
use skopeo_outside::{Entry, Lane, Many, MemFiles, MemSink, MemWire, Memory, Shelf, Text};
use std::alloc::Global;
use std::str::from_utf8;

/// Adds what stands in `/w/dst` and was not there.
fn add_new(alloc: Global, all: &mut Shelf, shelf: &Shelf) -> Result<(), Memory> {
    let mut entries = Many::new(alloc);
    shelf.list("/w/dst", &mut entries)?;
    for entry in entries.as_slice() {
        let name = entry.name.as_str();
        let path = format!(in alloc; "/w/dst/{name}")?;
        if entry.folder {
            all.make_dir(path.as_str())?;
        } else if all.get(path.as_str()).is_none() {
            all.add(path.as_str(), shelf.get(path.as_str()).unwrap_or(&[]))?;
        }
    }
    Ok(())
}

fn shelf_of(lane: Lane<MemWire<Network>, MemFiles>) -> Shelf {
    let Lane {
        from: _,
        to: _,
        files,
        number: _,
    } = lane;
    let MemFiles { shelf, failures: _ } = files;
    shelf
}

/// The first lane's files, and what else stands in `/w/dst` on another; of a path that several have, the first one's.
pub fn gather(
    alloc: Global,
    mut lanes: Vec<Lane<MemWire<Network>, MemFiles>>,
) -> Result<Shelf, Memory> {
    let mut all = Shelf::new(alloc);
    while let Some(lane) = lanes.pop() {
        let mut shelf = shelf_of(lane);
        add_new(alloc, &mut shelf, &all)?;
        all = shelf;
    }
    Ok(all)
}

/// A folder of the destination by its name and a slash, a file by its name and its bytes: as a text up to 64, or their number.
fn push_entry(alloc: Global, text: &mut Text, shelf: &Shelf, entry: &Entry) -> Result<(), Memory> {
    let name = entry.name.as_str();
    if entry.folder {
        return text.push_str(format!(in alloc; " {name}/")?.as_str());
    }
    let path = format!(in alloc; "/w/dst/{name}")?;
    let bytes = shelf.get(path.as_str()).unwrap_or(&[]);
    let count = bytes.len();
    let said = if count > 64 {
        format!(in alloc; " {name}={count}")?
    } else {
        format!(in alloc; " {name}={:?}", from_utf8(bytes).unwrap_or("no text"))?
    };
    text.push_str(said.as_str())
}

/// The status, what was printed, what was said, and what stands in `/w/dst`.
pub fn left_text(
    alloc: Global,
    status: u8,
    shelf: &Shelf,
    out: &MemSink,
    err: &MemSink,
) -> Result<Text, Memory> {
    let printed = from_utf8(out.written.as_slice()).unwrap_or("no text");
    let said = from_utf8(err.written.as_slice()).unwrap_or("no text");
    let mut text = Text::from_string(format!(in alloc; "{status} | {printed:?} | {said:?} |")?);
    let mut entries = Many::new(alloc);
    shelf.list("/w/dst", &mut entries)?;
    for entry in entries.as_slice() {
        push_entry(alloc, &mut text, shelf, entry)?;
    }
    Ok(text)
}

// One more line where an object failed: which call, and why. It follows the line of the refusal, which is proved; it is not.
use crate::stream::Stream;
use real_files::{Disk, RealFiles, words_of};
use real_wires::RealWire;
use skopeo_outside::Lane;
use std::io;
use std::io::Write;
use std::net::Net;

/// Adds the note of the first lane whose files failed, and says whether there is one.
fn add_note_of_files<'r, R: Disk + Net>(
    rt: &R,
    lanes: &[Lane<RealWire<'r, R>, RealFiles<'r, R>>],
) -> bool {
    for lane in lanes {
        if let Some(note) = lane.files.note() {
            let _ = eprintln!(rt; "note: {note}");
            return true;
        }
    }
    false
}

/// Adds the note of the first lane one of whose connections failed, and says whether there is one.
fn add_note_of_wires<'r, R: Disk + Net>(
    rt: &R,
    lanes: &[Lane<RealWire<'r, R>, RealFiles<'r, R>>],
) -> bool {
    for lane in lanes {
        if let Some(note) = lane.from.note() {
            let _ = eprintln!(rt; "note: {note}");
            return true;
        }
        if let Some(note) = lane.to.note() {
            let _ = eprintln!(rt; "note: {note}");
            return true;
        }
    }
    false
}

/// A note of what is no call of the files.
pub fn add_note<R: Disk>(rt: &R, what: &str, error: &io::Error) {
    match words_of(rt.alloc(), error) {
        Ok(why) => {
            let _ = eprintln!(rt; "note: {what}: {why}");
        }
        Err(_) => {
            let _ = eprintln!(rt; "note: {what}");
        }
    }
}

/// Explains status 3, and a source that could not be reached.
pub fn explain<'r, R: Disk + Net, W: Write + Drop>(
    rt: &R,
    status: u8,
    lanes: &[Lane<RealWire<'r, R>, RealFiles<'r, R>>],
    out: &Stream<'r, R, W>,
) {
    if status == 0 || add_note_of_wires(rt, lanes) {
        return;
    }
    if status != 3 || add_note_of_files(rt, lanes) {
        return;
    }
    if let Some(error) = out.error() {
        add_note(rt, "write standard output", error);
    }
}

// What the command is begun with, from the process.
ghost use Rattle.std.specs.Prelude.{◌≡◌};
ghost use Rattle.skopeo_main.specs.declared.begin.Unbegun.TheVariants.{Memory};

use crate::notes::add_note;
use real_files::Disk;
use std::alloc::AllocError;
use std::env::VarError;
use std::io::ErrorKind;
use std::rt::Env;
use std::{env, io};

/// What the command is begun with.
#[derive(Clone, Copy, Debug, PartialEq, Eq)]
pub enum Part {
    Words,
    Cwd,
    Home,
}

/// Why the command cannot begin.
#[derive(Drop)]
pub enum Unbegun {
    Memory,
    /// The words, the working folder or the user's folder cannot be read, or are no text.
    Fault(Part, io::Error),
}

impl From<AllocError> for Unbegun {
    ghost from_gives = { λ _ e. e ≡ Memory };

    fn from(_: AllocError) -> Self {
        Unbegun::Memory
    }
}

/// The words of the command line, and the working folder and the user's as texts.
#[derive(Debug, Drop)]
pub struct Given {
    pub words: Vec<String>,
    pub cwd: String,
    pub home: String,
}

fn why_of(part: Part, error: io::Error) -> Unbegun {
    match error.kind() {
        ErrorKind::OutOfMemory => Unbegun::Memory,
        _ => Unbegun::Fault(part, error),
    }
}

fn no_text() -> io::Error {
    io::Error::new(ErrorKind::InvalidData, "no text in UTF-8")
}

/// The words of the command line, without the program's name.
fn read_words<R: Env + AllocGlobal>(rt: &R) -> Result<Vec<String>, Unbegun> {
    let mut words = Vec::new(rt.alloc());
    let args = match env::args(rt) {
        Ok(args) => args,
        Err(error) => return Err(why_of(Part::Words, error)),
    };
    for word in args.skip(1) {
        if words.push(word).is_err() {
            return Err(Unbegun::Memory);
        }
    }
    Ok(words)
}

/// The working folder. One whose name is no text is a fault, and not another folder.
fn read_cwd<R: Env + AllocGlobal>(rt: &R) -> Result<String, Unbegun> {
    let cwd = match env::current_dir(rt) {
        Ok(cwd) => cwd,
        Err(error) => return Err(why_of(Part::Cwd, error)),
    };
    match cwd.as_path().to_str() {
        Some(text) => Ok(String::from_str(rt.alloc(), text)?),
        None => Err(Unbegun::Fault(Part::Cwd, no_text())),
    }
}

/// The user's folder, and the empty text where none is set.
fn read_home<R: Env + AllocGlobal>(rt: &R) -> Result<String, Unbegun> {
    match env::var(rt, "HOME") {
        Ok(home) => Ok(home),
        Err(VarError::NotPresent) => Ok(String::new(rt.alloc())),
        Err(VarError::NotUnicode) => Err(Unbegun::Fault(Part::Home, no_text())),
        Err(VarError::OutOfMemory) => Err(Unbegun::Memory),
    }
}

/// Reads what the command is begun with.
pub fn begin<R: Env + AllocGlobal>(rt: &R) -> Result<Given, Unbegun> {
    let words = read_words(rt)?;
    let cwd = read_cwd(rt)?;
    let home = read_home(rt)?;
    Ok(Given { words, cwd, home })
}

fn word_of(part: Part) -> &'static str {
    match part {
        Part::Words => "words of the command line",
        Part::Cwd => "working folder",
        Part::Home => "HOME",
    }
}

/// Tells why the command cannot begin, and answers its status.
pub fn refuse<R: Disk>(rt: &R, why: &Unbegun) -> u8 {
    match why {
        Unbegun::Memory => {
            let _ = eprintln!(rt; "skopeo: 4 OutOfMemory");
            4
        }
        Unbegun::Fault(part, error) => {
            let _ = eprintln!(rt; "skopeo: 41 Files faults=1");
            add_note(rt, word_of(*part), error);
            3
        }
    }
}

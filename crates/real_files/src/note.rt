// What failed, in the system's words.
use std::alloc::{AllocError, Global};
use std::fmt::{Display, Formatter, Write};
use std::{fmt, io};

/// What was asked of the files.
#[derive(Clone, Copy, Debug, PartialEq, Eq)]
pub enum Call {
    Size,
    Read,
    List,
    MakeDir,
    Create,
    Append,
    Rename,
    Remove,
    /// A file that was written is closed.
    Close,
}

impl Call {
    fn word(self) -> &'static str {
        match self {
            Call::Size => "size",
            Call::Read => "read",
            Call::List => "list",
            Call::MakeDir => "make_dir",
            Call::Create => "create",
            Call::Append => "append",
            Call::Rename => "rename",
            Call::Remove => "remove",
            Call::Close => "close",
        }
    }
}

/// A call that failed, its path and why. The texts are empty where there was no memory for them.
#[derive(Drop)]
pub struct Note {
    call: Call,
    path: String,
    why: String,
}

fn without_number(text: &str) -> &str {
    match text.split_once(" (os error ") {
        Some((words, _)) => words,
        None => text,
    }
}

/// The system's words for an error, without its number and with a small first letter.
pub fn words_of(alloc: Global, error: &io::Error) -> Result<String, AllocError> {
    let whole = format!(in alloc; "{error}")?;
    let mut words = String::new(alloc);
    for letter in without_number(whole.as_str()).chars() {
        let letter = if words.is_empty() {
            letter.to_ascii_lowercase()
        } else {
            letter
        };
        words.push(letter)?;
    }
    Ok(words)
}

fn or_empty(alloc: Global, text: Result<String, AllocError>) -> String {
    match text {
        Ok(text) => text,
        Err(_) => String::new(alloc),
    }
}

impl Note {
    pub fn new(alloc: Global, call: Call, path: &str, error: &io::Error) -> Self {
        Note {
            call,
            path: or_empty(alloc, String::from_str(alloc, path)),
            why: or_empty(alloc, words_of(alloc, error)),
        }
    }
}

impl Display for Note {
    fn fmt<W: Write>(&self, f: &mut Formatter<W>) -> fmt::Result {
        write!(
            f,
            "{} {:?}: {}",
            self.call.word(),
            self.path.as_str(),
            self.why.as_str()
        )
    }
}

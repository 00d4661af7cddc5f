// What failed, with the program, in the system's words.
use real_files::words_of;
use std::alloc::{AllocError, Global};
use std::fmt::{Display, Formatter, Write};
use std::{fmt, io};

/// What was asked of the system.
#[derive(Clone, Copy, Debug, PartialEq, Eq)]
pub enum Call {
    /// To start the program.
    Start,
    /// To pass on its input and its output, and to wait for its end.
    Run,
}

impl Call {
    fn word(self) -> &'static str {
        match self {
            Call::Start => "start",
            Call::Run => "run",
        }
    }
}

/// A call that failed, the program's path and why. The texts are empty where there was no memory for them.
#[derive(Drop)]
pub struct Note {
    call: Call,
    program: String,
    why: String,
}

fn or_empty(alloc: Global, text: Result<String, AllocError>) -> String {
    match text {
        Ok(text) => text,
        Err(_) => String::new(alloc),
    }
}

impl Note {
    pub fn new(alloc: Global, call: Call, program: &str, error: &io::Error) -> Self {
        Note {
            call,
            program: or_empty(alloc, String::from_str(alloc, program)),
            why: or_empty(alloc, words_of(alloc, error)),
        }
    }
}

impl Display for Note {
    fn fmt<W: Write>(&self, f: &mut Formatter<W>) -> fmt::Result {
        write!(
            f,
            "{} {:?}: {}",
            self.call.word(),
            self.program.as_str(),
            self.why.as_str()
        )
    }
}

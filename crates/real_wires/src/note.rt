// What failed, with the peer, in the system's words.
use real_files::words_of;
use std::alloc::{AllocError, Global};
use std::fmt::{Display, Formatter, Write};
use std::{fmt, io};

/// What was asked of a connection.
#[derive(Clone, Copy, Debug, PartialEq, Eq)]
pub enum Call {
    Connect,
    Send,
    Receive,
}

impl Call {
    fn word(self) -> &'static str {
        match self {
            Call::Connect => "connect",
            Call::Send => "send",
            Call::Receive => "receive",
        }
    }
}

/// A call that failed, the host and port that it spoke to, and why. The texts are empty where there was no memory for them.
#[derive(Drop)]
pub struct Note {
    call: Call,
    peer: String,
    why: String,
}

fn or_empty(alloc: Global, text: Result<String, AllocError>) -> String {
    match text {
        Ok(text) => text,
        Err(_) => String::new(alloc),
    }
}

impl Note {
    pub fn new(alloc: Global, call: Call, peer: &str, error: &io::Error) -> Self {
        Note {
            call,
            peer: or_empty(alloc, String::from_str(alloc, peer)),
            why: or_empty(alloc, words_of(alloc, error)),
        }
    }
}

impl Display for Note {
    fn fmt<W: Write>(&self, f: &mut Formatter<W>) -> fmt::Result {
        write!(
            f,
            "{} {}: {}",
            self.call.word(),
            self.peer.as_str(),
            self.why.as_str()
        )
    }
}

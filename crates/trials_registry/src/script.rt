// A peer that answers by a script. In a row `~` stands for a carriage return and a line feed, and `%` between two connections. Behind `whole!`
// the requests are told whole, else by their first lines; behind `N!` the wire's call of that number fails.
use skopeo_outside::{Many, MemWire, Memory, Peer, Text};
use std::alloc::Global;

/// A peer that gives one answer to each connection, and notes where it was asked, and what.
#[derive(Drop)]
pub struct Script {
    alloc: Global,
    whole: bool,
    answers: Text,
    asked: usize,
    noted: Text,
}

impl Script {
    /// Notes a request.
    fn note(&mut self, host: &str, port: u16, sent: &[u8]) -> Result<(), Memory> {
        let text = std::str::from_utf8(sent).unwrap_or("?");
        let line = text.lines().next().unwrap_or("");
        let told = if self.whole { text } else { line };
        let note = format!(in self.alloc; " {host}:{port} {told:?}")?;
        self.noted.push_str(note.as_str())
    }

    /// The answer to the next connection.
    fn next(&mut self, into: &mut Many<u8>) -> Result<(), Memory> {
        let answer = self
            .answers
            .as_str()
            .split('%')
            .nth(self.asked)
            .unwrap_or("");
        self.asked = self.asked.saturating_add(1);
        for (at, line) in answer.split('~').enumerate() {
            if at > 0 {
                into.extend(b"\r\n")?;
            }
            into.extend(line.as_bytes())?;
        }
        Ok(())
    }
}

impl Peer for Script {
    fn answer(
        &mut self,
        host: &str,
        port: u16,
        sent: &[u8],
        into: &mut Many<u8>,
    ) -> Result<(), Memory> {
        self.note(host, port, sent)?;
        self.next(into)
    }
}

/// A wire in memory to a script.
pub type Line = MemWire<Script>;

/// A wire to a peer that gives these answers, 7 bytes at a time. A mark may stand before them.
pub fn wire_to(alloc: Global, answers: &str) -> Result<Line, Memory> {
    let (mark, answers) = answers.split_once("!").unwrap_or(("", answers));
    let mut failing = Vec::new(alloc);
    if let Ok(call) = mark.parse::<u64>() {
        failing.push(call)?;
    }
    let script = Script {
        alloc,
        whole: mark == "whole",
        answers: Text::from_str(alloc, answers)?,
        asked: 0,
        noted: Text::new(alloc),
    };
    Ok(MemWire::new(alloc, script, 7, failing))
}

/// What a step came to, and behind it each request.
pub fn ended(alloc: Global, wire: &Line, found: &str) -> Result<Text, Memory> {
    let noted = wire.line.peer().noted.as_str();
    Ok(Text::from_string(format!(in alloc; "{found}{noted}")?))
}

/// What a step came to, and behind it how many requests there were, and the last of them.
pub fn ended_last(alloc: Global, wire: &Line, found: &str) -> Result<Text, Memory> {
    let count = wire.line.peer().asked;
    let noted = wire.line.peer().noted.as_str();
    let last = noted.rsplit("\" ").next().unwrap_or("").trim_start();
    Ok(Text::from_string(format!(in alloc; "{found} by {count}, the last: {last}")?))
}

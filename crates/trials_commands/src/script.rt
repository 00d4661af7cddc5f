// A peer that answers by a script. In a row `~` stands for a carriage return and a line feed, and `%` between two connections. Behind `N!` the
// wire's call of that number fails.
use skopeo_outside::{Many, MemWire, Memory, Peer, Text};
use std::alloc::Global;

/// A peer that gives one answer to each connection, and notes where it was asked, and the first line of what.
#[derive(Drop)]
pub struct Script {
    alloc: Global,
    answers: Text,
    asked: usize,
    pub noted: Text,
}

impl Script {
    /// The answer to the next connection.
    fn next(&mut self, into: &mut Many<u8>) -> Result<(), Memory> {
        let answer = self
            .answers
            .as_str()
            .split('%')
            .nth(self.asked)
            .unwrap_or("");
        self.asked = self.asked.saturating_add(1);
        for (at, line) in answer.split('~').enumerate() {
            if at > 0 {
                into.extend(b"\r\n")?;
            }
            into.extend(line.as_bytes())?;
        }
        Ok(())
    }
}

impl Peer for Script {
    fn answer(
        &mut self,
        host: &str,
        port: u16,
        sent: &[u8],
        into: &mut Many<u8>,
    ) -> Result<(), Memory> {
        let text = std::str::from_utf8(sent).unwrap_or("?");
        let line = text.lines().next().unwrap_or("");
        let note = format!(in self.alloc; " {host}:{port} {line:?}")?;
        self.noted.push_str(note.as_str())?;
        self.next(into)
    }
}

/// A wire in memory to a script.
pub type Line = MemWire<Script>;

/// A wire to a peer that gives these answers, 7 bytes at a time. A mark may stand before them.
pub fn wire_to(alloc: Global, answers: &str) -> Result<Line, Memory> {
    let (mark, answers) = answers.split_once("!").unwrap_or(("", answers));
    let mut failing = Vec::new(alloc);
    if let Ok(call) = mark.parse::<u64>() {
        failing.push(call)?;
    }
    let script = Script {
        alloc,
        answers: Text::from_str(alloc, answers)?,
        asked: 0,
        noted: Text::new(alloc),
    };
    Ok(MemWire::new(alloc, script, 7, failing))
}

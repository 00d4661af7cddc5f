// The other end of a wire: a list of answers.
use crate::spelling::shown;
use skopeo_outside::{Many, Memory, Peer, SureWire, Text};
use std::alloc::Global;

/// A peer that gives one answer to each connection, and notes what it was sent, and where it was asked again.
#[derive(Drop)]
pub struct Script {
    alloc: Global,
    answers: Many<Many<u8>>,
    asked: usize,
    /// The method, host, port and target of each connection but the first.
    pub hops: Text,
    pub sent: Many<u8>,
}

impl Script {
    fn note(&mut self, host: &str, port: u16, sent: &[u8]) -> Result<(), Memory> {
        self.sent.extend(sent)?;
        if self.asked == 0 {
            return Ok(());
        }
        let mut words = shown(sent).split(' ');
        let method = words.next().unwrap_or("");
        let target = words.next().unwrap_or("");
        let hop = format!(in self.alloc; " via {method} {host}:{port} {target}")?;
        self.hops.push_str(hop.as_str())
    }
}

impl Peer for Script {
    fn answer(
        &mut self,
        host: &str,
        port: u16,
        sent: &[u8],
        into: &mut Many<u8>,
    ) -> Result<(), Memory> {
        self.note(host, port, sent)?;
        let place = self.asked;
        self.asked = place.saturating_add(1);
        match self.answers.as_slice().get(place) {
            Some(answer) => into.extend(answer.as_slice()),
            None => Ok(()),
        }
    }
}

/// A wire to these answers, which come in pieces of this size.
pub fn wire_to(alloc: Global, answers: Many<Many<u8>>, piece: usize) -> SureWire<Script> {
    let script = Script {
        alloc,
        answers,
        asked: 0,
        hops: Text::new(alloc),
        sent: Many::new(alloc),
    };
    SureWire::new(alloc, script, piece)
}

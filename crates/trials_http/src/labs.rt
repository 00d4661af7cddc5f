// The program for trials: the connections of its registry, the questions to its verifier, and its words.
use crate::spelling::{shown, spelled};
use lab_registry::{Unanswered, Unjudged, answer_question, answer_request, hold_image, read_task};
use skopeo_outside::{Memory, Text};
use std::alloc::Global;

/// What is written on a connection on which this was sent, or why nothing is.
pub fn connection(alloc: Global, input: &str) -> Result<Text, Memory> {
    let sent = spelled(alloc, input)?;
    let mut from = sent.as_slice();
    let mut to = Vec::new(alloc);
    let mut peer = hold_image(alloc)?;
    match answer_request(alloc, &mut peer, 80, &mut from, &mut to) {
        Ok(()) => Ok(Text::from_string(format!(in alloc; "{:?}", shown(to.as_slice()))?)),
        Err(Unanswered::Memory) => Err(Memory),
        Err(fault) => Ok(Text::from_string(format!(in alloc; "{fault:?}")?)),
    }
}

/// What words ask for.
pub fn task(alloc: Global, input: &str) -> Result<Text, Memory> {
    let line = spelled(alloc, input)?;
    let mut words = Vec::new(alloc);
    for word in shown(line.as_slice()).split_whitespace() {
        words.push(String::from_str(alloc, word)?)?;
    }
    let task = read_task(&words);
    Ok(Text::from_string(format!(in alloc; "{task:?}")?))
}

/// What the verifier answers to a question, or why it does not.
pub fn judge(alloc: Global, input: &str) -> Result<Text, Memory> {
    let asked = spelled(alloc, input)?;
    let mut from = asked.as_slice();
    let mut to = Vec::new(alloc);
    match answer_question(alloc, &mut from, &mut to) {
        Ok(()) => Ok(Text::from_string(format!(in alloc; "{:?}", shown(to.as_slice()))?)),
        Err(Unjudged::Memory) => Err(Memory),
        Err(fault) => Ok(Text::from_string(format!(in alloc; "{fault:?}")?)),
    }
}

// Payloads of signatures, and single questions to a verifier.
use crate::replies::{bytes_of, reply_of};
use policy_gate::{AskFault, Verdict, ask, read_payload};
use skopeo_outside::{Many, MemHelper, Memory, Text};
use std::alloc::Global;

/// The payload that a text is, or its first bad member.
pub fn payload(alloc: Global, text: &str) -> Result<Text, Memory> {
    match read_payload(alloc, text.as_bytes()) {
        Ok(payload) => Ok(Text::from_string(format!(in alloc; "{payload:?}")?)),
        Err(fault) => Ok(Text::from_string(format!(in alloc; "{fault:?}")?)),
    }
}

/// The bytes as a text.
fn text_of(bytes: &[u8]) -> &str {
    std::str::from_utf8(bytes).unwrap_or("?")
}

/// What the verifier said, the bytes as texts.
fn said(alloc: Global, found: &Result<Verdict, AskFault>) -> Result<Text, Memory> {
    match found {
        Ok(Verdict::Good(bytes)) => {
            let text = text_of(bytes.as_slice());
            Ok(Text::from_string(format!(in alloc; "Good({text:?})")?))
        }
        Ok(verdict) => Ok(Text::from_string(format!(in alloc; "{verdict:?}")?)),
        Err(AskFault::Garbled(status, bytes)) => {
            let text = text_of(bytes.as_slice());
            Ok(Text::from_string(format!(in alloc; "Garbled({status}, {text:?})")?))
        }
        Err(fault) => Ok(Text::from_string(format!(in alloc; "{fault:?}")?)),
    }
}

/// A verifier that answers one question, for the signature `{}` by the key `abc`. Behind `fails ` its run fails.
fn verifier_of(alloc: Global, row: &str) -> Result<MemHelper, Memory> {
    let mut failing = Vec::new(alloc);
    let told = match row.strip_prefix("fails ") {
        Some(told) => {
            failing.push(1)?;
            told
        }
        None => row,
    };
    let mut replies = Many::new(alloc);
    replies.push(reply_of(alloc, "abc", "{}", told)?)?;
    Ok(MemHelper::new(alloc, replies, failing))
}

/// The verdict of one answer. A row is its status and the answer.
pub fn ask_once(alloc: Global, row: &str) -> Result<Text, Memory> {
    let mut helper = verifier_of(alloc, row)?;
    let mut keys = Many::new(alloc);
    keys.push(bytes_of(alloc, "abc")?)?;
    let found = ask(alloc, &mut helper, "v", keys.as_slice(), b"{}");
    said(alloc, &found)
}

/// What a verifier is asked for a signature, behind which its keys stand between commas.
pub fn input(alloc: Global, row: &str) -> Result<Text, Memory> {
    let (signature, texts) = row.split_once(" ").unwrap_or((row, ""));
    let mut helper = MemHelper::new(alloc, Many::new(alloc), Vec::new(alloc));
    let mut keys = Many::new(alloc);
    for key in texts.split(',') {
        keys.push(bytes_of(alloc, key)?)?;
    }
    let _ = ask(
        alloc,
        &mut helper,
        "v",
        keys.as_slice(),
        signature.as_bytes(),
    );
    let mut text = Text::new(alloc);
    for ran in helper.sure.ran.as_slice() {
        text.push_str(text_of(ran.input.as_slice()))?;
    }
    Ok(Text::from_string(format!(in alloc; "{:?}", text.as_str())?))
}

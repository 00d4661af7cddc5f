// Gates for the manifest `abc`, over the files `/w/k` with `abc`, `/w/d/l` with `de`, and two of zeros: `/w/most`, which is as long as a
// key may be, and `/w/long`, which has one byte more.
use crate::replies::{bytes_of, reply_of};
use image_ref::parse_place;
use policy_file::{Policy, read_policy};
use policy_gate::{Admitted, GateFault, admit};
use policy_scope::{Identity, choose};
use skopeo_outside::{Many, MemFiles, MemHelper, Memory, Text};
use std::alloc::Global;

/// The list of the call that fails, by its number in a word; none for another word.
fn failing(alloc: Global, word: &str) -> Result<Vec<u64>, Memory> {
    let mut failing = Vec::new(alloc);
    if let Ok(call) = word.parse::<u64>() {
        failing.push(call)?;
    }
    Ok(failing)
}

fn zeros(alloc: Global, count: usize) -> Result<Many<u8>, Memory> {
    Ok(Many::from_vec(vec![in alloc; 0u8; count]?))
}

fn files_of(alloc: Global, policy: &str, word: &str) -> Result<MemFiles, Memory> {
    let mut files = MemFiles::new(alloc, failing(alloc, word)?);
    files.shelf.put("/w/k", bytes_of(alloc, "abc")?)?;
    files.shelf.put("/w/d/l", bytes_of(alloc, "de")?)?;
    if policy.contains("most") {
        files.shelf.put("/w/most", zeros(alloc, 4_194_304)?)?;
    }
    if policy.contains("long") {
        files.shelf.put("/w/long", zeros(alloc, 4_194_305)?)?;
    }
    Ok(files)
}

/// The names of the signatures, one for each reply.
fn signatures_of(alloc: Global, told: &str) -> Result<Many<Many<u8>>, Memory> {
    let mut signatures = Many::new(alloc);
    for (at, _) in told.split(" | ").enumerate() {
        let name = format!(in alloc; "s{at}")?;
        signatures.push(bytes_of(alloc, name.as_str())?)?;
    }
    Ok(signatures)
}

/// A verifier with a reply for each signature.
fn helper_of(alloc: Global, keys: &str, told: &str, word: &str) -> Result<MemHelper, Memory> {
    let mut replies = Many::new(alloc);
    for (at, reply) in told.split(" | ").enumerate() {
        let name = format!(in alloc; "s{at}")?;
        replies.push(reply_of(alloc, keys, name.as_str(), reply)?)?;
    }
    Ok(MemHelper::new(alloc, replies, failing(alloc, word)?))
}

fn fault_text(alloc: Global, fault: &GateFault) -> Result<String, Memory> {
    match fault {
        GateFault::Garbled(status, bytes) => {
            let text = std::str::from_utf8(bytes.as_slice()).unwrap_or("?");
            Ok(format!(in alloc; "Garbled({status}, {text:?})")?)
        }
        other => Ok(format!(in alloc; "{other:?}")?),
    }
}

fn end_text(
    alloc: Global,
    end: &Result<Admitted<'_, MemFiles, MemHelper>, GateFault>,
) -> Result<String, Memory> {
    match end {
        Ok(admitted) => {
            let text = std::str::from_utf8(admitted.bytes()).unwrap_or("?");
            let digest = admitted.digest().write_digest(alloc)?;
            Ok(format!(in alloc; "admitted {text} {}", digest.as_str())?)
        }
        Err(fault) => fault_text(alloc, fault),
    }
}

/// How the gate ends, and by how many runs.
fn judged(
    alloc: Global,
    policy: &Policy,
    identity: &Identity,
    signatures: &[Many<u8>],
    files: &mut MemFiles,
    helper: &mut MemHelper,
    program: Option<&str>,
) -> Result<Text, Memory> {
    let chosen = choose(policy, identity);
    if chosen.list.len() > 99 {
        return Text::from_str(alloc, "a long list");
    }
    let manifest = bytes_of(alloc, "abc")?;
    let end = admit(
        alloc, &chosen, identity, manifest, signatures, files, "/w", helper, program,
    );
    let text = end_text(alloc, &end)?;
    let count = helper.sure.ran.len();
    Ok(Text::from_string(format!(in alloc; "{text} by {count}")?))
}

/// A gate by the words of a row: the program, the keys that it is to be asked with, and the calls of verifier and files that fail.
fn judged_by(
    alloc: Global,
    policy: &Policy,
    identity: &Identity,
    words: &str,
    texts: (&str, &str),
) -> Result<Text, Memory> {
    let mut words = words.split(' ');
    let program = words.next().unwrap_or("none");
    let keys = words.next().unwrap_or("");
    let mut helper = helper_of(alloc, keys, texts.1, words.next().unwrap_or(""))?;
    let mut files = files_of(alloc, texts.0, words.next().unwrap_or(""))?;
    let signatures = if texts.1.is_empty() {
        Many::new(alloc)
    } else {
        signatures_of(alloc, texts.1)?
    };
    let program = if program == "none" {
        None
    } else {
        Some(program)
    };
    judged(
        alloc,
        policy,
        identity,
        signatures.as_slice(),
        &mut files,
        &mut helper,
        program,
    )
}

fn gate_of(
    alloc: Global,
    place: &str,
    policy: &str,
    words: &str,
    told: &str,
) -> Result<Text, Memory> {
    let texts = (policy, told);
    let Ok(policy) = read_policy(alloc, policy.as_bytes()) else {
        return Text::from_str(alloc, "no policy");
    };
    match parse_place(alloc, place, "/w") {
        Ok(place) => judged_by(alloc, &policy, &Identity::of(alloc, &place)?, words, texts),
        Err(fault) => Ok(Text::from_string(format!(in alloc; "{fault:?}")?)),
    }
}

/// A row is `PLACE | POLICY | WORDS`, and behind it the status and the answer for each signature.
pub fn gate(alloc: Global, row: &str) -> Result<Text, Memory> {
    let (place, rest) = row.split_once(" | ").unwrap_or((row, ""));
    let (policy, rest) = rest.split_once(" | ").unwrap_or((rest, ""));
    let (words, told) = rest.split_once(" | ").unwrap_or((rest, ""));
    gate_of(alloc, place, policy, words, told)
}

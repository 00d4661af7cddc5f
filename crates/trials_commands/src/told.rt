// What a command came to, as rows tell it.
use image_ref::Digest;
use registry_commands::CommandFault;
use skopeo_outside::{Many, Memory, Text};
use std::alloc::Global;

/// Two digests.
fn digests_text(alloc: Global, named: &Digest, found: &Digest) -> Result<String, Memory> {
    let named = named.write_digest(alloc)?;
    let found = found.write_digest(alloc)?;
    Ok(format!(in alloc; "ManifestDigest({}, {})", named.as_str(), found.as_str())?)
}

/// A fault, the first bytes of a bad answer as a text, and digests as theirs.
fn fault_text(alloc: Global, fault: &CommandFault) -> Result<String, Memory> {
    match fault {
        CommandFault::BadAnswer(step, bytes) => {
            let text = std::str::from_utf8(bytes.as_slice()).unwrap_or("?");
            Ok(format!(in alloc; "BadAnswer({step:?}, {text:?})")?)
        }
        CommandFault::ManifestDigest(named, found) => digests_text(alloc, named, found),
        CommandFault::Memory => Err(Memory),
        other => Ok(format!(in alloc; "{other:?}")?),
    }
}

/// What a deletion came to.
pub fn deleted_text(alloc: Global, end: &Result<(), CommandFault>) -> Result<String, Memory> {
    match end {
        Ok(()) => Ok(String::from_str(alloc, "deleted")?),
        Err(fault) => fault_text(alloc, fault),
    }
}

/// What a list of tags came to.
pub fn listed_text(
    alloc: Global,
    end: &Result<Many<Text>, CommandFault>,
) -> Result<String, Memory> {
    match end {
        Ok(tags) => {
            let mut told = Vec::new(alloc);
            for tag in tags.as_slice() {
                told.push(tag.as_str())?;
            }
            Ok(format!(in alloc; "{told:?}")?)
        }
        Err(fault) => fault_text(alloc, fault),
    }
}

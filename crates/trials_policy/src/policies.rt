// Policies and their lists.
use percent_encoding::percent_decode;
use policy_file::{Policy, Transport, read_policy};
use skopeo_outside::{Memory, Text};
use std::alloc::Global;

/// The default list of a policy, or the fault and the pointer of its member.
pub fn policy(alloc: Global, bytes: &[u8]) -> Result<Text, Memory> {
    match read_policy(alloc, bytes) {
        Ok(policy) => Ok(Text::from_string(format!(in alloc; "{:?}", policy.default_list())?)),
        Err(fault) => Ok(Text::from_string(format!(in alloc; "{fault:?}")?)),
    }
}

/// The same, where `%XX` stands for a byte.
pub fn policy_bytes(alloc: Global, text: &str) -> Result<Text, Memory> {
    let mut bytes = Vec::new(alloc);
    percent_decode(text.as_bytes()).append_to(&mut bytes)?;
    policy(alloc, bytes.as_slice())
}

/// What `docker`, `dir` and `oci` have of a scope.
fn lists_of(alloc: Global, policy: &Policy, scope: &str) -> Result<Text, Memory> {
    let docker = policy.list_at(Transport::Docker, scope);
    let dir = policy.list_at(Transport::Dir, scope);
    let oci = policy.list_at(Transport::Oci, scope);
    Ok(Text::from_string(format!(in alloc; "{docker:?}, {dir:?}, {oci:?}")?))
}

/// The lists of a scope, behind which a policy stands, or none for the one that accepts all.
pub fn lists(alloc: Global, row: &str) -> Result<Text, Memory> {
    let Some((scope, text)) = row.split_once(" | ") else {
        return lists_of(alloc, &Policy::accept_all(alloc)?, row);
    };
    match read_policy(alloc, text.as_bytes()) {
        Ok(policy) => lists_of(alloc, &policy, scope),
        Err(fault) => Ok(Text::from_string(format!(in alloc; "{fault:?}")?)),
    }
}

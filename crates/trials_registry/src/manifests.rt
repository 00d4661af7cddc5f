// Manifests that are fetched, put and deleted, and blobs that are read.
ghost use Rattle.registry_http.specs.Requests.{IsAsked};

use crate::script::{ended, wire_to};
use crate::sites::{is_reference, of_abc, registry_at};
use crate::told::{exchange_text, fault_text, text_of};
use http_exchange::next_piece;
use http_message::ExchangeFault;
use registry_http::{Registry, RegistryFault};
use skopeo_outside::{Fetched, Memory, Step, Text};
use std::alloc::Global;

fn fetched_text(alloc: Global, found: &Result<Fetched, RegistryFault>) -> Result<String, Memory> {
    match found {
        Ok(fetched) => {
            let text = text_of(fetched.bytes.as_slice());
            Ok(format!(in alloc; "{text:?} {:?}", fetched.content_type.as_str())?)
        }
        Err(fault) => fault_text(alloc, fault),
    }
}

fn done_text(alloc: Global, found: &Result<(), RegistryFault>) -> Result<String, Memory> {
    match found {
        Ok(()) => Ok(String::from_str(alloc, "done")?),
        Err(fault) => fault_text(alloc, fault),
    }
}

fn manifest_at(
    alloc: Global,
    registry: &Registry,
    reference: &str,
    answers: &str,
) -> Result<Text, Memory>
    requires { IsAsked registry.now }
{
    if !is_reference(reference) {
        return Text::from_str(alloc, "no reference");
    }
    let mut wire = wire_to(alloc, answers)?;
    let found = registry.get_manifest(alloc, &mut wire, reference, Step::Manifest);
    ended(alloc, &wire, fetched_text(alloc, &found)?.as_str())
}

/// The bytes of a manifest and its type. A row is `HOST REFERENCE | ANSWERS`.
pub fn manifest(alloc: Global, row: &str) -> Result<Text, Memory> {
    let (names, answers) = row.split_once(" | ").unwrap_or((row, ""));
    let (host, reference) = names.split_once(" ").unwrap_or((names, ""));
    match registry_at(alloc, host)? {
        Some(registry) => manifest_at(alloc, &registry, reference, answers),
        None => Text::from_str(alloc, "no host"),
    }
}

fn put_at(
    alloc: Global,
    registry: &Registry,
    reference: &str,
    answers: &str,
) -> Result<Text, Memory>
    requires { IsAsked registry.now }
{
    if !is_reference(reference) {
        return Text::from_str(alloc, "no reference");
    }
    let mut wire = wire_to(alloc, answers)?;
    let found = registry.put(alloc, &mut wire, reference, "a/b", b"{}");
    ended(alloc, &wire, done_text(alloc, &found)?.as_str())
}

/// Puts the manifest `{}` of the type `a/b`. A row is `HOST REFERENCE | ANSWERS`.
pub fn put(alloc: Global, row: &str) -> Result<Text, Memory> {
    let (names, answers) = row.split_once(" | ").unwrap_or((row, ""));
    let (host, reference) = names.split_once(" ").unwrap_or((names, ""));
    match registry_at(alloc, host)? {
        Some(registry) => put_at(alloc, &registry, reference, answers),
        None => Text::from_str(alloc, "no host"),
    }
}

fn delete_at(alloc: Global, registry: &Registry, answers: &str) -> Result<Text, Memory>
    requires { IsAsked registry.now }
{
    let digest = of_abc()?;
    let mut wire = wire_to(alloc, answers)?;
    let found = registry.delete(alloc, &mut wire, &digest);
    ended(alloc, &wire, done_text(alloc, &found)?.as_str())
}

/// Deletes a manifest. A row is `HOST | ANSWERS`.
pub fn delete(alloc: Global, row: &str) -> Result<Text, Memory> {
    let (host, answers) = row.split_once(" | ").unwrap_or((row, ""));
    match registry_at(alloc, host)? {
        Some(registry) => delete_at(alloc, &registry, answers),
        None => Text::from_str(alloc, "no host"),
    }
}

/// The first bytes of a piece of so many.
fn piece_text(
    alloc: Global,
    into: &[u8],
    found: &Result<usize, ExchangeFault>,
) -> Result<String, Memory> {
    match found {
        Ok(count) => {
            let text = text_of(into.get(..*count).unwrap_or(b"?"));
            Ok(format!(in alloc; "{text:?}")?)
        }
        Err(fault) => exchange_text(alloc, fault),
    }
}

fn blob_at(alloc: Global, registry: &Registry, answers: &str) -> Result<Text, Memory>
    requires { IsAsked registry.now }
{
    let digest = of_abc()?;
    let mut wire = wire_to(alloc, answers)?;
    let mut into = [0; 4];
    let text = match registry.open_blob(alloc, &mut wire, &digest) {
        Ok(mut answer) => {
            let found = next_piece(alloc, &mut wire, &mut answer, &mut into);
            piece_text(alloc, &into, &found)?
        }
        Err(fault) => fault_text(alloc, &fault)?,
    };
    ended(alloc, &wire, text.as_str())
}

/// The first piece of a blob, of at most 4 bytes. A row is `HOST | ANSWERS`.
pub fn blob(alloc: Global, row: &str) -> Result<Text, Memory> {
    let (host, answers) = row.split_once(" | ").unwrap_or((row, ""));
    match registry_at(alloc, host)? {
        Some(registry) => blob_at(alloc, &registry, answers),
        None => Text::from_str(alloc, "no host"),
    }
}

// Blobs at a destination: whether they are there, taken out of another repository, or uploaded.
ghost use Rattle.registry_http.specs.Requests.{IsAsked};

use crate::script::{Line, ended, wire_to};
use crate::sites::{of_abc, registry_at};
use crate::told::{exchange_text, fault_text};
use http_exchange::{begin, end, send_piece};
use image_ref::is_path;
use registry_http::{Registry, RegistryFault, Upload};
use skopeo_outside::{Memory, Step, Text};
use std::alloc::Global;

fn truth_text(alloc: Global, found: &Result<bool, RegistryFault>) -> Result<String, Memory> {
    match found {
        Ok(truth) => Ok(format!(in alloc; "{truth}")?),
        Err(fault) => fault_text(alloc, fault),
    }
}

fn have_at(alloc: Global, registry: &Registry, answers: &str) -> Result<Text, Memory>
    requires { IsAsked registry.now }
{
    let digest = of_abc()?;
    let mut wire = wire_to(alloc, answers)?;
    let found = registry.have(alloc, &mut wire, &digest);
    ended(alloc, &wire, truth_text(alloc, &found)?.as_str())
}

/// Whether the blob is there. A row is `HOST | ANSWERS`.
pub fn have(alloc: Global, row: &str) -> Result<Text, Memory> {
    let (host, answers) = row.split_once(" | ").unwrap_or((row, ""));
    match registry_at(alloc, host)? {
        Some(registry) => have_at(alloc, &registry, answers),
        None => Text::from_str(alloc, "no host"),
    }
}

fn mount_at(alloc: Global, registry: &Registry, from: &str, answers: &str) -> Result<Text, Memory>
    requires { IsAsked registry.now }
{
    if !is_path(from) {
        return Text::from_str(alloc, "no path");
    }
    let digest = of_abc()?;
    let mut wire = wire_to(alloc, answers)?;
    let found = registry.mount(alloc, &mut wire, &digest, from);
    ended(alloc, &wire, truth_text(alloc, &found)?.as_str())
}

/// Whether the blob was mounted. A row is `HOST FROM | ANSWERS`.
pub fn mount(alloc: Global, row: &str) -> Result<Text, Memory> {
    let (names, answers) = row.split_once(" | ").unwrap_or((row, ""));
    let (host, from) = names.split_once(" ").unwrap_or((names, ""));
    match registry_at(alloc, host)? {
        Some(registry) => mount_at(alloc, &registry, from, answers),
        None => Text::from_str(alloc, "no host"),
    }
}

/// Sends `abc` to an upload. Where it then goes on, or the fault.
fn sent(alloc: Global, wire: &mut Line, upload: Upload) -> Result<Result<Upload, String>, Memory> {
    let request = upload.request(alloc, 3)?;
    let mut unsent = match begin(alloc, wire, &request) {
        Ok(unsent) => unsent,
        Err(fault) => return Ok(Err(exchange_text(alloc, &fault)?)),
    };
    if let Err(fault) = send_piece(wire, &mut unsent, b"abc") {
        return Ok(Err(exchange_text(alloc, &fault)?));
    }
    match end(alloc, wire, Step::Piece, 0) {
        Err(fault) => Ok(Err(exchange_text(alloc, &fault)?)),
        Ok(response) => match upload.moved(alloc, &response) {
            Ok(upload) => Ok(Ok(upload)),
            Err(fault) => Ok(Err(fault_text(alloc, &fault)?)),
        },
    }
}

fn committed(
    alloc: Global,
    registry: &Registry,
    wire: &mut Line,
    upload: Upload,
) -> Result<String, Memory>
    requires { IsAsked registry.now }
{
    let digest = of_abc()?;
    match registry.commit(alloc, wire, upload, &digest) {
        Ok(()) => Ok(String::from_str(alloc, "done")?),
        Err(fault) => fault_text(alloc, &fault),
    }
}

fn uploaded(alloc: Global, registry: &Registry, wire: &mut Line) -> Result<String, Memory>
    requires { IsAsked registry.now }
{
    match registry.start(alloc, wire) {
        Err(fault) => fault_text(alloc, &fault),
        Ok(upload) => match sent(alloc, wire, upload)? {
            Ok(upload) => committed(alloc, registry, wire, upload),
            Err(text) => Ok(text),
        },
    }
}

fn upload_at(alloc: Global, registry: &Registry, answers: &str) -> Result<Text, Memory>
    requires { IsAsked registry.now }
{
    let mut wire = wire_to(alloc, answers)?;
    let found = uploaded(alloc, registry, &mut wire)?;
    ended(alloc, &wire, found.as_str())
}

/// An upload of `abc`: start, piece and commit. A row is `HOST | ANSWERS`.
pub fn upload(alloc: Global, row: &str) -> Result<Text, Memory> {
    let (host, answers) = row.split_once(" | ").unwrap_or((row, ""));
    match registry_at(alloc, host)? {
        Some(registry) => upload_at(alloc, &registry, answers),
        None => Text::from_str(alloc, "no host"),
    }
}

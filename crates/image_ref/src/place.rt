ghost use Rattle.std.specs.Prelude.{◌≡◌, ◌+◌, ◌<◌, ◌≤◌, ◌^◌, length, IfOk, option_map, List, ℕ, ◌↔◌};
ghost use Rattle.std.specs.List.{list_all};
ghost use Rattle.image_ref.specs.Calls.{Answers};
ghost use Rattle.image_ref.specs.Cuts.{cut_at};
ghost use Rattle.image_ref.specs.Characters.{colon};
ghost use Rattle.image_ref.specs.Domain.{passes_or_none};
ghost use Rattle.image_ref.specs.Reading.{docker_of, offset};
ghost use Rattle.image_ref.specs.Place.{moved, is_oci_ref, is_oci_byte, is_left_out, PlaceOf, PlaceFaultOf};
ghost use Rattle.image_ref.specs.PlaceReading.{place_of, place_behind, docker_place, dir_place, oci_place};

use crate::clean::clean_path;
use crate::cut::cut_at;
use crate::fault::{PlaceFault, RefFault};
use crate::named::parse_docker;
use crate::optional::{copy_of, text_in};
use crate::reference::ImageRef;
use skopeo_outside::{Memory, Text};
use std::alloc::Global;

/// Where an image lies.
#[derive(Debug, Drop)]
pub enum Place {
    /// An image at a registry, with a tag or a digest and not both.
    Docker(ImageRef),
    /// A folder with one image, by its clean absolute path.
    Dir(Text),
    /// A layout by its clean absolute path, and the name of an entry where one was given.
    Oci(Text, Option<Text>),
}

impl Place {
    /// The same place once more. Its error is want of memory.
    pub fn copy(&self, alloc: Global) -> Result<Place, Memory>
        ensures { IfOk result (λ place. place ≡ self.now) }
    {
        match self {
            Place::Docker(reference) => Ok(Place::Docker(reference.copy(alloc)?)),
            Place::Dir(path) => Ok(Place::Dir(Text::from_str(alloc, path.as_str())?)),
            Place::Oci(path, name) => {
                let path = Text::from_str(alloc, path.as_str())?;
                Ok(Place::Oci(path, copy_of(alloc, text_in(name))?))
            }
        }
    }
}

fn are_oci_bytes(text: &str) -> bool
    ensures { result ≡ list_all is_oci_byte text.now }
{
    text.as_bytes().iter().all(|b| is_oci_byte(*b))
}

fn is_oci_byte(byte: u8) -> bool
    ensures { result ≡ is_oci_byte byte }
{
    byte.is_ascii_alphanumeric() || matches!(byte, b'-' | b'.' | b'_' | b':' | b'@' | b'/' | b'+')
}

fn is_oci_ref(text: &str) -> bool
    ensures { result ≡ is_oci_ref text.now }
{
    let bytes = text.as_bytes();
    if bytes.is_empty() || bytes.len() > 255 || bytes[0] == b'@' {
        return false;
    }
    are_oci_bytes(text)
}

fn is_left_out(name: &str) -> bool
    ensures { result ≡ is_left_out name.now }
{
    matches!(
        name,
        "docker-archive"
            | "oci-archive"
            | "containers-storage"
            | "docker-daemon"
            | "sif"
            | "ostree"
            | "tarball"
    )
}

/// The fault in the text behind so many bytes.
fn moved(fault: RefFault, by: usize) -> RefFault
    requires { offset fault + by < 2 ^ 64 }
    ensures { result ≡ moved by fault }
{
    match fault {
        RefFault::BadDigest(at) => RefFault::BadDigest(at + by),
        RefFault::BadTag(at) => RefFault::BadTag(at + by),
        RefFault::BadHost(at) => RefFault::BadHost(at + by),
        RefFault::UpperCase(at) => RefFault::UpperCase(at + by),
        RefFault::BadPath(at) => RefFault::BadPath(at + by),
        other => other,
    }
}

fn oci_ref_passes(text: Option<&str>) -> bool
    ensures { result ≡ passes_or_none is_oci_ref (option_map (λ t. t.now) text.entry) }
{
    match text {
        None => true,
        Some(text) => is_oci_ref(text),
    }
}

fn dir_place(alloc: Global, cwd: &str, path: &str) -> Result<Place, PlaceFault>
    ensures { Answers PlaceFault.Memory result (dir_place cwd.now path.now) }
{
    if path.is_empty() {
        return Err(PlaceFault::EmptyPath);
    }
    Ok(Place::Dir(clean_path(alloc, cwd, path)?))
}

fn oci_place(alloc: Global, cwd: &str, rest: &str) -> Result<Place, PlaceFault>
    ensures { Answers PlaceFault.Memory result (oci_place cwd.now (cut_at colon rest.now)) }
{
    let (path, reference) = cut_at(rest, ':');
    if path.is_empty() {
        return Err(PlaceFault::EmptyPath);
    }
    if !oci_ref_passes(reference) {
        return Err(PlaceFault::BadOciRef);
    }
    let path = clean_path(alloc, cwd, path)?;
    Ok(Place::Oci(path, copy_of(alloc, reference)?))
}

fn docker_place(alloc: Global, rest: &str) -> Result<Place, PlaceFault>
    ensures { Answers PlaceFault.Memory result (docker_place rest.now) }
{
    let Some(text) = rest.strip_prefix("//") else {
        return Err(PlaceFault::Slashes);
    };
    match parse_docker(alloc, text) {
        Ok(reference) => Ok(Place::Docker(reference)),
        Err(RefFault::Memory) => Err(PlaceFault::Memory),
        Err(fault) => Err(PlaceFault::Reference(moved(fault, 9))),
    }
}

fn place_behind(
    alloc: Global,
    cwd: &str,
    transport: &str,
    rest: Option<&str>,
) -> Result<Place, PlaceFault>
    ensures { let behind = option_map (λ x. x.now) rest.entry in
        Answers PlaceFault.Memory result (place_behind cwd.now transport.now behind) }
{
    let Some(rest) = rest else {
        return Err(PlaceFault::NoTransport);
    };
    match transport {
        "docker" => docker_place(alloc, rest),
        "dir" => dir_place(alloc, cwd, rest),
        "oci" => oci_place(alloc, cwd, rest),
        _ if is_left_out(transport) => Err(PlaceFault::LeftOut),
        _ => Err(PlaceFault::UnknownTransport),
    }
}

/// The place that the text names, its paths seen from a folder, or why it names none. The grammar,
/// after containers-transports(5), stands at the head of `specs/Place.antt`.
#[tactic(auto, unfolding(crate::specs::PlaceReading::place_of))]
pub fn parse_place(alloc: Global, text: &str, cwd: &str) -> Result<Place, PlaceFault>
    ensures exact { Answers PlaceFault.Memory result (place_of cwd.now text.now) }
    ensures grammar { (p : Place) → (place_of cwd.now text.now ≡ Ok p) ↔ PlaceOf cwd.now text.now p }
    ensures faults { (e : PlaceFault) → (place_of cwd.now text.now ≡ Err e) ↔ PlaceFaultOf text.now e }
{
    let (transport, rest) = cut_at(text, ':');
    place_behind(alloc, cwd, transport, rest)
}

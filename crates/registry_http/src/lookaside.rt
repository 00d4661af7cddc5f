// The signatures of a manifest at a lookaside base.
ghost use Rattle.std.specs.Prelude.{◌≡◌, ◌&&◌, ◌≤◌, nat_le, ◌++◌, [], drop, true, nat_eq, codes, IfOk, OnOk, IsFalse, option_map, decimal};
ghost use Rattle.std.specs.List.{starts_with};
ghost use Rattle.hex.specs.Hex.{encode_lower};
ghost use Rattle.image_ref.specs.Characters.{slash};
ghost use Rattle.image_ref.specs.Digest.{IsDigest};
ghost use Rattle.image_ref.specs.Domain.{after};
ghost use Rattle.image_ref.specs.Reference.{IsPath};
ghost use Rattle.http_exchange.specs.Locations.{are_visible};
ghost use Rattle.http_message.specs.Requests.{MaySend};
ghost use Rattle.http_exchange.specs.Plain.{IsMild, GainsPlain};
ghost use Rattle.registry_http.specs.Lookaside.{is_base, is_base_cut, signature_path, signature_request, AreGot};
ghost use Rattle.registry_http.specs.Steps.{CountsStep};

use crate::fault::RegistryFault;
use crate::found::Found;
use crate::registry::{asked, most_manifest_bytes};
use crate::requests::request_at;
use crate::turn::Turn;
use http::Method;
use http_exchange::port_of;
use http_message::{Request, are_visible};
use image_ref::{Digest, cut_at, is_domain};
use skopeo_outside::{Many, Memory, Step, Text, Wire};
use std::alloc::Global;

/// Whether a host is one, and the bytes of what follows its slash are visible.
fn is_base_cut(host: &str, path: Option<&str>) -> bool
    ensures { result ≡ is_base_cut (host.now, option_map (λ x. x.now) path.entry) }
{
    if !is_domain(host) {
        return false;
    }
    match path {
        Some(path) => are_visible(path),
        None => true,
    }
}

/// Whether a text is a base of stored signatures.
pub fn is_base(text: &str) -> bool
    ensures base { result ≡ is_base text.now }
{
    match text.strip_prefix("http://") {
        Some(rest) => {
            let (host, path) = cut_at(rest, '/');
            is_base_cut(host, path)
        }
        None => false,
    }
}

/// What follows `http://`.
fn behind_scheme(base: &str) -> &str
    requires { starts_with nat_eq base.now (codes "http://") ≡ true }
    ensures { result.now ≡ drop 7 base.now }
{
    match base.strip_prefix("http://") {
        Some(rest) => rest,
        None => base,
    }
}

/// The path of a base.
fn base_path(alloc: Global, path: Option<&str>) -> Result<Text, Memory>
    ensures { IfOk result (λ t. t ≡ after slash (option_map (λ x. x.now) path.entry)) }
{
    let mut text = Text::new(alloc);
    match path {
        Some(path) => {
            text.push_str("/")?;
            text.push_str(path)?;
            Ok(text)
        }
        None => Ok(text),
    }
}

/// Adds the digits of a digest.
fn push_digits(alloc: Global, target: &mut Text, digest: &Digest) -> Result<(), Memory>
    ensures { OnOk result (target.new ≡ target.old ++ (codes "@sha256=" ++ encode_lower digest.now)) }
{
    let digits = hex::encode(alloc, digest.as_bytes())?;
    target.push_str("@sha256=")?;
    target.push_str(digits.as_str())
}

/// Adds the name of a signature.
fn push_name(target: &mut Text, number: u32) -> Result<(), Memory>
    ensures { OnOk result (target.new ≡ target.old ++ (codes "/signature-" ++ decimal number)) }
{
    target.push_str("/signature-")?;
    target.push_number(number as usize)?;
    Ok(())
}

/// The target of a signature, behind the path of its base.
fn signature_target(
    alloc: Global,
    front: Text,
    path: &str,
    digest: &Digest,
    number: u32,
) -> Result<Text, Memory>
    ensures { IfOk result (λ t. t ≡ front ++ signature_path path.now digest.now number) }
{
    let mut target = front;
    target.push_str("/")?;
    target.push_str(path)?;
    push_digits(alloc, &mut target, digest)?;
    push_name(&mut target, number)?;
    Ok(target)
}

/// The request of a signature.
fn request_of(
    alloc: Global,
    base: &str,
    path: &str,
    digest: &Digest,
    number: u32,
) -> Result<Request, Memory>
    requires { is_base base.now ≡ true }
    ensures request { IfOk result (λ r. r ≡ signature_request base.now path.now digest.now number) }
    ensures digest { IsDigest digest.now }
{
    let _bytes = digest.as_bytes();
    let (host, front) = cut_at(behind_scheme(base), '/');
    let target = signature_target(alloc, base_path(alloc, front)?, path, digest, number)?;
    request_at(alloc, Method::GET, host, port_of(host), target.as_str())
}

/// GET of a signature.
fn signature_request(
    alloc: Global,
    base: &str,
    path: &str,
    digest: &Digest,
    number: u32,
) -> Result<Request, Memory>
    requires base { is_base base.now ≡ true }
    requires path { IsPath path.now }
    ensures request { IfOk result (λ r. r ≡ signature_request base.now path.now digest.now number) }
    ensures mild { IfOk result (λ r. IsMild r []) }
    ensures may { IfOk result (λ r. MaySend r 0) }
{
    request_of(alloc, base, path, digest, number)
}

/// The signatures behind some, up to the answer that ends or refuses them.
fn signatures_behind<W: Wire>(
    alloc: Global,
    wire: &mut W,
    base: &str,
    path: &str,
    digest: &Digest,
    found: Found,
) -> Result<Many<Many<u8>>, RegistryFault>
    requires base { is_base base.now ≡ true }
    requires path { IsPath path.now }
    ensures got { AreGot base.now path.now digest.now found (W.conversations wire.old) (W.conversations wire.new) result }
    ensures plain { GainsPlain (W.conversations wire.old) (W.conversations wire.new) }
    ensures closed { IsFalse (W.is_open wire.new) }
    ensures faults { CountsStep (W.faults wire.old) (W.faults wire.new) result }
{
    let request = signature_request(alloc, base, path, digest, found.next());
    let limit = most_manifest_bytes();
    let answer = asked(alloc, wire, request, Step::Signature, &[], limit);
    match found.turn(answer) {
        Turn::More(found) => signatures_behind(alloc, wire, base, path, digest, found),
        Turn::Over(result) => result,
    }
}

/// The signatures of the manifest with this digest, of an image with this path, at a lookaside base. They are asked
/// in order, and the first that is not there ends them.
pub fn get_signatures<W: Wire>(
    alloc: Global,
    wire: &mut W,
    base: &str,
    path: &str,
    digest: &Digest,
) -> Result<Many<Many<u8>>, RegistryFault>
    requires base { is_base base.now ≡ true }
    requires path { IsPath path.now }
    ensures got { AreGot base.now path.now digest.now [] (W.conversations wire.old) (W.conversations wire.new) result }
    ensures plain { GainsPlain (W.conversations wire.old) (W.conversations wire.new) }
    ensures closed { IsFalse (W.is_open wire.new) }
    ensures faults { CountsStep (W.faults wire.old) (W.faults wire.new) result }
{
    signatures_behind(alloc, wire, base, path, digest, Found::new(alloc))
}

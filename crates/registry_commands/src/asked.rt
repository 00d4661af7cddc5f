// What is asked of a registry for a reference, and whether it may be asked.
ghost use Rattle.std.specs.Prelude.{◌≡◌, IfOk};
ghost use Rattle.registry_http.specs.Requests.{IsAsked};
ghost use Rattle.registry_http.specs.Steps.{IsTagOrDigest};
ghost use Rattle.transports.specs.Registries.{registry_of, name_in};
ghost use Rattle.transports.specs.Tried.{may_ask};

use image_ref::ImageRef;
use registry_http::Registry;
use skopeo_outside::{Memory, Text};
use std::alloc::Global;

/// The repository of a reference.
pub(crate) fn registry_of(alloc: Global, reference: &ImageRef) -> Result<Registry, Memory>
    ensures is { IfOk result (λ r. r ≡ registry_of reference.now) }
    ensures asked { IfOk result IsAsked }
{
    let host = Text::copy_of(alloc, reference.host())?;
    let path = Text::copy_of(alloc, reference.path())?;
    Ok(Registry {
        host,
        path,
        insecure: true,
    })
}

/// By which name the manifest of a reference is asked for.
#[tactic(auto, using(transports::proofs::AskLemmas::is_named_tag, transports::proofs::AskLemmas::is_latest))]
pub(crate) fn name_in(alloc: Global, reference: &ImageRef) -> Result<Text, Memory>
    ensures is { IfOk result (λ t. t ≡ name_in reference.now) }
    ensures named { IfOk result IsTagOrDigest }
{
    let _named = reference.host();
    if let Some(digest) = reference.digest() {
        return digest.write_digest(alloc);
    }
    match reference.tag() {
        Some(tag) => Text::copy_of(alloc, tag),
        None => Text::copy_of(alloc, "latest"),
    }
}

/// Whether a host may be asked over plain HTTP.
pub(crate) fn may_ask(tls: Option<bool>, mark: bool) -> bool
    ensures is { result ≡ may_ask tls mark }
{
    match tls {
        Some(verify) => !verify,
        None => mark,
    }
}

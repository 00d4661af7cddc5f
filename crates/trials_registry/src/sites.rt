// The repository `team/app` at a host, and what the steps need of their arguments.
ghost use Rattle.std.specs.Prelude.{◌≡◌, IfOk, IfSome, true};
ghost use Rattle.registry_http.specs.Requests.{IsAsked};
ghost use Rattle.registry_http.specs.Steps.{IsTagOrDigest};

use image_ref::{Digest, is_domain, is_path, is_tag, read_digest};
use registry_http::Registry;
use skopeo_outside::{Memory, Text};
use std::alloc::Global;

const OF_ABC: &str = "sha256:ba7816bf8f01cfea414140de5dae2223b00361a396177a9cb410ff61f20015ad";

/// The repository at a host, where that is one.
pub fn registry_at(alloc: Global, host: &str) -> Result<Option<Registry>, Memory>
    ensures { IfOk result (λ found. IfSome found (λ registry. IsAsked registry)) }
{
    let path = "team/app";
    if !is_domain(host) || !is_path(path) {
        return Ok(None);
    }
    Ok(Some(Registry {
        host: Text::from_str(alloc, host)?,
        path: Text::from_str(alloc, path)?,
        insecure: true,
    }))
}

/// The digest of `abc`.
pub fn of_abc() -> Result<Digest, Memory> {
    match read_digest(OF_ABC) {
        Some(digest) => Ok(digest),
        None => Err(Memory),
    }
}

/// Whether a text is a tag or a digest.
pub fn is_reference(text: &str) -> bool
    ensures { result ≡ true → IsTagOrDigest text.now }
{
    is_tag(text) || read_digest(text).is_some()
}

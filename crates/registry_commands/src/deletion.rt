// The deletion of a manifest at a registry.
ghost use Rattle.std.specs.Prelude.{◌≡◌, Bool, Option, OnOk, true};
ghost use Rattle.std.specs.Option.{option_map};
ghost use Rattle.skopeo_outside.specs.LaneTold.{IsLater};
ghost use Rattle.registry_http.specs.Requests.{IsAsked};
ghost use Rattle.registry_http.specs.Steps.{IsTagOrDigest};
ghost use Rattle.registries_conf.specs.Settings.{Settings};
ghost use Rattle.registries_conf.specs.SourcesOf.{is_insecure};
ghost use Rattle.transports.specs.Tried.{may_ask};
ghost use Rattle.registry_commands.specs.Calls.{checked, judged, ended, Gets, Sends};
ghost use Rattle.registry_commands.specs.Deletes.{Deletes, Deletion, OnDest};
ghost use Rattle.registry_commands.specs.Said.{PutsNone, IsDeleted};

use crate::asked::{may_ask, name_in, registry_of};
use crate::fault::CommandFault;
use crate::faults::of_delete;
use digest_reader::digest_of;
use image_ref::{Digest, ImageRef};
use registries_conf::Conf;
use registry_http::{Registry, RegistryFault};
use skopeo_outside::{Fetched, Files, Lane, Step, Text, Wire};
use std::alloc::Global;

/// The digest of the bytes that came, where it is the one that is named.
fn checked(named: Option<&Digest>, bytes: &[u8]) -> Result<Digest, CommandFault>
    ensures is { result ≡ checked (option_map (λ d. d.now) named.entry) bytes.now }
{
    let found = digest_of(bytes);
    match named {
        None => Ok(found),
        Some(named) => {
            if found == *named {
                Ok(found)
            } else {
                Err(CommandFault::ManifestDigest(*named, found))
            }
        }
    }
}

/// What comes of the answer to the GET.
fn judged(
    named: Option<&Digest>,
    answer: Result<Fetched, RegistryFault>,
    faults: u64,
) -> Result<Digest, CommandFault>
    ensures is { result ≡ judged (option_map (λ d. d.now) named.entry) faults answer }
{
    match answer {
        Ok(fetched) => checked(named, fetched.bytes.as_slice()),
        Err(fault) => Err(of_delete(Step::Manifest, fault, faults)),
    }
}

/// Asks for a manifest, and answers the digest of its bytes.
fn get_digest<W: Wire, F: Files>(
    alloc: Global,
    registry: &Registry,
    name: &str,
    named: Option<&Digest>,
    lane: &mut Lane<W, F>,
) -> Result<Digest, CommandFault>
    requires asked { IsAsked registry.now }
    requires name { IsTagOrDigest name.now }
    ensures got { let digest = option_map (λ d. d.now) named.entry in
        Gets registry.now name.now digest lane.old.to lane.new.to result }
    ensures on { OnDest lane.old lane.new }
{
    let answer = registry.get_manifest(alloc, &mut lane.to, name, Step::Manifest);
    judged(named, answer, lane.to.faults())
}

/// What comes of the answer to the DELETE.
fn ended(answer: Result<(), RegistryFault>, faults: u64) -> Result<(), CommandFault>
    ensures is { result ≡ ended faults answer }
{
    match answer {
        Ok(()) => Ok(()),
        Err(fault) => Err(of_delete(Step::Delete, fault, faults)),
    }
}

/// Deletes the manifest of a digest.
fn delete_digest<W: Wire, F: Files>(
    alloc: Global,
    registry: &Registry,
    digest: &Digest,
    lane: &mut Lane<W, F>,
) -> Result<(), CommandFault>
    requires { IsAsked registry.now }
    ensures sent { Sends registry.now digest.now lane.old.to lane.new.to result }
    ensures on { OnDest lane.old lane.new }
{
    let answer = registry.delete(alloc, &mut lane.to, digest);
    ended(answer, lane.to.faults())
}

/// Asks for the manifest of a reference, and deletes it.
#[tactic(auto, using(crate::proofs::DeleteLemmas::wants, crate::proofs::WireLemmas::dest_then))]
fn delete_at<W: Wire, F: Files>(
    alloc: Global,
    image: &ImageRef,
    lane: &mut Lane<W, F>,
) -> Result<(), CommandFault>
    ensures ends { (conf : Settings) (tls : Option Bool) → may_ask tls (is_insecure conf image.now) ≡ true
        → Deletes conf tls image.now lane.old.to lane.new.to result }
    ensures on { OnDest lane.old lane.new }
{
    let registry = registry_of(alloc, image)?;
    let name = name_in(alloc, image)?;
    let digest = get_digest(alloc, &registry, name.as_str(), image.digest(), lane)?;
    delete_digest(alloc, &registry, &digest, lane)
}

/// The same, where the host may be asked over plain HTTP.
#[tactic(auto, using(crate::proofs::DeleteLemmas::deletion_wants, crate::proofs::DeleteLemmas::deletion_unasked))]
fn delete_by<W: Wire, F: Files>(
    alloc: Global,
    conf: &Conf,
    image: &ImageRef,
    tls: Option<bool>,
    lane: &mut Lane<W, F>,
) -> Result<(), CommandFault>
    ensures ends { Deletion conf.now tls image.now lane.old lane.new result }
{
    let mark = conf.insecure(alloc, image)?;
    if !may_ask(tls, mark) {
        let host = Text::copy_of(alloc, image.host())?;
        return Err(CommandFault::TlsRequired(host));
    }
    delete_at(alloc, image, lane)
}

/// Deletes the manifest of a reference at the host that it names, on the lane's wire to a destination: gets it by its digest or
/// its tag, and deletes the digest of the bytes that came. `tls` says whether TLS is verified, where that is said.
pub fn delete<W: Wire, F: Files>(
    alloc: Global,
    conf: &Conf,
    image: &ImageRef,
    tls: Option<bool>,
    lane: &mut Lane<W, F>,
) -> Result<(), CommandFault>
    ensures ends { Deletion conf.now tls image.now lane.old lane.new result }
    ensures deleted { OnOk result (IsDeleted image.now lane.old.to.talks lane.new.to.talks) }
    ensures no_put { PutsNone lane.old.to.talks lane.new.to.talks }
    ensures later { IsLater lane.old lane.new }
{
    delete_by(alloc, conf, image, tls, lane)
}

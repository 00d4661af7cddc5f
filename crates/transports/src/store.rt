// Where the signatures of an image are stored apart from it.
ghost use Rattle.std.specs.Prelude.{◌≡◌, Some, IfOk};
ghost use Rattle.transports.specs.Stores.{IsStore, store_in, store_of};

use crate::plan::CopyPlan;
use digest_reader::digest_of;
use image_ref::{Digest, ImageRef, Place};
use registry_http::is_base;
use skopeo_outside::{Memory, Text};
use std::alloc::Global;
use std::marker::Model;

/// The store of a manifest's signatures: its base, the path of the image as it is named, and the manifest's digest. Only
/// `store_of` makes one.
#[derive(Debug, Drop)]
pub struct Store {
    base: Text,
    path: Text,
    digest: Digest,
}

impl Model for Store {
    ghost use Rattle.transports.specs.Stores.{StoreAt, IsStore};

    ghost Value = { StoreAt };

    ghost view = { λ s. record { base = s.base; path = s.path; digest = s.digest } };

    ghost invariant = { λ s. IsStore (record { base = s.base; path = s.path; digest = s.digest }) };
}

/// The store of the signatures of an image at a registry, as it is named, by a base.
fn store_at(
    alloc: Global,
    base: &str,
    reference: &ImageRef,
    manifest: &[u8],
) -> Result<Option<Store>, Memory>
    ensures is { IfOk result (λ store. store ≡ store_in (Some base.now) (Place.Docker reference.now) manifest.now) }
{
    let _named = reference.host();
    if !is_base(base) {
        return Ok(None);
    }
    Ok(Some(Store {
        base: Text::copy_of(alloc, base)?,
        path: Text::copy_of(alloc, reference.path())?,
        digest: digest_of(manifest),
    }))
}

/// The store of the signatures of the image at a place, as it is named, whose manifest is these bytes.
#[tactic(auto, unfolding(crate::specs::Stores::store_of))]
pub fn store_of(
    alloc: Global,
    plan: &CopyPlan,
    place: &Place,
    manifest: &[u8],
) -> Result<Option<Store>, Memory>
    ensures is { IfOk result (λ store. store ≡ store_of plan.now place.now manifest.now) }
{
    let Some(base) = &plan.lookaside else {
        return Ok(None);
    };
    match place {
        Place::Docker(reference) => store_at(alloc, base.as_str(), reference, manifest),
        Place::Dir(_) => Ok(None),
        Place::Oci(_, _) => Ok(None),
    }
}

impl Store {
    /// Where it begins.
    pub(crate) fn base(&self) -> &str
        ensures value { result.now ≡ self.now.base }
        ensures store { IsStore self.now }
    {
        self.base.as_str()
    }

    /// The path of the image.
    pub(crate) fn path(&self) -> &str
        ensures { result.now ≡ self.now.path }
    {
        self.path.as_str()
    }

    /// The digest of the manifest.
    pub(crate) fn digest(&self) -> &Digest
        ensures { result.now ≡ self.now.digest }
    {
        &self.digest
    }
}

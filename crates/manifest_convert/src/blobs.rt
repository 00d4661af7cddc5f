ghost use Rattle.std.specs.Prelude.{◌≡◌, ◌-◌, ◌<◌, ◌^◌, ◌++◌, ◌∷◌, [], List, length, IfOk, OnOk};
ghost use Rattle.manifest_v2s2.specs.declared.descriptor.Descriptor.{Descriptor};
ghost use Rattle.manifest_convert.specs.Blobs.{AreJobsOf, HasSeen, blobs, descriptors};

use digest_reader::Job;
use image_ref::Digest;
use manifest_v2s2::{Descriptor, Image};
use skopeo_outside::{Many, Memory};
use std::alloc::Global;
use std::collections::BTreeSet;

/// Adds the job of a descriptor, unless its digest was seen.
fn add_blob(
    seen: &mut BTreeSet<Digest>,
    jobs: &mut Many<Job>,
    blob: &Descriptor,
) -> Result<(), Memory>
    requires { length jobs.old < 2 ^ 32 - 16 }
    ensures { (xs : List Descriptor) → HasSeen seen.old jobs.old xs
        → OnOk result (HasSeen seen.new jobs.new (xs ++ blob.now ∷ [])) }
{
    let added = seen.insert(blob.digest)?;
    if !added {
        return Ok(());
    }
    let number = jobs.len() as u32 + 1;
    jobs.push(Job {
        number,
        digest: blob.digest,
        size: blob.size,
    })
}

#[tactic(auto, unfolding(crate::specs::Blobs::blobs))]
fn first_blobs(alloc: Global, image: &Image) -> Result<Many<Job>, Memory>
    requires { length (descriptors image.now) < 2 ^ 32 - 16 }
    ensures { IfOk result (λ jobs. jobs ≡ blobs image.now) }
{
    let mut seen = BTreeSet::new(alloc);
    let mut jobs = Many::new(alloc);
    add_blob(&mut seen, &mut jobs, &image.config)?;
    for layer in image.layers.as_slice() {
        add_blob(&mut seen, &mut jobs, layer)?;
    }
    Ok(jobs)
}

/// The jobs of an image: its config, then its layers, first occurrences only, numbered from 1. An image has fewer than
/// 2^32 - 16 descriptors.
pub fn blobs_of(alloc: Global, image: &Image) -> Result<Many<Job>, Memory>
    requires { length (descriptors image.now) < 2 ^ 32 - 16 }
    ensures exact { IfOk result (λ jobs. jobs ≡ blobs image.now) }
    // The same as a relation.
    ensures jobs { IfOk result (λ jobs. AreJobsOf (descriptors image.now) jobs) }
{
    first_blobs(alloc, image)
}

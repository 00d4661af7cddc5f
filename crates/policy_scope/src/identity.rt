// The image that is judged, seen as the place that the user named.
ghost use Rattle.std.specs.Prelude.{◌≡◌, IfOk, option_map};
ghost use Rattle.policy_scope.specs.Seen.{reference_in};

use crate::docker::DockerName;
use image_ref::{ImageRef, Place};
use skopeo_outside::{Memory, Text};
use std::alloc::Global;
use std::marker::Model;

/// A place, with the texts that its scopes are found in.
#[derive(Debug, Drop)]
pub(crate) enum Judged {
    Docker(DockerName),
    Dir(Text),
    Oci(Text, Option<Text>),
}

/// The image as the user named it: by its scopes a policy's list is chosen, and with its reference
/// the names in signatures are compared.
#[derive(Debug, Drop)]
pub struct Identity {
    pub(crate) judged: Judged,
}

impl Model for Identity {
    ghost use Rattle.image_ref.specs.declared.place.Place.{Place};
    ghost use Rattle.policy_scope.specs.Seen.{place_in};

    ghost Value = { Place };

    ghost view = { λ i. place_in i.judged };
}

impl Identity {
    /// The identity of the image at a place that the user named.
    pub fn of(alloc: Global, place: &Place) -> Result<Identity, Memory>
        ensures { IfOk result (λ identity. identity ≡ place.now) }
    {
        let judged = match place.copy(alloc)? {
            Place::Docker(reference) => Judged::Docker(DockerName::of(alloc, reference)?),
            Place::Dir(path) => Judged::Dir(path),
            Place::Oci(path, tag) => Judged::Oci(path, tag),
        };
        Ok(Identity { judged })
    }

    /// The reference that was named; images of `dir` and `oci` have none. It takes no memory.
    pub fn named(&self) -> Option<&ImageRef>
        ensures { option_map (λ r. r.now) result ≡ reference_in self.now }
    {
        match &self.judged {
            Judged::Docker(name) => Some(name.reference()),
            _ => None,
        }
    }
}

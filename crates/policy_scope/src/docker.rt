// A reference with the texts that its scopes are found in.
ghost use Rattle.std.specs.Prelude.{◌≡◌, ◌∷◌, IfOk};
ghost use Rattle.image_ref.specs.Reference.{full, repository_of};
ghost use Rattle.policy_scope.specs.Scopes.{namespaces, wildcards};
ghost use Rattle.policy_scope.specs.Calls.{shortened};

use crate::wildcards::wildcards_in;
use image_ref::ImageRef;
use skopeo_outside::{Many, Memory, Text};
use std::alloc::Global;
use std::marker::Model;

/// A reference; its full text and its repository; and its scopes with `*.`.
#[derive(Debug, Drop)]
pub(crate) struct DockerName {
    reference: ImageRef,
    whole: Text,
    short: Text,
    stars: Many<Text>,
}

impl Model for DockerName {
    ghost use Rattle.image_ref.specs.Reference.{Reference};
    ghost use Rattle.policy_scope.specs.Calls.{IsSpelled};

    ghost Value = { Reference };

    ghost view = { λ n. n.reference };

    ghost invariant = { λ n. IsSpelled n.reference n.whole n.short n.stars };
}

impl DockerName {
    pub(crate) fn of(alloc: Global, reference: ImageRef) -> Result<DockerName, Memory>
        ensures { IfOk result (λ n. n ≡ reference) }
    {
        let stars = wildcards_in(alloc, reference.host())?;
        let whole = reference.write_text(alloc)?;
        let short = reference.repository(alloc)?;
        Ok(DockerName {
            reference,
            whole,
            short,
            stars,
        })
    }

    pub(crate) fn reference(&self) -> &ImageRef
        ensures { result.now ≡ self.now }
    {
        &self.reference
    }

    /// The full text.
    pub(crate) fn whole(&self) -> &str
        ensures { result.now ≡ full self.now }
    {
        self.whole.as_str()
    }

    /// The repository. What stands before its slashes is its namespaces.
    pub(crate) fn repository(&self) -> &str
        ensures { shortened result.now ≡ repository_of self.now ∷ namespaces self.now }
    {
        self.short.as_str()
    }

    /// The scopes with `*.`.
    pub(crate) fn wildcards(&self) -> &[Text]
        ensures { result.now ≡ wildcards self.now.host }
    {
        self.stars.as_slice()
    }
}

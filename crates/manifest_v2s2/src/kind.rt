ghost use Rattle.std.specs.Prelude.{◌≡◌};
ghost use Rattle.manifest_v2s2.specs.Media.{is_list, media_of};

/// The four kinds of manifest: of Docker's schema 2 and of OCI, an image's or a list's.
#[derive(Clone, Copy, Debug, PartialEq, Eq)]
pub enum Kind {
    V2s2,
    V2s2List,
    Oci,
    OciIndex,
}

impl Kind {
    /// The media type of manifests of this kind. It takes no memory.
    pub fn media_type(self) -> &'static str
        ensures { result.now ≡ media_of self }
    {
        match self {
            Kind::V2s2 => "application/vnd.docker.distribution.manifest.v2+json",
            Kind::V2s2List => "application/vnd.docker.distribution.manifest.list.v2+json",
            Kind::Oci => "application/vnd.oci.image.manifest.v1+json",
            Kind::OciIndex => "application/vnd.oci.image.index.v1+json",
        }
    }

    /// It is a list's kind and no image's. It takes no memory.
    pub fn is_list(self) -> bool
        ensures { result ≡ is_list self }
    {
        match self {
            Kind::V2s2List | Kind::OciIndex => true,
            Kind::V2s2 | Kind::Oci => false,
        }
    }
}

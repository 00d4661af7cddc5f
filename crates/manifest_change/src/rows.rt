// The table of media types (docs/manifests.md, "Conversion").
ghost use Rattle.std.specs.Prelude.{◌≡◌};
ghost use Rattle.std.specs.Option.{option_copied};
ghost use Rattle.manifest_change.specs.Rows.{oci_type, schema2_type, type_in};
ghost use Rattle.manifest_change.specs.Found.{config_type, has_type, layer_type, manifest_type, type_by};

use manifest_v2s2::Kind;

/// A row of the table: what has a media type in each of the two formats, or in one alone.
#[derive(Clone, Copy, Debug, PartialEq, Eq)]
pub enum TypeRow {
    Manifest,
    ImageConfig,
    Tar,
    TarGzip,
    TarZstd,
    Foreign,
    ForeignGzip,
    ForeignZstd,
}

impl TypeRow {
    /// The row's type of schema 2. It takes no memory.
    pub fn schema2(self) -> Option<&'static str>
        ensures exact { option_copied result ≡ schema2_type self }
    {
        match self {
            TypeRow::Manifest => Some("application/vnd.docker.distribution.manifest.v2+json"),
            TypeRow::ImageConfig => Some("application/vnd.docker.container.image.v1+json"),
            TypeRow::Tar => Some("application/vnd.docker.image.rootfs.diff.tar"),
            TypeRow::TarGzip => Some("application/vnd.docker.image.rootfs.diff.tar.gzip"),
            TypeRow::TarZstd => None,
            TypeRow::Foreign => Some("application/vnd.docker.image.rootfs.foreign.diff.tar"),
            TypeRow::ForeignGzip => {
                Some("application/vnd.docker.image.rootfs.foreign.diff.tar.gzip")
            }
            TypeRow::ForeignZstd => None,
        }
    }

    /// The row's type of OCI. It takes no memory.
    pub fn oci(self) -> &'static str
        ensures exact { result.now ≡ oci_type self }
    {
        match self {
            TypeRow::Manifest => "application/vnd.oci.image.manifest.v1+json",
            TypeRow::ImageConfig => "application/vnd.oci.image.config.v1+json",
            TypeRow::Tar => "application/vnd.oci.image.layer.v1.tar",
            TypeRow::TarGzip => "application/vnd.oci.image.layer.v1.tar+gzip",
            TypeRow::TarZstd => "application/vnd.oci.image.layer.v1.tar+zstd",
            TypeRow::Foreign => "application/vnd.oci.image.layer.nondistributable.v1.tar",
            TypeRow::ForeignGzip => "application/vnd.oci.image.layer.nondistributable.v1.tar+gzip",
            TypeRow::ForeignZstd => "application/vnd.oci.image.layer.nondistributable.v1.tar+zstd",
        }
    }

    /// The row's type in manifests of a kind. It takes no memory.
    pub fn of_kind(self, kind: Kind) -> Option<&'static str>
        ensures exact { option_copied result ≡ type_in kind self }
    {
        match kind {
            Kind::V2s2 => self.schema2(),
            Kind::V2s2List => self.schema2(),
            Kind::Oci => Some(self.oci()),
            Kind::OciIndex => Some(self.oci()),
        }
    }

    /// The type stands in the row, in either column.
    fn has(self, media: &str) -> bool
        ensures { result ≡ has_type self media.now }
    {
        if media == self.oci() {
            return true;
        }
        match self.schema2() {
            Some(text) => media == text,
            None => false,
        }
    }
}

/// The type of a row that becomes one of a kind, where it stands there.
fn type_by(row: TypeRow, media: &str, to: Kind) -> Option<&'static str>
    ensures { option_copied result ≡ type_by row to media.now }
{
    if row.has(media) {
        row.of_kind(to)
    } else {
        None
    }
}

/// What the media type of an image becomes in lists of a kind. It takes no memory.
pub fn manifest_type(media: &str, to: Kind) -> Option<&'static str>
    ensures exact { option_copied result ≡ manifest_type to media.now }
{
    type_by(TypeRow::Manifest, media, to)
}

/// What a config's media type becomes in manifests of a kind. It takes no memory.
pub fn config_type(media: &str, to: Kind) -> Option<&'static str>
    ensures exact { option_copied result ≡ config_type to media.now }
{
    type_by(TypeRow::ImageConfig, media, to)
}

/// What a layer's media type becomes in manifests of a kind. It takes no memory.
#[tactic(auto, unfolding(crate::specs::Found::layer_type))]
pub fn layer_type(media: &str, to: Kind) -> Option<&'static str>
    ensures exact { option_copied result ≡ layer_type to media.now }
{
    if TypeRow::Tar.has(media) {
        return TypeRow::Tar.of_kind(to);
    }
    if TypeRow::TarGzip.has(media) {
        return TypeRow::TarGzip.of_kind(to);
    }
    if TypeRow::TarZstd.has(media) {
        return TypeRow::TarZstd.of_kind(to);
    }
    if TypeRow::Foreign.has(media) {
        return TypeRow::Foreign.of_kind(to);
    }
    if TypeRow::ForeignGzip.has(media) {
        return TypeRow::ForeignGzip.of_kind(to);
    }
    type_by(TypeRow::ForeignZstd, media, to)
}

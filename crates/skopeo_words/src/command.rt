// What words give.
use skopeo_outside::Text;

/// The name of a command.
#[derive(Clone, Copy, Debug, PartialEq, Eq)]
pub enum CommandName {
    Copy,
    Sync,
    Inspect,
    ListTags,
    Delete,
    MakeImages,
}

/// The kind of manifest that is asked for.
#[derive(Clone, Copy, Debug, PartialEq, Eq)]
pub enum Format {
    /// OCI image manifest.
    Oci,
    /// Docker's image manifest, version 2, schema 2.
    V2s2,
}

/// What lies at an end of `sync`.
#[derive(Clone, Copy, Debug, PartialEq, Eq)]
pub enum SyncEnd {
    Docker,
    Dir,
}

/// The options that every command has. Texts are the words as written.
#[derive(Debug, Drop)]
pub struct Common {
    pub policy: Option<Text>,
    pub registries_conf: Option<Text>,
    pub location_cache: Option<Text>,
    pub insecure_policy: bool,
    pub os: Option<Text>,
    pub arch: Option<Text>,
    pub variant: Option<Text>,
    /// How many blobs are carried side by side: 1 to 16, and 6 where it is not given.
    pub lanes: u32,
}

/// The options of the commands that copy images from place to place.
#[derive(Debug, Drop)]
pub struct Passing {
    pub all: bool,
    pub preserve: bool,
    pub remove_signatures: bool,
    pub format: Option<Format>,
    pub src_tls: Option<bool>,
    pub dest_tls: Option<bool>,
    /// `http://`, a host with or without a port, and a path that does not end with a slash.
    pub lookaside: Option<Text>,
    pub verifier: Option<Text>,
}

/// What the words ask for.
#[derive(Debug, Drop)]
pub enum Command {
    /// `copy SRC DST`.
    Copy {
        common: Common,
        passing: Passing,
        quiet: bool,
        short_names: bool,
        source: Text,
        dest: Text,
    },
    /// `sync SOURCE BASE`.
    Sync {
        common: Common,
        passing: Passing,
        scoped: bool,
        from: SyncEnd,
        to: SyncEnd,
        source: Text,
        base: Text,
    },
    /// `inspect IMAGE`.
    Inspect {
        common: Common,
        short_names: bool,
        raw: bool,
        config: bool,
        no_tags: bool,
        tls: Option<bool>,
        image: Text,
    },
    /// `list-tags docker://REPO`.
    ListTags {
        common: Common,
        tls: Option<bool>,
        repository: Text,
    },
    /// `delete docker://REF`.
    Delete {
        common: Common,
        tls: Option<bool>,
        image: Text,
    },
    /// `make-images N BASE`.
    MakeImages {
        common: Common,
        verifier: Option<Text>,
        count: u32,
        base: Text,
    },
    /// The help page of a command, or the one over all.
    Help(Option<CommandName>),
    /// The name and number of this version.
    Version,
}

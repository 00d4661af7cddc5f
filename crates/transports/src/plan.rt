use image_ref::Place;
use skopeo_outside::Text;

/// Which image is copied, and where to.
#[derive(Debug, Drop)]
pub struct CopyPlan {
    pub source: Place,
    /// The text of a short name, which stands for what the configuration of the registries says and not for `source`.
    pub short: Option<Text>,
    pub dest: Place,
    /// How many first lanes do blob jobs, at most.
    pub lanes: u32,
    /// Whether TLS is verified at the source, where that is said: no source may be asked without it, or each.
    pub src_tls: Option<bool>,
    /// The base of a store of signatures, `http://HOST/PATH` without a slash at its end, where one is named.
    pub lookaside: Option<Text>,
    /// The program that judges signatures, where one is named.
    pub verifier: Option<Text>,
    /// The folder that relative paths of keys are seen from.
    pub cwd: Text,
}

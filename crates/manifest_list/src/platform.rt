ghost use Rattle.std.specs.Prelude.{◌≡◌, IfOk};
ghost use Rattle.std.specs.Option.{option_copied};
ghost use Rattle.manifest_list.specs.Platform.{arch_of, os_of, variant_of};

use crate::copies::{copy_members, copy_text, copy_variant};
use skopeo_outside::{Many, Memory, Text};
use std::alloc::Global;

/// What is kept of a member of a platform: a text, or a list of texts.
#[derive(Debug, Drop)]
pub enum MemberValue {
    One(Text),
    Several(Many<Text>),
}

/// A member of a platform that is kept.
#[derive(Debug, Drop)]
pub struct PlatformMember {
    pub name: Text,
    pub value: MemberValue,
}

/// What an image of a list runs on (OCI Image Specification 1.1, "Image Index", `platform`).
#[derive(Debug, Drop)]
pub struct Platform {
    pub(crate) os: Text,
    pub(crate) arch: Text,
    pub(crate) variant: Option<Text>,
    // These three among them: the members that are texts or lists of texts, in byte order of their names.
    pub(crate) members: Many<PlatformMember>,
}

impl Platform {
    /// The operating system. It takes no memory.
    pub fn os(&self) -> &str
        ensures value { result.now ≡ os_of self.now }
    {
        self.os.as_str()
    }

    /// The architecture. It takes no memory.
    pub fn arch(&self) -> &str
        ensures value { result.now ≡ arch_of self.now }
    {
        self.arch.as_str()
    }

    /// The variant of the architecture. It takes no memory.
    pub fn variant(&self) -> Option<&str>
        ensures value { option_copied result ≡ variant_of self.now }
    {
        match &self.variant {
            Some(text) => Some(text.as_str()),
            None => None,
        }
    }

    /// An equal platform.
    pub fn copy(&self, alloc: Global) -> Result<Platform, Memory>
        ensures same { IfOk result (λ copy. copy ≡ self.now) }
    {
        Ok(Platform {
            os: copy_text(alloc, &self.os)?,
            arch: copy_text(alloc, &self.arch)?,
            variant: copy_variant(alloc, &self.variant)?,
            members: copy_members(alloc, self.members.as_slice())?,
        })
    }
}

ghost use Rattle.std.specs.Prelude.{◌≡◌, IfOk, ◌++◌, option_map, OnOk};
ghost use Rattle.image_ref.specs.Characters.{colon, at_sign};
ghost use Rattle.image_ref.specs.Digest.{digest_text};
ghost use Rattle.image_ref.specs.Domain.{after};
ghost use Rattle.image_ref.specs.Reference.{Reference, Named, full, repository_of, normal_host, normal_path};

use crate::digest::Digest;
use crate::optional::{copy_of, text_in};
use crate::path::lacks_slash;
use skopeo_outside::{Memory, Text};
use std::alloc::Global;
use std::marker::Model;

const DEFAULT_HOST: &str = "docker.io";

const INDEX_HOST: &str = "index.docker.io";

const LIBRARY: &str = "library/";

/// A reference in its normal form. Only reading or copying one makes it, so its full text reads as it.
#[derive(Debug, Drop)]
pub struct ImageRef {
    pub(crate) host: Text,
    pub(crate) path: Text,
    pub(crate) tag: Option<Text>,
    pub(crate) digest: Option<Digest>,
}

impl Model for ImageRef {
    ghost use Rattle.image_ref.specs.Reference.{Reference};
    ghost use Rattle.image_ref.specs.Reading.{IsReference};

    ghost Value = { Reference };

    ghost view = { λ r. record { host = r.host; path = r.path; tag = r.tag; digest = r.digest } };

    ghost invariant = { λ r. IsReference (record { host = r.host; path = r.path; tag = r.tag; digest = r.digest }) };
}

impl ImageRef {
    /// The host, and its port where it has one.
    pub fn host(&self) -> &str
        ensures value { result.now ≡ self.now.host }
        ensures named { Named (full self.now) self.now }
    {
        self.host.as_str()
    }

    /// The path, with `library/` in front where it was put there.
    pub fn path(&self) -> &str
        ensures { result.now ≡ self.now.path }
    {
        self.path.as_str()
    }

    /// The tag, where there is one.
    pub fn tag(&self) -> Option<&str>
        ensures { option_map (λ t. t.now) result ≡ self.now.tag }
    {
        text_in(&self.tag)
    }

    /// The digest, where there is one.
    pub fn digest(&self) -> Option<&Digest>
        ensures { option_map (λ d. d.now) result ≡ self.now.digest }
    {
        self.digest.as_ref()
    }

    /// Host and path as one text. Its error is want of memory.
    pub fn repository(&self, alloc: Global) -> Result<Text, Memory>
        ensures { IfOk result (λ t. t ≡ repository_of self.now) }
    {
        let mut text = Text::from_str(alloc, self.host.as_str())?;
        text.push_str("/")?;
        text.push_str(self.path.as_str())?;
        Ok(text)
    }
}

impl ImageRef {
    /// The full text: host, path, and the tag and the digest where they are there. Its error is want
    /// of memory.
    pub fn write_text(&self, alloc: Global) -> Result<Text, Memory>
        ensures text { IfOk result (λ t. t ≡ full self.now) }
        ensures named { IfOk result (λ t. Named t self.now) }
    {
        let mut text = self.repository(alloc)?;
        push_tag(&mut text, self.tag())?;
        push_digest(alloc, &mut text, self.digest.as_ref())?;
        Ok(text)
    }

    /// The same reference once more. Its error is want of memory.
    pub fn copy(&self, alloc: Global) -> Result<ImageRef, Memory>
        ensures { IfOk result (λ r. r ≡ self.now) }
    {
        let tag = copy_of(alloc, self.tag())?;
        Ok(ImageRef {
            host: Text::from_str(alloc, self.host.as_str())?,
            path: Text::from_str(alloc, self.path.as_str())?,
            tag,
            digest: self.digest,
        })
    }
}

fn push_tag(text: &mut Text, tag: Option<&str>) -> Result<(), Memory>
    ensures { OnOk result (text.new ≡ text.old ++ after colon (option_map (λ t. t.now) tag.entry)) }
{
    match tag {
        None => Ok(()),
        Some(tag) => {
            text.push_str(":")?;
            text.push_str(tag)?;
            Ok(())
        }
    }
}

fn push_digest(alloc: Global, text: &mut Text, digest: Option<&Digest>) -> Result<(), Memory>
    ensures { let bytes = option_map (λ d. d.now) digest.entry in
        OnOk result (text.new ≡ text.old ++ after at_sign (option_map digest_text bytes)) }
{
    match digest {
        None => Ok(()),
        Some(digest) => {
            text.push_str("@")?;
            text.push_str(digest.write_digest(alloc)?.as_str())?;
            Ok(())
        }
    }
}

/// The normal form of a host that was named, or was not.
pub fn normal_host(host: Option<&str>) -> &str
    ensures { result.now ≡ normal_host (option_map (λ x. x.now) host.entry) }
{
    match host {
        None => DEFAULT_HOST,
        Some(host) => {
            if host == INDEX_HOST {
                DEFAULT_HOST
            } else {
                host
            }
        }
    }
}

/// Under the default host a path of one component gets `library/` in front.
pub fn normal_path(alloc: Global, host: &str, path: &str) -> Result<Text, Memory>
    ensures { IfOk result (λ t. t ≡ normal_path host.now path.now) }
{
    if host == DEFAULT_HOST && lacks_slash(path) {
        let mut text = Text::from_str(alloc, LIBRARY)?;
        text.push_str(path)?;
        Ok(text)
    } else {
        Ok(Text::from_str(alloc, path)?)
    }
}

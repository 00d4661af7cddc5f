ghost use Rattle.std.specs.Prelude.{◌≡◌, ◌≤◌, ◌+◌, ◌<◌, ◌^◌, length, option_map, IfOk, IfErr, MatchOption, true, false, ◌↔◌, ℕ, List};
ghost use Rattle.image_ref.specs.Calls.{Answers};
ghost use Rattle.image_ref.specs.Domain.{passes_or_none, is_domain};
ghost use Rattle.image_ref.specs.Digest.{is_digest_text};
ghost use Rattle.image_ref.specs.Reference.{is_tag, Reference, Named, ImageNamed, full};
ghost use Rattle.image_ref.specs.Faults.{IsFirstFault, IsFirstImageFault};
ghost use Rattle.image_ref.specs.Reading.{reading_of, judged, seen, HasPlaces, fits, docker_of, tagged, offset, IsReference, value_of, digest_value, digest_passes};

use crate::digest::{Digest, read_digest};
use crate::domain::is_domain;
use crate::fault::RefFault;
use crate::optional::copy_of;
use crate::path::{bad_component, first_upper};
use crate::reference::{ImageRef, normal_host, normal_path};
use crate::split::{Split, pieces_of};
use crate::tag::{is_hex_name, is_tag};
use skopeo_outside::Text;
use std::alloc::Global;

const LATEST: &str = "latest";

fn tag_passes(tag: Option<&str>) -> bool
    ensures { result ≡ passes_or_none is_tag (option_map (λ t. t.now) tag.entry) }
{
    match tag {
        None => true,
        Some(tag) => is_tag(tag),
    }
}

fn host_passes(host: Option<&str>) -> bool
    ensures { result ≡ passes_or_none is_domain (option_map (λ t. t.now) host.entry) }
{
    match host {
        None => true,
        Some(host) => is_domain(host),
    }
}

/// The normal form of pieces that are in their grammars, unless it is too long.
fn value(alloc: Global, pieces: &Split<'_>, digest: Option<Digest>) -> Result<ImageRef, RefFault>
    requires digest { digest ≡ digest_value (seen pieces.now).digest }
    requires again { (r : Reference) → fits (value_of (seen pieces.now)) ≡ Ok r → IsReference r }
    ensures { Answers RefFault.Memory result (fits (value_of (seen pieces.now))) }
{
    let host = normal_host(pieces.host);
    let path = normal_path(alloc, host, pieces.path)?;
    if host.len() + 1 + path.as_str().len() > 255 {
        return Err(RefFault::TooLong);
    }
    let tag = copy_of(alloc, pieces.tag)?;
    let host = Text::from_str(alloc, host)?;
    Ok(ImageRef {
        host,
        path,
        tag,
        digest,
    })
}

/// The digest that the text spells, where there is one.
fn digest_in(text: Option<&str>) -> Option<Option<Digest>>
    ensures { let written = option_map (λ t. t.now) text.entry in
        MatchOption result (digest_passes written ≡ false)
        (λ d. (digest_passes written ≡ true) × (d ≡ digest_value written)) }
{
    match text {
        None => Some(None),
        Some(text) => match read_digest(text) {
            None => None,
            Some(digest) => Some(Some(digest)),
        },
    }
}

/// The first fault of the pieces, or their normal form.
#[tactic(auto, unfolding(crate::specs::Reading::judged))]
fn judge(alloc: Global, pieces: &Split<'_>) -> Result<ImageRef, RefFault>
    requires path { pieces.now.path_at + length pieces.now.path.now ≤ 2 ^ 63 }
    requires tag { pieces.now.tag_at ≤ 2 ^ 63 }
    requires digest { pieces.now.digest_at ≤ 2 ^ 63 }
    requires places { HasPlaces pieces.now }
    requires again { (r : Reference) → judged (seen pieces.now) ≡ Ok r → IsReference r }
    ensures { Answers RefFault.Memory result (judged (seen pieces.now)) }
{
    let Some(digest) = digest_in(pieces.digest) else {
        return Err(RefFault::BadDigest(pieces.digest_at));
    };
    if !tag_passes(pieces.tag) {
        return Err(RefFault::BadTag(pieces.tag_at));
    }
    if !host_passes(pieces.host) {
        return Err(RefFault::BadHost(0));
    }
    if let Some(upper) = first_upper(pieces.path) {
        return Err(RefFault::UpperCase(pieces.path_at + upper));
    }
    if let Some(at) = bad_component(pieces.path, pieces.path_at) {
        return Err(RefFault::BadPath(at));
    }
    value(alloc, pieces, digest)
}

/// The reference that the text spells, in its normal form, or the text's first fault. The grammar,
/// after the distribution project's references, stands at the head of `specs/Reference.antt`, and
/// the order of faults in `specs/Faults.antt`.
#[tactic(auto, unfolding(crate::specs::Reading::reading_of))]
pub fn parse_named(alloc: Global, text: &str) -> Result<ImageRef, RefFault>
    ensures exact { Answers RefFault.Memory result (reading_of text.now) }
    ensures within { IfErr result (λ e. offset e ≤ length text.now) }
    ensures grammar { (r : Reference) → (reading_of text.now ≡ Ok r) ↔ Named text.now r }
    ensures faults { (e : RefFault) → (reading_of text.now ≡ Err e) ↔ IsFirstFault text.now e }
{
    if text.is_empty() {
        return Err(RefFault::Empty);
    }
    if is_hex_name(text) {
        return Err(RefFault::HexName);
    }
    judge(alloc, &pieces_of(text))
}

/// Want of memory aside, the full text of a reference is read as it, and no text names two.
pub fn one_reference()
    ensures again { (text : List ℕ) (r : Reference) → Named text r → Named (full r) r }
    ensures once { (text : List ℕ) (r s : Reference) → Named text r → Named text s → r ≡ s }
{}

/// The image that a reference names: `latest` where it has neither tag nor digest, and none where
/// it has both.
fn image_of(alloc: Global, named: ImageRef) -> Result<ImageRef, RefFault>
    ensures exact { Answers RefFault.Memory result (tagged named named.tag named.digest) }
    ensures whole { IfErr result (λ e. offset e ≡ 0) }
{
    match (&named.tag, &named.digest) {
        (Some(_), Some(_)) => Err(RefFault::TagAndDigest),
        (None, None) => Ok(ImageRef {
            tag: Some(Text::from_str(alloc, LATEST)?),
            ..named
        }),
        _ => Ok(named),
    }
}

/// The reference of an image: as `parse_named` reads it, with the tag `latest` where the text has
/// neither tag nor digest. It refuses both, where the text has no fault before that.
#[tactic(auto, unfolding(crate::specs::Reading::docker_of))]
pub fn parse_docker(alloc: Global, text: &str) -> Result<ImageRef, RefFault>
    ensures exact { Answers RefFault.Memory result (docker_of text.now) }
    ensures within { IfErr result (λ e. offset e ≤ length text.now) }
    ensures grammar { (r : Reference) → (docker_of text.now ≡ Ok r) ↔ ImageNamed text.now r }
    ensures faults { (e : RefFault) → (docker_of text.now ≡ Err e) ↔ IsFirstImageFault text.now e }
{
    let named = parse_named(alloc, text)?;
    image_of(alloc, named)
}

// The words of fixed lists that the lines of refusals have.
ghost use Rattle.std.specs.Prelude.{◌≡◌, decimal, IfOk};
ghost use Rattle.image_ref.specs.Reading.{offset};
ghost use Rattle.skopeo_app.specs.Words.{unbuilt_word, part_word, why_word, reason_word, reason_text, words_word, policy_word, conf_word, conf_member, reference_word, place_word, place_offset, what_word, step_word};

use crate::refusal::Unbuilt;
use copy_engine::{Part, Reason, Why};
use image_ref::{PlaceFault, RefFault};
use policy_file::PolicyKind;
use registries_conf::ConfFault;
use skopeo_outside::{Memory, Step, Text, What};
use skopeo_words::WordsKind;
use std::alloc::Global;

pub fn unbuilt_word(what: Unbuilt) -> &'static str
    ensures { result.now ≡ unbuilt_word what }
{
    match what {
        Unbuilt::Command => "command",
        Unbuilt::Option => "option",
        Unbuilt::Place => "place",
    }
}

pub fn part_word(part: Part) -> &'static str
    ensures { result.now ≡ part_word part }
{
    match part {
        Part::Policy => "policy",
        Part::Manifest => "manifest",
        Part::Place => "place",
    }
}

pub fn why_word(why: &Why) -> &'static str
    ensures { result.now ≡ why_word why.now }
{
    match why {
        Why::Reject => "reject",
        Why::Sigstore => "sigstore",
        Why::NoSignature => "no-signature",
        Why::NoVerifier => "no-verifier",
        Why::KeyAbsent => "key-absent",
        Why::Signatures(_) => "signatures",
    }
}

/// Why a signature is not accepted.
pub fn reason_word(reason: &Reason) -> &'static str
    ensures { result.now ≡ reason_word reason.now }
{
    match reason {
        Reason::Bad(_) => "bad",
        Reason::Payload(_) => "payload",
        Reason::Identity(_) => "identity",
        Reason::Digest(_) => "digest",
    }
}

/// What was said of it, or signed.
pub fn reason_text(reason: &Reason) -> &str
    ensures { result.now ≡ reason_text reason.now }
{
    match reason {
        Reason::Bad(text) => text.as_str(),
        Reason::Payload(pointer) => pointer.as_str(),
        Reason::Identity(text) => text.as_str(),
        Reason::Digest(text) => text.as_str(),
    }
}

pub fn words_word(kind: WordsKind) -> &'static str
    ensures { result.now ≡ words_word kind }
{
    match kind {
        WordsKind::UnknownOption => "UnknownOption",
        WordsKind::MissingValue => "MissingValue",
        WordsKind::BadValue => "BadValue",
        WordsKind::MissingOperand => "MissingOperand",
        WordsKind::UnknownCommand => "UnknownCommand",
        WordsKind::NotForCommand => "NotForCommand",
        WordsKind::ExtraOperand => "ExtraOperand",
        WordsKind::MissingOption => "MissingOption",
        WordsKind::BadPair => "BadPair",
        WordsKind::NeedsRaw => "NeedsRaw",
        WordsKind::FormatForPlace => "FormatForPlace",
        WordsKind::NotDocker => "NotDocker",
        WordsKind::BadNumber => "BadNumber",
    }
}

pub fn policy_word(kind: PolicyKind) -> &'static str
    ensures { result.now ≡ policy_word kind }
{
    match kind {
        PolicyKind::NotJson => "NotJson",
        PolicyKind::Shape => "Shape",
        PolicyKind::UnknownKey => "UnknownKey",
        PolicyKind::NoDefault => "NoDefault",
        PolicyKind::EmptyList => "EmptyList",
        PolicyKind::UnknownType => "UnknownType",
        PolicyKind::BadKeys => "BadKeys",
        PolicyKind::BadIdentity => "BadIdentity",
    }
}

pub fn conf_word(fault: &ConfFault) -> &'static str
    ensures { result.now ≡ conf_word fault.now }
{
    match fault {
        ConfFault::NotToml => "NotToml",
        ConfFault::Shape(_) => "Shape",
        ConfFault::V1 => "V1",
        ConfFault::BadPrefix(_) => "BadPrefix",
        ConfFault::MirrorClash(_) => "MirrorClash",
        ConfFault::Memory => "",
    }
}

/// The number of a table as a text.
fn table_text(alloc: Global, table: u32) -> Result<Text, Memory>
    ensures { IfOk result (λ text. text ≡ decimal table) }
{
    let mut text = Text::new(alloc);
    text.push_number(table as usize)?;
    Ok(text)
}

/// Where the configuration is at fault.
pub fn conf_member(alloc: Global, fault: &ConfFault) -> Result<Text, Memory>
    ensures { IfOk result (λ text. text ≡ conf_member fault.now) }
{
    match fault {
        ConfFault::NotToml => Ok(Text::new(alloc)),
        ConfFault::Shape(key) => Text::copy_of(alloc, key.as_str()),
        ConfFault::V1 => Ok(Text::new(alloc)),
        ConfFault::BadPrefix(table) => table_text(alloc, *table),
        ConfFault::MirrorClash(table) => table_text(alloc, *table),
        ConfFault::Memory => Ok(Text::new(alloc)),
    }
}

fn reference_word(fault: RefFault) -> &'static str
    ensures { result.now ≡ reference_word fault }
{
    match fault {
        RefFault::Empty => "Empty",
        RefFault::HexName => "HexName",
        RefFault::BadDigest(_) => "BadDigest",
        RefFault::BadTag(_) => "BadTag",
        RefFault::BadHost(_) => "BadHost",
        RefFault::UpperCase(_) => "UpperCase",
        RefFault::BadPath(_) => "BadPath",
        RefFault::TooLong => "TooLong",
        RefFault::TagAndDigest => "TagAndDigest",
        RefFault::Memory => "",
    }
}

pub fn place_word(fault: PlaceFault) -> &'static str
    ensures { result.now ≡ place_word fault }
{
    match fault {
        PlaceFault::NoTransport => "NoTransport",
        PlaceFault::UnknownTransport => "UnknownTransport",
        PlaceFault::LeftOut => "LeftOut",
        PlaceFault::Slashes => "Slashes",
        PlaceFault::EmptyPath => "EmptyPath",
        PlaceFault::BadOciRef => "BadOciRef",
        PlaceFault::Reference(fault) => reference_word(fault),
        PlaceFault::Memory => "",
    }
}

fn reference_offset(fault: RefFault) -> usize
    ensures { result ≡ offset fault }
{
    match fault {
        RefFault::BadDigest(at) => at,
        RefFault::BadTag(at) => at,
        RefFault::BadHost(at) => at,
        RefFault::UpperCase(at) => at,
        RefFault::BadPath(at) => at,
        _ => 0,
    }
}

pub fn place_offset(fault: PlaceFault) -> usize
    ensures { result ≡ place_offset fault }
{
    match fault {
        PlaceFault::Reference(fault) => reference_offset(fault),
        _ => 0,
    }
}

/// The word for what there is too much of.
pub fn what_word(what: What) -> &'static str
    ensures { result.now ≡ what_word what }
{
    match what {
        What::Policy => "policy",
        What::Conf => "conf",
        What::Cache => "cache",
        What::Manifest => "manifest",
        What::Index => "index",
        What::Config => "config",
        What::Signature => "signature",
        What::Signatures => "signatures",
        What::SignatureBytes => "signature-bytes",
        What::Key => "key",
        What::Keys => "keys",
        What::Answer => "answer",
        What::Head => "head",
        What::Headers => "headers",
        What::TagsPage => "tags-page",
        What::Pages => "pages",
        What::Tags => "tags",
        What::Entries => "entries",
        What::Folders => "folders",
    }
}

pub fn step_word(step: Step) -> &'static str
    ensures { result.now ≡ step_word step }
{
    match step {
        Step::Manifest => "manifest",
        Step::Instance => "instance",
        Step::Blob => "blob",
        Step::Have => "have",
        Step::Mount => "mount",
        Step::Start => "start",
        Step::Piece => "piece",
        Step::Commit => "commit",
        Step::Put => "put",
        Step::Delete => "delete",
        Step::Tags => "tags",
        Step::Signature => "signature",
    }
}

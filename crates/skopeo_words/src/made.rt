// A command, made of its parts.
ghost use Rattle.std.specs.Prelude.{◌≡◌, map, option_map, IfOk};
ghost use Rattle.skopeo_words.specs.Scan.{seen_part};
ghost use Rattle.skopeo_words.specs.LastOf.{seen_placed, text_of};
ghost use Rattle.skopeo_words.specs.Values.{without_slashes};
ghost use Rattle.skopeo_words.specs.Made.{flag_of, choice_of, lanes_of, format_of, end_in, count_of, common_of, passing_of, made};
ghost use Rattle.skopeo_words.specs.declared.command.CommandName.TheVariants as name;

use crate::command::{Command, CommandName, Common, Format, Passing, SyncEnd};
use crate::found::{Placed, first_text, last_of, second_text, text_of};
use crate::pairs::is_on;
use crate::parts::Part;
use crate::table::OptionName;
use crate::value::{end_value, format_value, number_upto, truth_value, without_slashes};
use skopeo_outside::{Memory, Text};
use std::alloc::Global;

fn flag_of(name: OptionName, parts: &[Part<'_>]) -> bool
    ensures { result ≡ flag_of name (map (λ p. seen_part p) parts.now) }
{
    is_on(last_of(name, parts))
}

fn choice_of(name: OptionName, parts: &[Part<'_>]) -> Option<bool>
    ensures { result ≡ choice_of name (map (λ p. seen_part p) parts.now) }
{
    match text_of(name, parts) {
        None => None,
        Some(text) => truth_value(text),
    }
}

fn lanes_of(parts: &[Part<'_>]) -> u32
    ensures { result ≡ lanes_of (map (λ p. seen_part p) parts.now) }
{
    match text_of(OptionName::Lanes, parts) {
        None => 6,
        Some(text) => match number_upto(16, text) {
            None => 6,
            Some(lanes) => lanes,
        },
    }
}

fn format_of(parts: &[Part<'_>]) -> Option<Format>
    ensures { result ≡ format_of (map (λ p. seen_part p) parts.now) }
{
    match text_of(OptionName::Format, parts) {
        None => None,
        Some(text) => format_value(text),
    }
}

fn end_in(name: OptionName, parts: &[Part<'_>]) -> SyncEnd
    ensures { result ≡ end_in name (map (λ p. seen_part p) parts.now) }
{
    match text_of(name, parts) {
        None => SyncEnd::Docker,
        Some(text) => match end_value(text) {
            None => SyncEnd::Docker,
            Some(end) => end,
        },
    }
}

fn count_of(text: &str) -> u32
    ensures { result ≡ count_of text.now }
{
    match number_upto(1000, text) {
        None => 0,
        Some(count) => count,
    }
}

fn written(alloc: Global, name: OptionName, parts: &[Part<'_>]) -> Result<Option<Text>, Memory>
    ensures { IfOk result (λ t. t ≡ text_of name (map (λ p. seen_part p) parts.now)) }
{
    match text_of(name, parts) {
        None => Ok(None),
        Some(text) => Ok(Some(Text::from_str(alloc, text)?)),
    }
}

fn base_in(alloc: Global, parts: &[Part<'_>]) -> Result<Option<Text>, Memory>
    ensures { let seen = map (λ p. seen_part p) parts.now in
        IfOk result (λ t. t ≡ option_map without_slashes (text_of OptionName.Lookaside seen)) }
{
    match text_of(OptionName::Lookaside, parts) {
        None => Ok(None),
        Some(text) => Ok(Some(Text::from_str(alloc, without_slashes(text))?)),
    }
}

fn common_of(alloc: Global, parts: &[Part<'_>]) -> Result<Common, Memory>
    ensures { IfOk result (λ c. c ≡ common_of (map (λ p. seen_part p) parts.now)) }
{
    Ok(Common {
        policy: written(alloc, OptionName::Policy, parts)?,
        registries_conf: written(alloc, OptionName::RegistriesConf, parts)?,
        location_cache: written(alloc, OptionName::LocationCache, parts)?,
        insecure_policy: flag_of(OptionName::InsecurePolicy, parts),
        os: written(alloc, OptionName::OverrideOs, parts)?,
        arch: written(alloc, OptionName::OverrideArch, parts)?,
        variant: written(alloc, OptionName::OverrideVariant, parts)?,
        lanes: lanes_of(parts),
    })
}

fn passing_of(alloc: Global, parts: &[Part<'_>]) -> Result<Passing, Memory>
    ensures { IfOk result (λ c. c ≡ passing_of (map (λ p. seen_part p) parts.now)) }
{
    Ok(Passing {
        all: flag_of(OptionName::All, parts),
        preserve: flag_of(OptionName::PreserveDigests, parts),
        remove_signatures: flag_of(OptionName::RemoveSignatures, parts),
        format: format_of(parts),
        src_tls: choice_of(OptionName::SrcTlsVerify, parts),
        dest_tls: choice_of(OptionName::DestTlsVerify, parts),
        lookaside: base_in(alloc, parts)?,
        verifier: written(alloc, OptionName::Verifier, parts)?,
    })
}

#[tactic(auto, unfolding(crate::specs::Made::made))]
fn copy_of(alloc: Global, parts: &[Part<'_>], operands: &[Placed<'_>]) -> Result<Command, Memory>
    ensures { let seen = map (λ p. seen_part p) parts.now in
        IfOk result (λ c. c ≡ made name.Copy seen (map (λ o. seen_placed o) operands.now)) }
{
    Ok(Command::Copy {
        common: common_of(alloc, parts)?,
        passing: passing_of(alloc, parts)?,
        quiet: flag_of(OptionName::Quiet, parts),
        short_names: flag_of(OptionName::ShortNames, parts),
        source: Text::from_str(alloc, first_text(operands))?,
        dest: Text::from_str(alloc, second_text(operands))?,
    })
}

#[tactic(auto, unfolding(crate::specs::Made::made))]
fn sync_of(alloc: Global, parts: &[Part<'_>], operands: &[Placed<'_>]) -> Result<Command, Memory>
    ensures { let seen = map (λ p. seen_part p) parts.now in
        IfOk result (λ c. c ≡ made name.Sync seen (map (λ o. seen_placed o) operands.now)) }
{
    Ok(Command::Sync {
        common: common_of(alloc, parts)?,
        passing: passing_of(alloc, parts)?,
        scoped: flag_of(OptionName::Scoped, parts),
        from: end_in(OptionName::Src, parts),
        to: end_in(OptionName::Dest, parts),
        source: Text::from_str(alloc, first_text(operands))?,
        base: Text::from_str(alloc, second_text(operands))?,
    })
}

#[tactic(auto, unfolding(crate::specs::Made::made))]
fn inspect_of(alloc: Global, parts: &[Part<'_>], operands: &[Placed<'_>]) -> Result<Command, Memory>
    ensures { let seen = map (λ p. seen_part p) parts.now in
        IfOk result (λ c. c ≡ made name.Inspect seen (map (λ o. seen_placed o) operands.now)) }
{
    Ok(Command::Inspect {
        common: common_of(alloc, parts)?,
        short_names: flag_of(OptionName::ShortNames, parts),
        raw: flag_of(OptionName::Raw, parts),
        config: flag_of(OptionName::Config, parts),
        no_tags: flag_of(OptionName::NoTags, parts),
        tls: choice_of(OptionName::TlsVerify, parts),
        image: Text::from_str(alloc, first_text(operands))?,
    })
}

#[tactic(auto, unfolding(crate::specs::Made::made))]
fn list_tags_of(
    alloc: Global,
    parts: &[Part<'_>],
    operands: &[Placed<'_>],
) -> Result<Command, Memory>
    ensures { let seen = map (λ p. seen_part p) parts.now in
        IfOk result (λ c. c ≡ made name.ListTags seen (map (λ o. seen_placed o) operands.now)) }
{
    Ok(Command::ListTags {
        common: common_of(alloc, parts)?,
        tls: choice_of(OptionName::TlsVerify, parts),
        repository: Text::from_str(alloc, first_text(operands))?,
    })
}

#[tactic(auto, unfolding(crate::specs::Made::made))]
fn delete_of(alloc: Global, parts: &[Part<'_>], operands: &[Placed<'_>]) -> Result<Command, Memory>
    ensures { let seen = map (λ p. seen_part p) parts.now in
        IfOk result (λ c. c ≡ made name.Delete seen (map (λ o. seen_placed o) operands.now)) }
{
    Ok(Command::Delete {
        common: common_of(alloc, parts)?,
        tls: choice_of(OptionName::TlsVerify, parts),
        image: Text::from_str(alloc, first_text(operands))?,
    })
}

#[tactic(auto, unfolding(crate::specs::Made::made))]
fn make_images_of(
    alloc: Global,
    parts: &[Part<'_>],
    operands: &[Placed<'_>],
) -> Result<Command, Memory>
    ensures { let seen = map (λ p. seen_part p) parts.now in
        IfOk result (λ c. c ≡ made name.MakeImages seen (map (λ o. seen_placed o) operands.now)) }
{
    Ok(Command::MakeImages {
        common: common_of(alloc, parts)?,
        verifier: written(alloc, OptionName::Verifier, parts)?,
        count: count_of(first_text(operands)),
        base: Text::from_str(alloc, second_text(operands))?,
    })
}

/// The command of a name, with its options and the operands behind it.
pub fn made(
    alloc: Global,
    name: CommandName,
    parts: &[Part<'_>],
    operands: &[Placed<'_>],
) -> Result<Command, Memory>
    ensures { let seen = map (λ p. seen_part p) parts.now in
        IfOk result (λ c. c ≡ made name seen (map (λ o. seen_placed o) operands.now)) }
{
    match name {
        CommandName::Copy => copy_of(alloc, parts, operands),
        CommandName::Sync => sync_of(alloc, parts, operands),
        CommandName::Inspect => inspect_of(alloc, parts, operands),
        CommandName::ListTags => list_tags_of(alloc, parts, operands),
        CommandName::Delete => delete_of(alloc, parts, operands),
        CommandName::MakeImages => make_images_of(alloc, parts, operands),
    }
}

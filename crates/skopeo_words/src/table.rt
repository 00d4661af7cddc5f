// The table of options: how each is written, what it takes, and the commands that it is for.
ghost use Rattle.std.specs.Prelude.{◌≡◌, drop};
ghost use Rattle.skopeo_words.specs.Table.{options, named_in, row_of, same_option, option_named, kind_of, is_for, command_named};

use crate::command::CommandName;

/// An option.
#[derive(Clone, Copy, Debug)]
pub enum OptionName {
    Policy,
    RegistriesConf,
    LocationCache,
    InsecurePolicy,
    OverrideOs,
    OverrideArch,
    OverrideVariant,
    Lanes,
    All,
    PreserveDigests,
    RemoveSignatures,
    Format,
    SrcTlsVerify,
    DestTlsVerify,
    Lookaside,
    Verifier,
    Quiet,
    ShortNames,
    Scoped,
    Src,
    Dest,
    Raw,
    Config,
    NoTags,
    TlsVerify,
}

/// What an option takes.
#[derive(Clone, Copy, Debug)]
pub enum Kind {
    /// A truth value, and true where none is given.
    Truth,
    /// A text that is not empty.
    Text,
    /// A number of lanes.
    Lanes,
    /// A kind of manifest.
    Format,
    /// Where stored signatures begin.
    Base,
    /// An end of `sync`.
    End,
}

/// The row of an option in the table.
fn row_of(name: OptionName) -> u32
    ensures { result ≡ row_of name }
{
    match name {
        OptionName::Policy => 0,
        OptionName::RegistriesConf => 1,
        OptionName::LocationCache => 2,
        OptionName::InsecurePolicy => 3,
        OptionName::OverrideOs => 4,
        OptionName::OverrideArch => 5,
        OptionName::OverrideVariant => 6,
        OptionName::Lanes => 7,
        OptionName::All => 8,
        OptionName::PreserveDigests => 9,
        OptionName::RemoveSignatures => 10,
        OptionName::Format => 11,
        OptionName::SrcTlsVerify => 12,
        OptionName::DestTlsVerify => 13,
        OptionName::Lookaside => 14,
        OptionName::Verifier => 15,
        OptionName::Quiet => 16,
        OptionName::ShortNames => 17,
        OptionName::Scoped => 18,
        OptionName::Src => 19,
        OptionName::Dest => 20,
        OptionName::Raw => 21,
        OptionName::Config => 22,
        OptionName::NoTags => 23,
        OptionName::TlsVerify => 24,
    }
}

/// Whether two names are of one option.
pub fn same_option(a: OptionName, b: OptionName) -> bool
    ensures { result ≡ same_option a b }
{
    row_of(a) == row_of(b)
}

/// The option that is written so, of those that stand last in the table.
fn late_option_named(text: &str) -> Option<OptionName>
    ensures { result ≡ named_in (drop 16 options) text.now }
{
    match text {
        "quiet" => Some(OptionName::Quiet),
        "short-names" => Some(OptionName::ShortNames),
        "scoped" => Some(OptionName::Scoped),
        "src" => Some(OptionName::Src),
        "dest" => Some(OptionName::Dest),
        "raw" => Some(OptionName::Raw),
        "config" => Some(OptionName::Config),
        "no-tags" => Some(OptionName::NoTags),
        "tls-verify" => Some(OptionName::TlsVerify),
        _ => None,
    }
}

/// The option that is written so, of those that not every command has.
fn own_option_named(text: &str) -> Option<OptionName>
    ensures { result ≡ named_in (drop 8 options) text.now }
{
    match text {
        "all" => Some(OptionName::All),
        "preserve-digests" => Some(OptionName::PreserveDigests),
        "remove-signatures" => Some(OptionName::RemoveSignatures),
        "format" => Some(OptionName::Format),
        "src-tls-verify" => Some(OptionName::SrcTlsVerify),
        "dest-tls-verify" => Some(OptionName::DestTlsVerify),
        "lookaside" => Some(OptionName::Lookaside),
        "verifier" => Some(OptionName::Verifier),
        _ => late_option_named(text),
    }
}

/// The option that is written so behind its dashes.
#[tactic(auto, unfolding(crate::specs::Table::option_named))]
pub fn option_named(text: &str) -> Option<OptionName>
    ensures { result ≡ option_named text.now }
{
    match text {
        "policy" => Some(OptionName::Policy),
        "registries-conf" => Some(OptionName::RegistriesConf),
        "location-cache" => Some(OptionName::LocationCache),
        "insecure-policy" => Some(OptionName::InsecurePolicy),
        "override-os" => Some(OptionName::OverrideOs),
        "override-arch" => Some(OptionName::OverrideArch),
        "override-variant" => Some(OptionName::OverrideVariant),
        "lanes" => Some(OptionName::Lanes),
        _ => own_option_named(text),
    }
}

/// What an option takes.
#[tactic(auto, unfolding(crate::specs::Table::kind_of))]
pub fn kind_of(name: OptionName) -> Kind
    ensures { result ≡ kind_of name }
{
    match name {
        OptionName::Policy => Kind::Text,
        OptionName::RegistriesConf => Kind::Text,
        OptionName::LocationCache => Kind::Text,
        OptionName::InsecurePolicy => Kind::Truth,
        OptionName::OverrideOs => Kind::Text,
        OptionName::OverrideArch => Kind::Text,
        OptionName::OverrideVariant => Kind::Text,
        OptionName::Lanes => Kind::Lanes,
        OptionName::All => Kind::Truth,
        OptionName::PreserveDigests => Kind::Truth,
        OptionName::RemoveSignatures => Kind::Truth,
        OptionName::Format => Kind::Format,
        OptionName::SrcTlsVerify => Kind::Truth,
        OptionName::DestTlsVerify => Kind::Truth,
        OptionName::Lookaside => Kind::Base,
        OptionName::Verifier => Kind::Text,
        OptionName::Quiet => Kind::Truth,
        OptionName::ShortNames => Kind::Truth,
        OptionName::Scoped => Kind::Truth,
        OptionName::Src => Kind::End,
        OptionName::Dest => Kind::End,
        OptionName::Raw => Kind::Truth,
        OptionName::Config => Kind::Truth,
        OptionName::NoTags => Kind::Truth,
        OptionName::TlsVerify => Kind::Truth,
    }
}

/// Whether an option is for a command.
#[tactic(auto, unfolding(crate::specs::Table::is_for))]
pub fn is_for(name: OptionName, command: CommandName) -> bool
    ensures { result ≡ is_for name command }
{
    match name {
        OptionName::Policy => true,
        OptionName::RegistriesConf => true,
        OptionName::LocationCache => true,
        OptionName::InsecurePolicy => true,
        OptionName::OverrideOs => true,
        OptionName::OverrideArch => true,
        OptionName::OverrideVariant => true,
        OptionName::Lanes => true,
        OptionName::All => matches!(command, CommandName::Copy | CommandName::Sync),
        OptionName::PreserveDigests => matches!(command, CommandName::Copy | CommandName::Sync),
        OptionName::RemoveSignatures => matches!(command, CommandName::Copy | CommandName::Sync),
        OptionName::Format => matches!(command, CommandName::Copy | CommandName::Sync),
        OptionName::SrcTlsVerify => matches!(command, CommandName::Copy | CommandName::Sync),
        OptionName::DestTlsVerify => matches!(command, CommandName::Copy | CommandName::Sync),
        OptionName::Lookaside => matches!(command, CommandName::Copy | CommandName::Sync),
        OptionName::Verifier => matches!(
            command,
            CommandName::Copy | CommandName::Sync | CommandName::MakeImages
        ),
        OptionName::Quiet => matches!(command, CommandName::Copy),
        OptionName::ShortNames => matches!(command, CommandName::Copy | CommandName::Inspect),
        OptionName::Scoped => matches!(command, CommandName::Sync),
        OptionName::Src => matches!(command, CommandName::Sync),
        OptionName::Dest => matches!(command, CommandName::Sync),
        OptionName::Raw => matches!(command, CommandName::Inspect),
        OptionName::Config => matches!(command, CommandName::Inspect),
        OptionName::NoTags => matches!(command, CommandName::Inspect),
        OptionName::TlsVerify => matches!(
            command,
            CommandName::Inspect | CommandName::ListTags | CommandName::Delete
        ),
    }
}

/// The command that is written so.
pub fn command_named(text: &str) -> Option<CommandName>
    ensures { result ≡ command_named text.now }
{
    match text {
        "copy" => Some(CommandName::Copy),
        "sync" => Some(CommandName::Sync),
        "inspect" => Some(CommandName::Inspect),
        "list-tags" => Some(CommandName::ListTags),
        "delete" => Some(CommandName::Delete),
        "make-images" => Some(CommandName::MakeImages),
        _ => None,
    }
}

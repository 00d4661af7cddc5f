// Why the command ends without success.
ghost use Rattle.std.specs.Prelude.{◌≡◌};
ghost use Rattle.transports.specs.declared.refusal.Refusal.TheVariants as image;
ghost use Rattle.skopeo_app.specs.declared.refusal.CommandRefusal.TheVariants as refusal;

use copy_engine::Refusal;
use image_ref::PlaceFault;
use policy_file::PolicyKind;
use registries_conf::ConfFault;
use skopeo_outside::{Memory, Text};
use skopeo_words::WordsKind;

/// What of the words is not built yet.
#[derive(Clone, Copy, Debug, PartialEq, Eq)]
pub enum Unbuilt {
    Command,
    Option,
    Place,
}

/// Why the command ended.
#[derive(Debug, Drop)]
pub enum CommandRefusal {
    /// The words are no command; the place is that of the word, from 1.
    Words(u32, WordsKind),
    /// The text names no place; an offset in the fault counts the text's bytes, from 0.
    Reference(Text, PlaceFault),
    /// Source and destination are this one folder.
    SamePlace(Text),
    NotBuilt(Unbuilt),
    /// No policy file stands at this path, the last that was looked at.
    PolicyMissing(Text),
    /// The policy file at this path has this fault at the member of this JSON pointer (RFC 6901).
    PolicyInvalid(Text, PolicyKind, Text),
    /// The policy file has more than 4,194,304 bytes.
    PolicyTooLarge,
    /// No file stands at the path that was named for the configuration of the registries.
    ConfMissing(Text),
    /// The configuration of the registries at this path has this fault, which is never want of memory.
    ConfInvalid(Text, ConfFault),
    /// The configuration of the registries has more than 4,194,304 bytes.
    ConfTooLarge,
    /// What the copy of the image answered, or a fault of the files, or want of memory.
    Image(Refusal),
    /// A write to the output failed, with the count of its faults at the end of that call.
    Output(u64),
}

impl From<Memory> for CommandRefusal {
    ghost from_gives = { λ _ e. e ≡ refusal.Image image.Memory };

    fn from(_: Memory) -> Self {
        CommandRefusal::Image(Refusal::Memory)
    }
}

impl From<Refusal> for CommandRefusal {
    ghost from_gives = { λ given e. e ≡ refusal.Image given };

    fn from(given: Refusal) -> Self {
        CommandRefusal::Image(given)
    }
}

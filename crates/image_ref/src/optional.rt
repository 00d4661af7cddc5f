// A text that may be absent.
ghost use Rattle.std.specs.Prelude.{◌≡◌, IfOk, option_map};

use skopeo_outside::{Memory, Text};
use std::alloc::Global;

pub fn text_in(text: &Option<Text>) -> Option<&str>
    ensures { option_map (λ x. x.now) result ≡ text.now }
{
    match text {
        None => None,
        Some(text) => Some(text.as_str()),
    }
}

pub fn copy_of(alloc: Global, text: Option<&str>) -> Result<Option<Text>, Memory>
    ensures { IfOk result (λ t. t ≡ option_map (λ x. x.now) text.entry) }
{
    match text {
        None => Ok(None),
        Some(text) => Ok(Some(Text::from_str(alloc, text)?)),
    }
}

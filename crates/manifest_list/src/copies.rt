// Copies of what platforms are made of.
ghost use Rattle.std.specs.Prelude.{◌≡◌, IfOk};

use crate::platform::{MemberValue, PlatformMember};
use skopeo_outside::{Many, Memory, Text};
use std::alloc::Global;

pub(crate) fn copy_text(alloc: Global, text: &Text) -> Result<Text, Memory>
    ensures { IfOk result (λ copy. copy ≡ text.now) }
{
    Text::copy_of(alloc, text.as_str())
}

pub(crate) fn copy_variant(alloc: Global, variant: &Option<Text>) -> Result<Option<Text>, Memory>
    ensures { IfOk result (λ copy. copy ≡ variant.now) }
{
    match variant {
        Some(text) => Ok(Some(copy_text(alloc, text)?)),
        None => Ok(None),
    }
}

fn copy_texts(alloc: Global, texts: &[Text]) -> Result<Many<Text>, Memory>
    ensures { IfOk result (λ copy. copy ≡ texts.now) }
{
    let mut copy = Many::new(alloc);
    for text in texts {
        copy.push(copy_text(alloc, text)?)?;
    }
    Ok(copy)
}

fn copy_value(alloc: Global, value: &MemberValue) -> Result<MemberValue, Memory>
    ensures { IfOk result (λ copy. copy ≡ value.now) }
{
    match value {
        MemberValue::One(text) => Ok(MemberValue::One(copy_text(alloc, text)?)),
        MemberValue::Several(texts) => {
            Ok(MemberValue::Several(copy_texts(alloc, texts.as_slice())?))
        }
    }
}

fn copy_member(alloc: Global, member: &PlatformMember) -> Result<PlatformMember, Memory>
    ensures { IfOk result (λ copy. copy ≡ member.now) }
{
    Ok(PlatformMember {
        name: copy_text(alloc, &member.name)?,
        value: copy_value(alloc, &member.value)?,
    })
}

pub(crate) fn copy_members(
    alloc: Global,
    members: &[PlatformMember],
) -> Result<Many<PlatformMember>, Memory>
    ensures { IfOk result (λ copy. copy ≡ members.now) }
{
    let mut copy = Many::new(alloc);
    for member in members {
        copy.push(copy_member(alloc, member)?)?;
    }
    Ok(copy)
}

// Copies of lists of texts and of pairs.
ghost use Rattle.std.specs.Prelude.{◌≡◌, IfOk};

use skopeo_outside::{Many, Memory, Pair, Text};
use std::alloc::Global;

pub(crate) fn copy_text(alloc: Global, text: &Text) -> Result<Text, Memory>
    ensures { IfOk result (λ copy. copy ≡ text.now) }
{
    Text::copy_of(alloc, text.as_str())
}

pub(crate) fn copy_texts(alloc: Global, texts: &[Text]) -> Result<Many<Text>, Memory>
    ensures { IfOk result (λ copy. copy ≡ texts.now) }
{
    let mut copy = Many::new(alloc);
    for text in texts {
        copy.push(copy_text(alloc, text)?)?;
    }
    Ok(copy)
}

fn copy_pair(alloc: Global, pair: &Pair) -> Result<Pair, Memory>
    ensures { IfOk result (λ copy. copy ≡ pair.now) }
{
    Ok(Pair {
        name: copy_text(alloc, &pair.name)?,
        value: copy_text(alloc, &pair.value)?,
    })
}

pub(crate) fn copy_pairs(alloc: Global, pairs: &[Pair]) -> Result<Many<Pair>, Memory>
    ensures { IfOk result (λ copy. copy ≡ pairs.now) }
{
    let mut copy = Many::new(alloc);
    for pair in pairs {
        copy.push(copy_pair(alloc, pair)?)?;
    }
    Ok(copy)
}

// An image as one of the other kind.
ghost use Rattle.std.specs.Prelude.{◌≡◌, ◌-◌, ◌<◌, ◌^◌, [], length, IfOk};
ghost use Rattle.manifest_change.specs.Changed.{Answers, changed, config_changed, each, layer_changed, with_type};

use crate::fault::ConvertFault;
use crate::rows::{config_type, layer_type};
use manifest_v2s2::{Descriptor, Image, Kind};
use skopeo_outside::{Many, Memory, Text};
use std::alloc::Global;

/// The descriptor with another media type, and without annotations.
fn with_type(alloc: Global, x: &Descriptor, media: &str) -> Result<Descriptor, Memory>
    ensures { IfOk result (λ y. y ≡ with_type x.now media.now) }
{
    let copy = x.copy(alloc)?;
    Ok(Descriptor {
        media: Text::copy_of(alloc, media)?,
        digest: copy.digest,
        size: copy.size,
        urls: copy.urls,
        annotations: Many::new(alloc),
    })
}

fn config_changed(alloc: Global, x: &Descriptor, to: Kind) -> Result<Descriptor, ConvertFault>
    ensures { Answers result (config_changed to x.now) }
{
    match config_type(x.media.as_str(), to) {
        Some(media) => Ok(with_type(alloc, x, media)?),
        None => Err(ConvertFault::Config(Text::copy_of(alloc, x.media.as_str())?)),
    }
}

fn layer_changed(
    alloc: Global,
    place: u32,
    x: &Descriptor,
    to: Kind,
) -> Result<Descriptor, ConvertFault>
    ensures { Answers result (layer_changed to place x.now) }
{
    match layer_type(x.media.as_str(), to) {
        Some(media) => Ok(with_type(alloc, x, media)?),
        None => Err(ConvertFault::Layer(place, Text::copy_of(alloc, x.media.as_str())?)),
    }
}

/// Each layer in turn.
fn layers_changed(
    alloc: Global,
    layers: &[Descriptor],
    to: Kind,
) -> Result<Many<Descriptor>, ConvertFault>
    requires { length layers.now < 2 ^ 32 - 16 }
    ensures { Answers result (each (layer_changed to) 1 layers.now) }
{
    let mut changed = Many::new(alloc);
    for (place, x) in layers.iter().enumerate() {
        let layer = layer_changed(alloc, place as u32 + 1, x, to)?;
        changed.push(layer)?;
    }
    Ok(changed)
}

/// The image as one of a kind, with no annotations.
#[tactic(auto, unfolding(crate::specs::Changed::changed))]
pub(crate) fn changed(alloc: Global, image: &Image, to: Kind) -> Result<Image, ConvertFault>
    requires { length image.now.layers < 2 ^ 32 - 16 }
    ensures { Answers result (changed to image.now) }
{
    let config = config_changed(alloc, &image.config, to)?;
    let layers = layers_changed(alloc, image.layers.as_slice(), to)?;
    Ok(Image {
        kind: to,
        config,
        layers,
    })
}

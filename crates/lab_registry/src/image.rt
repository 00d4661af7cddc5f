// The one image that the registry holds.
ghost use Rattle.std.specs.Prelude.{◌≡◌, IfOk};
ghost use Rattle.lab_registry.specs.Image.{HoldsImage};

use skopeo_outside::{Many, MapPeer, Memory, PeerFraming};
use std::alloc::Global;

const NAME: &str = "ns/app";

const TAG: &str = "1";

const MANIFEST_DIGEST: &str =
    "sha256:6f4ae0e460fc061eda59a248a3835ab7f0c67e4a0eb6486b5e30f870ea4ce68a";

const MANIFEST_TYPE: &str = "application/vnd.docker.distribution.manifest.v2+json";

const MANIFEST: &str =
    "{\"config\":{\"digest\":\"sha256:44136fa355b3678a1146ad16f7e8649e94fb4fc21fe77e8310c060f61caaff8a\",\"mediaType\":\"application/vnd.docker.container.image.v1+json\",\"size\":2},\"layers\":[{\"digest\":\"sha256:ba7816bf8f01cfea414140de5dae2223b00361a396177a9cb410ff61f20015ad\",\"mediaType\":\"application/vnd.docker.image.rootfs.diff.tar.gzip\",\"size\":3}],\"mediaType\":\"application/vnd.docker.distribution.manifest.v2+json\",\"schemaVersion\":2}";

const CONFIG_DIGEST: &str =
    "sha256:44136fa355b3678a1146ad16f7e8649e94fb4fc21fe77e8310c060f61caaff8a";

const CONFIG: &str = "{}";

const LAYER_DIGEST: &str =
    "sha256:ba7816bf8f01cfea414140de5dae2223b00361a396177a9cb410ff61f20015ad";

const LAYER: &str = "abc";

fn bytes_of(alloc: Global, text: &str) -> Result<Many<u8>, Memory>
    ensures { IfOk result (λ bytes. bytes ≡ text.now) }
{
    let mut bytes = Many::new(alloc);
    bytes.extend(text.as_bytes())?;
    Ok(bytes)
}

/// A registry that holds the image.
pub fn hold_image(alloc: Global) -> Result<MapPeer, Memory>
    ensures holds { IfOk result (λ peer. HoldsImage peer) }
{
    let mut peer = MapPeer::new(alloc, PeerFraming::Length);
    peer.put_blob(NAME, CONFIG_DIGEST, bytes_of(alloc, CONFIG)?)?;
    peer.put_blob(NAME, LAYER_DIGEST, bytes_of(alloc, LAYER)?)?;
    peer.put_manifest(
        NAME,
        MANIFEST_DIGEST,
        MANIFEST_TYPE,
        bytes_of(alloc, MANIFEST)?,
    )?;
    peer.put_manifest(NAME, TAG, MANIFEST_TYPE, bytes_of(alloc, MANIFEST)?)?;
    Ok(peer)
}

// The registry in memory.
use crate::exchanges::WHOLE;
use crate::outcomes::push_unless_same;
use crate::spelling::{shown, spelled};
use skopeo_outside::{Many, MapPeer, Memory, PeerFraming, Stop, SureWire, Text, Wire};
use std::alloc::Global;

fn bytes(alloc: Global, text: &str) -> Result<Many<u8>, Memory> {
    let mut bytes = Many::new(alloc);
    bytes.extend(text.as_bytes())?;
    Ok(bytes)
}

/// A framing by its name, or by the size of its chunks.
fn framing_of(name: &str) -> PeerFraming {
    match name {
        "length" => PeerFraming::Length,
        "close" => PeerFraming::ToEnd,
        size => PeerFraming::Chunks(size.parse().unwrap_or(0)),
    }
}

/// Two blobs in `ns/app`.
fn put_blobs(alloc: Global, peer: &mut MapPeer) -> Result<(), Memory> {
    peer.put_blob("ns/app", "sha256:0a", bytes(alloc, "abc")?)?;
    peer.put_blob("ns/app", "sha256:0b", Many::new(alloc))
}

/// A registry with two manifests and two blobs in `ns/app`.
fn registry_of(alloc: Global, framing: &str) -> Result<MapPeer, Memory> {
    let mut peer = MapPeer::new(alloc, framing_of(framing));
    peer.put_manifest("ns/app", "1", "a/m", bytes(alloc, "hello world")?)?;
    peer.put_manifest("ns/app", "sha256:0c", "a/i", bytes(alloc, "{}")?)?;
    put_blobs(alloc, &mut peer)?;
    Ok(peer)
}

/// All that a wire gives for a request.
fn received<W: Wire>(alloc: Global, wire: &mut W, request: &[u8]) -> Result<Many<u8>, Stop> {
    let mut all = Many::new(alloc);
    let mut piece = [0; 16];
    wire.connect("h", 80)?;
    wire.send(request)?;
    for _ in 0..1000 {
        let count = wire.recv(&mut piece)?;
        if count == 0 {
            break;
        }
        all.extend(&piece[..count])?;
    }
    Ok(all)
}

/// The answer to a request, in pieces of this size.
fn answer_in(alloc: Global, framing: &str, request: &[u8], piece: usize) -> Result<Text, Memory> {
    let mut wire = SureWire::new(alloc, registry_of(alloc, framing)?, piece);
    match received(alloc, &mut wire, request) {
        Ok(all) => Ok(Text::from_string(format!(in alloc; "{:?}", shown(all.as_slice()))?)),
        Err(_) => Err(Memory),
    }
}

/// The answer of a registry to a request, behind the framing: in whole, and where it differs in pieces.
pub fn registry(alloc: Global, input: &str) -> Result<Text, Memory> {
    let (framing, text) = input.split_once(' ').unwrap_or((input, ""));
    let request = spelled(alloc, text)?;
    let whole = answer_in(alloc, framing, request.as_slice(), WHOLE)?;
    let mut answer = Text::copy_of(alloc, whole.as_str())?;
    for piece in [1, 7] {
        let found = answer_in(alloc, framing, request.as_slice(), piece)?;
        push_unless_same(&mut answer, whole.as_str(), found.as_str())?;
    }
    Ok(answer)
}

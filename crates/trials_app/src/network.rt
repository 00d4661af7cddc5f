// The other end of each wire: registries, and answers that are told beforehand.
use crate::bytes::bytes_of;
use skopeo_outside::{Many, MapPeer, Memory, Peer, PeerFraming, Shelf, Text};
use std::alloc::Global;
use std::rt::Files;
use std::str::from_utf8;

const NAME: &str = "ns/app";

const MANIFEST: &str = "sha256:6f4ae0e460fc061eda59a248a3835ab7f0c67e4a0eb6486b5e30f870ea4ce68a";

const CONFIG: &str = "sha256:44136fa355b3678a1146ad16f7e8649e94fb4fc21fe77e8310c060f61caaff8a";

const LAYER: &str = "sha256:ba7816bf8f01cfea414140de5dae2223b00361a396177a9cb410ff61f20015ad";

const SCHEMA_2: &str = "application/vnd.docker.distribution.manifest.v2+json";

/// A registry at a host and port.
#[derive(Drop)]
struct Site {
    at: Text,
    peer: MapPeer,
}

/// Registries, whole answers by host, port and target, which count before them, and what was asked of whom.
#[derive(Drop)]
pub struct Network {
    alloc: Global,
    sites: Vec<Site>,
    answers: Shelf,
    pub asked: Text,
}

/// The target of a request.
fn target_of(sent: &[u8]) -> &str {
    let text = from_utf8(sent).unwrap_or("");
    let mut words = text.split(' ');
    let _ = words.next();
    words.next().unwrap_or("")
}

impl Network {
    fn new(alloc: Global) -> Self {
        Network {
            alloc,
            sites: Vec::new(alloc),
            answers: Shelf::new(alloc),
            asked: Text::new(alloc),
        }
    }

    /// The answer of the registry at a host and port, which is none where there is no registry.
    fn answer_at(
        &mut self,
        at: &str,
        host: &str,
        port: u16,
        sent: &[u8],
        into: &mut Many<u8>,
    ) -> Result<(), Memory> {
        for site in &mut self.sites {
            if site.at.as_str() == at {
                return site.peer.answer(host, port, sent, into);
            }
        }
        Ok(())
    }
}

impl Peer for Network {
    fn answer(
        &mut self,
        host: &str,
        port: u16,
        sent: &[u8],
        into: &mut Many<u8>,
    ) -> Result<(), Memory> {
        let target = target_of(sent);
        let at = format!(in self.alloc; "{host}:{port}")?;
        let place = format!(in self.alloc; "{at}{target}")?;
        self.asked.push_str(" ")?;
        self.asked.push_str(place.as_str())?;
        if let Some(answer) = self.answers.get(place.as_str()) {
            return into.extend(answer);
        }
        self.answer_at(at.as_str(), host, port, sent, into)
    }
}

/// A framing by its name, or by the size of its chunks.
fn framing_of(name: &str) -> PeerFraming {
    match name {
        "length" => PeerFraming::Length,
        "close" => PeerFraming::ToEnd,
        size => PeerFraming::Chunks(size.parse().unwrap_or(0)),
    }
}

/// A registry with the image of the file `one.json` as `ns/app:1`.
fn registry_of<R: AllocGlobal + Files>(rt: &R, framing: &str) -> Result<MapPeer, Memory> {
    let mut peer = MapPeer::new(rt.alloc(), framing_of(framing));
    peer.put_manifest(NAME, "1", SCHEMA_2, bytes_of(rt, "one.json")?)?;
    peer.put_manifest(NAME, MANIFEST, SCHEMA_2, bytes_of(rt, "one.json")?)?;
    peer.put_blob(NAME, CONFIG, bytes_of(rt, "config")?)?;
    peer.put_blob(NAME, LAYER, bytes_of(rt, "abc")?)?;
    Ok(peer)
}

/// A word is `HOST:PORT=FRAMING` for a registry, or `HOST:PORT/TARGET=BYTES` for an answer, cut at its last `=`.
fn put_word<R: AllocGlobal + Files>(
    rt: &R,
    network: &mut Network,
    word: &str,
) -> Result<(), Memory> {
    let Some((place, name)) = word.rsplit_once('=') else {
        return Err(Memory);
    };
    if place.contains('/') {
        let bytes = bytes_of(rt, name)?;
        return network.answers.add(place, bytes.as_slice());
    }
    let site = Site {
        at: Text::copy_of(rt.alloc(), place)?,
        peer: registry_of(rt, name)?,
    };
    network.sites.push(site)?;
    Ok(())
}

/// The network that a column gives, and the calls of a wire that fail: a word `!N` for each.
pub fn network_of<R: AllocGlobal + Files>(
    rt: &R,
    column: &str,
) -> Result<(Network, Vec<u64>), Memory> {
    let mut network = Network::new(rt.alloc());
    let mut failing = Vec::new(rt.alloc());
    if column == "-" {
        return Ok((network, failing));
    }
    for word in column.split(' ') {
        match word.strip_prefix("!") {
            Some(number) => failing.push(number.parse::<u64>().unwrap_or(0))?,
            None => put_word(rt, &mut network, word)?,
        }
    }
    Ok((network, failing))
}

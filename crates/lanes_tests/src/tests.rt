// A copy whose lanes wait for each other.
ghost use Rattle.std.specs.Prelude.{◌≡◌, ◌<◌, ◌≤◌, IfOk};
ghost use Rattle.skopeo_outside.specs.Seen.{AreLanes};

use crate::meeting::{Meeting, World};
use skopeo_app::skopeo;
use skopeo_outside::{
    Failures, Idle, Lane, Many, MapPeer, MemFiles, MemSink, Memory, PeerFraming, Shelf, SureWire,
    Text,
};
use std::alloc::Global;
use std::sync::atomic::Ordering;
use std::test::Fail;
use std::thread::Threads;

const FROM_FOLDER: &str = "dir:src";

const FROM_REGISTRY: &str = "--src-tls-verify=false docker://reg.local/ns/app:1";

const SCHEMA_2: &str = "application/vnd.docker.distribution.manifest.v2+json";

const CONFIG: &str = "sha256:44136fa355b3678a1146ad16f7e8649e94fb4fc21fe77e8310c060f61caaff8a";

const ACCEPT: &[u8] = b"{\"default\":[{\"type\":\"insecureAcceptAnything\"}]}";

// What stands in the manifest before the layers, before and behind the digits of each, and behind them all.
const FRONT: &str =
    "{\"config\":{\"digest\":\"sha256:44136fa355b3678a1146ad16f7e8649e94fb4fc21fe77e8310c060f61caaff8a\",\"mediaType\":\"application/vnd.docker.container.image.v1+json\",\"size\":2},\"layers\":[";

const BEFORE: &str = "{\"digest\":\"sha256:";

const BEHIND: &str =
    "\",\"mediaType\":\"application/vnd.docker.image.rootfs.diff.tar.gzip\",\"size\":7}";

const BACK: &str =
    "],\"mediaType\":\"application/vnd.docker.distribution.manifest.v2+json\",\"schemaVersion\":2}";

// Sixteen layers of seven bytes, and their digests, as `sha256sum` prints them.
const LAYERS: [(&str, &str); 16] = [
    (
        "8a74c5338f1ca6b4b751802e195c85cd48c6d54e5f38d19a4e5ea902baa60af7",
        "layer a",
    ),
    (
        "4660645c73f48eb8f67e661ea54842f9fabb1ae261238e0538d1b952b00863f9",
        "layer b",
    ),
    (
        "63faee8dfdaa1586f6f474a3e8b27d8aeb7ebde13392b7af762889d51793799a",
        "layer c",
    ),
    (
        "6c1560c57c7306e3242094e1213cacf70f7d610cbafc979c93ab8462ba5d9c92",
        "layer d",
    ),
    (
        "fa9281c23f3aae29a773e0764b1789855f2ff69ff39a328e0582dced37b35705",
        "layer e",
    ),
    (
        "04a8c2ec0b9c7db2f1cf544324916531d50edb54a6aefea3ae8c5dba866e770f",
        "layer f",
    ),
    (
        "362a1a1f1a85bd4c3db2ecec45d05176350097190d516c0adad14b85c7415fd9",
        "layer g",
    ),
    (
        "6242c2a1cd3077f0c2ee3bc58fdbb4e79c391360d31e63fc4545f8c716c26697",
        "layer h",
    ),
    (
        "cd020f975f44c6daf6518db041feef03530cf9ade71734d3a7ba9adb6fae23c7",
        "layer i",
    ),
    (
        "b6444f57e08f6e51f087df51581c3071eb20c10cf063960dc5422a63908ab205",
        "layer j",
    ),
    (
        "0c1df389541d54b42cffbf5a03b880e09b92b9b5cb2a64383cf1b88d4a1f4c0a",
        "layer k",
    ),
    (
        "b0713d38aed2ec27403de3061bb3f4231a4cf0ea8bcb89e1d43c7ee29be8ff54",
        "layer l",
    ),
    (
        "70064adc207c556cdb14d41cd230eec16b4b1b79e79ee6b216fa40ab54486008",
        "layer m",
    ),
    (
        "da3e34657443135ce4a589c1f2e86e66e0370d137fd42f840d1fa19c32af8f80",
        "layer n",
    ),
    (
        "a531dffcd17205fdb3bd6fadf069fc959d6372ee2306a44620f96c2ec29b5bf7",
        "layer o",
    ),
    (
        "48e61ddc438e8f68ce9edfcc5e446de9fa3331d774a6ecec38d545168f11cc1f",
        "layer p",
    ),
];

/// The manifest of the image of these layers.
fn make_manifest(alloc: Global) -> Result<Text, Memory> {
    let mut manifest = Text::copy_of(alloc, FRONT)?;
    let mut comma = "";
    for (digits, _) in &LAYERS {
        manifest.push_str(comma)?;
        manifest.push_str(BEFORE)?;
        manifest.push_str(digits)?;
        manifest.push_str(BEHIND)?;
        comma = ",";
    }
    manifest.push_str(BACK)?;
    Ok(manifest)
}

fn bytes_of(alloc: Global, text: &str) -> Result<Many<u8>, Memory> {
    let mut bytes = Many::new(alloc);
    bytes.extend(text.as_bytes())?;
    Ok(bytes)
}

/// A registry with the image as `ns/app:1`.
fn registry(alloc: Global) -> Result<MapPeer, Memory> {
    let mut peer = MapPeer::new(alloc, PeerFraming::Chunks(3));
    let manifest = make_manifest(alloc)?;
    peer.put_manifest("ns/app", "1", SCHEMA_2, bytes_of(alloc, manifest.as_str())?)?;
    peer.put_blob("ns/app", CONFIG, bytes_of(alloc, "{}")?)?;
    for (digits, text) in &LAYERS {
        let digest = format!(in alloc; "sha256:{digits}")?;
        peer.put_blob("ns/app", digest.as_str(), bytes_of(alloc, text)?)?;
    }
    Ok(peer)
}

/// Adds the image in `src`. The digest of the configuration is that of `{}`.
fn add_image(alloc: Global, shelf: &mut Shelf) -> Result<(), Memory> {
    let manifest = make_manifest(alloc)?;
    shelf.add("/w/src/manifest.json", manifest.as_str().as_bytes())?;
    shelf.add(
        "/w/src/44136fa355b3678a1146ad16f7e8649e94fb4fc21fe77e8310c060f61caaff8a",
        b"{}",
    )?;
    for (digits, text) in &LAYERS {
        let path = format!(in alloc; "/w/src/{digits}")?;
        shelf.add(path.as_str(), text.as_bytes())?;
    }
    Ok(())
}

/// A lane with the image in a folder and at a registry, and a policy, which meets the others in this world.
fn make_lane<'w>(
    alloc: Global,
    world: &'w World,
    number: u32,
) -> Result<Lane<SureWire<MapPeer>, Meeting<'w, MemFiles>>, Memory>
    ensures { IfOk result (λ lane. lane.number ≡ number) }
{
    let mut files = MemFiles::new(alloc, Vec::new(alloc));
    files.shelf.add("/w/p", ACCEPT)?;
    add_image(alloc, &mut files.shelf)?;
    Ok(Lane {
        from: SureWire::new(alloc, registry(alloc)?, 5),
        to: SureWire::new(alloc, MapPeer::new(alloc, PeerFraming::Length), 5),
        files: Meeting {
            world,
            has_met: false,
            files,
        },
        number,
    })
}

/// So many lanes, each with files of its own.
#[tactic(auto, using(skopeo_app::proofs::NumberLemmas::one_more, skopeo_app::proofs::NumberLemmas::are_lanes))]
fn make_lanes<'w>(
    alloc: Global,
    world: &'w World,
    count: u32,
) -> Result<Vec<Lane<SureWire<MapPeer>, Meeting<'w, MemFiles>>>, Memory>
    requires count { (0 < count) × (count ≤ 16) }
    ensures { IfOk result (λ lanes. AreLanes lanes.items) }
{
    let mut lanes = Vec::new(alloc);
    for number in 0..count {
        lanes.push(make_lane(alloc, world, number)?)?;
    }
    Ok(lanes)
}

/// Words that stand between single blanks.
fn words_of(alloc: Global, text: &str) -> Result<Vec<String>, Memory> {
    let mut words = Vec::new(alloc);
    for word in text.split(' ') {
        words.push(String::from_str(alloc, word)?)?;
    }
    Ok(words)
}

fn sink(alloc: Global) -> MemSink {
    MemSink {
        written: Many::new(alloc),
        failures: Failures::new(Vec::new(alloc)),
        wants: 0,
    }
}

/// How a copy from this source over so many lanes of this world ends.
fn copy<R: Threads + Sync + AllocGlobal>(
    rt: &R,
    world: &World,
    source: &str,
    count: u32,
) -> Result<u8, Memory>
    requires count { (0 < count) × (count ≤ 16) }
{
    let alloc = rt.alloc();
    let text = format!(in alloc; "--lanes {count} --policy /w/p copy {source} dir:dst")?;
    let words = words_of(alloc, text.as_str())?;
    let mut lanes = make_lanes(alloc, world, count)?;
    Ok(skopeo(
        rt,
        alloc,
        words.as_slice(),
        "",
        "/w",
        &mut lanes,
        &mut Idle::new(),
        &mut sink(alloc),
        &mut sink(alloc),
    ))
}

/// Each lane waits at its first blob until all have begun one: on 2 and on 16 lanes they do.
#[test]
fn lanes_run_together(rt: HostRuntime) -> Result<(), Fail> {
    for count in [2u32, 16] {
        let world = World::new(count, 1_000_000_000);
        let status = copy(&rt, &world, FROM_FOLDER, count)?;
        assert_eq!(rt; status, 0, "{count}");
        assert_eq!(rt; world.begun.load(Ordering::SeqCst), u64::from(count));
        assert_eq!(rt; world.in_vain.load(Ordering::SeqCst), 0, "{count}");
    }
    Ok(())
}

/// The same from a registry.
#[test]
fn lanes_run_together_from_a_registry(rt: HostRuntime) -> Result<(), Fail> {
    for count in [2u32, 16] {
        let world = World::new(count, 1_000_000_000);
        let status = copy(&rt, &world, FROM_REGISTRY, count)?;
        assert_eq!(rt; status, 0, "{count}");
        assert_eq!(rt; world.begun.load(Ordering::SeqCst), u64::from(count));
        assert_eq!(rt; world.in_vain.load(Ordering::SeqCst), 0, "{count}");
    }
    Ok(())
}

/// One lane waits for a second in vain, and copies alone: so one thread alone does not pass for lanes that run at the same time.
#[test]
fn one_lane_waits_in_vain(rt: HostRuntime) -> Result<(), Fail> {
    let world = World::new(2, 1000);
    let status = copy(&rt, &world, FROM_FOLDER, 1)?;
    assert_eq!(rt; status, 0);
    assert_eq!(rt; world.begun.load(Ordering::SeqCst), 1);
    assert_eq!(rt; world.in_vain.load(Ordering::SeqCst), 1);
    Ok(())
}

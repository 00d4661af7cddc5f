// Copies from a registry in memory of which calls fail in turn, or memory wants.
ghost use Rattle.std.specs.Prelude.{◌≡◌, ◌<◌, ◌≤◌, IfOk};
ghost use Rattle.skopeo_outside.specs.Seen.{AreLanes};

use skopeo_app::skopeo;
use skopeo_outside::{
    Failures, Idle, Lane, Many, MapPeer, MemFiles, MemSink, MemWire, Memory, PeerFraming,
};
use std::alloc::Global;
use std::test::Fail;
use std::thread::Threads;

const COPY: &str =
    "--policy /w/p copy --src-tls-verify=false docker://reg.local:5000/ns/app:1 dir:dst";

const ACCEPT: &[u8] = b"{\"default\":[{\"type\":\"insecureAcceptAnything\"}]}";

const SCHEMA_2: &str = "application/vnd.docker.distribution.manifest.v2+json";

const CONFIG: &str = "sha256:44136fa355b3678a1146ad16f7e8649e94fb4fc21fe77e8310c060f61caaff8a";

const LAYER: &str = "sha256:ba7816bf8f01cfea414140de5dae2223b00361a396177a9cb410ff61f20015ad";

// One layer of three bytes: 419 bytes.
const ONE: &[u8] =
    b"{\"config\":{\"digest\":\"sha256:44136fa355b3678a1146ad16f7e8649e94fb4fc21fe77e8310c060f61caaff8a\",\"mediaType\":\"application/vnd.docker.container.image.v1+json\",\"size\":2},\"layers\":[{\"digest\":\"sha256:ba7816bf8f01cfea414140de5dae2223b00361a396177a9cb410ff61f20015ad\",\"mediaType\":\"application/vnd.docker.image.rootfs.diff.tar.gzip\",\"size\":3}],\"mediaType\":\"application/vnd.docker.distribution.manifest.v2+json\",\"schemaVersion\":2}";

const ONE_LINES: &[u8] =
    b"blob sha256:44136fa355b3678a1146ad16f7e8649e94fb4fc21fe77e8310c060f61caaff8a 2\nblob sha256:ba7816bf8f01cfea414140de5dae2223b00361a396177a9cb410ff61f20015ad 3\nmanifest sha256:6f4ae0e460fc061eda59a248a3835ab7f0c67e4a0eb6486b5e30f870ea4ce68a 419 application/vnd.docker.distribution.manifest.v2+json\n";

const NO_SOURCE: &[u8] =
    b"skopeo: 17 NoSource attempts=1\nattempt 1 source=\"reg.local:5000/ns/app:1\" 40 Wire faults=1\n";

/// Which lane's call fails, and of what: a lane's wire or its files. A call is counted from 1, and 0 is none.
#[derive(Clone, Copy)]
struct Failing {
    lane: u32,
    wire: u64,
    file: u64,
}

/// How a copy ended, and what it left.
#[derive(Drop)]
struct Left {
    status: u8,
    lanes: Vec<Lane<MemWire<MapPeer>, MemFiles>>,
    out: MemSink,
    err: MemSink,
}

impl Left {
    fn manifest(&self) -> Option<&[u8]> {
        match self.lanes.first() {
            Some(lane) => lane.files.shelf.get("/w/dst/manifest.json"),
            None => None,
        }
    }

    /// Whether a call of some lane failed.
    fn has_failed(&self) -> bool {
        for lane in &self.lanes {
            if lane.files.failures.count > 0 || lane.from.failures.count > 0 {
                return true;
            }
        }
        false
    }

    fn tells(&self, line: &[u8]) -> bool {
        self.err.written.as_slice().starts_with(line)
    }
}

fn bytes_of(alloc: Global, bytes: &[u8]) -> Result<Many<u8>, Memory> {
    let mut many = Many::new(alloc);
    many.extend(bytes)?;
    Ok(many)
}

fn one_of(alloc: Global, call: u64) -> Result<Vec<u64>, Memory> {
    let mut failing = Vec::new(alloc);
    failing.push(call)?;
    Ok(failing)
}

/// A registry with the image.
fn registry(alloc: Global) -> Result<MapPeer, Memory> {
    let mut peer = MapPeer::new(alloc, PeerFraming::Chunks(2));
    peer.put_manifest("ns/app", "1", SCHEMA_2, bytes_of(alloc, ONE)?)?;
    peer.put_blob("ns/app", CONFIG, bytes_of(alloc, b"{}")?)?;
    peer.put_blob("ns/app", LAYER, bytes_of(alloc, b"abc")?)?;
    Ok(peer)
}

fn files_with(alloc: Global, call: u64) -> Result<MemFiles, Memory> {
    let mut files = MemFiles::new(alloc, one_of(alloc, call)?);
    files.shelf.add("/w/p", ACCEPT)?;
    Ok(files)
}

fn make_lane(
    alloc: Global,
    number: u32,
    wire: u64,
    file: u64,
) -> Result<Lane<MemWire<MapPeer>, MemFiles>, Memory>
    ensures { IfOk result (λ lane. lane.number ≡ number) }
{
    let to = MapPeer::new(alloc, PeerFraming::Length);
    Ok(Lane {
        from: MemWire::new(alloc, registry(alloc)?, 100, one_of(alloc, wire)?),
        to: MemWire::new(alloc, to, 100, Vec::new(alloc)),
        files: files_with(alloc, file)?,
        number,
    })
}

/// So many lanes, of which a call of one fails.
#[tactic(auto, using(skopeo_app::proofs::NumberLemmas::one_more, skopeo_app::proofs::NumberLemmas::are_lanes))]
fn make_lanes(
    alloc: Global,
    count: u32,
    failing: Failing,
) -> Result<Vec<Lane<MemWire<MapPeer>, MemFiles>>, Memory>
    requires count { (0 < count) × (count ≤ 16) }
    ensures { IfOk result (λ lanes. AreLanes lanes.items) }
{
    let mut lanes = Vec::new(alloc);
    for number in 0..count {
        let fails = number == failing.lane;
        let wire = if fails { failing.wire } else { 0 };
        let file = if fails { failing.file } else { 0 };
        lanes.push(make_lane(alloc, number, wire, file)?)?;
    }
    Ok(lanes)
}

fn words_of(alloc: Global, text: &str) -> Result<Vec<String>, Memory> {
    let mut words = Vec::new(alloc);
    for word in text.split(' ') {
        words.push(String::from_str(alloc, word)?)?;
    }
    Ok(words)
}

/// A sink that has room for its bytes ahead.
fn sink(alloc: Global) -> Result<MemSink, Memory> {
    Ok(MemSink {
        written: Many::from_vec(Vec::with_capacity(alloc, 4096)?),
        failures: Failures::new(Vec::new(alloc)),
        wants: 0,
    })
}

/// Runs a copy over so many lanes.
fn copy<R: Threads + Sync + AllocGlobal>(rt: &R, count: u32, failing: Failing) -> Result<Left, Fail>
    requires count { (0 < count) × (count ≤ 16) }
{
    let alloc = rt.alloc();
    let words = words_of(alloc, COPY)?;
    let mut lanes = make_lanes(alloc, count, failing)?;
    let mut out = sink(alloc)?;
    let mut err = sink(alloc)?;
    let status = skopeo(
        rt,
        alloc,
        words.as_slice(),
        "",
        "/w",
        &mut lanes,
        &mut Idle::new(),
        &mut out,
        &mut err,
    );
    Ok(Left {
        status,
        lanes,
        out,
        err,
    })
}

/// Whether a copy met no fault and ended with 0, or ended with 3 and the line of its fault, or with that of the source.
fn ends_so(left: &Left) -> bool {
    if !left.has_failed() {
        return left.status == 0 && left.manifest() == Some(ONE);
    }
    if left.manifest().is_some() {
        return false;
    }
    match left.status {
        1 => left.err.written.as_slice() == NO_SOURCE,
        3 => left.tells(b"skopeo: 40 Wire job=") || left.tells(b"skopeo: 41 Files "),
        _ => false,
    }
}

/// Each call of the wire fails in turn. The manifest takes more than 5 calls, and a copy more than 15.
#[test]
fn ends_so_at_each_fault_of_the_wire(rt: HostRuntime) -> Result<(), Fail> {
    for call in 1..60u64 {
        let left = copy(
            &rt,
            1,
            Failing {
                lane: 0,
                wire: call,
                file: 0,
            },
        )?;
        assert!(rt; ends_so(&left), "{call}");
        assert!(rt; left.status == 1 || call > 5, "{call}");
        assert!(rt; left.status != 0 || call > 15, "{call}");
    }
    Ok(())
}

/// The same for the files, into which the image is written.
#[test]
fn ends_so_at_each_fault_of_the_files(rt: HostRuntime) -> Result<(), Fail> {
    for call in 1..40u64 {
        let left = copy(
            &rt,
            1,
            Failing {
                lane: 0,
                wire: 0,
                file: call,
            },
        )?;
        assert!(rt; ends_so(&left), "{call}");
        assert!(rt; left.status == 3 || call > 10, "{call}");
    }
    Ok(())
}

/// The same on four lanes, for each of them in turn.
#[test]
fn ends_so_at_each_fault_of_four_lanes(rt: HostRuntime) -> Result<(), Fail> {
    for lane in 0..4u32 {
        for call in 1..30u64 {
            let left = copy(
                &rt,
                4,
                Failing {
                    lane,
                    wire: call,
                    file: 0,
                },
            )?;
            assert!(rt; ends_so(&left), "wire {lane} {call}");
            let left = copy(
                &rt,
                4,
                Failing {
                    lane,
                    wire: 0,
                    file: call,
                },
            )?;
            assert!(rt; ends_so(&left), "files {lane} {call}");
        }
    }
    Ok(())
}

/// Each allocation may be refused in turn from outside: the status is then 4, and no manifest stands.
#[test]
fn ends_with_four_where_memory_wants(rt: HostRuntime) -> Result<(), Fail> {
    let left = copy(
        &rt,
        1,
        Failing {
            lane: 0,
            wire: 0,
            file: 0,
        },
    )?;
    if left.status == 0 {
        assert_eq!(rt; left.out.written.as_slice(), ONE_LINES);
        assert_eq!(rt; left.manifest(), Some(ONE));
        return Ok(());
    }
    assert_eq!(rt; left.status, 4);
    assert_eq!(rt; left.out.written.len(), 0);
    assert_eq!(rt; left.manifest(), None);
    Ok(())
}

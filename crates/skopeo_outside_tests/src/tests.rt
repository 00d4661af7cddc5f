// A wire in memory of which a call fails.
use skopeo_outside::{Many, MapPeer, MemWire, Memory, PeerFraming, Stop, Wire};
use std::alloc::Global;
use std::test::Fail;

/// A wire to a registry with one manifest, in pieces of 8 bytes. The call of this number fails.
fn wire_to(alloc: Global, failing: u64) -> Result<MemWire<MapPeer>, Memory> {
    let mut calls = Vec::new(alloc);
    calls.push(failing)?;
    let mut peer = MapPeer::new(alloc, PeerFraming::Length);
    peer.put_manifest("ns/app", "1", "a/m", Many::new(alloc))?;
    Ok(MemWire::new(alloc, peer, 8, calls))
}

/// How many bytes a wire gives for a request.
fn received<W: Wire>(wire: &mut W) -> Result<usize, Stop> {
    let mut sum = 0usize;
    let mut piece = [0; 16];
    wire.connect("h", 80)?;
    wire.send(b"GET /v2/ns/app/manifests/1 HTTP/1.1\r\n\r\n")?;
    for _ in 0..100 {
        let count = wire.recv(&mut piece)?;
        if count == 0 {
            return Ok(sum);
        }
        sum = sum.wrapping_add(count);
    }
    Ok(sum)
}

/// Each of the first calls fails in turn: to connect, to send, and twice to receive. The rest are whole.
#[test]
fn fails_where_a_call_fails(rt: HostRuntime) -> Result<(), Fail> {
    for call in 1..5u64 {
        let mut wire = wire_to(rt.alloc(), call)?;
        assert_eq!(rt; received(&mut wire), Err(Stop::Fault), "{call}");
        assert_eq!(rt; wire.faults(), 1, "{call}");
    }
    let mut wire = wire_to(rt.alloc(), 100)?;
    assert_eq!(rt; received(&mut wire), Ok(57));
    assert_eq!(rt; wire.faults(), 0);
    Ok(())
}

use real_wires::{Note, RealWire};
use skopeo_outside::{Stop, Wire};
use std::alloc::Global;
use std::io::{Read, Write};
use std::net::{Ipv4Addr, TcpListener, TcpStream};
use std::test::Fail;

// A note as a text, and no text where there is none.
fn text_of(alloc: Global, note: Option<&Note>) -> Result<String, Fail> {
    match note {
        Some(note) => Ok(format!(in alloc; "{note}")?),
        None => Ok(String::new(alloc)),
    }
}

// What is sent comes to the other end, what that writes is received, and its end is an end.
#[test]
fn talks(rt: HostRuntime) -> Result<(), Fail> {
    let listener = TcpListener::bind(&rt, (Ipv4Addr::LOCALHOST, 0u16))?;
    let port = listener.local_addr()?.port();
    let mut wire = RealWire::new(&rt);
    assert_eq!(rt; wire.connect("127.0.0.1", port), Ok(()));
    let (mut peer, _) = listener.accept()?;
    assert_eq!(rt; wire.send(b"ask"), Ok(()));
    let mut asked = [0u8; 8];
    assert_eq!(rt; peer.read(&mut asked)?, 3);
    assert_eq!(rt; &asked[..3], b"ask".as_slice());
    peer.write_all(b"answer")?;
    let mut into = [0u8; 16];
    assert_eq!(rt; wire.recv(&mut into), Ok(6));
    assert_eq!(rt; &into[..6], b"answer".as_slice());
    drop(peer);
    assert_eq!(rt; wire.recv(&mut into), Ok(0));
    wire.close();
    assert_eq!(rt; wire.faults(), 0);
    assert!(rt; wire.note().is_none());
    Ok(())
}

// Nobody listens: the fault is counted, and the first is noted with its peer.
#[test]
fn is_refused(rt: HostRuntime) -> Result<(), Fail> {
    let listener = TcpListener::bind(&rt, (Ipv4Addr::LOCALHOST, 0u16))?;
    let port = listener.local_addr()?.port();
    drop(listener);
    let mut wire = RealWire::new(&rt);
    assert_eq!(rt; wire.connect("127.0.0.1", port), Err(Stop::Fault));
    assert_eq!(rt; wire.connect("127.0.0.1", port), Err(Stop::Fault));
    assert_eq!(rt; wire.faults(), 2);
    let wanted = format!(in rt.alloc(); "connect 127.0.0.1:{port}: connection refused")?;
    assert_eq!(rt; text_of(rt.alloc(), wire.note())?, wanted);
    Ok(())
}

// A connection that is closed by `connect` is an end to its peer, and the next one is another.
#[test]
fn begins_anew(rt: HostRuntime) -> Result<(), Fail> {
    let listener = TcpListener::bind(&rt, (Ipv4Addr::LOCALHOST, 0u16))?;
    let port = listener.local_addr()?.port();
    let mut wire = RealWire::new(&rt);
    assert_eq!(rt; wire.connect("localhost", port), Ok(()));
    let (mut first, _) = listener.accept()?;
    assert_eq!(rt; wire.connect("127.0.0.1", port), Ok(()));
    let (mut second, _) = listener.accept()?;
    let mut asked = [0u8; 4];
    assert_eq!(rt; first.read(&mut asked)?, 0);
    assert_eq!(rt; wire.send(b"two"), Ok(()));
    assert_eq!(rt; second.read(&mut asked)?, 3);
    Ok(())
}

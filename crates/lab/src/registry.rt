// The registry's listener: one connection after the other.
ghost use Rattle.std.specs.Prelude.{◌≡◌};

use lab_registry::{Unanswered, answer_request, hold_image};
use skopeo_outside::{MapPeer, Memory};
use std::alloc::Global;
use std::fmt::{Display, Formatter};
use std::io::{BufReader, Eprint, ErrorKind};
use std::net::{Ipv4Addr, Net, TcpListener, TcpStream};
use std::{fmt, io};

/// Why the registry ended before it had answered as many connections as it was to.
#[derive(Debug, Drop)]
pub enum Unserved {
    /// It cannot listen at its port, or takes no more connections.
    Network(io::Error),
    Memory,
}

impl From<Memory> for Unserved {
    fn from(_: Memory) -> Self {
        Unserved::Memory
    }
}

impl From<io::Error> for Unserved {
    fn from(error: io::Error) -> Self {
        Unserved::Network(error)
    }
}

impl Display for Unserved {
    fn fmt<W: fmt::Write>(&self, f: &mut Formatter<W>) -> fmt::Result {
        match self {
            Unserved::Network(error) => write!(f, "{error}"),
            Unserved::Memory => f.write_str("out of memory"),
        }
    }
}

/// Reads one request from a connection, and answers it.
fn answer_stream(
    alloc: Global,
    peer: &mut MapPeer,
    port: u16,
    stream: &TcpStream,
) -> Result<(), Unanswered>
    ensures { peer.new ≡ peer.old }
{
    let mut from = BufReader::new(alloc, stream)?;
    let mut to = stream;
    answer_request(alloc, peer, port, &mut from, &mut to)
}

/// Answers the next connection that asks for something. One that does not is told of, and counts for nothing.
fn answer_next<R: Eprint + AllocGlobal>(
    rt: &R,
    listener: &TcpListener,
    peer: &mut MapPeer,
    port: u16,
) -> Result<(), Unserved>
    ensures { peer.new ≡ peer.old }
{
    for stream in listener.incoming() {
        let stream = stream?;
        match answer_stream(rt.alloc(), peer, port, &stream) {
            Ok(()) => return Ok(()),
            Err(why) => {
                let _ = eprintln!(rt; "lab: a connection was not answered: {why}");
            }
        }
    }
    Err(Unserved::Network(ErrorKind::TimedOut.into()))
}

/// Answers so many connections, one after the other, from the image that it holds.
pub fn run_registry<R: Net<Listener = TcpListener, Stream = TcpStream> + Eprint + AllocGlobal>(
    rt: &R,
    port: u16,
    count: u32,
) -> Result<(), Unserved> {
    let mut peer = hold_image(rt.alloc())?;
    let listener = TcpListener::bind(rt, (Ipv4Addr::LOCALHOST, port))?;
    for _ in 0..count {
        answer_next(rt, &listener, &mut peer, port)?;
    }
    Ok(())
}

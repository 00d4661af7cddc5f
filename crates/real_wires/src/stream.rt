// The system's streams: how one is opened, written and read.
ghost use Rattle.std.specs.Prelude.{◌≤◌, IfOk, length};

use std::io;
use std::io::{ErrorKind, Read, Write};
use std::net::{Net, OpenStream, SocketAddr, ToSocketAddrs};
use std::time::Duration;

/// How long a host may take to answer that it is there, in seconds.
const PATIENCE: u64 = 30;

/// A connection to one address. What is sent goes at once, and no small piece waits for another.
fn open_at<R: Net>(rt: &R, address: SocketAddr) -> io::Result<R::Stream> {
    let stream = rt.connect_timeout(address, Duration::from_secs(PATIENCE))?;
    let _ = stream.set_nodelay(true);
    Ok(stream)
}

/// A connection to the first address of a host that answers, or the last error.
pub fn open_stream<R: Net>(rt: &R, host: &str, port: u16) -> io::Result<R::Stream> {
    let mut last = io::Error::from(ErrorKind::NotFound);
    for address in (host, port).to_socket_addrs(rt)? {
        match open_at(rt, address) {
            Ok(stream) => return Ok(stream),
            Err(error) => last = error,
        }
    }
    Err(last)
}

/// Sends all the bytes, again where a signal interrupted it.
pub fn send_all<S: Write>(stream: &mut S, bytes: &[u8]) -> io::Result<()> {
    stream.write_all(bytes)
}

/// Receives once, and again where a signal interrupted it.
pub fn receive_some<S: Read>(stream: &mut S, into: &mut [u8]) -> io::Result<usize>
    ensures { IfOk result (λ count. count ≤ length into.old) }
{
    for _ in 0..u64::MAX {
        match stream.read(into) {
            Ok(count) => return Ok(count),
            Err(error) => {
                if error.kind() != ErrorKind::Interrupted {
                    return Err(error);
                }
            }
        }
    }
    Err(io::Error::from(ErrorKind::TimedOut))
}

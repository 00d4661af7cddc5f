// A wire and helper on which every call fails, and a wire round a wire.
ghost use Rattle.std.specs.Prelude.{◌≡◌, ◌≤◌, None, IsErrOf, IsFalse};
ghost use Rattle.skopeo_outside.specs.Outside.{HasCause};
ghost use Rattle.skopeo_outside.specs.Failing.{risen};

use crate::helper::Helper;
use crate::lists::Many;
use crate::stop::Stop;
use crate::wire::Wire;

/// A wire and helper that tells nothing and on which every call fails.
#[derive(Drop)]
pub struct Idle {
    pub count: u64,
    pub connected: bool,
}

impl Idle {
    /// An object none of whose calls has failed yet.
    pub fn new() -> Self
        ensures count { result.count ≡ 0 }
        ensures closed { IsFalse result.connected }
    {
        Idle {
            count: 0,
            connected: false,
        }
    }

    /// Counts a fault.
    fn fail(&mut self) -> Stop
        ensures fault { result ≡ Stop.Fault }
        ensures count { self.new.count ≡ risen self.old.count }
        ensures later { self.old.count ≤ self.new.count }
    {
        self.count = self.count.saturating_add(1);
        Stop::Fault
    }
}

impl Wire for Idle {
    ghost conversations = { λ _. None };

    ghost is_open = { λ w. w.connected };

    ghost faults = { λ w. w.count };

    fn connect(&mut self, _host: &str, _port: u16) -> Result<(), Stop>
        ensures fails { IsErrOf result Stop.Fault }
        ensures count { self.new.count ≡ risen self.old.count }
        ensures cause { HasCause self.old.count self.new.count result }
    {
        Err(self.fail())
    }

    fn send(&mut self, _bytes: &[u8]) -> Result<(), Stop>
        ensures fails { IsErrOf result Stop.Fault }
        ensures count { self.new.count ≡ risen self.old.count }
        ensures cause { HasCause self.old.count self.new.count result }
    {
        Err(self.fail())
    }

    fn recv(&mut self, _into: &mut [u8]) -> Result<usize, Stop>
        ensures fails { IsErrOf result Stop.Fault }
        ensures count { self.new.count ≡ risen self.old.count }
        ensures cause { HasCause self.old.count self.new.count result }
    {
        Err(self.fail())
    }

    fn close(&mut self) {
        self.connected = false;
    }

    fn faults(&self) -> u64 {
        self.count
    }
}

impl Helper for Idle {
    ghost runs = { λ _. None };

    ghost faults = { λ w. w.count };

    fn run(
        &mut self,
        _program: &str,
        _input: &[u8],
        _limit: usize,
        _answer: &mut Many<u8>,
    ) -> Result<i32, Stop>
        ensures fails { IsErrOf result Stop.Fault }
        ensures count { self.new.count ≡ risen self.old.count }
        ensures cause { HasCause self.old.count self.new.count result }
    {
        Err(self.fail())
    }

    fn faults(&self) -> u64 {
        self.count
    }
}

/// A wire that passes each call on to another.
#[derive(Drop)]
pub struct Passing<W: Wire + Drop> {
    pub inner: W,
}

impl<W: Wire + Drop> Wire for Passing<W> {
    ghost conversations = { λ p. W.conversations p.inner };

    ghost is_open = { λ p. W.is_open p.inner };

    ghost faults = { λ p. W.faults p.inner };

    fn connect(&mut self, host: &str, port: u16) -> Result<(), Stop> {
        self.inner.connect(host, port)
    }

    fn send(&mut self, bytes: &[u8]) -> Result<(), Stop> {
        self.inner.send(bytes)
    }

    fn recv(&mut self, into: &mut [u8]) -> Result<usize, Stop> {
        self.inner.recv(into)
    }

    fn close(&mut self) {
        self.inner.close();
    }

    fn faults(&self) -> u64 {
        self.inner.faults()
    }
}

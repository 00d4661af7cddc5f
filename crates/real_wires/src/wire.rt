// Real connections behind the trait. They tell no conversations.
ghost use Rattle.std.specs.Prelude.{◌≡◌, ◌≤◌, ◌<◌, ◌↔◌, ℕ, true, false, None, Ok, OnOk, IfOk, IsSome, IsErrOf, length};
ghost use Rattle.skopeo_outside.specs.Outside.{HasCause, Rose};
ghost use Rattle.real_wires.specs.Counted.{one_more};
ghost use Rattle.real_wires.specs.Told.{WireIs};

use crate::note::{Call, Note};
use crate::stream::{open_stream, receive_some, send_all};
use skopeo_outside::{Stop, Wire};
use std::alloc::AllocError;
use std::io;
use std::io::ErrorKind;
use std::marker::Model;
use std::net::Net;

/// Real connections, one at a time, with a count of the calls that failed and a note of the first.
#[derive(Drop)]
pub struct RealWire<'r, R: Net + AllocGlobal> {
    rt: &'r R,
    stream: Option<R::Stream>,
    /// The host and port that the last connection was asked of.
    peer: String,
    faults: u64,
    note: Option<Note>,
}

/// Seen as the count of faults and whether a connection is open. There is a note exactly where there was a fault.
impl<'r, R: Net + AllocGlobal> Model for RealWire<'r, R> {
    ghost use Rattle.std.specs.Prelude.{◌↔◌, ◌<◌, IsSome, is_some};
    ghost use Rattle.real_wires.specs.Told.{WireIs};

    ghost Value = { WireIs };

    ghost view = { λ w. record { count = w.faults; is_up = is_some w.stream } };

    ghost invariant = { λ w. IsSome w.note ↔ (0 < w.faults) };
}

impl<'r, R: Net + AllocGlobal> RealWire<'r, R> {
    /// No connection is open and no call has failed.
    pub fn new(rt: &'r R) -> Self
        ensures count { result.count ≡ 0 }
        ensures closed { result.is_up ≡ false }
    {
        RealWire {
            rt,
            stream: None,
            peer: String::new(rt.alloc()),
            faults: 0,
            note: None,
        }
    }

    /// The first call that failed.
    pub fn note(&self) -> Option<&Note>
        ensures { IsSome result ↔ (0 < self.now.count) }
    {
        self.note.as_ref()
    }

    /// Counts a fault, and notes the first.
    fn count(&mut self, call: Call, error: &io::Error)
        ensures exact { self.new.count ≡ one_more self.old.count }
        ensures later { self.old.count ≤ self.new.count }
        ensures rose { Rose self.old.count self.new.count }
        ensures same { self.new.is_up ≡ self.old.is_up }
    {
        let faults = self.faults.saturating_add(1);
        if self.note.is_none() {
            self.note = Some(Note::new(self.rt.alloc(), call, self.peer.as_str(), error));
        }
        self.faults = faults;
    }

    /// What a call answers for what the system answered: want of memory is no fault.
    fn answer<T>(&mut self, call: Call, answer: io::Result<T>) -> Result<T, Stop>
        ensures value { IfOk result (λ value. answer ≡ Ok value) }
        ensures calm { OnOk result (self.new ≡ self.old) }
        ensures memory { IsErrOf result Stop.Memory → self.new ≡ self.old }
        ensures fault { IsErrOf result Stop.Fault → self.new.count ≡ one_more self.old.count }
        ensures cause { HasCause self.old.count self.new.count result }
    {
        match answer {
            Ok(value) => Ok(value),
            Err(error) => {
                if error.kind() == ErrorKind::OutOfMemory {
                    return Err(Stop::Memory);
                }
                self.count(call, &error);
                Err(Stop::Fault)
            }
        }
    }

    /// Keeps the host and port for a note.
    fn name_peer(&mut self, host: &str, port: u16) -> Result<(), AllocError>
        ensures { self.new ≡ self.old }
    {
        self.peer = format!(in self.rt.alloc(); "{host}:{port}")?;
        Ok(())
    }
}

impl<'r, R: Net + AllocGlobal> Wire for RealWire<'r, R> {
    ghost conversations = { λ _. None };

    ghost is_open = { λ w. w.is_up };

    ghost faults = { λ w. w.count };

    fn connect(&mut self, host: &str, port: u16) -> Result<(), Stop> {
        self.stream = None;
        if self.name_peer(host, port).is_err() {
            return Err(Stop::Memory);
        }
        let opened = open_stream(self.rt, host, port);
        let stream = self.answer(Call::Connect, opened)?;
        self.stream = Some(stream);
        Ok(())
    }

    fn send(&mut self, bytes: &[u8]) -> Result<(), Stop> {
        let Some(stream) = &mut self.stream else {
            return Err(Stop::Memory);
        };
        let sent = send_all(stream, bytes);
        self.answer(Call::Send, sent)
    }

    fn recv(&mut self, into: &mut [u8]) -> Result<usize, Stop> {
        let Some(stream) = &mut self.stream else {
            return Err(Stop::Memory);
        };
        let received = receive_some(stream, into);
        self.answer(Call::Receive, received)
    }

    fn close(&mut self) {
        self.stream = None;
    }

    fn faults(&self) -> u64 {
        self.faults
    }
}

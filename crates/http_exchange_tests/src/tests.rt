// Exchanges over a wire of which a call fails.
ghost use Rattle.std.specs.Prelude.{◌≡◌, None, IsTrue};
ghost use Rattle.http_exchange.specs.Reader.{IsReady};

use http::Method;
use http_exchange::{Answer, exchange, next_piece, open};
use http_message::{ExchangeFault, Request, may_send};
use skopeo_outside::{Many, MemWire, Memory, Peer, Step, Text, Wire};
use std::alloc::Global;
use std::test::Fail;

const MOVED: &[u8] = b"HTTP/1.1 302 Found\r\nLocation: /x\r\n\r\n";

const BODY: &[u8] = b"HTTP/1.1 200 OK\r\nContent-Length: 3\r\n\r\nabc";

/// A peer that gives one answer to the first connection, and another to the next ones.
#[derive(Drop)]
struct Answers {
    first: &'static [u8],
    next: &'static [u8],
}

impl Peer for Answers {
    fn answer(
        &mut self,
        _host: &str,
        _port: u16,
        _sent: &[u8],
        into: &mut Many<u8>,
    ) -> Result<(), Memory> {
        let answer = self.first;
        self.first = self.next;
        into.extend(answer)
    }
}

/// A wire of which the call of this number fails.
fn wire_to(
    alloc: Global,
    first: &'static [u8],
    piece: usize,
    failing: u64,
) -> Result<MemWire<Answers>, Memory> {
    let mut calls = Vec::new(alloc);
    calls.push(failing)?;
    Ok(MemWire::new(alloc, Answers { first, next: BODY }, piece, calls))
}

fn get(alloc: Global) -> Result<Request, Memory> {
    Ok(Request {
        method: Method::GET,
        host: Text::copy_of(alloc, "reg.local:5000")?,
        port: 5000,
        target: Text::copy_of(alloc, "/v2/")?,
        accept: false,
        content_type: None,
        length: None,
    })
}

fn word_of(fault: &ExchangeFault) -> &'static str {
    match fault {
        ExchangeFault::Wire => "wire",
        _ => "other",
    }
}

/// What a GET comes to that is redirected once, and how many calls failed.
fn redirected(alloc: Global, failing: u64) -> Result<(&'static str, u64), Memory> {
    let mut wire = wire_to(alloc, MOVED, 8192, failing)?;
    let request = get(alloc)?;
    if !may_send(&request, 0) {
        return Err(Memory);
    }
    let result = exchange(alloc, &mut wire, &request, Step::Blob, &[], 20);
    let word = match &result {
        Ok(response) => {
            if response.body.as_slice() == b"abc".as_slice() {
                "whole"
            } else {
                "cut"
            }
        }
        Err(fault) => word_of(fault),
    };
    Ok((word, wire.faults()))
}

/// Two connections have eight calls: to connect, to send the head and the body, and to receive.
#[test]
fn each_call_failing_in_turn(rt: HostRuntime) -> Result<(), Fail> {
    for call in 1..9u64 {
        assert_eq!(rt; redirected(rt.alloc(), call)?, ("wire", 1), "{call}");
    }
    assert_eq!(rt; redirected(rt.alloc(), 9)?, ("whole", 0));
    Ok(())
}

/// How many bytes of the body are given before its end or a fault, and the word of that.
fn given<W: Wire>(alloc: Global, wire: &mut W, answer: &mut Answer) -> (usize, &'static str)
    requires open { IsReady answer.old.reader (W.is_open wire.old) }
{
    let mut into = [0; 1];
    for count in 0..10 {
        match next_piece(alloc, wire, answer, &mut into) {
            Ok(more) => {
                if more == 0 {
                    return (count, "end");
                }
            }
            Err(fault) => return (count, word_of(&fault)),
        }
    }
    (10, "no end")
}

fn given_by(alloc: Global, failing: u64) -> Result<(usize, &'static str), Memory> {
    let mut wire = wire_to(alloc, BODY, 20, failing)?;
    let request = get(alloc)?;
    if !may_send(&request, 0) {
        return Err(Memory);
    }
    match open(alloc, &mut wire, &request, Step::Blob) {
        Ok(mut answer) => Ok(given(alloc, &mut wire, &mut answer)),
        Err(fault) => Ok((0, word_of(&fault))),
    }
}

/// The head comes with the fourth and fifth call, and with it two bytes of the body; the third comes with the sixth.
#[test]
fn a_failing_piece_is_the_wires(rt: HostRuntime) -> Result<(), Fail> {
    assert_eq!(rt; given_by(rt.alloc(), 4)?, (0, "wire"));
    assert_eq!(rt; given_by(rt.alloc(), 5)?, (0, "wire"));
    assert_eq!(rt; given_by(rt.alloc(), 6)?, (2, "wire"));
    assert_eq!(rt; given_by(rt.alloc(), 7)?, (3, "end"));
    Ok(())
}

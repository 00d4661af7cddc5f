// A request, and the redirects that are followed from it.
ghost use Rattle.std.specs.Prelude.{◌≡◌, ◌==◌, ◌&&◌, ◌||◌, ◌≤◌, [], map, None, codes, length, IfOk, IsTrue, OnOk};
ghost use Rattle.http_message.specs.Requests.{MaySend};
ghost use Rattle.http_message.specs.Shown.{field_bytes};
ghost use Rattle.http_message.specs.Sent.{is_text};
ghost use Rattle.http_message.specs.Spelling.{told_headers};
ghost use Rattle.http_exchange.specs.Reader.{fresh};
ghost use Rattle.http_exchange.specs.Talk.{is_get};
ghost use Rattle.http_exchange.specs.Locations.{lead_in};
ghost use Rattle.http_exchange.specs.Leads.{shown_lead};
ghost use Rattle.http_exchange.specs.Chain.{is_redirect, redirects, request_at};
ghost use Rattle.http_exchange.specs.Opened.{Chained, CountsWire};
ghost use Rattle.http_exchange.specs.Hopping.{NextOr, IsShown, kept_location};
ghost use Rattle.http_message.specs.declared.fault.AnswerFault.{AnswerFault};

use crate::ask::{ask, is_get, is_head};
use crate::location::{Lead, lead_in, shown_location};
use crate::stream::Body;
use http_message::{AnswerFault, ExchangeFault, Head, Request, told_headers};
use skopeo_outside::{Many, Memory, Step, Text, Wire};
use std::alloc::Global;

/// Whether a status redirects.
fn is_redirect(status: u16) -> bool
    ensures { result ≡ is_redirect status }
{
    status == 301 || (status == 302 || (status == 303 || (status == 307 || status == 308)))
}

/// Whether an answer of this status redirects the request.
fn redirects(request: &Request, status: u16) -> bool
    ensures { result ≡ redirects request.now status }
{
    (is_get(request) || is_head(request)) && is_redirect(status)
}

/// The fault of a step whose conversation began with these bytes. Want of memory may hide it.
pub fn shown_fault(alloc: Global, step: Step, first: &[u8], fault: AnswerFault) -> ExchangeFault
    ensures { IsShown step first.now fault result }
{
    let mut shown = Many::new(alloc);
    match shown.extend(first) {
        Ok(()) => ExchangeFault::of(step, shown, fault),
        Err(_) => ExchangeFault::Memory,
    }
}

/// Where the answer with this head leads.
fn lead_of_head(alloc: Global, request: &Request, head: &Head) -> Result<Lead, Memory>
    ensures { IfOk result (λ lead. shown_lead lead ≡ lead_in request.now.host request.now.port (told_headers (map field_bytes head.now.fields.items))) }
{
    let headers = told_headers(alloc, &head.fields)?;
    lead_in(
        alloc,
        request.host.as_str(),
        request.port,
        headers.as_slice(),
    )
}

/// The first bytes of the location of a head, and none where it is absent.
fn kept_location(alloc: Global, head: &Head) -> Result<Many<u8>, Memory>
    ensures { IfOk result (λ first. first ≡ kept_location head.now) }
{
    let headers = told_headers(alloc, &head.fields)?;
    shown_location(alloc, headers.as_slice())
}

/// The fault of a redirect that leads nowhere. Want of memory may hide it.
fn stray_fault(alloc: Global, step: Step, head: &Head) -> ExchangeFault
    ensures { IsShown step (kept_location head.now) AnswerFault.BadAnswer result }
{
    match kept_location(alloc, head) {
        Ok(first) => ExchangeFault::of(step, first, AnswerFault::BadAnswer),
        Err(_) => ExchangeFault::Memory,
    }
}

/// A copy of an optional text.
fn copy_of(alloc: Global, text: &Option<Text>) -> Result<Option<Text>, Memory>
    ensures { IfOk result (λ copy. copy ≡ text.now) }
{
    match text {
        Some(text) => Ok(Some(Text::copy_of(alloc, text.as_str())?)),
        None => Ok(None),
    }
}

/// The same request of another place.
fn request_at(
    alloc: Global,
    request: &Request,
    host: Text,
    port: u16,
    target: Text,
) -> Result<Request, Memory>
    ensures { IfOk result (λ next. next ≡ request_at request.now host port target) }
{
    Ok(Request {
        method: request.method.clone()?,
        host,
        port,
        target,
        accept: request.accept,
        content_type: copy_of(alloc, &request.content_type)?,
        length: request.length,
    })
}

/// The request that an answer redirects to, where it redirects, and so many more redirects may be followed.
fn next_request(
    alloc: Global,
    step: Step,
    request: &Request,
    head: &Head,
    left: u32,
) -> Result<Option<Request>, ExchangeFault>
    ensures { NextOr step request.now head.now left result }
{
    if !redirects(request, head.status) {
        return Ok(None);
    }
    if left == 0 {
        return Err(ExchangeFault::TooManyRedirects);
    }
    match lead_of_head(alloc, request, head) {
        Ok(Lead::Plain(host, port, target)) => {
            match request_at(alloc, request, host, port, target) {
                Ok(next) => Ok(Some(next)),
                Err(_) => Err(ExchangeFault::Memory),
            }
        }
        Ok(Lead::Tls(host)) => Err(ExchangeFault::TlsRequired(host)),
        Ok(Lead::Nowhere) => Err(stray_fault(alloc, step, head)),
        Err(_) => Err(ExchangeFault::Memory),
    }
}

/// Asks, and follows so many redirects.
pub fn follow<W: Wire>(
    alloc: Global,
    wire: &mut W,
    step: Step,
    request: &Request,
    body: &[u8],
    reader: &mut Body,
    left: u32,
) -> Result<Head, ExchangeFault>
    requires may { MaySend request.now (length body.now) }
    requires fresh { reader.old ≡ fresh }
    ensures open { OnOk result (IsTrue (W.is_open wire.new)) }
    ensures alive { reader.new.failed ≡ None }
    ensures chained { Chained step request.now body.now left (W.conversations wire.old) (W.conversations wire.new) reader.new result }
    ensures faults { CountsWire (W.faults wire.old) (W.faults wire.new) result }
{
    let head = match ask(alloc, wire, request, body, reader) {
        Ok(head) => head,
        Err(fault) => return Err(shown_fault(alloc, step, reader.inbox.first(), fault)),
    };
    match next_request(alloc, step, request, &head, left)? {
        Some(next) => {
            *reader = Body::new(alloc);
            follow(alloc, wire, step, &next, body, reader, left - 1)
        }
        None => Ok(head),
    }
}

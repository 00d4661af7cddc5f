// What each step makes of the answer to its request.
ghost use Rattle.std.specs.Prelude.{◌≡◌, ◌⊎◌, ◌==◌, ◌≤◌, true, map, codes, take, min, Ok, Some, None, IfOk, IfErr, OnErr, option_map};
ghost use Rattle.image_ref.specs.Calls.{Answers};
ghost use Rattle.image_ref.specs.Domain.{is_domain};
ghost use Rattle.http_message.specs.Shown.{pair_bytes};
ghost use Rattle.http_message.specs.Faults.{shown};
ghost use Rattle.http_exchange.specs.Locations.{location_in};
ghost use Rattle.http_exchange.specs.Calls.{Opened};
ghost use Rattle.http_message.specs.declared.fault.ExchangeFault.TheVariants as long;
ghost use Rattle.registry_http.specs.declared.fault.RegistryFault.TheVariants as fault;
ghost use Rattle.registry_http.specs.Places.{Place};
ghost use Rattle.registry_http.specs.Rows.{is_success, have_row, mount_row, done_row, value_of, or_empty, fetched, manifest_row, blob_row, bad_value, located, begun_at, start_row, goes_on_at, piece_row};

use crate::fault::RegistryFault;
use crate::upload::Upload;
use http_exchange::{Answer, Lead, lead_at, location_in};
use http_message::{ExchangeFault, Response, shown};
use http1::text::eq_ignore_case;
use skopeo_outside::{Fetched, Memory, Pair, Step, Text};
use std::alloc::Global;

/// Whether an answer says yes.
fn is_success(status: u16) -> bool
    ensures { result ≡ is_success status }
{
    200 <= status && status <= 299
}

/// What a HEAD of a blob answers.
pub fn have_row(answer: Result<Response, ExchangeFault>) -> Result<bool, RegistryFault>
    ensures { result ≡ have_row answer }
{
    match answer {
        Ok(response) => match response.status {
            200 => Ok(true),
            404 => Ok(false),
            status => Err(RegistryFault::Status(Step::Have, 0, status)),
        },
        Err(fault) => Err(RegistryFault::of(fault)),
    }
}

/// What a mount answers.
pub fn mount_row(answer: Result<Response, ExchangeFault>) -> Result<bool, RegistryFault>
    ensures { result ≡ mount_row answer }
{
    match answer {
        Ok(response) => Ok(response.status == 201),
        Err(fault) => Err(RegistryFault::of(fault)),
    }
}

/// What a step answers that is done at 2xx.
pub fn done_row(step: Step, answer: Result<Response, ExchangeFault>) -> Result<(), RegistryFault>
    ensures { result ≡ done_row step answer }
{
    match answer {
        Ok(response) => {
            if is_success(response.status) {
                Ok(())
            } else {
                Err(RegistryFault::Status(step, 0, response.status))
            }
        }
        Err(fault) => Err(RegistryFault::of(fault)),
    }
}

/// The value of the first header line of a name.
pub fn value_of<'a>(headers: &'a [Pair], name: &str) -> Option<&'a str>
    ensures { option_map (λ x. x.now) result ≡ value_of name.now (map pair_bytes headers.now) }
{
    for pair in headers {
        if eq_ignore_case(pair.name.as_str().as_bytes(), name.as_bytes()) {
            return Some(pair.value.as_str());
        }
    }
    None
}

/// The type that was told of a body, or the empty text.
fn content_type(alloc: Global, headers: &[Pair]) -> Result<Text, Memory>
    ensures { IfOk result (λ t. t ≡ or_empty (value_of (codes "content-type") (map pair_bytes headers.now))) }
{
    match value_of(headers, "content-type") {
        Some(value) => Text::copy_of(alloc, value),
        None => Ok(Text::new(alloc)),
    }
}

/// The bytes that came, and the type that was told of them.
fn fetched(alloc: Global, response: Response) -> Result<Fetched, Memory>
    ensures { IfOk result (λ f. f ≡ fetched response) }
{
    let content_type = content_type(alloc, response.headers.as_slice())?;
    Ok(Fetched {
        bytes: response.body,
        content_type,
    })
}

/// What a GET of a manifest answers.
pub fn manifest_row(
    alloc: Global,
    step: Step,
    answer: Result<Response, ExchangeFault>,
) -> Result<Fetched, RegistryFault>
    ensures { Answers fault.Memory result (manifest_row step answer) }
{
    match answer {
        Ok(response) => {
            if response.status == 200 {
                Ok(fetched(alloc, response)?)
            } else {
                Err(RegistryFault::Status(step, 0, response.status))
            }
        }
        Err(fault) => Err(RegistryFault::of(fault)),
    }
}

/// What a GET of a blob answers, opened.
pub fn blob_row(answer: Result<Answer, ExchangeFault>) -> Result<Answer, RegistryFault>
    ensures row { result ≡ blob_row answer }
    ensures alive { IfOk answer (λ a. a.reader.failed ≡ None) → IfOk result (λ a. a.reader.failed ≡ None) }
{
    match answer {
        Ok(answer) => {
            if answer.status() == 200 {
                Ok(answer)
            } else {
                Err(RegistryFault::Status(Step::Blob, 0, answer.status()))
            }
        }
        Err(fault) => Err(RegistryFault::of(fault)),
    }
}

/// The fault of a value that is none of its header.
pub fn bad_value(alloc: Global, step: Step, value: &[u8]) -> RegistryFault
    ensures { (result ≡ fault.Memory) ⊎ (result ≡ fault.Exchange (long.BadAnswer step (shown value.now))) }
{
    match shown(alloc, value) {
        Ok(bytes) => RegistryFault::Exchange(ExchangeFault::BadAnswer(step, bytes)),
        Err(_) => RegistryFault::Memory,
    }
}

/// Where a location leads.
fn located(
    alloc: Global,
    step: Step,
    host: &str,
    port: u16,
    value: &str,
) -> Result<Upload, RegistryFault>
    requires { is_domain host.now ≡ true }
    ensures { Answers fault.Memory result (located step host.now port value.now) }
{
    match lead_at(alloc, host, port, value)? {
        Lead::Plain(host, port, target) => Ok(Upload { host, port, target }),
        Lead::Tls(_) => Err(bad_value(alloc, step, value.as_bytes())),
        Lead::Nowhere => Err(bad_value(alloc, step, value.as_bytes())),
    }
}

/// Where an upload begins.
fn begun_at(alloc: Global, host: &str, port: u16, headers: &[Pair]) -> Result<Upload, RegistryFault>
    requires { is_domain host.now ≡ true }
    ensures { Answers fault.Memory result (begun_at host.now port (location_in (map pair_bytes headers.now))) }
{
    match location_in(headers) {
        Some(value) => located(alloc, Step::Start, host, port, value),
        None => Err(bad_value(alloc, Step::Start, &[])),
    }
}

/// What a start answers that was asked of this host.
pub fn start_row(
    alloc: Global,
    host: &str,
    port: u16,
    answer: Result<Response, ExchangeFault>,
) -> Result<Upload, RegistryFault>
    requires { is_domain host.now ≡ true }
    ensures { Answers fault.Memory result (start_row host.now port answer) }
{
    match answer {
        Ok(response) => {
            if response.status == 202 {
                begun_at(alloc, host, port, response.headers.as_slice())
            } else {
                Err(RegistryFault::Status(Step::Start, 0, response.status))
            }
        }
        Err(fault) => Err(RegistryFault::of(fault)),
    }
}

/// Where an upload goes on.
fn goes_on_at(alloc: Global, upload: Upload, headers: &[Pair]) -> Result<Upload, RegistryFault>
    ensures { Answers fault.Memory result (goes_on_at upload (location_in (map pair_bytes headers.now))) }
{
    match location_in(headers) {
        Some(value) => located(alloc, Step::Piece, upload.host.as_str(), upload.port, value),
        None => Ok(upload),
    }
}

impl Upload {
    /// The upload after the answer to its piece: 2xx, and a new location is taken.
    pub fn moved(self, alloc: Global, response: &Response) -> Result<Upload, RegistryFault>
        ensures row { Answers fault.Memory result (piece_row self response.now) }
    {
        if !is_success(response.status) {
            return Err(RegistryFault::Status(Step::Piece, 0, response.status));
        }
        goes_on_at(alloc, self, response.headers.as_slice())
    }
}

// Where the `Location` of an answer leads.
ghost use Rattle.std.specs.Prelude.{◌≡◌, ◌&&◌, ◌<◌, ◌≤◌, map, true, ℕ, Bool, List, Option, IfOk, length, option_map, Some, None};
ghost use Rattle.http_message.specs.Shown.{pair_bytes};
ghost use Rattle.image_ref.specs.Characters.{is_digit};
ghost use Rattle.image_ref.specs.Cuts.{cut_at};
ghost use Rattle.image_ref.specs.Domain.{is_domain, number, is_port};
ghost use Rattle.http_exchange.specs.Locations.{Lead, are_visible, port_of, target_in, plain_lead, path_lead, lead_of, location_in, lead_in, shown_location};
ghost use Rattle.http_exchange.specs.Leads.{shown_lead};

use http_message::{are_visible, shown};
use http1::text::eq_ignore_case;
use image_ref::{cut_at, is_domain};
use skopeo_outside::{Many, Memory, Pair, Text};
use std::alloc::Global;

/// Where a location leads.
#[derive(Drop)]
pub enum Lead {
    /// To a target at a host, with its port or without, over plain HTTP.
    Plain(Text, u16, Text),
    /// To a host over TLS.
    Tls(Text),
    /// Nowhere that is followed.
    Nowhere,
}

/// The number that a port writes.
fn port_number(digits: &str) -> u16
    requires { is_port digits.now ≡ true }
    ensures { result ≡ number digits.now }
{
    match digits.parse::<u32>() {
        Ok(number) => number as u16,
        Err(_) => 0,
    }
}

/// The port of a host, which is the one that is written, else 80.
pub fn port_of(host: &str) -> u16
    requires { is_domain host.now ≡ true }
    ensures { result ≡ port_of host.now }
{
    match cut_at(host, ':').1 {
        None => 80,
        Some(digits) => port_number(digits),
    }
}

/// The target behind a host: from its slash on, or the root.
fn target_in(alloc: Global, path: Option<&str>) -> Result<Text, Memory>
    ensures { IfOk result (λ t. t ≡ target_in (option_map (λ x. x.now) path.entry)) }
{
    let mut target = Text::copy_of(alloc, "/")?;
    match path {
        Some(path) => {
            target.push_str(path)?;
            Ok(target)
        }
        None => Ok(target),
    }
}

/// Where a host and a path lead over plain HTTP.
fn plain_lead(alloc: Global, host: &str, path: Option<&str>) -> Result<Lead, Memory>
    ensures { IfOk result (λ lead. shown_lead lead ≡ plain_lead host.now (option_map (λ x. x.now) path.entry)) }
{
    let target = target_in(alloc, path)?;
    if !is_domain(host) || !are_visible(target.as_str()) {
        return Ok(Lead::Nowhere);
    }
    let port = port_of(host);
    Ok(Lead::Plain(Text::copy_of(alloc, host)?, port, target))
}

/// Where a path leads at a host.
fn path_lead(alloc: Global, host: &str, port: u16, path: &str) -> Result<Lead, Memory>
    ensures { IfOk result (λ lead. shown_lead lead ≡ path_lead host.now port path.now) }
{
    if !path.starts_with("/") || !are_visible(path) {
        return Ok(Lead::Nowhere);
    }
    let host = Text::copy_of(alloc, host)?;
    Ok(Lead::Plain(host, port, Text::copy_of(alloc, path)?))
}

/// Where a location without its fragment leads.
fn lead_of(alloc: Global, host: &str, port: u16, text: &str) -> Result<Lead, Memory>
    ensures { IfOk result (λ lead. shown_lead lead ≡ lead_of host.now port text.now) }
{
    if let Some(rest) = text.strip_prefix("http://") {
        let (host, path) = cut_at(rest, '/');
        return plain_lead(alloc, host, path);
    }
    if let Some(rest) = text.strip_prefix("https://") {
        let (host, _) = cut_at(rest, '/');
        return Ok(Lead::Tls(Text::copy_of(alloc, host)?));
    }
    path_lead(alloc, host, port, text)
}

/// The value of the first header line `Location`.
pub fn location_in(headers: &[Pair]) -> Option<&str>
    ensures { option_map (λ x. x.now) result ≡ location_in (map pair_bytes headers.now) }
{
    for pair in headers {
        if eq_ignore_case(pair.name.as_str().as_bytes(), b"location") {
            return Some(pair.value.as_str());
        }
    }
    None
}

/// Where the value of a `Location` leads at a host. What follows a number sign is dropped.
pub fn lead_at(alloc: Global, host: &str, port: u16, value: &str) -> Result<Lead, Memory>
    ensures { IfOk result (λ lead. shown_lead lead ≡ lead_of host.now port (cut_at 35 value.now).0) }
{
    lead_of(alloc, host, port, cut_at(value, '#').0)
}

/// Where an answer of a host leads, by its header lines.
pub fn lead_in(alloc: Global, host: &str, port: u16, headers: &[Pair]) -> Result<Lead, Memory>
    ensures { IfOk result (λ lead. shown_lead lead ≡ lead_in host.now port (map pair_bytes headers.now)) }
{
    match location_in(headers) {
        Some(value) => lead_at(alloc, host, port, value),
        None => Ok(Lead::Nowhere),
    }
}

/// The first bytes of the location of an answer, by its header lines, and none where it is absent.
pub fn shown_location(alloc: Global, headers: &[Pair]) -> Result<Many<u8>, Memory>
    ensures { IfOk result (λ first. first ≡ shown_location (map pair_bytes headers.now)) }
{
    match location_in(headers) {
        Some(value) => shown(alloc, value.as_bytes()),
        None => Ok(Many::new(alloc)),
    }
}

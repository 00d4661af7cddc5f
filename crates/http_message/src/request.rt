// The head of a request.
ghost use Rattle.std.specs.Prelude.{◌≡◌, ◌++◌, ◌∷◌, ◌&&◌, ◌||◌, ◌≤◌, ◌↔◌, [], ℕ, Bool, true, List, Option, None, codes, nat_le, IfOk, OnOk};
ghost use Rattle.std.specs.List.{list_all};
ghost use Rattle.std.specs.Char.{is_ascii_uppercase};
ghost use Rattle.http_message.specs.Sent.{is_text};
ghost use Rattle.http_message.specs.Visible.{are_visible};
ghost use Rattle.http_message.specs.Written.{written};
ghost use Rattle.http_message.specs.Requests.{first_line, accept_line, type_line, size_line, text_of, manifest_types, only_asks, is_visible_type, is_shown, counted, counts_body, MaySend};

use http::Method;
use skopeo_outside::{Memory, Text};
use std::alloc::Global;

/// A request, apart from the bytes of its body.
#[derive(Drop)]
pub struct Request {
    /// Its method.
    pub method: Method,
    /// The host text of its line `Host`, with its port where one was written.
    pub host: Text,
    /// The port that is connected to.
    pub port: u16,
    /// The path with its query.
    pub target: Text,
    /// Whether it says which kinds of manifest are taken.
    pub accept: bool,
    /// The type of its body.
    pub content_type: Option<Text>,
    /// The bytes of its body.
    pub length: Option<u64>,
}

/// Adds a line, made of two parts.
fn push_line(text: &mut Text, name: &str, value: &str) -> Result<(), Memory>
    ensures line { OnOk result (text.new ≡ text.old ++ written ((name.now ++ value.now) ∷ [])) }
{
    text.push_str(name)?;
    text.push_str(value)?;
    text.push_str("\r\n")
}

/// Adds the method, the target and the version.
fn push_first(text: &mut Text, request: &Request) -> Result<(), Memory>
    ensures line { OnOk result (text.new ≡ text.old ++ written (first_line request.now ∷ [])) }
{
    text.push_str(request.method.as_str())?;
    text.push_str(" ")?;
    push_line(text, request.target.as_str(), " HTTP/1.1")
}

/// Adds the line that says which kinds of manifest are taken, where one is asked for.
#[tactic(auto, unfolding(crate::specs::Requests::manifest_types))]
fn push_accept(text: &mut Text, accept: bool) -> Result<(), Memory>
    ensures lines { OnOk result (text.new ≡ text.old ++ written (accept_line accept)) }
{
    if !accept {
        return Ok(());
    }
    push_line(
        text,
        "Accept: ",
        "application/vnd.oci.image.manifest.v1+json, application/vnd.oci.image.index.v1+json, application/vnd.docker.distribution.manifest.v2+json, application/vnd.docker.distribution.manifest.list.v2+json",
    )
}

/// Adds the line that tells the body's type, where it has one.
fn push_type(text: &mut Text, content_type: &Option<Text>) -> Result<(), Memory>
    ensures lines { OnOk result (text.new ≡ text.old ++ written (type_line content_type.now)) }
{
    match content_type {
        Some(content_type) => {
            push_line(text, "Content-Type: ", content_type.as_str())?;
            Ok(())
        }
        None => Ok(()),
    }
}

/// Adds the line that tells the body's length, where it has one.
fn push_size(text: &mut Text, length: Option<u64>) -> Result<(), Memory>
    ensures lines { OnOk result (text.new ≡ text.old ++ written (size_line length)) }
{
    match length {
        Some(length) => {
            text.push_str("Content-Length: ")?;
            text.push_number(length as usize)?;
            text.push_str("\r\n")
        }
        None => Ok(()),
    }
}

/// The text of a request that may be sent, up to its body: its lines in their order, and an empty line. The only
/// error is want of memory.
pub fn write_head(alloc: Global, request: &Request) -> Result<Text, Memory>
    requires may { MaySend request.now (counted request.now.length) }
    ensures text { IfOk result (λ text. text ≡ text_of request.now []) }
{
    let mut text = Text::new(alloc);
    push_first(&mut text, request)?;
    push_line(&mut text, "Host: ", request.host.as_str())?;
    push_line(&mut text, "User-Agent: ", "skopeo")?;
    push_accept(&mut text, request.accept)?;
    push_line(&mut text, "Accept-Encoding: ", "identity")?;
    push_type(&mut text, &request.content_type)?;
    push_size(&mut text, request.length)?;
    push_line(&mut text, "Connection: ", "close")?;
    text.push_str("\r\n")?;
    Ok(text)
}

/// Whether each byte is visible.
pub fn are_visible(text: &str) -> bool
    ensures visible { result ≡ are_visible text.now }
{
    text.as_bytes().iter().all(|b| 33 <= *b && *b <= 126)
}

/// Whether a method is capital letters.
fn is_capital(method: &Method) -> bool
    ensures { result ≡ list_all is_ascii_uppercase method.now }
{
    method
        .as_str()
        .as_bytes()
        .iter()
        .all(|b| b.is_ascii_uppercase())
}

/// Whether the type of a body is visible bytes, where it has one.
fn is_visible_type(content_type: &Option<Text>) -> bool
    ensures { result ≡ is_visible_type content_type.now }
{
    match content_type {
        Some(content_type) => are_visible(content_type.as_str()),
        None => true,
    }
}

/// Whether a request is a GET or a HEAD.
fn only_asks(request: &Request) -> bool
    ensures { result ≡ only_asks request.now }
{
    request.method.as_str() == "GET" || request.method.as_str() == "HEAD"
}

/// Whether a request counts so many bytes for its body. A GET and a HEAD have none.
fn counts(request: &Request, size: u64) -> bool
    ensures { result ≡ counts_body (only_asks request.now) request.now.length size }
{
    match request.length {
        Some(length) => !only_asks(request) && length == size,
        None => size == 0,
    }
}

/// Whether a method is capital letters, and host, target and type are visible bytes.
fn is_shown(request: &Request) -> bool
    ensures { result ≡ is_shown request.now }
{
    is_capital(&request.method)
        && (are_visible(request.host.as_str())
            && (are_visible(request.target.as_str()) && is_visible_type(&request.content_type)))
}

/// Whether a request may be sent with a body of so many bytes.
pub fn may_send(request: &Request, size: u64) -> bool
    ensures may { result ≡ true ↔ MaySend request.now size }
    ensures counted { result ≡ true → MaySend request.now (counted request.now.length) }
{
    if is_shown(request) {
        return counts(request, size);
    }
    false
}

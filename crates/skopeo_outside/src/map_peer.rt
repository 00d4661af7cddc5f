// A registry in memory.
ghost use Rattle.std.specs.Prelude.{◌≡◌, ◌==◌, ◌≤◌, ◌++◌, [], length, codes, decimal, unwrap_or, OnOk, OnErr, IfOk};
ghost use Rattle.std.specs.List.{before_first, after_first, position_or_len};
ghost use Rattle.skopeo_outside.specs.Tree.{empty_tree, file_at, with_file};
ghost use Rattle.skopeo_outside.specs.Peer.{manifest_target, blob_target, first_line, chunk, chunks, framed, bare, get_answer, line_answer, peer_answer};

use crate::line::Peer;
use crate::lists::{Many, Text};
use crate::shelf::Shelf;
use crate::stop::Memory;
use std::alloc::Global;
use std::str;

/// How a registry in memory tells where the body of an answer ends (RFC 9112, section 6).
#[derive(Clone, Copy, Debug, PartialEq, Eq)]
pub enum PeerFraming {
    /// By its length.
    Length,
    /// By chunks of so many bytes, or of one byte where this is 0.
    Chunks(usize),
    /// By the end of the connection.
    ToEnd,
}

/// An honest registry over a finite map from targets to bytes and their types. It answers each GET with what it
/// holds at its target, or 404, and changes by its own calls alone.
#[derive(Drop)]
pub struct MapPeer {
    alloc: Global,
    /// The bodies, by their targets.
    pub bodies: Shelf,
    /// The content types of the bodies, by their targets.
    pub types: Shelf,
    /// How its answers end.
    pub framing: PeerFraming,
}

/// How many bytes stand before the first carriage return.
fn first_length(sent: &[u8]) -> usize
    ensures count { result ≡ position_or_len (λ b. b == 13) sent.now }
    ensures bound { result ≤ length sent.now }
{
    sent.iter().take_while(|b| **b != b'\r').count()
}

/// The first line of what was sent.
fn first_line(sent: &[u8]) -> &[u8]
    ensures { result.now ≡ first_line sent.now }
{
    let end = first_length(sent);
    &sent[..end]
}

/// The first word of a line, and what follows its space.
fn cut(line: &str) -> (&str, &str)
    ensures word { result.0.now ≡ before_first (λ b. b == 32) line.now }
    ensures rest { result.1.now ≡ after_first (λ b. b == 32) line.now }
{
    match line.split_once(' ') {
        Some((word, rest)) => (word, rest),
        None => (line, ""),
    }
}

/// What stands in this folder of a repository.
fn target_in(alloc: Global, name: &str, folder: &str, last: &str) -> Result<Text, Memory>
    ensures { IfOk result (λ text. text ≡ codes "/v2/" ++ (name.now ++ (folder.now ++ last.now))) }
{
    let mut text = Text::copy_of(alloc, "/v2/")?;
    text.push_str(name)?;
    text.push_str(folder)?;
    text.push_str(last)?;
    Ok(text)
}

/// Adds an answer without a body.
fn push_bare(into: &mut Many<u8>, status: &str) -> Result<(), Memory>
    ensures { OnOk result (into.new ≡ into.old ++ bare status.now) }
{
    into.extend(b"HTTP/1.1 ")?;
    into.extend(status.as_bytes())?;
    into.extend(b"\r\nContent-Length: 0\r\n\r\n")?;
    Ok(())
}

/// Adds a chunk.
fn push_chunk(alloc: Global, into: &mut Many<u8>, bytes: &[u8]) -> Result<(), Memory>
    ensures { OnOk result (into.new ≡ into.old ++ chunk bytes.now) }
{
    let size = format!(in alloc; "{:x}", bytes.len())?;
    into.extend(size.as_bytes())?;
    into.extend(b"\r\n")?;
    into.extend(bytes)?;
    into.extend(b"\r\n")
}

/// Adds so many chunks of this size.
fn push_chunks(
    alloc: Global,
    into: &mut Many<u8>,
    count: usize,
    size: usize,
    body: &[u8],
) -> Result<(), Memory>
    ensures { OnOk result (into.new ≡ into.old ++ chunks count size body.now) }
{
    let mut rest = body;
    for _ in 0..count {
        let (piece, more) = rest.split_at(size.min(rest.len()));
        push_chunk(alloc, into, piece)?;
        rest = more;
    }
    Ok(())
}

/// Adds the length of a body.
fn push_length(alloc: Global, into: &mut Many<u8>, body: &[u8]) -> Result<(), Memory>
    ensures { OnOk result (into.new ≡ into.old ++ decimal (length body.now)) }
{
    let mut length = Text::new(alloc);
    length.push_number(body.len())?;
    into.extend(length.as_str().as_bytes())
}

/// Adds the line that tells how a body ends, the empty line, and the body.
fn push_framed(
    alloc: Global,
    into: &mut Many<u8>,
    framing: PeerFraming,
    body: &[u8],
) -> Result<(), Memory>
    ensures { OnOk result (into.new ≡ into.old ++ framed framing body.now) }
{
    match framing {
        PeerFraming::Length => {
            into.extend(b"Content-Length: ")?;
            push_length(alloc, into, body)?;
            into.extend(b"\r\n\r\n")?;
            into.extend(body)
        }
        PeerFraming::Chunks(size) => {
            let size = size.max(1);
            into.extend(b"Transfer-Encoding: chunked\r\n\r\n")?;
            push_chunks(alloc, into, body.len().div_ceil(size), size, body)?;
            into.extend(b"0\r\n\r\n")?;
            Ok(())
        }
        PeerFraming::ToEnd => {
            into.extend(b"\r\n")?;
            into.extend(body)
        }
    }
}

impl MapPeer {
    /// A registry that holds nothing.
    pub fn new(alloc: Global, framing: PeerFraming) -> Self
        ensures bodies { result.bodies ≡ empty_tree }
        ensures types { result.types ≡ empty_tree }
        ensures framing { result.framing ≡ framing }
    {
        MapPeer {
            alloc,
            bodies: Shelf::new(alloc),
            types: Shelf::new(alloc),
            framing,
        }
    }

    /// Holds bytes of a type at a target. Without memory it stays.
    fn put(&mut self, target: &str, media: &str, bytes: Many<u8>) -> Result<(), Memory>
        ensures types { OnOk result (self.new.types ≡ with_file self.old.types target.now media.now) }
        ensures bodies { OnOk result (self.new.bodies ≡ with_file self.old.bodies target.now bytes) }
        ensures framing { self.new.framing ≡ self.old.framing }
        ensures unchanged { OnErr result (self.new ≡ self.old) }
    {
        let mut kind = Many::new(self.alloc);
        kind.extend(media.as_bytes())?;
        let mut types = self.types.again()?;
        types.put(target, kind)?;
        self.bodies.put(target, bytes)?;
        self.types = types;
        Ok(())
    }

    /// Holds a manifest of a repository, by its tag or its digest. Without memory the registry stays.
    pub fn put_manifest(
        &mut self,
        name: &str,
        reference: &str,
        media: &str,
        bytes: Many<u8>,
    ) -> Result<(), Memory>
        ensures types { OnOk result (self.new.types ≡ with_file self.old.types (manifest_target name.now reference.now) media.now) }
        ensures bodies { OnOk result (self.new.bodies ≡ with_file self.old.bodies (manifest_target name.now reference.now) bytes) }
        ensures framing { self.new.framing ≡ self.old.framing }
        ensures unchanged { OnErr result (self.new ≡ self.old) }
    {
        let target = target_in(self.alloc, name, "/manifests/", reference)?;
        self.put(target.as_str(), media, bytes)
    }

    /// Holds a blob of a repository, by its digest. Without memory the registry stays.
    pub fn put_blob(&mut self, name: &str, digest: &str, bytes: Many<u8>) -> Result<(), Memory>
        ensures types { OnOk result (self.new.types ≡ with_file self.old.types (blob_target name.now digest.now) (codes "application/octet-stream")) }
        ensures bodies { OnOk result (self.new.bodies ≡ with_file self.old.bodies (blob_target name.now digest.now) bytes) }
        ensures framing { self.new.framing ≡ self.old.framing }
        ensures unchanged { OnErr result (self.new ≡ self.old) }
    {
        let target = target_in(self.alloc, name, "/blobs/", digest)?;
        self.put(target.as_str(), "application/octet-stream", bytes)
    }

    /// The type of the body at a target.
    fn media_at(&self, target: &str) -> &[u8]
        ensures { result.now ≡ unwrap_or (file_at self.now.types target.now) [] }
    {
        match self.types.get(target) {
            Some(media) => media,
            None => b"",
        }
    }

    /// Adds the answer to a GET of a target.
    fn answer_get(&self, target: &str, into: &mut Many<u8>) -> Result<(), Memory>
        ensures { OnOk result (into.new ≡ into.old ++ get_answer self.now target.now) }
    {
        let Some(body) = self.bodies.get(target) else {
            return push_bare(into, "404 Not Found");
        };
        into.extend(b"HTTP/1.1 200 OK\r\nContent-Type: ")?;
        into.extend(self.media_at(target))?;
        into.extend(b"\r\n")?;
        push_framed(self.alloc, into, self.framing, body)?;
        Ok(())
    }

    /// Adds the answer to a request with this first line.
    fn answer_line(&self, line: &str, into: &mut Many<u8>) -> Result<(), Memory>
        ensures { OnOk result (into.new ≡ into.old ++ line_answer self.now line.now) }
    {
        let (method, rest) = cut(line);
        let (target, _) = cut(rest);
        if method == "GET" {
            return self.answer_get(target, into);
        }
        push_bare(into, "405 Method Not Allowed")
    }

    /// Adds the answer to what was sent so far.
    fn answer_sent(&self, sent: &[u8], into: &mut Many<u8>) -> Result<(), Memory>
        ensures { OnOk result (into.new ≡ into.old ++ peer_answer self.now sent.now) }
    {
        match str::from_utf8(first_line(sent)) {
            Ok(line) => {
                self.answer_line(line, into)?;
                Ok(())
            }
            Err(_) => {
                push_bare(into, "400 Bad Request")?;
                Ok(())
            }
        }
    }
}

impl Peer for MapPeer {
    ghost answers = { λ old _ _ sent before after new. (after ≡ before ++ peer_answer old sent) × (new ≡ old) };

    /// Adds the answer to what was sent so far. The only error is want of memory.
    fn answer(
        &mut self,
        _host: &str,
        _port: u16,
        sent: &[u8],
        into: &mut Many<u8>,
    ) -> Result<(), Memory>
        ensures answer { OnOk result (into.new ≡ into.old ++ peer_answer self.old sent.now) }
        ensures unchanged { OnErr result (into.new ≡ into.old) }
        ensures kept { self.new ≡ self.old }
    {
        let mut added = Many::new(self.alloc);
        self.answer_sent(sent, &mut added)?;
        into.extend(added.as_slice())
    }
}

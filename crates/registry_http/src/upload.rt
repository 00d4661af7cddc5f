// An upload that was begun.
ghost use Rattle.std.specs.Prelude.{◌≡◌, ◌≤◌, ℕ, List, length, IfOk};
ghost use Rattle.registry_http.specs.Places.{Place, IsPlace};
ghost use Rattle.http_message.specs.Requests.{MaySend};
ghost use Rattle.http_exchange.specs.Plain.{IsMild};
ghost use Rattle.registry_http.specs.Requests.{piece_request};

use crate::requests::request_at;
use http::Method;
use http_message::Request;
use skopeo_outside::{Memory, Text};
use std::alloc::Global;
use std::marker::Model;

/// The place where an upload goes on, which contracts see as that place.
#[derive(Debug, Drop)]
pub struct Upload {
    pub(crate) host: Text,
    pub(crate) port: u16,
    pub(crate) target: Text,
}

impl Model for Upload {
    ghost use Rattle.registry_http.specs.Places.{Place, IsPlace};

    ghost Value = { Place };

    ghost view = { λ u. record { host = u.host; port = u.port; target = u.target } };

    ghost invariant = { λ u. IsPlace (record { host = u.host; port = u.port; target = u.target }) };
}

impl Upload {
    /// Its host, with the port where one was written.
    pub fn host(&self) -> &str
        ensures host { result.now ≡ self.now.host }
        ensures place { IsPlace self.now }
    {
        self.host.as_str()
    }

    /// The port that is connected to.
    pub fn port(&self) -> u16
        ensures port { result ≡ self.now.port }
    {
        self.port
    }

    /// Its target.
    pub fn target(&self) -> &str
        ensures target { result.now ≡ self.now.target }
    {
        self.target.as_str()
    }

    /// The request that sends so many bytes to it: their head goes by `begin`, they go by `send_piece`, and the
    /// answer comes by `end`.
    pub fn request(&self, alloc: Global, size: u64) -> Result<Request, Memory>
        ensures request { IfOk result (λ r. r ≡ piece_request self.now size) }
        ensures mild { IfOk result (λ r. (body : List ℕ) → length body ≤ size → IsMild r body) }
        ensures may { IfOk result (λ r. MaySend r size) }
    {
        let mut request = request_at(
            alloc,
            Method::PATCH,
            self.host(),
            self.port(),
            self.target(),
        )?;
        request.content_type = Some(Text::copy_of(alloc, "application/octet-stream")?);
        request.length = Some(size);
        Ok(request)
    }
}

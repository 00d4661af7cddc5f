//! HTTP/1.1 messages apart from any wire: received bytes spell at most one outcome.
#![tactic(auto)]

mod answer;
mod block;
mod chunk;
mod fault;
mod framing;
mod head;
mod law;
mod request;

pub use answer::{Response, has_body, respond, told_headers};
pub use block::{Ending, MOST_BYTES, find_end};
pub use chunk::{read_chunk_line, read_trailer};
pub use fault::{AnswerFault, ExchangeFault, shown};
pub use framing::{Framing, framing_of, is_encoded};
pub use head::{Field, Head, is_interim, read_head};
pub use law::{one_head, one_outcome, one_request, own_writes};
pub use request::{Request, are_visible, may_send, write_head};

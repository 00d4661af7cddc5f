//! An HTTP/1.1 client over any wire: the outcome of an exchange is what all bytes that were received spell.
#![tactic(auto)]

mod answer;
mod ask;
mod block;
mod chunk;
mod collect;
mod exchanging;
mod follow;
mod full;
mod head;
mod inbox;
mod law;
mod location;
mod opening;
mod pieces;
mod sending;
mod state;
mod stream;

pub use answer::{Answer, close_answer, next_piece, open, read_full};
pub use exchanging::exchange;
pub use law::{given_lags, given_pieces, plain_exchanges, sent_pieces};
pub use location::{Lead, lead_at, location_in, port_of};
pub use pieces::{Unsent, begin, end, send_piece};

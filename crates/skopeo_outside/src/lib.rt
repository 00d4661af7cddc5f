//! What lies outside the program: traits whose every call says what it did, a fault only where the count of faults rose.
#![tactic(auto)]

mod failures;
mod files;
mod helper;
mod idle;
mod lane;
mod line;
mod listing;
mod lists;
mod map_peer;
mod mem_helper;
mod mem_wire;
mod memory;
mod pair;
mod shelf;
mod sink;
mod stop;
mod wire;
mod words;

pub use failures::Failures;
pub use files::Files;
pub use helper::Helper;
pub use idle::{Idle, Passing};
pub use lane::Lane;
pub use line::{Peer, SureWire};
pub use lists::{Entry, Many, Text};
pub use map_peer::{MapPeer, PeerFraming};
pub use mem_helper::{Ended, MemHelper, Ran, Reply, SureHelper};
pub use mem_wire::MemWire;
pub use memory::{MemFiles, SureFiles};
pub use pair::Pair;
pub use shelf::Shelf;
pub use sink::{MemSink, Sink, SureSink};
pub use stop::{Memory, Stop};
pub use wire::Wire;
pub use words::{Fetched, Step, What};

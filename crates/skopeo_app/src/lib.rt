//! The command: it writes a manifest only where the policy admits the image that the words name, over blobs that stand whole.
#![tactic(auto)]

mod command;
mod conf;
mod files;
mod law;
mod lines;
mod policy;
mod refusal;
mod rows;
mod rules;
mod run;
mod task;
mod words;

pub use command::skopeo;
pub use law::folder_copies;
pub use refusal::{CommandRefusal, Unbuilt};
pub use rules::Rules;
pub use run::Done;
pub use task::{ConfChoice, CopyTask, PolicyChoice, Task};

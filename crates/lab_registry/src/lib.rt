//! A registry and a verifier for trials: what they write is the stated answer to what they read.
#![tactic(auto)]

mod answer;
mod image;
mod question;
mod request;
mod unanswered;
mod unjudged;
mod verifier;
mod words;

pub use answer::answer_request;
pub use image::hold_image;
pub use unanswered::Unanswered;
pub use unjudged::Unjudged;
pub use verifier::answer_question;
pub use words::{Task, read_task};

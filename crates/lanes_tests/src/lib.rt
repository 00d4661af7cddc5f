//! Tests of `skopeo_app` over lanes that wait for each other, in a crate of their own so that no other test is proved again.
#![tactic(auto)]

#[cfg(test)]
mod meeting;
#[cfg(test)]
mod tests;

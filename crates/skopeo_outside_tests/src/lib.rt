//! Tests of `skopeo_outside`, in a crate of their own so that it is proved once.
#![tactic(auto)]

#[cfg(test)]
mod tests;

//! Tests of `real_helper` with programs of this machine, in a crate of their own so that it is proved once.
#![tactic(auto)]

#[cfg(test)]
mod tests;

//! Tests of `real_wires` with both ends in one process, in a crate of their own so that it is proved once.
#![tactic(auto)]

#[cfg(test)]
mod tests;
